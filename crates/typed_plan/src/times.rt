//! The times of a plan that have to be whole ticks.

ghost use Rattle.std.specs.Prelude.{◌≡◌, ◌-◌, ◌*◌, ◌≤◌, unsigned_abs};
ghost use Rattle.progression.specs.Street.{count, HasLink, HasSignal};
ghost use Rattle.typed_plan.specs.{Asked.{after, travel}, Counts.{HasCounts}, Grid.{time, how_many}};

use crate::seconds::{at_speed, later_by, over_whole};
use artery_model::{Artery, Dir};
use description_reader::{Measure, TypedPlan};
use narrow_fraction::Frac;

/// Times of a plan, counted from 1.
#[derive(Clone, Copy)]
pub enum Times {
    /// A part of the cycle, of which there is one.
    Part,
    /// How much later than signal 1's moment that of each signal comes.
    After,
    /// The time on each link.
    Run(Dir),
}

/// How much later than signal 1's moment that of a signal comes, in seconds.
fn after(artery: &Artery, plan: &TypedPlan, signal: u32) -> Frac
    requires counts { HasCounts artery.now plan.now }
    requires signal { HasSignal artery.now signal }
    ensures value { result ≡ after plan.now signal }
    ensures num { unsigned_abs result.num ≤ 540000000 * result.den }
{
    let offsets = plan.offsets();
    later_by(offsets[signal as usize - 1], offsets[0])
}

/// The time on a link, in seconds.
fn travel(artery: &Artery, plan: &TypedPlan, dir: Dir, link: u32) -> Frac
    requires counts { HasCounts artery.now plan.now }
    requires link { HasLink artery.now link }
    ensures value { result ≡ travel artery.now plan.now dir link }
    ensures num { unsigned_abs result.num ≤ 540000000 * result.den }
{
    let measured = plan.measured(dir)[link as usize - 1];
    match plan.measure(dir) {
        Measure::Speed => at_speed(artery.head().units, artery.distance(dir, link), measured),
        Measure::Travel => measured,
    }
}

/// How many of these times there are.
pub fn how_many(artery: &Artery, times: Times) -> u32
    ensures value { result ≡ how_many artery.now times }
    ensures small { result ≤ 24 }
{
    match times {
        Times::Part => 1,
        Times::After => artery.count(),
        Times::Run(_) => artery.count() - 1,
    }
}

/// One of these times, in seconds.
pub fn time(artery: &Artery, plan: &TypedPlan, times: Times, number: u32) -> Frac
    requires counts { HasCounts artery.now plan.now }
    requires first { 1 ≤ number }
    requires last { number ≤ how_many artery.now times }
    ensures value { result ≡ time artery.now plan.now times number }
    ensures num { unsigned_abs result.num ≤ 540000000 * result.den }
{
    match times {
        Times::Part => over_whole(plan.cycle(), artery.parts()),
        Times::After => after(artery, plan, number),
        Times::Run(dir) => travel(artery, plan, dir, number),
    }
}
