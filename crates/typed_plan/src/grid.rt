//! The least grid on which the times of a plan are whole ticks.

ghost use Rattle.std.specs.Prelude.{◌≡◌, pos, ◌*ℤ◌, ◌+◌, ◌*◌, ◌<◌, ◌≤◌, ◌^◌, find, nat_le, None, Some, IfOk, IfErr, unsigned_abs};
ghost use Rattle.rational_theory.specs.Gcd.{lcm};
ghost use Rattle.progression.specs.Street.{count};
ghost use Rattle.typed_plan.specs.Counts.{HasCounts};
ghost use Rattle.typed_plan.specs.Grid.{told, time, how_many, common, common_all, commons, shared, ticks, least_grid, size, runs, sizes, too_fine};

use crate::times::{Times, how_many, time};
use artery_model::{Artery, Dir};
use description_reader::TypedPlan;
use narrow_fraction::{Frac, common_multiple};
use time_space::LIMIT;

/// The number, or that a timing can't hold it.
fn held(ticks: u128) -> Result<u128, u128>
    ensures held { IfOk result (λ n. (n ≡ ticks) × (n < 2 ^ 80)) }
    ensures large { IfErr result (λ n. (n ≡ ticks) × (2 ^ 80 ≤ n)) }
{
    if ticks < LIMIT { Ok(ticks) } else { Err(ticks) }
}

/// The greatest multiple that is told, `2^127 - 1`.
const MOST_TOLD: u128 = 170_141_183_460_469_231_731_687_303_715_884_105_727;

/// The least common multiple with one more denominator, as it is told.
fn joined(ticks: u128, time: Frac) -> u128
    ensures { result ≡ told (lcm ticks time.den) }
{
    match common_multiple(ticks, time.den().unsigned_abs()) {
        Some(joined) => joined,
        None => MOST_TOLD,
    }
}

/// The least common multiple of a number and of the denominators of these times; or the first such multiple on the way that a timing
/// can't hold, as it is told.
fn common(artery: &Artery, plan: &TypedPlan, times: Times, start: u128) -> Result<u128, u128>
    requires counts { HasCounts artery.now plan.now }
    requires above { 1 ≤ start }
    requires small { start < 2 ^ 80 }
    ensures value { IfOk result (λ n. n ≡ common_all artery.now plan.now times start) }
    ensures above { IfOk result (λ n. 1 ≤ n) }
    ensures small { IfOk result (λ n. n < 2 ^ 80) }
    ensures none { IfOk result (λ _. find (λ n. nat_le (2 ^ 80) n) (commons artery.now plan.now times start) ≡ None) }
    ensures first { IfErr result (λ n. find (λ n. nat_le (2 ^ 80) n) (commons artery.now plan.now times start) ≡ Some n) }
{
    let mut ticks = start;
    for place in 0..how_many(artery, times) {
        ticks = held(joined(ticks, time(artery, plan, times, place + 1)))?;
    }
    Ok(ticks)
}

/// A product that isn't large.
#[tactic(auto, using(crate::proofs::Sizes::product_small))]
pub fn product(number: i128, by: u128) -> i128
    requires small { unsigned_abs number * by < 2 ^ 110 }
    requires by { by < 2 ^ 80 }
    ensures value { result ≡ number *ℤ pos by }
    ensures near { unsigned_abs result < 2 ^ 110 }
{
    number * by as i128
}

/// A time in ticks, on a grid of which it is a whole number of them.
#[tactic(auto, using(crate::proofs::Sizes::ticks_small))]
pub fn ticks(grid: u128, time: Frac) -> i128
    requires small { grid < 2 ^ 80 }
    requires num { unsigned_abs time.num ≤ 540000000 * time.den }
    ensures value { result ≡ ticks grid time }
    ensures near { unsigned_abs result < 2 ^ 110 }
{
    product(time.num(), grid / time.den().unsigned_abs())
}

/// The same of a time that is at least 0.
fn size_of(grid: u128, time: Frac) -> u128
    requires small { grid < 2 ^ 80 }
    requires num { unsigned_abs time.num ≤ 540000000 * time.den }
    ensures value { result ≡ unsigned_abs (ticks grid time) }
    ensures most { result < 2 ^ 110 }
{
    ticks(grid, time).unsigned_abs()
}

/// The least number of ticks a second on which each of the times is whole; or the first multiple on the way that a timing can't hold.
fn shared(artery: &Artery, plan: &TypedPlan) -> Result<u128, u128>
    requires { HasCounts artery.now plan.now }
    ensures value { IfOk result (λ n. n ≡ shared artery.now plan.now) }
    ensures above { IfOk result (λ n. 1 ≤ n) }
    ensures small { IfOk result (λ n. n < 2 ^ 80) }
    ensures so_far { IfOk result (λ _. too_fine artery.now plan.now ≡ find (λ n. nat_le (2 ^ 80) n) (sizes artery.now plan.now)) }
    ensures first { IfErr result (λ n. too_fine artery.now plan.now ≡ Some n) }
{
    let with_part = common(artery, plan, Times::Part, 1)?;
    let with_offsets = common(artery, plan, Times::After, with_part)?;
    let with_out = common(artery, plan, Times::Run(Dir::Outbound), with_offsets)?;
    common(artery, plan, Times::Run(Dir::Inbound), with_out)
}

/// The least grid: twice as fine where a part had but one tick.
fn least_grid(artery: &Artery, plan: &TypedPlan, coarse: u128) -> u128
    requires counts { HasCounts artery.now plan.now }
    requires shared { coarse ≡ shared artery.now plan.now }
    requires small { coarse < 2 ^ 80 }
    ensures value { result ≡ least_grid artery.now plan.now }
    ensures most { result ≤ 2 * coarse }
{
    let part = time(artery, plan, Times::Part, 1);
    if size_of(coarse, part) == 1 {
        2 * coarse
    } else {
        coarse
    }
}

/// One of the times of a plan in ticks of its least grid.
pub fn size(artery: &Artery, plan: &TypedPlan, grid: u128, times: Times, number: u32) -> u128
    requires counts { HasCounts artery.now plan.now }
    requires grid { grid ≡ least_grid artery.now plan.now }
    requires small { grid < 2 ^ 80 }
    requires first { 1 ≤ number }
    requires last { number ≤ how_many artery.now times }
    ensures value { result ≡ size artery.now plan.now times number }
    ensures most { result < 2 ^ 110 }
{
    size_of(grid, time(artery, plan, times, number))
}

/// Refuses the first run that a timing can't hold.
fn check_runs(artery: &Artery, plan: &TypedPlan, grid: u128, dir: Dir) -> Result<(), u128>
    requires counts { HasCounts artery.now plan.now }
    requires grid { grid ≡ least_grid artery.now plan.now }
    requires small { grid < 2 ^ 80 }
    ensures none { IfOk result (λ _. find (λ n. nat_le (2 ^ 80) n) (runs artery.now plan.now dir) ≡ None) }
    ensures first { IfErr result (λ n. find (λ n. nat_le (2 ^ 80) n) (runs artery.now plan.now dir) ≡ Some n) }
{
    for place in 0..artery.count() - 1 {
        let ticks = size(artery, plan, grid, Times::Run(dir), place + 1);
        let _ = held(ticks)?;
    }
    Ok(())
}

/// Refuses the first number of the least base that can't be held.
fn check_sizes(artery: &Artery, plan: &TypedPlan, grid: u128) -> Result<(), u128>
    requires counts { HasCounts artery.now plan.now }
    requires grid { grid ≡ least_grid artery.now plan.now }
    requires small { grid < 2 ^ 82 }
    ensures none { IfOk result (λ _. find (λ n. nat_le (2 ^ 80) n) (sizes artery.now plan.now) ≡ None) }
    ensures first { IfErr result (λ n. find (λ n. nat_le (2 ^ 80) n) (sizes artery.now plan.now) ≡ Some n) }
{
    let grid = held(grid)?;
    check_runs(artery, plan, grid, Dir::Outbound)?;
    check_runs(artery, plan, grid, Dir::Inbound)?;
    let unit = size(artery, plan, grid, Times::Part, 1);
    let _ = held(u128::from(artery.parts()) * unit)?;
    Ok(())
}

/// The ticks a second of the least base, or the first of its numbers that a timing can't hold.
pub fn fitting_grid(artery: &Artery, plan: &TypedPlan) -> Result<u128, u128>
    requires { HasCounts artery.now plan.now }
    ensures value { IfOk result (λ n. n ≡ least_grid artery.now plan.now) }
    ensures fine { IfOk result (λ _. too_fine artery.now plan.now ≡ None) }
    ensures first { IfErr result (λ n. too_fine artery.now plan.now ≡ Some n) }
{
    let coarse = shared(artery, plan)?;
    let grid = least_grid(artery, plan, coarse);
    check_sizes(artery, plan, grid)?;
    Ok(grid)
}
