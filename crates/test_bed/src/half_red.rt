//! The street whose vertices were worked by hand: two signals with half of a cycle of 100 seconds red, driven at 36 kilometres an hour.

ghost use Rattle.std.specs.Prelude.{◌≡◌, ◌<◌, IfOk};
ghost use Rattle.rational_theory.specs.Rational.{◌/ℚ◌};
ghost use Rattle.progression.specs.{Speeds.{number}, Worked.{half_red}};
ghost use Rattle.test_bed.specs.Samples.{signal_of};
ghost use Rattle.linear_theory.specs.Worked.{apart};

use crate::sample::{SampleSignal, plain_head, plain_link, plain_signal};
use crate::sampled::sample_street;
use artery_model::Artery;
use narrow_fraction::Frac;
use std::alloc::Global;
use std::test::Fail;

/// With each left turn pattern.
fn half_red(name: &'static str) -> SampleSignal
    ensures { signal_of result ≡ half_red name.now }
{
    SampleSignal {
        patterns: [true, true, true, true],
        ..plain_signal(name, 50)
    }
}

/// Its signals so many metres apart.
pub fn half_red_street(alloc: Global, metres: u32) -> Result<Artery, Fail>
    ensures { IfOk result (λ a. a ≡ apart metres) }
{
    let signals = [half_red("A"), half_red("B")];
    match sample_street(alloc, plain_head(), &signals, &[plain_link(metres)]) {
        Ok(artery) => Ok(artery),
        Err(_) => Err("no artery".into()),
    }
}

/// A number of a vertex, such as its waits and runs in cycles.
#[tactic(auto, using(rational_theory::proofs::Order::whole_not_zero))]
pub fn part_of(top: u32, bottom: u32) -> Result<Frac, Fail>
    requires { 0 < bottom }
    ensures { IfOk result (λ f. f ≡ number top /ℚ number bottom) }
{
    match Frac::whole(i64::from(top)).over(Frac::whole(i64::from(bottom))) {
        Ok(fraction) => Ok(fraction),
        Err(_) => Err("no fraction".into()),
    }
}
