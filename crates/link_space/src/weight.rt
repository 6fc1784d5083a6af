//! The value of a link timing.

ghost use Rattle.std.specs.{Prelude.{◌≡◌, ◌*◌, ◌<◌, ◌≤◌, ◌^◌, All, length, pos, ◌≤ℤ◌}, List.{sum}};
ghost use Rattle.artery_model.specs.Bounds.{most_signals};
ghost use Rattle.link_theory.specs.BestLinks.{link_value};

use crate::timing::LinkTiming;
use artery_model::Artery;
use narrow_fraction::Frac;
use time_space::weighted;

/// The widths of all bands, each twice its half.
fn widths(halves: &[u128]) -> u128
    requires few { length halves.now < most_signals }
    requires small { All (λ n. n < 2 ^ 80) halves.now }
    ensures value { result ≡ 2 * sum halves.now }
    ensures small { result < 2 ^ 92 }
{
    let mut total = 0;
    for half in halves {
        total += *half;
    }
    2 * total
}

/// The widths of all bands, the inbound ones times the ratio, as a fraction of the cycle.
#[tactic(auto, using(crate::proofs::LinkValues::value_is))]
pub fn link_value(artery: &Artery, timing: &LinkTiming) -> Frac
    ensures value { result ≡ link_value artery.now timing.now }
    ensures least { pos 0 ≤ℤ result.num }
    ensures denominator { result.den ≤ 2 ^ 120 }
{
    weighted(
        artery.ratio(),
        widths(timing.half_out()),
        widths(timing.half_in()),
        timing.base().cycle(artery),
    )
}
