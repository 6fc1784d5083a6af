//! The weighted band of a timing.

ghost use Rattle.std.specs.Prelude.{◌≡◌, ◌<◌, ◌≤◌, ◌^◌, pos, ◌≤ℤ◌, unsigned_abs};
ghost use Rattle.rational_theory.specs.Rational.{◌+ℚ◌, ◌*ℚ◌, ◌/ℚ◌};
ghost use Rattle.progression.specs.{Speeds.{number}, Best.{weighted_band}};
ghost use Rattle.artery_model.specs.Bounds.{most_denominator, most_numerator};

use crate::diagram::cycle;
use crate::timing::Timing;
use artery_model::Artery;
use narrow_fraction::Frac;
use progression::Dir;

/// The numerator of a small fraction that isn't negative.
fn numerator(given: Frac) -> u128
    requires least { pos 0 ≤ℤ given.num }
    requires most { unsigned_abs given.num ≤ most_numerator }
    ensures value { pos result ≡ given.num }
    ensures most { result ≤ most_numerator }
{
    given.num() as u128
}

/// The denominator of a small fraction.
fn denominator(given: Frac) -> u128
    requires { given.den ≤ most_denominator }
    ensures value { result ≡ given.den }
    ensures least { 1 ≤ result }
    ensures most { result ≤ most_denominator }
{
    given.den() as u128
}

/// An outbound and the ratio times an inbound number of ticks, as a fraction of the cycle.
pub fn weighted(ratio: Frac, out: u128, back: u128, cycle: u128) -> Frac
    requires least { pos 0 ≤ℤ ratio.num }
    requires num { unsigned_abs ratio.num ≤ most_numerator }
    requires den { ratio.den ≤ most_denominator }
    requires out { out < 2 ^ 92 }
    requires back { back < 2 ^ 92 }
    requires cycle { 0 < cycle }
    requires size { cycle < 2 ^ 92 }
    ensures value { result ≡ (number out +ℚ ratio *ℚ number back) /ℚ number cycle }
    ensures least { pos 0 ≤ℤ result.num }
    ensures denominator { result.den ≤ 2 ^ 120 }
{
    let (num, den) = (numerator(ratio), denominator(ratio));
    let widths = den * out + num * back;
    Frac::reduced(widths as i128, den * cycle)
}

/// The weighted band: the outbound band and the ratio times the inbound one, as a fraction of the cycle.
pub fn value(artery: &Artery, timing: &Timing) -> Frac
    ensures value { result ≡ weighted_band artery.now timing.now }
    ensures least { pos 0 ≤ℤ result.num }
    ensures denominator { result.den ≤ 2 ^ 120 }
{
    weighted(
        artery.ratio(),
        timing.band(Dir::Outbound),
        timing.band(Dir::Inbound),
        cycle(artery, timing),
    )
}
