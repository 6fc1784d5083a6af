//! Runs in seconds, and limits of a change of pace in seconds per metre or foot.

ghost use Rattle.std.specs.Prelude.{◌≡◌, ◌*◌, ◌≤◌, pos, ◌≤ℤ◌, unsigned_abs};
ghost use Rattle.rational_theory.specs.Rational.{◌*ℚ◌, ◌/ℚ◌};
ghost use Rattle.progression.specs.Speeds.{number, seconds, unit_length};
ghost use Rattle.artery_model.specs.Bounds.{least_distance, most_distance, least_speed, most_speed, least_change, most_change, most_numerator, most_denominator};
ghost use Rattle.artery_model.specs.Valid.{IsQuantity, IsPair, IsPaces};

use narrow_fraction::Frac;
use progression::{Pair, Units};

/// `top * distance / (bottom * speed)`.
fn run(top: u32, bottom: u32, distance: u32, speed: Frac) -> Frac
    requires top { 1 ≤ top }
    requires top_most { top ≤ 18 }
    requires bottom { 1 ≤ bottom }
    requires bottom_most { bottom ≤ 22 }
    requires least { least_distance ≤ distance }
    requires most { distance ≤ most_distance }
    requires speed { IsQuantity least_speed most_speed speed }
    ensures value { result ≡ number (top * distance) /ℚ (number bottom *ℚ speed) }
    ensures positive { pos 1 ≤ℤ result.num }
    ensures num { unsigned_abs result.num ≤ 540000000 }
    ensures den { result.den ≤ 2200000 }
{
    let top = u64::from(top * distance) * speed.den() as u64;
    let bottom = u128::from(bottom) * speed.num().unsigned_abs();
    Frac::reduced(i128::from(top), bottom)
}

/// The seconds that a distance takes at a speed: the distance in metres or feet, the speed in km/h or miles an hour.
pub fn seconds(units: Units, distance: u32, speed: Frac) -> Frac
    requires least { least_distance ≤ distance }
    requires most { distance ≤ most_distance }
    requires speed { IsQuantity least_speed most_speed speed }
    ensures value { result ≡ seconds units distance speed }
    ensures positive { pos 1 ≤ℤ result.num }
    ensures num { unsigned_abs result.num ≤ 540000000 }
    ensures den { result.den ≤ 2200000 }
{
    match units {
        Units::Metric => run(18, 5, distance, speed),
        Units::English => run(15, 22, distance, speed),
    }
}

fn unit_length(units: Units) -> u32
    ensures value { result ≡ unit_length units }
    ensures least { 1 ≤ result }
    ensures most { result ≤ 5280 }
{
    match units {
        Units::Metric => 1000,
        Units::English => 5280,
    }
}

/// A limit in seconds per kilometre or mile, in seconds per metre or foot.
fn pace(units: Units, given: Frac) -> Frac
    requires num { unsigned_abs given.num ≤ most_numerator }
    requires den { given.den ≤ most_denominator }
    ensures value { result ≡ given /ℚ number (unit_length units) }
    ensures num { unsigned_abs result.num ≤ most_numerator }
    ensures den { result.den ≤ 5280000 }
{
    Frac::reduced(
        given.num(),
        u128::from(unit_length(units)) * given.den().unsigned_abs(),
    )
}

/// Limits in seconds per kilometre or mile, in seconds per metre or foot.
pub(crate) fn paces(units: Units, given: Pair) -> Pair
    requires { IsPair least_change most_change given }
    ensures least { result.least ≡ given.least /ℚ number (unit_length units) }
    ensures most { result.most ≡ given.most /ℚ number (unit_length units) }
    ensures sizes { IsPaces result }
{
    Pair {
        least: pace(units, given.least),
        most: pace(units, given.most),
    }
}
