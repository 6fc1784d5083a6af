//! The times of a plan in seconds, from its numbers.

ghost use Rattle.std.specs.Prelude.{◌≡◌, ◌≤◌, ◌*◌, unsigned_abs};
ghost use Rattle.rational_theory.specs.Rational.{◌-ℚ◌, ◌/ℚ◌};
ghost use Rattle.progression.specs.Speeds.{number, seconds};
ghost use Rattle.artery_model.specs.Bounds.{least_distance, most_distance, least_speed, most_speed, most_numerator, most_denominator, most_parts};
ghost use Rattle.description_reader.specs.Typed.{IsWritten};

use artery_model::{Units, seconds};
use narrow_fraction::Frac;

/// A quantity over a whole number.
pub fn over_whole(quantity: Frac, by: u32) -> Frac
    requires num { unsigned_abs quantity.num ≤ most_numerator }
    requires den { quantity.den ≤ most_denominator }
    requires by { 1 ≤ by }
    requires small { by ≤ most_parts }
    ensures value { result ≡ quantity /ℚ number by }
    ensures num { unsigned_abs result.num ≤ most_numerator }
{
    Frac::reduced(
        quantity.num(),
        u128::from(by) * quantity.den().unsigned_abs(),
    )
}

/// The seconds that a distance takes at a speed, which is as fine as it can be written.
pub fn at_speed(units: Units, distance: u32, speed: Frac) -> Frac
    requires least { least_distance ≤ distance }
    requires most { distance ≤ most_distance }
    requires speed { IsWritten least_speed most_speed speed }
    ensures value { result ≡ seconds units distance speed }
    ensures num { unsigned_abs result.num ≤ 540000000 * result.den }
{
    match seconds(units, distance, Frac::whole(1)).over(speed) {
        Ok(taken) => taken,
        Err(_) => unreachable!(),
    }
}

/// How much later a moment is than another.
pub fn later_by(one: Frac, other: Frac) -> Frac
    requires one_num { unsigned_abs one.num ≤ most_numerator }
    requires one_den { one.den ≤ most_denominator }
    requires other_num { unsigned_abs other.num ≤ most_numerator }
    requires other_den { other.den ≤ most_denominator }
    ensures value { result ≡ one -ℚ other }
    ensures num { unsigned_abs result.num ≤ 200000000 }
{
    match one.minus(other) {
        Ok(later) => later,
        Err(_) => unreachable!(),
    }
}
