//! The columns of a row, one after another: sums, and the first that is too small.

ghost use Rattle.std.specs.Prelude.{◌≡◌, ◌<◌, ◌^◌, length, IfOk, pos, IfErr};
ghost use Rattle.rational_theory.specs.{Rational.{whole, ◌+ℚ◌, ◌*ℚ◌}, Rows.{add, scale}};
ghost use Rattle.narrow_fraction.specs.Attempt.{attempt, first_below};
ghost use Rattle.named_row.specs.{Refusals.{place_refusal, cell_refusal}, Covering.{below, number_at}, Sheets.{coefs_left}};

use crate::names::Place;
use crate::wide_at::WideAt;
use narrow_fraction::Frac;

/// The number and `by` times another one, for this place: first the product, then the sum. Another one of 0 leaves the
/// number as it is, and neither operation can be refused.
#[inline(always)]
pub fn add_number(number: Frac, by: Frac, other: Frac, place: Place) -> Result<Frac, WideAt>
    ensures { result ≡ attempt (place_refusal place by number other) (number +ℚ by *ℚ other) }
{
    if other.is_zero() {
        return Ok(number.fitting());
    }
    let product = match by.times(other) {
        Ok(product) => product,
        Err(wide) => return Err(WideAt { place, wide }),
    };
    match number.plus(product) {
        Ok(sum) => Ok(sum),
        Err(wide) => Err(WideAt { place, wide }),
    }
}

/// Each number and `by` times the other row's, column by column, up to the first that is refused.
pub fn add_cells(coefs: &mut [Frac], by: Frac, other: &[Frac]) -> Result<(), WideAt>
    requires same { length other.now ≡ length coefs.old }
    requires width { length coefs.old < 2 ^ 32 }
    ensures outcome { result ≡ attempt (first_below (cell_refusal by coefs.old other.now) (length coefs.old)) tt }
    ensures sum { IfOk result (λ _. coefs.new ≡ add coefs.old (scale by other.now)) }
    ensures left { IfErr result (λ w. coefs.new ≡ coefs_left w.place by coefs.old other.now) }
    ensures width { length coefs.new ≡ length coefs.old }
{
    for column in 0..coefs.len() {
        let place = Place::Cell(column as u32);
        match add_number(coefs[column], by, other[column], place) {
            Ok(sum) => coefs[column] = sum,
            Err(wide) => return Err(wide),
        }
    }
    Ok(())
}

/// Refuses the first column whose number is less than the goal's.
pub fn none_below(coefs: &[Frac], goal: &[Frac]) -> Result<(), Place>
    requires same { length goal.now ≡ length coefs.now }
    requires width { length coefs.now < 2 ^ 32 }
    ensures { result ≡ attempt (first_below (λ j. below (number_at coefs.now j) (number_at goal.now j) j) (length coefs.now)) tt }
{
    for column in 0..coefs.len() {
        if coefs[column] < goal[column] {
            return Err(Place::Cell(column as u32));
        }
    }
    Ok(())
}

/// Refuses the first column whose number is negative.
pub fn none_negative(coefs: &[Frac]) -> Result<(), Place>
    requires width { length coefs.now < 2 ^ 32 }
    ensures { result ≡ attempt (first_below (λ j. below (number_at coefs.now j) (whole (pos 0)) j) (length coefs.now)) tt }
{
    let zero = Frac::whole(0);
    for column in 0..coefs.len() {
        if coefs[column] < zero {
            return Err(Place::Cell(column as u32));
        }
    }
    Ok(())
}
