//! The numbers of a row or a goal that is loaded.

ghost use Rattle.std.specs.{Prelude.{◌≡◌, ℕ, ◌<◌, ◌≤◌, ◌^◌, take, length}, List.{range_with_len}};
ghost use Rattle.rational_theory.specs.Rational.{neg_ℚ};
ghost use Rattle.narrow_fraction.specs.Fraction.{FitsFrac};
ghost use Rattle.fraction_tableau.specs.KeptCells.{number_in, kept_below};

use crate::kept::{Kept, put};
use named_row::{Place, Row};
use narrow_fraction::Quotient;

/// The coefficients that aren't 0. The answer is how many there are.
pub fn fill_row(cells: &mut [Kept], from: &Row) -> usize
    requires width { length cells.old ≡ length from.now.coefs }
    requires short { length cells.old < 2 ^ 32 }
    ensures count { result ≤ length cells.old }
    ensures cells { take result cells.new ≡ kept_below (number_in from.now.coefs) (length cells.old) }
    ensures fits { (m : ℕ) → m < length cells.old → FitsFrac (number_in from.now.coefs m) }
{
    let mut made = 0;
    for place in 0..cells.len() {
        let place = place as u32;
        let cell = from.get(Place::Cell(place)).fitting();
        let cell = Quotient::of_fraction(cell);
        made = put(cells, made, Kept { place, cell });
    }
    made
}

/// The negated coefficients that aren't 0. The answer is how many there are.
pub fn fill_goal(cells: &mut [Kept], from: &Row) -> usize
    requires width { length cells.old ≡ length from.now.coefs }
    requires short { length cells.old < 2 ^ 32 }
    ensures count { result ≤ length cells.old }
    ensures cells { take result cells.new ≡ kept_below (λ m. neg_ℚ (number_in from.now.coefs m)) (length cells.old) }
    ensures fits { (m : ℕ) → m < length cells.old → FitsFrac (neg_ℚ (number_in from.now.coefs m)) }
{
    let mut made = 0;
    for place in 0..cells.len() {
        let place = place as u32;
        let cell = from.get(Place::Cell(place)).neg().fitting();
        let cell = Quotient::of_fraction(cell);
        made = put(cells, made, Kept { place, cell });
    }
    made
}

/// The numbers from 0 on.
pub fn count_up(numbers: &mut [u32])
    requires short { length numbers.old < 2 ^ 32 }
    ensures { numbers.new ≡ range_with_len 0 (length numbers.old) }
{
    for place in 0..numbers.len() {
        numbers[place] = place as u32;
    }
}
