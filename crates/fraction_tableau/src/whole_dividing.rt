//! A narrow row divided: by whole numbers, over the size of the pivot's numerator. No number grows.

ghost use Rattle.std.specs.Prelude.{◌≡◌, ◌+◌, ◌<◌, ◌≤◌, ◌^◌, neg_ℤ, pos, cond, length, take, unsigned_abs};
ghost use Rattle.rational_theory.specs.Rational.{inverse_ℚ, ◌*ℚ◌};
ghost use Rattle.simplex_theory.specs.Lines.{divided};
ghost use Rattle.fraction_tableau.specs.{KeptCells.{number_in, kept_below}, Scales.{IsOver, IsScaled, IsDividing, pivot_of}};

use crate::kept::{Kept, put};
use crate::scale::{Scale, numerator_of};
use crate::sparse_row::SparseRow;
use narrow_fraction::Quotient;

/// How a row at a scale is divided at a place: by the numerator of the pivot, which isn't 0.
#[derive(Clone, Copy)]
pub struct Dividing {
    pub place: u32,
    pub row: Scale,
    pub pivot: i64,
}

/// A number, or the one on the other side of 0.
fn with_sign(number: i64, negative: bool) -> i64
    requires { unsigned_abs number < 2 ^ 62 }
    ensures { result ≡ cond negative (neg_ℤ number) number }
{
    if negative { -number } else { number }
}

/// The pivot's numerator becomes the denominator; other numerators stay.
fn divided_numerator(numerator: i64, denominator: u64, is_own: bool) -> i64
    requires { denominator < 2 ^ 62 }
    ensures { result ≡ cond is_own (pos denominator) numerator }
{
    if is_own {
        denominator as i64
    } else {
        numerator
    }
}

impl Dividing {
    /// The scale of the row that is made: no number grows.
    pub fn scale(&self) -> Scale
        requires { IsDividing self.now }
        ensures denominator { result.denominator ≡ unsigned_abs self.now.pivot }
        ensures most { result.most ≡ self.now.row.most }
    {
        Scale {
            denominator: self.pivot.unsigned_abs(),
            most: self.row.most,
        }
    }

    /// A number of the row over the pivot, or one over the pivot where the number is the pivot's own.
    pub fn divided(&self, number: &Quotient, is_own: bool) -> Quotient
        requires dividing { IsDividing self.now }
        requires over { IsOver self.now.row.denominator self.now.row.most number.now }
        ensures { result ≡ cond is_own (inverse_ℚ (pivot_of self.now)) (number.now *ℚ inverse_ℚ (pivot_of self.now)) }
    {
        let denominator = self.row.denominator;
        let numerator = divided_numerator(numerator_of(number, denominator), denominator, is_own);
        Quotient::of_words(
            with_sign(numerator, self.pivot < 0),
            self.pivot.unsigned_abs(),
        )
    }
}

/// The cells of the row divided. The answer is how many there are.
pub fn divide_whole(cells: &mut [Kept], row: &SparseRow, dividing: &Dividing) -> usize
    requires width { length row.now ≡ length cells.old + 1 }
    requires short { length row.now < 2 ^ 32 }
    requires place { dividing.now.place < length cells.old }
    requires dividing { IsDividing dividing.now }
    requires row { IsScaled dividing.now.row row.now }
    requires pivot { pivot_of dividing.now ≡ number_in row.now dividing.now.place }
    ensures count { result ≤ length cells.old }
    ensures cells { take result cells.new ≡ kept_below (number_in (divided dividing.now.place row.now)) (length cells.old) }
{
    let kept = row.kept();
    let mut made = 0;
    for index in 0..kept.len() {
        let next = &kept[index];
        let cell = dividing.divided(&next.cell, next.place == dividing.place);
        made = put(
            cells,
            made,
            Kept {
                place: next.place,
                cell,
            },
        );
    }
    made
}
