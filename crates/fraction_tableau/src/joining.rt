//! A narrow row cleared by a narrow divided row: by whole numbers, with no common divisor of a cell.

ghost use Rattle.std.specs.Prelude.{◌≡◌, ◌+◌, ◌*◌, ◌/◌, ◌<◌, ◌≤◌, ◌^◌, ◌*ℤ◌, ◌+ℤ◌, neg_ℤ, pos, cond, length, take, unsigned_abs, IfSome, SomeIff};
ghost use Rattle.rational_theory.specs.Rational.{whole, over, neg_ℚ, ◌+ℚ◌, ◌*ℚ◌};
ghost use Rattle.simplex_theory.specs.Lines.{cleared};
ghost use Rattle.fraction_tableau.specs.{KeptCells.{number_in, kept_below}, Marks.{AreMarked}};
ghost use Rattle.fraction_tableau.specs.Scales.{numerator, factor_of, IsOver, IsScaled, IsJoining, IsJoined};

use crate::kept::{Kept, put};
use crate::marks::with_mark_where;
use crate::merging::{Merged, UNMERGED, keep_before, take_numerator};
use crate::scale::{MOST, Rescaling, Scale, numerator_of};
use crate::sparse_row::SparseRow;
use narrow_fraction::{Quotient, less_product, word_divisor, word_quotient};

/// The greatest size that a number may have while a row is joined with another one: 62 bits.
const MOST_JOINED: u128 = 4_611_686_018_427_387_903;

/// How a row at the scale `row` is cleared at `place` by a divided row at the scale `divided`: its numerators rescaled, less
/// `part` times the divided row's. The two denominators share `shared`, and no new number is more than `most`.
#[derive(Clone, Copy)]
pub struct Joining {
    pub place: u32,
    pub row: Scale,
    pub divided: Scale,
    pub rescaling: Rescaling,
    pub shared: u64,
    pub part: i64,
    pub most: u64,
}

impl Joining {
    /// The scale of the row that is made, where no number of it might have more than 42 bits.
    pub fn scale(&self) -> Option<Scale>
        ensures { SomeIff result (self.now.most < 2 ^ 42) (record { denominator = self.now.rescaling.to; most = self.now.most }) }
    {
        if self.most > MOST {
            return None;
        }
        Some(Scale {
            denominator: self.rescaling.to,
            most: self.most,
        })
    }
}

/// A quotient that leaves no rest.
fn part_of(factor: i64, shared: u64) -> i64
    requires above { 0 < shared }
    requires small { shared < 2 ^ 42 }
    requires size { unsigned_abs factor < 2 ^ 42 }
    requires whole { unsigned_abs factor / shared * shared ≡ unsigned_abs factor }
    ensures value { result *ℤ pos shared ≡ factor }
    ensures size { unsigned_abs result ≡ unsigned_abs factor / shared }
{
    let size = word_quotient(factor.unsigned_abs(), shared) as i64;
    if factor < 0 { -size } else { size }
}

/// How a row with the numerator `factor` at `place` is cleared by a divided one; None where a number might pass 62 bits.
#[inline(always)]
pub fn find_joining(place: u32, row: Scale, divided: Scale, factor: i64) -> Option<Joining>
    requires above { 0 < row.denominator }
    requires least { row.denominator ≤ row.most }
    requires short { row.most < 2 ^ 42 }
    requires divided_above { 0 < divided.denominator }
    requires divided_least { divided.denominator ≤ divided.most }
    requires divided_short { divided.most < 2 ^ 42 }
    requires factor { unsigned_abs factor ≤ row.most }
    ensures place { IfSome result (λ joining. joining.place ≡ place) }
    ensures row { IfSome result (λ joining. joining.row ≡ row) }
    ensures divided { IfSome result (λ joining. joining.divided ≡ divided) }
    ensures factor { IfSome result (λ joining. factor_of joining ≡ over factor row.denominator) }
    ensures joining { IfSome result (λ joining. IsJoining joining) }
{
    let shared = word_divisor(factor.unsigned_abs(), divided.denominator);
    let part = part_of(factor, shared);
    let times = word_quotient(divided.denominator, shared);
    let most = row.most as u128 * times as u128
        + part.unsigned_abs() as u128 * divided.most as u128;
    if most > MOST_JOINED {
        return None;
    }
    Some(Joining {
        place,
        row,
        divided,
        rescaling: Rescaling {
            from: row.denominator,
            times,
            to: row.denominator * times,
        },
        shared,
        part,
        most: most as u64,
    })
}

/// A numerator of the row, or 0 for the one at the pivot's place.
#[inline(always)]
fn numerator_or_zero(own: i64, is_own: bool) -> i64
    ensures { result ≡ cond is_own (pos 0) own }
{
    if is_own { 0 } else { own }
}

/// A numerator of the row times `times`, or 0 for the one at the pivot's place, less `part` times one of the divided row.
#[inline(always)]
fn joined_numerator(joining: &Joining, own: i64, is_own: bool, divided: i64) -> i64
    requires joining { IsJoining joining.now }
    requires own { unsigned_abs own ≤ joining.now.row.most }
    requires divided { unsigned_abs divided ≤ joining.now.divided.most }
    ensures value { result ≡ cond is_own (pos 0) own *ℤ pos joining.now.rescaling.times +ℤ neg_ℤ (joining.now.part *ℤ divided) }
    ensures size { unsigned_abs result ≤ joining.now.most }
{
    less_product(
        numerator_or_zero(own, is_own),
        joining.rescaling.times as i64,
        joining.part,
        divided,
    )
}

/// A number of the row by its numerator, or 0 for the one at the pivot's place, less the factor times the divided row's.
#[inline(always)]
pub fn joined(joining: &Joining, own: i64, is_own: bool, divided: &Quotient) -> Quotient
    requires joining { IsJoining joining.now }
    requires divided_short { joining.now.divided.most < 2 ^ 42 }
    requires own { unsigned_abs own ≤ joining.now.row.most }
    requires divided { IsOver joining.now.divided.denominator joining.now.divided.most divided.now }
    ensures { result ≡ cond is_own (whole (pos 0)) (over own joining.now.row.denominator) +ℚ neg_ℚ (factor_of joining.now *ℚ divided.now) }
{
    let numerator = joined_numerator(
        joining,
        own,
        is_own,
        numerator_of(divided, joining.divided.denominator),
    );
    Quotient::of_words(numerator, joining.rescaling.to)
}

/// The next cell of the divided row, and the row's cells before it.
#[inline(always)]
fn join_next(
    cells: &mut [Kept],
    row: &SparseRow,
    divided: &SparseRow,
    index: usize,
    joining: &Joining,
    done: Merged,
) -> Merged
    requires width { length row.now ≡ length cells.old + 1 }
    requires widths { length divided.now ≡ length row.now }
    requires short { length row.now < 2 ^ 32 }
    requires own { number_in divided.now joining.now.place ≡ whole (pos 0) → ⊥ }
    requires factor { factor_of joining.now ≡ number_in row.now joining.now.place }
    requires place { joining.now.place < length cells.old }
    requires joining { IsJoining joining.now }
    requires row { IsScaled joining.now.row row.now }
    requires divided { IsScaled joining.now.divided divided.now }
    requires inside { index < length (kept_below (number_in divided.now) (length cells.old)) }
    requires index { index ≡ length (kept_below (number_in divided.now) done.below) }
    requires joined { IsJoined (cleared joining.now.place divided.now row.now) row.now cells.old done }
    ensures joined { IsJoined (cleared joining.now.place divided.now row.now) row.now cells.new result }
    ensures index { index + 1 ≡ length (kept_below (number_in divided.now) result.below) }
{
    let others = divided.kept();
    let next = &others[index];
    let done = keep_before(cells, row, done, next.place, joining.rescaling);
    let own = take_numerator(row, done.taken, next.place, joining.row.denominator);
    let cell = joined(
        joining,
        own.numerator,
        next.place == joining.place,
        &next.cell,
    );
    let made = put(
        cells,
        done.made,
        Kept {
            place: next.place,
            cell,
        },
    );
    Merged {
        below: next.place + 1,
        taken: own.taken,
        made,
        marks: with_mark_where(done.marks, next.place, made > done.made),
    }
}

/// The cells of the row cleared by the divided row. The answer is the whole merge: how many there are, and their marks.
#[inline(always)]
pub fn join(cells: &mut [Kept], row: &SparseRow, divided: &SparseRow, joining: &Joining) -> Merged
    requires width { length row.now ≡ length cells.old + 1 }
    requires widths { length divided.now ≡ length row.now }
    requires short { length row.now < 2 ^ 32 }
    requires own { number_in divided.now joining.now.place ≡ whole (pos 0) → ⊥ }
    requires factor { factor_of joining.now ≡ number_in row.now joining.now.place }
    requires place { joining.now.place < length cells.old }
    requires joining { IsJoining joining.now }
    requires row { IsScaled joining.now.row row.now }
    requires divided { IsScaled joining.now.divided divided.now }
    ensures count { result.made ≤ length cells.old }
    ensures marked { AreMarked result.marks (take result.made cells.new) }
    ensures cells { take result.made cells.new ≡ kept_below (number_in (cleared joining.now.place divided.now row.now)) (length cells.old) }
{
    let width = cells.len() as u32;
    let mut done = UNMERGED;
    for index in 0..divided.kept().len() {
        done = join_next(cells, row, divided, index, joining, done);
    }
    keep_before(cells, row, done, width, joining.rescaling)
}
