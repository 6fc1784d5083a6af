//! A row and the divided row merged, place by place in order, and only at places where one of them isn't 0.

ghost use Rattle.std.specs.Prelude.{◌≡◌, ℕ, ◌+◌, ◌<◌, ◌≤◌, ◌^◌, None, Some, pos, cond, eqb, length, take, unsigned_abs, IfOk, IfErr};
ghost use Rattle.rational_theory.specs.Rational.{whole, over, neg_ℚ, ◌+ℚ◌, ◌*ℚ◌};
ghost use Rattle.narrow_fraction.specs.{Fraction.{FitsFrac}, Attempt.{attempt, first_below}};
ghost use Rattle.fraction_tableau.specs.{Narrow.{IsNarrow}, Refusals.{less_refusal, clear_at}, Marks.{AreMarked}};
ghost use Rattle.fraction_tableau.specs.KeptCells.{number_in, kept_below, merged_at, IsMerged, IsCarriedOn};
ghost use Rattle.fraction_tableau.specs.Scales.{numerator, CanRescale};

use crate::kept::{Kept, put};
use crate::marks::with_mark;
use crate::scale::{AS_IT_IS, Rescaling, numerator_of};
use crate::sparse_row::SparseRow;
use crate::wide_cell::{Spot, WideCell};
use narrow_fraction::{Frac, Quotient};

/// How far a merge is: the places below `below` are done, which are `taken` cells of the row and `made` of the result, with the
/// marks of their places.
#[derive(Clone, Copy)]
pub struct Merged {
    pub below: u32,
    pub taken: usize,
    pub made: usize,
    pub marks: u64,
}

/// The beginning of a merge: no place is done.
pub const UNMERGED: Merged = Merged {
    below: 0,
    taken: 0,
    made: 0,
    marks: 0,
};

/// By what a row of that number is cleared: its new cell at the pivot's place, and the old one there.
#[derive(Drop)]
pub struct Clearing {
    pub number: u32,
    pub own: Kept,
    pub factor: Frac,
}

/// The row's cells before `place`, of which there are some, rescaled.
#[inline(always)]
fn keep_some(
    cells: &mut [Kept],
    row: &SparseRow,
    done: Merged,
    place: u32,
    rescaling: Rescaling,
) -> Merged
    requires width { length row.now ≡ length cells.old + 1 }
    requires place { place ≤ length cells.old }
    requires order { done.below ≤ place }
    requires rescaling { (m : ℕ) → CanRescale rescaling (number_in row.now m) }
    requires taken { done.taken ≡ length (kept_below (number_in row.now) done.below) }
    requires made { done.made ≤ done.below }
    ensures below { result.below ≡ place }
    ensures taken { result.taken ≡ length (kept_below (number_in row.now) place) }
    ensures made { result.made ≤ place }
    ensures marked { AreMarked done.marks (take done.made cells.old) → AreMarked result.marks (take result.made cells.new) }
    ensures cells { IsCarriedOn row.now done.below place (take done.made cells.old) (take result.made cells.new) }
{
    let kept = row.kept();
    let mut made = done.made;
    let mut marks = done.marks;
    for taken in done.taken..kept.len() {
        let next = &kept[taken];
        if next.place >= place {
            return Merged {
                below: place,
                taken,
                made,
                marks,
            };
        }
        cells[made].place = next.place;
        cells[made].cell = rescaling.rescaled(&next.cell);
        marks = with_mark(marks, next.place);
        made += 1;
    }
    Merged {
        below: place,
        taken: kept.len(),
        made,
        marks,
    }
}

/// The row's cells before `place`, rescaled: mostly there is none, as one comparison says.
#[inline(always)]
pub fn keep_before(
    cells: &mut [Kept],
    row: &SparseRow,
    done: Merged,
    place: u32,
    rescaling: Rescaling,
) -> Merged
    requires width { length row.now ≡ length cells.old + 1 }
    requires place { place ≤ length cells.old }
    requires order { done.below ≤ place }
    requires rescaling { (m : ℕ) → CanRescale rescaling (number_in row.now m) }
    requires taken { done.taken ≡ length (kept_below (number_in row.now) done.below) }
    requires made { done.made ≤ done.below }
    ensures below { result.below ≡ place }
    ensures taken { result.taken ≡ length (kept_below (number_in row.now) place) }
    ensures made { result.made ≤ place }
    ensures marked { AreMarked done.marks (take done.made cells.old) → AreMarked result.marks (take result.made cells.new) }
    ensures cells { IsCarriedOn row.now done.below place (take done.made cells.old) (take result.made cells.new) }
{
    let kept = row.kept();
    if done.taken < kept.len() {
        let next = &kept[done.taken];
        if next.place < place {
            return keep_some(cells, row, done, place, rescaling);
        }
    }
    Merged {
        below: place,
        taken: done.taken,
        made: done.made,
        marks: done.marks,
    }
}

/// A cell of a row, and how many of the row's cells are taken with it.
#[derive(Drop)]
struct Taken {
    cell: Quotient,
    taken: usize,
}

/// The cell at a place before which `taken` cells stand, 0 where none stands there.
fn take_at(row: &SparseRow, taken: usize, place: u32) -> Taken
    requires place { place + 1 < length row.now }
    requires taken { taken ≡ length (kept_below (number_in row.now) place) }
    ensures cell { result.cell ≡ number_in row.now place }
    ensures taken { result.taken ≡ length (kept_below (number_in row.now) (place + 1)) }
{
    let kept = row.kept();
    if taken < kept.len() {
        let next = &kept[taken];
        if next.place == place {
            return Taken {
                cell: next.cell.copied(),
                taken: taken + 1,
            };
        }
    }
    Taken {
        cell: Quotient::of_fraction(Frac::whole(0)),
        taken,
    }
}

/// The numerator of a row's cell, and how many of the row's cells are taken with it.
#[derive(Clone, Copy)]
pub struct TakenNumerator {
    pub numerator: i64,
    pub taken: usize,
}

/// The numerator at a place before which `taken` cells stand, 0 where none stands there.
#[inline(always)]
pub fn take_numerator(row: &SparseRow, taken: usize, place: u32, denominator: u64) -> TakenNumerator
    requires above { 0 < denominator }
    requires place { place + 1 < length row.now }
    requires taken { taken ≡ length (kept_below (number_in row.now) place) }
    requires same { over (numerator denominator (number_in row.now place)) denominator ≡ number_in row.now place }
    requires size { unsigned_abs (numerator denominator (number_in row.now place)) < 2 ^ 62 }
    ensures numerator { result.numerator ≡ numerator denominator (number_in row.now place) }
    ensures taken { result.taken ≡ length (kept_below (number_in row.now) (place + 1)) }
{
    let kept = row.kept();
    if taken < kept.len() {
        let next = &kept[taken];
        if next.place == place {
            return TakenNumerator {
                numerator: numerator_of(&next.cell, denominator),
                taken: taken + 1,
            };
        }
    }
    TakenNumerator {
        numerator: 0,
        taken,
    }
}

/// A number less `factor` times the divided row's.
pub fn cleared_number(
    spot: Spot,
    number: Frac,
    divided: Frac,
    factor: Frac,
) -> Result<Frac, WideCell>
    ensures outcome { result ≡ attempt (less_refusal spot.row spot.col factor divided number) (number +ℚ neg_ℚ (factor *ℚ divided)) }
    ensures fits { IfOk result (λ value. FitsFrac value) }
{
    let part = match spot.times(factor, divided) {
        Ok(value) => value,
        Err(wide) => return Err(wide),
    };
    spot.minus(number, part)
}

/// The new cell at the place of a cell of the divided row.
fn cleared_cell(clearing: &Clearing, cell: Frac, divided: &Kept) -> Result<Frac, WideCell>
    requires { FitsFrac clearing.now.own.cell }
    ensures outcome { result ≡ attempt (cond (eqb divided.now.place clearing.now.own.place) None (less_refusal clearing.now.number divided.now.place clearing.now.factor divided.now.cell cell))
        (cond (eqb divided.now.place clearing.now.own.place) clearing.now.own.cell (cell +ℚ neg_ℚ (clearing.now.factor *ℚ divided.now.cell))) }
    ensures fits { IfOk result (λ value. FitsFrac value) }
{
    if divided.place == clearing.own.place {
        return Ok(clearing.own.cell.fraction());
    }
    let spot = Spot {
        row: clearing.number,
        col: divided.place,
    };
    cleared_number(spot, cell, divided.cell.fraction(), clearing.factor)
}

/// The next cell of the divided row, and the row's cells before it.
fn merge_next(
    cells: &mut [Kept],
    row: &SparseRow,
    divided: &SparseRow,
    index: usize,
    clearing: &Clearing,
    done: Merged,
) -> Result<Merged, WideCell>
    requires width { length row.now ≡ length cells.old + 1 }
    requires widths { length divided.now ≡ length row.now }
    requires short { length row.now < 2 ^ 32 }
    requires own { number_in divided.now clearing.now.own.place ≡ whole (pos 0) → ⊥ }
    requires factor { clearing.now.factor ≡ number_in row.now clearing.now.own.place }
    requires fits { FitsFrac clearing.now.own.cell }
    requires narrow { IsNarrow row.now }
    requires inside { index < length (kept_below (number_in divided.now) (length cells.old)) }
    requires index { index ≡ length (kept_below (number_in divided.now) done.below) }
    requires merged { IsMerged clearing.now.number clearing.now.own.place clearing.now.own.cell divided.now row.now cells.old done }
    ensures merged { IfOk result (λ next. IsMerged clearing.now.number clearing.now.own.place clearing.now.own.cell divided.now row.now cells.new next) }
    ensures index { IfOk result (λ next. index + 1 ≡ length (kept_below (number_in divided.now) next.below)) }
    ensures refused { IfErr result (λ wide. first_below (clear_at clearing.now.number clearing.now.own.place divided.now row.now) (length cells.old) ≡ Some wide) }
{
    let others = divided.kept();
    let next = &others[index];
    let done = keep_before(cells, row, done, next.place, AS_IT_IS);
    let own = take_at(row, done.taken, next.place);
    let cell = match cleared_cell(clearing, own.cell.fraction(), next) {
        Ok(cell) => cell,
        Err(wide) => return Err(wide),
    };
    let made = put(
        cells,
        done.made,
        Kept {
            place: next.place,
            cell: Quotient::of_fraction(cell),
        },
    );
    Ok(Merged {
        below: next.place + 1,
        taken: own.taken,
        made,
        marks: done.marks,
    })
}

/// The cells of the row cleared by the divided row. The answer is how many there are.
pub fn merge(
    cells: &mut [Kept],
    row: &SparseRow,
    divided: &SparseRow,
    clearing: &Clearing,
) -> Result<usize, WideCell>
    requires width { length row.now ≡ length cells.old + 1 }
    requires widths { length divided.now ≡ length row.now }
    requires short { length row.now < 2 ^ 32 }
    requires own { number_in divided.now clearing.now.own.place ≡ whole (pos 0) → ⊥ }
    requires factor { clearing.now.factor ≡ number_in row.now clearing.now.own.place }
    requires fits { FitsFrac clearing.now.own.cell }
    requires narrow { IsNarrow row.now }
    ensures passed { IfOk result (λ _. first_below (clear_at clearing.now.number clearing.now.own.place divided.now row.now) (length cells.old) ≡ None) }
    ensures refused { IfErr result (λ wide. first_below (clear_at clearing.now.number clearing.now.own.place divided.now row.now) (length cells.old) ≡ Some wide) }
    ensures count { IfOk result (λ count. count ≤ length cells.old) }
    ensures cells { IfOk result (λ count. take count cells.new ≡ kept_below (merged_at clearing.now.own.place clearing.now.own.cell divided.now row.now) (length cells.old)) }
    ensures fits { IfOk result (λ _. (m : ℕ) → m < length cells.old → FitsFrac (merged_at clearing.now.own.place clearing.now.own.cell divided.now row.now m)) }
{
    let width = cells.len() as u32;
    let mut done = UNMERGED;
    for index in 0..divided.kept().len() {
        match merge_next(cells, row, divided, index, clearing, done) {
            Ok(next) => done = next,
            Err(wide) => return Err(wide),
        }
    }
    Ok(keep_before(cells, row, done, width, AS_IT_IS).made)
}
