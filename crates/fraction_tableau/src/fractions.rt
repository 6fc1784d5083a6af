//! Rows that are made by operations on fractions, in their order, up to the first that is refused.

ghost use Rattle.std.specs.Prelude.{◌≡◌, ◌+◌, length, take, IfOk, IfErr};
ghost use Rattle.rational_theory.specs.Rational.{neg_ℚ};
ghost use Rattle.simplex_theory.specs.Lines.{divided, cleared};
ghost use Rattle.narrow_fraction.specs.Attempt.{attempt};
ghost use Rattle.fraction_tableau.specs.{Narrow.{IsNarrow}, Refusals.{divide_refusal, clear_refusal}, RowChanges.{CanDivide, CanClear}};
ghost use Rattle.fraction_tableau.specs.KeptCells.{dense_row, IsSparse};

use crate::dividing::divide_cells;
use crate::kept::Kept;
use crate::merging::{Clearing, cleared_number, merge};
use crate::sparse_row::SparseRow;
use crate::wide_cell::{Spot, WideCell};
use narrow_fraction::{Frac, Quotient};

/// By what a row of that number is cleared: the pivot and its place, and the row's own number there.
#[derive(Drop)]
pub struct Elimination {
    pub number: u32,
    pub place: u32,
    pub pivot: Frac,
    pub factor: Quotient,
}

/// How many cells were made and the bound, or the first refused operation, after which there are no cells.
#[derive(Clone, Copy)]
pub struct Made {
    pub count: usize,
    pub bound: Frac,
    pub outcome: Result<(), WideCell>,
}

impl Made {
    /// Nothing, since an operation was refused.
    fn refused(wide: WideCell) -> Made
        ensures count { result.count ≡ 0 }
        ensures outcome { result.outcome ≡ Err wide }
    {
        Made {
            count: 0,
            bound: Frac::whole(0),
            outcome: Err(wide),
        }
    }
}

/// The negated quotient, or the other number where it was refused.
fn negated_or(quotient: &Result<Frac, WideCell>, other: Frac) -> Frac
    ensures ok { IfOk quotient.now (λ value. result ≡ neg_ℚ value) }
    ensures err { IfErr quotient.now (λ _. result ≡ other) }
{
    match quotient {
        Ok(value) => value.neg(),
        Err(_) => other,
    }
}

/// The pivot's own row, divided: one over the cell at `place`, and the other cells over that cell.
pub fn divide_row(cells: &mut [Kept], row: &SparseRow, number: u32, place: u32) -> Made
    requires { CanDivide (length cells.old + 1) row.now place }
    ensures outcome { result.outcome ≡ attempt (divide_refusal number place row.now) tt }
    ensures line { IsSparse (length cells.old) result.count (take result.count cells.new) }
    ensures divided { IfOk result.outcome (λ _. dense_row (length cells.old) (take result.count cells.new) result.bound ≡ divided place row.now) }
    ensures narrow { IfOk result.outcome (λ _. IsNarrow (divided place row.now)) }
{
    let pivot = row.cell(place);
    let own = Spot {
        row: number,
        col: place,
    };
    let reciprocal = match own.over(Frac::whole(1), pivot) {
        Ok(value) => value,
        Err(wide) => return Made::refused(wide),
    };
    let divided = Kept {
        place,
        cell: Quotient::of_fraction(reciprocal),
    };
    let count = match divide_cells(cells, row, number, &divided, pivot) {
        Ok(count) => count,
        Err(wide) => return Made::refused(wide),
    };
    let last = Spot {
        row: number,
        col: cells.len() as u32,
    };
    match last.over(row.bound(), pivot) {
        Ok(bound) => Made {
            count,
            bound,
            outcome: Ok(()),
        },
        Err(wide) => Made::refused(wide),
    }
}

/// Another row cleared: each number less the factor times the divided row's, and at the place the negated quotient of the
/// factor and the pivot. The quotient is made before the merge and its refusal kept for the end, since its operation is the
/// row's last.
pub fn clear_row(
    cells: &mut [Kept],
    row: &SparseRow,
    divided: &SparseRow,
    elimination: &Elimination,
) -> Made
    requires { CanClear (length cells.old + 1) row.now divided.now elimination.now.place elimination.now.pivot elimination.now.factor }
    ensures outcome { result.outcome ≡ attempt (clear_refusal elimination.now.number elimination.now.place divided.now row.now elimination.now.pivot) tt }
    ensures line { IsSparse (length cells.old) result.count (take result.count cells.new) }
    ensures cleared { IfOk result.outcome (λ _. dense_row (length cells.old) (take result.count cells.new) result.bound ≡ cleared elimination.now.place divided.now row.now) }
    ensures narrow { IfOk result.outcome (λ _. IsNarrow (cleared elimination.now.place divided.now row.now)) }
{
    let number = elimination.number;
    let place = elimination.place;
    let factor = elimination.factor.fraction();
    let own = Spot {
        row: number,
        col: place,
    };
    let quotient = own.over(factor, elimination.pivot);
    let clearing = Clearing {
        number,
        own: Kept {
            place,
            cell: Quotient::of_fraction(negated_or(&quotient, factor)),
        },
        factor,
    };
    let count = match merge(cells, row, divided, &clearing) {
        Ok(count) => count,
        Err(wide) => return Made::refused(wide),
    };
    let last = Spot {
        row: number,
        col: cells.len() as u32,
    };
    let bound = match cleared_number(last, row.bound(), divided.bound(), factor) {
        Ok(bound) => bound,
        Err(wide) => return Made::refused(wide),
    };
    match quotient {
        Ok(_) => Made {
            count,
            bound,
            outcome: Ok(()),
        },
        Err(wide) => Made::refused(wide),
    }
}
