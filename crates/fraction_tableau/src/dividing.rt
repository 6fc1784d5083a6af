//! The cells of the pivot's own row, divided.

ghost use Rattle.std.specs.Prelude.{◌≡◌, ℕ, ◌+◌, ◌<◌, ◌≤◌, ◌^◌, None, Some, pos, cond, eqb, length, take, IfOk, IfErr};
ghost use Rattle.rational_theory.specs.Rational.{whole, inverse_ℚ, ◌*ℚ◌};
ghost use Rattle.narrow_fraction.specs.{Fraction.{FitsFrac}, Attempt.{attempt, first_below}, declared.wide.Op.TheVariants.{Div}};
ghost use Rattle.fraction_tableau.specs.{Refusals.{refused, divide_at}, KeptCells.{number_in, kept_below, divided_cell}};

use crate::kept::{Kept, put};
use crate::sparse_row::SparseRow;
use crate::wide_cell::{Spot, WideCell};
use narrow_fraction::{Frac, Quotient};

/// One cell of the pivot's row: over the pivot, or `own` at its place.
fn divide_cell(kept: &Kept, number: u32, own: &Kept, pivot: Frac) -> Result<Frac, WideCell>
    requires pivot { pivot ≡ whole (pos 0) → ⊥ }
    requires fits { FitsFrac own.now.cell }
    ensures outcome { result ≡ attempt (cond (eqb kept.now.place own.now.place) None (refused Div kept.now.cell pivot number kept.now.place))
        (cond (eqb kept.now.place own.now.place) own.now.cell (kept.now.cell *ℚ inverse_ℚ pivot)) }
    ensures fits { IfOk result (λ value. FitsFrac value) }
{
    if kept.place == own.place {
        return Ok(own.cell.fraction());
    }
    let spot = Spot {
        row: number,
        col: kept.place,
    };
    spot.over(kept.cell.fraction(), pivot)
}

/// The cells of the pivot's row over the pivot, and `own` at its place. The answer is how many there are.
pub fn divide_cells(
    cells: &mut [Kept],
    row: &SparseRow,
    number: u32,
    own: &Kept,
    pivot: Frac,
) -> Result<usize, WideCell>
    requires width { length row.now ≡ length cells.old + 1 }
    requires short { length row.now < 2 ^ 32 }
    requires pivot { pivot ≡ whole (pos 0) → ⊥ }
    requires is { pivot ≡ number_in row.now own.now.place }
    requires fits { FitsFrac own.now.cell }
    ensures passed { IfOk result (λ _. first_below (divide_at number own.now.place row.now) (length cells.old) ≡ None) }
    ensures refused { IfErr result (λ wide. first_below (divide_at number own.now.place row.now) (length cells.old) ≡ Some wide) }
    ensures count { IfOk result (λ count. count ≤ length cells.old) }
    ensures cells { IfOk result (λ count. take count cells.new ≡ kept_below (divided_cell own.now.place own.now.cell row.now) (length cells.old)) }
    ensures fits { IfOk result (λ _. (m : ℕ) → m < length cells.old → FitsFrac (divided_cell own.now.place own.now.cell row.now m)) }
{
    let kept = row.kept();
    let mut made = 0;
    for index in 0..kept.len() {
        let next = &kept[index];
        match divide_cell(next, number, own, pivot) {
            Ok(cell) => {
                let next = Kept {
                    place: next.place,
                    cell: Quotient::of_fraction(cell),
                };
                made = put(cells, made, next);
            }
            Err(wide) => return Err(wide),
        }
    }
    Ok(made)
}
