//! Numbers by variables, read off a tableau.

ghost use Rattle.std.specs.Prelude.{◌≡◌, ℕ, ◌<◌, ◌≤◌, ◌+◌, pos, eqb, cond, length, get_or, replicate, IfOk};
ghost use Rattle.rational_theory.specs.Rational.{whole};
ghost use Rattle.simplex_theory.specs.{Tableau.{height, width}, Totals.{cell_of}, Vertices.{vertex}};
ghost use Rattle.dual_leaf.specs.Leaves.{row_or_goal};

use fraction_tableau::Tableau;
use narrow_fraction::{Frac, Quotient};
use std::alloc::{AllocError, Global};

/// So many zeros.
pub fn zeros(alloc: Global, count: u32) -> Result<Vec<Frac>, AllocError>
    ensures { IfOk result (λ values. values.items ≡ replicate count (whole (pos 0))) }
{
    vec![in alloc; Frac::whole(0); count as usize]
}

/// Writes the value of a variable into the values of the variables from `first` on. One that isn't among them is left out.
pub fn put(values: &mut [Frac], first: u32, variable: u32, value: &Quotient)
    ensures { (k : ℕ) → k < length values.old → get_or values.new k (whole (pos 0)) ≡ cond (eqb (first + k) variable) value.now (get_or values.old k (whole (pos 0))) }
{
    if variable < first {
        return;
    }
    let index = (variable - first) as usize;
    if index >= values.len() {
        return;
    }
    values[index] = value.fraction();
}

/// The cells of a row, or of the goal row, at the slacks that stand at places, written by the rows of these slacks.
pub fn put_slacks(cells: &mut [Frac], tableau: &Tableau, row: u32)
    requires row { row ≤ height tableau.now.table }
    requires zeros { (k : ℕ) → k < length cells.old → get_or cells.old k (whole (pos 0)) ≡ whole (pos 0) }
    ensures { (k : ℕ) → k < length cells.old → get_or cells.new k (whole (pos 0)) ≡ cell_of (row_or_goal tableau.now.table row) tableau.now.table.standing (width tableau.now.table + k) }
{
    let width = tableau.width();
    let mut col = width;
    while col > 0 {
        col -= 1;
        put(cells, width, tableau.standing(col), &tableau.held(row, col));
    }
}

/// The bounds of the rows with a basic column, written by these columns.
pub fn put_columns(values: &mut [Frac], tableau: &Tableau)
    requires zeros { (k : ℕ) → k < length values.old → get_or values.old k (whole (pos 0)) ≡ whole (pos 0) }
    ensures { (k : ℕ) → k < length values.old → get_or values.new k (whole (pos 0)) ≡ vertex tableau.now.table k }
{
    let width = tableau.width();
    let mut row = tableau.rows();
    while row > 0 {
        row -= 1;
        put(values, 0, tableau.basic(row), &tableau.held(row, width));
    }
}
