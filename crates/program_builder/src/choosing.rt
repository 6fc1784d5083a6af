//! The row that a column of an entry enters.

ghost use Rattle.std.specs.Prelude.{◌≡◌, ◌<◌};
ghost use Rattle.simplex_theory.specs.Tableau.{height, width};
ghost use Rattle.entry_theory.specs.Entry as rule;

use fraction_tableau::Tableau;
use narrow_fraction::Quotient;

/// Whether a number is 0.
fn is_zero(number: &Quotient) -> bool
    ensures { result ≡ rule.is_zero number.now }
{
    number.is_zero()
}

/// Whether a row's own slack is basic in it still and isn't among the listed variables, and the row has a cell at the place of
/// the column.
fn can_take(tableau: &Tableau, basis: &[u32], column: u32, row: u32) -> bool
    requires column { column < width tableau.now.table }
    requires row { row < height tableau.now.table }
    ensures { result ≡ rule.can_take basis.now tableau.now.table column row }
{
    tableau.known_named();
    let slack = tableau.width() + row;
    tableau.basic(row) == slack && (!is_zero(&tableau.held(row, column)) && !basis.contains(&slack))
}

/// The least row that can take the column; the number after the last row where none can.
pub fn entry_row(tableau: &Tableau, basis: &[u32], column: u32) -> u32
    requires { column < width tableau.now.table }
    ensures { result ≡ rule.entry_row basis.now tableau.now.table column }
{
    let rows = tableau.rows();
    for row in 0..rows {
        if can_take(tableau, basis, column, row) {
            return row;
        }
    }
    rows
}
