//! Rows from their few cells that aren't 0.

ghost use Rattle.std.specs.Prelude.{◌≡◌, length};
ghost use Rattle.loop_rows.specs.Writing.{AreInside, written_cells};

use named_row::{Place, Row};
use narrow_fraction::Frac;

/// The row with these numbers in these columns, counted from 0, and with this bound; all else is 0.
pub fn fill_cells(cells: &[(u32, Frac)], bound: Frac, into: &mut Row)
    requires inside { AreInside (length into.old.coefs) cells.now }
    ensures row { into.new ≡ written_cells (length into.old.coefs) cells.now bound }
    ensures width { length into.new.coefs ≡ length into.old.coefs }
{
    into.clear();
    for cell in cells {
        let (column, number) = *cell;
        into.set(Place::Cell(column), number);
    }
    into.set(Place::Bound, bound);
}
