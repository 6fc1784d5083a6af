//! A cell with its place, and lists of cells that are filled in order.

ghost use Rattle.std.specs.Prelude.{◌≡◌, ◌+◌, ◌<◌, ◌++◌, take, length};
ghost use Rattle.fraction_tableau.specs.KeptCells.{kept_at};

use narrow_fraction::Quotient;

/// A place of a row, counted from 0, and its cell, which isn't 0.
#[derive(Debug, Clone, PartialEq, Eq, Drop)]
pub struct Kept {
    pub place: u32,
    pub cell: Quotient,
}

/// Puts a cell behind the first `made`, unless it is 0. The answer is how many there are then.
#[inline(always)]
pub fn put(cells: &mut [Kept], made: usize, kept: Kept) -> usize
    requires { made < length cells.old }
    ensures count { result ≡ made + length (kept_at kept.place kept.cell) }
    ensures cells { take result cells.new ≡ take made cells.old ++ kept_at kept.place kept.cell }
{
    let is_zero = kept.cell.is_zero();
    cells[made].place = kept.place;
    cells[made].cell = kept.cell;
    if is_zero { made } else { made + 1 }
}
