//! The pivots of a start.

ghost use Rattle.std.specs.Prelude.{◌≡◌, None, false};
ghost use Rattle.simplex_theory.specs.Tableau.{IsPlace, exchange};
ghost use Rattle.fraction_tableau.specs.Refusals.{pivot_refusal};

use fraction_tableau::Tableau;

/// A pivot of a start: the column enters the basis in the row. Both are counted from 0.
#[derive(Clone, Copy, Drop)]
pub struct StartPivot {
    pub row: u32,
    pub column: u32,
}

/// A pivot that is not refused. Takes no memory.
pub fn pivot(tableau: &mut Tableau, row: u32, col: u32)
    requires place { IsPlace tableau.old.table row col }
    requires unspent { tableau.old.spent ≡ false }
    requires fits { pivot_refusal row col tableau.old.table.rows tableau.old.table.goal ≡ None }
    ensures { tableau.new ≡ record tableau.old { table = exchange row col tableau.old.table } }
{
    match tableau.pivot(row, col) {
        Ok(()) => {}
        Err(_) => unreachable!(),
    }
}
