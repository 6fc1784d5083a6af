//! The steps of a node.

ghost use Rattle.std.specs.Prelude.{◌≡◌, ℕ, ◌&&◌, None, false};
ghost use Rattle.simplex_theory.specs.{DualSteps.{IsDual}, BlandRule.{move}, StepCounts.{is_pivot}};
ghost use Rattle.work_meter.specs.Work.{is_out, IsWithin};
ghost use Rattle.dual_simplex.specs.Ends.{Solved};

use crate::choose::{chosen_row, has_negative};
use crate::dual::step;
use crate::outcome::{NodeEnd, Step};
use fraction_tableau::Tableau;
use work_meter::Meter;

/// Whether a pivot is due.
fn is_due(tableau: &Tableau) -> bool
    ensures { result ≡ is_pivot (move tableau.now.table) }
{
    match chosen_row(tableau) {
        None => false,
        Some(row) => has_negative(tableau, row),
    }
}

/// Whether a pivot is due for which no work is left.
fn is_stopped(tableau: &Tableau, meter: &Meter) -> bool
    ensures { result ≡ is_out meter.now && is_pivot (move tableau.now.table) }
{
    meter.is_out() && is_due(tableau)
}

/// Steps until an end. Each pivot that was made adds one to `pivots` and one to the units of the meter, and both stay at
/// `2^64 - 1` once there.
///
/// No set of basic variables comes twice, so an end comes after fewer pivots than 2 to the power of rows plus width, also
/// without a limit.
///
/// `WorkOut` comes where a pivot is due and the meter is out, before a ratio is looked at. The tableau is that after the last
/// step; only after a refused pivot it is spent.
pub fn solve_node(tableau: &mut Tableau, meter: &mut Meter, pivots: &mut u64) -> NodeEnd
    requires dual { IsDual tableau.old.table }
    requires unspent { tableau.old.spent ≡ false }
    requires within { IsWithin meter.old.spent meter.old.limit }
    ensures solved { (k : ℕ) × Solved result tableau.old tableau.new meter.old meter.new pivots.old pivots.new k }
    ensures dual { tableau.new.spent ≡ false → IsDual tableau.new.table }
    ensures within { IsWithin meter.new.spent meter.new.limit }
{
    // what is read here is known to be in range
    let _pivots = *pivots;
    let _spent = meter.spent;
    loop {
        if is_stopped(tableau, meter) {
            return NodeEnd::WorkOut;
        }
        match step(tableau) {
            Step::Optimal => return NodeEnd::Optimal,
            Step::Infeasible { row } => return NodeEnd::Infeasible { row },
            Step::Wide { ratio, cell } => return NodeEnd::Wide { ratio, cell },
            Step::Pivoted { .. } => {
                *pivots = pivots.saturating_add(1);
                meter.spend();
            }
        }
    }
}
