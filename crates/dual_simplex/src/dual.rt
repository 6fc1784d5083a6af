//! One step.

ghost use Rattle.std.specs.Prelude.{◌≡◌, true, false};
ghost use Rattle.simplex_theory.specs.DualSteps.{IsDual};
ghost use Rattle.dual_simplex.specs.Steps.{step_of, IsAfterStep};

use crate::choose::{chosen_place, chosen_row};
use crate::outcome::Step;
use fraction_tableau::Tableau;

/// One step of the dual method by Bland's rule.
///
/// Among the rows with a negative bound the one whose basic variable has the least number is taken; where there is none, the
/// step is `Optimal`. Of its places with a negative cell the one with the least ratio of the goal cell to the negated cell is
/// taken, of equal ratios the one whose variable has the least number; where there is none, the step is `Infeasible`. A ratio
/// that leaves 128 bits is `Wide`, and the tableau is unchanged. A pivot that leaves 128 bits is `Wide` too, and the tableau is
/// spent.
pub fn step(tableau: &mut Tableau) -> Step
    requires dual { IsDual tableau.old.table }
    requires unspent { tableau.old.spent ≡ false }
    ensures outcome { result ≡ step_of tableau.old.table }
    ensures after { IsAfterStep result tableau.old tableau.new }
    ensures dual { tableau.new.spent ≡ false → IsDual tableau.new.table }
{
    let Some(row) = chosen_row(tableau) else {
        return Step::Optimal;
    };
    let chosen = match chosen_place(tableau, row) {
        Ok(chosen) => chosen,
        Err(cell) => return Step::Wide { ratio: true, cell },
    };
    let Some(best) = chosen else {
        return Step::Infeasible { row };
    };
    let col = best.place;
    match tableau.pivot(row, col) {
        Ok(()) => Step::Pivoted { row, col },
        Err(cell) => Step::Wide { ratio: false, cell },
    }
}
