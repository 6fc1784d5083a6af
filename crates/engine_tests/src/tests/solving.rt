//! Runs of the dual simplex method.

ghost use Rattle.std.specs.Prelude.{◌≡◌, false};
ghost use Rattle.simplex_theory.specs.DualSteps.{IsDual};
ghost use Rattle.work_meter.specs.Work.{IsWithin};

use dual_simplex::{Meter, NodeEnd, Step, solve_node, step};
use fraction_tableau::Tableau;
use std::process::Abort;

/// Steps to an end, behind so many units and pivots: the end, and how many units and pivots there are then.
pub fn solved(tableau: &mut Tableau, from: Meter, made: u64) -> (NodeEnd, u64, u64)
    requires dual { IsDual tableau.old.table }
    requires unspent { tableau.old.spent ≡ false }
    requires within { IsWithin from.spent from.limit }
    ensures { tableau.new.spent ≡ false → IsDual tableau.new.table }
{
    let (mut meter, mut pivots) = (from, made);
    let end = solve_node(tableau, &mut meter, &mut pivots);
    (end, meter.spent, pivots)
}

/// A step that comes out like this and leaves the tableau unspent.
pub fn take_step(rt: &impl Abort, tableau: &mut Tableau, expected: Step)
    requires dual { IsDual tableau.old.table }
    requires unspent { tableau.old.spent ≡ false }
    ensures dual { IsDual tableau.new.table }
    ensures unspent { tableau.new.spent ≡ false }
{
    assert_eq!(rt; step(tableau), expected);
    assert!(rt; !tableau.is_spent());
}
