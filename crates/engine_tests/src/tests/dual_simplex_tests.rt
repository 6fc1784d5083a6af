//! Steps on tableaus of two columns that were worked by hand.

ghost use Rattle.std.specs.Prelude.{◌≡◌, ℕ, ◌<◌, pos, IfSome, true, false};
ghost use Rattle.rational_theory.specs.Rational.{whole, ◌≤ℚ◌};
ghost use Rattle.simplex_theory.specs.{Tableau.{goal_cell, width}, DualSteps.{IsDual}};
ghost use Rattle.fraction_tableau.specs.Loading.{IsUnpivoted};

use crate::tests::solving::{solved, take_step};
use crate::tests::two_columns::{TWO_126, blank, load, load_goal, wholes};
use dual_simplex::{Meter, NodeEnd, Step};
use fraction_tableau::{Tableau, WideCell};
use named_row::RowId;
use narrow_fraction::{Frac, Op, Wide};
use std::alloc::Global;
use std::process::Abort;
use std::rt::HostRuntime;
use test_bed::fraction_or_zero;

/// Whether no cell of the goal row of two columns is negative.
#[tactic(auto, using(rational_theory::proofs::Compare::lt_true, rational_theory::proofs::Compare::lt_false))]
fn has_low_goal(tableau: &Tableau) -> bool
    ensures { result ≡ true → (k : ℕ) → k < width tableau.now.table → whole (pos 0) ≤ℚ goal_cell tableau.now.table k }
{
    if tableau.width() != 2 {
        return false;
    }
    let zero = Frac::whole(0);
    let goal = tableau.rows();
    if tableau.cell(goal, 0) < zero {
        return false;
    }
    if tableau.cell(goal, 1) < zero {
        return false;
    }
    true
}

/// The name of a row, which no test looks at.
fn name(number: u32) -> RowId {
    RowId {
        family: 1,
        index: number,
    }
}

/// Loads two rows and a goal.
fn load_all(
    alloc: Global,
    tableau: &mut Tableau,
    rows: [[Frac; 3]; 2],
    goal: [Frac; 3],
) -> Option<()>
    ensures { IsUnpivoted tableau.old.table → IsUnpivoted tableau.new.table }
{
    let [first, second] = rows;
    load(alloc, tableau, 0, name(0), first)?;
    load(alloc, tableau, 1, name(1), second)?;
    load_goal(alloc, tableau, goal)
}

/// Two rows and a goal, loaded.
fn loaded(alloc: Global, rows: [[Frac; 3]; 2], goal: [Frac; 3]) -> Option<Tableau>
    ensures { IfSome result (λ tableau. IsUnpivoted tableau.table) }
{
    let mut tableau = blank(alloc, 2)?;
    match load_all(alloc, &mut tableau, rows, goal) {
        Some(()) => Some(tableau),
        None => None,
    }
}

/// Whether a tableau of two rows and two columns isn't spent and has no negative cell in its goal row.
fn is_program(tableau: &Tableau) -> bool
    ensures dual { result ≡ true → IsUnpivoted tableau.now.table → IsDual tableau.now.table }
    ensures unspent { result ≡ true → tableau.now.spent ≡ false }
{
    tableau.rows() == 2 && has_low_goal(tableau) && !tableau.is_spent()
}

/// Two rows and a goal, where the tableau is dual feasible.
fn program(alloc: Global, rows: [[Frac; 3]; 2], goal: [Frac; 3]) -> Option<Tableau>
    ensures dual { IfSome result (λ tableau. IsDual tableau.table) }
    ensures unspent { IfSome result (λ tableau. tableau.spent ≡ false) }
{
    let tableau = loaded(alloc, rows, goal)?;
    if is_program(&tableau) {
        Some(tableau)
    } else {
        None
    }
}

/// The greatest of x + y is asked for, with the signs turned: the least of x + y where x is at least 1 and x + y at least 5.
fn tied(rt: &impl Abort, alloc: Global) -> Tableau
    ensures dual { IsDual result.table }
    ensures unspent { result.spent ≡ false }
{
    let rows = [wholes([-1, 0, -1]), wholes([-1, -1, -5])];
    program(alloc, rows, wholes([-1, -1, 0])).expect(rt, "program")
}

fn take_tied_steps(rt: &impl Abort, tableau: &mut Tableau)
    requires dual { IsDual tableau.old.table }
    requires unspent { tableau.old.spent ≡ false }
{
    // the bounds are -1 and -5, and the basic variables 2 and 3
    take_step(rt, tableau, Step::Pivoted { row: 0, col: 0 });
    // both ratios are 1, and the variables at the places 2 and 1
    take_step(rt, tableau, Step::Pivoted { row: 1, col: 1 });
    take_step(rt, tableau, Step::Optimal);
}

#[test]
fn least_variables_break_ties(rt: HostRuntime) {
    let mut tableau = tied(&rt, rt.alloc());
    take_tied_steps(&rt, &mut tableau);
}

fn solve_to_limits(rt: &impl Abort, tableau: &mut Tableau)
    requires dual { IsDual tableau.old.table }
    requires unspent { tableau.old.spent ≡ false }
{
    let first = Meter {
        spent: 0,
        limit: Some(1),
    };
    assert_eq!(rt; solved(tableau, first, 7), (NodeEnd::WorkOut, 1, 8));
    assert!(rt; !tableau.is_spent());
    let more = Meter {
        spent: 1,
        limit: Some(2),
    };
    assert_eq!(rt; solved(tableau, more, 8), (NodeEnd::Optimal, 2, 9));
}

#[test]
fn limit_is_looked_at_where_a_pivot_is_due(rt: HostRuntime) {
    let mut tableau = tied(&rt, rt.alloc());
    solve_to_limits(&rt, &mut tableau);
}

/// The first step of a program comes out like this.
fn take_first_step(
    rt: &impl Abort,
    alloc: Global,
    rows: [[Frac; 3]; 2],
    goal: [Frac; 3],
    expected: Step,
) {
    let mut tableau = program(alloc, rows, goal).expect(rt, "program");
    take_step(rt, &mut tableau, expected);
}

#[test]
fn row_without_negative_cell_is_infeasible(rt: HostRuntime) {
    let rows = [wholes([1, 1, 1]), wholes([0, 1, -1])];
    let goal = wholes([-1, -1, 0]);
    take_first_step(&rt, rt.alloc(), rows, goal, Step::Infeasible { row: 1 });
}

#[test]
fn refused_ratio_changes_nothing(rt: HostRuntime) {
    let (less, zero) = (Frac::whole(-1), Frac::whole(0));
    let first = [fraction_or_zero(-1, 3), less, less];
    let goal = [fraction_or_zero(-TWO_126, 1), less, zero];
    let cell = WideCell {
        row: 0,
        col: 0,
        wide: Wide {
            op: Op::Div,
            left: fraction_or_zero(TWO_126, 1),
            right: fraction_or_zero(1, 3),
        },
    };
    take_first_step(
        &rt,
        rt.alloc(),
        [first, first],
        goal,
        Step::Wide { ratio: true, cell },
    );
}
