//! Leaves and vertices of tableaus that were worked by hand.

ghost use Rattle.std.specs.Prelude.{◌≡◌, ℕ, ◌<◌, ◌≤◌, pos, true};
ghost use Rattle.rational_theory.specs.Rational.{whole, ◌≤ℚ◌, ◌<ℚ◌};
ghost use Rattle.simplex_theory.specs.Tableau.{cell, bound, height, width};

use crate::tests::two_columns::{blank, load, load_goal, pivot, wholes};
use dual_leaf::{leaf_of, point_of, refuter_of};
use fraction_tableau::Tableau;
use named_row::{Leaf, Point, RowId, Weight};
use narrow_fraction::{Frac, Memory};
use std::alloc::Global;
use std::process::Abort;
use std::rt::HostRuntime;

fn name(number: u32) -> RowId {
    RowId {
        family: 3,
        index: number,
    }
}

/// Loads two rows and a goal.
fn load_all(
    alloc: Global,
    tableau: &mut Tableau,
    rows: [[i64; 3]; 2],
    goal: [i64; 3],
) -> Option<()> {
    let [first, second] = rows;
    load(alloc, tableau, 0, name(0), wholes(first))?;
    load(alloc, tableau, 1, name(1), wholes(second))?;
    load_goal(alloc, tableau, wholes(goal))
}

/// Two rows and a goal.
fn program(rt: &impl Abort, alloc: Global, rows: [[i64; 3]; 2], goal: [i64; 3]) -> Tableau {
    let mut tableau = blank(alloc, 2).expect(rt, "memory");
    load_all(alloc, &mut tableau, rows, goal).expect(rt, "rows and a goal");
    tableau
}

/// The cell of a row, or its bound.
fn row_cell(tableau: &Tableau, row: u32, col: u32) -> Frac
    requires row { row < height tableau.now.table }
    requires col { col ≤ width tableau.now.table }
    ensures { result ≡ cell tableau.now.table row col }
{
    tableau.cell(row, col)
}

/// Whether no cell of a row of two columns is negative.
#[tactic(auto, using(rational_theory::proofs::Compare::lt_true, rational_theory::proofs::Compare::lt_false))]
fn has_low_cells(tableau: &Tableau, row: u32) -> bool
    requires { row < height tableau.now.table }
    ensures { result ≡ true → (k : ℕ) → k < width tableau.now.table → whole (pos 0) ≤ℚ cell tableau.now.table row k }
{
    if tableau.width() != 2 {
        return false;
    }
    let zero = Frac::whole(0);
    if row_cell(tableau, row, 0) < zero {
        return false;
    }
    if row_cell(tableau, row, 1) < zero {
        return false;
    }
    true
}

/// Whether a row's bound is negative.
#[tactic(auto, using(rational_theory::proofs::Compare::lt_true, rational_theory::proofs::Compare::lt_false))]
fn has_negative_bound(tableau: &Tableau, row: u32) -> bool
    requires { row < height tableau.now.table }
    ensures { result ≡ true → bound tableau.now.table row <ℚ whole (pos 0) }
{
    row_cell(tableau, row, tableau.width()) < Frac::whole(0)
}

/// The refuter, where the row of two columns has one.
fn refuter(alloc: Global, tableau: &Tableau, row: u32) -> Option<Result<Leaf, Memory>> {
    if tableau.is_spent() || row >= tableau.rows() {
        return None;
    }
    if !has_negative_bound(tableau, row) || !has_low_cells(tableau, row) {
        return None;
    }
    Some(refuter_of(alloc, tableau, row))
}

/// The vertex, where the tableau isn't spent.
fn point(alloc: Global, tableau: &Tableau) -> Option<Result<Point, Memory>> {
    if tableau.is_spent() {
        return None;
    }
    Some(point_of(alloc, tableau))
}

/// A row's name with the multiplier 1.
fn once(number: u32) -> Weight {
    Weight {
        row: name(number),
        by: Frac::whole(1),
    }
}

fn is_pivoted(tableau: &mut Tableau, row: u32, col: u32) -> bool {
    matches!(pivot(tableau, row, col), Some(Ok(())))
}

/// Whether the leaf of an end has these multipliers.
fn is_leaf(alloc: Global, tableau: &Tableau, weights: &[Weight]) -> bool {
    match leaf_of(alloc, tableau) {
        Ok(leaf) => leaf.multipliers.as_slice() == weights,
        Err(_) => false,
    }
}

/// Whether the refuter of a row has these multipliers.
fn is_refuter(alloc: Global, tableau: &Tableau, row: u32, weights: &[Weight]) -> bool {
    match refuter(alloc, tableau, row) {
        Some(Ok(leaf)) => leaf.multipliers.as_slice() == weights,
        _ => false,
    }
}

/// Whether the vertex has these values.
fn is_point(alloc: Global, tableau: &Tableau, values: &[Frac]) -> bool {
    match point(alloc, tableau) {
        Some(Ok(vertex)) => vertex.values.as_slice() == values,
        _ => false,
    }
}

/// Whether the pivots on the diagonal are made and lead to this leaf and this vertex.
fn ends_with(alloc: Global, tableau: &mut Tableau, weights: &[Weight], values: &[Frac]) -> bool {
    is_pivoted(tableau, 0, 0)
        && is_pivoted(tableau, 1, 1)
        && is_leaf(alloc, tableau, weights)
        && is_point(alloc, tableau, values)
}

#[test]
fn leaf_and_point_of_an_optimal_end(rt: HostRuntime) {
    let alloc = rt.alloc();
    // the greatest of -x - y where x is at least 1 and x + y at least 5
    let mut tableau = program(&rt, alloc, [[-1, 0, -1], [-1, -1, -5]], [-1, -1, 0]);
    let values = [Frac::whole(1), Frac::whole(4)];
    assert!(rt; ends_with(alloc, &mut tableau, &[once(1)], &values));
}

/// Whether the pivot at the first cell of the second row is made and leads to this refuter of the first row.
fn is_refuted_by(alloc: Global, tableau: &mut Tableau, weights: &[Weight]) -> bool {
    is_pivoted(tableau, 1, 0) && is_refuter(alloc, tableau, 0, weights)
}

#[test]
fn refuter_of_an_infeasible_end(rt: HostRuntime) {
    let alloc = rt.alloc();
    // x is at most 1 and at least 2
    let mut tableau = program(&rt, alloc, [[1, 0, 1], [-1, 0, -2]], [-1, 0, 0]);
    assert!(rt; is_refuted_by(alloc, &mut tableau, &[once(0), once(1)]));
}
