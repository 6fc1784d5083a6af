//! Leaves and the vertex of a tableau.

ghost use Rattle.std.specs.Prelude.{◌≡◌, ℕ, ◌<◌, ◌++◌, pos, false, length, get_or, IfOk};
ghost use Rattle.rational_theory.specs.Rational.{whole, ◌≤ℚ◌, ◌<ℚ◌};
ghost use Rattle.simplex_theory.specs.{Tableau.{height, width, bound, cell}, RowLists.{vertex_point}};
ghost use Rattle.fraction_tableau.specs.NamedTableaus.{IsNamed};
ghost use Rattle.dual_leaf.specs.Leaves.{multiplier, multipliers_below, goal_multipliers, row_multipliers, LeafCovers, LeafRefutes, ReachesOptimum};

use crate::values::{put, put_columns, put_slacks, zeros};
use fraction_tableau::Tableau;
use named_row::{Leaf, Point, RowId, Weight};
use narrow_fraction::{Frac, Memory, Quotient};
use std::alloc::{AllocError, Global};

/// One more multiplier, unless it is 0.
fn push_multiplier(list: &mut Vec<Weight>, name: RowId, by: Frac) -> Result<(), AllocError>
    ensures { IfOk result (λ _. list.new.items ≡ list.old.items ++ multiplier name by) }
{
    if by.is_zero() {
        return Ok(());
    }
    list.push(Weight { row: name, by })?;
    Ok(())
}

/// The multipliers of the rows, in their order, those that aren't 0.
fn named(alloc: Global, tableau: &Tableau, weights: &[Frac]) -> Result<Vec<Weight>, AllocError>
    requires { length weights.now ≡ height tableau.now.table }
    ensures { IfOk result (λ list. list.items ≡ multipliers_below tableau.now.names (λ r. get_or weights.now r (whole (pos 0))) (length tableau.now.names)) }
{
    let mut list = Vec::new(alloc);
    for row in 0..tableau.rows() {
        push_multiplier(&mut list, tableau.name(row), weights[row as usize])?;
    }
    Ok(list)
}

/// The goal row's multipliers.
fn goal_weights(alloc: Global, tableau: &Tableau) -> Result<Vec<Weight>, AllocError>
    ensures { IfOk result (λ list. list.items ≡ goal_multipliers tableau.now) }
{
    let mut weights = zeros(alloc, tableau.rows())?;
    put_slacks(&mut weights, tableau, tableau.rows());
    named(alloc, tableau, &weights)
}

/// A row's multipliers.
fn row_weights(alloc: Global, tableau: &Tableau, row: u32) -> Result<Vec<Weight>, AllocError>
    requires { row < height tableau.now.table }
    ensures list { IfOk result (λ list. list.items ≡ row_multipliers tableau.now row) }
    ensures shape { IsNamed tableau.now }
{
    let mut weights = zeros(alloc, tableau.rows())?;
    put_slacks(&mut weights, tableau, row);
    put(
        &mut weights,
        tableau.width(),
        tableau.basic(row),
        &Quotient::of_fraction(Frac::whole(1)),
    );
    named(alloc, tableau, &weights)
}

/// The vertex's values of the columns.
fn vertex_values(alloc: Global, tableau: &Tableau) -> Result<Vec<Frac>, AllocError>
    ensures { IfOk result (λ values. values.items ≡ vertex_point tableau.now.table) }
{
    let mut values = zeros(alloc, tableau.width())?;
    put_columns(&mut values, tableau);
    Ok(values)
}

/// The goal row's multipliers of the named rows, in the order of the rows, those that aren't 0: the goal row's cells at the
/// slacks. They stay readable on a spent tableau.
///
/// On a dual feasible tableau none is negative, and the rows' sum by them covers the goal with the goal row's bound, for all
/// rows and each goal that the tableau stands for.
pub fn leaf_of(alloc: Global, tableau: &Tableau) -> Result<Leaf, Memory>
    ensures list { IfOk result (λ leaf. leaf.multipliers.items ≡ goal_multipliers tableau.now) }
    ensures covers { IfOk result (λ leaf. LeafCovers tableau.now leaf.multipliers.items) }
{
    let multipliers = goal_weights(alloc, tableau)?;
    Ok(Leaf { multipliers })
}

/// The multipliers of a row with a negative bound and no negative cell, in the order of the rows, those that aren't 0: the
/// row's cells at the slacks, and 1 for its own basic variable where that is a slack.
///
/// None is negative, and on a dual feasible tableau the rows' sum by them refutes all rows that the tableau stands for.
pub fn refuter_of(alloc: Global, tableau: &Tableau, row: u32) -> Result<Leaf, Memory>
    requires unspent { tableau.now.spent ≡ false }
    requires row { row < height tableau.now.table }
    requires bound { bound tableau.now.table row <ℚ whole (pos 0) }
    requires cells { (k : ℕ) → k < width tableau.now.table → whole (pos 0) ≤ℚ cell tableau.now.table row k }
    ensures list { IfOk result (λ leaf. leaf.multipliers.items ≡ row_multipliers tableau.now row) }
    ensures refutes { IfOk result (λ leaf. LeafRefutes tableau.now leaf.multipliers.items) }
{
    let multipliers = row_weights(alloc, tableau, row)?;
    Ok(Leaf { multipliers })
}

/// The vertex: each basic column has its row's bound, and every other column 0.
///
/// Where no bound is negative on a dual feasible tableau, no value is negative, every row that the tableau stands for is met,
/// and the goal at the point is the goal row's bound.
pub fn point_of(alloc: Global, tableau: &Tableau) -> Result<Point, Memory>
    requires unspent { tableau.now.spent ≡ false }
    ensures values { IfOk result (λ point. point.values.items ≡ vertex_point tableau.now.table) }
    ensures optimum { IfOk result (λ point. ReachesOptimum tableau.now.table point.values.items) }
{
    let values = vertex_values(alloc, tableau)?;
    Ok(Point { values })
}
