//! Which row and which place a step takes, by Bland's rule.

ghost use Rattle.std.specs.Prelude.{◌≡◌, ◌<◌, ◌≤◌, IfSome, Some, None, pos, ltb, cond, is_some};
ghost use Rattle.rational_theory.specs.Rational.{whole, neg_ℚ, ◌/ℚ◌, ◌<ℚ◌};
ghost use Rattle.simplex_theory.specs.{Tableau.{height, width, bound, cell, goal_cell}, Best.{best_step}};
ghost use Rattle.simplex_theory.specs.BlandRule.{chosen_row, chosen_place, is_negative, row_before, place_before, less_by};
ghost use Rattle.narrow_fraction.specs.{Attempt.{attempt}, declared.wide.Op.TheVariants.{Div}};
ghost use Rattle.fraction_tableau.specs.Refusals.{refused};
ghost use Rattle.dual_simplex.specs.Ratios.{ratio_at, ratio_refusal, with_cells, place_of, IsChosen, CanCompare, Compares};

use fraction_tableau::{Kept, Tableau, WideCell};
use narrow_fraction::{Frac, Quotient};
use std::cmp::Ordering;

/// Whether a number is below 0.
fn is_negative(number: &Quotient) -> bool
    ensures { result ≡ is_negative number.now }
{
    number.is_negative()
}

/// The bound of a row.
fn row_bound(tableau: &Tableau, row: u32) -> Quotient
    requires { row < height tableau.now.table }
    ensures { result ≡ bound tableau.now.table row }
{
    tableau.held(row, tableau.width())
}

/// The cell of the goal row.
fn goal_row_cell(tableau: &Tableau, col: u32) -> Quotient
    requires { col ≤ width tableau.now.table }
    ensures { result ≡ goal_cell tableau.now.table col }
{
    tableau.held(tableau.rows(), col)
}

/// The better of the row chosen so far and this one.
fn better_row(tableau: &Tableau, best: Option<u32>, row: u32) -> Option<u32>
    requires row { row < height tableau.now.table }
    requires best { IfSome best (λ other. other < height tableau.now.table) }
    ensures { result ≡ best_step (λ i. is_negative (bound tableau.now.table i)) (row_before tableau.now.table) row best }
{
    let negative = is_negative(&row_bound(tableau, row));
    match best {
        None => { if negative { Some(row) } else { None } }
        Some(other) => {
            if negative && tableau.basic(row) < tableau.basic(other) {
                Some(row)
            } else {
                Some(other)
            }
        }
    }
}

/// The row with the least basic variable among those with a negative bound.
pub fn chosen_row(tableau: &Tableau) -> Option<u32>
    ensures { result ≡ chosen_row tableau.now.table }
{
    let mut best = None;
    for row in 0..tableau.rows() {
        best = better_row(tableau, best, row);
    }
    best
}

/// A place with its cells in the goal row and in the row, of which its ratio is made: the goal cell over the negated cell.
#[derive(Drop)]
pub struct Chosen {
    pub place: u32,
    pub goal: Quotient,
    pub cell: Quotient,
}

/// The ratio of a place, or its refusal.
fn ratio_of(chosen: &Chosen, row: u32) -> Result<Frac, WideCell>
    requires { chosen.now.cell <ℚ whole (pos 0) }
    ensures { result ≡ attempt (refused Div chosen.now.goal (neg_ℚ chosen.now.cell) row chosen.now.place) (chosen.now.goal /ℚ neg_ℚ chosen.now.cell) }
{
    match chosen.goal.fraction().over(chosen.cell.fraction().neg()) {
        Ok(ratio) => Ok(ratio),
        Err(wide) => Err(WideCell {
            row,
            col: chosen.place,
            wide,
        }),
    }
}

/// How the ratio of a place compares with another one, which was not refused, or its refusal.
fn compare_fractions(next: &Chosen, best: &Chosen, row: u32) -> Result<Ordering, WideCell>
    requires { CanCompare row next.now best.now }
    ensures { Compares row next.now best.now result }
{
    let ratio = match ratio_of(next, row) {
        Ok(ratio) => ratio,
        Err(wide) => return Err(wide),
    };
    match ratio_of(best, row) {
        Ok(other) => Ok(ratio.cmp(&other)),
        Err(_) => unreachable!(),
    }
}

/// The same: by two products where the rows are narrow, as they mostly are, and so nothing is refused.
fn compare_ratios(next: &Chosen, best: &Chosen, row: u32) -> Result<Ordering, WideCell>
    requires { CanCompare row next.now best.now }
    ensures { Compares row next.now best.now result }
{
    match next.goal.ratio_order(&next.cell, &best.goal, &best.cell) {
        Some(order) => Ok(order),
        None => compare_fractions(next, best, row),
    }
}

/// The first place with a negative cell, or the refusal of its ratio.
fn first_place(first: Chosen, row: u32) -> Result<Chosen, WideCell>
    requires { first.cell <ℚ whole (pos 0) }
    ensures { result ≡ attempt (refused Div first.goal (neg_ℚ first.cell) row first.place) first }
{
    match first
        .goal
        .ratio_order(&first.cell, &first.goal, &first.cell)
    {
        Some(_) => Ok(first),
        None => match ratio_of(&first, row) {
            Ok(_) => Ok(first),
            Err(wide) => Err(wide),
        },
    }
}

/// Whether the ratio that compares so is the lesser one, or of equal ones that of the lesser variable.
fn is_before(order: Ordering, variable: u32, other_variable: u32) -> bool
    ensures { result ≡ less_by order (ltb variable other_variable) }
{
    match order {
        Ordering::Less => true,
        Ordering::Equal => variable < other_variable,
        Ordering::Greater => false,
    }
}

/// One of two places.
fn either(first: bool, next: Chosen, other: Chosen) -> Chosen
    ensures { result ≡ cond first next other }
{
    if first { next } else { other }
}

/// The better of the place chosen so far and this one, or the refusal of its ratio.
fn better_place(
    tableau: &Tableau,
    row: u32,
    best: Option<Chosen>,
    entry: &Kept,
) -> Result<Option<Chosen>, WideCell>
    requires row { row < height tableau.now.table }
    requires place { entry.now.place < width tableau.now.table }
    requires cell { entry.now.cell ≡ cell tableau.now.table row entry.now.place }
    requires best { IfSome best (IsChosen tableau.now.table row) }
    ensures { result ≡ attempt (ratio_at tableau.now.table row entry.now.place)
        (with_cells tableau.now.table row
        (best_step (λ k. is_negative (cell tableau.now.table row k)) (place_before tableau.now.table row) entry.now.place (place_of best))) }
{
    if !is_negative(&entry.cell) {
        return Ok(best);
    }
    let next = Chosen {
        place: entry.place,
        goal: goal_row_cell(tableau, entry.place),
        cell: entry.cell.copied(),
    };
    match best {
        None => match first_place(next, row) {
            Ok(first) => Ok(Some(first)),
            Err(wide) => Err(wide),
        },
        Some(other) => {
            let order = match compare_ratios(&next, &other, row) {
                Ok(order) => order,
                Err(wide) => return Err(wide),
            };
            let before = is_before(
                order,
                tableau.standing(entry.place),
                tableau.standing(other.place),
            );
            Ok(Some(either(before, next, other)))
        }
    }
}

/// The place of the row's negative cells that the rule takes, or the first refused ratio.
pub fn chosen_place(tableau: &Tableau, row: u32) -> Result<Option<Chosen>, WideCell>
    requires { row < height tableau.now.table }
    ensures { result ≡ attempt (ratio_refusal tableau.now.table row) (with_cells tableau.now.table row (chosen_place tableau.now.table row)) }
{
    let entries = tableau.kept(row);
    let mut best = None;
    for index in 0..entries.len() {
        match better_place(tableau, row, best, &entries[index]) {
            Ok(next) => best = next,
            Err(wide) => return Err(wide),
        }
    }
    Ok(best)
}

/// Whether the row has a negative cell.
pub fn has_negative(tableau: &Tableau, row: u32) -> bool
    requires { row < height tableau.now.table }
    ensures { result ≡ is_some (chosen_place tableau.now.table row) }
{
    let entries = tableau.kept(row);
    for index in 0..entries.len() {
        let entry = &entries[index];
        if is_negative(&entry.cell) {
            return true;
        }
    }
    false
}
