//! The opening and the start leaf of links of two signals 500 metres apart, each with half of a cycle of 100 seconds red, driven at
//! 36 kilometres an hour. Its columns, from 0: the bands, the frequency, the waits outbound and inbound, the runs, the shifts, and
//! the halves outbound and inbound.

use artery_model::Artery;
use branch_tree::{Room, Sought};
use fraction_tableau::Tableau;
use multi_band::{ArteryLinks, start_link_leaf};
use named_row::{Leaf, RowId, Weight};
use narrow_fraction::Frac;
use std::alloc::Global;
use std::rt::HostRuntime;
use std::test::Fail;
use test_bed::{fraction_or_zero, two_signals, with_ratio};

/// The street with this ratio.
fn artery(alloc: Global, ratio: Frac) -> Result<Artery, Fail> {
    two_signals(alloc, with_ratio(ratio), 50, 500)
}

/// The tableau that a search of these links begins from.
fn begun(alloc: Global, links: &ArteryLinks) -> Result<Tableau, Fail> {
    let area = links.root(alloc)?;
    let Room {
        mut tableau,
        mut spare,
    } = links.make_room(alloc)?;
    links.begin_root(&mut tableau, &mut spare, &area);
    Ok(tableau)
}

/// The opening tableau of the street with this ratio.
fn opened(alloc: Global, ratio: Frac) -> Result<Tableau, Fail> {
    let artery = artery(alloc, ratio)?;
    begun(alloc, &ArteryLinks { artery: &artery })
}

/// A cell, or a bound, where there is one; the goal row has the number after the last row.
fn cell(tableau: &Tableau, row: u32, col: u32) -> Option<Frac> {
    if tableau.rows() < row || tableau.width() < col {
        return None;
    }
    Some(tableau.cell(row, col))
}

/// The name of a row, where there is one.
fn name(tableau: &Tableau, row: u32) -> Option<RowId> {
    if tableau.rows() <= row {
        return None;
    }
    Some(tableau.name(row))
}

/// The variable that is basic in a row, where there is one.
fn basic(tableau: &Tableau, row: u32) -> Option<u32> {
    if tableau.rows() <= row {
        return None;
    }
    Some(tableau.basic(row))
}

/// Whether the cells of a row begin with these numbers.
fn has_cells(tableau: &Tableau, row: u32, numbers: &[i64]) -> bool {
    let mut col = 0u32;
    for number in numbers {
        if cell(tableau, row, col) != Some(Frac::whole(*number)) {
            return false;
        }
        col = col.wrapping_add(1);
    }
    true
}

/// The row of this family at link 1: far_out_a is of family 24, far_in_a of family 28.
fn row(family: u8) -> RowId {
    RowId { family, index: 1 }
}

/// The goal row: 2 at the waits at signal 1 and at the slacks that stand in the columns of the halves, and the bound 2.
const GOAL: [i64; 14] = [0, 0, 0, 2, 0, 2, 0, 0, 0, 0, 0, 2, 2, 2];

/// The row of near_out_a: the outbound half is 1/2 less the wait and the slack, and at most the wait.
const NEAR_OUT: [i64; 13] = [0, 0, 0, -2, 0, 0, 0, 0, 0, 0, 0, -1, 0];

/// Whether the halves are basic in rows 14 and 18.
fn has_halves(tableau: &Tableau) -> bool {
    basic(tableau, 14) == Some(11) && basic(tableau, 18) == Some(12)
}

/// Whether a row has this name.
fn is_named(tableau: &Tableau, place: u32, wanted: RowId) -> bool {
    match name(tableau, place) {
        Some(name) => name == wanted,
        None => false,
    }
}

/// Whether this number stands in a cell, or a bound.
fn has_number(tableau: &Tableau, row: u32, col: u32, wanted: Frac) -> bool {
    match cell(tableau, row, col) {
        Some(number) => number == wanted,
        None => false,
    }
}

/// Whether the tableau has 13 columns and 20 rows, in 12, 14 and 18 of them the halves and what stands for them.
fn is_opened(tableau: &Tableau) -> bool {
    tableau.width() == 13
        && tableau.rows() == 20
        && !tableau.is_spent()
        && is_named(tableau, 14, row(24))
        && is_named(tableau, 18, row(28))
        && has_halves(tableau)
        && basic(tableau, 12) == Some(25)
}

/// Whether the goal row and that of near_out_a, and the bounds of near_out_a and far_out_a, are these.
fn has_goal_and_ends(tableau: &Tableau) -> bool {
    has_cells(tableau, 20, &GOAL)
        && has_cells(tableau, 12, &NEAR_OUT)
        && has_number(tableau, 12, 13, fraction_or_zero(-1, 2))
        && has_number(tableau, 14, 13, fraction_or_zero(1, 2))
}

#[test]
fn halves_are_in_the_basis(rt: HostRuntime) -> Result<(), Fail> {
    let tableau = opened(rt.alloc(), Frac::whole(1))?;
    assert!(rt; is_opened(&tableau) && has_goal_and_ends(&tableau));
    Ok(())
}

/// Whether the tableau has 21 rows, the halves where they were, and this goal row.
fn is_opened_with_ratio(tableau: &Tableau) -> bool {
    tableau.rows() == 21
        && has_halves(tableau)
        && has_number(tableau, 21, 5, Frac::whole(1))
        && has_number(tableau, 21, 13, fraction_or_zero(3, 2))
}

/// Where there is a row of the ratio, the rows of the halves stand as far from the front as without it.
#[test]
fn ratio_rows_stand_behind(rt: HostRuntime) -> Result<(), Fail> {
    let tableau = opened(rt.alloc(), fraction_or_zero(1, 2))?;
    assert!(rt; is_opened_with_ratio(&tableau));
    Ok(())
}

/// The start leaf of the street with this ratio, and its bound.
fn start(alloc: Global, ratio: Frac) -> Result<(Leaf, Frac), Fail> {
    let artery = artery(alloc, ratio)?;
    Ok(start_link_leaf(alloc, &artery)?)
}

/// Whether a weight is 2 for the row of this family.
fn is_twice(weight: &Weight, family: u8) -> bool {
    weight.row == row(family) && weight.by == Frac::whole(2)
}

/// Whether a leaf has twice each half of the green.
fn has_both_twice(leaf: &Leaf) -> bool {
    match leaf.multipliers.as_slice() {
        [first, second] => is_twice(first, 24) && is_twice(second, 28),
        _ => false,
    }
}

/// Twice each half of the green.
#[test]
fn halves_are_bounded_by_the_greens(rt: HostRuntime) -> Result<(), Fail> {
    let (leaf, bound) = start(rt.alloc(), Frac::whole(1))?;
    assert!(rt; bound == Frac::whole(2) && has_both_twice(&leaf));
    Ok(())
}

/// As often as the ratio says.
#[test]
fn one_half_is_bounded_where_one_counts(rt: HostRuntime) -> Result<(), Fail> {
    let (leaf, bound) = start(rt.alloc(), Frac::whole(0))?;
    assert!(rt; bound == Frac::whole(1) && leaf.multipliers.len() == 1);
    Ok(())
}
