//! Worked openings: two signals with 100 parts, a cycle of 100 seconds, 250 metres each way at 36 kilometres an hour.

ghost use Rattle.std.specs.Prelude.{◌≡◌, IfOk, false, length};
ghost use Rattle.progression.specs.Street.{count};
ghost use Rattle.linear_theory.specs.{Boxes.{IsBoxOf}, Places.{width}};
ghost use Rattle.simplex_theory.specs.DualSteps.{IsDual};
ghost use Rattle.program_builder.specs.{Building.{IsMadeFor, IsLoadedFor}, First.{IsFirstFor}};

use crate::tests::solving::{solved, take_step};
use artery_model::Artery;
use dual_simplex::{Meter, NodeEnd, Step};
use fraction_tableau::Tableau;
use loop_rows::column_count;
use named_row::{Place, Row, RowId};
use narrow_fraction::Frac;
use program_builder::{make_loaded, make_unloaded, reset_from, start};
use search_box::SearchBox;
use std::alloc::Global;
use std::process::Abort;
use std::rt::HostRuntime;
use std::test::Fail;
use test_bed::{fraction_or_zero, two_signals, with_ratio};

/// The artery with these reds and this ratio.
pub fn artery(alloc: Global, red: u32, ratio: Frac) -> Result<Artery, Fail> {
    two_signals(alloc, with_ratio(ratio), red, 250)
}

/// The box of all of an artery's timings.
pub fn root(alloc: Global, artery: &Artery) -> Result<SearchBox, Fail>
    ensures { IfOk result (λ area. IsBoxOf artery.now area) }
{
    let area = SearchBox::root(alloc, artery)?;
    Ok(area)
}

/// The rows of a box as they are loaded, which serve every box of the artery.
pub fn loaded(alloc: Global, artery: &Artery, area: &SearchBox) -> Result<Tableau, Fail>
    requires { IsBoxOf artery.now area.now }
    ensures { IfOk result (λ rows. IsLoadedFor artery.now rows) }
{
    let mut row = Row::zero(alloc, column_count(artery))?;
    let rows = make_loaded(alloc, artery, area, &mut row)?;
    Ok(rows)
}

/// A tableau with room for the rows of an artery's boxes.
fn blank(alloc: Global, artery: &Artery) -> Result<Tableau, Fail>
    ensures { IfOk result (λ tableau. IsMadeFor artery.now tableau) }
{
    let tableau = make_unloaded(alloc, artery)?;
    Ok(tableau)
}

/// The opening of a box, as a search makes it.
pub fn opening(alloc: Global, artery: &Artery, area: &SearchBox) -> Result<Tableau, Fail>
    requires { IsBoxOf artery.now area.now }
    ensures first { IfOk result (λ tableau. IsFirstFor artery.now area.now tableau.table) }
    ensures made { IfOk result (λ tableau. IsMadeFor artery.now tableau) }
    ensures dual { IfOk result (λ tableau. IsDual tableau.table) }
    ensures unspent { IfOk result (λ tableau. tableau.spent ≡ false) }
{
    let rows = loaded(alloc, artery, area)?;
    let mut tableau = blank(alloc, artery)?;
    reset_from(&mut tableau, &rows, artery, area);
    Ok(tableau)
}

/// The opening of the root of the artery with these reds and this ratio.
fn root_opening(alloc: Global, red: u32, ratio: Frac) -> Result<Tableau, Fail>
    ensures dual { IfOk result (λ tableau. IsDual tableau.table) }
    ensures unspent { IfOk result (λ tableau. tableau.spent ≡ false) }
{
    let artery = artery(alloc, red, ratio)?;
    let area = root(alloc, &artery)?;
    opening(alloc, &artery, &area)
}

/// A cell of the goal row, or its bound, where there is one.
fn goal_cell(tableau: &Tableau, col: u32) -> Option<Frac> {
    if tableau.width() < col {
        return None;
    }
    Some(tableau.cell(tableau.rows(), col))
}

/// One of the goal row's cells that aren't 0, by its number among them.
fn goal_kept(tableau: &Tableau, index: usize) -> Option<(u32, Frac)> {
    match tableau.kept(tableau.rows()).get(index) {
        Some(kept) => Some((kept.place, kept.cell.fraction())),
        None => None,
    }
}

/// The family and the index of a row, where there is one.
fn name(tableau: &Tableau, row: u32) -> Option<RowId> {
    if tableau.rows() <= row {
        return None;
    }
    Some(tableau.name(row))
}

/// The variable at a place, where there is one.
fn standing(tableau: &Tableau, col: u32) -> Option<u32> {
    if tableau.width() <= col {
        return None;
    }
    Some(tableau.standing(col))
}

/// A cell, where there is one.
pub fn cell(tableau: &Tableau, row: u32, col: u32) -> Option<Frac> {
    if tableau.rows() < row || tableau.width() < col {
        return None;
    }
    Some(tableau.cell(row, col))
}

/// Whether two tableaus have the same cells and the same bound in a row.
fn is_same_line(one: &Tableau, other: &Tableau, row: u32) -> bool {
    for col in 0..one.width() {
        if cell(one, row, col) != cell(other, row, col) {
            return false;
        }
    }
    cell(one, row, one.width()) == cell(other, row, other.width())
}

/// Whether two tableaus have the same numbers, those of the goal row among them.
pub fn is_same(one: &Tableau, other: &Tableau) -> bool {
    for row in 0..one.rows() {
        if !is_same_line(one, other, row) {
            return false;
        }
    }
    is_same_line(one, other, one.rows())
        && one.rows() == other.rows()
        && one.width() == other.width()
}

/// The families and the indices of the rows of an artery of two signals.
static NAMES: [(u8, u32); 16] = [
    (1, 1),
    (1, 2),
    (2, 1),
    (2, 2),
    (3, 1),
    (4, 1),
    (5, 1),
    (6, 1),
    (11, 0),
    (12, 0),
    (14, 1),
    (15, 1),
    (16, 1),
    (16, 2),
    (17, 1),
    (17, 2),
];

/// Whether a pivot on the first cell of these numbers, loaded into the first row, is refused.
fn is_refused(tableau: &mut Tableau, artery: &Artery, from: &Row) -> bool
    requires made { IsMadeFor artery.now tableau.old }
    requires width { length from.now.coefs ≡ width (count artery.now) }
    requires unspent { from.now.spent ≡ false }
    ensures { IsMadeFor artery.now tableau.new }
{
    let name = RowId {
        family: 1,
        index: 1,
    };
    if tableau.rows() == 0 {
        return false;
    }
    tableau.load(0, name, from);
    if tableau.is_spent() || tableau.cell(0, 0) == Frac::whole(0) {
        return false;
    }
    tableau.known_named();
    let refused = tableau.pivot(0, 0).is_err();
    tableau.known_named();
    refused
}

/// Whether a tableau of 11 columns has the rows of `NAMES`.
fn has_every_row(tableau: &Tableau) -> bool {
    for row in 0..16 {
        let (family, index) = NAMES[row as usize];
        if name(tableau, row) != Some(RowId { family, index }) {
            return false;
        }
    }
    tableau.rows() == 16 && tableau.width() == 11
}

#[test]
fn every_row_in_order(rt: HostRuntime) -> Result<(), Fail> {
    let tableau = root_opening(rt.alloc(), 50, Frac::whole(1))?;
    assert!(rt; has_every_row(&tableau));
    Ok(())
}

/// Whether the goal row has these cells, and the variables of the root's opening stand at the first three places.
fn is_opened(tableau: &Tableau, cells: [i64; 11]) -> bool {
    for col in 0..11 {
        if goal_cell(tableau, col) != Some(Frac::whole(cells[col as usize])) {
            return false;
        }
    }
    standing(tableau, 0) == Some(11)
        && standing(tableau, 1) == Some(13)
        && standing(tableau, 2) == Some(2)
}

/// The outbound band's place has the slack of row 0, variable 11, and the inbound band's that of row 2, variable 13.
#[test]
fn goal_row_of_the_opening(rt: HostRuntime) -> Result<(), Fail> {
    let rows = [
        (Frac::whole(1), [1, 1, 0, 1, 0, 1, 0, 0, 0, 0, 0]),
        (Frac::whole(0), [1, 0, 0, 1, 0, 0, 0, 0, 0, 0, 0]),
    ];
    for (ratio, cells) in rows {
        let tableau = root_opening(rt.alloc(), 50, ratio)?;
        assert!(rt; is_opened(&tableau, cells));
    }
    Ok(())
}

/// Whether the goal row's cells that aren't 0 are 1 and stand at these places.
fn goal_keeps_ones_at(tableau: &Tableau, places: &[u32]) -> bool {
    for (index, place) in places.iter().enumerate() {
        if goal_kept(tableau, index) != Some((*place, Frac::whole(1))) {
            return false;
        }
    }
    goal_kept(tableau, places.len()).is_none()
}

#[test]
fn goal_row_of_the_opening_lends_its_cells(rt: HostRuntime) -> Result<(), Fail> {
    let tableau = root_opening(rt.alloc(), 50, Frac::whole(1))?;
    assert!(rt; goal_keeps_ones_at(&tableau, &[0, 1, 3, 5]));
    Ok(())
}

/// The first three steps, which are the same with both reds.
fn take_first_steps(rt: &impl Abort, tableau: &mut Tableau)
    requires dual { IsDual tableau.old.table }
    requires unspent { tableau.old.spent ≡ false }
    ensures dual { IsDual tableau.new.table }
    ensures unspent { tableau.new.spent ≡ false }
{
    take_step(rt, tableau, Step::Pivoted { row: 8, col: 2 });
    take_step(rt, tableau, Step::Pivoted { row: 4, col: 7 });
    take_step(rt, tableau, Step::Pivoted { row: 5, col: 8 });
}

fn take_steps_to_the_best_band(rt: &impl Abort, tableau: &mut Tableau)
    requires dual { IsDual tableau.old.table }
    requires unspent { tableau.old.spent ≡ false }
{
    assert_eq!(rt; goal_cell(tableau, 11), Some(Frac::whole(1)));
    take_first_steps(rt, tableau);
    take_step(rt, tableau, Step::Optimal);
}

#[test]
fn steps_to_the_best_band(rt: HostRuntime) -> Result<(), Fail> {
    let mut tableau = root_opening(rt.alloc(), 50, Frac::whole(1))?;
    take_steps_to_the_best_band(&rt, &mut tableau);
    Ok(())
}

fn take_steps_to_no_timing(rt: &impl Abort, tableau: &mut Tableau)
    requires dual { IsDual tableau.old.table }
    requires unspent { tableau.old.spent ≡ false }
{
    take_first_steps(rt, tableau);
    take_step(rt, tableau, Step::Pivoted { row: 10, col: 9 });
    take_step(rt, tableau, Step::Infeasible { row: 11 });
}

#[test]
fn steps_to_no_timing(rt: HostRuntime) -> Result<(), Fail> {
    let mut tableau = root_opening(rt.alloc(), 80, Frac::whole(1))?;
    take_steps_to_no_timing(&rt, &mut tableau);
    Ok(())
}

/// The end of the root's steps within two units, the units and the pivots.
fn end_within_two_units(alloc: Global) -> Result<(NodeEnd, u64, u64), Fail> {
    let mut tableau = root_opening(alloc, 50, Frac::whole(1))?;
    let meter = Meter {
        spent: 0,
        limit: Some(2),
    };
    Ok(solved(&mut tableau, meter, 0))
}

#[test]
fn work_runs_out(rt: HostRuntime) -> Result<(), Fail> {
    assert_eq!(rt; end_within_two_units(rt.alloc())?, (NodeEnd::WorkOut, 2, 2));
    Ok(())
}

/// A row of an artery's width that begins with 2^126 and 1/3.
fn far_row(alloc: Global, artery: &Artery) -> Result<Row, Fail>
    ensures width { IfOk result (λ row. length row.coefs ≡ width (count artery.now)) }
    ensures unspent { IfOk result (λ row. row.spent ≡ false) }
{
    let width = column_count(artery);
    if width < 2 {
        return Err("too few columns".into());
    }
    let mut row = Row::zero(alloc, width)?;
    row.set(Place::Cell(0), fraction_or_zero(1 << 126, 1));
    row.set(Place::Cell(1), fraction_or_zero(1, 3));
    Ok(row)
}

/// Spends an opening by a pivot and resets it: whether the pivot was refused, and whether that spent the tableau. 1/3 over 2^126 leaves
/// 128 bits.
fn spend_and_reset(
    alloc: Global,
    artery: &Artery,
    area: &SearchBox,
    tableau: &mut Tableau,
) -> Result<(bool, bool), Fail>
    requires boxed { IsBoxOf artery.now area.now }
    requires made { IsMadeFor artery.now tableau.old }
{
    let rows = loaded(alloc, artery, area)?;
    let far = far_row(alloc, artery)?;
    let is_refused = is_refused(tableau, artery, &far);
    let is_spent = tableau.is_spent();
    reset_from(tableau, &rows, artery, area);
    Ok((is_refused, is_spent))
}

/// Whether a tableau isn't spent, and has the root's numbers and the variables of its bands' places.
fn is_root_opening(alloc: Global, tableau: &Tableau) -> Result<bool, Fail> {
    let fresh = root_opening(alloc, 50, Frac::whole(1))?;
    Ok(
        !tableau.is_spent()
            && is_same(tableau, &fresh)
            && standing(tableau, 0) == Some(11)
            && standing(tableau, 1) == Some(13),
    )
}

/// The same of the opening of a box, and whether the reset leaves the root's opening.
fn reset_opening(
    alloc: Global,
    artery: &Artery,
    area: &SearchBox,
) -> Result<(bool, bool, bool), Fail>
    requires { IsBoxOf artery.now area.now }
{
    let mut tableau = opening(alloc, artery, area)?;
    let (is_refused, is_spent) = spend_and_reset(alloc, artery, area, &mut tableau)?;
    let is_opening = is_root_opening(alloc, &tableau)?;
    Ok((is_refused, is_spent, is_opening))
}

/// The same of the root.
fn reset_root(alloc: Global) -> Result<(bool, bool, bool), Fail> {
    let artery = artery(alloc, 50, Frac::whole(1))?;
    let area = root(alloc, &artery)?;
    reset_opening(alloc, &artery, &area)
}

#[test]
fn reset_of_a_spent_tableau(rt: HostRuntime) -> Result<(), Fail> {
    let (is_refused, is_spent, is_opening) = reset_root(rt.alloc())?;
    assert!(rt; is_refused);
    assert!(rt; is_spent);
    assert!(rt; is_opening);
    Ok(())
}

/// Whether the tableau that starts the root's box is the one that a search makes.
fn is_started(alloc: Global) -> Result<bool, Fail> {
    let artery = artery(alloc, 50, Frac::whole(1))?;
    let area = root(alloc, &artery)?;
    let tableau = start(alloc, &artery, &area)?;
    is_root_opening(alloc, &tableau)
}

#[test]
fn start_makes_the_same(rt: HostRuntime) -> Result<(), Fail> {
    assert!(rt; is_started(rt.alloc())?);
    Ok(())
}
