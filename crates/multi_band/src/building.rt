//! The tableau that each box of links begins from.

ghost use Rattle.std.specs.Prelude.{◌≡◌, ◌≢◌, ◌-◌, ◌<◌, ◌≤◌, length, false, IfOk};
ghost use Rattle.progression.specs.{Street.{count}, Speeds.{number}};
ghost use Rattle.linear_theory.specs.Boxes.{IsBoxOf};
ghost use Rattle.simplex_theory.specs.Tableau.{height};
ghost use Rattle.multi_band.specs.LinkTables.{names_of_links};
ghost use Rattle.multi_band.specs.LinkOpening.{rows_before, half_pivot, IsMadeForLinks, AreSpareRows, loaded_links, opened_links, IsOpenedForLinks};

use artery_model::{Artery, Dir};
use fraction_tableau::Tableau;
use link_space::{LinkRows, half_column, link_column_count};
use loop_rows::column_count;
use named_row::Row;
use narrow_fraction::{Frac, Memory};
use program_builder::{StartPivot, load, make_tableau, pivot};
use search_box::SearchBox;
use std::alloc::Global;

/// A spare row as wide as the artery's own rows, and one as wide as those of links.
#[derive(Drop)]
pub struct SpareRows {
    pub spare: Row,
    pub row: Row,
}

/// Spare rows for an artery's links. The error is want of memory.
pub fn make_spare(alloc: Global, artery: &Artery) -> Result<SpareRows, Memory>
    ensures { IfOk result (λ rows. AreSpareRows artery.now rows) }
{
    let spare = Row::zero(alloc, column_count(artery))?;
    let row = Row::zero(alloc, link_column_count(artery))?;
    Ok(SpareRows { spare, row })
}

/// A tableau with room for the rows of an artery's links, with nothing in it yet. The error is want of memory.
pub fn make_unloaded_links(alloc: Global, artery: &Artery) -> Result<Tableau, Memory>
    ensures { IfOk result (λ tableau. IsMadeForLinks artery.now tableau) }
{
    let tableau = make_tableau(alloc, &LinkRows { artery })?;
    Ok(tableau)
}

/// Loads the rows of links of a box and the value of links.
fn load_links(tableau: &mut Tableau, artery: &Artery, area: &SearchBox, rows: &mut SpareRows)
    requires boxed { IsBoxOf artery.now area.now }
    requires made { IsMadeForLinks artery.now tableau.old }
    requires rows { AreSpareRows artery.now rows.old }
    ensures loaded { tableau.new ≡ loaded_links artery.now area.now }
    ensures rows { AreSpareRows artery.now rows.new }
    ensures unspent { rows.new.row.spent ≡ false }
{
    load(
        tableau,
        &LinkRows { artery },
        area,
        &mut rows.spare,
        &mut rows.row,
    );
}

/// How many rows there are of the ratio: one for each link, and none where it is 1.
#[tactic(auto, using(rational_theory::proofs::Compare::eq_true, rational_theory::proofs::Compare::eq_false))]
fn ratio_rows(artery: &Artery) -> u32
    ensures one { artery.now.head.ratio ≡ number 1 → result ≡ 0 }
    ensures other { artery.now.head.ratio ≢ number 1 → result ≡ count artery.now - 1 }
{
    prove!(2 <= artery.count());
    if artery.ratio() == Frac::whole(1) {
        return 0;
    }
    artery.count() - 1
}

/// How many rows stand before those by which a wait and the half of its link fit into the green at the link's own signal: all
/// rows but those of the families from there on, each of which has one for each link.
fn far_row(tableau: &Tableau, artery: &Artery, dir: Dir) -> u32
    requires { height tableau.now.table ≡ length (names_of_links artery.now) }
    ensures { result ≡ rows_before artery.now dir }
{
    // its contract says that the artery is valid
    artery.known_valid();
    let links = artery.count() - 1;
    let extra = ratio_rows(artery);
    match dir {
        Dir::Outbound => tableau.rows() - (6 * links + extra),
        Dir::Inbound => tableau.rows() - (2 * links + extra),
    }
}

/// The pivot by which the half of a link enters, from the row of link 1.
fn pivot_of(artery: &Artery, dir: Dir, link: u32, first: u32) -> StartPivot
    requires first { 1 ≤ link }
    requires last { link < count artery.now }
    requires row { first ≡ rows_before artery.now dir }
    ensures { result ≡ half_pivot artery.now dir link }
{
    // its contract says that the artery is valid
    artery.known_valid();
    StartPivot {
        row: first + (link - 1),
        column: half_column(artery, dir, link),
    }
}

/// Brings each link's halves into the basis, in the rows that keep them within the greens at the link's own signal.
fn enter_halves(tableau: &mut Tableau, artery: &Artery, area: &SearchBox)
    requires loaded { tableau.old ≡ loaded_links artery.now area.now }
    ensures { tableau.new ≡ opened_links artery.now area.now }
{
    artery.known_valid();
    tableau.known_named();
    let outbound = far_row(tableau, artery, Dir::Outbound);
    let inbound = far_row(tableau, artery, Dir::Inbound);
    for link in 1..artery.count() {
        let there = pivot_of(artery, Dir::Outbound, link, outbound);
        pivot(tableau, there.row, there.column);
        let back = pivot_of(artery, Dir::Inbound, link, inbound);
        pivot(tableau, back.row, back.column);
    }
}

/// Makes the tableau that a box of links begins from, in one that `make_unloaded_links` made for this artery, spent or not: every
/// row of links that the artery has, in the order of their names, with the value of links as its goal, after the pivots that bring
/// the halves into the basis. It is dual feasible for each ratio, and no number leaves 128 bits. The spare rows have any contents
/// afterwards. Takes no memory.
pub fn reset_links(tableau: &mut Tableau, artery: &Artery, area: &SearchBox, rows: &mut SpareRows)
    requires boxed { IsBoxOf artery.now area.now }
    requires made { IsMadeForLinks artery.now tableau.old }
    requires rows { AreSpareRows artery.now rows.old }
    ensures opened { IsOpenedForLinks artery.now area.now tableau.new }
    ensures rows { AreSpareRows artery.now rows.new }
    ensures unspent { rows.new.row.spent ≡ false }
{
    artery.known_valid();
    load_links(tableau, artery, area, rows);
    enter_halves(tableau, artery, area);
}
