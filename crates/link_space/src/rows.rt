//! The rows of links by their names.

ghost use Rattle.std.specs.Prelude.{◌≡◌, ◌↔◌, ◌-◌, ◌≤◌, ℕ, IsTrue, MatchOption, length, true, false};
ghost use Rattle.progression.specs.Street.{count};
ghost use Rattle.linear_theory.specs.{Places.{width}, Boxes.{IsBoxOf}, Names.{name_of}};
ghost use Rattle.loop_rows.specs.Following.{IsNextIn};
ghost use Rattle.link_theory.specs.{LinkColumns.{link_width}, LinkNames.{OfLines, NamesNoBand, HasLinkRow, link_name_of}};
ghost use Rattle.link_space.specs.{LinkFamilies.{number_of, row_in}, LinkSheets.{wide_sheet, link_sheet, IsFilledLinks}};
ghost use Rattle.link_space.specs.LinkWeights.{rows_of_links, link_set};

use crate::columns::link_column_count;
use crate::families::LinkFamily;
use crate::family_numbers as numbers;
use crate::family_numbers::LAST_LINK_FAMILY;
use crate::goal::fill_link_goal;
use artery_model::{Artery, Dir};
use link_theory::LinkEnd;
use loop_rows::{
    RowTable, column_count, family_numbers as lines, fill_by, fill_row, has_by, has_row, next_in,
};
use named_row::{Place, Row, RowId};
use narrow_fraction::Memory;
use search_box::SearchBox;
use std::alloc::Global;

/// The family of links of a number, or None where no family of links has it.
fn link_family_of(number: u8) -> Option<LinkFamily>
    ensures { MatchOption result ((i : ℕ) → link_name_of number i ≡ OfLines (name_of number i)) (λ f. (number_of f ≡ number) × ((i : ℕ) → link_name_of number i ≡ row_in f i)) }
{
    match number {
        numbers::NEAR_OUT_HERE => Some(LinkFamily::NearRow(Dir::Outbound, LinkEnd::Here)),
        numbers::NEAR_OUT_NEXT => Some(LinkFamily::NearRow(Dir::Outbound, LinkEnd::Next)),
        numbers::FAR_OUT_HERE => Some(LinkFamily::FarRow(Dir::Outbound, LinkEnd::Here)),
        numbers::FAR_OUT_NEXT => Some(LinkFamily::FarRow(Dir::Outbound, LinkEnd::Next)),
        numbers::NEAR_IN_HERE => Some(LinkFamily::NearRow(Dir::Inbound, LinkEnd::Here)),
        numbers::NEAR_IN_NEXT => Some(LinkFamily::NearRow(Dir::Inbound, LinkEnd::Next)),
        numbers::FAR_IN_HERE => Some(LinkFamily::FarRow(Dir::Inbound, LinkEnd::Here)),
        numbers::FAR_IN_NEXT => Some(LinkFamily::FarRow(Dir::Inbound, LinkEnd::Next)),
        numbers::LINK_RATIO => Some(LinkFamily::LinkRatioRow),
        _ => None,
    }
}

/// Whether a number is that of a family of the lines whose rows name no band, as the lines of links have them.
fn is_of_lines(number: u8) -> bool
    ensures { (i : ℕ) → IsTrue result ↔ NamesNoBand (name_of number i) }
{
    matches!(
        number,
        lines::FAST_OUT
            | lines::FAST_IN
            | lines::SLOW_OUT
            | lines::SLOW_IN
            | lines::RISE_OUT
            | lines::RISE_IN
            | lines::DROP_OUT
            | lines::DROP_IN
            | lines::CYCLE_LOW
            | lines::CYCLE_HIGH
            | lines::LOOP_LOW
            | lines::LOOP_HIGH
            | lines::TURN_LOW
            | lines::TURN_HIGH
    )
}

/// A row's numbers, in a row that may be wider; its further cells are 0.
#[tactic(auto, using(crate::proofs::Copies::copied_first, crate::proofs::Copies::copied_next, crate::proofs::Copies::copied_last))]
fn copy_row(from: &Row, columns: u32, into: &mut Row)
    requires columns { length from.now.coefs ≡ columns }
    requires wider { length from.now.coefs ≤ length into.old.coefs }
    ensures value { into.new ≡ wide_sheet (length into.old.coefs - length from.now.coefs) from.now }
    ensures width { length into.new.coefs ≡ length into.old.coefs }
{
    into.clear();
    for column in 0..columns {
        into.set(Place::Cell(column), from.get(Place::Cell(column)));
    }
    into.set(Place::Bound, from.get(Place::Bound));
}

/// Fills a row of the lines at the artery's width, and copies it, where links have the row.
fn fill_line(artery: &Artery, area: &SearchBox, row: RowId, room: &mut Row, into: &mut Row) -> bool
    requires boxed { IsBoxOf artery.now area.now }
    requires room { length room.old.coefs ≡ width (count artery.now) }
    requires columns { length into.old.coefs ≡ link_width (count artery.now) }
    ensures there { IsTrue result ↔ HasLinkRow artery.now (OfLines (name_of row.family row.index)) }
    ensures row { result ≡ true → into.new ≡ link_sheet artery.now area.now (OfLines (name_of row.family row.index)) }
    ensures met { result ≡ true → IsFilledLinks artery.now area.now into.new }
    ensures same { result ≡ false → into.new ≡ into.old }
    ensures width { length into.new.coefs ≡ link_width (count artery.now) }
    ensures room { length room.new.coefs ≡ width (count artery.now) }
{
    prove!(2 <= artery.count());
    if !is_of_lines(row.family) {
        return false;
    }
    if !fill_row(artery, area, row, room) {
        return false;
    }
    copy_row(room, column_count(artery), into);
    true
}

/// Fills the row of this name for a box, where the artery has it, and answers whether it has. Each point of a good link
/// timing of the box meets it. Where there is no such row, `into` stays as it was. `room`, as wide as the artery's rows, is
/// where a row of the lines is made first.
pub fn fill_link_row(
    artery: &Artery,
    area: &SearchBox,
    row: RowId,
    room: &mut Row,
    into: &mut Row,
) -> bool
    requires boxed { IsBoxOf artery.now area.now }
    requires room { length room.old.coefs ≡ width (count artery.now) }
    requires columns { length into.old.coefs ≡ link_width (count artery.now) }
    ensures there { IsTrue result ↔ HasLinkRow artery.now (link_name_of row.family row.index) }
    ensures row { result ≡ true → into.new ≡ link_sheet artery.now area.now (link_name_of row.family row.index) }
    ensures met { result ≡ true → IsFilledLinks artery.now area.now into.new }
    ensures same { result ≡ false → into.new ≡ into.old }
    ensures width { length into.new.coefs ≡ link_width (count artery.now) }
    ensures room { length room.new.coefs ≡ width (count artery.now) }
{
    match link_family_of(row.family) {
        Some(family) => fill_by(&family, artery, area, row, into),
        None => fill_line(artery, area, row, room, into),
    }
}

/// Whether the artery has the row of this name.
fn has_link_row(artery: &Artery, family: u8, index: u32) -> bool
    ensures { IsTrue result ↔ HasLinkRow artery.now (link_name_of family index) }
{
    match link_family_of(family) {
        Some(family) => has_by(&family, artery, index),
        None => is_of_lines(family) && has_row(artery, family, index),
    }
}

/// The rows of links of an artery, each made with a spare row as wide as the artery's own rows, and the value of links.
#[derive(Drop)]
pub struct LinkRows<'a> {
    pub artery: &'a Artery,
}

impl<'a> RowTable for LinkRows<'a> {
    type Spare = Row;

    ghost rows = { λ table. link_set table.artery.now };

    ghost IsFor = { λ table. IsBoxOf table.artery.now };

    ghost IsSpare = { λ table spare. length spare.coefs ≡ width (count table.artery.now) };

    fn known_rows(&self) {
        // its contract says that there are few signals
        self.artery.known_valid();
    }

    fn columns(&self) -> u32 {
        link_column_count(self.artery)
    }

    fn make_spare(&self, alloc: Global) -> Result<Row, Memory> {
        let spare = Row::zero(alloc, column_count(self.artery))?;
        Ok(spare)
    }

    fn last_family(&self) -> u8 {
        LAST_LINK_FAMILY
    }

    fn last_index(&self) -> u32 {
        self.artery.count()
    }

    fn has(&self, row: RowId) -> bool {
        has_link_row(self.artery, row.family, row.index)
    }

    fn fill(&self, area: &SearchBox, row: RowId, spare: &mut Row, into: &mut Row) -> bool {
        fill_link_row(self.artery, area, row, spare, into)
    }

    fn fill_goal(&self, into: &mut Row) {
        fill_link_goal(self.artery, into);
    }
}

/// The artery's least row of links above `after`, by family, then index, or its first row for None. None exactly where there
/// is no such row.
pub fn next_link_row(artery: &Artery, after: Option<RowId>) -> Option<RowId>
    ensures { IsNextIn (rows_of_links artery.now) after result }
{
    next_in(&LinkRows { artery }, after)
}
