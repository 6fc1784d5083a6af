//! The rows of an artery by their names.

ghost use Rattle.std.specs.Prelude.{◌≡◌, ◌↔◌, ℕ, IsTrue, IfSome, MatchOption, None, length, true, false};
ghost use Rattle.progression.specs.Street.{count};
ghost use Rattle.linear_theory.specs.{Places.{width}, Boxes.{Area, IsBoxOf}, Rows.{goal_form}, Names.{HasRow, NoRow, form_of, name_of}};
ghost use Rattle.loop_rows.specs.{Families.{number_of, row_in}, Writing.{written}, Meeting.{IsFilled, IsFilledBy}};
ghost use Rattle.loop_rows.specs.{Following.{IsNextRow}, RowSets.{artery_set}};

use crate::cells::fill_cells;
use crate::columns::{band_column, column_count};
use crate::families::ArteryFamily;
use crate::family::Family;
use crate::family_numbers as numbers;
use crate::family_numbers::LAST_FAMILY;
use crate::following::next_in;
use crate::table::RowTable;
use artery_model::{Artery, Dir};
use named_row::{Row, RowId};
use narrow_fraction::{Frac, Memory};
use search_box::SearchBox;
use std::alloc::Global;

/// The family of a number, or None where no family has it.
fn family_of(number: u8) -> Option<ArteryFamily>
    ensures { MatchOption result ((i : ℕ) → name_of number i ≡ NoRow) (λ f. (number_of f ≡ number) × ((i : ℕ) → name_of number i ≡ row_in f i)) }
{
    match number {
        numbers::WAIT_OUT => Some(ArteryFamily::WaitRow(Dir::Outbound)),
        numbers::WAIT_IN => Some(ArteryFamily::WaitRow(Dir::Inbound)),
        numbers::FAST_OUT => Some(ArteryFamily::FastRow(Dir::Outbound)),
        numbers::FAST_IN => Some(ArteryFamily::FastRow(Dir::Inbound)),
        numbers::SLOW_OUT => Some(ArteryFamily::SlowRow(Dir::Outbound)),
        numbers::SLOW_IN => Some(ArteryFamily::SlowRow(Dir::Inbound)),
        numbers::RISE_OUT => Some(ArteryFamily::RiseRow(Dir::Outbound)),
        numbers::RISE_IN => Some(ArteryFamily::RiseRow(Dir::Inbound)),
        numbers::DROP_OUT => Some(ArteryFamily::DropRow(Dir::Outbound)),
        numbers::DROP_IN => Some(ArteryFamily::DropRow(Dir::Inbound)),
        numbers::CYCLE_LOW => Some(ArteryFamily::CycleLowRow),
        numbers::CYCLE_HIGH => Some(ArteryFamily::CycleHighRow),
        numbers::RATIO => Some(ArteryFamily::RatioRow),
        numbers::LOOP_LOW => Some(ArteryFamily::LoopLowRow),
        numbers::LOOP_HIGH => Some(ArteryFamily::LoopHighRow),
        numbers::TURN_LOW => Some(ArteryFamily::TurnLowRow),
        numbers::TURN_HIGH => Some(ArteryFamily::TurnHighRow),
        numbers::LEAST_OUT => Some(ArteryFamily::LeastRow(Dir::Outbound)),
        numbers::LEAST_IN => Some(ArteryFamily::LeastRow(Dir::Inbound)),
        numbers::EQUAL_LOW => Some(ArteryFamily::EqualLowRow),
        numbers::EQUAL_HIGH => Some(ArteryFamily::EqualHighRow),
        _ => None,
    }
}

/// Fills the row of this index of a family, where the artery has it, and answers whether it has. Each point that counts for
/// the family's problem meets it. Where there is no such row, `into` stays as it was.
pub fn fill_by<F: Family>(
    family: &F,
    artery: &Artery,
    area: &SearchBox,
    row: RowId,
    into: &mut Row,
) -> bool
    requires family { F.family family.now ≡ row.family }
    requires boxed { IsBoxOf artery.now area.now }
    requires columns { length into.old.coefs ≡ F.Of.columns artery.now }
    ensures there { IsTrue result ↔ F.exists family.now artery.now row.index }
    ensures row { result ≡ true → into.new ≡ F.sheet family.now artery.now area.now row.index }
    ensures met { result ≡ true → IsFilledBy F.Of.counts artery.now area.now into.new }
    ensures same { result ≡ false → into.new ≡ into.old }
    ensures width { length into.new.coefs ≡ F.Of.columns artery.now }
{
    if !family.has(artery, row.index) {
        return false;
    }
    family.fill(artery, area, row.index, into);
    true
}

/// Fills the row of this name for a box, where the artery has it, and answers whether it has. Each point that counts
/// for the artery and the box meets it. Where there is no such row, `into` stays as it was.
pub fn fill_row(artery: &Artery, area: &SearchBox, row: RowId, into: &mut Row) -> bool
    requires boxed { IsBoxOf artery.now area.now }
    requires columns { length into.old.coefs ≡ width (count artery.now) }
    ensures there { IsTrue result ↔ HasRow artery.now (name_of row.family row.index) }
    ensures row { result ≡ true → into.new ≡ written artery.now (form_of artery.now area.now (name_of row.family row.index)) }
    ensures met { result ≡ true → IsFilled artery.now area.now into.new }
    ensures same { result ≡ false → into.new ≡ into.old }
    ensures width { length into.new.coefs ≡ width (count artery.now) }
{
    match family_of(row.family) {
        Some(family) => fill_by(&family, artery, area, row, into),
        None => false,
    }
}

/// The bound that the row of this name has for a box, where it depends on the box; its other numbers never do. None where the
/// row is the same for every box.
pub fn box_bound(artery: &Artery, area: &SearchBox, row: RowId) -> Option<Frac>
    requires there { HasRow artery.now (name_of row.family row.index) }
    requires boxed { IsBoxOf artery.now area.now }
    ensures bound { IfSome result (λ bound. bound ≡ (form_of artery.now area.now (name_of row.family row.index)).bound) }
    ensures same { result ≡ None → (other : Area) → form_of artery.now other (name_of row.family row.index) ≡ form_of artery.now area.now (name_of row.family row.index) }
{
    match row.family {
        numbers::LOOP_LOW => Some(ArteryFamily::LoopLowRow.bound(artery, area, row.index)),
        numbers::LOOP_HIGH => Some(ArteryFamily::LoopHighRow.bound(artery, area, row.index)),
        numbers::TURN_LOW => Some(ArteryFamily::TurnLowRow.bound(artery, area, row.index)),
        numbers::TURN_HIGH => Some(ArteryFamily::TurnHighRow.bound(artery, area, row.index)),
        _ => None,
    }
}

/// The weighted band: 1 at the outbound band, the ratio at the inbound one, and 0 elsewhere.
pub fn fill_goal(artery: &Artery, into: &mut Row)
    requires columns { length into.old.coefs ≡ width (count artery.now) }
    ensures row { into.new ≡ written artery.now (goal_form artery.now) }
    ensures unspent { into.new.spent ≡ false }
    ensures width { length into.new.coefs ≡ width (count artery.now) }
{
    let cells = [
        (band_column(artery, Dir::Outbound), Frac::whole(1)),
        (band_column(artery, Dir::Inbound), artery.ratio()),
    ];
    fill_cells(&cells, Frac::whole(0), into);
}

/// Whether the artery has the row of this index of a family.
pub fn has_by<F: Family>(family: &F, artery: &Artery, index: u32) -> bool
    ensures { IsTrue result ↔ F.exists family.now artery.now index }
{
    family.has(artery, index)
}

/// Whether the artery has the row of this name.
pub fn has_row(artery: &Artery, family: u8, index: u32) -> bool
    ensures { IsTrue result ↔ HasRow artery.now (name_of family index) }
{
    match family_of(family) {
        Some(family) => has_by(&family, artery, index),
        None => false,
    }
}

/// The rows of an artery, which are made with nothing else, and its weighted band.
#[derive(Drop)]
pub struct ArteryRows<'a> {
    pub artery: &'a Artery,
}

impl<'a> RowTable for ArteryRows<'a> {
    type Spare = ();

    ghost rows = { λ table. artery_set table.artery.now };

    ghost IsFor = { λ table. IsBoxOf table.artery.now };

    ghost IsSpare = { λ table spare. Unit {0} };

    fn known_rows(&self) {
        // its contract says that there are few signals
        self.artery.known_valid();
    }

    fn columns(&self) -> u32 {
        column_count(self.artery)
    }

    fn make_spare(&self, _alloc: Global) -> Result<(), Memory> {
        Ok(())
    }

    fn last_family(&self) -> u8 {
        LAST_FAMILY
    }

    fn last_index(&self) -> u32 {
        self.artery.count()
    }

    fn has(&self, row: RowId) -> bool {
        has_row(self.artery, row.family, row.index)
    }

    fn fill(&self, area: &SearchBox, row: RowId, _spare: &mut (), into: &mut Row) -> bool {
        fill_row(self.artery, area, row, into)
    }

    fn fill_goal(&self, into: &mut Row) {
        fill_goal(self.artery, into);
    }
}

/// The artery's least row above `after`, by family, then index, or its first row for None. None exactly where there is
/// no such row.
pub fn next_row(artery: &Artery, after: Option<RowId>) -> Option<RowId>
    ensures { IsNextRow artery.now after result }
{
    next_in(&ArteryRows { artery }, after)
}
