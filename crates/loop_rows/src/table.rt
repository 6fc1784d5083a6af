//! Where rows come from.

ghost use Rattle.std.specs.Prelude.{◌≡◌, ◌+◌, ◌<◌, ◌^◌, length, true, false, IfOk};
ghost use Rattle.linear_theory.specs.Boxes.{Area};
ghost use Rattle.loop_rows.specs.RowSets.{RowSet, IsRowSet};

use named_row::{Row, RowId};
use narrow_fraction::Memory;
use search_box::SearchBox;
use std::alloc::Global;

/// The rows of a kind of bands of an artery: which there are, how one is made for a box, and the goal. None of it takes memory but
/// `make_spare`.
pub trait RowTable {
    /// What a row is made with, besides the row itself.
    type Spare: Drop;

    /// What the rows and the goal are.
    ghost rows: { Self → RowSet };

    /// Whether there are rows for a box.
    ghost IsFor: { Self → Area → Type 0 };

    /// Whether rows can be made with it.
    ghost IsSpare: { Self → Self.Spare → Type 0 };

    /// Says what is known of the rows.
    fn known_rows(&self)
        ensures { IsRowSet (rows self.now) };

    /// The number of columns of each row.
    fn columns(&self) -> u32
        ensures { result ≡ (rows self.now).width };

    /// What rows can be made with. The error is want of memory.
    fn make_spare(&self, alloc: Global) -> Result<Self::Spare, Memory>
        ensures { IfOk result (λ spare. IsSpare self.now spare) };

    /// The greatest number of a family.
    fn last_family(&self) -> u8
        ensures value { result ≡ (rows self.now).last_family }
        ensures small { result < 255 };

    /// The greatest index.
    fn last_index(&self) -> u32
        ensures value { result ≡ (rows self.now).last_index }
        ensures small { result + 1 < 2 ^ 32 };

    /// Whether there is a row of this name.
    fn has(&self, row: RowId) -> bool
        ensures { result ≡ (rows self.now).has row };

    /// Makes the row of this name for a box, where there is one, and answers whether there is.
    fn fill(&self, area: &SearchBox, row: RowId, spare: &mut Self::Spare, into: &mut Row) -> bool
        requires boxed { IsFor self.now area.now }
        requires spare { IsSpare self.now spare.old }
        requires columns { length into.old.coefs ≡ (rows self.now).width }
        ensures there { result ≡ (rows self.now).has row }
        ensures row { result ≡ true → into.new ≡ (rows self.now).row area.now row }
        ensures unspent { result ≡ true → into.new.spent ≡ false }
        ensures width { length into.new.coefs ≡ (rows self.now).width }
        ensures spare { IsSpare self.now spare.new };

    /// Makes the goal, as a row.
    fn fill_goal(&self, into: &mut Row)
        requires columns { length into.old.coefs ≡ (rows self.now).width }
        ensures row { into.new ≡ (rows self.now).goal }
        ensures unspent { into.new.spent ≡ false }
        ensures width { length into.new.coefs ≡ (rows self.now).width };
}
