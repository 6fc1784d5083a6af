//! What is sought as a relaxation that is solved along lines of boxes: the root, and each part from what its parent kept.

use crate::opening::open;
use crate::room::Room;
use crate::site::SitePart;
use crate::sought::Sought;
use branch_and_bound::{Meter, Opened, Relaxation};
use named_row::Leaf;
use narrow_fraction::{Frac, Memory};
use search_box::SearchBox;
use std::alloc::Global;

/// What is sought, whose boxes are opened one at a time.
#[derive(Drop)]
pub struct Relaxed<'a, S> {
    pub sought: &'a S,
}

impl<'a, S: Sought> Relaxation for Relaxed<'a, S> {
    ghost use Rattle.box_search.specs.{Meaning.{rules_from}, Rooms.{IsRoomFor}};

    type Room = Room<S::Spare>;

    type Kept = S::Kept;

    type Timing = S::Timing;

    type Part = SitePart;

    ghost rules = { λ relaxed. rules_from (S.program relaxed.sought.now) (S.meaning relaxed.sought.now) };

    ghost Ready = { λ relaxed room. IsRoomFor (S.program relaxed.sought.now) (S.IsSpare relaxed.sought.now) room };

    fn root(&self, alloc: Global) -> Result<SearchBox, Memory> {
        self.sought.root(alloc)
    }

    fn start_leaf(&self, alloc: Global) -> Result<(Leaf, Frac), Memory> {
        self.sought.start_leaf(alloc)
    }

    fn open_root(
        &self,
        alloc: Global,
        room: &mut Room<S::Spare>,
        area: &SearchBox,
        meter: &mut Meter,
    ) -> Result<Opened<S::Timing, S::Kept, SitePart>, Memory> {
        self.sought
            .begin_root(&mut room.tableau, &mut room.spare, area);
        open(alloc, self.sought, &mut room.tableau, area, meter)
    }

    fn open_part(
        &self,
        alloc: Global,
        room: &mut Room<S::Spare>,
        kept: &S::Kept,
        area: &SearchBox,
        meter: &mut Meter,
    ) -> Result<Opened<S::Timing, S::Kept, SitePart>, Memory> {
        self.sought
            .begin_part(alloc, &mut room.tableau, &mut room.spare, kept, area)?;
        open(alloc, self.sought, &mut room.tableau, area, meter)
    }
}
