//! What the search asks of a relaxation.

ghost use Rattle.std.specs.Prelude.{◌≡◌, IfOk};
ghost use Rattle.search_box.specs.declared.span.At.{At};
ghost use Rattle.branch_and_bound.specs.{Lines.{BoxLine, top_line}, Rules.{Rules}, OpenedNodes.{Opens, IsPart}};
ghost use Rattle.work_meter.specs.Work.{HasWork};

use crate::opened::Opened;
use named_row::Leaf;
use narrow_fraction::{Frac, Memory};
use search_box::SearchBox;
use std::alloc::Global;
use work_meter::Meter;

/// A linear relaxation of a timing problem, that can be solved over one box at a time under a meter.
pub trait Relaxation {
    /// What boxes are opened in, as a tableau.
    type Room: Drop;
    /// What a split node keeps of its end for its parts, as a basis.
    type Kept: Drop;
    /// A timing.
    type Timing: Drop;
    /// Which operation was refused.
    type Part: Drop;

    /// What boxes, ends, leaves and timings are, and the laws that they keep.
    ghost rules: { Self → Rules Self.Timing Self.Kept Self.Part };
    /// The room was made for this relaxation.
    ghost Ready: { Self → Self.Room → Type 0 };

    /// The box at the top.
    fn root(&self, alloc: Global) -> Result<SearchBox, Memory>
        ensures { IfOk result (λ area. area ≡ (rules self.now).root) };

    /// The leaf that bounds the box at the top before any pivot, with its bound.
    fn start_leaf(&self, alloc: Global) -> Result<(Leaf, Frac), Memory>
        ensures leaf { IfOk result (λ start. (rules self.now).IsStart start.0) }
        ensures bound { IfOk result (λ start. start.1 ≡ (rules self.now).start_bound) }
        ensures covers { IfOk result (λ start. (rules self.now).Covers (rules self.now).root start.0 start.1) };

    /// Opens the box at the top: one unit, and one for each pivot.
    fn open_root(
        &self,
        alloc: Global,
        room: &mut Self::Room,
        area: &SearchBox,
        meter: &mut Meter,
    ) -> Result<Opened<Self::Timing, Self::Kept, Self::Part>, Memory>
        requires ready { Ready self.now room.old }
        requires work { HasWork meter.old }
        requires root { area.now ≡ (rules self.now).root }
        ensures ready { Ready self.now room.new }
        ensures limit { meter.new.limit ≡ meter.old.limit }
        ensures opens { IfOk result (λ opened. Opens (rules self.now) (top_line area.now) meter.old meter.new opened) };

    /// Opens a part of a split box, by what the split node kept.
    fn open_part(
        &self,
        alloc: Global,
        room: &mut Self::Room,
        kept: &Self::Kept,
        area: &SearchBox,
        meter: &mut Meter,
    ) -> Result<Opened<Self::Timing, Self::Kept, Self::Part>, Memory>
        requires ready { Ready self.now room.old }
        requires work { HasWork meter.old }
        requires part { (parent line : BoxLine) × (place : At) × IsPart (rules self.now) parent place line kept.now area.now }
        ensures ready { Ready self.now room.new }
        ensures limit { meter.new.limit ≡ meter.old.limit }
        ensures opens { IfOk result (λ opened. (parent line : BoxLine) (place : At) → IsPart (rules self.now) parent place line kept.now area.now
            → Opens (rules self.now) line meter.old meter.new opened) };
}
