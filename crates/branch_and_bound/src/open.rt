//! Opens the two parts of a box that is split.

ghost use Rattle.std.specs.Prelude.{◌≡◌, IfOk};
ghost use Rattle.search_box.specs.{Places.{IsPlace, low_part, high_part}, declared.span.At.{At}};
ghost use Rattle.branch_and_bound.specs.{Lines.{BoxLine}, OpenedNodes.{IsPart}, State.{IsCut, EndsAt, EndsBothAt, ended}};
ghost use Rattle.work_meter.specs.Work.{IsWithin};

use crate::found::Stop;
use crate::node::Node;
use crate::progress::Progress;
use crate::relaxation::Relaxation;
use crate::settle::{Settled, settle};
use narrow_fraction::Memory;
use search_box::{At, SearchBox};
use std::alloc::Global;

/// Why a split was undone.
#[derive(Drop)]
pub(crate) enum Halt<W> {
    /// A part wasn't finished, and the search stops.
    Stopped(Stop<W>),
    /// Want of memory.
    Memory,
}

impl<W: Drop> From<Memory> for Halt<W> {
    ghost use Rattle.branch_and_bound.specs.declared.open.Halt.TheVariants as halt;

    ghost from_gives = { λ _ made. made ≡ halt.Memory };

    fn from(_memory: Memory) -> Halt<W> {
        Halt::Memory
    }
}

/// A box with the place at which it is split, and what it kept for its parts.
#[derive(Drop)]
pub(crate) struct Cut<'a, K> {
    pub(crate) area: &'a SearchBox,
    pub(crate) place: At,
    pub(crate) kept: &'a K,
}

/// The two parts of a box at a place that lies in it.
fn halves(alloc: Global, area: &SearchBox, place: At) -> Result<(SearchBox, SearchBox), Memory>
    requires { IsPlace area.now place }
    ensures low { IfOk result (λ parts. parts.0 ≡ low_part area.now place) }
    ensures high { IfOk result (λ parts. parts.1 ≡ high_part area.now place) }
{
    match area.split(alloc, place)? {
        Some(parts) => Ok(parts),
        None => unreachable!(),
    }
}

/// The end of a part, which isn't finished where its vertex couldn't be read.
fn end_of<K: Drop, W: Drop>(settled: Settled<K, W>) -> Result<Node<K>, Halt<W>>
    ensures { result ≡ ended settled }
{
    match settled {
        Settled::Done { node } => Ok(node),
        Settled::Stuck { site, .. } => Err(Halt::Stopped(Stop::Wide(site))),
        Settled::Left { stop } => Err(Halt::Stopped(stop)),
    }
}

/// Opens a part of a split box, where a unit is left.
fn open_side<P: Relaxation>(
    alloc: Global,
    relaxation: &P,
    room: &mut P::Room,
    area: SearchBox,
    kept: &P::Kept,
    progress: &mut Progress<P::Timing>,
) -> Result<Node<P::Kept>, Halt<P::Part>>
    requires ready { P.Ready relaxation.now room.old }
    requires within { IsWithin progress.old.meter.spent progress.old.meter.limit }
    requires part { (parent line : BoxLine) × (place : At) × IsPart (P.rules relaxation.now) parent place line kept.now area }
    ensures ready { P.Ready relaxation.now room.new }
    ensures limit { progress.new.meter.limit ≡ progress.old.meter.limit }
    ensures ends { EndsAt (P.rules relaxation.now) area kept.now progress.old progress.new result }
{
    if progress.meter.is_out() {
        return Err(Halt::Stopped(Stop::Work {
            spent: progress.meter.spent,
        }));
    }
    let opened = relaxation.open_part(alloc, room, kept, &area, &mut progress.meter)?;
    end_of(settle(relaxation, opened, area, progress))
}

/// Opens the low part and then the high part of a box.
pub(crate) fn open_parts<P: Relaxation>(
    alloc: Global,
    relaxation: &P,
    room: &mut P::Room,
    cut: &Cut<'_, P::Kept>,
    progress: &mut Progress<P::Timing>,
) -> Result<(Node<P::Kept>, Node<P::Kept>), Halt<P::Part>>
    requires ready { P.Ready relaxation.now room.old }
    requires within { IsWithin progress.old.meter.spent progress.old.meter.limit }
    requires cut { (line : BoxLine) × IsCut (P.rules relaxation.now) line cut.now.area.now cut.now.place cut.now.kept.now }
    requires inside { IsPlace cut.now.area.now cut.now.place }
    ensures ready { P.Ready relaxation.now room.new }
    ensures limit { progress.new.meter.limit ≡ progress.old.meter.limit }
    ensures ends { EndsBothAt (P.rules relaxation.now) cut.now.area.now cut.now.place cut.now.kept.now progress.old progress.new result }
{
    let (low_box, high_box) = halves(alloc, cut.area, cut.place)?;
    let low = open_side(alloc, relaxation, room, low_box, cut.kept, progress)?;
    let high = open_side(alloc, relaxation, room, high_box, cut.kept, progress)?;
    Ok((low, high))
}
