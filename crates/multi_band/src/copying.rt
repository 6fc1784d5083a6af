//! Copies.

ghost use Rattle.std.specs.Prelude.{◌≡◌, ◌<◌, ◌^◌, pos, IfOk};
ghost use Rattle.progression.specs.TimingRecord.{first};
ghost use Rattle.link_theory.specs.LinkRecord.{lines};

use link_space::LinkTiming;
use narrow_fraction::{Memory, copied};
use progression::Dir;
use std::alloc::Global;

/// Where the line of a direction crosses, in ticks.
fn first_of(timing: &LinkTiming, dir: Dir) -> u128
    ensures value { first (lines timing.now) dir ≡ pos result }
    ensures most { result < 2 ^ 80 }
{
    timing.first(dir).unsigned_abs()
}

/// The same link timing again.
pub fn copied_links(alloc: Global, timing: &LinkTiming) -> Result<LinkTiming, Memory>
    ensures { IfOk result (λ copy. copy ≡ timing.now) }
{
    let base = timing.base().copied(alloc)?;
    let half_out = copied(alloc, timing.half_out())?;
    let half_in = copied(alloc, timing.half_in())?;
    let first_out = first_of(timing, Dir::Outbound);
    let first_in = first_of(timing, Dir::Inbound);
    Ok(LinkTiming::around(base, first_out, half_out, first_in, half_in))
}
