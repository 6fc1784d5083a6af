//! Copies of timings.

ghost use Rattle.std.specs.Prelude.{◌≡◌, ◌<◌, ◌^◌, pos, IfOk};
ghost use Rattle.progression.specs.TimingRecord.{first};

use narrow_fraction::Memory;
use progression::Dir;
use std::alloc::Global;
use time_space::Timing;

/// Where the first line of a direction crosses, in ticks.
fn first_of(timing: &Timing, dir: Dir) -> u128
    ensures value { first timing.now dir ≡ pos result }
    ensures most { result < 2 ^ 80 }
{
    timing.first(dir).unsigned_abs()
}

/// The same timing again.
pub fn copied_timing(alloc: Global, timing: &Timing) -> Result<Timing, Memory>
    ensures { IfOk result (λ copy. copy ≡ timing.now) }
{
    let base = timing.base().copied(alloc)?;
    let first_out = first_of(timing, Dir::Outbound);
    let first_in = first_of(timing, Dir::Inbound);
    let band_out = timing.band(Dir::Outbound);
    let band_in = timing.band(Dir::Inbound);
    Ok(base.banded(first_out, band_out, first_in, band_in))
}
