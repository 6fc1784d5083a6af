//! What is seen of the diagram at one signal and tick.

ghost use Rattle.std.specs.Prelude.{◌≡◌, ◌-◌, ◌<◌, ◌≤◌, ◌^◌, nat_le, unsigned_abs};
ghost use Rattle.progression.specs.{Street.{count, HasSignal}, BaseRecord.{cycle}, TimingRecord.{base, band}, Green.{since, is_green, red_start, red_ticks}};
ghost use Rattle.progression.specs.Lines.{crossing_from, line_at};
ghost use Rattle.time_space.specs.Timing.{IsFor};

use crate::base::Base;
use crate::diagram::{cycle, next_line, red_start, red_ticks};
use crate::ticks::{is_green, since_start};
use crate::timing::Timing;
use artery_model::Artery;
use artery_model::bounds::MOST_SIGNALS;
use progression::Dir;

/// The tick at which the line that crosses the first signal of its way at a tick crosses the signal at a place in travel order.
pub fn crossing_from(artery: &Artery, base: &Base, dir: Dir, first: i128, place: u32) -> i128
    requires on_way { place < count artery.now }
    requires shape { IsFor artery.now base.now }
    requires near { unsigned_abs first ≤ 2 ^ 93 }
    ensures value { result ≡ crossing_from artery.now base.now dir first place }
    ensures near { unsigned_abs result < 2 ^ 98 }
{
    let count = artery.count();
    prove!(count <= MOST_SIGNALS as u32);
    let mut line = first;
    for step in 0..place {
        line = next_line(artery, base, dir, step, line);
    }
    line
}

/// The tick at which a direction's first line crosses a signal.
pub fn line_at(artery: &Artery, timing: &Timing, dir: Dir, signal: u32) -> i128
    requires signal { HasSignal artery.now signal }
    requires shape { IsFor artery.now (base timing.now) }
    ensures value { result ≡ line_at artery.now timing.now dir signal }
    ensures near { unsigned_abs result < 2 ^ 98 }
{
    let place = match dir {
        Dir::Outbound => signal - 1,
        Dir::Inbound => artery.count() - signal,
    };
    crossing_from(artery, timing.base(), dir, timing.first(dir), place)
}

/// Whether a direction is green at a signal and tick. The tick at which its red starts or ends is green.
pub fn green(artery: &Artery, timing: &Timing, dir: Dir, signal: u32, tick: i128) -> bool
    requires shape { IsFor artery.now (base timing.now) }
    requires signal { HasSignal artery.now signal }
    requires tick { unsigned_abs tick < 2 ^ 100 }
    ensures { result ≡ is_green (cycle artery.now (base timing.now)) (red_start artery.now (base timing.now) dir signal) (red_ticks artery.now (base timing.now) dir signal) tick }
{
    let start = red_start(artery, timing, dir, signal);
    let red = red_ticks(artery, timing, dir, signal);
    is_green(cycle(artery, timing), start, red, tick)
}

/// Whether the tick lies in a direction's band at a signal: some whole number of cycles from one of its lines, the
/// first and the last among them.
pub fn in_band(artery: &Artery, timing: &Timing, dir: Dir, signal: u32, tick: i128) -> bool
    requires shape { IsFor artery.now (base timing.now) }
    requires signal { HasSignal artery.now signal }
    requires tick { unsigned_abs tick < 2 ^ 100 }
    ensures { result ≡ nat_le (since (cycle artery.now (base timing.now)) (line_at artery.now timing.now dir signal) tick) (band timing.now dir) }
{
    let line = line_at(artery, timing, dir, signal);
    since_start(cycle(artery, timing), line, tick) <= timing.band(dir)
}
