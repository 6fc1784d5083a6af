//! Moments after that of signal 1.

ghost use Rattle.std.specs.Prelude.{◌≡◌, ◌<◌, ◌^◌, pos, ◌+ℤ◌, unsigned_abs};
ghost use Rattle.progression.specs.{Street.{count, HasSignal}, Lines.{line_at}, TimingRecord.{band, base}};
ghost use Rattle.typed_plan.specs.Asked.{green_start, moment};
ghost use Rattle.timing_sheet.specs.Moments.{after_moment, offset_ticks, first_ticks, last_ticks};
ghost use Rattle.time_space.specs.Timing.{IsFor};

use artery_model::{Artery, Dir};
use description_reader::Reference;
use time_space::{Base, Timing, line_at, since_start};

/// The tick at which a direction's green starts, as its red ends.
fn green_start(artery: &Artery, base: &Base, dir: Dir, signal: u32) -> i128
    requires shape { IsFor artery.now base.now }
    requires signal { HasSignal artery.now signal }
    ensures value { result ≡ green_start artery.now base.now dir signal }
    ensures near { unsigned_abs result < 2 ^ 94 }
{
    let red = base.red_ticks(artery, dir, signal);
    base.red_start(artery, dir, signal) + red as i128
}

/// The tick at which the green starts that starts first.
fn first_green(artery: &Artery, base: &Base, signal: u32) -> i128
    requires shape { IsFor artery.now base.now }
    requires signal { HasSignal artery.now signal }
    ensures value { result ≡ moment artery.now Reference.FirstGreen base.now signal }
    ensures near { unsigned_abs result < 2 ^ 94 }
{
    let outbound = green_start(artery, base, Dir::Outbound, signal);
    let inbound = green_start(artery, base, Dir::Inbound, signal);
    outbound.min(inbound)
}

/// The tick at which the moment of a signal comes from which its offset counts.
fn moment(artery: &Artery, base: &Base, reference: Reference, signal: u32) -> i128
    requires shape { IsFor artery.now base.now }
    requires signal { HasSignal artery.now signal }
    ensures value { result ≡ moment artery.now reference base.now signal }
    ensures near { unsigned_abs result < 2 ^ 94 }
{
    match reference {
        Reference::Red => base.common_red(signal),
        Reference::GreenOut => green_start(artery, base, Dir::Outbound, signal),
        Reference::GreenIn => green_start(artery, base, Dir::Inbound, signal),
        Reference::FirstGreen => first_green(artery, base, signal),
        Reference::EndOut => base.red_start(artery, Dir::Outbound, signal),
        Reference::EndIn => base.red_start(artery, Dir::Inbound, signal),
    }
}

/// How many ticks a tick comes after the last such moment of signal 1.
fn after_moment(artery: &Artery, base: &Base, reference: Reference, tick: i128) -> u128
    requires shape { IsFor artery.now base.now }
    requires tick { unsigned_abs tick < 2 ^ 100 }
    ensures value { result ≡ after_moment artery.now base.now reference tick }
    ensures small { result < 2 ^ 92 }
{
    // an artery has a first signal
    let _ = artery.count();
    since_start(base.cycle(artery), moment(artery, base, reference, 1), tick)
}

/// The offset of a signal: how many ticks after that of signal 1 its own moment comes.
pub fn offset_ticks(artery: &Artery, base: &Base, reference: Reference, signal: u32) -> u128
    requires shape { IsFor artery.now base.now }
    requires signal { HasSignal artery.now signal }
    ensures value { result ≡ offset_ticks artery.now base.now reference signal }
    ensures small { result < 2 ^ 92 }
{
    after_moment(
        artery,
        base,
        reference,
        moment(artery, base, reference, signal),
    )
}

/// When the first line of a direction's band crosses a signal.
pub fn first_ticks(
    artery: &Artery,
    timing: &Timing,
    reference: Reference,
    dir: Dir,
    signal: u32,
) -> u128
    requires shape { IsFor artery.now (base timing.now) }
    requires signal { HasSignal artery.now signal }
    ensures value { result ≡ first_ticks artery.now timing.now reference dir signal }
    ensures small { result < 2 ^ 92 }
{
    after_moment(
        artery,
        timing.base(),
        reference,
        line_at(artery, timing, dir, signal),
    )
}

/// The tick at which the last line of a direction's band crosses a signal.
fn last_line(artery: &Artery, timing: &Timing, dir: Dir, signal: u32) -> i128
    requires shape { IsFor artery.now (base timing.now) }
    requires signal { HasSignal artery.now signal }
    ensures value { result ≡ (line_at artery.now timing.now dir signal +ℤ pos (band timing.now dir)) }
    ensures near { unsigned_abs result < 2 ^ 99 }
{
    line_at(artery, timing, dir, signal) + timing.band(dir) as i128
}

/// When the last line of a direction's band crosses a signal.
pub fn last_ticks(
    artery: &Artery,
    timing: &Timing,
    reference: Reference,
    dir: Dir,
    signal: u32,
) -> u128
    requires shape { IsFor artery.now (base timing.now) }
    requires signal { HasSignal artery.now signal }
    ensures value { result ≡ last_ticks artery.now timing.now reference dir signal }
    ensures small { result < 2 ^ 92 }
{
    after_moment(
        artery,
        timing.base(),
        reference,
        last_line(artery, timing, dir, signal),
    )
}
