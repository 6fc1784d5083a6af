//! The bars at the signals: reds, and where the bands cross.

ghost use Rattle.std.specs.Prelude.{◌≡◌, ◌+◌, ◌*◌, ◌<◌, ◌≤◌, ◌^◌, IfOk, pos, ◌+ℤ◌, unsigned_abs};
ghost use Rattle.progression.specs.{Street.{count, HasSignal}, BaseRecord.{cycle}, TimingRecord.{band, base}};
ghost use Rattle.diagram_draw.specs.Frames.{IsFrame};
ghost use Rattle.diagram_draw.specs.Bars.{bar_top, block, some_blocks, blocks, first_red, first_window, common_ticks, turn_ticks, common_wait, turn_wait};
ghost use Rattle.diagram_draw.specs.Bars.{window_paint, ground, windows, common_reds, turn_reds, bar, signal_bars, all_bars, window_part, common_part, turn_part};
ghost use Rattle.time_space.specs.Timing.{IsFor};

use crate::frame::{
    BAR_HEIGHT, Frame, above, earlier, later, level, moment_after, plot_right, x_at,
};
use crate::paint::Paint;
use crate::shape::Shape;
use artery_model::{Artery, Dir};
use narrow_fraction::Memory;
use std::alloc::{AllocError, Global};
use time_space::{Base, Timing, is_early, line_at};
use timing_measures::after_start;
use timing_words::has_band;

/// A part of a bar.
#[derive(Clone, Copy)]
struct BarPart {
    /// What it shows.
    paint: Paint,
    /// The level at which the bar begins.
    top: i128,
    /// The moment at which the part begins, in ticks.
    begin: i128,
    /// How many ticks long it is.
    ticks: u128,
}

/// Where a direction's bar begins.
pub fn bar_top(frame: Frame, artery: &Artery, dir: Dir, signal: u32) -> i128
    requires frame { IsFrame frame }
    requires signal { HasSignal artery.now signal }
    ensures value { result ≡ bar_top frame artery.now dir signal }
    ensures small { unsigned_abs result < 30000 }
{
    let level = level(frame, artery, signal);
    match dir {
        Dir::Outbound => i128::from(level),
        Dir::Inbound => above(level),
    }
}

/// A block of a bar, from a moment on and so many ticks long.
fn block(frame: Frame, part: BarPart) -> Shape
    requires frame { IsFrame frame }
    requires top { unsigned_abs part.top < 30000 }
    requires begin { unsigned_abs part.begin < 2 ^ 100 }
    requires ticks { part.ticks < 2 ^ 100 }
    ensures { result ≡ block frame part }
{
    let end = moment_after(part.begin, part.ticks);
    Shape::Rect {
        paint: part.paint,
        left: x_at(frame, part.begin),
        top: part.top,
        right: x_at(frame, end),
        bottom: part.top + i128::from(BAR_HEIGHT),
    }
}

/// Such a block in each of so many cycles.
#[tactic(auto, using(timing_measures::proofs::Pieces::map_on))]
fn some_blocks(
    alloc: Global,
    frame: Frame,
    part: BarPart,
    cycles: u32,
) -> Result<Vec<Shape>, AllocError>
    requires frame { IsFrame frame }
    requires top { unsigned_abs part.top < 30000 }
    requires begin { unsigned_abs part.begin < 2 ^ 99 }
    requires ticks { part.ticks < 2 ^ 100 }
    requires cycles { cycles ≤ 72 }
    ensures { IfOk result (λ shapes. shapes.items ≡ some_blocks frame part cycles) }
{
    let mut shapes = Vec::new(alloc);
    for cycle in 0..cycles {
        let begin = later(frame, part.begin, cycle);
        shapes.push(block(frame, BarPart { begin, ..part }))?;
    }
    Ok(shapes)
}

/// Such a block in the cycle before the first that is shown, and in each that is shown.
fn blocks(alloc: Global, frame: Frame, part: BarPart) -> Result<Vec<Shape>, AllocError>
    requires frame { IsFrame frame }
    requires top { unsigned_abs part.top < 30000 }
    requires begin { unsigned_abs part.begin < 2 ^ 99 }
    requires ticks { part.ticks < 2 ^ 100 }
    ensures { IfOk result (λ shapes. shapes.items ≡ blocks frame part) }
{
    some_blocks(alloc, frame, part, frame.cycles + 1)
}

/// Where a direction's red begins in the cycle before the first that is shown.
fn first_red(frame: Frame, artery: &Artery, base: &Base, dir: Dir, signal: u32) -> i128
    requires frame { IsFrame frame }
    requires shape { IsFor artery.now base.now }
    requires signal { HasSignal artery.now signal }
    ensures value { result ≡ first_red frame artery.now base.now dir signal }
    ensures small { unsigned_abs result < 2 ^ 98 }
{
    let start = base.red_start(artery, dir, signal);
    earlier(frame, 1, after_start(artery, base, start))
}

/// Where a direction's band begins at a signal in the cycle before the first that is shown.
fn first_window(frame: Frame, artery: &Artery, timing: &Timing, dir: Dir, signal: u32) -> i128
    requires frame { IsFrame frame }
    requires shape { IsFor artery.now (base timing.now) }
    requires signal { HasSignal artery.now signal }
    ensures value { result ≡ first_window frame artery.now timing.now dir signal }
    ensures small { unsigned_abs result < 2 ^ 98 }
{
    let line = line_at(artery, timing, dir, signal);
    earlier(frame, 1, after_start(artery, timing.base(), line))
}

/// The common red, in ticks.
fn common_ticks(artery: &Artery, base: &Base, signal: u32) -> u128
    requires signal { HasSignal artery.now signal }
    ensures value { result ≡ common_ticks artery.now base.now signal }
    ensures small { result < 2 ^ 92 }
{
    u128::from(artery.common_red(signal)) * base.unit()
}

/// The rest of a direction's red, in ticks.
fn turn_ticks(artery: &Artery, base: &Base, dir: Dir, signal: u32) -> u128
    requires signal { HasSignal artery.now signal }
    ensures value { result ≡ turn_ticks artery.now base.now dir signal }
    ensures small { result < 2 ^ 92 }
{
    u128::from(artery.left_against(dir, signal)) * base.unit()
}

/// How long after the start of a direction's red the common red begins.
fn common_wait(artery: &Artery, base: &Base, dir: Dir, signal: u32) -> u128
    requires shape { IsFor artery.now base.now }
    requires signal { HasSignal artery.now signal }
    ensures value { result ≡ common_wait artery.now base.now dir signal }
    ensures small { result < 2 ^ 92 }
{
    if is_early(dir, base.pattern(signal)) {
        turn_ticks(artery, base, dir, signal)
    } else {
        0
    }
}

/// How long after the start of a direction's red the rest of it begins.
fn turn_wait(artery: &Artery, base: &Base, dir: Dir, signal: u32) -> u128
    requires shape { IsFor artery.now base.now }
    requires signal { HasSignal artery.now signal }
    ensures value { result ≡ turn_wait artery.now base.now dir signal }
    ensures small { result < 2 ^ 92 }
{
    if is_early(dir, base.pattern(signal)) {
        0
    } else {
        common_ticks(artery, base, signal)
    }
}

fn window_paint(dir: Dir) -> Paint
    ensures { result ≡ window_paint dir }
{
    match dir {
        Dir::Outbound => Paint::OutWindow,
        Dir::Inbound => Paint::InWindow,
    }
}

/// The ground of a direction's bar.
fn ground(frame: Frame, artery: &Artery, dir: Dir, signal: u32) -> Shape
    requires frame { IsFrame frame }
    requires signal { HasSignal artery.now signal }
    ensures { result ≡ ground frame artery.now dir signal }
{
    let top = bar_top(frame, artery, dir, signal);
    Shape::Rect {
        paint: Paint::Ground,
        left: i128::from(frame.left),
        top,
        right: i128::from(plot_right(frame)),
        bottom: top + i128::from(BAR_HEIGHT),
    }
}

/// A moment so many ticks after another.
pub fn after(ticks: i128, wait: u128) -> i128
    requires ticks { unsigned_abs ticks < 2 ^ 98 }
    requires wait { wait < 2 ^ 92 }
    ensures value { result ≡ ticks +ℤ pos wait }
    ensures small { unsigned_abs result < 2 ^ 99 }
{
    ticks + wait as i128
}

/// Where a direction's common red begins in the cycle before the first that is shown.
fn first_common(frame: Frame, artery: &Artery, base: &Base, dir: Dir, signal: u32) -> i128
    requires frame { IsFrame frame }
    requires shape { IsFor artery.now base.now }
    requires signal { HasSignal artery.now signal }
    ensures value { result ≡ (common_part frame artery.now base.now dir signal).begin }
    ensures small { unsigned_abs result < 2 ^ 99 }
{
    let first = first_red(frame, artery, base, dir, signal);
    after(first, common_wait(artery, base, dir, signal))
}

/// Where the rest of its red begins in that cycle.
fn first_turn(frame: Frame, artery: &Artery, base: &Base, dir: Dir, signal: u32) -> i128
    requires frame { IsFrame frame }
    requires shape { IsFor artery.now base.now }
    requires signal { HasSignal artery.now signal }
    ensures value { result ≡ (turn_part frame artery.now base.now dir signal).begin }
    ensures small { unsigned_abs result < 2 ^ 99 }
{
    let first = first_red(frame, artery, base, dir, signal);
    after(first, turn_wait(artery, base, dir, signal))
}

/// A direction's band at a signal.
fn some_windows(
    alloc: Global,
    frame: Frame,
    artery: &Artery,
    timing: &Timing,
    dir: Dir,
    signal: u32,
) -> Result<Vec<Shape>, AllocError>
    requires frame { IsFrame frame }
    requires shape { IsFor artery.now (base timing.now) }
    requires signal { HasSignal artery.now signal }
    ensures { IfOk result (λ shapes. shapes.items ≡ blocks frame (window_part frame artery.now timing.now dir signal)) }
{
    let top = bar_top(frame, artery, dir, signal);
    let part = BarPart {
        paint: window_paint(dir),
        top,
        begin: first_window(frame, artery, timing, dir, signal),
        ticks: timing.band(dir),
    };
    blocks(alloc, frame, part)
}

/// A direction's band at a signal, where it has one.
fn windows(
    alloc: Global,
    frame: Frame,
    artery: &Artery,
    timing: &Timing,
    dir: Dir,
    signal: u32,
) -> Result<Vec<Shape>, AllocError>
    requires frame { IsFrame frame }
    requires shape { IsFor artery.now (base timing.now) }
    requires signal { HasSignal artery.now signal }
    ensures { IfOk result (λ shapes. shapes.items ≡ windows frame artery.now timing.now dir signal) }
{
    if !has_band(artery, timing, dir) {
        return Ok(Vec::new(alloc));
    }
    some_windows(alloc, frame, artery, timing, dir, signal)
}

/// The common reds of a direction at a signal.
fn common_reds(
    alloc: Global,
    frame: Frame,
    artery: &Artery,
    base: &Base,
    dir: Dir,
    signal: u32,
) -> Result<Vec<Shape>, AllocError>
    requires frame { IsFrame frame }
    requires shape { IsFor artery.now base.now }
    requires signal { HasSignal artery.now signal }
    ensures { IfOk result (λ shapes. shapes.items ≡ common_reds frame artery.now base.now dir signal) }
{
    let top = bar_top(frame, artery, dir, signal);
    let part = BarPart {
        paint: Paint::CommonRed,
        top,
        begin: first_common(frame, artery, base, dir, signal),
        ticks: common_ticks(artery, base, signal),
    };
    blocks(alloc, frame, part)
}

/// The rests of a direction's reds at a signal where a left turn is against it.
fn some_turn_reds(
    alloc: Global,
    frame: Frame,
    artery: &Artery,
    base: &Base,
    dir: Dir,
    signal: u32,
) -> Result<Vec<Shape>, AllocError>
    requires frame { IsFrame frame }
    requires shape { IsFor artery.now base.now }
    requires signal { HasSignal artery.now signal }
    ensures { IfOk result (λ shapes. shapes.items ≡ blocks frame (turn_part frame artery.now base.now dir signal)) }
{
    let top = bar_top(frame, artery, dir, signal);
    let part = BarPart {
        paint: Paint::TurnRed,
        top,
        begin: first_turn(frame, artery, base, dir, signal),
        ticks: turn_ticks(artery, base, dir, signal),
    };
    blocks(alloc, frame, part)
}

/// The rests of a direction's reds at a signal.
fn turn_reds(
    alloc: Global,
    frame: Frame,
    artery: &Artery,
    base: &Base,
    dir: Dir,
    signal: u32,
) -> Result<Vec<Shape>, AllocError>
    requires frame { IsFrame frame }
    requires shape { IsFor artery.now base.now }
    requires signal { HasSignal artery.now signal }
    ensures { IfOk result (λ shapes. shapes.items ≡ turn_reds frame artery.now base.now dir signal) }
{
    if artery.left_against(dir, signal) == 0 {
        return Ok(Vec::new(alloc));
    }
    some_turn_reds(alloc, frame, artery, base, dir, signal)
}

/// A direction's bar at a signal.
fn bar(
    alloc: Global,
    frame: Frame,
    artery: &Artery,
    timing: &Timing,
    dir: Dir,
    signal: u32,
) -> Result<Vec<Shape>, Memory>
    requires frame { IsFrame frame }
    requires shape { IsFor artery.now (base timing.now) }
    requires signal { HasSignal artery.now signal }
    ensures { IfOk result (λ shapes. shapes.items ≡ bar frame artery.now timing.now dir signal) }
{
    let base = timing.base();
    let windows = windows(alloc, frame, artery, timing, dir, signal)?;
    let common = common_reds(alloc, frame, artery, base, dir, signal)?;
    let turns = turn_reds(alloc, frame, artery, base, dir, signal)?;
    let mut shapes = Vec::new(alloc);
    shapes.push(ground(frame, artery, dir, signal))?;
    shapes.extend_from_slice(windows.as_slice())?;
    shapes.extend_from_slice(common.as_slice())?;
    shapes.extend_from_slice(turns.as_slice())?;
    Ok(shapes)
}

/// Both bars of a signal.
fn signal_bars(
    alloc: Global,
    frame: Frame,
    artery: &Artery,
    timing: &Timing,
    signal: u32,
) -> Result<Vec<Shape>, Memory>
    requires frame { IsFrame frame }
    requires shape { IsFor artery.now (base timing.now) }
    requires signal { HasSignal artery.now signal }
    ensures { IfOk result (λ shapes. shapes.items ≡ signal_bars frame artery.now timing.now signal) }
{
    let mut shapes = bar(alloc, frame, artery, timing, Dir::Outbound, signal)?;
    let inbound = bar(alloc, frame, artery, timing, Dir::Inbound, signal)?;
    shapes.extend_from_slice(inbound.as_slice())?;
    Ok(shapes)
}

/// The bars of the signals, from the first on.
pub fn all_bars(
    alloc: Global,
    frame: Frame,
    artery: &Artery,
    timing: &Timing,
) -> Result<Vec<Shape>, Memory>
    requires frame { IsFrame frame }
    requires shape { IsFor artery.now (base timing.now) }
    ensures { IfOk result (λ shapes. shapes.items ≡ all_bars frame artery.now timing.now) }
{
    let mut shapes = Vec::new(alloc);
    for signal in 1..artery.count() + 1 {
        let bars = signal_bars(alloc, frame, artery, timing, signal)?;
        shapes.extend_from_slice(bars.as_slice())?;
    }
    Ok(shapes)
}
