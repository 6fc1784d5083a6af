//! Where a line steps at a signal, so that a queue clears.

ghost use Rattle.std.specs.Prelude.{◌≡◌, ◌+◌, ◌<◌, ◌≤◌, ◌^◌, IfOk, pos};
ghost use Rattle.progression.specs.{Street.{count, HasSignal}, Lines.{stop}, TimingRecord.{base}};
ghost use Rattle.diagram_draw.specs.Frames.{IsFrame};
ghost use Rattle.diagram_draw.specs.Steps.{has_step, step_ticks, step_moment, step_begin, step_end, beside, step_level, mark_level, step_line, steps_at, signal_steps, steps};
ghost use Rattle.time_space.specs.Timing.{IsFor};

use crate::frame::{BAR_HEIGHT, Frame, level, x_at};
use crate::paint::Paint;
use crate::shape::Shape;
use artery_model::{Artery, Dir};
use narrow_fraction::Memory;
use std::alloc::{AllocError, Global};
use time_space::{Base, Timing, line_at};
use timing_measures::after_start;
use timing_words::has_band;

/// The signal that a direction comes to first.
fn first_stop(artery: &Artery, dir: Dir) -> u32
    ensures { result ≡ stop dir (count artery.now) 0 }
{
    match dir {
        Dir::Outbound => 1,
        Dir::Inbound => artery.count(),
    }
}

/// Whether a direction's line steps at a signal.
pub fn has_step(artery: &Artery, timing: &Timing, dir: Dir, signal: u32) -> bool
    requires shape { IsFor artery.now (base timing.now) }
    requires signal { HasSignal artery.now signal }
    ensures { result ≡ has_step artery.now timing.now dir signal }
{
    1 <= artery.clearance(dir, signal)
        && signal != first_stop(artery, dir)
        && has_band(artery, timing, dir)
}

/// How far it steps, in ticks.
pub fn step_ticks(artery: &Artery, base: &Base, dir: Dir, signal: u32) -> u128
    requires signal { HasSignal artery.now signal }
    ensures value { result ≡ step_ticks artery.now base.now dir signal }
    ensures small { result < 2 ^ 92 }
{
    u128::from(artery.clearance(dir, signal)) * base.unit()
}

/// When the band begins at the signal in the first cycle that is shown.
fn step_moment(artery: &Artery, timing: &Timing, dir: Dir, signal: u32) -> u128
    requires shape { IsFor artery.now (base timing.now) }
    requires signal { HasSignal artery.now signal }
    ensures value { result ≡ step_moment artery.now timing.now dir signal }
    ensures small { result < 2 ^ 92 }
{
    after_start(artery, timing.base(), line_at(artery, timing, dir, signal))
}

/// Where a moment of the first cycles stands.
fn place(frame: Frame, ticks: u128) -> i128
    requires frame { IsFrame frame }
    requires ticks { ticks < 2 ^ 93 }
    ensures { result ≡ Rattle.diagram_draw.specs.Frames.x_at frame (pos ticks) }
{
    x_at(frame, ticks as i128)
}

/// Where the band begins at the signal.
pub fn step_begin(frame: Frame, artery: &Artery, timing: &Timing, dir: Dir, signal: u32) -> i128
    requires frame { IsFrame frame }
    requires shape { IsFor artery.now (base timing.now) }
    requires signal { HasSignal artery.now signal }
    ensures { result ≡ step_begin frame artery.now timing.now dir signal }
{
    place(frame, step_moment(artery, timing, dir, signal))
}

/// And where it would begin with no step.
fn step_end(frame: Frame, artery: &Artery, timing: &Timing, dir: Dir, signal: u32) -> i128
    requires frame { IsFrame frame }
    requires shape { IsFor artery.now (base timing.now) }
    requires signal { HasSignal artery.now signal }
    ensures { result ≡ step_end frame artery.now timing.now dir signal }
{
    let moment = step_moment(artery, timing, dir, signal);
    place(
        frame,
        moment + step_ticks(artery, timing.base(), dir, signal),
    )
}

/// So far above a level, or below it.
fn beside(level: u32, dir: Dir, below: u32, above: u32) -> i128
    requires level { level ≤ 21900 }
    requires below { below ≤ 1000 }
    requires above { above ≤ 1000 }
    ensures { result ≡ beside level dir below above }
{
    match dir {
        Dir::Outbound => i128::from(level + below),
        Dir::Inbound => i128::from(level) - i128::from(above),
    }
}

/// Where the line stands that shows a step: on the side of the bars from which the band comes.
fn step_level(frame: Frame, artery: &Artery, dir: Dir, signal: u32) -> i128
    requires frame { IsFrame frame }
    requires signal { HasSignal artery.now signal }
    ensures { result ≡ step_level frame artery.now dir signal }
{
    beside(
        level(frame, artery, signal),
        dir,
        BAR_HEIGHT + 15,
        BAR_HEIGHT + 15,
    )
}

/// Where the words beside it stand.
pub fn mark_level(frame: Frame, artery: &Artery, dir: Dir, signal: u32) -> i128
    requires frame { IsFrame frame }
    requires signal { HasSignal artery.now signal }
    ensures { result ≡ mark_level frame artery.now dir signal }
{
    beside(
        level(frame, artery, signal),
        dir,
        BAR_HEIGHT + 120,
        BAR_HEIGHT + 40,
    )
}

/// The line that shows a step.
fn step_line(frame: Frame, artery: &Artery, timing: &Timing, dir: Dir, signal: u32) -> Shape
    requires frame { IsFrame frame }
    requires shape { IsFor artery.now (base timing.now) }
    requires signal { HasSignal artery.now signal }
    ensures { result ≡ step_line frame artery.now timing.now dir signal }
{
    let level = step_level(frame, artery, dir, signal);
    Shape::Line {
        paint: Paint::Step,
        x: step_begin(frame, artery, timing, dir, signal),
        y: level,
        next_x: step_end(frame, artery, timing, dir, signal),
        next_y: level,
    }
}

/// The same where there is a step.
fn steps_at(
    alloc: Global,
    frame: Frame,
    artery: &Artery,
    timing: &Timing,
    dir: Dir,
    signal: u32,
) -> Result<Vec<Shape>, AllocError>
    requires frame { IsFrame frame }
    requires shape { IsFor artery.now (base timing.now) }
    requires signal { HasSignal artery.now signal }
    ensures { IfOk result (λ shapes. shapes.items ≡ steps_at frame artery.now timing.now dir signal) }
{
    let mut shapes = Vec::new(alloc);
    if has_step(artery, timing, dir, signal) {
        shapes.push(step_line(frame, artery, timing, dir, signal))?;
    }
    Ok(shapes)
}

/// The same of both directions.
fn signal_steps(
    alloc: Global,
    frame: Frame,
    artery: &Artery,
    timing: &Timing,
    signal: u32,
) -> Result<Vec<Shape>, Memory>
    requires frame { IsFrame frame }
    requires shape { IsFor artery.now (base timing.now) }
    requires signal { HasSignal artery.now signal }
    ensures { IfOk result (λ shapes. shapes.items ≡ signal_steps frame artery.now timing.now signal) }
{
    let mut shapes = steps_at(alloc, frame, artery, timing, Dir::Outbound, signal)?;
    let inbound = steps_at(alloc, frame, artery, timing, Dir::Inbound, signal)?;
    shapes.extend_from_slice(inbound.as_slice())?;
    Ok(shapes)
}

/// The steps at the signals, from the first on.
pub fn steps(
    alloc: Global,
    frame: Frame,
    artery: &Artery,
    timing: &Timing,
) -> Result<Vec<Shape>, Memory>
    requires frame { IsFrame frame }
    requires shape { IsFor artery.now (base timing.now) }
    ensures { IfOk result (λ shapes. shapes.items ≡ steps frame artery.now timing.now) }
{
    let mut shapes = Vec::new(alloc);
    for signal in 1..artery.count() + 1 {
        let steps = signal_steps(alloc, frame, artery, timing, signal)?;
        shapes.extend_from_slice(steps.as_slice())?;
    }
    Ok(shapes)
}
