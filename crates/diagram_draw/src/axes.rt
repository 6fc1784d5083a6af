//! What stands behind the bands: the page, the field, and the lines of seconds, of cycles and of the signals.

ghost use Rattle.std.specs.Prelude.{◌≡◌, ◌+◌, ◌-◌, ◌*◌, ◌<◌, ◌≤◌, ◌^◌, IfOk, pos};
ghost use Rattle.progression.specs.Street.{count, HasSignal};
ghost use Rattle.diagram_draw.specs.Frames.{IsFrame};
ghost use Rattle.diagram_draw.specs.Axes.{seconds_shown, step_for, steps_shown, second_at, second_line, second_lines, cycle_line, cycle_lines, level_line, level_lines, paper, plot, back};

use crate::frame::{
    Frame, PLOT_TOP, cycles_ticks, level, page_height, page_width, plot_bottom, plot_right, x_at,
};
use crate::paint::Paint;
use crate::shape::Shape;
use artery_model::Artery;
use narrow_fraction::Memory;
use std::alloc::{AllocError, Global};
use time_space::Base;

/// So many steps of seconds are shown at most.
const MOST_STEPS: u128 = 18;

/// The whole seconds that are shown.
fn seconds_shown(frame: Frame, base: &Base) -> u128
    requires { IsFrame frame }
    ensures value { result ≡ seconds_shown frame base.now }
    ensures small { result < 2 ^ 96 }
{
    cycles_ticks(frame, frame.cycles) / base.grid()
}

/// The seconds between two lines.
fn step_for(seconds: u128) -> u32
    ensures value { result ≡ step_for seconds }
    ensures least { 1 ≤ result }
    ensures most { result ≤ 3600 }
{
    if seconds <= 18 {
        1
    } else if seconds <= 36 {
        2
    } else if seconds <= 90 {
        5
    } else if seconds <= 180 {
        10
    } else if seconds <= 270 {
        15
    } else if seconds <= 360 {
        20
    } else if seconds <= 540 {
        30
    } else if seconds <= 1080 {
        60
    } else if seconds <= 2160 {
        120
    } else if seconds <= 5400 {
        300
    } else if seconds <= 10800 {
        600
    } else {
        3600
    }
}

/// How many lines of seconds there are.
pub fn steps_shown(frame: Frame, base: &Base) -> u32
    requires { IsFrame frame }
    ensures value { result ≡ steps_shown frame base.now }
    ensures most { result ≤ 19 }
{
    let seconds = seconds_shown(frame, base);
    let steps = seconds / u128::from(step_for(seconds));
    if steps <= MOST_STEPS {
        steps as u32 + 1
    } else {
        1
    }
}

/// The second of a line.
pub fn second_at(frame: Frame, base: &Base, line: u32) -> u32
    requires frame { IsFrame frame }
    requires line { line ≤ 19 }
    ensures value { result ≡ second_at frame base.now line }
    ensures most { result ≤ 68400 }
{
    line * step_for(seconds_shown(frame, base))
}

/// The ticks of a line's second.
fn second_ticks(frame: Frame, base: &Base, line: u32) -> u128
    requires frame { IsFrame frame }
    requires line { line ≤ 19 }
    ensures value { result ≡ second_at frame base.now line * base.now.grid }
    ensures small { result < 2 ^ 97 }
{
    u128::from(second_at(frame, base, line)) * base.grid()
}

/// Where a second stands.
pub fn second_x(frame: Frame, base: &Base, line: u32) -> i128
    requires frame { IsFrame frame }
    requires line { line ≤ 19 }
    ensures { result ≡ Rattle.diagram_draw.specs.Frames.x_at frame (pos (second_at frame base.now line * base.now.grid)) }
{
    let ticks = second_ticks(frame, base, line);
    x_at(frame, ticks as i128)
}

fn second_line(frame: Frame, base: &Base, line: u32) -> Shape
    requires frame { IsFrame frame }
    requires line { line ≤ 19 }
    ensures { result ≡ second_line frame base.now line }
{
    let x = second_x(frame, base, line);
    Shape::Line {
        paint: Paint::Second,
        x,
        y: i128::from(PLOT_TOP),
        next_x: x,
        next_y: i128::from(plot_bottom(frame) + 60),
    }
}

fn second_lines(alloc: Global, frame: Frame, base: &Base) -> Result<Vec<Shape>, AllocError>
    requires { IsFrame frame }
    ensures { IfOk result (λ shapes. shapes.items ≡ second_lines frame base.now) }
{
    let mut shapes = Vec::new(alloc);
    for line in 0..steps_shown(frame, base) {
        shapes.push(second_line(frame, base, line))?;
    }
    Ok(shapes)
}

/// Where so many cycles end.
pub fn cycle_x(frame: Frame, cycles: u32) -> i128
    requires frame { IsFrame frame }
    requires cycles { cycles ≤ 12 }
    ensures { result ≡ Rattle.diagram_draw.specs.Frames.x_at frame (pos (cycles * frame.cycle)) }
{
    let ticks = cycles_ticks(frame, cycles);
    x_at(frame, ticks as i128)
}

fn cycle_line(frame: Frame, cycles: u32) -> Shape
    requires frame { IsFrame frame }
    requires cycles { cycles ≤ 12 }
    ensures { result ≡ cycle_line frame cycles }
{
    let x = cycle_x(frame, cycles);
    Shape::Line {
        paint: Paint::CycleEdge,
        x,
        y: i128::from(PLOT_TOP - 60),
        next_x: x,
        next_y: i128::from(plot_bottom(frame)),
    }
}

fn cycle_lines(alloc: Global, frame: Frame) -> Result<Vec<Shape>, AllocError>
    requires { IsFrame frame }
    ensures { IfOk result (λ shapes. shapes.items ≡ cycle_lines frame) }
{
    let mut shapes = Vec::new(alloc);
    for cycles in 0..frame.cycles + 1 {
        shapes.push(cycle_line(frame, cycles))?;
    }
    Ok(shapes)
}

fn level_line(frame: Frame, artery: &Artery, signal: u32) -> Shape
    requires frame { IsFrame frame }
    requires signal { HasSignal artery.now signal }
    ensures { result ≡ level_line frame artery.now signal }
{
    let level = i128::from(level(frame, artery, signal));
    Shape::Line {
        paint: Paint::Level,
        x: i128::from(frame.left),
        y: level,
        next_x: i128::from(plot_right(frame)),
        next_y: level,
    }
}

fn level_lines(alloc: Global, frame: Frame, artery: &Artery) -> Result<Vec<Shape>, AllocError>
    requires { IsFrame frame }
    ensures { IfOk result (λ shapes. shapes.items ≡ level_lines frame artery.now) }
{
    let mut shapes = Vec::new(alloc);
    for signal in 1..artery.count() + 1 {
        shapes.push(level_line(frame, artery, signal))?;
    }
    Ok(shapes)
}

fn paper(frame: Frame) -> Shape
    requires { IsFrame frame }
    ensures { result ≡ paper frame }
{
    Shape::Rect {
        paint: Paint::Paper,
        left: 0,
        top: 0,
        right: i128::from(page_width(frame)),
        bottom: i128::from(page_height(frame)),
    }
}

fn plot(frame: Frame) -> Shape
    requires { IsFrame frame }
    ensures { result ≡ plot frame }
{
    Shape::Rect {
        paint: Paint::Plot,
        left: i128::from(frame.left),
        top: i128::from(PLOT_TOP),
        right: i128::from(plot_right(frame)),
        bottom: i128::from(plot_bottom(frame)),
    }
}

/// All that stands behind the bands.
pub fn back(alloc: Global, frame: Frame, artery: &Artery, base: &Base) -> Result<Vec<Shape>, Memory>
    requires { IsFrame frame }
    ensures { IfOk result (λ shapes. shapes.items ≡ back frame artery.now base.now) }
{
    let seconds = second_lines(alloc, frame, base)?;
    let cycles = cycle_lines(alloc, frame)?;
    let levels = level_lines(alloc, frame, artery)?;
    let mut shapes = Vec::new(alloc);
    shapes.push(paper(frame))?;
    shapes.push(plot(frame))?;
    shapes.extend_from_slice(seconds.as_slice())?;
    shapes.extend_from_slice(cycles.as_slice())?;
    shapes.extend_from_slice(levels.as_slice())?;
    Ok(shapes)
}
