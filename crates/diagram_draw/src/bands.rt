//! The bands between the signals.

ghost use Rattle.std.specs.Prelude.{◌≡◌, ◌++◌, ◌<◌, ◌≤◌, ◌^◌, IfOk, OnOk, pos, ◌-ℤ◌, unsigned_abs};
ghost use Rattle.progression.specs.{Street.{count, HasLink}, TimingRecord.{base}};
ghost use Rattle.diagram_draw.specs.Frames.{IsFrame};
ghost use Rattle.diagram_draw.specs.Bands.{tail, leaving_level, entering_level, band_paint, line_paint, slant, first_line, is_narrow, piece, is_seen, is_chosen};
ghost use Rattle.diagram_draw.specs.Bands.{chosen_piece, some_pieces, first_begin, edge_pieces, pieces, link_pieces, all_pieces};
ghost use Rattle.time_space.specs.Timing.{IsFor};

use crate::bars::after;
use crate::frame::{Frame, above, below, cycles_ticks, earlier, later, level, moment_after, x_at};
use crate::paint::Paint;
use crate::shape::{Shape, Side};
use artery_model::{Artery, Dir};
use narrow_fraction::Memory;
use std::alloc::{AllocError, Global};
use time_space::{Timing, line_at};
use timing_measures::after_start;
use timing_words::has_band;

/// A part of a band: from the edge of the bars at one signal to that of those at the next.
#[derive(Clone, Copy)]
struct BandPart {
    /// Whose band it is.
    dir: Dir,
    /// The level at which it begins.
    from: i128,
    /// The level at which it ends.
    to: i128,
    /// The moment at which the band leaves the one signal, in ticks.
    begin: i128,
    /// How many ticks later it reaches the other.
    run: u128,
    /// How many ticks wide it is.
    band: u128,
}

/// The end of a link by which a piece is found.
#[derive(Clone, Copy)]
enum Edge {
    /// Where it leaves the one signal.
    Leaving,
    /// Where it enters the other.
    Entering,
}

/// The signal at which a direction's traffic enters a link.
fn tail(dir: Dir, link: u32) -> u32
    requires { link < 2 ^ 30 }
    ensures { result ≡ tail dir link }
{
    match dir {
        Dir::Outbound => link,
        Dir::Inbound => link + 1,
    }
}

/// The level at which a direction's band leaves the signal where a link begins.
fn leaving_level(frame: Frame, artery: &Artery, dir: Dir, link: u32) -> i128
    requires frame { IsFrame frame }
    requires link { HasLink artery.now link }
    ensures value { result ≡ leaving_level frame artery.now dir link }
    ensures small { unsigned_abs result < 30000 }
{
    // there are few signals
    let _ = artery.count();
    match dir {
        Dir::Outbound => above(level(frame, artery, link)),
        Dir::Inbound => below(level(frame, artery, link + 1)),
    }
}

/// The level at which it reaches the signal where the link ends.
fn entering_level(frame: Frame, artery: &Artery, dir: Dir, link: u32) -> i128
    requires frame { IsFrame frame }
    requires link { HasLink artery.now link }
    ensures value { result ≡ entering_level frame artery.now dir link }
    ensures small { unsigned_abs result < 30000 }
{
    // there are few signals
    let _ = artery.count();
    match dir {
        Dir::Outbound => below(level(frame, artery, link + 1)),
        Dir::Inbound => above(level(frame, artery, link)),
    }
}

fn band_paint(dir: Dir) -> Paint
    ensures { result ≡ band_paint dir }
{
    match dir {
        Dir::Outbound => Paint::OutBand,
        Dir::Inbound => Paint::InBand,
    }
}

/// How the line is painted that stands for a band without room for two edges.
fn line_paint(dir: Dir) -> Paint
    ensures { result ≡ line_paint dir }
{
    match dir {
        Dir::Outbound => Paint::OutLine,
        Dir::Inbound => Paint::InLine,
    }
}

/// A piece of a band: from one signal to the next.
fn slant(frame: Frame, part: BandPart) -> Shape
    requires frame { IsFrame frame }
    requires begin { unsigned_abs part.begin < 2 ^ 100 }
    requires run { part.run < 2 ^ 80 }
    requires band { part.band < 2 ^ 80 }
    ensures { result ≡ slant frame part }
{
    let end = moment_after(part.begin, part.band);
    let arrival = moment_after(part.begin, part.run);
    let last_arrival = moment_after(part.begin, part.run + part.band);
    Shape::Slant {
        paint: band_paint(part.dir),
        from: Side {
            left: x_at(frame, part.begin),
            right: x_at(frame, end),
            level: part.from,
        },
        to: Side {
            left: x_at(frame, arrival),
            right: x_at(frame, last_arrival),
            level: part.to,
        },
    }
}

/// The first line of such a piece.
fn first_line(frame: Frame, part: BandPart) -> Shape
    requires frame { IsFrame frame }
    requires begin { unsigned_abs part.begin < 2 ^ 100 }
    requires run { part.run < 2 ^ 80 }
    ensures { result ≡ first_line frame part }
{
    let arrival = moment_after(part.begin, part.run);
    Shape::Line {
        paint: line_paint(part.dir),
        x: x_at(frame, part.begin),
        y: part.from,
        next_x: x_at(frame, arrival),
        next_y: part.to,
    }
}

/// Whether so many ticks have no room for two edges.
fn is_narrow(frame: Frame, ticks: u128) -> bool
    requires frame { IsFrame frame }
    requires ticks { ticks < 2 ^ 80 }
    ensures { result ≡ is_narrow frame ticks }
{
    x_at(frame, ticks as i128) < i128::from(frame.left + 3)
}

/// A piece of a band, or its first line where it is narrow.
fn piece(frame: Frame, part: BandPart) -> Shape
    requires frame { IsFrame frame }
    requires begin { unsigned_abs part.begin < 2 ^ 100 }
    requires run { part.run < 2 ^ 80 }
    requires band { part.band < 2 ^ 80 }
    ensures { result ≡ piece frame part }
{
    if is_narrow(frame, part.band) {
        first_line(frame, part)
    } else {
        slant(frame, part)
    }
}

/// Whether a band that begins then is somewhere within the time that is shown.
fn is_seen(frame: Frame, begin: i128, band: u128) -> bool
    requires frame { IsFrame frame }
    requires begin { unsigned_abs begin < 2 ^ 102 }
    requires band { band < 2 ^ 80 }
    ensures { result ≡ is_seen frame begin band }
{
    0 <= begin + band as i128 && begin < cycles_ticks(frame, frame.cycles) as i128
}

/// Whether a piece leaves within the time that is shown, or only enters within it.
fn is_chosen(frame: Frame, edge: Edge, part: BandPart) -> bool
    requires frame { IsFrame frame }
    requires begin { unsigned_abs part.begin < 2 ^ 100 }
    requires run { part.run < 2 ^ 80 }
    requires band { part.band < 2 ^ 80 }
    ensures { result ≡ is_chosen frame edge part }
{
    let leaves = is_seen(frame, part.begin, part.band);
    match edge {
        Edge::Leaving => leaves,
        Edge::Entering => {
            is_seen(frame, moment_after(part.begin, part.run), part.band) && !leaves
        }
    }
}

/// Adds a piece if it is one of those.
fn push_chosen(
    shapes: &mut Vec<Shape>,
    frame: Frame,
    edge: Edge,
    part: BandPart,
) -> Result<(), AllocError>
    requires frame { IsFrame frame }
    requires begin { unsigned_abs part.begin < 2 ^ 100 }
    requires run { part.run < 2 ^ 80 }
    requires band { part.band < 2 ^ 80 }
    ensures { OnOk result (shapes.new.items ≡ shapes.old.items ++ chosen_piece frame edge part) }
{
    if is_chosen(frame, edge, part) {
        shapes.push(piece(frame, part))?;
    }
    Ok(())
}

/// Those of so many cycles.
#[tactic(auto, using(crate::proofs::Chains::piece_on))]
fn some_pieces(
    alloc: Global,
    frame: Frame,
    edge: Edge,
    part: BandPart,
    cycles: u32,
) -> Result<Vec<Shape>, AllocError>
    requires frame { IsFrame frame }
    requires begin { unsigned_abs part.begin < 2 ^ 99 }
    requires run { part.run < 2 ^ 80 }
    requires band { part.band < 2 ^ 80 }
    requires cycles { cycles ≤ 72 }
    ensures { IfOk result (λ shapes. shapes.items ≡ some_pieces frame edge part cycles) }
{
    let mut shapes = Vec::new(alloc);
    for cycle in 0..cycles {
        let begin = later(frame, part.begin, cycle);
        push_chosen(&mut shapes, frame, edge, BandPart { begin, ..part })?;
    }
    Ok(shapes)
}

/// A moment so many ticks before another.
fn before(ticks: i128, wait: u128) -> i128
    requires ticks { unsigned_abs ticks < 2 ^ 98 }
    requires wait { wait < 2 ^ 92 }
    ensures value { result ≡ ticks -ℤ pos wait }
    ensures small { unsigned_abs result < 2 ^ 99 }
{
    ticks - wait as i128
}

/// When a direction's band leaves the first signal of a link in the first of the cycles; or so that it enters the second in that cycle.
fn first_begin(
    frame: Frame,
    artery: &Artery,
    timing: &Timing,
    dir: Dir,
    edge: Edge,
    link: u32,
) -> i128
    requires frame { IsFrame frame }
    requires shape { IsFor artery.now (base timing.now) }
    requires link { HasLink artery.now link }
    ensures value { result ≡ first_begin frame artery.now timing.now dir edge link }
    ensures small { unsigned_abs result < 2 ^ 99 }
{
    // there are few signals
    let _ = artery.count();
    let line = line_at(artery, timing, dir, tail(dir, link));
    let run = timing.run(dir, link);
    match edge {
        Edge::Leaving => earlier(frame, 1, after_start(artery, timing.base(), line)),
        Edge::Entering => {
            let entry = after_start(artery, timing.base(), after(line, run));
            before(earlier(frame, 1, entry), run)
        }
    }
}

/// The pieces of a direction's band on a link that are found by one of its ends.
fn edge_pieces(
    alloc: Global,
    frame: Frame,
    artery: &Artery,
    timing: &Timing,
    dir: Dir,
    edge: Edge,
    link: u32,
) -> Result<Vec<Shape>, AllocError>
    requires frame { IsFrame frame }
    requires shape { IsFor artery.now (base timing.now) }
    requires link { HasLink artery.now link }
    ensures { IfOk result (λ shapes. shapes.items ≡ edge_pieces frame artery.now timing.now dir edge link) }
{
    let part = BandPart {
        dir,
        from: leaving_level(frame, artery, dir, link),
        to: entering_level(frame, artery, dir, link),
        begin: first_begin(frame, artery, timing, dir, edge, link),
        run: timing.run(dir, link),
        band: timing.band(dir),
    };
    some_pieces(alloc, frame, edge, part, frame.cycles + 1)
}

/// The pieces of a direction's band on a link.
fn pieces(
    alloc: Global,
    frame: Frame,
    artery: &Artery,
    timing: &Timing,
    dir: Dir,
    link: u32,
) -> Result<Vec<Shape>, Memory>
    requires frame { IsFrame frame }
    requires shape { IsFor artery.now (base timing.now) }
    requires link { HasLink artery.now link }
    ensures { IfOk result (λ shapes. shapes.items ≡ pieces frame artery.now timing.now dir link) }
{
    if !has_band(artery, timing, dir) {
        return Ok(Vec::new(alloc));
    }
    let mut shapes = edge_pieces(alloc, frame, artery, timing, dir, Edge::Leaving, link)?;
    let entering = edge_pieces(alloc, frame, artery, timing, dir, Edge::Entering, link)?;
    shapes.extend_from_slice(entering.as_slice())?;
    Ok(shapes)
}

/// The pieces of both bands on a link.
fn link_pieces(
    alloc: Global,
    frame: Frame,
    artery: &Artery,
    timing: &Timing,
    link: u32,
) -> Result<Vec<Shape>, Memory>
    requires frame { IsFrame frame }
    requires shape { IsFor artery.now (base timing.now) }
    requires link { HasLink artery.now link }
    ensures { IfOk result (λ shapes. shapes.items ≡ link_pieces frame artery.now timing.now link) }
{
    let mut shapes = pieces(alloc, frame, artery, timing, Dir::Outbound, link)?;
    let inbound = pieces(alloc, frame, artery, timing, Dir::Inbound, link)?;
    shapes.extend_from_slice(inbound.as_slice())?;
    Ok(shapes)
}

/// The pieces of both bands, from the first link on.
pub fn all_pieces(
    alloc: Global,
    frame: Frame,
    artery: &Artery,
    timing: &Timing,
) -> Result<Vec<Shape>, Memory>
    requires frame { IsFrame frame }
    requires shape { IsFor artery.now (base timing.now) }
    ensures { IfOk result (λ shapes. shapes.items ≡ all_pieces frame artery.now timing.now) }
{
    let mut shapes = Vec::new(alloc);
    for link in 1..artery.count() {
        let pieces = link_pieces(alloc, frame, artery, timing, link)?;
        shapes.extend_from_slice(pieces.as_slice())?;
    }
    Ok(shapes)
}
