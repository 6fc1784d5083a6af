//! The measures of a drawing: where a moment and a signal stand.

ghost use Rattle.std.specs.{Prelude.{◌≡◌, ◌+◌, ◌-◌, ◌*◌, ◌<◌, ◌≤◌, ◌^◌, pos, ◌*ℤ◌, ◌+ℤ◌, ◌-ℤ◌, length, unsigned_abs}, Int.{int_div_euclid}};
ghost use Rattle.progression.specs.{Street.{count, HasSignal}, BaseRecord.{cycle}, TimingRecord.{base}};
ghost use Rattle.diagram_draw.specs.Frames.{trip, reach, longest_reach, cycles_for, far, shortest, rise_for, span_for, widest_name, name_room, frame_of, plot_width, plot_right, x_at, level, plot_bottom, earlier, later, IsFrame};
ghost use Rattle.diagram_draw.specs.Frames.{page_width, page_height, shown_width, shown_height};
ghost use Rattle.time_space.specs.Timing.{IsFor};

use crate::width::{NAME_SIZE, text_width};
use artery_model::{Artery, Dir};
use time_space::{Base, Timing};
use timing_measures::signal_name;

/// How wide the field of the diagram is for up to so many cycles, and how much wider it is for each further one.
const PLOT_WIDTH: u32 = 9000;

const PLAIN_CYCLES: u32 = 4;

const CYCLE_WIDTH: u32 = 1800;

/// Where the field begins.
pub const PLOT_TOP: u32 = 1500;

/// What is left free above the last signal and below the first.
pub const MARGIN: u32 = 260;

/// How high a bar is.
pub const BAR_HEIGHT: u32 = 90;

/// How high both bars of a signal are.
const BOTH_BARS: u32 = 2 * BAR_HEIGHT;

/// Where the names of the signals begin.
pub const NAME_LEFT: u32 = 430;

/// What stands left of the field beside the names.
pub const COLUMNS_LEFT: u32 = 1780;

/// The least room for the names, and the most.
const LEAST_ROOM: u128 = 1092;

const MOST_ROOM: u128 = 4500;

/// The measures that depend on the artery and the timing.
#[derive(Clone, Copy, Debug, PartialEq, Eq)]
pub struct Frame {
    /// Where the field begins.
    pub left: u32,
    /// How many cycles it shows.
    pub cycles: u32,
    /// The ticks of a cycle.
    pub cycle: u128,
    /// How far the last signal is above the first.
    pub span: u32,
}

/// How many ticks the runs of the first links take together.
#[tactic(auto, using(crate::proofs::Measures::trip_up))]
fn trip(base: &Base, dir: Dir, links: u32) -> u128
    requires last { links < length base.now.patterns }
    requires many { links ≤ 24 }
    ensures value { result ≡ trip base.now dir links }
    ensures small { result ≤ links * 2 ^ 80 }
{
    let mut ticks = 0;
    for link in 1..links + 1 {
        ticks += base.run(dir, link);
    }
    ticks
}

/// How many ticks at most lie between a band's first tick anywhere and its last.
fn reach(artery: &Artery, timing: &Timing, dir: Dir) -> u128
    requires { IsFor artery.now (base timing.now) }
    ensures value { result ≡ reach artery.now timing.now dir }
    ensures small { result < 2 ^ 86 }
{
    let links = artery.count() - 1;
    trip(timing.base(), dir, links) + timing.band(dir)
}

fn longest_reach(artery: &Artery, timing: &Timing) -> u128
    requires { IsFor artery.now (base timing.now) }
    ensures value { result ≡ longest_reach artery.now timing.now }
    ensures small { result < 2 ^ 86 }
{
    let outbound = reach(artery, timing, Dir::Outbound);
    let inbound = reach(artery, timing, Dir::Inbound);
    outbound.max(inbound)
}

/// How many cycles show so many ticks whole: from 2 to 12.
fn cycles_for(ticks: u128, cycle: u128) -> u32
    requires ticks { ticks < 2 ^ 100 }
    requires cycle { 4 ≤ cycle }
    requires size { cycle < 2 ^ 92 }
    ensures value { result ≡ cycles_for ticks cycle }
    ensures least { 2 ≤ result }
    ensures most { result ≤ 12 }
{
    let needed = (ticks + cycle - 1) / cycle + 1;
    needed.max(2).min(12) as u32
}

/// How far the signal after so many links is from signal 1, outbound.
#[tactic(auto, using(crate::proofs::Measures::far_up))]
pub fn far(artery: &Artery, links: u32) -> u32
    requires last { links < count artery.now }
    requires many { links ≤ 24 }
    ensures value { result ≡ far artery.now links }
    ensures least { links ≤ result }
    ensures most { result ≤ links * 30000 }
{
    let mut length = 0;
    for link in 1..links + 1 {
        length += artery.distance(Dir::Outbound, link);
    }
    length
}

/// The shortest of the first links, outbound.
#[tactic(auto, using(crate::proofs::Measures::shortest_up))]
fn shortest(artery: &Artery, links: u32) -> u32
    requires last { links < count artery.now }
    requires many { links ≤ 24 }
    ensures value { result ≡ shortest artery.now links }
    ensures least { 1 ≤ result }
{
    let mut least = 30000;
    for link in 1..links + 1 {
        least = least.min(artery.distance(Dir::Outbound, link));
    }
    least
}

/// How high the links of a street of this length with this shortest link are together, between the bars of their signals.
fn rise_for(whole: u32, least: u32) -> u32
    requires whole { whole ≤ 720000 }
    requires least { 1 ≤ least }
    ensures value { result ≡ rise_for whole least }
    ensures least { 4400 ≤ result }
    ensures most { result ≤ 16000 }
{
    (whole * 180 / least).max(4400).min(16000)
}

/// How far the last signal is above the first.
fn span_for(artery: &Artery) -> u32
    ensures value { result ≡ span_for artery.now }
    ensures least { 4400 ≤ result }
    ensures most { result ≤ 20140 }
{
    let links = artery.count() - 1;
    rise_for(far(artery, links), shortest(artery, links)) + BOTH_BARS * links
}

/// The width of the widest of the first names, in thousandths of the size of its letters.
#[tactic(auto, using(crate::proofs::Measures::widest_up))]
fn widest_name(artery: &Artery, signals: u32) -> u128
    requires last { signals ≤ count artery.now }
    requires many { signals ≤ 24 }
    ensures value { result ≡ widest_name artery.now signals }
    ensures small { result < 2 ^ 80 }
{
    let mut widest = 0;
    for signal in 1..signals + 1 {
        widest = widest.max(text_width(signal_name(artery, signal).as_bytes()));
    }
    widest
}

/// Room for the names.
fn name_room(artery: &Artery) -> u32
    ensures value { result ≡ name_room artery.now }
    ensures least { 1092 ≤ result }
    ensures most { result ≤ 4500 }
{
    let widest = widest_name(artery, artery.count());
    let room = widest * u128::from(NAME_SIZE) / 1000 + 1;
    room.max(LEAST_ROOM).min(MOST_ROOM) as u32
}

/// The frame of a drawing.
pub fn frame_of(artery: &Artery, timing: &Timing) -> Frame
    requires { IsFor artery.now (base timing.now) }
    ensures value { result ≡ frame_of artery.now timing.now }
    ensures range { IsFrame result }
{
    let cycle = timing.base().cycle(artery);
    Frame {
        left: name_room(artery) + COLUMNS_LEFT,
        cycles: cycles_for(longest_reach(artery, timing), cycle),
        cycle,
        span: span_for(artery),
    }
}

/// How wide the field is.
pub fn plot_width(frame: Frame) -> u32
    requires { IsFrame frame }
    ensures value { result ≡ plot_width frame }
    ensures least { 9000 ≤ result }
    ensures most { result ≤ 23400 }
{
    PLOT_WIDTH + CYCLE_WIDTH * frame.cycles.saturating_sub(PLAIN_CYCLES)
}

/// Where the field ends at the right.
pub fn plot_right(frame: Frame) -> u32
    requires { IsFrame frame }
    ensures value { result ≡ plot_right frame }
    ensures most { result ≤ 29680 }
{
    frame.left + plot_width(frame)
}

/// So many ticks in widths of the field.
fn widths(ticks: i128, width: u32) -> i128
    requires ticks { unsigned_abs ticks < 2 ^ 102 }
    requires width { width ≤ 23400 }
    ensures value { result ≡ ticks *ℤ pos width }
    ensures small { unsigned_abs result < 2 ^ 117 }
{
    ticks * i128::from(width)
}

/// The ticks of so many cycles.
pub fn cycles_ticks(frame: Frame, cycles: u32) -> u128
    requires frame { IsFrame frame }
    requires cycles { cycles ≤ 72 }
    ensures value { result ≡ cycles * frame.cycle }
    ensures least { cycles ≤ result }
    ensures most { result ≤ cycles * 2 ^ 92 }
{
    u128::from(cycles) * frame.cycle
}

/// How many whole parts so much has.
fn whole_parts(much: i128, part: u128) -> i128
    requires much { unsigned_abs much < 2 ^ 117 }
    requires some { 1 ≤ part }
    requires part { part < 2 ^ 100 }
    ensures value { result ≡ int_div_euclid much (pos part) }
    ensures small { unsigned_abs result < 2 ^ 117 }
{
    much.div_euclid(part as i128)
}

/// Where a moment stands that comes so many ticks after the start of the common red of signal 1.
pub fn x_at(frame: Frame, ticks: i128) -> i128
    requires frame { IsFrame frame }
    requires ticks { unsigned_abs ticks < 2 ^ 102 }
    ensures { result ≡ x_at frame ticks }
{
    let whole = cycles_ticks(frame, frame.cycles);
    let width = plot_width(frame);
    i128::from(frame.left) + whole_parts(widths(ticks, width), whole)
}

/// The level of a signal.
pub fn level(frame: Frame, artery: &Artery, signal: u32) -> u32
    requires frame { IsFrame frame }
    requires signal { HasSignal artery.now signal }
    ensures value { result ≡ level frame artery.now signal }
    ensures most { result ≤ 21900 }
{
    let links = artery.count() - 1;
    let rise = u64::from(frame.span - BOTH_BARS * links);
    let way = u64::from(far(artery, signal - 1)) * rise;
    let whole = u64::from(far(artery, links));
    let lowest = u64::from(PLOT_TOP + MARGIN + frame.span - BOTH_BARS * (signal - 1));
    lowest.saturating_sub(way / whole) as u32
}

/// Where the lower bar of a signal ends.
pub fn below(level: u32) -> i128
    requires { level ≤ 21900 }
    ensures value { result ≡ pos level +ℤ pos 90 }
    ensures small { unsigned_abs result < 30000 }
{
    i128::from(level) + i128::from(BAR_HEIGHT)
}

/// Where the upper one begins.
pub fn above(level: u32) -> i128
    requires { level ≤ 21900 }
    ensures value { result ≡ pos level -ℤ pos 90 }
    ensures small { unsigned_abs result < 30000 }
{
    i128::from(level) - i128::from(BAR_HEIGHT)
}

/// Where the field ends below.
pub fn plot_bottom(frame: Frame) -> u32
    requires { IsFrame frame }
    ensures value { result ≡ plot_bottom frame }
    ensures most { result ≤ 22160 }
{
    PLOT_TOP + 2 * MARGIN + frame.span
}

/// How wide and how high the page is.
pub fn page_width(frame: Frame) -> u32
    requires { IsFrame frame }
    ensures value { result ≡ page_width frame }
    ensures least { 2200 ≤ result }
    ensures most { result ≤ 31880 }
{
    plot_right(frame) + 2200
}

pub fn page_height(frame: Frame) -> u32
    requires { IsFrame frame }
    ensures value { result ≡ page_height frame }
    ensures least { 1400 ≤ result }
    ensures most { result ≤ 23560 }
{
    plot_bottom(frame) + 1400
}

/// The sides of a sheet of paper beside its margins, in tenths of a millimetre.
const SHORT_SIDE: u32 = 1900;

const LONG_SIDE: u32 = 2590;

/// How wide the page is on paper, in tenths of a millimetre.
pub fn shown_width(frame: Frame) -> u32
    requires { IsFrame frame }
    ensures value { result ≡ shown_width frame }
{
    let (width, height) = (page_width(frame), page_height(frame));
    if height <= width {
        LONG_SIDE.min(SHORT_SIDE * width / height)
    } else {
        SHORT_SIDE.min(LONG_SIDE * width / height)
    }
}

/// And how high it is.
pub fn shown_height(frame: Frame) -> u32
    requires { IsFrame frame }
    ensures value { result ≡ shown_height frame }
{
    let (width, height) = (page_width(frame), page_height(frame));
    if height <= width {
        SHORT_SIDE.min(LONG_SIDE * height / width)
    } else {
        LONG_SIDE.min(SHORT_SIDE * height / width)
    }
}

/// A moment so many cycles earlier.
pub fn earlier(frame: Frame, back: u32, ticks: u128) -> i128
    requires frame { IsFrame frame }
    requires back { back ≤ 60 }
    requires ticks { ticks < 2 ^ 92 }
    ensures value { result ≡ earlier frame back ticks }
    ensures small { unsigned_abs result < 2 ^ 98 }
{
    ticks as i128 - cycles_ticks(frame, back) as i128
}

/// And one so many cycles later.
pub fn later(frame: Frame, ticks: i128, cycles: u32) -> i128
    requires frame { IsFrame frame }
    requires ticks { unsigned_abs ticks < 2 ^ 99 }
    requires cycles { cycles ≤ 72 }
    ensures value { result ≡ later frame ticks cycles }
    ensures small { unsigned_abs result < 2 ^ 100 }
{
    ticks + cycles_ticks(frame, cycles) as i128
}

/// A moment so many ticks after another.
pub fn moment_after(ticks: i128, long: u128) -> i128
    requires ticks { unsigned_abs ticks < 2 ^ 101 }
    requires long { long < 2 ^ 100 }
    ensures value { result ≡ ticks +ℤ pos long }
    ensures small { unsigned_abs result < 2 ^ 102 }
{
    ticks + long as i128
}
