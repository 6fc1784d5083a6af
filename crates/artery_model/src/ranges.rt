//! Values outside their limits.

ghost use Rattle.std.specs.{Prelude.{◌≡◌, ◌==◌, nat_le, not, ◌&&◌, length, unsigned_abs}, List.{list_all}};
ghost use Rattle.rational_theory.specs.Rational.{whole};
ghost use Rattle.artery_model.specs.Bounds.{least_distance, most_distance, least_speed, most_speed, least_signals, most_signals_in, least_share, most_share_in, most_numerator, most_denominator};
ghost use Rattle.artery_model.specs.Faults.{first_fault, unless, each_numbered, link_place, Judges};
ghost use Rattle.artery_model.specs.Limits.{within, in_range, is_name, is_name_if_there, pair_ranges, head_ranges, signal_ranges, change_ranges, link_ranges, range_tests};

use crate::bounds::{
    FIRST_VERSION, LEAST_CHANGE, LEAST_CYCLE, LEAST_DISTANCE, LEAST_NAME, LEAST_PARTS, LEAST_RATIO,
    LEAST_SHARE, LEAST_SIGNALS, LEAST_SPEED, MOST_CHANGE, MOST_CYCLE, MOST_DENOMINATOR,
    MOST_DISTANCE, MOST_FIRST_SIGNALS, MOST_NAME, MOST_NUMERATOR, MOST_PARTS, MOST_RATIO,
    MOST_SHARE, MOST_SIGNALS, MOST_SPEED, SECOND_VERSION,
};
use crate::kind::{Flaw, Kind};
use crate::refusals::{check, check_item, check_signal, link_place};
use narrow_fraction::Frac;
use progression::{Head, Link, Pair, Signal, Text};
use std::alloc::Global;

/// Whether a number lies between two, both among them.
fn is_between(low: u32, high: u32, number: u32) -> bool
    ensures { result ≡ in_range low high number }
{
    low <= number && number <= high
}

/// Whether a numerator is at most `MOST_NUMERATOR` in size and the denominator at most `MOST_DENOMINATOR`.
fn is_small(value: Frac) -> bool
    ensures { result ≡ (nat_le (unsigned_abs value.num) most_numerator && nat_le value.den most_denominator) }
{
    value.num().unsigned_abs() <= MOST_NUMERATOR && value.den().unsigned_abs() <= MOST_DENOMINATOR
}

/// Whether a quantity lies between two whole numbers, both among them, its numerator being at most `MOST_NUMERATOR` in
/// size and its denominator at most `MOST_DENOMINATOR`.
pub fn is_within(low: i64, high: i64, value: Frac) -> bool
    ensures { result ≡ within (whole low) (whole high) value }
{
    is_small(value) && Frac::whole(low) <= value && value <= Frac::whole(high)
}

fn is_plain(byte: u8) -> bool
    ensures { result ≡ (nat_le 32 byte && not (byte == 127)) }
{
    32 <= byte && byte != 127
}

/// Whether no byte is a control character.
fn all_plain(bytes: &[u8]) -> bool
    ensures { result ≡ list_all (λ b. nat_le 32 b && not (b == 127)) bytes.now }
{
    bytes.iter().all(|byte| is_plain(*byte))
}

/// Whether a name has `LEAST_NAME` to `MOST_NAME` bytes and no control character.
pub fn is_name(name: &str) -> bool
    ensures { result ≡ is_name name.now }
{
    let bytes = name.as_bytes();
    LEAST_NAME <= bytes.len() && bytes.len() <= MOST_NAME && all_plain(bytes)
}

fn is_name_if_there(name: &Option<Text>) -> bool
    ensures { result ≡ is_name_if_there name.now }
{
    match name {
        Some(name) => is_name(name.as_str()),
        None => true,
    }
}

fn check_pair(alloc: Global, low: i64, high: i64, pair: Pair, place: &str) -> Result<(), Flaw>
    ensures { Judges result (first_fault (pair_ranges (whole low) (whole high) pair place.now)) }
{
    let first = is_within(low, high, pair.least);
    check_item(alloc, first, Kind::OutOfRange, place, "[1]")?;
    let second = is_within(low, high, pair.most);
    check_item(alloc, second, Kind::OutOfRange, place, "[2]")
}

/// Whether a description of the version may have so many signals.
pub fn is_count(version: u32, count: usize) -> bool
    ensures { result ≡ in_range least_signals (most_signals_in version) count }
{
    if version == SECOND_VERSION {
        LEAST_SIGNALS <= count && count <= MOST_SIGNALS
    } else {
        LEAST_SIGNALS <= count && count <= MOST_FIRST_SIGNALS
    }
}

/// Whether a description of the version may have this least band: a fraction of the cycle, and 0 in the first version.
pub fn is_share(version: u32, share: Frac) -> bool
    ensures { result ≡ within (whole least_share) (whole (most_share_in version)) share }
{
    if version == SECOND_VERSION {
        is_within(LEAST_SHARE, MOST_SHARE, share)
    } else {
        is_within(LEAST_SHARE, LEAST_SHARE, share)
    }
}

fn check_head(alloc: Global, head: &Head) -> Result<(), Flaw>
    ensures { Judges result (first_fault (head_ranges head.now)) }
{
    let named = is_name_if_there(&head.name);
    check(alloc, named, Kind::OutOfRange, "artery.name")?;
    let parts = is_between(LEAST_PARTS, MOST_PARTS, head.parts);
    check(alloc, parts, Kind::OutOfRange, "artery.parts")?;
    check_pair(alloc, LEAST_CYCLE, MOST_CYCLE, head.cycle, "artery.cycle")?;
    let ratio = is_within(LEAST_RATIO, MOST_RATIO, head.ratio);
    check(alloc, ratio, Kind::OutOfRange, "artery.ratio")?;
    let out = is_share(head.version, head.least_out);
    check(alloc, out, Kind::OutOfRange, "artery.least_out")?;
    let back = is_share(head.version, head.least_in);
    check(alloc, back, Kind::OutOfRange, "artery.least_in")?;
    let equal = !head.equal || head.version == SECOND_VERSION;
    check(alloc, equal, Kind::OutOfRange, "artery.equal")
}

fn check_signal_ranges(
    alloc: Global,
    parts: u32,
    number: usize,
    signal: &Signal,
) -> Result<(), Flaw>
    ensures { Judges result (signal_ranges parts number signal.now) }
{
    let kind = Kind::OutOfRange;
    let red = is_between(1, parts.saturating_sub(1), signal.red);
    check_signal(alloc, is_name(signal.name.as_str()), kind, number, "name")?;
    check_signal(alloc, red, kind, number, "red")?;
    check_signal(alloc, signal.left_out < parts, kind, number, "left_out")?;
    check_signal(alloc, signal.left_in < parts, kind, number, "left_in")?;
    check_signal(alloc, signal.clear_out < parts, kind, number, "clear_out")?;
    check_signal(alloc, signal.clear_in < parts, kind, number, "clear_in")
}

fn check_each_signal(alloc: Global, parts: u32, signals: &[Signal]) -> Result<(), Flaw>
    ensures { Judges result (first_fault (each_numbered (signal_ranges parts) 1 signals.now)) }
{
    for (index, signal) in signals.iter().enumerate() {
        check_signal_ranges(alloc, parts, index + 1, signal)?;
    }
    Ok(())
}

fn check_distance(alloc: Global, distance: u32, link: usize, key: &str) -> Result<(), Flaw>
    ensures { Judges result (unless (in_range least_distance most_distance distance) Kind.OutOfRange (link_place link key.now)) }
{
    let place = link_place(alloc, link, key)?;
    let passes = is_between(LEAST_DISTANCE, MOST_DISTANCE, distance);
    check(alloc, passes, Kind::OutOfRange, place.as_str())
}

fn check_speeds(alloc: Global, speeds: Pair, link: usize, key: &str) -> Result<(), Flaw>
    ensures { Judges result (first_fault (pair_ranges (whole least_speed) (whole most_speed) speeds (link_place link key.now))) }
{
    let place = link_place(alloc, link, key)?;
    check_pair(alloc, LEAST_SPEED, MOST_SPEED, speeds, place.as_str())
}

fn check_change(
    alloc: Global,
    is_last: bool,
    change: Option<Pair>,
    link: usize,
    key: &str,
) -> Result<(), Flaw>
    ensures { Judges result (first_fault (change_ranges is_last change (link_place link key.now))) }
{
    let Some(limits) = change else {
        return Ok(());
    };
    let place = link_place(alloc, link, key)?;
    check(alloc, !is_last, Kind::OutOfRange, place.as_str())?;
    check_pair(alloc, LEAST_CHANGE, MOST_CHANGE, limits, place.as_str())
}

/// The limits of the numbers of a link, the last of which is that with the number `last`.
fn check_link_ranges(alloc: Global, last: usize, number: usize, link: &Link) -> Result<(), Flaw>
    ensures { Judges result (link_ranges last number link.now) }
{
    check_distance(alloc, link.distance_out, number, "distance_out")?;
    check_distance(alloc, link.distance_in, number, "distance_in")?;
    check_speeds(alloc, link.speed_out, number, "speed_out")?;
    check_speeds(alloc, link.speed_in, number, "speed_in")?;
    let is_last = number == last;
    check_change(alloc, is_last, link.change_out, number, "change_out")?;
    check_change(alloc, is_last, link.change_in, number, "change_in")
}

fn check_each_link(alloc: Global, links: &[Link]) -> Result<(), Flaw>
    ensures { Judges result (first_fault (each_numbered (link_ranges (length links.now)) 1 links.now)) }
{
    for (index, link) in links.iter().enumerate() {
        check_link_ranges(alloc, links.len(), index + 1, link)?;
    }
    Ok(())
}

/// Refuses the first value outside its limits.
pub(crate) fn check_ranges(
    alloc: Global,
    head: &Head,
    signals: &[Signal],
    links: &[Link],
) -> Result<(), Flaw>
    ensures { Judges result (first_fault (range_tests (record { head = head.now; signals = signals.now; links = links.now }))) }
{
    let version = is_between(FIRST_VERSION, SECOND_VERSION, head.version);
    check(alloc, version, Kind::OutOfRange, "version")?;
    let count = is_count(head.version, signals.len());
    check(alloc, count, Kind::OutOfRange, "signal")?;
    check_head(alloc, head)?;
    check_each_signal(alloc, head.parts, signals)?;
    check_each_link(alloc, links)
}
