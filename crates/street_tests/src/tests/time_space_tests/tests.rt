//! What a timing is worth, what is seen at a signal, and its numbers.

use super::streets::{HALF_BAND, artery, street_text, street_with, timing};
use artery_model::Artery;
use progression::Dir;
use std::alloc::Global;
use std::test::Fail;
use test_bed::{TextReader, TextRecord, all_told, with_changes};
use time_space::{Base, Timing, green, in_band, value};

/// Tells the numerator and the denominator of the weighted band.
#[derive(Clone, Copy, Drop)]
struct Weighted;

/// The numerator and the denominator, with nothing said of them.
fn worth(artery: &Artery, timing: &Timing) -> (i128, i128) {
    let found = value(artery, timing);
    (found.num(), found.den())
}

fn worth_told(alloc: Global, artery: &Artery, timing: &Timing) -> Result<String, Fail> {
    let (num, den) = worth(artery, timing);
    Ok(format!(in alloc; "{num}/{den}")?)
}

impl TextReader for Weighted {
    fn answer(&self, alloc: Global, text: &[u8]) -> Result<String, Fail> {
        let record = TextRecord::new(text)?;
        let artery = artery(alloc, record)?;
        let timing = timing(alloc, record)?;
        worth_told(alloc, &artery, &timing)
    }
}

/// Changes of `street_text`, and what its timing is worth.
static WEIGHTED: [&str; 3] = [
    " -> 1/1",
    "apart 250|red 0 50|run_out 50|run_in 50|first 100 150|band 100 0 -> 1/2",
    "halves 1|band 100 50 -> 5/8",
];

#[test]
fn weighted_bands(rt: HostRuntime) -> Result<(), Fail> {
    all_told(
        rt.alloc(),
        &Weighted,
        street_text(rt.alloc())?.as_str(),
        &WEIGHTED,
    )
}

/// Whether signal 1 is green outbound at the tick, and whether the inbound band is there 200 ticks later. None where the
/// two have other counts of signals.
fn seen(artery: &Artery, timing: &Timing, tick: i32) -> Option<(bool, bool)> {
    if timing.count() != artery.count() {
        return None;
    }
    let tick = i128::from(tick);
    let is_green = green(artery, timing, Dir::Outbound, 1, tick);
    let is_in_band = in_band(artery, timing, Dir::Inbound, 1, tick + 200);
    Some((is_green, is_in_band))
}

static SEEN: [(i32, bool, bool); 6] = [
    (-100, true, true),
    (0, true, true),
    (1, false, false),
    (99, false, false),
    (100, true, true),
    (200, true, true),
];

fn is_all_seen(artery: &Artery, timing: &Timing) -> bool {
    for (tick, is_green, is_in_band) in SEEN {
        if seen(artery, timing, tick) != Some((is_green, is_in_band)) {
            return false;
        }
    }
    true
}

fn is_seen_of(alloc: Global, street: TextRecord<'_>) -> Result<bool, Fail> {
    let artery = artery(alloc, street)?;
    let timing = timing(alloc, street)?;
    Ok(is_all_seen(&artery, &timing))
}

#[test]
fn what_is_seen_at_a_signal(rt: HostRuntime) -> Result<(), Fail> {
    let text = street_text(rt.alloc())?;
    assert!(rt; is_seen_of(rt.alloc(), TextRecord::new(text.as_bytes())?)?);
    Ok(())
}

/// The count, the grid and the unit.
fn measures(base: &Base) -> (u32, u128, u128) {
    (base.count(), base.grid(), base.unit())
}

/// The pattern and the common red of signal 2.
fn at_signal_two(base: &Base) -> (u32, i128) {
    let _ = base.count();
    (base.pattern(2), base.common_red(2))
}

/// A direction's run on link 1.
fn first_run(base: &Base, dir: Dir) -> u128 {
    let _ = base.count();
    base.run(dir, 1)
}

/// Whether the lists are these.
fn has_lists(base: &Base, patterns: &[u32], reds: &[u128], runs: [&[u128]; 2]) -> bool {
    base.patterns() == patterns
        && base.reds() == reds
        && base.run_out() == runs[0]
        && base.run_in() == runs[1]
}

/// Whether the numbers are those of the base of a timing whose one band takes a green.
fn has_base(base: &Base) -> bool {
    measures(base) == (2, 2, 2)
        && at_signal_two(base) == (1, 50)
        && first_run(base, Dir::Outbound) == 50
        && first_run(base, Dir::Inbound) == 50
        && has_lists(base, &[1, 1], &[0, 50], [&[50], &[50]])
}

/// A direction's first line and its band.
fn pair(timing: &Timing, dir: Dir) -> (i128, u128) {
    (timing.first(dir), timing.band(dir))
}

/// Whether the numbers are those of a timing whose one band takes a green.
fn has_numbers(timing: &Timing) -> bool {
    has_base(timing.base())
        && pair(timing, Dir::Outbound) == (100, 100)
        && pair(timing, Dir::Inbound) == (150, 0)
}

/// Whether there is no timing of a text with this change.
fn is_outside(alloc: Global, base: &str, change: &str) -> Result<bool, Fail> {
    let text = with_changes(alloc, base, change)?;
    let record = TextRecord::new(text.as_bytes())?;
    Ok(record.timing(alloc)?.is_none())
}

fn are_outside(alloc: Global, base: &str) -> Result<bool, Fail> {
    Ok(is_outside(alloc, base, "grid 0")? && is_outside(alloc, base, "pattern 1 5")?)
}

fn is_read_back(alloc: Global, half_band: &str) -> Result<bool, Fail> {
    let read = timing(alloc, TextRecord::new(half_band.as_bytes())?)?;
    Ok(has_numbers(&read))
}

/// Whether a copy of the base of a timing, banded as the timing is, has its numbers.
fn is_copied(alloc: Global, half_band: &str) -> Result<bool, Fail> {
    let read = timing(alloc, TextRecord::new(half_band.as_bytes())?)?;
    let copy = read.base().copied(alloc)?;
    Ok(has_numbers(&copy.banded(100, 100, 150, 0)))
}

#[test]
fn a_timing_is_read_back(rt: HostRuntime) -> Result<(), Fail> {
    let alloc = rt.alloc();
    let half_band = street_with(alloc, HALF_BAND)?;
    assert!(rt; is_read_back(alloc, half_band.as_str())?);
    assert!(rt; is_copied(alloc, half_band.as_str())?);
    assert!(rt; are_outside(alloc, half_band.as_str())?);
    Ok(())
}
