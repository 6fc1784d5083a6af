//! The text of a timing, read.

ghost use Rattle.std.specs.Prelude.{◌≡◌, ◌+◌, ◌-◌, ◌<◌, ◌≤◌, ◌^◌, All, length, IfOk, Ok};
ghost use Rattle.progression.specs.TimingRecord.{TimingRecord};
ghost use Rattle.plan_text.specs.{Lines.{Gives, numbers_at}, Spelling.{timing_text, IsHeld}};
ghost use Rattle.plan_text.specs.Reading.{place_of, pattern_place, scale_at, signals_at, both_ways_at, pair_at, base_at, timing_at, timing_of};

use crate::fault::TextEnd;
use crate::lines::{NumberLine, fixed_at, nothing_at, numbers_at};
use artery_model::bounds::{LEAST_SIGNALS, MOST_SIGNALS};
use std::alloc::{AllocError, Global};
use time_space::{Base, LIMIT, Timing};

/// What is said of each direction.
#[derive(Drop)]
pub struct BothWays<T> {
    pub outbound: T,
    pub inbound: T,
}

/// The place of a line with so many numbers below `2^80`, of which none is less than `least`.
fn place(line: u64, count: usize, least: u128) -> NumberLine
    ensures { result ≡ place_of line count least }
{
    NumberLine {
        line,
        fewest: count,
        most: count,
        least,
        greatest: LIMIT - 1,
    }
}

/// Just so many numbers of the next line below `2^80`, of which none is less than `least`, and what follows it.
fn count_at<'a>(
    alloc: Global,
    key: &[u8],
    line: u64,
    count: usize,
    least: u128,
    bytes: &'a [u8],
) -> Result<(Vec<u128>, &'a [u8]), TextEnd>
    ensures exact { Gives (λ x. (x.0.items, x.1.now)) result (numbers_at key.now (place_of line count least) bytes.now) }
    ensures count { IfOk result (λ x. length x.0.items ≡ count) }
{
    numbers_at(alloc, key, place(line, count, least), bytes)
}

/// The place of a line of 2 to 24 patterns.
fn patterns_place(line: u64) -> NumberLine
    ensures { result ≡ pattern_place line }
{
    NumberLine {
        line,
        fewest: LEAST_SIGNALS,
        most: MOST_SIGNALS,
        least: 1,
        greatest: 4,
    }
}

/// Grid and unit, and what follows their lines, the first of which has this number.
#[tactic(auto, unfolding(crate::specs::Reading::scale_at))]
fn scale_at(alloc: Global, line: u64, bytes: &[u8]) -> Result<(u128, u128, &[u8]), TextEnd>
    requires { line + 1 < 2 ^ 64 }
    ensures exact { Gives (λ x. (x.0, x.1, x.2.now)) result (scale_at line bytes.now) }
{
    let (grid, rest) = count_at(alloc, b"grid", line, 1, 1, bytes)?;
    let (unit, rest) = count_at(alloc, b"unit", line + 1, 1, 2, rest)?;
    Ok((grid[0], unit[0], rest))
}

/// Patterns and reds, and what follows their lines, the first of which has this number.
#[tactic(auto, unfolding(crate::specs::Reading::signals_at))]
fn signals_at(
    alloc: Global,
    line: u64,
    bytes: &[u8],
) -> Result<(Vec<u128>, Vec<u128>, &[u8]), TextEnd>
    requires { line + 1 < 2 ^ 64 }
    ensures exact { Gives (λ x. (x.0.items, x.1.items, x.2.now)) result (signals_at line bytes.now) }
    ensures fewest { IfOk result (λ x. 2 ≤ length x.0.items) }
    ensures each { IfOk result (λ x. All (λ p. (1 ≤ p) × (p ≤ 4)) x.0.items) }
{
    let (patterns, rest) = numbers_at(alloc, b"pattern", patterns_place(line), bytes)?;
    let (reds, rest) = count_at(alloc, b"red", line + 1, patterns.len(), 0, rest)?;
    Ok((patterns, reds, rest))
}

/// A number for each of so many links, outbound and inbound, and what follows their lines, the first of which has this number.
/// The line of a direction has its key.
#[tactic(auto, unfolding(crate::specs::Reading::both_ways_at))]
pub fn both_ways_at<'a>(
    alloc: Global,
    out_key: &[u8],
    in_key: &[u8],
    line: u64,
    links: usize,
    bytes: &'a [u8],
) -> Result<(BothWays<Vec<u128>>, &'a [u8]), TextEnd>
    requires { line + 1 < 2 ^ 64 }
    ensures { Gives (λ x. (x.0.outbound.items, x.0.inbound.items, x.1.now)) result (both_ways_at out_key.now in_key.now line links bytes.now) }
{
    let (outbound, rest) = count_at(alloc, out_key, line, links, 0, bytes)?;
    let (inbound, rest) = count_at(alloc, in_key, line + 1, links, 0, rest)?;
    Ok((BothWays { outbound, inbound }, rest))
}

/// The two numbers of a line, outbound and inbound, and what follows it.
#[tactic(auto, unfolding(crate::specs::Reading::pair_at))]
pub fn pair_at<'a>(
    alloc: Global,
    key: &[u8],
    line: u64,
    bytes: &'a [u8],
) -> Result<(BothWays<u128>, &'a [u8]), TextEnd>
    ensures exact { Gives (λ x. (x.0.outbound, x.0.inbound, x.1.now)) result (pair_at key.now line bytes.now) }
    ensures outbound { IfOk result (λ x. x.0.outbound < 2 ^ 80) }
    ensures inbound { IfOk result (λ x. x.0.inbound < 2 ^ 80) }
{
    let (pair, rest) = count_at(alloc, key, line, 2, 0, bytes)?;
    let (outbound, inbound) = (pair[0], pair[1]);
    Ok((BothWays { outbound, inbound }, rest))
}

fn patterns_of(alloc: Global, numbers: &[u128]) -> Result<Vec<u32>, AllocError>
    requires { All (λ p. (1 ≤ p) × (p ≤ 4)) numbers.now }
    ensures { IfOk result (λ v. v.items ≡ numbers.now) }
{
    let mut patterns = Vec::new(alloc);
    for number in numbers {
        patterns.push(*number as u32)?;
    }
    Ok(patterns)
}

/// The base of the six lines from the one with this number on, and what follows them.
#[tactic(auto, unfolding(crate::specs::Reading::base_at))]
pub fn base_at(alloc: Global, line: u64, bytes: &[u8]) -> Result<(Base, &[u8]), TextEnd>
    requires { line + 5 < 2 ^ 64 }
    ensures { Gives (λ x. (x.0, x.1.now)) result (base_at line bytes.now) }
{
    let (grid, unit, rest) = scale_at(alloc, line, bytes)?;
    let (patterns, reds, rest) = signals_at(alloc, line + 2, rest)?;
    let links = patterns.len() - 1;
    let (runs, rest) = both_ways_at(alloc, b"run_out", b"run_in", line + 4, links, rest)?;
    let patterns = patterns_of(alloc, patterns.as_slice())?;
    match Base::new(grid, unit, patterns, reds, runs.outbound, runs.inbound) {
        Some(base) => Ok((base, rest)),
        None => unreachable!(),
    }
}

/// The timing of the eight lines from the one with this number on, and what follows them.
#[tactic(auto, unfolding(crate::specs::Reading::timing_at))]
pub(crate) fn timing_at(alloc: Global, line: u64, bytes: &[u8]) -> Result<(Timing, &[u8]), TextEnd>
    requires { line + 7 < 2 ^ 64 }
    ensures { Gives (λ x. (x.0, x.1.now)) result (timing_at line bytes.now) }
{
    let (base, rest) = base_at(alloc, line, bytes)?;
    let (first, rest) = pair_at(alloc, b"first", line + 6, rest)?;
    let (band, rest) = pair_at(alloc, b"band", line + 7, rest)?;
    let timing = base.banded(first.outbound, band.outbound, first.inbound, band.inbound);
    Ok((timing, rest))
}

#[tactic(auto, unfolding(crate::specs::Reading::timing_of))]
fn timing_of(alloc: Global, bytes: &[u8]) -> Result<Timing, TextEnd>
    ensures { Gives (λ t. t) result (timing_of bytes.now) }
{
    let rest = fixed_at(1, b"maxband-timing 1", bytes)?;
    let (timing, rest) = timing_at(alloc, 2, rest)?;
    let rest = fixed_at(10, b"end", rest)?;
    nothing_at(11, rest)?;
    Ok(timing)
}

/// The timing that a text spells, all of its bytes.
///
/// Of a text that spells none the first bad line is named, with the first fault that applies to it.
pub fn read_timing(alloc: Global, bytes: &[u8]) -> Result<Timing, TextEnd>
    // What is read is spelled so.
    ensures found { IfOk result (λ t. bytes.now ≡ timing_text t) }
    // What spells a timing is read, unless memory runs out.
    ensures only { (t : TimingRecord) → IsHeld t → bytes.now ≡ timing_text t → Gives (λ t. t) result (Ok t) }
    // Which fault it is, and at which line.
    ensures exact { Gives (λ t. t) result (timing_of bytes.now) }
{
    timing_of(alloc, bytes)
}
