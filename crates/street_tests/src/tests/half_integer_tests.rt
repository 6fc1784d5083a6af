//! Rows that were worked by hand: two signals, 100 parts, one link.

use super::given::{four, street, timing, two};
use artery_model::Artery;
use half_integer::{HalfFault, half, half_of};
use progression::Dir;
use std::alloc::{AllocError, Global};
use std::test::Fail;
use test_bed::{
    SampleLink, SampleSignal, TextReader, TextRecord, all_told, plain_head, plain_link,
    plain_signal,
};
use time_space::Timing;

/// A street and its timing: how far the signals are apart outbound and inbound, and both reds in parts. The left turns, the last of the patterns
/// that are allowed, and the outbound clearance are those of signal 2.
static FAR: &str = "apart 500 500
parts 50 50
left 0
patterns 1
clear 0
run_out 100
run_in 100
grid 2
unit 2
pattern 1 1
red 0 100
first 0 0
band 100 100
";

/// Changes of it, and how wide the bands of its half-cycle plan are, in ticks of the doubled grid, which has 400 in the cycle; or why there are none.
static OUTCOMES: [&str; 15] = [
    " -> band 200",
    "apart 250 250|run_out 50|run_in 50 -> band 100",
    "parts 80 80|apart 250 250|run_out 50|run_in 50 -> no bands",
    // The reds of signal 2 aren't one interval.
    "apart 250 250|parts 50 40|left 10|patterns 3|run_out 50|run_in 50 -> End(Uneven { signal: 2 })",
    "apart 250 250|parts 50 40|left 10|patterns 3|run_out 50|run_in 50|pattern 1 2 -> End(Uneven { signal: 2 })",
    "apart 250 250|parts 50 40|left 10|patterns 3|run_out 50|run_in 50|pattern 1 3 -> band 100",
    "apart 250 250|parts 50 50|left 10|patterns 3|run_out 50|run_in 50|pattern 1 3 -> band 80",
    // The directions take unequal times.
    "apart 500 250|run_in 50 -> End(Unequal { link: 1 })",
    "clear 10 -> End(Unequal { link: 1 })",
    // Two reasons: the first.
    "apart 250 250|parts 50 40|left 10|patterns 3|run_out 50|run_in 50|clear 10 -> End(Uneven { signal: 2 })",
    "apart 250 250|parts 50 40|left 10|patterns 3|run_out 50|run_in 50|grid 3 -> Fails(CycleShort)",
    "apart 250 250|parts 50 40|left 10|patterns 3|run_out 50|run_in 50|pattern 1 4 -> Fails(Pattern { signal: 2 })",
    // Grids of 2^74 ticks, and of 40 times as many.
    "apart 1 1|grid 755578637259143234191360|unit 755578637259143234191360|run_out 75557863725914323419136|run_in 75557863725914323419136 -> End(TooFine { ticks: 1511157274518286468382720 })",
    "grid 18889465931478580854784|unit 18889465931478580854784|run_out 944473296573929042739200|run_in 944473296573929042739200 -> End(TooFine { ticks: 1888946593147858085478400 })",
    "apart 250 250|grid 18889465931478580854784|unit 18889465931478580854784|run_out 472236648286964521369600|run_in 472236648286964521369600 -> End(TooFine { ticks: 3777893186295716170956800 })",
];

/// Signal 2, of these left turns, the last pattern that is allowed, the clearance and the red.
fn signal(left: u32, last: u32, clear_out: u32, red: u32) -> SampleSignal {
    SampleSignal {
        left_out: left,
        left_in: left,
        patterns: [1 <= last, 2 <= last, 3 <= last, 4 <= last],
        clear_out,
        ..plain_signal("B", red)
    }
}

fn other(record: TextRecord<'_>) -> Result<SampleSignal, Fail> {
    let places = [("left", 0), ("patterns", 0), ("clear", 0), ("parts", 1)];
    let [left, last, clear_out, red] = four(record, places)?;
    Ok(signal(left, last, clear_out, red))
}

fn link(record: TextRecord<'_>) -> Result<SampleLink, Fail> {
    let [distance_out, distance_in] = two(record, [("apart", 0), ("apart", 1)])?;
    Ok(SampleLink {
        distance_in,
        ..plain_link(distance_out)
    })
}

fn artery(alloc: Global, record: TextRecord<'_>) -> Result<Artery, Fail> {
    let first = plain_signal("A", record.small("parts", 0)?);
    let (other, link) = (other(record)?, link(record)?);
    street(alloc, plain_head(), &[first, other], &[link])
}

fn told(alloc: Global, halved: Result<Option<Timing>, HalfFault>) -> Result<String, AllocError> {
    match halved {
        Ok(Some(plan)) => format!(in alloc; "band {}", plan.band(Dir::Inbound)),
        Ok(None) => String::from_str(alloc, "no bands"),
        Err(fault) => format!(in alloc; "{fault:?}"),
    }
}

/// The timing's half-cycle plan, with nothing said of it.
fn halved(alloc: Global, artery: &Artery, timing: &Timing) -> Result<Option<Timing>, HalfFault> {
    half(alloc, artery, timing)
}

fn halved_told(alloc: Global, artery: &Artery, timing: &Timing) -> Result<String, Fail> {
    Ok(told(alloc, halved(alloc, artery, timing))?)
}

/// Tells the half-cycle plan of a street's timing.
#[derive(Clone, Copy, Drop)]
struct HalfTimings;

impl TextReader for HalfTimings {
    fn answer(&self, alloc: Global, text: &[u8]) -> Result<String, Fail> {
        let record = TextRecord::new(text)?;
        let artery = artery(alloc, record)?;
        let timing = timing(alloc, record)?;
        halved_told(alloc, &artery, &timing)
    }
}

#[test]
fn outcomes(rt: HostRuntime) -> Result<(), Fail> {
    all_told(rt.alloc(), &HalfTimings, FAR, &OUTCOMES)
}

/// The phases of two signals.
fn phases(alloc: Global, artery: &Artery, timing: &Timing) -> Option<[bool; 2]> {
    match half(alloc, artery, timing) {
        Ok(Some(plan)) => {
            let count = artery.count();
            prove!(2 <= count);
            Some([half_of(artery, &plan, 1), half_of(artery, &plan, 2)])
        }
        _ => None,
    }
}

fn phases_of(alloc: Global, text: &str) -> Result<Option<[bool; 2]>, Fail> {
    let record = TextRecord::new(text.as_bytes())?;
    let artery = artery(alloc, record)?;
    let timing = timing(alloc, record)?;
    Ok(phases(alloc, &artery, &timing))
}

#[test]
fn phases_of_two_signals(rt: HostRuntime) -> Result<(), Fail> {
    assert!(rt; phases_of(rt.alloc(), FAR)? == Some([false, true]));
    Ok(())
}
