//! Worked rows: two signals, 100 parts of 2 ticks, and runs of half a cycle.

use super::given;
use artery_model::Artery;
use band_measure::{Widest, base_holds, widest};
use progression::Dir;
use std::alloc::Global;
use std::test::Fail;
use test_bed::{TextRecord, plain_head, two_signals, with_changes};
use time_space::Timing;

/// Its firsts and bands are never right.
static TIMING: &str = "grid 2
unit 2
pattern 1 1
red 0 0
run_out 100
run_in 100
first 7 7
band 150 150
";

fn timing(alloc: Global, change: &str) -> Result<Timing, Fail> {
    let text = with_changes(alloc, TIMING, change)?;
    given::timing(alloc, TextRecord::new(text.as_bytes())?)
}

/// The widest pair of a direction, where the rules that don't speak of bands hold.
fn widest_of(artery: &Artery, timing: &Timing, dir: Dir) -> Result<Option<Widest>, Fail> {
    match base_holds(artery, timing) {
        Ok(()) => Ok(widest(artery, timing, dir)),
        Err(_) => Err("a rule fails".into()),
    }
}

/// The widest pairs outbound and inbound, with so many parts of both reds and this change of the timing.
fn measured(alloc: Global, parts: u32, change: &str) -> Result<[Option<Widest>; 2], Fail> {
    let artery = two_signals(alloc, plain_head(), parts, 500)?;
    let timing = timing(alloc, change)?;
    let outbound = widest_of(&artery, &timing, Dir::Outbound)?;
    Ok([outbound, widest_of(&artery, &timing, Dir::Inbound)?])
}

/// So many parts of both reds, a change of the timing, and the widest pairs outbound and inbound.
type BandRow = (u32, &'static str, [Option<Widest>; 2]);

/// Overlapping, filled and touching greens, and none of both.
static ROWS: [BandRow; 4] = [
    (
        50,
        "red 0 60",
        [
            Some(Widest {
                first: 100,
                band: 60,
            }),
            Some(Widest { first: 0, band: 60 }),
        ],
    ),
    (
        50,
        "red 0 100",
        [
            Some(Widest {
                first: 100,
                band: 100,
            }),
            Some(Widest {
                first: 0,
                band: 100,
            }),
        ],
    ),
    (
        50,
        "red 0 0",
        [
            Some(Widest { first: 0, band: 0 }),
            Some(Widest { first: 0, band: 0 }),
        ],
    ),
    (80, "red 0 0", [None, None]),
];

#[test]
fn widest_of_two_signals(rt: HostRuntime) -> Result<(), Fail> {
    for (parts, change, expected) in ROWS {
        assert!(rt; measured(rt.alloc(), parts, change)? == expected);
    }
    Ok(())
}
