//! Worked rows: 100 parts in 100 seconds, two ticks a part and a second, so that a cycle has 200 ticks. Signals 500 metres apart, red for half
//! of the cycle in turn, each line half a cycle from one to the next. Lines stand amid the greens unless a row says otherwise.

use artery_model::Artery;
use link_space::{LinkFailing, LinkTiming, link_holds, link_value};
use narrow_fraction::Frac;
use std::alloc::{AllocError, Global};
use std::test::Fail;
use test_bed::{
    SampleLink, SampleSignal, TextReader, TextRecord, all_told, fraction, plain_link, plain_signal,
    sample_street, with_ratio,
};
use time_space::LIMIT;

/// Two signals: the inbound bands count so many halves; the red in parts, the left turns and the clearance are those of signal 2.
static SHORT: &str = "links 1
halves 2
parts 50
left 0 0
clear 0
apart 500 500
grid 2
unit 2
pattern 1 1
red 0 100
run_out 100
run_in 100
first 150 250
half_out 50
half_in 50
";

/// Three signals, the last with a red of so many parts.
static LONG: &str = "links 2
halves 2
parts 50
grid 2
unit 2
pattern 1 1 1
red 0 100 0
run_out 100 100
run_in 100 100
first 150 350
half_out 50 50
half_in 50 50
";

/// Changes of `SHORT`, and what becomes of the timing.
static ONE_LINK: [&str; 28] = [
    " -> 1/1",
    "grid 1 -> CycleLong",
    "run_out 99 -> Fast { dir: Outbound, link: 1 }",
    // One tick wider than the green, at both signals: the one that the line comes to first.
    "half_out 51 -> outbound link 1 signal 1 tick 99",
    "half_in 51 -> inbound link 1 signal 2 tick 199",
    "half_out 51|half_in 51 -> outbound link 1 signal 1 tick 99",
    // Wider at the farther signal alone, before its green and after.
    "red 0 110 -> outbound link 1 signal 2 tick 200",
    "red 0 90 -> outbound link 1 signal 2 tick 291",
    "red 0 90|first 150 235|half_out 0|half_in 45 -> inbound link 1 signal 1 tick 290",
    // A line at the first tick of a red, and a band about it.
    "first 200 250|half_out 0 -> 1/2",
    "first 200 250|half_out 1 -> outbound link 1 signal 1 tick 201",
    // The inbound band is at least half of the outbound one, or at most twice.
    "halves 1|half_in 25 -> 5/8",
    "halves 1|half_in 24 -> ratio 1",
    "halves 4|half_out 20|half_in 40 -> 1/1",
    "halves 4|half_out 20|half_in 41 -> ratio 1",
    // Two rules broken: the first of them.
    "halves 1|run_out 99|half_in 24 -> Fast { dir: Outbound, link: 1 }",
    "halves 1|half_out 60|half_in 24 -> ratio 1",
    // The queue at the second signal wants ten parts to clear before the outbound band comes, so that the line crosses it after 80 ticks.
    "clear 10|red 0 80|first 150 240|half_in 40 -> 9/10",
    "clear 10|red 0 80|first 150 240|half_in 41 -> inbound link 1 signal 2 tick 281",
    "red 0 80|first 150 240|half_in 40 -> outbound link 1 signal 2 tick 281",
    // Beside 40 parts of common red the second signal has a left turn of 10 parts against the inbound traffic, and one of 20 against the
    // outbound: inbound it is red for 100 ticks, outbound for 120.
    // Outbound the red begins before the common one, inbound with it.
    "parts 40|left 10 20|red 0 130|first 150 265|half_out 40|half_in 35 -> 3/4",
    "parts 40|left 10 20|red 0 130|first 150 265|half_out 41|half_in 35 -> outbound link 1 signal 2 tick 209",
    "parts 40|left 10 20|red 0 130|first 150 265|half_out 40|half_in 36 -> inbound link 1 signal 2 tick 229",
    // The other way round, and both before: the band lies in that green too.
    "parts 40|left 10 20|pattern 1 2|red 0 130|first 150 265|half_out 40|half_in 35 -> outbound link 1 signal 2 tick 210",
    "parts 40|left 10 20|pattern 1 4|red 0 130|first 150 265|half_out 40|half_in 35 -> 3/4",
    // 500 metres one way, and 600 the other.
    "apart 500 600|run_in 120|first 150 240|half_in 40 -> 9/10",
    "apart 500 600|run_in 120|first 150 240|half_in 41 -> inbound link 1 signal 2 tick 199",
    "apart 500 600|first 150 240|half_in 40 -> Fast { dir: Inbound, link: 1 }",
];

/// Which of two links is named, and what two links are worth.
static TWO_LINKS: [&str; 8] = [
    " -> 2/1",
    // The last signal is green for 40 ticks alone.
    "parts 80|red 0 100 170|half_out 50 20|half_in 50 20 -> 7/5",
    "parts 80|red 0 100 170|half_out 50 21|half_in 50 20 -> outbound link 2 signal 3 tick 329",
    "half_out 51 51 -> outbound link 1 signal 1 tick 99",
    "half_out 50 51|half_in 51 50 -> outbound link 2 signal 2 tick 199",
    "half_in 51 51 -> inbound link 1 signal 2 tick 399",
    "half_in 50 51 -> inbound link 2 signal 3 tick 299",
    "halves 1|half_out 51 50|half_in 50 24 -> ratio 2",
];

fn signal(name: &'static str, red: u32) -> SampleSignal {
    SampleSignal {
        patterns: [true, true, true, true],
        ..plain_signal(name, red)
    }
}

/// The street of these signals and links, with the record's ratio.
fn street(
    alloc: Global,
    record: TextRecord<'_>,
    signals: &[SampleSignal],
    links: &[SampleLink],
) -> Result<Artery, Fail> {
    let head = with_ratio(fraction(record.number("halves", 0)?, 2)?);
    match sample_street(alloc, head, signals, links) {
        Ok(artery) => Ok(artery),
        Err(_) => Err("no artery".into()),
    }
}

fn short_artery(alloc: Global, record: TextRecord<'_>) -> Result<Artery, Fail> {
    let next = SampleSignal {
        left_out: record.small("left", 0)?,
        left_in: record.small("left", 1)?,
        clear_out: record.small("clear", 0)?,
        ..signal("B", record.small("parts", 0)?)
    };
    let link = SampleLink {
        distance_in: record.small("apart", 1)?,
        ..plain_link(record.small("apart", 0)?)
    };
    street(alloc, record, &[signal("A", 50), next], &[link])
}

fn long_artery(alloc: Global, record: TextRecord<'_>) -> Result<Artery, Fail> {
    let last = signal("C", record.small("parts", 0)?);
    let signals = [signal("A", 50), signal("B", 50), last];
    street(alloc, record, &signals, &[plain_link(500), plain_link(500)])
}

/// The grid, the unit and where the first lines cross.
fn places(record: TextRecord<'_>) -> Result<[u128; 4], Fail> {
    let (grid, unit) = (record.natural("grid", 0)?, record.natural("unit", 0)?);
    let (first_out, first_in) = (record.natural("first", 0)?, record.natural("first", 1)?);
    Ok([grid, unit, first_out, first_in])
}

/// The patterns and the reds.
fn reds(alloc: Global, record: TextRecord<'_>) -> Result<(Vec<u32>, Vec<u128>), Fail> {
    let patterns = record.smalls(alloc, "pattern")?;
    Ok((patterns, record.naturals(alloc, "red")?))
}

/// The numbers behind two names.
fn both(
    alloc: Global,
    record: TextRecord<'_>,
    out: &str,
    back: &str,
) -> Result<(Vec<u128>, Vec<u128>), Fail> {
    let out = record.naturals(alloc, out)?;
    Ok((out, record.naturals(alloc, back)?))
}

fn timing_of(
    places: [u128; 4],
    reds: (Vec<u32>, Vec<u128>),
    runs: (Vec<u128>, Vec<u128>),
    halves: (Vec<u128>, Vec<u128>),
) -> Option<LinkTiming> {
    let [grid, unit, first_out, first_in] = places;
    LinkTiming::new(
        grid, unit, reds.0, reds.1, runs.0, runs.1, first_out, first_in, halves.0, halves.1,
    )
}

fn timing(alloc: Global, record: TextRecord<'_>) -> Result<Option<LinkTiming>, Fail> {
    let places = places(record)?;
    let reds = reds(alloc, record)?;
    let runs = both(alloc, record, "run_out", "run_in")?;
    let halves = both(alloc, record, "half_out", "half_in")?;
    Ok(timing_of(places, reds, runs, halves))
}

fn failing_text(alloc: Global, failing: LinkFailing) -> Result<String, AllocError> {
    match failing {
        LinkFailing::Base(failing) => format!(in alloc; "{failing:?}"),
        LinkFailing::Ratio { link } => format!(in alloc; "ratio {link}"),
        LinkFailing::Outbound { link, signal, tick } => {
            format!(in alloc; "outbound link {link} signal {signal} tick {tick}")
        }
        LinkFailing::Inbound { link, signal, tick } => {
            format!(in alloc; "inbound link {link} signal {signal} tick {tick}")
        }
    }
}

fn value_text(alloc: Global, value: Frac) -> Result<String, AllocError> {
    let (num, den) = (value.num(), value.den());
    format!(in alloc; "{num}/{den}")
}

/// The value of a timing where it is good, and else the first rule that it breaks.
fn judged_timing(
    alloc: Global,
    artery: &Artery,
    timing: &LinkTiming,
) -> Result<String, AllocError> {
    match link_holds(artery, timing) {
        Ok(()) => value_text(alloc, link_value(artery, timing)),
        Err(failing) => failing_text(alloc, failing),
    }
}

/// The same of the record's timing.
fn judged(alloc: Global, artery: &Artery, record: TextRecord<'_>) -> Result<String, Fail> {
    match timing(alloc, record)? {
        Some(timing) => Ok(judged_timing(alloc, artery, &timing)?),
        None => Err("no timing".into()),
    }
}

fn artery(alloc: Global, record: TextRecord<'_>) -> Result<Artery, Fail> {
    match record.small("links", 0)? {
        1 => short_artery(alloc, record),
        _ => long_artery(alloc, record),
    }
}

/// Judges a street's timing.
#[derive(Clone, Copy, Drop)]
struct Judge;

impl TextReader for Judge {
    fn answer(&self, alloc: Global, text: &[u8]) -> Result<String, Fail> {
        let record = TextRecord::new(text)?;
        let artery = artery(alloc, record)?;
        judged(alloc, &artery, record)
    }
}

/// Judges a timing of two signals on a street of three.
#[derive(Clone, Copy, Drop)]
struct Longer;

impl TextReader for Longer {
    fn answer(&self, alloc: Global, text: &[u8]) -> Result<String, Fail> {
        let artery = long_artery(alloc, TextRecord::new(LONG.as_bytes())?)?;
        judged(alloc, &artery, TextRecord::new(text)?)
    }
}

#[test]
fn the_first_broken_rule_is_named(rt: HostRuntime) -> Result<(), Fail> {
    all_told(rt.alloc(), &Judge, SHORT, &ONE_LINK)?;
    all_told(rt.alloc(), &Longer, SHORT, &[" -> Shape"])?;
    all_told(rt.alloc(), &Judge, LONG, &TWO_LINKS)
}

#[test]
fn numbers_of_a_link_timing(rt: HostRuntime) -> Result<(), Fail> {
    let alloc = rt.alloc();
    let rows = [
        (2, [1, 1], true),
        (1, [1, 1], false),
        (2, [LIMIT - 1, LIMIT - 1], true),
        (2, [LIMIT, 0], false),
        (2, [0, LIMIT], false),
    ];
    for (unit, halves, is_made) in rows {
        let made = LinkTiming::new(
            1,
            unit,
            vec![in alloc; 1, 4]?,
            vec![in alloc; 0, 0]?,
            vec![in alloc; 0]?,
            vec![in alloc; 0]?,
            0,
            0,
            vec![in alloc; halves[0]]?,
            vec![in alloc; halves[1]]?,
        );
        assert!(rt; made.is_some() == is_made);
    }
    Ok(())
}
