//! Arteries that break one rule each, and runs that were worked by hand.

use super::given::{four, pair, two};
use artery_model::{Artery, Dir, Flaw, Head, Link, Pair, Signal, Text, Units};
use narrow_fraction::Frac;
use std::alloc::{AllocError, Global};
use std::test::Fail;
use test_bed::{TextReader, TextRecord, all_told, flaw_text, with_changes};

/// Signals that are alike, and so are their links; a change is that behind link 1 alone, outbound.
static STREET: &str = "units metric
version 1
parts 100
cycle 100 100
least 0 0
equal 0
signals 2
links 1
names different
red 50
left 0 0
allowed 1
distance 500
speed 36 36
change none
";

/// Values outside their limits, and broken rules: the first is named.
static FAULTS: [&str; 25] = [
    "signals 1|parts 1 -> OutOfRange signal",
    "signals 17|links 16 -> OutOfRange signal",
    "parts 1 -> OutOfRange artery.parts",
    "cycle 0 3601 -> OutOfRange artery.cycle[1]",
    "names empty -> OutOfRange signal[1].name",
    "names control -> OutOfRange signal[1].name",
    "red 100|left 0 100 -> OutOfRange signal[1].red",
    "distance 30001|links 2 -> OutOfRange link[1].distance_out",
    "speed 36 301 -> OutOfRange link[1].speed_out[2]",
    "change 0 1 -> OutOfRange link[1].change_out",
    // The same of the second version. So many signals pass, and then a name stands twice.
    "version 2|least 1 0|equal 1|signals 24|links 23 -> RepeatedName signal[4].name",
    "version 2|least 1 0|equal 1|signals 25|links 24 -> OutOfRange signal",
    // What each version has.
    "version 0|signals 1 -> OutOfRange version",
    "version 3|signals 1 -> OutOfRange version",
    "least 1 0|equal 1 -> OutOfRange artery.least_out",
    "least 0 1|equal 1 -> OutOfRange artery.least_in",
    "equal 1|names empty -> OutOfRange artery.equal",
    "version 2|least 2 0 -> OutOfRange artery.least_out",
    "version 2|least 0 -1 -> OutOfRange artery.least_in",
    // Broken rules: the first is named.
    "links 2|names same -> CountMismatch link",
    "allowed 0|names same -> RepeatedName signal[2].name",
    "allowed 0|red 60|left 0 40 -> NoPattern signal[1].patterns",
    "red 60|left 0 40|cycle 90 60 -> NoGreen signal[1].left_in",
    "cycle 90 60|speed 50 36 -> LimitsCrossed artery.cycle",
    "speed 50 36 -> LimitsCrossed link[1].speed_out",
];

/// The name of the signal at this place, counted from 0. A control name has two lines.
fn name(names: &str, index: usize) -> &'static str {
    match names {
        "different" => match index {
            0 => "A",
            1 => "B",
            _ => "C",
        },
        "same" => "A",
        "control" => "A\nB",
        _ => "",
    }
}

fn signal(alloc: Global, record: TextRecord<'_>, index: usize) -> Result<Signal, Fail> {
    let places = [("red", 0), ("left", 0), ("left", 1), ("allowed", 0)];
    let [red, left_out, left_in, allowed] = four(record, places)?;
    let names = record.behind("names")?;
    Ok(Signal {
        name: Text::new(alloc, name(names, index))?,
        red,
        left_out,
        left_in,
        patterns: [allowed == 1, false, false, allowed == 1],
        clear_out: 3,
        clear_in: 4,
    })
}

fn change(record: TextRecord<'_>, index: u32) -> Result<Option<Pair>, Fail> {
    if index == 0 && record.behind("change")? != "none" {
        return Ok(Some(pair(record, "change", 1)?));
    }
    Ok(None)
}

fn link(record: TextRecord<'_>, index: u32) -> Result<Link, Fail> {
    let distance = record.small("distance", 0)?;
    let speed = pair(record, "speed", 1)?;
    Ok(Link {
        distance_out: distance,
        distance_in: distance,
        speed_out: speed,
        speed_in: speed,
        change_out: change(record, index)?,
        change_in: None,
    })
}

fn units(name: &str) -> Units {
    if name == "metric" {
        return Units::Metric;
    }
    Units::English
}

fn head_of(units: Units, sizes: [u32; 2], cycle: Pair, least: Pair, equal: bool) -> Head {
    Head {
        name: None,
        units,
        version: sizes[0],
        parts: sizes[1],
        cycle,
        ratio: Frac::whole(1),
        least_out: least.least,
        least_in: least.most,
        equal,
    }
}

fn head(record: TextRecord<'_>) -> Result<Head, Fail> {
    let sizes = two(record, [("version", 0), ("parts", 0)])?;
    let (cycle, least) = (pair(record, "cycle", 1)?, pair(record, "least", 1)?);
    let (name, equal) = (record.behind("units")?, record.is_set("equal")?);
    Ok(head_of(units(name), sizes, cycle, least, equal))
}

fn signals(alloc: Global, record: TextRecord<'_>, count: u32) -> Result<Vec<Signal>, Fail> {
    let mut signals = Vec::new(alloc);
    for index in 0..count {
        signals.push(signal(alloc, record, index as usize)?)?;
    }
    Ok(signals)
}

fn made(alloc: Global, record: TextRecord<'_>) -> Result<Result<Artery, Flaw>, Fail> {
    let counts = two(record, [("signals", 0), ("links", 0)])?;
    let signals = signals(alloc, record, counts[0])?;
    let mut links = Vec::new(alloc);
    for index in 0..counts[1] {
        links.push(link(record, index)?)?;
    }
    Ok(Artery::new(alloc, head(record)?, signals, links))
}

/// The artery of `STREET` with these changes.
fn changed(alloc: Global, changes: &str) -> Result<Artery, Fail> {
    let text = with_changes(alloc, STREET, changes)?;
    match made(alloc, TextRecord::new(text.as_bytes())?)? {
        Ok(artery) => Ok(artery),
        Err(_) => Err("no artery".into()),
    }
}

fn told(alloc: Global, made: Result<Artery, Flaw>) -> Result<String, AllocError> {
    match made {
        Ok(_) => String::from_str(alloc, "made"),
        Err(flaw) => flaw_text(alloc, flaw),
    }
}

/// Makes an artery, and tells why there is none.
#[derive(Clone, Copy, Drop)]
struct Arteries;

impl TextReader for Arteries {
    fn answer(&self, alloc: Global, text: &[u8]) -> Result<String, Fail> {
        Ok(told(alloc, made(alloc, TextRecord::new(text)?)?)?)
    }
}

/// Three signals with left turns, and units of feet and miles.
static FEET: &str =
    "units english|signals 3|links 2|red 40|left 5 10|distance 264|speed 30 60|change -33 66";

/// A least outbound band of the whole cycle, and equal bands.
static SECOND_VERSION: &str = "version 2|least 1 0|equal 1";

/// Whether there are two signals and 100 parts, and the cycle and the ratio are those of `STREET`.
fn has_street(artery: &Artery) -> bool {
    artery.count() == 2
        && artery.parts() == 100
        && artery.head().parts == 100
        && artery.signals().len() == 2
        && artery.links().len() == 1
        && artery.cycle().least == Frac::whole(100)
        && artery.ratio() == Frac::whole(1)
}

/// Whether this way signal 2 has its red, and the link takes half of the cycle with no limit of change.
fn has_way(artery: &Artery, dir: Dir) -> bool {
    artery.count() == 2
        && artery.red(dir, 2) == 50
        && artery.distance(dir, 1) == 500
        && artery.run_low(dir, 1) == Frac::whole(50)
        && artery.run_high(dir, 1) == Frac::whole(50)
        && artery.change(dir, 1).is_none()
}

#[test]
fn two_signals_500_metres_apart(rt: HostRuntime) -> Result<(), Fail> {
    let artery = changed(rt.alloc(), "")?;
    assert!(rt; has_street(&artery));
    assert!(rt; has_way(&artery, Dir::Outbound));
    assert!(rt; has_way(&artery, Dir::Inbound));
    Ok(())
}

/// Whether signal 3 has its reds, and signal 1 its left turns and clearances.
fn has_signals(artery: &Artery) -> bool {
    artery.count() == 3
        && artery.common_red(3) == 40
        && artery.red_out(3) == 50
        && artery.red_in(3) == 45
        && artery.left_against(Dir::Outbound, 1) == 10
        && artery.left_against(Dir::Inbound, 1) == 5
        && artery.clearance(Dir::Outbound, 1) == 3
        && artery.clearance(Dir::Inbound, 1) == 4
}

fn allows(artery: &Artery, pattern: u32) -> bool {
    let _ = artery.count();
    artery.allows(1, pattern)
}

/// Whether signal 1 allows the patterns 0 to 5.
fn allowed(artery: &Artery) -> [bool; 6] {
    [
        allows(artery, 0),
        allows(artery, 1),
        allows(artery, 2),
        allows(artery, 3),
        allows(artery, 4),
        allows(artery, 5),
    ]
}

/// By how much each of the four patterns shifts signal 1.
fn shifts(artery: &Artery) -> [u32; 4] {
    let _ = artery.count();
    [
        artery.shift(1, 1),
        artery.shift(1, 2),
        artery.shift(1, 3),
        artery.shift(1, 4),
    ]
}

/// Whether signal 1 allows the patterns 1 and 4 alone, and each of the four shifts it by its left turns.
fn has_patterns(artery: &Artery) -> bool {
    allowed(artery) == [false, true, false, false, true, false] && shifts(artery) == [0, 15, 10, 5]
}

/// Whether 264 feet take 3 to 6 seconds, inbound on link 2.
fn has_runs(artery: &Artery) -> bool {
    artery.count() == 3
        && artery.run_low(Dir::Inbound, 2) == Frac::whole(3)
        && artery.run_high(Dir::Inbound, 2) == Frac::whole(6)
}

/// Whether behind link 1 the pace may change so much outbound, and inbound as it likes.
fn has_changes(artery: &Artery) -> bool {
    if artery.count() != 3 || artery.change(Dir::Inbound, 1).is_some() {
        return false;
    }
    match artery.change(Dir::Outbound, 1) {
        Some(change) => {
            (change.least.num(), change.least.den()) == (-1, 160)
                && (change.most.num(), change.most.den()) == (1, 80)
        }
        None => false,
    }
}

#[test]
fn three_signals_with_left_turns_in_feet(rt: HostRuntime) -> Result<(), Fail> {
    let artery = changed(rt.alloc(), FEET)?;
    assert!(rt; has_signals(&artery));
    assert!(rt; has_patterns(&artery));
    assert!(rt; has_runs(&artery));
    assert!(rt; has_changes(&artery));
    Ok(())
}

fn has_second_version(artery: &Artery) -> bool {
    artery.head().version == 2
        && artery.least_band(Dir::Outbound) == Frac::whole(1)
        && artery.least_band(Dir::Inbound) == Frac::whole(0)
        && artery.equal()
}

#[test]
fn the_second_version_has_more(rt: HostRuntime) -> Result<(), Fail> {
    let artery = changed(rt.alloc(), SECOND_VERSION)?;
    assert!(rt; has_second_version(&artery));
    Ok(())
}

#[test]
fn the_first_fault_is_named(rt: HostRuntime) -> Result<(), Fail> {
    all_told(rt.alloc(), &Arteries, STREET, &FAULTS)
}
