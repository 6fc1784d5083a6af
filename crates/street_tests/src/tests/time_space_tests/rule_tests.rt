//! Which rule a timing breaks first.

use super::streets::{artery, parts_of, signal, street_of, street_text, street_with, timing};
use artery_model::Artery;
use std::alloc::{AllocError, Global};
use std::test::Fail;
use test_bed::{SampleLink, TextReader, TextRecord, all_told, plain_link, range};
use time_space::{Failing, Timing, base_holds, holds};

/// Changes of `street_text`, and the first rule that is broken.
static TWO_SIGNALS: [&str; 15] = [
    " -> good",
    "band 101 100 -> Outbound { signal: 1, tick: 201 }",
    "band 100 101 -> Inbound { signal: 2, tick: 301 }",
    "first 50 200|band 0 0 -> Outbound { signal: 1, tick: 50 }",
    "grid 1 -> CycleLong",
    "grid 3 -> CycleShort",
    "run_out 99 -> Fast { dir: Outbound, link: 1 }",
    "run_in 101 -> Slow { dir: Inbound, link: 1 }",
    "pattern 1 2 -> Pattern { signal: 2 }",
    "apart 250|red 0 50|run_out 50|run_in 50|first 100 150|band 100 0 -> good",
    "apart 250|parts 40|left 10|red 0 50|run_out 50|run_in 50|first 100 150|band 100 0 -> Outbound { signal: 2, tick: 231 }",
    "apart 250|parts 40|left 10|red 0 50|run_out 50|run_in 50|first 100 150|band 100 0|pattern 1 3 -> good",
    "clear 10 -> Outbound { signal: 2, tick: 180 }",
    "halves 1|band 100 49 -> Ratio",
    "halves 1|band 100 50 -> good",
];

/// Lines without a width, half a cycle from signal to signal.
static LINES: &str = "grid 2
unit 2
pattern 1 1 1
red 0 100 0
run_out 100 100
run_in 100 100
first 100 100
band 0 0
";

/// Changes of `LINES`, and the first rule that is broken.
static THREE_SIGNALS: [&str; 22] = [
    " -> good",
    "run_out 100 111 -> Rise { dir: Outbound, link: 1 }",
    "run_in 100 89 -> Drop { dir: Inbound, link: 1 }",
    "run_out 100 110|run_in 100 90 -> Inbound { signal: 2, tick: 190 }",
    // Two rules: the first of them.
    "pattern 1 2 1|grid 3 -> Pattern { signal: 2 }",
    "grid 3|run_out 70 100 -> CycleShort",
    "grid 1|run_out 24 100 -> CycleLong",
    "run_out 201 200|run_in 50 49 -> Fast { dir: Inbound, link: 2 }",
    "run_out 100 111|run_in 200 201 -> Slow { dir: Inbound, link: 2 }",
    "run_out 100 89|run_in 100 111 -> Rise { dir: Inbound, link: 1 }",
    "run_in 100 89|band 100 49 -> Drop { dir: Inbound, link: 1 }",
    "band 101 50 -> Ratio",
    "run_out 100 101|band 100 101 -> Outbound { signal: 3, tick: 401 }",
    // One rule both ways: outbound.
    "run_out 50 49|run_in 49 50 -> Fast { dir: Outbound, link: 2 }",
    "run_out 200 201|run_in 201 200 -> Slow { dir: Outbound, link: 2 }",
    "run_out 100 111|run_in 100 111 -> Rise { dir: Outbound, link: 1 }",
    "run_out 100 89|run_in 100 89 -> Drop { dir: Outbound, link: 1 }",
    // One rule at two numbers: the first that the band or the list comes to.
    "pattern 1 2 2 -> Pattern { signal: 2 }",
    "run_out 49 49 -> Fast { dir: Outbound, link: 1 }",
    "run_in 201 201 -> Slow { dir: Inbound, link: 1 }",
    "run_out 101 100|band 100 100 -> Outbound { signal: 2, tick: 301 }",
    "run_in 100 101|band 100 100 -> Inbound { signal: 2, tick: 301 }",
];

/// What the wide bands break of version 2: the inbound band counts so many halves, and least bands are so many tenths. Each band is up
/// to 100 of 200 ticks wide.
static LEAST_AND_EQUAL: [&str; 12] = [
    " -> good",
    "least 5 4 -> good",
    "least 4 5 -> Least { dir: Inbound }",
    "least 6 0 -> Least { dir: Outbound }",
    "equal 1 -> Equal",
    "equal 1|band 99 100 -> Equal",
    "least 5 5|equal 1|band 100 100 -> good",
    // Two rules: the first of them.
    "halves 4|least 6 6|band 50 101 -> Ratio",
    "least 6 6|equal 1 -> Least { dir: Outbound }",
    "least 5 5|equal 1 -> Least { dir: Inbound }",
    "equal 1|band 101 100 -> Equal",
    "least 6 0|band 101 100 -> Least { dir: Outbound }",
];

/// Changes where the bands are too wide and a first line is in the red.
static NO_BAND: [&str; 4] = [
    " -> good",
    "grid 1 -> CycleLong",
    "run_out 99|run_in 101 -> Fast { dir: Outbound, link: 1 }",
    "pattern 1 2 -> Pattern { signal: 2 }",
];

/// The first rule that a timing breaks, or `good`.
fn told(alloc: Global, rules: Result<(), Failing>) -> Result<String, AllocError> {
    match rules {
        Ok(()) => String::from_str(alloc, "good"),
        Err(failing) => format!(in alloc; "{failing:?}"),
    }
}

/// Judges a street of two signals and its timing, by all rules or by those of its base.
#[derive(Clone, Copy, Drop)]
struct Rules {
    speak_of_bands: bool,
}

/// What the rules say, with nothing said of it.
fn judged(artery: &Artery, timing: &Timing, speak_of_bands: bool) -> Result<(), Failing> {
    if speak_of_bands {
        holds(artery, timing)
    } else {
        base_holds(artery, timing)
    }
}

fn judged_told(
    alloc: Global,
    artery: &Artery,
    timing: &Timing,
    speak_of_bands: bool,
) -> Result<String, Fail> {
    Ok(told(alloc, judged(artery, timing, speak_of_bands))?)
}

impl TextReader for Rules {
    fn answer(&self, alloc: Global, text: &[u8]) -> Result<String, Fail> {
        let record = TextRecord::new(text)?;
        let artery = artery(alloc, record)?;
        let timing = timing(alloc, record)?;
        judged_told(alloc, &artery, &timing, self.speak_of_bands)
    }
}

/// Judges a timing of this street.
#[derive(Clone, Copy, Drop)]
struct RulesOf<'a> {
    artery: &'a Artery,
}

impl TextReader for RulesOf<'_> {
    fn answer(&self, alloc: Global, text: &[u8]) -> Result<String, Fail> {
        let timing = timing(alloc, TextRecord::new(text)?)?;
        judged_told(alloc, self.artery, &timing, true)
    }
}

/// Three signals, with speeds of 18 to 72 km/h, where the pace may change by 10 s/km from link 1 to link 2, and the inbound band
/// is at least half of the outbound one.
fn long_artery(alloc: Global) -> Result<Artery, Fail> {
    let after = SampleLink {
        speed_out: range(18, 72),
        speed_in: range(18, 72),
        ..plain_link(500)
    };
    let before = SampleLink {
        change_out: Some(range(-10, 10)),
        change_in: Some(range(-10, 10)),
        ..after
    };
    let plain = parts_of(50);
    let signals = [signal("A", plain), signal("B", plain), signal("C", plain)];
    let halved = street_with(alloc, "halves 1")?;
    street_of(
        alloc,
        TextRecord::new(halved.as_bytes())?,
        &signals,
        &[before, after],
    )
}

/// Judges the timing of two signals with each of the cases, by all rules or by those of its base.
fn two_are_judged(
    alloc: Global,
    changes: &str,
    speak_of_bands: bool,
    cases: &[&str],
) -> Result<(), Fail> {
    let street = street_with(alloc, changes)?;
    all_told(alloc, &Rules { speak_of_bands }, street.as_str(), cases)
}

/// The limits of three signals alone, and then two rules broken at once, or one at two places: the first is named.
fn three_are_judged(alloc: Global, artery: &Artery) -> Result<(), Fail> {
    all_told(alloc, &RulesOf { artery }, LINES, &THREE_SIGNALS)
}

/// A pattern that isn't allowed, and too few signals.
fn two_of_three_are_judged(alloc: Global, artery: &Artery) -> Result<(), Fail> {
    let street = street_text(alloc)?;
    let cases = ["pattern 1 2 -> Shape"];
    all_told(alloc, &RulesOf { artery }, street.as_str(), &cases)
}

fn long_are_judged(alloc: Global) -> Result<(), Fail> {
    let artery = long_artery(alloc)?;
    three_are_judged(alloc, &artery)?;
    two_of_three_are_judged(alloc, &artery)
}

#[test]
fn the_first_broken_rule_is_named(rt: HostRuntime) -> Result<(), Fail> {
    let alloc = rt.alloc();
    two_are_judged(alloc, "", true, &TWO_SIGNALS)?;
    long_are_judged(alloc)?;
    two_are_judged(alloc, "version 2|band 100 99", true, &LEAST_AND_EQUAL)?;
    // Firsts and bands play no part in the rules of a base.
    two_are_judged(alloc, "first 50 200|band 101 101", false, &NO_BAND)
}
