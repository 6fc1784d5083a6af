//! The streets and timings of the worked rows: two signals, parts 100, unless a row says otherwise.

pub use crate::tests::given::timing;
use crate::tests::given::{four, pair, street, two};
use artery_model::{Artery, Pair};
use narrow_fraction::Frac;
use std::alloc::{AllocError, Global};
use std::test::Fail;
use test_bed::{
    SampleHead, SampleLink, SampleSignal, TextRecord, WHOLE_GREEN, plain_head, plain_link,
    plain_signal, with_changes,
};

/// Two signals 500 metres apart, and bands as wide as their greens. The inbound band counts so many halves, least bands are so many
/// tenths of the cycle; the red in parts, the lefts and the clearance are those of signal 2. A part has two ticks.
pub fn street_text(alloc: Global) -> Result<String, AllocError> {
    format!(in alloc;
        "version 1\nhalves 2\nleast 0 0\nequal 0\napart 500\nparts 50\nleft 0\nclear 0\n{}",
        WHOLE_GREEN
    )
}

/// The text of these streets with these changes.
pub fn street_with(alloc: Global, changes: &str) -> Result<String, Fail> {
    let street = street_text(alloc)?;
    Ok(with_changes(alloc, street.as_str(), changes)?)
}

/// Changes of that text: 250 metres, where one band alone takes a green.
pub static HALF_BAND: &str = "apart 250|red 0 50|run_out 50|run_in 50|first 100 150|band 100 0";

fn head_of(version: u32, ratio: Frac, least: Pair, equal: bool) -> SampleHead {
    SampleHead {
        version,
        ratio,
        least_out: least.least,
        least_in: least.most,
        equal,
        ..plain_head()
    }
}

fn head(record: TextRecord<'_>) -> Result<SampleHead, Fail> {
    let [version, equal] = two(record, [("version", 0), ("equal", 0)])?;
    let ratio = record.quotient("halves", 0, 2)?;
    let least = pair(record, "least", 10)?;
    Ok(head_of(version, ratio, least, equal == 1))
}

/// What differs between signals: the red, both left turns and the outbound clearance.
#[derive(Clone, Copy)]
pub struct RedParts {
    red: u32,
    left: u32,
    clear_out: u32,
}

/// A red of so many parts, and nothing else.
pub fn parts_of(red: u32) -> RedParts {
    RedParts {
        red,
        left: 0,
        clear_out: 0,
    }
}

pub fn signal(name: &'static str, parts: RedParts) -> SampleSignal {
    SampleSignal {
        left_out: parts.left,
        left_in: parts.left,
        patterns: [true, false, true, false],
        clear_out: parts.clear_out,
        ..plain_signal(name, parts.red)
    }
}

/// The street of these signals and links whose other values the record has.
pub fn street_of(
    alloc: Global,
    record: TextRecord<'_>,
    signals: &[SampleSignal],
    links: &[SampleLink],
) -> Result<Artery, Fail> {
    street(alloc, head(record)?, signals, links)
}

pub fn artery(alloc: Global, record: TextRecord<'_>) -> Result<Artery, Fail> {
    let places = [("parts", 0), ("left", 0), ("clear", 0), ("apart", 0)];
    let [red, left, clear_out, apart] = four(record, places)?;
    let second = RedParts {
        red,
        left,
        clear_out,
    };
    let signals = [signal("A", parts_of(50)), signal("B", second)];
    let links = [plain_link(apart)];
    street_of(alloc, record, &signals, &links)
}
