//! Limits of speed that were moved by the second program, tests/second/narrow.py, on one link of two signals.

use super::given::{pair, street, two};
use artery_model::{Artery, Pair, Units};
use progression::Dir;
use speed_steps::{Way, limits_changed, stays, street_moved};
use std::alloc::{AllocError, Global};
use std::test::Fail;
use test_bed::{
    SampleHead, SampleLink, TextReader, TextRecord, all_told, plain_head, plain_link, plain_signal,
    range,
};

/// A length in both directions, outbound limits of speed in tenths, and inbound ones of 50; English where `english` is 1, outwards where
/// `outwards` is 1.
static LINK: &str = "english 0
outwards 0
apart 500
speed 373 487
";

/// Changes of it: the moved outbound limits, how many limits of the link are others, and which directions stay.
static MOVED: [&str; 13] = [
    "apart 500 -> 9000/241 to 1800/37 changed 2 in",
    "outwards 1 -> 6000/161 to 2000/41 changed 2",
    "english 1 -> 2500/67 to 5000/103 changed 2 in",
    "english 1|outwards 1 -> 1000/27 to 2500/51 changed 2",
    "apart 997|speed 101 301 -> 9970/987 to 4985/166 changed 2 in",
    "apart 997|speed 101 301|outwards 1 -> 4985/494 to 9970/331 changed 4",
    "apart 997|speed 13 52 -> 997/766 to 997/192 changed 2 in",
    "apart 4999|speed 10 23 -> 1/1 to 23/10 changed 0 out in",
    "apart 4999|speed 13 23|outwards 1 -> 13/10 to 23/10 changed 2 out",
    "apart 997|speed 10 3000|outwards 1 -> 1/1 to 300/1 changed 2",
    "apart 4999|speed 300 2999|outwards 1 -> 4999/167 to 14997/50 changed 4",
    "speed 360 360 -> 36/1 to 36/1 changed 0 out in",
    "english 1|apart 15000|speed 1999 3000|outwards 1 -> 9375/47 to 300/1 changed 1",
];

fn units(english: u32) -> Units {
    match english {
        0 => Units::Metric,
        _ => Units::English,
    }
}

fn head(english: u32) -> SampleHead {
    SampleHead {
        units: units(english),
        ..plain_head()
    }
}

fn link(distance: u32, speed_out: Pair) -> SampleLink {
    SampleLink {
        speed_out,
        speed_in: range(50, 50),
        ..plain_link(distance)
    }
}

fn artery(alloc: Global, record: TextRecord<'_>) -> Result<Artery, Fail> {
    let [english, distance] = two(record, [("english", 0), ("apart", 0)])?;
    let speed = pair(record, "speed", 10)?;
    let signals = [plain_signal("A", 50), plain_signal("B", 50)];
    street(alloc, head(english), &signals, &[link(distance, speed)])
}

fn way(outwards: u32) -> Way {
    match outwards {
        0 => Way::Inwards,
        _ => Way::Outwards,
    }
}

fn stays_word(way: Way, artery: &Artery, dir: Dir, word: &'static str) -> &'static str {
    artery.known_valid();
    if stays(way, artery, dir, 1) { word } else { "" }
}

/// The outbound limits of link 1.
fn limits(artery: &Artery) -> Result<Pair, Fail> {
    match artery.links().first() {
        Some(link) => Ok(link.speed_out),
        None => Err("no link".into()),
    }
}

fn limits_text(alloc: Global, limits: Pair) -> Result<String, AllocError> {
    let (least, most) = (limits.least, limits.most);
    format!(in alloc;
        "{}/{} to {}/{}",
        least.num(),
        least.den(),
        most.num(),
        most.den()
    )
}

fn moved(alloc: Global, way: Way, artery: &Artery) -> Result<Pair, Fail> {
    match street_moved(alloc, way, artery) {
        Ok(artery) => limits(&artery),
        Err(_) => Err("no memory".into()),
    }
}

fn told(alloc: Global, way: Way, artery: &Artery) -> Result<String, Fail> {
    let limits = limits_text(alloc, moved(alloc, way, artery)?)?;
    let changed = limits_changed(way, artery);
    let out = stays_word(way, artery, Dir::Outbound, " out");
    let back = stays_word(way, artery, Dir::Inbound, " in");
    Ok(format!(in alloc; "{} changed {changed}{out}{back}", limits.as_str())?)
}

/// Moves the limits of a street of one link.
#[derive(Clone, Copy, Drop)]
struct Mover;

impl TextReader for Mover {
    fn answer(&self, alloc: Global, text: &[u8]) -> Result<String, Fail> {
        let record = TextRecord::new(text)?;
        let outwards = record.small("outwards", 0)?;
        let artery = artery(alloc, record)?;
        told(alloc, way(outwards), &artery)
    }
}

#[test]
fn limits_are_moved(rt: HostRuntime) -> Result<(), Fail> {
    all_told(rt.alloc(), &Mover, LINK, &MOVED)
}
