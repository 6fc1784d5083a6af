//! What the streets and timings of these tests are made of, through functions with nothing said of them.

use artery_model::{Artery, Pair};
use std::alloc::Global;
use std::test::Fail;
use test_bed::{SampleHead, SampleLink, SampleSignal, TextRecord, sample_street};
use time_space::Timing;

/// A name, and the place of a number behind it, counted from 0.
type ListPlace = (&'static str, usize);

fn one(record: TextRecord<'_>, place: ListPlace) -> Result<u32, Fail> {
    record.small(place.0, place.1)
}

pub fn two(record: TextRecord<'_>, places: [ListPlace; 2]) -> Result<[u32; 2], Fail> {
    let [first, second] = places;
    Ok([one(record, first)?, one(record, second)?])
}

/// Four numbers. Each question mark is dear to prove, so whoever needs so many asks for them at once.
pub fn four(record: TextRecord<'_>, places: [ListPlace; 4]) -> Result<[u32; 4], Fail> {
    let [first, second, third, fourth] = places;
    let [first, second] = two(record, [first, second])?;
    let [third, fourth] = two(record, [third, fourth])?;
    Ok([first, second, third, fourth])
}

/// The two numbers behind a name over that denominator.
pub fn pair(record: TextRecord<'_>, name: &str, den: i128) -> Result<Pair, Fail> {
    let least = record.quotient(name, 0, den)?;
    let most = record.quotient(name, 1, den)?;
    Ok(Pair { least, most })
}

pub fn street(
    alloc: Global,
    head: SampleHead,
    signals: &[SampleSignal],
    links: &[SampleLink],
) -> Result<Artery, Fail> {
    match sample_street(alloc, head, signals, links) {
        Ok(artery) => Ok(artery),
        Err(_) => Err("no artery".into()),
    }
}

pub fn timing(alloc: Global, record: TextRecord<'_>) -> Result<Timing, Fail> {
    match record.timing(alloc)? {
        Some(timing) => Ok(timing),
        None => Err("no timing".into()),
    }
}
