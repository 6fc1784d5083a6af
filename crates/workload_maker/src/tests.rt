//! The arteries of two seeds, worked out apart from the program.

use crate::draws::Draws;
use crate::make_artery;
use artery_model::{Artery, Head, Link, Pair, Signal, Units};
use narrow_fraction::Frac;
use std::alloc::Global;
use std::process::Abort;

/// A signal's name, red, outbound and inbound left turn.
type WorkRow = (&'static str, u32, u32, u32);

const SEED_0: [WorkRow; 2] = [("S1", 32, 0, 5), ("S2", 46, 10, 10)];

const LENGTHS_0: [u32; 1] = [300];

const LAST_SEED: [WorkRow; 16] = [
    ("S1", 49, 10, 5),
    ("S2", 32, 0, 10),
    ("S3", 36, 10, 5),
    ("S4", 44, 10, 10),
    ("S5", 38, 5, 10),
    ("S6", 49, 10, 5),
    ("S7", 44, 0, 5),
    ("S8", 44, 10, 5),
    ("S9", 49, 0, 10),
    ("S10", 50, 5, 5),
    ("S11", 43, 10, 10),
    ("S12", 33, 0, 5),
    ("S13", 36, 0, 5),
    ("S14", 39, 0, 10),
    ("S15", 38, 0, 10),
    ("S16", 30, 10, 10),
];

const LAST_LENGTHS: [u32; 15] = [
    320, 240, 230, 360, 280, 270, 390, 290, 580, 200, 220, 420, 360, 520, 600,
];

fn is_row(signal: &Signal, row: &WorkRow) -> bool {
    let (name, red, left_out, left_in) = *row;
    signal.name.as_str() == name
        && [signal.red, signal.left_out, signal.left_in] == [red, left_out, left_in]
        && signal.patterns == [true; 4]
        && [signal.clear_out, signal.clear_in] == [0, 0]
}

fn has_signals(artery: &Artery, rows: &[WorkRow]) -> bool {
    for (signal, row) in artery.signals().iter().zip(rows) {
        if !is_row(signal, row) {
            return false;
        }
    }
    artery.signals().len() == rows.len()
}

fn is_range(pair: Pair, least: i64, most: i64) -> bool {
    pair.least == Frac::whole(least) && pair.most == Frac::whole(most)
}

fn is_link(link: &Link, length: u32) -> bool {
    [link.distance_out, link.distance_in] == [length, length]
        && is_range(link.speed_out, 40, 60)
        && is_range(link.speed_in, 40, 60)
        && link.change_out.is_none()
        && link.change_in.is_none()
}

fn has_links(artery: &Artery, lengths: &[u32]) -> bool {
    for (link, length) in artery.links().iter().zip(lengths) {
        if !is_link(link, *length) {
            return false;
        }
    }
    artery.links().len() == lengths.len()
}

fn is_head(head: &Head) -> bool {
    head.name.is_none()
        && head.units == Units::Metric
        && head.parts == 100
        && is_range(head.cycle, 60, 100)
        && head.ratio == Frac::whole(1)
}

fn made(rt: &impl Abort, alloc: Global, signals: u32, seed: u64) -> Artery {
    assert!(rt; 2 <= signals && signals <= 16);
    match make_artery(alloc, signals, seed) {
        Ok(artery) => artery,
        Err(_) => panic!(rt; "no memory"),
    }
}

#[test]
fn the_first_draws_of_seed_0(rt: HostRuntime) {
    let mut draws = Draws::new(0);
    for high_bits in [167_951_807, 218_396_424, 1_299_921_937] {
        assert_eq!(rt; draws.next(1 << 31), high_bits);
    }
}

#[test]
fn two_signals_of_seed_0(rt: HostRuntime) {
    let artery = made(&rt, rt.alloc(), 2, 0);
    assert!(rt; is_head(artery.head()));
    assert!(rt; has_signals(&artery, &SEED_0));
    assert!(rt; has_links(&artery, &LENGTHS_0));
}

#[test]
fn sixteen_signals_of_the_last_seed(rt: HostRuntime) {
    let artery = made(&rt, rt.alloc(), 16, u64::MAX);
    assert!(rt; is_head(artery.head()));
    assert!(rt; has_signals(&artery, &LAST_SEED));
    assert!(rt; has_links(&artery, &LAST_LENGTHS));
}
