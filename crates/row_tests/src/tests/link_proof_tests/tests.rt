//! Texts of link certificates, written and read again, and each kind of bad line.

use link_proof::*;
use link_space::LinkTiming;
use named_row::{Leaf, RowId};
use plan_text::{BadText, CertNode, Claim, TextEnd};
use std::alloc::Global;
use std::test::*;
use test_bed::{
    TextReader, all_ends_told, all_texts_told, all_told, fraction, told_again,
    written_without_timing,
};

/// A best link timing of three signals, with a split and two leaves.
static BEST: &str = "maxband-links 1
verdict best
value 7/5
grid 2
unit 2
pattern 1 1 1
red 0 50 0
run_out 50 60
run_in 50 60
first 100 150
half_out 50 20
half_in 50 0
tree
split loop 1 0
leaf 13
wout 1 1
fast_out 2 1
cycle_low 1
near_out_a 1 1
near_out_b 1 1
far_out_a 1 2
far_out_b 1 1
near_in_a 2 1
near_in_b 2 1
far_in_a 2 2/3
far_in_b 2 -1
link_ratio 1 1
link_ratio 2 0
leaf 0
end
";

/// A link timing and a bound.
static OPEN: &str =
    "maxband-links 1\nverdict open\nbound 2\nvalue 1\ngrid 2\nunit 2\npattern 1 1\nred 0 50\nrun_out 50\nrun_in 50\nfirst 100 150\nhalf_out 50\nhalf_in 50\ntree\nleaf 0\nend\n";

/// No link timing, where the two rows add up to a bound below 0; and a bound and no link timing.
static TEXTS: [&str; 2] = [
    "maxband-links 1\nverdict none\ntree\nleaf 2\nfast_out 1 1\nslow_out 1 1\nend\n -> read",
    "maxband-links 1\nverdict open\nbound 2\nno timing\ntree\nleaf 0\nend\n -> read",
];

/// Changes of the best link timing: such that may stand, and such with a bad line and its fault.
static CHANGED: [&str; 43] = [
    "3 value -1/2 -> read",
    "11 half_out 0 1208925819614629174706175 -> read",
    "14 split turn 3 4294967295 -> read",
    "16 win 4294967295 1 -> read",
    "18 ratio 1 -> read",
    "18 least_out 1 -> read",
    "18 equal_hi 2/7 -> read",
    "27 far_in_b 3 1 -> read",
    "28 link_ratio 4294967295 -7/3 -> read",
    // Changes of it, and the bad line with its fault.
    "1 maxband-certificate 1 -> 1 Shape",
    "1 maxband-links 2 -> 1 Shape",
    "1 maxband-links 1  -> 1 Shape",
    "2 verdict -> 2 Shape",
    "2 verdict none -> 3 Shape",
    "3 bound 7/5 -> 3 Shape",
    "3 value 14/10 -> 3 Number",
    "4 grid 0 -> 4 Number",
    "5 unit 1 -> 5 Number",
    "6 pattern 1 1 -> 7 Shape",
    "6 pattern 1 1 5 -> 6 Number",
    "10 first 100 -> 10 Shape",
    "11 band 100 0 -> 11 Shape",
    "11 half_in 50 20 -> 11 Shape",
    "11 half_out 50 -> 11 Shape",
    "11 half_out 50 20 10 -> 11 Shape",
    "11 half_out 50 -1 -> 11 Number",
    "11 half_out 50 1/2 -> 11 Number",
    "11 half_out 50 1208925819614629174706176 -> 11 Number",
    "12 half_in 50 -> 12 Shape",
    "12 half_in 50 0 0 -> 12 Shape",
    "12 half_in 50 01 -> 12 Number",
    "12 tree -> 12 Shape",
    "13 band 0 0 -> 13 Shape",
    "13 rows 0 -> 13 Shape",
    "19 near_out 1 1 -> 19 Shape",
    "19 near_out_a 1 -> 19 Shape",
    "19 near_out_a 0 1 -> 19 Number",
    "20 near_out_a 1 1 -> 20 Order",
    "20 equal_hi 1 -> 20 Order",
    "28 link_ratio 0 -> 28 Shape",
    "28 link_ratio 1 1 -> 28 Order",
    "28 far_in_b 3 1 -> 28 Order",
    "30 end\nend -> 31 Shape",
];

/// The reader of link certificates: it answers with the first bad line, or whether one is written again as it was.
#[derive(Clone, Copy, Drop)]
struct LinkTexts;

impl TextReader for LinkTexts {
    fn answer(&self, alloc: Global, text: &[u8]) -> Result<String, Fail> {
        match read_links(alloc, text) {
            Ok(links) => Ok(told_again(alloc, text, write_links(alloc, &links).ok())?),
            Err(TextEnd::Bad(BadText { line, kind })) => Ok(format!(in alloc; "{line} {kind:?}")?),
            Err(TextEnd::Memory) => Err("no memory".into()),
        }
    }
}

#[test]
fn link_texts_are_read_and_judged(rt: HostRuntime) -> Result<(), Fail> {
    all_texts_told(rt.alloc(), &LinkTexts, &TEXTS)?;
    all_told(rt.alloc(), &LinkTexts, OPEN, &[" -> read"])?;
    all_told(rt.alloc(), &LinkTexts, BEST, &CHANGED)?;
    for text in [BEST, OPEN] {
        all_ends_told(rt.alloc(), &LinkTexts, text)?;
    }
    Ok(())
}

fn best(alloc: Global) -> Result<LinkCertificate, Fail> {
    match read_links(alloc, BEST.as_bytes()) {
        Ok(links) => Ok(links),
        Err(_) => Err("the text is a certificate".into()),
    }
}

/// How many rows a node names, where it is a leaf.
fn rows_of(node: &CertNode) -> Option<usize> {
    match node {
        CertNode::Leaf(leaf) => Some(leaf.multipliers.len()),
        CertNode::Split(_) => None,
    }
}

/// The name of the row at this place of a leaf.
fn row_at(node: &CertNode, place: usize) -> Option<RowId> {
    match node {
        CertNode::Leaf(leaf) => Some(leaf.multipliers.get(place)?.row),
        CertNode::Split(_) => None,
    }
}

fn named(family: u8, index: u32) -> Option<RowId> {
    Some(RowId { family, index })
}

/// Whether the nodes are a split and two leaves, of which the first one names such rows at its fourth place and at its last.
fn has_nodes(nodes: &[CertNode]) -> bool {
    let [split, leaf, last] = nodes else {
        return false;
    };
    rows_of(split).is_none()
        && rows_of(leaf) == Some(13)
        && row_at(leaf, 3) == named(22, 1)
        && row_at(leaf, 12) == named(30, 2)
        && rows_of(last) == Some(0)
}

fn has_halves(timing: &LinkTiming) -> bool {
    timing.half_out() == [50, 20].as_slice() && timing.half_in() == [50, 0].as_slice()
}

fn has_numbers(timing: Option<&LinkTiming>) -> bool {
    match timing {
        Some(timing) => has_halves(timing) && timing.base().reds() == [0, 50, 0].as_slice(),
        None => false,
    }
}

#[test]
fn each_part_goes_to_its_place(rt: HostRuntime) -> Result<(), Fail> {
    let links = best(rt.alloc())?;
    let value = fraction(7, 5)?;
    assert_eq!(rt; links.claim, Claim::Best { value });
    assert!(rt; has_numbers(links.timing.as_ref()));
    assert!(rt; has_nodes(links.nodes.as_slice()));
    Ok(())
}

#[test]
fn a_link_certificate_is_made_of_its_parts(rt: HostRuntime) -> Result<(), Fail> {
    written_without_timing!(LinkCertificate, write_links, rt.alloc(), "maxband-links 1")
}
