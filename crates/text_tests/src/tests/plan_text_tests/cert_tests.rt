//! Texts of certificates, written and read again, and each kind of bad line.

use super::super::quantity_text_tests::is_text;
use super::tests::{Texts, certificate_of, certificate_text};
use named_row::{Leaf, RowId};
use narrow_fraction::Frac;
use plan_text::*;
use search_box::At;
use std::alloc::{AllocError, Global};
use std::test::*;
use test_bed::{
    WORKED_LISTED, all_ends_told, all_texts_told, all_told, fraction_or_zero, stopped_text,
    with_changes, worked_text,
};
use time_space::Timing;

/// No timing, where two rows add up to a bound below 0; multipliers of 1/2^100 and 1/3^70; and a bound and no timing.
static TEXTS: [&str; 3] = [
    "maxband-certificate 1\nverdict none\ntree\nleaf 2\nloop_lo 1 1\nloop_hi 1 1\nend\n -> read",
    "maxband-certificate 1\nverdict none\ntree\nleaf 2\nwout 1 1/1267650600228229401496703205376\nwout 2 1/2503155504993241601315571986085849\nend\n -> read",
    "maxband-certificate 1\nverdict open\nbound -3/4\nno timing\ntree\nleaf 0\nend\n -> read",
];

/// Changes of the best timing: such that may stand, and such with a bad line and its fault.
static CHANGED: [&str; 109] = [
    "1 maxband-certificate 1 -> read",
    "3 value -1/2 -> read",
    "3 value 0 -> read",
    "3 value 170141183460469231731687303715884105727 -> read",
    "13 split loop 1 -9223372036854775808 -> read",
    "13 split loop 4294967295 9223372036854775807 -> read",
    "13 split turn 1 0 -> read",
    "13 split turn 4294967295 4294967295 -> read",
    "15 wout 2 -7/3 -> read",
    "15 wout 2 0 -> read",
    "16 wout 3 1 -> read",
    "19 ratio 1 -> read",
    "21 least_out 1 -> read",
    "21 least_in -1/3 -> read",
    "29 equal_lo 1 -> read",
    "29 equal_hi 2/7 -> read",
    // Changes of it, and the bad line with its fault.
    "1 maxband-certificate 3 -> 1 Shape",
    "1 maxband-certificate 2 -> 12 Shape",
    "1 maxband-timing 1 -> 1 Shape",
    "2 verdict -> 2 Shape",
    "2 verdict good -> 2 Shape",
    "2 verdict best  -> 2 Shape",
    "2 verdict none -> 3 Shape",
    "2 verdict open -> 3 Shape",
    "3 value -> 3 Shape",
    "3 bound 1/2 -> 3 Shape",
    "3 value 1 2 -> 3 Shape",
    "3 value  -> 3 Number",
    "3 value 2/4 -> 3 Number",
    "3 value 3/1 -> 3 Number",
    "3 value 0/5 -> 3 Number",
    "3 value -0 -> 3 Number",
    "3 value +1 -> 3 Number",
    "3 value 01 -> 3 Number",
    "3 value 1/02 -> 3 Number",
    "3 value 1/0 -> 3 Number",
    "3 value 1/-2 -> 3 Number",
    "3 value 0.5 -> 3 Number",
    "3 value 1/2/3 -> 3 Number",
    "3 value 170141183460469231731687303715884105728 -> 3 Number",
    "3 value 1/170141183460469231731687303715884105728 -> 3 Number",
    "3 value 1111111111111111111111111111111111111111111111111111111111111111111111111111111111111111111111111111 -> 3 Number",
    "4 grid 0 -> 4 Number",
    "5 unit 1 -> 5 Number",
    "6 pattern 1 -> 6 Shape",
    "6 pattern 1 9 -> 6 Number",
    "7 red 0 -> 7 Shape",
    "8 run_out -> 8 Shape",
    "9 run_in x -> 9 Number",
    "10 first 100 -> 10 Shape",
    "11 band 100 -> 11 Shape",
    "12 tree  -> 12 Shape",
    "12 -> 12 Shape",
    "12 end -> 12 Shape",
    "13 split loop 1 -> 13 Shape",
    "13 split loop 1 0 0 -> 13 Shape",
    "13 split  loop 1 0 -> 13 Shape",
    "13 split bend 1 0 -> 13 Shape",
    "13 spilt loop 1 0 -> 13 Shape",
    "13 split loop 0 0 -> 13 Number",
    "13 split loop 01 0 -> 13 Number",
    "13 split loop 4294967296 0 -> 13 Number",
    "13 split loop 1 -0 -> 13 Number",
    "13 split loop 1 +1 -> 13 Number",
    "13 split loop 1 --1 -> 13 Number",
    "13 split loop 1 - -> 13 Number",
    "13 split loop 1  -> 13 Number",
    "13 split loop 1 9223372036854775808 -> 13 Number",
    "13 split loop 1 -9223372036854775809 -> 13 Number",
    "13 split turn 0 0 -> 13 Number",
    "13 split turn 1 -1 -> 13 Number",
    "13 split turn 1 4294967296 -> 13 Number",
    "14 leaf -> 14 Shape",
    "14 leaf 7 1 -> 14 Shape",
    "14 Leaf 7 -> 14 Shape",
    "14 leaf 07 -> 14 Number",
    "14 leaf -1 -> 14 Number",
    "14 leaf 10001 -> 14 Number",
    "14 leaf 6 -> 21 Shape",
    "14 leaf 8 -> 22 Shape",
    "15 wout 2 -> 15 Shape",
    "15 wout 2 1 1 -> 15 Shape",
    "15 wait 2 1 -> 15 Shape",
    "15 near_out_a 1 1 -> 15 Shape",
    "15 wait 0 x -> 15 Shape",
    "15 -> 15 Shape",
    "15 wout 0 1 -> 15 Number",
    "15 wout 4294967296 1 -> 15 Number",
    "15 wout 2 2/2 -> 15 Number",
    "15 wout -2 1 -> 15 Number",
    "16 wout 2 1 -> 16 Order",
    "16 wout 1 1 -> 16 Order",
    "16 wout 1 x -> 16 Number",
    "16 wout 1 -> 16 Shape",
    "19 cycle_low 1 50 -> 19 Shape",
    "19 cycle_low -> 19 Shape",
    "19 cycle_low 5/5 -> 19 Number",
    "19 fast_out 9 1 -> 19 Order",
    "20 cycle_low 50 -> 20 Order",
    "21 least_out 1 1 -> 21 Shape",
    "21 equal_lo -> 21 Shape",
    "21 least_on 1 -> 21 Shape",
    "20 least_in 1 -> 21 Order",
    "22 end -> 22 Shape",
    "30 leaf 0 -> 30 Shape",
    "30 leaf 7\nwout 1 1\nwin 1 1\nslow_out 1 1\nslow_in 1 1\ncycle_high 50\nloop_lo 1 1\nturn_hi 1 1\nend -> 30 Shape",
    "30 end  -> 30 Shape",
    "30 end\n -> 31 Shape",
    "30 end\nend -> 31 Shape",
];

/// The same for the text with a bound.
static CHANGED_OPEN: [&str; 14] = [
    " -> read",
    "2 verdict closed -> 2 Shape",
    "3 value 3/4 -> 3 Shape",
    "3 bound 6/8 -> 3 Number",
    "4 value -> 4 Shape",
    "4 value 2/4 -> 4 Number",
    "4 no timings -> 4 Shape",
    "4 no timing -> 5 Shape",
    "4 -> 4 Shape",
    "5 grid x -> 5 Number",
    "12 band 1 -> 12 Shape",
    "13 end -> 13 Shape",
    "14 leaf 1 -> 15 Shape",
    "15 -> 15 Shape",
];

/// The same for the text that lists its rows.
static REFUSED_LISTED: [&str; 62] = [
    "1 maxband-certificate 3 -> 1 Shape",
    "1 maxband-certificate 1 -> 12 Shape",
    "12 rows -> 12 Shape",
    "12 rows 14 1 -> 12 Shape",
    "12 row 14 -> 12 Shape",
    "12 rows 014 -> 12 Number",
    "12 rows -1 -> 12 Number",
    "12 rows 18446744073709551616 -> 12 Number",
    "12 rows 18446744073709551615 -> 27 Shape",
    "12 rows 15 -> 27 Shape",
    "12 rows 13 -> 26 Shape",
    "14 wout 1 -> 14 Order",
    "14 wout 3\nwout 2 -> 15 Order",
    "14 wout 0 -> 14 Number",
    "14 wait 2 -> 14 Shape",
    "14 wout -> 14 Shape",
    "14 wout 2 1 -> 14 Shape",
    "14 -> 14 Shape",
    "21 cycle_low 1 -> 21 Shape",
    "27 tree  -> 27 Shape",
    "28 split loop 0 0 -> 28 Number",
    "29 leaf 7 -> 29 Shape",
    "29 leaf 1 7 1 -> 29 Shape",
    "29 Leaf 1 7 -> 29 Shape",
    "29 leaf 0 7 -> 29 Number",
    "29 leaf -1 7 -> 29 Number",
    "29 leaf 01 7 -> 29 Number",
    "29 leaf 1/2 7 -> 29 Number",
    "29 leaf 170141183460469231731687303715884105728 7 -> 29 Number",
    "29 leaf 1 10001 -> 29 Number",
    "29 leaf 1 07 -> 29 Number",
    "29 leaf 2 0 -> 29 Number",
    "29 plain 0 -> 29 Number",
    "29 plain -> 29 Shape",
    "29 plain 1 7 -> 29 Shape",
    "29 plain 7 -> 36 Number",
    "29 leaf 2 7\n2 2\n4 2\n5 2\n6 2\n9 100\n12 2\n14 2 -> 36 Number",
    "29 leaf 2 7\n2 2\n4 2\n5 2\n6 2\n9 100\n12 2\n12 2 -> 36 Number",
    "29 plain 7\n2 1\n4 1\n5 1\n6 1\n9 50\n12 1\n12 1 -> 36 Number",
    "29 leaf 2 7\n2 2\n4 2\n5 2\n6 2\n9 100\n9 2\n14 2 -> 35 Order",
    "29 leaf 2 7\n2 2\n4 2\n5 2\n6 2\n9 100\n12 2\n12 2 2 -> 36 Shape",
    "30 0 1 -> 30 Number",
    "30 15 1 -> 30 Number",
    "30 18446744073709551616 1 -> 30 Number",
    "30 02 1 -> 30 Number",
    "30 x 1 -> 30 Number",
    "30 2 -> 30 Shape",
    "30 2 1 1 -> 30 Shape",
    "30 wout 2 1 -> 30 Shape",
    "30 2 1/2 -> 30 Number",
    "30 2 01 -> 30 Number",
    "30 2 -0 -> 30 Number",
    "30 2 170141183460469231731687303715884105728 -> 30 Number",
    "31 2 1 -> 31 Order",
    "31 1 1 -> 31 Order",
    "31 1 x -> 31 Number",
    "36 12 1 -> 36 Order",
    "36 13 1 -> 45 Shape",
    "45 leaf 1 0 -> 45 Shape",
    "45 end  -> 45 Shape",
    "45 end\n -> 46 Shape",
    "45 end\nend -> 46 Shape",
];

/// Fails where a change or a beginning of the best timing's text is judged otherwise than its case says.
fn judge_best(alloc: Global) -> Result<(), Fail> {
    let best = worked_text(alloc)?;
    all_told(alloc, &Texts::Certificates, best.as_str(), &CHANGED)?;
    all_ends_told(alloc, &Texts::Certificates, best.as_str())
}

/// The same of the text with a bound.
fn judge_open(alloc: Global) -> Result<(), Fail> {
    let open = stopped_text(alloc)?;
    all_told(alloc, &Texts::Certificates, open.as_str(), &CHANGED_OPEN)
}

#[test]
fn texts_are_read_and_judged(rt: HostRuntime) -> Result<(), Fail> {
    all_texts_told(rt.alloc(), &Texts::Certificates, &TEXTS)?;
    judge_best(rt.alloc())?;
    judge_open(rt.alloc())?;
    all_told(
        rt.alloc(),
        &Texts::Certificates,
        WORKED_LISTED,
        &REFUSED_LISTED,
    )?;
    all_ends_told(rt.alloc(), &Texts::Certificates, WORKED_LISTED)
}

/// Whether the first row of a leaf is this one, with this multiplier.
fn begins_with(leaf: &Leaf, row: RowId, by: Frac) -> bool {
    match leaf.multipliers.first() {
        Some(weight) => weight.row == row && weight.by == by,
        None => false,
    }
}

/// Whether the last row of a leaf is this one.
fn ends_with(leaf: &Leaf, row: RowId) -> bool {
    match leaf.multipliers.last() {
        Some(weight) => weight.row == row,
        None => false,
    }
}

const SECOND_WAIT: RowId = RowId {
    family: 1,
    index: 2,
};

const FIRST_TURN: RowId = RowId {
    family: 17,
    index: 1,
};

/// The leaf of a node.
fn leaf_of(node: &CertNode) -> Option<&Leaf> {
    match node {
        CertNode::Leaf(leaf) => Some(leaf),
        CertNode::Split(_) => None,
    }
}

fn is_split(node: &CertNode) -> bool {
    match node {
        CertNode::Split(place) => *place == At::Loop { link: 1, at: 0 },
        CertNode::Leaf(_) => false,
    }
}

/// Whether the nodes are a split and its two leaves, and the first leaf begins with this multiplier.
fn has_nodes(nodes: &[CertNode], by: Frac) -> bool {
    let [split, low, high] = nodes else {
        return false;
    };
    match (leaf_of(low), leaf_of(high)) {
        (Some(low), Some(high)) => is_split(split)
            && begins_with(low, SECOND_WAIT, by)
            && ends_with(high, FIRST_TURN),
        _ => false,
    }
}

fn has_reds(timing: Option<&Timing>) -> bool {
    match timing {
        Some(timing) => timing.reds() == [0, 50].as_slice(),
        None => false,
    }
}

/// Whether a certificate has this value, the reds of the best timing, and its nodes with this multiplier.
fn has_parts(certificate: &Certificate, value: Frac, by: Frac) -> bool {
    certificate.claim == Claim::Best { value }
        && has_reds(certificate.timing.as_ref())
        && has_nodes(certificate.nodes.as_slice(), by)
}

/// Whether a text is that of a certificate with these parts.
fn gives_parts(alloc: Global, text: &str, value: Frac, by: Frac) -> bool {
    match certificate_of(alloc, text.as_bytes()) {
        Ok(certificate) => has_parts(&certificate, value, by),
        Err(_) => false,
    }
}

/// The text of the best timing with another multiplier.
fn with_multiplier(alloc: Global) -> Result<String, AllocError> {
    let best = worked_text(alloc)?;
    with_changes(alloc, best.as_str(), "15 wout 2 -7/3")
}

#[test]
fn each_part_goes_to_its_place(rt: HostRuntime) -> Result<(), Fail> {
    let text = with_multiplier(rt.alloc())?;
    let (value, by) = (fraction_or_zero(1, 2), fraction_or_zero(-7, 3));
    assert!(rt; gives_parts(rt.alloc(), text.as_str(), value, by));
    Ok(())
}

/// Whether a text is that of a certificate with this claim.
fn gives_claim(alloc: Global, text: &str, claim: Claim) -> bool {
    match certificate_of(alloc, text.as_bytes()) {
        Ok(certificate) => certificate.claim == claim,
        Err(_) => false,
    }
}

#[test]
fn bound_and_value_go_to_their_places(rt: HostRuntime) -> Result<(), Fail> {
    let text = stopped_text(rt.alloc())?;
    let bound = fraction_or_zero(3, 4);
    let value = Some(fraction_or_zero(1, 2));
    assert!(rt; gives_claim(rt.alloc(), text.as_str(), Claim::Stopped { bound, value }));
    Ok(())
}

/// No timing, by a leaf without rows.
fn without_timing(alloc: Global) -> Result<Certificate, AllocError> {
    let multipliers = Vec::new(alloc);
    let mut nodes = Vec::new(alloc);
    nodes.push(CertNode::Leaf(Leaf { multipliers }))?;
    Ok(Certificate {
        claim: Claim::NoTiming,
        timing: None,
        nodes,
    })
}

fn text_without_timing(alloc: Global) -> Option<Vec<u8>> {
    match without_timing(alloc) {
        Ok(certificate) => certificate_text(alloc, &certificate),
        Err(_) => None,
    }
}

#[test]
fn a_certificate_is_made_of_its_parts(rt: HostRuntime) {
    let text = text_without_timing(rt.alloc());
    assert!(rt;
        is_text(
            text,
            "maxband-certificate 1\nverdict none\ntree\nleaf 0\nend\n"
        )
    );
}
