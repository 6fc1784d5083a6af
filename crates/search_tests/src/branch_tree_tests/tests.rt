//! Searches of two signals: 100 parts, reds of 50, a cycle of 100 seconds, 36 kilometres an hour, one link of the same length
//! each way. At 500 metres both bands are the whole green. At 250 metres the block sum is 0 or 1, and they share it. The root
//! of the shorter artery takes 4 units. Its parts start from the basis where it ended, and the low one takes 5 and the high one 6.

ghost use Rattle.std.specs.Prelude.{◌<◌};
ghost use Rattle.branch_tree.specs.Told.{IsCertifiable};

use super::end_tests::{Number, WAITS, has_rows};
use artery_model::Artery;
use branch_tree::{
    Found, Searched, Stop, TreeNode, Verdict, certificate_of, search, search_and_check,
};
use certificate_checker::check;
use narrow_fraction::Frac;
use std::alloc::Global;
use std::rt::HostRuntime;
use std::test::Fail;
use test_bed::{SampleHead, fraction_or_zero, plain_head, two_signals, with_least};
use time_space::value;

pub(crate) fn artery(alloc: Global, red: u32, distance: u32) -> Result<Artery, Fail> {
    two_signals(alloc, plain_head(), red, distance)
}

pub(crate) fn searched(alloc: Global, artery: &Artery, limit: u64) -> Result<Searched, Fail>
    requires { 0 < limit }
{
    match search_and_check(alloc, artery, Some(limit)) {
        Ok(searched) => Ok(searched),
        Err(_) => Err("no memory".into()),
    }
}

/// Whether the certificate of an answer is accepted.
pub(crate) fn is_accepted(alloc: Global, artery: &Artery, searched: &Searched) -> bool {
    check(alloc, artery, &searched.certificate).is_ok()
}

fn is_best(found: &Found) -> bool {
    matches!(&found.verdict, Verdict::Best)
}

fn has_no_timing(found: &Found) -> bool {
    matches!(&found.verdict, Verdict::NoTiming) && found.timing.is_none()
}

/// The units that a stop by work names, and 0 for another stop.
fn units_at(stop: &Stop) -> u64 {
    match stop {
        Stop::Work { spent } => *spent,
        Stop::Wide(_) => 0,
    }
}

/// The units at a stop by work, and 0 for any other end.
fn units(found: &Found) -> u64 {
    match &found.verdict {
        Verdict::Stopped(stop) => units_at(stop),
        _ => 0,
    }
}

/// The value of the timing, and -1 where there is none.
fn band(artery: &Artery, found: &Found) -> Frac {
    match &found.timing {
        Some(timing) => value(artery, timing),
        None => Frac::whole(-1),
    }
}

/// Whether a search ended with this bound and a timing of this value, or with none and -1; its certificate is accepted.
fn ends_with(alloc: Global, artery: &Artery, searched: &Searched, bound: Frac, kept: Frac) -> bool {
    let found = &searched.found;
    found.bound == bound && band(artery, found) == kept && is_accepted(alloc, artery, searched)
}

/// Whether a search finds a best timing of this value, with a certificate that is accepted.
fn finds_best(alloc: Global, artery: &Artery, best: Frac) -> Result<bool, Fail> {
    let searched = searched(alloc, artery, 1000)?;
    Ok(is_best(&searched.found) && ends_with(alloc, artery, &searched, best, best))
}

/// Whether a search finds that there is no timing, with a certificate that is accepted.
fn finds_none(alloc: Global, artery: &Artery) -> Result<bool, Fail> {
    let searched = searched(alloc, artery, 1000)?;
    Ok(has_no_timing(&searched.found) && is_accepted(alloc, artery, &searched))
}

/// Whether a search within this limit spends all of it and stops with this bound and a timing of this value, or with none and -1; its
/// certificate is accepted.
fn stops_with(
    alloc: Global,
    artery: &Artery,
    limit: u64,
    bound: Frac,
    kept: Frac,
) -> Result<bool, Fail>
    requires { 0 < limit }
{
    let searched = searched(alloc, artery, limit)?;
    Ok(units(&searched.found) == limit && ends_with(alloc, artery, &searched, bound, kept))
}

#[test]
fn the_whole_green_is_best(rt: HostRuntime) -> Result<(), Fail> {
    let alloc = rt.alloc();
    let artery = artery(alloc, 50, 500)?;
    assert!(rt; finds_best(alloc, &artery, Frac::whole(1))?);
    Ok(())
}

/// Whether a search of 15 units finds a best timing of this value in three nodes, with a certificate that is accepted.
fn shares_the_green(alloc: Global, artery: &Artery, best: Frac) -> Result<bool, Fail> {
    let searched = searched(alloc, artery, 15)?;
    let found = &searched.found;
    Ok(
        is_best(found)
            && ends_with(alloc, artery, &searched, best, best)
            && found.spent == 15
            && found.nodes.len() == 3,
    )
}

#[test]
fn a_shared_green_is_best(rt: HostRuntime) -> Result<(), Fail> {
    let alloc = rt.alloc();
    let artery = artery(alloc, 50, 250)?;
    assert!(rt; shares_the_green(alloc, &artery, fraction_or_zero(1, 2))?);
    Ok(())
}

/// Both bands are to be equal, with this ratio.
fn equal(ratio: i64) -> SampleHead {
    SampleHead {
        version: 2,
        ratio: Frac::whole(ratio),
        equal: true,
        ..plain_head()
    }
}

/// The bands that share a green have to be equal: a quarter of the cycle each.
#[test]
fn equal_bands_are_best(rt: HostRuntime) -> Result<(), Fail> {
    let alloc = rt.alloc();
    for (ratio, num, den) in [(1, 1, 2), (2, 3, 4)] {
        let artery = two_signals(alloc, equal(ratio), 50, 250)?;
        assert!(rt; finds_best(alloc, &artery, fraction_or_zero(num, den))?);
    }
    Ok(())
}

/// Each band is asked to be three tenths of the cycle, which is more than they share.
#[test]
fn least_bands_leave_no_timing(rt: HostRuntime) -> Result<(), Fail> {
    let alloc = rt.alloc();
    let least = with_least(fraction_or_zero(3, 10));
    let artery = two_signals(alloc, least, 50, 250)?;
    assert!(rt; finds_none(alloc, &artery)?);
    Ok(())
}

/// Searches that stop by work: the red, the units, the bound, and the value of the timing that is kept, or -1.
static STOPS: [(u32, u64, Number, Number); 4] = [
    (50, 14, (1, 1), (1, 2)),
    (50, 4, (1, 1), (-1, 1)),
    (50, 1, (1, 1), (-1, 1)),
    (80, 4, (2, 5), (-1, 1)),
];

/// Whether a search of the shorter artery with this red stops so.
fn stops_so(
    alloc: Global,
    red: u32,
    limit: u64,
    bound: Number,
    kept: Number,
) -> Result<bool, Fail> {
    let artery = artery(alloc, red, 250)?;
    if limit == 0 {
        return Ok(false);
    }
    let bound = fraction_or_zero(bound.0, bound.1);
    let kept = fraction_or_zero(kept.0, kept.1);
    stops_with(alloc, &artery, limit, bound, kept)
}

#[test]
fn work_runs_out(rt: HostRuntime) -> Result<(), Fail> {
    for (red, limit, bound, kept) in STOPS {
        assert!(rt; stops_so(rt.alloc(), red, limit, bound, kept)?);
    }
    Ok(())
}

/// Whether a node is a waiting leaf of the first waits' rows, each once.
pub(crate) fn is_first_waits(node: &TreeNode) -> bool {
    match node {
        TreeNode::Waiting { leaf } => has_rows(leaf, WAITS),
        _ => false,
    }
}

/// Whether a search of the shorter artery within these units leaves one node, a waiting leaf of the first waits' rows.
fn is_root_alone(alloc: Global, limit: u64) -> Result<bool, Fail>
    requires { 0 < limit }
{
    let artery = artery(alloc, 50, 250)?;
    let searched = searched(alloc, &artery, limit)?;
    match searched.found.nodes.as_slice() {
        [node] => Ok(is_first_waits(node)),
        _ => Ok(false),
    }
}

/// The root isn't finished and has the start leaf.
#[test]
fn an_unfinished_root_has_the_start_leaf(rt: HostRuntime) -> Result<(), Fail> {
    assert!(rt; is_root_alone(rt.alloc(), 1)?);
    Ok(())
}

/// The split is undone in the high part, and the root waits again with its own leaf, which has the same rows.
#[test]
fn an_undone_split_leaves_the_root(rt: HostRuntime) -> Result<(), Fail> {
    assert!(rt; is_root_alone(rt.alloc(), 14)?);
    Ok(())
}

#[test]
fn long_reds_leave_no_timing(rt: HostRuntime) -> Result<(), Fail> {
    let alloc = rt.alloc();
    let artery = artery(alloc, 80, 250)?;
    let searched = searched(alloc, &artery, 5)?;
    assert!(rt; has_no_timing(&searched.found));
    Ok(())
}

/// Whether the certificate of an answer, made by itself, is accepted.
fn is_certified(alloc: Global, artery: &Artery, found: &Found) -> bool
    requires { IsCertifiable found.now }
{
    match certificate_of(alloc, artery, found) {
        Ok(certificate) => check(alloc, artery, &certificate).is_ok(),
        Err(_) => false,
    }
}

/// Whether a search of 15 units, with nothing checked, finds a best timing, whose certificate is accepted.
fn is_found_alone(alloc: Global, artery: &Artery) -> bool {
    match search(alloc, artery, Some(15)) {
        Ok(found) => is_best(&found) && is_certified(alloc, artery, &found),
        Err(_) => false,
    }
}

#[test]
fn a_search_alone_and_its_certificate(rt: HostRuntime) -> Result<(), Fail> {
    let artery = artery(rt.alloc(), 50, 250)?;
    assert!(rt; is_found_alone(rt.alloc(), &artery));
    Ok(())
}
