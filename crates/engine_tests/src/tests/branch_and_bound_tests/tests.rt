//! The search over a relaxation whose trees are worked by hand: two signals 500 m apart at 36 km/h with cycles of 50 to
//! 100 s, so that the root's span of link 1 is 0 to 3.

ghost use Rattle.std.specs.Prelude.{◌<◌};

use super::toy::Capped;
use artery_model::Artery;
use branch_and_bound::{Found, Stop, TreeNode, Verdict, law_enough, search};
use narrow_fraction::Frac;
use std::alloc::Global;
use std::test::Fail;
use test_bed::{SampleHead, plain_head, plain_link, plain_signal, range, sample_street};

fn head() -> SampleHead {
    SampleHead {
        cycle: range(50, 100),
        ..plain_head()
    }
}

fn artery(alloc: Global) -> Result<Artery, Fail> {
    let signals = [plain_signal("A", 50), plain_signal("B", 50)];
    match sample_street(alloc, head(), &signals, &[plain_link(500)]) {
        Ok(artery) => Ok(artery),
        Err(_) => Err("no artery".into()),
    }
}

fn found(alloc: Global, cap: i64, limit: u64) -> Result<Found<i64, u8>, Fail>
    requires { 0 < limit }
{
    let relaxation = Capped {
        artery: artery(alloc)?,
        cap,
    };
    law_enough(&relaxation);
    let mut room = 0;
    match search(alloc, &relaxation, &mut room, Some(limit)) {
        Ok(found) => Ok(found),
        Err(_) => Err(Fail::from("no memory")),
    }
}

/// A letter for each node: split, closed or waiting.
fn letter(node: &TreeNode) -> u8 {
    match node {
        TreeNode::Split { .. } => b's',
        TreeNode::Closed { .. } => b'c',
        TreeNode::Waiting { .. } => b'w',
    }
}

fn has_shape(nodes: &[TreeNode], letters: &[u8]) -> bool {
    for (node, wanted) in nodes.iter().zip(letters.iter()) {
        if letter(node) != *wanted {
            return false;
        }
    }
    nodes.len() == letters.len()
}

/// The verdict, with the units at which the work ran out or the pivots before a refused operation.
fn verdict_of(verdict: &Verdict<u8>) -> (&'static str, u64) {
    match verdict {
        Verdict::Best => ("best", 0),
        Verdict::NoTiming => ("no timing", 0),
        Verdict::Stopped(Stop::Work { spent }) => ("work", *spent),
        Verdict::Stopped(Stop::Wide(site)) => ("wide", site.pivots),
    }
}

/// What a search is to tell.
#[derive(Clone, Copy)]
struct ToldToy {
    verdict: (&'static str, u64),
    letters: &'static str,
    spent: u64,
    /// The bound and the best number, which is -1 where there is none. Without a timing the bound means nothing.
    best: Option<(i64, i64)>,
}

fn has_best(found: &Found<i64, u8>, best: Option<(i64, i64)>) -> bool {
    match best {
        Some((bound, number)) => {
            found.bound == Frac::whole(bound) && found.timing.unwrap_or(-1) == number
        }
        None => true,
    }
}

fn is_told(found: &Found<i64, u8>, told: &ToldToy) -> bool {
    verdict_of(&found.verdict) == told.verdict
        && has_shape(found.nodes.as_slice(), told.letters.as_bytes())
        && found.spent == told.spent
        && has_best(found, told.best)
}

/// Whether a search with this cap and this limit of work tells this.
fn tells(alloc: Global, cap: i64, limit: u64, told: &ToldToy) -> Result<bool, Fail>
    requires { 0 < limit }
{
    let found = found(alloc, cap, limit)?;
    Ok(is_told(&found, told))
}

static BEST: ToldToy = ToldToy {
    verdict: ("best", 0),
    letters: "ssccc",
    spent: 10,
    best: Some((1, 1)),
};

#[test]
fn the_best_is_found(rt: HostRuntime) -> Result<(), Fail> {
    assert!(rt; tells(rt.alloc(), 1, 100, &BEST)?);
    Ok(())
}

#[test]
fn an_infeasible_root_leaves_no_timing(rt: HostRuntime) -> Result<(), Fail> {
    let told = ToldToy {
        verdict: ("no timing", 0),
        letters: "c",
        spent: 2,
        best: None,
    };
    assert!(rt; tells(rt.alloc(), -1, 100, &told)?);
    Ok(())
}

#[test]
fn work_runs_out(rt: HostRuntime) -> Result<(), Fail> {
    // in the root, before and in the first low part, before and in the second high part
    let rows = [
        (1, "w", (3, -1)),
        (2, "w", (3, -1)),
        (3, "w", (3, -1)),
        (8, "swc", (2, 1)),
        (9, "swc", (2, 1)),
    ];
    for (limit, letters, best) in rows {
        let told = ToldToy {
            verdict: ("work", limit),
            letters,
            spent: limit,
            best: Some(best),
        };
        assert!(rt; tells(rt.alloc(), 1, limit, &told)?, "{limit}");
    }
    assert!(rt; tells(rt.alloc(), 1, 10, &BEST)?);
    Ok(())
}

#[test]
fn a_refusal_stops_at_the_root(rt: HostRuntime) -> Result<(), Fail> {
    let told = ToldToy {
        verdict: ("wide", 0),
        letters: "w",
        spent: 1,
        best: Some((3, -1)),
    };
    assert!(rt; tells(rt.alloc(), 2000, 100, &told)?);
    Ok(())
}
