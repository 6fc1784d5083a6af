//! Worked link certificates of two signals 500 metres apart, 100 parts and 100 seconds, half of the cycle red, driven in 50 seconds. Two ticks
//! a part and a second: each band can be 100 ticks wide, half of the cycle, and no value is above 1.

use artery_model::Artery;
use link_proof::{LinkCertificate, LinkReject, link_check, read_links};
use link_space::LinkFailing;
use named_row::{Place, RowId, WideAt};
use narrow_fraction::{Frac, Op, Wide};
use std::alloc::{AllocError, Global};
use std::rt::HostRuntime;
use std::test::Fail;
use test_bed::{fraction, plain_head, two_signals};

/// Bands that fill the greens.
const FULL: &str =
    "grid 2\nunit 2\npattern 1 1\nred 0 100\nrun_out 100\nrun_in 100\nfirst 150 250\nhalf_out 50\nhalf_in 50\n";

/// The outbound band reaches a tick too far to either side.
const WIDER: &str =
    "grid 2\nunit 2\npattern 1 1\nred 0 100\nrun_out 100\nrun_in 100\nfirst 150 250\nhalf_out 51\nhalf_in 49\n";

/// At signal 1 each half is at most its wait, and both fit into the green: the sum is 2 h_out + 2 h_in <= 1.
const EXACT: &str = "leaf 4\nnear_out_a 1 1\nfar_out_a 1 1\nnear_in_a 1 1\nfar_in_a 1 1\n";

/// The sum is 2 w_out + 2 h_out + 2 w_in + 2 h_in <= 2.
const ROUGH: &str = "leaf 2\nfar_out_a 1 2\nfar_in_a 1 2\n";

/// In the column of h_out the sum with the second row needs the denominator 2^100 * 3^70.
const TOO_WIDE: &str =
    "leaf 2\nfar_out_a 1 1/1267650600228229401496703205376\nfar_out_b 1 1/2503155504993241601315571986085849\n";

const BEST: &str = "verdict best\nvalue 1\n";

fn artery(alloc: Global) -> Result<Artery, Fail> {
    two_signals(alloc, plain_head(), 50, 500)
}

/// The text of a claim with its link timing and its nodes.
fn links_text(alloc: Global, claim: &str, timing: &str, nodes: &str) -> Result<String, AllocError> {
    format!(in alloc; "maxband-links 1\n{claim}{timing}tree\n{nodes}end\n")
}

fn links(alloc: Global, text: &str) -> Result<LinkCertificate, Fail> {
    match read_links(alloc, text.as_bytes()) {
        Ok(links) => Ok(links),
        Err(_) => Err("no certificate".into()),
    }
}

/// What the check says, with nothing said of it.
fn checked(alloc: Global, artery: &Artery, links: &LinkCertificate) -> Result<(), LinkReject> {
    link_check(alloc, artery, links)
}

/// What the check answers for a link certificate.
fn answer(alloc: Global, artery: &Artery, text: &str) -> Result<Result<(), LinkReject>, Fail> {
    let links = links(alloc, text)?;
    Ok(checked(alloc, artery, &links))
}

/// Fails where the check answers otherwise for a claim with its link timing and its nodes.
fn told(
    alloc: Global,
    artery: &Artery,
    (claim, timing, nodes): (&str, &str, &str),
    want: Result<(), LinkReject>,
) -> Result<(), Fail> {
    let text = links_text(alloc, claim, timing, nodes)?;
    if answer(alloc, artery, text.as_str())? == want {
        return Ok(());
    }
    Err(Fail::new(format_args!("{}", text.as_str())))
}

/// Answers that name no fraction.
#[derive(Clone, Copy)]
enum Said {
    Accepted,
    Missed(LinkFailing),
    SplitOutside,
    NoSuchRow(u8),
    Negative(u8),
    TooWeak,
}

/// Of the first node, which is a leaf or a split, or of its row with the index 1.
fn answer_of(said: Said) -> Result<(), LinkReject> {
    let (leaf, index) = (1, 1);
    Err(match said {
        Said::Accepted => return Ok(()),
        Said::Missed(failing) => LinkReject::TimingFails(failing),
        Said::SplitOutside => LinkReject::SplitOutside { node: 1 },
        Said::NoSuchRow(family) => LinkReject::NoSuchRow {
            leaf,
            row: RowId { family, index },
        },
        Said::Negative(family) => LinkReject::Negative {
            leaf,
            row: RowId { family, index },
        },
        Said::TooWeak => LinkReject::LeafTooWeak {
            leaf,
            place: Place::Bound,
        },
    })
}

/// The outbound band isn't green at its first tick there.
const EARLY: LinkFailing = LinkFailing::Outbound {
    link: 1,
    signal: 1,
    tick: 99,
};

/// Claims with their link timings and their nodes, and what the check answers.
static ANSWERS: [(&str, &str, &str, Said); 10] = [
    (BEST, FULL, EXACT, Said::Accepted),
    (
        "verdict open\nbound 2\nvalue 1\n",
        FULL,
        ROUGH,
        Said::Accepted,
    ),
    (
        "verdict open\nbound 2\nno timing\n",
        "",
        ROUGH,
        Said::Accepted,
    ),
    (BEST, WIDER, EXACT, Said::Missed(EARLY)),
    (
        BEST,
        FULL,
        "split loop 1 9\nleaf 0\nleaf 0\n",
        Said::SplitOutside,
    ),
    // The artery's rows of waits are no rows of links, and the ratio is 1.
    (BEST, FULL, "leaf 1\nwout 1 1\n", Said::NoSuchRow(1)),
    (BEST, FULL, "leaf 1\nlink_ratio 1 1\n", Said::NoSuchRow(30)),
    (BEST, FULL, "leaf 1\nfar_out_a 1 -1\n", Said::Negative(24)),
    (BEST, FULL, ROUGH, Said::TooWeak),
    ("verdict none\n", "", EXACT, Said::TooWeak),
];

#[test]
fn what_the_check_answers(rt: HostRuntime) -> Result<(), Fail> {
    let artery = artery(rt.alloc())?;
    for (claim, timing, nodes, said) in &ANSWERS {
        let parts = (*claim, *timing, *nodes);
        told(rt.alloc(), &artery, parts, answer_of(*said))?;
    }
    Ok(())
}

/// The sum of these two in the column of h_out is too wide.
fn too_wide(left: Frac, right: Frac) -> Result<(), LinkReject> {
    let op = Op::Add;
    Err(LinkReject::Wide {
        leaf: 1,
        row: RowId {
            family: 25,
            index: 1,
        },
        at: WideAt {
            place: Place::Cell(11),
            wide: Wide { op, left, right },
        },
    })
}

#[test]
fn what_the_check_answers_with_numbers(rt: HostRuntime) -> Result<(), Fail> {
    let artery = artery(rt.alloc())?;
    let (one, two, half) = (Frac::whole(1), Frac::whole(2), fraction(1, 2)?);
    let differs = LinkReject::ValueDiffers {
        kept: one,
        claimed: two,
    };
    let twice = ("verdict best\nvalue 2\n", FULL, EXACT);
    told(rt.alloc(), &artery, twice, Err(differs))?;
    let below = LinkReject::BoundBelow {
        bound: half,
        value: one,
    };
    let bounded = ("verdict open\nbound 1/2\nvalue 1\n", FULL, EXACT);
    told(rt.alloc(), &artery, bounded, Err(below))?;
    let left = fraction(1, 1_267_650_600_228_229_401_496_703_205_376)?;
    let right = fraction(1, 2_503_155_504_993_241_601_315_571_986_085_849)?;
    let wide = too_wide(left, right);
    told(rt.alloc(), &artery, (BEST, FULL, TOO_WIDE), wide)
}
