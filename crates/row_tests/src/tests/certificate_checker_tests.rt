//! Worked certificates of two signals: 100 parts, a cycle of 100 seconds, 36 kilometres an hour, one link each way. With
//! reds of 50 and 250 metres the block sum is 0 or 1, and no weighted band is above 1/2.

ghost use Rattle.std.specs.Prelude.{IfOk, length, ◌≡◌};
ghost use Rattle.progression.specs.Street.{count};
ghost use Rattle.linear_theory.specs.Places.{width};

use crate::tests::row_texts::root_box;
use artery_model::Artery;
use certificate_checker::{Aim, TreeReject, check, check_tree};
use loop_rows::{ArteryRows, column_count};
use named_row::{Leaf, Place, Row};
use narrow_fraction::Frac;
use plan_text::{CertNode, Certificate, read_certificate};
use std::alloc::{AllocError, Global};
use std::rt::HostRuntime;
use std::test::Fail;
use test_bed::{
    HALF_BAND, HIGH_LEAF, LOW_LEAF, SPLIT, SampleHead, TextReader, TextRecord, all_told,
    plain_head, two_signals, with_least,
};

/// The reds of two signals in parts, how far they are apart, how many tenths of the cycle each band has to be wide, the lines of a
/// claim with `;` between them, and the nodes of its tree by their names.
static CERTIFICATE: &str = "red 50
apart 250
least none
claim verdict none
tree low
";

/// Changes of `CERTIFICATE`, and what the check answers.
static CERTIFICATES: [&str; 33] = [
    "claim verdict best;value 1/2;timing|tree split low high -> accepted",
    "claim verdict best;value 2/5;timing|tree split low high -> ValueDiffers { kept: Frac { num: 1, den: 2 }, claimed: Frac { num: 2, den: 5 } }",
    "apart 500|claim verdict best;value 1/2;timing|tree split low high -> TimingFails(Fast { dir: Outbound, link: 1 })",
    "red 80|claim verdict none|tree no_sum -> accepted",
    "claim verdict open;bound 1/2;no timing|tree split low high -> accepted",
    "claim verdict open;bound 3/4;value 1/2;timing|tree split low high -> accepted",
    "claim verdict open;bound 2/5;value 1/2;timing|tree split low high -> BoundBelow { bound: Frac { num: 2, den: 5 }, value: Frac { num: 1, den: 2 } }",
    "claim verdict open;bound 1/2;no timing|tree split low split high high -> SplitOutside { node: 3 }",
    // 500 metres apart the block sum is 0 to 2. The boxes 0, 1 and 2; the third is none to split, at node 5.
    "apart 500|claim verdict open;bound 1;no timing|tree split_twice two_leaves leaf -> accepted",
    "apart 500|claim verdict open;bound 1;no timing|tree split_twice two_leaves split_at_one two_leaves -> SplitOutside { node: 5 }",
    // The second of them is none either, at node 4, and the box from 1 on is split.
    "apart 500|claim verdict open;bound 1;no timing|tree split_twice leaf split_at_one two_leaves leaf -> SplitOutside { node: 4 }",
    "apart 500|claim verdict open;bound 1;no timing|tree split leaf split_at_one two_leaves -> accepted",
    // Faults of the second leaf, which is the third node.
    "claim verdict open;bound 1/2;no timing|tree split low unknown_ratio -> NoSuchRow { leaf: 2, row: RowId { family: 13, index: 0 } }",
    "claim verdict open;bound 1/2;no timing|tree split low negative_wait -> Negative { leaf: 2, row: RowId { family: 2, index: 1 } }",
    "claim verdict none|tree wide -> Wide { leaf: 1, row: RowId { family: 1, index: 2 }, at: WideAt { place: Cell(0), wide: Wide { op: Add, left: Frac { num: 1, den: 1267650600228229401496703205376 }, right: Frac { num: 1, den: 2503155504993241601315571986085849 } } } }",
    // A bound of 2/5 is too low for the first leaf. Where no timing is claimed, no rows have no bound below 0.
    "claim verdict open;bound 2/5;no timing|tree split low high -> LeafTooWeak { leaf: 1, place: Bound }",
    "claim verdict open;bound 1;no timing|tree first_wait -> LeafTooWeak { leaf: 1, place: Cell(1) }",
    "claim verdict none|tree fast_run -> LeafTooWeak { leaf: 1, place: Cell(7) }",
    "claim verdict none|tree no_rows -> LeafTooWeak { leaf: 1, place: Bound }",
    // Two faults: the timing, its value, the bound, and then the nodes in their order.
    "apart 500|claim verdict best;value 2/5;timing|tree split low high -> TimingFails(Fast { dir: Outbound, link: 1 })",
    "claim verdict open;bound 1/5;value 2/5;timing|tree split low high -> ValueDiffers { kept: Frac { num: 1, den: 2 }, claimed: Frac { num: 2, den: 5 } }",
    "claim verdict open;bound 2/5;value 1/2;timing|tree split low split high high -> BoundBelow { bound: Frac { num: 2, den: 5 }, value: Frac { num: 1, den: 2 } }",
    "claim verdict open;bound 1/2;no timing|tree split low split ratio high -> SplitOutside { node: 3 }",
    "claim verdict open;bound 1/2;no timing|tree split ratio split high high -> NoSuchRow { leaf: 1, row: RowId { family: 13, index: 0 } }",
    // Of one row that it isn't there, that its multiplier is below 0, and that the sum is too wide; the rows in their
    // order, and the whole leaf after them.
    "claim verdict open;bound 1/2;no timing|tree split low negative_ratio -> NoSuchRow { leaf: 2, row: RowId { family: 13, index: 0 } }",
    "claim verdict none|tree negative_wide -> Negative { leaf: 1, row: RowId { family: 1, index: 2 } }",
    "claim verdict open;bound 1/2;no timing|tree split low negative_first -> Negative { leaf: 2, row: RowId { family: 2, index: 1 } }",
    "claim verdict open;bound 1/2;no timing|tree split no_rows ratio -> LeafTooWeak { leaf: 1, place: Cell(0) }",
    // An artery of the first version has no row of a least band.
    "claim verdict none|tree split narrow_low narrow_high -> NoSuchRow { leaf: 1, row: RowId { family: 18, index: 0 } }",
    // The same where each band has to be so many tenths of the cycle wide at least.
    // Both bands are three tenths of the cycle wide, which is more than a half together; of two tenths there are such.
    "least 3|claim verdict none|tree split narrow_low narrow_high -> accepted",
    "least 2|claim verdict none|tree split narrow_low narrow_high -> LeafTooWeak { leaf: 1, place: Bound }",
    "least 3|claim verdict none|tree equal_bands -> NoSuchRow { leaf: 1, row: RowId { family: 20, index: 0 } }",
    "least 0|claim verdict none|tree split narrow_low narrow_high -> NoSuchRow { leaf: 1, row: RowId { family: 18, index: 0 } }",
];

/// The lines of a node, or of several, by their name.
static NODES: [(&str, &str); 18] = [
    // The rows of the two leaves, and those of both least bands: no band is as wide as both ask.
    (
        "narrow_low",
        "leaf 9\nwout 2 1\nwin 2 1\nfast_out 1 1\nfast_in 1 1\ncycle_low 50\nloop_hi 1 1\nturn_hi 2 1\nleast_out 1\nleast_in 1\n",
    ),
    (
        "narrow_high",
        "leaf 9\nwout 1 1\nwin 1 1\nslow_out 1 1\nslow_in 1 1\ncycle_high 50\nloop_lo 1 1\nturn_hi 1 1\nleast_out 1\nleast_in 1\n",
    ),
    // No weighted band is above 1, in any box.
    ("leaf", "leaf 2\nwout 1 1\nwin 1 1\n"),
    (
        "two_leaves",
        "leaf 2\nwout 1 1\nwin 1 1\nleaf 2\nwout 1 1\nwin 1 1\n",
    ),
    // Of the block sums 0 to 2 those up to 1 come first, and of these 0.
    ("split_twice", "split loop 1 1\nsplit loop 1 0\n"),
    // In column 0 the sum with the second row needs the denominator 2^100 * 3^70.
    (
        "wide",
        "leaf 2\nwout 1 1/1267650600228229401496703205376\nwout 2 1/2503155504993241601315571986085849\n",
    ),
    // The second row's multiplier is below 0, and the sum with it needs that denominator.
    (
        "negative_wide",
        "leaf 2\nwout 1 1/1267650600228229401496703205376\nwout 2 -1/2503155504993241601315571986085849\n",
    ),
    // With reds of 80 the two rows of the link add up to 0 <= -1.
    ("no_sum", "leaf 2\nloop_lo 1 1\nloop_hi 1 1\n"),
    ("unknown_ratio", "leaf 2\nwout 1 1\nratio 1\n"),
    ("negative_wait", "leaf 2\nwout 1 1\nwin 1 -1\n"),
    // It says nothing of b_in.
    ("first_wait", "leaf 1\nwout 1 1\n"),
    // The row 25 z - y_out 1 <= 0 has its first negative coefficient in column 7.
    ("fast_run", "leaf 1\nfast_out 1 1\n"),
    ("no_rows", "leaf 0\n"),
    ("ratio", "leaf 1\nratio 1\n"),
    ("negative_ratio", "leaf 1\nratio -1\n"),
    ("negative_first", "leaf 2\nwin 1 -1\nratio 1\n"),
    ("split_at_one", "split loop 1 1\n"),
    // There is no row of it unless both bands have to be equal.
    ("equal_bands", "leaf 1\nequal_lo 1\n"),
];

fn listed(nodes: &[(&'static str, &'static str)], name: &str) -> Option<&'static str> {
    for (known, lines) in nodes {
        if *known == name {
            return Some(lines);
        }
    }
    None
}

/// The lines that other tests have too: a timing with half of the cycle outbound and nothing inbound, and nodes.
fn shared(name: &str) -> Option<&'static str> {
    match name {
        "timing" => Some(HALF_BAND),
        "split" => Some(SPLIT),
        "low" => Some(LOW_LEAF),
        "high" => Some(HIGH_LEAF),
        _ => None,
    }
}

/// The lines of this name, or none.
fn named(name: &str) -> Option<&'static str> {
    match shared(name) {
        Some(lines) => Some(lines),
        None => listed(&NODES, name),
    }
}

/// Some lines of a certificate: those of a name, or the line itself.
fn push_lines(text: &mut String, line: &str) -> Result<(), AllocError> {
    match named(line) {
        Some(lines) => text.push_str(lines),
        None => push_line(text, line),
    }
}

fn push_line(text: &mut String, line: &str) -> Result<(), AllocError> {
    text.push_str(line)?;
    text.push_str("\n")
}

fn push_all(text: &mut String, lines: &str, between: char) -> Result<(), AllocError> {
    for line in lines.split(between) {
        push_lines(text, line)?;
    }
    Ok(())
}

fn push_certificate(text: &mut String, claim: &str, tree: &str) -> Result<(), AllocError> {
    push_line(text, "maxband-certificate 1")?;
    push_all(text, claim, ';')?;
    push_line(text, "tree")?;
    push_all(text, tree, ' ')?;
    push_line(text, "end")
}

/// The certificate with this claim and these nodes.
fn certificate_text(alloc: Global, claim: &str, tree: &str) -> Result<String, AllocError> {
    let mut text = String::new(alloc);
    push_certificate(&mut text, claim, tree)?;
    Ok(text)
}

fn read(alloc: Global, text: &str) -> Result<Certificate, Fail> {
    match read_certificate(alloc, text.as_bytes()) {
        Ok(certificate) => Ok(certificate),
        Err(_) => Err("no certificate".into()),
    }
}

fn certificate(alloc: Global, record: TextRecord<'_>) -> Result<Certificate, Fail> {
    let (claim, tree) = (record.behind("claim")?, record.behind("tree")?);
    let text = certificate_text(alloc, claim, tree)?;
    read(alloc, text.as_str())
}

fn head(record: TextRecord<'_>) -> Result<SampleHead, Fail> {
    if record.behind("least")? == "none" {
        return Ok(plain_head());
    }
    Ok(with_least(record.quotient("least", 0, 10)?))
}

/// Two signals, with nothing said of them.
fn street(alloc: Global, head: SampleHead, red: u32, distance: u32) -> Result<Artery, Fail> {
    two_signals(alloc, head, red, distance)
}

fn artery(alloc: Global, record: TextRecord<'_>) -> Result<Artery, Fail> {
    let (red, distance) = (record.small("red", 0)?, record.small("apart", 0)?);
    street(alloc, head(record)?, red, distance)
}

/// What the check says, as text.
fn checked(
    alloc: Global,
    artery: &Artery,
    certificate: &Certificate,
) -> Result<String, AllocError> {
    match check(alloc, artery, certificate) {
        Ok(()) => String::from_str(alloc, "accepted"),
        Err(reject) => format!(in alloc; "{reject:?}"),
    }
}

fn answered(alloc: Global, artery: &Artery, record: TextRecord<'_>) -> Result<String, Fail> {
    let certificate = certificate(alloc, record)?;
    Ok(checked(alloc, artery, &certificate)?)
}

/// Checks a certificate, and tells why it is refused.
#[derive(Clone, Copy, Drop)]
struct Checks;

impl TextReader for Checks {
    fn answer(&self, alloc: Global, text: &[u8]) -> Result<String, Fail> {
        let record = TextRecord::new(text)?;
        let artery = artery(alloc, record)?;
        answered(alloc, &artery, record)
    }
}

#[test]
fn certificates(rt: HostRuntime) -> Result<(), Fail> {
    all_told(rt.alloc(), &Checks, CERTIFICATE, &CERTIFICATES)
}

/// The goal that is 0 at each point.
fn no_goal(alloc: Global, artery: &Artery) -> Result<Row, Fail>
    ensures { IfOk result (λ goal. length goal.coefs ≡ width (count artery.now)) }
{
    match Row::zero(alloc, column_count(artery)) {
        Ok(goal) => Ok(goal),
        Err(_) => Err("no memory".into()),
    }
}

/// What the check of one leaf without rows says, where that goal is to be at most this limit, or to have no point.
fn without_goal(
    alloc: Global,
    artery: &Artery,
    limit: Option<Frac>,
) -> Result<Result<(), TreeReject>, Fail> {
    let aim = Aim {
        goal: no_goal(alloc, artery)?,
        limit,
    };
    let multipliers = Vec::new(alloc);
    let nodes = [CertNode::Leaf(Leaf { multipliers })];
    let root = root_box(alloc, artery)?;
    Ok(check_tree(alloc, &ArteryRows { artery }, root, &aim, &nodes))
}

/// Fails where that check says something else.
fn goal_told(
    alloc: Global,
    artery: &Artery,
    limit: Option<Frac>,
    want: Result<(), TreeReject>,
) -> Result<(), Fail> {
    if without_goal(alloc, artery, limit)? == want {
        return Ok(());
    }
    Err("another answer".into())
}

fn weak() -> TreeReject {
    TreeReject::LeafTooWeak {
        leaf: 1,
        place: Place::Bound,
    }
}

/// A sum of no rows keeps it down to 0, to nothing less, and rules no box out.
#[test]
fn trees_with_another_goal(rt: HostRuntime) -> Result<(), Fail> {
    let artery = street(rt.alloc(), plain_head(), 50, 250)?;
    goal_told(rt.alloc(), &artery, Some(Frac::whole(0)), Ok(()))?;
    goal_told(rt.alloc(), &artery, Some(Frac::whole(-1)), Err(weak()))?;
    goal_told(rt.alloc(), &artery, None, Err(weak()))
}
