//! Three signals with all features, and points of good timings set into every row. Cycles have 200 ticks, two a second.

ghost use Rattle.std.specs.Prelude.{◌≡◌, IfOk, length};
ghost use Rattle.progression.specs.Street.{count};

use crate::tests::row_texts::{empty, same_text};
use artery_model::Artery;
use loop_rows::{block_sum, fill_row, next_row};
use named_row::{Place, Point, Row, RowId};
use narrow_fraction::Frac;
use search_box::SearchBox;
use std::alloc::Global;
use std::rt::HostRuntime;
use std::test::Fail;
use test_bed::{
    SampleHead, SampleLink, SampleSignal, fraction_or_zero, paced_link, plain_head, plain_signal,
    range, sample_street,
};

/// The columns are b_out, b_in, z, w_out 1 to 3, w_in 1 to 3, y_out 1 and 2, y_in 1 and 2, s 1 to 3.
const WIDTH: u32 = 16;

/// A good timing's point in ticks, and the rows that it meets with equality, each by its family and its index.
#[derive(Clone, Copy)]
struct FeatureCase {
    ticks: [i128; 16],
    tight: &'static str,
}

const ALL: [bool; 4] = [true, true, true, true];

fn head() -> SampleHead {
    SampleHead {
        cycle: range(90, 110),
        ratio: fraction_or_zero(1, 2),
        ..plain_head()
    }
}

fn outer(name: &'static str) -> SampleSignal {
    SampleSignal {
        patterns: ALL,
        ..plain_signal(name, 50)
    }
}

/// With left turns, clearances, and two patterns.
fn middle() -> SampleSignal {
    SampleSignal {
        left_out: 10,
        left_in: 6,
        patterns: [true, false, true, false],
        clear_out: 5,
        clear_in: 4,
        ..plain_signal("B", 40)
    }
}

fn free_link() -> SampleLink {
    paced_link(500, 600, 30, 45)
}

fn limited_link() -> SampleLink {
    SampleLink {
        distance_in: 400,
        change_out: Some(range(-10, 10)),
        change_in: Some(range(-20, 5)),
        ..free_link()
    }
}

fn artery(alloc: Global) -> Result<Artery, Fail>
    ensures { IfOk result (λ a. count a ≡ 3) }
{
    let signals = [outer("A"), middle(), outer("C")];
    let links = [limited_link(), free_link()];
    match sample_street(alloc, head(), &signals, &links) {
        Ok(artery) => Ok(artery),
        Err(_) => Err("no artery".into()),
    }
}

/// What is left without a product, with nothing said of it.
fn less(left: Frac, coefficient: Frac, value: Frac) -> Option<Frac> {
    left.minus(coefficient.times(value).ok()?).ok()
}

/// What the row's sum leaves of its bound at a point.
fn slack(row: &Row, values: &[Frac]) -> Option<Frac>
    requires width { length row.now.coefs ≡ 16 }
    requires values { length values.now ≡ 16 }
{
    let mut left = row.get(Place::Bound);
    for column in 0..WIDTH {
        left = less(left, row.get(Place::Cell(column)), values[column as usize])?;
    }
    Some(left)
}

/// What the row of this name leaves in the root box.
fn left_by(alloc: Global, artery: &Artery, name: RowId, values: &[Frac]) -> Result<Frac, Fail>
    requires signals { count artery.now ≡ 3 }
    requires values { length values.now ≡ 16 }
{
    let area = SearchBox::root(alloc, artery)?;
    let mut row = empty(alloc, WIDTH)?;
    if !fill_row(artery, &area, name, &mut row) {
        return Err("a row is missing".into());
    }
    match slack(&row, values) {
        Some(left) => Ok(left),
        None => Err("a sum that does not fit".into()),
    }
}

/// The name of a row that the point meets with equality, or nothing where something is left.
fn named_if_tight(alloc: Global, name: RowId, left: Frac) -> Result<String, Fail> {
    let zero = Frac::whole(0);
    if left < zero {
        return Err("a row that the point doesn't meet".into());
    }
    if left == zero {
        return Ok(format!(in alloc; "{}.{} ", name.family, name.index)?);
    }
    Ok(String::new(alloc))
}

/// The names of the rows that a point meets with equality, which meets every row of all 31.
fn tight_rows(alloc: Global, artery: &Artery, values: &[Frac]) -> Result<String, Fail>
    requires signals { count artery.now ≡ 3 }
    requires values { length values.now ≡ 16 }
{
    let mut tight = String::new(alloc);
    let mut after = None;
    for _ in 0..31 {
        let name = next_row(artery, after).ok_or("a row is missing")?;
        let left = left_by(alloc, artery, name, values)?;
        tight.push_str(named_if_tight(alloc, name, left)?.as_str())?;
        after = Some(name);
    }
    match next_row(artery, after) {
        None => Ok(tight),
        Some(_) => Err("a row too many".into()),
    }
}

/// A share of the cycle.
fn share(ticks: i128) -> Frac {
    fraction_or_zero(ticks, 200)
}

static WORKED: [FeatureCase; 4] = [
    // Outbound lines cross at 100, 190 and 290, inbound ones at 108, 220 and 300; the middle signal has pattern 3.
    FeatureCase {
        ticks: [100, 60, 2, 0, 0, 0, 40, 18, 22, 100, 100, 80, 120, 0, 12, 0],
        tight: "1.1 1.3 2.1 16.1 16.3 17.1 17.2 17.3",
    },
    // The second outbound run is as much slower as the change of pace allows.
    FeatureCase {
        ticks: [90, 60, 2, 0, 0, 10, 40, 18, 22, 100, 110, 80, 120, 0, 12, 0],
        tight: "1.3 2.1 7.1 16.1 16.3 17.1 17.2 17.3",
    },
    // Bands of width 0; the outbound line crosses the outer signals at the first tick of their reds.
    FeatureCase {
        ticks: [
            0, 0, 2, 100, 100, 100, 100, 78, 82, 100, 100, 80, 120, 0, 12, 0,
        ],
        tight: "1.1 1.3 2.1 13.0 16.1 16.3 17.1 17.2 17.3",
    },
    // Pattern 1 at the middle signal, whose common red starts 12 ticks later.
    FeatureCase {
        ticks: [100, 60, 2, 0, 0, 0, 40, 30, 22, 100, 100, 80, 120, 0, 0, 0],
        tight: "1.1 1.3 2.1 16.1 16.2 16.3 17.1 17.3",
    },
];

fn has_whole_sums(artery: &Artery, point: &Point) -> bool
    requires signals { count artery.now ≡ 3 }
    requires values { length point.now.values.items ≡ 16 }
{
    let one = Ok(Frac::whole(1));
    block_sum(artery, point, 1) == one && block_sum(artery, point, 2) == one
}

/// The names of the rows that a case's point meets with equality, where it meets all and both block sums are 1.
fn met(alloc: Global, artery: &Artery, case: &FeatureCase) -> Result<String, Fail>
    requires { count artery.now ≡ 3 }
{
    let values = case.ticks.map(share);
    let tight = tight_rows(alloc, artery, &values)?;
    let values = Vec::from_slice(alloc, &values)?;
    if !has_whole_sums(artery, &Point { values }) {
        return Err("a block sum that isn't 1".into());
    }
    Ok(tight)
}

/// Fails where those are other names than the case's.
fn case_told(alloc: Global, artery: &Artery, case: &FeatureCase) -> Result<(), Fail>
    requires { count artery.now ≡ 3 }
{
    let tight = met(alloc, artery, case)?;
    same_text(tight.as_str().trim_end(), case.tight)
}

#[test]
fn points_of_good_timings_meet_every_row_and_have_whole_block_sums(
    rt: HostRuntime,
) -> Result<(), Fail> {
    let artery = artery(rt.alloc())?;
    for case in &WORKED {
        case_told(rt.alloc(), &artery, case)?;
    }
    Ok(())
}
