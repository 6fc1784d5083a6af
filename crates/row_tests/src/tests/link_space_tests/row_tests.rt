//! Worked rows of links: two signals with red 50 of 100 parts, cycle 100 seconds, 500 metres each way at 36 kilometres an hour.

ghost use Rattle.std.specs.Prelude.{◌≡◌, IfOk, length};
ghost use Rattle.progression.specs.Street.{count};

use crate::tests::row_texts::{LINE_WIDTH, empty, filled_text, leaf_of, same_text, weight};
use artery_model::Artery;
use link_space::{fill_link_goal, fill_link_row, link_sum, next_link_row};
use loop_rows::SumFault;
use named_row::{Place, Row, RowId, Weight};
use narrow_fraction::Frac;
use search_box::SearchBox;
use std::alloc::Global;
use std::rt::HostRuntime;
use std::test::Fail;
use test_bed::{fraction_or_zero, two_signals, with_ratio};

/// The columns are those of two signals, h_out 1 and h_in 1.
const WIDTH: u32 = 13;

/// All rows of the root box where the inbound bands count half, its link having the block sums 0 to 2 and its signals the shift 0.
static ROOT_ROWS: [&str; 21] = [
    "3.1: 0 0 50 0 0 0 0 -1 0 0 0 0 0 <= 0",
    "4.1: 0 0 50 0 0 0 0 0 -1 0 0 0 0 <= 0",
    "5.1: 0 0 -50 0 0 0 0 1 0 0 0 0 0 <= 0",
    "6.1: 0 0 -50 0 0 0 0 0 1 0 0 0 0 <= 0",
    "11.0: 0 0 -1 0 0 0 0 0 0 0 0 0 0 <= -1/100",
    "12.0: 0 0 1 0 0 0 0 0 0 0 0 0 0 <= 1/100",
    "14.1: 0 0 0 -1 1 -1 1 -1 -1 -1 1 0 0 <= 0",
    "15.1: 0 0 0 1 -1 1 -1 1 1 1 -1 0 0 <= 2",
    "16.1: 0 0 0 0 0 0 0 0 0 -1 0 0 0 <= 0",
    "16.2: 0 0 0 0 0 0 0 0 0 0 -1 0 0 <= 0",
    "17.1: 0 0 0 0 0 0 0 0 0 1 0 0 0 <= 0",
    "17.2: 0 0 0 0 0 0 0 0 0 0 1 0 0 <= 0",
    "22.1: 0 0 0 -1 0 0 0 0 0 0 0 1 0 <= 0",
    "23.1: 0 0 0 0 -1 0 0 0 0 0 0 1 0 <= 0",
    "24.1: 0 0 0 1 0 0 0 0 0 0 0 1 0 <= 1/2",
    "25.1: 0 0 0 0 1 0 0 0 0 0 0 1 0 <= 1/2",
    "26.1: 0 0 0 0 0 -1 0 0 0 0 0 0 1 <= 0",
    "27.1: 0 0 0 0 0 0 -1 0 0 0 0 0 1 <= 0",
    "28.1: 0 0 0 0 0 1 0 0 0 0 0 0 1 <= 1/2",
    "29.1: 0 0 0 0 0 0 1 0 0 0 0 0 1 <= 1/2",
    "30.1: 0 0 0 0 0 0 0 0 0 0 0 1/2 -1 <= 0",
];

/// Names of no row there.
static ABSENT: [(u8, u32); 15] = [
    (0, 0),
    (1, 1),
    (2, 2),
    (3, 2),
    (7, 1),
    (11, 1),
    (13, 0),
    (18, 0),
    (21, 0),
    (22, 0),
    (22, 2),
    (29, 4_294_967_295),
    (30, 1),
    (31, 1),
    (255, 1),
];

/// Whether a row has these numbers, in halves, and this bound.
fn is_row(row: &Row, halves: &[i128; 13], bound: Frac) -> bool
    requires { length row.now.coefs ≡ 13 }
{
    for column in 0..WIDTH {
        if row.get(Place::Cell(column)) != fraction_or_zero(halves[column as usize], 2) {
            return false;
        }
    }
    row.get(Place::Bound) == bound
}

/// A row of numbers, to be written over.
fn marked(alloc: Global) -> Result<Row, Fail>
    ensures { IfOk result (λ row. length row.coefs ≡ 13) }
{
    let mut row = empty(alloc, WIDTH)?;
    row.set(Place::Cell(0), Frac::whole(7));
    row.set(Place::Cell(4), Frac::whole(7));
    row.set(Place::Cell(12), Frac::whole(-2));
    row.set(Place::Bound, Frac::whole(3));
    Ok(row)
}

/// The row of this name in the root box, written over such a row; or what is left of that row where there is none.
fn filled(alloc: Global, artery: &Artery, name: RowId) -> Result<String, Fail>
    requires { count artery.now ≡ 2 }
{
    let area = SearchBox::root(alloc, artery)?;
    let mut room = empty(alloc, LINE_WIDTH)?;
    let mut row = marked(alloc)?;
    let is_there = fill_link_row(artery, &area, name, &mut room, &mut row);
    filled_text(alloc, is_there, name, &row, WIDTH)
}

fn of_ratio(alloc: Global, halves: i128) -> Result<Artery, Fail>
    ensures { IfOk result (λ a. count a ≡ 2) }
{
    two_signals(alloc, with_ratio(fraction_or_zero(halves, 2)), 50, 500)
}

/// Fails where the row of this name is another.
fn told(alloc: Global, artery: &Artery, name: RowId, want: &str) -> Result<(), Fail>
    requires { count artery.now ≡ 2 }
{
    let found = filled(alloc, artery, name)?;
    same_text(found.as_str(), want)
}

/// The name of the row behind that one, with nothing said of it.
fn next(artery: &Artery, after: Option<RowId>) -> Option<RowId> {
    next_link_row(artery, after)
}

/// Fails where the rows in their order are others.
fn all_told(alloc: Global, artery: &Artery, rows: &[&str]) -> Result<(), Fail>
    requires { count artery.now ≡ 2 }
{
    let mut after = None;
    for row in rows {
        let Some(name) = next(artery, after) else {
            return Err("a row is missing".into());
        };
        told(alloc, artery, name, row)?;
        after = Some(name);
    }
    match next(artery, after) {
        None => Ok(()),
        Some(_) => Err("a row too many".into()),
    }
}

/// Fails where there is a row of one of these names.
fn none_told(alloc: Global, artery: &Artery, names: &[(u8, u32)]) -> Result<(), Fail>
    requires { count artery.now ≡ 2 }
{
    for (family, index) in names {
        let (family, index) = (*family, *index);
        let left = format!(in alloc; "no {family}.{index}: 7 0 0 0 7 0 0 0 0 0 0 0 -2 <= 3")?;
        told(alloc, artery, RowId { family, index }, left.as_str())?;
    }
    Ok(())
}

#[test]
fn rows_of_the_root_in_order(rt: HostRuntime) -> Result<(), Fail> {
    let artery = of_ratio(rt.alloc(), 1)?;
    all_told(rt.alloc(), &artery, &ROOT_ROWS)
}

/// With the ratio 1 there is no row of it.
#[test]
fn rows_that_are_not_there(rt: HostRuntime) -> Result<(), Fail> {
    let artery = of_ratio(rt.alloc(), 2)?;
    none_told(rt.alloc(), &artery, &ABSENT)?;
    let family = |family| RowId { family, index: 1 };
    let last = Some(family(29));
    assert_eq!(rt; next(&artery, Some(family(28))), last);
    assert_eq!(rt; next(&artery, last), None);
    Ok(())
}

/// The goal where the inbound band counts half.
#[test]
fn goals(rt: HostRuntime) -> Result<(), Fail> {
    let artery = of_ratio(rt.alloc(), 1)?;
    let mut row = marked(rt.alloc())?;
    fill_link_goal(&artery, &mut row);
    let halves = [0, 0, 0, 0, 0, 0, 0, 0, 0, 0, 0, 4, 2];
    assert!(rt; is_row(&row, &halves, Frac::whole(0)));
    Ok(())
}

/// The sum of these rows of the root box.
fn sum_of(alloc: Global, artery: &Artery, weights: &[Weight]) -> Result<Result<Row, SumFault>, Fail>
    requires { count artery.now ≡ 2 }
    ensures { IfOk result (λ sum. IfOk sum (λ row. length row.coefs ≡ 13)) }
{
    let area = SearchBox::root(alloc, artery)?;
    Ok(link_sum(alloc, artery, &area, &leaf_of(alloc, weights)?))
}

#[test]
fn sums_of_leaves(rt: HostRuntime) -> Result<(), Fail> {
    let alloc = rt.alloc();
    let artery = of_ratio(alloc, 1)?;
    // twice the outbound row, and twice the ratio times the inbound one, cover the goal
    let weights = [weight(24, 1, Frac::whole(2)), weight(28, 1, Frac::whole(1))];
    let Ok(sum) = sum_of(alloc, &artery, &weights)? else {
        return Err("no sum".into());
    };
    let halves = [0, 0, 0, 4, 0, 2, 0, 0, 0, 0, 0, 4, 2];
    assert!(rt; is_row(&sum, &halves, fraction_or_zero(3, 2)));
    Ok(())
}

/// What is wrong with the sum of one row.
fn fault_of(alloc: Global, weight: Weight) -> Result<Option<SumFault>, Fail> {
    let artery = of_ratio(alloc, 1)?;
    match sum_of(alloc, &artery, &[weight])? {
        Ok(_) => Ok(None),
        Err(fault) => Ok(Some(fault)),
    }
}

#[test]
fn sums_that_are_refused(rt: HostRuntime) -> Result<(), Fail> {
    let alloc = rt.alloc();
    let no_row = weight(1, 1, Frac::whole(1));
    let row = no_row.row;
    assert_eq!(rt; fault_of(alloc, no_row)?, Some(SumFault::NoSuchRow { row }));
    let below = weight(24, 1, Frac::whole(-1));
    let row = below.row;
    assert_eq!(rt; fault_of(alloc, below)?, Some(SumFault::Negative { row }));
    Ok(())
}
