//! Worked rows: two signals with red 50 of 100 parts, cycle 100 seconds, 500 metres each way at 36 kilometres an hour.

ghost use Rattle.std.specs.Prelude.{◌≡◌, IfOk, length};
ghost use Rattle.progression.specs.Street.{count};

use crate::tests::row_texts::{LINE_WIDTH, empty, filled_text, row_text, same_text};
use artery_model::Artery;
use loop_rows::{block_sum, fill_goal, fill_row, next_row};
use named_row::{Place, Point, Row, RowId};
use narrow_fraction::Frac;
use search_box::SearchBox;
use std::alloc::Global;
use std::rt::HostRuntime;
use std::test::Fail;
use test_bed::{SampleHead, fraction_or_zero, two_signals, with_ratio};

/// All rows of the root box, whose link has the block sums 0 to 2 and whose signals have the shift 0.
static ROOT_ROWS: [&str; 16] = [
    "1.1: 1 0 0 1 0 0 0 0 0 0 0 <= 1/2",
    "1.2: 1 0 0 0 1 0 0 0 0 0 0 <= 1/2",
    "2.1: 0 1 0 0 0 1 0 0 0 0 0 <= 1/2",
    "2.2: 0 1 0 0 0 0 1 0 0 0 0 <= 1/2",
    "3.1: 0 0 50 0 0 0 0 -1 0 0 0 <= 0",
    "4.1: 0 0 50 0 0 0 0 0 -1 0 0 <= 0",
    "5.1: 0 0 -50 0 0 0 0 1 0 0 0 <= 0",
    "6.1: 0 0 -50 0 0 0 0 0 1 0 0 <= 0",
    "11.0: 0 0 -1 0 0 0 0 0 0 0 0 <= -1/100",
    "12.0: 0 0 1 0 0 0 0 0 0 0 0 <= 1/100",
    "14.1: 0 0 0 -1 1 -1 1 -1 -1 -1 1 <= 0",
    "15.1: 0 0 0 1 -1 1 -1 1 1 1 -1 <= 2",
    "16.1: 0 0 0 0 0 0 0 0 0 -1 0 <= 0",
    "16.2: 0 0 0 0 0 0 0 0 0 0 -1 <= 0",
    "17.1: 0 0 0 0 0 0 0 0 0 1 0 <= 0",
    "17.2: 0 0 0 0 0 0 0 0 0 0 1 <= 0",
];

/// Names of no row there.
static ABSENT: [(u8, u32); 20] = [
    (0, 0),
    (0, 1),
    (1, 0),
    (1, 3),
    (1, 4_294_967_295),
    (3, 2),
    (7, 1),
    (7, 4_294_967_295),
    (10, 1),
    (11, 1),
    (13, 0),
    (14, 0),
    (15, 2),
    (17, 3),
    (18, 0),
    (19, 0),
    (20, 0),
    (21, 0),
    (22, 0),
    (255, 1),
];

/// A row of numbers, to be written over.
fn marked(alloc: Global) -> Result<Row, Fail>
    ensures { IfOk result (λ row. length row.coefs ≡ 11) }
{
    let mut row = empty(alloc, LINE_WIDTH)?;
    row.set(Place::Cell(0), Frac::whole(7));
    row.set(Place::Cell(4), Frac::whole(7));
    row.set(Place::Cell(10), Frac::whole(-2));
    row.set(Place::Bound, Frac::whole(3));
    Ok(row)
}

/// The row of this name in the root box, written over such a row; or what is left of that row where there is none.
fn filled(alloc: Global, artery: &Artery, name: RowId) -> Result<String, Fail>
    requires { count artery.now ≡ 2 }
{
    let area = SearchBox::root(alloc, artery)?;
    let mut row = marked(alloc)?;
    let is_there = fill_row(artery, &area, name, &mut row);
    filled_text(alloc, is_there, name, &row, LINE_WIDTH)
}

/// The weighted band, with the name of no row.
fn goal(alloc: Global, artery: &Artery) -> Result<String, Fail>
    requires { count artery.now ≡ 2 }
{
    let mut row = marked(alloc)?;
    fill_goal(artery, &mut row);
    let name = RowId {
        family: 0,
        index: 0,
    };
    Ok(row_text(alloc, name, &row, LINE_WIDTH)?)
}

fn of_ratio(alloc: Global, num: i128, den: i128) -> Result<Artery, Fail>
    ensures { IfOk result (λ a. count a ≡ 2) }
{
    two_signals(alloc, with_ratio(fraction_or_zero(num, den)), 50, 500)
}

/// Fails where the row of this name is another.
fn told(alloc: Global, artery: &Artery, name: RowId, want: &str) -> Result<(), Fail>
    requires { count artery.now ≡ 2 }
{
    let found = filled(alloc, artery, name)?;
    same_text(found.as_str(), want)
}

/// The name of the row behind that one, with nothing said of it.
fn next(artery: &Artery, after: Option<RowId>) -> Option<RowId> {
    next_row(artery, after)
}

/// Fails where the rows in their order are others.
fn all_told(alloc: Global, artery: &Artery, rows: &[&str]) -> Result<(), Fail>
    requires { count artery.now ≡ 2 }
{
    let mut after = None;
    for row in rows {
        let Some(name) = next(artery, after) else {
            return Err("a row is missing".into());
        };
        told(alloc, artery, name, row)?;
        after = Some(name);
    }
    match next(artery, after) {
        None => Ok(()),
        Some(_) => Err("a row too many".into()),
    }
}

/// Fails where there is a row of one of these names.
fn none_told(alloc: Global, artery: &Artery, names: &[(u8, u32)]) -> Result<(), Fail>
    requires { count artery.now ≡ 2 }
{
    for (family, index) in names {
        let (family, index) = (*family, *index);
        let left = format!(in alloc; "no {family}.{index}: 7 0 0 0 7 0 0 0 0 0 -2 <= 3")?;
        told(alloc, artery, RowId { family, index }, left.as_str())?;
    }
    Ok(())
}

#[test]
fn rows_of_the_root_in_order(rt: HostRuntime) -> Result<(), Fail> {
    let artery = of_ratio(rt.alloc(), 1, 1)?;
    all_told(rt.alloc(), &artery, &ROOT_ROWS)
}

#[test]
fn rows_that_are_not_there(rt: HostRuntime) -> Result<(), Fail> {
    let artery = of_ratio(rt.alloc(), 1, 1)?;
    none_told(rt.alloc(), &artery, &ABSENT)
}

/// A ratio, its row, and the weighted band.
static BOTH_BANDS: [(i128, i128, &str, &str); 3] = [
    (
        0,
        1,
        "13.0: 0 -1 0 0 0 0 0 0 0 0 0 <= 0",
        "0.0: 1 0 0 0 0 0 0 0 0 0 0 <= 0",
    ),
    (
        1,
        2,
        "13.0: 1/2 -1 0 0 0 0 0 0 0 0 0 <= 0",
        "0.0: 1 1/2 0 0 0 0 0 0 0 0 0 <= 0",
    ),
    (
        2,
        1,
        "13.0: -2 1 0 0 0 0 0 0 0 0 0 <= 0",
        "0.0: 1 2 0 0 0 0 0 0 0 0 0 <= 0",
    ),
];

/// Fails where a ratio's row or the weighted band is another.
fn bands_told(alloc: Global, num: i128, den: i128, row: &str, weighted: &str) -> Result<(), Fail> {
    let artery = of_ratio(alloc, num, den)?;
    let name = RowId {
        family: 13,
        index: 0,
    };
    told(alloc, &artery, name, row)?;
    same_text(goal(alloc, &artery)?.as_str(), weighted)
}

#[test]
fn rows_of_both_bands(rt: HostRuntime) -> Result<(), Fail> {
    for (num, den, row, weighted) in BOTH_BANDS {
        bands_told(rt.alloc(), num, den, row, weighted)?;
    }
    Ok(())
}

/// The rows of least bands and of equal bands, which stand last.
static ASKED: [(u8, &str); 4] = [
    (18, "18.0: -1 0 0 0 0 0 0 0 0 0 0 <= -1/4"),
    (19, "19.0: 0 -1 0 0 0 0 0 0 0 0 0 <= -1/5"),
    (20, "20.0: 1 -1 0 0 0 0 0 0 0 0 0 <= 0"),
    (21, "21.0: -1 1 0 0 0 0 0 0 0 0 0 <= 0"),
];

fn asked(alloc: Global) -> Result<Artery, Fail>
    ensures { IfOk result (λ a. count a ≡ 2) }
{
    let head = SampleHead {
        version: 2,
        least_out: fraction_or_zero(1, 4),
        least_in: fraction_or_zero(1, 5),
        equal: true,
        ..with_ratio(Frac::whole(1))
    };
    two_signals(alloc, head, 50, 500)
}

/// Fails where the rows of these families, in this order behind the others, are others, or there is a second one of a family.
fn asked_told(alloc: Global, artery: &Artery, rows: &[(u8, &str)]) -> Result<(), Fail>
    requires { count artery.now ≡ 2 }
{
    let mut after = Some(RowId {
        family: 17,
        index: 2,
    });
    for (family, row) in rows {
        let name = RowId {
            family: *family,
            index: 0,
        };
        if next(artery, after) != Some(name) {
            return Err("another row is next".into());
        }
        told(alloc, artery, name, row)?;
        none_told(alloc, artery, &[(*family, 1)])?;
        after = Some(name);
    }
    match next(artery, after) {
        None => Ok(()),
        Some(_) => Err("a row too many".into()),
    }
}

#[test]
fn rows_of_bands_that_are_asked_for(rt: HostRuntime) -> Result<(), Fail> {
    let artery = asked(rt.alloc())?;
    asked_told(rt.alloc(), &artery, &ASKED)
}

/// The point of a timing whose bands fill the greens: grid 2, unit 2, 200 ticks, reds from 0 and 100, runs of 100.
#[test]
fn block_sum_of_a_timing(rt: HostRuntime) -> Result<(), Fail> {
    let artery = of_ratio(rt.alloc(), 1, 1)?;
    let (zero, half) = (Frac::whole(0), fraction_or_zero(1, 2));
    let values = vec![in rt.alloc();
        half,
        half,
        fraction_or_zero(1, 100),
        zero,
        zero,
        zero,
        zero,
        half,
        half,
        zero,
        zero,
    ]?;
    assert_eq!(rt;
        block_sum(&artery, &Point { values }, 1),
        Ok(Frac::whole(1))
    );
    Ok(())
}
