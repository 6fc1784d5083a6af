//! Sums of leaves on two signals 250 metres apart, at 36 kilometres an hour and a cycle of 100 seconds.

ghost use Rattle.std.specs.Prelude.{◌≡◌, IfOk, length};
ghost use Rattle.progression.specs.Street.{count};

use crate::tests::row_texts::{leaf_of, weight};
use artery_model::Artery;
use loop_rows::{SumFault, leaf_sum};
use named_row::{Place, Row, RowId, Weight, WideAt};
use narrow_fraction::{Frac, Op, Wide};
use search_box::SearchBox;
use std::alloc::Global;
use std::rt::HostRuntime;
use std::test::Fail;
use test_bed::{fraction, plain_head, two_signals};

const TWO_100: i128 = 1_267_650_600_228_229_401_496_703_205_376;

const THREE_70: i128 = 2_503_155_504_993_241_601_315_571_986_085_849;

fn row(family: u8, index: u32) -> RowId {
    RowId { family, index }
}

/// The sum of these rows of the root box.
fn sum_of(alloc: Global, artery: &Artery, weights: &[Weight]) -> Result<Result<Row, SumFault>, Fail>
    requires { count artery.now ≡ 2 }
    ensures { IfOk result (λ sum. IfOk sum (λ row. length row.coefs ≡ 11)) }
{
    let area = SearchBox::root(alloc, artery)?;
    Ok(leaf_sum(alloc, artery, &area, &leaf_of(alloc, weights)?))
}

/// Whether all coefficients are 0 and the bound is this number.
fn has_bound_alone(row: &Row, bound: i64) -> bool
    requires { length row.now.coefs ≡ 11 }
{
    for column in 0..11 {
        if row.get(Place::Cell(column)) != Frac::whole(0) {
            return false;
        }
    }
    row.get(Place::Bound) == Frac::whole(bound)
}

/// What the sum of some rows of the root box gives: coefficients that are all 0 with a whole bound, or a fault.
fn given(
    alloc: Global,
    red: u32,
    weights: &[Weight],
    expected: Result<i64, SumFault>,
) -> Result<bool, Fail> {
    let artery = two_signals(alloc, plain_head(), red, 250)?;
    Ok(match sum_of(alloc, &artery, weights)? {
        Ok(sum) => match expected {
            Ok(bound) => has_bound_alone(&sum, bound),
            Err(_) => false,
        },
        Err(fault) => expected == Err(fault),
    })
}

#[test]
fn sums_of_leaves(rt: HostRuntime) -> Result<(), Fail> {
    let alloc = rt.alloc();
    let (one, below) = (Frac::whole(1), Frac::whole(-1));
    assert!(rt; given(alloc, 50, &[], Ok(0))?);
    // with reds of 80 parts no block sum is in reach: its least is 1 and its greatest 0
    let both = [weight(14, 1, one), weight(15, 1, one)];
    assert!(rt; given(alloc, 80, &both, Ok(-1))?);
    // the artery has no row of a ratio, and a wait's multiplier is below 0
    let no_row = SumFault::NoSuchRow { row: row(13, 0) };
    let no_sign = SumFault::Negative { row: row(1, 2) };
    let weights = [weight(1, 1, one), weight(13, 0, below), weight(1, 2, below)];
    assert!(rt; given(alloc, 50, &weights, Err(no_row))?);
    let weights = [weight(1, 1, one), weight(1, 2, below), weight(13, 0, below)];
    assert!(rt; given(alloc, 50, &weights, Err(no_sign))?);
    // in column 0 the second sum needs the denominator 2^100 * 3^70
    let left = fraction(1, TWO_100)?;
    let right = fraction(1, THREE_70)?;
    let at = WideAt {
        place: Place::Cell(0),
        wide: Wide {
            op: Op::Add,
            left,
            right,
        },
    };
    let wide = SumFault::Wide { row: row(1, 2), at };
    let weights = [weight(1, 1, left), weight(1, 2, right)];
    assert!(rt; given(alloc, 50, &weights, Err(wide))?);
    Ok(())
}
