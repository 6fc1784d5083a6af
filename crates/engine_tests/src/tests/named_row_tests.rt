//! Rows of two columns that were added up by hand.

ghost use Rattle.std.specs.Prelude.{◌≡◌, length, false};

use crate::tests::two_columns::{TWO_126, row};
use named_row::{Place, Row, RowId, WideAt};
use narrow_fraction::{Frac, Op, Wide};
use std::alloc::Global;
use std::process::Abort;
use std::rt::HostRuntime;
use test_bed::fraction_or_zero as fraction;

/// The numbers of a row, the bound last.
fn numbers(row: &Row) -> [Frac; 3]
    requires { length row.now.coefs ≡ 2 }
{
    [
        row.get(Place::Cell(0)),
        row.get(Place::Cell(1)),
        row.get(Place::Bound),
    ]
}

/// Adds a row so often.
fn add(own: &mut Row, by: Frac, other: &Row) -> Result<(), WideAt>
    requires width { length own.old.coefs ≡ 2 }
    requires unspent { own.old.spent ≡ false }
    requires other_width { length other.now.coefs ≡ 2 }
    requires other_unspent { other.now.spent ≡ false }
    ensures { length own.new.coefs ≡ 2 }
{
    own.add_scaled(by, other)
}

/// The sum of a row and of another one so often.
fn sum(alloc: Global, own: [Frac; 3], by: Frac, other: [Frac; 3]) -> Option<[Frac; 3]> {
    let mut own = row(alloc, own)?;
    let other = row(alloc, other)?;
    match add(&mut own, by, &other) {
        Ok(()) => Some(numbers(&own)),
        Err(_) => None,
    }
}

/// Whether a row was spent, and is no more once it is cleared.
fn is_cleared(own: &mut Row) -> bool
    requires { length own.old.coefs ≡ 2 }
    ensures width { length own.new.coefs ≡ 2 }
    ensures unspent { own.new.spent ≡ false }
{
    let was_spent = own.is_spent();
    own.clear();
    was_spent && !own.is_spent()
}

fn refusal(place: Place, op: Op, left: Frac, right: Frac) -> Result<(), WideAt> {
    Err(WideAt {
        place,
        wide: Wide { op, left, right },
    })
}

#[test]
fn sum_of_rows(rt: HostRuntime) {
    let own = [fraction(1, 2), fraction(-1, 3), fraction(1, 1)];
    let other = [fraction(3, 1), fraction(1, 2), fraction(-6, 1)];
    let want = [fraction(5, 2), fraction(0, 1), fraction(-3, 1)];
    assert_eq!(rt; sum(rt.alloc(), own, fraction(2, 3), other), Some(want));
}

#[test]
fn a_column_of_zero_stays(rt: HostRuntime) {
    let wide = fraction(TWO_126, 1);
    let zero = fraction(0, 1);
    let own = [wide, fraction(1, 1), zero];
    let other = [zero, fraction(1, TWO_126), zero];
    let want = [wide, fraction(2, 1), zero];
    assert_eq!(rt; sum(rt.alloc(), own, wide, other), Some(want));
}

/// What is answered where a row is added twice, and where it is added once to the other one that was cleared and has this bound;
/// and whether the first answer spent that one.
fn refusals(
    own: &mut Row,
    other: &Row,
    bound: Frac,
) -> (Result<(), WideAt>, bool, Result<(), WideAt>)
    requires width { length own.old.coefs ≡ 2 }
    requires unspent { own.old.spent ≡ false }
    requires other_width { length other.now.coefs ≡ 2 }
    requires other_unspent { other.now.spent ≡ false }
{
    let twice = add(own, fraction(2, 1), other);
    let is_cleared = is_cleared(own);
    own.set(Place::Bound, bound);
    (twice, is_cleared, add(own, fraction(1, 1), other))
}

#[test]
fn first_refused_operation(rt: HostRuntime) {
    let alloc = rt.alloc();
    let wide = fraction(TWO_126, 1);
    let two = fraction(2, 1);
    let mut own = row(alloc, [two, two, wide]).expect(&rt, "memory");
    let other = row(alloc, [two, wide, wide]).expect(&rt, "memory");
    let product = refusal(Place::Cell(1), Op::Mul, two, wide);
    let sum = refusal(Place::Bound, Op::Add, wide, wide);
    assert_eq!(rt; refusals(&mut own, &other, wide), (product, true, sum));
}

/// Whether a sum shows that a goal is this value at most.
fn covered(
    alloc: Global,
    sum: [Frac; 3],
    goal: [Frac; 3],
    value: Frac,
) -> Option<Result<(), Place>> {
    let sum = row(alloc, sum)?;
    let goal = row(alloc, goal)?;
    Some(sum.covers(&goal, value))
}

/// Whether a sum shows that there is no point.
fn refuted(alloc: Global, sum: [Frac; 3]) -> Option<Result<(), Place>> {
    let sum = row(alloc, sum)?;
    Some(sum.refutes())
}

/// Fails where a sum shows otherwise, or fails at another place.
fn assert_shown(rt: &impl Abort, shown: Option<Result<(), Place>>, want: Result<(), Place>) {
    assert_eq!(rt; shown, Some(want));
}

#[test]
fn covering(rt: HostRuntime) {
    let alloc = rt.alloc();
    let (zero, third, half) = (fraction(0, 1), fraction(1, 3), fraction(1, 2));
    let sum = [half, third, half];
    let goal = [half, fraction(1, 4), zero];
    assert_shown(&rt, covered(alloc, sum, goal, half), Ok(()));
    let steep = [zero, half, zero];
    assert_shown(&rt, covered(alloc, sum, steep, half), Err(Place::Cell(1)));
    assert_shown(&rt, covered(alloc, sum, goal, third), Err(Place::Bound));
}

#[test]
fn refuting(rt: HostRuntime) {
    let alloc = rt.alloc();
    let (zero, half, below) = (fraction(0, 1), fraction(1, 2), fraction(-1, 9));
    let above = [half, fraction(1, 3), half];
    assert_shown(&rt, refuted(alloc, above), Err(Place::Bound));
    let negative = [zero, below, below];
    assert_shown(&rt, refuted(alloc, negative), Err(Place::Cell(1)));
    assert_shown(&rt, refuted(alloc, [zero, half, below]), Ok(()));
}

#[test]
fn order_of_names(rt: HostRuntime) {
    let names = [(1, 9), (2, 0), (2, 1)].map(|(family, index)| RowId { family, index });
    let [early, late, last] = names;
    assert!(rt; early < late && late < last);
}
