//! Worked fractions, up to the greatest of 128 bits.

use crate::tests::two_columns::TWO_126;
use narrow_fraction::{Frac, Op, Quotient, Unfit, Wide, common_multiple};
use std::alloc::{AllocError, Global};
use std::cmp::Ordering;
use std::rt::HostRuntime;
use test_bed::fraction_or_zero as fraction;

const TWO_63: i128 = 9_223_372_036_854_775_808;

const TWO_100: i128 = 1_267_650_600_228_229_401_496_703_205_376;

const THREE_70: i128 = 2_503_155_504_993_241_601_315_571_986_085_849;

/// A fraction: its numerator and its denominator.
type TopAndBottom = (i128, i128);

/// Operations that are exact: the operands and the answer.
static WITHIN: [(Op, TopAndBottom, TopAndBottom, TopAndBottom); 17] = [
    (Op::Add, (1, 6), (1, 10), (4, 15)),
    (Op::Add, (1, 2), (-1, 2), (0, 1)),
    (Op::Add, (-7, 3), (2, 1), (-1, 3)),
    (Op::Add, (1, TWO_126), (1, TWO_126), (1, TWO_126 / 2)),
    (Op::Add, (-TWO_126, 1), (-TWO_126 + 1, 1), (-i128::MAX, 1)),
    (Op::Sub, (1, 2), (2, 3), (-1, 6)),
    (Op::Sub, (5, 1), (0, 1), (5, 1)),
    (Op::Sub, (0, 1), (5, 3), (-5, 3)),
    (
        Op::Sub,
        (TWO_63 - 1, 2),
        (1 - TWO_63, 6),
        (2 * (TWO_63 - 1), 3),
    ),
    (
        Op::Add,
        (TWO_63, 3),
        (1, TWO_63 + 1),
        ((TWO_126 + TWO_63) / 3 + 1, TWO_63 + 1),
    ),
    (Op::Mul, (2, 3), (-9, 4), (-3, 2)),
    (Op::Mul, (i128::MAX, 2), (2, i128::MAX), (1, 1)),
    (Op::Mul, (-1, 1), (i128::MAX, 2), (-i128::MAX, 2)),
    (
        Op::Mul,
        (TWO_63 - 1, 2),
        (TWO_63, TWO_63 - 1),
        (TWO_63 / 2, 1),
    ),
    (Op::Div, (0, 1), (-4, 9), (0, 1)),
    (Op::Div, (2, 3), (-4, 9), (-3, 2)),
    (Op::Div, (1, 1), (-i128::MAX, 5), (-5, i128::MAX)),
];

/// A quotient of words.
type Words = (i64, u64);

/// The same of quotients, whose words have common divisors.
static UNREDUCED: [(Op, Words, Words, TopAndBottom); 9] = [
    (Op::Add, (2, 12), (6, 60), (4, 15)),
    (Op::Add, (4, 8), (-3, 6), (0, 1)),
    (Op::Add, (-14, 6), (6, 3), (-1, 3)),
    (Op::Sub, (5, 10), (4, 6), (-1, 6)),
    (Op::Sub, (0, 9), (10, 6), (-5, 3)),
    (Op::Mul, (4, 6), (-18, 8), (-3, 2)),
    (Op::Mul, (i64::MIN, 2), (4, 1 << 63), (-2, 1)),
    (Op::Div, (4, 6), (-8, 18), (-3, 2)),
    (Op::Div, (i64::MAX, u64::MAX - 1), (3, 6), (1, 1)),
];

/// The operation's answer; a quotient by 0 is not asked for.
#[tactic(auto, using(rational_theory::proofs::Compare::eq_false))]
fn answer(op: Op, left: Frac, right: Frac) -> Result<Frac, Wide> {
    match op {
        Op::Add => left.plus(right),
        Op::Sub => left.minus(right),
        Op::Mul => left.times(right),
        Op::Div => {
            if right == Frac::whole(0) {
                return Ok(right);
            }
            left.over(right)
        }
    }
}

fn is_exact(op: Op, left: Frac, right: Frac, want: TopAndBottom) -> bool {
    answer(op, left, right) == Ok(fraction(want.0, want.1))
}

/// The fraction of two numbers, with nothing said of it.
fn ratio(num: i128, den: i128) -> Result<Frac, Unfit> {
    Frac::new(num, den)
}

/// A fraction's numerator and its denominator.
fn parts(fraction: Frac) -> TopAndBottom {
    (fraction.num(), fraction.den())
}

fn made(num: i128, den: i128) -> Result<TopAndBottom, Unfit> {
    match ratio(num, den) {
        Ok(fraction) => Ok(parts(fraction)),
        Err(unfit) => Err(unfit),
    }
}

/// Any two numbers, and the fraction that they make.
static MADE: [(TopAndBottom, Result<TopAndBottom, Unfit>); 11] = [
    ((6, -4), Ok((-3, 2))),
    ((-6, -4), Ok((3, 2))),
    ((0, -7), Ok((0, 1))),
    ((1, 0), Err(Unfit::ZeroDen)),
    ((0, 0), Err(Unfit::ZeroDen)),
    ((i128::MIN, 1), Err(Unfit::Width)),
    ((1, i128::MIN), Err(Unfit::Width)),
    ((i128::MIN, 2), Ok((-TWO_126, 1))),
    ((2, i128::MIN), Ok((-1, TWO_126))),
    ((i128::MIN, i128::MIN), Ok((1, 1))),
    ((i128::MAX, -1), Ok((-i128::MAX, 1))),
];

#[test]
fn any_two_numbers(rt: HostRuntime) {
    for (numbers, want) in MADE.iter() {
        assert!(rt; made(numbers.0, numbers.1) == *want);
    }
}

#[test]
fn operations_within_128_bits(rt: HostRuntime) {
    for (op, left, right, want) in WITHIN.iter() {
        let (left, right) = (fraction(left.0, left.1), fraction(right.0, right.1));
        assert!(rt; is_exact(*op, left, right, *want));
    }
}

fn is_refused(op: Op, left: Frac, right: Frac) -> bool {
    answer(op, left, right) == Err(Wide { op, left, right })
}

/// Operations that are refused.
static PAST: [(Op, TopAndBottom, TopAndBottom); 6] = [
    (Op::Add, (1, TWO_100), (1, THREE_70)),
    (Op::Add, (-TWO_126, 1), (1, 2)),
    (Op::Add, (-TWO_126, 1), (-TWO_126, 1)),
    (Op::Sub, (TWO_126, 1), (-TWO_126, 1)),
    (Op::Mul, (TWO_126, 1), (2, 1)),
    (Op::Div, (TWO_126, 1), (1, 2)),
];

#[test]
fn operations_past_128_bits(rt: HostRuntime) {
    for (op, left, right) in PAST.iter() {
        let (left, right) = (fraction(left.0, left.1), fraction(right.0, right.1));
        assert!(rt; is_refused(*op, left, right));
    }
}

fn is_ascending(below: Frac, above: Frac) -> bool {
    below < above && above > below && below != above
}

fn is_half_below_third(half: Frac, third: Frac) -> bool {
    half <= third && third < Frac::whole(0)
}

fn has_parts(held: Frac, floor: i128, is_whole: bool) -> bool {
    held.fitting() == held && held.floor() == floor && held.is_whole() == is_whole
}

#[test]
fn order_and_whole_parts(rt: HostRuntime) {
    let below = fraction(i128::MAX - 2, i128::MAX - 1);
    assert!(rt; is_ascending(below, fraction(i128::MAX - 1, i128::MAX)));
    assert!(rt; is_half_below_third(fraction(-1, 2), fraction(-1, 3)));
    assert!(rt; fraction(-7, 2).abs().neg() == fraction(7, -2));
    let rows = [
        (fraction(-7, 2), -4, false),
        (fraction(7, 2), 3, false),
        (Frac::whole(-3), -3, true),
        (fraction(1, 3), 0, false),
    ];
    for (held, floor, is_whole) in rows {
        assert!(rt; has_parts(held, floor, is_whole));
    }
}

#[test]
fn least_common_multiples(rt: HostRuntime) {
    let power = 1u128 << 126;
    let table = [
        (4, 6, Some(12)),
        (1, 7, Some(7)),
        (0, 5, Some(0)),
        (power, 1 << 100, Some(power)),
        (power, 3, None),
        (u128::MAX, u128::MAX, None),
        (1 << 64, u128::MAX, None),
    ];
    for (left, right, want) in table {
        assert_eq!(rt; common_multiple(left, right), want);
    }
}

/// The quotient of two words, or 0 where there is none.
fn quotient(numerator: i64, denominator: u64) -> Quotient {
    if denominator == 0 {
        return Quotient::of_fraction(Frac::whole(0));
    }
    Quotient::of_words(numerator, denominator)
}

/// The numerator over a denominator; over 0 there is none.
fn numerator_over(held: &Quotient, denominator: u64) -> Option<i64> {
    if denominator == 0 {
        return None;
    }
    held.numerator_over(denominator)
}

/// The number in lowest terms.
fn lowered(held: &Quotient) -> Frac {
    held.fraction()
}

#[test]
fn operations_on_quotients_with_common_divisors(rt: HostRuntime) {
    for (op, left, right, want) in UNREDUCED.iter() {
        let (left, right) = (quotient(left.0, left.1), quotient(right.0, right.1));
        assert!(rt; is_exact(*op, lowered(&left), lowered(&right), *want));
    }
}

/// Operations on a fraction and a quotient of words, and whether the answer fits.
static AT_128_BITS: [(Op, TopAndBottom, Words, bool); 8] = [
    (Op::Mul, (TWO_126, 1), (6, 6), true),
    (Op::Mul, (TWO_126, 1), (4, 2), false),
    (Op::Mul, (1, TWO_126), (3, 6), false),
    (Op::Add, (1, TWO_126), (3, 12), true),
    (Op::Add, (-TWO_126, 1), (2, 4), false),
    (Op::Sub, (-TWO_126, 1), (-9, 9), true),
    (Op::Div, (TWO_126, 1), (5, 5), true),
    (Op::Div, (TWO_126, 1), (2, 4), false),
];

fn does_fit(op: Op, left: Frac, right: Frac, fits: bool) -> bool {
    if fits {
        answer(op, left, right).is_ok()
    } else {
        is_refused(op, left, right)
    }
}

#[test]
fn quotients_at_128_bits(rt: HostRuntime) {
    for (op, left, right, fits) in AT_128_BITS.iter() {
        let left = lowered(&Quotient::of_fraction(fraction(left.0, left.1)));
        let right = lowered(&quotient(right.0, right.1));
        assert!(rt; does_fit(*op, left, right, *fits));
    }
}

/// Quotients, denominators, and the numerators over these.
static NUMERATORS: [(Words, u64, Option<i64>); 11] = [
    ((6, 4), 4, Some(6)),
    ((6, 4), 2, Some(3)),
    ((6, 4), 8, Some(12)),
    ((-6, 4), 10, Some(-15)),
    ((6, 4), 3, None),
    ((0, 7), 3, Some(0)),
    ((i64::MIN, 1), 1, Some(i64::MIN)),
    ((i64::MIN, 1), 2, None),
    ((i64::MAX, 3), 6, None),
    ((-3, u64::MAX), u64::MAX, Some(-3)),
    ((1, 3), u64::MAX, Some(6_148_914_691_236_517_205)),
];

/// Whether a quotient has this numerator, as it stands and in lowest terms.
fn has_numerator(words: Words, denominator: u64, want: Option<i64>) -> bool {
    let held = quotient(words.0, words.1);
    let lowest = Quotient::of_fraction(lowered(&held));
    numerator_over(&held, denominator) == want && numerator_over(&lowest, denominator) == want
}

#[test]
fn numerators_over_denominators(rt: HostRuntime) {
    for (words, denominator, want) in NUMERATORS.iter() {
        assert!(rt; has_numerator(*words, *denominator, *want));
    }
    let great = Quotient::of_fraction(fraction(TWO_126, 1));
    assert!(rt; numerator_over(&great, u64::MAX).is_none());
}

fn is_one_half(held: &Quotient) -> bool {
    *held == quotient(3, 6)
        && *held == Quotient::of_fraction(fraction(1, 2))
        && held.copied() == *held
}

fn is_above_minus_one_and_a_half(held: &Quotient) -> bool {
    *held > quotient(-9, 6)
}

fn has_sign(held: &Quotient, is_zero: bool, is_negative: bool) -> bool {
    held.is_zero() == is_zero && held.is_negative() == is_negative
}

/// Whether a quotient is written as a fraction is.
fn is_written_as(alloc: Global, held: &Quotient, fraction: Frac) -> Result<bool, AllocError> {
    let own = format!(in alloc; "{held:?}")?;
    let other = format!(in alloc; "{fraction:?}")?;
    Ok(own.as_str() == other.as_str())
}

#[test]
fn order_of_quotients(rt: HostRuntime) -> Result<(), AllocError> {
    let half = quotient(2, 4);
    assert!(rt; is_one_half(&half) && half.clone()? == half);
    assert!(rt; is_above_minus_one_and_a_half(&half) && quotient(-4, 6) < quotient(-6, 10));
    assert!(rt; has_sign(&half, false, false));
    assert!(rt; has_sign(&quotient(0, 9), true, false) && has_sign(&quotient(-3, 9), false, true));
    assert!(rt; is_written_as(rt.alloc(), &half, fraction(1, 2))?);
    Ok(())
}

/// A factor, another one, a number, and what is left of this less the product, where they are small.
static LESS: [(Words, TopAndBottom, TopAndBottom, Option<TopAndBottom>); 9] = [
    ((6, 4), (2, 3), (5, 2), Some((3, 2))),
    ((-6, 4), (1, 3), (1, 2), Some((1, 1))),
    ((3, 9), (3, 1), (1, 1), Some((0, 1))),
    ((0, 1), (7, 5), (-2, 3), Some((-2, 3))),
    ((1_048_575, 1), (1, 1), (0, 1), Some((-1_048_575, 1))),
    ((1_048_576, 1), (1, 1), (0, 1), None),
    ((1, 1_048_576), (1, 1), (0, 1), None),
    ((1, 2), (1, 1_048_576), (0, 1), None),
    ((1, 2), (1, 2), (-1_048_576, 1), None),
];

fn less_times(factor: Words, other: Frac, from: Frac) -> Option<TopAndBottom> {
    match quotient(factor.0, factor.1).less_times(other, from) {
        Some(less) => Some(parts(less)),
        None => None,
    }
}

#[test]
fn a_number_less_a_product_of_small_ones(rt: HostRuntime) {
    for (factor, other, from, want) in LESS.iter() {
        let (other, from) = (fraction(other.0, other.1), fraction(from.0, from.1));
        assert!(rt; less_times(*factor, other, from) == *want);
    }
}

/// The order of two ratios to negated bottoms; of others there is none.
fn ratio_order(ratios: [&Quotient; 4]) -> Option<Ordering> {
    let [top, bottom, other, other_bottom] = ratios;
    if !bottom.is_negative() || !other_bottom.is_negative() {
        return None;
    }
    top.ratio_order(bottom, other, other_bottom)
}

#[test]
fn ratios_by_two_products(rt: HostRuntime) {
    let table = [
        ((3, 4), (-2, 6), (5, 4), (-4, 6), Some(Ordering::Greater)),
        ((2, 4), (-2, 6), (1, 4), (-1, 6), Some(Ordering::Equal)),
        ((1, 4), (-2, 6), (1, 4), (-1, 6), Some(Ordering::Less)),
        ((-1, 4), (-2, 6), (-1, 4), (-1, 6), Some(Ordering::Greater)),
        ((0, 0), (-2, 6), (1, 4), (-1, 6), Some(Ordering::Less)),
        (
            (i64::MAX, 1),
            (-1, 1),
            (i64::MAX, 1),
            (i64::MIN, 1),
            Some(Ordering::Greater),
        ),
        ((1, 4), (-1, 6), (1, 4), (-1, 5), None),
        ((1, 4), (-1, 6), (1, 3), (-1, 6), None),
        ((0, 0), (-1, 6), (0, 0), (-1, 6), Some(Ordering::Equal)),
    ];
    for (top, bottom, other, other_bottom, want) in table {
        let ratios = [
            &quotient(top.0, top.1),
            &quotient(bottom.0, bottom.1),
            &quotient(other.0, other.1),
            &quotient(other_bottom.0, other_bottom.1),
        ];
        assert_eq!(rt; ratio_order(ratios), want);
    }
    let lowest = Quotient::of_fraction(fraction(-1, 3));
    let half = quotient(2, 4);
    assert_eq!(rt; ratio_order([&half, &lowest, &half, &lowest]), None);
}
