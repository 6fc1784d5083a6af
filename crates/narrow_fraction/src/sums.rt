//! Sums over the least common denominator, with shorter ways for whole and for short numbers.

ghost use Rattle.std.specs.Prelude.{◌≡◌, ◌^◌, ◌<◌, ◌*◌, ◌+ℤ◌, ◌*ℤ◌, pos, unsigned_abs, SomeIff};
ghost use Rattle.rational_theory.specs.Rational.{◌+ℚ◌};
ghost use Rattle.narrow_fraction.specs.{Past128.{SumFits}, Short.{IsShort}};

use crate::divisor::{common_divisor, divided, word_divisor, word_quotient};
use crate::frac::{Frac, MOST, already_reduced, reduced_by, with_sign};

/// `n * by`, where it is at most `2^127 - 1` in size.
fn times_size(n: i128, by: u128) -> Option<i128>
    ensures { SomeIff result (unsigned_abs (n *ℤ pos by) < 2 ^ 127) (n *ℤ pos by) }
{
    let Some(size) = fitting_product(n.unsigned_abs(), by) else {
        return None;
    };
    Some(with_sign(n < 0, size))
}

/// The product, where it is at most `2^127 - 1`.
fn fitting_product(a: u128, b: u128) -> Option<u128>
    ensures { SomeIff result (a * b < 2 ^ 127) (a * b) }
{
    let Some(size) = a.checked_mul(b) else {
        return None;
    };
    if size > MOST {
        return None;
    }
    Some(size)
}

/// The sum, where it is at most `2^127 - 1` in size.
fn fitting_sum(a: i128, b: i128) -> Option<i128>
    ensures { SomeIff result (unsigned_abs (a +ℤ b) < 2 ^ 127) (a +ℤ b) }
{
    let Some(sum) = a.checked_add(b) else {
        return None;
    };
    if sum == i128::MIN {
        return None;
    }
    Some(sum)
}

/// The sum of a fraction and a whole number, which needs no common divisor.
fn sum_with_whole(x: Frac, y: Frac) -> Option<Frac>
    requires { y.den ≡ 1 }
    ensures { SomeIff result (SumFits x y) (x +ℚ y) }
{
    let bottom = x.bottom();
    let Some(second) = times_size(y.num(), bottom) else {
        return None;
    };
    let Some(top) = fitting_sum(x.num(), second) else {
        return None;
    };
    Some(already_reduced(top, bottom))
}

/// The sum of two fractions over one denominator.
fn sum_over_same(x: Frac, y: Frac) -> Option<Frac>
    requires { x.den ≡ y.den }
    ensures { SomeIff result (SumFits x y) (x +ℚ y) }
{
    let bottom = x.bottom();
    let Some(top) = fitting_sum(x.num(), y.num()) else {
        return None;
    };
    if top == 0 {
        return Some(Frac::whole(0));
    }
    Some(Frac::reduced(top, bottom))
}

/// The sum over the least common denominator.
///
/// What its numerator shares with that denominator it shares with the common divisor of the two denominators, so the
/// second common divisor is sought among small numbers (Knuth, The Art of Computer Programming, 4.5.1).
fn sum_over_common(x: Frac, y: Frac) -> Option<Frac>
    ensures { SomeIff result (SumFits x y) (x +ℚ y) }
{
    let b = x.bottom();
    let d = y.bottom();
    let shared = common_divisor(b, d);
    let right_part = divided(d, shared);
    let Some(first) = times_size(x.num(), right_part) else {
        return None;
    };
    let Some(second) = times_size(y.num(), divided(b, shared)) else {
        return None;
    };
    let Some(top) = fitting_sum(first, second) else {
        return None;
    };
    let Some(bottom) = fitting_product(b, right_part) else {
        return None;
    };
    let divisor = common_divisor(top.unsigned_abs(), shared);
    Some(reduced_by(top, bottom, divisor))
}

/// `n * by`, which has at most 126 bits.
fn short_product(n: i128, by: u64) -> i128
    requires n { unsigned_abs n < 2 ^ 63 }
    requires by { by < 2 ^ 63 }
    ensures value { result ≡ n *ℤ pos by }
    ensures size { unsigned_abs result < 2 ^ 126 }
{
    n * by as i128
}

/// The sum over the least common denominator of fractions of at most 63 bits, which fits in any case.
fn sum_of_short(x: Frac, y: Frac) -> Frac
    requires left { IsShort x }
    requires right { IsShort y }
    ensures { result ≡ x +ℚ y }
{
    let b = x.bottom() as u64;
    let d = y.bottom() as u64;
    let shared = word_divisor(b, d);
    let right_part = word_quotient(d, shared);
    let first = short_product(x.num(), right_part);
    let second = short_product(y.num(), word_quotient(b, shared));
    let top = first + second;
    let bottom = b as u128 * right_part as u128;
    let divisor = common_divisor(top.unsigned_abs(), shared as u128);
    reduced_by(top, bottom, divisor)
}

/// The sum, by the shortest way.
pub fn sum(x: Frac, y: Frac) -> Option<Frac>
    ensures { SomeIff result (SumFits x y) (x +ℚ y) }
{
    let left = x.parts();
    let right = y.parts();
    if right.top == 0 {
        return Some(x);
    }
    if left.top == 0 {
        return Some(y);
    }
    if right.bottom == 1 {
        return sum_with_whole(x, y);
    }
    if left.bottom == 1 {
        return sum_with_whole(y, x);
    }
    if left.bottom == right.bottom {
        return sum_over_same(x, y);
    }
    if x.is_short() && y.is_short() {
        return Some(sum_of_short(x, y));
    }
    sum_over_common(x, y)
}
