//! Products, reduced before they are multiplied.

ghost use Rattle.std.specs.Prelude.{◌≡◌, ◌<◌, ◌*◌, ◌^◌, SomeIff};
ghost use Rattle.rational_theory.specs.{Rational.{over, ◌*ℚ◌}, Gcd.{gcd}};
ghost use Rattle.narrow_fraction.specs.Fraction.{FitsFrac, signed};

use crate::divisor::{common_divisor, divided, word_divisor, word_quotient};
use crate::frac::{Frac, SHORT, build, lowest};

/// The product of `a / b` and `c / d`, each in lowest terms, with this sign, by the general way.
///
/// Each numerator is first divided by what it shares with the other denominator, so that nothing is formed that is
/// greater than the result.
fn product_of_any(negative: bool, a: u128, b: u128, c: u128, d: u128) -> Option<Frac>
    requires b { 0 < b }
    requires d { 0 < d }
    requires left { gcd a b ≡ 1 }
    requires right { gcd c d ≡ 1 }
    ensures { SomeIff result (FitsFrac (over (signed negative (a * c)) (b * d))) (over (signed negative (a * c)) (b * d)) }
{
    let left = common_divisor(a, d);
    let right = common_divisor(c, b);
    let Some(top) = divided(a, left).checked_mul(divided(c, right)) else {
        return None;
    };
    let Some(bottom) = divided(b, right).checked_mul(divided(d, left)) else {
        return None;
    };
    build(negative, top, bottom)
}

/// The same of numbers below `2^63`, whose products fit in any case.
fn product_of_short(negative: bool, a: u64, b: u64, c: u64, d: u64) -> Frac
    requires a { a < 2 ^ 63 }
    requires b { (0 < b) × (b < 2 ^ 63) }
    requires c { c < 2 ^ 63 }
    requires d { (0 < d) × (d < 2 ^ 63) }
    requires left { gcd a b ≡ 1 }
    requires right { gcd c d ≡ 1 }
    ensures { result ≡ over (signed negative (a * c)) (b * d) }
{
    let left = word_divisor(a, d);
    let right = word_divisor(c, b);
    let top = word_quotient(a, left) as u128 * word_quotient(c, right) as u128;
    let bottom = word_quotient(b, right) as u128 * word_quotient(d, left) as u128;
    lowest(negative, top, bottom)
}

/// The product of `a / b` and `c / d`, each in lowest terms, with this sign, by the shortest way.
fn product_of_sizes(negative: bool, a: u128, b: u128, c: u128, d: u128) -> Option<Frac>
    requires b { 0 < b }
    requires d { 0 < d }
    requires left { gcd a b ≡ 1 }
    requires right { gcd c d ≡ 1 }
    ensures { SomeIff result (FitsFrac (over (signed negative (a * c)) (b * d))) (over (signed negative (a * c)) (b * d)) }
{
    if a == 0 || c == 0 {
        return Some(Frac::whole(0));
    }
    if a == 1 && b == 1 {
        return build(negative, c, d);
    }
    if c == 1 && d == 1 {
        return build(negative, a, b);
    }
    if a <= SHORT && b <= SHORT && c <= SHORT && d <= SHORT {
        return Some(product_of_short(negative, a as u64, b as u64, c as u64, d as u64));
    }
    product_of_any(negative, a, b, c, d)
}

/// The product, where it fits.
pub fn product(x: Frac, y: Frac) -> Option<Frac>
    ensures { SomeIff result (FitsFrac (x *ℚ y)) (x *ℚ y) }
{
    let left = x.parts();
    let right = y.parts();
    product_of_sizes(
        left.negative != right.negative,
        left.top,
        left.bottom,
        right.top,
        right.bottom,
    )
}
