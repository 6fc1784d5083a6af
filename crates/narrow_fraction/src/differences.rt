//! A number less the product of two, by one common divisor.

ghost use Rattle.std.specs.Prelude.{◌≡◌, ◌+◌, ◌*◌, ◌<◌, ◌^◌, ◌*ℤ◌, ◌+ℤ◌, neg_ℤ, unsigned_abs, IfSome};
ghost use Rattle.rational_theory.specs.Rational.{over, neg_ℚ, ◌+ℚ◌, ◌*ℚ◌};
ghost use Rattle.narrow_fraction.specs.SmallParts.{AreSmallParts};

use crate::divisor::word_divisor;
use crate::frac::{Frac, reduced_by};

/// A number times `scale`, less `factor` times the other one.
#[inline(always)]
pub fn less_product(own: i64, scale: i64, factor: i64, other: i64) -> i64
    requires { unsigned_abs own * unsigned_abs scale + unsigned_abs factor * unsigned_abs other < 2 ^ 62 }
    ensures { result ≡ own *ℤ scale +ℤ neg_ℤ (factor *ℤ other) }
{
    own * scale - factor * other
}

/// What each part of a small number is below: a product of three such has at most 60 bits.
const SMALL: u64 = 1_048_576;

/// The two numbers of a quotient, both of at most 20 bits.
#[derive(Clone, Copy)]
pub struct SmallParts {
    top: i64,
    bottom: u64,
}

/// The parts of a quotient, where both have at most 20 bits.
pub fn small_parts(top: i128, bottom: u128) -> Option<SmallParts>
    requires { 0 < bottom }
    ensures small { IfSome result (λ parts. AreSmallParts parts) }
    ensures top { IfSome result (λ parts. parts.top ≡ top) }
    ensures bottom { IfSome result (λ parts. parts.bottom ≡ bottom) }
{
    if top.unsigned_abs() >= SMALL as u128 || bottom >= SMALL as u128 {
        return None;
    }
    Some(SmallParts {
        top: top as i64,
        bottom: bottom as u64,
    })
}

/// A small number less the product of two, in lowest terms.
pub fn less_small(from: SmallParts, factor: SmallParts, other: SmallParts) -> Frac
    requires from { AreSmallParts from }
    requires factor { AreSmallParts factor }
    requires other { AreSmallParts other }
    ensures { result ≡ over from.top from.bottom +ℚ neg_ℚ (over factor.top factor.bottom *ℚ over other.top other.bottom) }
{
    let below = factor.bottom * other.bottom;
    let part = factor.top * other.top;
    let top = less_product(from.top, below as i64, part, from.bottom as i64);
    let under = below * from.bottom;
    let shared = word_divisor(top.unsigned_abs(), under);
    reduced_by(top as i128, under as u128, shared as u128)
}
