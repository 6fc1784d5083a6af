//! The least common multiple.

ghost use Rattle.std.specs.Prelude.{◌<◌, ◌^◌, SomeIff};
ghost use Rattle.rational_theory.specs.Gcd.{lcm};

use crate::divisor::{common_divisor, divided};
use crate::frac::MOST;

/// The least common multiple of two numbers, of which the second is above 0. None comes exactly where it is more than
/// `2^127 - 1`.
pub fn common_multiple(left: u128, right: u128) -> Option<u128>
    requires { 0 < right }
    ensures { SomeIff result (lcm left right < 2 ^ 127) (lcm left right) }
{
    let own = divided(left, common_divisor(left, right));
    match own.checked_mul(right) {
        Some(multiple) if multiple <= MOST => Some(multiple),
        _ => None,
    }
}
