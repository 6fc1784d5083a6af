//! Numerals without a leading zero, as exact spellings have them.

ghost use Rattle.std.specs.{Prelude.{◌≡◌, ◌↔◌, ◌<◌, ◌^◌, ℕ, IsTrue, IfSome, IfNone, length, slice_index}, Fmt.{decimal}};

use crate::digits::number;

/// The greatest number that a fraction holds.
const MOST: u128 = i128::MAX as u128;

/// The number below `2^127` whose decimal digits these are, with no leading zero.
pub(crate) fn numeral(digits: &[u8]) -> Option<u128>
    ensures none { IfNone result ((n : ℕ) → n < 2 ^ 127 → digits.now ≡ decimal n → ⊥) }
    ensures size { IfSome result (λ n. n < 2 ^ 127) }
    ensures spelled { IfSome result (λ n. digits.now ≡ decimal n) }
{
    if !leads(digits) {
        return None;
    }
    match number(digits) {
        Some(number) if number <= MOST => Some(number),
        _ => None,
    }
}

/// Whether there is a byte, and none after a leading zero.
fn leads(digits: &[u8]) -> bool
    ensures { IsTrue result ↔ ((0 < length digits.now) × (slice_index digits.now 0 ≡ 48 → length digits.now ≡ 1)) }
{
    !digits.is_empty() && (digits[0] != b'0' || digits.len() == 1)
}
