//! Decimals, cut at a place.

ghost use Rattle.std.specs.{Prelude.{◌≡◌, ◌+◌, ◌*◌, ◌/◌, ◌<◌, ◌≤◌, ◌^◌, ◌∷◌, ◌++◌, pos, ◌≤ℤ◌, IfOk, OnOk}, Fmt.{decimal}};
ghost use Rattle.quantity_text.specs.Decimal.{decimal_spelling, last_digits};

use crate::writing::{push_byte, push_bytes, push_number};
use narrow_fraction::{Frac, Memory};
use std::alloc::Global;

/// A fraction of at least 0, with a denominator of at most `2^120`, with so many decimal places, from 1 to 9: the floor of
/// `value * 10^places`, with a point before its last `places` digits and at least one digit before the point. It is cut and
/// never rounded: 2/3 to 3 places is `0.666`.
pub fn decimal_text(alloc: Global, value: Frac, places: u32) -> Result<Vec<u8>, Memory>
    requires least { pos 0 ≤ℤ value.num }
    requires denominator { value.den ≤ 2 ^ 120 }
    requires some_places { 1 ≤ places }
    requires most_places { places ≤ 9 }
    ensures { IfOk result (λ text. text.items ≡ decimal_spelling value places) }
{
    let mut text = Vec::new(alloc);
    push_decimal(&mut text, value, places)?;
    Ok(text)
}

/// Writes the same at the end of what is there.
pub fn push_decimal(out: &mut Vec<u8>, value: Frac, places: u32) -> Result<(), Memory>
    requires least { pos 0 ≤ℤ value.num }
    requires denominator { value.den ≤ 2 ^ 120 }
    requires some_places { 1 ≤ places }
    requires most_places { places ≤ 9 }
    ensures { OnOk result (out.new.items ≡ out.old.items ++ decimal_spelling value places) }
{
    let top = value.num().unsigned_abs();
    let bottom = value.den().unsigned_abs();
    push_quotient(out, top, bottom, places)
}

/// Writes `top / bottom` with so many places.
fn push_quotient(out: &mut Vec<u8>, top: u128, bottom: u128, places: u32) -> Result<(), Memory>
    requires above { 0 < bottom }
    requires bottom { bottom ≤ 2 ^ 120 }
    ensures { OnOk result (out.new.items ≡ out.old.items ++ (decimal (top / bottom) ++ 46 ∷ last_digits places (top * 10 ^ places / bottom))) }
{
    push_number(out, top / bottom)?;
    push_bytes(out, b".")?;
    let mut rest = top % bottom;
    for place in 0..places {
        let _ = place;
        push_byte(out, next_digit(rest, bottom))?;
        rest = rest * 10 % bottom;
    }
    Ok(())
}

/// The next digit of a long division.
fn next_digit(rest: u128, bottom: u128) -> u8
    requires rest { rest < bottom }
    requires bottom { bottom ≤ 2 ^ 120 }
    ensures { result ≡ 48 + rest * 10 / bottom }
{
    b'0' + (rest * 10 / bottom) as u8
}
