//! Numbers with some decimal places, rounded to the nearest.

ghost use Rattle.std.specs.Prelude.{◌≡◌, ◌+◌, ◌*◌, ◌/◌, ◌%◌, ◌<◌, ◌≤◌, ◌^◌, pos, ◌≤ℤ◌};
ghost use Rattle.timing_measures.specs.Rounding.{nearest, nearest_parts};

use narrow_fraction::Frac;

/// A number with some decimal places.
#[derive(Clone, Copy, Debug, PartialEq, Eq)]
pub struct RoundedNumber {
    /// The whole number before the point.
    pub whole: u128,
    /// The digits behind it, as one number.
    pub rest: u32,
}

/// A fraction below 1 in tenths, rounded.
fn near_tenths(rest: u128, bottom: u128) -> u32
    requires rest { rest < bottom }
    requires bottom { bottom ≤ 2 ^ 120 }
    ensures value { result ≡ nearest_parts rest bottom 10 }
    ensures most { result ≤ 10 }
{
    ((20 * rest + bottom) / (2 * bottom)) as u32
}

/// The same in hundredths.
fn near_hundredths(rest: u128, bottom: u128) -> u32
    requires rest { rest < bottom }
    requires bottom { bottom ≤ 2 ^ 120 }
    ensures value { result ≡ nearest_parts rest bottom 100 }
    ensures most { result ≤ 100 }
{
    ((200 * rest + bottom) / (2 * bottom)) as u32
}

/// The same in thousandths.
#[tactic(auto, using(crate::proofs::Nearest::nearest_thousandths))]
fn near_thousandths(rest: u128, bottom: u128) -> u32
    requires rest { rest < bottom }
    requires bottom { bottom ≤ 2 ^ 120 }
    ensures value { result ≡ nearest_parts rest bottom 1000 }
    ensures most { result ≤ 1000 }
{
    let before = (10 * rest / bottom) as u32;
    100 * before + near_hundredths(10 * rest % bottom, bottom)
}

/// A whole number and so many parts of one, of which some may be wholes.
#[tactic(auto, using(crate::proofs::Nearest::wholes_in, crate::proofs::Nearest::rest_in))]
fn with_parts(whole: u128, near: u32, parts: u32) -> RoundedNumber
    requires whole { whole < 2 ^ 127 }
    requires parts { 1 ≤ parts }
    ensures whole { result.whole ≡ (parts * whole + near) / parts }
    ensures rest { result.rest ≡ (parts * whole + near) % parts }
{
    RoundedNumber {
        whole: whole + u128::from(near / parts),
        rest: near % parts,
    }
}

/// The quotient of two numbers in tenths, hundredths or thousandths.
#[tactic(auto, using(crate::proofs::Nearest::nearest_rest))]
fn near_quotient(top: u128, bottom: u128, places: u32) -> RoundedNumber
    requires top { top < 2 ^ 127 }
    requires some { 1 ≤ bottom }
    requires bottom { bottom ≤ 2 ^ 120 }
    requires some_places { 1 ≤ places }
    requires most_places { places ≤ 3 }
    ensures whole { result.whole ≡ nearest_parts top bottom (10 ^ places) / 10 ^ places }
    ensures rest { result.rest ≡ nearest_parts top bottom (10 ^ places) % 10 ^ places }
{
    let (whole, rest) = (top / bottom, top % bottom);
    match places {
        1 => with_parts(whole, near_tenths(rest, bottom), 10),
        2 => with_parts(whole, near_hundredths(rest, bottom), 100),
        _ => with_parts(whole, near_thousandths(rest, bottom), 1000),
    }
}

/// A number of at least 0 with so many decimal places, from 1 to 3: the nearest such number, and of two that are as near the greater.
pub fn round_to(value: Frac, places: u32) -> RoundedNumber
    requires least { pos 0 ≤ℤ value.num }
    requires denominator { value.den ≤ 2 ^ 120 }
    requires some_places { 1 ≤ places }
    requires most_places { places ≤ 3 }
    ensures whole { result.whole ≡ nearest value places / 10 ^ places }
    ensures rest { result.rest ≡ nearest value places % 10 ^ places }
{
    let top = value.num().unsigned_abs();
    let bottom = value.den().unsigned_abs();
    near_quotient(top, bottom, places)
}
