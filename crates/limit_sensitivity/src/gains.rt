//! What a change gains.

ghost use Rattle.std.specs.Prelude.{◌≡◌, ◌++◌, ◌≤◌, ◌^◌, pos, ◌≤ℤ◌, ◌<ℤ◌, IfSome, OnOk};
ghost use Rattle.rational_theory.specs.Rational.{neg_ℚ};
ghost use Rattle.limit_sensitivity.specs.Gains.{if_short, difference, product, signed_spelling, exact_or_wide, decimal_or_wide};

use narrow_fraction::{Frac, Memory};
use quantity_text::{push_decimal, push_exact, push_text};

/// The greatest denominator of a number that is written as a decimal.
const MOST_DENOMINATOR: i128 = 1 << 120;

/// The number, where a decimal can have its denominator.
pub(crate) fn if_short(value: Frac) -> Option<Frac>
    ensures value { result ≡ if_short value }
    ensures short { IfSome result (λ x. x.den ≤ 2 ^ 120) }
{
    if value.den() <= MOST_DENOMINATOR {
        Some(value)
    } else {
        None
    }
}

/// The difference of two numbers, or None where it is too wide to be told.
#[tactic(auto, using(crate::proofs::Fitting::difference_fits, crate::proofs::Fitting::difference_past))]
pub(crate) fn difference(left: Frac, right: Frac) -> Option<Frac>
    ensures value { result ≡ difference left right }
    ensures short { IfSome result (λ x. x.den ≤ 2 ^ 120) }
{
    match left.minus(right) {
        Ok(value) => if_short(value),
        Err(_) => None,
    }
}

/// The product of two numbers, or None where it is too wide to be told.
#[tactic(auto, using(crate::proofs::Fitting::product_fits, crate::proofs::Fitting::product_past))]
pub(crate) fn product(left: Frac, right: Frac) -> Option<Frac>
    ensures value { result ≡ product left right }
    ensures short { IfSome result (λ x. x.den ≤ 2 ^ 120) }
{
    match left.times(right) {
        Ok(value) => if_short(value),
        Err(_) => None,
    }
}

/// A number below 0 without its sign.
#[tactic(auto, using(crate::proofs::Fitting::above_zero))]
fn without_minus(value: Frac) -> Frac
    requires below { value.num <ℤ pos 0 }
    requires denominator { value.den ≤ 2 ^ 120 }
    ensures value { result ≡ neg_ℚ value }
    ensures least { pos 0 ≤ℤ result.num }
    ensures denominator { result.den ≤ 2 ^ 120 }
{
    value.neg()
}

/// Writes a number as a decimal that is cut after so many places, with a minus where it is below 0.
pub(crate) fn push_signed(out: &mut Vec<u8>, value: Frac, places: u32) -> Result<(), Memory>
    requires denominator { value.den ≤ 2 ^ 120 }
    requires some_places { 1 ≤ places }
    requires most_places { places ≤ 9 }
    ensures { OnOk result (out.new.items ≡ out.old.items ++ signed_spelling value places) }
{
    if value.num() < 0 {
        push_text(out, "-")?;
        push_decimal(out, without_minus(value), places)
    } else {
        push_decimal(out, value, places)
    }
}

/// Writes a number exactly, or `wide`.
pub(crate) fn push_exact_or_wide(out: &mut Vec<u8>, value: &Option<Frac>) -> Result<(), Memory>
    ensures { OnOk result (out.new.items ≡ out.old.items ++ exact_or_wide value.now) }
{
    match value {
        Some(value) => push_exact(out, *value),
        None => push_text(out, "wide"),
    }
}

/// Writes a number as a decimal that is cut after so many places, or `wide`.
pub(crate) fn push_decimal_or_wide(
    out: &mut Vec<u8>,
    value: &Option<Frac>,
    places: u32,
) -> Result<(), Memory>
    requires denominator { IfSome value.now (λ x. x.den ≤ 2 ^ 120) }
    requires some_places { 1 ≤ places }
    requires most_places { places ≤ 9 }
    ensures { OnOk result (out.new.items ≡ out.old.items ++ decimal_or_wide value.now places) }
{
    match value {
        Some(value) => push_signed(out, *value, places),
        None => push_text(out, "wide"),
    }
}
