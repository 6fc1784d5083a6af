//! Into how many ticks a part of the cycle is divided.

ghost use Rattle.std.specs.Prelude.{◌≡◌, ℕ, List, ◌==◌, if◌then◌else◌, ◌+◌, ◌<◌, ◌^◌, length, SomeIff, OnOk};
ghost use Rattle.rational_theory.specs.{Gcd.{lcm}, Rational.{ℚ}};
ghost use Rattle.narrow_fraction.specs.Attempt.{attempt};
ghost use Rattle.progression.specs.Street.{Street};
ghost use Rattle.recovery_theory.specs.Ticks.{in_parts, unit_of};
ghost use Rattle.offset_recovery.specs.{Recovered.{unit_tests}, Numbers.{ProductsFit, IsCommon}};

use crate::outcome::WideTiming;
use crate::products::product;
use artery_model::Artery;
use named_row::Point;
use narrow_fraction::{Frac, common_multiple};
use time_space::LIMIT;

/// How many columns a point has.
fn column_count(point: &Point) -> u32
    requires { length point.now.values.items < 2 ^ 32 }
    ensures { result ≡ length point.now.values.items }
{
    point.values.len() as u32
}

/// The least common multiple, where it is below the limit.
fn multiple(common: u128, bottom: u128) -> Option<u128>
    requires { 0 < bottom }
    ensures { SomeIff result (lcm common bottom < 2 ^ 80) (lcm common bottom) }
{
    match common_multiple(common, bottom) {
        Some(multiple) if multiple < LIMIT => Some(multiple),
        _ => None,
    }
}

/// The denominator of a product.
pub fn bottom(product: Frac) -> u128
    ensures value { result ≡ product.den }
    ensures some { 0 < result }
    ensures small { result < 2 ^ 127 }
{
    product.den().unsigned_abs()
}

/// The least common denominator of the products so far and one more.
fn with_product(so_far: Result<u128, WideTiming>, product: Frac) -> Result<u128, WideTiming>
    ensures { (a : Street) (x : List ℚ) (column : ℕ) → IsCommon a x column so_far → product ≡ in_parts a x column → IsCommon a x (column + 1) result }
{
    let so_far = so_far?;
    let bottom = bottom(product);
    match multiple(so_far, bottom) {
        Some(multiple) => Ok(multiple),
        None => Err(WideTiming::Unit {
            left: so_far,
            right: bottom,
        }),
    }
}

/// A number, or 2 in place of 1.
fn two_or(number: u128) -> u128
    ensures { result ≡ (if number == 1 then 2 else number) }
{
    if number == 1 { 2 } else { number }
}

/// The ticks of a part: the least common denominator of all columns in parts, and 2 where that is 1. The products with the
/// number of parts and that denominator fit; a product that doesn't is told before a denominator that doesn't.
pub fn common_unit(artery: &Artery, point: &Point) -> Result<u128, WideTiming>
    requires { length point.now.values.items < 2 ^ 32 }
    ensures value { result ≡ attempt (unit_tests artery.now point.now.values.items) (unit_of artery.now point.now.values.items) }
    ensures small { OnOk result (unit_of artery.now point.now.values.items < 2 ^ 80) }
    ensures products { OnOk result (ProductsFit artery.now point.now.values.items) }
{
    let mut common = Ok(1);
    for column in 0..column_count(point) {
        let product = product(artery, point, column)?;
        common = with_product(common, product);
    }
    let unit = common?;
    Ok(two_or(unit))
}
