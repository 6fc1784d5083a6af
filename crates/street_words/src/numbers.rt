//! Numbers with one decimal place.

ghost use Rattle.std.specs.{Prelude.{◌≡◌, ◌≤◌, ◌^◌, ◌++◌, OnOk, pos, ◌≤ℤ◌}};
ghost use Rattle.artery_model.specs.{Bounds.{most_parts, most_distance, least_cycle, most_cycle}, Valid.{IsQuantity}};
ghost use Rattle.street_words.specs.Numbers.{cut_tenths, span_text, parts_seconds, parts_span};
ghost use Rattle.street_words.specs.Numbers.{other_length, between_lengths, after_lengths, length_text};

use artery_model::{Artery, Units};
use narrow_fraction::{Frac, Memory};
use quantity_text::{push_decimal, push_number, push_text};
use timing_measures::quotient;
use timing_words::push_tenths;

/// Writes a number, cut at the tenth.
pub fn push_cut_tenths(out: &mut Vec<u8>, value: Frac) -> Result<(), Memory>
    requires least { pos 0 ≤ℤ value.num }
    requires denominator { value.den ≤ 2 ^ 120 }
    ensures { OnOk result (out.new.items ≡ out.old.items ++ cut_tenths value) }
{
    push_decimal(out, value, 1)
}

/// Writes two numbers as a range.
#[tactic(auto, unfolding(crate::specs::Numbers::span_text))]
pub fn push_span(out: &mut Vec<u8>, from: Frac, to: Frac) -> Result<(), Memory>
    requires from_least { pos 0 ≤ℤ from.num }
    requires from_denominator { from.den ≤ 2 ^ 120 }
    requires to_least { pos 0 ≤ℤ to.num }
    requires to_denominator { to.den ≤ 2 ^ 120 }
    ensures { OnOk result (out.new.items ≡ out.old.items ++ span_text from to) }
{
    push_tenths(out, from)?;
    push_text(out, " to ")?;
    push_tenths(out, to)
}

/// So many parts of a cycle in seconds.
fn parts_seconds(artery: &Artery, parts: u32, cycle: Frac) -> Frac
    requires parts { parts ≤ most_parts }
    requires cycle { IsQuantity least_cycle most_cycle cycle }
    ensures value { result ≡ parts_seconds artery.now parts cycle }
    ensures least { pos 0 ≤ℤ result.num }
    ensures denominator { result.den ≤ 2 ^ 120 }
{
    let top = u128::from(parts) * cycle.num().unsigned_abs();
    let bottom = u128::from(artery.parts()) * cycle.den().unsigned_abs();
    quotient(top, bottom)
}

/// Writes so many parts in seconds, at the least cycle and at the greatest.
#[tactic(auto, unfolding(crate::specs::Numbers::parts_span))]
pub fn push_parts(out: &mut Vec<u8>, artery: &Artery, parts: u32) -> Result<(), Memory>
    requires { parts ≤ most_parts }
    ensures { OnOk result (out.new.items ≡ out.old.items ++ parts_span artery.now parts) }
{
    let cycle = artery.cycle();
    let from = parts_seconds(artery, parts, cycle.least);
    let to = parts_seconds(artery, parts, cycle.most);
    push_span(out, from, to)
}

/// A length in the other unit.
fn other_length(units: Units, length: u32) -> Frac
    requires { length ≤ most_distance }
    ensures value { result ≡ other_length units length }
    ensures least { pos 0 ≤ℤ result.num }
    ensures denominator { result.den ≤ 2 ^ 120 }
{
    let length = u128::from(length);
    match units {
        Units::Metric => quotient(1250 * length, 381),
        Units::English => quotient(381 * length, 1250),
    }
}

fn between_lengths(units: Units) -> &'static str
    ensures { result.now ≡ between_lengths units }
{
    match units {
        Units::Metric => " m = ",
        Units::English => " ft = ",
    }
}

fn after_lengths(units: Units) -> &'static str
    ensures { result.now ≡ after_lengths units }
{
    match units {
        Units::Metric => " ft",
        Units::English => " m",
    }
}

/// Writes a length as it is typed and in the other unit.
#[tactic(auto, unfolding(crate::specs::Numbers::length_text))]
pub fn push_length(out: &mut Vec<u8>, units: Units, length: u32) -> Result<(), Memory>
    requires { length ≤ most_distance }
    ensures { OnOk result (out.new.items ≡ out.old.items ++ length_text units length) }
{
    push_number(out, u128::from(length))?;
    push_text(out, between_lengths(units))?;
    push_tenths(out, other_length(units, length))?;
    push_text(out, after_lengths(units))
}
