//! What a key wants.

ghost use Rattle.std.specs.{Prelude.{◌≡◌, ◌++◌, ◌==◌, [], codes, OnOk, if◌then◌else◌}, Fmt.{decimal}};
ghost use Rattle.description_reader.specs.KeyTable.{key_of};
ghost use Rattle.fault_words.specs.Wants.{size_words, span_words, from_words, below_words, below_if_parts, parts_words, sized_words, type_word};
ghost use Rattle.fault_words.specs.Wants.{type_words, range_word, each_words, many_words, range_words, terms, terms_words, fineness, wants};

use crate::signed::{push_parts_number, push_signed};
use artery_model::bounds::{LEAST_PARTS, MOST_DENOMINATOR, MOST_NUMERATOR};
use description_reader::{Demand, KeyEntry, TableFacts};
use narrow_fraction::Memory;
use quantity_text::{push_number, push_text};

fn push_most(out: &mut Vec<u8>, least: usize, most: usize) -> Result<(), Memory>
    ensures { OnOk result (out.new.items ≡ out.old.items ++ (if least == most then [] else codes " to " ++ decimal most)) }
{
    if least == most {
        return Ok(());
    }
    push_text(out, " to ")?;
    push_number(out, most as u128)
}

#[tactic(auto, unfolding(crate::specs::Wants::size_words))]
fn push_size(out: &mut Vec<u8>, least: usize, most: usize) -> Result<(), Memory>
    ensures { OnOk result (out.new.items ≡ out.old.items ++ size_words least most) }
{
    push_number(out, least as u128)?;
    push_most(out, least, most)
}

#[tactic(auto, unfolding(crate::specs::Wants::span_words))]
fn push_span(out: &mut Vec<u8>, least: i64, most: i64) -> Result<(), Memory>
    ensures { OnOk result (out.new.items ≡ out.old.items ++ span_words least most) }
{
    push_text(out, ", from ")?;
    push_signed(out, least)?;
    push_text(out, " to ")?;
    push_signed(out, most)
}

#[tactic(auto, unfolding(crate::specs::Wants::from_words))]
fn push_from(out: &mut Vec<u8>, least: i64) -> Result<(), Memory>
    ensures { OnOk result (out.new.items ≡ out.old.items ++ from_words least) }
{
    push_text(out, ", from ")?;
    push_signed(out, least)
}

#[tactic(auto, unfolding(crate::specs::Wants::below_words))]
fn push_below(out: &mut Vec<u8>, facts: TableFacts) -> Result<(), Memory>
    ensures { OnOk result (out.new.items ≡ out.old.items ++ below_words facts.parts) }
{
    push_text(out, " to less than the ")?;
    push_parts_number(out, facts)?;
    push_text(out, " parts of the cycle")
}

/// The same, where the number of parts is one that a cycle may have.
fn push_below_if_parts(out: &mut Vec<u8>, facts: TableFacts) -> Result<(), Memory>
    ensures { OnOk result (out.new.items ≡ out.old.items ++ below_if_parts facts.parts) }
{
    if facts.parts < i64::from(LEAST_PARTS) {
        Ok(())
    } else {
        push_below(out, facts)
    }
}

#[tactic(auto, unfolding(crate::specs::Wants::parts_words))]
fn push_parts(out: &mut Vec<u8>, facts: TableFacts, least: i64) -> Result<(), Memory>
    ensures { OnOk result (out.new.items ≡ out.old.items ++ parts_words facts.parts least) }
{
    push_from(out, least)?;
    push_below_if_parts(out, facts)
}

#[tactic(auto, unfolding(crate::specs::Wants::sized_words))]
fn push_sized(out: &mut Vec<u8>, least: usize, most: usize) -> Result<(), Memory>
    ensures { OnOk result (out.new.items ≡ out.old.items ++ sized_words least most) }
{
    push_text(out, " a list of ")?;
    push_size(out, least, most)?;
    push_text(out, " values")
}

/// Writes the type.
fn push_type(out: &mut Vec<u8>, demand: Demand) -> Result<(), Memory>
    ensures { OnOk result (out.new.items ≡ out.old.items ++ type_words demand) }
{
    match demand {
        Demand::Length(least, most) => push_sized(out, least, most),
        _ => push_text(out, type_word(demand)),
    }
}

/// The words of a type that has no numbers in it.
fn type_word(demand: Demand) -> &'static str
    ensures { result.now ≡ type_word demand }
{
    match demand {
        Demand::Anything | Demand::Length(_, _) => "",
        Demand::Table => " a table",
        Demand::Array => " a list",
        Demand::Integer => " a whole number without quotes",
        Demand::Boolean => " true or false, without quotes",
        Demand::Text => " a text between quotes",
        Demand::Quantity => { " a number, between quotes unless it is whole" }
        Demand::Number | Demand::Within(_, _) | Demand::Written(_, _) => " a number",
        Demand::Units | Demand::Reference => " a word",
        Demand::Name => " a name",
        Demand::Between(_, _) | Demand::BelowParts(_) => " a whole number",
    }
}

/// Writes the type of each item.
fn push_type_of_each(out: &mut Vec<u8>, demand: Demand) -> Result<(), Memory>
    ensures { OnOk result (out.new.items ≡ out.old.items ++ (codes ", each" ++ type_words demand)) }
{
    push_text(out, ", each")?;
    push_type(out, demand)
}

fn push_each_type(out: &mut Vec<u8>, demand: Demand) -> Result<(), Memory>
    ensures { OnOk result (out.new.items ≡ out.old.items ++ each_words demand) }
{
    match demand {
        Demand::Anything => Ok(()),
        _ => push_type_of_each(out, demand),
    }
}

#[tactic(auto, unfolding(crate::specs::Wants::many_words))]
fn push_many(out: &mut Vec<u8>, least: usize, most: usize) -> Result<(), Memory>
    ensures { OnOk result (out.new.items ≡ out.old.items ++ many_words least most) }
{
    push_text(out, ", ")?;
    push_size(out, least, most)?;
    push_text(out, " of them")
}

/// The words of limits that have no numbers in them.
fn range_word(demand: Demand) -> &'static str
    ensures { result.now ≡ range_word demand }
{
    match demand {
        Demand::Units => ", \"metric\" or \"english\"",
        Demand::Reference => {
            ", \"red\", \"green_out\", \"green_in\", \"first_green\", \"end_out\" or \"end_in\""
        }
        Demand::Name => ", of 1 to 60 bytes and no control characters",
        Demand::Anything | Demand::Table | Demand::Array | Demand::Length(_, _) => "",
        Demand::Integer | Demand::Boolean | Demand::Text | Demand::Quantity => "",
        Demand::Number | Demand::Between(_, _) | Demand::BelowParts(_) => "",
        Demand::Within(_, _) | Demand::Written(_, _) => "",
    }
}

/// Writes the limits, where the cycle has this many parts.
fn push_range(out: &mut Vec<u8>, facts: TableFacts, demand: Demand) -> Result<(), Memory>
    ensures { OnOk result (out.new.items ≡ out.old.items ++ range_words facts.parts demand) }
{
    match demand {
        Demand::Length(least, most) => push_many(out, least, most),
        Demand::Between(least, most) => push_span(out, least, most),
        Demand::BelowParts(least) => push_parts(out, facts, least),
        Demand::Within(least, most) => push_span(out, least, most),
        Demand::Written(least, most) => push_span(out, least, most),
        _ => push_text(out, range_word(demand)),
    }
}

/// Writes how fine a number may be.
#[tactic(auto, unfolding(crate::specs::Wants::terms))]
fn push_terms(out: &mut Vec<u8>) -> Result<(), Memory>
    ensures { OnOk result (out.new.items ≡ out.old.items ++ terms) }
{
    push_text(out, ", in lowest terms at most ")?;
    push_number(out, MOST_NUMERATOR)?;
    push_text(out, " over ")?;
    push_number(out, MOST_DENOMINATOR)
}

fn push_terms_of(out: &mut Vec<u8>, demand: Demand) -> Result<(), Memory>
    ensures { OnOk result (out.new.items ≡ out.old.items ++ terms_words demand) }
{
    match demand {
        Demand::Within(_, _) => push_terms(out),
        _ => Ok(()),
    }
}

/// Writes how fine the numbers of a key may be, where that has a limit.
pub fn push_fineness(out: &mut Vec<u8>, entry: &KeyEntry) -> Result<(), Memory>
    ensures { OnOk result (out.new.items ≡ out.old.items ++ fineness (key_of entry.now)) }
{
    push_terms_of(out, entry.ranges.value)?;
    push_terms_of(out, entry.ranges.item)
}

/// Writes what a key wants, where the cycle has this many parts.
#[tactic(auto, unfolding(crate::specs::Wants::wants))]
pub fn push_wants(out: &mut Vec<u8>, facts: TableFacts, entry: &KeyEntry) -> Result<(), Memory>
    ensures { OnOk result (out.new.items ≡ out.old.items ++ wants facts.parts (key_of entry.now)) }
{
    push_type(out, entry.types.value)?;
    push_each_type(out, entry.types.item)?;
    push_range(out, facts, entry.ranges.value)?;
    push_range(out, facts, entry.ranges.item)
}
