//! How a value is told, and what a table is called.

ghost use Rattle.std.specs.{Prelude.{◌≡◌, ◌++◌, ◌==◌, map, codes, OnOk, if◌then◌else◌}, List.{flat_map}, Fmt.{decimal}};
ghost use Rattle.toml.specs.View.{view};
ghost use Rattle.fault_words.specs.Shown.{plain, plain_text, quoted, truth, list_size, item_words, listed, value_words, is_bare, key_words};

use crate::signed::push_signed;
use description_reader::{has_key_characters, items_in};
use narrow_fraction::Memory;
use quantity_text::{push_number, push_text};
use toml::Value;

/// The most bytes of a text that is told.
pub const MOST_TOLD: usize = 60;

/// The most items of a list that are told.
const MOST_LISTED: usize = 4;

/// A byte, or the mark where it is a control character.
pub fn plain(mark: u8, byte: u8) -> u8
    ensures { result ≡ plain mark byte }
{
    if byte < 32 || byte == 127 { mark } else { byte }
}

/// Writes a text with a mark in place of each control character.
fn push_plain(out: &mut Vec<u8>, mark: u8, bytes: &[u8]) -> Result<(), Memory>
    ensures { OnOk result (out.new.items ≡ out.old.items ++ map (plain mark) bytes.now) }
{
    for byte in bytes {
        out.push(plain(mark, *byte))?;
    }
    Ok(())
}

pub fn push_plain_text(out: &mut Vec<u8>, text: &str) -> Result<(), Memory>
    ensures { OnOk result (out.new.items ≡ out.old.items ++ plain_text text.now) }
{
    push_plain(out, b'?', text.as_bytes())
}

fn push_in_quotes(out: &mut Vec<u8>, text: &str) -> Result<(), Memory>
    ensures { OnOk result (out.new.items ≡ out.old.items ++ (codes "\"" ++ (plain_text text.now ++ codes "\""))) }
{
    push_text(out, "\"")?;
    push_plain_text(out, text)?;
    push_text(out, "\"")
}

fn push_text_size(out: &mut Vec<u8>, size: usize) -> Result<(), Memory>
    ensures { OnOk result (out.new.items ≡ out.old.items ++ (codes "a text of " ++ (decimal size ++ codes " bytes"))) }
{
    push_text(out, "a text of ")?;
    push_number(out, size as u128)?;
    push_text(out, " bytes")
}

/// Writes a text between quotes, or how long it is.
#[tactic(auto, unfolding(crate::specs::Shown::quoted))]
fn push_quoted(out: &mut Vec<u8>, text: &str) -> Result<(), Memory>
    ensures { OnOk result (out.new.items ≡ out.old.items ++ quoted text.now) }
{
    if text.len() <= MOST_TOLD {
        push_in_quotes(out, text)
    } else {
        push_text_size(out, text.len())
    }
}

fn is_bare(key: &str) -> bool
    ensures { result ≡ is_bare key.now }
{
    0 < key.len() && key.len() <= MOST_TOLD && has_key_characters(key.as_bytes())
}

/// Writes a key, between quotes where it can't stand without them.
#[tactic(auto, unfolding(crate::specs::Shown::key_words))]
pub fn push_key(out: &mut Vec<u8>, key: &str) -> Result<(), Memory>
    ensures { OnOk result (out.new.items ≡ out.old.items ++ key_words key.now) }
{
    if is_bare(key) {
        push_text(out, key)
    } else {
        push_quoted(out, key)
    }
}

fn truth(flag: bool) -> &'static str
    ensures { result.now ≡ truth flag }
{
    if flag { "true" } else { "false" }
}

fn value_or_values(count: usize) -> &'static str
    ensures { result.now ≡ (if count == 1 then codes " value" else codes " values") }
{
    if count == 1 { " value" } else { " values" }
}

/// Writes how many values a list has.
#[tactic(auto, unfolding(crate::specs::Shown::list_size))]
fn push_list_size(out: &mut Vec<u8>, count: usize) -> Result<(), Memory>
    ensures { OnOk result (out.new.items ≡ out.old.items ++ list_size count) }
{
    push_text(out, "a list of ")?;
    push_number(out, count as u128)?;
    push_text(out, value_or_values(count))
}

/// Writes a value, of a list only how many it has.
#[tactic(auto, using(crate::proofs::Seen::array_words))]
fn push_item(out: &mut Vec<u8>, value: &Value) -> Result<(), Memory>
    ensures { OnOk result (out.new.items ≡ out.old.items ++ item_words (view value.now)) }
{
    match value {
        Value::String(text) => push_quoted(out, text.as_str()),
        Value::Integer(number) => push_signed(out, *number),
        Value::Float(_) => push_text(out, "a number with a point, without quotes"),
        Value::Boolean(flag) => push_text(out, truth(*flag)),
        Value::Datetime(_) => push_text(out, "a date or a time"),
        Value::Array(items) => push_list_size(out, items.len()),
        Value::Table(_) => push_text(out, "a table"),
    }
}

fn push_next(out: &mut Vec<u8>, value: &Value) -> Result<(), Memory>
    ensures { OnOk result (out.new.items ≡ out.old.items ++ (codes ", " ++ item_words (view value.now))) }
{
    push_text(out, ", ")?;
    push_item(out, value)
}

fn push_each(out: &mut Vec<u8>, items: &[Value]) -> Result<(), Memory>
    ensures { OnOk result (out.new.items ≡ out.old.items ++ flat_map (λ d. codes ", " ++ item_words d) (map view items.now)) }
{
    for item in items {
        push_next(out, item)?;
    }
    Ok(())
}

/// Writes the items of a short list.
#[tactic(auto, unfolding(crate::specs::Shown::listed))]
fn push_listed(out: &mut Vec<u8>, items: &[Value]) -> Result<(), Memory>
    ensures { OnOk result (out.new.items ≡ out.old.items ++ listed (map view items.now)) }
{
    if items.len() <= MOST_LISTED {
        push_each(out, items)
    } else {
        Ok(())
    }
}

/// Writes a value, with the items of a short list.
#[tactic(auto, unfolding(crate::specs::Shown::value_words))]
pub fn push_value(out: &mut Vec<u8>, value: &Value) -> Result<(), Memory>
    ensures { OnOk result (out.new.items ≡ out.old.items ++ value_words (view value.now)) }
{
    push_item(out, value)?;
    push_listed(out, items_in(value))
}
