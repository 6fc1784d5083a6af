//! Looking into a TOML value.

ghost use Rattle.std.specs.Prelude.{◌≡◌, option_map, map};
ghost use Rattle.toml.specs.{Data.{get}, View.{view}};
ghost use Rattle.description_reader.specs.{Quantity.{integer_in}, Values.{has, at_key, items_in, text_in, flag_in}};

use crate::quantity::integer_in;
use toml::Value;

/// The value at a key.
pub fn value_at<'a>(value: &'a Value, key: &str) -> Option<&'a Value>
    ensures { option_map (λ v. view v.now) result ≡ get key.now (view value.now) }
{
    value.get(key)
}

/// Whether a table has a key.
pub fn has(value: &Value, key: &str) -> bool
    ensures { result ≡ has (view value.now) key.now }
{
    value_at(value, key).is_some()
}

/// The items of an array, none of any other value.
#[tactic(auto, using(crate::proofs::Views::list_of_items))]
pub fn items_in(value: &Value) -> &[Value]
    ensures { map view result.now ≡ items_in (view value.now) }
{
    match value.as_array() {
        Some(items) => items.as_slice(),
        None => &[],
    }
}

/// The items of an array at a key, none where there is no array.
pub fn items_at<'a>(value: &'a Value, key: &str) -> &'a [Value]
    ensures { map view result.now ≡ items_in (at_key (view value.now) key.now) }
{
    match value_at(value, key) {
        Some(found) => items_in(found),
        None => &[],
    }
}

/// The text of a value, empty for any other value.
pub fn text_in(value: &Value) -> &str
    ensures { result.now ≡ text_in (view value.now) }
{
    match value.as_str() {
        Some(text) => text,
        None => "",
    }
}

/// The text at a key, empty where there is none.
pub fn text_at<'a>(value: &'a Value, key: &str) -> &'a str
    ensures { result.now ≡ text_in (at_key (view value.now) key.now) }
{
    match value_at(value, key) {
        Some(found) => text_in(found),
        None => "",
    }
}

/// The truth at a key, false where there is no boolean.
pub fn flag_at(table: &Value, key: &str) -> bool
    ensures { result ≡ flag_in (at_key (view table.now) key.now) }
{
    match value_at(table, key) {
        Some(found) => found.as_bool().unwrap_or(false),
        None => false,
    }
}

/// The integer at a key, 0 where there is none.
pub fn number_at(value: &Value, key: &str) -> i64
    ensures { result ≡ integer_in (at_key (view value.now) key.now) }
{
    match value_at(value, key) {
        Some(found) => integer_in(found),
        None => 0,
    }
}
