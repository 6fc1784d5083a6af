//! The artery that the values of a description make.

ghost use Rattle.std.specs.Prelude.{◌≡◌, map, option_map, codes, IfOk};
ghost use Rattle.toml.specs.{Data.{get, array, no_items}, View.{view}};
ghost use Rattle.progression.specs.Street.{no_pair};
ghost use Rattle.description_reader.specs.{Quantity.{number_in}, Values.{at_key, text_in}};
ghost use Rattle.description_reader.specs.Streets.{u32_or_zero, u32_at, pair_of, pair_at, has_number, patterns_of, change_at, version_of, head_in, signal_in, link_in};

use crate::quantity::{integer_in, number_in};
use crate::values::{flag_at, items_at, items_in, number_at, text_at, text_in, value_at};
use artery_model::bounds::FIRST_VERSION;
use artery_model::{Head, Link, Pair, Signal, Text, Units};
use narrow_fraction::Frac;
use std::alloc::{AllocError, Global};
use toml::Value;

/// A number of 32 bits, 0 for any other.
pub fn u32_or_zero(number: i64) -> u32
    ensures { result ≡ u32_or_zero number }
{
    if 0 <= number && number < 4_294_967_296 {
        number as u32
    } else {
        0
    }
}

/// The number of 32 bits at a key, 0 where there is none.
fn u32_at(table: &Value, key: &str) -> u32
    ensures { result ≡ u32_at (view table.now) key.now }
{
    u32_or_zero(number_at(table, key))
}

fn no_pair() -> Pair
    ensures { result ≡ no_pair }
{
    Pair {
        least: Frac::whole(0),
        most: Frac::whole(0),
    }
}

/// Two limits, 0 and 0 where there aren't two.
fn pair_of(items: &[Value]) -> Pair
    ensures { result ≡ pair_of (map view items.now) }
{
    match items {
        [least, most] => Pair {
            least: number_in(least),
            most: number_in(most),
        },
        _ => no_pair(),
    }
}

/// The two limits at a key.
fn pair_at(table: &Value, key: &str) -> Pair
    ensures { result ≡ pair_at (view table.now) key.now }
{
    pair_of(items_at(table, key))
}

/// The limits of a change of pace, where they are given.
fn change_at(table: &Value, key: &str) -> Option<Pair>
    ensures { result ≡ change_at (view table.now) key.now }
{
    match value_at(table, key) {
        Some(found) => Some(pair_of(items_in(found))),
        None => None,
    }
}

/// Whether one of the numbers of a list is this one.
fn has_number(items: &[Value], pattern: u32) -> bool
    ensures { result ≡ has_number (map view items.now) pattern }
{
    items
        .iter()
        .any(|item| integer_in(item) == i64::from(pattern))
}

/// The left turn patterns 1 to 4 that are named, all four where the key is absent.
fn patterns_of(table: &Value) -> [bool; 4]
    ensures { result ≡ patterns_of (get (codes "patterns") (view table.now)) }
{
    match value_at(table, "patterns") {
        Some(found) => {
            let items = items_in(found);
            [
                has_number(items, 1),
                has_number(items, 2),
                has_number(items, 3),
                has_number(items, 4),
            ]
        }
        None => [true, true, true, true],
    }
}

/// The number at a key, 0 where there is none.
pub fn number_of(table: &Value, key: &str) -> Frac
    ensures { result ≡ number_in (at_key (view table.now) key.now) }
{
    match value_at(table, key) {
        Some(found) => number_in(found),
        None => Frac::whole(0),
    }
}

/// The name in a table, where there is one.
fn name_at(alloc: Global, table: &Value) -> Result<Option<Text>, AllocError>
    ensures { IfOk result (λ n. n ≡ option_map text_in (get (codes "name") (view table.now))) }
{
    match value_at(table, "name") {
        Some(found) => {
            let name = String::from_str(alloc, text_in(found))?;
            Ok(Some(Text::from(name)))
        }
        None => Ok(None),
    }
}

fn no_head(version: u32) -> Head
    ensures { result ≡ head_in version (array no_items) }
{
    Head {
        name: None,
        units: Units::Metric,
        version,
        parts: 0,
        cycle: no_pair(),
        ratio: Frac::whole(0),
        least_out: Frac::whole(0),
        least_in: Frac::whole(0),
        equal: false,
    }
}

fn head_of(alloc: Global, version: u32, table: &Value) -> Result<Head, AllocError>
    ensures { IfOk result (λ h. h ≡ head_in version (view table.now)) }
{
    let units = if text_at(table, "units") == "english" {
        Units::English
    } else {
        Units::Metric
    };
    Ok(Head {
        name: name_at(alloc, table)?,
        units,
        version,
        parts: u32_at(table, "parts"),
        cycle: pair_at(table, "cycle"),
        ratio: number_of(table, "ratio"),
        least_out: number_of(table, "least_out"),
        least_in: number_of(table, "least_in"),
        equal: flag_at(table, "equal"),
    })
}

/// The version of a description, the first where it has none.
fn version_of(root: &Value) -> u32
    ensures { result ≡ version_of (get (codes "version") (view root.now)) }
{
    match value_at(root, "version") {
        Some(found) => u32_or_zero(integer_in(found)),
        None => FIRST_VERSION,
    }
}

/// What holds of the whole artery.
pub fn head_in(alloc: Global, root: &Value) -> Result<Head, AllocError>
    ensures { IfOk result (λ h. h ≡ head_in (version_of (get (codes "version") (view root.now))) (at_key (view root.now) (codes "artery"))) }
{
    let version = version_of(root);
    match value_at(root, "artery") {
        Some(artery) => head_of(alloc, version, artery),
        None => Ok(no_head(version)),
    }
}

fn signal_in(alloc: Global, table: &Value) -> Result<Signal, AllocError>
    ensures { IfOk result (λ s. s ≡ signal_in (view table.now)) }
{
    let name = String::from_str(alloc, text_at(table, "name"))?;
    Ok(Signal {
        name: Text::from(name),
        red: u32_at(table, "red"),
        left_out: u32_at(table, "left_out"),
        left_in: u32_at(table, "left_in"),
        patterns: patterns_of(table),
        clear_out: u32_at(table, "clear_out"),
        clear_in: u32_at(table, "clear_in"),
    })
}

/// The signals in their order.
pub fn signals_in(alloc: Global, tables: &[Value]) -> Result<Vec<Signal>, AllocError>
    ensures { IfOk result (λ v. v.items ≡ map signal_in (map view tables.now)) }
{
    let mut signals = Vec::new(alloc);
    for table in tables {
        signals.push(signal_in(alloc, table)?)?;
    }
    Ok(signals)
}

/// The link of a table, with these speeds.
fn link_of(table: &Value, speed_out: Pair, speed_in: Pair) -> Link
    ensures { result ≡ record (link_in (view table.now)) { speed_out = speed_out; speed_in = speed_in } }
{
    Link {
        distance_out: u32_at(table, "distance_out"),
        distance_in: u32_at(table, "distance_in"),
        speed_out,
        speed_in,
        change_out: change_at(table, "change_out"),
        change_in: change_at(table, "change_in"),
    }
}

/// The links in their order.
pub fn links_in(alloc: Global, tables: &[Value]) -> Result<Vec<Link>, AllocError>
    ensures { IfOk result (λ v. v.items ≡ map link_in (map view tables.now)) }
{
    let mut links = Vec::new(alloc);
    for table in tables {
        let speed_out = pair_at(table, "speed_out");
        let speed_in = pair_at(table, "speed_in");
        links.push(link_of(table, speed_out, speed_in))?;
    }
    Ok(links)
}
