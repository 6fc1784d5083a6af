//! The canonical description of an artery: what is printed for it.

ghost use Rattle.std.specs.Prelude.{◌≡◌, None, map, option_map, codes, IfOk, All, length};
ghost use Rattle.toml.specs.{Data.{array, boolean, string, table}, View.{view, table_view, items_of}};
ghost use Rattle.artery_model.specs.Limits.{artery_fault};
ghost use Rattle.description_reader.specs.{Described.{ReadsAs, Described}, Members.{with_member, with_member_if_there}};
ghost use Rattle.description_reader.specs.Printed.{IsPrinted, OneText};
ghost use Rattle.description_reader.specs.Canonical.{number_data, quantity_data, pair_data, units_text, patterns_from, head_members, signal_members, link_members, signal_data, link_data, canonical, HasFour};

use artery_model::bounds::SECOND_VERSION;
use artery_model::{Artery, Head, Link, Pair, Signal, Units};
use narrow_fraction::{Frac, Memory};
use quantity_text::exact_string;
use std::alloc::{AllocError, Global};
use toml::ser::Error;
use toml::{Table, Value};

/// A fraction as its exact spelling.
fn quantity_value(alloc: Global, value: Frac) -> Result<Value, AllocError>
    ensures { IfOk result (λ v. view v ≡ quantity_data value) }
{
    Ok(Value::from(exact_string(alloc, value)?))
}

/// Two limits as an array.
fn pair_value(alloc: Global, limits: Pair) -> Result<Value, AllocError>
    ensures { IfOk result (λ v. view v ≡ pair_data limits) }
{
    let mut items = Vec::new(alloc);
    items.push(quantity_value(alloc, limits.least)?)?;
    items.push(quantity_value(alloc, limits.most)?)?;
    Ok(Value::Array(items))
}

fn units_text(units: Units) -> &'static str
    ensures { result.now ≡ units_text units }
{
    match units {
        Units::Metric => "metric",
        Units::English => "english",
    }
}

/// The numbers of the patterns that are allowed, ascending.
#[tactic(auto, using(crate::proofs::CanonicalTables::patterns_from_last))]
fn patterns_value(alloc: Global, patterns: &[bool; 4]) -> Result<Value, AllocError>
    ensures made { IfOk result (λ v. view v ≡ array (items_of (patterns_from 1 patterns.now))) }
    ensures four { length patterns.now ≡ 4 }
{
    let mut numbers = Vec::new(alloc);
    for (index, allowed) in patterns.iter().enumerate() {
        if *allowed {
            numbers.push(Value::from(index as u32 + 1))?;
        }
    }
    Ok(Value::Array(numbers))
}

/// Puts a value into a table under a key.
#[tactic(auto, using(crate::proofs::CanonicalTables::insert_is_with_member))]
fn put(alloc: Global, table: &mut Table, key: &str, value: Value) -> Result<(), AllocError>
    ensures { IfOk result (λ _. table_view table.new ≡ with_member key.now (view value) (table_view table.old)) }
{
    let key = String::from_str(alloc, key)?;
    table.insert(key, value)?;
    Ok(())
}

fn put_text(alloc: Global, table: &mut Table, key: &str, text: &str) -> Result<(), AllocError>
    ensures { IfOk result (λ _. table_view table.new ≡ with_member key.now (string text.now) (table_view table.old)) }
{
    put(alloc, table, key, Value::string(alloc, text)?)
}

fn put_number(alloc: Global, table: &mut Table, key: &str, number: u32) -> Result<(), AllocError>
    ensures { IfOk result (λ _. table_view table.new ≡ with_member key.now (number_data number) (table_view table.old)) }
{
    put(alloc, table, key, Value::from(number))
}

fn put_pair(alloc: Global, table: &mut Table, key: &str, limits: Pair) -> Result<(), AllocError>
    ensures { IfOk result (λ _. table_view table.new ≡ with_member key.now (pair_data limits) (table_view table.old)) }
{
    put(alloc, table, key, pair_value(alloc, limits)?)
}

/// Puts limits where they are given.
fn put_if_given(
    alloc: Global,
    table: &mut Table,
    key: &str,
    limits: Option<Pair>,
) -> Result<(), AllocError>
    ensures { IfOk result (λ _. table_view table.new ≡ with_member_if_there key.now (option_map pair_data limits) (table_view table.old)) }
{
    match limits {
        Some(limits) => put_pair(alloc, table, key, limits),
        None => Ok(()),
    }
}

/// Puts the least bands, and whether the bands have to be equal.
fn put_bands(alloc: Global, table: &mut Table, head: &Head) -> Result<(), AllocError>
    ensures { IfOk result (λ _. table_view table.new ≡ with_member (codes "equal") (boolean head.now.equal)
        (with_member (codes "least_in") (quantity_data head.now.least_in)
        (with_member (codes "least_out") (quantity_data head.now.least_out) (table_view table.old)))) }
{
    let least_out = quantity_value(alloc, head.least_out)?;
    put(alloc, table, "least_out", least_out)?;
    let least_in = quantity_value(alloc, head.least_in)?;
    put(alloc, table, "least_in", least_in)?;
    put(alloc, table, "equal", Value::from(head.equal))
}

fn head_table(alloc: Global, head: &Head) -> Result<Table, AllocError>
    ensures { IfOk result (λ t. table_view t ≡ head_members head.now) }
{
    let mut table = Table::new(alloc);
    if let Some(name) = &head.name {
        put_text(alloc, &mut table, "name", name.as_str())?;
    }
    put_text(alloc, &mut table, "units", units_text(head.units))?;
    put_number(alloc, &mut table, "parts", head.parts)?;
    put_pair(alloc, &mut table, "cycle", head.cycle)?;
    let ratio = quantity_value(alloc, head.ratio)?;
    put(alloc, &mut table, "ratio", ratio)?;
    if head.version == SECOND_VERSION {
        put_bands(alloc, &mut table, head)?;
    }
    Ok(table)
}

fn signal_table(alloc: Global, signal: &Signal) -> Result<Table, AllocError>
    ensures made { IfOk result (λ t. table_view t ≡ signal_members signal.now) }
    ensures four { IfOk result (λ _. HasFour signal.now) }
{
    let mut table = Table::new(alloc);
    put_text(alloc, &mut table, "name", signal.name.as_str())?;
    put_number(alloc, &mut table, "red", signal.red)?;
    put_number(alloc, &mut table, "left_out", signal.left_out)?;
    put_number(alloc, &mut table, "left_in", signal.left_in)?;
    let patterns = patterns_value(alloc, &signal.patterns)?;
    put(alloc, &mut table, "patterns", patterns)?;
    put_number(alloc, &mut table, "clear_out", signal.clear_out)?;
    put_number(alloc, &mut table, "clear_in", signal.clear_in)?;
    Ok(table)
}

fn link_table(alloc: Global, link: &Link) -> Result<Table, AllocError>
    ensures { IfOk result (λ t. table_view t ≡ link_members link.now) }
{
    let mut table = Table::new(alloc);
    put_number(alloc, &mut table, "distance_out", link.distance_out)?;
    put_number(alloc, &mut table, "distance_in", link.distance_in)?;
    put_pair(alloc, &mut table, "speed_out", link.speed_out)?;
    put_pair(alloc, &mut table, "speed_in", link.speed_in)?;
    put_if_given(alloc, &mut table, "change_out", link.change_out)?;
    put_if_given(alloc, &mut table, "change_in", link.change_in)?;
    Ok(table)
}

fn signals_value(alloc: Global, signals: &[Signal]) -> Result<Value, AllocError>
    ensures made { IfOk result (λ v. view v ≡ array (items_of (map signal_data signals.now))) }
    ensures four { IfOk result (λ _. All HasFour signals.now) }
{
    let mut tables = Vec::new(alloc);
    for signal in signals {
        tables.push(Value::Table(signal_table(alloc, signal)?))?;
    }
    Ok(Value::Array(tables))
}

fn links_value(alloc: Global, links: &[Link]) -> Result<Value, AllocError>
    ensures { IfOk result (λ v. view v ≡ array (items_of (map link_data links.now))) }
{
    let mut tables = Vec::new(alloc);
    for link in links {
        tables.push(Value::Table(link_table(alloc, link)?))?;
    }
    Ok(Value::Array(tables))
}

/// The root of the description.
fn root_table(alloc: Global, artery: &Artery) -> Result<Table, AllocError>
    ensures made { IfOk result (λ t. table_view t ≡ canonical artery.now) }
    ensures four { IfOk result (λ _. All HasFour artery.now.signals) }
    ensures no_fault { IfOk result (λ _. artery_fault artery.now ≡ None) }
{
    let mut table = Table::new(alloc);
    let head = artery.head();
    put_number(alloc, &mut table, "version", head.version)?;
    let head = head_table(alloc, head)?;
    put(alloc, &mut table, "artery", Value::Table(head))?;
    let signals = signals_value(alloc, artery.signals())?;
    put(alloc, &mut table, "signal", signals)?;
    let links = links_value(alloc, artery.links())?;
    put(alloc, &mut table, "link", links)?;
    Ok(table)
}

/// The canonical description of an artery, a TOML text. It has every key of the format of its version but the
/// artery's name and the limits of changes where these aren't given, and `read_artery` reads the
/// same artery from it. The error is want of memory.
pub fn print_artery(alloc: Global, artery: &Artery) -> Result<Vec<u8>, Memory>
    ensures text { IfOk result (λ v. IsPrinted v.items artery.now) }
    ensures reads { IfOk result (λ v. ReadsAs v.items (table (canonical artery.now))) }
    ensures described { IfOk result (λ v. Described v.items artery.now) }
{
    let root = root_table(alloc, artery)?;
    match toml::table_to_string(alloc, &root) {
        Ok(text) => Ok(text.into_bytes()),
        Err(Error::OutOfMemory) => Err(Memory),
        Err(Error::DateInvalid) => unreachable!(),
    }
}

/// An artery is printed as the same bytes each time.
pub fn law_one_text()
    ensures { OneText }
{}
