//! Which table, key and item the path of a place names.

ghost use Rattle.std.specs.Prelude.{◌≡◌, ◌<◌, fold, map, option_map};
ghost use Rattle.toml.specs.View.{view};
ghost use Rattle.fault_words.specs.Places.{before, behind, has_table, table_path, key_path, name_of, with_digit, number_of, root_of};
ghost use Rattle.fault_words.specs.Places.{section_named, section_at, key_at, item_at, table_of, value_in, value_of, numbered};
ghost use Rattle.fault_words.specs.Places.{section_number};

use description_reader::{Section, items_at, value_at};
use toml::Value;

/// What a document is to be: the description of a street, or a plan.
#[derive(Clone, Copy, Debug, PartialEq, Eq)]
pub enum Document {
    Street,
    Plan,
}

/// What stands before the first such mark, all where there is none.
fn before(mark: char, path: &str) -> &str
    requires { mark < 128 }
    ensures { result.now ≡ before mark path.now }
{
    match path.split_once(mark) {
        Some((front, _)) => front,
        None => path,
    }
}

/// What stands behind it, nothing where there is none.
fn behind(mark: char, path: &str) -> &str
    requires { mark < 128 }
    ensures { result.now ≡ behind mark path.now }
{
    match path.split_once(mark) {
        Some((_, back)) => back,
        None => "",
    }
}

fn has_table(path: &str) -> bool
    ensures { result ≡ has_table path.now }
{
    0 < behind('.', path).len()
}

fn table_path(path: &str) -> &str
    ensures { result.now ≡ table_path path.now }
{
    if has_table(path) {
        before('.', path)
    } else {
        ""
    }
}

fn key_path(path: &str) -> &str
    ensures { result.now ≡ key_path path.now }
{
    if has_table(path) {
        behind('.', path)
    } else {
        path
    }
}

fn name_of(path: &str) -> &str
    ensures { result.now ≡ name_of path.now }
{
    before('[', path)
}

/// A digit more.
fn with_digit(number: usize, byte: u8) -> usize
    requires { number < 10000000 }
    ensures value { result ≡ with_digit number byte }
    ensures small { result < 10000000 }
{
    if byte.is_ascii_digit() && number < 1_000_000 {
        10 * number + (byte - 48) as usize
    } else {
        number
    }
}

fn number_in(bytes: &[u8]) -> usize
    ensures value { result ≡ fold with_digit 0 bytes.now }
    ensures small { result < 10000000 }
{
    let mut number = 0;
    for byte in bytes {
        number = with_digit(number, *byte);
    }
    number
}

fn number_of(path: &str) -> usize
    ensures value { result ≡ number_of path.now }
    ensures small { result < 10000000 }
{
    number_in(behind('[', path).as_bytes())
}

fn root_of(document: Document) -> Section
    ensures value { result ≡ root_of document }
    ensures small { section_number result ≡ 0 }
{
    match document {
        Document::Street => Section::Root,
        Document::Plan => Section::PlanRoot,
    }
}

fn section_named(document: Document, name: &str, number: usize) -> Section
    requires { number < 10000000 }
    ensures value { result ≡ section_named document name.now number }
    ensures small { section_number result < 10000000 }
{
    match name {
        "signal" => Section::Signal(number),
        "link" => Section::Link(number),
        "artery" => Section::Artery,
        "plan" => Section::Plan,
        _ => root_of(document),
    }
}

/// The table of a place.
pub fn section_at(document: Document, path: &str) -> Section
    ensures value { result ≡ section_at document path.now }
    ensures small { section_number result < 10000000 }
{
    let table = table_path(path);
    section_named(document, name_of(table), number_of(table))
}

/// The key of a place.
pub fn key_at(path: &str) -> &str
    ensures { result.now ≡ key_at path.now }
{
    name_of(key_path(path))
}

/// The item of a place, counted from 1, and 0 where it is the value itself.
pub fn item_at(path: &str) -> usize
    ensures { result ≡ item_at path.now }
{
    number_of(key_path(path))
}

/// An item of a list, counted from 1.
fn numbered(number: usize, items: &[Value]) -> Option<&Value>
    ensures { option_map (λ v. view v.now) result ≡ numbered number (map view items.now) }
{
    if number == 0 {
        None
    } else {
        items.get(number - 1)
    }
}

/// The table of a section.
pub fn table_of(root: &Value, section: Section) -> Option<&Value>
    ensures { option_map (λ v. view v.now) result ≡ table_of (view root.now) section }
{
    match section {
        Section::Root | Section::PlanRoot => Some(root),
        Section::Artery => value_at(root, "artery"),
        Section::Plan => value_at(root, "plan"),
        Section::Signal(number) => numbered(number, items_at(root, "signal")),
        Section::Link(number) => numbered(number, items_at(root, "link")),
    }
}

/// The value at a key of a table, or an item of it.
#[tactic(auto, using(crate::proofs::Seen::value_in_list))]
fn value_in<'a>(key: &str, item: usize, table: &'a Value) -> Option<&'a Value>
    ensures { option_map (λ v. view v.now) result ≡ value_in key.now item (view table.now) }
{
    if item == 0 {
        value_at(table, key)
    } else {
        numbered(item, items_at(table, key))
    }
}

/// What stands at a place.
pub fn value_of<'a>(root: &'a Value, section: Section, key: &str, item: usize) -> Option<&'a Value>
    ensures { option_map (λ v. view v.now) result ≡ value_of (view root.now) section key.now item }
{
    match table_of(root, section) {
        Some(table) => value_in(key, item, table),
        None => None,
    }
}
