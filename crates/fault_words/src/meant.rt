//! A key as it stands in the file, where the path of its place can't name it.

ghost use Rattle.std.specs.{Prelude.{◌≡◌, not, is_some, Some, option_map}, List.{find}};
ghost use Rattle.toml.specs.View.{view, table_view};
ghost use Rattle.description_reader.specs.Values.{keys_of_members};
ghost use Rattle.fault_words.specs.Near.{known_key, unknown_in, key_meant};

use crate::near::known_key;
use artery_model::Kind;
use description_reader::{Section, TableFacts};
use toml::{Table, Value};

fn is_unknown(facts: TableFacts, section: Section, name: &str) -> bool
    ensures { result ≡ not (is_some (known_key facts section name.now)) }
{
    match known_key(facts, section, name) {
        Some(_) => false,
        None => true,
    }
}

/// The first key of a table that isn't known.
fn unknown_key(facts: TableFacts, section: Section, table: &Table) -> Option<&str>
    ensures { option_map (λ s. s.now) result ≡ find (λ name. not (is_some (known_key facts section name))) (keys_of_members (table_view table.now)) }
{
    for key in table.keys() {
        if is_unknown(facts, section, key.as_str()) {
            return Some(key.as_str());
        }
    }
    None
}

fn unknown_of(facts: TableFacts, section: Section, value: &Value) -> Option<&str>
    ensures { option_map (λ s. s.now) result ≡ unknown_in facts section (Some (view value.now)) }
{
    match value.as_table() {
        Some(table) => unknown_key(facts, section, table),
        None => None,
    }
}

fn unknown_in(facts: TableFacts, section: Section, value: Option<&Value>) -> Option<&str>
    ensures { option_map (λ s. s.now) result ≡ unknown_in facts section (option_map (λ v. view v.now) value.entry) }
{
    match value {
        Some(found) => unknown_of(facts, section, found),
        None => None,
    }
}

/// The key of a fault in a table.
pub fn key_meant<'a>(
    kind: Kind,
    facts: TableFacts,
    section: Section,
    table: Option<&'a Value>,
    key: &'a str,
) -> &'a str
    ensures { result.now ≡ key_meant kind facts section (option_map (λ v. view v.now) table.entry) key.now }
{
    match kind {
        Kind::UnknownKey => unknown_in(facts, section, table).unwrap_or(key),
        _ => key,
    }
}
