//! Keys that no description has.

ghost use Rattle.std.specs.{Prelude.{◌≡◌, map}, List.{list_all}};
ghost use Rattle.toml.specs.View.{view, table_view};
ghost use Rattle.artery_model.specs.Faults.{Judges, first_fault};
ghost use Rattle.description_reader.specs.Keys.{may_stand, is_known, is_key_character, printed, unknown_fault, unknown_key};
ghost use Rattle.description_reader.specs.Values.{keys_of_members};

use crate::check::check_at;
use crate::key_table::{Presence, entries, is_in};
use crate::place::{Section, TableFacts};
use artery_model::{Flaw, Kind};
use std::alloc::Global;
use toml::{Table, Value};

/// Whether a key may stand in a table of its section. The last link has no limits of a change to the
/// next.
pub fn may_stand(links: usize, section: Section, presence: Presence) -> bool
    ensures { result ≡ may_stand links section presence }
{
    match (section, presence) {
        (Section::Link(number), Presence::NotLast) => number != links,
        _ => true,
    }
}

/// Whether a table of such a file may have the key.
fn is_known(facts: TableFacts, section: Section, name: &str) -> bool
    ensures { result ≡ is_known facts section name.now }
{
    for entry in entries(section) {
        if name == entry.name
            && is_in(facts, entry.when)
            && may_stand(facts.links, section, entry.presence)
        {
            return true;
        }
    }
    false
}

/// Whether all bytes are letters, digits, `_` or `-`.
pub fn has_key_characters(bytes: &[u8]) -> bool
    ensures { result ≡ list_all is_key_character bytes.now }
{
    bytes.iter().all(|byte| byte.is_ascii_alphanumeric() || *byte == b'_' || *byte == b'-')
}

/// A key as it is printed: `?` where it has characters other than letters, digits, `_` and `-`, is
/// empty or is longer than 40 bytes.
fn printed(key: &str) -> &str
    ensures { result.now ≡ printed key.now }
{
    let size = key.len();
    if 1 <= size && size <= 40 && has_key_characters(key.as_bytes()) {
        key
    } else {
        "?"
    }
}

fn check_key(alloc: Global, facts: TableFacts, section: Section, name: &str) -> Result<(), Flaw>
    ensures { Judges result (unknown_fault facts section name.now) }
{
    let known = is_known(facts, section, name);
    check_at(alloc, known, Kind::UnknownKey, section, printed(name))
}

/// Refuses the first key of a table that no description has.
fn check_table(
    alloc: Global,
    facts: TableFacts,
    section: Section,
    table: &Table,
) -> Result<(), Flaw>
    ensures { Judges result (first_fault (map (unknown_fault facts section) (keys_of_members (table_view table.now)))) }
{
    for key in table.keys() {
        check_key(alloc, facts, section, key.as_str())?;
    }
    Ok(())
}

/// Refuses the first key of a table that no description has.
pub fn check_keys(
    alloc: Global,
    facts: TableFacts,
    section: Section,
    value: &Value,
) -> Result<(), Flaw>
    ensures { Judges result (unknown_key facts section (view value.now)) }
{
    match value.as_table() {
        Some(table) => check_table(alloc, facts, section, table),
        None => Ok(()),
    }
}
