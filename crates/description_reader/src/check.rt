//! One check of a value of a description.

ghost use Rattle.std.specs.Prelude.{◌≡◌, Some, true, unwrap_or, option_map, string_bytes, codes};
ghost use Rattle.toml.specs.{Data.{get}, View.{view}};
ghost use Rattle.artery_model.specs.Faults.{Judges, Names, unless};
ghost use Rattle.description_reader.specs.Places.{key_place, item_place};
ghost use Rattle.description_reader.specs.Checks.{meets, missing, value_fault, items_fault, demands_fault};

use crate::demand::{Demand, meets};
use crate::key_table::{Demands, Presence};
use crate::place::{Section, item_place, key_place};
use crate::values::{has, items_at, value_at};
use artery_model::{Flaw, Kind, Refusal, Text};
use std::alloc::Global;
use toml::Value;

fn refused(kind: Kind, place: String) -> Flaw
    ensures { Names result (Some (record { kind = kind; place = string_bytes place })) }
{
    Flaw::Refused(Refusal {
        kind,
        place: Text::from(place),
    })
}

/// Refuses the file as a whole.
pub fn refused_file(alloc: Global, kind: Kind) -> Flaw
    ensures { Names result (Some (record { kind = kind; place = codes "file" })) }
{
    match String::from_str(alloc, "file") {
        Ok(place) => refused(kind, place),
        Err(_) => Flaw::Memory,
    }
}

/// Refuses a key where the test fails.
pub fn check_at(
    alloc: Global,
    passes: bool,
    kind: Kind,
    section: Section,
    key: &str,
) -> Result<(), Flaw>
    ensures { Judges result (unless passes kind (key_place section key.now)) }
{
    if passes {
        return Ok(());
    }
    let place = key_place(alloc, section, key)?;
    Err(refused(kind, place))
}

/// Refuses an item of an array, counted from 1, where the test fails.
fn check_item(
    alloc: Global,
    passes: bool,
    kind: Kind,
    section: Section,
    key: &str,
    number: usize,
) -> Result<(), Flaw>
    ensures { Judges result (unless passes kind (item_place section key.now number)) }
{
    if passes {
        return Ok(());
    }
    let place = item_place(alloc, section, key, number)?;
    Err(refused(kind, place))
}

/// Refuses a table without a needed key.
pub fn check_needed(
    alloc: Global,
    presence: Presence,
    section: Section,
    name: &str,
    table: &Value,
) -> Result<(), Flaw>
    ensures { Judges result (missing presence section name.now (view table.now)) }
{
    match presence {
        Presence::Needed => check_at(alloc, has(table, name), Kind::Missing, section, name),
        Presence::Optional | Presence::NotLast => Ok(()),
    }
}

/// Whether the value at a key, where there is one, is what it must be.
fn meets_at(parts: i64, demand: Demand, name: &str, table: &Value) -> bool
    ensures { result ≡ unwrap_or (option_map (meets parts demand) (get name.now (view table.now))) true }
{
    match value_at(table, name) {
        Some(found) => meets(parts, demand, found),
        None => true,
    }
}

/// The check of the values of one table for one kind of fault.
#[derive(Clone, Copy)]
pub struct TableCheck<'a> {
    alloc: Global,
    kind: Kind,
    parts: i64,
    section: Section,
    table: &'a Value,
}

impl<'a> TableCheck<'a> {
    /// The check of a table in a description whose cycle has this many parts.
    pub fn new(alloc: Global, kind: Kind, parts: i64, section: Section, table: &'a Value) -> Self
        ensures kind { result.kind ≡ kind }
        ensures parts { result.parts ≡ parts }
        ensures section { result.section ≡ section }
        ensures table { result.table.now ≡ table.now }
    {
        TableCheck {
            alloc,
            kind,
            parts,
            section,
            table,
        }
    }

    /// Refuses the value at a key, where there is one, that is not what it must be.
    #[tactic(auto, unfolding(crate::specs::Checks::value_fault))]
    fn value(self, demand: Demand, name: &str) -> Result<(), Flaw>
        ensures { Judges result (value_fault self.entry.kind self.entry.parts self.entry.section demand name.now (view self.entry.table.now)) }
    {
        let passes = meets_at(self.parts, demand, name, self.table);
        check_at(self.alloc, passes, self.kind, self.section, name)
    }

    /// Refuses the first item of the array at a key that is not what it must be.
    #[tactic(auto, unfolding(crate::specs::Checks::items_fault))]
    fn items(self, demand: Demand, name: &str) -> Result<(), Flaw>
        ensures { Judges result (items_fault self.entry.kind self.entry.parts self.entry.section demand name.now (view self.entry.table.now)) }
    {
        let items = items_at(self.table, name);
        for (index, item) in items.iter().enumerate() {
            let passes = meets(self.parts, demand, item);
            check_item(self.alloc, passes, self.kind, self.section, name, index + 1)?;
        }
        Ok(())
    }

    /// Refuses the value at a key, or its first item, that is not what it must be.
    pub fn demands(self, demands: Demands, name: &str) -> Result<(), Flaw>
        ensures { Judges result (demands_fault self.entry.kind self.entry.parts self.entry.section demands name.now (view self.entry.table.now)) }
    {
        self.value(demands.value, name)?;
        self.items(demands.item, name)
    }
}
