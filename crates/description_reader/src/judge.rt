//! The values of a description or of a plan, judged by one kind of fault after the other.

ghost use Rattle.std.specs.Prelude.{◌≡◌, map, codes};
ghost use Rattle.toml.specs.View.{view};
ghost use Rattle.artery_model.specs.Faults.{Judges, first_fault, each_numbered};
ghost use Rattle.description_reader.specs.{Checks.{number_of, numbers_of}, KeyTable.{key_of, keys_of}, Quantity.{integer_in}};
ghost use Rattle.description_reader.specs.Judgement.{kind_fault, key_fault, table_fault, in_table, stage_tests, is_timed, facts_of, value_tests};
ghost use Rattle.description_reader.specs.Values.{at_key};

use crate::check::{TableCheck, check_needed};
use crate::demand::Demand;
use crate::key_table::{Demands, KeyEntry, entries, is_in};
use crate::keys::check_keys;
use crate::place::{Section, TableFacts};
use crate::values::{has, items_at, number_at, value_at};
use artery_model::bounds::SECOND_VERSION;
use artery_model::{Flaw, Kind};
use std::alloc::Global;
use toml::Value;

/// What a file is to be: the description of an artery, or a plan.
#[derive(Clone, Copy)]
pub enum Form {
    Description,
    Plan,
}

/// A kind of fault of a value. The kinds stand in the order in which they are looked for.
#[derive(Clone, Copy)]
pub enum Stage {
    /// Keys that no such file has.
    Keys,
    /// Needed keys that are absent.
    Needed,
    /// Values of another type.
    Types,
    /// Quantities that are no numbers.
    Numbers,
    /// Values outside their limits.
    Ranges,
}

/// What a value of a type must be so that its quantities are numbers.
fn number_of(demand: Demand) -> Demand
    ensures { result ≡ number_of demand }
{
    match demand {
        Demand::Quantity => Demand::Number,
        _ => Demand::Anything,
    }
}

fn numbers_of(types: Demands) -> Demands
    ensures { result ≡ numbers_of types }
{
    Demands {
        value: number_of(types.value),
        item: number_of(types.item),
    }
}

/// The search for one kind of fault in a file.
#[derive(Clone, Copy)]
struct Search {
    alloc: Global,
    stage: Stage,
    facts: TableFacts,
}

impl Search {
    /// The tests of a table's values that refuse by this kind.
    fn tests<'a>(self, kind: Kind, section: Section, table: &'a Value) -> TableCheck<'a>
        ensures kind { result.kind ≡ kind }
        ensures parts { result.parts ≡ self.facts.parts }
        ensures section { result.section ≡ section }
        ensures table { result.table.now ≡ table.now }
    {
        TableCheck::new(self.alloc, kind, self.facts.parts, section, table)
    }

    /// Refuses a table for a fault of the value at a key.
    fn value(self, section: Section, entry: &KeyEntry, table: &Value) -> Result<(), Flaw>
        ensures { Judges result (kind_fault self.stage self.facts.parts section (view table.now) (key_of entry.now)) }
    {
        match self.stage {
            Stage::Keys => Ok(()),
            Stage::Needed => check_needed(self.alloc, entry.presence, section, entry.name, table),
            Stage::Types => {
                let tests = self.tests(Kind::WrongType, section, table);
                tests.demands(entry.types, entry.name)
            }
            Stage::Numbers => {
                let tests = self.tests(Kind::BadNumber, section, table);
                tests.demands(numbers_of(entry.types), entry.name)
            }
            Stage::Ranges => {
                let tests = self.tests(Kind::OutOfRange, section, table);
                tests.demands(entry.ranges, entry.name)
            }
        }
    }

    /// The same at a key that such a file has.
    fn key(self, section: Section, entry: &KeyEntry, table: &Value) -> Result<(), Flaw>
        ensures { Judges result (key_fault self.stage self.facts section (view table.now) (key_of entry.now)) }
    {
        if is_in(self.facts, entry.when) {
            self.value(section, entry, table)
        } else {
            Ok(())
        }
    }

    fn each_key(self, section: Section, table: &Value) -> Result<(), Flaw>
        ensures { Judges result (first_fault (map (key_fault self.stage self.facts section (view table.now)) (keys_of section))) }
    {
        for entry in entries(section) {
            self.key(section, entry, table)?;
        }
        Ok(())
    }

    fn table(self, section: Section, table: &Value) -> Result<(), Flaw>
        ensures { Judges result (table_fault self.stage self.facts section (view table.now)) }
    {
        match self.stage {
            Stage::Keys => check_keys(self.alloc, self.facts, section, table),
            _ => self.each_key(section, table),
        }
    }

    /// Looks into a value that is a table.
    fn look_into(self, section: Section, value: &Value) -> Result<(), Flaw>
        ensures { Judges result (in_table self.stage self.facts section (view value.now)) }
    {
        if value.is_table() {
            self.table(section, value)
        } else {
            Ok(())
        }
    }

    /// Looks into the table at a key of the root, where there is one.
    fn part(self, section: Section, root: &Value, key: &str) -> Result<(), Flaw>
        ensures { Judges result (in_table self.stage self.facts section (at_key (view root.now) key.now)) }
    {
        match value_at(root, key) {
            Some(part) => self.look_into(section, part),
            None => Ok(()),
        }
    }

    fn signals(self, signals: &[Value]) -> Result<(), Flaw>
        ensures { Judges result (first_fault (each_numbered (λ i. in_table self.stage self.facts (Section.Signal i)) 1 (map view signals.now))) }
    {
        for (index, signal) in signals.iter().enumerate() {
            self.look_into(Section::Signal(index + 1), signal)?;
        }
        Ok(())
    }

    fn links(self, links: &[Value]) -> Result<(), Flaw>
        ensures { Judges result (first_fault (each_numbered (λ i. in_table self.stage self.facts (Section.Link i)) 1 (map view links.now))) }
    {
        for (index, link) in links.iter().enumerate() {
            self.look_into(Section::Link(index + 1), link)?;
        }
        Ok(())
    }

    /// Refuses a description with a fault of this kind, at its first place.
    fn description(self, root: &Value) -> Result<(), Flaw>
        ensures { Judges result (first_fault (stage_tests Form.Description self.stage self.facts (view root.now))) }
    {
        self.look_into(Section::Root, root)?;
        self.part(Section::Artery, root, "artery")?;
        self.signals(items_at(root, "signal"))?;
        self.links(items_at(root, "link"))
    }

    /// The same of a plan.
    fn plan(self, root: &Value) -> Result<(), Flaw>
        ensures { Judges result (first_fault (stage_tests Form.Plan self.stage self.facts (view root.now))) }
    {
        self.look_into(Section::PlanRoot, root)?;
        self.part(Section::Plan, root, "plan")
    }
}

fn check_stage(
    alloc: Global,
    form: Form,
    stage: Stage,
    facts: TableFacts,
    root: &Value,
) -> Result<(), Flaw>
    ensures { Judges result (first_fault (stage_tests form stage facts (view root.now))) }
{
    let search = Search {
        alloc,
        stage,
        facts,
    };
    match form {
        Form::Description => search.description(root),
        Form::Plan => search.plan(root),
    }
}

fn parts_of(root: &Value) -> i64
    ensures { result ≡ integer_in (at_key (at_key (view root.now) (codes "artery")) (codes "parts")) }
{
    match value_at(root, "artery") {
        Some(artery) => number_at(artery, "parts"),
        None => 0,
    }
}

/// Whether a plan gives times of travel, and no speeds.
fn is_timed(root: &Value, travel: &str, speed: &str) -> bool
    ensures { result ≡ is_timed travel.now speed.now (at_key (view root.now) (codes "plan")) }
{
    match value_at(root, "plan") {
        Some(plan) => has(plan, travel) && !has(plan, speed),
        None => false,
    }
}

pub fn facts_of(root: &Value) -> TableFacts
    ensures { result ≡ facts_of (view root.now) }
{
    TableFacts {
        links: items_at(root, "link").len(),
        parts: parts_of(root),
        second: number_at(root, "version") == i64::from(SECOND_VERSION),
        timed_out: is_timed(root, "travel_out", "speed_out"),
        timed_in: is_timed(root, "travel_in", "speed_in"),
    }
}

/// Refuses the first fault of the values of a file.
pub fn check_values(alloc: Global, form: Form, root: &Value) -> Result<(), Flaw>
    ensures { Judges result (first_fault (value_tests form (view root.now))) }
{
    let facts = facts_of(root);
    check_stage(alloc, form, Stage::Keys, facts, root)?;
    check_stage(alloc, form, Stage::Needed, facts, root)?;
    check_stage(alloc, form, Stage::Types, facts, root)?;
    check_stage(alloc, form, Stage::Numbers, facts, root)?;
    check_stage(alloc, form, Stage::Ranges, facts, root)
}
