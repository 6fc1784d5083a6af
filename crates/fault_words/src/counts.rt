//! How many there are, and numbers beside a place.

ghost use Rattle.std.specs.{Prelude.{◌≡◌, ◌++◌, ◌-◌, OnOk, codes, map, option_map}, Fmt.{decimal, signed_decimal}};
ghost use Rattle.toml.specs.View.{view};
ghost use Rattle.description_reader.specs.{Quantity.{integer_in}, Values.{at_key, items_in}};
ghost use Rattle.fault_words.specs.FaultWords.{parts_at, parts_line, sum_line, number_lines, count_at, street_counts, list_count};
ghost use Rattle.fault_words.specs.FaultWords.{first_named, twin_words, twin_line, links_words, links_line, links_if_missing};
ghost use Rattle.fault_words.specs.{Places.{table_of}, Shown.{name_in}};
ghost use Rattle.fault_words.specs.FaultWords.{planned, out_key, back_key, plan_counts, count_lines};

use crate::called::name_at;
use crate::place::{Document, table_of};
use crate::signed::{push_parts_number, push_signed};
use artery_model::Kind;
use artery_model::bounds::LEAST_SIGNALS;
use description_reader::{Section, TableFacts, integer_in, items_at, value_at};
use narrow_fraction::Memory;
use quantity_text::{push_number, push_text};
use toml::Value;

fn integer_at(table: &Value, key: &str) -> i64
    ensures { result ≡ integer_in (at_key (view table.now) key.now) }
{
    match value_at(table, key) {
        Some(found) => integer_in(found),
        None => 0,
    }
}

fn parts_at(table: Option<&Value>, key: &str) -> i64
    ensures { result ≡ parts_at (option_map (λ v. view v.now) table.entry) key.now }
{
    match table {
        Some(found) => integer_at(found, key),
        None => 0,
    }
}

fn push_parts_at(out: &mut Vec<u8>, table: Option<&Value>, key: &str) -> Result<(), Memory>
    ensures { OnOk result (out.new.items ≡ out.old.items ++ signed_decimal (parts_at (option_map (λ v. view v.now) table.entry) key.now)) }
{
    push_signed(out, parts_at(table, key))
}

/// Writes how many parts the cycle has.
#[tactic(auto, unfolding(crate::specs::FaultWords::parts_line))]
fn push_parts_line(out: &mut Vec<u8>, facts: TableFacts) -> Result<(), Memory>
    ensures { OnOk result (out.new.items ≡ out.old.items ++ parts_line facts.parts) }
{
    push_text(out, " together have to be less than the ")?;
    push_parts_number(out, facts)?;
    push_text(out, " parts of the cycle\n")
}

/// Writes a red and a turn that leave no green.
#[tactic(auto, unfolding(crate::specs::FaultWords::sum_line))]
fn push_sum(
    out: &mut Vec<u8>,
    facts: TableFacts,
    table: Option<&Value>,
    key: &str,
) -> Result<(), Memory>
    ensures { OnOk result (out.new.items ≡ out.old.items ++ sum_line facts.parts (option_map (λ v. view v.now) table.entry) key.now) }
{
    push_text(out, "its red of ")?;
    push_parts_at(out, table, "red")?;
    push_text(out, " and this of ")?;
    push_parts_at(out, table, key)?;
    push_parts_line(out, facts)
}

fn push_sum_at(
    out: &mut Vec<u8>,
    facts: TableFacts,
    root: &Value,
    section: Section,
    key: &str,
) -> Result<(), Memory>
    ensures { OnOk result (out.new.items ≡ out.old.items ++ sum_line facts.parts (table_of (view root.now) section) key.now) }
{
    push_sum(out, facts, table_of(root, section), key)
}

/// The number of the first signal with this name, counted from 1.
fn first_named(tables: &[Value], name: &str) -> Option<usize>
    ensures { result ≡ first_named name.now 1 (map view tables.now) }
{
    for (index, table) in tables.iter().enumerate() {
        if name == name_at(table) {
            return Some(index + 1);
        }
    }
    None
}

#[tactic(auto, unfolding(crate::specs::FaultWords::twin_words))]
fn push_twin_words(out: &mut Vec<u8>, number: usize) -> Result<(), Memory>
    ensures { OnOk result (out.new.items ≡ out.old.items ++ twin_words number) }
{
    push_text(out, "signal ")?;
    push_number(out, number as u128)?;
    push_text(out, " has this name\n")
}

fn push_twin(out: &mut Vec<u8>, number: Option<usize>) -> Result<(), Memory>
    ensures { OnOk result (out.new.items ≡ out.old.items ++ twin_line number) }
{
    match number {
        Some(found) => push_twin_words(out, found),
        None => Ok(()),
    }
}

fn name_of(table: Option<&Value>) -> &str
    ensures { result.now ≡ name_in (option_map (λ v. view v.now) table.entry) }
{
    match table {
        Some(found) => name_at(found),
        None => "",
    }
}

/// Writes which signal has the name of this one before it.
fn push_twin_at(out: &mut Vec<u8>, root: &Value, section: Section) -> Result<(), Memory>
    ensures { OnOk result (out.new.items ≡ out.old.items ++ twin_line (first_named (name_in (table_of (view root.now) section)) 1 (items_in (at_key (view root.now) (codes "signal"))))) }
{
    let name = name_of(table_of(root, section));
    push_twin(out, first_named(items_at(root, "signal"), name))
}

fn count_at(table: &Value, key: &str) -> usize
    ensures { result ≡ count_at (view table.now) key.now }
{
    items_at(table, key).len()
}

fn push_fewer(out: &mut Vec<u8>, signals: usize) -> Result<(), Memory>
    ensures { OnOk result (out.new.items ≡ out.old.items ++ decimal (signals - 1)) }
{
    push_number(out, signals.saturating_sub(1) as u128)
}

#[tactic(auto, unfolding(crate::specs::FaultWords::links_words))]
fn push_links_words(out: &mut Vec<u8>, signals: usize) -> Result<(), Memory>
    ensures { OnOk result (out.new.items ≡ out.old.items ++ links_words signals) }
{
    push_text(out, "links wanted: ")?;
    push_fewer(out, signals)?;
    push_text(out, ", one fewer than the ")?;
    push_number(out, signals as u128)?;
    push_text(out, " signals\n")
}

/// Writes how many links a street with so many signals has.
fn push_links(out: &mut Vec<u8>, signals: usize) -> Result<(), Memory>
    ensures { OnOk result (out.new.items ≡ out.old.items ++ links_line signals) }
{
    if signals < LEAST_SIGNALS {
        Ok(())
    } else {
        push_links_words(out, signals)
    }
}

fn push_links_at(out: &mut Vec<u8>, root: &Value) -> Result<(), Memory>
    ensures { OnOk result (out.new.items ≡ out.old.items ++ links_line (count_at (view root.now) (codes "signal"))) }
{
    push_links(out, count_at(root, "signal"))
}

fn push_links_if_missing(out: &mut Vec<u8>, root: &Value, key: &str) -> Result<(), Memory>
    ensures { OnOk result (out.new.items ≡ out.old.items ++ links_if_missing key.now (count_at (view root.now) (codes "signal"))) }
{
    if key == "link" {
        push_links_at(out, root)
    } else {
        Ok(())
    }
}

/// Writes the numbers that a fault of this kind is about.
pub fn push_number_lines(
    out: &mut Vec<u8>,
    kind: Kind,
    facts: TableFacts,
    root: &Value,
    section: Section,
    key: &str,
) -> Result<(), Memory>
    ensures { OnOk result (out.new.items ≡ out.old.items ++ number_lines kind facts.parts (view root.now) section key.now) }
{
    match kind {
        Kind::NoGreen => push_sum_at(out, facts, root, section, key),
        Kind::RepeatedName => push_twin_at(out, root, section),
        Kind::CountMismatch => push_links_at(out, root),
        Kind::Missing => push_links_if_missing(out, root, key),
        _ => Ok(()),
    }
}

fn push_count_at(out: &mut Vec<u8>, table: &Value, key: &str) -> Result<(), Memory>
    ensures { OnOk result (out.new.items ≡ out.old.items ++ decimal (count_at (view table.now) key.now)) }
{
    push_number(out, count_at(table, key) as u128)
}

#[tactic(auto, unfolding(crate::specs::FaultWords::street_counts))]
fn push_street_counts(out: &mut Vec<u8>, root: &Value) -> Result<(), Memory>
    ensures { OnOk result (out.new.items ≡ out.old.items ++ street_counts (view root.now)) }
{
    push_text(out, "counted: signal ")?;
    push_count_at(out, root, "signal")?;
    push_text(out, ", link ")?;
    push_count_at(out, root, "link")?;
    push_text(out, "\n")
}

/// How many values a list of the plan has.
fn planned(root: &Value, key: &str) -> usize
    ensures { result ≡ planned (view root.now) key.now }
{
    match value_at(root, "plan") {
        Some(plan) => count_at(plan, key),
        None => 0,
    }
}

fn push_planned(out: &mut Vec<u8>, root: &Value, key: &str) -> Result<(), Memory>
    ensures { OnOk result (out.new.items ≡ out.old.items ++ decimal (planned (view root.now) key.now)) }
{
    push_number(out, planned(root, key) as u128)
}

#[tactic(auto, unfolding(crate::specs::FaultWords::list_count))]
fn push_list_count(out: &mut Vec<u8>, root: &Value, key: &str) -> Result<(), Memory>
    ensures { OnOk result (out.new.items ≡ out.old.items ++ list_count (view root.now) key.now) }
{
    push_text(out, ", ")?;
    push_text(out, key)?;
    push_text(out, " ")?;
    push_planned(out, root, key)
}

fn push_out_count(out: &mut Vec<u8>, facts: TableFacts, root: &Value) -> Result<(), Memory>
    ensures { OnOk result (out.new.items ≡ out.old.items ++ list_count (view root.now) (out_key facts)) }
{
    push_list_count(out, root, out_key(facts))
}

fn push_back_count(out: &mut Vec<u8>, facts: TableFacts, root: &Value) -> Result<(), Memory>
    ensures { OnOk result (out.new.items ≡ out.old.items ++ list_count (view root.now) (back_key facts)) }
{
    push_list_count(out, root, back_key(facts))
}

fn out_key(facts: TableFacts) -> &'static str
    ensures { result.now ≡ out_key facts }
{
    if facts.timed_out {
        "travel_out"
    } else {
        "speed_out"
    }
}

fn back_key(facts: TableFacts) -> &'static str
    ensures { result.now ≡ back_key facts }
{
    if facts.timed_in {
        "travel_in"
    } else {
        "speed_in"
    }
}

#[tactic(auto, unfolding(crate::specs::FaultWords::plan_counts))]
fn push_plan_counts(out: &mut Vec<u8>, facts: TableFacts, root: &Value) -> Result<(), Memory>
    ensures { OnOk result (out.new.items ≡ out.old.items ++ plan_counts facts (view root.now)) }
{
    push_text(out, "counted: offset ")?;
    push_planned(out, root, "offset")?;
    push_list_count(out, root, "patterns")?;
    push_out_count(out, facts, root)?;
    push_back_count(out, facts, root)?;
    push_text(out, "\n")
}

/// Writes how many items each list has.
pub fn push_counts(
    out: &mut Vec<u8>,
    document: Document,
    facts: TableFacts,
    root: &Value,
) -> Result<(), Memory>
    ensures { OnOk result (out.new.items ≡ out.old.items ++ count_lines document facts (view root.now)) }
{
    match document {
        Document::Street => push_street_counts(out, root),
        Document::Plan => push_plan_counts(out, facts, root),
    }
}
