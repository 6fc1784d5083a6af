//! What a table is called.

ghost use Rattle.std.specs.{Prelude.{◌≡◌, ◌++◌, ◌<◌, [], Some, codes, OnOk, if◌then◌else◌}, Fmt.{decimal}};
ghost use Rattle.toml.specs.View.{view};
ghost use Rattle.fault_words.specs.Shown.{plain_text, name_in, has_name, called, signal_words, link_words, heading, section_words};
ghost use Rattle.fault_words.specs.Places.{table_of, section_number};
ghost use Rattle.description_reader.specs.declared.place.Section.TheVariants.{Signal};

use crate::place::table_of;
use crate::shown::{MOST_TOLD, push_plain_text};
use description_reader::{Section, text_in, value_at};
use narrow_fraction::Memory;
use quantity_text::{push_number, push_text};
use toml::Value;

/// The name in a table, empty where it has none.
pub fn name_at(table: &Value) -> &str
    ensures { result.now ≡ name_in (Some (view table.now)) }
{
    match value_at(table, "name") {
        Some(name) => text_in(name),
        None => "",
    }
}

/// The name of a signal, empty where it has none.
fn signal_name(root: &Value, number: usize) -> &str
    ensures { result.now ≡ name_in (table_of (view root.now) (Signal number)) }
{
    match table_of(root, Section::Signal(number)) {
        Some(table) => name_at(table),
        None => "",
    }
}

fn has_name(name: &str) -> bool
    ensures { result ≡ has_name name.now }
{
    0 < name.len() && name.len() <= MOST_TOLD
}

fn push_number_alone(out: &mut Vec<u8>, number: usize) -> Result<(), Memory>
    ensures { OnOk result (out.new.items ≡ out.old.items ++ (codes "signal " ++ decimal number)) }
{
    push_text(out, "signal ")?;
    push_number(out, number as u128)
}

/// Writes a signal by its name, or else by its number.
#[tactic(auto, unfolding(crate::specs::Shown::called))]
fn push_called(out: &mut Vec<u8>, root: &Value, number: usize) -> Result<(), Memory>
    ensures { OnOk result (out.new.items ≡ out.old.items ++ called (view root.now) number) }
{
    let name = signal_name(root, number);
    if has_name(name) {
        push_plain_text(out, name)
    } else {
        push_number_alone(out, number)
    }
}

/// Writes a name behind a comma, where there is one.
fn push_name(out: &mut Vec<u8>, name: &str) -> Result<(), Memory>
    ensures { OnOk result (out.new.items ≡ out.old.items ++ (if has_name name.now then codes ", " ++ plain_text name.now else [])) }
{
    if has_name(name) {
        push_text(out, ", ")?;
        push_plain_text(out, name)
    } else {
        Ok(())
    }
}

/// Writes a signal by its number and its name.
#[tactic(auto, unfolding(crate::specs::Shown::signal_words))]
fn push_signal(out: &mut Vec<u8>, root: &Value, number: usize) -> Result<(), Memory>
    ensures { OnOk result (out.new.items ≡ out.old.items ++ signal_words (view root.now) number) }
{
    push_text(out, "signal ")?;
    push_number(out, number as u128)?;
    push_name(out, signal_name(root, number))
}

/// Writes a link by its number and the signals at its ends.
#[tactic(auto, unfolding(crate::specs::Shown::link_words))]
fn push_link(out: &mut Vec<u8>, root: &Value, number: usize) -> Result<(), Memory>
    requires { number < 10000000 }
    ensures { OnOk result (out.new.items ≡ out.old.items ++ link_words (view root.now) number) }
{
    push_text(out, "link ")?;
    push_number(out, number as u128)?;
    push_text(out, ", ")?;
    push_called(out, root, number)?;
    push_text(out, " to ")?;
    push_called(out, root, number + 1)
}

/// How a table is headed.
pub fn heading(section: Section) -> &'static str
    ensures { result.now ≡ heading section }
{
    match section {
        Section::Root | Section::PlanRoot => "the top of the file",
        Section::Artery => "[artery]",
        Section::Plan => "[plan]",
        Section::Signal(_) => "[[signal]]",
        Section::Link(_) => "[[link]]",
    }
}

/// Writes what a table is called.
pub fn push_section(out: &mut Vec<u8>, root: &Value, section: Section) -> Result<(), Memory>
    requires { section_number section < 10000000 }
    ensures { OnOk result (out.new.items ≡ out.old.items ++ section_words (view root.now) section) }
{
    match section {
        Section::Signal(number) => push_signal(out, root, number),
        Section::Link(number) => push_link(out, root, number),
        _ => push_text(out, heading(section)),
    }
}
