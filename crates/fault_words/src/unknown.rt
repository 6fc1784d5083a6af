//! The lines about a key that isn't known.

ghost use Rattle.std.specs.{Prelude.{◌≡◌, ◌++◌, codes, OnOk, option_map}, List.{flat_map}};
ghost use Rattle.description_reader.specs.KeyTable.{key_of, keys_of};
ghost use Rattle.fault_words.specs.Shown.{heading};
ghost use Rattle.fault_words.specs.Near.{meant_key, home_of};
ghost use Rattle.fault_words.specs.FaultWords.{home_line, meant_line, reason_line, key_here, keys_line, unknown_lines};

use crate::called::heading;
use crate::home::home_of;
use crate::near::{is_here, meant_key, named_key};
use crate::sentence::absent_line;
use description_reader::{KeyEntry, Section, TableFacts, entries};
use narrow_fraction::Memory;
use quantity_text::push_text;

fn push_name_meant(out: &mut Vec<u8>, name: &str) -> Result<(), Memory>
    ensures { OnOk result (out.new.items ≡ out.old.items ++ (codes "the nearest key here is " ++ (name.now ++ codes "\n"))) }
{
    push_text(out, "the nearest key here is ")?;
    push_text(out, name)?;
    push_text(out, "\n")
}

fn push_heading(out: &mut Vec<u8>, section: Section) -> Result<(), Memory>
    ensures { OnOk result (out.new.items ≡ out.old.items ++ (codes "this key is one of " ++ (heading section ++ codes "\n"))) }
{
    push_text(out, "this key is one of ")?;
    push_text(out, heading(section))?;
    push_text(out, "\n")
}

fn push_home(out: &mut Vec<u8>, home: Option<Section>) -> Result<(), Memory>
    ensures { OnOk result (out.new.items ≡ out.old.items ++ home_line home) }
{
    match home {
        Some(section) => push_heading(out, section),
        None => Ok(()),
    }
}

/// Writes the key that was meant, or else the table that has one of this name.
fn push_meant(
    out: &mut Vec<u8>,
    section: Section,
    name: &str,
    meant: Option<&KeyEntry>,
) -> Result<(), Memory>
    ensures { OnOk result (out.new.items ≡ out.old.items ++ meant_line section name.now (option_map (λ e. key_of e.now) meant.entry)) }
{
    match meant {
        Some(entry) => push_name_meant(out, entry.name),
        None => push_home(out, home_of(section, name)),
    }
}

/// Writes why a key of other files is none of this one, or which was meant.
fn push_reason(
    out: &mut Vec<u8>,
    facts: TableFacts,
    section: Section,
    name: &str,
    named: Option<&KeyEntry>,
) -> Result<(), Memory>
    ensures { OnOk result (out.new.items ≡ out.old.items ++ reason_line facts section name.now (option_map (λ e. key_of e.now) named.entry)) }
{
    match named {
        Some(entry) => push_text(out, absent_line(entry.when)),
        None => push_nearest(out, facts, section, name),
    }
}

fn push_nearest(
    out: &mut Vec<u8>,
    facts: TableFacts,
    section: Section,
    name: &str,
) -> Result<(), Memory>
    ensures { OnOk result (out.new.items ≡ out.old.items ++ meant_line section name.now (meant_key facts section name.now)) }
{
    let meant = meant_key(*out.allocator(), facts, section, name)?;
    push_meant(out, section, name, meant)
}

fn push_key(out: &mut Vec<u8>, name: &str) -> Result<(), Memory>
    ensures { OnOk result (out.new.items ≡ out.old.items ++ (codes " " ++ name.now)) }
{
    push_text(out, " ")?;
    push_text(out, name)
}

fn push_key_here(
    out: &mut Vec<u8>,
    facts: TableFacts,
    section: Section,
    entry: &KeyEntry,
) -> Result<(), Memory>
    ensures { OnOk result (out.new.items ≡ out.old.items ++ key_here facts section (key_of entry.now)) }
{
    if is_here(facts, section, entry) {
        push_key(out, entry.name)
    } else {
        Ok(())
    }
}

fn push_keys(out: &mut Vec<u8>, facts: TableFacts, section: Section) -> Result<(), Memory>
    ensures { OnOk result (out.new.items ≡ out.old.items ++ flat_map (key_here facts section) (keys_of section)) }
{
    for entry in entries(section) {
        push_key_here(out, facts, section, entry)?;
    }
    Ok(())
}

#[tactic(auto, unfolding(crate::specs::FaultWords::keys_line))]
fn push_keys_line(out: &mut Vec<u8>, facts: TableFacts, section: Section) -> Result<(), Memory>
    ensures { OnOk result (out.new.items ≡ out.old.items ++ keys_line facts section) }
{
    push_text(out, "the keys here are")?;
    push_keys(out, facts, section)?;
    push_text(out, "\n")
}

/// Writes why a key isn't known, and which are.
#[tactic(auto, unfolding(crate::specs::FaultWords::unknown_lines))]
pub fn push_unknown(
    out: &mut Vec<u8>,
    facts: TableFacts,
    section: Section,
    name: &str,
) -> Result<(), Memory>
    ensures { OnOk result (out.new.items ≡ out.old.items ++ unknown_lines facts section name.now) }
{
    push_reason(out, facts, section, name, named_key(section, name))?;
    push_keys_line(out, facts, section)
}
