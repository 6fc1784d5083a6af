//! The lines about a key that is known.

ghost use Rattle.std.specs.Prelude.{◌≡◌, ◌++◌, codes, OnOk, option_map};
ghost use Rattle.description_reader.specs.KeyTable.{key_of};
ghost use Rattle.fault_words.specs.Examples.{sample_of, sample_at, unit_in, example_in};
ghost use Rattle.fault_words.specs.FaultWords.{wants_line, known_lines};
ghost use Rattle.fault_words.specs.Sentences.{other_line};

use crate::example::{Example, example_at};
use crate::sentence::other_line;
use crate::wants::{push_fineness, push_wants};
use description_reader::{KeyEntry, Section, TableFacts, When};
use narrow_fraction::Memory;
use quantity_text::push_text;

fn unit_in(example: Option<&Example>) -> &'static str
    ensures { result.now ≡ unit_in (option_map (λ e. sample_of e.now) example.entry) }
{
    match example {
        Some(found) => found.unit,
        None => "",
    }
}

fn push_unit(out: &mut Vec<u8>, example: Option<&Example>) -> Result<(), Memory>
    ensures { OnOk result (out.new.items ≡ out.old.items ++ unit_in (option_map (λ e. sample_of e.now) example.entry)) }
{
    push_text(out, unit_in(example))
}

fn push_unit_of(out: &mut Vec<u8>, section: Section, name: &str) -> Result<(), Memory>
    ensures { OnOk result (out.new.items ≡ out.old.items ++ unit_in (sample_at section name.now)) }
{
    push_unit(out, example_at(section, name))
}

fn push_example_of(out: &mut Vec<u8>, section: Section, name: &str) -> Result<(), Memory>
    ensures { OnOk result (out.new.items ≡ out.old.items ++ example_in (sample_at section name.now)) }
{
    push_example(out, example_at(section, name))
}

fn push_lines(out: &mut Vec<u8>, lines: &str) -> Result<(), Memory>
    ensures { OnOk result (out.new.items ≡ out.old.items ++ (codes "for example: " ++ (lines.now ++ codes "\n"))) }
{
    push_text(out, "for example: ")?;
    push_text(out, lines)?;
    push_text(out, "\n")
}

fn push_example(out: &mut Vec<u8>, example: Option<&Example>) -> Result<(), Memory>
    ensures { OnOk result (out.new.items ≡ out.old.items ++ example_in (option_map (λ e. sample_of e.now) example.entry)) }
{
    match example {
        Some(found) => push_lines(out, found.lines),
        None => Ok(()),
    }
}

#[tactic(auto, unfolding(crate::specs::FaultWords::wants_line))]
fn push_wants_line(
    out: &mut Vec<u8>,
    facts: TableFacts,
    section: Section,
    entry: &KeyEntry,
) -> Result<(), Memory>
    ensures { OnOk result (out.new.items ≡ out.old.items ++ wants_line facts.parts section (key_of entry.now)) }
{
    push_text(out, "wanted is")?;
    push_wants(out, facts, entry)?;
    push_unit_of(out, section, entry.name)?;
    push_fineness(out, entry)?;
    push_text(out, "\n")
}

fn push_other(out: &mut Vec<u8>, when: When) -> Result<(), Memory>
    ensures { OnOk result (out.new.items ≡ out.old.items ++ other_line when) }
{
    push_text(out, other_line(when))
}

/// Writes what a key wants, an example, and what another file would have in its place.
#[tactic(auto, unfolding(crate::specs::FaultWords::known_lines))]
pub fn push_known(
    out: &mut Vec<u8>,
    facts: TableFacts,
    section: Section,
    entry: &KeyEntry,
) -> Result<(), Memory>
    ensures { OnOk result (out.new.items ≡ out.old.items ++ known_lines facts.parts section (key_of entry.now)) }
{
    push_wants_line(out, facts, section, entry)?;
    push_example_of(out, section, entry.name)?;
    push_other(out, entry.when)
}
