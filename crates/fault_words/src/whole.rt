//! The lines about a fault.

ghost use Rattle.std.specs.{Prelude.{◌≡◌, ◌++◌, ◌<◌, codes, OnOk, option_map}};
ghost use Rattle.toml.specs.{Errors.{IsMemory, IsWithin}, View.{view}};
ghost use Rattle.artery_model.specs.Faults.{fault_of};
ghost use Rattle.description_reader.specs.KeyTable.{key_of};
ghost use Rattle.fault_words.specs.Places.{section_number, section_at, key_at, item_at, table_of, value_of};
ghost use Rattle.fault_words.specs.{Near.{known_key}, Shown.{value_words}};
ghost use Rattle.fault_words.specs.FaultWords.{item_suffix, where_line, stands_line, key_lines, place_words, path_words, fault_words};
ghost use Rattle.fault_words.specs.TextWords.{IsNoToml, IsTextExplained, IsExplained, Adds};

use crate::called::push_section;
use crate::counts::{push_counts, push_number_lines};
use crate::key::push_known;
use crate::meant::key_meant;
use crate::near::known_key;
use crate::place::{Document, item_at, key_at, section_at, table_of, value_of};
use crate::sentence::push_kind;
use crate::shown::{push_key, push_value};
use crate::text::{push_not_toml, push_not_utf8};
use crate::unknown::push_unknown;
use artery_model::{Kind, Refusal};
use description_reader::{KeyEntry, Section, TableFacts, facts_of};
use narrow_fraction::Memory;
use quantity_text::{push_number, push_text};
use toml::Value;

fn push_item_suffix(out: &mut Vec<u8>, item: usize) -> Result<(), Memory>
    ensures { OnOk result (out.new.items ≡ out.old.items ++ item_suffix item) }
{
    if item == 0 {
        return Ok(());
    }
    push_text(out, ", value ")?;
    push_number(out, item as u128)
}

/// Writes where a place is.
#[tactic(auto, unfolding(crate::specs::FaultWords::where_line))]
fn push_where(
    out: &mut Vec<u8>,
    root: &Value,
    section: Section,
    key: &str,
    item: usize,
) -> Result<(), Memory>
    requires { section_number section < 10000000 }
    ensures { OnOk result (out.new.items ≡ out.old.items ++ where_line (view root.now) section key.now item) }
{
    push_text(out, "at ")?;
    push_section(out, root, section)?;
    push_text(out, ": ")?;
    push_key(out, key)?;
    push_item_suffix(out, item)?;
    push_text(out, "\n")
}

fn push_found(out: &mut Vec<u8>, value: &Value) -> Result<(), Memory>
    ensures { OnOk result (out.new.items ≡ out.old.items ++ (codes "there stands " ++ (value_words (view value.now) ++ codes "\n"))) }
{
    push_text(out, "there stands ")?;
    push_value(out, value)?;
    push_text(out, "\n")
}

/// Writes what stands at a place, where something does.
fn push_stands(out: &mut Vec<u8>, value: Option<&Value>) -> Result<(), Memory>
    ensures { OnOk result (out.new.items ≡ out.old.items ++ stands_line (option_map (λ v. view v.now) value.entry)) }
{
    match value {
        Some(found) => push_found(out, found),
        None => Ok(()),
    }
}

fn push_stands_at(
    out: &mut Vec<u8>,
    root: &Value,
    section: Section,
    key: &str,
    item: usize,
) -> Result<(), Memory>
    ensures { OnOk result (out.new.items ≡ out.old.items ++ stands_line (value_of (view root.now) section key.now item)) }
{
    push_stands(out, value_of(root, section, key, item))
}

fn push_lines_of(
    out: &mut Vec<u8>,
    facts: TableFacts,
    section: Section,
    key: &str,
) -> Result<(), Memory>
    ensures { OnOk result (out.new.items ≡ out.old.items ++ key_lines facts section key.now (known_key facts section key.now)) }
{
    push_key_lines(out, facts, section, key, known_key(facts, section, key))
}

/// Writes the lines about a key.
fn push_key_lines(
    out: &mut Vec<u8>,
    facts: TableFacts,
    section: Section,
    key: &str,
    known: Option<&KeyEntry>,
) -> Result<(), Memory>
    ensures { OnOk result (out.new.items ≡ out.old.items ++ key_lines facts section key.now (option_map (λ e. key_of e.now) known.entry)) }
{
    match known {
        Some(entry) => push_known(out, facts, section, entry),
        None => push_unknown(out, facts, section, key),
    }
}

/// Writes the lines about a fault of this kind at this place.
#[tactic(auto, unfolding(crate::specs::FaultWords::place_words))]
fn push_place_words(
    out: &mut Vec<u8>,
    root: &Value,
    facts: TableFacts,
    kind: Kind,
    section: Section,
    key: &str,
    item: usize,
) -> Result<(), Memory>
    requires { section_number section < 10000000 }
    ensures { OnOk result (out.new.items ≡ out.old.items ++ place_words (view root.now) facts kind section key.now item) }
{
    push_where(out, root, section, key, item)?;
    push_kind(out, kind)?;
    push_stands_at(out, root, section, key, item)?;
    push_lines_of(out, facts, section, key)?;
    push_number_lines(out, kind, facts, root, section, key)
}

/// Writes the lines about a fault at the place that a path names.
fn push_path_words(
    out: &mut Vec<u8>,
    root: &Value,
    facts: TableFacts,
    kind: Kind,
    section: Section,
    key: &str,
    item: usize,
) -> Result<(), Memory>
    requires { section_number section < 10000000 }
    ensures { OnOk result (out.new.items ≡ out.old.items ++ path_words (view root.now) facts kind section key.now item) }
{
    let meant = key_meant(kind, facts, section, table_of(root, section), key);
    push_place_words(out, root, facts, kind, section, meant, item)
}

/// Writes the lines about a refusal of a document that was read: where it is, what its kind means, what stands there, what is wanted or which
/// keys there are, and how many items each list has.
#[tactic(auto, unfolding(crate::specs::FaultWords::fault_words))]
pub fn push_document_words(
    out: &mut Vec<u8>,
    document: Document,
    root: &Value,
    refusal: &Refusal,
) -> Result<(), Memory>
    ensures { OnOk result (out.new.items ≡ out.old.items ++ fault_words document (view root.now) (fault_of refusal.now)) }
{
    let facts = facts_of(root);
    let place = refusal.place.as_str();
    let section = section_at(document, place);
    push_path_words(
        out,
        root,
        facts,
        refusal.kind,
        section,
        key_at(place),
        item_at(place),
    )?;
    push_counts(out, document, facts, root)
}

/// Writes the lines about a text.
fn push_text_words(
    out: &mut Vec<u8>,
    document: Document,
    text: &str,
    refusal: &Refusal,
) -> Result<(), Memory>
    ensures { OnOk result (Adds (IsTextExplained document text.now (fault_of refusal.now)) out.old.items out.new.items) }
{
    match toml::table_from_str(*out.allocator(), text) {
        Ok(table) => push_document_words(out, document, &Value::Table(table), refusal),
        Err(error) => push_error(out, text, &error),
    }
}

/// Writes what the reader of TOML says.
fn push_error(out: &mut Vec<u8>, text: &str, error: &toml::de::Error) -> Result<(), Memory>
    requires { IsWithin text.now error.now }
    ensures wrote { OnOk result (Adds (IsNoToml text.now) out.old.items out.new.items) }
    ensures found { OnOk result (¬ IsMemory error.now) }
{
    match error.span() {
        Some(range) => push_not_toml(out, text.as_bytes(), range.start, error.message()),
        None => Err(Memory),
    }
}

/// Writes the lines that follow a refusal of these bytes as such a document: of a document what `fault_words` says, and of bytes that are
/// none where the first fault is and what the line there reads. The error is want of memory, and then anything may have been written.
pub fn push_fault_words(
    out: &mut Vec<u8>,
    document: Document,
    bytes: &[u8],
    refusal: &Refusal,
) -> Result<(), Memory>
    ensures { OnOk result (Adds (IsExplained document bytes.now (fault_of refusal.now)) out.old.items out.new.items) }
{
    match std::str::from_utf8(bytes) {
        Ok(text) => push_text_words(out, document, text, refusal),
        Err(error) => push_not_utf8(out, bytes, error.valid_up_to()),
    }
}
