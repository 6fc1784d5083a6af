//! Which key was meant by one that isn't known.

ghost use Rattle.std.specs.Prelude.{◌≡◌, ◌&&◌, ◌||◌, not, nat_le, option_map, IfOk};
ghost use Rattle.description_reader.specs.KeyTable.{key_of};
ghost use Rattle.fault_words.specs.Near.{distance, most_letters, is_here, known_key, named_key, is_nearest, is_meant, meant_key};

use description_reader::{KeyEntry, Section, TableFacts, entries, is_in, may_stand};
use narrow_fraction::Memory;
use std::alloc::Global;
use strsim::levenshtein;

/// The most letters in which a key that was meant differs.
const MOST_LETTERS: usize = 2;

/// Whether a table of the section may have the key.
pub fn is_here(facts: TableFacts, section: Section, entry: &KeyEntry) -> bool
    ensures { result ≡ is_here facts section (key_of entry.now) }
{
    is_in(facts, entry.when) && may_stand(facts.links, section, entry.presence)
}

/// The key of this name that a table of the section may have.
pub fn known_key(facts: TableFacts, section: Section, name: &str) -> Option<&'static KeyEntry>
    ensures { option_map (λ e. key_of e.now) result ≡ known_key facts section name.now }
{
    for entry in entries(section) {
        if name == entry.name && is_here(facts, section, entry) {
            return Some(entry);
        }
    }
    None
}

/// The key of this name that a table of the section has in some file.
pub fn named_key(section: Section, name: &str) -> Option<&'static KeyEntry>
    ensures { option_map (λ e. key_of e.now) result ≡ named_key section name.now }
{
    for entry in entries(section) {
        if name == entry.name {
            return Some(entry);
        }
    }
    None
}

fn distance(alloc: Global, name: &str, other: &str) -> Result<usize, Memory>
    ensures { IfOk result (λ d. d ≡ distance name.now other.now) }
{
    Ok(levenshtein(alloc, name, other)?)
}

/// Whether a key may not stand there, or isn't nearer.
fn is_as_far(
    alloc: Global,
    facts: TableFacts,
    section: Section,
    name: &str,
    far: usize,
    entry: &KeyEntry,
) -> Result<bool, Memory>
    ensures { IfOk result (λ b. b ≡ (not (is_here facts section (key_of entry.now)) || nat_le far (distance name.now entry.now.name.now))) }
{
    if is_here(facts, section, entry) {
        Ok(far <= distance(alloc, name, entry.name)?)
    } else {
        Ok(true)
    }
}

/// Whether no key that may stand there is nearer.
fn is_nearest(
    alloc: Global,
    facts: TableFacts,
    section: Section,
    name: &str,
    far: usize,
) -> Result<bool, Memory>
    ensures { IfOk result (λ b. b ≡ is_nearest facts section name.now far) }
{
    for entry in entries(section) {
        if !is_as_far(alloc, facts, section, name, far, entry)? {
            return Ok(false);
        }
    }
    Ok(true)
}

/// Whether a distance is little, and no key that may stand there is nearer.
fn is_near(
    alloc: Global,
    facts: TableFacts,
    section: Section,
    name: &str,
    far: usize,
) -> Result<bool, Memory>
    ensures { IfOk result (λ b. b ≡ (nat_le far most_letters && is_nearest facts section name.now far)) }
{
    if far <= MOST_LETTERS {
        is_nearest(alloc, facts, section, name, far)
    } else {
        Ok(false)
    }
}

/// Whether a key is near, and none that may stand there is nearer.
fn is_meant(
    alloc: Global,
    facts: TableFacts,
    section: Section,
    name: &str,
    entry: &KeyEntry,
) -> Result<bool, Memory>
    ensures { IfOk result (λ b. b ≡ is_meant facts section name.now (key_of entry.now)) }
{
    if !is_here(facts, section, entry) {
        return Ok(false);
    }
    let far = distance(alloc, name, entry.name)?;
    is_near(alloc, facts, section, name, far)
}

/// The first of the nearest keys, where they are near.
#[tactic(auto, unfolding(crate::specs::Near::meant_key))]
pub fn meant_key(
    alloc: Global,
    facts: TableFacts,
    section: Section,
    name: &str,
) -> Result<Option<&'static KeyEntry>, Memory>
    ensures { IfOk result (λ found. option_map (λ e. key_of e.now) found ≡ meant_key facts section name.now) }
{
    for entry in entries(section) {
        if is_meant(alloc, facts, section, name, entry)? {
            return Ok(Some(entry));
        }
    }
    Ok(None)
}
