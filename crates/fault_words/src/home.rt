//! Which table has a key that stands in another one.

ghost use Rattle.std.specs.Prelude.{◌≡◌, is_some};
ghost use Rattle.fault_words.specs.Near.{named_key, tables_beside, home_of};

use crate::near::named_key;
use description_reader::Section;

const OF_STREET: [Section; 4] = [
    Section::Root,
    Section::Artery,
    Section::Signal(1),
    Section::Link(1),
];

const OF_PLAN: [Section; 2] = [Section::PlanRoot, Section::Plan];

/// The tables of the form that a table is one of, in the order in which they are read.
fn tables_beside(section: Section) -> &'static [Section]
    ensures { result.now ≡ tables_beside section }
{
    match section {
        Section::PlanRoot | Section::Plan => &OF_PLAN,
        _ => &OF_STREET,
    }
}

fn has_key(section: Section, name: &str) -> bool
    ensures { result ≡ is_some (named_key section name.now) }
{
    match named_key(section, name) {
        Some(_) => true,
        None => false,
    }
}

/// The first of these tables that has a key of this name in some file.
pub fn home_of(section: Section, name: &str) -> Option<Section>
    ensures { result ≡ home_of section name.now }
{
    for table in tables_beside(section) {
        if has_key(*table, name) {
            return Some(*table);
        }
    }
    None
}
