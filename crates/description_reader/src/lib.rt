//! Reads the description of an artery, a TOML document, and names what is wrong with a document that
//! describes none. The specification is a list of tests of the document's values, kind by kind and
//! of each kind place by place: `specs/KeyTable.antt` has the keys and what each value must be,
//! `specs/Judgement.antt` the tests, `specs/Streets.antt` the artery that the values make, and
//! `specs/Described.antt` joins them. Start with `read_artery`. The way back
//! is `print_artery`: `specs/Canonical.antt` has the table that it prints.
//!
//! `read_artery` answers the artery of the bytes where no test fails, and otherwise the first fault, with its kind and place. The
//! keys are one table, of each its name, in which versions it is known, whether it must stand, and the types and limits of its value
//! and of that value's items; every test of a value follows from it. `law_one_answer`: no bytes are both described and refused, and there is at
//! most one artery and one fault for any bytes; `law_some_answer`: there always is one of them. `law_least_key`: of a table's
//! unknown keys the least by its bytes is named. `law_described_is_valid`: a described artery is valid, which is what laws of other
//! crates ask of one. What `print_artery` writes is read by `toml` as the canonical table of the artery and described as the same
//! artery, and it is the one text that `toml` states for that table (`law_one_text`).
//!
//! It also reads a plan as people type it, by the same tests (`specs/Typed.antt`): see `read_plan`.
#![tactic(auto)]

ghost use Rattle.description_reader.specs.{Described.{OneAnswer}, LeastKey.{KeysAreJudged}, Promises.{SomeAnswer, DescribedIsValid}};
ghost use Rattle.description_reader.specs.Typed.{OneTyped, SomeTyped};

mod build;
mod check;
mod demand;
mod judge;
mod key_table;
mod keys;
mod measure;
mod place;
mod print;
mod quantity;
mod read;
mod typed;
mod values;

pub use artery_model::{Artery, Flaw, Kind, Refusal};
pub use check::check_at;
pub use demand::Demand;
pub use judge::facts_of;
pub use key_table::{Demands, KeyEntry, Presence, When, entries, is_in};
pub use keys::{has_key_characters, may_stand};
pub use measure::{Measure, Reference};
pub use place::{Section, TableFacts};
pub use print::{law_one_text, print_artery};
pub use quantity::integer_in;
pub use read::{read_artery, read_root};
pub use typed::{TypedPlan, read_plan};
pub use values::{items_at, items_in, text_in, value_at};

/// For any bytes there is at most one answer: one artery, or one fault.
pub fn law_one_answer()
    ensures { OneAnswer }
{}

/// For any bytes there is an answer: an artery, or a fault.
pub fn law_some_answer()
    ensures { SomeAnswer }
{}

/// For any bytes there is at most one plan, or one fault.
pub fn law_one_typed()
    ensures { OneTyped }
{}

/// For any bytes there is a plan, or a fault.
pub fn law_some_typed()
    ensures { SomeTyped }
{}

/// A described artery is valid.
pub fn law_described_is_valid()
    ensures { DescribedIsValid }
{
    artery_model::law_no_fault_is_valid();
}

/// Of the keys of a table that no description has, the least by its bytes is named; where none is named,
/// each key of the table is known.
pub fn law_least_key()
    ensures { KeysAreJudged }
{}
