//! What is wrong with the description of a street or with a typed plan, in words for who typed it.
//!
//! A refusal has a kind and the path of a place. `push_fault_words` writes the lines that follow it: where that is, with the signal's own
//! name, what its kind means, what stands there, what is wanted with an example that could stand there, and of a key that isn't known which
//! one was meant. `specs/FaultWords.antt` has the lines of a document that was read, as a function of its root; of a text that is none,
//! `specs/TextWords.antt` says what is told, where the place and the reason that the reader of TOML gives are its own.
//!
//! What a key wants follows from the entry of the key table, by a word for each demand (`specs/Wants.antt`). `law_all_have_words`: each kind
//! has its sentence, and each key its words, its unit and its example, which is read as a value of the key's types and within its limits; of
//! `signal` it is one table of the two that are the fewest. `law_places_are_told`: the table, key and item that are told are those that the
//! path was made of. `law_unknown_is_told`: a key that isn't known is told as it stands in the file. `law_lines_are_ascii`: of bytes that are
//! no text nothing beyond ASCII is told.
#![tactic(auto)]

ghost use Rattle.fault_words.specs.Promises.{AllHaveWords, LinesAreAscii, PlacesAreTold, UnknownIsTold};

mod called;
mod counts;
mod example;
mod home;
mod key;
mod meant;
mod near;
mod place;
mod sentence;
mod shown;
mod signed;
mod text;
mod unknown;
mod wants;
mod whole;

pub use place::Document;
pub use whole::{push_document_words, push_fault_words};

/// Each kind of fault has its sentence, and each key its words, the unit of its numbers, and an example of its types and, but for `signal`,
/// within its limits.
#[tactic(auto, using(crate::proofs::HaveWords::all_have_words))]
pub fn law_all_have_words()
    ensures { AllHaveWords }
{}

/// The path of a key or of an item is taken for that of this table, key and item.
#[tactic(auto, using(crate::proofs::Paths::places_are_told))]
pub fn law_places_are_told()
    ensures { PlacesAreTold }
{}

/// Of a table with a key that isn't known the key is told whose fault it is, also where its path shows a question mark.
#[tactic(auto, using(crate::proofs::KeyTold::unknown_is_told))]
pub fn law_unknown_is_told()
    ensures { UnknownIsTold }
{}

/// A line of bytes that are no text is told in ASCII.
#[tactic(auto, using(crate::proofs::Masked::lines_are_ascii))]
pub fn law_lines_are_ascii()
    ensures { LinesAreAscii }
{}
