//! The changes of one limit at a time that a street is asked about, and the street with each of them.
//!
//! Contracts see an `Artery` as a `Street`. `specs/Changes.antt` has the list of the changes of a street, `specs/Changed.antt` the street
//! with one, and `specs/Names.antt` how a change is told. Start with `changes`, and with `changed_artery`, which answers the street with
//! a change exactly where it is one that a description may have.
#![tactic(auto)]

mod changed;
mod letting;
mod limits;
mod listing;
mod names;

pub use changed::changed_artery;
pub use limits::{Change, LinkLimit, SignalLimit, StreetLimit};
pub use listing::changes;
pub use names::{change_word, name_text, place_text};
