//! A street in words, for whoever typed it: what its description says in seconds, metres and feet, what bounds its bands before any search,
//! and what looks like a slip.
//!
//! Contracts see an `Artery` as a `Street`. `specs/Streets` has the lines of a street, a line of each signal, of the left turn patterns of
//! each signal that has one, and of each link; `specs/Patterns` the words of a pattern; `specs/Bounds` the least green of each direction; and
//! `specs/Warnings` the warnings, each with its rule and its sentence. Start with `push_street`, `push_bounds` and `push_warnings`.
//!
//! Laws (`specs/Laws`): `law_bounds_say`, no good timing has a wider band than the lines on bounds say, and they name the first signal with that
//! green; `law_warnings_say`, the lines on warnings are those of just the warnings of its places whose rule holds.
#![tactic(auto)]

mod bounds;
mod fractions;
mod head;
mod laws;
mod links;
mod names;
mod numbers;
mod pattern;
mod rules;
mod sentences;
mod signals;
mod street;
mod warning;
mod warnings;
mod words;

pub use bounds::push_bounds;
pub use laws::{law_bounds_say, law_warnings_say};
pub use pattern::push_pattern_words;
pub use street::push_street;
pub use warning::Warning;
pub use warnings::push_warnings;
