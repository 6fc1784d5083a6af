//! A valid artery: its type keeps that every number lies within its limits, that names differ, and
//! that each signal has a pattern and some green. Contracts see an `Artery` as a `Street`: its head,
//! signals and links. Start with `Artery::new`, which names the first rule that is broken.
//!
//! `Artery::new` answers an artery of just these parts, or the first fault of a list of tests (`specs/Limits.antt`, whose limits
//! have their names in `specs/Bounds.antt`): values outside their limits, then the rules between them, each kind in order and
//! within it each place in order. What a limit is may depend on the version: in the first there are at most 16 signals, no least
//! bands and no equality, in the second at most 24 (`IsOfFirst` of `specs/Valid.antt` has what follows for the first). Each
//! accessor gives the model's word (`red_parts`, `run_low`, ..) with the bounds that keep products within 128 bits.
//! `law_no_fault_is_valid`: parts on which no test fails keep all that the type keeps. The limits of an artery and those of a
//! description are two lists over the same named bounds: a number beyond 32 bits becomes 0 in the artery, so that one can't state
//! the other.
#![tactic(auto)]

mod artery;
pub mod bounds;
mod kind;
mod laws;
mod names;
mod ranges;
mod refusals;
mod rules;
mod runs;

pub use artery::Artery;
pub use kind::{Flaw, Kind, Refusal};
pub use laws::law_no_fault_is_valid;
pub use progression::{Dir, Head, Link, Pair, Signal, Text, Units};
pub use ranges::{is_name, is_within};
pub use runs::seconds;
