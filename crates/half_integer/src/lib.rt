//! Half-integer synchronisation (Morgan and Little 1964): the widest equal bands of a timing whose offsets are free.
//!
//! Start with `half`. That reds in phase or half a cycle apart are enough is `mirror_theory`'s; here the best of them is found.
//!
//! `half` answers the widest equal bands that a timing has with any offsets, as a timing on the doubled grid (`IsHalfCycleBest`),
//! or none exactly where it has none on any grid (`HasNone`). It refuses a timing whose base breaks a rule,
//! with the first; then one with an uneven signal, with the least; then one with a link of unequal travel, with the least; then one
//! with a number past the limit on the doubled grid, with the first (`specs/Answers.antt`). Uneven is said in left turns and
//! patterns (`specs/Uneven.antt`), and `law_uneven_is_two_reds` that these are just the signals whose reds aren't one interval. The
//! search tries, for each signal, the two lines that leave it at the end of its red, and each costs a step a signal. Of several
//! plans that are as wide any may be told; `half_of` says exactly whether a red is centred at 0, which for an answer of `half`
//! decides its phase.
#![tactic(auto)]

mod build;
mod end;
mod laws;
mod phase;
mod plan;
mod search;
mod too_fine;
mod uneven;

pub use end::HalfEnd;
pub use laws::{law_one_end, law_phases_say, law_uneven_is_two_reds};
pub use phase::half_of;
pub use plan::{HalfFault, half};
