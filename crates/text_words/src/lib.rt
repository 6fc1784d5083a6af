//! Texts in words, for people: what is wrong with the first bad line of one that is refused, and what stands in a timing, a certificate or a
//! typed plan that is read.
//!
//! Contracts see a timing, a certificate and a plan as their crates do. `specs/Faults` has the lines about a bad line and `specs/Grammar` what
//! the grammar wants at each line, by the first line of the text, the verdict of a certificate and what its tree still owes (`specs/Owed`); `specs/Claims` has those of timings and
//! certificates and `specs/Plans` those of plans. Start with `push_bad_text`, `push_timing_words`, `push_certificate_words`,
//! `push_link_certificate_words` and `push_plan_words`.
#![tactic(auto)]

mod claims;
mod faults;
mod grammar;
mod lines;
mod plans;
mod sentences;
mod timings;
mod trees;
mod walk;
mod wants;

pub use claims::{push_certificate_words, push_link_certificate_words};
pub use faults::push_bad_text;
pub use grammar::Opening;
pub use plans::push_plan_words;
pub use timings::push_timing_words;
pub use walk::OwedLines;
pub use wants::{ClaimLine, NumberKey, TreeLine, Wanted};
