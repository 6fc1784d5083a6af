//! The model: what an artery is, what a timing of its signals is, which timings are good, and which
//! of them is best. Every other crate speaks of these definitions, and they speak of no other crate
//! but the fractions.
//!
//! Here stand the plain types of an artery's parts. The definitions are in `specs/`, to be read in
//! this order: `Street` (an artery), `Speeds` (runs and paces), `BaseRecord` (the base of a timing),
//! `TimingRecord` (a timing record), `Green` (remainders, reds and greens), `Lines` (where the progression lines cross), `Good` (the
//! rules of a good timing), `Objectives` (what 'best' means of timings of any kind), `Best` (the weighted band, and the best timing),
//! `Columns` (a timing as a point of linear programming).
//!
//! The rules of a base, up to the changes of pace, are one record, `IsBase`, which whatever follows from a timing's runs and cycle
//! cites; `Good` has it, the ratio, the least bands, their equality and the two green ways. A good
//! timing includes that its record is well formed: `grid` at least 1, `unit` at least 2, as many reds as patterns and one fewer of
//! each run; "best" ranges over these records, with numbers of any size. `docs/MODEL.md` says the same in prose.
//! `law_worked_timings` is the check from outside: timings that were worked by hand (bands that fill the greens, one a tick too
//! wide, a line at the first tick of a red, a clearance, lagging and leading left turns, and each of the four patterns with unequal
//! ones) are decided by the definitions alone.
//!
//! `proofs/` has the lemmas that crates above share: on remainders by the cycle, on bands that fit between reds, and on the
//! crossings of a line.
#![tactic(auto)]

mod parts;
mod text;
mod worked;

pub use parts::{Dir, Head, Link, Pair, Signal, Units};
pub use text::Text;
pub use worked::law_worked_timings;
