//! A timing as a table for people and spreadsheets: what is typed into controllers, in seconds, a record for each signal.
//!
//! Contracts see an `Artery` as a `Street`, a `Timing` as a `TimingRecord` and its `Base`, by which all is told but the bands, as a
//! `BaseRecord`. `specs/Records` has the table: its head, the fields of each record, and its bytes, which are those that `csv` writes.
//! `specs/Moments` says from which moment offsets and bands count, and `specs/Facts` has the lines on the cycle and the bands. Start
//! with `sheet` and `push_facts`.
//!
//! A law (`specs/Laws`): `law_seconds_agree`, what `street_words` says of parts, greens and times of travel in seconds are the numbers of the sheet.
#![tactic(auto)]

mod cells;
mod facts;
mod laws;
mod moments;
mod pattern;
mod records;
mod table;

pub use facts::push_facts;
pub use laws::law_seconds_agree;
pub use table::sheet;
