//! Tables of comma-separated values that people open in a spreadsheet: records of fields, and names as cells.
//!
//! Contracts see a `Record` as the list of its fields. `specs/Cells.antt` has the cell of a name: one that a spreadsheet would take for a
//! formula stands behind an apostrophe. The text of a record is that of `csv` with its defaults: commas, quotes where they are needed, and a
//! line feed. Start with `Record::new` and `push`, then `push_record`.
#![tactic(auto)]

mod cell;
mod record;

pub use cell::push_name_cell;
pub use record::{Record, push_record};
