//! What holds the band of a street: the street as it is, and then with one limit let out at a time, each searched and checked, and the
//! table and the lines of what was found.
//!
//! Start with `sensitivity_rows`, whose rows are `AreRows` (`specs/Rows.antt`): for each of the changes of `street_changes` what a search of
//! the street with this change found, whose certificate was checked, or that a description may not have it. `sensitivity_table` writes them as
//! comma-separated values (`specs/Table.antt`), `sensitivity_lines` tells the changes that gain, greatest first (`specs/Report.antt`), and
//! `law_rows_say` says what each record means of the street (`specs/Says.antt`).
//!
//! Of a search only its verdict, its timing and its bound are kept, so that its tree takes room no longer than it goes.
#![tactic(auto)]

mod gains;
mod laws;
mod ranking;
mod report;
mod row;
mod rows;
mod table;

pub use laws::{law_rows_say, law_unchanged_is_the_street};
pub use report::sensitivity_lines;
pub use row::{RowOutcome, SensitivityRow};
pub use rows::sensitivity_rows;
pub use table::sensitivity_table;
