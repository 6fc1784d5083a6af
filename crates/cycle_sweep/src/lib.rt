//! The best weighted band of one street at each of several cycles: a search of its own for each, and the table of what was found.
//!
//! Start with `sweep_rows`, whose rows are `AreRows` (`specs/Rows.antt`): at a cycle within the street's own limits what a search of the
//! street at this cycle alone found. `sweep_table` writes them as comma-separated values (`specs/Table.antt`), and `law_rows_say`
//! says what each record means of the street (`specs/Says.antt`).
//!
//! A row says that the cycle isn't within the street's own limits, exactly where it isn't, or else what `search_and_check` finds of
//! the street with this cycle alone (`at_cycle`), each within the whole limit of work. That this street is never refused is proved:
//! every rule of an artery but two doesn't look at the cycle, and those two hold of a cycle that passes `is_cycle`. The text of the
//! rows has a header and a line for each, of five fields with commas between them, none of which has a character that `csv` would
//! quote; it is stated by itself, and proved that `csv` writes just that. What `law_rows_say` tells: a `best` record has, twice,
//! the weighted band of a timing that is best at its cycle; after `none` no timing is good there; after `open` no good timing is
//! above the bound, and the weighted band, if there is one, is that of a good timing; an accepted certificate claims as much each
//! time; and the cause is `work` only where the units that were spent are the limit. What a verdict says of a street is told for any
//! street and any form of record (`SaysFound`). The words of a record serve other tables too.
#![tactic(auto)]

mod copying;
mod cycle;
mod laws;
mod row;
mod sweep;
mod table;
mod words;

pub use copying::artery_at;
pub use cycle::is_cycle;
pub use laws::law_rows_say;
pub use row::SweepRow;
pub use sweep::sweep_rows;
pub use table::sweep_table;
pub use words::{bound_of, cause_word, number_text, verdict_word};
