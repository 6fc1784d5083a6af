//! Link timings of one artery: each link has a band of its own, symmetric about one progression line a direction; the test whether
//! such a timing is good, its value, and the rows of its linear program.
//!
//! Contracts see a `LinkTiming` as the `LinkRecord` of `link_theory`. Start with `LinkTiming::new`, then `link_holds`. Of the rows,
//! start with `next_link_row`, which names them in their order, and `fill_link_row`, which makes the row of a name for a box: those of
//! speeds, changes of pace, cycle, block sums and shifts are the artery's, in a wider row; those of `LinkFamily` are families of
//! their own, for the problem `LinkBands`. `fill_link_goal` makes the value and `link_sum` adds up a leaf's rows. What the
//! rows are is defined in `link_theory`, and each row is met by the point of every good link timing of the box.
//!
//! `LinkTiming::new` answers a link timing exactly where all numbers are in their ranges. `link_holds` is Ok exactly for good link
//! timings, and otherwise names the first failing rule: by rule, then by link, then by the signal in the direction's order of
//! travel, then by tick; `link_value` is their value exactly. Neither takes memory. `link_sum` names the first operation past 128
//! bits, by the same code as `leaf_sum` of `loop_rows`. A link timing is judged as if its street asked for no least and no equal
//! bands: these are promises for the whole way, which no band of a link could keep. `law_links_as_wide` holds link timings to the
//! good timings from outside: a best one is worth at least so many times the weighted band of any good timing as there are links,
//! and of two signals just as much as a best timing, where neither least bands nor equal bands are asked for.
#![tactic(auto)]

mod columns;
mod failing;
mod families;
mod family_numbers;
mod goal;
mod greens;
mod problem;
mod rows;
mod rules;
mod sum;
mod timing;
mod weight;

pub use columns::{half_column, link_column_count};
pub use failing::LinkFailing;
pub use families::LinkFamily;
pub use goal::{fill_link_goal, twice};
pub use problem::LinkBands;
pub use rows::{LinkRows, fill_link_row, next_link_row};
pub use rules::{
    law_finer_link_grids, law_link_fails_rules_out, law_links_as_wide, law_one_first_link,
    link_holds,
};
pub use sum::link_sum;
pub use timing::LinkTiming;
pub use weight::link_value;
