//! The rows of an artery's linear program, family by family: each row of a box is met by the point of every good timing
//! whose block sums and shift ranks are those of the box.
//!
//! Begin with `next_row`, which names an artery's rows in their order, and `fill_row`, which makes the row of a name for a
//! box; `fill_goal` makes the weighted band and `block_sum` adds up a link's block sum at a point. None of these takes
//! memory, and no row is refused. `leaf_sum` adds up the rows that a leaf names. A `Family` comes with the proof that every
//! point meets its rows that counts for its `Problem`; `Progression` is the problem of the timings of one artery. Which rows
//! there are, and what they say, is defined in `linear_theory` (`specs/Rows.antt`, `specs/Names.antt`); `laws` says over
//! those definitions alone what they promise. The families are those of `ArteryFamily`, each by one name, here and there; a new one
//! is a variant with its number in `family_numbers`, its line in each table of `families.rt` and an arm of `family_of`.
//!
//! For the rows of another linear program: families of another `Problem`, whose rows `fill_cells` makes and `fill_by` asks for; and a
//! `RowTable`, whose rows `next_in` names in their order and `sum_of` adds up. Those of an artery are of `Progression`, and its table
//! is `ArteryRows`.
//!
//! `fill_row` clears the row first and makes it exactly, unspent; it is false, and the row stays as it was, exactly where the
//! artery has no such row. `block_sum` adds its twelve terms in order or names the first operation past 128 bits, and `leaf_sum`
//! names the first row that can't be added. In `family_numbers` it is said once which number a family has.
#![tactic(auto)]

mod cells;
mod columns;
mod families;
mod family;
pub mod family_numbers;
mod fault;
mod following;
pub mod laws;
mod leaves;
mod numbers;
mod rows;
mod sums;
mod table;

pub use cells::fill_cells;
pub use columns::{
    band_column, column_count, frequency_column, run_column, shift_column, wait_column,
};
pub use families::ArteryFamily;
pub use family::{Family, Problem, Progression};
pub use fault::SumFault;
pub use following::next_in;
pub use leaves::{leaf_sum, sum_of};
pub use numbers::green;
pub use rows::{ArteryRows, box_bound, fill_by, fill_goal, fill_row, has_by, has_row, next_row};
pub use sums::block_sum;
pub use table::RowTable;
