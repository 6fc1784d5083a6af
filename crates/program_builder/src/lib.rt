//! The tableau that a box of an artery begins from: every row that the artery has, in the order of their names, with the weighted
//! band as its goal, and in the basis either both bands (the opening) or what another box ended with (the entry).
//!
//! Begin with `make_unloaded`, an empty tableau, and `make_loaded`, one more in which the rows of a box are loaded
//! and stay so. `reset_from` makes the opening of any box of the artery in the first, from a copy of the other: only some bounds depend
//! on the box. The state is `opened_box` (`specs/Building.antt`, over `specs/Opening.antt`): it is dual feasible for each
//! ratio, it stands for the box's rows and the weighted band, and no number of the start leaves 128 bits. `laws` says which
//! rows it has, and what its goal row is. `start` and `reset` make the same state with no rows loaded before.
//!
//! `enter_remembering` makes the entry instead, from the basic variables that `Tableau::basis` lists at an end (`specs/Entry.antt`), or
//! says that one of its pivots leaves 128 bits, and makes the opening. Which of the two a box begins from, by the boxes above it, is
//! `first_of` (`specs/First.antt`), with its law.
//!
//! The two parts of a split enter the same basis, and what is loaded for them differs in bounds alone. So an entry, made from such a
//! copy, leaves in an `EntryMemory` what it takes to enter the other part: the row of each pivot, what all rows had at its
//! place (the product form of the inverse), and the entered tableau. The other part's bounds alone are run through these pivots
//! (`specs/Remembering.antt`). `enter` does the same with neither copy nor memory.
//!
//! What isn't an artery's alone is made for any table of rows, a `RowTable` of `loop_rows` (`specs/ProgramTable.antt`): `make_tableau`,
//! `load` (`specs/Loading.antt`) and `pivot`, one of the pivots of a start (`specs/StartPivots.antt`).
//!
//! `rows_of`, which `law_rows_are_all` says is the list that `next_row` walks, has the rows. Least and equal bands only add rows,
//! and the goal row comes from the rows of the two start pivots alone. `reset` takes no memory and works on a spent tableau too.
//! `enter` is false exactly where an operation of the entry's pivots is past 128 bits, and then the state is that of `reset`; at a
//! slack of the list it does nothing. Whatever the boxes above a box are, the tableau that it begins from is dual feasible and
//! stands for the box's rows and the weighted band (`law_first`). Of the start no operation is ever refused: `StartPivots` and
//! `UnitFits` of `proofs/` say of pivots on cells of 1 that don't touch one another's rows that they leave no goal cell below 0 and
//! are never refused.
#![tactic(auto)]

mod building;
mod choosing;
mod counting;
mod entering;
mod entry_pivots;
pub mod laws;
mod loaded;
mod loading;
mod noting;
mod pivots;
mod remembering;
mod table;

pub use building::{reset, start};
pub use entering::enter;
pub use loaded::{load_from, make_loaded, reset_from};
pub use loading::{load, make_tableau, make_unloaded};
pub use pivots::{StartPivot, pivot};
pub use remembering::{EntryMemory, enter_remembering};
