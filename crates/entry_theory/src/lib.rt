//! The mathematics of an entry, for contracts and proofs alone: this crate has no code but its laws.
//!
//! An entry is the pivots that bring a list of columns into the basis of a tableau whose rows were just loaded, so that it has the basic
//! variables with which a tableau of other bounds ended, and the dual simplex method goes on from there. Begin with `specs/Entry.antt`;
//! what is promised stands in `specs/Promises.antt`, and the laws keep it.
//!
//! The columns come in ascending order, each at the least row that can take it: one with a cell there that no column took before,
//! and whose own slack isn't listed. What is promised: where the list is that of the basic variables of a dual feasible tableau of
//! rows with the same coefficients and the same goal, whatever their bounds, each column finds its row; afterwards just the listed
//! variables are basic, and the tableau is dual feasible and stands for the rows and the goal that were loaded; and there is one
//! such entry alone (`law_entry_keeps`). The basic variables in ascending order are one list, which a sort of them gives
//! (`law_basics_are_listed`).
//!
//! Definitions:
//!
//! - `Entry`: `IsAmong vs v`, `NamesBasics vs t` (the list names the basic variables in ascending order); the rule as a relation,
//!   `CanTake` and `IsEntry vs p r`, and as a function, `entry_row vs t j`, `entry_after vs t k` (the tableau after `k` variables),
//!   `entry vs t`. `Least`: the least number that passes a test.
//! - `Basics`: `basics_of t`, the basic variables in ascending order.
//! - `Directions`: `HaveSameForms t u`, what tableaus of the same coefficients and goal share, whatever their bounds. `Ready`: `IsFresh t`
//!   (as it was loaded), `IsReady vs t` (what an entry asks for).
//! - `SameCells`: `HaveSameCells t u`, tableaus that differ in their bounds alone.
//! - `Promises`: `IsBasisFor vs rows goal w`, `IsEntered`, and `EntryKeeps`, which joins the two; `BasicsAreListed`.
//!
//! Lemmas, by what one asks, each in the file of `proofs/` that has the name of its definition's, or in that named:
//!
//! - Which variables can be basic, and which signs has the goal row? `Directions`: `some_row`, `no_more_basics`, `dual_by_forms`. From
//!   rows: `same_forms` (`SameRows`).
//! - What does the choice of a row say? `Rows`: `CanEnter`, `entry_row_found`, `entry_row_is`, `pivot_column`, `pivot_slack`; `Least`.
//! - What is the tableau on its way? `Entering`: `IsEntering vs m w n t`; `Entered`: `finds_row` (a column always finds its row),
//!   `ready_place`, `ready_rows`, and of the end `entry_basics`, `entry_dual`, `entry_names`, `entry_keeps`, `entry_stands`.
//! - Are relation and function the same? `Pivots`: `is_entry`, `only_entry`.
//! - What of an entry doesn't hang on the bounds? `SameCells`: `same_row`, `same_after`, and `same_all` (with the same bounds it is the
//!   same tableau).
//! - Is a sort the list of the basic variables? `Sorted`: `names_sorted`, `sorted_is`; `Basics`: `names_basics_of`, `names_only`.
#![tactic(auto)]

mod laws;

pub use laws::{law_basics_are_listed, law_entry_keeps};
