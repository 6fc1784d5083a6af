//! The mathematics of the dual simplex method, for contracts and proofs alone: this crate has no code but its laws.
//!
//! A tableau is a list of rows, each with a cell for each place and the bound last, a goal row of the same form, the basic
//! variable of each row and the variable that stands at each place. Column `j` is variable `j`, and the slack of row `r` is
//! variable `width + r`. Begin with `specs/Tableau.antt`; what is promised stands in `specs/Promises.antt`, and the laws keep it.
//!
//! What is promised (Bland 1977 for the rule, Farkas for the multipliers): an exchange keeps which assignments of all variables
//! meet the rows, both ways, and the goal on them, also where the bounds are taken 0 times; a step of Bland's dual rule keeps dual
//! feasibility, and the goal row's bound doesn't rise; on the way to the end no set of basic variables comes twice, so that it
//! takes fewer than 2^(rows + columns) steps; the multipliers of the goal row cover the goal with its bound, those of a row with a
//! negative bound and no negative cell refute the rows; and the vertex of an optimal end meets the rows with the goal row's bound
//! as its goal.
//!
//! Definitions:
//!
//! - `Tableau`: `Tableau`, `line t i`, `cell t i k` (the bound at `k = width t`), `goal_cell`, `basic_at`, `standing_at`; `exchange r j t`;
//!   `IsShaped`, `IsPlace t r j`; `Meets t x z`: the assignment `x` of all variables meets each row, the bounds being taken `z` times
//!   (1 for points, 0 for directions); `goal_gap t x z y`: 0 where the goal row gives the goal value `y`. `Lines`: what an exchange makes
//!   of a row, `divided j c` of its own and `cleared j e d` of another.
//! - `DualSteps`: `IsPlaced` (each variable in one row or at one place), `IsDual` (dual feasible), `ratio`, `IsChoice t r j`.
//! - `BlandRule`: `chosen_row`, `chosen_place`, `move t` (`optimal`, `infeasible r`, `pivoted r j`), `next t`. `StepCounts`: `after t k`,
//!   `steps_to_end t`, `is_pivot`. `Paths`: `HaveSameBasics`.
//! - `Vertices`: `vertex t`. `Multipliers`: `System` (named rows and a goal), `StandsFor t s`, `goal_weight t v`, `row_weight t i v`.
//!   `RowLists`: the same for lists of `rational_theory`'s rows, `StandsForRows t rows goal`, and `vertex_point t`.
//!
//! Lemmas, by what one asks, each in the file of `proofs/` that has the name of its definition's:
//!
//! - What is where after an exchange? `Tableau`: `line-exchange_same`, `line-exchange_other`, `basic_same` and so on; `Lines`: the cells.
//! - What does an exchange keep? `meets-exchange`, `goal-exchange_same`; `dual-exchange` (`DualSteps`); `stands-exchange` (`Multipliers`),
//!   `rows_stand-exchange` and `rows_stand_after` (`RowLists`).
//! - What does the rule choose? `says`, `dual_next`. Does it end? `no_return` (`Paths`), `steps_low`, `steps_fall` (the measure of a loop
//!   over steps), `no_basis_twice` (`StepCounts`).
//! - Which variables stay 0? `IdleColumns`: one whose place has cells of 0 alone, `idle_after` along the steps, `idle_point` at the vertex.
//! - What does a loaded tableau say? `placed-loaded`, `stands-loaded`; `LoadedRows`: `HoldsRows t rows goal`,
//!   `placed-held`, `stands-held`. What does the end say? `goal_covers`, `row_refutes`, `optimal_point`.
#![tactic(auto)]

mod laws;

pub use laws::{
    law_exchange_keeps, law_goal_row_covers, law_loading_starts, law_move_says,
    law_negative_row_refutes, law_step_keeps, law_steps_end, law_vertex_is_optimal,
};
