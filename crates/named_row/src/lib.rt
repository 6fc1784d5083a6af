//! Rows of fractions with names: a row says that the sum of coefficient times column is at most its bound, all columns
//! being at least 0.
//!
//! A `Row` is seen as a `Sheet`: the list of its coefficients, its bound, and whether it is spent (`specs/Sheets.antt`).
//! Begin with `Row::zero` and `Row::set`; `Row::add_scaled` adds a multiple of another row exactly, or names the first
//! operation that leaves 128 bits, and `Row::covers` and `Row::refutes` read off what a sum shows.
//!
//! `add_scaled` passes over a column where the other row has 0, under the same contract, since nothing can be refused there. A
//! refused one leaves the row marked as spent, of its old width: up to the refused place its numbers are summed, the others are as
//! before. Setting a coefficient keeps the mark, and only clearing the row takes it away. `covers` and `refutes` answer the first
//! place that fails. `RowId::is_before` is the order of row names, by family and then by index.
#![tactic(auto, using(rational_theory::proofs::Compare::ne_false, rational_theory::proofs::Compare::eq_true, rational_theory::proofs::Compare::lt_true, rational_theory::proofs::Compare::lt_false, rational_theory::proofs::Compare::le_true, rational_theory::proofs::Compare::le_false))]

mod cells;
mod leaves;
mod names;
mod row;
mod wide_at;

pub use leaves::{Leaf, Point, Weight};
pub use names::{Place, RowId};
pub use row::Row;
pub use wide_at::WideAt;
