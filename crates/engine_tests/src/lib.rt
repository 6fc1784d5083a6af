//! Tests of numbers and rows, of the engines and of what they begin from: `narrow_fraction`, `named_row`, `fraction_tableau`,
//! `dual_simplex`, `dual_leaf`, `branch_and_bound` and `program_builder`, through what is public of them.
#![tactic(auto)]

#[cfg(test)]
mod tests;
