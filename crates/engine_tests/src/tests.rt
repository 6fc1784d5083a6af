//! The tests of each crate in a module of its own, and what these share.

mod branch_and_bound_tests;
mod dual_leaf_tests;
mod dual_simplex_tests;
mod fraction_tableau_tests;
mod named_row_tests;
mod narrow_fraction_tests;
mod program_builder_tests;
mod solving;
mod two_columns;
