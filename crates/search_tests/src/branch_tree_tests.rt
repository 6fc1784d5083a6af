//! Tests of `branch_tree`, through what is public of it.

mod end_tests;
mod tests;
mod wide_tests;
