//! Tests of `loop_rows`, through what is public of it.

mod feature_tests;
mod leaf_tests;
mod tests;
