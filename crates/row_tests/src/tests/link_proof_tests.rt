//! Tests of `link_proof`, through what is public of it.

mod check_tests;
mod tests;
