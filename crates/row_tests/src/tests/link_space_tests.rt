//! Tests of `link_space`, through what is public of it.

mod row_tests;
mod tests;
