//! Tests of `time_space`, through what is public of it.

mod rule_tests;
mod streets;
mod tests;
