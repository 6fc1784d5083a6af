//! Tests of `multi_band`, through what is public of it.

mod recovery_tests;
mod search_tests;
mod start_tests;
