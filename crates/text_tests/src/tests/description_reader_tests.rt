//! Tests of `description_reader`, through what is public of it.

mod judged_tests;
mod key_tests;
mod limit_tests;
mod order_tests;
mod print_tests;
mod reading_tests;
mod rule_tests;
pub mod samples;
mod table_tests;
mod type_tests;
mod version_tests;
