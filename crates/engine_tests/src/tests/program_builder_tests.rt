//! Tests of `program_builder`, through what is public of it.

mod entry_tests;
mod tests;
