//! Tests of `plan_text`, through what is public of it.

mod cert_tests;
mod limit_tests;
mod second_tests;
mod tests;
