//! Tests of `branch_and_bound`, through what is public of it.

mod tests;
mod toy;
