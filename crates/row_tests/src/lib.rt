//! Tests of rows, and of what is shown by them: `loop_rows`, `link_space`, `offset_recovery`, `certificate_checker` and `link_proof`, through what is public of them.
#![tactic(auto)]

#[cfg(test)]
mod tests;
