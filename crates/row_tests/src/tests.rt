//! The tests of each crate in a module of its own, and what these share.

mod certificate_checker_tests;
mod link_proof_tests;
mod link_space_tests;
mod loop_rows_tests;
mod offset_recovery_tests;
mod row_texts;
