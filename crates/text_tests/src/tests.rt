//! The tests of each crate, in a module of its own.

mod description_reader_tests;
mod fault_words_tests;
mod file_kind_tests;
mod plan_text_tests;
mod quantity_text_tests;
mod typed_plan_tests;
mod words_tests;
