//! Tests of what is read and written: `quantity_text`, `description_reader`, `typed_plan`, `plan_text`, `street_words`, `text_words`,
//! `fault_words` and `file_kind`, through what is public of them.
#![tactic(auto)]

#[cfg(test)]
mod tests;
