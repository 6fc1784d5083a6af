//! What the crates of tests share: texts that are changed line by line, what is answered for each, worked texts, and streets and timings of
//! a few numbers.
//!
//! What most samples of a street have is `plain_head`, `plain_signal` and `plain_link`: 100 parts in 100 seconds, one left turn pattern and
//! 36 kilometres an hour. Change what differs, and call `sample_street`, whose contract says which street it is.
//!
//! A case is a line, as `4 cycle = 100|9-11 -> WrongType artery.cycle`: the changes of a text, and what a `TextReader` is to answer for the
//! changed one. `all_told` goes through a table of them.
#![tactic(auto)]

mod cases;
mod changed;
mod half_red;
mod record;
mod sample;
mod sampled;
mod streets;
mod worked;

pub use cases::{TextReader, all_ends_told, all_texts_told, all_told, each_with_next, told_again};
pub use changed::with_changes;
pub use half_red::{half_red_street, part_of};
pub use record::TextRecord;
pub use sample::{
    SampleHead, SampleLink, SampleSignal, plain_head, plain_link, plain_signal, range,
};
pub use sampled::sample_street;
pub use streets::{
    flaw_text, fraction, fraction_or_zero, paced_link, two_signals, with_least, with_ratio,
};
pub use worked::{
    HALF_BAND, HIGH_LEAF, LOW_LEAF, PLAIN_STREET, SPLIT, WHOLE_GREEN, WORKED_LISTED, stopped_text,
    worked_text,
};
