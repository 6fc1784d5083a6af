//! Time-space diagrams as pictures: SVG documents that a browser shows and prints.
//!
//! Contracts see an `Artery` as a `Street`, a `Timing` as a `TimingRecord` and its `Base`, of which the reds and the axes speak, as a
//! `BaseRecord`. `specs/Pages` has the drawing of a timing, a list of shapes and words with exact places, and its text. `specs/Bars` and
//! `specs/Bands` say which shapes stand for reds and bands, and `specs/Frames` where a moment and a signal stand. Start with `draw`.
#![tactic(auto)]

mod axes;
mod bands;
mod bars;
mod captions;
mod escape;
mod frame;
mod laws;
mod page;
mod paint;
mod shape;
mod steps;
mod style;
mod width;

pub use frame::Frame;
pub use laws::{
    law_bands_are_shown, law_bands_miss_reds, law_escaped_is_plain, law_field_is_exact,
    law_pieces_are_once, law_pieces_are_seen, law_pieces_join_bars, law_pieces_meet_windows,
    law_pieces_miss_bars, law_places_ascend, law_reds_are_reds, law_reds_are_shown,
    law_reds_have_two_parts, law_signals_rise,
};
pub use page::draw;
pub use paint::{Letter, Paint};
pub use shape::Shape;
