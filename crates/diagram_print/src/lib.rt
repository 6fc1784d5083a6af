//! What is printed of a search: the verdict, why it stopped, the bound and the timing with its time-space diagram.
//!
//! Contracts see an `Artery` as a `Street` and a `Timing` as a `TimingRecord`. `specs/Report` has the lines, each a function to
//! bytes, and `specs/Diagram` those of the diagram. Start with `report`. The other calls are for other lines that print the same:
//! names of rows and columns, measures, and, with the lines of a timing of any kind, what a verdict says.
//!
//! `report` writes exactly the lines of what a search found: the verdict, why an open search stopped with the site and its
//! operands, the bound, and the whole of a timing, which is the weighted band, both bands and the cycle, each signal's
//! pattern, offset and name, each link's two speeds and the diagram.
//! Each number is the exact quotient of whole numbers, printed in full and then cut after 6 or 3 places. A speed is that of the
//! band, the distance over the run, so that a clearance doesn't change it; that it divides by no run of 0 follows from the rule of
//! the greatest speed. `diagram` writes the diagram's lines alone, for any timing of as many signals: each character says by the
//! model's own definitions whether the tick of its place is green in that direction, and whether it lies in the band; a red tick is
//! `#` also where the band covers it, which in a good timing is nowhere.
//!
//! What is told of a verdict is said once for timings of any kind: `verdict_lines` is a function of the table of families by which
//! rows are named, of the lines of the timing, if there is one, of the bound and of the verdict, and asks only that the box of a
//! site is one of the artery. `report` is that over the artery's own table and the lines of its timing. `push_link_lines` asks of a
//! timing the rules of its base (`IsBase`). `push_row` names a row over any table of families, as that of links, and
//! `push_column` the halves of links behind the columns that every artery has. What is named `push_..` writes at the end of a text.
#![tactic(auto)]

mod chart;
mod lines;
mod measures;
mod names;
mod offsets;
mod sites;
mod speeds;
mod stopped;

pub use chart::diagram;
pub use lines::{report, verdict_lines};
pub use measures::{
    dir_name, push_band_line, push_cycle_line, push_measure, push_measure_line, push_weighted_line,
};
pub use names::{push_column, push_place, push_row};
pub use offsets::push_signal_lines;
pub use speeds::{push_link_lines, push_link_name};
