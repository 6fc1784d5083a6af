//! A plan in whole seconds from a timing: the whole cycle and the offsets nearest to it, and on these the widest bands.
//!
//! Start with `plan`. What it promises stands in `specs/Planned.antt`, and why there is none in `specs/Ends.antt`.
//!
//! It takes a good timing and a claim. The plan's cycle is the whole number of seconds within the artery's limits that is nearest
//! to the timing's, and its offsets are the timing's, as shares of the cycle, in whole seconds; of two nearest numbers the lesser
//! (`specs/Nearest.antt`, `specs/Seconds.antt`). Its grid is the timing's times twice the parts, so that offsets, parts and the
//! timing's runs are whole ticks (`specs/Grid.antt`); its firsts are those of `band_measure::widest_on`, and its bands too, but cut
//! where they have to be equal, or where the ratio allows one of them less (`band_measure::cut`). The plan's timing is good, and no
//! good timing of its base has a greater weighted band (`IsBestOfOffsets`): both pairs of such a timing run, so they are no wider
//! than the widest, and a pair that keeps the ratio no wider than the cut one. Its loss is the claim less
//! its weighted band, and at least 0 where the claim bounds the artery.
//!
//! `specs/Ends.antt` has each end with the tests before it: no whole cycle; a number of the plan that no timing holds, the first of
//! them; no line at the rounded offsets, outbound looked at first; a failing, which can only be that of a least band; a loss that
//! leaves 128 bits. `NoTimingGiven` is never answered: it is for a caller that may have no timing. Laws over the definitions: at
//! most one end comes (`law_one_end`), none where there is a plan (`law_plan_or_end`), and the plan's numbers are determined
//! (`law_one_plan`), so that each end comes exactly where it is said, but for want of memory.
#![tactic(auto)]

mod answer;
mod grid;
mod laws;
mod nearest;
mod planning;
mod seconds;

pub use answer::{Plan, PlanEnd, PlanFault};
pub use grid::{in_seconds, reds, too_fine};
pub use laws::{law_one_end, law_one_plan, law_plan_or_end};
pub use planning::plan;
pub use seconds::{Rounded, offsets};
