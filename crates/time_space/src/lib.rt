//! The time-space diagram of one artery: timings in whole ticks, the test whether a timing is good,
//! its weighted band, and what is green or within a band at a tick.
//!
//! Contracts see a `Timing` as the `TimingRecord` of the model, its `Base` as the `BaseRecord`, and an `Artery` as its `Street`. A
//! timing is a base (grid, signals and runs) and a first line and a band a direction: `Base::new`, then `Base::banded`, or
//! `Timing::new` for both at once. Then `holds`.
//!
//! `Base::new` and `Timing::new` keep the limits of a timing's numbers. `holds` is Ok exactly for good timings, for all four patterns,
//! left turns, clearances, speed ranges, changes of pace, ratios, least and equal bands, and otherwise names the first failing rule,
//! signal and tick: by rule, then outbound before inbound, then by number, the signals of an inbound band alone in its order of
//! travel. `value` is the weighted band, at least 0 and with a denominator of at most 2^120. `check_base` is the first half of
//! `holds`, the rules of the base, and `base_holds` is that of a timing's base; `is_green_way` is one of the last two rules of
//! `holds` alone; the cycle, where the red of a direction starts and how long it is are calls of a `Base`, and where a line crosses
//! the next signal is one too.
//!
//! Laws over the definitions: a failing rule rules a good timing out (`law_fails_rules_out`), at most one failing is the first
//! (`law_one_first`), and a timing is good exactly where it is good with every tick number, `grid` and `unit` multiplied by any m
//! of at least 1 (`law_finer_grids`), so that whole ticks decide for all lines between them. And what red means, over all ticks,
//! negative ones too: a tick isn't green exactly where it lies strictly between the start and the end of the red of some cycle
//! (`law_reds_are_intervals`, for reds no longer than the cycle), and the ticks since the last start are what is left of whole
//! cycles (`law_since_last_start`).
#![tactic(auto)]

mod base;
mod diagram;
mod failing;
mod limits;
mod links;
mod reds;
mod rules;
mod seen;
mod ticks;
mod timing;
mod weight;

pub use base::{Base, LIMIT, are_below_limit};
pub use diagram::{advance, cycle, red_start, red_ticks};
pub use failing::Failing;
pub use limits::is_in_ratio;
pub use reds::{is_early, stop};
pub use rules::{
    base_holds, check_base, holds, is_green_way, law_fails_rules_out, law_finer_grids,
    law_one_first, law_reds_are_intervals, law_since_last_start,
};
pub use seen::{crossing_from, green, in_band, line_at};
pub use ticks::{first_red, since_start};
pub use timing::Timing;
pub use weight::{value, weighted};
