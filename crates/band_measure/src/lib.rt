//! The widest bands on a base: on a timing's grid, patterns, reds and runs.
//!
//! A pair is a first line and a band, and it runs where the band has green all the way. `specs/Widest.antt` says which pair is the
//! widest. Start with `base_holds`, then `widest`, or with `check_base` and `widest_on` where there is a base and no timing.
//!
//! The widest pair runs, its first is below the cycle, no lesser first from 0 has its band, and for every m of at least 1 each pair
//! that runs on the base with every tick number multiplied by m has a band of at most m times this one. None comes exactly where no
//! pair runs, however fine the grid. The band is below the cycle too. `widest` asks only that timing and artery have as many
//! signals, which an Ok of `base_holds` gives, and it takes no memory. Why it is enough to try the firsts at which a line leaves a
//! red is in `proofs/`: a band that runs on any finer grid can be widened to the left until it begins at the end of a red, and there
//! whole ticks of this grid begin one that is at least as wide (`Gaps`, `Coarse`, `AllGrids`).
//!
//! `cut` makes two bands as narrow as the artery's ratio rule and its `equal` ask, and no narrower (`specs/Cut.antt`).
//!
//! Laws over the definitions: a pair runs exactly where m times it runs on the grid that is m times as fine (`law_finer_pairs`), and
//! at most one pair is the widest (`law_one_widest`). A line's way from its first signal stands here too, where `mirror_theory`
//! takes it from.
#![tactic(auto)]

mod bands;
mod laws;
mod measure;
mod pair;
mod ways;
mod widths;

pub use bands::{Bands, cut};
pub use laws::{law_finer_pairs, law_one_widest};
pub use measure::{widest, widest_on};
pub use pair::{BothPairs, Widest};
pub use time_space::{base_holds, check_base};
