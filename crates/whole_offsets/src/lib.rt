//! The offsets of one cycle in whole seconds, moved second by second while the bands grow, with speeds free.
//!
//! Start with `steady`, whose answer stands in `specs/Steady.antt`: the plan of the offsets nearest to those of a base that keeps the rules, moved until no
//! move leads to a better plan. `specs/Offsets.antt` says what the plan of given offsets is. Its bands are the widest with any runs
//! within the limits of speed, then cut to the ratio rule and to equal bands (`band_measure::cut`); on a street with limits of the
//! change of pace its runs are those of that base. `specs/Scale.antt` has its grid, on which seconds, parts and some run of each link
//! are whole ticks, and the first of its numbers that no timing holds. A good plan is the best with its grid, cycle, patterns and offsets.
//!
//! Plans are compared by `is_better` (`specs/Score.antt`), also those of different cycles: fewer directions without a line, then bands
//! that miss the least widths by less, then the greater weighted band. The moves are those of `specs/Moves.antt`, in their order; where any
//! is better than what is there the best of them is made, and of equally good ones the first (`IsMade` of `specs/Tried.antt`). Each makes
//! the plan better, and there are finitely many numbers a plan of this grid and cycle can be judged by, so it ends (`proofs/Rank.antt`).
#![tactic(auto, using(rational_theory::proofs::Compare::ne_false, rational_theory::proofs::Compare::eq_true, rational_theory::proofs::Compare::lt_true, rational_theory::proofs::Compare::lt_false))]

mod answer;
mod bases;
mod lines;
mod moves;
mod plan;
mod scale;
mod score;
mod search;
mod whole;

pub use answer::OffsetPlan;
pub use score::Score;
pub use whole::{is_better, steady};
