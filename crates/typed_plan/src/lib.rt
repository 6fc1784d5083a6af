//! The timing of a plan that people typed (`description_reader`'s `TypedPlan`): the one on the least grid that has the plan's cycle,
//! offsets, patterns and times on the links exactly, with the widest bands of these offsets, cut to the artery's ratio rule and to `equal`
//! where both directions have a line.
//!
//! `specs/Asked.antt` says what the timing has to be, `specs/Grid.antt` which numbers it has, and `specs/Ends.antt` why there is
//! none. Start with `timing_of`.
#![tactic(auto)]

ghost use Rattle.typed_plan.specs.Ends.{OneTiming, SpeedsComeBack};

mod counts;
mod grid;
mod least;
mod seconds;
mod times;
mod timing;

pub use timing::{Measured, TypedFault, timing_of};

/// A plan has at most one timing on an artery.
pub fn law_one_timing()
    ensures { OneTiming }
{}

/// A typed speed is that at which the timing's run takes the link.
pub fn law_speeds_come_back()
    ensures { SpeedsComeBack }
{}
