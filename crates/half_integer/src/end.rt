//! Timings for which there are no half-cycle plans.

ghost use Rattle.std.specs.Prelude.{MatchOption};
ghost use Rattle.half_integer.specs.Answers.{IsReady, Ends};
ghost use Rattle.time_space.specs.Timing.{IsFor};
ghost use Rattle.progression.specs.TimingRecord.{base};

use crate::too_fine::first_too_fine;
use crate::uneven::{first_unequal, first_uneven};
use artery_model::Artery;
use time_space::Timing;

/// The first reason, in this order, for which a timing has no half-cycle plan.
#[derive(Clone, Copy, Debug, PartialEq, Eq)]
pub enum HalfEnd {
    /// The two reds of the signal aren't one interval.
    Uneven { signal: u32 },
    /// The directions take unequal times on the link.
    Unequal { link: u32 },
    /// So many ticks of the doubled grid are past the limit of a timing.
    TooFine { ticks: u128 },
}

/// Why a timing has no half-cycle plan, if so.
pub fn half_end(artery: &Artery, timing: &Timing) -> Option<HalfEnd>
    requires shape { IsFor artery.now (base timing.now) }
    ensures { MatchOption result (IsReady artery.now timing.now) (λ end. Ends artery.now timing.now end) }
{
    if let Some(signal) = first_uneven(artery, timing) {
        return Some(HalfEnd::Uneven { signal });
    }
    if let Some(link) = first_unequal(artery, timing) {
        return Some(HalfEnd::Unequal { link });
    }
    match first_too_fine(artery, timing) {
        Some(ticks) => Some(HalfEnd::TooFine { ticks }),
        None => None,
    }
}
