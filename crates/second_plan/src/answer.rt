//! A plan, and why there is none.

ghost use Rattle.std.specs.Prelude.{◌≡◌};

use narrow_fraction::{Frac, Memory, Wide};
use progression::Dir;
use time_space::{Failing, Timing};

/// A plan in whole seconds.
#[derive(Drop)]
pub struct Plan {
    /// The cycle, in seconds.
    pub seconds: u64,
    /// How many seconds after signal 1's red each signal's begins, from 0 to `seconds - 1`.
    pub offsets: Vec<u64>,
    /// The same as a good timing, with its bands.
    pub timing: Timing,
    /// The claim less the weighted band of `timing`.
    pub loss: Frac,
}

/// Why there is no plan: of one timing, or over several cycles with free runs.
///
/// `plan` tells the first that applies, in this order. Over several cycles `NoWholeCycle` comes where none is left; `NoTimingGiven` and
/// `TooFine` where no cycle has a plan, and they are the first cycle's; the others are those of the best plan that
/// was found, and of these `Fails` comes before `NoLine`.
#[derive(Clone, Copy, PartialEq, Eq)]
pub enum PlanEnd {
    /// There is no timing to start from. `plan` never answers this: it is for callers that may have none.
    NoTimingGiven,
    /// No whole number of seconds is within the limits of the cycle; of cycles that are named, none of them is.
    NoWholeCycle,
    /// The first number of ticks of the plan, of its grid, its runs and its cycle, that is `2^80` or more. Where runs are free, the
    /// greatest that the limits of speed allow stand for them.
    TooFine { ticks: u128 },
    /// No line of this direction crosses every signal in green, where runs are free with none of them. Outbound is looked at first.
    NoLine { dir: Dir },
    /// The plan fails this rule, which is that of a least band.
    Fails(Failing),
    /// The claim less the plan's weighted band leaves 128 bits.
    Wide(Wide),
}

/// Why there is no plan, or want of memory.
#[derive(Clone, Copy, PartialEq, Eq)]
pub enum PlanFault {
    End(PlanEnd),
    Memory,
}

impl From<Memory> for PlanFault {
    ghost use Rattle.second_plan.specs.declared.answer.PlanFault.TheVariants as fault;

    ghost from_gives = { λ _ f. f ≡ fault.Memory };

    fn from(_: Memory) -> PlanFault {
        PlanFault::Memory
    }
}
