//! The phases of the reds of a half-cycle plan.

ghost use Rattle.std.specs.Prelude.{◌≡◌, ◌↔◌, ◌<◌, ◌^◌, ◌/◌, IsTrue, pos, ◌-ℤ◌};
ghost use Rattle.progression.specs.{Street.{HasSignal}, declared.parts.Dir.TheVariants.{Outbound}, TimingRecord.{base}};
ghost use Rattle.time_space.specs.Sizes.{IsWithin};
ghost use Rattle.mirror_theory.specs.EqualBands.{IsCentred};
ghost use Rattle.half_integer.specs.Phases.{is_later};
ghost use Rattle.time_space.specs.Timing.{IsFor};

use artery_model::Artery;
use progression::Dir;
use time_space::{Timing, cycle, red_start, red_ticks, since_start};

/// Half of a red before 0.
fn before_zero(red: u128) -> i128
    requires small { red < 2 ^ 92 }
    ensures value { result ≡ pos 0 -ℤ pos (red / 2) }
    ensures small { IsWithin result }
{
    -((red / 2) as i128)
}

/// Whether the red of a signal isn't centred at 0. In an answer of `half` it is then centred half a cycle later.
pub fn half_of(artery: &Artery, timing: &Timing, signal: u32) -> bool
    requires signal { HasSignal artery.now signal }
    requires shape { IsFor artery.now (base timing.now) }
    ensures test { result ≡ is_later artery.now timing.now signal }
    ensures centred { IsTrue result ↔ ¬ IsCentred artery.now timing.now Outbound signal (pos 0) }
{
    let start = red_start(artery, timing, Dir::Outbound, signal);
    let red = red_ticks(artery, timing, Dir::Outbound, signal);
    red % 2 != 0 || since_start(cycle(artery, timing), start, before_zero(red)) != 0
}
