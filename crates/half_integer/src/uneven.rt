//! Signals whose reds aren't one interval, and links whose directions take unequal times.

ghost use Rattle.std.specs.Prelude.{◌↔◌, ℕ, IsTrue, MatchOption};
ghost use Rattle.progression.specs.Street.{count, HasSignal, HasLink};
ghost use Rattle.half_integer.specs.Uneven.{IsSplit, IsUneven, IsFirstUneven, IsEqualLink, IsFirstUnequal};
ghost use Rattle.time_space.specs.Timing.{IsFor};
ghost use Rattle.progression.specs.TimingRecord.{base};

use crate::search::travel;
use artery_model::Artery;
use progression::Dir;
use time_space::Timing;

/// Whether the left turns go at different times under a pattern.
fn is_split(pattern: u32) -> bool
    ensures { IsTrue result ↔ IsSplit pattern }
{
    pattern == 1 || pattern == 2
}

/// Whether the two reds of a signal aren't one interval.
fn is_uneven(artery: &Artery, timing: &Timing, signal: u32) -> bool
    requires signal { HasSignal artery.now signal }
    requires shape { IsFor artery.now (base timing.now) }
    ensures { IsTrue result ↔ IsUneven artery.now timing.now signal }
{
    let left = artery.left_against(Dir::Outbound, signal);
    let other = artery.left_against(Dir::Inbound, signal);
    left != other || (left != 0 && is_split(timing.pattern(signal)))
}

/// The first signal whose two reds aren't one interval.
pub fn first_uneven(artery: &Artery, timing: &Timing) -> Option<u32>
    requires shape { IsFor artery.now (base timing.now) }
    ensures { MatchOption result ((i : ℕ) → HasSignal artery.now i → ¬ IsUneven artery.now timing.now i)
        (λ i. IsFirstUneven artery.now timing.now i) }
{
    for place in 0..artery.count() {
        if is_uneven(artery, timing, place + 1) {
            return Some(place + 1);
        }
    }
    None
}

/// Whether both directions take as long on a link.
fn is_equal_link(artery: &Artery, timing: &Timing, link: u32) -> bool
    requires link { HasLink artery.now link }
    requires shape { IsFor artery.now (base timing.now) }
    ensures { IsTrue result ↔ IsEqualLink artery.now timing.now link }
{
    travel(artery, timing, Dir::Outbound, link) == travel(artery, timing, Dir::Inbound, link)
}

/// The first link whose directions take unequal times.
pub fn first_unequal(artery: &Artery, timing: &Timing) -> Option<u32>
    requires shape { IsFor artery.now (base timing.now) }
    ensures { MatchOption result ((i : ℕ) → HasLink artery.now i → IsEqualLink artery.now timing.now i)
        (λ i. IsFirstUnequal artery.now timing.now i) }
{
    for link in 1..artery.count() {
        if !is_equal_link(artery, timing, link) {
            return Some(link);
        }
    }
    None
}
