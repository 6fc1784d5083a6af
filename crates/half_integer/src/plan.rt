//! Half-cycle plans, with their refusals.

ghost use Rattle.std.specs.Prelude.{◌≡◌, IfOk, IfErr, IfSome, MatchOption, length};
ghost use Rattle.progression.specs.{Street.{count}, Good.{IsBase}, TimingRecord.{base}};
ghost use Rattle.mirror_theory.specs.EqualBands.{HasNone, IsHalfCycleBest};
ghost use Rattle.half_integer.specs.Answers.{IsReady, Refuses};

use crate::build::half_plan;
use crate::end::{HalfEnd, half_end};
use artery_model::Artery;
use std::alloc::Global;
use time_space::{Failing, Timing, base_holds};

/// Why there is no answer.
#[derive(Clone, Copy, Debug, PartialEq, Eq)]
pub enum HalfFault {
    /// The first rule of a base that the timing's breaks.
    Fails(Failing),
    /// The base keeps its rules, and the timing has no half-cycle plan.
    End(HalfEnd),
    /// There was no memory.
    Memory,
}

/// The widest equal bands that a timing's patterns, cycle and runs have with any offsets (Morgan and Little 1964), or None where
/// they have none.
///
/// The answer has these numbers on a grid twice as fine. The red of signal 1 is centred at 0, and each other red at 0 or half a
/// cycle later, which `half_of` tells.
pub fn half(alloc: Global, artery: &Artery, timing: &Timing) -> Result<Option<Timing>, HalfFault>
    ensures base { IfOk result (λ found. IsBase artery.now (base timing.now)) }
    ensures ready { IfOk result (λ found. IsReady artery.now timing.now) }
    ensures best { IfOk result (λ found. MatchOption found (HasNone artery.now timing.now) (λ s. IsHalfCycleBest artery.now timing.now s)) }
    ensures shape { IfOk result (λ found. IfSome found (λ s. length s.patterns ≡ count artery.now)) }
    ensures refused { IfErr result (λ fault. Refuses artery.now timing.now fault) }
{
    if let Err(failing) = base_holds(artery, timing) {
        return Err(HalfFault::Fails(failing));
    }
    if let Some(end) = half_end(artery, timing) {
        return Err(HalfFault::End(end));
    }
    let head = artery.head();
    let unit = timing.unit();
    let patterns = timing.patterns();
    match half_plan(alloc, artery, timing) {
        Ok(found) => Ok(found),
        Err(_) => Err(HalfFault::Memory),
    }
}
