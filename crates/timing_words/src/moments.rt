//! Moments within the cycle.

ghost use Rattle.std.specs.Prelude.{◌≡◌, ◌/◌, ◌%◌, ◌≤◌, ◌^◌, ◌++◌, OnOk, pos, ◌≤ℤ◌};
ghost use Rattle.timing_words.specs.Numbers.{moment_tenths, moment_text};

use crate::numbers::push_digit;
use artery_model::Artery;
use narrow_fraction::{Frac, Memory};
use time_space::Base;
use timing_measures::{RoundedNumber, cycle_seconds, round_to};

/// A moment within the cycle in seconds, to the nearest tenth; one that is rounded to the cycle is 0.
#[tactic(auto, using(crate::proofs::Rounds::same_tenths))]
fn rounded_moment(artery: &Artery, base: &Base, moment: Frac) -> RoundedNumber
    requires least { pos 0 ≤ℤ moment.num }
    requires denominator { moment.den ≤ 2 ^ 120 }
    ensures whole { result.whole ≡ moment_tenths artery.now base.now moment / 10 }
    ensures rest { result.rest ≡ moment_tenths artery.now base.now moment % 10 }
{
    let near = round_to(moment, 1);
    let whole = round_to(cycle_seconds(artery, base), 1);
    if near.whole == whole.whole && near.rest == whole.rest {
        return RoundedNumber { whole: 0, rest: 0 };
    }
    near
}

/// Writes a moment within the cycle in seconds, to the nearest tenth: one that is rounded to the whole cycle is 0, as its start. The error
/// is want of memory.
#[tactic(auto, unfolding(crate::specs::Numbers::moment_text))]
pub fn push_moment(
    out: &mut Vec<u8>,
    artery: &Artery,
    base: &Base,
    moment: Frac,
) -> Result<(), Memory>
    requires least { pos 0 ≤ℤ moment.num }
    requires denominator { moment.den ≤ 2 ^ 120 }
    ensures { OnOk result (out.new.items ≡ out.old.items ++ moment_text artery.now base.now moment) }
{
    push_digit(out, rounded_moment(artery, base, moment))
}
