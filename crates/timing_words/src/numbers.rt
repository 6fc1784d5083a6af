//! Numbers to the nearest tenth.

ghost use Rattle.std.specs.{Prelude.{◌≡◌, ◌<◌, ◌≤◌, ◌^◌, ◌++◌, codes, OnOk, pos, ◌≤ℤ◌}, Fmt.{decimal}};
ghost use Rattle.timing_words.specs.Numbers.{tenths, seconds_text, percent_text};

use artery_model::{Artery, Dir};
use narrow_fraction::{Frac, Memory};
use quantity_text::{push_number, push_text};
use time_space::{Base, Timing};
use timing_measures::{RoundedNumber, quotient, round_to, seconds};

/// Writes a whole number and a digit behind the point.
pub(crate) fn push_digit(out: &mut Vec<u8>, number: RoundedNumber) -> Result<(), Memory>
    ensures { OnOk result (out.new.items ≡ out.old.items ++ (decimal number.whole ++ (codes "." ++ decimal number.rest))) }
{
    push_number(out, number.whole)?;
    push_text(out, ".")?;
    push_number(out, number.rest as u128)
}

/// Writes a number to the nearest tenth, and from the midst of two the greater. The error is want of memory.
pub fn push_tenths(out: &mut Vec<u8>, value: Frac) -> Result<(), Memory>
    requires least { pos 0 ≤ℤ value.num }
    requires denominator { value.den ≤ 2 ^ 120 }
    ensures { OnOk result (out.new.items ≡ out.old.items ++ tenths value) }
{
    push_digit(out, round_to(value, 1))
}

/// Writes ticks of a base as seconds, to the nearest tenth. The error is want of memory.
pub fn push_seconds(out: &mut Vec<u8>, base: &Base, ticks: u128) -> Result<(), Memory>
    requires { ticks < 2 ^ 126 }
    ensures { OnOk result (out.new.items ≡ out.old.items ++ seconds_text base.now ticks) }
{
    push_tenths(out, seconds(base, ticks))
}

/// Writes a direction's band in hundredths of the cycle, to the nearest tenth of one. The error is want of memory.
pub fn push_percent(
    out: &mut Vec<u8>,
    artery: &Artery,
    timing: &Timing,
    dir: Dir,
) -> Result<(), Memory>
    ensures { OnOk result (out.new.items ≡ out.old.items ++ percent_text artery.now timing.now dir) }
{
    let share = quotient(100 * timing.band(dir), timing.base().cycle(artery));
    push_tenths(out, share)
}
