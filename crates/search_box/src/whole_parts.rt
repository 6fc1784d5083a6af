//! The whole parts of the least and of the greatest block sum of a link.

ghost use Rattle.std.specs.Prelude.{◌≡◌, ◌+◌, ◌-◌, ◌*◌, ◌<◌, ◌^◌, pos, ◌-ℤ◌, unsigned_abs};
ghost use Rattle.progression.specs.Street.{count, signal_of, red_parts, clearance, HasLink, HasSignal};
ghost use Rattle.linear_theory.specs.Shifts.{shift_at, shift_count};
ghost use Rattle.search_box.specs.Sums.{parts_at};

use crate::shifts::{shift_at, shift_count};
use artery_model::Artery;
use progression::Dir;

/// The least shift of a signal, in parts.
fn least_shift(artery: &Artery, signal: u32) -> u32
    requires signal { HasSignal artery.now signal }
    ensures value { result ≡ shift_at artery.now signal 0 }
    ensures small { result < 7200 }
{
    prove!(1 <= shift_count(artery, signal));
    shift_at(artery, signal, 0)
}

/// The greatest shift of a signal, in parts.
fn greatest_shift(artery: &Artery, signal: u32) -> u32
    requires signal { HasSignal artery.now signal }
    ensures value { result ≡ shift_at artery.now signal (shift_count artery.now signal - 1) }
    ensures small { result < 7200 }
{
    let last = shift_count(artery, signal) - 1;
    shift_at(artery, signal, last)
}

fn difference(more: u32, less: u32) -> i128
    requires more { more < 2 ^ 15 }
    requires less { less < 2 ^ 15 }
    ensures value { result ≡ pos more -ℤ pos less }
    ensures size { unsigned_abs result < 2 ^ 15 }
{
    i128::from(more) - i128::from(less)
}

/// What the waits at a signal and the two shifts add at most: the greens that are left there and its greatest shift, less the
/// least shift of the link's other signal.
fn waits_and_shifts(artery: &Artery, signal: u32, other: u32) -> i128
    requires signal { HasSignal artery.now signal }
    requires other { HasSignal artery.now other }
    ensures value { result ≡ pos (2 * artery.now.head.parts + shift_at artery.now signal (shift_count artery.now signal - 1))
        -ℤ pos (red_parts artery.now Dir.Outbound signal + red_parts artery.now Dir.Inbound signal + shift_at artery.now other 0) }
    ensures size { unsigned_abs result < 2 ^ 15 }
{
    let more = 2 * artery.parts() + greatest_shift(artery, signal);
    let less = artery.red_out(signal) + artery.red_in(signal) + least_shift(artery, other);
    difference(more, less)
}

/// What the common reds and the clearances add: these are of the direction that arrives at each of the link's ends.
fn reds_and_clearances(artery: &Artery, link: u32) -> i128
    requires link { HasLink artery.now link }
    ensures value { result ≡ pos (signal_of artery.now link).red
        -ℤ pos ((signal_of artery.now (link + 1)).red + clearance artery.now Dir.Outbound (link + 1) + clearance artery.now Dir.Inbound link) }
    ensures size { unsigned_abs result < 2 ^ 15 }
{
    prove!(link < artery.count());
    let next = link + 1;
    let less = artery.common_red(next)
        + artery.clearance(Dir::Outbound, next)
        + artery.clearance(Dir::Inbound, link);
    difference(artery.common_red(link), less)
}

/// An end of the range of a block sum.
#[derive(Clone, Copy)]
pub(crate) enum End {
    Least,
    Greatest,
}

/// The parts in the block sum of a link at an end: in the least one the waits and the shift are greatest at the next signal, in
/// the greatest one at its own.
pub(crate) fn parts_at(artery: &Artery, end: End, link: u32) -> i128
    requires link { HasLink artery.now link }
    ensures value { result ≡ parts_at artery.now end link }
    ensures size { unsigned_abs result < 2 ^ 16 }
{
    prove!(link < artery.count());
    let fixed = reds_and_clearances(artery, link);
    match end {
        End::Least => fixed - waits_and_shifts(artery, link + 1, link),
        End::Greatest => fixed + waits_and_shifts(artery, link, link + 1),
    }
}
