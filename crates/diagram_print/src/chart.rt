//! The time-space diagram in text.

ghost use Rattle.std.specs.Prelude.{◌≡◌, ◌++◌, ◌<◌, ◌≤◌, ◌^◌, pos, unsigned_abs, IfOk, OnOk};
ghost use Rattle.progression.specs.Street.{count, HasSignal};
ghost use Rattle.diagram_print.specs.Diagram.{tick_at, arrow, mark_at, marks, all_marks, diagram_line, signal_rows, diagram_lines};
ghost use Rattle.time_space.specs.Timing.{IsFor};
ghost use Rattle.progression.specs.TimingRecord.{base};

use crate::measures::dir_name;
use artery_model::{Artery, Dir};
use narrow_fraction::Memory;
use quantity_text::{push_number, push_text};
use std::alloc::Global;
use time_space::{Timing, cycle, green, in_band};

/// How many characters stand for a cycle.
const PLACES: u32 = 60;

/// The tick of the character at a place, from 0.
fn tick_at(cycle: u128, place: u32) -> i128
    requires cycle { cycle < 2 ^ 92 }
    requires place { place < 60 }
    ensures value { result ≡ pos (tick_at cycle place) }
    ensures small { unsigned_abs result < 2 ^ 100 }
{
    (place as u128 * cycle / PLACES as u128) as i128
}

/// The character of a band.
fn arrow(dir: Dir) -> u8
    ensures { result ≡ arrow dir }
{
    match dir {
        Dir::Outbound => b'>',
        Dir::Inbound => b'<',
    }
}

/// The character at a place: red, in the band, or green beside it.
fn mark_at(artery: &Artery, timing: &Timing, dir: Dir, signal: u32, place: u32) -> u8
    requires shape { IsFor artery.now (base timing.now) }
    requires signal { HasSignal artery.now signal }
    requires place { place < 60 }
    ensures { result ≡ mark_at artery.now timing.now dir signal place }
{
    let tick = tick_at(cycle(artery, timing), place);
    let green = green(artery, timing, dir, signal, tick);
    let band = in_band(artery, timing, dir, signal, tick);
    match (green, band) {
        (false, _) => b'#',
        (true, true) => arrow(dir),
        (true, false) => b'=',
    }
}

/// Writes so many characters of a signal and direction, from the first on.
fn push_marks(
    out: &mut Vec<u8>,
    artery: &Artery,
    timing: &Timing,
    dir: Dir,
    signal: u32,
    places: u32,
) -> Result<(), Memory>
    requires shape { IsFor artery.now (base timing.now) }
    requires signal { HasSignal artery.now signal }
    requires places { places ≤ 60 }
    ensures { OnOk result (out.new.items ≡ out.old.items ++ marks artery.now timing.now dir signal places) }
{
    for place in 0..places {
        out.push(mark_at(artery, timing, dir, signal, place))?;
    }
    Ok(())
}

/// Writes the characters of a whole cycle.
#[tactic(auto, unfolding(crate::specs::Diagram::all_marks))]
fn push_all_marks(
    out: &mut Vec<u8>,
    artery: &Artery,
    timing: &Timing,
    dir: Dir,
    signal: u32,
) -> Result<(), Memory>
    requires shape { IsFor artery.now (base timing.now) }
    requires signal { HasSignal artery.now signal }
    ensures { OnOk result (out.new.items ≡ out.old.items ++ all_marks artery.now timing.now dir signal) }
{
    push_marks(out, artery, timing, dir, signal, PLACES)
}

/// Writes the line of a signal and direction.
fn push_diagram_line(
    out: &mut Vec<u8>,
    artery: &Artery,
    timing: &Timing,
    dir: Dir,
    signal: u32,
) -> Result<(), Memory>
    requires shape { IsFor artery.now (base timing.now) }
    requires signal { HasSignal artery.now signal }
    ensures { OnOk result (out.new.items ≡ out.old.items ++ diagram_line artery.now timing.now dir signal) }
{
    push_number(out, signal as u128)?;
    push_text(out, " ")?;
    push_text(out, dir_name(dir))?;
    push_text(out, " ")?;
    push_all_marks(out, artery, timing, dir, signal)?;
    push_text(out, "\n")
}

/// Writes the lines of a signal: outbound, then inbound.
fn push_signal_rows(
    out: &mut Vec<u8>,
    artery: &Artery,
    timing: &Timing,
    signal: u32,
) -> Result<(), Memory>
    requires shape { IsFor artery.now (base timing.now) }
    requires signal { HasSignal artery.now signal }
    ensures { OnOk result (out.new.items ≡ out.old.items ++ signal_rows artery.now timing.now signal) }
{
    push_diagram_line(out, artery, timing, Dir::Outbound, signal)?;
    push_diagram_line(out, artery, timing, Dir::Inbound, signal)
}

/// Writes the time-space diagram of a timing, as `diagram` has it.
pub fn push_diagram(out: &mut Vec<u8>, artery: &Artery, timing: &Timing) -> Result<(), Memory>
    requires { IsFor artery.now (base timing.now) }
    ensures { OnOk result (out.new.items ≡ out.old.items ++ diagram_lines artery.now timing.now) }
{
    for signal in (1..artery.count() + 1).rev() {
        push_signal_rows(out, artery, timing, signal)?;
    }
    Ok(())
}

/// The time-space diagram of a timing in text: for each signal, from the last down to the first, a line of the outbound
/// direction and one of the inbound direction. Each line has the signal's number, `out` or `in`, and 60 characters, which
/// stand for ticks from 0 on that divide a cycle evenly: `#` where the direction isn't green, `>` (outbound) or `<`
/// (inbound) where the tick is in the direction's band, and `=` where it is green beside the band. The error is want of
/// memory.
pub fn diagram(alloc: Global, artery: &Artery, timing: &Timing) -> Result<Vec<u8>, Memory>
    requires { IsFor artery.now (base timing.now) }
    ensures { IfOk result (λ lines. lines.items ≡ diagram_lines artery.now timing.now) }
{
    let mut lines = Vec::new(alloc);
    push_diagram(&mut lines, artery, timing)?;
    Ok(lines)
}
