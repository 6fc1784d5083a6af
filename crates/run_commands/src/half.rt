//! The command `half`.

ghost use Rattle.std.specs.Prelude.{◌≡◌, ◌++◌, None, IfOk, OnOk, refl};
ghost use Rattle.progression.specs.Street.{count, HasSignal};
ghost use Rattle.run_inputs.specs.{Puts.{bytes_of}, Status.{IsOwnAnswer}};
ghost use Rattle.run_commands.specs.Half.{phase_name, phase_line, phase_lines, half_lines, ticks_line, end_line, TellsPlan, HalfFinds};
ghost use Rattle.run_commands.specs.Ends.{IsHalfEnd};
ghost use Rattle.run_commands.specs.declared.table.Usage.TheVariants as usage;
ghost use Rattle.time_space.specs.Timing.{IsFor};
ghost use Rattle.progression.specs.TimingRecord.{base};

use crate::command::Command;
use crate::hold::fails;
use crate::lines::{push_number_line, text_lines};
use crate::settings::Settings;
use artery_model::{Artery, Dir};
use diagram_print::push_measure_line;
use half_integer::{HalfEnd, HalfFault, half, half_of};
use narrow_fraction::Memory;
use plan_text::write_timing;
use quantity_text::push_text;
use run_inputs::{Cause, Found, push_numbered, told};
use std::alloc::Global;
use time_space::Timing;
use timing_measures::quotient;

fn phase_name(is_later: bool) -> &'static str
    ensures { result.now ≡ phase_name is_later }
{
    if is_later { "1" } else { "0" }
}

/// Writes the line of a signal: whether its red is centred with that of signal 1, or half a cycle later.
fn push_phase(
    out: &mut Vec<u8>,
    artery: &Artery,
    timing: &Timing,
    signal: u32,
) -> Result<(), Memory>
    requires shape { IsFor artery.now (base timing.now) }
    requires signal { HasSignal artery.now signal }
    ensures { OnOk result (out.new.items ≡ out.old.items ++ phase_line artery.now timing.now signal) }
{
    push_numbered(out, "signal ", signal as u128)?;
    push_text(out, " half ")?;
    push_text(out, phase_name(half_of(artery, timing, signal)))?;
    push_text(out, "\n")
}

/// Writes the lines of the signals, from the first on.
#[tactic(auto, using(crate::proofs::Pushed::pushed_next))]
fn push_phases(out: &mut Vec<u8>, artery: &Artery, timing: &Timing) -> Result<(), Memory>
    requires { IsFor artery.now (base timing.now) }
    ensures { OnOk result (out.new.items ≡ out.old.items ++ phase_lines artery.now timing.now) }
{
    for signal in 1..artery.count() + 1 {
        push_phase(out, artery, timing, signal)?;
    }
    Ok(())
}

/// The lines of a half-cycle plan: its band as a fraction of the cycle, and the phase of each signal.
fn half_lines(alloc: Global, artery: &Artery, timing: &Timing) -> Result<Vec<u8>, Memory>
    requires { IsFor artery.now (base timing.now) }
    ensures { IfOk result (λ lines. lines.items ≡ half_lines artery.now timing.now) }
{
    let mut lines = Vec::new(alloc);
    push_text(&mut lines, "equal band")?;
    let share = quotient(timing.band(Dir::Outbound), timing.base().cycle(artery));
    push_measure_line(&mut lines, share, 6)?;
    push_phases(&mut lines, artery, timing)?;
    Ok(lines)
}

/// Writes the line of so many ticks, too many for a timing.
pub fn push_ticks(out: &mut Vec<u8>, ticks: u128) -> Result<(), Memory>
    ensures { OnOk result (out.new.items ≡ out.old.items ++ ticks_line ticks) }
{
    push_number_line(out, "ticks ", ticks)
}

/// Writes the line of a timing that has no half-cycle plan.
fn push_end(out: &mut Vec<u8>, end: HalfEnd) -> Result<(), Memory>
    ensures { OnOk result (out.new.items ≡ out.old.items ++ end_line end) }
{
    match end {
        HalfEnd::Uneven { signal } => push_number_line(out, "uneven signal ", signal as u128),
        HalfEnd::Unequal { link } => push_number_line(out, "unequal link ", link as u128),
        HalfEnd::TooFine { ticks } => push_ticks(out, ticks),
    }
}

/// The answer where a timing has no half-cycle plan: nothing is put.
fn unmatched(alloc: Global, end: HalfEnd) -> Result<Found, Memory>
    ensures cause { IfOk result (λ a. a.cause ≡ Cause.Unmatched end) }
    ensures lines { IfOk result (λ a. a.lines.items ≡ end_line end) }
    ensures no_put { IfOk result (λ a. a.bytes ≡ None) }
{
    let mut lines = Vec::new(alloc);
    push_end(&mut lines, end)?;
    Ok(told(Cause::Unmatched(end), lines))
}

/// The answer with a half-cycle plan, whose text is put.
fn tell_plan(alloc: Global, artery: &Artery, made: &Timing) -> Result<Found, Memory>
    requires { IsFor artery.now (base made.now) }
    ensures { IfOk result (λ a. TellsPlan artery.now made.now a.cause a.lines.items (bytes_of a)) }
{
    let lines = half_lines(alloc, artery, made)?;
    let bytes = write_timing(alloc, made)?;
    Ok(Found {
        cause: Cause::Done,
        lines,
        bytes: Some(bytes),
    })
}

/// Finds the widest equal bands over all offsets of the timing, whose text is put. Nothing is put where there are none, and where a
/// rule of the base fails or the timing can't have such a plan.
fn half_cycle(alloc: Global, artery: &Artery, timing: &Timing) -> Result<Found, Memory>
    ensures finds { IfOk result (λ a. HalfFinds artery.now timing.now a.cause a.lines.items (bytes_of a)) }
    ensures ends { IfOk result (λ a. IsHalfEnd a.cause) }
    ensures answer { IfOk result (λ a. IsOwnAnswer a.cause (bytes_of a)) }
{
    match half(alloc, artery, timing) {
        Ok(Some(made)) => tell_plan(alloc, artery, &made),
        Ok(None) => {
            let lines = text_lines(alloc, "no equal band\n")?;
            Ok(told(Cause::Done, lines))
        }
        Err(HalfFault::Fails(failing)) => fails(alloc, failing),
        Err(HalfFault::End(end)) => unmatched(alloc, end),
        Err(HalfFault::Memory) => Err(Memory),
    }
}

/// The command `half`.
pub struct Half;

impl Command for Half {
    type Reads = (Artery, (Timing, ()));

    ghost usage = { usage.Half };

    fn find(
        alloc: Global,
        read: &(Artery, (Timing, ())),
        _settings: &Settings<'_>,
    ) -> Result<Found, Memory> {
        let (artery, (timing, ())) = read;
        half_cycle(alloc, artery, timing)
    }

    ghost same = { refl };
}
