//! The command `timing`.

ghost use Rattle.std.specs.Prelude.{◌≡◌, None, IfOk, refl};
ghost use Rattle.progression.specs.BaseRecord.{cycle};
ghost use Rattle.progression.specs.TimingRecord.{base};
ghost use Rattle.typed_plan.specs.Ends.{IsBelow};
ghost use Rattle.run_inputs.specs.{Puts.{bytes_of}, Status.{IsOwnAnswer}};
ghost use Rattle.run_commands.specs.{Half.{ticks_line}, Typed.{measured_lines, WritesTiming, TypedFinds}};
ghost use Rattle.run_commands.specs.Ends.{IsTypedEnd};
ghost use Rattle.run_commands.specs.declared.table.Usage.TheVariants as usage;

use crate::bands::push_widest;
use crate::command::Command;
use crate::half::push_ticks;
use crate::hold::{broken, push_verdict};
use crate::settings::Settings;
use artery_model::{Artery, Dir};
use description_reader::TypedPlan;
use diagram_print::push_weighted_line;
use narrow_fraction::Memory;
use plan_text::write_timing;
use run_inputs::{Cause, Found, refused_line, told};
use std::alloc::Global;
use typed_plan::{Measured, TypedFault, timing_of};

/// The lines of a plan's timing, but for the last.
fn measured_lines(alloc: Global, artery: &Artery, made: &Measured) -> Result<Vec<u8>, Memory>
    requires outbound { IsBelow (cycle artery.now (base made.now.timing)) made.now.outbound }
    requires inbound { IsBelow (cycle artery.now (base made.now.timing)) made.now.inbound }
    ensures { IfOk result (λ lines. lines.items ≡ measured_lines artery.now made.now) }
{
    let timing = &made.timing;
    let mut lines = Vec::new(alloc);
    push_widest(&mut lines, artery, timing, Dir::Outbound, made.outbound)?;
    push_widest(&mut lines, artery, timing, Dir::Inbound, made.inbound)?;
    push_weighted_line(&mut lines, artery, timing)?;
    Ok(lines)
}

/// Tells what was measured of a plan's timing and whether it holds, and writes it.
fn write_measured(alloc: Global, artery: &Artery, made: &Measured) -> Result<Found, Memory>
    requires outbound { IsBelow (cycle artery.now (base made.now.timing)) made.now.outbound }
    requires inbound { IsBelow (cycle artery.now (base made.now.timing)) made.now.inbound }
    ensures finds { IfOk result (λ a. WritesTiming artery.now made.now a.cause a.lines.items (bytes_of a)) }
    ensures ends { IfOk result (λ a. IsTypedEnd a.cause) }
    ensures answer { IfOk result (λ a. IsOwnAnswer a.cause (bytes_of a)) }
{
    let mut lines = measured_lines(alloc, artery, made)?;
    push_verdict(&mut lines, broken(artery, &made.timing))?;
    let bytes = write_timing(alloc, &made.timing)?;
    Ok(Found {
        cause: Cause::Done,
        lines,
        bytes: Some(bytes),
    })
}

/// The answer where a plan has so many ticks: nothing is put.
fn too_fine(alloc: Global, ticks: u128) -> Result<Found, Memory>
    ensures cause { IfOk result (λ a. a.cause ≡ Cause.TooFine ticks) }
    ensures lines { IfOk result (λ a. a.lines.items ≡ ticks_line ticks) }
    ensures no_put { IfOk result (λ a. a.bytes ≡ None) }
{
    let mut lines = Vec::new(alloc);
    push_ticks(&mut lines, ticks)?;
    Ok(told(Cause::TooFine { ticks }, lines))
}

/// Makes the timing of a plan that is typed in seconds, whose text is put, and tells its bands and the first rule that it breaks, if there
/// is one. Nothing is put where the plan isn't of the artery, or where it has too many ticks.
fn typed_timing(alloc: Global, artery: &Artery, plan: &TypedPlan) -> Result<Found, Memory>
    ensures finds { IfOk result (λ a. TypedFinds artery.now plan.now a.cause a.lines.items (bytes_of a)) }
    ensures ends { IfOk result (λ a. IsTypedEnd a.cause) }
    ensures answer { IfOk result (λ a. IsOwnAnswer a.cause (bytes_of a)) }
{
    artery.known_valid();
    match timing_of(alloc, artery, plan) {
        Ok(made) => write_measured(alloc, artery, &made),
        Err(TypedFault::Refused(refusal)) => {
            let lines = refused_line(alloc, &refusal)?;
            Ok(told(Cause::Refused(refusal), lines))
        }
        Err(TypedFault::TooFine { ticks }) => too_fine(alloc, ticks),
        Err(TypedFault::Memory) => Err(Memory),
    }
}

/// The command `timing`.
pub struct TimingOf;

impl Command for TimingOf {
    type Reads = (Artery, (TypedPlan, ()));

    ghost usage = { usage.TimingOf };

    fn find(
        alloc: Global,
        read: &(Artery, (TypedPlan, ())),
        _settings: &Settings<'_>,
    ) -> Result<Found, Memory> {
        let (artery, (plan, ())) = read;
        typed_timing(alloc, artery, plan)
    }

    ghost same = { refl };
}
