//! The command `hold`.

ghost use Rattle.std.specs.Prelude.{◌≡◌, ◌++◌, None, IfOk, OnOk, refl};
ghost use Rattle.run_inputs.specs.{Puts.{bytes_of}, Status.{IsOwnAnswer}};
ghost use Rattle.run_commands.specs.{Hold.{HoldFinds, IsJudged, verdict_line}, Lines.{fails_line, holds_lines}};
ghost use Rattle.run_commands.specs.Ends.{IsTestEnd};
ghost use Rattle.run_commands.specs.declared.table.Usage.TheVariants as usage;

use crate::command::Command;
use crate::lines::{push_exact_line, push_failing_line};
use crate::settings::Settings;
use artery_model::Artery;
use narrow_fraction::{Frac, Memory};
use quantity_text::push_text;
use run_inputs::{Cause, Found, told};
use std::alloc::Global;
use time_space::{Failing, Timing, holds, value};

/// The lines of a timing that holds, with its weighted band.
fn holds_lines(alloc: Global, value: Frac) -> Result<Vec<u8>, Memory>
    ensures { IfOk result (λ lines. lines.items ≡ holds_lines value) }
{
    let mut lines = Vec::new(alloc);
    push_exact_line(&mut lines, "holds\nweighted ", value)?;
    Ok(lines)
}

/// The first rule that the timing breaks on the artery, None where it holds.
pub fn broken(artery: &Artery, timing: &Timing) -> Option<Failing>
    ensures { IsJudged artery.now timing.now result }
{
    match holds(artery, timing) {
        Ok(()) => None,
        Err(failing) => Some(failing),
    }
}

/// Writes the line of a verdict.
pub fn push_verdict(out: &mut Vec<u8>, broken: Option<Failing>) -> Result<(), Memory>
    ensures { OnOk result (out.new.items ≡ out.old.items ++ verdict_line broken) }
{
    match broken {
        Some(failing) => push_failing_line(out, "fails ", failing),
        None => push_text(out, "holds\n"),
    }
}

/// The answer where a timing breaks a rule: nothing is put.
pub fn fails(alloc: Global, failing: Failing) -> Result<Found, Memory>
    ensures cause { IfOk result (λ a. a.cause ≡ Cause.Fails failing) }
    ensures lines { IfOk result (λ a. a.lines.items ≡ fails_line failing) }
    ensures no_put { IfOk result (λ a. a.bytes ≡ None) }
{
    let mut lines = Vec::new(alloc);
    push_failing_line(&mut lines, "fails ", failing)?;
    Ok(told(Cause::Fails(failing), lines))
}

/// Tests the timing on the artery: the answer has its weighted band where it holds, else the first rule that it breaks.
fn hold_timing(alloc: Global, artery: &Artery, timing: &Timing) -> Result<Found, Memory>
    ensures finds { IfOk result (λ a. HoldFinds artery.now timing.now a.cause a.lines.items) }
    ensures ends { IfOk result (λ a. IsTestEnd a.cause) }
    ensures answer { IfOk result (λ a. IsOwnAnswer a.cause (bytes_of a)) }
{
    match holds(artery, timing) {
        Ok(()) => {
            let lines = holds_lines(alloc, value(artery, timing))?;
            Ok(told(Cause::Done, lines))
        }
        Err(failing) => fails(alloc, failing),
    }
}

/// The command `hold`.
pub struct Hold;

impl Command for Hold {
    type Reads = (Artery, (Timing, ()));

    ghost usage = { usage.Hold };

    fn find(
        alloc: Global,
        read: &(Artery, (Timing, ())),
        _settings: &Settings<'_>,
    ) -> Result<Found, Memory> {
        let (artery, (timing, ())) = read;
        hold_timing(alloc, artery, timing)
    }

    ghost same = { refl };
}
