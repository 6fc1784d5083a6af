//! The command `sheet`.

ghost use Rattle.std.specs.Prelude.{◌≡◌, IfOk, refl};
ghost use Rattle.progression.specs.Street.{count};
ghost use Rattle.run_inputs.specs.{Puts.{bytes_of}, Status.{IsOwnAnswer}};
ghost use Rattle.run_commands.specs.{Ends.{IsDrawingEnd}, Sheet.{sheet_lines, TimingFinds, SheetFinds}};
ghost use Rattle.run_commands.specs.declared.table.Usage.TheVariants as usage;
ghost use Rattle.time_space.specs.Timing.{IsFor};
ghost use Rattle.progression.specs.TimingRecord.{base};

use crate::command::Command;
use crate::draw::untimed;
use crate::hold::{broken, fails, push_verdict};
use crate::settings::Settings;
use artery_model::Artery;
use description_reader::Reference;
use diagram_print::push_weighted_line;
use narrow_fraction::Memory;
use run_inputs::{Cause, Found, Timed};
use std::alloc::Global;
use time_space::{Failing, Timing};
use timing_sheet::{push_facts, sheet};

/// The lines of the table of a timing that breaks this rule first, or none.
fn sheet_lines(
    alloc: Global,
    artery: &Artery,
    timing: &Timing,
    broken: Option<Failing>,
) -> Result<Vec<u8>, Memory>
    requires { IsFor artery.now (base timing.now) }
    ensures { IfOk result (λ lines. lines.items ≡ sheet_lines artery.now timing.now broken) }
{
    let mut lines = Vec::new(alloc);
    push_facts(&mut lines, artery, timing)?;
    push_weighted_line(&mut lines, artery, timing)?;
    push_verdict(&mut lines, broken)?;
    Ok(lines)
}

/// The table of a timing with as many signals as the artery has.
fn sheet_shaped(
    alloc: Global,
    artery: &Artery,
    timing: &Timing,
    reference: Reference,
) -> Result<Found, Memory>
    requires { IsFor artery.now (base timing.now) }
    ensures finds { IfOk result (λ a. TimingFinds artery.now timing.now reference a.cause a.lines.items (bytes_of a)) }
    ensures ends { IfOk result (λ a. IsDrawingEnd a.cause) }
    ensures answer { IfOk result (λ a. IsOwnAnswer a.cause (bytes_of a)) }
{
    let lines = sheet_lines(alloc, artery, timing, broken(artery, timing))?;
    let bytes = sheet(alloc, artery, timing, reference)?;
    Ok(Found {
        cause: Cause::Done,
        lines,
        bytes: Some(bytes),
    })
}

/// The table of a timing, where it has as many signals as the artery.
#[tactic(auto, using(crate::proofs::Shaped::unshaped_found))]
fn sheet_any(
    alloc: Global,
    artery: &Artery,
    timing: &Timing,
    reference: Reference,
) -> Result<Found, Memory>
    ensures finds { IfOk result (λ a. TimingFinds artery.now timing.now reference a.cause a.lines.items (bytes_of a)) }
    ensures ends { IfOk result (λ a. IsDrawingEnd a.cause) }
    ensures answer { IfOk result (λ a. IsOwnAnswer a.cause (bytes_of a)) }
{
    if timing.count() != artery.count() {
        return fails(alloc, Failing::Shape);
    }
    sheet_shaped(alloc, artery, timing, reference)
}

/// Makes the table of the timing that the file has, good or not, with offsets and bands from the moment that the reference names; the answer
/// tells the cycle, the bands and the first rule that is broken. Nothing is put where the timing has another number of signals, or where there
/// is none. Of what a certificate claims nothing is checked.
fn sheet_timing(
    alloc: Global,
    artery: &Artery,
    timed: &Timed,
    reference: Reference,
) -> Result<Found, Memory>
    ensures finds { IfOk result (λ a. SheetFinds artery.now timed.now.timing reference a.cause a.lines.items (bytes_of a)) }
    ensures ends { IfOk result (λ a. IsDrawingEnd a.cause) }
    ensures answer { IfOk result (λ a. IsOwnAnswer a.cause (bytes_of a)) }
{
    match &timed.timing {
        Some(timing) => sheet_any(alloc, artery, timing, reference),
        None => untimed(alloc),
    }
}

/// The command `sheet`.
pub struct Sheet;

impl Command for Sheet {
    type Reads = (Artery, (Timed, ()));

    ghost usage = { usage.Sheet };

    fn find(
        alloc: Global,
        read: &(Artery, (Timed, ())),
        settings: &Settings<'_>,
    ) -> Result<Found, Memory> {
        let (artery, (timed, ())) = read;
        sheet_timing(alloc, artery, timed, settings.reference)
    }

    ghost same = { refl };
}
