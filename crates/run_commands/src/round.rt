//! The commands `round` and `round-from`.

ghost use Rattle.std.specs.Prelude.{◌≡◌, ◌++◌, None, Some, IfOk, OnOk, length, refl};
ghost use Rattle.progression.specs.{Street.{count, HasSignal}, Good.{Good}};
ghost use Rattle.diagram_print.specs.Measures.{band_line, weighted_line};
ghost use Rattle.run_inputs.specs.{Puts.{bytes_of}, Status.{IsOwnAnswer}};
ghost use Rattle.run_commands.specs.Round.{offset_line, offset_lines, plan_lines, unplanned_line, TellsRounded, RoundFinds, RoundFromFinds};
ghost use Rattle.run_commands.specs.Bound.{IsBound, BoundHolds};
ghost use Rattle.run_commands.specs.Ends.{IsRoundEnd, IsRoundFromEnd};
ghost use Rattle.run_commands.specs.declared.table.Usage.TheVariants as usage;

use crate::bound::bound_refusal;
use crate::check::rejected;
use crate::command::Command;
use crate::hold::fails;
use crate::lines::{UNTIMED, push_exact_line, push_failing_line, push_number_line, push_pair_line};
use crate::settings::Settings;
use artery_model::{Artery, Dir};
use certificate_checker::{check, limit_of};
use diagram_print::{dir_name, push_band_line, push_weighted_line};
use narrow_fraction::Memory;
use plan_text::{Certificate, write_timing};
use quantity_text::push_text;
use run_inputs::{Cause, Found, Timed, push_numbered, told};
use second_plan::{Plan, PlanEnd, PlanFault, plan};
use std::alloc::Global;
use time_space::{Timing, holds};
use timing_measures::signal_name;

/// Writes the line of a signal: its offset in seconds and its name.
fn push_offset(
    out: &mut Vec<u8>,
    artery: &Artery,
    offsets: &[u64],
    signal: u32,
) -> Result<(), Memory>
    requires shape { length offsets.now ≡ count artery.now }
    requires signal { HasSignal artery.now signal }
    ensures { OnOk result (out.new.items ≡ out.old.items ++ offset_line artery.now offsets.now signal) }
{
    push_numbered(out, "signal ", signal as u128)?;
    push_numbered(out, " offset ", offsets[signal as usize - 1] as u128)?;
    push_text(out, " ")?;
    push_text(out, signal_name(artery, signal))?;
    push_text(out, "\n")
}

/// Writes the lines of the signals, from the first on.
#[tactic(auto, using(crate::proofs::Pushed::pushed_next))]
fn push_offsets(out: &mut Vec<u8>, artery: &Artery, offsets: &[u64]) -> Result<(), Memory>
    requires { length offsets.now ≡ count artery.now }
    ensures { OnOk result (out.new.items ≡ out.old.items ++ offset_lines artery.now offsets.now) }
{
    for signal in 1..artery.count() + 1 {
        push_offset(out, artery, offsets, signal)?;
    }
    Ok(())
}

/// Writes the lines of the bands of a timing and of its weighted band.
pub fn push_measures(out: &mut Vec<u8>, artery: &Artery, timing: &Timing) -> Result<(), Memory>
    ensures { OnOk result (out.new.items ≡ out.old.items ++ (band_line artery.now timing.now Dir.Outbound ++ (band_line artery.now timing.now Dir.Inbound ++ weighted_line artery.now timing.now))) }
{
    push_band_line(out, artery, timing, Dir::Outbound)?;
    push_band_line(out, artery, timing, Dir::Inbound)?;
    push_weighted_line(out, artery, timing)
}

/// Writes the lines of a plan in whole seconds.
fn push_plan(out: &mut Vec<u8>, artery: &Artery, plan: &Plan) -> Result<(), Memory>
    requires { length plan.now.offsets.items ≡ count artery.now }
    ensures { OnOk result (out.new.items ≡ out.old.items ++ plan_lines artery.now plan.now.seconds plan.now.offsets.items plan.now.timing plan.now.loss) }
{
    push_number_line(out, "cycle ", plan.seconds as u128)?;
    push_offsets(out, artery, plan.offsets.as_slice())?;
    push_measures(out, artery, &plan.timing)?;
    push_exact_line(out, "loss ", plan.loss)
}

/// The lines of a plan in whole seconds.
fn plan_lines(alloc: Global, artery: &Artery, plan: &Plan) -> Result<Vec<u8>, Memory>
    requires { length plan.now.offsets.items ≡ count artery.now }
    ensures { IfOk result (λ lines. lines.items ≡ plan_lines artery.now plan.now.seconds plan.now.offsets.items plan.now.timing plan.now.loss) }
{
    let mut lines = Vec::new(alloc);
    push_plan(&mut lines, artery, plan)?;
    Ok(lines)
}

/// Writes the line of a direction in which no line crosses every signal.
fn push_no_line(out: &mut Vec<u8>, dir: Dir) -> Result<(), Memory>
    ensures { OnOk result (out.new.items ≡ out.old.items ++ unplanned_line (PlanEnd.NoLine dir)) }
{
    push_text(out, "no plan line ")?;
    push_text(out, dir_name(dir))?;
    push_text(out, "\n")
}

/// Writes the line of a certificate of which no plan is made. Where the loss leaves 128 bits it has the operands.
fn push_unplanned(out: &mut Vec<u8>, end: &PlanEnd) -> Result<(), Memory>
    ensures { OnOk result (out.new.items ≡ out.old.items ++ unplanned_line end.now) }
{
    match end {
        PlanEnd::NoTimingGiven => push_text(out, UNTIMED),
        PlanEnd::NoWholeCycle => push_text(out, "no plan cycle\n"),
        PlanEnd::TooFine { ticks } => push_number_line(out, "no plan ticks ", *ticks),
        PlanEnd::NoLine { dir } => push_no_line(out, *dir),
        PlanEnd::Fails(failing) => push_failing_line(out, "no plan ", *failing),
        PlanEnd::Wide(wide) => { push_pair_line(out, "no plan wide ", wide.left, " ", wide.right) }
    }
}

/// The answer where no plan is made: nothing is put.
pub fn unplanned(alloc: Global, end: PlanEnd) -> Result<Found, Memory>
    ensures cause { IfOk result (λ a. a.cause ≡ Cause.Unplanned end) }
    ensures lines { IfOk result (λ a. a.lines.items ≡ unplanned_line end) }
    ensures no_put { IfOk result (λ a. a.bytes ≡ None) }
{
    let mut lines = Vec::new(alloc);
    push_unplanned(&mut lines, &end)?;
    Ok(told(Cause::Unplanned(end), lines))
}

/// The answer with a plan, whose text is put.
fn tell_plan(alloc: Global, artery: &Artery, plan: &Plan) -> Result<Found, Memory>
    requires { length plan.now.offsets.items ≡ count artery.now }
    ensures { IfOk result (λ a. TellsRounded artery.now plan.now a.cause a.lines.items (bytes_of a)) }
{
    let lines = plan_lines(alloc, artery, plan)?;
    let bytes = write_timing(alloc, &plan.timing)?;
    Ok(Found {
        cause: Cause::Done,
        lines,
        bytes: Some(bytes),
    })
}

/// Makes a plan in whole seconds of the certificate's timing where it is accepted, with what it loses at most against every timing. Its
/// text is put; nothing is where the certificate is rejected, or where no plan is made.
fn round_timing(alloc: Global, artery: &Artery, certificate: &Certificate) -> Result<Found, Memory>
    ensures finds { IfOk result (λ a. RoundFinds artery.now certificate.now a.cause a.lines.items (bytes_of a)) }
    ensures ends { IfOk result (λ a. IsRoundEnd a.cause) }
    ensures answer { IfOk result (λ a. IsOwnAnswer a.cause (bytes_of a)) }
{
    if let Err(reject) = check(alloc, artery, certificate) {
        return rejected(alloc, artery, reject);
    }
    let (Some(timing), Some(claim)) = (&certificate.timing, limit_of(&certificate.claim)) else {
        return unplanned(alloc, PlanEnd::NoTimingGiven);
    };
    artery.known_valid();
    match plan(alloc, artery, claim, timing) {
        Ok(plan) => tell_plan(alloc, artery, &plan),
        Err(PlanFault::End(end)) => unplanned(alloc, end),
        Err(PlanFault::Memory) => Err(Memory),
    }
}

/// Tells the plan of a good timing, and what it loses against the claim of an accepted certificate.
fn plan_good(
    alloc: Global,
    artery: &Artery,
    certificate: &Certificate,
    timing: &Timing,
) -> Result<Found, Memory>
    requires accepted { IsBound artery.now certificate.now }
    requires claim { BoundHolds artery.now certificate.now.claim }
    requires good { Good artery.now timing.now }
    ensures finds { IfOk result (λ a. RoundFromFinds artery.now certificate.now (Some timing.now) a.cause a.lines.items (bytes_of a)) }
    ensures ends { IfOk result (λ a. IsRoundFromEnd a.cause) }
    ensures answer { IfOk result (λ a. IsOwnAnswer a.cause (bytes_of a)) }
{
    let Some(claim) = limit_of(&certificate.claim) else {
        unreachable!()
    };
    artery.known_valid();
    match plan(alloc, artery, claim, timing) {
        Ok(plan) => tell_plan(alloc, artery, &plan),
        Err(PlanFault::End(end)) => unplanned(alloc, end),
        Err(PlanFault::Memory) => Err(Memory),
    }
}

/// Makes such a plan of another timing that is good on the artery; what it loses is counted from what the certificate claims, where that is
/// accepted for the street or for the widened street. Nothing is put either where the timing breaks a rule, or where there is none.
fn round_other(
    alloc: Global,
    artery: &Artery,
    certificate: &Certificate,
    timed: &Timed,
) -> Result<Found, Memory>
    ensures finds { IfOk result (λ a. RoundFromFinds artery.now certificate.now timed.now.timing a.cause a.lines.items (bytes_of a)) }
    ensures ends { IfOk result (λ a. IsRoundFromEnd a.cause) }
    ensures answer { IfOk result (λ a. IsOwnAnswer a.cause (bytes_of a)) }
{
    if let Some(reject) = bound_refusal(alloc, artery, certificate)? {
        return rejected(alloc, artery, reject);
    }
    let Some(timing) = &timed.timing else {
        return unplanned(alloc, PlanEnd::NoTimingGiven);
    };
    if let Err(failing) = holds(artery, timing) {
        return fails(alloc, failing);
    }
    plan_good(alloc, artery, certificate, timing)
}

/// The command `round`.
pub struct Round;

impl Command for Round {
    type Reads = (Artery, (Certificate, ()));

    ghost usage = { usage.Round };

    fn find(
        alloc: Global,
        read: &(Artery, (Certificate, ())),
        _settings: &Settings<'_>,
    ) -> Result<Found, Memory> {
        let (artery, (certificate, ())) = read;
        round_timing(alloc, artery, certificate)
    }

    ghost same = { refl };
}

/// The command `round-from`.
pub struct RoundFrom;

impl Command for RoundFrom {
    type Reads = (Artery, (Certificate, (Timed, ())));

    ghost usage = { usage.RoundFrom };

    fn find(
        alloc: Global,
        read: &(Artery, (Certificate, (Timed, ()))),
        _settings: &Settings<'_>,
    ) -> Result<Found, Memory> {
        let (artery, (certificate, (timed, ()))) = read;
        round_other(alloc, artery, certificate, timed)
    }

    ghost same = { refl };
}
