//! The command `whole`.

ghost use Rattle.std.specs.Prelude.{◌≡◌, ◌++◌, ℕ, List, None, Some, IsTrue, IsFalse, IfOk, IfSome, OnOk, length, map, string_bytes, refl};
ghost use Rattle.progression.specs.{Street.{count, HasSignal}, Good.{Good, IsBase}, Best.{Bounded}, TimingRecord.{base}};
ghost use Rattle.certificate_checker.specs.Accepted.{limit_of};
ghost use Rattle.run_inputs.specs.{Puts.{bytes_of}, Status.{IsOwnAnswer}, Cycles.{seconds_of, Spell, AreSpelled}};
ghost use Rattle.run_commands.specs.declared.table.Usage.TheVariants as usage;
ghost use Rattle.run_commands.specs.Whole.{signal_line, signal_lines, way_lines, whole_lines, IsBasis, TellsWhole, WholeFinds};
ghost use Rattle.run_commands.specs.Bound.{IsBound};
ghost use Rattle.run_commands.specs.Ends.{IsRoundEnd};
ghost use Rattle.time_space.specs.Timing.{IsFor};

use crate::bound::bound_refusal;
use crate::check::rejected;
use crate::command::Command;
use crate::lines::{push_exact_line, push_number_line};
use crate::round::{push_measures, unplanned};
use crate::settings::Settings;
use artery_model::Artery;
use certificate_checker::limit_of;
use diagram_print::push_link_lines;
use narrow_fraction::{Frac, Memory};
use plan_text::{Certificate, write_timing};
use quantity_text::push_text;
use run_inputs::{Cause, Found, cycles_in, push_numbered};
use second_plan::{Plan, PlanEnd, PlanFault};
use std::alloc::Global;
use time_space::{Timing, holds};
use timing_measures::signal_name;
use whole_plan::{tried_cycles, whole_plan};

/// Writes the line of a signal: its pattern, its offset in seconds and its name.
fn push_signal(
    out: &mut Vec<u8>,
    artery: &Artery,
    timing: &Timing,
    offsets: &[u64],
    signal: u32,
) -> Result<(), Memory>
    requires shape { IsFor artery.now (base timing.now) }
    requires offsets { length offsets.now ≡ count artery.now }
    requires signal { HasSignal artery.now signal }
    ensures { OnOk result (out.new.items ≡ out.old.items ++ signal_line artery.now timing.now offsets.now signal) }
{
    push_numbered(out, "signal ", signal as u128)?;
    push_numbered(out, " pattern ", timing.pattern(signal) as u128)?;
    push_numbered(out, " offset ", offsets[signal as usize - 1] as u128)?;
    push_text(out, " ")?;
    push_text(out, signal_name(artery, signal))?;
    push_text(out, "\n")
}

/// Writes the lines of the signals, from the first on.
#[tactic(auto, using(crate::proofs::Pushed::pushed_next))]
fn push_signals(
    out: &mut Vec<u8>,
    artery: &Artery,
    timing: &Timing,
    offsets: &[u64],
) -> Result<(), Memory>
    requires shape { IsFor artery.now (base timing.now) }
    requires offsets { length offsets.now ≡ count artery.now }
    ensures { OnOk result (out.new.items ≡ out.old.items ++ signal_lines artery.now timing.now offsets.now) }
{
    for signal in 1..artery.count() + 1 {
        push_signal(out, artery, timing, offsets, signal)?;
    }
    Ok(())
}

/// Writes the lines of the speeds of a timing, of its bands and of its weighted band.
fn push_way(out: &mut Vec<u8>, artery: &Artery, timing: &Timing) -> Result<(), Memory>
    requires { IsBase artery.now (base timing.now) }
    ensures { OnOk result (out.new.items ≡ out.old.items ++ way_lines artery.now timing.now) }
{
    push_link_lines(out, artery, timing.base())?;
    push_measures(out, artery, timing)
}

/// Writes the lines of a plan.
fn push_plan(out: &mut Vec<u8>, artery: &Artery, plan: &Plan) -> Result<(), Memory>
    requires base { IsBase artery.now (base plan.now.timing) }
    requires offsets { length plan.now.offsets.items ≡ count artery.now }
    ensures { OnOk result (out.new.items ≡ out.old.items ++ whole_lines artery.now plan.now) }
{
    push_number_line(out, "cycle ", plan.seconds as u128)?;
    push_signals(out, artery, &plan.timing, plan.offsets.as_slice())?;
    push_way(out, artery, &plan.timing)?;
    push_exact_line(out, "loss ", plan.loss)
}

/// The answer with a plan, whose text is put.
fn tell_plan(alloc: Global, artery: &Artery, plan: &Plan) -> Result<Found, Memory>
    requires base { IsBase artery.now (base plan.now.timing) }
    requires offsets { length plan.now.offsets.items ≡ count artery.now }
    ensures { IfOk result (λ a. TellsWhole artery.now plan.now a.cause a.lines.items (bytes_of a)) }
{
    let mut lines = Vec::new(alloc);
    push_plan(&mut lines, artery, plan)?;
    let bytes = write_timing(alloc, &plan.timing)?;
    Ok(Found {
        cause: Cause::Done,
        lines,
        bytes: Some(bytes),
    })
}

/// The plan over the tried cycles, where this timing serves.
fn plan_from(
    alloc: Global,
    artery: &Artery,
    certificate: &Certificate,
    claim: Frac,
    start: &Option<Timing>,
    named: &[u64],
) -> Result<Found, Memory>
    requires basis { IsBasis artery.now certificate.now claim start.now }
    requires good { IfSome start.now (λ timing. Good artery.now timing) }
    ensures finds { IfOk result (λ a. WholeFinds artery.now certificate.now named.now a.cause a.lines.items (bytes_of a)) }
    ensures ends { IfOk result (λ a. IsRoundEnd a.cause) }
    ensures answer { IfOk result (λ a. IsOwnAnswer a.cause (bytes_of a)) }
{
    let cycles = tried_cycles(alloc, artery, &certificate.timing, named)?;
    match whole_plan(alloc, artery, start, claim, cycles.as_slice()) {
        Ok(plan) => tell_plan(alloc, artery, &plan),
        Err(PlanFault::End(end)) => unplanned(alloc, end),
        Err(PlanFault::Memory) => Err(Memory),
    }
}

/// Whether a timing is good for the street.
fn is_good(artery: &Artery, timing: &Timing) -> bool
    ensures good { IsTrue result → Good artery.now timing.now }
    ensures bad { IsFalse result → ¬ Good artery.now timing.now }
{
    match holds(artery, timing) {
        Ok(()) => true,
        Err(_) => false,
    }
}

/// Whether the timing serves where none is found: it is good for the street, or there is none.
fn serves(artery: &Artery, timing: &Option<Timing>) -> bool
    ensures good { IsTrue result → IfSome timing.now (λ t. Good artery.now t) }
    ensures bad { IsFalse result → IfSome timing.now (λ t. ¬ Good artery.now t) }
{
    match timing {
        Some(timing) => is_good(artery, timing),
        None => true,
    }
}

/// The plan with a claim: the certificate's timing serves where it is good for the street, which one of the widened street may not be.
fn plan_claimed(
    alloc: Global,
    artery: &Artery,
    certificate: &Certificate,
    claim: Frac,
    named: &[u64],
) -> Result<Found, Memory>
    requires accepted { IsBound artery.now certificate.now }
    requires claim { limit_of certificate.now.claim ≡ Some claim }
    requires bounded { Bounded artery.now claim }
    ensures finds { IfOk result (λ a. WholeFinds artery.now certificate.now named.now a.cause a.lines.items (bytes_of a)) }
    ensures ends { IfOk result (λ a. IsRoundEnd a.cause) }
    ensures answer { IfOk result (λ a. IsOwnAnswer a.cause (bytes_of a)) }
{
    artery.known_valid();
    if serves(artery, &certificate.timing) {
        return plan_from(
            alloc,
            artery,
            certificate,
            claim,
            &certificate.timing,
            named,
        );
    }
    plan_from(alloc, artery, certificate, claim, &None, named)
}

/// Makes the widest plan in whole seconds that is found over the tried cycles, and tells what it loses at most against every timing, by a certificate that is
/// accepted for the street or for the widened street. Its text is put; nothing is where the certificate is rejected, or where there is
/// no plan.
fn plan_whole(
    alloc: Global,
    artery: &Artery,
    certificate: &Certificate,
    named: &[u64],
) -> Result<Found, Memory>
    ensures finds { IfOk result (λ a. WholeFinds artery.now certificate.now named.now a.cause a.lines.items (bytes_of a)) }
    ensures ends { IfOk result (λ a. IsRoundEnd a.cause) }
    ensures answer { IfOk result (λ a. IsOwnAnswer a.cause (bytes_of a)) }
{
    if let Some(reject) = bound_refusal(alloc, artery, certificate)? {
        return rejected(alloc, artery, reject);
    }
    match limit_of(&certificate.claim) {
        Some(claim) => plan_claimed(alloc, artery, certificate, claim, named),
        None => unplanned(alloc, PlanEnd::NoTimingGiven),
    }
}

/// Makes it over the cycles that these words name.
fn plan_named(
    alloc: Global,
    artery: &Artery,
    certificate: &Certificate,
    words: &[String],
) -> Result<Found, Memory>
    requires words { Spell seconds_of (map string_bytes words.now) }
    ensures finds { IfOk result (λ a. (named : List ℕ) × AreSpelled seconds_of (map string_bytes words.now) named × WholeFinds artery.now certificate.now named a.cause a.lines.items (bytes_of a)) }
    ensures ends { IfOk result (λ a. IsRoundEnd a.cause) }
    ensures answer { IfOk result (λ a. IsOwnAnswer a.cause (bytes_of a)) }
{
    let named = cycles_in::<u64>(alloc, words)?;
    plan_whole(alloc, artery, certificate, named.as_slice())
}

/// The command `whole`.
pub struct Whole;

impl Command for Whole {
    type Reads = (Artery, (Certificate, ()));

    ghost usage = { usage.Whole };

    fn find(
        alloc: Global,
        read: &(Artery, (Certificate, ())),
        settings: &Settings<'_>,
    ) -> Result<Found, Memory> {
        let (artery, (certificate, ())) = read;
        plan_named(alloc, artery, certificate, settings.whole_cycles)
    }

    ghost same = { refl };
}
