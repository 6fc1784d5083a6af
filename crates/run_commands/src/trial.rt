//! The command `trial`.

ghost use Rattle.std.specs.Prelude.{◌≡◌, ◌≤◌, ◌++◌, IfOk, OnOk, refl};
ghost use Rattle.work_meter.specs.Work.{IsBelow};
ghost use Rattle.run_commands.specs.Trial.{open_lines, claim_lines, trial_lines, IsTrial};
ghost use Rattle.run_inputs.specs.{Puts.{bytes_of}, Status.{IsOwnAnswer}};
ghost use Rattle.artery_model.specs.Bounds.{least_signals, most_first_signals};
ghost use Rattle.run_commands.specs.Ends.{IsVerdict};
ghost use Rattle.run_commands.specs.declared.table.Usage.TheVariants as usage;

use crate::command::Command;
use crate::lines::{push_exact_line, push_pair_line};
use crate::searching::{cause_of, search_and_tell};
use crate::settings::Settings;
use narrow_fraction::{Frac, Memory};
use plan_text::Claim;
use quantity_text::push_text;
use run_inputs::{Found, push_numbered, told};
use std::alloc::Global;
use workload_maker::make_artery;

/// Writes the lines of a stopped search, with its bound and the value where a timing was found.
fn push_open(out: &mut Vec<u8>, bound: Frac, value: Option<Frac>) -> Result<(), Memory>
    ensures { OnOk result (out.new.items ≡ out.old.items ++ open_lines bound value) }
{
    match value {
        Some(value) => { push_pair_line(out, "verdict open\nweighted ", value, "\nbound ", bound) }
        None => push_exact_line(out, "verdict open\nbound ", bound),
    }
}

/// Writes the lines of what a certificate claims.
fn push_claim(out: &mut Vec<u8>, claim: Claim) -> Result<(), Memory>
    ensures { OnOk result (out.new.items ≡ out.old.items ++ claim_lines claim) }
{
    match claim {
        Claim::Best { value } => push_exact_line(out, "verdict best\nweighted ", value),
        Claim::NoTiming => push_text(out, "verdict none\n"),
        Claim::Stopped { bound, value } => push_open(out, bound, value),
    }
}

/// Writes the lines of a trial whose certificate makes this claim and has a text of so many bytes.
fn push_trial(
    out: &mut Vec<u8>,
    signals: u32,
    seed: u64,
    claim: Claim,
    bytes: usize,
) -> Result<(), Memory>
    ensures { OnOk result (out.new.items ≡ out.old.items ++ trial_lines signals seed claim bytes) }
{
    push_numbered(out, "signals ", signals as u128)?;
    push_numbered(out, "\nseed ", seed as u128)?;
    push_text(out, "\n")?;
    push_claim(out, claim)?;
    push_numbered(out, "certificate ", bytes as u128)?;
    push_text(out, "\ncheck accepted\n")
}

/// The lines of a trial whose certificate makes this claim and has a text of so many bytes.
fn trial_lines(
    alloc: Global,
    signals: u32,
    seed: u64,
    claim: Claim,
    bytes: usize,
) -> Result<Vec<u8>, Memory>
    ensures { IfOk result (λ lines. lines.items ≡ trial_lines signals seed claim bytes) }
{
    let mut lines = Vec::new(alloc);
    push_trial(&mut lines, signals, seed, claim, bytes)?;
    Ok(lines)
}

/// Makes the artery with so many signals, 2 to 16, from the seed, searches for a best timing of it within the limit of the units of
/// work where there is one, and checks the certificate.
#[tactic(auto, using(crate::proofs::Ending::verdict_answer))]
fn search_made(alloc: Global, signals: u32, seed: u64, limit: Option<u64>) -> Result<Found, Memory>
    requires least { least_signals ≤ signals }
    requires most { signals ≤ most_first_signals }
    requires limit { IsBelow 0 limit }
    ensures finds { IfOk result (λ a. IsTrial signals seed limit a.cause a.lines.items) }
    ensures ends { IfOk result (λ a. IsVerdict a.cause) }
    ensures answer { IfOk result (λ a. IsOwnAnswer a.cause (bytes_of a)) }
{
    let artery = make_artery(alloc, signals, seed)?;
    let searched = search_and_tell(alloc, &artery, limit)?;
    let lines = trial_lines(alloc, signals, seed, searched.claim, searched.text.len())?;
    Ok(told(cause_of(searched.found.verdict), lines))
}

/// The command `trial`.
pub struct Trial;

impl Command for Trial {
    type Reads = ();

    ghost usage = { usage.Trial };

    fn find(alloc: Global, read: &(), settings: &Settings<'_>) -> Result<Found, Memory> {
        let () = read;
        search_made(alloc, settings.signals, settings.seed, settings.limit)
    }

    ghost same = { refl };
}
