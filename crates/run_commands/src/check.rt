//! The command `check`.

ghost use Rattle.std.specs.Prelude.{◌≡◌, ◌≢◌, None, IfOk, refl};
ghost use Rattle.progression.specs.Street.{count};
ghost use Rattle.run_inputs.specs.{Puts.{bytes_of}, Status.{IsOwnAnswer}};
ghost use Rattle.run_commands.specs.{Check.{CheckFinds}, CheckLines.{accepted_line, rejected_line}};
ghost use Rattle.run_commands.specs.Ends.{IsCheckEnd};
ghost use Rattle.run_commands.specs.declared.table.Usage.TheVariants as usage;

use crate::check_lines::{push_accepted, push_rejected};
use crate::command::Command;
use crate::settings::Settings;
use artery_model::Artery;
use certificate_checker::Reject;
use narrow_fraction::Memory;
use plan_text::{Certificate, Claim};
use run_inputs::{Cause, Found, told};
use std::alloc::Global;

/// The answer where a certificate that claims this is accepted.
pub fn accepted(alloc: Global, claim: Claim) -> Result<Found, Memory>
    ensures cause { IfOk result (λ a. a.cause ≡ Cause.Done) }
    ensures lines { IfOk result (λ a. a.lines.items ≡ accepted_line claim) }
{
    let mut lines = Vec::new(alloc);
    push_accepted(&mut lines, claim)?;
    Ok(told(Cause::Done, lines))
}

/// The answer where a certificate is rejected.
pub fn rejected(alloc: Global, artery: &Artery, reject: Reject) -> Result<Found, Memory>
    ensures cause { IfOk result (λ a. a.cause ≡ Cause.Rejected reject) }
    ensures kept { IfOk result (λ a. reject ≢ Reject.Memory) }
    ensures lines { IfOk result (λ a. a.lines.items ≡ rejected_line (count artery.now) reject) }
    ensures no_put { IfOk result (λ a. a.bytes ≡ None) }
{
    let mut lines = Vec::new(alloc);
    push_rejected(&mut lines, artery.count(), &reject)?;
    Ok(told(Cause::Rejected(reject), lines))
}

/// Checks the certificate for the artery: the answer has what is claimed where it is accepted, else the first refusal.
fn check_certificate(
    alloc: Global,
    artery: &Artery,
    certificate: &Certificate,
) -> Result<Found, Memory>
    ensures finds { IfOk result (λ a. CheckFinds artery.now certificate.now a.cause a.lines.items) }
    ensures ends { IfOk result (λ a. IsCheckEnd a.cause) }
    ensures answer { IfOk result (λ a. IsOwnAnswer a.cause (bytes_of a)) }
{
    match certificate_checker::check(alloc, artery, certificate) {
        Ok(()) => accepted(alloc, certificate.claim),
        Err(reject) => rejected(alloc, artery, reject),
    }
}

/// The command `check`.
pub struct Check;

impl Command for Check {
    type Reads = (Artery, (Certificate, ()));

    ghost usage = { usage.Check };

    fn find(
        alloc: Global,
        read: &(Artery, (Certificate, ())),
        _settings: &Settings<'_>,
    ) -> Result<Found, Memory> {
        let (artery, (certificate, ())) = read;
        check_certificate(alloc, artery, certificate)
    }

    ghost same = { refl };
}
