//! The command `check-links`.

ghost use Rattle.std.specs.Prelude.{◌≡◌, ◌≢◌, None, IfOk, refl};
ghost use Rattle.progression.specs.Street.{count};
ghost use Rattle.certificate_checker.specs.declared.reject.Reject.TheVariants as refusal;
ghost use Rattle.run_inputs.specs.{Puts.{bytes_of}, Status.{IsOwnAnswer}};
ghost use Rattle.run_commands.specs.{Check.{CheckLinksFinds}, CheckLines.{link_rejected_line}};
ghost use Rattle.run_commands.specs.Ends.{IsLinkCheckEnd};
ghost use Rattle.run_commands.specs.declared.table.Usage.TheVariants as usage;

use crate::check::accepted;
use crate::check_lines::push_link_rejected;
use crate::command::Command;
use crate::settings::Settings;
use artery_model::Artery;
use link_proof::{LinkCertificate, LinkReject, link_check};
use narrow_fraction::Memory;
use run_inputs::{Cause, Found, told};
use std::alloc::Global;

/// The answer where a certificate of link timings is rejected.
fn rejected(alloc: Global, artery: &Artery, reject: LinkReject) -> Result<Found, Memory>
    ensures cause { IfOk result (λ a. a.cause ≡ Cause.LinkRejected reject) }
    ensures kept { IfOk result (λ a. reject ≢ refusal.Memory) }
    ensures lines { IfOk result (λ a. a.lines.items ≡ link_rejected_line (count artery.now) reject) }
    ensures no_put { IfOk result (λ a. a.bytes ≡ None) }
{
    let mut lines = Vec::new(alloc);
    push_link_rejected(&mut lines, artery.count(), &reject)?;
    Ok(told(Cause::LinkRejected(reject), lines))
}

/// Checks the certificate of link timings for the artery: the answer has what is claimed where it is accepted, else the first
/// refusal.
fn check_link_certificate(
    alloc: Global,
    artery: &Artery,
    certificate: &LinkCertificate,
) -> Result<Found, Memory>
    ensures finds { IfOk result (λ a. CheckLinksFinds artery.now certificate.now a.cause a.lines.items) }
    ensures ends { IfOk result (λ a. IsLinkCheckEnd a.cause) }
    ensures answer { IfOk result (λ a. IsOwnAnswer a.cause (bytes_of a)) }
{
    match link_check(alloc, artery, certificate) {
        Ok(()) => accepted(alloc, certificate.claim),
        Err(reject) => rejected(alloc, artery, reject),
    }
}

/// The command `check-links`.
pub struct CheckLinks;

impl Command for CheckLinks {
    type Reads = (Artery, (LinkCertificate, ()));

    ghost usage = { usage.CheckLinks };

    fn find(
        alloc: Global,
        read: &(Artery, (LinkCertificate, ())),
        _settings: &Settings<'_>,
    ) -> Result<Found, Memory> {
        let (artery, (certificate, ())) = read;
        check_link_certificate(alloc, artery, certificate)
    }

    ghost same = { refl };
}
