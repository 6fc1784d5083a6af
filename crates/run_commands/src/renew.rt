//! The command `renew`.

ghost use Rattle.std.specs.Prelude.{IfOk, refl};
ghost use Rattle.run_inputs.specs.{Puts.{With, bytes_of}, Status.{IsOwnAnswer}};
ghost use Rattle.run_commands.specs.Renew.{IsRenewal};
ghost use Rattle.run_commands.specs.Ends.{IsDone};
ghost use Rattle.run_commands.specs.declared.table.Usage.TheVariants as usage;

use crate::command::Command;
use crate::lines::text_lines;
use crate::settings::Settings;
use narrow_fraction::Memory;
use plan_text::{Certificate, write_second};
use run_inputs::{Cause, Found};
use std::alloc::Global;

/// The second text of the certificate is put.
fn renew_certificate(alloc: Global, certificate: &Certificate) -> Result<Found, Memory>
    ensures finds { IfOk result (λ a. With (IsRenewal certificate.now a.cause a.lines.items) (bytes_of a)) }
    ensures ends { IfOk result (λ a. IsDone a.cause) }
    ensures answer { IfOk result (λ a. IsOwnAnswer a.cause (bytes_of a)) }
{
    let bytes = write_second(alloc, certificate)?;
    let lines = text_lines(alloc, "renewed\n")?;
    Ok(Found {
        cause: Cause::Done,
        lines,
        bytes: Some(bytes),
    })
}

/// The command `renew`.
pub struct Renew;

impl Command for Renew {
    type Reads = (Certificate, ());

    ghost usage = { usage.Renew };

    fn find(
        alloc: Global,
        read: &(Certificate, ()),
        _settings: &Settings<'_>,
    ) -> Result<Found, Memory> {
        let (certificate, ()) = read;
        renew_certificate(alloc, certificate)
    }

    ghost same = { refl };
}
