//! The command `explain`.

ghost use Rattle.std.specs.Prelude.{IfOk, refl};
ghost use Rattle.run_inputs.specs.{Puts.{bytes_of}, Status.{IsOwnAnswer}};
ghost use Rattle.run_commands.specs.{Explain.{ExplainFinds}, Ends.{IsExplainEnd}};
ghost use Rattle.run_commands.specs.declared.table.Usage.TheVariants as usage;

use crate::command::Command;
use crate::settings::Settings;
use file_words::explained;
use narrow_fraction::Memory;
use run_inputs::{AnyFile, Found};
use std::alloc::Global;

/// Tells what the bytes of a file are and what stands in it, or what is wrong with it.
fn explain_bytes(alloc: Global, bytes: &[u8]) -> Result<Found, Memory>
    ensures finds { IfOk result (λ a. ExplainFinds bytes.now a.cause a.lines.items) }
    ensures ends { IfOk result (λ a. IsExplainEnd a.cause) }
    ensures answer { IfOk result (λ a. IsOwnAnswer a.cause (bytes_of a)) }
{
    explained(alloc, bytes)
}

/// The command `explain`.
pub struct Explain;

impl Command for Explain {
    type Reads = (AnyFile, ());

    ghost usage = { usage.Explain };

    fn find(
        alloc: Global,
        read: &(AnyFile, ()),
        _settings: &Settings<'_>,
    ) -> Result<Found, Memory> {
        let (file, ()) = read;
        explain_bytes(alloc, file.bytes.as_slice())
    }

    ghost same = { refl };
}
