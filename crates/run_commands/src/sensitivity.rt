//! The command `sensitivity`.

ghost use Rattle.std.specs.Prelude.{IfOk, refl};
ghost use Rattle.work_meter.specs.Work.{IsBelow};
ghost use Rattle.run_inputs.specs.{Puts.{With, bytes_of}, Status.{IsOwnAnswer}};
ghost use Rattle.run_commands.specs.{Sensitivity.{IsSensitivity}, Ends.{IsDone}};
ghost use Rattle.run_commands.specs.declared.table.Usage.TheVariants as usage;

use crate::command::Command;
use crate::settings::Settings;
use artery_model::Artery;
use limit_sensitivity::{sensitivity_lines, sensitivity_rows, sensitivity_table};
use narrow_fraction::Memory;
use run_inputs::{Cause, Found};
use std::alloc::Global;

/// Searches the artery as it is and with each of its changes, each time within the limit of work. The table of what is found is put, and the
/// changes that gain are told.
fn search_changes(alloc: Global, artery: &Artery, limit: Option<u64>) -> Result<Found, Memory>
    requires { IsBelow 0 limit }
    ensures finds { IfOk result (λ a. With (IsSensitivity artery.now limit a.cause a.lines.items) (bytes_of a)) }
    ensures ends { IfOk result (λ a. IsDone a.cause) }
    ensures answer { IfOk result (λ a. IsOwnAnswer a.cause (bytes_of a)) }
{
    let rows = sensitivity_rows(alloc, artery, limit)?;
    let bytes = sensitivity_table(alloc, artery, rows.as_slice())?;
    let lines = sensitivity_lines(alloc, artery, rows.as_slice())?;
    Ok(Found {
        cause: Cause::Done,
        lines,
        bytes: Some(bytes),
    })
}

/// The command `sensitivity`.
pub struct Sensitivity;

impl Command for Sensitivity {
    type Reads = (Artery, ());

    ghost usage = { usage.Sensitivity };

    fn find(alloc: Global, read: &(Artery, ()), settings: &Settings<'_>) -> Result<Found, Memory> {
        let (artery, ()) = read;
        search_changes(alloc, artery, settings.limit)
    }

    ghost same = { refl };
}
