//! The command `show`.

ghost use Rattle.std.specs.Prelude.{IfOk, refl};
ghost use Rattle.run_inputs.specs.{Puts.{bytes_of}, Status.{IsOwnAnswer}};
ghost use Rattle.run_commands.specs.Show.{Shows};
ghost use Rattle.run_commands.specs.Ends.{IsDone};
ghost use Rattle.run_commands.specs.declared.table.Usage.TheVariants as usage;

use crate::command::Command;
use crate::settings::Settings;
use artery_model::Artery;
use description_reader::print_artery;
use narrow_fraction::Memory;
use run_inputs::{Cause, Found, told};
use std::alloc::Global;

/// Writes the canonical description of the artery.
pub fn show_artery(alloc: Global, artery: &Artery) -> Result<Found, Memory>
    ensures finds { IfOk result (λ a. Shows artery.now a.cause a.lines.items) }
    ensures ends { IfOk result (λ a. IsDone a.cause) }
    ensures answer { IfOk result (λ a. IsOwnAnswer a.cause (bytes_of a)) }
{
    let lines = print_artery(alloc, artery)?;
    Ok(told(Cause::Done, lines))
}

/// The command `show`.
pub struct Show;

impl Command for Show {
    type Reads = (Artery, ());

    ghost usage = { usage.Show };

    fn find(alloc: Global, read: &(Artery, ()), _settings: &Settings<'_>) -> Result<Found, Memory> {
        let (artery, ()) = read;
        show_artery(alloc, artery)
    }

    ghost same = { refl };
}
