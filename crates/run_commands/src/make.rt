//! The command `make`.

ghost use Rattle.std.specs.Prelude.{◌≤◌, IfOk, refl};
ghost use Rattle.run_commands.specs.Make.{Makes};
ghost use Rattle.run_inputs.specs.{Puts.{bytes_of}, Status.{IsOwnAnswer}};
ghost use Rattle.artery_model.specs.Bounds.{least_signals, most_first_signals};
ghost use Rattle.run_commands.specs.Ends.{IsDone};
ghost use Rattle.run_commands.specs.declared.table.Usage.TheVariants as usage;

use crate::command::Command;
use crate::settings::Settings;
use crate::show::show_artery;
use narrow_fraction::Memory;
use run_inputs::Found;
use std::alloc::Global;
use workload_maker::make_artery;

/// Writes the canonical description of the artery that is made with so many signals, 2 to 16, from the seed.
fn make_description(alloc: Global, signals: u32, seed: u64) -> Result<Found, Memory>
    requires least { least_signals ≤ signals }
    requires most { signals ≤ most_first_signals }
    ensures finds { IfOk result (λ a. Makes signals seed a.cause a.lines.items) }
    ensures ends { IfOk result (λ a. IsDone a.cause) }
    ensures answer { IfOk result (λ a. IsOwnAnswer a.cause (bytes_of a)) }
{
    let artery = make_artery(alloc, signals, seed)?;
    show_artery(alloc, &artery)
}

/// The command `make`.
pub struct Make;

impl Command for Make {
    type Reads = ();

    ghost usage = { usage.Make };

    fn find(alloc: Global, read: &(), settings: &Settings<'_>) -> Result<Found, Memory> {
        let () = read;
        make_description(alloc, settings.signals, settings.seed)
    }

    ghost same = { refl };
}
