//! A command of the program.

ghost use Rattle.std.specs.Prelude.{◌≡◌, IfOk};
ghost use Rattle.run_inputs.specs.{Puts.{bytes_of}, Status.{IsOwnAnswer}};
ghost use Rattle.run_commands.specs.{Settings.{settings_view, InLimits}, Table.{readers, IsOwnEnd}, Requested.{FindsAs}};
ghost use Rattle.run_commands.specs.declared.table.Usage.{Usage};

use crate::settings::Settings;
use narrow_fraction::Memory;
use run_inputs::{Found, Inputs};
use std::alloc::Global;

/// A command: a type without values.
pub trait Command {
    /// What its files are read as, in their order.
    type Reads: Inputs;

    /// Its row.
    ghost usage: { Usage };

    /// What it finds of these values.
    fn find(alloc: Global, read: &Self::Reads, settings: &Settings<'_>) -> Result<Found, Memory>
        requires { InLimits (settings_view settings.now) }
        ensures finds { IfOk result (λ a. FindsAs usage (settings_view settings.now) a.cause a.lines.items (bytes_of a) Self.Reads.readers (Self.Reads.values read.now)) }
        ensures ends { IfOk result (λ a. IsOwnEnd usage a.cause) }
        ensures answer { IfOk result (λ a. IsOwnAnswer a.cause (bytes_of a)) };

    /// They have the readers of its row.
    ghost same: { Self.Reads.readers ≡ readers usage };
}
