//! The command `sweep`.

ghost use Rattle.std.specs.Prelude.{◌≡◌, IfOk, map, string_bytes, refl};
ghost use Rattle.work_meter.specs.Work.{IsBelow};
ghost use Rattle.run_inputs.specs.{Puts.{With, bytes_of}, Cycles.{cycle_of, Spell}, Status.{IsOwnAnswer}};
ghost use Rattle.run_commands.specs.Sweep.{rows_line, IsSweep};
ghost use Rattle.run_commands.specs.Ends.{IsDone};
ghost use Rattle.run_commands.specs.declared.table.Usage.TheVariants as usage;

use crate::command::Command;
use crate::lines::push_number_line;
use crate::settings::Settings;
use artery_model::Artery;
use cycle_sweep::{sweep_rows, sweep_table};
use narrow_fraction::{Frac, Memory};
use run_inputs::{Cause, Found, cycles_in};
use std::alloc::Global;

fn rows_line(alloc: Global, rows: usize) -> Result<Vec<u8>, Memory>
    ensures { IfOk result (λ line. line.items ≡ rows_line rows) }
{
    let mut line = Vec::new(alloc);
    push_number_line(&mut line, "rows ", rows as u128)?;
    Ok(line)
}

/// Searches the artery at each cycle that the words spell, each time within the limit of work. The table of what is found is put.
fn sweep_cycles(
    alloc: Global,
    artery: &Artery,
    limit: Option<u64>,
    words: &[String],
) -> Result<Found, Memory>
    requires limit { IsBelow 0 limit }
    requires words { Spell cycle_of (map string_bytes words.now) }
    ensures finds { IfOk result (λ a. With (IsSweep artery.now limit (map string_bytes words.now) a.cause a.lines.items) (bytes_of a)) }
    ensures ends { IfOk result (λ a. IsDone a.cause) }
    ensures answer { IfOk result (λ a. IsOwnAnswer a.cause (bytes_of a)) }
{
    let cycles = cycles_in::<Frac>(alloc, words)?;
    let rows = sweep_rows(alloc, artery, limit, cycles.as_slice())?;
    let bytes = sweep_table(alloc, artery, rows.as_slice())?;
    let lines = rows_line(alloc, words.len())?;
    Ok(Found {
        cause: Cause::Done,
        lines,
        bytes: Some(bytes),
    })
}

/// The command `sweep`.
pub struct Sweep;

impl Command for Sweep {
    type Reads = (Artery, ());

    ghost usage = { usage.Sweep };

    fn find(alloc: Global, read: &(Artery, ()), settings: &Settings<'_>) -> Result<Found, Memory> {
        let (artery, ()) = read;
        sweep_cycles(alloc, artery, settings.limit, settings.cycles)
    }

    ghost same = { refl };
}
