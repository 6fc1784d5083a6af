//! The command `solve`.

ghost use Rattle.std.specs.Prelude.{IfOk, refl};
ghost use Rattle.work_meter.specs.Work.{IsBelow};
ghost use Rattle.run_inputs.specs.{Puts.{With, bytes_of}, Status.{IsOwnAnswer}};
ghost use Rattle.run_commands.specs.Solve.{IsSolution};
ghost use Rattle.run_commands.specs.Ends.{IsVerdict};
ghost use Rattle.run_commands.specs.declared.table.Usage.TheVariants as usage;

use crate::command::Command;
use crate::searching::{Told, cause_of, search_and_tell};
use crate::settings::Settings;
use artery_model::Artery;
use diagram_print::report;
use narrow_fraction::Memory;
use run_inputs::Found;
use std::alloc::Global;

/// Searches for a best timing of the artery, within the limit where there is one. The certificate of what is found is checked, and its
/// text is put.
#[tactic(auto, using(crate::proofs::Ending::verdict_answer))]
fn solve_artery(alloc: Global, artery: &Artery, limit: Option<u64>) -> Result<Found, Memory>
    requires { IsBelow 0 limit }
    ensures finds { IfOk result (λ a. With (IsSolution artery.now limit a.cause a.lines.items) (bytes_of a)) }
    ensures ends { IfOk result (λ a. IsVerdict a.cause) }
    ensures answer { IfOk result (λ a. IsOwnAnswer a.cause (bytes_of a)) }
{
    let searched = search_and_tell(alloc, artery, limit)?;
    let lines = report(alloc, artery, &searched.found)?;
    let Told { found, text, .. } = searched;
    Ok(Found {
        cause: cause_of(found.verdict),
        lines,
        bytes: Some(text),
    })
}

/// The command `solve`.
pub struct Solve;

impl Command for Solve {
    type Reads = (Artery, ());

    ghost usage = { usage.Solve };

    fn find(alloc: Global, read: &(Artery, ()), settings: &Settings<'_>) -> Result<Found, Memory> {
        let (artery, ()) = read;
        solve_artery(alloc, artery, settings.limit)
    }

    ghost same = { refl };
}
