//! The command `links`.

ghost use Rattle.std.specs.Prelude.{IfOk, refl};
ghost use Rattle.work_meter.specs.Work.{IsBelow};
ghost use Rattle.run_inputs.specs.{Puts.{With, bytes_of}, Status.{IsOwnAnswer}};
ghost use Rattle.run_commands.specs.Links.{IsLinkSolution};
ghost use Rattle.run_commands.specs.Ends.{IsVerdict};
ghost use Rattle.run_commands.specs.declared.table.Usage.TheVariants as usage;

use crate::command::Command;
use crate::searching::cause_of;
use crate::settings::Settings;
use artery_model::Artery;
use link_proof::write_links;
use multi_band::{SearchedLinks, link_report, search_links_and_check};
use narrow_fraction::Memory;
use run_inputs::Found;
use std::alloc::Global;

/// Searches for a best link timing of the artery, within the limit where there is one. The certificate of what is found is checked, and
/// its text is put.
#[tactic(auto, using(crate::proofs::Ending::verdict_answer))]
fn solve_links(alloc: Global, artery: &Artery, limit: Option<u64>) -> Result<Found, Memory>
    requires { IsBelow 0 limit }
    ensures finds { IfOk result (λ a. With (IsLinkSolution artery.now limit a.cause a.lines.items) (bytes_of a)) }
    ensures ends { IfOk result (λ a. IsVerdict a.cause) }
    ensures answer { IfOk result (λ a. IsOwnAnswer a.cause (bytes_of a)) }
{
    let searched = search_links_and_check(alloc, artery, limit)?;
    let text = write_links(alloc, &searched.certificate)?;
    let lines = link_report(alloc, artery, &searched.found)?;
    let SearchedLinks { found, .. } = searched;
    Ok(Found {
        cause: cause_of(found.verdict),
        lines,
        bytes: Some(text),
    })
}

/// The command `links`.
pub struct Links;

impl Command for Links {
    type Reads = (Artery, ());

    ghost usage = { usage.Links };

    fn find(alloc: Global, read: &(Artery, ()), settings: &Settings<'_>) -> Result<Found, Memory> {
        let (artery, ()) = read;
        solve_links(alloc, artery, settings.limit)
    }

    ghost same = { refl };
}
