//! The search of an artery, with the cause and the certificate's text of what it finds.

ghost use Rattle.std.specs.Prelude.{◌≡◌, IfOk, IfSome};
ghost use Rattle.progression.specs.Good.{Good};
ghost use Rattle.work_meter.specs.Work.{IsBelow};
ghost use Rattle.branch_tree.specs.{Certified.{warrant_of}, Searched.{IsSearched}};
ghost use Rattle.run_commands.specs.{Searched.{IsTextOf, cause_of}, Ends.{IsVerdict}};

use artery_model::Artery;
use branch_tree::{Found, Searched, Verdict, search_and_check};
use narrow_fraction::Memory;
use plan_text::{Claim, write_second};
use run_inputs::Cause;
use std::alloc::Global;

/// What a search found, what its certificate claims, and the text of that certificate.
#[derive(Drop)]
pub struct Told {
    pub found: Found,
    pub claim: Claim,
    pub text: Vec<u8>,
}

/// The cause of a run that ends with this verdict.
pub fn cause_of(verdict: Verdict) -> Cause
    ensures value { result ≡ cause_of verdict }
    ensures verdict { IsVerdict result }
{
    match verdict {
        Verdict::Best => Cause::Done,
        Verdict::NoTiming => Cause::NoTiming,
        Verdict::Stopped(stop) => Cause::Stopped(stop),
    }
}

/// Searches for a best timing of the artery, within the limit of the units of work where there is one, and writes the certificate
/// of what is found once it was checked. The error is want of memory.
pub fn search_and_tell(alloc: Global, artery: &Artery, limit: Option<u64>) -> Result<Told, Memory>
    requires { IsBelow 0 limit }
    ensures searched { IfOk result (λ s. IsSearched artery.now limit s.found) }
    ensures claim { IfOk result (λ s. s.claim ≡ (warrant_of artery.now s.found).claim) }
    ensures text { IfOk result (λ s. IsTextOf s.text.items (warrant_of artery.now s.found)) }
    ensures good { IfOk result (λ s. IfSome s.found.timing (λ t. Good artery.now t)) }
{
    let Searched { found, certificate } = search_and_check(alloc, artery, limit)?;
    let text = write_second(alloc, &certificate)?;
    Ok(Told {
        found,
        claim: certificate.claim,
        text,
    })
}
