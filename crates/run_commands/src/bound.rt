//! Whether a certificate bounds the timings of a street.

ghost use Rattle.std.specs.Prelude.{IfOk, IfSome, IfNone};
ghost use Rattle.certificate_checker.specs.Refusals.{IsFirstRefusal};
ghost use Rattle.speed_steps.specs.Moved.{widen};
ghost use Rattle.run_commands.specs.Bound.{IsBound, IsRefused, BoundHolds};

use artery_model::Artery;
use certificate_checker::{Reject, check};
use narrow_fraction::Memory;
use plan_text::Certificate;
use speed_steps::{Way, street_moved};
use std::alloc::Global;

/// Checks the certificate for the street, and only where it is rejected there for the street with its limits of speed moved outwards. None
/// comes exactly where one of both accepts it; where neither does, the refusal is the street's.
pub fn bound_refusal(
    alloc: Global,
    artery: &Artery,
    certificate: &Certificate,
) -> Result<Option<Reject>, Memory>
    ensures accepted { IfOk result (λ refusal. IfNone refusal (IsBound artery.now certificate.now)) }
    ensures holds { IfOk result (λ refusal. IfNone refusal (BoundHolds artery.now certificate.now.claim)) }
    ensures first { IfOk result (λ refusal. IfSome refusal (λ reject. IsFirstRefusal artery.now certificate.now reject)) }
    ensures other { IfOk result (λ refusal. IfSome refusal (λ reject. IsRefused (widen artery.now) certificate.now)) }
{
    artery.known_valid();
    let Err(reject) = check(alloc, artery, certificate) else {
        return Ok(None);
    };
    let wide = street_moved(alloc, Way::Outwards, artery)?;
    match check(alloc, &wide, certificate) {
        Ok(()) => Ok(None),
        Err(Reject::Memory) => Err(Memory),
        Err(_) => Ok(Some(reject)),
    }
}
