//! The numbers of a claim.

ghost use Rattle.std.specs.Prelude.{◌≡◌};
ghost use Rattle.narrow_fraction.specs.Attempt.{attempt};
ghost use Rattle.certificate_checker.specs.{Accepted.{value_of, limit_of}, ClaimRefusals.{kept_refusal, bound_refusal, claim_refusal}};

use crate::reject::Reject;
use certificate_model::Claim;
use narrow_fraction::Frac;

/// The value that is claimed for the timing.
pub fn value_of(claim: &Claim) -> Option<Frac>
    ensures { result ≡ value_of claim.now }
{
    match claim {
        Claim::Best { value } => Some(*value),
        Claim::NoTiming => None,
        Claim::Stopped { value, .. } => *value,
    }
}

/// The number that no weighted band is claimed to exceed.
pub fn limit_of(claim: &Claim) -> Option<Frac>
    ensures { result ≡ limit_of claim.now }
{
    match claim {
        Claim::Best { value } => Some(*value),
        Claim::NoTiming => None,
        Claim::Stopped { bound, .. } => Some(*bound),
    }
}

/// Whether a timing of this value has the one that is claimed for it.
fn check_kept<F>(kept: Option<Frac>, claimed: Option<Frac>) -> Result<(), Reject<F>>
    ensures { result ≡ attempt (kept_refusal kept claimed) tt }
{
    let (Some(kept), Some(claimed)) = (kept, claimed) else {
        return Ok(());
    };
    if kept != claimed {
        return Err(Reject::ValueDiffers { kept, claimed });
    }
    Ok(())
}

/// Whether the claimed bound is at least the claimed value.
fn check_bound<F>(claim: &Claim) -> Result<(), Reject<F>>
    ensures { result ≡ attempt (bound_refusal claim.now) tt }
{
    let Claim::Stopped {
        bound,
        value: Some(value),
    } = claim
    else {
        return Ok(());
    };
    if *bound < *value {
        return Err(Reject::BoundBelow {
            bound: *bound,
            value: *value,
        });
    }
    Ok(())
}

/// Whether the numbers of a claim are right for a timing of this value, if there is one: the value first, then the bound.
pub fn check_claim<F: Drop>(kept: Option<Frac>, claim: &Claim) -> Result<(), Reject<F>>
    ensures { result ≡ attempt (claim_refusal kept claim.now) tt }
{
    check_kept(kept, value_of(claim))?;
    check_bound(claim)
}
