//! The certificate of what a search of an artery found.

ghost use Rattle.std.specs.Prelude.{◌≡◌, ℕ, Option, IfOk};
ghost use Rattle.certificate_checker.specs.Accepted.{IsAccepted};
ghost use Rattle.branch_tree.specs.{Searches.{IsSearch}, Told.{IsCertifiable}};
ghost use Rattle.branch_tree.specs.Certified as certified;
ghost use Rattle.branch_tree.specs.Certified.{warrant_of};

use crate::artery::WholeBands;
use crate::found::Found;
use artery_model::Artery;
use box_search::certificate_for;
use certificate_model::Certificate;
use narrow_fraction::{Frac, Memory};
use std::alloc::Global;
use time_space::{Timing, value};

/// The weighted band of a timing, where there is one.
pub fn value_of(artery: &Artery, timing: &Option<Timing>) -> Option<Frac>
    ensures { result ≡ certified.value_of artery.now timing.now }
{
    match timing {
        Some(timing) => Some(value(artery, timing)),
        None => None,
    }
}

/// The certificate of an answer, as `certificate_for` makes it; the claimed value is the timing's weighted band. The certificate of an
/// answer that a search gave is accepted. The error is want of memory.
pub fn certificate_of(alloc: Global, artery: &Artery, found: &Found) -> Result<Certificate, Memory>
    requires { IsCertifiable found.now }
    ensures certificate { IfOk result (λ certificate. certificate ≡ warrant_of artery.now found.now) }
    ensures accepted { IfOk result (λ certificate. (limit : Option ℕ) → IsSearch artery.now limit found.now → IsAccepted artery.now certificate) }
{
    certificate_for(alloc, &WholeBands { artery }, found)
}
