//! A law over the definitions alone.

ghost use Rattle.std.specs.Prelude.{◌≡◌, None};
ghost use Rattle.progression.specs.Street.{Street};
ghost use Rattle.artery_model.specs.{Limits.{artery_fault}, Valid.{IsValid}};

/// Parts without a fault are a valid artery: what the type keeps is no more than the list of tests says.
#[tactic(auto, using(crate::proofs::Validity::valid_of))]
pub fn law_no_fault_is_valid()
    ensures { (a : Street) → artery_fault a ≡ None → IsValid a }
{}
