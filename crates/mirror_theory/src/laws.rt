//! What the definitions promise.

ghost use Rattle.mirror_theory.specs.Promises.{HalfCyclesSuffice};

/// Reds centred in phase or half a cycle apart, on a grid twice as fine, give the widest equal bands of all offsets on all grids.
#[tactic(auto, using(crate::proofs::Kept::half_cycles_suffice))]
pub fn law_half_cycles_suffice()
    ensures { HalfCyclesSuffice }
{}
