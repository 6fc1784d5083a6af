//! The best timing so far.

ghost use Rattle.std.specs.Prelude.{◌≡◌, ◌⊎◌, Some, true, false};
ghost use Rattle.rational_theory.specs.Rational.{◌≤ℚ◌, ◌<ℚ◌};
ghost use Rattle.branch_and_bound.specs.Incumbents.{IsReached, IsBeaten};

use narrow_fraction::Frac;

/// The best timing that was found, with its value.
#[derive(Drop)]
pub struct Incumbent<T> {
    pub value: Frac,
    pub timing: T,
}

/// Whether `a` is at most `b`.
#[tactic(auto, using(rational_theory::proofs::Compare::le_true, rational_theory::proofs::Compare::le_false))]
pub(crate) fn is_at_most(a: Frac, b: Frac) -> bool
    ensures yes { result ≡ true → a ≤ℚ b }
    ensures over { result ≡ false → b <ℚ a }
{
    a <= b
}

/// Whether a timing was found whose value is at least `value`.
pub(crate) fn is_reached<T>(incumbent: &Option<Incumbent<T>>, value: Frac) -> bool
    ensures yes { result ≡ true → IsReached value incumbent.now }
    ensures beaten { result ≡ false → IsBeaten incumbent.now value }
{
    match incumbent {
        Some(best) => is_at_most(value, best.value),
        None => false,
    }
}

/// Takes a timing in place of the best so far where its value is greater.
pub(crate) fn improve<T: Drop>(incumbent: &mut Option<Incumbent<T>>, value: Frac, timing: T)
    ensures { ((incumbent.new ≡ incumbent.old) × IsReached value incumbent.old)
        ⊎ ((incumbent.new ≡ Some (record { value = value; timing = timing })) × IsBeaten incumbent.old value) }
{
    if !is_reached(incumbent, value) {
        *incumbent = Some(Incumbent { value, timing });
    }
}
