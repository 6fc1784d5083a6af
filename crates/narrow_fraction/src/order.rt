//! The order of fractions and of quotients, and the traits that give it to `==`, `<` and `cmp`.

ghost use Rattle.std.specs.{Prelude.{◌≡◌}, Ordering.{MatchOrdering}};
ghost use Rattle.rational_theory.specs.{Rational.{◌<ℚ◌}, Compare.{cmp_ℚ}};

use crate::compare::compare_quotients;
use crate::frac::Frac;
use crate::quotient::Quotient;
use std::cmp::Ordering;

impl Frac {
    /// The order, exact at any two values.
    fn order(self, other: Frac) -> Ordering
        ensures value { result ≡ cmp_ℚ self other }
        ensures says { MatchOrdering result (self <ℚ other) (self ≡ other) (other <ℚ self) }
    {
        compare_quotients(self.num(), self.bottom(), other.num(), other.bottom())
    }
}

impl PartialEq for Frac {
    ghost use Rattle.rational_theory.specs.Compare.{cmp_ℚ};
    ghost use Rattle.rational_theory.proofs.Compare.{partial_eq_laws};
    ghost use Rattle.std.specs.Ordering.{eq_by_cmp};

    ghost eq = { eq_by_cmp cmp_ℚ };

    ghost laws = { partial_eq_laws };

    fn eq(&self, other: &Frac) -> bool {
        self.order(*other) == Ordering::Equal
    }
}

impl Eq for Frac {
    ghost use Rattle.rational_theory.proofs.Compare.{eq_laws};

    ghost laws = { eq_laws };
}

impl PartialOrd for Frac {
    ghost use Rattle.rational_theory.specs.Compare.{cmp_ℚ};
    ghost use Rattle.rational_theory.proofs.Compare.{partial_laws};
    ghost use Rattle.std.specs.Ordering.{as_partial_cmp};

    ghost partial_cmp = { as_partial_cmp cmp_ℚ };

    ghost laws = { partial_laws };

    fn partial_cmp(&self, other: &Frac) -> Option<Ordering> {
        Some(self.order(*other))
    }
}

impl Ord for Frac {
    ghost use Rattle.rational_theory.specs.Compare.{cmp_ℚ};
    ghost use Rattle.rational_theory.proofs.Compare.{cmp_ℚ_total};
    ghost use Rattle.std.proofs.Common.{refl};

    ghost cmp = { cmp_ℚ };

    ghost total = { cmp_ℚ_total };

    ghost matches_partial_cmp = { λ x y. refl };

    ghost matches_eq = { λ x y. refl };

    fn cmp(&self, other: &Frac) -> Ordering {
        self.order(*other)
    }
}

impl PartialEq for Quotient {
    ghost use Rattle.rational_theory.specs.Compare.{cmp_ℚ};
    ghost use Rattle.rational_theory.proofs.Compare.{partial_eq_laws};
    ghost use Rattle.std.specs.Ordering.{eq_by_cmp};

    ghost eq = { eq_by_cmp cmp_ℚ };

    ghost laws = { partial_eq_laws };

    fn eq(&self, other: &Quotient) -> bool {
        self.order(other) == Ordering::Equal
    }
}

impl Eq for Quotient {
    ghost use Rattle.rational_theory.proofs.Compare.{eq_laws};

    ghost laws = { eq_laws };
}

impl PartialOrd for Quotient {
    ghost use Rattle.rational_theory.specs.Compare.{cmp_ℚ};
    ghost use Rattle.rational_theory.proofs.Compare.{partial_laws};
    ghost use Rattle.std.specs.Ordering.{as_partial_cmp};

    ghost partial_cmp = { as_partial_cmp cmp_ℚ };

    ghost laws = { partial_laws };

    fn partial_cmp(&self, other: &Quotient) -> Option<Ordering> {
        Some(self.order(other))
    }
}

impl Ord for Quotient {
    ghost use Rattle.rational_theory.specs.Compare.{cmp_ℚ};
    ghost use Rattle.rational_theory.proofs.Compare.{cmp_ℚ_total};
    ghost use Rattle.std.proofs.Common.{refl};

    ghost cmp = { cmp_ℚ };

    ghost total = { cmp_ℚ_total };

    ghost matches_partial_cmp = { λ x y. refl };

    ghost matches_eq = { λ x y. refl };

    fn cmp(&self, other: &Quotient) -> Ordering {
        self.order(other)
    }
}
