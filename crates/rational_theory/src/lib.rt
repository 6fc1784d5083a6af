//! Rational numbers, for contracts and proofs alone: this crate has no code.
//!
//! A number is a `ℚ`: a numerator `x.num : ℤ` and a denominator `x.den : ℕ` above 0 with no common divisor, so that `≡` is
//! equality of rational numbers and each law is a plain equation for `rw`, `simp`, `cc` and `search`. The operations
//! are opaque: work with the laws, and name an operation on an `unfolding` line only where its two numbers are meant.
//! Begin with `specs/Rational.antt`. Definitions stand in `specs/`, laws in the file of the same name in `proofs/`, but for those few
//! that the definitions need, in `specs/laws/`. Import each by its file, as `use Rattle.rational_theory.proofs.Arithmetic.{*ℚ-+ℚ}`.
//!
//! - `Rational`: `ℚ`, `whole z`, `over z d` (lowest terms; `quotient n d` for two signs), `◌+ℚ◌`, `◌-ℚ◌`, `◌*ℚ◌`, `◌/ℚ◌`,
//!   `neg_ℚ`, `inverse_ℚ`, `abs_ℚ`, `◌≤ℚ◌`, `◌<ℚ◌`. As over the naturals, `a +ℚ b *ℚ c ≤ℚ d` needs no parentheses.
//! - `Arithmetic`: equality and the ring laws. `same_cross x y e` is `x ≡ y` from equal cross products; `rw (+ℚ_comm x y) p`;
//!   a law of one's own by `IsRatio` (a number in any terms): `same_ratio _ _ _ _ _ _ _ _ (sum_ratio ..) (own_ratio x) (omega arith)`.
//! - `Order`: `≤ℚ_trans x y z h k`, `≤ℚ-+ℚ x y z h` (`x +ℚ z ≤ℚ y +ℚ z`), `not-≤ℚ`, `*ℚ_cancel x y z n e` (by a `z` that is not 0),
//!   whole numbers (`whole-+ℤ a b`, `≤ℤ_whole a b h`), cross products (`(over_≤ℚ a b d e h k).1 cross`).
//! - `Lowest`: `over-own x : over x.num x.den ≡ x`, `over-lowest`, and that lowest terms are no greater (`num_size`, `den_size`).
//! - `Floor`: `floor_ℚ`, `ceil_ℚ`; `(floor_is z x).0 h` is `z ≤ℤ floor_ℚ x` from `whole z ≤ℚ x`, `ceil_is` likewise.
//! - `Compare`: `cmp_ℚ`, the order as `cmp` answers it, and what a test says: `lt_true x y e : x <ℚ y`, `le_says x y b e`.
//! - `Ring`: `ring s t ρ refl` decides an equation of sums and products, as
//!   `ring ((at 0 ⊕ at 1) ⊗ at 2) (at 0 ⊗ at 2 ⊕ at 1 ⊗ at 2) (x ∷ y ∷ z ∷ []) refl`.
//! - `Linear`: `linear facts slack s t ρ holds refl` proves `s ≤ℚ t` from multiples of facts, each `record { count; low; high }`.
//! - `Rows`: `dot`, `scale`, `add`, rows `coefs · x ≤ bound` (`IsMet x r`), `combine ks rs`. `combine_met ks rs x p h`: with
//!   multipliers of at least 0, a point that meets the rows meets their sum.
//! - `Shares`: numbers over one denominator, as `at_most_ticks`: compare ticks in place of fractions of a cycle.
//! - `Gcd`, `Coprime`, `Fractions`, `Integers`: the numbers below: `gcd` by Euclid's steps, Euclid's lemma (`Coprime-cancel`),
//!   lowest terms, and the laws of `ℤ` that std does not have (`*ℤ_assoc`, `*ℤ-+ℤ`).
#![tactic(auto)]
