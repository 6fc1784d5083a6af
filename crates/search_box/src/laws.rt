//! Laws over the definitions alone.

ghost use Rattle.std.specs.Prelude.{ℕ, ◌<◌, ◌≤◌, ◌↔◌};
ghost use Rattle.progression.specs.Street.{Street};
ghost use Rattle.artery_model.specs.Valid.{IsValid};
ghost use Rattle.linear_theory.specs.{Shifts.{shift_at, shift_count}, Counts.{IsStreet}};
ghost use Rattle.search_box.specs.Ranked.{IsShift, HasRank};

/// What the type of an artery keeps is all that the linear model asks of a street.
#[tactic(auto, using(crate::proofs::Streets::street_of))]
pub fn law_valid_street()
    ensures { (a : Street) → IsValid a → IsStreet a }
{}

/// The ranks of a signal, from 0 up, are those of the shifts of its allowed patterns: each of these shifts has a rank and
/// no other number has one, greater ranks have greater shifts, and there are at most four.
pub fn law_shifts_are_ranked()
    ensures ranked { (a : Street) (i n : ℕ) → IsShift a i n ↔ HasRank a i n }
    ensures rising { (a : Street) (i r s : ℕ) → r < s → s < shift_count a i → shift_at a i r < shift_at a i s }
    ensures few { (a : Street) (i : ℕ) → shift_count a i ≤ 4 }
{}
