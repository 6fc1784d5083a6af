//! What the type of an artery says of its root box, without making it.

ghost use Rattle.std.specs.Prelude.{ℕ, ◌≤◌, IsTrue};
ghost use Rattle.progression.specs.Street.{HasSignal};
ghost use Rattle.linear_theory.specs.Shifts.{shift_count};
ghost use Rattle.box_search.specs.Searchable.{IsSearchable};

use artery_model::Artery;
use search_box::shift_count;

/// Whether each signal has a shift, as each does.
fn have_shifts(artery: &Artery) -> bool
    ensures have { IsTrue result }
    ensures some { (i : ℕ) → HasSignal artery.now i → 1 ≤ shift_count artery.now i }
{
    for signal in 1..artery.count() + 1 {
        prove!(1 <= shift_count(artery, signal));
    }
    true
}

/// That the boxes of an artery can be searched, as its type keeps it: a fact for proofs, and nothing is done.
pub fn known_searchable(artery: &Artery)
    ensures { IsSearchable artery.now }
{
    // its contract says that the artery is valid
    artery.known_valid();
    prove!(have_shifts(artery));
}
