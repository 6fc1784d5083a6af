//! What the definitions promise of the opening tableau, for arteries and boxes of any size.

ghost use Rattle.std.specs.Prelude.{◌≡◌, ◌↔◌, ◌≤◌, ℕ, List, length, slice_index_or, Some, None};
ghost use Rattle.rational_theory.specs.Rational.{◌+ℚ◌, ◌*ℚ◌};
ghost use Rattle.progression.specs.{Street.{Street, count}, Speeds.{number}, declared.parts.Dir.TheVariants.{Outbound, Inbound}};
ghost use Rattle.artery_model.specs.Valid.{IsValid};
ghost use Rattle.linear_theory.specs.{Places.{width}, Boxes.{Area}, Names.{HasRow, name_of}};
ghost use Rattle.named_row.specs.declared.names.RowId.{RowId};
ghost use Rattle.loop_rows.specs.Following.{IsNextRow};
ghost use Rattle.simplex_theory.specs.Tableau.{goal_cell};
ghost use Rattle.program_builder.specs.{BoxRows.{rows_of, name_before, IsAmong}, RowOrder.{IsAscending, IsRowAt}, Opening.{opening}};
ghost use Rattle.program_builder.specs.{First.{IsFirstFor, first_of}, OpeningLaws.{wait_row}};

/// The list of an artery's rows is strictly ascending and holds exactly the rows that the artery has, and going from each
/// row to the next walks it.
pub fn law_rows_are_all()
    ensures ascending { (a : Street) → IsAscending (rows_of a) }
    ensures all { (a : Street) (r : RowId) → IsAmong (rows_of a) r ↔ HasRow a (name_of r.family r.index) }
    ensures next { (a : Street) (k : ℕ) (r : RowId) → k ≤ length (rows_of a) → IsNextRow a (name_before (rows_of a) k) (Some r) → IsRowAt a k r }
    ensures last { (a : Street) (k : ℕ) → k ≤ length (rows_of a) → IsNextRow a (name_before (rows_of a) k) None → k ≡ length (rows_of a) }
{}

/// The goal row of the opening is the row of signal 1's outbound wait and, as many times as the ratio, that of its inbound
/// wait.
#[tactic(auto, using(crate::proofs::OpeningLaws::opening_goal))]
pub fn law_goal_row()
    ensures { (a : Street) (box : Area) (k : ℕ) → IsValid a → k ≤ width (count a)
        → goal_cell (opening a box) k ≡ slice_index_or (wait_row a Outbound) k (number 0) +ℚ a.head.ratio *ℚ slice_index_or (wait_row a Inbound) k (number 0) }
{}

/// The tableau that the steps of a box begin from, whatever boxes are above it: it is dual feasible, and it stands for the box's
/// rows and the weighted band.
pub fn law_first()
    ensures { (a : Street) (box : Area) (above : List Area) → IsValid a → IsFirstFor a box (first_of a box above) }
{}
