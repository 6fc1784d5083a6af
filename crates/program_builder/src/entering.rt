//! The entry of a box.

ghost use Rattle.std.specs.Prelude.{◌≡◌, length, is_none, false, if◌then◌else◌};
ghost use Rattle.progression.specs.Street.{count};
ghost use Rattle.linear_theory.specs.Places as places;
ghost use Rattle.linear_theory.specs.Boxes.{IsBoxOf};
ghost use Rattle.simplex_theory.specs.{DualSteps.{IsDual}, RowLists.{StandsForRows}};
ghost use Rattle.program_builder.specs.{EntryRefusals.{entry_refusal}, Opening.{box_rows, goal_of, loaded}, Entry.{IsBasisOf, entered_box}};
ghost use Rattle.program_builder.specs.Building.{IsMadeFor, opened_box};

use crate::building::reset;
use crate::entry_pivots::enter_columns;
use crate::loading::load_box;
use artery_model::Artery;
use fraction_tableau::Tableau;
use named_row::Row;
use search_box::SearchBox;

/// Makes the entry of a box, in a tableau that `start` made for this artery, spent or not: the box's rows with the basic variables
/// that the list names. The list is that of a dual feasible tableau of the artery, on any box. False where an operation of the
/// entry's pivots leaves 128 bits, and then it is the state that `start` gives. `room` is as in `reset`. Takes no memory.
pub fn enter(
    tableau: &mut Tableau,
    artery: &Artery,
    area: &SearchBox,
    basis: &[u32],
    room: &mut Row,
) -> bool
    requires boxed { IsBoxOf artery.now area.now }
    requires made { IsMadeFor artery.now tableau.old }
    requires basis { IsBasisOf artery.now basis.now }
    requires room { length room.old.coefs ≡ places.width (count artery.now) }
    ensures outcome { result ≡ is_none (entry_refusal basis.now (loaded artery.now area.now)) }
    ensures state { tableau.new ≡ (if result then entered_box artery.now area.now basis.now else opened_box artery.now area.now) }
    ensures dual { IsDual tableau.new.table }
    ensures stands { StandsForRows tableau.new.table (box_rows artery.now area.now) (goal_of artery.now) }
    ensures made { IsMadeFor artery.now tableau.new }
    ensures room { length room.new.coefs ≡ places.width (count artery.now) }
    ensures unspent { room.new.spent ≡ false }
{
    load_box(tableau, artery, area, room);
    match enter_columns(tableau, basis, &mut []) {
        Ok(()) => true,
        Err(_) => {
            tableau.known_named();
            reset(tableau, artery, area, room);
            false
        }
    }
}
