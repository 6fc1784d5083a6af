//! The rows of an artery as they are loaded, kept for all of its boxes: their cells are the same for each, and most bounds.

ghost use Rattle.std.specs.Prelude.{◌≡◌, length, IfOk};
ghost use Rattle.progression.specs.Street.{count};
ghost use Rattle.linear_theory.specs.Places as places;
ghost use Rattle.linear_theory.specs.Boxes.{IsBoxOf};
ghost use Rattle.simplex_theory.specs.{DualSteps.{IsDual}, RowLists.{StandsForRows}};
ghost use Rattle.program_builder.specs.{Opening.{box_rows, goal_of}, Building.{IsMadeFor, IsLoadedFor, loaded_box, opened_box}};

use crate::building::enter_bands;
use crate::loading::{load_box, make_unloaded};
use artery_model::Artery;
use fraction_tableau::Tableau;
use loop_rows::box_bound;
use named_row::Row;
use narrow_fraction::Memory;
use search_box::SearchBox;
use std::alloc::Global;

/// The rows of a box and the goal as they are loaded, with no pivot: what the other calls here copy. `room` is as in `reset`. The
/// error is want of memory.
pub fn make_loaded(
    alloc: Global,
    artery: &Artery,
    area: &SearchBox,
    room: &mut Row,
) -> Result<Tableau, Memory>
    requires boxed { IsBoxOf artery.now area.now }
    requires room { length room.old.coefs ≡ places.width (count artery.now) }
    ensures loaded { IfOk result (λ loaded. loaded ≡ loaded_box artery.now area.now) }
    ensures room { IfOk result (λ _. length room.new.coefs ≡ places.width (count artery.now)) }
{
    let mut loaded = make_unloaded(alloc, artery)?;
    load_box(&mut loaded, artery, area, room);
    Ok(loaded)
}

/// Loads the rows of a box and the goal, as `load` does, from a tableau in which those of another box are loaded: only the
/// bounds that depend on the box are made anew. Takes no memory.
pub fn load_from(tableau: &mut Tableau, from: &Tableau, artery: &Artery, area: &SearchBox)
    requires boxed { IsBoxOf artery.now area.now }
    requires made { IsMadeFor artery.now tableau.old }
    requires loaded { IsLoadedFor artery.now from.now }
    ensures { tableau.new ≡ loaded_box artery.now area.now }
{
    tableau.copy_from(from);
    for row in 0..tableau.rows() {
        if let Some(bound) = box_bound(artery, area, tableau.name(row)) {
            tableau.set_bound(row, bound);
        }
    }
}

/// Makes what `reset` makes, from a tableau in which the rows of another box are loaded. Takes no memory.
pub fn reset_from(tableau: &mut Tableau, from: &Tableau, artery: &Artery, area: &SearchBox)
    requires boxed { IsBoxOf artery.now area.now }
    requires made { IsMadeFor artery.now tableau.old }
    requires loaded { IsLoadedFor artery.now from.now }
    ensures opened { tableau.new ≡ opened_box artery.now area.now }
    ensures dual { IsDual tableau.new.table }
    ensures stands { StandsForRows tableau.new.table (box_rows artery.now area.now) (goal_of artery.now) }
    ensures made { IsMadeFor artery.now tableau.new }
{
    artery.known_valid();
    load_from(tableau, from, artery, area);
    enter_bands(tableau, artery, area);
}
