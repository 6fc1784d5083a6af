//! The opening tableau of a box.

ghost use Rattle.std.specs.Prelude.{◌≡◌, length, IfOk, false};
ghost use Rattle.progression.specs.Street.{count};
ghost use Rattle.linear_theory.specs.Places as places;
ghost use Rattle.linear_theory.specs.Boxes.{IsBoxOf};
ghost use Rattle.simplex_theory.specs.{DualSteps.{IsDual}, RowLists.{StandsForRows}};
ghost use Rattle.program_builder.specs.{Opening.{box_rows, goal_of}, Building.{IsMadeFor, loaded_box, opened_box}};

use crate::loading::{load_box, make_unloaded};
use crate::pivots::pivot;
use artery_model::Artery;
use fraction_tableau::Tableau;
use loop_rows::column_count;
use named_row::Row;
use narrow_fraction::Memory;
use search_box::SearchBox;
use std::alloc::Global;

/// Brings both bands into the basis: the outbound one in the row of the outbound wait at signal 1, the inbound one in that
/// of the inbound wait there.
pub fn enter_bands(tableau: &mut Tableau, artery: &Artery, area: &SearchBox)
    requires boxed { IsBoxOf artery.now area.now }
    requires loaded { tableau.old ≡ loaded_box artery.now area.now }
    ensures opened { tableau.new ≡ opened_box artery.now area.now }
    ensures dual { IsDual tableau.new.table }
    ensures stands { StandsForRows tableau.new.table (box_rows artery.now area.now) (goal_of artery.now) }
    ensures made { IsMadeFor artery.now tableau.new }
{
    artery.known_valid();
    tableau.known_named();
    pivot(tableau, 0, 0);
    pivot(tableau, artery.count(), 1);
}

/// Makes the state that `start` gives for a box, in a tableau that `start` made for this artery, spent or not. `room` has the
/// artery's width; afterwards it is an unspent row of that width with any contents. Takes no memory.
pub fn reset(tableau: &mut Tableau, artery: &Artery, area: &SearchBox, room: &mut Row)
    requires boxed { IsBoxOf artery.now area.now }
    requires made { IsMadeFor artery.now tableau.old }
    requires room { length room.old.coefs ≡ places.width (count artery.now) }
    ensures opened { tableau.new ≡ opened_box artery.now area.now }
    ensures dual { IsDual tableau.new.table }
    ensures stands { StandsForRows tableau.new.table (box_rows artery.now area.now) (goal_of artery.now) }
    ensures made { IsMadeFor artery.now tableau.new }
    ensures room { length room.new.coefs ≡ places.width (count artery.now) }
    ensures unspent { room.new.spent ≡ false }
{
    artery.known_valid();
    load_box(tableau, artery, area, room);
    enter_bands(tableau, artery, area);
}

/// The opening tableau of a box: every row that the artery has, in the order of their names, with the weighted band as its
/// goal, after the two pivots that bring the bands into the basis. It is dual feasible, and no number leaves 128 bits. The
/// error is want of memory.
pub fn start(alloc: Global, artery: &Artery, area: &SearchBox) -> Result<Tableau, Memory>
    requires boxed { IsBoxOf artery.now area.now }
    ensures opened { IfOk result (λ tableau. tableau ≡ opened_box artery.now area.now) }
    ensures dual { IfOk result (λ tableau. IsDual tableau.table) }
    ensures stands { IfOk result (λ tableau. StandsForRows tableau.table (box_rows artery.now area.now) (goal_of artery.now)) }
    ensures made { IfOk result (λ tableau. IsMadeFor artery.now tableau) }
{
    let mut tableau = make_unloaded(alloc, artery)?;
    let mut room = Row::zero(alloc, column_count(artery))?;
    reset(&mut tableau, artery, area, &mut room);
    Ok(tableau)
}
