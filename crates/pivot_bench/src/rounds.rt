//! Rounds: the opening tableau of an artery's root box, as a search makes it, and its steps to their end.

ghost use Rattle.std.specs.Prelude.{◌≡◌, IfOk, false};
ghost use Rattle.linear_theory.specs.Boxes.{IsBoxOf};
ghost use Rattle.simplex_theory.specs.DualSteps.{IsDual};
ghost use Rattle.program_builder.specs.Building.{IsLoadedFor};

use artery_model::Artery;
use dual_simplex::{Meter, solve_node};
use fraction_tableau::Tableau;
use loop_rows::column_count;
use named_row::Row;
use narrow_fraction::Memory;
use program_builder::{make_loaded, make_unloaded, reset_from};
use search_box::SearchBox;
use std::alloc::Global;

/// The opening of a box, in a tableau of its own.
fn opening(
    alloc: Global,
    rows: &Tableau,
    artery: &Artery,
    area: &SearchBox,
) -> Result<Tableau, Memory>
    requires boxed { IsBoxOf artery.now area.now }
    requires loaded { IsLoadedFor artery.now rows.now }
    ensures dual { IfOk result (λ tableau. IsDual tableau.table) }
    ensures unspent { IfOk result (λ tableau. tableau.spent ≡ false) }
{
    let mut tableau = make_unloaded(alloc, artery)?;
    reset_from(&mut tableau, rows, artery, area);
    Ok(tableau)
}

/// Steps to the end, or to a refused number. The answer is how many pivots were made.
fn pivots_to_end(tableau: &mut Tableau) -> u64
    requires dual { IsDual tableau.old.table }
    requires unspent { tableau.old.spent ≡ false }
{
    let mut meter = Meter {
        spent: 0,
        limit: None,
    };
    let mut pivots = 0;
    let _end = solve_node(tableau, &mut meter, &mut pivots);
    pivots
}

/// How many pivots so many rounds make in all. The error is want of memory.
pub fn pivots_of_rounds(alloc: Global, artery: &Artery, rounds: u32) -> Result<u64, Memory> {
    let area = SearchBox::root(alloc, artery)?;
    let mut row = Row::zero(alloc, column_count(artery))?;
    let rows = make_loaded(alloc, artery, &area, &mut row)?;
    let mut pivots: u64 = 0;
    for _ in 0..rounds {
        let mut tableau = opening(alloc, &rows, artery, &area)?;
        pivots = pivots.wrapping_add(pivots_to_end(&mut tableau));
    }
    Ok(pivots)
}
