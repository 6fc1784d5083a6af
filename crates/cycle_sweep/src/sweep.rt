//! The sweep: a search at each cycle.

ghost use Rattle.std.specs.Prelude.{All, IfOk};
ghost use Rattle.work_meter.specs.Work.{IsBelow};
ghost use Rattle.artery_model.specs.{Bounds.{least_cycle, most_cycle}, Valid.{IsQuantity}};
ghost use Rattle.cycle_sweep.specs.Rows.{IsAllowed, IsRow, AreRows, IsTimedRow};

use crate::copying::artery_at;
use crate::cycle::is_allowed;
use crate::row::SweepRow;
use artery_model::Artery;
use branch_tree::search_and_check;
use narrow_fraction::{Frac, Memory, push};
use std::alloc::Global;

/// What a search at this cycle alone finds.
fn searched_row(
    alloc: Global,
    artery: &Artery,
    limit: Option<u64>,
    cycle: Frac,
) -> Result<SweepRow, Memory>
    requires limit { IsBelow 0 limit }
    requires quantity { IsQuantity least_cycle most_cycle cycle }
    requires allowed { IsAllowed artery.now cycle }
    ensures row { IfOk result (λ row. IsRow artery.now limit cycle row) }
    ensures timed { IfOk result (λ row. IsTimedRow row) }
{
    let street = artery_at(alloc, artery, cycle)?;
    let searched = search_and_check(alloc, &street, limit)?;
    let found = searched.found;
    Ok(SweepRow::Searched { cycle, found })
}

fn row_at(
    alloc: Global,
    artery: &Artery,
    limit: Option<u64>,
    cycle: Frac,
) -> Result<SweepRow, Memory>
    requires limit { IsBelow 0 limit }
    requires quantity { IsQuantity least_cycle most_cycle cycle }
    ensures row { IfOk result (λ row. IsRow artery.now limit cycle row) }
    ensures timed { IfOk result (λ row. IsTimedRow row) }
{
    if is_allowed(artery, cycle) {
        searched_row(alloc, artery, limit, cycle)
    } else {
        Ok(SweepRow::Outside { cycle })
    }
}

/// One row for each cycle, in their order: what a search of the street with this cycle alone finds, whose certificate was
/// checked, or that the cycle isn't within the street's own limits.
///
/// A cycle is in seconds and passes `is_cycle`. Each search has the whole limit of work for itself, which is at least 1 where there
/// is one. The error is want of memory.
pub fn sweep_rows(
    alloc: Global,
    artery: &Artery,
    limit: Option<u64>,
    cycles: &[Frac],
) -> Result<Vec<SweepRow>, Memory>
    requires limit { IsBelow 0 limit }
    requires cycles { All (IsQuantity least_cycle most_cycle) cycles.now }
    ensures rows { IfOk result (λ rows. AreRows artery.now limit cycles.now rows.items) }
    ensures timed { IfOk result (λ rows. All IsTimedRow rows.items) }
{
    let mut rows = Vec::new(alloc);
    for cycle in cycles {
        let row = row_at(alloc, artery, limit, *cycle)?;
        push(&mut rows, row)?;
    }
    Ok(rows)
}
