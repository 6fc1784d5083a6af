//! A search for each change.

ghost use Rattle.std.specs.{Prelude.{◌≡◌, ◌<◌, length, get_or, IfOk}, List.{AllZip}};
ghost use Rattle.work_meter.specs.Work.{IsBelow};
ghost use Rattle.street_changes.specs.declared.limits.Change.TheVariants.{AsItIs};
ghost use Rattle.street_changes.specs.Changed.{changed};
ghost use Rattle.limit_sensitivity.specs.Rows.{IsOutcome, IsEnd, IsRow, AreRows};

use crate::row::{RowOutcome, SensitivityRow};
use artery_model::Artery;
use branch_tree::{Found, search_and_check};
use narrow_fraction::{Memory, push};
use std::alloc::Global;
use street_changes::{Change, changed_artery, changes};

/// What is kept of what a search found.
fn outcome_of(found: Found) -> RowOutcome
    ensures verdict { result.verdict ≡ found.verdict }
    ensures timing { result.timing ≡ found.timing }
    ensures bound { result.bound ≡ found.bound }
{
    RowOutcome {
        verdict: found.verdict,
        timing: found.timing,
        bound: found.bound,
    }
}

/// What a search of the street finds.
fn searched(alloc: Global, street: &Artery, limit: Option<u64>) -> Result<RowOutcome, Memory>
    requires { IsBelow 0 limit }
    ensures { IfOk result (λ o. IsOutcome street.now limit o) }
{
    let searched = search_and_check(alloc, street, limit)?;
    Ok(outcome_of(searched.found))
}

fn outcome_at(
    alloc: Global,
    artery: &Artery,
    limit: Option<u64>,
    change: Change,
) -> Result<Option<RowOutcome>, Memory>
    requires { IsBelow 0 limit }
    ensures { IfOk result (λ o. IsEnd (changed artery.now change) limit o) }
{
    match changed_artery(alloc, artery, change)? {
        Some(street) => Ok(Some(searched(alloc, &street, limit)?)),
        None => Ok(None),
    }
}

fn row_at(
    alloc: Global,
    artery: &Artery,
    limit: Option<u64>,
    change: &Change,
) -> Result<SensitivityRow, Memory>
    requires { IsBelow 0 limit }
    ensures { IfOk result (λ row. IsRow artery.now limit change.now row) }
{
    let outcome = outcome_at(alloc, artery, limit, *change)?;
    Ok(SensitivityRow {
        change: *change,
        outcome,
    })
}

/// The row of the change at this place of a list.
fn row_of(
    alloc: Global,
    artery: &Artery,
    limit: Option<u64>,
    list: &[Change],
    index: usize,
) -> Result<SensitivityRow, Memory>
    requires limit { IsBelow 0 limit }
    requires index { index < length list.now }
    ensures { IfOk result (λ row. IsRow artery.now limit (get_or list.now index AsItIs) row) }
{
    row_at(alloc, artery, limit, &list[index])
}

#[tactic(auto, using(crate::proofs::Matched::all_rows))]
fn rows_of(
    alloc: Global,
    artery: &Artery,
    limit: Option<u64>,
    list: &[Change],
) -> Result<Vec<SensitivityRow>, Memory>
    requires { IsBelow 0 limit }
    ensures { IfOk result (λ rows. AllZip (IsRow artery.now limit) list.now rows.items) }
{
    let mut rows = Vec::new(alloc);
    for index in 0..list.len() {
        let row = row_of(alloc, artery, limit, list, index)?;
        push(&mut rows, row)?;
    }
    Ok(rows)
}

/// A row for each of the street's changes, the first for none: what a search of the street with the change finds, whose certificate was
/// checked, or nothing where a description may not have the street with it.
///
/// Each search has the whole limit of work for itself, which is at least 1 where there is one. The error is want of memory.
pub fn sensitivity_rows(
    alloc: Global,
    artery: &Artery,
    limit: Option<u64>,
) -> Result<Vec<SensitivityRow>, Memory>
    requires { IsBelow 0 limit }
    ensures { IfOk result (λ rows. AreRows artery.now limit rows.items) }
{
    let list = changes(alloc, artery)?;
    rows_of(alloc, artery, limit, list.as_slice())
}
