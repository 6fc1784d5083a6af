//! The changes with a timing, and those that gain, greatest first.

ghost use Rattle.std.specs.{Prelude.{◌≡◌, ◌++◌, [], ◌≤◌, ◌^◌, pos, ◌≤ℤ◌, length, IfOk, OnOk, IfSome}, List.{position, position_or_len}};
ghost use Rattle.progression.specs.TimingRecord.{base};
ghost use Rattle.limit_sensitivity.specs.Report.{is_less, timed_from, timed_of, all_timed, placed, with_one, ranked_onto, told};
ghost use Rattle.limit_sensitivity.specs.Rows.{base_of, outcome_value};
ghost use Rattle.branch_tree.specs.Certified.{value_of};
ghost use Rattle.progression.specs.Best.{weighted_band};
ghost use Rattle.timing_measures.specs.Measures.{cycle_seconds};

use crate::row::{RowOutcome, SensitivityRow};
use artery_model::Artery;
use narrow_fraction::{Frac, Memory, push};
use std::alloc::Global;
use street_changes::Change;
use time_space::{Timing, value};
use timing_measures::cycle_seconds;

/// A change with the timing that was found.
#[derive(Drop)]
pub struct RankedChange {
    pub change: Change,
    /// Its weighted band.
    pub value: Frac,
    /// Its cycle, in seconds.
    pub cycle: Frac,
}

fn timed_by(artery: &Artery, change: Change, timing: &Timing) -> RankedChange
    ensures { result ≡ record { change = change; value = weighted_band artery.now timing.now; cycle = cycle_seconds artery.now (base timing.now) } }
{
    RankedChange {
        change,
        value: value(artery, timing),
        cycle: cycle_seconds(artery, timing.base()),
    }
}

fn copied(timed: &RankedChange) -> RankedChange
    ensures { result ≡ timed.now }
{
    RankedChange {
        change: timed.change,
        value: timed.value,
        cycle: timed.cycle,
    }
}

fn push_from(
    list: &mut Vec<RankedChange>,
    artery: &Artery,
    change: Change,
    timing: &Option<Timing>,
) -> Result<(), Memory>
    ensures { OnOk result (list.new.items ≡ list.old.items ++ timed_from artery.now change timing.now) }
{
    match timing {
        Some(timing) => push(list, timed_by(artery, change, timing)),
        None => Ok(()),
    }
}

fn push_timed(
    list: &mut Vec<RankedChange>,
    artery: &Artery,
    row: &SensitivityRow,
) -> Result<(), Memory>
    ensures { OnOk result (list.new.items ≡ list.old.items ++ timed_of artery.now row.now.change row.now.outcome) }
{
    match &row.outcome {
        Some(outcome) => push_from(list, artery, row.change, &outcome.timing),
        None => Ok(()),
    }
}

fn all_timed(
    alloc: Global,
    artery: &Artery,
    rows: &[SensitivityRow],
) -> Result<Vec<RankedChange>, Memory>
    ensures { IfOk result (λ list. list.items ≡ all_timed artery.now rows.now) }
{
    let mut list = Vec::new(alloc);
    for row in rows {
        push_timed(&mut list, artery, row)?;
    }
    Ok(list)
}

/// Where the first with less stands.
fn first_less(others: &[RankedChange], value: Frac) -> Option<usize>
    ensures { result ≡ position (λ y. is_less y.value value) others.now }
{
    others.iter().position(|other| other.value < value)
}

/// The same, or the length where there is none.
#[tactic(auto, using(crate::proofs::Places::place_or_len))]
fn place_of(others: &[RankedChange], value: Frac) -> usize
    ensures place { result ≡ position_or_len (λ y. is_less y.value value) others.now }
    ensures within { result ≤ length others.now }
{
    first_less(others, value).unwrap_or(others.len())
}

/// Puts one before the first with less.
fn put(others: &mut Vec<RankedChange>, timed: RankedChange) -> Result<(), Memory>
    ensures { OnOk result (others.new.items ≡ placed timed others.old.items) }
{
    let place = place_of(others.as_slice(), timed.value);
    others.insert(place, timed)?;
    Ok(())
}

/// Puts one where it belongs, if it gains.
fn put_gaining(
    others: &mut Vec<RankedChange>,
    base: Frac,
    timed: RankedChange,
) -> Result<(), Memory>
    ensures { OnOk result (others.new.items ≡ with_one base timed others.old.items) }
{
    if base < timed.value {
        put(others, timed)
    } else {
        Ok(())
    }
}

/// Those that gain, greatest first.
fn ranked(alloc: Global, base: &Frac, all: &[RankedChange]) -> Result<Vec<RankedChange>, Memory>
    ensures { IfOk result (λ list. list.items ≡ ranked_onto base.now [] all.now) }
{
    let mut list = Vec::new(alloc);
    for timed in all {
        put_gaining(&mut list, *base, copied(timed))?;
    }
    Ok(list)
}

/// Those that are told: with no timing of the street as it is all, in their order, else those that gain, greatest first.
pub(crate) fn told(
    alloc: Global,
    artery: &Artery,
    base: &Option<Frac>,
    rows: &[SensitivityRow],
) -> Result<Vec<RankedChange>, Memory>
    ensures { IfOk result (λ list. list.items ≡ told base.now (all_timed artery.now rows.now)) }
{
    let all = all_timed(alloc, artery, rows)?;
    match base {
        Some(base) => ranked(alloc, base, all.as_slice()),
        None => Ok(all),
    }
}

/// The weighted band of the timing, where one was found.
pub(crate) fn outcome_value(artery: &Artery, outcome: &Option<RowOutcome>) -> Option<Frac>
    ensures value { result ≡ outcome_value artery.now outcome.now }
    ensures least { IfSome result (λ x. pos 0 ≤ℤ x.num) }
    ensures denominator { IfSome result (λ x. x.den ≤ 2 ^ 120) }
{
    match outcome {
        Some(outcome) => timing_value(artery, &outcome.timing),
        None => None,
    }
}

pub(crate) fn timing_value(artery: &Artery, timing: &Option<Timing>) -> Option<Frac>
    ensures value { result ≡ value_of artery.now timing.now }
    ensures least { IfSome result (λ x. pos 0 ≤ℤ x.num) }
    ensures denominator { IfSome result (λ x. x.den ≤ 2 ^ 120) }
{
    match timing {
        Some(timing) => Some(value(artery, timing)),
        None => None,
    }
}

/// The weighted band of the first row.
pub(crate) fn base_of(artery: &Artery, rows: &[SensitivityRow]) -> Option<Frac>
    ensures value { result ≡ base_of artery.now rows.now }
    ensures least { IfSome result (λ x. pos 0 ≤ℤ x.num) }
    ensures denominator { IfSome result (λ x. x.den ≤ 2 ^ 120) }
{
    match rows {
        [] => None,
        [first, ..] => outcome_value(artery, &first.outcome),
    }
}
