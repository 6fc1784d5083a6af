//! The table of comma-separated values.

ghost use Rattle.std.specs.{Prelude.{◌≡◌, ◌++◌, ◌∷◌, [], ◌≤◌, ◌^◌, Some, None, IfOk, OnOk, IfSome}, List.{flat_map}};
ghost use Rattle.cycle_sweep.specs.Table.{dash, number_text, bound_of};
ghost use Rattle.limit_sensitivity.specs.Table.{decimal_text, gain_fields, change_names, value_names, gain_names, header_fields, change_fields, told_fields, outcome_fields, row_fields, record_text, sensitivity_text};

use crate::gains::{difference, push_decimal_or_wide, push_exact_or_wide, push_signed};
use crate::ranking::{base_of, timing_value};
use crate::row::{RowOutcome, SensitivityRow};
use artery_model::Artery;
use cycle_sweep::{bound_of, cause_word, number_text, verdict_word};
use narrow_fraction::{Frac, Memory};
use quantity_text::push_text;
use std::alloc::Global;
use street_changes::{Change, change_word, name_text, place_text};
use table_text::{Record, push_record};

fn push_decimal_text(out: &mut Vec<u8>, value: &Option<Frac>) -> Result<(), Memory>
    requires { IfSome value.now (λ x. x.den ≤ 2 ^ 120) }
    ensures { OnOk result (out.new.items ≡ out.old.items ++ decimal_text value.now) }
{
    match value {
        Some(value) => push_signed(out, *value, 6),
        None => push_text(out, "-"),
    }
}

fn decimal_text(alloc: Global, value: &Option<Frac>) -> Result<Vec<u8>, Memory>
    requires { IfSome value.now (λ x. x.den ≤ 2 ^ 120) }
    ensures { IfOk result (λ text. text.items ≡ decimal_text value.now) }
{
    let mut text = Vec::new(alloc);
    push_decimal_text(&mut text, value)?;
    Ok(text)
}

/// Adds two fields of nothing.
fn push_no_gain(record: &mut Record) -> Result<(), Memory>
    ensures { OnOk result (record.new ≡ record.old ++ dash ∷ dash ∷ []) }
{
    record.push("-".as_bytes())?;
    record.push("-".as_bytes())
}

/// Adds a gain, exact and as a decimal.
fn push_difference(
    record: &mut Record,
    alloc: Global,
    base: Frac,
    weighted: Frac,
) -> Result<(), Memory>
    ensures { OnOk result (record.new ≡ record.old ++ gain_fields (Some base) (Some weighted)) }
{
    let gain = difference(weighted, base);
    let mut exact = Vec::new(alloc);
    push_exact_or_wide(&mut exact, &gain)?;
    let mut decimal = Vec::new(alloc);
    push_decimal_or_wide(&mut decimal, &gain, 6)?;
    record.push(exact.as_slice())?;
    record.push(decimal.as_slice())
}

/// Adds the gain, where there are both weighted bands.
fn push_gain(
    record: &mut Record,
    alloc: Global,
    base: &Option<Frac>,
    weighted: &Option<Frac>,
) -> Result<(), Memory>
    ensures { OnOk result (record.new ≡ record.old ++ gain_fields base.now weighted.now) }
{
    match (base, weighted) {
        (Some(base), Some(weighted)) => push_difference(record, alloc, *base, *weighted),
        (Some(_), None) => push_no_gain(record),
        (None, _) => push_no_gain(record),
    }
}

/// Adds a number, and the same as a decimal.
fn push_number(record: &mut Record, alloc: Global, number: &Option<Frac>) -> Result<(), Memory>
    requires { IfSome number.now (λ x. x.den ≤ 2 ^ 120) }
    ensures { OnOk result (record.new ≡ record.old ++ number_text number.now ∷ decimal_text number.now ∷ []) }
{
    let exact = number_text(alloc, *number)?;
    let decimal = decimal_text(alloc, number)?;
    record.push(exact.as_slice())?;
    record.push(decimal.as_slice())
}

/// Adds what none exceeds, and the cause.
fn push_end(
    record: &mut Record,
    alloc: Global,
    bound: Option<Frac>,
    cause: &str,
) -> Result<(), Memory>
    ensures { OnOk result (record.new ≡ record.old ++ number_text bound ∷ cause.now ∷ []) }
{
    let exact = number_text(alloc, bound)?;
    record.push(exact.as_slice())?;
    record.push(cause.as_bytes())
}

/// Adds what is told of a street with a change.
fn push_told(
    record: &mut Record,
    alloc: Global,
    base: &Option<Frac>,
    verdict: &str,
    weighted: &Option<Frac>,
    bound: Option<Frac>,
    cause: &str,
) -> Result<(), Memory>
    requires { IfSome weighted.now (λ x. x.den ≤ 2 ^ 120) }
    ensures { OnOk result (record.new ≡ record.old ++ told_fields base.now verdict.now weighted.now bound cause.now) }
{
    record.push(verdict.as_bytes())?;
    push_number(record, alloc, weighted)?;
    push_gain(record, alloc, base, weighted)?;
    push_end(record, alloc, bound, cause)
}

/// What no weighted band exceeds.
fn bound_in(outcome: &RowOutcome, weighted: &Option<Frac>) -> Option<Frac>
    ensures { result ≡ bound_of outcome.now.verdict outcome.now.bound weighted.now }
{
    bound_of(&outcome.verdict, outcome.bound, *weighted)
}

fn push_outcome(
    record: &mut Record,
    alloc: Global,
    artery: &Artery,
    base: &Option<Frac>,
    outcome: &RowOutcome,
) -> Result<(), Memory>
    ensures { OnOk result (record.new ≡ record.old ++ outcome_fields artery.now base.now (Some outcome.now)) }
{
    let weighted = timing_value(artery, &outcome.timing);
    let bound = bound_in(outcome, &weighted);
    let verdict = verdict_word(&outcome.verdict);
    let cause = cause_word(&outcome.verdict);
    push_told(record, alloc, base, verdict, &weighted, bound, cause)
}

fn push_found(
    record: &mut Record,
    alloc: Global,
    artery: &Artery,
    base: &Option<Frac>,
    outcome: &Option<RowOutcome>,
) -> Result<(), Memory>
    ensures { OnOk result (record.new ≡ record.old ++ outcome_fields artery.now base.now outcome.now) }
{
    match outcome {
        Some(outcome) => push_outcome(record, alloc, artery, base, outcome),
        None => push_told(record, alloc, base, "outside", &None, None, "-"),
    }
}

/// Adds the change, its place and its name.
fn push_change(
    record: &mut Record,
    alloc: Global,
    artery: &Artery,
    change: Change,
) -> Result<(), Memory>
    ensures { OnOk result (record.new ≡ record.old ++ change_fields artery.now change) }
{
    let place = place_text(alloc, change)?;
    let name = name_text(alloc, artery, change)?;
    record.push(change_word(change).as_bytes())?;
    record.push(place.as_slice())?;
    record.push_name(alloc, name.as_slice())
}

/// Writes the record of a row.
fn push_row(
    table: &mut Vec<u8>,
    artery: &Artery,
    base: &Option<Frac>,
    row: &SensitivityRow,
) -> Result<(), Memory>
    ensures { OnOk result (table.new.items ≡ table.old.items ++ record_text (row_fields artery.now base.now row.now)) }
{
    let alloc = *table.allocator();
    let mut record = Record::new(alloc);
    push_change(&mut record, alloc, artery, row.change)?;
    push_found(&mut record, alloc, artery, base, &row.outcome)?;
    push_record(table, &record)
}

fn push_change_names(record: &mut Record) -> Result<(), Memory>
    ensures { OnOk result (record.new ≡ record.old ++ change_names) }
{
    record.push("change".as_bytes())?;
    record.push("place".as_bytes())?;
    record.push("name".as_bytes())
}

fn push_value_names(record: &mut Record) -> Result<(), Memory>
    ensures { OnOk result (record.new ≡ record.old ++ value_names) }
{
    record.push("verdict".as_bytes())?;
    record.push("weighted".as_bytes())?;
    record.push("weighted_d".as_bytes())
}

fn push_gain_names(record: &mut Record) -> Result<(), Memory>
    ensures { OnOk result (record.new ≡ record.old ++ gain_names) }
{
    record.push("gain".as_bytes())?;
    record.push("gain_d".as_bytes())?;
    record.push("bound".as_bytes())?;
    record.push("cause".as_bytes())
}

fn push_header(table: &mut Vec<u8>) -> Result<(), Memory>
    ensures { OnOk result (table.new.items ≡ table.old.items ++ record_text header_fields) }
{
    let mut record = Record::new(*table.allocator());
    push_change_names(&mut record)?;
    push_value_names(&mut record)?;
    push_gain_names(&mut record)?;
    push_record(table, &record)
}

fn push_rows(
    table: &mut Vec<u8>,
    artery: &Artery,
    base: &Option<Frac>,
    rows: &[SensitivityRow],
) -> Result<(), Memory>
    ensures { OnOk result (table.new.items ≡ table.old.items ++ flat_map (λ row. record_text (row_fields artery.now base.now row)) rows.now) }
{
    for row in rows {
        push_row(table, artery, base, row)?;
    }
    Ok(())
}

/// The table of the rows: a header and a record for each, of ten fields with quotes where they are needed, each ended by a line feed.
///
/// `change`, `place` and `name` tell the limit that was let out; a name that a spreadsheet would run stands behind an apostrophe. `verdict` is
/// one of `best`, `none`, `open` and `outside`. `weighted` is the weighted band of the timing that was found, and `weighted_d` the same as
/// a decimal, cut after six places; `gain` and `gain_d` are this less that of the first row. `bound` is what no weighted band exceeds, and
/// `cause` is `work` or `wide` where a search stopped. `-` stands where there is nothing to say. The error is want of memory.
pub fn sensitivity_table(
    alloc: Global,
    artery: &Artery,
    rows: &[SensitivityRow],
) -> Result<Vec<u8>, Memory>
    ensures { IfOk result (λ table. table.items ≡ sensitivity_text artery.now rows.now) }
{
    let mut table = Vec::new(alloc);
    push_header(&mut table)?;
    let base = base_of(artery, rows);
    push_rows(&mut table, artery, &base, rows)?;
    Ok(table)
}
