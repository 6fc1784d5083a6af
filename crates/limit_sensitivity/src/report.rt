//! The lines that are printed.

ghost use Rattle.std.specs.{Prelude.{◌≡◌, ◌++◌, ◌≤◌, ◌^◌, pos, ◌≤ℤ◌, IfOk, OnOk, IfSome, Some}, List.{flat_map}};
ghost use Rattle.limit_sensitivity.specs.Report.{seconds_of, amount_text, measure_text, after_space, timed_line, verdict_line, first_outcome, base_line, rows_line, first_lines, all_timed, told, sensitivity_lines};

use crate::gains::{difference, if_short, product, push_decimal_or_wide};
use crate::ranking::{RankedChange, base_of, told};
use crate::row::{RowOutcome, SensitivityRow};
use artery_model::Artery;
use cycle_sweep::verdict_word;
use narrow_fraction::{Frac, Memory};
use quantity_text::{push_bytes, push_decimal, push_exact, push_number, push_text};
use std::alloc::Global;
use street_changes::{change_word, name_text, place_text};

/// So many cycles in seconds.
fn seconds_of(value: &Option<Frac>, cycle: Frac) -> Option<Frac>
    ensures value { result ≡ seconds_of value.now cycle }
    ensures short { IfSome result (λ x. x.den ≤ 2 ^ 120) }
{
    match value {
        Some(value) => product(*value, cycle),
        None => None,
    }
}

/// Writes an amount as a fraction of the cycle and in its seconds.
fn push_amount(out: &mut Vec<u8>, value: &Option<Frac>, cycle: Frac) -> Result<(), Memory>
    requires { IfSome value.now (λ x. x.den ≤ 2 ^ 120) }
    ensures { OnOk result (out.new.items ≡ out.old.items ++ amount_text value.now cycle) }
{
    push_decimal_or_wide(out, value, 4)?;
    push_text(out, " = ")?;
    push_decimal_or_wide(out, &seconds_of(value, cycle), 1)?;
    push_text(out, " s")
}

fn push_measure(out: &mut Vec<u8>, base: &Option<Frac>, timed: &RankedChange) -> Result<(), Memory>
    ensures { OnOk result (out.new.items ≡ out.old.items ++ measure_text base.now timed.now) }
{
    match base {
        Some(base) => {
            push_text(out, " gain ")?;
            push_amount(out, &difference(timed.value, *base), timed.cycle)
        }
        None => {
            push_text(out, " weighted ")?;
            push_amount(out, &if_short(timed.value), timed.cycle)
        }
    }
}

/// Writes a name after a space, where there is one.
fn push_after_space(out: &mut Vec<u8>, name: &[u8]) -> Result<(), Memory>
    ensures { OnOk result (out.new.items ≡ out.old.items ++ after_space name.now) }
{
    if !name.is_empty() {
        push_text(out, " ")?;
        push_bytes(out, name)?;
    }
    Ok(())
}

fn push_timed_line(
    out: &mut Vec<u8>,
    artery: &Artery,
    base: &Option<Frac>,
    timed: &RankedChange,
) -> Result<(), Memory>
    ensures { OnOk result (out.new.items ≡ out.old.items ++ timed_line artery.now base.now timed.now) }
{
    let alloc = *out.allocator();
    let place = place_text(alloc, timed.change)?;
    let name = name_text(alloc, artery, timed.change)?;
    push_text(out, change_word(timed.change))?;
    push_text(out, " ")?;
    push_bytes(out, place.as_slice())?;
    push_measure(out, base, timed)?;
    push_after_space(out, name.as_slice())?;
    push_text(out, "\n")
}

/// Writes the lines of changes with a timing.
fn push_timed_lines(
    out: &mut Vec<u8>,
    artery: &Artery,
    base: &Option<Frac>,
    list: &[RankedChange],
) -> Result<(), Memory>
    ensures { OnOk result (out.new.items ≡ out.old.items ++ flat_map (timed_line artery.now base.now) list.now) }
{
    for timed in list {
        push_timed_line(out, artery, base, timed)?;
    }
    Ok(())
}

fn push_verdict(out: &mut Vec<u8>, outcome: &RowOutcome) -> Result<(), Memory>
    ensures { OnOk result (out.new.items ≡ out.old.items ++ verdict_line (Some outcome.now)) }
{
    push_text(out, "verdict ")?;
    push_text(out, verdict_word(&outcome.verdict))?;
    push_text(out, "\n")
}

fn push_first_verdict(out: &mut Vec<u8>, rows: &[SensitivityRow]) -> Result<(), Memory>
    ensures { OnOk result (out.new.items ≡ out.old.items ++ verdict_line (first_outcome rows.now)) }
{
    match rows {
        [] => Ok(()),
        [first, ..] => push_verdict_of(out, &first.outcome),
    }
}

fn push_verdict_of(out: &mut Vec<u8>, outcome: &Option<RowOutcome>) -> Result<(), Memory>
    ensures { OnOk result (out.new.items ≡ out.old.items ++ verdict_line outcome.now) }
{
    match outcome {
        Some(outcome) => push_verdict(out, outcome),
        None => Ok(()),
    }
}

fn push_value(out: &mut Vec<u8>, value: Frac) -> Result<(), Memory>
    requires least { pos 0 ≤ℤ value.num }
    requires denominator { value.den ≤ 2 ^ 120 }
    ensures { OnOk result (out.new.items ≡ out.old.items ++ base_line (Some value)) }
{
    push_text(out, "weighted ")?;
    push_exact(out, value)?;
    push_text(out, " = ")?;
    push_decimal(out, value, 6)?;
    push_text(out, "\n")
}

fn push_base(out: &mut Vec<u8>, base: &Option<Frac>) -> Result<(), Memory>
    requires least { IfSome base.now (λ x. pos 0 ≤ℤ x.num) }
    requires denominator { IfSome base.now (λ x. x.den ≤ 2 ^ 120) }
    ensures { OnOk result (out.new.items ≡ out.old.items ++ base_line base.now) }
{
    match base {
        Some(base) => push_value(out, *base),
        None => push_text(out, "no timing\n"),
    }
}

fn push_rows_line(out: &mut Vec<u8>, rows: usize) -> Result<(), Memory>
    ensures { OnOk result (out.new.items ≡ out.old.items ++ rows_line rows) }
{
    push_text(out, "rows ")?;
    push_number(out, rows as u128)?;
    push_text(out, "\n")
}

/// Writes the lines of the street as it is.
fn push_first(out: &mut Vec<u8>, base: &Option<Frac>, rows: &[SensitivityRow]) -> Result<(), Memory>
    requires least { IfSome base.now (λ x. pos 0 ≤ℤ x.num) }
    requires denominator { IfSome base.now (λ x. x.den ≤ 2 ^ 120) }
    ensures { OnOk result (out.new.items ≡ out.old.items ++ first_lines base.now rows.now) }
{
    push_first_verdict(out, rows)?;
    push_base(out, base)?;
    push_rows_line(out, rows.len())
}

/// Writes the lines of the changes that are told.
fn push_told(
    out: &mut Vec<u8>,
    artery: &Artery,
    base: &Option<Frac>,
    rows: &[SensitivityRow],
) -> Result<(), Memory>
    ensures { OnOk result (out.new.items ≡ out.old.items ++ flat_map (timed_line artery.now base.now) (told base.now (all_timed artery.now rows.now))) }
{
    let list = told(*out.allocator(), artery, base, rows)?;
    push_timed_lines(out, artery, base, list.as_slice())
}

/// The lines that are printed of the rows: the verdict of the street as it is, its weighted band, how many rows there are, and a line of each
/// change that gains, the greatest gain first, equal ones in the order of the rows: by how much of the cycle, and by how many of the seconds
/// of the cycle that was found with it. Where the street as it is has no timing, a line of each change that has one, with its weighted
/// band. Decimals are cut. The error is want of memory.
pub fn sensitivity_lines(
    alloc: Global,
    artery: &Artery,
    rows: &[SensitivityRow],
) -> Result<Vec<u8>, Memory>
    ensures { IfOk result (λ lines. lines.items ≡ sensitivity_lines artery.now rows.now) }
{
    let base = base_of(artery, rows);
    let mut out = Vec::new(alloc);
    push_first(&mut out, &base, rows)?;
    push_told(&mut out, artery, &base, rows)?;
    Ok(out)
}
