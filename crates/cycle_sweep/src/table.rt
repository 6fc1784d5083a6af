//! The table of comma-separated values.

ghost use Rattle.std.specs.{Prelude.{◌≡◌, IfOk, OnOk}, List.{flat_map}, Io.KnownBytes.{Appends}};
ghost use Rattle.csv.specs.Writing.{default_writer, row_text, text_written};
ghost use Rattle.cycle_sweep.specs.Table.{fields, header_fields, outside_fields, found_fields, row_fields, line, sweep_text};
ghost use Rattle.cycle_sweep.specs.Writers.{IsReady};

use crate::row::SweepRow;
use crate::words::{bound_of, cause_word, number_text, verdict_word};
use artery_model::Artery;
use branch_tree::{Found, value_of};
use csv::Writer;
use narrow_fraction::{Frac, Memory};
use std::alloc::Global;
use std::io::Write;

/// The fields of one record.
#[derive(Drop)]
struct SweepRecord {
    cycle: Vec<u8>,
    verdict: &'static str,
    weighted: Vec<u8>,
    bound: Vec<u8>,
    cause: &'static str,
}

/// The record of a cycle that the street doesn't allow.
fn outside_record(alloc: Global, cycle: Frac) -> Result<SweepRecord, Memory>
    ensures { IfOk result (λ r. fields r.cycle.items r.verdict.now r.weighted.items r.bound.items r.cause.now ≡ outside_fields cycle) }
{
    Ok(SweepRecord {
        cycle: number_text(alloc, Some(cycle))?,
        verdict: "outside",
        weighted: number_text(alloc, None)?,
        bound: number_text(alloc, None)?,
        cause: "-",
    })
}

/// The record of what was found at a cycle.
fn found_record(
    alloc: Global,
    artery: &Artery,
    cycle: Frac,
    found: &Found,
) -> Result<SweepRecord, Memory>
    ensures { IfOk result (λ r. fields r.cycle.items r.verdict.now r.weighted.items r.bound.items r.cause.now ≡ found_fields artery.now cycle found.now) }
{
    let value = value_of(artery, &found.timing);
    let bound = bound_of(&found.verdict, found.bound, value);
    Ok(SweepRecord {
        cycle: number_text(alloc, Some(cycle))?,
        verdict: verdict_word(&found.verdict),
        weighted: number_text(alloc, value)?,
        bound: number_text(alloc, bound)?,
        cause: cause_word(&found.verdict),
    })
}

fn record_of(alloc: Global, artery: &Artery, row: &SweepRow) -> Result<SweepRecord, Memory>
    ensures { IfOk result (λ r. fields r.cycle.items r.verdict.now r.weighted.items r.bound.items r.cause.now ≡ row_fields artery.now row.now) }
{
    match row {
        SweepRow::Outside { cycle } => outside_record(alloc, *cycle),
        SweepRow::Searched { cycle, found } => found_record(alloc, artery, *cycle, found),
    }
}

/// Writes a record of five fields.
fn write_fields<W: Write + Drop>(
    writer: &mut Writer<W>,
    cycle: &[u8],
    verdict: &[u8],
    weighted: &[u8],
    bound: &[u8],
    cause: &[u8],
) -> Result<(), Memory>
    requires { IsReady writer.old }
    ensures ready { OnOk result (IsReady writer.new) }
    ensures bytes { OnOk result (Appends (text_written W.contents writer.old) (text_written W.contents writer.new)
        (row_text default_writer (fields cycle.now verdict.now weighted.now bound.now cause.now))) }
{
    match writer.write_fields(&[cycle, verdict, weighted, bound, cause]) {
        Ok(()) => Ok(()),
        Err(_) => Err(Memory),
    }
}

/// Writes the names of the fields.
fn write_header<W: Write + Drop>(writer: &mut Writer<W>) -> Result<(), Memory>
    requires { IsReady writer.old }
    ensures ready { OnOk result (IsReady writer.new) }
    ensures bytes { OnOk result (Appends (text_written W.contents writer.old) (text_written W.contents writer.new) (line header_fields)) }
{
    write_fields(
        writer,
        "cycle".as_bytes(),
        "verdict".as_bytes(),
        "weighted".as_bytes(),
        "bound".as_bytes(),
        "cause".as_bytes(),
    )
}

/// Writes the record of a row.
fn write_row<W: Write + Drop>(
    alloc: Global,
    artery: &Artery,
    writer: &mut Writer<W>,
    row: &SweepRow,
) -> Result<(), Memory>
    requires { IsReady writer.old }
    ensures ready { OnOk result (IsReady writer.new) }
    ensures bytes { OnOk result (Appends (text_written W.contents writer.old) (text_written W.contents writer.new) (line (row_fields artery.now row.now))) }
{
    let record = record_of(alloc, artery, row)?;
    write_fields(
        writer,
        record.cycle.as_slice(),
        record.verdict.as_bytes(),
        record.weighted.as_slice(),
        record.bound.as_slice(),
        record.cause.as_bytes(),
    )
}

/// Writes the records of the rows, in their order.
fn write_rows<W: Write + Drop>(
    alloc: Global,
    artery: &Artery,
    writer: &mut Writer<W>,
    rows: &[SweepRow],
) -> Result<(), Memory>
    requires { IsReady writer.old }
    ensures bytes { OnOk result (Appends (text_written W.contents writer.old) (text_written W.contents writer.new) (flat_map (λ row. line (row_fields artery.now row)) rows.now)) }
{
    for row in rows {
        write_row(alloc, artery, writer, row)?;
    }
    Ok(())
}

/// The table of the rows: a header and a record for each, of five fields that need no quotes, each ended by a line feed.
///
/// `cycle` is the exact text of the cycle in seconds, and `verdict` one of `best`, `none`, `open` and `outside`. `weighted` is the exact
/// text of the weighted band of the timing that was found, and `bound` that of what no weighted band at this cycle exceeds. `cause`
/// is `work` or `wide` where a search stopped. `-` stands where there is nothing to say. The error is want of memory.
pub fn sweep_table(alloc: Global, artery: &Artery, rows: &[SweepRow]) -> Result<Vec<u8>, Memory>
    ensures { IfOk result (λ table. table.items ≡ sweep_text artery.now rows.now) }
{
    let mut writer = Writer::from_writer(Vec::new(alloc));
    write_header(&mut writer)?;
    write_rows(alloc, artery, &mut writer, rows)?;
    match writer.into_inner() {
        Ok(table) => Ok(table),
        Err(_) => Err(Memory),
    }
}
