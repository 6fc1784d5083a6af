//! Records.

ghost use Rattle.std.specs.Prelude.{◌≡◌, ◌++◌, ◌∷◌, [], IfOk, OnOk};
ghost use Rattle.csv.specs.{Records.{fields_of}, Writing.{default_writer, row_text}};
ghost use Rattle.table_text.specs.Cells.{name_cell};

use crate::cell::push_name_cell;
use csv::{ByteRecord, Writer};
use narrow_fraction::Memory;
use std::alloc::Global;
use std::marker::Model;

/// A record, seen as the list of its fields.
#[derive(Drop)]
pub struct Record {
    row: ByteRecord,
}

impl Model for Record {
    ghost use Rattle.std.specs.Prelude.{◌≡◌, [], List, ℕ};
    ghost use Rattle.csv.specs.Records.{fields_of, partial_of};

    ghost Value = { List (List ℕ) };

    ghost view = { λ r. fields_of r.row };

    ghost invariant = { λ r. partial_of r.row ≡ [] };
}

impl Record {
    /// A record without fields.
    pub fn new(alloc: Global) -> Record
        ensures { result ≡ [] }
    {
        Record {
            row: ByteRecord::new(alloc),
        }
    }

    /// Adds a field. The error is want of memory, and then the record has no field.
    pub fn push(&mut self, field: &[u8]) -> Result<(), Memory>
        ensures { OnOk result (self.new ≡ self.old ++ field.now ∷ []) }
    {
        if self.row.push_field(field).is_err() {
            self.row.clear();
            return Err(Memory);
        }
        Ok(())
    }

    /// Adds a name as a cell. The error is want of memory.
    pub fn push_name(&mut self, alloc: Global, name: &[u8]) -> Result<(), Memory>
        ensures { OnOk result (self.new ≡ self.old ++ name_cell name.now ∷ []) }
    {
        let mut cell = Vec::new(alloc);
        push_name_cell(&mut cell, name)?;
        self.push(cell.as_slice())
    }
}

/// The text of a record.
fn record_text(alloc: Global, row: &ByteRecord) -> Result<Vec<u8>, Memory>
    ensures { IfOk result (λ text. text.items ≡ row_text default_writer (fields_of row.now)) }
{
    let mut writer = Writer::from_writer(Vec::new(alloc));
    if writer.write_byte_record(row).is_err() {
        return Err(Memory);
    }
    match writer.into_inner() {
        Ok(text) => Ok(text),
        Err(_) => Err(Memory),
    }
}

/// Writes a record at the end of a table: its fields with commas between them, quotes where they are needed, and a line feed. The error is
/// want of memory, and then anything may have been written.
pub fn push_record(table: &mut Vec<u8>, record: &Record) -> Result<(), Memory>
    ensures { OnOk result (table.new.items ≡ table.old.items ++ row_text default_writer record.now) }
{
    let text = record_text(*table.allocator(), &record.row)?;
    table.extend_from_slice(text.as_slice())?;
    Ok(())
}
