//! The names of rows and columns, as they are printed.

ghost use Rattle.std.specs.Prelude.{◌≡◌, ◌++◌, ◌<◌, ◌^◌, OnOk};
ghost use Rattle.certificate_model.specs.Families.{table_of};
ghost use Rattle.diagram_print.specs.Names.{row_text_in, numbered, column_text, place_text};

use certificate_model::{FamilyName, family_name_in, is_lone_in};
use named_row::{Place, RowId};
use narrow_fraction::Memory;
use quantity_text::{push_number, push_text};

/// Writes a name with a number.
fn push_numbered(out: &mut Vec<u8>, name: &str, number: u64) -> Result<(), Memory>
    ensures { OnOk result (out.new.items ≡ out.old.items ++ numbered name.now number) }
{
    push_text(out, name)?;
    push_text(out, " ")?;
    push_number(out, number as u128)
}

/// Writes a row's name, as certificates over this table of families spell it: that of its family, and the row's index where the
/// family has several rows. The error is want of memory.
pub fn push_row(out: &mut Vec<u8>, names: &[FamilyName], row: RowId) -> Result<(), Memory>
    ensures { OnOk result (out.new.items ≡ out.old.items ++ row_text_in (table_of names.now) row) }
{
    let family = family_name_in(names, row.family);
    if is_lone_in(names, row.family) {
        push_text(out, family)
    } else {
        push_numbered(out, family, u64::from(row.index))
    }
}

/// Writes the name of the column with this number among those of so many signals.
fn push_column_at(out: &mut Vec<u8>, signals: u64, column: u64) -> Result<(), Memory>
    requires small { signals < 2 ^ 32 }
    requires few { column < 2 ^ 32 }
    ensures { OnOk result (out.new.items ≡ out.old.items ++ column_text signals column) }
{
    if column == 0 {
        push_text(out, "b_out")
    } else if column == 1 {
        push_text(out, "b_in")
    } else if column == 2 {
        push_text(out, "z")
    } else if column <= 2 + signals {
        push_numbered(out, "w_out", column - 2)
    } else if column <= 2 + 2 * signals {
        push_numbered(out, "w_in", column - (2 + signals))
    } else if column < 2 + 3 * signals {
        push_numbered(out, "y_out", column - (2 + 2 * signals))
    } else if column < 1 + 4 * signals {
        push_numbered(out, "y_in", column - (1 + 3 * signals))
    } else if column <= 5 * signals {
        push_numbered(out, "s", column - 4 * signals)
    } else if column < 6 * signals {
        push_numbered(out, "h_out", column - 5 * signals)
    } else if column + 1 < 7 * signals {
        push_numbered(out, "h_in", column + 1 - 6 * signals)
    } else {
        Ok(())
    }
}

/// Writes the name of the column with this number, from 0, on an artery with so many signals: `b_out`, `b_in`, `z`, or `w_out`,
/// `w_in`, `y_out`, `y_in`, `s`, `h_out` or `h_in` with the number of its signal or link. The last two are halves of the bands of
/// links, which only certificates of links have. A column past the last has an empty name. The error is want of memory.
pub fn push_column(out: &mut Vec<u8>, signals: u32, column: u32) -> Result<(), Memory>
    ensures { OnOk result (out.new.items ≡ out.old.items ++ column_text signals column) }
{
    push_column_at(out, signals as u64, column as u64)
}

/// Writes the name of a place of a row on an artery with so many signals: that of its column, or `bound`. The error is want of memory.
pub fn push_place(out: &mut Vec<u8>, signals: u32, place: Place) -> Result<(), Memory>
    ensures { OnOk result (out.new.items ≡ out.old.items ++ place_text signals place) }
{
    match place {
        Place::Cell(column) => push_column(out, signals, column),
        Place::Bound => push_text(out, "bound"),
    }
}
