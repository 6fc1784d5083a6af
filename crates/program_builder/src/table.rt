//! The rows of a table as those of a program.

ghost use Rattle.std.specs.Prelude.{◌≡◌, ◌+◌, ◌^◌, ◌<◌, length, false};
ghost use Rattle.named_row.specs.Sheets.{row_of};
ghost use Rattle.program_builder.specs.{BoxRows.{IsAmong}, RowOrder.{IsNextIn}, ProgramTable.{IsTable, program_table}};

use loop_rows::{RowTable, next_in};
use named_row::{Row, RowId};
use search_box::SearchBox;

/// Says what is known of the program: the names are in order, each row and the goal is as wide as the table, and there are fewer
/// than 2^32 rows and columns together.
pub fn known_table<R: RowTable>(rows: &R)
    ensures table { IsTable (program_table (R.rows rows.now)) }
    ensures few { length (program_table (R.rows rows.now)).names + (program_table (R.rows rows.now)).columns < 2 ^ 32 }
{
    rows.known_rows();
}

/// The first name above `after`, or the first of all for None. None exactly where there is no such name.
pub fn next_name<R: RowTable>(rows: &R, after: Option<RowId>) -> Option<RowId>
    ensures { IsNextIn (program_table (R.rows rows.now)).names after result }
{
    rows.known_rows();
    next_in(rows, after)
}

/// Makes the row of one of the names for a box.
pub fn fill_named<R: RowTable>(
    rows: &R,
    area: &SearchBox,
    name: RowId,
    spare: &mut R::Spare,
    into: &mut Row,
)
    requires there { IsAmong (program_table (R.rows rows.now)).names name }
    requires boxed { R.IsFor rows.now area.now }
    requires spare { R.IsSpare rows.now spare.old }
    requires columns { length into.old.coefs ≡ (program_table (R.rows rows.now)).columns }
    ensures row { row_of into.new ≡ (program_table (R.rows rows.now)).row area.now name }
    ensures unspent { into.new.spent ≡ false }
    ensures spare { R.IsSpare rows.now spare.new }
    ensures width { length into.new.coefs ≡ (program_table (R.rows rows.now)).columns }
{
    rows.known_rows();
    let filled = rows.fill(area, name, spare, into);
    prove!(filled);
}
