//! The rows of a table in their order.

ghost use Rattle.std.specs.Prelude.{◌+◌};
ghost use Rattle.loop_rows.specs.Following.{IsIndexFrom, IsRowFrom, IsNextIn};
ghost use Rattle.loop_rows.specs.RowSets.{rows_of_set};

use crate::table::RowTable;
use named_row::RowId;

/// The least index from this number on at which there is a row of the family.
fn index_from<T: RowTable>(table: &T, family: u8, from: u32) -> Option<u32>
    ensures { IsIndexFrom (rows_of_set (T.rows table.now)) family from result }
{
    // its contract says that no index is above the last
    table.known_rows();
    for index in from..table.last_index() + 1 {
        if table.has(RowId { family, index }) {
            return Some(index);
        }
    }
    None
}

/// The first row of the families from this number on.
fn row_from<T: RowTable>(table: &T, family: u8) -> Option<RowId>
    ensures { IsRowFrom (rows_of_set (T.rows table.now)) family result }
{
    // its contract says that no family is above the last
    table.known_rows();
    for next in family..table.last_family() + 1 {
        if let Some(index) = index_from(table, next, 0) {
            return Some(RowId {
                family: next,
                index,
            });
        }
    }
    None
}

/// The least index above that of a row at which there is a row of the same family.
fn index_after<T: RowTable>(table: &T, row: RowId) -> Option<u32>
    ensures { IsIndexFrom (rows_of_set (T.rows table.now)) row.family (row.index + 1) result }
{
    // its contract says that no index is above the last
    table.known_rows();
    if table.last_index() <= row.index {
        return None;
    }
    index_from(table, row.family, row.index + 1)
}

/// The first row of the families above this number.
fn row_past<T: RowTable>(table: &T, family: u8) -> Option<RowId>
    ensures { IsRowFrom (rows_of_set (T.rows table.now)) (family + 1) result }
{
    // its contract says that no family is above the last
    table.known_rows();
    if table.last_family() <= family {
        return None;
    }
    row_from(table, family + 1)
}

/// The least row of a table above `after`, by family, then index, or its first row for None. None exactly where there is no
/// such row.
pub fn next_in<T: RowTable>(table: &T, after: Option<RowId>) -> Option<RowId>
    ensures { IsNextIn (rows_of_set (T.rows table.now)) after result }
{
    let row = match after {
        Some(row) => row,
        None => return row_from(table, 0),
    };
    match index_after(table, row) {
        Some(index) => Some(RowId {
            family: row.family,
            index,
        }),
        None => row_past(table, row.family),
    }
}
