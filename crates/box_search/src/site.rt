//! Where a run left 128 bits.

use fraction_tableau::WideCell;
use named_row::{RowId, WideAt};
use offset_recovery::WideTiming;

/// Which operation of a box left 128 bits.
#[derive(Clone, Copy, PartialEq, Eq)]
pub enum SitePart {
    /// A ratio of the dual ratio test.
    Ratio(WideCell),
    /// An operation of a pivot.
    Cell(WideCell),
    /// An operation of the sum of the end's leaf, and the row that was added.
    LeafSum { row: RowId, at: WideAt },
    /// A number of the timing that the vertex becomes.
    Timing(WideTiming),
}
