//! The names of rows, and the places of a row.

ghost use Rattle.std.specs.Prelude.{◌≡◌, ◌↔◌, IsTrue};
ghost use Rattle.named_row.specs.Order.{IsBelow, is_below};

/// The name of a row: a family of rows (from 1), and which of its rows, by the number of a signal or link, or 0.
/// Ordered by family, then index.
#[derive(Debug, Clone, Copy, PartialEq, Eq, PartialOrd, Ord)]
pub struct RowId {
    pub family: u8,
    pub index: u32,
}

impl RowId {
    /// Whether this name comes before another: by family, and within a family by index.
    pub fn is_before(self, other: RowId) -> bool
        ensures order { IsTrue result ↔ IsBelow self other }
        ensures test { result ≡ is_below self other }
    {
        self < other
    }
}

/// A place of a row: the coefficient of a column, which count from 0, or the bound.
#[derive(Debug, Clone, Copy, PartialEq, Eq)]
pub enum Place {
    Cell(u32),
    Bound,
}
