//! Rows as lines of text.

ghost use Rattle.std.specs.Prelude.{◌≡◌, IfOk, length};
ghost use Rattle.linear_theory.specs.Boxes.{IsBoxOf};

use artery_model::Artery;
use named_row::{Leaf, Place, Row, RowId, Weight};
use narrow_fraction::Frac;
use search_box::SearchBox;
use std::alloc::{AllocError, Global};
use std::test::Fail;

/// The columns of two signals are b_out, b_in, z, w_out 1 and 2, w_in 1 and 2, y_out 1, y_in 1, s 1 and 2.
pub const LINE_WIDTH: u32 = 11;

/// A row of so many numbers, all 0.
pub fn empty(alloc: Global, width: u32) -> Result<Row, Fail>
    ensures { IfOk result (λ row. length row.coefs ≡ width) }
{
    match Row::zero(alloc, width) {
        Ok(row) => Ok(row),
        Err(_) => Err("no memory".into()),
    }
}

/// The root box, of which a sum or a row asks that alone.
pub fn root_box(alloc: Global, artery: &Artery) -> Result<SearchBox, Fail>
    ensures { IfOk result (λ area. IsBoxOf artery.now area) }
{
    match SearchBox::root(alloc, artery) {
        Ok(area) => Ok(area),
        Err(_) => Err("no memory".into()),
    }
}

/// A row's name with its multiplier.
pub fn weight(family: u8, index: u32, by: Frac) -> Weight {
    Weight {
        row: RowId { family, index },
        by,
    }
}

/// The leaf with these multipliers.
pub fn leaf_of(alloc: Global, weights: &[Weight]) -> Result<Leaf, AllocError> {
    let multipliers = weights.to_vec(alloc)?;
    Ok(Leaf { multipliers })
}

/// A number of this numerator and this denominator, which stands there where it isn't 1.
fn quotient_text(alloc: Global, num: i128, den: i128) -> Result<String, AllocError> {
    if den == 1 {
        return format!(in alloc; "{num}");
    }
    format!(in alloc; "{num}/{den}")
}

fn number_text(alloc: Global, number: Frac) -> Result<String, AllocError> {
    quotient_text(alloc, number.num(), number.den())
}

/// The name of a row, its coefficients and its bound.
pub fn row_text(alloc: Global, name: RowId, row: &Row, width: u32) -> Result<String, AllocError>
    requires { length row.now.coefs ≡ width }
{
    let mut out = format!(in alloc; "{}.{}:", name.family, name.index)?;
    for column in 0..width {
        let cell = number_text(alloc, row.get(Place::Cell(column)))?;
        out.push_str(" ")?;
        out.push_str(cell.as_str())?;
    }
    let bound = number_text(alloc, row.get(Place::Bound))?;
    out.push_str(" <= ")?;
    out.push_str(bound.as_str())?;
    Ok(out)
}

/// A row's text, and before it whether there is no such row.
pub fn filled_text(
    alloc: Global,
    is_there: bool,
    name: RowId,
    row: &Row,
    width: u32,
) -> Result<String, Fail>
    requires { length row.now.coefs ≡ width }
{
    let text = row_text(alloc, name, row, width)?;
    if is_there {
        return Ok(text);
    }
    Ok(format!(in alloc; "no {}", text.as_str())?)
}

/// Fails where a text is another.
pub fn same_text(found: &str, want: &str) -> Result<(), Fail> {
    if found == want {
        return Ok(());
    }
    Err(Fail::new(format_args!("{want}, not {found}")))
}
