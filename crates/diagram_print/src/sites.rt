//! Where a run left 128 bits. The rows of a leaf have their names in a table of families.

ghost use Rattle.std.specs.{Prelude.{◌≡◌, ◌++◌, codes, OnOk}, Fmt.{decimal}};
ghost use Rattle.certificate_model.specs.Families.{table_of};
ghost use Rattle.diagram_print.specs.Sites.{cell_line, leaf_line, product_line, number_line, timing_line, site_line, op_name, wide_line, timing_operands, operands_line};

use crate::names::{push_column, push_place, push_row};
use box_search::SitePart;
use certificate_model::FamilyName;
use fraction_tableau::WideCell;
use named_row::{Place, RowId};
use narrow_fraction::{Memory, Op, Wide};
use offset_recovery::WideTiming;
use quantity_text::{push_exact, push_number, push_text};

/// Writes words, a number and the end of the line.
pub fn push_count_line(out: &mut Vec<u8>, words: &str, number: u128) -> Result<(), Memory>
    ensures { OnOk result (out.new.items ≡ out.old.items ++ (words.now ++ (decimal number ++ codes "\n"))) }
{
    push_text(out, words)?;
    push_number(out, number)?;
    push_text(out, "\n")
}

/// Writes words, two numbers and the end of the line.
fn push_pair_line(out: &mut Vec<u8>, words: &str, first: u128, second: u128) -> Result<(), Memory>
    ensures { OnOk result (out.new.items ≡ out.old.items ++ (words.now ++ (decimal first ++ (codes " " ++ (decimal second ++ codes "\n"))))) }
{
    push_text(out, words)?;
    push_number(out, first)?;
    push_count_line(out, " ", second)
}

/// Writes the line of a cell of the tableau, by its row and place.
fn push_cell_line(out: &mut Vec<u8>, kind: &str, cell: WideCell) -> Result<(), Memory>
    ensures { OnOk result (out.new.items ≡ out.old.items ++ cell_line kind.now cell) }
{
    push_text(out, "site ")?;
    push_text(out, kind)?;
    push_pair_line(out, " ", cell.row as u128, cell.col as u128)
}

/// Writes the line of a place of a leaf's sum, at which this row was added.
fn push_leaf_line(
    out: &mut Vec<u8>,
    names: &[FamilyName],
    signals: u32,
    row: RowId,
    place: Place,
) -> Result<(), Memory>
    ensures { OnOk result (out.new.items ≡ out.old.items ++ leaf_line (table_of names.now) signals row place) }
{
    push_text(out, "site leaf ")?;
    push_row(out, names, row)?;
    push_text(out, " ")?;
    push_place(out, signals, place)?;
    push_text(out, "\n")
}

fn push_product_line(out: &mut Vec<u8>, signals: u32, column: u32) -> Result<(), Memory>
    ensures { OnOk result (out.new.items ≡ out.old.items ++ product_line signals column) }
{
    push_text(out, "site product ")?;
    push_column(out, signals, column)?;
    push_text(out, "\n")
}

fn push_number_line(out: &mut Vec<u8>, signals: u32, column: u32) -> Result<(), Memory>
    ensures { OnOk result (out.new.items ≡ out.old.items ++ number_line signals column) }
{
    push_text(out, "site number ")?;
    push_column(out, signals, column)?;
    push_text(out, "\n")
}

/// Writes the line of a number of a timing.
fn push_timing_line(out: &mut Vec<u8>, signals: u32, refused: WideTiming) -> Result<(), Memory>
    ensures { OnOk result (out.new.items ≡ out.old.items ++ timing_line signals refused) }
{
    match refused {
        WideTiming::Sum { link, .. } => push_count_line(out, "site sum ", link as u128),
        WideTiming::Product { column, .. } => push_product_line(out, signals, column),
        WideTiming::Unit { .. } => push_text(out, "site unit\n"),
        WideTiming::Number { column, .. } => push_number_line(out, signals, column),
    }
}

/// Writes the line of the operation's site, on an artery with so many signals.
pub fn push_site_line(
    out: &mut Vec<u8>,
    names: &[FamilyName],
    signals: u32,
    part: SitePart,
) -> Result<(), Memory>
    ensures { OnOk result (out.new.items ≡ out.old.items ++ site_line (table_of names.now) signals part) }
{
    match part {
        SitePart::Ratio(cell) => push_cell_line(out, "ratio", cell),
        SitePart::Cell(cell) => push_cell_line(out, "cell", cell),
        SitePart::LeafSum { row, at } => push_leaf_line(out, names, signals, row, at.place),
        SitePart::Timing(refused) => push_timing_line(out, signals, refused),
    }
}

/// The printed name of an operation.
fn op_name(op: Op) -> &'static str
    ensures { result.now ≡ op_name op }
{
    match op {
        Op::Add => "add",
        Op::Sub => "sub",
        Op::Mul => "mul",
        Op::Div => "div",
    }
}

/// Writes the operands of a refused operation.
fn push_wide_line(out: &mut Vec<u8>, refused: Wide) -> Result<(), Memory>
    ensures { OnOk result (out.new.items ≡ out.old.items ++ wide_line refused) }
{
    push_text(out, "operands ")?;
    push_text(out, op_name(refused.op))?;
    push_text(out, " ")?;
    push_exact(out, refused.left)?;
    push_text(out, " ")?;
    push_exact(out, refused.right)?;
    push_text(out, "\n")
}

/// Writes the operands, or the numbers, of a refused timing.
fn push_timing_operands(out: &mut Vec<u8>, refused: WideTiming) -> Result<(), Memory>
    ensures { OnOk result (out.new.items ≡ out.old.items ++ timing_operands refused) }
{
    match refused {
        WideTiming::Sum { wide, .. } => push_wide_line(out, wide),
        WideTiming::Product { wide, .. } => push_wide_line(out, wide),
        WideTiming::Unit { left, right } => push_pair_line(out, "operands lcm ", left, right),
        WideTiming::Number { ticks, .. } => push_count_line(out, "operands ticks ", ticks),
    }
}

/// Writes the line of the operation's operands.
pub fn push_operands_line(out: &mut Vec<u8>, part: SitePart) -> Result<(), Memory>
    ensures { OnOk result (out.new.items ≡ out.old.items ++ operands_line part) }
{
    match part {
        SitePart::Ratio(cell) => push_wide_line(out, cell.wide),
        SitePart::Cell(cell) => push_wide_line(out, cell.wide),
        SitePart::LeafSum { at, .. } => push_wide_line(out, at.wide),
        SitePart::Timing(refused) => push_timing_operands(out, refused),
    }
}
