//! A file of cases as its parts: a line that says what to do, and the rows below it.

use std::alloc::{AllocError, Global};

/// A line that says what to do, with its number, and the bytes of the rows below it.
#[derive(Drop)]
pub struct Part {
    pub number: usize,
    pub head: String,
    pub rows: Vec<u8>,
}

/// What a line of a file of cases is.
enum Line<'a> {
    /// Nothing, or a remark.
    Note,
    Head(&'a str),
    /// The head and the first row.
    HeadWithRow(&'a str, &'a str),
    Row(&'a str),
    /// A row without a line feed.
    OpenRow(&'a str),
}

fn line_of(line: &str) -> Line<'_> {
    if line.is_empty() || line.starts_with('#') {
        return Line::Note;
    }
    if let Some(row) = line.strip_prefix('~') {
        return Line::OpenRow(row);
    }
    match line.split_once('|') {
        Some((head, row)) => {
            if head.is_empty() {
                Line::Row(row)
            } else {
                Line::HeadWithRow(head, row)
            }
        }
        None => Line::Head(line),
    }
}

/// A part without rows.
fn part_of(alloc: Global, number: usize, head: &str) -> Result<Part, AllocError> {
    Ok(Part {
        number,
        head: String::from_str(alloc, head)?,
        rows: Vec::new(alloc),
    })
}

/// Adds a row with its end to the last part.
fn add_row(parts: &mut Vec<Part>, row: &str, end: &str) -> Result<(), AllocError> {
    if let Some(part) = parts.last_mut() {
        part.rows.extend_from_slice(row.as_bytes())?;
        part.rows.extend_from_slice(end.as_bytes())?;
    }
    Ok(())
}

/// The parts of a file of cases. Rows before the first head are of none.
pub fn parts_of(alloc: Global, text: &str) -> Result<Vec<Part>, AllocError> {
    let mut parts = Vec::new(alloc);
    for (index, line) in text.lines().enumerate() {
        let number = index.saturating_add(1);
        match line_of(line) {
            Line::Note => {}
            Line::Head(head) => parts.push(part_of(alloc, number, head)?)?,
            Line::HeadWithRow(head, row) => {
                parts.push(part_of(alloc, number, head)?)?;
                add_row(&mut parts, row, "\n")?;
            }
            Line::Row(row) => add_row(&mut parts, row, "\n")?,
            Line::OpenRow(row) => add_row(&mut parts, row, "")?,
        }
    }
    Ok(parts)
}
