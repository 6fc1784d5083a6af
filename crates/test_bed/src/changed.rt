//! Texts that are changed line by line.

use std::alloc::{AllocError, Global};

/// Whether a line's number is the one that is written, or from the first to the last of two with `-` between them.
fn covers(place: &str, number: usize) -> bool {
    let (first, last) = place.split_once('-').unwrap_or((place, place));
    match (first.parse::<usize>(), last.parse::<usize>()) {
        (Ok(first), Ok(last)) => first <= number && number <= last,
        _ => false,
    }
}

/// Whether a place is told by numbers.
fn is_numbered(place: &str) -> bool {
    matches!(place.as_bytes(), [b'0'..=b'9', ..])
}

/// Whether a line begins with this name.
fn begins_with(line: &str, name: &str) -> bool {
    let (first, _) = line.split_once(' ').unwrap_or((line, ""));
    first == name
}

/// What stands in place of the line with this number, by the first of the changes that speaks of it.
fn in_place<'a>(line: &'a str, number: usize, changes: &'a str) -> &'a str {
    for change in changes.split('|') {
        let (place, text) = change.split_once(' ').unwrap_or((change, ""));
        if is_numbered(place) {
            if covers(place, number) {
                return text;
            }
        } else if begins_with(line, place) {
            return change;
        }
    }
    line
}

/// Writes a line at the end of a text.
pub fn push_line(text: &mut String, line: &str) -> Result<(), AllocError> {
    text.push_str(line)?;
    text.push_str("\n")
}

/// A text with some of its lines, counted from 1, changed. Changes stand between `|`, each a number, or the first and the last with
/// `-` between them, then a blank and what stands there now. Without a blank these lines are empty. A change
/// that begins with a name instead stands in place of the line that begins so.
pub fn with_changes(alloc: Global, base: &str, changes: &str) -> Result<String, AllocError> {
    let mut out = String::new(alloc);
    for (index, line) in base.lines().enumerate() {
        push_line(&mut out, in_place(line, index.saturating_add(1), changes))?;
    }
    Ok(out)
}
