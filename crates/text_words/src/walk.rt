//! What a text still owes, line by line.

ghost use Rattle.std.specs.Prelude.{◌≡◌, ◌≤◌, ◌<◌, ◌+◌, ◌^◌, ◌-◌};
ghost use Rattle.text_words.specs.Owed.{lines_after, after_node, next_tree, in_trees, in_names, after_line, owed_after, trees_of};

use crate::lines::{FEED, first_word, is_text, last_word};
use file_kind::{after, before};
use plan_text::number;

/// What a text still owes.
#[derive(Clone, Copy, Debug, PartialEq, Eq)]
pub enum OwedLines {
    /// The line `rows N`, and all that follows it.
    Rows,
    /// So many names of rows, the line `tree`, and all that follows it.
    Names(u128),
    /// So many lines of a leaf, so many trees, and the line `end`.
    Trees { lines: u128, trees: u128 },
    /// Nothing.
    Nothing,
}

/// The number that the line `rows N`, or the first one of a leaf, ends with.
fn lines_after(line: &[u8]) -> u128
    ensures { result ≡ lines_after line.now }
{
    match number(last_word(line)) {
        Some(number) => number,
        None => 0,
    }
}

/// What is owed after the first line of a node, beside so many other trees.
fn after_node(line: &[u8], others: u128) -> OwedLines
    requires { others + 2 < 2 ^ 128 }
    ensures owed { result ≡ after_node line.now others }
    ensures few { trees_of result ≤ others + 2 }
{
    if is_text(first_word(line), b"split") {
        OwedLines::Trees {
            lines: 0,
            trees: others + 2,
        }
    } else {
        OwedLines::Trees {
            lines: lines_after(line),
            trees: others,
        }
    }
}

/// What is owed after a line that no leaf owes.
fn next_tree(line: &[u8], trees: u128) -> OwedLines
    requires { trees + 1 < 2 ^ 128 }
    ensures owed { result ≡ next_tree line.now trees }
    ensures few { trees_of result ≤ trees + 1 }
{
    if trees == 0 {
        OwedLines::Nothing
    } else {
        after_node(line, trees - 1)
    }
}

/// What is owed after a line of the tree.
fn in_trees(line: &[u8], lines: u128, trees: u128) -> OwedLines
    requires { trees + 1 < 2 ^ 128 }
    ensures owed { result ≡ in_trees line.now lines trees }
    ensures few { trees_of result ≤ trees + 1 }
{
    if lines == 0 {
        next_tree(line, trees)
    } else {
        OwedLines::Trees {
            lines: lines - 1,
            trees,
        }
    }
}

/// What is owed after a name, or after the line `tree`.
fn in_names(names: u128) -> OwedLines
    ensures owed { result ≡ in_names names }
    ensures few { trees_of result ≤ 1 }
{
    if names == 0 {
        OwedLines::Trees { lines: 0, trees: 1 }
    } else {
        OwedLines::Names(names - 1)
    }
}

/// What is owed after one line more.
fn after_line(line: &[u8], owed: OwedLines) -> OwedLines
    requires { trees_of owed + 1 < 2 ^ 128 }
    ensures owed { result ≡ after_line line.now owed }
    ensures few { trees_of result ≤ trees_of owed + 1 }
{
    match owed {
        OwedLines::Rows => OwedLines::Names(lines_after(line)),
        OwedLines::Names(names) => in_names(names),
        OwedLines::Trees { lines, trees } => in_trees(line, lines, trees),
        OwedLines::Nothing => OwedLines::Nothing,
    }
}

/// What is owed after so many lines.
pub(crate) fn owed_after(bytes: &[u8], start: OwedLines, count: u64) -> OwedLines
    requires { trees_of start ≤ 1 }
    ensures { result ≡ owed_after bytes.now start count }
{
    let mut rest = bytes;
    let mut owed = start;
    for passed in 0..count {
        let _ = passed;
        owed = after_line(before(rest, FEED), owed);
        rest = after(rest, FEED);
    }
    owed
}
