//! The lines about bytes that are no document.

ghost use Rattle.std.specs.Prelude.{◌≡◌, ◌++◌, ◌+◌, ◌≤◌, ◌<◌, ◌^◌, map, fold, length, count_by, position, codes, OnOk, if◌then◌else◌};
ghost use Rattle.std.specs.{Fmt.{decimal}, List.{before_first, position_or_len}};
ghost use Rattle.fault_words.specs.TextWords.{is_feed, next_column, last_line, position_of, position_line, line_byte, told_line, line_words};
ghost use Rattle.fault_words.specs.TextWords.{place_lines, not_utf8_words, not_toml_words};

use crate::sentence::push_kind;
use crate::shown::plain;
use artery_model::Kind;
use narrow_fraction::Memory;
use quantity_text::{push_number, push_text};

/// The most bytes of a line that is told.
const MOST_LINE: u128 = 120;

fn is_feed(byte: u8) -> bool
    ensures { result ≡ is_feed byte }
{
    byte == b'\n'
}

/// The column behind a byte.
fn next_column(column: usize, byte: u8) -> usize
    requires { column < 2 ^ 63 }
    ensures value { result ≡ next_column column byte }
    ensures grows { result ≤ column + 1 }
{
    if is_feed(byte) {
        0
    } else if byte / 64 == 2 {
        column
    } else {
        column + 1
    }
}

/// How many characters stand behind the last line feed.
fn columns_in(front: &[u8]) -> usize
    ensures value { result ≡ fold next_column 0 front.now }
    ensures few { result ≤ length front.now }
{
    let mut column = 0;
    for byte in front {
        column = next_column(column, *byte);
    }
    column
}

fn feeds_in(front: &[u8]) -> usize
    ensures { result ≡ count_by is_feed front.now }
{
    front.iter().filter(|byte| is_feed(**byte)).count()
}

fn push_line_number(out: &mut Vec<u8>, front: &[u8]) -> Result<(), Memory>
    ensures { OnOk result (out.new.items ≡ out.old.items ++ decimal (count_by is_feed front.now + 1)) }
{
    push_number(out, feeds_in(front) as u128 + 1)
}

fn push_column_number(out: &mut Vec<u8>, front: &[u8]) -> Result<(), Memory>
    ensures { OnOk result (out.new.items ≡ out.old.items ++ decimal (fold next_column 0 front.now + 1)) }
{
    push_number(out, columns_in(front) as u128 + 1)
}

#[tactic(auto, unfolding(crate::specs::TextWords::position_of))]
fn push_position_of(out: &mut Vec<u8>, front: &[u8]) -> Result<(), Memory>
    ensures { OnOk result (out.new.items ≡ out.old.items ++ position_of front.now) }
{
    push_text(out, "at line ")?;
    push_line_number(out, front)?;
    push_text(out, ", column ")?;
    push_column_number(out, front)?;
    push_text(out, "\n")
}

/// Writes the line and the column of a place.
fn push_position(out: &mut Vec<u8>, bytes: &[u8], at: usize) -> Result<(), Memory>
    requires { at ≤ length bytes.now }
    ensures { OnOk result (out.new.items ≡ out.old.items ++ position_line bytes.now at) }
{
    push_position_of(out, &bytes[..at])
}

/// Where the line begins behind a byte at this index.
fn start_behind(start: usize, index: usize, byte: u8) -> usize
    requires small { index < 2 ^ 63 }
    requires before { start ≤ index }
    ensures value { result ≡ (if is_feed byte then index + 1 else start) }
    ensures within { result ≤ index + 1 }
{
    if is_feed(byte) { index + 1 } else { start }
}

/// What stands behind the last line feed, all where there is none.
#[tactic(auto, using(crate::proofs::Lines::line_steps))]
fn line_end(front: &[u8]) -> &[u8]
    ensures { result.now ≡ last_line front.now }
{
    let mut start = 0;
    for (index, byte) in front.iter().enumerate() {
        start = start_behind(start, index, *byte);
    }
    &front[start..]
}

fn feed_at(back: &[u8]) -> Option<usize>
    ensures { result ≡ position is_feed back.now }
{
    back.iter().position(|byte| *byte == b'\n')
}

/// The place of the first line feed, or the length where there is none.
#[tactic(auto, using(quantity_text::proofs::Runs::place_or_len))]
fn line_size(back: &[u8]) -> usize
    ensures place { result ≡ position_or_len is_feed back.now }
    ensures within { result ≤ length back.now }
{
    feed_at(back).unwrap_or(back.len())
}

/// What stands before the first line feed, all where there is none.
fn line_start(back: &[u8]) -> &[u8]
    ensures { result.now ≡ before_first is_feed back.now }
{
    &back[..line_size(back)]
}

/// A byte of a line as it is told: of bytes that are no text all beyond ASCII as a question mark.
fn line_byte(is_text: bool, byte: u8) -> u8
    ensures { result ≡ line_byte is_text byte }
{
    if is_text || byte < 128 {
        plain(b' ', byte)
    } else {
        b'?'
    }
}

fn push_line_bytes(out: &mut Vec<u8>, is_text: bool, bytes: &[u8]) -> Result<(), Memory>
    ensures { OnOk result (out.new.items ≡ out.old.items ++ map (line_byte is_text) bytes.now) }
{
    for byte in bytes {
        out.push(line_byte(is_text, *byte))?;
    }
    Ok(())
}

fn push_line(out: &mut Vec<u8>, is_text: bool, front: &[u8], back: &[u8]) -> Result<(), Memory>
    ensures { OnOk result (out.new.items ≡ out.old.items ++ (codes "this line: " ++ (map (line_byte is_text) (front.now ++ back.now) ++ codes "\n"))) }
{
    push_text(out, "this line: ")?;
    push_line_bytes(out, is_text, front)?;
    push_line_bytes(out, is_text, back)?;
    push_text(out, "\n")
}

fn push_line_size(out: &mut Vec<u8>, size: u128) -> Result<(), Memory>
    ensures { OnOk result (out.new.items ≡ out.old.items ++ (codes "a line of " ++ (decimal size ++ codes " bytes\n"))) }
{
    push_text(out, "a line of ")?;
    push_number(out, size)?;
    push_text(out, " bytes\n")
}

/// Writes a line, or how long it is.
#[tactic(auto, unfolding(crate::specs::TextWords::told_line))]
fn push_told_line(out: &mut Vec<u8>, is_text: bool, front: &[u8], back: &[u8]) -> Result<(), Memory>
    ensures { OnOk result (out.new.items ≡ out.old.items ++ told_line is_text (front.now ++ back.now)) }
{
    let size = front.len() as u128 + back.len() as u128;
    if size <= MOST_LINE {
        push_line(out, is_text, front, back)
    } else {
        push_line_size(out, size)
    }
}

/// Writes the line in which a place is.
#[tactic(auto, unfolding(crate::specs::TextWords::line_words))]
fn push_line_words(out: &mut Vec<u8>, is_text: bool, bytes: &[u8], at: usize) -> Result<(), Memory>
    requires { at ≤ length bytes.now }
    ensures { OnOk result (out.new.items ≡ out.old.items ++ line_words is_text bytes.now at) }
{
    push_told_line(
        out,
        is_text,
        line_end(&bytes[..at]),
        line_start(&bytes[at..]),
    )
}

#[tactic(auto, unfolding(crate::specs::TextWords::place_lines))]
fn push_place_lines(out: &mut Vec<u8>, is_text: bool, bytes: &[u8], at: usize) -> Result<(), Memory>
    requires { at ≤ length bytes.now }
    ensures { OnOk result (out.new.items ≡ out.old.items ++ place_lines is_text bytes.now at) }
{
    push_position(out, bytes, at)?;
    push_line_words(out, is_text, bytes, at)
}

/// Writes the lines about bytes that are no text from a place on.
#[tactic(auto, unfolding(crate::specs::TextWords::not_utf8_words))]
pub fn push_not_utf8(out: &mut Vec<u8>, bytes: &[u8], at: usize) -> Result<(), Memory>
    requires { at ≤ length bytes.now }
    ensures { OnOk result (out.new.items ≡ out.old.items ++ not_utf8_words bytes.now at) }
{
    push_kind(out, Kind::NotUtf8)?;
    push_place_lines(out, false, bytes, at)
}

/// Writes the lines about a text that is no document, by a place in it and a reason.
#[tactic(auto, unfolding(crate::specs::TextWords::not_toml_words))]
pub fn push_not_toml(out: &mut Vec<u8>, bytes: &[u8], at: usize, reason: &str) -> Result<(), Memory>
    requires { at ≤ length bytes.now }
    ensures { OnOk result (out.new.items ≡ out.old.items ++ not_toml_words bytes.now at reason.now) }
{
    push_kind(out, Kind::NotToml)?;
    push_place_lines(out, true, bytes, at)?;
    push_text(out, "the reader of TOML says: ")?;
    push_text(out, reason)?;
    push_text(out, "\n")
}
