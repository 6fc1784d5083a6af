//! Lines of a text.

ghost use Rattle.std.specs.Prelude.{◌≡◌, ◌++◌, OnOk, map, take, count_by};
ghost use Rattle.certificate_model.specs.Words.{is_text};
ghost use Rattle.text_words.specs.Lines.{is_blank, from_line, line_of_text, first_word, last_word, visible, after_shown, shown_text};

use file_kind::{after, before};
use narrow_fraction::Memory;
use quantity_text::{push_bytes, push_text};

/// The line feed.
pub(crate) const FEED: u8 = b'\n';

/// What stands between two words.
const BLANK: u8 = b' ';

/// The most bytes of a line that are shown.
const MOST_SHOWN: usize = 200;

/// Whether a line is this text.
pub(crate) fn is_text(line: &[u8], text: &[u8]) -> bool
    ensures { result ≡ is_text line.now text.now }
{
    line == text
}

fn is_blank(byte: u8) -> bool
    ensures { result ≡ is_blank byte }
{
    byte == BLANK
}

/// How many blanks a line has: as many as words after the first.
pub(crate) fn blanks(line: &[u8]) -> usize
    ensures { result ≡ count_by is_blank line.now }
{
    line.iter().filter(|byte| is_blank(**byte)).count()
}

/// The first word of a line.
pub(crate) fn first_word(line: &[u8]) -> &[u8]
    ensures { result.now ≡ first_word line.now }
{
    before(line, BLANK)
}

/// The last word of two or three.
pub(crate) fn last_word(line: &[u8]) -> &[u8]
    ensures { result.now ≡ last_word line.now }
{
    let second = after(line, BLANK);
    if blanks(line) == 1 {
        second
    } else {
        after(second, BLANK)
    }
}

/// What follows so many line feeds.
pub(crate) fn from_line(bytes: &[u8], count: u64) -> &[u8]
    ensures { result.now ≡ from_line bytes.now count }
{
    let mut rest = bytes;
    for passed in 0..count {
        let _ = passed;
        rest = after(rest, FEED);
    }
    rest
}

/// The line with this number, counted from 1, without its line feed; empty where there are fewer.
pub(crate) fn line_of_text(bytes: &[u8], line: u64) -> &[u8]
    ensures { result.now ≡ line_of_text bytes.now line }
{
    before(from_line(bytes, line.saturating_sub(1)), FEED)
}

fn visible(byte: u8) -> u8
    ensures { result ≡ visible byte }
{
    if 32 <= byte && byte < 127 { byte } else { b'?' }
}

fn push_visible(out: &mut Vec<u8>, bytes: &[u8]) -> Result<(), Memory>
    ensures { OnOk result (out.new.items ≡ out.old.items ++ map visible bytes.now) }
{
    for byte in bytes {
        push_bytes(out, &[visible(*byte)])?;
    }
    Ok(())
}

/// At most so many bytes of a line.
#[tactic(auto, using(std::proofs::lemmas::List::take_all))]
fn front(line: &[u8], most: usize) -> &[u8]
    ensures { result.now ≡ take most line.now }
{
    if line.len() <= most {
        line
    } else {
        &line[..most]
    }
}

fn after_shown(line: &[u8]) -> &'static str
    ensures { result.now ≡ after_shown line.now }
{
    if line.len() > MOST_SHOWN {
        " ..\n"
    } else {
        "\n"
    }
}

/// Writes a line as far as it is shown.
#[tactic(auto, unfolding(crate::specs::Lines::shown_text))]
pub(crate) fn push_shown(out: &mut Vec<u8>, line: &[u8]) -> Result<(), Memory>
    ensures { OnOk result (out.new.items ≡ out.old.items ++ shown_text line.now) }
{
    push_visible(out, front(line, MOST_SHOWN))?;
    push_text(out, after_shown(line))
}
