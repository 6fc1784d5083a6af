//! What bytes look like that are no text and no document of maxband.

ghost use Rattle.std.specs.Prelude.{◌≡◌};
ghost use Rattle.file_kind.specs.Looks.{begins, is_utf16, is_marked, has_return, is_picture, is_table, look_of, look_line};

use crate::kind::first_line;

/// What bytes look like.
#[derive(Clone, Copy, Debug, PartialEq, Eq)]
pub enum Look {
    Empty,
    Utf16,
    /// A text of maxband behind a byte order mark.
    Marked,
    /// A text of maxband whose first line ends as on Windows.
    WindowsLines,
    /// A text of maxband of another kind or version.
    OtherText,
    Picture,
    Table,
    Other,
}

fn begins(bytes: &[u8], start: &[u8]) -> bool
    ensures { result ≡ begins bytes.now start.now }
{
    bytes.starts_with(start)
}

fn is_utf16(bytes: &[u8]) -> bool
    ensures { result ≡ is_utf16 bytes.now }
{
    begins(bytes, &[255, 254]) || begins(bytes, &[254, 255])
}

/// Whether a text of maxband stands behind a byte order mark.
fn is_marked(bytes: &[u8]) -> bool
    ensures { result ≡ is_marked bytes.now }
{
    begins(bytes, b"\xef\xbb\xbfmaxband-")
}

/// Whether the first line ends as on Windows.
fn has_return(bytes: &[u8]) -> bool
    ensures { result ≡ has_return bytes.now }
{
    match first_line(bytes) {
        [] => false,
        [.., last] => *last == b'\r',
    }
}

fn is_picture(bytes: &[u8]) -> bool
    ensures { result ≡ is_picture bytes.now }
{
    begins(bytes, b"<svg") || begins(bytes, b"<?xml")
}

fn is_table(bytes: &[u8]) -> bool
    ensures { result ≡ is_table bytes.now }
{
    begins(bytes, b"cycle,verdict,")
        || begins(bytes, b"change,place,")
        || begins(bytes, b"signal,name,")
}

/// What the bytes look like.
pub fn looks_like(bytes: &[u8]) -> Look
    ensures { result ≡ look_of bytes.now }
{
    if bytes.is_empty() {
        Look::Empty
    } else if is_utf16(bytes) {
        Look::Utf16
    } else if is_marked(bytes) {
        Look::Marked
    } else if begins(bytes, b"maxband-") {
        if has_return(bytes) {
            Look::WindowsLines
        } else {
            Look::OtherText
        }
    } else if is_picture(bytes) {
        Look::Picture
    } else if is_table(bytes) {
        Look::Table
    } else {
        Look::Other
    }
}

/// A sentence about it, and nothing where it looks like nothing that is known.
pub fn look_line(look: Look) -> &'static str
    ensures { result.now ≡ look_line look }
{
    match look {
        Look::Empty => "the file is empty\n",
        Look::Utf16 => "it looks like UTF-16, which some editors write: save it as UTF-8\n",
        Look::Marked => {
            "it looks like a text of maxband behind a byte order mark, as some editors write one: save it as UTF-8 without the mark, with line feeds alone\n"
        }
        Look::WindowsLines => {
            "it looks like a text of maxband whose lines end as on Windows: a text has line feeds alone\n"
        }
        Look::OtherText => {
            "it begins as a text of maxband, but of no kind and version that this program reads\n"
        }
        Look::Picture => {
            "it looks like a picture, as draw puts one: a picture can't be read back\n"
        }
        Look::Table => {
            "it looks like a table, as sweep, sensitivity and sheet put one: a table can't be read back\n"
        }
        Look::Other => "",
    }
}
