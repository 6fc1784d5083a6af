//! Texts, written at the end of what is there. The error is want of memory, and then anything may have been written.

ghost use Rattle.std.specs.{Prelude.{◌≡◌, ◌++◌, ◌∷◌, [], OnOk}, Fmt.{decimal, signed_decimal}};
ghost use Rattle.quantity_text.specs.Exact.{exact_spelling};

use crate::exact::exact_string;
use narrow_fraction::{Frac, Memory};

/// Writes a byte at the end.
pub(crate) fn push_byte(out: &mut Vec<u8>, byte: u8) -> Result<(), Memory>
    ensures { OnOk result (out.new.items ≡ out.old.items ++ byte ∷ []) }
{
    out.push(byte)?;
    Ok(())
}

/// Writes bytes at the end.
pub fn push_bytes(out: &mut Vec<u8>, bytes: &[u8]) -> Result<(), Memory>
    ensures { OnOk result (out.new.items ≡ out.old.items ++ bytes.now) }
{
    out.extend_from_slice(bytes)?;
    Ok(())
}

/// Writes a text at the end.
pub fn push_text(out: &mut Vec<u8>, text: &str) -> Result<(), Memory>
    ensures { OnOk result (out.new.items ≡ out.old.items ++ text.now) }
{
    push_bytes(out, text.as_bytes())
}

/// Writes a number of at least 0 at the end.
pub fn push_number(out: &mut Vec<u8>, number: u128) -> Result<(), Memory>
    ensures { OnOk result (out.new.items ≡ out.old.items ++ decimal number) }
{
    let alloc = *out.allocator();
    let digits = format!(in alloc; "{number}")?;
    push_text(out, digits.as_str())
}

/// Writes a whole number at the end, with its minus where it is below 0.
pub fn push_whole(out: &mut Vec<u8>, whole: i128) -> Result<(), Memory>
    ensures { OnOk result (out.new.items ≡ out.old.items ++ signed_decimal whole) }
{
    let alloc = *out.allocator();
    let digits = format!(in alloc; "{whole}")?;
    push_text(out, digits.as_str())
}

/// Writes the exact spelling of a fraction at the end.
pub fn push_exact(out: &mut Vec<u8>, value: Frac) -> Result<(), Memory>
    ensures { OnOk result (out.new.items ≡ out.old.items ++ exact_spelling value) }
{
    let spelled = exact_string(*out.allocator(), value)?;
    push_text(out, spelled.as_str())
}
