//! Names as cells.

ghost use Rattle.std.specs.Prelude.{◌≡◌, ◌++◌, OnOk};
ghost use Rattle.table_text.specs.Cells.{is_formula, name_cell};

use narrow_fraction::Memory;

/// Whether a spreadsheet takes a text for a formula, by its first character.
fn is_formula(text: &[u8]) -> bool
    ensures { result ≡ is_formula text.now }
{
    match text.first() {
        Some(byte) => *byte == b'=' || *byte == b'+' || *byte == b'-' || *byte == b'@',
        None => false,
    }
}

/// Writes a name at the end of what is there, behind an apostrophe where a spreadsheet would take it for a formula. The error is want of
/// memory, and then anything may have been written.
pub fn push_name_cell(out: &mut Vec<u8>, name: &[u8]) -> Result<(), Memory>
    ensures { OnOk result (out.new.items ≡ out.old.items ++ name_cell name.now) }
{
    if is_formula(name) {
        out.push(b'\'')?;
    }
    out.extend_from_slice(name)?;
    Ok(())
}
