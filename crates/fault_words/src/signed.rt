//! Whole numbers of 64 bits.

ghost use Rattle.std.specs.{Prelude.{◌≡◌, ◌++◌, OnOk}, Fmt.{signed_decimal}};

use description_reader::TableFacts;
use narrow_fraction::Memory;
use quantity_text::push_whole;

/// Writes a whole number, with its minus where it is below 0.
pub fn push_signed(out: &mut Vec<u8>, number: i64) -> Result<(), Memory>
    ensures { OnOk result (out.new.items ≡ out.old.items ++ signed_decimal number) }
{
    push_whole(out, number as i128)
}

/// Writes how many parts the cycle has.
pub fn push_parts_number(out: &mut Vec<u8>, facts: TableFacts) -> Result<(), Memory>
    ensures { OnOk result (out.new.items ≡ out.old.items ++ signed_decimal facts.parts) }
{
    push_signed(out, facts.parts)
}
