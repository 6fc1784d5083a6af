//! Exact spellings, written.

ghost use Rattle.std.specs.Prelude.{◌≡◌, IfOk, string_bytes};
ghost use Rattle.quantity_text.specs.Exact.{denominator_text, exact_spelling};

use narrow_fraction::{Frac, Memory};
use std::alloc::{AllocError, Global};

/// The exact spelling of a fraction: `27/2`, and `-3` where the denominator is 1. Each fraction has one.
pub fn exact_text(alloc: Global, value: Frac) -> Result<Vec<u8>, Memory>
    ensures { IfOk result (λ text. text.items ≡ exact_spelling value) }
{
    Ok(exact_string(alloc, value)?.into_bytes())
}

/// The same as a string.
pub fn exact_string(alloc: Global, value: Frac) -> Result<String, AllocError>
    ensures { IfOk result (λ text. string_bytes text ≡ exact_spelling value) }
{
    let num = value.num();
    let denominator = denominator_text(alloc, value.den().unsigned_abs())?;
    format!(in alloc; "{num}{denominator}")
}

/// What follows a numerator: nothing where the denominator is 1.
fn denominator_text(alloc: Global, den: u128) -> Result<String, AllocError>
    ensures { IfOk result (λ text. string_bytes text ≡ denominator_text den) }
{
    if den == 1 {
        Ok(String::new(alloc))
    } else {
        format!(in alloc; "/{den}")
    }
}
