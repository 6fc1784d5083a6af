//! Bytes cut at a byte.

ghost use Rattle.std.specs.Prelude.{◌≡◌, map, option_map, IfOk};
ghost use Rattle.certificate_model.specs.Words.{cut, words};

use std::alloc::{AllocError, Global};

/// What stands before the first of these bytes, and what follows it.
pub fn cut(bytes: &[u8], at: u8) -> Option<(&[u8], &[u8])>
    ensures { option_map (λ p. (p.0.now, p.1.now)) result ≡ cut at bytes.now }
{
    for (place, byte) in bytes.iter().enumerate() {
        if *byte == at {
            return Some((&bytes[..place], &bytes[place + 1..]));
        }
    }
    None
}

/// The words of a line.
pub fn words(alloc: Global, line: &[u8]) -> Result<Vec<&[u8]>, AllocError>
    ensures { IfOk result (λ v. map (λ w. w.now) v.items ≡ words line.now) }
{
    let mut found = Vec::new(alloc);
    let mut rest = line;
    'cuts: while let Some((word, after)) = cut(rest, b' ') {
        found.push(word)?;
        rest = after;
    }
    found.push(rest)?;
    Ok(found)
}
