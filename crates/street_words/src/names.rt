//! Names that people read as one.

ghost use Rattle.std.specs.Prelude.{◌≡◌, IfOk};
ghost use Rattle.progression.specs.Street.{HasLink};
ghost use Rattle.street_words.specs.Warnings.{plain_name, are_alike};

use crate::words::next_signal;
use artery_model::Artery;
use narrow_fraction::Memory;
use std::alloc::Global;
use timing_measures::signal_name;

/// A name without its blanks, in small letters.
fn plain_name(alloc: Global, name: &str) -> Result<Vec<u8>, Memory>
    ensures { IfOk result (λ plain. plain.items ≡ plain_name name.now) }
{
    let plain = name
        .as_bytes()
        .iter()
        .filter(|byte| **byte != b' ')
        .map(|byte| byte.to_ascii_lowercase())
        .collect(alloc)?;
    Ok(plain)
}

/// Whether the names of a signal and the next one are such.
pub fn are_alike(alloc: Global, artery: &Artery, signal: u32) -> Result<bool, Memory>
    requires signal { HasLink artery.now signal }
    ensures { IfOk result (λ alike. alike ≡ are_alike artery.now signal) }
{
    let name = plain_name(alloc, signal_name(artery, signal))?;
    let next = plain_name(alloc, signal_name(artery, next_signal(artery, signal)))?;
    Ok(name.as_slice() == next.as_slice())
}
