//! Refusals at places.

ghost use Rattle.std.specs.Prelude.{◌≡◌, false, ◌++◌, string_bytes, codes, IfOk, IfErr};
ghost use Rattle.artery_model.specs.Faults.{unless, signal_place, link_place, Names, Judges};

use crate::kind::{Flaw, Kind, Refusal};
use progression::Text;
use std::alloc::Global;

/// The refusal, or want of memory.
fn refused(alloc: Global, kind: Kind, place: &str) -> Flaw
    ensures { Names result (unless false kind place.now) }
{
    match Text::new(alloc, place) {
        Ok(place) => Flaw::Refused(Refusal { kind, place }),
        Err(_) => Flaw::Memory,
    }
}

/// Refuses where the test fails.
pub(crate) fn check(alloc: Global, passes: bool, kind: Kind, place: &str) -> Result<(), Flaw>
    ensures { Judges result (unless passes kind place.now) }
{
    if passes {
        Ok(())
    } else {
        Err(refused(alloc, kind, place))
    }
}

/// The same at an item of the place's array.
pub(crate) fn check_item(
    alloc: Global,
    passes: bool,
    kind: Kind,
    place: &str,
    item: &str,
) -> Result<(), Flaw>
    ensures { Judges result (unless passes kind (place.now ++ item.now)) }
{
    if passes {
        return Ok(());
    }
    let place = format!(in alloc; "{place}{item}")?;
    Err(refused(alloc, kind, place.as_str()))
}

/// The path of a signal's key.
pub(crate) fn signal_place(alloc: Global, signal: usize, key: &str) -> Result<String, Flaw>
    ensures value { IfOk result (λ place. string_bytes place ≡ signal_place signal key.now) }
    ensures memory { IfErr result (λ flaw. flaw ≡ Flaw.Memory) }
{
    Ok(format!(in alloc; "signal[{signal}].{key}")?)
}

/// The path of a link's key.
pub(crate) fn link_place(alloc: Global, link: usize, key: &str) -> Result<String, Flaw>
    ensures value { IfOk result (λ place. string_bytes place ≡ link_place link key.now) }
    ensures memory { IfErr result (λ flaw. flaw ≡ Flaw.Memory) }
{
    Ok(format!(in alloc; "link[{link}].{key}")?)
}

/// Refuses at a signal's key where the test fails.
pub(crate) fn check_signal(
    alloc: Global,
    passes: bool,
    kind: Kind,
    signal: usize,
    key: &str,
) -> Result<(), Flaw>
    ensures { Judges result (unless passes kind (signal_place signal key.now)) }
{
    if passes {
        return Ok(());
    }
    let place = signal_place(alloc, signal, key)?;
    Err(refused(alloc, kind, place.as_str()))
}

/// The refusal of a name that stood earlier, or want of memory.
pub(crate) fn repeated(alloc: Global, signal: usize) -> Flaw
    ensures { Names result (Some (record { kind = Kind.RepeatedName; place = signal_place signal (codes "name") })) }
{
    match signal_place(alloc, signal, "name") {
        Ok(place) => refused(alloc, Kind::RepeatedName, place.as_str()),
        Err(flaw) => flaw,
    }
}
