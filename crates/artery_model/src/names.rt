//! Names that stand twice.

ghost use Rattle.std.specs.{Prelude.{◌≡◌, [], ◌∷◌, ◌++◌, IfOk, IfErr, true, not, map}, List.{list_any}};
ghost use Rattle.artery_model.specs.{Faults.{Judges}, Limits.{is_text, first_repeated}};

use crate::kind::Flaw;
use crate::refusals::repeated;
use indexmap::IndexSet;
use progression::Signal;
use std::alloc::Global;

/// Notes a name, and answers whether it is new. The only error is want of memory.
fn note_name<'a>(seen: &mut IndexSet<&'a str>, name: &'a str) -> Result<bool, Flaw>
    ensures repeated { IfOk result (λ new. new ≡ not (list_any (λ t. is_text name.now t) (map (λ k. k.now) seen.old.keys))) }
    ensures added { IfOk result (λ new. new ≡ true → map (λ k. k.now) seen.new.keys ≡ map (λ k. k.now) seen.old.keys ++ name.now ∷ []) }
    ensures memory { IfErr result (λ flaw. flaw ≡ Flaw.Memory) }
{
    match seen.insert_full(name) {
        Ok((_, new)) => Ok(new),
        Err(_) => Err(Flaw::Memory),
    }
}

/// Refuses the first name that stood earlier.
pub(crate) fn check_names(alloc: Global, signals: &[Signal]) -> Result<(), Flaw>
    ensures { Judges result (first_repeated 1 [] signals.now) }
{
    let mut seen: IndexSet<&str> = IndexSet::new(alloc);
    for (index, signal) in signals.iter().enumerate() {
        if !note_name(&mut seen, signal.name.as_str())? {
            return Err(repeated(alloc, index + 1));
        }
    }
    Ok(())
}
