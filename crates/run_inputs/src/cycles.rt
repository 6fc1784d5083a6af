//! The cycles among the words.

ghost use Rattle.std.specs.{Prelude.{◌≡◌, ℕ, List, Option, true, All, IfOk, IfSome, map, string_bytes}, List.{list_all}};
ghost use Rattle.artery_model.specs.{Bounds.{least_cycle, most_cycle}, Valid.{IsQuantity}};
ghost use Rattle.run_inputs.specs.Cycles.{cycle_of, seconds_of, spells, are_spelled, Spell, AreSpelled};
ghost use Rattle.run_inputs.specs.Cycles as cycles;

use crate::numbers::number_within;
use cycle_sweep::is_cycle;
use narrow_fraction::{Frac, Memory, push};
use quantity_text::parse_quantity;
use std::alloc::Global;

/// The most cycles that words may spell.
const MOST_CYCLES: usize = 100;

/// The longest cycle in whole seconds.
const MOST_SECONDS: u64 = 3_600;

/// A cycle that a word spells.
pub trait Cycle: Copy + Drop {
    /// Which one.
    ghost value: { List ℕ → Option Self };

    /// What holds of it.
    ghost InLimits: { Self → Type 0 };

    /// The cycle that a word spells, in seconds.
    fn in_word(word: &str) -> Option<Self>
        ensures value { result ≡ value word.now }
        ensures limits { IfSome result (λ cycle. InLimits cycle) };
}

impl Cycle for Frac {
    ghost value = { cycle_of };

    ghost InLimits = { IsQuantity least_cycle most_cycle };

    fn in_word(word: &str) -> Option<Frac> {
        match parse_quantity(word) {
            Ok(cycle) if is_cycle(cycle) => Some(cycle),
            _ => None,
        }
    }
}

/// A whole number of seconds.
impl Cycle for u64 {
    ghost value = { seconds_of };

    ghost InLimits = { λ k. Unit {0} };

    fn in_word(word: &str) -> Option<u64> {
        number_within(word, 1, MOST_SECONDS)
    }
}

fn spells<T: Cycle>(word: &str) -> bool
    ensures { result ≡ spells T.value word.now }
{
    T::in_word(word).is_some()
}

/// Whether each word spells a cycle.
fn all_spelled<T: Cycle>(words: &[String]) -> bool
    ensures { result ≡ list_all (spells T.value) (map string_bytes words.now) }
{
    for word in words {
        if !spells::<T>(word.as_str()) {
            return false;
        }
    }
    true
}

/// Whether the words are 1 to `MOST_CYCLES` cycles.
pub fn are_spelled<T: Cycle>(words: &[String]) -> bool
    ensures { result ≡ are_spelled T.value (map string_bytes words.now) }
{
    1 <= words.len() && words.len() <= MOST_CYCLES && all_spelled::<T>(words)
}

/// The cycle of a word that spells one.
fn known<T: Cycle>(word: &str) -> T
    requires { spells T.value word.now ≡ true }
    ensures value { T.value word.now ≡ Some result }
    ensures limits { T.InLimits result }
{
    match T::in_word(word) {
        Some(cycle) => cycle,
        None => unreachable!(),
    }
}

/// The cycles of words that spell them.
pub fn cycles_in<T: Cycle>(alloc: Global, words: &[String]) -> Result<Vec<T>, Memory>
    requires { Spell T.value (map string_bytes words.now) }
    ensures cycles { IfOk result (λ cycles. AreSpelled T.value (map string_bytes words.now) cycles.items) }
    ensures limits { IfOk result (λ cycles. All T.InLimits cycles.items) }
{
    let mut cycles = Vec::new(alloc);
    for word in words {
        push(&mut cycles, known(word.as_str()))?;
    }
    Ok(cycles)
}
