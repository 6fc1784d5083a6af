//! Left turn patterns in words.

ghost use Rattle.std.specs.Prelude.{◌≡◌, ◌++◌, OnOk, if◌then◌else◌, codes};
ghost use Rattle.progression.specs.Street.{HasSignal};
ghost use Rattle.street_words.specs.Patterns.{turn_name, turn_text, turn_gap, pattern_words};

use artery_model::{Artery, Dir};
use narrow_fraction::Memory;
use quantity_text::push_text;
use time_space::is_early;

/// The way of the left turn against a direction.
pub(crate) fn turn_name(dir: Dir) -> &'static str
    ensures { result.now ≡ turn_name dir }
{
    match dir {
        Dir::Inbound => "out ",
        Dir::Outbound => "in ",
    }
}

/// How a left turn goes.
fn turn_word(early: bool) -> &'static str
    ensures { result.now ≡ (if early then codes "lag" else codes "lead") }
{
    if early { "lag" } else { "lead" }
}

/// Writes how the left turn against a direction goes under a pattern, where there is one.
#[tactic(auto, unfolding(crate::specs::Patterns::turn_text))]
fn push_turn(
    out: &mut Vec<u8>,
    artery: &Artery,
    dir: Dir,
    signal: u32,
    pattern: u32,
) -> Result<(), Memory>
    requires signal { HasSignal artery.now signal }
    ensures { OnOk result (out.new.items ≡ out.old.items ++ turn_text artery.now dir signal pattern) }
{
    if artery.left_against(dir, signal) == 0 {
        return Ok(());
    }
    push_text(out, turn_name(dir))?;
    push_text(out, turn_word(is_early(dir, pattern)))
}

/// What stands between two left turns.
fn turn_gap(outbound: u32, inbound: u32) -> &'static str
    ensures { result.now ≡ turn_gap outbound inbound }
{
    if outbound == 0 || inbound == 0 {
        ""
    } else {
        " "
    }
}

/// Writes how the left turns of a signal go under a pattern, the outbound one first, as far as there are such: `out lead in lag`.
#[tactic(auto, unfolding(crate::specs::Patterns::pattern_words))]
pub fn push_pattern_words(
    out: &mut Vec<u8>,
    artery: &Artery,
    signal: u32,
    pattern: u32,
) -> Result<(), Memory>
    requires signal { HasSignal artery.now signal }
    ensures { OnOk result (out.new.items ≡ out.old.items ++ pattern_words artery.now signal pattern) }
{
    let outbound = artery.left_against(Dir::Inbound, signal);
    let inbound = artery.left_against(Dir::Outbound, signal);
    push_turn(out, artery, Dir::Inbound, signal, pattern)?;
    push_text(out, turn_gap(outbound, inbound))?;
    push_turn(out, artery, Dir::Outbound, signal, pattern)
}
