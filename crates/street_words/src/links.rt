//! The line of a link.

ghost use Rattle.std.specs.Prelude.{◌≡◌, ◌++◌, OnOk};
ghost use Rattle.progression.specs.Street.{HasLink};
ghost use Rattle.street_words.specs.Streets.{way_text, between_text, link_line};

use crate::numbers::{push_length, push_span};
use crate::words::{next_signal, push_name};
use artery_model::{Artery, Dir};
use narrow_fraction::Memory;
use quantity_text::{push_number, push_text};
use timing_words::dir_word;

/// Writes the length and the times of travel of a direction.
#[tactic(auto, unfolding(crate::specs::Streets::way_text))]
fn push_way(out: &mut Vec<u8>, artery: &Artery, dir: Dir, link: u32) -> Result<(), Memory>
    requires link { HasLink artery.now link }
    ensures { OnOk result (out.new.items ≡ out.old.items ++ way_text artery.now dir link) }
{
    push_text(out, dir_word(dir))?;
    push_text(out, " ")?;
    push_length(out, artery.head().units, artery.distance(dir, link))?;
    push_text(out, ", ")?;
    push_span(out, artery.run_low(dir, link), artery.run_high(dir, link))?;
    push_text(out, " s")
}

/// Writes which signals a link joins.
#[tactic(auto, unfolding(crate::specs::Streets::between_text))]
fn push_between(out: &mut Vec<u8>, artery: &Artery, link: u32) -> Result<(), Memory>
    requires link { HasLink artery.now link }
    ensures { OnOk result (out.new.items ≡ out.old.items ++ between_text artery.now link) }
{
    push_text(out, "link ")?;
    push_number(out, u128::from(link))?;
    push_text(out, ", ")?;
    push_name(out, artery, link)?;
    push_text(out, " to ")?;
    push_name(out, artery, next_signal(artery, link))?;
    push_text(out, ": ")
}

/// Writes the line of a link.
#[tactic(auto, unfolding(crate::specs::Streets::link_line))]
pub fn push_link(out: &mut Vec<u8>, artery: &Artery, link: u32) -> Result<(), Memory>
    requires link { HasLink artery.now link }
    ensures { OnOk result (out.new.items ≡ out.old.items ++ link_line artery.now link) }
{
    push_between(out, artery, link)?;
    push_way(out, artery, Dir::Outbound, link)?;
    push_text(out, ", ")?;
    push_way(out, artery, Dir::Inbound, link)?;
    push_text(out, "\n")
}
