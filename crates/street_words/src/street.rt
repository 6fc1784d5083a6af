//! All lines of a street.

ghost use Rattle.std.specs.{Prelude.{◌≡◌, ◌-◌, ◌++◌, OnOk}, List.{flat_map, range_with_len}};
ghost use Rattle.progression.specs.Street.{count};
ghost use Rattle.street_words.specs.Streets.{signal_lines, link_line, street_lines};

use crate::head::push_head;
use crate::links::push_link;
use crate::signals::push_signal;
use artery_model::Artery;
use narrow_fraction::Memory;

fn push_signals(out: &mut Vec<u8>, artery: &Artery) -> Result<(), Memory>
    ensures { OnOk result (out.new.items ≡ out.old.items ++ flat_map (signal_lines artery.now) (range_with_len 1 (count artery.now))) }
{
    for signal in 1..artery.count() + 1 {
        push_signal(out, artery, signal)?;
    }
    Ok(())
}

fn push_links(out: &mut Vec<u8>, artery: &Artery) -> Result<(), Memory>
    ensures { OnOk result (out.new.items ≡ out.old.items ++ flat_map (link_line artery.now) (range_with_len 1 (count artery.now - 1))) }
{
    for link in 1..artery.count() {
        push_link(out, artery, link)?;
    }
    Ok(())
}

/// Writes a street in words: its name, units, cycle and ratio, then a line of each signal with its times in seconds at the least cycle and
/// at the greatest, below it the patterns of its left turns where it has any, and then a line of each link with its lengths and its times of
/// travel from the greatest speed to the least. Numbers are rounded to the nearest tenth. The error is want of memory.
#[tactic(auto, unfolding(crate::specs::Streets::street_lines))]
pub fn push_street(out: &mut Vec<u8>, artery: &Artery) -> Result<(), Memory>
    ensures { OnOk result (out.new.items ≡ out.old.items ++ street_lines artery.now) }
{
    push_head(out, artery)?;
    push_signals(out, artery)?;
    push_links(out, artery)
}
