//! The warnings of a street.

ghost use Rattle.std.specs.{Prelude.{◌≡◌, ◌-◌, ◌++◌, OnOk}, List.{flat_map, range_with_len}};
ghost use Rattle.progression.specs.Street.{count, HasLink, HasSignal};
ghost use Rattle.street_words.specs.Laws.{IsOf};
ghost use Rattle.street_words.specs.Warnings.{told, way_warnings, link_warnings, signal_warnings, name_warnings, street_warnings, warning_lines};

use crate::rules::applies;
use crate::sentences::push_warning;
use crate::warning::Warning;
use artery_model::{Artery, Dir};
use narrow_fraction::Memory;

/// Writes the line of a warning where its rule holds.
#[tactic(auto, unfolding(crate::specs::Warnings::told))]
fn push_told(out: &mut Vec<u8>, artery: &Artery, warning: Warning) -> Result<(), Memory>
    requires { IsOf artery.now warning }
    ensures { OnOk result (out.new.items ≡ out.old.items ++ told artery.now warning) }
{
    if applies(*out.allocator(), artery, warning)? {
        push_warning(out, artery, warning)
    } else {
        Ok(())
    }
}

fn push_of_way(out: &mut Vec<u8>, artery: &Artery, dir: Dir, link: u32) -> Result<(), Memory>
    requires link { HasLink artery.now link }
    ensures { OnOk result (out.new.items ≡ out.old.items ++ flat_map (told artery.now) (way_warnings dir link)) }
{
    push_told(out, artery, Warning::TakesLittle { dir, link })?;
    push_told(out, artery, Warning::TakesLong { dir, link })?;
    push_told(out, artery, Warning::TooFast { dir, link })?;
    push_told(out, artery, Warning::TooSlow { dir, link })
}

fn push_of_link(out: &mut Vec<u8>, artery: &Artery, link: u32) -> Result<(), Memory>
    requires link { HasLink artery.now link }
    ensures { OnOk result (out.new.items ≡ out.old.items ++ flat_map (told artery.now) (link_warnings link)) }
{
    push_of_way(out, artery, Dir::Outbound, link)?;
    push_of_way(out, artery, Dir::Inbound, link)
}

fn push_of_signal(out: &mut Vec<u8>, artery: &Artery, signal: u32) -> Result<(), Memory>
    requires signal { HasSignal artery.now signal }
    ensures { OnOk result (out.new.items ≡ out.old.items ++ flat_map (told artery.now) (signal_warnings signal)) }
{
    let dir = Dir::Outbound;
    push_told(out, artery, Warning::MostlyRed { dir, signal })?;
    let dir = Dir::Inbound;
    push_told(out, artery, Warning::MostlyRed { dir, signal })
}

fn push_of_name(out: &mut Vec<u8>, artery: &Artery, signal: u32) -> Result<(), Memory>
    requires signal { HasLink artery.now signal }
    ensures { OnOk result (out.new.items ≡ out.old.items ++ flat_map (told artery.now) (name_warnings signal)) }
{
    push_told(out, artery, Warning::AlikeNames { signal })
}

fn push_of_street(out: &mut Vec<u8>, artery: &Artery) -> Result<(), Memory>
    ensures { OnOk result (out.new.items ≡ out.old.items ++ flat_map (told artery.now) street_warnings) }
{
    push_told(out, artery, Warning::MayStarve)?;
    push_told(out, artery, Warning::LongFractions)
}

fn push_of_links(out: &mut Vec<u8>, artery: &Artery) -> Result<(), Memory>
    ensures { OnOk result (out.new.items ≡ out.old.items ++ flat_map (told artery.now) (flat_map link_warnings (range_with_len 1 (count artery.now - 1)))) }
{
    for link in 1..artery.count() {
        push_of_link(out, artery, link)?;
    }
    Ok(())
}

fn push_of_signals(out: &mut Vec<u8>, artery: &Artery) -> Result<(), Memory>
    ensures { OnOk result (out.new.items ≡ out.old.items ++ flat_map (told artery.now) (flat_map signal_warnings (range_with_len 1 (count artery.now)))) }
{
    for signal in 1..artery.count() + 1 {
        push_of_signal(out, artery, signal)?;
    }
    Ok(())
}

fn push_of_names(out: &mut Vec<u8>, artery: &Artery) -> Result<(), Memory>
    ensures { OnOk result (out.new.items ≡ out.old.items ++ flat_map (told artery.now) (flat_map name_warnings (range_with_len 1 (count artery.now - 1)))) }
{
    for signal in 1..artery.count() {
        push_of_name(out, artery, signal)?;
    }
    Ok(())
}

/// Writes a line of each warning whose rule holds: of the links in order, outbound and inbound, of the signals, of neighbours' names, and of
/// the whole street. The error is want of memory.
pub fn push_warnings(out: &mut Vec<u8>, artery: &Artery) -> Result<(), Memory>
    ensures { OnOk result (out.new.items ≡ out.old.items ++ warning_lines artery.now) }
{
    push_of_links(out, artery)?;
    push_of_signals(out, artery)?;
    push_of_names(out, artery)?;
    push_of_street(out, artery)
}
