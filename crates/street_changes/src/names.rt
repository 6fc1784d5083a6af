//! How a change is told.

ghost use Rattle.std.specs.{Prelude.{◌≡◌, ◌++◌, IfOk, OnOk}, Fmt.{decimal}};
ghost use Rattle.progression.specs.Street.{signal_of};
ghost use Rattle.street_changes.specs.Names.{signal_word, link_word, street_word, change_word, place_text, given_name, link_name, name_text};

use crate::limits::{Change, LinkLimit, SignalLimit, StreetLimit};
use artery_model::Artery;
use narrow_fraction::Memory;
use quantity_text::{push_number, push_text};
use std::alloc::Global;

fn signal_word(limit: SignalLimit) -> &'static str
    ensures { result.now ≡ signal_word limit }
{
    match limit {
        SignalLimit::Red => "red",
        SignalLimit::LeftOut => "left_out",
        SignalLimit::LeftIn => "left_in",
        SignalLimit::ClearOut => "clear_out",
        SignalLimit::ClearIn => "clear_in",
        SignalLimit::Patterns => "patterns",
    }
}

fn link_word(limit: LinkLimit) -> &'static str
    ensures { result.now ≡ link_word limit }
{
    match limit {
        LinkLimit::MostSpeedOut => "greatest speed_out",
        LinkLimit::MostSpeedIn => "greatest speed_in",
        LinkLimit::LeastSpeedOut => "least speed_out",
        LinkLimit::LeastSpeedIn => "least speed_in",
        LinkLimit::LeastChangeOut => "least change_out",
        LinkLimit::MostChangeOut => "greatest change_out",
        LinkLimit::LeastChangeIn => "least change_in",
        LinkLimit::MostChangeIn => "greatest change_in",
    }
}

fn street_word(limit: StreetLimit) -> &'static str
    ensures { result.now ≡ street_word limit }
{
    match limit {
        StreetLimit::LeastCycle => "least cycle",
        StreetLimit::MostCycle => "greatest cycle",
        StreetLimit::LeastOut => "least_out",
        StreetLimit::LeastIn => "least_in",
    }
}

/// The limit that is let out, by its key in the description, and `as it is` where there is none.
pub fn change_word(change: Change) -> &'static str
    ensures { result.now ≡ change_word change }
{
    match change {
        Change::AsItIs => "as it is",
        Change::OfSignal { limit, .. } => signal_word(limit),
        Change::OfLink { limit, .. } => link_word(limit),
        Change::OfStreet { limit } => street_word(limit),
    }
}

/// Writes a word and a number.
fn push_numbered(out: &mut Vec<u8>, word: &str, number: u32) -> Result<(), Memory>
    ensures { OnOk result (out.new.items ≡ out.old.items ++ (word.now ++ decimal number)) }
{
    push_text(out, word)?;
    push_number(out, number as u128)
}

fn push_place(out: &mut Vec<u8>, change: Change) -> Result<(), Memory>
    ensures { OnOk result (out.new.items ≡ out.old.items ++ place_text change) }
{
    match change {
        Change::AsItIs => push_text(out, "street"),
        Change::OfSignal { signal, .. } => push_numbered(out, "signal ", signal),
        Change::OfLink { link, .. } => push_numbered(out, "link ", link),
        Change::OfStreet { .. } => push_text(out, "street"),
    }
}

/// The place of a change: `signal 2`, `link 2` or `street`. The error is want of memory.
pub fn place_text(alloc: Global, change: Change) -> Result<Vec<u8>, Memory>
    ensures { IfOk result (λ text. text.items ≡ place_text change) }
{
    let mut text = Vec::new(alloc);
    push_place(&mut text, change)?;
    Ok(text)
}

/// The name of the signal with this number, and an empty one past the end.
fn signal_name(artery: &Artery, signal: u64) -> &str
    ensures { result.now ≡ (signal_of artery.now signal).name }
{
    let index = signal.saturating_sub(1) as usize;
    if index < artery.signals().len() {
        artery.signals()[index].name.as_str()
    } else {
        ""
    }
}

fn given_name(artery: &Artery) -> &str
    ensures { result.now ≡ given_name artery.now.head.name }
{
    match &artery.head().name {
        Some(name) => name.as_str(),
        None => "",
    }
}

fn push_link_name(out: &mut Vec<u8>, artery: &Artery, link: u32) -> Result<(), Memory>
    ensures { OnOk result (out.new.items ≡ out.old.items ++ link_name artery.now link) }
{
    push_text(out, signal_name(artery, link as u64))?;
    push_text(out, " to ")?;
    push_text(out, signal_name(artery, link as u64 + 1))
}

fn push_name(out: &mut Vec<u8>, artery: &Artery, change: Change) -> Result<(), Memory>
    ensures { OnOk result (out.new.items ≡ out.old.items ++ name_text artery.now change) }
{
    match change {
        Change::AsItIs => push_text(out, given_name(artery)),
        Change::OfSignal { signal, .. } => push_text(out, signal_name(artery, signal as u64)),
        Change::OfLink { link, .. } => push_link_name(out, artery, link),
        Change::OfStreet { .. } => push_text(out, given_name(artery)),
    }
}

/// The name of a change's place: that of the signal, those of both ends of the link as `2nd Street to 3rd Street`, or that of the
/// street, empty where it has none. The error is want of memory.
pub fn name_text(alloc: Global, artery: &Artery, change: Change) -> Result<Vec<u8>, Memory>
    ensures { IfOk result (λ text. text.items ≡ name_text artery.now change) }
{
    let mut text = Vec::new(alloc);
    push_name(&mut text, artery, change)?;
    Ok(text)
}
