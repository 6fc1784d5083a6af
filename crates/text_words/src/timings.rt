//! What stands in a timing.

ghost use Rattle.std.specs.{Prelude.{◌≡◌, ◌<◌, ◌^◌, ◌++◌, OnOk}, Fmt.{decimal}};
ghost use Rattle.text_words.specs.Claims.{signals_text, grid_line, width_text, bands_line, timing_words};

use artery_model::Dir;
use narrow_fraction::Memory;
use quantity_text::{push_number, push_text};
use time_space::Timing;
use timing_words::push_seconds;

/// Writes how many signals there are.
#[tactic(auto, unfolding(crate::specs::Claims::signals_text))]
fn push_signals(out: &mut Vec<u8>, timing: &Timing) -> Result<(), Memory>
    ensures { OnOk result (out.new.items ≡ out.old.items ++ signals_text timing.now) }
{
    push_text(out, "signals ")?;
    push_number(out, u128::from(timing.count()))
}

/// Writes the ticks of a second.
fn push_second(out: &mut Vec<u8>, timing: &Timing) -> Result<(), Memory>
    ensures { OnOk result (out.new.items ≡ out.old.items ++ decimal timing.now.grid) }
{
    push_number(out, timing.grid())
}

/// Writes the ticks of a part.
fn push_part(out: &mut Vec<u8>, timing: &Timing) -> Result<(), Memory>
    ensures { OnOk result (out.new.items ≡ out.old.items ++ decimal timing.now.unit) }
{
    push_number(out, timing.unit())
}

#[tactic(auto, unfolding(crate::specs::Claims::grid_line))]
pub(crate) fn push_grid(out: &mut Vec<u8>, timing: &Timing) -> Result<(), Memory>
    ensures { OnOk result (out.new.items ≡ out.old.items ++ grid_line timing.now) }
{
    push_signals(out, timing)?;
    push_text(out, ", ticks a second ")?;
    push_second(out, timing)?;
    push_text(out, ", ticks a part of the cycle ")?;
    push_part(out, timing)?;
    push_text(out, "\n")
}

#[tactic(auto, unfolding(crate::specs::Claims::width_text))]
fn push_width(out: &mut Vec<u8>, timing: &Timing, ticks: u128) -> Result<(), Memory>
    requires { ticks < 2 ^ 126 }
    ensures { OnOk result (out.new.items ≡ out.old.items ++ width_text timing.now ticks) }
{
    push_number(out, ticks)?;
    push_text(out, " ticks = ")?;
    push_seconds(out, timing.base(), ticks)?;
    push_text(out, " s")
}

#[tactic(auto, unfolding(crate::specs::Claims::bands_line))]
pub(crate) fn push_bands(out: &mut Vec<u8>, timing: &Timing) -> Result<(), Memory>
    ensures { OnOk result (out.new.items ≡ out.old.items ++ bands_line timing.now) }
{
    push_text(out, "band outbound ")?;
    push_width(out, timing, timing.band(Dir::Outbound))?;
    push_text(out, ", inbound ")?;
    push_width(out, timing, timing.band(Dir::Inbound))?;
    push_text(out, "\n")
}

/// Writes what stands in a timing: its numbers, that it claims nothing of others, and which commands say more with its street. The error is
/// want of memory.
#[tactic(auto, unfolding(crate::specs::Claims::timing_words))]
pub fn push_timing_words(out: &mut Vec<u8>, timing: &Timing) -> Result<(), Memory>
    ensures { OnOk result (out.new.items ≡ out.old.items ++ timing_words timing.now) }
{
    push_grid(out, timing)?;
    push_bands(out, timing)?;
    push_text(
        out,
        "it says when each signal turns red and how wide the bands are, and claims nothing of other timings\n",
    )?;
    push_text(
        out,
        "its cycle in seconds wants the street: `maxband sheet STREET FILE SHEET`; its widest bands: `bands`; whether it keeps the rules: `hold`\n",
    )
}
