//! The lines of a timing's signals.

ghost use Rattle.std.specs.Prelude.{◌≡◌, ◌++◌, ◌≤◌, length, OnOk};
ghost use Rattle.progression.specs.Street.{count, HasSignal};
ghost use Rattle.diagram_print.specs.Offsets.{offset_name, signal_line, signal_lines};
ghost use Rattle.time_space.specs.Timing.{IsFor};

use crate::measures::push_measure;
use artery_model::Artery;
use narrow_fraction::Memory;
use quantity_text::{push_number, push_text};
use time_space::Base;
use timing_measures::{offset, signal_name};

/// Writes what stands before a signal's offset.
fn push_offset_name(out: &mut Vec<u8>, base: &Base, signal: u32) -> Result<(), Memory>
    requires first { 1 ≤ signal }
    requires last { signal ≤ length base.now.patterns }
    ensures { OnOk result (out.new.items ≡ out.old.items ++ offset_name base.now signal) }
{
    push_text(out, "signal ")?;
    push_number(out, signal as u128)?;
    push_text(out, " pattern ")?;
    push_number(out, base.pattern(signal) as u128)?;
    push_text(out, " offset")
}

/// Writes the line of a signal: its pattern, its offset in seconds and its name.
fn push_signal_line(
    out: &mut Vec<u8>,
    artery: &Artery,
    base: &Base,
    signal: u32,
) -> Result<(), Memory>
    requires shape { IsFor artery.now base.now }
    requires signal { HasSignal artery.now signal }
    ensures { OnOk result (out.new.items ≡ out.old.items ++ signal_line artery.now base.now signal) }
{
    push_offset_name(out, base, signal)?;
    push_measure(out, offset(artery, base, signal), 3)?;
    push_text(out, " ")?;
    push_text(out, signal_name(artery, signal))?;
    push_text(out, "\n")
}

/// Writes the lines of the signals, from the first on.
#[tactic(auto, using(timing_measures::proofs::Pieces::piece_up))]
pub fn push_signal_lines(out: &mut Vec<u8>, artery: &Artery, base: &Base) -> Result<(), Memory>
    requires { IsFor artery.now base.now }
    ensures { OnOk result (out.new.items ≡ out.old.items ++ signal_lines artery.now base.now) }
{
    for signal in 1..artery.count() + 1 {
        push_signal_line(out, artery, base, signal)?;
    }
    Ok(())
}
