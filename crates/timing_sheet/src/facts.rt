//! The lines on the cycle and the bands.

ghost use Rattle.std.specs.Prelude.{◌≡◌, ◌++◌, OnOk};
ghost use Rattle.timing_sheet.specs.Facts.{band_name, cycle_line, width_line, no_band_line, band_line, facts_text};
ghost use Rattle.time_space.specs.Timing.{IsFor};
ghost use Rattle.progression.specs.TimingRecord.{base};

use artery_model::{Artery, Dir};
use narrow_fraction::Memory;
use quantity_text::push_text;
use time_space::{Base, Timing};
use timing_measures::cycle_seconds;
use timing_words::{has_band, push_percent, push_seconds, push_tenths};

/// Writes the line of the cycle.
#[tactic(auto, unfolding(crate::specs::Facts::cycle_line))]
fn push_cycle_line(out: &mut Vec<u8>, artery: &Artery, base: &Base) -> Result<(), Memory>
    ensures { OnOk result (out.new.items ≡ out.old.items ++ cycle_line artery.now base.now) }
{
    push_text(out, "cycle ")?;
    push_tenths(out, cycle_seconds(artery, base))?;
    push_text(out, " s\n")
}

fn band_name(dir: Dir) -> &'static str
    ensures { result.now ≡ band_name dir }
{
    match dir {
        Dir::Outbound => "band out ",
        Dir::Inbound => "band in ",
    }
}

/// Writes the line of a direction's band.
#[tactic(auto, unfolding(crate::specs::Facts::width_line))]
fn push_width_line(
    out: &mut Vec<u8>,
    artery: &Artery,
    timing: &Timing,
    dir: Dir,
) -> Result<(), Memory>
    ensures { OnOk result (out.new.items ≡ out.old.items ++ width_line artery.now timing.now dir) }
{
    push_text(out, band_name(dir))?;
    push_seconds(out, timing.base(), timing.band(dir))?;
    push_text(out, " s = ")?;
    push_percent(out, artery, timing, dir)?;
    push_text(out, " %\n")
}

fn no_band_line(dir: Dir) -> &'static str
    ensures { result.now ≡ no_band_line dir }
{
    match dir {
        Dir::Outbound => "no outbound band\n",
        Dir::Inbound => "no inbound band\n",
    }
}

/// Writes the line of a direction's band, or that there is none.
#[tactic(auto, unfolding(crate::specs::Facts::band_line))]
fn push_band_line(
    out: &mut Vec<u8>,
    artery: &Artery,
    timing: &Timing,
    dir: Dir,
) -> Result<(), Memory>
    requires { IsFor artery.now (base timing.now) }
    ensures { OnOk result (out.new.items ≡ out.old.items ++ band_line artery.now timing.now dir) }
{
    if has_band(artery, timing, dir) {
        push_width_line(out, artery, timing, dir)
    } else {
        push_text(out, no_band_line(dir))
    }
}

/// Writes the cycle in seconds, and each direction's band in seconds and in hundredths of the cycle, or that the direction has none: a
/// line each.
#[tactic(auto, unfolding(crate::specs::Facts::facts_text))]
pub fn push_facts(out: &mut Vec<u8>, artery: &Artery, timing: &Timing) -> Result<(), Memory>
    requires { IsFor artery.now (base timing.now) }
    ensures { OnOk result (out.new.items ≡ out.old.items ++ facts_text artery.now timing.now) }
{
    push_cycle_line(out, artery, timing.base())?;
    push_band_line(out, artery, timing, Dir::Outbound)?;
    push_band_line(out, artery, timing, Dir::Inbound)
}
