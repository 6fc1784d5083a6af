//! The lines of a link timing's bands.

ghost use Rattle.std.specs.Prelude.{◌≡◌, ◌++◌, ◌<◌, ◌≤◌, length, OnOk};
ghost use Rattle.progression.specs.Street.{count};
ghost use Rattle.multi_band.specs.LinkReport.{link_band_line, both_band_lines, link_band_lines};
ghost use Rattle.time_space.specs.Timing.{IsFor};
ghost use Rattle.link_theory.specs.LinkRecord.{link_base};

use artery_model::{Artery, Dir};
use diagram_print::{push_link_name, push_measure_line};
use link_space::LinkTiming;
use narrow_fraction::Memory;
use timing_measures::quotient;

/// Writes the line of a direction's band on a link, a fraction of the cycle: it reaches half as far to either side of the line.
fn push_link_band(
    out: &mut Vec<u8>,
    artery: &Artery,
    timing: &LinkTiming,
    dir: Dir,
    link: u32,
) -> Result<(), Memory>
    requires first { 1 ≤ link }
    requires last { link < length timing.now.patterns }
    ensures { OnOk result (out.new.items ≡ out.old.items ++ link_band_line artery.now timing.now dir link) }
{
    push_link_name(out, link, " band ", dir)?;
    let share = quotient(2 * timing.half(dir, link), timing.base().cycle(artery));
    push_measure_line(out, share, 6)
}

/// Writes the lines of both bands on a link.
fn push_both_bands(
    out: &mut Vec<u8>,
    artery: &Artery,
    timing: &LinkTiming,
    link: u32,
) -> Result<(), Memory>
    requires first { 1 ≤ link }
    requires last { link < length timing.now.patterns }
    ensures { OnOk result (out.new.items ≡ out.old.items ++ both_band_lines artery.now timing.now link) }
{
    push_link_band(out, artery, timing, Dir::Outbound, link)?;
    push_link_band(out, artery, timing, Dir::Inbound, link)
}

/// Writes the lines of the bands, from the first link on.
pub fn push_link_bands(
    out: &mut Vec<u8>,
    artery: &Artery,
    timing: &LinkTiming,
) -> Result<(), Memory>
    requires { IsFor artery.now (link_base timing.now) }
    ensures { OnOk result (out.new.items ≡ out.old.items ++ link_band_lines artery.now timing.now) }
{
    for link in 1..artery.count() {
        push_both_bands(out, artery, timing, link)?;
    }
    Ok(())
}
