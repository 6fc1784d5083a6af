//! Measures of a timing: each is printed exact, and cut after some decimal places.

ghost use Rattle.std.specs.Prelude.{◌≡◌, ◌++◌, [], ◌≤◌, ◌^◌, pos, ◌≤ℤ◌, OnOk};
ghost use Rattle.diagram_print.specs.Measures.{dir_name, measure_text, measure_line, weighted_line, band_line, cycle_line, measure_lines};

use artery_model::{Artery, Dir};
use narrow_fraction::{Frac, Memory};
use quantity_text::{push_decimal, push_exact, push_text};
use time_space::{Base, Timing, value};
use timing_measures::{band_share, cycle_seconds};

/// The printed name of a direction.
pub fn dir_name(dir: Dir) -> &'static str
    ensures { result.now ≡ dir_name dir }
{
    match dir {
        Dir::Outbound => "out",
        Dir::Inbound => "in",
    }
}

/// Writes what follows the name of a measure: a fraction, and the same fraction cut after so many decimal places.
pub fn push_measure(out: &mut Vec<u8>, value: Frac, places: u32) -> Result<(), Memory>
    requires least { pos 0 ≤ℤ value.num }
    requires denominator { value.den ≤ 2 ^ 120 }
    requires some_places { 1 ≤ places }
    requires most_places { places ≤ 9 }
    ensures { OnOk result (out.new.items ≡ out.old.items ++ measure_text [] value places) }
{
    push_text(out, " ")?;
    push_exact(out, value)?;
    push_text(out, " = ")?;
    push_decimal(out, value, places)
}

/// Writes the same, and the end of the line.
pub fn push_measure_line(out: &mut Vec<u8>, value: Frac, places: u32) -> Result<(), Memory>
    requires least { pos 0 ≤ℤ value.num }
    requires denominator { value.den ≤ 2 ^ 120 }
    requires some_places { 1 ≤ places }
    requires most_places { places ≤ 9 }
    ensures { OnOk result (out.new.items ≡ out.old.items ++ measure_line [] value places) }
{
    push_measure(out, value, places)?;
    push_text(out, "\n")
}

/// Writes the line of the weighted band.
pub fn push_weighted_line(out: &mut Vec<u8>, artery: &Artery, timing: &Timing) -> Result<(), Memory>
    ensures { OnOk result (out.new.items ≡ out.old.items ++ weighted_line artery.now timing.now) }
{
    push_text(out, "weighted")?;
    push_measure_line(out, value(artery, timing), 6)
}

/// Writes the line of a direction's band, a fraction of the cycle.
pub fn push_band_line(
    out: &mut Vec<u8>,
    artery: &Artery,
    timing: &Timing,
    dir: Dir,
) -> Result<(), Memory>
    ensures { OnOk result (out.new.items ≡ out.old.items ++ band_line artery.now timing.now dir) }
{
    push_text(out, "band ")?;
    push_text(out, dir_name(dir))?;
    push_measure_line(out, band_share(artery, timing, dir), 6)
}

/// Writes the line of the cycle, in seconds.
pub fn push_cycle_line(out: &mut Vec<u8>, artery: &Artery, base: &Base) -> Result<(), Memory>
    ensures { OnOk result (out.new.items ≡ out.old.items ++ cycle_line artery.now base.now) }
{
    push_text(out, "cycle")?;
    push_measure_line(out, cycle_seconds(artery, base), 3)
}

/// Writes the lines of the bands and of the cycle.
pub fn push_measure_lines(out: &mut Vec<u8>, artery: &Artery, timing: &Timing) -> Result<(), Memory>
    ensures { OnOk result (out.new.items ≡ out.old.items ++ measure_lines artery.now timing.now) }
{
    push_weighted_line(out, artery, timing)?;
    push_band_line(out, artery, timing, Dir::Outbound)?;
    push_band_line(out, artery, timing, Dir::Inbound)?;
    push_cycle_line(out, artery, timing.base())
}
