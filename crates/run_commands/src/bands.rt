//! The command `bands`.

ghost use Rattle.std.specs.Prelude.{◌≡◌, ◌++◌, ◌<◌, None, Some, IfOk, IfSome, OnOk, codes, refl};
ghost use Rattle.progression.specs.{BaseRecord.{cycle}, Good.{IsBase}, TimingRecord.{base}};
ghost use Rattle.diagram_print.specs.Measures.{dir_name};
ghost use Rattle.run_inputs.specs.{Puts.{bytes_of}, Status.{IsOwnAnswer}};
ghost use Rattle.run_commands.specs.Bands.{widest_line, IsMeasured, BandsFinds};
ghost use Rattle.run_commands.specs.Ends.{IsTestEnd};
ghost use Rattle.run_commands.specs.declared.table.Usage.TheVariants as usage;

use crate::command::Command;
use crate::hold::fails;
use crate::lines::push_number_line;
use crate::settings::Settings;
use artery_model::{Artery, Dir};
use band_measure::{Widest, base_holds, widest};
use diagram_print::{dir_name, push_measure};
use narrow_fraction::Memory;
use quantity_text::push_text;
use run_inputs::{Cause, Found, told};
use std::alloc::Global;
use time_space::Timing;
use timing_measures::quotient;

/// Writes the line of a direction without a band.
fn push_no_band(out: &mut Vec<u8>, dir: Dir) -> Result<(), Memory>
    ensures { OnOk result (out.new.items ≡ out.old.items ++ (codes "no band " ++ (dir_name dir ++ codes "\n"))) }
{
    push_text(out, "no band ")?;
    push_text(out, dir_name(dir))?;
    push_text(out, "\n")
}

/// The name of a direction's band.
fn band_name(dir: Dir) -> &'static str
    ensures { result.now ≡ codes "band " ++ dir_name dir }
{
    match dir {
        Dir::Outbound => "band out",
        Dir::Inbound => "band in",
    }
}

/// Writes the line of a direction's widest band, a fraction of the cycle, with the tick of its first line.
fn push_band(
    out: &mut Vec<u8>,
    artery: &Artery,
    timing: &Timing,
    dir: Dir,
    widest: Widest,
) -> Result<(), Memory>
    requires { widest.band < cycle artery.now (base timing.now) }
    ensures { OnOk result (out.new.items ≡ out.old.items ++ widest_line artery.now timing.now dir (Some widest)) }
{
    push_text(out, band_name(dir))?;
    push_measure(out, quotient(widest.band, timing.base().cycle(artery)), 6)?;
    push_number_line(out, " first ", widest.first)
}

/// Writes the line of what is measured of a direction.
pub fn push_widest(
    out: &mut Vec<u8>,
    artery: &Artery,
    timing: &Timing,
    dir: Dir,
    found: Option<Widest>,
) -> Result<(), Memory>
    requires { IfSome found (λ w. w.band < cycle artery.now (base timing.now)) }
    ensures { OnOk result (out.new.items ≡ out.old.items ++ widest_line artery.now timing.now dir found) }
{
    match found {
        Some(widest) => push_band(out, artery, timing, dir, widest),
        None => push_no_band(out, dir),
    }
}

/// The lines of the widest bands on the offsets of a timing whose base keeps its rules.
pub fn measured(alloc: Global, artery: &Artery, timing: &Timing) -> Result<Vec<u8>, Memory>
    requires { IsBase artery.now (base timing.now) }
    ensures { IfOk result (λ lines. IsMeasured artery.now timing.now lines.items) }
{
    artery.known_valid();
    prove!(2 <= timing.unit());
    let outbound = widest(artery, timing, Dir::Outbound);
    let inbound = widest(artery, timing, Dir::Inbound);
    let mut lines = Vec::new(alloc);
    push_widest(&mut lines, artery, timing, Dir::Outbound, outbound)?;
    push_widest(&mut lines, artery, timing, Dir::Inbound, inbound)?;
    Ok(lines)
}

/// Measures the greatest band of each direction on the offsets of the timing, whatever its firsts and bands: where its base
/// keeps the rules, else the answer has the first that it breaks.
fn measure_bands(alloc: Global, artery: &Artery, timing: &Timing) -> Result<Found, Memory>
    ensures finds { IfOk result (λ a. BandsFinds artery.now timing.now a.cause a.lines.items) }
    ensures ends { IfOk result (λ a. IsTestEnd a.cause) }
    ensures answer { IfOk result (λ a. IsOwnAnswer a.cause (bytes_of a)) }
{
    if let Err(failing) = base_holds(artery, timing) {
        return fails(alloc, failing);
    }
    let lines = measured(alloc, artery, timing)?;
    Ok(told(Cause::Done, lines))
}

/// The command `bands`.
pub struct Bands;

impl Command for Bands {
    type Reads = (Artery, (Timing, ()));

    ghost usage = { usage.Bands };

    fn find(
        alloc: Global,
        read: &(Artery, (Timing, ())),
        _settings: &Settings<'_>,
    ) -> Result<Found, Memory> {
        let (artery, (timing, ())) = read;
        measure_bands(alloc, artery, timing)
    }

    ghost same = { refl };
}
