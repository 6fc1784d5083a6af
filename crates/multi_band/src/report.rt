//! The lines of what a search of link timings found.

ghost use Rattle.std.specs.Prelude.{◌≡◌, ◌++◌, IfOk, OnOk, IfSome, option_map};
ghost use Rattle.progression.specs.Good.{IsBase};
ghost use Rattle.diagram_print.specs.{Measures.{cycle_line}, Offsets.{signal_lines}, Speeds.{link_lines}};
ghost use Rattle.link_theory.specs.GoodLinks.{GoodLinks};
ghost use Rattle.multi_band.specs.{LinkSites.{HasLinkSite}, LinkReport.{link_timing_lines, link_report_lines}};

use crate::band_lines::push_link_bands;
use crate::found::LinkFound;
use artery_model::Artery;
use diagram_print::{
    push_cycle_line, push_link_lines, push_measure_line, push_signal_lines, verdict_lines,
};
use link_proof::link_families;
use link_space::{LinkTiming, link_value};
use narrow_fraction::Memory;
use quantity_text::push_text;
use std::alloc::Global;
use time_space::Base;

/// Writes the lines of the cycle, of the signals and of the speeds.
fn push_base_lines(out: &mut Vec<u8>, artery: &Artery, base: &Base) -> Result<(), Memory>
    requires { IsBase artery.now base.now }
    ensures { OnOk result (out.new.items ≡ out.old.items ++ (cycle_line artery.now base.now ++ (signal_lines artery.now base.now ++ link_lines artery.now base.now))) }
{
    push_cycle_line(out, artery, base)?;
    push_signal_lines(out, artery, base)?;
    push_link_lines(out, artery, base)
}

/// Writes the lines of a link timing.
fn push_link_timing(out: &mut Vec<u8>, artery: &Artery, timing: &LinkTiming) -> Result<(), Memory>
    requires { GoodLinks artery.now timing.now }
    ensures { OnOk result (out.new.items ≡ out.old.items ++ link_timing_lines artery.now timing.now) }
{
    push_text(out, "weighted")?;
    push_measure_line(out, link_value(artery, timing), 6)?;
    push_link_bands(out, artery, timing)?;
    push_base_lines(out, artery, timing.base())
}

/// The lines of the link timing that a search found, where there is one.
fn lines_of(
    alloc: Global,
    artery: &Artery,
    timing: &Option<LinkTiming>,
) -> Result<Option<Vec<u8>>, Memory>
    requires { IfSome timing.now (λ t. GoodLinks artery.now t) }
    ensures { IfOk result (λ lines. option_map (λ l. l.items) lines ≡ option_map (link_timing_lines artery.now) timing.now) }
{
    match timing {
        Some(timing) => {
            let mut lines = Vec::new(alloc);
            push_link_timing(&mut lines, artery, timing)?;
            Ok(Some(lines))
        }
        None => Ok(None),
    }
}

/// The lines that tell what a search of this artery's links found: the verdict; where the search stopped, why, and the bound; and the
/// link timing, or that there is none. Of a link timing there are its value, each link's bands as fractions of the cycle, outbound
/// and inbound, the cycle, each signal's pattern, offset and name, and each link's speeds; each number is exact and then cut after
/// six decimal places, or three of seconds and speeds. There is no diagram, since no band goes all the way.
///
/// A link timing is a good one of the artery, and a site of a stop names rows and columns of its links. The error is want of memory.
pub fn link_report(alloc: Global, artery: &Artery, found: &LinkFound) -> Result<Vec<u8>, Memory>
    requires good { IfSome found.now.timing (λ t. GoodLinks artery.now t) }
    requires site { HasLinkSite artery.now found.now.verdict }
    ensures { IfOk result (λ lines. lines.items ≡ link_report_lines artery.now found.now) }
{
    let timing = lines_of(alloc, artery, &found.timing)?;
    verdict_lines(
        alloc,
        artery,
        link_families(),
        &found.verdict,
        found.bound,
        timing,
    )
}
