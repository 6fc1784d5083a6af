//! The lines of what a search found.

ghost use Rattle.std.specs.Prelude.{◌≡◌, ◌++◌, IfOk, OnOk, IfSome, option_map};
ghost use Rattle.progression.specs.{Street.{count}, Good.{Good}};
ghost use Rattle.linear_theory.specs.Boxes.{IsBoxOf};
ghost use Rattle.certificate_model.specs.Families.{table_of};
ghost use Rattle.box_search.specs.SiteNames.{StopsAt, EndsAt};
ghost use Rattle.diagram_print.specs.Report.{timing_lines, bound_line, found_lines, best_lines, open_lines, verdict_lines, report_lines};

use crate::chart::push_diagram;
use crate::measures::push_measure_lines;
use crate::offsets::push_signal_lines;
use crate::speeds::push_link_lines;
use crate::stopped::push_stop_lines;
use artery_model::Artery;
use box_search::{FoundOf, Stop, Verdict};
use certificate_model::{FAMILIES, FamilyName};
use narrow_fraction::{Frac, Memory};
use quantity_text::{push_bytes, push_exact, push_text};
use std::alloc::Global;
use time_space::Timing;

/// Writes the lines of the timing of a stopped search, if there is one.
fn push_found(out: &mut Vec<u8>, timing: Option<Vec<u8>>) -> Result<(), Memory>
    ensures { OnOk result (out.new.items ≡ out.old.items ++ found_lines (option_map (λ t. t.items) timing)) }
{
    match timing {
        Some(timing) => push_bytes(out, timing.as_slice()),
        None => push_text(out, "no timing\n"),
    }
}

/// Writes the lines of the timing that a best verdict claims.
fn push_best(out: &mut Vec<u8>, timing: Option<Vec<u8>>) -> Result<(), Memory>
    ensures { OnOk result (out.new.items ≡ out.old.items ++ best_lines (option_map (λ t. t.items) timing)) }
{
    push_text(out, "verdict best\n")?;
    if let Some(timing) = timing {
        push_bytes(out, timing.as_slice())?;
    }
    Ok(())
}

/// Writes the line of the bound.
fn push_bound(out: &mut Vec<u8>, bound: Frac) -> Result<(), Memory>
    ensures { OnOk result (out.new.items ≡ out.old.items ++ bound_line bound) }
{
    push_text(out, "bound ")?;
    push_exact(out, bound)?;
    push_text(out, "\n")
}

/// Writes the lines of a stopped search.
fn push_open(
    out: &mut Vec<u8>,
    artery: &Artery,
    names: &[FamilyName],
    stop: &Stop,
    bound: Frac,
    timing: Option<Vec<u8>>,
) -> Result<(), Memory>
    requires { StopsAt (λ site. IsBoxOf artery.now site.area) stop.now }
    ensures { OnOk result (out.new.items ≡ out.old.items ++ open_lines (table_of names.now) (count artery.now) (option_map (λ t. t.items) timing) bound stop.now) }
{
    push_text(out, "verdict open\n")?;
    push_stop_lines(out, artery, names, stop)?;
    push_bound(out, bound)?;
    push_found(out, timing)
}

/// The lines that tell how a search of this artery ended, whatever kind of timing it looked for: the verdict; where the search
/// stopped, why, and the bound; and the lines of the timing, or that there is none. The rows have their names in a table of
/// families, and the box of a site of a stop is one of the artery. The error is want of memory.
pub fn verdict_lines(
    alloc: Global,
    artery: &Artery,
    names: &[FamilyName],
    verdict: &Verdict,
    bound: Frac,
    timing: Option<Vec<u8>>,
) -> Result<Vec<u8>, Memory>
    requires { EndsAt (λ site. IsBoxOf artery.now site.area) verdict.now }
    ensures { IfOk result (λ lines. lines.items ≡ verdict_lines (table_of names.now) (count artery.now) (option_map (λ t. t.items) timing) bound verdict.now) }
{
    let mut lines = Vec::new(alloc);
    match verdict {
        Verdict::Best => push_best(&mut lines, timing)?,
        Verdict::NoTiming => push_text(&mut lines, "verdict none\n")?,
        Verdict::Stopped(stop) => push_open(&mut lines, artery, names, stop, bound, timing)?,
    }
    Ok(lines)
}

/// Writes the lines of a timing.
fn push_timing_lines(out: &mut Vec<u8>, artery: &Artery, timing: &Timing) -> Result<(), Memory>
    requires { Good artery.now timing.now }
    ensures { OnOk result (out.new.items ≡ out.old.items ++ timing_lines artery.now timing.now) }
{
    let base = timing.base();
    push_measure_lines(out, artery, timing)?;
    push_signal_lines(out, artery, base)?;
    push_link_lines(out, artery, base)?;
    push_text(out, "diagram\n")?;
    push_diagram(out, artery, timing)
}

/// The lines of the timing that a search found, where there is one.
fn lines_of(
    alloc: Global,
    artery: &Artery,
    timing: &Option<Timing>,
) -> Result<Option<Vec<u8>>, Memory>
    requires { IfSome timing.now (λ t. Good artery.now t) }
    ensures { IfOk result (λ lines. option_map (λ l. l.items) lines ≡ option_map (timing_lines artery.now) timing.now) }
{
    match timing {
        Some(timing) => {
            let mut lines = Vec::new(alloc);
            push_timing_lines(&mut lines, artery, timing)?;
            Ok(Some(lines))
        }
        None => Ok(None),
    }
}

/// The lines that tell what a search of this artery found: the verdict; where the search stopped, why, and the bound; and
/// the timing, or that there is none. Of a timing there are the weighted band, both bands, the cycle, each signal's pattern,
/// offset and name, each link's speeds and the diagram; each number is exact and then cut after six decimal places, or three
/// of seconds and speeds. A timing is a good one of the artery, and the box of a site of a stop is one of the artery.
/// The error is want of memory.
#[tactic(auto, unfolding(certificate_model::specs::Families::ordinary))]
pub fn report(alloc: Global, artery: &Artery, found: &FoundOf<Timing>) -> Result<Vec<u8>, Memory>
    requires good { IfSome found.now.timing (λ t. Good artery.now t) }
    requires site { EndsAt (λ site. IsBoxOf artery.now site.area) found.now.verdict }
    ensures { IfOk result (λ lines. lines.items ≡ report_lines artery.now found.now) }
{
    let timing = lines_of(alloc, artery, &found.timing)?;
    verdict_lines(
        alloc,
        artery,
        &FAMILIES,
        &found.verdict,
        found.bound,
        timing,
    )
}
