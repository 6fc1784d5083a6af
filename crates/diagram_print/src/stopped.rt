//! Why a search stopped.

ghost use Rattle.std.specs.Prelude.{◌≡◌, ◌++◌, ◌+◌, ◌≤◌, length, flat_map, OnOk};
ghost use Rattle.search_box.specs.Seen.{span_of};
ghost use Rattle.linear_theory.specs.Boxes.{IsBoxOf};
ghost use Rattle.progression.specs.Street.{count};
ghost use Rattle.certificate_model.specs.Families.{table_of};
ghost use Rattle.box_search.specs.SiteNames.{StopsAt};
ghost use Rattle.diagram_print.specs.Report.{span_text, ranks_text, loops_line, shifts_line, wide_lines, stop_lines};
ghost use Rattle.artery_model.specs.Bounds.{most_signals};

use crate::sites::{push_count_line, push_operands_line, push_site_line};
use artery_model::Artery;
use box_search::{Site, Stop};
use certificate_model::FamilyName;
use narrow_fraction::Memory;
use quantity_text::{push_text, push_whole};
use search_box::{SearchBox, Span};

/// Writes a space, and the two ends of a span.
fn push_span(out: &mut Vec<u8>, span: Span) -> Result<(), Memory>
    ensures { OnOk result (out.new.items ≡ out.old.items ++ span_text (span_of span)) }
{
    push_text(out, " ")?;
    push_whole(out, span.least as i128)?;
    push_text(out, ":")?;
    push_whole(out, span.most as i128)
}

/// Writes the spans of so many links.
fn push_loops(out: &mut Vec<u8>, area: &SearchBox, links: u32) -> Result<(), Memory>
    requires count { length area.now.loops ≡ links }
    requires few { links ≤ most_signals }
    ensures { OnOk result (out.new.items ≡ out.old.items ++ flat_map span_text area.now.loops) }
{
    for link in 1..links + 1 {
        push_span(out, area.loop_span(link))?;
    }
    Ok(())
}

/// Writes the ranks of so many signals.
fn push_shifts(out: &mut Vec<u8>, area: &SearchBox, signals: u32) -> Result<(), Memory>
    requires count { length area.now.turns ≡ signals }
    requires few { signals ≤ most_signals }
    ensures { OnOk result (out.new.items ≡ out.old.items ++ flat_map ranks_text area.now.turns) }
{
    for signal in 1..signals + 1 {
        push_span(out, area.turn_span(signal))?;
    }
    Ok(())
}

/// Writes the line of a box's spans of block sums, of so many links.
fn push_loops_line(out: &mut Vec<u8>, area: &SearchBox, links: u32) -> Result<(), Memory>
    requires count { length area.now.loops ≡ links }
    requires few { links ≤ most_signals }
    ensures { OnOk result (out.new.items ≡ out.old.items ++ loops_line area.now) }
{
    push_text(out, "loops")?;
    push_loops(out, area, links)?;
    push_text(out, "\n")
}

/// Writes the line of a box's spans of ranks, of so many signals.
fn push_shifts_line(out: &mut Vec<u8>, area: &SearchBox, signals: u32) -> Result<(), Memory>
    requires count { length area.now.turns ≡ signals }
    requires few { signals ≤ most_signals }
    ensures { OnOk result (out.new.items ≡ out.old.items ++ shifts_line area.now) }
{
    push_text(out, "shifts")?;
    push_shifts(out, area, signals)?;
    push_text(out, "\n")
}

/// Writes the lines of an operation that left 128 bits, on an artery with so many signals.
fn push_wide_lines(
    out: &mut Vec<u8>,
    names: &[FamilyName],
    signals: u32,
    site: &Site,
) -> Result<(), Memory>
    requires loops { length site.now.area.loops + 1 ≡ signals }
    requires turns { length site.now.area.turns ≡ signals }
    requires few { signals ≤ most_signals }
    ensures { OnOk result (out.new.items ≡ out.old.items ++ wide_lines (table_of names.now) signals site.now) }
{
    push_text(out, "stopped wide\n")?;
    push_loops_line(out, &site.area, signals - 1)?;
    push_shifts_line(out, &site.area, signals)?;
    push_count_line(out, "pivots ", site.pivots as u128)?;
    push_site_line(out, names, signals, site.part)?;
    push_operands_line(out, site.part)
}

/// Writes the lines that tell why a search of this artery stopped.
pub fn push_stop_lines(
    out: &mut Vec<u8>,
    artery: &Artery,
    names: &[FamilyName],
    stop: &Stop,
) -> Result<(), Memory>
    requires { StopsAt (λ site. IsBoxOf artery.now site.area) stop.now }
    ensures { OnOk result (out.new.items ≡ out.old.items ++ stop_lines (table_of names.now) (count artery.now) stop.now) }
{
    match stop {
        Stop::Work { spent } => push_count_line(out, "stopped work ", *spent as u128),
        Stop::Wide(site) => push_wide_lines(out, names, artery.count(), site),
    }
}
