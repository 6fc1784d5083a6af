//! The lines of what `check` and `check-links` find.

ghost use Rattle.std.specs.{Prelude.{◌≡◌, ◌≢◌, ◌++◌, OnOk, codes}, Fmt.{decimal}};
ghost use Rattle.certificate_model.specs.Families.{table_of};
ghost use Rattle.diagram_print.specs.Names.{row_text_in, place_text};
ghost use Rattle.run_commands.specs.Lines.{failing_text};
ghost use Rattle.certificate_checker.specs.declared.reject.Reject.TheVariants as refusal;
ghost use Rattle.run_commands.specs.CheckLines.{open_line, accepted_line};
ghost use Rattle.run_commands.specs.CheckLines.{leaf_line, wide_line, value_line, below_line, weak_line, timing_line, rejected_line, link_failing_text, link_rejected_line};

use crate::lines::{
    push_crossing, push_exact_line, push_failing, push_failing_line, push_number_line,
    push_pair_line,
};
use certificate_checker::Reject;
use diagram_print::{push_place, push_row};
use link_proof::{LinkReject, link_families};
use link_space::LinkFailing;
use named_row::{Place, RowId};
use narrow_fraction::{Frac, Memory};
use plan_text::{Claim, FAMILIES, FamilyName};
use quantity_text::push_text;
use run_inputs::push_numbered;
use time_space::Failing;

/// Writes the line of a bound, and of the value where a timing was found.
fn push_open(out: &mut Vec<u8>, bound: Frac, value: Option<Frac>) -> Result<(), Memory>
    ensures { OnOk result (out.new.items ≡ out.old.items ++ open_line bound value) }
{
    match value {
        Some(value) => push_pair_line(out, "accepted open bound ", bound, " value ", value),
        None => push_exact_line(out, "accepted open bound ", bound),
    }
}

/// Writes the line of an accepted certificate that claims this.
pub fn push_accepted(out: &mut Vec<u8>, claim: Claim) -> Result<(), Memory>
    ensures { OnOk result (out.new.items ≡ out.old.items ++ accepted_line claim) }
{
    match claim {
        Claim::Best { value } => push_exact_line(out, "accepted best ", value),
        Claim::NoTiming => push_text(out, "accepted none\n"),
        Claim::Stopped { bound, value } => push_open(out, bound, value),
    }
}

/// Writes what begins so, the number of a leaf and the name of its row, whose family this table names.
fn push_leaf_row(
    out: &mut Vec<u8>,
    begin: &str,
    names: &[FamilyName],
    leaf: u64,
    row: RowId,
) -> Result<(), Memory>
    ensures { OnOk result (out.new.items ≡ out.old.items ++ (begin.now ++ (decimal leaf ++ (codes " " ++ row_text_in (table_of names.now) row)))) }
{
    push_numbered(out, begin, leaf as u128)?;
    push_text(out, " ")?;
    push_row(out, names, row)
}

/// Writes the end of a line that names a place.
fn push_at(out: &mut Vec<u8>, signals: u32, place: Place) -> Result<(), Memory>
    ensures { OnOk result (out.new.items ≡ out.old.items ++ (codes " " ++ (place_text signals place ++ codes "\n"))) }
{
    push_text(out, " ")?;
    push_place(out, signals, place)?;
    push_text(out, "\n")
}

/// Writes the line of a row of a leaf, whose family this table names.
fn push_leaf(
    out: &mut Vec<u8>,
    names: &[FamilyName],
    fault: &str,
    leaf: u64,
    row: RowId,
) -> Result<(), Memory>
    ensures { OnOk result (out.new.items ≡ out.old.items ++ leaf_line (table_of names.now) fault.now leaf row) }
{
    push_text(out, "rejected ")?;
    push_text(out, fault)?;
    push_leaf_row(out, " leaf ", names, leaf, row)?;
    push_text(out, "\n")
}

/// Writes the line of a row of a leaf that isn't there.
fn push_missing(
    out: &mut Vec<u8>,
    names: &[FamilyName],
    leaf: u64,
    row: RowId,
) -> Result<(), Memory>
    ensures { OnOk result (out.new.items ≡ out.old.items ++ leaf_line (table_of names.now) (codes "row") leaf row) }
{
    push_leaf(out, names, "row", leaf, row)
}

/// Writes the line of a row of a leaf whose multiplier is below 0.
fn push_negative(
    out: &mut Vec<u8>,
    names: &[FamilyName],
    leaf: u64,
    row: RowId,
) -> Result<(), Memory>
    ensures { OnOk result (out.new.items ≡ out.old.items ++ leaf_line (table_of names.now) (codes "negative") leaf row) }
{
    push_leaf(out, names, "negative", leaf, row)
}

/// Writes the line of a leaf's sum that leaves 128 bits.
fn push_wide(
    out: &mut Vec<u8>,
    names: &[FamilyName],
    signals: u32,
    leaf: u64,
    row: RowId,
    place: Place,
) -> Result<(), Memory>
    ensures { OnOk result (out.new.items ≡ out.old.items ++ wide_line (table_of names.now) signals leaf row place) }
{
    push_leaf_row(out, "rejected wide leaf ", names, leaf, row)?;
    push_at(out, signals, place)
}

/// Writes the line of a leaf's sum that is too weak.
fn push_weak(out: &mut Vec<u8>, signals: u32, leaf: u64, place: Place) -> Result<(), Memory>
    ensures { OnOk result (out.new.items ≡ out.old.items ++ weak_line signals leaf place) }
{
    push_numbered(out, "rejected weak leaf ", leaf as u128)?;
    push_at(out, signals, place)
}

/// Writes the line of a value that isn't the one that is claimed.
fn push_value(out: &mut Vec<u8>, kept: Frac, claimed: Frac) -> Result<(), Memory>
    ensures { OnOk result (out.new.items ≡ out.old.items ++ value_line kept claimed) }
{
    push_pair_line(out, "rejected value kept ", kept, " claimed ", claimed)
}

/// Writes the line of a bound below the value.
fn push_below(out: &mut Vec<u8>, bound: Frac, value: Frac) -> Result<(), Memory>
    ensures { OnOk result (out.new.items ≡ out.old.items ++ below_line bound value) }
{
    push_pair_line(out, "rejected bound ", bound, " value ", value)
}

/// Writes the line of a timing that breaks a rule.
fn push_timing(out: &mut Vec<u8>, failing: Failing) -> Result<(), Memory>
    ensures { OnOk result (out.new.items ≡ out.old.items ++ timing_line (failing_text failing)) }
{
    push_failing_line(out, "rejected timing ", failing)
}

/// Writes the line of a refusal on an artery with so many signals. A refusal for want of memory has none, and is told as such.
#[tactic(auto, unfolding(certificate_model::specs::Families::ordinary))]
pub fn push_rejected(out: &mut Vec<u8>, signals: u32, reject: &Reject) -> Result<(), Memory>
    ensures kept { OnOk result (reject.now ≢ Reject.Memory) }
    ensures line { OnOk result (out.new.items ≡ out.old.items ++ rejected_line signals reject.now) }
{
    match reject {
        Reject::TimingFails(failing) => push_timing(out, *failing),
        Reject::ValueDiffers { kept, claimed } => push_value(out, *kept, *claimed),
        Reject::BoundBelow { bound, value } => push_below(out, *bound, *value),
        Reject::SplitOutside { node } => {
            push_number_line(out, "rejected split node ", *node as u128)
        }
        Reject::NoSuchRow { leaf, row } => push_missing(out, &FAMILIES, *leaf, *row),
        Reject::Negative { leaf, row } => push_negative(out, &FAMILIES, *leaf, *row),
        Reject::Wide { leaf, row, at } => {
            push_wide(out, &FAMILIES, signals, *leaf, *row, at.place)
        }
        Reject::LeafTooWeak { leaf, place } => push_weak(out, signals, *leaf, *place),
        Reject::Memory => Err(Memory),
    }
}

/// Writes the text that names a broken rule of link timings.
fn push_link_failing(out: &mut Vec<u8>, failing: LinkFailing) -> Result<(), Memory>
    ensures { OnOk result (out.new.items ≡ out.old.items ++ link_failing_text failing) }
{
    match failing {
        LinkFailing::Base(failing) => push_failing(out, failing),
        LinkFailing::Ratio { link } => push_numbered(out, "ratio link ", link as u128),
        LinkFailing::Outbound { link, signal, tick } => {
            push_numbered(out, "outbound link ", link as u128)?;
            push_crossing(out, signal, tick)
        }
        LinkFailing::Inbound { link, signal, tick } => {
            push_numbered(out, "inbound link ", link as u128)?;
            push_crossing(out, signal, tick)
        }
    }
}

/// Writes the line of a link timing that breaks a rule.
fn push_link_timing(out: &mut Vec<u8>, failing: LinkFailing) -> Result<(), Memory>
    ensures { OnOk result (out.new.items ≡ out.old.items ++ timing_line (link_failing_text failing)) }
{
    push_text(out, "rejected timing ")?;
    push_link_failing(out, failing)?;
    push_text(out, "\n")
}

/// Writes the line of a refusal of a certificate of link timings, on an artery with so many signals. A refusal for want of memory
/// has none, and is told as such.
pub fn push_link_rejected(
    out: &mut Vec<u8>,
    signals: u32,
    reject: &LinkReject,
) -> Result<(), Memory>
    ensures kept { OnOk result (reject.now ≢ refusal.Memory) }
    ensures line { OnOk result (out.new.items ≡ out.old.items ++ link_rejected_line signals reject.now) }
{
    let names = link_families();
    match reject {
        LinkReject::TimingFails(failing) => push_link_timing(out, *failing),
        LinkReject::ValueDiffers { kept, claimed } => push_value(out, *kept, *claimed),
        LinkReject::BoundBelow { bound, value } => push_below(out, *bound, *value),
        LinkReject::SplitOutside { node } => {
            push_number_line(out, "rejected split node ", *node as u128)
        }
        LinkReject::NoSuchRow { leaf, row } => push_missing(out, names, *leaf, *row),
        LinkReject::Negative { leaf, row } => push_negative(out, names, *leaf, *row),
        LinkReject::Wide { leaf, row, at } => {
            push_wide(out, names, signals, *leaf, *row, at.place)
        }
        LinkReject::LeafTooWeak { leaf, place } => push_weak(out, signals, *leaf, *place),
        LinkReject::Memory => Err(Memory),
    }
}
