//! What stands in a typed plan.

ghost use Rattle.std.specs.{Prelude.{◌≡◌, ◌++◌, OnOk, length}, Fmt.{decimal}};
ghost use Rattle.text_words.specs.Plans.{cycle_text, counts_text, plan_line, reference_line, measure_words, measured_text, links_line, counted, wants_text, has_text, has_line, fit_line, plan_words};

use artery_model::Dir;
use description_reader::{Measure, Reference, TypedPlan};
use narrow_fraction::Memory;
use quantity_text::{push_exact, push_number, push_text};

#[tactic(auto, unfolding(crate::specs::Plans::cycle_text))]
fn push_cycle(out: &mut Vec<u8>, plan: &TypedPlan) -> Result<(), Memory>
    ensures { OnOk result (out.new.items ≡ out.old.items ++ cycle_text plan.now) }
{
    let cycle = plan.cycle();
    push_text(out, "cycle ")?;
    push_exact(out, cycle)?;
    push_text(out, " s, offsets in seconds ")
}

/// Writes how many offsets there are.
fn push_offsets(out: &mut Vec<u8>, plan: &TypedPlan) -> Result<(), Memory>
    ensures { OnOk result (out.new.items ≡ out.old.items ++ decimal (length plan.now.offsets)) }
{
    push_number(out, plan.offsets().len() as u128)
}

/// Writes how many patterns there are.
fn push_patterns(out: &mut Vec<u8>, plan: &TypedPlan) -> Result<(), Memory>
    ensures { OnOk result (out.new.items ≡ out.old.items ++ decimal (length plan.now.patterns)) }
{
    push_number(out, plan.patterns().len() as u128)
}

#[tactic(auto, unfolding(crate::specs::Plans::counts_text))]
fn push_counts(out: &mut Vec<u8>, plan: &TypedPlan) -> Result<(), Memory>
    ensures { OnOk result (out.new.items ≡ out.old.items ++ counts_text plan.now) }
{
    push_offsets(out, plan)?;
    push_text(out, ", left turn patterns ")?;
    push_patterns(out, plan)?;
    push_text(out, "\n")
}

fn push_plan(out: &mut Vec<u8>, plan: &TypedPlan) -> Result<(), Memory>
    ensures { OnOk result (out.new.items ≡ out.old.items ++ plan_line plan.now) }
{
    push_cycle(out, plan)?;
    push_counts(out, plan)
}

fn reference_line(reference: Reference) -> &'static str
    ensures { result.now ≡ reference_line reference }
{
    match reference {
        Reference::Red => "each offset is when the common red of its signal starts\n",
        Reference::GreenOut => "each offset is when the outbound green of its signal starts\n",
        Reference::GreenIn => "each offset is when the inbound green of its signal starts\n",
        Reference::FirstGreen => {
            "each offset is when the green of its signal starts that starts first after the common red\n"
        }
        Reference::EndOut => "each offset is when the outbound green of its signal ends\n",
        Reference::EndIn => "each offset is when the inbound green of its signal ends\n",
    }
}

/// Writes from which moment the offsets count.
fn push_reference(out: &mut Vec<u8>, plan: &TypedPlan) -> Result<(), Memory>
    ensures { OnOk result (out.new.items ≡ out.old.items ++ reference_line plan.now.reference) }
{
    push_text(out, reference_line(plan.reference()))
}

fn measure_words(measure: Measure) -> &'static str
    ensures { result.now ≡ measure_words measure }
{
    match measure {
        Measure::Speed => "speeds ",
        Measure::Travel => "times of travel ",
    }
}

#[tactic(auto, unfolding(crate::specs::Plans::measured_text))]
fn push_measured(out: &mut Vec<u8>, plan: &TypedPlan, dir: Dir) -> Result<(), Memory>
    ensures { OnOk result (out.new.items ≡ out.old.items ++ measured_text plan.now dir) }
{
    push_text(out, measure_words(plan.measure(dir)))?;
    push_number(out, plan.measured(dir).len() as u128)
}

#[tactic(auto, unfolding(crate::specs::Plans::links_line))]
fn push_links(out: &mut Vec<u8>, plan: &TypedPlan) -> Result<(), Memory>
    ensures { OnOk result (out.new.items ≡ out.old.items ++ links_line plan.now) }
{
    push_text(out, "outbound ")?;
    push_measured(out, plan, Dir::Outbound)?;
    push_text(out, ", inbound ")?;
    push_measured(out, plan, Dir::Inbound)?;
    push_text(out, ", of the links in order\n")
}

#[tactic(auto, unfolding(crate::specs::Plans::counted))]
fn push_counted(out: &mut Vec<u8>, label: &str, count: usize) -> Result<(), Memory>
    ensures { OnOk result (out.new.items ≡ out.old.items ++ counted label.now count) }
{
    push_text(out, label)?;
    push_number(out, count as u128)
}

/// Writes what a street of so many signals and links wants.
#[tactic(auto, unfolding(crate::specs::Plans::wants_text))]
fn push_wants(out: &mut Vec<u8>, signals: usize, links: usize) -> Result<(), Memory>
    ensures { OnOk result (out.new.items ≡ out.old.items ++ wants_text signals links) }
{
    push_counted(out, "a street of ", signals)?;
    push_counted(out, " signals wants offsets ", signals)?;
    push_counted(out, ", patterns ", signals)?;
    push_counted(out, ", numbers a direction ", links)
}

/// Writes how many of each there are.
#[tactic(auto, unfolding(crate::specs::Plans::has_text))]
fn push_has(
    out: &mut Vec<u8>,
    offsets: usize,
    patterns: usize,
    outbound: usize,
    inbound: usize,
) -> Result<(), Memory>
    ensures { OnOk result (out.new.items ≡ out.old.items ++ has_text offsets patterns outbound inbound) }
{
    push_counted(out, "; this plan has offsets ", offsets)?;
    push_counted(out, ", patterns ", patterns)?;
    push_counted(out, ", outbound ", outbound)?;
    push_counted(out, ", inbound ", inbound)?;
    push_text(out, "\n")
}

/// Writes how many of each a plan has.
fn push_its_counts(out: &mut Vec<u8>, plan: &TypedPlan) -> Result<(), Memory>
    ensures { OnOk result (out.new.items ≡ out.old.items ++ has_line plan.now) }
{
    let offsets = plan.offsets().len();
    let patterns = plan.patterns().len();
    let outbound = plan.measured(Dir::Outbound).len();
    let inbound = plan.measured(Dir::Inbound).len();
    push_has(out, offsets, patterns, outbound, inbound)
}

/// Writes which streets a plan fits.
#[tactic(auto, unfolding(crate::specs::Plans::fit_line))]
fn push_fit(out: &mut Vec<u8>, plan: &TypedPlan) -> Result<(), Memory>
    ensures { OnOk result (out.new.items ≡ out.old.items ++ fit_line plan.now) }
{
    let signals = plan.offsets().len();
    push_wants(out, signals, signals.saturating_sub(1))?;
    push_its_counts(out, plan)
}

/// Writes what stands in a plan as people type it: how many numbers there are, from which moment its offsets count, which streets they fit, and
/// that its timing wants the street. The error is want of memory.
#[tactic(auto, unfolding(crate::specs::Plans::plan_words))]
pub fn push_plan_words(out: &mut Vec<u8>, plan: &TypedPlan) -> Result<(), Memory>
    ensures { OnOk result (out.new.items ≡ out.old.items ++ plan_words plan.now) }
{
    push_plan(out, plan)?;
    push_reference(out, plan)?;
    push_links(out, plan)?;
    push_fit(out, plan)?;
    push_text(
        out,
        "its timing and its bands want the street: `maxband timing STREET PLAN NEW`\n",
    )
}
