//! As many numbers as the artery has signals and links.

ghost use Rattle.std.specs.Prelude.{◌≡◌};
ghost use Rattle.artery_model.specs.Faults.{Judges};
ghost use Rattle.typed_plan.specs.Counts.{measured_key, counted, links_counted, count_fault};

use artery_model::{Artery, Dir, Flaw, Kind};
use description_reader::{Measure, Section, TypedPlan, check_at};
use std::alloc::Global;

/// The key of a direction's numbers.
fn measured_key(measure: Measure, dir: Dir) -> &'static str
    ensures { result.now ≡ measured_key measure dir }
{
    match (measure, dir) {
        (Measure::Speed, Dir::Outbound) => "speed_out",
        (Measure::Travel, Dir::Outbound) => "travel_out",
        (Measure::Speed, Dir::Inbound) => "speed_in",
        (Measure::Travel, Dir::Inbound) => "travel_in",
    }
}

fn check_count(alloc: Global, found: usize, wanted: u32, key: &str) -> Result<(), Flaw>
    ensures { Judges result (counted found wanted key.now) }
{
    check_at(
        alloc,
        found == wanted as usize,
        Kind::CountMismatch,
        Section::Plan,
        key,
    )
}

fn check_links(alloc: Global, artery: &Artery, plan: &TypedPlan, dir: Dir) -> Result<(), Flaw>
    ensures { Judges result (links_counted artery.now plan.now dir) }
{
    let key = measured_key(plan.measure(dir), dir);
    check_count(alloc, plan.measured(dir).len(), artery.count() - 1, key)
}

/// Refuses a plan that has more or fewer numbers than the artery has signals or links.
pub fn check_counts(alloc: Global, artery: &Artery, plan: &TypedPlan) -> Result<(), Flaw>
    ensures { Judges result (count_fault artery.now plan.now) }
{
    let signals = artery.count();
    check_count(alloc, plan.offsets().len(), signals, "offset")?;
    check_count(alloc, plan.patterns().len(), signals, "patterns")?;
    check_links(alloc, artery, plan, Dir::Outbound)?;
    check_links(alloc, artery, plan, Dir::Inbound)
}
