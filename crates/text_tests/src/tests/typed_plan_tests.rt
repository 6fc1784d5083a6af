//! Tests of plans that people typed: `description_reader::read_plan` and `typed_plan`, through what is public of them.

use super::description_reader_tests::samples::read;
use artery_model::{Artery, Flaw};
use description_reader::{TypedPlan, read_plan};
use plan_text::write_timing;
use std::alloc::{AllocError, Global};
use std::rt::HostRuntime;
use std::test::Fail;
use test_bed::{TextReader, all_told, flaw_text};
use time_space::Timing;
use typed_plan::{Measured, TypedFault, timing_of};

/// What the street of the examples says of the whole.
static BROADWAY: &str =
    "[artery]\nname = \"Broadway\"\nunits = \"metric\"\nparts = 100\ncycle = [70, 100]\nratio = \"4/5\"\n";

/// Its signals, without remarks: the name of each, its red, and its left turns outbound and inbound.
static SIGNALS: [(&str, u32, u32, u32); 8] = [
    ("Front Street", 42, 0, 0),
    ("Church Street", 28, 0, 10),
    ("Court Street", 32, 12, 12),
    ("Main Street", 32, 0, 10),
    ("State Street", 42, 0, 0),
    ("Union Street", 34, 10, 0),
    ("College Street", 40, 0, 0),
    ("Park Avenue", 38, 0, 0),
];

/// How far its signals are apart, in metres.
static DISTANCES: [u32; 7] = [160, 160, 240, 240, 240, 175, 175];

/// The plan in whole seconds of the examples, as it stands on a sheet.
static PLAN: &str = "[plan]
cycle = 90
offset = [0, 18, 9, 45, 47, 2, 81, 4]
reference = \"red\"
patterns = [1, 2, 2, 1, 1, 1, 1, 1]
speed_out = [50, 50, 50, \"800/19\", 40, 50, 50]
speed_in = [50, 50, 40, 40, 40, 50, 50]
";

/// The same on its least grid, worked out by hand from the file of the examples.
static TIMING: &str = "maxband-timing 1
grid 50
unit 45
pattern 1 2 2 1 1 1 1 1
red 0 900 450 2250 2350 100 4050 200
run_out 576 576 864 1026 1080 630 630
run_in 576 576 1080 1080 1080 630 630
first 2034 1910
band 1764 1420
end
";

/// Changes of the plan that leave its timing as it is: none, times of travel, offsets from each other moment, and later ones.
static SAME: [&str; 9] = [
    "",
    "6 travel_out = [\"11.52\", \"11.52\", \"17.28\", \"20.52\", \"108/5\", \"12.6\", \"12.60\"]",
    "4",
    "4 reference = \"green_out\"|3 offset = [\"37.8\", \"52.2\", \"48.6\", \"73.8\", \"84.8\", \"32.6\", 27, \"38.2\"]",
    "4 reference = \"green_in\"|3 offset = [\"37.8\", \"43.2\", \"37.8\", \"73.8\", \"84.8\", \"41.6\", 27, \"38.2\"]",
    "4 reference = \"first_green\"|3 offset = [\"37.8\", \"43.2\", \"37.8\", \"73.8\", \"84.8\", \"32.6\", 27, \"38.2\"]",
    "4 reference = \"end_out\"|3 offset = [0, 18, 9, 36, 47, 2, 81, 4]",
    "4 reference = \"end_in\"|3 offset = [0, 18, \"88.2\", 45, 47, 2, 81, 4]",
    "4|3 offset = [90, 108, 99, 135, 137, 92, 171, 94]",
];

/// Changes of the plan, and why it is refused.
static REFUSALS: [&str; 27] = [
    "1 [plan -> NotToml file",
    "1 versoin = 1\n[plan] -> UnknownKey versoin",
    "2 cycle = 90\nname = \"x\" -> UnknownKey plan.name",
    "6 speed_out = [50, 50, 50, 40, 40, 50, 50]\ntravel_out = [9] -> UnknownKey plan.travel_out",
    "7 travel_in = [9]\nspeed_in = [50] -> UnknownKey plan.travel_in",
    "1 version = 1 -> UnknownKey cycle",
    "2 -> Missing plan.cycle",
    "3 -> Missing plan.offset",
    "5 -> Missing plan.patterns",
    "6 -> Missing plan.speed_out",
    "7 -> Missing plan.speed_in",
    "2 cycle = 90.0 -> WrongType plan.cycle",
    "3 offset = [0, 18, 9.5] -> WrongType plan.offset[3]",
    "5 patterns = [1, \"2\"] -> WrongType plan.patterns[2]",
    "2 cycle = \"1e2\" -> BadNumber plan.cycle",
    "3 offset = [0, 18, -1] -> OutOfRange plan.offset[3]",
    "4 reference = \"amber\" -> OutOfRange plan.reference",
    "4 reference = \"green\" -> OutOfRange plan.reference",
    "6 speed_out = [\"999999999999999998/999999999999999999\"] -> OutOfRange plan.speed_out[1]",
    "7 speed_in = [50, \"300.000000000000000001\"] -> OutOfRange plan.speed_in[2]",
    "6 speed_out = [\"1000000000000000000/1\"] -> BadNumber plan.speed_out[1]",
    "1 version = 2\n[plan] -> OutOfRange version",
    "3 offset = [0, 18, 9, 45, 47, 2, 81] -> CountMismatch plan.offset",
    "5 patterns = [1, 2, 2, 1, 1, 1, 1, 1, 1] -> CountMismatch plan.patterns",
    "6 travel_out = [9] -> CountMismatch plan.travel_out",
    "6 speed_out = [\"99.991\", \"99.989\", \"99.971\", \"99.961\", \"99.929\", \"99.923\", \"99.907\"] -> ticks 99841088358677995881502010",
    "3 offset = [0, \"0.001\", 9, 45, 47, 2, 81, 4]|6 speed_out = [\"999999999999999989/20000000000000000\", \"999999999999999967/20000000000000000\", 50, 40, 50, 50, 50] -> ticks 170141183460469231731687303715884105727",
];

/// Writes the signals at the end.
fn push_signals(out: &mut String, alloc: Global) -> Result<(), AllocError> {
    for (name, red, left_out, left_in) in SIGNALS {
        let signal = format!(in alloc;
            "[[signal]]\nname = \"{name}\"\nred = {red}\nleft_out = {left_out}\nleft_in = {left_in}\n"
        )?;
        out.push_str(signal.as_str())?;
    }
    Ok(())
}

/// Writes the links at the end.
fn push_links(out: &mut String, alloc: Global) -> Result<(), AllocError> {
    for distance in DISTANCES {
        let link = format!(in alloc;
            "[[link]]\ndistance_out = {distance}\ndistance_in = {distance}\nspeed_out = [40, 50]\nspeed_in = [40, 50]\n"
        )?;
        out.push_str(link.as_str())?;
    }
    Ok(())
}

/// The description of the street of the examples.
fn broadway_text(alloc: Global) -> Result<String, AllocError> {
    let mut out = String::from_str(alloc, BROADWAY)?;
    push_signals(&mut out, alloc)?;
    push_links(&mut out, alloc)?;
    Ok(out)
}

/// The street of the examples.
fn broadway(alloc: Global) -> Result<Artery, Fail> {
    let text = broadway_text(alloc)?;
    Ok(read(alloc, text.as_bytes())?)
}

fn text_of(alloc: Global, timing: &Timing) -> Result<String, Fail> {
    let text = write_timing(alloc, timing)?;
    Ok(String::from_utf8(text)?)
}

fn fault_text(alloc: Global, fault: TypedFault) -> Result<String, Fail> {
    match fault {
        TypedFault::Refused(refusal) => Ok(flaw_text(alloc, Flaw::Refused(refusal))?),
        TypedFault::TooFine { ticks } => Ok(format!(in alloc; "ticks {ticks}")?),
        TypedFault::Memory => Err("memory".into()),
    }
}

/// The plan's timing, with nothing said of it.
fn timing(alloc: Global, artery: &Artery, plan: &TypedPlan) -> Result<Measured, TypedFault> {
    timing_of(alloc, artery, plan)
}

/// The text of the plan's timing, or why there is none.
fn timed(alloc: Global, artery: &Artery, plan: &TypedPlan) -> Result<String, Fail> {
    match timing(alloc, artery, plan) {
        Ok(made) => text_of(alloc, &made.timing),
        Err(fault) => fault_text(alloc, fault),
    }
}

fn plan_of(alloc: Global, text: &[u8]) -> Result<TypedPlan, Flaw> {
    read_plan(alloc, text)
}

/// The reader of plans for this street: it answers with the text of the timing, or why there is none.
#[derive(Clone, Copy, Drop)]
struct Plans<'a> {
    artery: &'a Artery,
}

impl TextReader for Plans<'_> {
    fn answer(&self, alloc: Global, text: &[u8]) -> Result<String, Fail> {
        match plan_of(alloc, text) {
            Ok(plan) => timed(alloc, self.artery, &plan),
            Err(flaw) => Ok(flaw_text(alloc, flaw)?),
        }
    }
}

/// Fails where these changes of the plan give another timing.
fn same_is_told(alloc: Global, plans: &Plans<'_>, changes: &str) -> Result<(), Fail> {
    let case = format!(in alloc; "{changes} -> {TIMING}")?;
    all_told(alloc, plans, PLAN, &[case.as_str()])
}

fn all_plans_told(alloc: Global, plans: &Plans<'_>) -> Result<(), Fail> {
    for changes in SAME {
        same_is_told(alloc, plans, changes)?;
    }
    all_told(alloc, plans, PLAN, &REFUSALS)
}

#[test]
fn typed_plans(rt: HostRuntime) -> Result<(), Fail> {
    let artery = broadway(rt.alloc())?;
    let plans = Plans { artery: &artery };
    all_plans_told(rt.alloc(), &plans)
}
