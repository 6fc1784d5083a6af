//! The unit of each key's numbers, and an example that could stand there.

ghost use Rattle.std.specs.Prelude.{◌≡◌, map, option_map};
ghost use Rattle.fault_words.specs.Examples.{sample_of, samples_of, sample_at};

use description_reader::Section;

/// The name of a key, the unit of its numbers, and lines that give it a value.
#[derive(Clone, Copy)]
pub struct Example {
    pub name: &'static str,
    pub unit: &'static str,
    pub lines: &'static str,
}

macro_rules! example {
    ($name:literal, $unit:expr, $lines:literal) => {
        Example {
            name: $name,
            unit: $unit,
            lines: $lines,
        }
    };
}

const OF_METRES: &str = " metres, or feet with english units";

const OF_PACE: &str = " seconds a kilometre, or a mile with english units";

const OF_SPEED: &str = " km/h, or mph with english units";

const OF_STREET_SPEED: &str = " km/h or mph, as the street has it";

const ROOT: [Example; 4] = [
    example!("version", "", "version = 2"),
    example!("artery", "", "[artery]"),
    example!("signal", "", "[[signal]]"),
    example!("link", "", "[[link]]"),
];

const ARTERY: [Example; 8] = [
    example!("name", "", "name = \"High Street\""),
    example!("units", "", "units = \"metric\""),
    example!("parts", "", "parts = 100"),
    example!("cycle", " seconds", "cycle = [80, 100]"),
    example!("ratio", "", "ratio = \"0.8\""),
    example!("least_out", " of the cycle", "least_out = \"1/5\""),
    example!("least_in", " of the cycle", "least_in = \"1/5\""),
    example!("equal", "", "equal = true"),
];

const SIGNAL: [Example; 7] = [
    example!("name", "", "name = \"Main Street\""),
    example!("red", "", "red = 40"),
    example!("left_out", "", "left_out = 8"),
    example!("left_in", "", "left_in = 8"),
    example!("patterns", "", "patterns = [1, 3]"),
    example!("clear_out", "", "clear_out = 3"),
    example!("clear_in", "", "clear_in = 3"),
];

const LINK: [Example; 6] = [
    example!("distance_out", OF_METRES, "distance_out = 500"),
    example!("distance_in", OF_METRES, "distance_in = 500"),
    example!("speed_out", OF_SPEED, "speed_out = [30, \"49.5\"]"),
    example!("speed_in", OF_SPEED, "speed_in = [30, \"49.5\"]"),
    example!("change_out", OF_PACE, "change_out = [-20, 20]"),
    example!("change_in", OF_PACE, "change_in = [-20, 20]"),
];

const PLAN_ROOT: [Example; 2] = [
    example!("version", "", "version = 1"),
    example!("plan", "", "[plan]"),
];

const PLAN: [Example; 8] = [
    example!("cycle", " seconds", "cycle = 90"),
    example!("offset", " seconds", "offset = [0, 18, \"9.5\"]"),
    example!("reference", "", "reference = \"red\""),
    example!("patterns", "", "patterns = [1, 2, 2]"),
    example!("speed_out", OF_STREET_SPEED, "speed_out = [50, \"42.5\"]"),
    example!("travel_out", " seconds", "travel_out = [36, \"42.5\"]"),
    example!("speed_in", OF_STREET_SPEED, "speed_in = [50, \"42.5\"]"),
    example!("travel_in", " seconds", "travel_in = [36, \"42.5\"]"),
];

/// The examples of a section.
#[tactic(auto, unfolding(crate::specs::Examples::samples_of))]
fn examples(section: Section) -> &'static [Example]
    ensures { map sample_of result.now ≡ samples_of section }
{
    match section {
        Section::Root => &ROOT,
        Section::Artery => &ARTERY,
        Section::Signal(_) => &SIGNAL,
        Section::Link(_) => &LINK,
        Section::PlanRoot => &PLAN_ROOT,
        Section::Plan => &PLAN,
    }
}

/// The example of a key.
pub fn example_at(section: Section, name: &str) -> Option<&'static Example>
    ensures { option_map (λ e. sample_of e.now) result ≡ sample_at section name.now }
{
    for example in examples(section) {
        if name == example.name {
            return Some(example);
        }
    }
    None
}
