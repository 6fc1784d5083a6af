//! The keys of a description and of a plan, as one table.

ghost use Rattle.std.specs.Prelude.{◌≡◌, map};
ghost use Rattle.description_reader.specs.KeyTable.{key_of, keys_of, is_in};

use crate::demand::Demand::{
    self, Anything, Array, BelowParts, Between, Boolean, Integer, Length, Name, Quantity,
    Reference, Table, Text, Units, Within, Written,
};
use crate::place::{Section, TableFacts};
use Presence::{Needed, NotLast, Optional};
use When::{Always, First, Second, SpeedIn, SpeedOut, TravelIn, TravelOut};
use artery_model::bounds::{
    FIRST_VERSION, LEAST_CHANGE, LEAST_CYCLE, LEAST_DISTANCE, LEAST_PARTS, LEAST_RATIO,
    LEAST_SHARE, LEAST_SIGNALS, LEAST_SPEED, MOST_CHANGE, MOST_CYCLE, MOST_DISTANCE,
    MOST_FIRST_SIGNALS, MOST_PARTS, MOST_RATIO, MOST_SHARE, MOST_SIGNALS, MOST_SPEED,
    SECOND_VERSION,
};

/// In which files a section has a key.
#[derive(Clone, Copy)]
pub enum When {
    Always,
    /// In a description that isn't of the second version.
    First,
    /// In a description of the second version.
    Second,
    /// In a plan that gives outbound speeds, and in one that gives outbound times of travel.
    SpeedOut,
    TravelOut,
    /// The same inbound.
    SpeedIn,
    TravelIn,
}

/// Whether a section has such a key in this file.
pub fn is_in(facts: TableFacts, when: When) -> bool
    ensures { result ≡ is_in facts when }
{
    match when {
        When::Always => true,
        When::First => !facts.second,
        When::Second => facts.second,
        When::SpeedOut => !facts.timed_out,
        When::TravelOut => facts.timed_out,
        When::SpeedIn => !facts.timed_in,
        When::TravelIn => facts.timed_in,
    }
}

/// Whether a key must stand in its table.
#[derive(Clone, Copy)]
pub enum Presence {
    Needed,
    Optional,
    /// Optional, and unknown on the last link, after which there is no other.
    NotLast,
}

/// What a value must be, and what each of its items must be, where it is an array.
#[derive(Clone, Copy)]
pub struct Demands {
    pub value: Demand,
    pub item: Demand,
}

/// A key: in which files there is one, and what its value must be, of which type and within which limits.
#[derive(Clone, Copy)]
pub struct KeyEntry {
    pub name: &'static str,
    pub when: When,
    pub presence: Presence,
    pub types: Demands,
    pub ranges: Demands,
}

/// The version of a plan.
pub const PLAN_VERSION: i64 = 1;

/// The longest time of travel on a link of a plan, in seconds.
pub const MOST_TRAVEL: i64 = 100_000;

/// A demand of a value, and one of each of its items.
macro_rules! both {
    ($value:expr, $item:expr) => {
        Demands {
            value: $value,
            item: $item,
        }
    };
}

/// A demand of a value, and none of its items.
macro_rules! alone {
    ($value:expr) => {
        both!($value, Anything)
    };
}

/// A demand of each item.
macro_rules! items {
    ($item:expr) => {
        both!(Anything, $item)
    };
}

/// A key that some files have.
macro_rules! key_when {
    ($when:expr, $name:literal, $presence:expr, $types:expr, $ranges:expr) => {
        KeyEntry {
            name: $name,
            when: $when,
            presence: $presence,
            types: $types,
            ranges: $ranges,
        }
    };
}

/// A key that each file has.
macro_rules! key {
    ($name:literal, $presence:expr, $types:expr, $ranges:expr) => {
        key_when!(Always, $name, $presence, $types, $ranges)
    };
}

const TABLES: Demands = both!(Array, Table);

const TWO_QUANTITIES: Demands = both!(Length(2, 2), Quantity);

const QUANTITIES: Demands = both!(Array, Quantity);

const VERSIONS: Demand = Between(FIRST_VERSION as i64, SECOND_VERSION as i64);

const PARTS: Demand = Between(LEAST_PARTS as i64, MOST_PARTS as i64);

const CYCLE: Demand = Within(LEAST_CYCLE, MOST_CYCLE);

const SHARE: Demand = Within(LEAST_SHARE, MOST_SHARE);

const SPEED: Demand = Within(LEAST_SPEED, MOST_SPEED);

/// The speed of a plan, which a report may have printed.
const EXACT_SPEED: Demand = Written(LEAST_SPEED, MOST_SPEED);

const CHANGE: Demand = Within(LEAST_CHANGE, MOST_CHANGE);

const TRAVEL: Demand = Within(0, MOST_TRAVEL);

const DISTANCE: Demand = Between(LEAST_DISTANCE as i64, MOST_DISTANCE as i64);

/// The keys of the root of a description.
const ROOT: [KeyEntry; 5] = [
    key!("version", Optional, alone!(Integer), alone!(VERSIONS)),
    key!("artery", Needed, alone!(Table), alone!(Anything)),
    key_when!(
        First,
        "signal",
        Needed,
        TABLES,
        alone!(Length(LEAST_SIGNALS, MOST_FIRST_SIGNALS))
    ),
    key_when!(
        Second,
        "signal",
        Needed,
        TABLES,
        alone!(Length(LEAST_SIGNALS, MOST_SIGNALS))
    ),
    key!("link", Needed, TABLES, alone!(Anything)),
];

/// The keys of the table `artery`.
const ARTERY: [KeyEntry; 8] = [
    key!("name", Optional, alone!(Text), alone!(Name)),
    key!("units", Needed, alone!(Text), alone!(Units)),
    key!("parts", Needed, alone!(Integer), alone!(PARTS)),
    key!("cycle", Needed, TWO_QUANTITIES, items!(CYCLE)),
    key!(
        "ratio",
        Needed,
        alone!(Quantity),
        alone!(Within(LEAST_RATIO, MOST_RATIO))
    ),
    key_when!(
        Second,
        "least_out",
        Optional,
        alone!(Quantity),
        alone!(SHARE)
    ),
    key_when!(
        Second,
        "least_in",
        Optional,
        alone!(Quantity),
        alone!(SHARE)
    ),
    key_when!(Second, "equal", Optional, alone!(Boolean), alone!(Anything)),
];

/// The keys of a signal.
const SIGNAL: [KeyEntry; 7] = [
    key!("name", Needed, alone!(Text), alone!(Name)),
    key!("red", Needed, alone!(Integer), alone!(BelowParts(1))),
    key!("left_out", Optional, alone!(Integer), alone!(BelowParts(0))),
    key!("left_in", Optional, alone!(Integer), alone!(BelowParts(0))),
    key!(
        "patterns",
        Optional,
        both!(Array, Integer),
        items!(Between(1, 4))
    ),
    key!(
        "clear_out",
        Optional,
        alone!(Integer),
        alone!(BelowParts(0))
    ),
    key!("clear_in", Optional, alone!(Integer), alone!(BelowParts(0))),
];

/// The keys of a link.
const LINK: [KeyEntry; 6] = [
    key!("distance_out", Needed, alone!(Integer), alone!(DISTANCE)),
    key!("distance_in", Needed, alone!(Integer), alone!(DISTANCE)),
    key!("speed_out", Needed, TWO_QUANTITIES, items!(SPEED)),
    key!("speed_in", Needed, TWO_QUANTITIES, items!(SPEED)),
    key!("change_out", NotLast, TWO_QUANTITIES, items!(CHANGE)),
    key!("change_in", NotLast, TWO_QUANTITIES, items!(CHANGE)),
];

/// The keys of the root of a plan.
const PLAN_ROOT: [KeyEntry; 2] = [
    key!(
        "version",
        Optional,
        alone!(Integer),
        alone!(Between(PLAN_VERSION, PLAN_VERSION))
    ),
    key!("plan", Needed, alone!(Table), alone!(Anything)),
];

/// The keys of the table `plan`. Of each direction it has either speeds or times of travel.
const PLAN: [KeyEntry; 8] = [
    key!("cycle", Needed, alone!(Quantity), alone!(CYCLE)),
    key!("offset", Needed, QUANTITIES, items!(Within(0, MOST_CYCLE))),
    key!("reference", Optional, alone!(Text), alone!(Reference)),
    key!(
        "patterns",
        Needed,
        both!(Array, Integer),
        items!(Between(1, 4))
    ),
    key_when!(
        SpeedOut,
        "speed_out",
        Needed,
        QUANTITIES,
        items!(EXACT_SPEED)
    ),
    key_when!(TravelOut, "travel_out", Needed, QUANTITIES, items!(TRAVEL)),
    key_when!(SpeedIn, "speed_in", Needed, QUANTITIES, items!(EXACT_SPEED)),
    key_when!(TravelIn, "travel_in", Needed, QUANTITIES, items!(TRAVEL)),
];

/// The keys of a section, in the order in which their faults are looked for. A file has those of them that are `is_in` it.
#[tactic(auto, unfolding(crate::specs::KeyTable::keys_of))]
pub fn entries(section: Section) -> &'static [KeyEntry]
    ensures { map key_of result.now ≡ keys_of section }
{
    match section {
        Section::Root => &ROOT,
        Section::Artery => &ARTERY,
        Section::Signal(_) => &SIGNAL,
        Section::Link(_) => &LINK,
        Section::PlanRoot => &PLAN_ROOT,
        Section::Plan => &PLAN,
    }
}
