//! The tables of a description and of a plan, and the paths of places in them.

ghost use Rattle.std.specs.{Prelude.{◌≡◌, ◌++◌, IfOk, string_bytes, codes}, Fmt.{decimal}};
ghost use Rattle.description_reader.specs.Places.{key_place, item_place};

use std::alloc::{AllocError, Global};

/// A table of a description or of a plan. Signals and links are counted from 1.
#[derive(Clone, Copy, PartialEq, Eq)]
pub enum Section {
    Root,
    Artery,
    Signal(usize),
    Link(usize),
    /// The root of a plan.
    PlanRoot,
    Plan,
}

/// What the tests of one table need of the others.
#[derive(Clone, Copy)]
pub struct TableFacts {
    /// How many links are given.
    pub links: usize,
    /// How many parts the cycle has.
    pub parts: i64,
    /// Whether the description is of the second version.
    pub second: bool,
    /// Whether a plan gives the outbound times of travel, and no outbound speeds.
    pub timed_out: bool,
    /// The same inbound.
    pub timed_in: bool,
}

/// The path of a key of a signal or a link, as `signal[3].red`.
fn numbered_place(
    alloc: Global,
    table: &str,
    number: usize,
    key: &str,
) -> Result<String, AllocError>
    ensures { IfOk result (λ s. string_bytes s ≡ table.now ++ (codes "[" ++ (decimal number ++ (codes "]." ++ key.now)))) }
{
    format!(in alloc; "{table}[{number}].{key}")
}

/// The path of a key, as `artery.parts` or `signal[3].red`.
pub fn key_place(alloc: Global, section: Section, key: &str) -> Result<String, AllocError>
    ensures { IfOk result (λ s. string_bytes s ≡ key_place section key.now) }
{
    match section {
        Section::Root | Section::PlanRoot => String::from_str(alloc, key),
        Section::Artery => format!(in alloc; "artery.{key}"),
        Section::Signal(number) => numbered_place(alloc, "signal", number, key),
        Section::Link(number) => numbered_place(alloc, "link", number, key),
        Section::Plan => format!(in alloc; "plan.{key}"),
    }
}

/// The path of an item of an array, counted from 1, as `artery.cycle[2]`.
pub fn item_place(
    alloc: Global,
    section: Section,
    key: &str,
    number: usize,
) -> Result<String, AllocError>
    ensures { IfOk result (λ s. string_bytes s ≡ item_place section key.now number) }
{
    let array = key_place(alloc, section, key)?;
    let path = array.as_str();
    format!(in alloc; "{path}[{number}]")
}
