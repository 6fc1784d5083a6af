//! A plan as people type it, and its reading.

ghost use Rattle.std.specs.Prelude.{◌≡◌, ◌≤◌, All, true, is_some, None, pos, IfOk, IfErr, if◌then◌else◌};
ghost use Rattle.toml.specs.{Data.{as_table}, View.{view}};
ghost use Rattle.artery_model.specs.{Bounds.{least_cycle, most_cycle}, Faults.{Judges}, Valid.{IsQuantity}};
ghost use Rattle.description_reader.specs.{Quantity.{number_in, integer_in}, Streets.{u32_or_zero}, Described.{RefusesBy}};
ghost use Rattle.description_reader.specs.Typed.{measure, measured, IsMeasured, IsTyped, reference_of, measure_of, numbers_at, patterns_at, plan_in, typed_in, plan_fault, GivesPlan};

use crate::build::{number_of, u32_or_zero};
use crate::judge::{Form, check_values, facts_of};
use crate::measure::{Measure, Reference};
use crate::place::TableFacts;
use crate::quantity::{integer_in, number_in};
use crate::read::read_root;
use crate::values::{items_at, text_at, value_at};
use artery_model::{Dir, Flaw};
use narrow_fraction::Frac;
use std::alloc::{AllocError, Global};
use std::marker::Model;
use toml::Value;

/// A plan as people type it, within the limits of its numbers. How many of them there are isn't compared with any artery.
#[derive(Drop)]
pub struct TypedPlan {
    cycle: Frac,
    offsets: Vec<Frac>,
    reference: Reference,
    patterns: Vec<u32>,
    measure_out: Measure,
    out: Vec<Frac>,
    measure_in: Measure,
    back: Vec<Frac>,
}

impl Model for TypedPlan {
    ghost use Rattle.description_reader.specs.Typed.{Typed, IsTyped};

    ghost Value = { Typed };

    ghost use Rattle.description_reader.specs.Inside.{typed_of};

    ghost view = { typed_of };

    ghost invariant = { λ p. IsTyped (typed_of p) };
}

impl TypedPlan {
    /// That its numbers are within their limits, as its type keeps it: a fact for proofs, and nothing is done.
    pub fn known_within(&self)
        ensures { IsTyped self.now }
    {
        prove!(1 <= self.cycle.den());
    }

    /// The cycle, in seconds.
    pub fn cycle(&self) -> Frac
        ensures value { result ≡ self.now.cycle }
        ensures range { IsQuantity least_cycle most_cycle result }
    {
        self.cycle
    }

    /// Each signal's offset, in seconds. They count from one moment, which may be any.
    pub fn offsets(&self) -> &[Frac]
        ensures value { result.now ≡ self.now.offsets }
        ensures each { All (IsQuantity (pos 0) most_cycle) result.now }
    {
        self.offsets.as_slice()
    }

    /// The moment of a signal's cycle from which its offset counts.
    pub fn reference(&self) -> Reference
        ensures { result ≡ self.now.reference }
    {
        self.reference
    }

    /// Each signal's left turn pattern.
    pub fn patterns(&self) -> &[u32]
        ensures value { result.now ≡ self.now.patterns }
        ensures each { All (λ n. (1 ≤ n) × (n ≤ 4)) result.now }
    {
        self.patterns.as_slice()
    }

    /// What a direction's numbers of the links are.
    pub fn measure(&self, dir: Dir) -> Measure
        ensures { result ≡ measure self.now dir }
    {
        match dir {
            Dir::Outbound => self.measure_out,
            Dir::Inbound => self.measure_in,
        }
    }

    /// A direction's speeds or times of travel, of the links in order.
    pub fn measured(&self, dir: Dir) -> &[Frac]
        ensures value { result.now ≡ measured self.now dir }
        ensures each { All (IsMeasured (measure self.now dir)) result.now }
    {
        match dir {
            Dir::Outbound => self.out.as_slice(),
            Dir::Inbound => self.back.as_slice(),
        }
    }
}

fn reference_of(text: &str) -> Reference
    ensures { result ≡ reference_of text.now }
{
    Reference::named(text).unwrap_or(Reference::Red)
}

fn measure_of(timed: bool) -> Measure
    ensures { result ≡ measure_of timed }
{
    if timed {
        Measure::Travel
    } else {
        Measure::Speed
    }
}

/// The quantities of the array at a key.
fn numbers_at(alloc: Global, table: &Value, key: &str) -> Result<Vec<Frac>, AllocError>
    ensures { IfOk result (λ v. v.items ≡ numbers_at (view table.now) key.now) }
{
    let mut numbers = Vec::new(alloc);
    for item in items_at(table, key) {
        numbers.push(number_in(item))?;
    }
    Ok(numbers)
}

/// The integers of the array at a key.
fn patterns_at(alloc: Global, table: &Value, key: &str) -> Result<Vec<u32>, AllocError>
    ensures { IfOk result (λ v. v.items ≡ patterns_at (view table.now) key.now) }
{
    let mut patterns = Vec::new(alloc);
    for item in items_at(table, key) {
        patterns.push(u32_or_zero(integer_in(item)))?;
    }
    Ok(patterns)
}

/// The speeds or the times of travel.
fn measured_at(
    alloc: Global,
    table: &Value,
    timed: bool,
    travel: &str,
    speed: &str,
) -> Result<Vec<Frac>, AllocError>
    ensures { IfOk result (λ v. v.items ≡ numbers_at (view table.now) (if timed then travel.now else speed.now)) }
{
    if timed {
        numbers_at(alloc, table, travel)
    } else {
        numbers_at(alloc, table, speed)
    }
}

/// The plan of a table without a fault.
fn plan_in(alloc: Global, facts: TableFacts, table: &Value) -> Result<TypedPlan, AllocError>
    requires { IsTyped (plan_in facts.timed_out facts.timed_in (view table.now)) }
    ensures { IfOk result (λ p. p ≡ plan_in facts.timed_out facts.timed_in (view table.now)) }
{
    let offsets = numbers_at(alloc, table, "offset")?;
    let patterns = patterns_at(alloc, table, "patterns")?;
    let out = measured_at(alloc, table, facts.timed_out, "travel_out", "speed_out")?;
    let back = measured_at(alloc, table, facts.timed_in, "travel_in", "speed_in")?;
    Ok(TypedPlan {
        cycle: number_of(table, "cycle"),
        offsets,
        reference: reference_of(text_at(table, "reference")),
        patterns,
        measure_out: measure_of(facts.timed_out),
        out,
        measure_in: measure_of(facts.timed_in),
        back,
    })
}

/// The plan that values without a fault make.
fn build(alloc: Global, root: &Value) -> Result<TypedPlan, AllocError>
    requires table { is_some (as_table (view root.now)) ≡ true }
    requires passed { plan_fault (view root.now) ≡ None }
    ensures { IfOk result (λ p. p ≡ typed_in (view root.now)) }
{
    let facts = facts_of(root);
    match value_at(root, "plan") {
        Some(table) => plan_in(alloc, facts, table),
        None => unreachable!(),
    }
}

/// The plan of a document, or its first fault.
fn judge(alloc: Global, root: &Value) -> Result<TypedPlan, Flaw>
    requires { is_some (as_table (view root.now)) ≡ true }
    ensures made { IfOk result (λ p. p ≡ typed_in (view root.now)) }
    ensures judged { Judges result (plan_fault (view root.now)) }
{
    check_values(alloc, Form::Plan, root)?;
    Ok(build(alloc, root)?)
}

/// Reads a plan as people type it, a TOML document. `Refused` comes exactly where the bytes give none, and names the kind and the
/// place of their first fault, in the order of `Kind` and of one kind in the order of the places; `Memory` may come in place of
/// any answer.
#[tactic(auto, using(crate::proofs::Answers::read_of, crate::proofs::Answers::refused_of, crate::proofs::Answers::unread_by))]
pub fn read_plan(alloc: Global, bytes: &[u8]) -> Result<TypedPlan, Flaw>
    ensures plan { IfOk result (λ p. GivesPlan bytes.now p) }
    ensures refused { IfErr result (λ e. RefusesBy plan_fault bytes.now e) }
{
    match read_root(alloc, bytes) {
        Ok(root) => judge(alloc, &root),
        Err(flaw) => Err(flaw),
    }
}
