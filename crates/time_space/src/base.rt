//! The base of a timing: its grid, its signals and its runs, whatever lines and bands go by them.

ghost use Rattle.std.specs.Prelude.{◌≡◌, ◌↔◌, All, IsTrue, IfNone, IfSome, IfOk, ◌+◌, ◌-◌, ◌<◌, ◌≤◌, ◌^◌, length, map, pos, ◌≤ℤ◌, ◌<ℤ◌};
ghost use Rattle.progression.specs.BaseRecord.{BaseRecord, IsBaseRecord, pattern_of, common_red, run};
ghost use Rattle.time_space.specs.Timing.{AreOfBase, base_of};
ghost use Rattle.artery_model.specs.Bounds.{least_signals, most_signals};

use artery_model::bounds::{LEAST_SIGNALS, MOST_SIGNALS};
use narrow_fraction::{Memory, copied};
use progression::Dir;
use std::alloc::Global;
use std::marker::Model;

/// The grid, the signals and the runs of a timing, in ticks: what no first line and no band is part of.
///
/// Every number is below `2^80`. There are 2 to 24 signals.
#[derive(Drop)]
pub struct Base {
    grid: u128,
    unit: u128,
    patterns: Vec<u32>,
    reds: Vec<u128>,
    run_out: Vec<u128>,
    run_in: Vec<u128>,
}

impl Model for Base {
    ghost use Rattle.std.specs.Prelude.{map, pos};
    ghost use Rattle.progression.specs.BaseRecord.{BaseRecord};
    ghost use Rattle.time_space.specs.Timing.{AreOfBase};

    ghost Value = { BaseRecord };

    ghost view = { λ b. record {
      grid = b.grid;
      unit = b.unit;
      patterns = b.patterns.items;
      reds = map pos b.reds.items;
      run_out = b.run_out.items;
      run_in = b.run_in.items;
    } };

    ghost invariant = { λ b. AreOfBase b.grid b.unit b.patterns.items b.reds.items b.run_out.items b.run_in.items };
}

/// Every number of a timing is below this.
pub const LIMIT: u128 = 1 << 80;

/// Whether every number is below the limit.
pub fn are_below_limit(numbers: &[u128]) -> bool
    ensures { IsTrue result ↔ All (λ n. n < 2 ^ 80) numbers.now }
{
    numbers.iter().all(|number| *number < LIMIT)
}

fn all_patterns(patterns: &[u32]) -> bool
    ensures { IsTrue result ↔ All (λ p. (1 ≤ p) × (p ≤ 4)) patterns.now }
{
    patterns
        .iter()
        .all(|pattern| 1 <= *pattern && *pattern <= 4)
}

impl Base {
    /// The base of these numbers, or None where one of them is outside its limits.
    ///
    /// `grid` is in ticks a second and at least 1, and `unit` in ticks a part and at least 2. All others are in
    /// ticks but for the patterns, which are 1 to 4. The reds are the starts of the common reds. There are as many
    /// reds as patterns, and one fewer of each run.
    pub fn new(
        grid: u128,
        unit: u128,
        patterns: Vec<u32>,
        reds: Vec<u128>,
        run_out: Vec<u128>,
        run_in: Vec<u128>,
    ) -> Option<Base>
        ensures none { IfNone result (¬ AreOfBase grid unit patterns.items reds.items run_out.items run_in.items) }
        ensures some { IfSome result (λ b. AreOfBase grid unit patterns.items reds.items run_out.items run_in.items) }
        ensures value { IfSome result (λ b. b ≡ base_of grid unit patterns.items reds.items run_out.items run_in.items) }
    {
        if grid < 1 || grid >= LIMIT || unit < 2 || unit >= LIMIT {
            return None;
        }
        let count = patterns.len();
        if count < LEAST_SIGNALS
            || count > MOST_SIGNALS
            || reds.len() != count
            || run_out.len() + 1 != count
            || run_in.len() + 1 != count
        {
            return None;
        }
        if !all_patterns(patterns.as_slice()) {
            return None;
        }
        if !are_below_limit(reds.as_slice())
            || !are_below_limit(run_out.as_slice())
            || !are_below_limit(run_in.as_slice())
        {
            return None;
        }
        Some(Base {
            grid,
            unit,
            patterns,
            reds,
            run_out,
            run_in,
        })
    }

    /// How many signals it has, from 2 to 24.
    pub fn count(&self) -> u32
        ensures value { result ≡ length self.now.patterns }
        ensures formed { IsBaseRecord self.now }
        ensures few { least_signals ≤ result }
        ensures many { result ≤ most_signals }
    {
        self.patterns.len() as u32
    }

    /// The ticks in a second.
    pub fn grid(&self) -> u128
        ensures value { result ≡ self.now.grid }
        ensures least { 1 ≤ result }
        ensures most { result < 2 ^ 80 }
    {
        self.grid
    }

    /// The ticks in a part.
    pub fn unit(&self) -> u128
        ensures value { result ≡ self.now.unit }
        ensures least { 2 ≤ result }
        ensures most { result < 2 ^ 80 }
    {
        self.unit
    }

    /// The left turn pattern of a signal.
    pub fn pattern(&self, signal: u32) -> u32
        requires first { 1 ≤ signal }
        requires last { signal ≤ length self.now.patterns }
        ensures value { result ≡ pattern_of self.now signal }
        ensures least { 1 ≤ result }
        ensures most { result ≤ 4 }
    {
        self.patterns[signal as usize - 1]
    }

    /// The tick at which the common red of a signal starts.
    pub fn common_red(&self, signal: u32) -> i128
        requires first { 1 ≤ signal }
        requires last { signal ≤ length self.now.patterns }
        ensures value { result ≡ common_red self.now signal }
        ensures least { pos 0 ≤ℤ result }
        ensures most { result <ℤ pos (2 ^ 80) }
    {
        self.reds[signal as usize - 1] as i128
    }

    /// The ticks that a direction's band takes on a link.
    pub fn run(&self, dir: Dir, link: u32) -> u128
        requires first { 1 ≤ link }
        requires last { link < length self.now.patterns }
        ensures value { result ≡ run self.now dir link }
        ensures most { result < 2 ^ 80 }
    {
        match dir {
            Dir::Outbound => self.run_out[link as usize - 1],
            Dir::Inbound => self.run_in[link as usize - 1],
        }
    }

    /// Each signal's left turn pattern.
    pub fn patterns(&self) -> &[u32]
        ensures value { result.now ≡ self.now.patterns }
        ensures each { All (λ p. (1 ≤ p) × (p ≤ 4)) result.now }
        ensures few { least_signals ≤ length result.now }
        ensures many { length result.now ≤ most_signals }
    {
        self.patterns.as_slice()
    }

    /// The tick at which each signal's common red starts.
    pub fn reds(&self) -> &[u128]
        ensures value { map pos result.now ≡ self.now.reds }
        ensures most { All (λ n. n < 2 ^ 80) result.now }
        ensures count { length result.now ≡ length self.now.patterns }
    {
        self.reds.as_slice()
    }

    /// The ticks of the outbound band from each signal to the next.
    pub fn run_out(&self) -> &[u128]
        ensures value { result.now ≡ self.now.run_out }
        ensures most { All (λ n. n < 2 ^ 80) result.now }
        ensures count { length result.now + 1 ≡ length self.now.patterns }
    {
        self.run_out.as_slice()
    }

    /// The ticks of the inbound band on the same links.
    pub fn run_in(&self) -> &[u128]
        ensures value { result.now ≡ self.now.run_in }
        ensures most { All (λ n. n < 2 ^ 80) result.now }
        ensures count { length result.now + 1 ≡ length self.now.patterns }
    {
        self.run_in.as_slice()
    }

    /// The same base again.
    pub fn copied(&self, alloc: Global) -> Result<Base, Memory>
        ensures { IfOk result (λ copy. copy ≡ self.now) }
    {
        Ok(Base {
            grid: self.grid,
            unit: self.unit,
            patterns: copied(alloc, self.patterns.as_slice())?,
            reds: copied(alloc, self.reds.as_slice())?,
            run_out: copied(alloc, self.run_out.as_slice())?,
            run_in: copied(alloc, self.run_in.as_slice())?,
        })
    }
}
