//! A timing, seen as a timing record.

ghost use Rattle.std.specs.Prelude.{◌≡◌, All, IfNone, IfSome, ◌+◌, ◌<◌, ◌≤◌, ◌^◌, length, map, pos, ◌≤ℤ◌, ◌<ℤ◌};
ghost use Rattle.progression.specs.{BaseRecord.{IsBaseRecord, pattern_of, common_red, run}, TimingRecord.{TimingRecord, base, banded, first, band}};
ghost use Rattle.time_space.specs.Timing.{IsTiming, AreOfBands, timing_of};
ghost use Rattle.artery_model.specs.Bounds.{least_signals, most_signals};

use crate::base::{Base, LIMIT};
use progression::Dir;
use std::marker::Model;

/// A timing of an artery's signals, in ticks of a grid of its own: a base, and the first line and the width of each band.
///
/// Every number is below `2^80`. There are 2 to 24 signals.
#[derive(Drop)]
pub struct Timing {
    base: Base,
    first_out: u128,
    first_in: u128,
    band_out: u128,
    band_in: u128,
}

impl Model for Timing {
    ghost use Rattle.std.specs.Prelude.{pos};
    ghost use Rattle.progression.specs.TimingRecord.{TimingRecord, banded};
    ghost use Rattle.time_space.specs.Timing.{AreOfBands};

    ghost Value = { TimingRecord };

    ghost view = { λ t. banded (pos t.first_out) t.band_out (pos t.first_in) t.band_in t.base };

    ghost invariant = { λ t. AreOfBands t.first_out t.first_in t.band_out t.band_in };
}

impl Base {
    /// The timing with these first lines and bands, in ticks.
    pub fn banded(self, first_out: u128, band_out: u128, first_in: u128, band_in: u128) -> Timing
        requires first_out { first_out < 2 ^ 80 }
        requires band_out { band_out < 2 ^ 80 }
        requires first_in { first_in < 2 ^ 80 }
        requires band_in { band_in < 2 ^ 80 }
        ensures { result ≡ banded (pos first_out) band_out (pos first_in) band_in self }
    {
        Timing {
            base: self,
            first_out,
            first_in,
            band_out,
            band_in,
        }
    }
}

impl Timing {
    /// The timing of these numbers, or None where one of them is outside its limits.
    ///
    /// `grid` is in ticks a second and at least 1, and `unit` in ticks a part and at least 2. All others are in
    /// ticks but for the patterns, which are 1 to 4. The reds are the starts of the common reds. There are as many
    /// reds as patterns, and one fewer of each run.
    pub fn new(
        grid: u128,
        unit: u128,
        patterns: Vec<u32>,
        reds: Vec<u128>,
        run_out: Vec<u128>,
        run_in: Vec<u128>,
        first_out: u128,
        first_in: u128,
        band_out: u128,
        band_in: u128,
    ) -> Option<Timing>
        ensures none { IfNone result (¬ IsTiming grid unit patterns.items reds.items run_out.items run_in.items first_out first_in band_out band_in) }
        ensures some { IfSome result (λ t. IsTiming grid unit patterns.items reds.items run_out.items run_in.items first_out first_in band_out band_in) }
        ensures value { IfSome result (λ t. t ≡ timing_of grid unit patterns.items reds.items run_out.items run_in.items first_out first_in band_out band_in) }
    {
        let base = Base::new(grid, unit, patterns, reds, run_out, run_in)?;
        if first_out >= LIMIT || first_in >= LIMIT || band_out >= LIMIT || band_in >= LIMIT {
            return None;
        }
        Some(base.banded(first_out, band_out, first_in, band_in))
    }

    /// What no first line and no band is part of.
    pub fn base(&self) -> &Base
        ensures { result.now ≡ base self.now }
    {
        &self.base
    }

    /// How many signals it has, from 2 to 24.
    pub fn count(&self) -> u32
        ensures value { result ≡ length self.now.patterns }
        ensures formed { IsBaseRecord (base self.now) }
        ensures few { least_signals ≤ result }
        ensures many { result ≤ most_signals }
    {
        self.base.count()
    }

    /// The ticks in a second.
    pub fn grid(&self) -> u128
        ensures value { result ≡ self.now.grid }
        ensures least { 1 ≤ result }
        ensures most { result < 2 ^ 80 }
    {
        self.base.grid()
    }

    /// The ticks in a part.
    pub fn unit(&self) -> u128
        ensures value { result ≡ self.now.unit }
        ensures least { 2 ≤ result }
        ensures most { result < 2 ^ 80 }
    {
        self.base.unit()
    }

    /// The left turn pattern of a signal.
    pub fn pattern(&self, signal: u32) -> u32
        requires first { 1 ≤ signal }
        requires last { signal ≤ length self.now.patterns }
        ensures value { result ≡ pattern_of (base self.now) signal }
        ensures least { 1 ≤ result }
        ensures most { result ≤ 4 }
    {
        self.base.pattern(signal)
    }

    /// The tick at which the common red of a signal starts.
    pub fn common_red(&self, signal: u32) -> i128
        requires first { 1 ≤ signal }
        requires last { signal ≤ length self.now.patterns }
        ensures value { result ≡ common_red (base self.now) signal }
        ensures least { pos 0 ≤ℤ result }
        ensures most { result <ℤ pos (2 ^ 80) }
    {
        self.base.common_red(signal)
    }

    /// The ticks that a direction's band takes on a link.
    pub fn run(&self, dir: Dir, link: u32) -> u128
        requires first { 1 ≤ link }
        requires last { link < length self.now.patterns }
        ensures value { result ≡ run (base self.now) dir link }
        ensures most { result < 2 ^ 80 }
    {
        self.base.run(dir, link)
    }

    /// The tick at which the first line of a direction's band crosses the first signal of its way.
    pub fn first(&self, dir: Dir) -> i128
        ensures value { result ≡ first self.now dir }
        ensures least { pos 0 ≤ℤ result }
        ensures most { result <ℤ pos (2 ^ 80) }
    {
        match dir {
            Dir::Outbound => self.first_out as i128,
            Dir::Inbound => self.first_in as i128,
        }
    }

    /// The width of a direction's band, in ticks.
    pub fn band(&self, dir: Dir) -> u128
        ensures value { result ≡ band self.now dir }
        ensures most { result < 2 ^ 80 }
    {
        match dir {
            Dir::Outbound => self.band_out,
            Dir::Inbound => self.band_in,
        }
    }

    /// Each signal's left turn pattern.
    pub fn patterns(&self) -> &[u32]
        ensures value { result.now ≡ self.now.patterns }
        ensures each { All (λ p. (1 ≤ p) × (p ≤ 4)) result.now }
        ensures few { least_signals ≤ length result.now }
        ensures many { length result.now ≤ most_signals }
    {
        self.base.patterns()
    }

    /// The tick at which each signal's common red starts.
    pub fn reds(&self) -> &[u128]
        ensures value { map pos result.now ≡ self.now.reds }
        ensures most { All (λ n. n < 2 ^ 80) result.now }
        ensures count { length result.now ≡ length self.now.patterns }
    {
        self.base.reds()
    }

    /// The ticks of the outbound band from each signal to the next.
    pub fn run_out(&self) -> &[u128]
        ensures value { result.now ≡ self.now.run_out }
        ensures most { All (λ n. n < 2 ^ 80) result.now }
        ensures count { length result.now + 1 ≡ length self.now.patterns }
    {
        self.base.run_out()
    }

    /// The ticks of the inbound band on the same links.
    pub fn run_in(&self) -> &[u128]
        ensures value { result.now ≡ self.now.run_in }
        ensures most { All (λ n. n < 2 ^ 80) result.now }
        ensures count { length result.now + 1 ≡ length self.now.patterns }
    {
        self.base.run_in()
    }
}
