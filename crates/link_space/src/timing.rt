//! A link timing, seen as a link record.

ghost use Rattle.std.specs.Prelude.{◌≡◌, ◌↔◌, All, IsTrue, IfNone, IfSome, ◌+◌, ◌<◌, ◌≤◌, ◌^◌, length, pos, ◌≤ℤ◌, ◌<ℤ◌};
ghost use Rattle.progression.specs.TimingRecord.{first};
ghost use Rattle.link_theory.specs.LinkRecord.{IsLinkRecord, link_base, link_banded, lines, half};
ghost use Rattle.link_space.specs.LinkTiming.{AreHalves, IsLinkTiming, link_timing_of};
ghost use Rattle.artery_model.specs.Bounds.{least_signals, most_signals};

use progression::Dir;
use std::marker::Model;
use time_space::{Base, LIMIT, are_below_limit};

/// A base with a line in each direction and a band for each link about it, in ticks.
///
/// Every number is below `2^80`. There are 2 to 24 signals. A link's band reaches as far to either side of the direction's line.
#[derive(Drop)]
pub struct LinkTiming {
    base: Base,
    first_out: u128,
    first_in: u128,
    half_out: Vec<u128>,
    half_in: Vec<u128>,
}

impl Model for LinkTiming {
    ghost use Rattle.std.specs.Prelude.{pos};
    ghost use Rattle.link_theory.specs.LinkRecord.{LinkRecord, link_banded};
    ghost use Rattle.link_space.specs.LinkTiming.{IsLinked};

    ghost Value = { LinkRecord };

    ghost view = { λ t. link_banded (pos t.first_out) t.half_out.items (pos t.first_in) t.half_in.items t.base };

    ghost invariant = { λ t. IsLinked t.base.patterns t.first_out t.first_in t.half_out.items t.half_in.items };
}

/// Whether these are the halves of a direction for so many signals: one for each link, and each of them small.
fn are_halves(halves: &[u128], count: u32) -> bool
    requires { 1 ≤ count }
    ensures { IsTrue result ↔ ((length halves.now + 1 ≡ count) × All (λ n. n < 2 ^ 80) halves.now) }
{
    halves.len() == count as usize - 1 && are_below_limit(halves)
}

impl LinkTiming {
    /// The link timing of these numbers, or None where one of them is outside its limits.
    ///
    /// `grid` is in ticks a second and at least 1, and `unit` in ticks a part and at least 2. All others are in
    /// ticks but for the patterns, which are 1 to 4. The reds are the starts of the common reds, the firsts are where the lines
    /// cross the first signals of their ways, and the halves say how far each link's band reaches to either side of its line. There
    /// are as many reds as patterns, and one fewer of each run and of each half.
    pub fn new(
        grid: u128,
        unit: u128,
        patterns: Vec<u32>,
        reds: Vec<u128>,
        run_out: Vec<u128>,
        run_in: Vec<u128>,
        first_out: u128,
        first_in: u128,
        half_out: Vec<u128>,
        half_in: Vec<u128>,
    ) -> Option<LinkTiming>
        ensures none { IfNone result (¬ IsLinkTiming grid unit patterns.items reds.items run_out.items run_in.items first_out first_in half_out.items half_in.items) }
        ensures some { IfSome result (λ t. IsLinkTiming grid unit patterns.items reds.items run_out.items run_in.items first_out first_in half_out.items half_in.items) }
        ensures value { IfSome result (λ t. t ≡ link_timing_of grid unit patterns.items reds.items run_out.items run_in.items first_out first_in half_out.items half_in.items) }
    {
        let base = Base::new(grid, unit, patterns, reds, run_out, run_in)?;
        let count = base.count();
        if first_out >= LIMIT || first_in >= LIMIT {
            return None;
        }
        if !are_halves(half_out.as_slice(), count) || !are_halves(half_in.as_slice(), count) {
            return None;
        }
        Some(LinkTiming::around(base, first_out, half_out, first_in, half_in))
    }

    /// The link timing of a base with these first lines and the halves about them, in ticks.
    pub fn around(
        base: Base,
        first_out: u128,
        half_out: Vec<u128>,
        first_in: u128,
        half_in: Vec<u128>,
    ) -> LinkTiming
        requires first_out { first_out < 2 ^ 80 }
        requires half_out { AreHalves base.patterns half_out.items }
        requires first_in { first_in < 2 ^ 80 }
        requires half_in { AreHalves base.patterns half_in.items }
        ensures { result ≡ link_banded (pos first_out) half_out.items (pos first_in) half_in.items base }
    {
        LinkTiming {
            base,
            first_out,
            first_in,
            half_out,
            half_in,
        }
    }

    /// What no line and no band is part of.
    pub fn base(&self) -> &Base
        ensures { result.now ≡ link_base self.now }
    {
        &self.base
    }

    /// The tick at which a direction's line crosses the first signal of its way.
    pub fn first(&self, dir: Dir) -> i128
        ensures value { result ≡ first (lines self.now) dir }
        ensures least { pos 0 ≤ℤ result }
        ensures most { result <ℤ pos (2 ^ 80) }
    {
        match dir {
            Dir::Outbound => self.first_out as i128,
            Dir::Inbound => self.first_in as i128,
        }
    }

    /// How many signals it has, from 2 to 24.
    pub fn count(&self) -> u32
        ensures value { result ≡ length self.now.patterns }
        ensures formed { IsLinkRecord self.now }
        ensures few { least_signals ≤ result }
        ensures many { result ≤ most_signals }
    {
        self.base.count()
    }

    /// How many ticks a link's band reaches to either side of its line.
    pub fn half(&self, dir: Dir, link: u32) -> u128
        requires first { 1 ≤ link }
        requires last { link < length self.now.patterns }
        ensures value { result ≡ half self.now dir link }
        ensures most { result < 2 ^ 80 }
    {
        match dir {
            Dir::Outbound => self.half_out[link as usize - 1],
            Dir::Inbound => self.half_in[link as usize - 1],
        }
    }

    /// The halves of the outbound bands, link by link.
    pub fn half_out(&self) -> &[u128]
        ensures value { result.now ≡ self.now.half_out }
        ensures most { All (λ n. n < 2 ^ 80) result.now }
        ensures count { length result.now + 1 ≡ length self.now.patterns }
        ensures few { length result.now < most_signals }
    {
        let _signals = self.count();
        self.half_out.as_slice()
    }

    /// The halves of the inbound bands on the same links.
    pub fn half_in(&self) -> &[u128]
        ensures value { result.now ≡ self.now.half_in }
        ensures most { All (λ n. n < 2 ^ 80) result.now }
        ensures count { length result.now + 1 ≡ length self.now.patterns }
        ensures few { length result.now < most_signals }
    {
        let _signals = self.count();
        self.half_in.as_slice()
    }
}
