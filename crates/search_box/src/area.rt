//! Boxes of block sums and shift ranks.

ghost use Rattle.std.specs.Prelude.{◌≡◌, ◌↔◌, ◌≤◌, length, All, IsTrue, IfOk};
ghost use Rattle.progression.specs.{TimingRecord.{TimingRecord}, Good.{Good}};
ghost use Rattle.linear_theory.specs.{Counts.{IsStreet}, Boxes.{root_box, IsRoot, IsBoxOf, InBox, loop_span, turn_span}};
ghost use Rattle.search_box.specs.Places.{AreRanks};

use crate::root::{root_loops, root_turns};
use crate::span::Span;
use artery_model::Artery;
use narrow_fraction::Memory;
use std::alloc::Global;
use std::marker::Model;

/// The shift ranks from `least` to `most`.
#[derive(Clone, Copy)]
pub(crate) struct RankSpan {
    pub(crate) least: u32,
    pub(crate) most: u32,
}

impl RankSpan {
    ghost use Rattle.search_box.specs.Seen.{ranks_of, span_of, span_of_ranks};

    pub(crate) fn as_span(self) -> Span
        ensures value { result ≡ span_of_ranks (ranks_of self) }
        ensures ranks { AreRanks (span_of result) }
    {
        Span {
            least: i64::from(self.least),
            most: i64::from(self.most),
        }
    }
}

/// A box, seen as an `Area`: a span of block sums of each link, and a span of shift ranks of each signal.
#[derive(Drop)]
pub struct SearchBox {
    pub(crate) loops: Vec<Span>,
    pub(crate) turns: Vec<RankSpan>,
}

impl Model for SearchBox {
    ghost use Rattle.linear_theory.specs.Boxes.{Area};

    ghost Value = { Area };

    ghost use Rattle.search_box.specs.Seen.{area_of};

    ghost view = { area_of };
}

fn are_single(spans: &[Span]) -> bool
    ensures { IsTrue result ↔ All (λ s. s.least ≡ s.most) spans.now }
{
    spans.iter().all(|span| span.least == span.most)
}

fn are_single_ranks(spans: &[RankSpan]) -> bool
    ensures { IsTrue result ↔ All (λ s. s.least ≡ s.most) spans.now }
{
    spans.iter().all(|span| span.least == span.most)
}

impl SearchBox {
    ghost use Rattle.search_box.specs.{Seen.{span_of, ranks_of, span_of_ranks}, Places.{IsSingle}};

    /// The box with the root's span of each link and all ranks of each signal: every good timing of the artery lies in
    /// it. The error is want of memory.
    #[tactic(auto, using(crate::proofs::Streets::street_of))]
    pub fn root(alloc: Global, artery: &Artery) -> Result<SearchBox, Memory>
        ensures value { IfOk result (λ area. area ≡ root_box artery.now) }
        ensures root { IfOk result (λ area. IsRoot artery.now area) }
        ensures boxed { IfOk result (λ area. IsBoxOf artery.now area) }
        ensures street { IsStreet artery.now }
        ensures holds { IfOk result (λ area. (t : TimingRecord) → Good artery.now t → InBox artery.now area t) }
    {
        // its contract says that the artery is valid
        artery.known_valid();
        let loops = root_loops(alloc, artery)?;
        let turns = root_turns(alloc, artery)?;
        Ok(SearchBox { loops, turns })
    }

    /// The span of a link's block sums.
    pub fn loop_span(&self, link: u32) -> Span
        requires first { 1 ≤ link }
        requires last { link ≤ length self.now.loops }
        ensures { span_of result ≡ loop_span self.now link }
    {
        self.loops[link as usize - 1]
    }

    pub(crate) fn ranks(&self, signal: u32) -> RankSpan
        requires first { 1 ≤ signal }
        requires last { signal ≤ length self.now.turns }
        ensures { ranks_of result ≡ turn_span self.now signal }
    {
        self.turns[signal as usize - 1]
    }

    /// The span of a signal's shift ranks. In a box of an artery these lie below the signal's number of shifts.
    pub fn turn_span(&self, signal: u32) -> Span
        requires first { 1 ≤ signal }
        requires last { signal ≤ length self.now.turns }
        ensures { result ≡ span_of_ranks (turn_span self.now signal) }
    {
        self.ranks(signal).as_span()
    }

    pub(crate) fn has_link(&self, link: u32) -> bool
        ensures { IsTrue result ↔ ((1 ≤ link) × (link ≤ length self.now.loops)) }
    {
        1 <= link && link as usize <= self.loops.len()
    }

    pub(crate) fn has_signal(&self, signal: u32) -> bool
        ensures { IsTrue result ↔ ((1 ≤ signal) × (signal ≤ length self.now.turns)) }
    {
        1 <= signal && signal as usize <= self.turns.len()
    }

    /// Whether every span has one number.
    pub fn is_single(&self) -> bool
        ensures { IsTrue result ↔ IsSingle self.now }
    {
        are_single(self.loops.as_slice()) && are_single_ranks(self.turns.as_slice())
    }
}
