//! Another span in place.

ghost use Rattle.std.specs.Prelude.{◌≡◌, ◌≤◌, length};
ghost use Rattle.progression.specs.Street.{Street};
ghost use Rattle.linear_theory.specs.Boxes.{IsBoxOf, loop_span, turn_span, with_loop, with_turn};
ghost use Rattle.search_box.specs.{Seen.{span_of, ranks_of}, Places.{HasSpan, FitsAt, IsSpanAt, span_at, with_span}};

use crate::area::{RankSpan, SearchBox};
use crate::span::{At, Span};
use std::mem;

impl SearchBox {
    #[tactic(auto, using(crate::proofs::Views::loop_put))]
    fn replace_loop(&mut self, link: u32, span: Span) -> Span
        requires first { 1 ≤ link }
        requires last { link ≤ length self.old.loops }
        ensures put { self.new ≡ with_loop self.old link (span_of span) }
        ensures former { span_of result ≡ loop_span self.old link }
    {
        mem::replace(&mut self.loops[link as usize - 1], span)
    }

    #[tactic(auto, using(crate::proofs::Views::turn_put))]
    fn replace_turn(&mut self, signal: u32, ranks: RankSpan) -> RankSpan
        requires first { 1 ≤ signal }
        requires last { signal ≤ length self.old.turns }
        ensures put { self.new ≡ with_turn self.old signal (ranks_of ranks) }
        ensures former { ranks_of result ≡ turn_span self.old signal }
    {
        mem::replace(&mut self.turns[signal as usize - 1], ranks)
    }

    /// The span of a place's link, or that of its signal's ranks. The place's own number plays no part.
    pub fn span_at(&self, place: At) -> Span
        requires there { HasSpan self.now place }
        ensures span { span_of result ≡ span_at self.now place }
        ensures ranks { FitsAt place (span_of result) }
    {
        match place {
            At::Loop { link, .. } => self.loop_span(link),
            At::Turn { signal, .. } => self.ranks(signal).as_span(),
        }
    }

    /// Puts another span for a place's link, or for its signal's ranks, and answers the former one. All others stay, and the
    /// place's own number plays no part. Ranks are numbers of 32 bits from 0 on. It takes no memory.
    ///
    /// A box of an artery stays one where the span is the root box's there, or is not empty and lies within that one.
    pub fn replace(&mut self, place: At, span: Span) -> Span
        requires there { HasSpan self.old place }
        requires ranks { FitsAt place (span_of span) }
        ensures put { self.new ≡ with_span self.old place (span_of span) }
        ensures former { span_of result ≡ span_at self.old place }
        ensures ranks { FitsAt place (span_of result) }
        ensures boxed { (a : Street) → IsBoxOf a self.old → IsSpanAt a place (span_of span) → IsBoxOf a self.new }
    {
        match place {
            At::Loop { link, .. } => self.replace_loop(link, span),
            At::Turn { signal, .. } => {
                let ranks = RankSpan {
                    least: span.least as u32,
                    most: span.most as u32,
                };
                self.replace_turn(signal, ranks).as_span()
            }
        }
    }
}
