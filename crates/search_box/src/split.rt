//! The two parts of a box.

ghost use Rattle.std.specs.Prelude.{◌≡◌, ◌↔◌, IsTrue, IfOk, IfNone, IfSome};
ghost use Rattle.progression.specs.Street.{Street};
ghost use Rattle.linear_theory.specs.Boxes.{IsBoxOf};
ghost use Rattle.search_box.specs.{Seen.{span_of}, Places.{HasSpan, FitsAt, number_at, IsPlace, low_part, high_part, with_span, AreParts}};

use crate::area::SearchBox;
use crate::span::{At, Span};
use narrow_fraction::{Memory, copied};
use std::alloc::Global;

/// A place's own number.
fn number(place: At) -> i64
    ensures value { result ≡ number_at place }
    ensures ranks { FitsAt place (record { least = result; most = result }) }
{
    match place {
        At::Loop { at, .. } => at,
        At::Turn { rank, .. } => i64::from(rank),
    }
}

impl SearchBox {
    fn has_span(&self, place: At) -> bool
        ensures { IsTrue result ↔ HasSpan self.now place }
    {
        match place {
            At::Loop { link, .. } => self.has_link(link),
            At::Turn { signal, .. } => self.has_signal(signal),
        }
    }

    /// Whether the box can be split there: there is such a link or signal, and `least <= at < most` in its span.
    #[tactic(auto, using(crate::proofs::Parts::place_of, crate::proofs::Parts::has_span, crate::proofs::Parts::inside_of))]
    pub fn is_place(&self, place: At) -> bool
        ensures { IsTrue result ↔ IsPlace self.now place }
    {
        if !self.has_span(place) {
            return false;
        }
        let span = self.span_at(place);
        let at = number(place);
        span.least <= at && at < span.most
    }

    /// The same box with another span for a place's link, or for its signal's ranks.
    fn with_span(&self, alloc: Global, place: At, span: Span) -> Result<SearchBox, Memory>
        requires there { HasSpan self.now place }
        requires ranks { FitsAt place (span_of span) }
        ensures { IfOk result (λ area. area ≡ with_span self.now place (span_of span)) }
    {
        let loops = copied(alloc, self.loops.as_slice())?;
        let turns = copied(alloc, self.turns.as_slice())?;
        let mut area = SearchBox { loops, turns };
        area.replace(place, span);
        Ok(area)
    }

    /// The part up to a place and the part from the next number on, all other spans being those of the box.
    ///
    /// None comes exactly where there is no such link or signal, or not `least <= at < most` in its span. Where this is
    /// a box of an artery, so are both parts, and they hold exactly what it holds, nothing twice. The error is want of
    /// memory.
    #[tactic(auto, using(crate::proofs::Parts::has_span, crate::proofs::Parts::low_fits, crate::proofs::Parts::high_fits))]
    pub fn split(&self, alloc: Global, place: At) -> Result<Option<(SearchBox, SearchBox)>, Memory>
        ensures none { IfOk result (λ parts. IfNone parts (¬ IsPlace self.now place)) }
        ensures place { IfOk result (λ parts. IfSome parts (λ p. IsPlace self.now place)) }
        ensures low { IfOk result (λ parts. IfSome parts (λ p. p.0 ≡ low_part self.now place)) }
        ensures high { IfOk result (λ parts. IfSome parts (λ p. p.1 ≡ high_part self.now place)) }
        ensures parts { IfOk result (λ parts. IfSome parts (λ p. (a : Street) → IsBoxOf a self.now → AreParts a self.now p.0 p.1)) }
    {
        if !self.is_place(place) {
            return Ok(None);
        }
        let Span { least, most } = self.span_at(place);
        let at = number(place);
        let low = self.with_span(alloc, place, Span { least, most: at })?;
        let least = at + 1;
        let high = self.with_span(alloc, place, Span { least, most })?;
        Ok(Some((low, high)))
    }
}
