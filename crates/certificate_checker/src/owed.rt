//! The boxes that still want a tree.

ghost use Rattle.std.specs.Prelude.{◌≡◌, ◌<◌, [], ◌∷◌, length, drop, OnOk};
ghost use Rattle.search_box.specs.{Seen.{span_of}, Places.{IsPlace, FitsAt, low_part, high_part, span_at, with_span}};
ghost use Rattle.certificate_checker.specs.Owed.{AreSplits, number_at, first_of, owed_of, waiting};

use crate::way::{Entry, SplitWay};
use narrow_fraction::Memory;
use search_box::{At, SearchBox, Span};
use std::alloc::Global;
use std::marker::Model;

/// The boxes that still want a tree, seen as their list with the next one first.
///
/// Only that one is kept, with the splits on the way down to it, so a level of a tree takes the memory of an entry.
#[derive(Drop)]
pub struct Owed {
    area: SearchBox,
    way: SplitWay,
    wanted: bool,
}

impl Model for Owed {
    ghost use Rattle.std.specs.Prelude.{List};
    ghost use Rattle.linear_theory.specs.Boxes.{Area};
    ghost use Rattle.certificate_checker.specs.Owed.{AreSplits, owed_of};

    ghost Value = { List Area };

    ghost view = { λ o. owed_of o.wanted o.area o.way };

    ghost invariant = { λ o. AreSplits o.area o.way };
}

/// A place's number.
fn number(place: At) -> i64
    ensures { result ≡ number_at place }
{
    match place {
        At::Loop { at, .. } => at,
        At::Turn { rank, .. } => i64::from(rank),
    }
}

/// Narrows a box to its low part, and answers the span that it had there.
fn to_low(area: &mut SearchBox, place: At) -> Span
    requires place { IsPlace area.old place }
    ensures low { area.new ≡ low_part area.old place }
    ensures former { span_of result ≡ span_at area.old place }
    ensures fits { FitsAt place (span_of result) }
{
    let former = area.span_at(place);
    area.replace(
        place,
        Span {
            least: former.least,
            most: number(place),
        },
    )
}

/// From within a split to the high part of its box.
fn to_high(area: &mut SearchBox, place: At, former: Span)
    requires fits { FitsAt place (span_of former) }
    requires place { IsPlace (with_span area.old place (span_of former)) place }
    ensures high { area.new ≡ high_part (with_span area.old place (span_of former)) place }
{
    area.replace(
        place,
        Span {
            least: number(place) + 1,
            most: former.most,
        },
    );
}

/// From a box whose tree was read to the next box that waits, if there is one, and answers whether there is.
fn next(area: &mut SearchBox, way: &mut SplitWay) -> bool
    requires splits { AreSplits area.old way.old }
    ensures next { owed_of result area.new way.new ≡ waiting area.old way.old }
    ensures splits { AreSplits area.new way.new }
{
    while let Some(entry) = way.innermost() {
        if !entry.on_high {
            to_high(area, entry.place, entry.former);
            way.replace(Entry {
                on_high: true,
                ..entry
            });
            return true;
        }
        area.replace(entry.place, entry.former);
        way.pop();
    }
    false
}

impl Owed {
    /// One box.
    pub fn new(alloc: Global, area: SearchBox) -> Owed
        ensures { result ≡ area ∷ [] }
    {
        Owed {
            area,
            way: SplitWay::new(alloc),
            wanted: true,
        }
    }

    /// The next box.
    pub fn first(&self) -> &SearchBox
        requires { 0 < length self.now }
        ensures { self.now ≡ result.now ∷ drop 1 self.now }
    {
        &self.area
    }

    /// The next box gives way to its two parts. The error is want of memory.
    pub fn split(&mut self, place: At) -> Result<(), Memory>
        requires some { 0 < length self.old }
        requires place { IsPlace (first_of self.old) place }
        ensures { OnOk result (self.new ≡ low_part (first_of self.old) place ∷ high_part (first_of self.old) place ∷ drop 1 self.old) }
    {
        self.way.push(Entry {
            place,
            former: self.area.span_at(place),
            on_high: false,
        })?;
        to_low(&mut self.area, place);
        Ok(())
    }

    /// The next box has its tree.
    pub fn done(&mut self)
        requires { 0 < length self.old }
        ensures { self.new ≡ drop 1 self.old }
    {
        self.wanted = next(&mut self.area, &mut self.way);
    }
}
