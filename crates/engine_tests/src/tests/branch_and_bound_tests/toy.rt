//! A relaxation for the tests: the greatest block sum of the only link that is at most a cap. An artery with more links has
//! none. Each box costs one pivot. A cap above 1000 is refused.

ghost use Rattle.std.specs.Prelude.{◌≡◌, ◌<ℤ◌, ◌-ℤ◌, pos, length};
ghost use Rattle.branch_and_bound.specs.{Lines.{BoxLine}, OpenedNodes.{Opens}};
ghost use Rattle.work_meter.specs.Work.{HasWork};
ghost use Rattle.engine_tests.specs.CappedRules.{capped_rules, EndsHere};

use artery_model::Artery;
use branch_and_bound::{Opened, Relaxation};
use named_row::{Leaf, Point};
use narrow_fraction::{Frac, Memory};
use search_box::{At, SearchBox};
use std::alloc::Global;
use work_meter::Meter;

/// The numbers of the root's span of the only link that are at most `cap`.
#[derive(Drop)]
pub(crate) struct Capped {
    pub(crate) artery: Artery,
    pub(crate) cap: i64,
}

/// The number before one that is more than another.
fn before(at: i64, least: i64) -> i64
    requires { least <ℤ at }
    ensures { result ≡ at -ℤ pos 1 }
{
    at - 1
}

fn no_rows(alloc: Global) -> Leaf {
    Leaf {
        multipliers: Vec::new(alloc),
    }
}

/// The end of a box of one link.
fn end_of(alloc: Global, cap: i64, area: &SearchBox) -> Opened<i64, u8, u8>
    requires { length area.now.loops ≡ 1 }
    ensures { EndsHere cap area.now result }
{
    let span = area.loop_span(1);
    let leaf = no_rows(alloc);
    if span.most < span.least || cap < span.least {
        return Opened::Infeasible { leaf };
    }
    let bound = Frac::whole(span.most);
    if cap < span.most {
        return Opened::Splits {
            leaf,
            bound,
            place: At::Loop {
                link: 1,
                at: before(span.most, cap),
            },
            point: Point {
                values: Vec::new(alloc),
            },
            kept: 0,
        };
    }
    Opened::Timed {
        leaf,
        bound,
        timing: span.most,
    }
}

/// The end of a box with so many links.
fn end_with(alloc: Global, cap: i64, links: u32, area: &SearchBox) -> Opened<i64, u8, u8>
    requires { links ≡ length area.now.loops }
    ensures { EndsHere cap area.now result }
{
    if links == 1 {
        end_of(alloc, cap, area)
    } else {
        Opened::Infeasible {
            leaf: no_rows(alloc),
        }
    }
}

impl Capped {
    /// Opens a box with so many links: one unit, and one for its only pivot.
    fn open(
        &self,
        alloc: Global,
        links: u32,
        area: &SearchBox,
        meter: &mut Meter,
    ) -> Opened<i64, u8, u8>
        requires work { HasWork meter.old }
        requires links { links ≡ length area.now.loops }
        ensures limit { meter.new.limit ≡ meter.old.limit }
        ensures opens { (line : BoxLine) → line.area ≡ area.now → Opens (capped_rules self.now.artery self.now.cap) line meter.old meter.new result }
    {
        meter.spend();
        if meter.is_out() {
            return Opened::WorkOut;
        }
        if self.cap > 1000 {
            return Opened::Wide { pivots: 0, part: 0 };
        }
        meter.spend();
        end_with(alloc, self.cap, links, area)
    }
}

impl Relaxation for Capped {
    type Room = u8;

    type Kept = u8;

    type Timing = i64;

    type Part = u8;

    ghost rules = { λ s. capped_rules s.artery s.cap };

    ghost Ready = { λ s room. Unit {0} };

    fn root(&self, alloc: Global) -> Result<SearchBox, Memory> {
        SearchBox::root(alloc, &self.artery)
    }

    fn start_leaf(&self, alloc: Global) -> Result<(Leaf, Frac), Memory> {
        prove!(self.artery.count() >= 2);
        let area = SearchBox::root(alloc, &self.artery)?;
        Ok((no_rows(alloc), Frac::whole(area.loop_span(1).most)))
    }

    fn open_root(
        &self,
        alloc: Global,
        _room: &mut u8,
        area: &SearchBox,
        meter: &mut Meter,
    ) -> Result<Opened<i64, u8, u8>, Memory> {
        Ok(self.open(alloc, self.artery.count() - 1, area, meter))
    }

    fn open_part(
        &self,
        alloc: Global,
        _room: &mut u8,
        _kept: &u8,
        area: &SearchBox,
        meter: &mut Meter,
    ) -> Result<Opened<i64, u8, u8>, Memory> {
        // only a box of one link is split
        Ok(self.open(alloc, 1, area, meter))
    }
}
