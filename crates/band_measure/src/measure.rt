//! The widest band of all: the firsts to try are those at which a line leaves a red.

ghost use Rattle.std.specs.Prelude.{◌≡◌, ◌+◌, ◌<◌, ◌≤◌, ◌^◌, true, false, unsigned_abs, MatchOption, IfSome};
ghost use Rattle.progression.specs.{Street.{count}, BaseRecord.{cycle}, TimingRecord.{base}};
ghost use Rattle.band_measure.specs.{Edges.{way}, Widest.{NoneRuns, IsWidest}, Tried.{FoundOfEdges}};
ghost use Rattle.time_space.specs.Timing.{IsFor};

use crate::pair::Widest;
use crate::ways::{edge, way_beyond};
use crate::widths::band_from;
use artery_model::Artery;
use progression::Dir;
use time_space::{Base, Timing};

/// Whether a band is wider than one that is held, or as wide with a lesser first.
fn is_better(found: Widest, held: Widest) -> bool
    ensures yes { result ≡ true → (held.band ≤ found.band) × (found.band ≡ held.band → found.first ≤ held.first) }
    ensures no { result ≡ false → (found.band ≤ held.band) × (found.band ≡ held.band → held.first ≤ found.first) }
{
    held.band < found.band || held.band == found.band && found.first < held.first
}

/// The better of what the edges before a place give and what its own gives.
fn with_edge(
    artery: &Artery,
    base: &Base,
    dir: Dir,
    place: u32,
    later: i128,
    best: Option<Widest>,
) -> Option<Widest>
    requires on_way { place < count artery.now }
    requires shape { IsFor artery.now base.now }
    requires here { later ≡ way artery.now base.now dir place }
    requires near { unsigned_abs later < 2 ^ 98 }
    requires best { FoundOfEdges artery.now base.now dir place best }
    ensures { FoundOfEdges artery.now base.now dir (place + 1) result }
{
    let first = edge(artery, base, dir, place, later);
    match band_from(artery, base, dir, first) {
        None => best,
        Some(band) => {
            let found = Widest { first, band };
            match best {
                None => Some(found),
                Some(held) => {
                    if is_better(found, held) {
                        Some(found)
                    } else {
                        best
                    }
                }
            }
        }
    }
}

/// The widest band of a direction on a base with its least first, in ticks, over all firsts and all finer grids; or None where no
/// line crosses every signal in green.
///
/// Both numbers are below the cycle, so that where that is below `time_space::LIMIT` a timing can have them.
pub fn widest_on(artery: &Artery, base: &Base, dir: Dir) -> Option<Widest>
    requires shape { IsFor artery.now base.now }
    ensures widest { MatchOption result (NoneRuns artery.now base.now dir)
        (λ w. IsWidest artery.now base.now dir w.first w.band) }
    ensures some { IfSome result (λ w. ¬ NoneRuns artery.now base.now dir) }
    ensures first { IfSome result (λ w. w.first < cycle artery.now base.now) }
    ensures band { IfSome result (λ w. w.band < cycle artery.now base.now) }
{
    artery.known_valid();
    prove!(2 <= base.unit());
    let mut best = None;
    let mut later = 0;
    for place in 0..artery.count() {
        best = with_edge(artery, base, dir, place, later, best);
        later = way_beyond(artery, base, dir, place, later);
    }
    best
}

/// The same of the base of a timing, whose firsts and bands play no part.
pub fn widest(artery: &Artery, timing: &Timing, dir: Dir) -> Option<Widest>
    requires shape { IsFor artery.now (base timing.now) }
    ensures widest { MatchOption result (NoneRuns artery.now (base timing.now) dir)
        (λ w. IsWidest artery.now (base timing.now) dir w.first w.band) }
    ensures some { IfSome result (λ w. ¬ NoneRuns artery.now (base timing.now) dir) }
    ensures first { IfSome result (λ w. w.first < cycle artery.now (base timing.now)) }
    ensures band { IfSome result (λ w. w.band < cycle artery.now (base timing.now)) }
{
    widest_on(artery, timing.base(), dir)
}
