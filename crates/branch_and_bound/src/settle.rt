//! What becomes of a box that was opened.

ghost use Rattle.std.specs.Prelude.{◌≡◌};
ghost use Rattle.branch_and_bound.specs.State.{SettlesAt};

use crate::found::{Site, Stop};
use crate::incumbent::improve;
use crate::node::Node;
use crate::opened::Opened;
use crate::progress::Progress;
use crate::relaxation::Relaxation;
use named_row::Leaf;
use narrow_fraction::Frac;
use search_box::SearchBox;

/// What became of a box.
#[derive(Drop)]
pub(crate) enum Settled<K, W> {
    /// It is a leaf.
    Done {
        node: Node<K>,
    },
    /// Its vertex was found, and an operation of its reading was refused.
    Stuck {
        leaf: Leaf,
        bound: Frac,
        site: Site<W>,
    },
    /// It wasn't finished.
    Left {
        stop: Stop<W>,
    },
}

/// A box whose vertex was found but not read keeps the leaf of its end.
fn unread<K: Drop, W: Drop>(leaf: Leaf, bound: Frac, site: Site<W>) -> Settled<K, W>
    ensures { result ≡ Settled.Stuck leaf bound site }
{
    Settled::Stuck { leaf, bound, site }
}

/// Makes a leaf of a box that was finished, and keeps its timing where that is better than the best so far.
pub(crate) fn settle<P: Relaxation>(
    _relaxation: &P,
    opened: Opened<P::Timing, P::Kept, P::Part>,
    area: SearchBox,
    progress: &mut Progress<P::Timing>,
) -> Settled<P::Kept, P::Part>
    ensures meter { progress.new.meter ≡ progress.old.meter }
    ensures settles { SettlesAt (P.rules _relaxation.now) area opened progress.old.incumbent progress.new.incumbent progress.old.meter result }
{
    match opened {
        Opened::Infeasible { leaf } => Settled::Done {
            node: Node::Closed { leaf },
        },
        Opened::Timed {
            leaf,
            bound,
            timing,
        } => {
            improve(&mut progress.incumbent, bound, timing);
            Settled::Done {
                node: Node::Closed { leaf },
            }
        }
        Opened::Splits {
            leaf,
            bound,
            place,
            point,
            kept,
        } => Settled::Done {
            node: Node::Waiting {
                area,
                leaf,
                bound,
                place,
                point,
                kept,
            },
        },
        Opened::Unread {
            leaf,
            bound,
            pivots,
            part,
        } => unread(leaf, bound, Site { area, pivots, part }),
        Opened::WorkOut => Settled::Left {
            stop: Stop::Work {
                spent: progress.meter.spent,
            },
        },
        Opened::Wide { pivots, part } => Settled::Left {
            stop: Stop::Wide(Site { area, pivots, part }),
        },
    }
}
