//! Why a certificate is refused.

ghost use Rattle.std.specs.Prelude.{◌≡◌, ◌↔◌, IsTrue};

use named_row::{Place, RowId, WideAt};
use narrow_fraction::{Frac, Memory};
use time_space::Failing;

/// Why a certificate is not accepted whose timing fails in the ways of `F`. Nodes are counted from 1 in their order, and leaves from 1
/// among the leaves alone.
#[derive(Clone, Copy, Debug, PartialEq, Eq)]
pub enum Reject<F = Failing> {
    /// The timing breaks this rule.
    TimingFails(F),
    /// The timing's value is `kept` and not what is claimed.
    ValueDiffers { kept: Frac, claimed: Frac },
    /// The claimed bound is less than the claimed value.
    BoundBelow { bound: Frac, value: Frac },
    /// The node's box can't be split at its place.
    SplitOutside { node: u64 },
    /// The leaf names a row that isn't there.
    NoSuchRow { leaf: u64, row: RowId },
    /// The leaf's multiplier of this row is below 0.
    Negative { leaf: u64, row: RowId },
    /// The leaf's sum with this row leaves 128 bits, first at this place.
    Wide { leaf: u64, row: RowId, at: WideAt },
    /// The leaf's sum doesn't rule out its box and, where a value or a bound is claimed, doesn't keep the value of every timing
    /// down to it. This is the first place where it fails to: without a value or bound, where it fails to rule out.
    LeafTooWeak { leaf: u64, place: Place },
    /// Want of memory.
    Memory,
}

/// Why the tree of an artery's certificate is refused: a node or leaf of it, or want of memory.
pub type TreeReject = Reject<Failing>;

impl<F> From<Memory> for Reject<F> {
    ghost use Rattle.certificate_checker.specs.declared.reject.Reject.TheVariants as whole;

    ghost from_gives = { λ _ reject. reject ≡ whole.Memory };

    fn from(_: Memory) -> Reject<F> {
        Reject::Memory
    }
}

impl<F> Reject<F> {
    /// Whether memory was wanting, so that nothing is said of the certificate.
    pub fn is_memory(&self) -> bool
        ensures { IsTrue result ↔ self.now ≡ Reject.Memory }
    {
        match self {
            Reject::Memory => true,
            Reject::TimingFails(_)
            | Reject::ValueDiffers { .. }
            | Reject::BoundBelow { .. }
            | Reject::SplitOutside { .. }
            | Reject::NoSuchRow { .. }
            | Reject::Negative { .. }
            | Reject::Wide { .. }
            | Reject::LeafTooWeak { .. } => false,
        }
    }
}
