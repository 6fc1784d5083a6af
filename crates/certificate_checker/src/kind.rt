//! The timings that certificates speak of, and the rows that bound what they are worth.

ghost use Rattle.std.specs.Prelude.{◌≡◌, length, false, None, IfOk, IfErr, OnOk};
ghost use Rattle.linear_theory.specs.Boxes.{Area, IsBoxOf};
ghost use Rattle.loop_rows.specs.Weights.{total_of, fault_of, IsFirstFault};
ghost use Rattle.search_box.specs.{Places.{IsPlace, low_part, high_part}, declared.span.At.{At}};
ghost use Rattle.search_box.proofs.Parts.{parts_boxed};
ghost use Rattle.certificate_checker.specs.{Checked.{Checked}, Refusals.{one_band}};

use loop_rows::{ArteryRows, SumFault, column_count, fill_goal, sum_of};
use named_row::{Leaf, Row};
use narrow_fraction::{Frac, Memory};
use search_box::SearchBox;
use std::alloc::Global;
use time_space::{Failing, Timing, holds, value};

/// The timings of a kind, of an artery.
pub trait CheckedKind {
    type Timing;

    /// Why one isn't good.
    type Failing: Drop;

    /// Which are good, what each is worth, and the box, the rows and the goal that bound that.
    ghost kind: { Self → Checked Self.Timing Self.Failing };

    /// Whether there are rows for a box.
    ghost Ready: { Self → Area → Type 0 };

    /// Whether a timing is good, or else the rule that it breaks first.
    fn holds(&self, timing: &Self::Timing) -> Result<(), Self::Failing>
        ensures good { OnOk result ((kind self.now).objective.IsGood timing.now) }
        ensures first { IfErr result (λ failing. (kind self.now).FailsFirst timing.now failing) };

    /// What a timing is worth.
    fn worth(&self, timing: &Self::Timing) -> Frac
        ensures { result ≡ (kind self.now).objective.worth timing.now };

    /// The row of that.
    fn goal(&self, alloc: Global) -> Result<Row, Memory>
        ensures { IfOk result (λ row. row ≡ (kind self.now).goal) };

    /// The box that holds each good timing.
    fn root(&self, alloc: Global) -> Result<SearchBox, Memory>
        ensures root { IfOk result (λ area. area ≡ (kind self.now).root) }
        ensures ready { IfOk result (λ area. Ready self.now area) }
        ensures width { (box : Area) → length (kind self.now).goal.coefs ≡ ((kind self.now).rows box).width };

    /// The sum of the rows that a leaf names for a box, or the first fault, as `loop_rows::sum_of` has it.
    fn sum(&self, alloc: Global, area: &SearchBox, leaf: &Leaf) -> Result<Row, SumFault>
        requires ready { Ready self.now area.now }
        ensures sum { IfOk result (λ sum. sum ≡ total_of ((kind self.now).rows area.now) leaf.now.multipliers.items) }
        ensures none { OnOk result (fault_of ((kind self.now).rows area.now) leaf.now.multipliers.items ≡ None) }
        ensures fault { IfErr result (λ fault. IsFirstFault (fault_of ((kind self.now).rows area.now) leaf.now.multipliers.items) fault) }
        ensures unspent { IfOk result (λ sum. sum.spent ≡ false) }
        ensures width { IfOk result (λ sum. length sum.coefs ≡ ((kind self.now).rows area.now).width) };

    /// There are rows for both parts of a box that has some.
    ghost parts: { (s : Self) (box : Area) (at : At) → IsPlace box at → Ready s box → Ready s (low_part box at) × Ready s (high_part box at) };
}

/// The timings of an artery with one band a direction, and the rows of its boxes.
impl<'a> CheckedKind for ArteryRows<'a> {
    type Timing = Timing;

    type Failing = Failing;

    ghost kind = { λ source. one_band source.artery.now };

    ghost Ready = { λ source. IsBoxOf source.artery.now };

    ghost parts = { λ source box at. parts_boxed source.artery.now box at };

    fn holds(&self, timing: &Timing) -> Result<(), Failing> {
        holds(self.artery, timing)
    }

    fn worth(&self, timing: &Timing) -> Frac {
        value(self.artery, timing)
    }

    fn goal(&self, alloc: Global) -> Result<Row, Memory> {
        let mut row = Row::zero(alloc, column_count(self.artery))?;
        fill_goal(self.artery, &mut row);
        Ok(row)
    }

    fn root(&self, alloc: Global) -> Result<SearchBox, Memory> {
        SearchBox::root(alloc, self.artery)
    }

    fn sum(&self, alloc: Global, area: &SearchBox, leaf: &Leaf) -> Result<Row, SumFault> {
        sum_of(alloc, self, area, leaf)
    }
}
