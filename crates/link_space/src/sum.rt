//! Sums of the rows of links that a leaf names.

ghost use Rattle.std.specs.Prelude.{◌≡◌, length, map, false, None, IfOk, IfErr, OnOk};
ghost use Rattle.rational_theory.specs.Rows.{added};
ghost use Rattle.progression.specs.Street.{count};
ghost use Rattle.linear_theory.specs.Boxes.{IsBoxOf};
ghost use Rattle.named_row.specs.Sheets.{blank, row_of};
ghost use Rattle.loop_rows.specs.Weights.{total_of, fault_of, IsFirstFault};
ghost use Rattle.link_theory.specs.{LinkColumns.{link_width}, LinkTrees.{link_sum, AreLinkWeights}};
ghost use Rattle.link_space.specs.LinkWeights.{link_named, link_rows};

use crate::rows::LinkRows;
use artery_model::Artery;
use loop_rows::{SumFault, sum_of};
use named_row::{Leaf, Row};
use search_box::SearchBox;
use std::alloc::Global;

/// The sum of the rows of links of a leaf for a box of an artery.
///
/// The fault is that of the first row that has one, and of its faults the first in the order of `SumFault`. Want of
/// memory may come in place of any answer.
#[tactic(auto, using(crate::proofs::LinkRowTests::link_total_row, crate::proofs::LinkRowTests::link_total_weights))]
pub fn link_sum(
    alloc: Global,
    artery: &Artery,
    area: &SearchBox,
    leaf: &Leaf,
) -> Result<Row, SumFault>
    requires boxed { IsBoxOf artery.now area.now }
    ensures sum { IfOk result (λ sum. sum ≡ total_of (link_rows artery.now area.now) leaf.now.multipliers.items) }
    ensures none { OnOk result (fault_of (link_rows artery.now area.now) leaf.now.multipliers.items ≡ None) }
    ensures fault { IfErr result (λ fault. IsFirstFault (fault_of (link_rows artery.now area.now) leaf.now.multipliers.items) fault) }
    ensures row { IfOk result (λ sum. row_of sum ≡ added (row_of (blank (link_width (count artery.now)))) (link_sum artery.now area.now (map link_named leaf.now.multipliers.items))) }
    ensures weights { OnOk result (AreLinkWeights artery.now (map link_named leaf.now.multipliers.items)) }
    ensures unspent { IfOk result (λ sum. sum.spent ≡ false) }
    ensures width { IfOk result (λ sum. length sum.coefs ≡ link_width (count artery.now)) }
{
    prove!(2 <= artery.count());
    sum_of(alloc, &LinkRows { artery }, area, leaf)
}
