//! The leaf that bounds the root of links before any pivot.

ghost use Rattle.std.specs.Prelude.{◌≡◌, ◌-◌, ◌++◌, None, IfOk, OnOk, map};
ghost use Rattle.progression.specs.Street.{count};
ghost use Rattle.linear_theory.specs.Boxes.{IsBoxOf, root_box};
ghost use Rattle.loop_rows.specs.Weights.{fault_of};
ghost use Rattle.link_theory.specs.LinkTrees.{link_sum, AreLinkWeights, CoversLinks};
ghost use Rattle.link_space.specs.LinkWeights.{link_named, link_rows};
ghost use Rattle.multi_band.specs.LinkOpening as openings;
ghost use Rattle.multi_band.specs.LinkStarts.{far_weights, inbound_weights, link_start_leaf, link_start_bound};

use artery_model::{Artery, Dir};
use link_space::{LinkFamily, link_sum, twice};
use link_theory::LinkEnd;
use loop_rows::{Family, SumFault};
use named_row::{Leaf, Place, RowId, Weight};
use narrow_fraction::{Frac, Memory};
use search_box::SearchBox;
use std::alloc::Global;

/// The number of the family of far_out_a or far_in_a.
fn far_family(dir: Dir) -> u8
    ensures { result ≡ openings.far_family dir }
{
    LinkFamily::FarRow(dir, LinkEnd::Here).number()
}

/// A multiplier for each link's row of a direction.
fn push_fars(list: &mut Vec<Weight>, artery: &Artery, dir: Dir, by: Frac) -> Result<(), Memory>
    ensures { OnOk result (list.new.items ≡ list.old.items ++ far_weights dir by 1 (count artery.now - 1)) }
{
    let family = far_family(dir);
    for link in 1..artery.count() {
        let row = RowId {
            family,
            index: link,
        };
        list.push(Weight { row, by })?;
    }
    Ok(())
}

/// Twice the ratio for each link's inbound row, and no row where it is 0.
fn push_inbound(list: &mut Vec<Weight>, artery: &Artery) -> Result<(), Memory>
    ensures { OnOk result (list.new.items ≡ list.old.items ++ inbound_weights artery.now) }
{
    // its contract says that the artery is valid
    artery.known_valid();
    let ratio = artery.ratio();
    if ratio == Frac::whole(0) {
        return Ok(());
    }
    push_fars(list, artery, Dir::Inbound, twice(ratio))
}

/// Twice each row by which a wait and its link's half fit into the green at the link's own signal, the inbound ones as often as
/// the ratio says.
fn far_rows(alloc: Global, artery: &Artery) -> Result<Leaf, Memory>
    ensures { IfOk result (λ leaf. leaf.multipliers.items ≡ link_start_leaf artery.now) }
{
    let mut multipliers = Vec::new(alloc);
    push_fars(&mut multipliers, artery, Dir::Outbound, Frac::whole(2))?;
    push_inbound(&mut multipliers, artery)?;
    Ok(Leaf { multipliers })
}

/// The bound of the sum of these rows, which fits.
fn bound_of(alloc: Global, artery: &Artery, area: &SearchBox, leaf: &Leaf) -> Result<Frac, Memory>
    requires boxed { IsBoxOf artery.now area.now }
    requires fits { fault_of (link_rows artery.now area.now) leaf.now.multipliers.items ≡ None }
    ensures { IfOk result (λ bound. bound ≡ (link_sum artery.now area.now (map link_named leaf.now.multipliers.items)).bound) }
{
    prove!(2 <= artery.count());
    match link_sum(alloc, artery, area, leaf) {
        Ok(sum) => Ok(sum.get(Place::Bound)),
        Err(SumFault::Memory) => Err(Memory),
        Err(SumFault::NoSuchRow { .. }) => unreachable!(),
        Err(SumFault::Negative { .. }) => unreachable!(),
        Err(SumFault::Wide { .. }) => unreachable!(),
    }
}

/// The leaf that bounds the root box of links before any pivot, and its bound: at each link's own signal a wait and the link's
/// half fit into the green. The error is want of memory.
pub fn start_link_leaf(alloc: Global, artery: &Artery) -> Result<(Leaf, Frac), Memory>
    ensures leaf { IfOk result (λ start. start.0.multipliers.items ≡ link_start_leaf artery.now) }
    ensures bound { IfOk result (λ start. start.1 ≡ link_start_bound artery.now) }
    ensures rows { IfOk result (λ start. AreLinkWeights artery.now (map link_named start.0.multipliers.items)) }
    ensures covers { IfOk result (λ start. CoversLinks artery.now start.1 (link_sum artery.now (root_box artery.now) (map link_named start.0.multipliers.items))) }
{
    // its contract says that the artery is valid
    artery.known_valid();
    let area = SearchBox::root(alloc, artery)?;
    let leaf = far_rows(alloc, artery)?;
    let bound = bound_of(alloc, artery, &area, &leaf)?;
    Ok((leaf, bound))
}
