//! Worked entries.

ghost use Rattle.std.specs.Prelude.{◌≡◌, IfOk, false};
ghost use Rattle.linear_theory.specs.Boxes.{IsBoxOf};
ghost use Rattle.simplex_theory.specs.DualSteps.{IsDual};
ghost use Rattle.program_builder.specs.{Building.{IsMadeFor, IsLoadedFor}, Entry.{IsBasisOf}, First.{IsFirstFor}, Remembering.{IsMemoryOf}};

use super::tests::{artery, is_same, loaded, opening, root};
use crate::tests::solving::solved;
use artery_model::{Artery, Pair};
use dual_simplex::{Meter, NodeEnd, solve_node};
use fraction_tableau::Tableau;
use narrow_fraction::Frac;
use program_builder::{EntryMemory, enter_remembering};
use search_box::{At, SearchBox};
use std::alloc::Global;
use std::process::Abort;
use std::rt::HostRuntime;
use std::test::Fail;
use test_bed::{SampleHead, SampleLink, fraction_or_zero, plain_head, plain_signal, sample_street};

static BASIS: [u32; 16] = [0, 1, 2, 7, 8, 12, 14, 17, 18, 20, 21, 22, 23, 24, 25, 26];

const NO_LIMIT: Meter = Meter {
    spent: 0,
    limit: None,
};

/// Steps from the opening of a box to its best end: the basic variables there, and how many pivots it took.
fn best_end(
    alloc: Global,
    artery: &Artery,
    area: &SearchBox,
    tableau: &mut Tableau,
) -> Result<(Vec<u32>, u64), Fail>
    requires first { IsFirstFor artery.now area.now tableau.old.table }
    requires unspent { tableau.old.spent ≡ false }
    ensures made { IfOk result (λ _. IsMadeFor artery.now tableau.new) }
    ensures basis { IfOk result (λ end. IsBasisOf artery.now end.0.items) }
{
    let mut meter = NO_LIMIT;
    let mut pivots = 0;
    match solve_node(tableau, &mut meter, &mut pivots) {
        NodeEnd::Optimal => {
            let basis = tableau.basis(alloc)?;
            Ok((basis, pivots))
        }
        _ => Err("no best end".into()),
    }
}

/// The parts of a box in which the block sum of the first link is 0 at most, and 1 at least.
fn parts(alloc: Global, artery: &Artery, area: &SearchBox) -> Result<(SearchBox, SearchBox), Fail>
    requires { IsBoxOf artery.now area.now }
    ensures low { IfOk result (λ parts. IsBoxOf artery.now parts.0) }
    ensures high { IfOk result (λ parts. IsBoxOf artery.now parts.1) }
{
    match area.split(alloc, At::Loop { link: 1, at: 0 })? {
        Some(parts) => Ok(parts),
        None => Err("no parts".into()),
    }
}

/// What the parts of a box are entered from: the loaded rows, and the basis where the box ended.
#[derive(Clone, Copy)]
struct Split<'a> {
    artery: &'a Artery,
    rows: &'a Tableau,
    basis: &'a [u32],
}

/// Fails where a part isn't entered with the worked basis, which stays.
fn enter_part(
    rt: &impl Abort,
    alloc: Global,
    split: Split,
    area: &SearchBox,
    tableau: &mut Tableau,
    memory: &mut EntryMemory,
) -> Result<(), Fail>
    requires boxed { IsBoxOf split.artery.now area.now }
    requires made { IsMadeFor split.artery.now tableau.old }
    requires basis { IsBasisOf split.artery.now split.basis.now }
    requires loaded { IsLoadedFor split.artery.now split.rows.now }
    requires memory { IsMemoryOf split.artery.now memory.old }
    ensures dual { IfOk result (λ _. IsDual tableau.new.table) }
    ensures unspent { IfOk result (λ _. tableau.new.spent ≡ false) }
    ensures made { IfOk result (λ _. IsMadeFor split.entry.artery.now tableau.new) }
    ensures memory { IfOk result (λ _. IsMemoryOf split.entry.artery.now memory.new) }
{
    let is_entry = enter_remembering(tableau, split.rows, split.artery, area, split.basis, memory)?;
    let left = tableau.basis(alloc)?;
    assert!(rt; is_entry && left.as_slice() == BASIS.as_slice());
    assert!(rt; !tableau.is_spent());
    Ok(())
}

/// From the entry of the low part of a box 4 pivots lead to its end.
fn end_low(
    rt: &impl Abort,
    alloc: Global,
    split: Split,
    area: &SearchBox,
    tableau: &mut Tableau,
) -> Result<(), Fail>
    requires boxed { IsBoxOf split.artery.now area.now }
    requires made { IsMadeFor split.artery.now tableau.old }
    requires basis { IsBasisOf split.artery.now split.basis.now }
    requires loaded { IsLoadedFor split.artery.now split.rows.now }
{
    let (low, _) = parts(alloc, split.artery, area)?;
    let mut memory = EntryMemory::new(alloc, split.artery)?;
    enter_part(rt, alloc, split, &low, tableau, &mut memory)?;
    assert_eq!(rt; solved(tableau, NO_LIMIT, 0), (NodeEnd::Optimal, 4, 4));
    Ok(())
}

/// From the entry of the high part 5 do; it is made of what the low part's left in the memory.
fn end_high(
    rt: &impl Abort,
    alloc: Global,
    split: Split,
    area: &SearchBox,
    tableau: &mut Tableau,
) -> Result<(), Fail>
    requires boxed { IsBoxOf split.artery.now area.now }
    requires made { IsMadeFor split.artery.now tableau.old }
    requires basis { IsBasisOf split.artery.now split.basis.now }
    requires loaded { IsLoadedFor split.artery.now split.rows.now }
{
    let (low, high) = parts(alloc, split.artery, area)?;
    let mut memory = EntryMemory::new(alloc, split.artery)?;
    enter_part(rt, alloc, split, &low, tableau, &mut memory)?;
    enter_part(rt, alloc, split, &high, tableau, &mut memory)?;
    assert_eq!(rt; solved(tableau, NO_LIMIT, 0), (NodeEnd::Optimal, 5, 5));
    Ok(())
}

/// From the opening of a box to its best end, and from there to that of its low part, or of its high one.
fn end_and_enter(
    rt: &impl Abort,
    alloc: Global,
    artery: &Artery,
    area: &SearchBox,
    tableau: &mut Tableau,
    is_high: bool,
) -> Result<(), Fail>
    requires boxed { IsBoxOf artery.now area.now }
    requires first { IsFirstFor artery.now area.now tableau.old.table }
    requires unspent { tableau.old.spent ≡ false }
{
    let (basis, pivots) = best_end(alloc, artery, area, tableau)?;
    assert!(rt; pivots == 3 && basis.as_slice() == BASIS.as_slice());
    let rows = loaded(alloc, artery, area)?;
    let split = Split {
        artery,
        rows: &rows,
        basis: basis.as_slice(),
    };
    if is_high {
        end_high(rt, alloc, split, area, tableau)
    } else {
        end_low(rt, alloc, split, area, tableau)
    }
}

/// The same of the root of the worked artery.
fn end_part(rt: &impl Abort, alloc: Global, is_high: bool) -> Result<(), Fail> {
    let artery = artery(alloc, 50, Frac::whole(1))?;
    let area = root(alloc, &artery)?;
    let mut tableau = opening(alloc, &artery, &area)?;
    end_and_enter(rt, alloc, &artery, &area, &mut tableau, is_high)
}

/// The whole box ends after 3 pivots, and from the entry of its basis the low part ends after 4.
#[test]
fn low_part_begins_at_the_end_of_the_whole(rt: HostRuntime) -> Result<(), Fail> {
    end_part(&rt, rt.alloc(), false)
}

/// The other part has the same basis, and its bounds alone are run through the turns that are remembered.
#[test]
fn high_part_is_entered_by_what_is_remembered(rt: HostRuntime) -> Result<(), Fail> {
    end_part(&rt, rt.alloc(), true)
}

/// The numerator and the denominator of the least and of the most.
type Limits = ((i128, i128), (i128, i128));

fn range(limits: Limits) -> Pair {
    let (least, most) = limits;
    Pair {
        least: fraction_or_zero(least.0, least.1),
        most: fraction_or_zero(most.0, most.1),
    }
}

/// A link as long inbound as outbound.
struct RoughLink {
    distance: u32,
    speed_out: Limits,
    speed_in: Limits,
    change_out: Option<Limits>,
    change_in: Option<Limits>,
}

const FREE: Limits = ((90, 1), (110, 1));

/// Two links whose limits of speed and of change have denominators without a common divisor, and a free one.
static ROUGH: [RoughLink; 3] = [
    RoughLink {
        distance: 23291,
        speed_out: ((92009, 941), (93491, 907)),
        speed_in: ((90067, 991), (93523, 971)),
        change_out: Some(((-976, 953), (950, 983))),
        change_in: Some(((-934, 983), (983, 971))),
    },
    RoughLink {
        distance: 24391,
        speed_out: ((95369, 937), (92357, 907)),
        speed_in: FREE,
        change_out: None,
        change_in: Some(((-925, 953), (986, 907))),
    },
    RoughLink {
        distance: 29881,
        speed_out: FREE,
        speed_in: FREE,
        change_out: None,
        change_in: None,
    },
];

fn change(limits: Option<Limits>) -> Option<Pair> {
    match limits {
        Some(limits) => Some(range(limits)),
        None => None,
    }
}

fn link(rough: &RoughLink) -> SampleLink {
    SampleLink {
        distance_out: rough.distance,
        distance_in: rough.distance,
        speed_out: range(rough.speed_out),
        speed_in: range(rough.speed_in),
        change_out: change(rough.change_out),
        change_in: change(rough.change_in),
    }
}

fn rough_head() -> SampleHead {
    SampleHead {
        cycle: range(FREE),
        ..plain_head()
    }
}

/// The street of the rough links.
fn rough_artery(alloc: Global) -> Result<Artery, Fail> {
    let signals = [
        plain_signal("A", 50),
        plain_signal("B", 50),
        plain_signal("C", 50),
        plain_signal("D", 50),
    ];
    let links = [link(&ROUGH[0]), link(&ROUGH[1]), link(&ROUGH[2])];
    match sample_street(alloc, rough_head(), &signals, &links) {
        Ok(artery) => Ok(artery),
        Err(_) => Err("no artery".into()),
    }
}

/// Whether two tableaus have the same basic variables.
fn has_same_basis(alloc: Global, one: &Tableau, other: &Tableau) -> Result<bool, Fail> {
    let basis = one.basis(alloc)?;
    let other_basis = other.basis(alloc)?;
    Ok(basis.as_slice() == other_basis.as_slice())
}

/// Whether a tableau isn't spent and has the same basic variables and numbers as another.
fn is_unspent_same(alloc: Global, one: &Tableau, other: &Tableau) -> Result<bool, Fail> {
    let is_basis = has_same_basis(alloc, one, other)?;
    Ok(!one.is_spent() && is_basis && is_same(one, other))
}

/// Whether a tableau is the opening of a box, which isn't spent.
fn is_opening(
    alloc: Global,
    tableau: &Tableau,
    artery: &Artery,
    area: &SearchBox,
) -> Result<bool, Fail>
    requires { IsBoxOf artery.now area.now }
{
    let fresh = opening(alloc, artery, area)?;
    is_unspent_same(alloc, tableau, &fresh)
}

/// Makes the entry of a box from its own end: how many pivots the end takes from the opening, whether the entry from there is one, and
/// whether it leaves the opening.
fn entered_again(
    alloc: Global,
    artery: &Artery,
    area: &SearchBox,
    tableau: &mut Tableau,
) -> Result<(u64, bool, bool), Fail>
    requires boxed { IsBoxOf artery.now area.now }
    requires first { IsFirstFor artery.now area.now tableau.old.table }
    requires unspent { tableau.old.spent ≡ false }
{
    let (basis, pivots) = best_end(alloc, artery, area, tableau)?;
    let rows = loaded(alloc, artery, area)?;
    let mut memory = EntryMemory::new(alloc, artery)?;
    let is_entry = enter_remembering(tableau, &rows, artery, area, basis.as_slice(), &mut memory)?;
    let is_opening = is_opening(alloc, tableau, artery, area)?;
    Ok((pivots, is_entry, is_opening))
}

/// The same of the root of the rough street.
fn rough_entry(alloc: Global) -> Result<(u64, bool, bool), Fail> {
    let artery = rough_artery(alloc)?;
    let area = root(alloc, &artery)?;
    let mut tableau = opening(alloc, &artery, &area)?;
    entered_again(alloc, &artery, &area, &mut tableau)
}

/// The pivots of an entry come in the order of the columns, so that one of them can leave 128 bits though no step to the end did.
#[test]
fn refused_entry_is_the_opening(rt: HostRuntime) -> Result<(), Fail> {
    let (pivots, is_entry, is_opening) = rough_entry(rt.alloc())?;
    assert_eq!(rt; pivots, 9);
    assert!(rt; !is_entry);
    assert!(rt; is_opening);
    Ok(())
}
