//! The entry of a box, remembered for another box with the same basis.

ghost use Rattle.std.specs.Prelude.{◌≡◌, ◌+◌, ◌<◌, true, false, length, is_none, None, IfOk, if◌then◌else◌};
ghost use Rattle.linear_theory.specs.Boxes.{IsBoxOf};
ghost use Rattle.simplex_theory.specs.{Tableau.{height, width}, DualSteps.{IsDual}, RowLists.{StandsForRows}};
ghost use Rattle.entry_theory.specs.{Entry.{entry}, Ready.{IsReady}};
ghost use Rattle.fraction_tableau.specs.Narrow.{IsNarrow};
ghost use Rattle.program_builder.specs.{EntryRefusals.{entry_refusal}, Opening.{box_rows, goal_of, loaded}, Entry.{IsBasisOf, entered_box}};
ghost use Rattle.program_builder.specs.Building.{IsMadeFor, IsLoadedFor, loaded_box, opened_box};
ghost use Rattle.program_builder.specs.Remembering.{AreBoundsOf, HasBounds, HaveRoom, IsRemembered, IsEntryOf, IsMemoryOf};

use crate::entry_pivots::enter_columns;
use crate::loaded::{load_from, reset_from};
use crate::loading::make_unloaded;
use crate::noting::NotedPivot;
use artery_model::Artery;
use fraction_tableau::Tableau;
use narrow_fraction::{Frac, Memory};
use search_box::SearchBox;
use std::alloc::Global;
use std::mem;

/// The bounds of a tableau, the goal row's last.
fn read_bounds(bounds: &mut [Frac], tableau: &Tableau)
    requires { length bounds.old ≡ height tableau.now.table + 1 }
    ensures bounds { AreBoundsOf tableau.now.table bounds.new }
    ensures narrow { IsNarrow bounds.new }
{
    tableau.known_named();
    let width = tableau.width();
    for line in 0..bounds.len() {
        bounds[line] = tableau.cell(line as u32, width).fitting();
    }
}

/// Makes of a tableau's bounds what an entry makes of them; false where an operation on one of them leaves 128 bits.
fn pivot_all(pivots: &[NotedPivot], basis: &[u32], tableau: &Tableau, bounds: &mut [Frac]) -> bool
    requires remembered { IsRemembered basis.now pivots.now tableau.now.table }
    requires ready { IsReady basis.now tableau.now.table }
    requires columns { HaveRoom pivots.now (length bounds.old) }
    requires bounds { AreBoundsOf tableau.now.table bounds.old }
    requires narrow { IsNarrow bounds.old }
    ensures bounds { result ≡ true → AreBoundsOf (entry basis.now tableau.now.table) bounds.new }
    ensures passed { result ≡ true → entry_refusal basis.now tableau.now.table ≡ None }
{
    let width = tableau.width();
    for k in 0..basis.len() {
        if basis[k] < width {
            if k >= pivots.len() {
                return false;
            }
            if !pivots[k].pivot_bounds(bounds) {
                return false;
            }
        }
    }
    true
}

/// Gives a tableau bounds, the goal row's last.
fn write_bounds(tableau: &mut Tableau, bounds: &[Frac])
    requires { length bounds.now ≡ height tableau.old.table + 1 }
    ensures { HasBounds bounds.now tableau.old tableau.new }
{
    let rows = tableau.rows();
    for row in 0..rows {
        tableau.set_bound(row, bounds[row as usize]);
    }
    tableau.set_goal_bound(bounds[rows as usize]);
}

/// An entry that is remembered: its basis, its pivots and the tableau that it came to; and room for bounds.
#[derive(Drop)]
pub struct EntryMemory {
    is_kept: bool,
    basis: Vec<u32>,
    pivots: Vec<NotedPivot>,
    bounds: Vec<Frac>,
    tableau: Tableau,
}

/// Room for so many pivots of columns with so many numbers.
fn make_pivots(alloc: Global, count: u32, numbers: usize) -> Result<Vec<NotedPivot>, Memory>
    ensures { IfOk result (λ pivots. HaveRoom pivots.items numbers) }
{
    let mut pivots = Vec::new(alloc);
    for _ in 0..count {
        let pivot = NotedPivot::new(alloc, numbers)?;
        pivots.push(pivot)?;
    }
    Ok(pivots)
}

impl EntryMemory {
    /// Room for an entry of an artery's boxes. Nothing is remembered. The error is want of memory.
    pub fn new(alloc: Global, artery: &Artery) -> Result<EntryMemory, Memory>
        ensures { IfOk result (λ memory. IsMemoryOf artery.now memory) }
    {
        let tableau = make_unloaded(alloc, artery)?;
        let numbers = tableau.rows() as usize + 1;
        let pivots = make_pivots(alloc, tableau.width(), numbers)?;
        let zero = Frac::whole(0);
        let bounds = vec![in alloc; zero; numbers]?;
        Ok(EntryMemory {
            is_kept: false,
            basis: Vec::new(alloc),
            pivots,
            bounds,
            tableau,
        })
    }

    /// Whether the entry of this basis is remembered.
    fn is_for(&self, basis: &[u32]) -> bool
        ensures kept { result ≡ true → self.now.is_kept ≡ true }
        ensures basis { result ≡ true → self.now.basis.items ≡ basis.now }
    {
        self.is_kept && self.basis.as_slice() == basis
    }

    /// Forgets the entry, for one of this basis.
    fn start(&mut self, basis: &[u32]) -> Result<(), Memory>
        ensures basis { IfOk result (λ _. self.new.basis.items ≡ basis.now) }
        ensures rest { self.new ≡ record self.old { is_kept = false; basis = self.new.basis } }
    {
        self.is_kept = false;
        self.basis.clear();
        self.basis.extend_from_slice(basis)?;
        Ok(())
    }

    /// Keeps the tableau that the entry came to.
    fn keep(&mut self, tableau: &Tableau)
        requires rows { height self.old.tableau.table ≡ height tableau.now.table }
        requires columns { width self.old.tableau.table ≡ width tableau.now.table }
        ensures { self.new ≡ record self.old { is_kept = true; tableau = tableau.now } }
    {
        self.tableau.copy_from(tableau);
        self.is_kept = true;
    }
}

/// Makes a remembered entry once more, from a tableau with the same cells, which becomes the kept one with its own bounds, and the
/// kept one what the tableau was; false where an operation on a bound leaves 128 bits, and then both stay.
fn enter_again(
    tableau: &mut Tableau,
    kept: &mut Tableau,
    pivots: &[NotedPivot],
    basis: &[u32],
    bounds: &mut [Frac],
) -> bool
    requires remembered { IsRemembered basis.now pivots.now tableau.old.table }
    requires ready { IsReady basis.now tableau.old.table }
    requires columns { HaveRoom pivots.now (height tableau.old.table + 1) }
    requires bounds { length bounds.old ≡ height tableau.old.table + 1 }
    requires entered { IsEntryOf basis.now kept.old tableau.old }
    ensures passed { result ≡ true → entry_refusal basis.now tableau.old.table ≡ None }
    ensures entered { result ≡ true → tableau.new ≡ record tableau.old { table = entry basis.now tableau.old.table } }
    ensures swapped { result ≡ true → kept.new ≡ tableau.old }
    ensures stays { result ≡ false → tableau.new ≡ tableau.old }
    ensures kept { result ≡ false → kept.new ≡ kept.old }
{
    read_bounds(bounds, tableau);
    if !pivot_all(pivots, basis, tableau, bounds) {
        return false;
    }
    mem::swap(tableau, kept);
    write_bounds(tableau, bounds);
    true
}

/// Makes the entry of a loaded box from the one that is remembered, which is forgotten then; false where none is of this basis, or
/// an operation on a bound leaves 128 bits, and then the tableau stays.
fn enter_known(
    tableau: &mut Tableau,
    artery: &Artery,
    area: &SearchBox,
    basis: &[u32],
    memory: &mut EntryMemory,
) -> bool
    requires loaded { tableau.old ≡ loaded_box artery.now area.now }
    requires basis { IsBasisOf artery.now basis.now }
    requires memory { IsMemoryOf artery.now memory.old }
    ensures passed { result ≡ true → entry_refusal basis.now (loaded artery.now area.now) ≡ None }
    ensures entered { result ≡ true → tableau.new ≡ entered_box artery.now area.now basis.now }
    ensures stays { result ≡ false → tableau.new ≡ tableau.old }
    ensures memory { IsMemoryOf artery.now memory.new }
{
    if !memory.is_for(basis) {
        return false;
    }
    memory.is_kept = false;
    enter_again(
        tableau,
        &mut memory.tableau,
        &memory.pivots,
        basis,
        &mut memory.bounds,
    )
}

/// Makes the entry of a loaded box by its pivots and remembers it; false where an operation of them leaves 128 bits, and then nothing
/// is remembered. The error is want of memory.
fn enter_anew(
    tableau: &mut Tableau,
    artery: &Artery,
    area: &SearchBox,
    basis: &[u32],
    memory: &mut EntryMemory,
) -> Result<bool, Memory>
    requires loaded { tableau.old ≡ loaded_box artery.now area.now }
    requires basis { IsBasisOf artery.now basis.now }
    requires memory { IsMemoryOf artery.now memory.old }
    ensures outcome { IfOk result (λ entered. entered ≡ is_none (entry_refusal basis.now (loaded artery.now area.now))) }
    ensures entered { IfOk result (λ entered. entered ≡ true → tableau.new ≡ entered_box artery.now area.now basis.now) }
    ensures made { IsMadeFor artery.now tableau.new }
    ensures memory { IsMemoryOf artery.now memory.new }
{
    memory.start(basis)?;
    match enter_columns(tableau, basis, &mut memory.pivots) {
        Ok(()) => {
            memory.keep(tableau);
            Ok(true)
        }
        Err(_) => {
            tableau.known_named();
            Ok(false)
        }
    }
}

/// Makes what `enter` makes, and answers as it does, from a tableau in which the rows of another box are loaded. Where the entry of
/// this basis is remembered, its pivots are made of the bounds alone, unless an operation on one of them leaves 128 bits; else the
/// entry is remembered for the next call. The error is want of memory.
pub fn enter_remembering(
    tableau: &mut Tableau,
    from: &Tableau,
    artery: &Artery,
    area: &SearchBox,
    basis: &[u32],
    memory: &mut EntryMemory,
) -> Result<bool, Memory>
    requires boxed { IsBoxOf artery.now area.now }
    requires made { IsMadeFor artery.now tableau.old }
    requires basis { IsBasisOf artery.now basis.now }
    requires loaded { IsLoadedFor artery.now from.now }
    requires memory { IsMemoryOf artery.now memory.old }
    ensures outcome { IfOk result (λ entered. entered ≡ is_none (entry_refusal basis.now (loaded artery.now area.now))) }
    ensures state { IfOk result (λ entered. tableau.new ≡ (if entered then entered_box artery.now area.now basis.now else opened_box artery.now area.now)) }
    ensures dual { IfOk result (λ _. IsDual tableau.new.table) }
    ensures stands { IfOk result (λ _. StandsForRows tableau.new.table (box_rows artery.now area.now) (goal_of artery.now)) }
    ensures made { IsMadeFor artery.now tableau.new }
    ensures memory { IsMemoryOf artery.now memory.new }
{
    load_from(tableau, from, artery, area);
    if enter_known(tableau, artery, area, basis, memory) {
        return Ok(true);
    }
    let entered = enter_anew(tableau, artery, area, basis, memory)?;
    if entered {
        return Ok(true);
    }
    reset_from(tableau, from, artery, area);
    Ok(false)
}
