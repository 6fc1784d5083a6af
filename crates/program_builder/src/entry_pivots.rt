//! The pivots of an entry.

ghost use Rattle.std.specs.Prelude.{◌≡◌, ℕ, ◌+◌, ◌<◌, length, slice_index_or, IfOk, IfErr, false};
ghost use Rattle.simplex_theory.specs.Tableau.{IsPlace, height, width};
ghost use Rattle.narrow_fraction.specs.Attempt.{attempt};
ghost use Rattle.fraction_tableau.specs.NamedTableaus.{IsSpentFrom};
ghost use Rattle.entry_theory.specs.Entry as rule;
ghost use Rattle.entry_theory.specs.Ready.{IsReady};
ghost use Rattle.program_builder.specs.{EntryRefusals.{variable_refusal, entry_refusal, IsSpentOnTheWay}, declared.noting.NotedPivot.{NotedPivot}};
ghost use Rattle.program_builder.specs.Remembering.{IsNoteOf, AreNotesOf, HaveRoom};

use crate::choosing::entry_row;
use crate::noting::NotedPivot;
use fraction_tableau::{Tableau, WideCell};

/// Brings one of the listed variables into the basis: a column enters at its row, which is noted, and at a slack nothing happens.
/// The refusal names the pivot's first operation that leaves 128 bits.
fn enter_variable(
    tableau: &mut Tableau,
    basis: &[u32],
    variable: u32,
    notes: &mut [NotedPivot],
    pivots: usize,
) -> Result<(), WideCell>
    requires place { variable < width tableau.old.table → IsPlace tableau.old.table (rule.entry_row basis.now tableau.old.table variable) variable }
    requires unspent { tableau.old.spent ≡ false }
    requires room { HaveRoom notes.old (height tableau.old.table + 1) }
    ensures outcome { result ≡ attempt (variable_refusal basis.now tableau.old.table variable) tt }
    ensures pivoted { IfOk result (λ _. tableau.new ≡ record tableau.old { table = rule.entry_pivot basis.now tableau.old.table variable }) }
    ensures spent { IfErr result (λ _. IsSpentFrom tableau.old tableau.new) }
    ensures noted { IfOk result (λ _. variable < width tableau.old.table → (d : NotedPivot) → pivots < length notes.old
        → IsNoteOf tableau.old.table (rule.entry_row basis.now tableau.old.table variable) variable (slice_index_or notes.new pivots d)) }
    ensures others { (i : ℕ) (d : NotedPivot) → (i ≡ pivots → ⊥) → slice_index_or notes.new i d ≡ slice_index_or notes.old i d }
    ensures room { HaveRoom notes.new (height tableau.old.table + 1) }
{
    if variable < tableau.width() {
        let row = entry_row(tableau, basis, variable);
        if pivots < notes.len() {
            notes[pivots].pivot(tableau, row, variable)
        } else {
            tableau.pivot(row, variable)
        }
    } else {
        Ok(())
    }
}

/// Brings the listed columns into the basis of a tableau that was just loaded, in the order of the list. The list names the basic
/// variables of a dual feasible tableau of the same coefficients and goal in ascending order; they are the basic ones afterwards.
/// The refusal names the first operation that leaves 128 bits, and the tableau is spent then. The pivots of the columns are noted, as
/// many as there is room for. Takes no memory.
pub fn enter_columns(
    tableau: &mut Tableau,
    basis: &[u32],
    notes: &mut [NotedPivot],
) -> Result<(), WideCell>
    requires ready { IsReady basis.now tableau.old.table }
    requires unspent { tableau.old.spent ≡ false }
    requires room { HaveRoom notes.old (height tableau.old.table + 1) }
    ensures outcome { result ≡ attempt (entry_refusal basis.now tableau.old.table) tt }
    ensures entered { IfOk result (λ _. tableau.new ≡ record tableau.old { table = rule.entry basis.now tableau.old.table }) }
    ensures spent { IfErr result (λ _. IsSpentOnTheWay basis.now tableau.old tableau.new) }
    ensures noted { IfOk result (λ _. AreNotesOf basis.now tableau.old.table notes.new) }
    ensures room { HaveRoom notes.new (height tableau.old.table + 1) }
{
    for pivots in 0..basis.len() {
        if let Err(wide) = enter_variable(tableau, basis, basis[pivots], notes, pivots) {
            return Err(wide);
        }
    }
    Ok(())
}
