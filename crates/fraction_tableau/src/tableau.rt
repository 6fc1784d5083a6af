//! The tableau.

ghost use Rattle.std.specs.Prelude.{◌≡◌, ◌<◌, ◌≤◌, ◌+◌, ◌^◌, pos, length, IfOk, IfErr, false};
ghost use Rattle.rational_theory.specs.Rational.{whole};
ghost use Rattle.simplex_theory.specs.Tableau.{cell, basic_at, standing_at, height, width, exchange};
ghost use Rattle.narrow_fraction.specs.Attempt.{attempt};
ghost use Rattle.fraction_tableau.specs.{Refusals.{pivot_refusal}, KeptCells.{kept_below}, Columns.{IsColumnOf}};
ghost use Rattle.fraction_tableau.specs.PivotCalls.{CanPivot, Pivots};
ghost use Rattle.fraction_tableau.specs.NamedTableaus.{IsNamed, IsSpentFrom, blank_tableau, number_at, name_at, with_row, with_bound, with_goal_bound, with_goal};

use crate::exchanging::{copy_rows, exchange_cells};
use crate::fresh::{blank_names, numbers, zero_rows};
use crate::kept::Kept;
use crate::loading::count_up;
use crate::sparse_row::SparseRow;
use crate::wide_cell::{Spot, WideCell};
use named_row::{Row, RowId};
use narrow_fraction::{Frac, Memory, Quotient};
use std::alloc::Global;
use std::marker::Model;
use std::mem;

/// A tableau: rows of cells with a bound, the goal row, and which variable is where. Column `j` is variable `j`, and
/// the slack of row `r` is variable `width + r`.
#[derive(Drop)]
pub struct Tableau {
    sparse_rows: Vec<SparseRow>,
    goal: SparseRow,
    spare: SparseRow,
    held: SparseRow,
    room: SparseRow,
    basic: Vec<u32>,
    standing: Vec<u32>,
    names: Vec<RowId>,
    spent: bool,
}

impl Model for Tableau {
    ghost use Rattle.std.specs.Prelude.{length};
    ghost use Rattle.fraction_tableau.specs.NamedTableaus.{NamedTableau, IsSound};

    ghost Value = { NamedTableau };

    ghost view = { λ a. record { table = record { rows = a.sparse_rows.items; goal = a.goal; basic = a.basic.items; standing = a.standing.items }; names = a.names.items; spent = a.spent } };

    ghost invariant = { λ a. IsSound
        (record { table = record { rows = a.sparse_rows.items; goal = a.goal; basic = a.basic.items; standing = a.standing.items }; names = a.names.items; spent = a.spent })
        (length a.spare) (length a.held) (length a.room) };
}

impl Tableau {
    /// So many rows and columns, all numbers 0. Each slack is basic in its row, each column stands at its place, each name is
    /// family 0 with index 0, and the tableau isn't spent.
    pub fn new(alloc: Global, rows: u32, width: u32) -> Result<Tableau, Memory>
        requires { rows + width < 2 ^ 32 }
        ensures { IfOk result (λ tableau. tableau ≡ blank_tableau rows width) }
    {
        let places = width as usize;
        let sparse_rows = zero_rows(alloc, rows, places)?;
        let goal = SparseRow::zero(alloc, places)?;
        let spare = SparseRow::zero(alloc, places)?;
        let held = SparseRow::zero(alloc, places)?;
        let room = SparseRow::zero(alloc, places)?;
        let basic = numbers(alloc, width, rows)?;
        let standing = numbers(alloc, 0, width)?;
        let names = blank_names(alloc, rows as usize)?;
        Ok(Tableau {
            sparse_rows,
            goal,
            spare,
            held,
            room,
            basic,
            standing,
            names,
            spent: false,
        })
    }

    /// That each row has a name and a basic variable, and that all numbers fit, as the type keeps it: a fact for proofs, and
    /// nothing is done.
    pub fn known_named(&self)
        ensures { IsNamed self.now }
    {
        prove!(self.names.len() == self.sparse_rows.len());
    }

    /// The number of rows.
    pub fn rows(&self) -> u32
        ensures count { result ≡ height self.now.table }
        ensures shape { IsNamed self.now }
    {
        self.sparse_rows.len() as u32
    }

    /// The number of columns, which is the number of places.
    pub fn width(&self) -> u32
        ensures count { result ≡ width self.now.table }
        ensures shape { IsNamed self.now }
    {
        self.standing.len() as u32
    }

    /// A cell. The goal row has the number after the last row, and the bound the number after the last column.
    pub fn cell(&self, row: u32, col: u32) -> Frac
        requires row { row ≤ height self.now.table }
        requires col { col ≤ width self.now.table }
        ensures { result ≡ number_at self.now.table row col }
    {
        self.held(row, col).fraction()
    }

    /// A cell as the row holds it, for questions that need no common divisor: what its sign is, or whether it is 0.
    pub fn held(&self, row: u32, col: u32) -> Quotient
        requires row { row ≤ height self.now.table }
        requires col { col ≤ width self.now.table }
        ensures { result ≡ number_at self.now.table row col }
    {
        let index = row as usize;
        if index == self.sparse_rows.len() {
            self.goal.get(col)
        } else {
            self.sparse_rows[index].get(col)
        }
    }

    /// The cells of a row that aren't 0, ascending by place, without the bound. The goal row has the number after the last
    /// row.
    pub fn kept(&self, row: u32) -> &[Kept]
        requires { row ≤ height self.now.table }
        ensures { result.now ≡ kept_below (number_at self.now.table row) (width self.now.table) }
    {
        let index = row as usize;
        if index == self.sparse_rows.len() {
            self.goal.kept()
        } else {
            self.sparse_rows[index].kept()
        }
    }

    /// The basic variable of a row.
    pub fn basic(&self, row: u32) -> u32
        requires { row < height self.now.table }
        ensures { result ≡ basic_at self.now.table row }
    {
        self.basic[row as usize]
    }

    /// The name of a row.
    pub fn name(&self, row: u32) -> RowId
        requires { row < height self.now.table }
        ensures { result ≡ name_at self.now row }
    {
        self.names[row as usize]
    }

    /// The variable that stands at the place of a column.
    pub fn standing(&self, col: u32) -> u32
        requires { col < width self.now.table }
        ensures { result ≡ standing_at self.now.table col }
    {
        self.standing[col as usize]
    }

    /// Whether a pivot was refused since a goal was last loaded.
    pub fn is_spent(&self) -> bool
        ensures { result ≡ self.now.spent }
    {
        self.spent
    }

    /// Loads a named row: its cells, its bound and its name, with its slack basic. All else stays.
    pub fn load(&mut self, row: u32, name: RowId, from: &Row)
        requires row { row < height self.old.table }
        requires columns { length from.now.coefs ≡ width self.old.table }
        requires unspent { from.now.spent ≡ false }
        ensures { self.new ≡ with_row row name from.now self.old }
    {
        let index = row as usize;
        self.sparse_rows[index].load(from);
        self.basic[index] = self.standing.len() as u32 + row;
        self.names[index] = name;
    }

    /// Gives a row another bound. All else stays: cells are loaded once, and where only a bound changes, that alone is set.
    pub fn set_bound(&mut self, row: u32, bound: Frac)
        requires { row < height self.old.table }
        ensures { self.new ≡ with_bound row bound self.old }
    {
        self.sparse_rows[row as usize].set_bound(bound);
    }

    /// Gives the goal row another bound. All else stays.
    pub fn set_goal_bound(&mut self, bound: Frac)
        ensures { self.new ≡ with_goal_bound bound self.old }
    {
        self.goal.set_bound(bound);
    }

    /// Becomes the same as another tableau with as many rows and columns. Takes no memory.
    pub fn copy_from(&mut self, from: &Tableau)
        requires rows { height self.old.table ≡ height from.now.table }
        requires columns { width self.old.table ≡ width from.now.table }
        ensures { self.new ≡ from.now }
    {
        copy_rows(&mut self.sparse_rows, &from.sparse_rows);
        self.goal.copy_from(&from.goal);
        self.basic.copy_from_slice(&from.basic);
        self.standing.copy_from_slice(&from.standing);
        self.names.copy_from_slice(&from.names);
        self.spent = from.spent;
    }

    /// Loads a goal: its negated coefficients, with the bound 0. Each column stands at its place, and the tableau isn't
    /// spent. All else stays.
    pub fn load_goal(&mut self, from: &Row)
        requires columns { length from.now.coefs ≡ width self.old.table }
        requires unspent { from.now.spent ≡ false }
        ensures { self.new ≡ with_goal from.now self.old }
    {
        self.goal.load_goal(from);
        count_up(&mut self.standing);
        self.spent = false;
    }

    /// The exchange of the basic variable of `row` with the one that stands at the place `col`.
    ///
    /// With `p` the cell there, the operations are, in this order: 1 over `p`; the row's other cells over `p`, the bound last;
    /// the goal row and then each other row: for each other place in order, the bound last, the row's cell at `col` times the
    /// new cell of `row`, and the old cell minus that, then the cell at `col` over `p`. The refusal names the first of them
    /// that leaves 128 bits; the tableau is spent from then on, and its goal row, basis and names are those before the call.
    pub fn pivot(&mut self, row: u32, col: u32) -> Result<(), WideCell>
        requires row { row < height self.old.table }
        requires col { col < width self.old.table }
        requires pivot { cell self.old.table row col ≡ whole (pos 0) → ⊥ }
        requires unspent { self.old.spent ≡ false }
        ensures outcome { result ≡ attempt (pivot_refusal row col self.old.table.rows self.old.table.goal) tt }
        ensures exchanged { IfOk result (λ _. self.new ≡ record self.old { table = exchange row col self.old.table }) }
        ensures spent { IfErr result (λ _. IsSpentFrom self.old self.new) }
    {
        self.pivot_noting(row, col, &mut [])
    }

    /// The exchange that `pivot` makes, which notes on the way what each row and then the goal row had at the place before it, as far
    /// as the column has room.
    pub fn pivot_noting(
        &mut self,
        row: u32,
        col: u32,
        column: &mut [Quotient],
    ) -> Result<(), WideCell>
        requires { CanPivot row col self.old }
        ensures pivots { Pivots row col result self.old self.new }
        ensures room { length column.new ≡ length column.old }
        ensures noted { IfOk result (λ _. IsColumnOf self.old.table col column.new) }
    {
        let index = row as usize;
        if let Err(wide) = exchange_cells(
            &mut self.sparse_rows,
            &self.goal,
            &mut self.spare,
            &mut self.held,
            &mut self.room,
            Spot { row, col },
            column,
        ) {
            self.spent = true;
            return Err(wide);
        }
        mem::swap(&mut self.goal, &mut self.spare);
        let leaving = self.basic[index];
        self.basic[index] = self.standing[col as usize];
        self.standing[col as usize] = leaving;
        Ok(())
    }
}
