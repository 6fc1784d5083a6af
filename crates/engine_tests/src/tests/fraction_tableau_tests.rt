//! Tableaus of two columns that were worked by hand.

use crate::tests::two_columns;
use crate::tests::two_columns::{blank, pivot, pivot_noting};
use fraction_tableau::{Tableau, WideCell};
use named_row::RowId;
use narrow_fraction::{Frac, Op, Quotient, Wide};
use std::alloc::Global;
use std::process::Abort;
use std::rt::HostRuntime;
use test_bed::fraction_or_zero;

/// A fraction: its numerator and its denominator.
type CellNumber = (i128, i128);

/// A row of two columns: its numbers, the bound last.
type Numbers = [CellNumber; 3];

const TWO_126: CellNumber = (two_columns::TWO_126, 1);

const ZERO: CellNumber = (0, 1);

const ONE: CellNumber = (1, 1);

const TWO: CellNumber = (2, 1);

const FOUR: CellNumber = (4, 1);

const HALF: CellNumber = (1, 2);

const THIRD: CellNumber = (1, 3);

fn fraction(number: CellNumber) -> Frac {
    fraction_or_zero(number.0, number.1)
}

fn fractions(numbers: Numbers) -> [Frac; 3] {
    let [first, second, bound] = numbers;
    [fraction(first), fraction(second), fraction(bound)]
}

fn load(alloc: Global, tableau: &mut Tableau, number: u32, numbers: Numbers) -> Option<()> {
    let name = RowId {
        family: 1,
        index: number.wrapping_add(1),
    };
    two_columns::load(alloc, tableau, number, name, fractions(numbers))
}

fn load_goal(alloc: Global, tableau: &mut Tableau, numbers: Numbers) -> Option<()> {
    two_columns::load_goal(alloc, tableau, fractions(numbers))
}

/// Loads these rows and this goal.
fn load_all(alloc: Global, tableau: &mut Tableau, rows: &[Numbers], goal: Numbers) -> Option<()> {
    for (number, numbers) in (0..u32::MAX).zip(rows.iter()) {
        load(alloc, tableau, number, *numbers)?;
    }
    load_goal(alloc, tableau, goal)
}

/// A tableau with these rows and this goal.
fn loaded(rt: &impl Abort, alloc: Global, rows: &[Numbers], goal: Numbers) -> Tableau {
    let mut tableau = blank(alloc, rows.len()).expect(rt, "a tableau");
    load_all(alloc, &mut tableau, rows, goal).expect(rt, "rows and a goal");
    tableau
}

/// The answer of a pivot that is refused at a cell, by this operation.
fn refused(
    row: u32,
    col: u32,
    op: Op,
    left: CellNumber,
    right: CellNumber,
) -> Option<Result<(), WideCell>> {
    let wide = Wide {
        op,
        left: fraction(left),
        right: fraction(right),
    };
    Some(Err(WideCell { row, col, wide }))
}

/// A cell, or 0 where there is none.
fn cell(tableau: &Tableau, row: u32, col: u32) -> Frac {
    if row > tableau.rows() || col > tableau.width() {
        return Frac::whole(0);
    }
    tableau.cell(row, col)
}

/// The cells of a row, the bound last.
fn cells(tableau: &Tableau, row: u32) -> [Frac; 3] {
    [
        cell(tableau, row, 0),
        cell(tableau, row, 1),
        cell(tableau, row, 2),
    ]
}

/// The first of the rows, with the goal row behind them, whose cells aren't these.
fn first_other(tableau: &Tableau, rows: &[Numbers]) -> Option<u32> {
    for (row, numbers) in (0..u32::MAX).zip(rows.iter()) {
        if cells(tableau, row) != fractions(*numbers) {
            return Some(row);
        }
    }
    None
}

/// The variable of a row, or the greatest number where there is none.
fn basic(tableau: &Tableau, row: u32) -> u32 {
    if row < tableau.rows() {
        tableau.basic(row)
    } else {
        u32::MAX
    }
}

/// The variable at a place, or the greatest number where there is none.
fn standing(tableau: &Tableau, col: u32) -> u32 {
    if col < tableau.width() {
        tableau.standing(col)
    } else {
        u32::MAX
    }
}

/// The variables of the first two rows, and those at the two places.
fn variables(tableau: &Tableau) -> [u32; 4] {
    [
        basic(tableau, 0),
        basic(tableau, 1),
        standing(tableau, 0),
        standing(tableau, 1),
    ]
}

/// A pivot that spends an unspent tableau is answered like this.
fn take_refused_pivot(rt: &impl Abort, tableau: &mut Tableau, want: Option<Result<(), WideCell>>) {
    assert!(rt; !tableau.is_spent());
    assert_eq!(rt; pivot(tableau, 0, 0), want);
    assert!(rt; tableau.is_spent());
}

/// A spent tableau of a row has this goal and its first variables still, and isn't spent once the goal is loaded again.
fn load_again(rt: &impl Abort, alloc: Global, tableau: &mut Tableau, goal: Numbers) {
    assert_eq!(rt; cells(tableau, 1), fractions(goal));
    assert_eq!(rt; variables(tableau), [2, u32::MAX, 0, 1]);
    load_goal(alloc, tableau, goal).expect(rt, "a goal");
    assert!(rt; !tableau.is_spent());
}

#[test]
fn refused_pivot_names_its_operation(rt: HostRuntime) {
    let zeros = [ZERO, ZERO, ZERO];
    let mut tableau = loaded(&rt, rt.alloc(), &[[TWO_126, THIRD, ZERO]], zeros);
    let want = refused(0, 1, Op::Div, THIRD, TWO_126);
    take_refused_pivot(&rt, &mut tableau, want);
    load_again(&rt, rt.alloc(), &mut tableau, zeros);
}

/// Four times 2^126 leaves 128 bits in the goal row, which has the number after the last row, and in the second row.
#[test]
fn the_goal_row_comes_before_the_other_rows(rt: HostRuntime) {
    let rows = [[ONE, TWO_126, ZERO], [FOUR, ZERO, ZERO]];
    for (of_goal, number, left) in [(FOUR, 2, (-4, 1)), (ZERO, 1, FOUR)] {
        let mut tableau = loaded(&rt, rt.alloc(), &rows, [of_goal, ZERO, ZERO]);
        let want = refused(number, 1, Op::Mul, left, TWO_126);
        take_refused_pivot(&rt, &mut tableau, want);
    }
}

fn take_pivot(rt: &impl Abort, tableau: &mut Tableau) {
    assert_eq!(rt; cells(tableau, 2), fractions([(-1, 1), (-1, 1), ZERO]));
    assert_eq!(rt; pivot(tableau, 0, 1), Some(Ok(())));
    let pivoted = [[HALF, HALF, TWO], [ONE, (-2, 1), TWO], [(-1, 2), HALF, TWO]];
    assert_eq!(rt; first_other(tableau, &pivoted), None);
    assert_eq!(rt; variables(tableau), [1, 3, 0, 2]);
}

#[test]
fn cells_of_a_pivot(rt: HostRuntime) {
    let rows = [[ONE, TWO, FOUR], [(3, 1), FOUR, (10, 1)]];
    let mut tableau = loaded(&rt, rt.alloc(), &rows, [ONE, ONE, ONE]);
    take_pivot(&rt, &mut tableau);
}

fn quotients(numbers: [CellNumber; 4]) -> [Quotient; 4] {
    numbers.map(|number| Quotient::of_fraction(fraction(number)))
}

fn take_noted_pivot(rt: &impl Abort, tableau: &mut Tableau) {
    let unnoted = (7, 1);
    let mut column = quotients([unnoted; 4]);
    assert_eq!(rt; pivot_noting(tableau, 0, 1, &mut column), Some(Ok(())));
    assert!(rt; column == quotients([TWO, ZERO, (-1, 1), unnoted]));
    let pivoted = [
        [HALF, HALF, TWO],
        [(3, 1), ZERO, (10, 1)],
        [(-1, 2), HALF, TWO],
    ];
    assert_eq!(rt; first_other(tableau, &pivoted), None);
}

#[test]
fn a_pivot_notes_its_column(rt: HostRuntime) {
    let rows = [[ONE, TWO, FOUR], [(3, 1), ZERO, (10, 1)]];
    let mut tableau = loaded(&rt, rt.alloc(), &rows, [ONE, ONE, ONE]);
    take_noted_pivot(&rt, &mut tableau);
}

const FIRST: Numbers = [(3, 1), (4_194_304, 1), (5, 1)];

const SECOND: Numbers = [(4_194_304, 1), (7, 1), (9, 1)];

/// Two rows and the goal row with numbers of 44 bits after a pivot on the first cell.
static ONCE: [Numbers; 3] = [
    [(1, 3), (4_194_304, 3), (5, 3)],
    [(-4_194_304, 3), (-17_592_186_044_395, 3), (-20_971_493, 3)],
    [(1, 3), (-2_097_152, 3), (5, 3)],
];

/// The same after a pivot on the second cell of the second row.
static TWICE: [Numbers; 3] = [
    [
        (-7, 17_592_186_044_395),
        (4_194_304, 17_592_186_044_395),
        (37_748_701, 17_592_186_044_395),
    ],
    [
        (4_194_304, 17_592_186_044_395),
        (-3, 17_592_186_044_395),
        (20_971_493, 17_592_186_044_395),
    ],
    [
        (8_796_093_022_201, 17_592_186_044_395),
        (-2_097_152, 17_592_186_044_395),
        (43_980_446_236_637, 17_592_186_044_395),
    ],
];

/// Whether a pivot on the diagonal leaves these rows.
fn leads_to(tableau: &mut Tableau, at: u32, rows: &[Numbers]) -> bool {
    pivot(tableau, at, at) == Some(Ok(())) && first_other(tableau, rows).is_none()
}

static BEFORE: [Numbers; 3] = [FIRST, SECOND, [(-1, 1), (-2_097_152, 1), ZERO]];

fn becomes_wide_and_narrow_again(tableau: &mut Tableau) -> bool {
    leads_to(tableau, 0, &ONCE)
        && leads_to(tableau, 1, &TWICE)
        && leads_to(tableau, 1, &ONCE)
        && leads_to(tableau, 0, &BEFORE)
}

/// Of rows with numbers of 23 bits, the second one has numbers of 44 bits after the first pivot and of 46 after the second, and
/// the last two pivots lead back (exact fractions by Python).
#[test]
fn rows_become_wide_and_narrow_again(rt: HostRuntime) {
    let goal = [ONE, (2_097_152, 1), ZERO];
    let mut tableau = loaded(&rt, rt.alloc(), &[FIRST, SECOND], goal);
    assert!(rt; becomes_wide_and_narrow_again(&mut tableau));
}

/// How many cells of a row aren't 0, and the first of them; none where there is no such row.
fn first_kept(tableau: &Tableau, row: u32) -> (usize, Option<(u32, Frac)>) {
    if row > tableau.rows() {
        return (0, None);
    }
    let kept = tableau.kept(row);
    match kept.first() {
        Some(first) => (kept.len(), Some((first.place, first.cell.fraction()))),
        None => (0, None),
    }
}

/// What is said of a row whose only cell other than 0 is this one.
fn only_kept(place: u32, cell: CellNumber) -> (usize, Option<(u32, Frac)>) {
    (1, Some((place, fraction(cell))))
}

#[test]
fn kept_cells_of_a_row_and_the_goal_row(rt: HostRuntime) {
    let tableau = loaded(&rt, rt.alloc(), &[[ZERO, ONE, ONE]], [ONE, ZERO, ONE]);
    let kept = (first_kept(&tableau, 0), first_kept(&tableau, 1));
    assert_eq!(rt; kept, (only_kept(1, ONE), only_kept(0, (-1, 1))));
}

/// The name of a row, where there is that row.
fn name(tableau: &Tableau, row: u32) -> Option<RowId> {
    if row < tableau.rows() {
        Some(tableau.name(row))
    } else {
        None
    }
}

/// How many rows a tableau of two rows has once the second one is loaded, and the name of that one.
fn second_loaded(alloc: Global) -> Option<(u32, Option<RowId>)> {
    let mut tableau = blank(alloc, 2)?;
    match load(alloc, &mut tableau, 1, [ONE, ONE, ONE]) {
        Some(()) => Some((tableau.rows(), name(&tableau, 1))),
        None => None,
    }
}

#[test]
fn names_of_rows(rt: HostRuntime) {
    let want = RowId {
        family: 1,
        index: 2,
    };
    assert!(rt; second_loaded(rt.alloc()) == Some((2, Some(want))));
}
