//! Opens one line's box: the steps from its first tableau to the end, and what is read off there.

ghost use Rattle.std.specs.Prelude.{◌≡◌, IfOk};
ghost use Rattle.branch_and_bound.specs.Lines.{BoxLine};
ghost use Rattle.program_builder.specs.Loading.{HasRoomFor};
ghost use Rattle.work_meter.specs.Work.{HasWork};
ghost use Rattle.box_search.specs.{Ends.{named_first}, Runs.{IsRun, HasFirst, HasRun, HasOptimalRun, HasInfeasibleRun}};
ghost use Rattle.box_search.specs.BoxRuns.{table_of, IsCutBy, IsCovering};
ghost use Rattle.box_search.specs.OpenedBoxes.{IsReadOff, IsEmptyOff, IsWideOff, IsOpenedBy, IsOpened};

use crate::program::{Read, Summed};
use crate::site::SitePart;
use crate::sought::Sought;
use branch_and_bound::{Meter, Opened};
use dual_leaf::{leaf_of, point_of, refuter_of};
use dual_simplex::{NodeEnd, solve_node};
use fraction_tableau::{Tableau, WideCell};
use named_row::{Leaf, Point};
use narrow_fraction::{Frac, Memory};
use search_box::{At, SearchBox};
use std::alloc::Global;

/// How the steps of a box ended, and how many pivots were made.
#[derive(Clone, Copy)]
struct Run {
    end: NodeEnd,
    pivots: u64,
}

/// The steps from a line's first tableau to their end: a unit for the box, and one for each pivot.
fn make_steps<P: Sought>(program: &P, tableau: &mut Tableau, meter: &mut Meter) -> Run
    requires first { (line : BoxLine) × (tableau.old ≡ named_first (P.program program.now) line) }
    requires work { HasWork meter.old }
    ensures made { HasRoomFor (table_of (P.program program.now)) tableau.new }
    ensures limit { meter.new.limit ≡ meter.old.limit }
    ensures run { (line : BoxLine) → tableau.old ≡ named_first (P.program program.now) line → IsRun (P.program program.now) line tableau.new meter.old meter.new result.end result.pivots }
{
    // its contract says that the program is sound
    program.known_program();
    meter.spend();
    let mut pivots = 0;
    let end = solve_node(tableau, meter, &mut pivots);
    // the shape of the tableau is known where it is read
    tableau.known_named();
    Run { end, pivots }
}

/// The leaf of an optimal end, with its bound.
#[derive(Drop)]
struct Covering {
    leaf: Leaf,
    bound: Frac,
}

/// The answer at a vertex that shows where its box is split.
fn split_end<P: Sought>(
    alloc: Global,
    program: &P,
    tableau: &Tableau,
    covering: Covering,
    place: At,
    point: Point,
) -> Result<Opened<P::Timing, P::Kept, SitePart>, Memory>
    ensures { IfOk result (λ opened. IsCutBy (P.meaning program.now).Keeps tableau.now covering.leaf covering.bound place point opened) }
{
    let kept = program.keep(alloc, tableau)?;
    Ok(Opened::Splits {
        leaf: covering.leaf,
        bound: covering.bound,
        place,
        point,
        kept,
    })
}

/// What is read off a last vertex: a timing, the place where the box is split, or a refusal.
fn read_end<P: Sought>(
    alloc: Global,
    program: &P,
    area: &SearchBox,
    tableau: &Tableau,
    covering: Covering,
    pivots: u64,
) -> Result<Opened<P::Timing, P::Kept, SitePart>, Memory>
    requires boxed { P.IsFor program.now area.now }
    requires run { HasOptimalRun (P.program program.now) area.now tableau.now }
    requires covering { IsCovering (P.program program.now) area.now tableau.now covering.leaf covering.bound }
    ensures { IfOk result (IsReadOff (P.program program.now) (P.meaning program.now) area.now tableau.now pivots) }
{
    // its contract says that the program is sound
    program.known_program();
    let point = point_of(alloc, tableau)?;
    match program.read(alloc, area, &point)? {
        Read::Timing(timing) => Ok(Opened::Timed {
            leaf: covering.leaf,
            bound: covering.bound,
            timing,
        }),
        Read::SplitAt(place) => split_end(alloc, program, tableau, covering, place, point),
        Read::Wide(part) => Ok(Opened::Unread {
            leaf: covering.leaf,
            bound: covering.bound,
            pivots,
            part,
        }),
    }
}

/// The answer at an optimal end.
fn optimal_end<P: Sought>(
    alloc: Global,
    program: &P,
    area: &SearchBox,
    tableau: &Tableau,
    pivots: u64,
) -> Result<Opened<P::Timing, P::Kept, SitePart>, Memory>
    requires boxed { P.IsFor program.now area.now }
    requires run { HasOptimalRun (P.program program.now) area.now tableau.now }
    ensures { IfOk result (IsReadOff (P.program program.now) (P.meaning program.now) area.now tableau.now pivots) }
{
    // its contract says that the program is sound
    program.known_program();
    let leaf = leaf_of(alloc, tableau)?;
    match program.sum(alloc, area, &leaf)? {
        Summed::Bound(bound) => {
            let covering = Covering { leaf, bound };
            read_end(alloc, program, area, tableau, covering, pivots)
        }
        Summed::Wide { row, at } => Ok(Opened::Wide {
            pivots,
            part: SitePart::LeafSum { row, at },
        }),
    }
}

/// The answer where a row shows that the box is empty.
fn infeasible_end<P: Sought>(
    alloc: Global,
    program: &P,
    area: &SearchBox,
    tableau: &Tableau,
    row: u32,
    pivots: u64,
) -> Result<Opened<P::Timing, P::Kept, SitePart>, Memory>
    requires boxed { P.IsFor program.now area.now }
    requires run { HasInfeasibleRun (P.program program.now) area.now tableau.now row }
    ensures { IfOk result (IsEmptyOff (P.program program.now) (P.meaning program.now) area.now tableau.now row pivots) }
{
    // its contract says that the program is sound
    program.known_program();
    let leaf = refuter_of(alloc, tableau, row)?;
    match program.sum(alloc, area, &leaf)? {
        Summed::Bound(_) => Ok(Opened::Infeasible { leaf }),
        Summed::Wide { row, at } => Ok(Opened::Wide {
            pivots,
            part: SitePart::LeafSum { row, at },
        }),
    }
}

/// The answer where an operation of a step was refused.
fn wide_step<P: Sought>(
    program: &P,
    ratio: bool,
    cell: WideCell,
    pivots: u64,
) -> Opened<P::Timing, P::Kept, SitePart>
    ensures { IsWideOff (P.program program.now) (P.meaning program.now) ratio cell pivots result }
{
    // its contract says how refused operations are named
    program.known_program();
    if ratio {
        Opened::Wide {
            pivots,
            part: SitePart::Ratio(cell),
        }
    } else {
        Opened::Wide {
            pivots,
            part: SitePart::Cell(cell),
        }
    }
}

/// The answer at the end of a box's steps.
fn ended<P: Sought>(
    alloc: Global,
    program: &P,
    area: &SearchBox,
    tableau: &Tableau,
    run: &Run,
) -> Result<Opened<P::Timing, P::Kept, SitePart>, Memory>
    requires boxed { P.IsFor program.now area.now }
    requires run { HasRun (P.program program.now) area.now tableau.now run.now.end run.now.pivots }
    ensures { IfOk result (IsOpenedBy (P.program program.now) (P.meaning program.now) area.now tableau.now run.now.end run.now.pivots) }
{
    let pivots = run.pivots;
    match run.end {
        NodeEnd::Optimal => optimal_end(alloc, program, area, tableau, pivots),
        NodeEnd::Infeasible { row } => infeasible_end(alloc, program, area, tableau, row, pivots),
        NodeEnd::WorkOut => Ok(Opened::WorkOut),
        NodeEnd::Wide { ratio, cell } => Ok(wide_step(program, ratio, cell, pivots)),
    }
}

/// Opens a line's box, from the tableau that the line's steps begin from: the dual simplex method runs to the end, the leaf of
/// the end is summed, and at a last vertex the timing is read or the place found where the box is split. A unit is spent
/// for the box, and one for each pivot. The error is want of memory.
pub fn open<P: Sought>(
    alloc: Global,
    program: &P,
    tableau: &mut Tableau,
    area: &SearchBox,
    meter: &mut Meter,
) -> Result<Opened<P::Timing, P::Kept, SitePart>, Memory>
    requires boxed { P.IsFor program.now area.now }
    requires first { HasFirst (P.program program.now) area.now tableau.old }
    requires work { HasWork meter.old }
    ensures made { HasRoomFor (table_of (P.program program.now)) tableau.new }
    ensures limit { meter.new.limit ≡ meter.old.limit }
    ensures opens { IfOk result (IsOpened (P.program program.now) (P.meaning program.now) area.now tableau.old meter.old meter.new) }
{
    let run = make_steps(program, tableau, meter);
    ended(alloc, program, area, tableau, &run)
}
