//! The search.

ghost use Rattle.std.specs.Prelude.{◌≡◌, [], ◌∷◌, All, IfOk};
ghost use Rattle.rational_theory.specs.Rational.{ℚ};
ghost use Rattle.work_meter.specs.Work.{IsBelow, IsWithin};
ghost use Rattle.branch_and_bound.specs.{Greatest.{IsSettled, bound_of}, State.{IsSearchState}, Answer.{IsFound, timing_of}};

use crate::found::{Found, Stop, Verdict};
use crate::greatest::next_waiting;
use crate::grow::grow;
use crate::incumbent::Incumbent;
use crate::node::{Node, TreeNode};
use crate::open::Halt;
use crate::progress::Progress;
use crate::relaxation::Relaxation;
use crate::settle::{Settled, settle};
use crate::shown::shown;
use narrow_fraction::{Frac, Memory};
use std::alloc::{AllocError, Global};
use work_meter::Meter;

/// The answer where no node is left to split.
fn finish<P: Relaxation>(
    alloc: Global,
    _relaxation: &P,
    nodes: Vec<Node<P::Kept>>,
    incumbent: Option<Incumbent<P::Timing>>,
    meter: Meter,
) -> Result<Found<P::Timing, P::Part>, Memory>
    requires within { IsWithin meter.spent meter.limit }
    requires settled { All (λ node. IsSettled incumbent (bound_of node)) nodes.items }
    requires holds { (top : ℚ) × IsSearchState (P.rules _relaxation.now) nodes.items incumbent top meter.spent }
    ensures { IfOk result (IsFound (P.rules _relaxation.now) meter.limit) }
{
    let tree = shown(alloc, nodes, &incumbent, None)?;
    match incumbent {
        Some(best) => Ok(Found {
            verdict: Verdict::Best,
            nodes: tree,
            bound: best.value,
            timing: Some(best.timing),
            spent: meter.spent,
        }),
        None => Ok(Found {
            verdict: Verdict::NoTiming,
            nodes: tree,
            bound: Frac::whole(0),
            timing: None,
            spent: meter.spent,
        }),
    }
}

/// The timing without its value.
fn timing_of<T: Drop>(incumbent: Option<Incumbent<T>>) -> Option<T>
    ensures { result ≡ timing_of incumbent }
{
    match incumbent {
        Some(best) => Some(best.timing),
        None => None,
    }
}

/// The answer where the search stops.
fn halt<P: Relaxation>(
    nodes: Vec<TreeNode>,
    progress: Progress<P::Timing>,
    bound: Frac,
    stop: Stop<P::Part>,
) -> Found<P::Timing, P::Part>
    ensures nodes { result.nodes ≡ nodes }
    ensures timing { result.timing ≡ timing_of progress.incumbent }
    ensures bound { result.bound ≡ bound }
    ensures spent { result.spent ≡ progress.meter.spent }
    ensures verdict { result.verdict ≡ Verdict.Stopped stop }
{
    Found {
        verdict: Verdict::Stopped(stop),
        nodes,
        timing: timing_of(progress.incumbent),
        bound,
        spent: progress.meter.spent,
    }
}

/// Splits waiting nodes until none is left or the search stops.
fn run<P: Relaxation>(
    alloc: Global,
    relaxation: &P,
    room: &mut P::Room,
    mut nodes: Vec<Node<P::Kept>>,
    mut progress: Progress<P::Timing>,
) -> Result<Found<P::Timing, P::Part>, Memory>
    requires ready { P.Ready relaxation.now room.old }
    requires within { IsWithin progress.meter.spent progress.meter.limit }
    requires holds { (top : ℚ) × IsSearchState (P.rules relaxation.now) nodes.items progress.incumbent top progress.meter.spent }
    ensures { IfOk result (IsFound (P.rules relaxation.now) progress.meter.limit) }
{
    'splits: while let Some(greatest) = next_waiting(nodes.as_slice(), &progress.incumbent) {
        match grow(
            alloc,
            relaxation,
            room,
            &mut nodes,
            &greatest,
            &mut progress,
        ) {
            Ok(()) => {}
            Err(Halt::Stopped(stop)) => {
                let tree = shown(alloc, nodes, &progress.incumbent, Some(greatest.index))?;
                return Ok(halt::<P>(tree, progress, greatest.bound, stop));
            }
            Err(Halt::Memory) => return Err(Memory),
        }
    }
    finish(alloc, relaxation, nodes, progress.incumbent, progress.meter)
}

/// A tree of the root alone.
fn single<N: Drop>(alloc: Global, node: N) -> Result<Vec<N>, AllocError>
    ensures { IfOk result (λ nodes. nodes.items ≡ node ∷ []) }
{
    let mut nodes = Vec::new(alloc);
    nodes.push(node)?;
    Ok(nodes)
}

/// Searches for a best timing: the root is opened first, and then, while a waiting node's bound is more than the best
/// value, the one with the greatest bound is split and its low part and its high part are opened. A stop while two parts
/// are opened undoes that split; a timing that the low part gave is kept.
///
/// A limit of units, where there is one, is at least 1. The error is want of memory.
pub fn search<P: Relaxation>(
    alloc: Global,
    relaxation: &P,
    room: &mut P::Room,
    limit: Option<u64>,
) -> Result<Found<P::Timing, P::Part>, Memory>
    requires ready { P.Ready relaxation.now room.old }
    requires sound { (P.rules relaxation.now).IsSound }
    requires limit { IsBelow 0 limit }
    ensures { IfOk result (IsFound (P.rules relaxation.now) limit) }
{
    let area = relaxation.root(alloc)?;
    let mut progress = Progress {
        incumbent: None,
        meter: Meter { spent: 0, limit },
    };
    let opened = relaxation.open_root(alloc, room, &area, &mut progress.meter)?;
    match settle(relaxation, opened, area, &mut progress) {
        Settled::Done { node } => {
            let nodes = single(alloc, node)?;
            run(alloc, relaxation, room, nodes, progress)
        }
        Settled::Stuck { leaf, bound, site } => {
            let tree = single(alloc, TreeNode::Waiting { leaf })?;
            Ok(halt::<P>(tree, progress, bound, Stop::Wide(site)))
        }
        Settled::Left { stop } => {
            let (leaf, bound) = relaxation.start_leaf(alloc)?;
            let tree = single(alloc, TreeNode::Waiting { leaf })?;
            Ok(halt::<P>(tree, progress, bound, stop))
        }
    }
}
