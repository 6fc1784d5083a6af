//! Worked boxes: two signals A and B, parts 100, unless a row says otherwise.

ghost use Rattle.std.specs.Prelude.{IfOk, IfSome, IsTrue};
ghost use Rattle.linear_theory.specs.Boxes.{IsBoxOf};
ghost use Rattle.search_box.specs.{Seen.{span_of}, Places.{AreRanks}};

use super::given;
use artery_model::Artery;
use search_box::{
    At, SearchBox, Span, law_shifts_are_ranked, law_valid_street, root_span, shift_at, shift_count,
};
use std::alloc::Global;
use std::test::Fail;
use test_bed::{SampleHead, SampleSignal, plain_head, plain_link, plain_signal, range};

/// What differs between the arteries. The second numbers of a pair, the lefts, the patterns and the clearance are those
/// of signal B.
#[derive(Clone, Copy)]
struct BoxStreet {
    distance: u32,
    reds: [u32; 2],
    left: u32,
    patterns: [bool; 4],
    clear_out: u32,
    cycle: [i64; 2],
}

const ALL: [bool; 4] = [true, true, true, true];

const BASE: BoxStreet = BoxStreet {
    distance: 500,
    reds: [50, 50],
    left: 0,
    patterns: ALL,
    clear_out: 0,
    cycle: [100, 100],
};

const NEAR: BoxStreet = BoxStreet {
    distance: 250,
    ..BASE
};

const WITH_LEFTS: BoxStreet = BoxStreet {
    reds: [50, 40],
    left: 10,
    ..NEAR
};

fn head(street: BoxStreet) -> SampleHead {
    SampleHead {
        cycle: range(street.cycle[0], street.cycle[1]),
        ..plain_head()
    }
}

fn first(street: BoxStreet) -> SampleSignal {
    SampleSignal {
        patterns: ALL,
        ..plain_signal("A", street.reds[0])
    }
}

fn second(street: BoxStreet) -> SampleSignal {
    SampleSignal {
        left_out: street.left,
        left_in: street.left,
        patterns: street.patterns,
        clear_out: street.clear_out,
        ..plain_signal("B", street.reds[1])
    }
}

fn artery(alloc: Global, street: BoxStreet) -> Result<Artery, Fail> {
    let signals = [first(street), second(street)];
    let links = [plain_link(street.distance)];
    given::street(alloc, head(street), &signals, &links)
}

/// The ends of a span.
type Ends = [i64; 2];

fn ends(span: Span) -> Ends {
    [span.least, span.most]
}

fn root(alloc: Global, artery: &Artery) -> Result<SearchBox, Fail>
    ensures { IfOk result (λ area. IsBoxOf artery.now area) }
{
    match SearchBox::root(alloc, artery) {
        Ok(area) => Ok(area),
        Err(_) => Err(Fail::from("no memory")),
    }
}

/// The spans of link 1 and of the two signals.
fn spans(artery: &Artery, area: &SearchBox) -> [Ends; 3]
    requires { IsBoxOf artery.now area.now }
{
    prove!(artery.count() >= 2);
    [
        ends(area.loop_span(1)),
        ends(area.turn_span(1)),
        ends(area.turn_span(2)),
    ]
}

/// The span of link 1 in the root box, as it is without the box.
fn link_span(artery: &Artery) -> Ends {
    prove!(artery.count() >= 2);
    ends(root_span(artery, 1))
}

/// Whether these are the spans of the root box, the first also without the box.
fn has_root_spans(alloc: Global, street: BoxStreet, expected: [Ends; 3]) -> Result<bool, Fail> {
    let artery = artery(alloc, street)?;
    let area = root(alloc, &artery)?;
    Ok(link_span(&artery) == expected[0] && spans(&artery, &area) == expected)
}

static ROOT_BOXES: [(BoxStreet, [Ends; 3]); 7] = [
    (BASE, [[0, 2], [0, 0], [0, 0]]),
    (NEAR, [[0, 1], [0, 0], [0, 0]]),
    (
        BoxStreet {
            reds: [80, 80],
            ..NEAR
        },
        [[1, 0], [0, 0], [0, 0]],
    ),
    (WITH_LEFTS, [[0, 1], [0, 0], [0, 2]]),
    (
        BoxStreet {
            distance: 2500,
            ..BASE
        },
        [[4, 6], [0, 0], [0, 0]],
    ),
    (
        BoxStreet {
            clear_out: 60,
            ..BASE
        },
        [[0, 1], [0, 0], [0, 0]],
    ),
    (
        BoxStreet {
            cycle: [50, 100],
            ..BASE
        },
        [[0, 3], [0, 0], [0, 0]],
    ),
];

#[test]
fn root_boxes(rt: HostRuntime) -> Result<(), Fail> {
    for (street, expected) in ROOT_BOXES {
        assert!(rt; has_root_spans(rt.alloc(), street, expected)?);
    }
    Ok(())
}

/// Whether one of two signals has these shifts and no others.
fn has_shifts(artery: &Artery, signal: u32, shifts: &[u32]) -> bool {
    if artery.count() != 2 || signal < 1 || 2 < signal {
        return false;
    }
    let count = shift_count(artery, signal);
    for rank in 0..count {
        if shifts.get(rank as usize) != Some(&shift_at(artery, signal, rank)) {
            return false;
        }
    }
    count as usize == shifts.len()
}

fn shifts_told(
    alloc: Global,
    patterns: [bool; 4],
    signal: u32,
    shifts: &[u32],
) -> Result<bool, Fail> {
    let street = BoxStreet {
        patterns,
        ..WITH_LEFTS
    };
    Ok(has_shifts(&artery(alloc, street)?, signal, shifts))
}

/// Of which signal the shifts are, where these patterns are allowed at signal B.
static SHIFTS: [([bool; 4], u32, &[u32]); 3] = [
    (ALL, 1, &[0]),
    (ALL, 2, &[0, 10, 20]),
    ([false, false, true, false], 2, &[10]),
];

#[test]
fn shifts_of_left_turns(rt: HostRuntime) -> Result<(), Fail> {
    for (patterns, signal, shifts) in SHIFTS {
        assert!(rt; shifts_told(rt.alloc(), patterns, signal, shifts)?);
    }
    Ok(())
}

fn split(
    alloc: Global,
    artery: &Artery,
    area: &SearchBox,
    place: At,
) -> Result<Option<(SearchBox, SearchBox)>, Fail>
    requires { IsBoxOf artery.now area.now }
    ensures low { IfOk result (λ parts. IfSome parts (λ p. IsBoxOf artery.now p.0)) }
    ensures high { IfOk result (λ parts. IfSome parts (λ p. IsBoxOf artery.now p.1)) }
{
    match area.split(alloc, place) {
        Ok(parts) => Ok(parts),
        Err(_) => Err(Fail::from("no memory")),
    }
}

/// The spans of two boxes, and which of them have one number each.
type SplitParts = ([Ends; 3], [Ends; 3], [bool; 2]);

fn seen(artery: &Artery, low: &SearchBox, high: &SearchBox) -> SplitParts
    requires low { IsBoxOf artery.now low.now }
    requires high { IsBoxOf artery.now high.now }
{
    let single = [low.is_single(), high.is_single()];
    (spans(artery, low), spans(artery, high), single)
}

fn parts_of(
    alloc: Global,
    artery: &Artery,
    area: &SearchBox,
    place: At,
) -> Result<Option<SplitParts>, Fail>
    requires { IsBoxOf artery.now area.now }
{
    match split(alloc, artery, area, place)? {
        None => Ok(None),
        Some((low, high)) => Ok(Some(seen(artery, &low, &high))),
    }
}

/// Both parts of the root box.
fn parts(alloc: Global, street: BoxStreet, place: At) -> Result<Option<SplitParts>, Fail> {
    let artery = artery(alloc, street)?;
    let area = root(alloc, &artery)?;
    parts_of(alloc, &artery, &area, place)
}

const HALVES: SplitParts = (
    [[0, 0], [0, 0], [0, 0]],
    [[1, 1], [0, 0], [0, 0]],
    [true, true],
);

const RANKS: SplitParts = (
    [[0, 1], [0, 0], [0, 0]],
    [[0, 1], [0, 0], [1, 2]],
    [false, false],
);

/// Places at which a root box is split into two parts.
static SPLITS: [(BoxStreet, At, SplitParts); 2] = [
    (NEAR, At::Loop { link: 1, at: 0 }, HALVES),
    (WITH_LEFTS, At::Turn { signal: 2, rank: 0 }, RANKS),
];

/// Places at which it isn't.
static NO_SPLITS: [(BoxStreet, At); 8] = [
    (NEAR, At::Loop { link: 1, at: 1 }),
    (NEAR, At::Loop { link: 1, at: -1 }),
    (NEAR, At::Loop { link: 0, at: 0 }),
    (NEAR, At::Loop { link: 2, at: 0 }),
    (NEAR, At::Turn { signal: 2, rank: 0 }),
    (NEAR, At::Turn { signal: 0, rank: 0 }),
    (WITH_LEFTS, At::Turn { signal: 2, rank: 2 }),
    (WITH_LEFTS, At::Turn { signal: 3, rank: 0 }),
];

#[test]
fn splits(rt: HostRuntime) -> Result<(), Fail> {
    for (street, place, expected) in SPLITS {
        assert!(rt; parts(rt.alloc(), street, place)? == Some(expected));
    }
    for (street, place) in NO_SPLITS {
        assert!(rt; parts(rt.alloc(), street, place)?.is_none());
    }
    Ok(())
}

/// The span at a place where the box can be split.
fn span_at(area: &SearchBox, place: At) -> Option<Span> {
    if area.is_place(place) {
        return Some(area.span_at(place));
    }
    None
}

/// Puts a span at a place where the box can be split, and answers the one that stood there.
fn put(area: &mut SearchBox, place: At, new: Span) -> Option<Span> {
    if area.is_place(place) && are_ranks(new) {
        return Some(area.replace(place, new));
    }
    None
}

/// The span that stood at a place, and the one that stands there after another was put; None where either box can't be
/// split there.
fn replaced_in(area: &mut SearchBox, place: At, new: Ends) -> Option<(Ends, Ends)> {
    let [least, most] = new;
    let former = put(area, place, Span { least, most })?;
    Some((ends(former), ends(span_at(area, place)?)))
}

/// The same of the root box.
fn replaced(
    alloc: Global,
    street: BoxStreet,
    place: At,
    new: Ends,
) -> Result<Option<(Ends, Ends)>, Fail> {
    let artery = artery(alloc, street)?;
    let mut area = root(alloc, &artery)?;
    Ok(replaced_in(&mut area, place, new))
}

fn are_ranks(span: Span) -> bool
    ensures { IsTrue result → AreRanks (span_of span) }
{
    0 <= span.least && span.least <= 9 && 0 <= span.most && span.most <= 9
}

const SUMS: At = At::Loop { link: 1, at: 0 };

const SECOND_RANKS: At = At::Turn { signal: 2, rank: 1 };

static REPLACEMENTS: [(BoxStreet, At, Ends, Option<(Ends, Ends)>); 6] = [
    (NEAR, SUMS, [0, 3], Some(([0, 1], [0, 3]))),
    (NEAR, SUMS, [1, 1], None),
    (NEAR, At::Loop { link: 2, at: 0 }, [0, 3], None),
    (WITH_LEFTS, SUMS, [0, 2], Some(([0, 1], [0, 2]))),
    (WITH_LEFTS, SECOND_RANKS, [1, 2], Some(([0, 2], [1, 2]))),
    (WITH_LEFTS, SECOND_RANKS, [0, 1], None),
];

#[test]
fn replacements(rt: HostRuntime) -> Result<(), Fail> {
    for (street, place, new, expected) in REPLACEMENTS {
        assert!(rt; replaced(rt.alloc(), street, place, new)? == expected);
    }
    Ok(())
}

#[test]
fn laws_can_be_called() {
    law_valid_street();
    law_shifts_are_ranked();
}
