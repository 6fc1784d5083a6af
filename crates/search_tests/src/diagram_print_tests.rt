//! Reports and diagrams that were worked by hand, on two signals of equal reds without left turns.

ghost use Rattle.std.specs.Prelude.{IfOk};
ghost use Rattle.progression.specs.Good.{Good};
ghost use Rattle.linear_theory.specs.Boxes.{IsBoxOf};

use artery_model::{Artery, Units};
use branch_tree::{Found, Site, SitePart, Stop, Verdict};
use diagram_print::{diagram, push_column, push_place, push_row, report};
use fraction_tableau::WideCell;
use named_row::{Place, RowId, WideAt};
use narrow_fraction::{Frac, Memory, Op, Wide};
use offset_recovery::WideTiming;
use plan_text::{FAMILIES, FamilyName};
use search_box::SearchBox;
use std::alloc::Global;
use std::test::Fail;
use test_bed::{
    SampleHead, SampleLink, TextRecord, WHOLE_GREEN, fraction_or_zero, plain_head, plain_link,
    plain_signal, range, sample_street,
};
use time_space::{Timing, holds};

/// What differs between the arteries. The cycle is in seconds and has one length; a pair is outbound and inbound.
#[derive(Clone, Copy)]
struct PrintStreet {
    names: [&'static str; 2],
    units: Units,
    parts: u32,
    cycle: i64,
    red: u32,
    distances: [u32; 2],
    speeds: [i64; 2],
}

const HALF_RED: PrintStreet = PrintStreet {
    names: ["A", "B"],
    units: Units::Metric,
    parts: 100,
    cycle: 100,
    red: 50,
    distances: [500, 500],
    speeds: [36, 36],
};

const METRES: PrintStreet = PrintStreet {
    names: ["Oak", "Elm"],
    parts: 60,
    cycle: 60,
    red: 30,
    distances: [400, 410],
    speeds: [20, 60],
    ..HALF_RED
};

const FEET: PrintStreet = PrintStreet {
    units: Units::English,
    distances: [1100, 1320],
    ..METRES
};

/// The second red comes 20 ticks of a third of a second after the first, in the next cycle.
static NARROW: &str =
    "grid 3\nunit 3\npattern 1 1\nred 170 10\nrun_out 100\nrun_in 95\nfirst 80 165\nband 10 20\n";

static WHOLE_GREEN_REPORT: &str = "\
verdict best
weighted 1 = 1.000000
band out 1/2 = 0.500000
band in 1/2 = 0.500000
cycle 100 = 100.000
signal 1 pattern 1 offset 0 = 0.000 A
signal 2 pattern 1 offset 50 = 50.000 B
link 1 out 36 = 36.000
link 1 in 36 = 36.000
";

static WHOLE_GREEN_DIAGRAM: &str = "\
2 out >>>>>>>>>>>>>>>>>>>>>>>>>>>>>>>#############################
2 in <<<<<<<<<<<<<<<<<<<<<<<<<<<<<<<#############################
1 out >#############################>>>>>>>>>>>>>>>>>>>>>>>>>>>>>>
1 in <#############################<<<<<<<<<<<<<<<<<<<<<<<<<<<<<<
";

static NARROW_REPORT: &str = "\
verdict best
weighted 1/6 = 0.166666
band out 1/18 = 0.055555
band in 1/9 = 0.111111
cycle 60 = 60.000
signal 1 pattern 1 offset 0 = 0.000 Oak
signal 2 pattern 1 offset 20/3 = 6.666 Elm
";

/// The speeds in kilometres an hour, and those of the same runs in miles an hour.
static METRES_LINKS: &str = "link 1 out 216/5 = 43.200\nlink 1 in 4428/95 = 46.610\n";

static FEET_LINKS: &str = "link 1 out 45/2 = 22.500\nlink 1 in 540/19 = 28.421\n";

static NARROW_DIAGRAM: &str = "\
2 out >>>>##############################==========================
2 in <<==##############################=====================<<<<<
1 out ###########################>>>>==========================###
1 in ###########################<<<<<<<=======================###
";

fn head(street: PrintStreet) -> SampleHead {
    SampleHead {
        units: street.units,
        parts: street.parts,
        cycle: range(street.cycle, street.cycle),
        ..plain_head()
    }
}

fn link(street: PrintStreet) -> SampleLink {
    SampleLink {
        distance_in: street.distances[1],
        speed_out: range(street.speeds[0], street.speeds[1]),
        speed_in: range(street.speeds[0], street.speeds[1]),
        ..plain_link(street.distances[0])
    }
}

fn artery(alloc: Global, street: PrintStreet) -> Result<Artery, Fail> {
    let signals = [
        plain_signal(street.names[0], street.red),
        plain_signal(street.names[1], street.red),
    ];
    match sample_street(alloc, head(street), &signals, &[link(street)]) {
        Ok(artery) => Ok(artery),
        Err(_) => Err("no artery".into()),
    }
}

fn timing(alloc: Global, times: &str) -> Result<Timing, Fail> {
    let times = TextRecord::new(times.as_bytes())?;
    Ok(times.timing(alloc)?.ok_or("no timing")?)
}

/// The timing, which is good on this artery.
fn good_timing(alloc: Global, artery: &Artery, times: &str) -> Result<Timing, Fail>
    ensures { IfOk result (λ timing. Good artery.now timing) }
{
    let timing = timing(alloc, times)?;
    match holds(artery, &timing) {
        Ok(()) => Ok(timing),
        Err(_) => Err("not good".into()),
    }
}

/// The report of an answer with this timing.
fn best_report(alloc: Global, artery: &Artery, timing: Timing) -> Result<Vec<u8>, Fail>
    requires { Good artery.now timing }
{
    let found = Found {
        verdict: Verdict::Best,
        nodes: Vec::new(alloc),
        timing: Some(timing),
        bound: Frac::whole(1),
        spent: 4,
    };
    match report(alloc, artery, &found) {
        Ok(lines) => Ok(lines),
        Err(_) => Err("no memory".into()),
    }
}

fn reported(alloc: Global, street: PrintStreet, times: &str) -> Result<Vec<u8>, Fail> {
    let artery = artery(alloc, street)?;
    let timing = good_timing(alloc, &artery, times)?;
    best_report(alloc, &artery, timing)
}

/// Whether the report is that of these lines, of those of the links, and of the diagram.
fn is_reported(
    alloc: Global,
    street: PrintStreet,
    times: &str,
    parts: [&'static str; 3],
) -> Result<bool, Fail> {
    let lines = reported(alloc, street, times)?;
    let [report, links, diagram] = parts;
    let expected = format!(in alloc; "{report}{links}diagram\n{diagram}")?;
    Ok(lines.as_slice() == expected.as_bytes())
}

#[test]
fn reports_of_timings(rt: HostRuntime) -> Result<(), Fail> {
    let cases = [
        (
            HALF_RED,
            WHOLE_GREEN,
            [WHOLE_GREEN_REPORT, "", WHOLE_GREEN_DIAGRAM],
        ),
        (
            METRES,
            NARROW,
            [NARROW_REPORT, METRES_LINKS, NARROW_DIAGRAM],
        ),
        (FEET, NARROW, [NARROW_REPORT, FEET_LINKS, NARROW_DIAGRAM]),
    ];
    for (street, times, parts) in cases {
        assert!(rt; is_reported(rt.alloc(), street, times, parts)?);
    }
    Ok(())
}

/// The diagram alone, which needs no good timing.
fn drawn(alloc: Global, street: PrintStreet, times: &str) -> Result<Vec<u8>, Fail> {
    let artery = artery(alloc, street)?;
    let timing = timing(alloc, times)?;
    if timing.count() != artery.count() {
        return Err("other signals".into());
    }
    match diagram(alloc, &artery, &timing) {
        Ok(lines) => Ok(lines),
        Err(_) => Err("no memory".into()),
    }
}

#[test]
fn a_diagram_alone(rt: HostRuntime) -> Result<(), Fail> {
    let lines = drawn(rt.alloc(), HALF_RED, WHOLE_GREEN)?;
    assert_eq!(rt; lines.as_slice(), WHOLE_GREEN_DIAGRAM.as_bytes());
    Ok(())
}

fn root(alloc: Global, artery: &Artery) -> Result<SearchBox, Fail>
    ensures { IfOk result (λ area. IsBoxOf artery.now area) }
{
    match SearchBox::root(alloc, artery) {
        Ok(area) => Ok(area),
        Err(_) => Err("no memory".into()),
    }
}

/// The report of a search that stopped in the root box at this operation.
fn wide_report(alloc: Global, artery: &Artery, part: SitePart) -> Result<Vec<u8>, Fail> {
    let area = root(alloc, artery)?;
    let site = Site {
        area,
        pivots: 7,
        part,
    };
    let found = Found {
        verdict: Verdict::Stopped(Stop::Wide(site)),
        nodes: Vec::new(alloc),
        timing: None,
        bound: fraction_or_zero(3, 4),
        spent: 9,
    };
    match report(alloc, artery, &found) {
        Ok(lines) => Ok(lines),
        Err(_) => Err("no memory".into()),
    }
}

fn wide(op: Op, left: Frac, right: Frac) -> Wide {
    Wide { op, left, right }
}

/// The lines around those of a site and its operands.
fn around(alloc: Global, site: &str) -> Result<String, Fail> {
    Ok(format!(in alloc;
        "verdict open\nstopped wide\nloops 0:2\nshifts 0:0 0:0\npivots 7\n{site}bound 3/4\nno timing\n"
    )?)
}

/// Whether a search that stopped at this operation is reported with these lines of its site.
fn is_told(alloc: Global, artery: &Artery, part: SitePart, site: &str) -> Result<bool, Fail> {
    let lines = wide_report(alloc, artery, part)?;
    let expected = around(alloc, site)?;
    Ok(lines.as_slice() == expected.as_bytes())
}

/// -2/3 times 5.
fn product() -> Wide {
    wide(Op::Mul, fraction_or_zero(-2, 3), Frac::whole(5))
}

static LEAF_SITE: &str = "site leaf wout 2 y_out 1\noperands add 5 1/2\n";

/// Whether the sites of a ratio, of a pivot and of a leaf's sum are told.
fn are_ends_told(alloc: Global, artery: &Artery) -> Result<bool, Fail> {
    let half = fraction_or_zero(1, 2);
    let five = Frac::whole(5);
    let ratio = SitePart::Ratio(WideCell {
        row: 3,
        col: 4,
        wide: wide(Op::Div, half, five),
    });
    let cell = SitePart::Cell(WideCell {
        row: 0,
        col: 11,
        wide: product(),
    });
    let leaf = SitePart::LeafSum {
        row: RowId {
            family: 1,
            index: 2,
        },
        at: WideAt {
            place: Place::Cell(7),
            wide: wide(Op::Add, five, half),
        },
    };
    let is_ratio = is_told(alloc, artery, ratio, "site ratio 3 4\noperands div 1/2 5\n")?;
    let is_cell = is_told(alloc, artery, cell, "site cell 0 11\noperands mul -2/3 5\n")?;
    let is_leaf = is_told(alloc, artery, leaf, LEAF_SITE)?;
    Ok(is_ratio && is_cell && is_leaf)
}

/// Whether the sites of a block sum, of a shift, of the unit and of a number are told.
fn are_timings_told(alloc: Global, artery: &Artery) -> Result<bool, Fail> {
    let block = SitePart::Timing(WideTiming::Sum {
        link: 1,
        wide: wide(Op::Sub, fraction_or_zero(1, 2), fraction_or_zero(-2, 3)),
    });
    let shift = SitePart::Timing(WideTiming::Product {
        column: 9,
        wide: product(),
    });
    let unit = SitePart::Timing(WideTiming::Unit {
        left: 12,
        right: 1 << 100,
    });
    let number = SitePart::Timing(WideTiming::Number {
        column: 2,
        ticks: 1 << 80,
    });
    let is_sum = is_told(alloc, artery, block, "site sum 1\noperands sub 1/2 -2/3\n")?;
    let is_product = is_told(
        alloc,
        artery,
        shift,
        "site product s 1\noperands mul -2/3 5\n",
    )?;
    let is_unit = is_told(
        alloc,
        artery,
        unit,
        "site unit\noperands lcm 12 1267650600228229401496703205376\n",
    )?;
    let is_number = is_told(
        alloc,
        artery,
        number,
        "site number z\noperands ticks 1208925819614629174706176\n",
    )?;
    Ok(is_sum && is_product && is_unit && is_number)
}

#[test]
fn sites_of_refused_operations(rt: HostRuntime) -> Result<(), Fail> {
    let street = artery(rt.alloc(), HALF_RED)?;
    assert!(rt; are_ends_told(rt.alloc(), &street)?);
    assert!(rt; are_timings_told(rt.alloc(), &street)?);
    Ok(())
}

/// The name of the column of this number, of two signals.
fn column_name(alloc: Global, number: u32) -> Result<Vec<u8>, Memory> {
    let mut name = Vec::new(alloc);
    push_column(&mut name, 2, number)?;
    Ok(name)
}

/// The name of a place of a row, with two signals.
fn place_name(alloc: Global, place: Place) -> Result<Vec<u8>, Memory> {
    let mut name = Vec::new(alloc);
    push_place(&mut name, 2, place)?;
    Ok(name)
}

/// The name of a row over a table of families.
fn row_name(alloc: Global, names: &[FamilyName], row: RowId) -> Result<Vec<u8>, Memory> {
    let mut name = Vec::new(alloc);
    push_row(&mut name, names, row)?;
    Ok(name)
}

/// Whether the column of this number, of two signals, is named so.
fn is_column(alloc: Global, number: u32, name: &str) -> Result<bool, Fail> {
    let column = column_name(alloc, number).map_err(|_| "memory")?;
    let place = place_name(alloc, Place::Cell(number)).map_err(|_| "memory")?;
    Ok(column.as_slice() == name.as_bytes() && place.as_slice() == name.as_bytes())
}

fn is_bound(alloc: Global) -> Result<bool, Fail> {
    let place = place_name(alloc, Place::Bound).map_err(|_| "memory")?;
    Ok(place.as_slice() == "bound".as_bytes())
}

/// Whether a row over a table of families is named so.
fn is_row_of(
    alloc: Global,
    names: &[FamilyName],
    family: u8,
    index: u32,
    name: &str,
) -> Result<bool, Fail> {
    let row = row_name(alloc, names, RowId { family, index }).map_err(|_| "memory")?;
    Ok(row.as_slice() == name.as_bytes())
}

/// The columns of two signals and their names; the one after the last has none.
static COLUMNS: [(u32, &str); 14] = [
    (0, "b_out"),
    (1, "b_in"),
    (2, "z"),
    (3, "w_out 1"),
    (4, "w_out 2"),
    (5, "w_in 1"),
    (6, "w_in 2"),
    (7, "y_out 1"),
    (8, "y_in 1"),
    (9, "s 1"),
    (10, "s 2"),
    (11, "h_out 1"),
    (12, "h_in 1"),
    (13, ""),
];

#[test]
fn names_of_places(rt: HostRuntime) -> Result<(), Fail> {
    for (number, name) in COLUMNS {
        assert!(rt; is_column(rt.alloc(), number, name)?);
    }
    assert!(rt; is_bound(rt.alloc())?);
    Ok(())
}

/// Families, indices and names.
static ROWS: [(u8, u32, &str); 6] = [
    (1, 2, "wout 2"),
    (10, 1, "drop_in 1"),
    (11, 0, "cycle_low"),
    (17, 2, "turn_hi 2"),
    (18, 0, "least_out"),
    (21, 0, "equal_hi"),
];

#[test]
fn names_of_rows(rt: HostRuntime) -> Result<(), Fail> {
    for (family, index, name) in ROWS {
        assert!(rt; is_row_of(rt.alloc(), &FAMILIES, family, index, name)?);
    }
    Ok(())
}

static TABLE: [FamilyName; 2] = [
    FamilyName {
        text: "alone",
        is_lone: true,
    },
    FamilyName {
        text: "several",
        is_lone: false,
    },
];

#[test]
fn names_of_rows_over_a_table(rt: HostRuntime) -> Result<(), Fail> {
    assert!(rt; is_row_of(rt.alloc(), &TABLE, 1, 0, "alone")?);
    assert!(rt; is_row_of(rt.alloc(), &TABLE, 2, 7, "several 7")?);
    Ok(())
}
