//! Vertices of two signals 250 metres apart, each with half of a cycle of 100 seconds red, driven at 36 kilometres an
//! hour.

ghost use Rattle.std.specs.Prelude.{◌≡◌, [], ◌∷◌, IfOk, length};
ghost use Rattle.rational_theory.specs.Rational.{◌/ℚ◌};
ghost use Rattle.progression.specs.Speeds.{number};
ghost use Rattle.linear_theory.specs.{Boxes.{IsBoxOf}, Worked.{apart}};
ghost use Rattle.recovery_theory.specs.Worked.{quarter_point, quarter_box};

use artery_model::Artery;
use named_row::Point;
use narrow_fraction::{Frac, Op, Wide};
use offset_recovery::{RecoverFault, Recovered, WideTiming, check_number, common_unit, recover};
use plan_text::write_timing;
use recovery_theory::law_worked_vertices;
use search_box::{At, SearchBox};
use std::alloc::Global;
use std::rt::HostRuntime;
use std::test::Fail;
use test_bed::{HALF_BAND, fraction, half_red_street, part_of};
use time_space::Timing;

const THREE_51: i128 = 2_153_693_963_075_557_766_310_747;

const GREATEST: i128 = 170_141_183_460_469_231_731_687_303_715_884_105_727;

/// The runs a quarter of the cycle, with this outbound band, frequency and inbound wait at the second signal.
fn vertex(alloc: Global, band: Frac, frequency: Frac, wait_in: Frac) -> Result<Point, Fail>
    ensures { IfOk result (λ p. p.values.items ≡ band ∷ number 0 ∷ frequency ∷ number 0 ∷ number 0 ∷ number 0 ∷ wait_in ∷ number 1 /ℚ number 4 ∷ number 1 /ℚ number 4 ∷ number 0 ∷ number 0 ∷ []) }
{
    let quarter = part_of(1, 4)?;
    let zero = Frac::whole(0);
    let values = vec![in alloc;
        band, zero, frequency, zero, zero, zero, wait_in, quarter, quarter, zero, zero,
    ]?;
    Ok(Point { values })
}

/// The outbound band half of the cycle, and this inbound wait at the second signal.
fn point(alloc: Global, wait_in: Frac) -> Result<Point, Fail>
    ensures { IfOk result (λ point. point.values.items ≡ quarter_point wait_in) }
{
    let (half, frequency) = (part_of(1, 2)?, part_of(1, 100)?);
    let point = vertex(alloc, half, frequency, wait_in)?;
    Ok(point)
}

/// What becomes of the vertex without the inbound wait in the root box.
fn outcome_in_root(alloc: Global) -> Result<Result<Recovered<Timing>, RecoverFault>, Fail> {
    law_worked_vertices();
    let artery = half_red_street(alloc, 250)?;
    let area = SearchBox::root(alloc, &artery)?;
    let point = point(alloc, Frac::whole(0))?;
    Ok(recover(alloc, &artery, &area, &point))
}

/// The part of the root box where the block sum is 0.
fn low_box(alloc: Global, artery: &Artery) -> Result<SearchBox, Fail>
    requires { artery.now ≡ apart 250 }
    ensures value { IfOk result (λ area. area ≡ quarter_box) }
    ensures boxed { IfOk result (λ area. IsBoxOf artery.now area) }
{
    let root = SearchBox::root(alloc, artery)?;
    match root.split(alloc, At::Loop { link: 1, at: 0 }) {
        Ok(Some((low, _high))) => Ok(low),
        _ => Err("no parts".into()),
    }
}

/// What becomes of the vertex with half of a cycle of inbound wait in that part.
fn outcome_in_part(alloc: Global) -> Result<Result<Recovered<Timing>, RecoverFault>, Fail> {
    law_worked_vertices();
    let artery = half_red_street(alloc, 250)?;
    let area = low_box(alloc, &artery)?;
    let point = point(alloc, part_of(1, 2)?)?;
    Ok(recover(alloc, &artery, &area, &point))
}

/// Two ticks a second and a part, and the second signal a quarter of a cycle after the first.
#[test]
fn a_whole_vertex_is_a_timing(rt: HostRuntime) -> Result<(), Fail> {
    let Ok(Recovered::Timing(timing)) = outcome_in_part(rt.alloc())? else {
        return Err("no timing".into());
    };
    let text = write_timing(rt.alloc(), &timing)?;
    let expected = format!(in rt.alloc(); "maxband-timing 1\n{}end\n", HALF_BAND)?;
    assert!(rt; text.as_slice() == expected.as_bytes());
    Ok(())
}

#[test]
fn a_block_sum_of_one_half_splits(rt: HostRuntime) -> Result<(), Fail> {
    let outcome = outcome_in_root(rt.alloc())?;
    assert!(rt; matches!(outcome, Ok(Recovered::SplitAt(At::Loop { link: 1, at: 0 }))));
    Ok(())
}

/// Without any wait.
fn wide_point(alloc: Global, band: Frac, frequency: Frac) -> Result<Point, Fail>
    ensures { IfOk result (λ point. length point.values.items ≡ 11) }
{
    let point = vertex(alloc, band, frequency, Frac::whole(0))?;
    Ok(point)
}

#[test]
fn a_great_product_is_refused(rt: HostRuntime) -> Result<(), Fail> {
    let artery = half_red_street(rt.alloc(), 250)?;
    let frequency = fraction(GREATEST, 1)?;
    let point = wide_point(rt.alloc(), part_of(1, 2)?, frequency)?;
    let wide = Wide {
        op: Op::Mul,
        left: frequency,
        right: Frac::whole(100),
    };
    assert_eq!(rt;
        common_unit(&artery, &point),
        Err(WideTiming::Product { column: 2, wide })
    );
    Ok(())
}

#[test]
fn a_great_denominator_is_refused(rt: HostRuntime) -> Result<(), Fail> {
    let artery = half_red_street(rt.alloc(), 250)?;
    let point = wide_point(rt.alloc(), fraction(1, THREE_51)?, part_of(1, 100)?)?;
    let refused = WideTiming::Unit {
        left: 1,
        right: THREE_51 as u128,
    };
    assert_eq!(rt; common_unit(&artery, &point), Err(refused));
    Ok(())
}

#[test]
fn numbers_below_the_limit_fit(rt: HostRuntime) {
    assert_eq!(rt; check_number(3, (1 << 80) - 1), Ok(()));
    let refused = WideTiming::Number {
        column: 3,
        ticks: 1 << 80,
    };
    assert_eq!(rt; check_number(3, 1 << 80), Err(refused));
}
