//! The families of an artery's rows: which number each has, where its rows stand, and what they are.

ghost use Rattle.std.specs.Prelude.{◌≡◌, ◌↔◌, IsTrue, length};
ghost use Rattle.progression.specs.Street.{count, HasLink};
ghost use Rattle.linear_theory.specs.{Boxes.{IsBoxOf}, Places.{width}, Rows.{places_of, block_entries}, Names.{HasRow, HasChange, form_of}};
ghost use Rattle.linear_theory.proofs.NamedRows.{row_law};
ghost use Rattle.loop_rows.specs.{Directions.{by_dir}, Families.{number_of, row_in}, laws.Meeting.{at_written}};
ghost use Rattle.loop_rows.specs.{laws.Writing.{written_unspent}, Writing.{written, written_cells}};

use crate::cells::fill_cells;
use crate::columns::{
    band_column, frequency_column, next_of, run_column, shift_column, wait_column,
};
use crate::family::{Family, Progression};
use crate::family_numbers as numbers;
use crate::numbers::{green, high_bound, low_bound, one_over, rank_part, reciprocal};
use artery_model::{Artery, Dir};
use named_row::Row;
use narrow_fraction::Frac;
use search_box::SearchBox;

/// A family of an artery's rows, by the name that it has in `linear_theory`. Each of its rows says:
#[derive(Clone, Copy)]
pub enum ArteryFamily {
    /// A signal's wait and the band fit into the green.
    WaitRow(Dir),
    /// No run is shorter than at the greatest speed.
    FastRow(Dir),
    /// No run is longer than at the least speed.
    SlowRow(Dir),
    /// From a link to the next the pace rises by no more than the greatest change.
    RiseRow(Dir),
    /// From a link to the next the pace changes by no less than the least change.
    DropRow(Dir),
    /// The frequency is at least that of the greatest cycle.
    CycleLowRow,
    /// The frequency is at most that of the least cycle.
    CycleHighRow,
    /// The bands keep the ratio.
    RatioRow,
    /// A link's block sum is at least the least number of its span.
    LoopLowRow,
    /// A link's block sum is at most the greatest number of its span.
    LoopHighRow,
    /// A signal's shift is at least that of the least rank.
    TurnLowRow,
    /// A signal's shift is at most that of the greatest rank.
    TurnHighRow,
    /// The band of a direction is at least as wide as the artery asks.
    LeastRow(Dir),
    /// The outbound band is at most the inbound one.
    EqualLowRow,
    /// The outbound band is at least the inbound one.
    EqualHighRow,
}

/// The number of a direction's family.
fn by_dir(dir: Dir, outbound: u8, inbound: u8) -> u8
    ensures { result ≡ by_dir dir outbound inbound }
{
    match dir {
        Dir::Outbound => outbound,
        Dir::Inbound => inbound,
    }
}

/// Whether there are limits for the change of pace from a link to the next.
fn is_limited(artery: &Artery, dir: Dir, link: u32) -> bool
    ensures { IsTrue result ↔ HasChange artery.now dir link }
{
    1 <= link && link < artery.count() - 1 && artery.change(dir, link).is_some()
}

/// The row of a link's block sum, with the number of the columns that are added and that of those that are taken away.
fn fill_block(artery: &Artery, link: u32, added: Frac, taken: Frac, bound: Frac, into: &mut Row)
    requires link { HasLink artery.now link }
    requires columns { length into.old.coefs ≡ width (count artery.now) }
    ensures value { into.new ≡ written_cells (width (count artery.now)) (places_of (count artery.now) (block_entries link added taken)) bound }
    ensures width { length into.new.coefs ≡ length into.old.coefs }
{
    let next = next_of(artery, link);
    let cells = [
        (wait_column(artery, Dir::Outbound, link), added),
        (wait_column(artery, Dir::Outbound, next), taken),
        (wait_column(artery, Dir::Inbound, link), added),
        (wait_column(artery, Dir::Inbound, next), taken),
        (run_column(artery, Dir::Outbound, link), added),
        (run_column(artery, Dir::Inbound, link), added),
        (shift_column(artery, link), added),
        (shift_column(artery, next), taken),
    ];
    fill_cells(&cells, bound, into);
}

impl ArteryFamily {
    /// The bound of the row of an index for a box.
    pub fn bound(&self, artery: &Artery, area: &SearchBox, index: u32) -> Frac
        requires there { HasRow artery.now (row_in self.now index) }
        requires boxed { IsBoxOf artery.now area.now }
        ensures { result ≡ (form_of artery.now area.now (row_in self.now index)).bound }
    {
        match *self {
            ArteryFamily::WaitRow(dir) => green(artery, dir, index),
            ArteryFamily::CycleLowRow => reciprocal(artery.cycle().most).neg(),
            ArteryFamily::CycleHighRow => reciprocal(artery.cycle().least),
            ArteryFamily::LoopLowRow => low_bound(artery, index, area.loop_span(index).least),
            ArteryFamily::LoopHighRow => high_bound(artery, index, area.loop_span(index).most),
            ArteryFamily::TurnLowRow => rank_part(artery, index, area.turn_span(index).least).neg(),
            ArteryFamily::TurnHighRow => rank_part(artery, index, area.turn_span(index).most),
            ArteryFamily::LeastRow(dir) => artery.least_band(dir).neg(),
            _ => Frac::whole(0),
        }
    }
}

impl Family for ArteryFamily {
    type Of = Progression;

    ghost family = { number_of };

    ghost exists = { λ f a i. HasRow a (row_in f i) };

    ghost sheet = { λ f a box i. written a (form_of a box (row_in f i)) };

    fn number(&self) -> u8 {
        match *self {
            ArteryFamily::WaitRow(dir) => by_dir(dir, numbers::WAIT_OUT, numbers::WAIT_IN),
            ArteryFamily::FastRow(dir) => by_dir(dir, numbers::FAST_OUT, numbers::FAST_IN),
            ArteryFamily::SlowRow(dir) => by_dir(dir, numbers::SLOW_OUT, numbers::SLOW_IN),
            ArteryFamily::RiseRow(dir) => by_dir(dir, numbers::RISE_OUT, numbers::RISE_IN),
            ArteryFamily::DropRow(dir) => by_dir(dir, numbers::DROP_OUT, numbers::DROP_IN),
            ArteryFamily::CycleLowRow => numbers::CYCLE_LOW,
            ArteryFamily::CycleHighRow => numbers::CYCLE_HIGH,
            ArteryFamily::RatioRow => numbers::RATIO,
            ArteryFamily::LoopLowRow => numbers::LOOP_LOW,
            ArteryFamily::LoopHighRow => numbers::LOOP_HIGH,
            ArteryFamily::TurnLowRow => numbers::TURN_LOW,
            ArteryFamily::TurnHighRow => numbers::TURN_HIGH,
            ArteryFamily::LeastRow(dir) => by_dir(dir, numbers::LEAST_OUT, numbers::LEAST_IN),
            ArteryFamily::EqualLowRow => numbers::EQUAL_LOW,
            ArteryFamily::EqualHighRow => numbers::EQUAL_HIGH,
        }
    }

    #[tactic(auto, using(rational_theory::proofs::Compare::ne_true, rational_theory::proofs::Compare::ne_false))]
    fn has(&self, artery: &Artery, index: u32) -> bool {
        match *self {
            ArteryFamily::WaitRow(_) | ArteryFamily::TurnLowRow | ArteryFamily::TurnHighRow => {
                1 <= index && index <= artery.count()
            }
            ArteryFamily::FastRow(_)
            | ArteryFamily::SlowRow(_)
            | ArteryFamily::LoopLowRow
            | ArteryFamily::LoopHighRow => 1 <= index && index < artery.count(),
            ArteryFamily::RiseRow(dir) | ArteryFamily::DropRow(dir) => {
                is_limited(artery, dir, index)
            }
            ArteryFamily::CycleLowRow | ArteryFamily::CycleHighRow => index == 0,
            ArteryFamily::RatioRow => index == 0 && artery.ratio() != Frac::whole(1),
            ArteryFamily::LeastRow(dir) => index == 0 && artery.least_band(dir) != Frac::whole(0),
            ArteryFamily::EqualLowRow | ArteryFamily::EqualHighRow => index == 0 && artery.equal(),
        }
    }

    fn fill(&self, artery: &Artery, area: &SearchBox, index: u32, into: &mut Row) {
        let one = Frac::whole(1);
        let less = Frac::whole(-1);
        let bound = self.bound(artery, area, index);
        let frequency = frequency_column(artery);
        let outbound = band_column(artery, Dir::Outbound);
        let inbound = band_column(artery, Dir::Inbound);
        match *self {
            ArteryFamily::WaitRow(dir) => {
                let wait = wait_column(artery, dir, index);
                fill_cells(&[(band_column(artery, dir), one), (wait, one)], bound, into);
            }
            ArteryFamily::FastRow(dir) => {
                let run = run_column(artery, dir, index);
                let low = artery.run_low(dir, index);
                fill_cells(&[(frequency, low), (run, less)], bound, into);
            }
            ArteryFamily::SlowRow(dir) => {
                let run = run_column(artery, dir, index);
                let high = artery.run_high(dir, index);
                fill_cells(&[(frequency, high.neg()), (run, one)], bound, into);
            }
            ArteryFamily::RiseRow(dir) => {
                if let Some(limits) = artery.change(dir, index) {
                    let next = next_of(artery, index);
                    let cells = [
                        (frequency, limits.most.neg()),
                        (
                            run_column(artery, dir, index),
                            one_over(artery, dir, index).neg(),
                        ),
                        (run_column(artery, dir, next), one_over(artery, dir, next)),
                    ];
                    fill_cells(&cells, bound, into);
                }
            }
            ArteryFamily::DropRow(dir) => {
                if let Some(limits) = artery.change(dir, index) {
                    let next = next_of(artery, index);
                    let cells = [
                        (frequency, limits.least),
                        (run_column(artery, dir, index), one_over(artery, dir, index)),
                        (
                            run_column(artery, dir, next),
                            one_over(artery, dir, next).neg(),
                        ),
                    ];
                    fill_cells(&cells, bound, into);
                }
            }
            ArteryFamily::CycleLowRow => fill_cells(&[(frequency, less)], bound, into),
            ArteryFamily::CycleHighRow => fill_cells(&[(frequency, one)], bound, into),
            ArteryFamily::RatioRow => {
                let ratio = artery.ratio();
                if ratio < one {
                    fill_cells(&[(outbound, ratio), (inbound, less)], bound, into);
                } else {
                    fill_cells(&[(outbound, ratio.neg()), (inbound, one)], bound, into);
                }
            }
            ArteryFamily::LoopLowRow => fill_block(artery, index, less, one, bound, into),
            ArteryFamily::LoopHighRow => fill_block(artery, index, one, less, bound, into),
            ArteryFamily::TurnLowRow => {
                fill_cells(&[(shift_column(artery, index), less)], bound, into);
            }
            ArteryFamily::TurnHighRow => {
                fill_cells(&[(shift_column(artery, index), one)], bound, into);
            }
            ArteryFamily::LeastRow(dir) => {
                fill_cells(&[(band_column(artery, dir), less)], bound, into);
            }
            ArteryFamily::EqualLowRow => {
                fill_cells(&[(outbound, one), (inbound, less)], bound, into);
            }
            ArteryFamily::EqualHighRow => {
                fill_cells(&[(outbound, less), (inbound, one)], bound, into);
            }
        }
    }

    ghost unspent = { λ f a box i. written_unspent a (form_of a box (row_in f i)) };

    ghost law = { λ f a box i x e h. at_written a box x (form_of a box (row_in f i)) h (λ t c. row_law a box t c (row_in f i) e) };
}
