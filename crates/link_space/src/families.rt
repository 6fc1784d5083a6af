//! The families of rows that links have beside those of the lines: which number each has, where its rows stand, and what they are.

ghost use Rattle.link_theory.specs.LinkNames.{HasLinkRow};
ghost use Rattle.link_space.specs.{LinkFamilies.{number_of, row_in}, LinkSheets.{link_sheet}};
ghost use Rattle.link_space.specs.laws.LinkSheets.{link_sheet_unspent, link_sheet_met};

use crate::columns::{half_column, signal_at};
use crate::family_numbers as numbers;
use crate::problem::LinkBands;
use artery_model::{Artery, Dir};
use link_theory::LinkEnd;
use loop_rows::{Family, fill_cells, green, wait_column};
use named_row::Row;
use narrow_fraction::Frac;
use search_box::SearchBox;

/// A family of the rows of links, by the name that it has in `link_theory`. Each of its rows says:
#[derive(Clone, Copy)]
pub enum LinkFamily {
    /// A link's half is at most the wait at an end.
    NearRow(Dir, LinkEnd),
    /// The wait at an end of a link and the half fit into the green there.
    FarRow(Dir, LinkEnd),
    /// The halves of a link keep the ratio.
    LinkRatioRow,
}

impl Family for LinkFamily {
    type Of = LinkBands;

    ghost family = { number_of };

    ghost exists = { λ f a i. HasLinkRow a (row_in f i) };

    ghost sheet = { λ f a box i. link_sheet a box (row_in f i) };

    fn number(&self) -> u8 {
        match *self {
            LinkFamily::NearRow(Dir::Outbound, LinkEnd::Here) => numbers::NEAR_OUT_HERE,
            LinkFamily::NearRow(Dir::Outbound, LinkEnd::Next) => numbers::NEAR_OUT_NEXT,
            LinkFamily::FarRow(Dir::Outbound, LinkEnd::Here) => numbers::FAR_OUT_HERE,
            LinkFamily::FarRow(Dir::Outbound, LinkEnd::Next) => numbers::FAR_OUT_NEXT,
            LinkFamily::NearRow(Dir::Inbound, LinkEnd::Here) => numbers::NEAR_IN_HERE,
            LinkFamily::NearRow(Dir::Inbound, LinkEnd::Next) => numbers::NEAR_IN_NEXT,
            LinkFamily::FarRow(Dir::Inbound, LinkEnd::Here) => numbers::FAR_IN_HERE,
            LinkFamily::FarRow(Dir::Inbound, LinkEnd::Next) => numbers::FAR_IN_NEXT,
            LinkFamily::LinkRatioRow => numbers::LINK_RATIO,
        }
    }

    #[tactic(auto, using(rational_theory::proofs::Compare::ne_true, rational_theory::proofs::Compare::ne_false))]
    fn has(&self, artery: &Artery, index: u32) -> bool {
        match *self {
            LinkFamily::NearRow(..) | LinkFamily::FarRow(..) => {
                1 <= index && index < artery.count()
            }
            LinkFamily::LinkRatioRow => {
                1 <= index && index < artery.count() && artery.ratio() != Frac::whole(1)
            }
        }
    }

    fn fill(&self, artery: &Artery, area: &SearchBox, index: u32, into: &mut Row) {
        prove!(2 <= artery.count());
        let one = Frac::whole(1);
        let less = Frac::whole(-1);
        let zero = Frac::whole(0);
        match *self {
            LinkFamily::NearRow(dir, end) => {
                let wait = wait_column(artery, dir, signal_at(artery, end, index));
                let half = half_column(artery, dir, index);
                fill_cells(&[(wait, less), (half, one)], zero, into);
            }
            LinkFamily::FarRow(dir, end) => {
                let signal = signal_at(artery, end, index);
                let wait = wait_column(artery, dir, signal);
                let half = half_column(artery, dir, index);
                let green = green(artery, dir, signal);
                fill_cells(&[(wait, one), (half, one)], green, into);
            }
            LinkFamily::LinkRatioRow => {
                let ratio = artery.ratio();
                let outbound = half_column(artery, Dir::Outbound, index);
                let inbound = half_column(artery, Dir::Inbound, index);
                if ratio < one {
                    fill_cells(&[(outbound, ratio), (inbound, less)], zero, into);
                } else {
                    fill_cells(&[(outbound, ratio.neg()), (inbound, one)], zero, into);
                }
            }
        }
    }

    ghost unspent = { λ f a box i. link_sheet_unspent a box (row_in f i) };

    ghost law = { λ f a box i x e h. link_sheet_met a box x (row_in f i) h e };
}
