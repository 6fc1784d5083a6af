//! The check of a whole link certificate.

ghost use Rattle.std.specs.Prelude.{IfErr, OnOk};
ghost use Rattle.link_proof.specs.{LinkAccepted.{IsLinkAccepted}, LinkRefusals.{IsFirstLinkRefusal}, LinkClaims.{LinkClaimHolds}};
ghost use Rattle.link_proof.specs.LinkLaws.{LinkAcceptedExactly, LinkRefusedIsNotAccepted, OneFirstLinkRefusal};

use crate::certificate::LinkCertificate;
use artery_model::Artery;
use certificate_checker::{CheckedKind, Reject, check_parts};
use link_space::{
    LinkFailing, LinkTiming, fill_link_goal, law_link_fails_rules_out, law_one_first_link,
    link_column_count, link_holds, link_sum, link_value,
};
use loop_rows::SumFault;
use named_row::{Leaf, Row};
use narrow_fraction::{Frac, Memory};
use search_box::SearchBox;
use std::alloc::Global;

/// Why a link certificate is not accepted.
pub type LinkReject = Reject<LinkFailing>;

/// The link timings of an artery, and the rows of the links of its boxes.
#[derive(Drop)]
struct LinkTreeRows<'a> {
    artery: &'a Artery,
}

impl<'a> CheckedKind for LinkTreeRows<'a> {
    ghost use Rattle.linear_theory.specs.Boxes.{IsBoxOf};
    ghost use Rattle.search_box.proofs.Parts.{parts_boxed};
    ghost use Rattle.link_proof.specs.LinkAccepted.{of_links};

    type Timing = LinkTiming;

    type Failing = LinkFailing;

    ghost kind = { λ source. of_links source.artery.now };

    ghost Ready = { λ source. IsBoxOf source.artery.now };

    ghost parts = { λ source box at. parts_boxed source.artery.now box at };

    fn holds(&self, timing: &LinkTiming) -> Result<(), LinkFailing> {
        link_holds(self.artery, timing)
    }

    fn worth(&self, timing: &LinkTiming) -> Frac {
        link_value(self.artery, timing)
    }

    fn goal(&self, alloc: Global) -> Result<Row, Memory> {
        let mut row = Row::zero(alloc, link_column_count(self.artery))?;
        fill_link_goal(self.artery, &mut row);
        Ok(row)
    }

    fn root(&self, alloc: Global) -> Result<SearchBox, Memory> {
        SearchBox::root(alloc, self.artery)
    }

    fn sum(&self, alloc: Global, area: &SearchBox, leaf: &Leaf) -> Result<Row, SumFault> {
        link_sum(alloc, self.artery, area, leaf)
    }
}

/// Checks a link certificate for an artery. Ok comes exactly for the accepted ones; then what is claimed holds of every link
/// timing, on any grid.
///
/// The refusals are looked for in this order: the link timing, its value, the bound, and then the nodes in their order. Want
/// of memory may come in place of any answer.
pub fn link_check(
    alloc: Global,
    artery: &Artery,
    certificate: &LinkCertificate,
) -> Result<(), LinkReject>
    ensures accepted { OnOk result (IsLinkAccepted artery.now certificate.now) }
    ensures holds { OnOk result (LinkClaimHolds artery.now certificate.now.claim certificate.now.timing) }
    ensures first { IfErr result (λ reject. IsFirstLinkRefusal artery.now certificate.now reject) }
{
    // what is claimed holds of a street
    artery.known_valid();
    let nodes = certificate.nodes.as_slice();
    check_parts(
        alloc,
        &LinkTreeRows { artery },
        &certificate.claim,
        &certificate.timing,
        nodes,
    )
}

/// A link certificate is accepted exactly where nothing of it is refused; one refusal at most is the first.
pub fn law_link_accepted_or_refused()
    ensures accepted { LinkAcceptedExactly }
    ensures refused { LinkRefusedIsNotAccepted }
    ensures once { OneFirstLinkRefusal }
{
    law_link_fails_rules_out();
    law_one_first_link();
}
