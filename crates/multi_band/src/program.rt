//! The link timings of an artery as what is sought: each box begins from its own opening, and keeps nothing for its parts.

ghost use Rattle.std.specs.Prelude.{◌≡◌};
ghost use Rattle.linear_theory.specs.Boxes.{IsBoxOf};
ghost use Rattle.link_proof.specs.LinkWarrants.{IsLinkCertificate};
ghost use Rattle.box_search.specs.Certified.{warrant_from};

use crate::building::{SpareRows, make_spare, make_unloaded_links, reset_links};
use crate::copying::copied_links;
use crate::recovery::recover_links;
use crate::starting::start_link_leaf;
use artery_model::Artery;
use box_search::{Read, Room, SitePart, Sought, Summed, known_searchable};
use certificate_model::{CertNode, Claim};
use fraction_tableau::Tableau;
use link_proof::{LinkCertificate, law_link_accepted_or_refused, link_check};
use link_space::{LinkTiming, link_sum, link_value};
use loop_rows::SumFault;
use named_row::{Leaf, Place, Point};
use narrow_fraction::{Frac, Memory};
use offset_recovery::{RecoverFault, Recovered};
use search_box::SearchBox;
use std::alloc::Global;

/// An artery, whose link timings are sought.
#[derive(Drop)]
pub struct ArteryLinks<'a> {
    pub artery: &'a Artery,
}

impl<'a> Sought for ArteryLinks<'a> {
    ghost use Rattle.multi_band.specs.{LinkKind.{link_bands}, LinkOpening.{AreSpareRows}, LinkProgram.{link_program}};
    ghost use Rattle.multi_band.specs.LinkRules.{link_meaning};

    type Timing = LinkTiming;

    type Kept = ();

    type Spare = SpareRows;

    type Certificate = LinkCertificate;

    ghost program = { λ links. link_program links.artery.now };

    ghost meaning = { λ links. link_meaning links.artery.now };

    ghost kind = { λ links. link_bands links.artery.now };

    ghost IsFor = { λ links. IsBoxOf links.artery.now };

    ghost IsSpare = { λ links. AreSpareRows links.artery.now };

    ghost warrant = { λ certificate. certificate };

    fn known_program(&self) {
        // its contract says that the artery is valid
        self.artery.known_valid();
        known_searchable(self.artery);
    }

    fn root(&self, alloc: Global) -> Result<SearchBox, Memory> {
        SearchBox::root(alloc, self.artery)
    }

    fn start_leaf(&self, alloc: Global) -> Result<(Leaf, Frac), Memory> {
        // its contract says that the artery is valid
        self.artery.known_valid();
        let start = start_link_leaf(alloc, self.artery)?;
        Ok(start)
    }

    fn make_room(&self, alloc: Global) -> Result<Room<SpareRows>, Memory> {
        let artery = self.artery;
        let tableau = make_unloaded_links(alloc, artery)?;
        let spare = make_spare(alloc, artery)?;
        Ok(Room { tableau, spare })
    }

    fn begin_root(&self, tableau: &mut Tableau, spare: &mut SpareRows, area: &SearchBox) {
        // its contract says that the root box is one of the artery's
        known_searchable(self.artery);
        reset_links(tableau, self.artery, area, spare);
    }

    fn begin_part(
        &self,
        _alloc: Global,
        tableau: &mut Tableau,
        spare: &mut SpareRows,
        _kept: &(),
        area: &SearchBox,
    ) -> Result<(), Memory> {
        reset_links(tableau, self.artery, area, spare);
        Ok(())
    }

    fn sum(&self, alloc: Global, area: &SearchBox, leaf: &Leaf) -> Result<Summed, Memory> {
        // its contract says that the artery is valid
        self.artery.known_valid();
        match link_sum(alloc, self.artery, area, leaf) {
            Ok(sum) => Ok(Summed::Bound(sum.get(Place::Bound))),
            Err(SumFault::Wide { row, at }) => Ok(Summed::Wide { row, at }),
            Err(SumFault::Memory) => Err(Memory),
            Err(SumFault::NoSuchRow { .. }) => unreachable!(),
            Err(SumFault::Negative { .. }) => unreachable!(),
        }
    }

    fn read(
        &self,
        alloc: Global,
        area: &SearchBox,
        point: &Point,
    ) -> Result<Read<LinkTiming>, Memory> {
        // its contract says that the artery is valid
        self.artery.known_valid();
        match recover_links(alloc, self.artery, area, point) {
            Ok(Recovered::Timing(timing)) => Ok(Read::Timing(timing)),
            Ok(Recovered::SplitAt(place)) => Ok(Read::SplitAt(place)),
            Err(RecoverFault::Wide(wide)) => Ok(Read::Wide(SitePart::Timing(wide))),
            Err(RecoverFault::Memory) => Err(Memory),
        }
    }

    fn keep(&self, _alloc: Global, _tableau: &Tableau) -> Result<(), Memory> {
        Ok(())
    }

    fn worth(&self, timing: &LinkTiming) -> Frac {
        link_value(self.artery, timing)
    }

    fn copied(&self, alloc: Global, timing: &LinkTiming) -> Result<LinkTiming, Memory> {
        copied_links(alloc, timing)
    }

    fn certificate(
        &self,
        claim: Claim,
        timing: Option<LinkTiming>,
        nodes: Vec<CertNode>,
    ) -> LinkCertificate
        requires { IsLinkCertificate (warrant_from claim timing nodes.items) }
        ensures { result ≡ warrant_from claim timing nodes.items }
    {
        LinkCertificate {
            claim,
            timing,
            nodes,
        }
    }

    fn confirm(&self, alloc: Global, certificate: &LinkCertificate) -> Result<(), Memory> {
        match link_check(alloc, self.artery, certificate) {
            Ok(()) => Ok(()),
            Err(reject) => {
                if !reject.is_memory() {
                    law_link_accepted_or_refused();
                    unreachable!()
                }
                Err(Memory)
            }
        }
    }
}
