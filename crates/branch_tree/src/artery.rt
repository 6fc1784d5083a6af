//! The timings of an artery, with one band a direction, as what is sought: the root begins from its opening tableau, and each part from
//! the basic variables that its parent ended with.

ghost use Rattle.std.specs.Prelude.{◌≡◌};
ghost use Rattle.linear_theory.specs.Boxes.{IsBoxOf};
ghost use Rattle.certificate_model.specs.Warrants.{IsCertificate};
ghost use Rattle.box_search.specs.Certified.{warrant_from};

use crate::copying::copied_timing;
use crate::kept::KeptBasis;
use crate::starting::start_leaf;
use artery_model::Artery;
use box_search::{Read, Room, SitePart, Sought, Summed, known_searchable};
use certificate_checker::{check, law_accepted_or_refused};
use certificate_model::{CertNode, Certificate, Claim};
use fraction_tableau::Tableau;
use loop_rows::{SumFault, column_count, leaf_sum};
use named_row::{Leaf, Place, Point, Row};
use narrow_fraction::{Frac, Memory};
use offset_recovery::{RecoverFault, Recovered, recover};
use program_builder::{EntryMemory, enter_remembering, make_loaded, make_unloaded, reset_from};
use search_box::SearchBox;
use std::alloc::Global;
use time_space::{Timing, value};

/// A tableau in which the rows of an artery stay as they are loaded, and the entry of one part, which serves the other part of its
/// split.
#[derive(Drop)]
pub struct LoadedRows {
    pub loaded: Tableau,
    pub memory: EntryMemory,
}

/// An artery, whose timings are sought.
#[derive(Drop)]
pub struct WholeBands<'a> {
    pub artery: &'a Artery,
}

impl<'a> Sought for WholeBands<'a> {
    ghost use Rattle.branch_tree.specs.{ArteryProgram.{program_of}, ArteryRules.{meaning_of}, Rooms.{AreLoadedRows}};
    ghost use Rattle.branch_tree.specs.WholeBands.{whole_bands};

    type Timing = Timing;

    type Kept = KeptBasis;

    type Spare = LoadedRows;

    type Certificate = Certificate;

    ghost program = { λ bands. program_of bands.artery.now };

    ghost meaning = { λ bands. meaning_of bands.artery.now };

    ghost kind = { λ bands. whole_bands bands.artery.now };

    ghost IsFor = { λ bands. IsBoxOf bands.artery.now };

    ghost IsSpare = { λ bands. AreLoadedRows bands.artery.now };

    ghost warrant = { λ certificate. certificate };

    fn known_program(&self) {
        // its contract says that the artery is valid
        self.artery.known_valid();
        known_searchable(self.artery);
    }

    fn root(&self, alloc: Global) -> Result<SearchBox, Memory> {
        SearchBox::root(alloc, self.artery)
    }

    fn start_leaf(&self, alloc: Global) -> Result<(Leaf, Frac), Memory> {
        start_leaf(alloc, self.artery)
    }

    fn make_room(&self, alloc: Global) -> Result<Room<LoadedRows>, Memory> {
        // its contract says that the artery is valid
        self.artery.known_valid();
        // its contract says that the root box is one of the artery's
        let area = SearchBox::root(alloc, self.artery)?;
        let artery = self.artery;
        let tableau = make_unloaded(alloc, artery)?;
        let mut row = Row::zero(alloc, column_count(artery))?;
        let loaded = make_loaded(alloc, artery, &area, &mut row)?;
        let memory = EntryMemory::new(alloc, artery)?;
        let spare = LoadedRows { loaded, memory };
        Ok(Room { tableau, spare })
    }

    fn begin_root(&self, tableau: &mut Tableau, spare: &mut LoadedRows, area: &SearchBox) {
        // its contract says that the root box is one of the artery's
        known_searchable(self.artery);
        reset_from(tableau, &spare.loaded, self.artery, area);
    }

    fn begin_part(
        &self,
        alloc: Global,
        tableau: &mut Tableau,
        spare: &mut LoadedRows,
        kept: &KeptBasis,
        area: &SearchBox,
    ) -> Result<(), Memory> {
        // its contract says that the artery is valid
        self.artery.known_valid();
        let basis = kept.basis.as_slice();
        // false says that an operation left 128 bits, and then it is the opening tableau
        let _entered = enter_remembering(
            tableau,
            &spare.loaded,
            self.artery,
            area,
            basis,
            &mut spare.memory,
        )?;
        Ok(())
    }

    fn sum(&self, alloc: Global, area: &SearchBox, leaf: &Leaf) -> Result<Summed, Memory> {
        // its contract says that the artery is valid
        self.artery.known_valid();
        match leaf_sum(alloc, self.artery, area, leaf) {
            Ok(sum) => Ok(Summed::Bound(sum.get(Place::Bound))),
            Err(SumFault::Wide { row, at }) => Ok(Summed::Wide { row, at }),
            Err(SumFault::Memory) => Err(Memory),
            Err(SumFault::NoSuchRow { .. }) => unreachable!(),
            Err(SumFault::Negative { .. }) => unreachable!(),
        }
    }

    fn read(&self, alloc: Global, area: &SearchBox, point: &Point) -> Result<Read<Timing>, Memory> {
        // its contract says that the artery is valid
        self.artery.known_valid();
        match recover(alloc, self.artery, area, point) {
            Ok(Recovered::Timing(timing)) => Ok(Read::Timing(timing)),
            Ok(Recovered::SplitAt(place)) => Ok(Read::SplitAt(place)),
            Err(RecoverFault::Wide(wide)) => Ok(Read::Wide(SitePart::Timing(wide))),
            Err(RecoverFault::Memory) => Err(Memory),
        }
    }

    fn keep(&self, alloc: Global, tableau: &Tableau) -> Result<KeptBasis, Memory> {
        let basis = tableau.basis(alloc)?;
        Ok(KeptBasis { basis })
    }

    fn worth(&self, timing: &Timing) -> Frac {
        value(self.artery, timing)
    }

    fn copied(&self, alloc: Global, timing: &Timing) -> Result<Timing, Memory> {
        copied_timing(alloc, timing)
    }

    fn certificate(&self, claim: Claim, timing: Option<Timing>, nodes: Vec<CertNode>) -> Certificate
        requires { IsCertificate (warrant_from claim timing nodes.items) }
        ensures { result ≡ warrant_from claim timing nodes.items }
    {
        Certificate {
            claim,
            timing,
            nodes,
        }
    }

    fn confirm(&self, alloc: Global, certificate: &Certificate) -> Result<(), Memory> {
        match check(alloc, self.artery, certificate) {
            Ok(()) => Ok(()),
            Err(reject) => {
                if !reject.is_memory() {
                    law_accepted_or_refused();
                    unreachable!()
                }
                Err(Memory)
            }
        }
    }
}
