//! What a search asks of a kind of timing that is sought.

ghost use Rattle.std.specs.Prelude.{◌≡◌, IfOk, OnOk};
ghost use Rattle.linear_theory.specs.Boxes.{Area};
ghost use Rattle.simplex_theory.specs.{BlandRule.{optimal}, DualSteps.{IsPlaced}};
ghost use Rattle.search_box.specs.declared.span.At.{At};
ghost use Rattle.program_builder.specs.Loading.{HasRoomFor};
ghost use Rattle.certificate_model.specs.Warrants.{WarrantWith, IsCertificateIn};
ghost use Rattle.branch_and_bound.specs.{Lines.{BoxLine, top_line}, OpenedNodes.{IsPart}};
ghost use Rattle.box_search.specs.{declared.site.SitePart.{SitePart}, Program.{Program}, Meaning.{Meaning, EndsProve, rules_from}};
ghost use Rattle.box_search.specs.{Ends.{end_leaf, end_move, end_point, named_first}, BoxRuns.{IsSummed, outcome_by, table_of}};
ghost use Rattle.certificate_checker.specs.Claims.{ClaimHoldsBy};
ghost use Rattle.box_search.specs.{Certified.{warrant_from}, Kinds.{Kind, CanBeSought}, Rooms.{IsRoomFor}};

use crate::program::{Read, Summed};
use crate::room::Room;
use certificate_model::{CertNode, Claim};
use fraction_tableau::Tableau;
use named_row::{Leaf, Point};
use narrow_fraction::{Frac, Memory};
use search_box::SearchBox;
use std::alloc::Global;

/// A kind of timing that is sought, as a program over boxes: what its boxes begin from, how the leaf of an end is summed over its rows,
/// what a vertex is, and what an end keeps for its parts; and the certificates of what is found. Each error is want of memory.
pub trait Sought: Drop {
    /// A timing.
    type Timing: Drop;
    /// What a split box keeps of its end for its parts.
    type Kept: Drop;
    /// What boxes are begun with, besides their tableau.
    type Spare: Drop;
    /// A certificate of what is found.
    type Certificate: Drop;

    /// The program.
    ghost program: { Self → Program Self.Timing SitePart };

    /// What it means to a search.
    ghost meaning: { (s : Self) → Meaning Self.Kept (program s) };

    /// What is good, and what certificates prove.
    ghost kind: { (s : Self) → Kind (rules_from (program s) (meaning s)) };

    /// The boxes that it has.
    ghost IsFor: { Self → Area → Type 0 };

    /// Whether boxes can be begun with it.
    ghost IsSpare: { Self → Self.Spare → Type 0 };

    /// A certificate as a claim, a timing and nodes.
    ghost warrant: { Self.Certificate → WarrantWith Self.Timing };

    /// Says what is known of it: its program is sound, its boxes can be searched, its ends prove what a search wants of them, and its
    /// timings are what is sought.
    fn known_program(&self)
        ensures sound { (program self.now).IsSound }
        ensures searchable { (meaning self.now).IsSound }
        ensures ends { EndsProve (program self.now) (meaning self.now) (IsFor self.now) }
        ensures sought { CanBeSought (kind self.now) };

    /// The box at the top.
    fn root(&self, alloc: Global) -> Result<SearchBox, Memory>
        ensures { IfOk result (λ area. area ≡ (meaning self.now).root) };

    /// The leaf that bounds the box at the top before any pivot, with its bound.
    fn start_leaf(&self, alloc: Global) -> Result<(Leaf, Frac), Memory>
        ensures leaf { IfOk result (λ start. (meaning self.now).IsStart start.0) }
        ensures bound { IfOk result (λ start. start.1 ≡ (meaning self.now).start_bound) }
        ensures covers { IfOk result (λ start. (meaning self.now).Covers (meaning self.now).root start.0 start.1) };

    /// Room for its boxes.
    fn make_room(&self, alloc: Global) -> Result<Room<Self::Spare>, Memory>
        ensures { IfOk result (λ room. IsRoomFor (program self.now) (IsSpare self.now) room) };

    /// Makes the tableau that the box at the top begins from.
    fn begin_root(&self, tableau: &mut Tableau, spare: &mut Self::Spare, area: &SearchBox)
        requires made { HasRoomFor (table_of (program self.now)) tableau.old }
        requires spare { IsSpare self.now spare.old }
        requires root { area.now ≡ (meaning self.now).root }
        ensures spare { IsSpare self.now spare.new }
        ensures boxed { IsFor self.now area.now }
        ensures first { tableau.new ≡ named_first (program self.now) (top_line area.now) };

    /// Makes the tableau that a part of a split box begins from, by what the split box kept.
    fn begin_part(
        &self,
        alloc: Global,
        tableau: &mut Tableau,
        spare: &mut Self::Spare,
        kept: &Self::Kept,
        area: &SearchBox,
    ) -> Result<(), Memory>
        requires made { HasRoomFor (table_of (program self.now)) tableau.old }
        requires spare { IsSpare self.now spare.old }
        requires part { (parent line : BoxLine) × (place : At) × IsPart (rules_from (program self.now) (meaning self.now)) parent place line kept.now area.now }
        ensures made { HasRoomFor (table_of (program self.now)) tableau.new }
        ensures spare { IsSpare self.now spare.new }
        ensures boxed { IsFor self.now area.now }
        ensures first { OnOk result ((parent line : BoxLine) (place : At) → IsPart (rules_from (program self.now) (meaning self.now)) parent place line kept.now area.now
            → tableau.new ≡ named_first (program self.now) line) };

    /// The sum of the leaf of a line's end over the rows of the line's box.
    fn sum(&self, alloc: Global, area: &SearchBox, leaf: &Leaf) -> Result<Summed, Memory>
        requires boxed { IsFor self.now area.now }
        requires leaf { (line : BoxLine) × (line.area ≡ area.now) × (leaf.now.multipliers.items ≡ end_leaf (program self.now) line) }
        ensures { IfOk result (λ summed. IsSummed (program self.now) area.now leaf.now.multipliers.items summed) };

    /// What the last vertex of a line is.
    fn read(
        &self,
        alloc: Global,
        area: &SearchBox,
        point: &Point,
    ) -> Result<Read<Self::Timing>, Memory>
        requires boxed { IsFor self.now area.now }
        requires vertex { (line : BoxLine) × (line.area ≡ area.now) × (end_move (program self.now) line ≡ optimal) × (point.now.values.items ≡ end_point (program self.now) line) }
        ensures { IfOk result (λ read. (program self.now).outcome area.now point.now.values.items ≡ outcome_by read) };

    /// What a box that is split keeps of its last tableau for its parts.
    fn keep(&self, alloc: Global, tableau: &Tableau) -> Result<Self::Kept, Memory>
        ensures { IfOk result (λ kept. IsPlaced tableau.now.table → (meaning self.now).Keeps tableau.now.table kept) };

    /// What a timing is worth.
    fn worth(&self, timing: &Self::Timing) -> Frac
        ensures { result ≡ (kind self.now).objective.worth timing.now };

    /// The same timing again.
    fn copied(&self, alloc: Global, timing: &Self::Timing) -> Result<Self::Timing, Memory>
        ensures { IfOk result (λ copy. copy ≡ timing.now) };

    /// The certificate with this claim, this timing and these nodes.
    fn certificate(
        &self,
        claim: Claim,
        timing: Option<Self::Timing>,
        nodes: Vec<CertNode>,
    ) -> Self::Certificate
        requires { IsCertificateIn (kind self.now).names (warrant_from claim timing nodes.items) }
        ensures { warrant result ≡ warrant_from claim timing nodes.items };

    /// Checks a certificate that can't be refused.
    fn confirm(&self, alloc: Global, certificate: &Self::Certificate) -> Result<(), Memory>
        requires { (kind self.now).IsAccepted (warrant certificate.now) }
        ensures { OnOk result (ClaimHoldsBy (kind self.now).objective (warrant certificate.now).claim (warrant certificate.now).timing) };
}
