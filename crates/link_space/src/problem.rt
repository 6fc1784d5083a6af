//! The problem of the link timings of one artery.

ghost use Rattle.progression.specs.Street.{count};
ghost use Rattle.link_theory.specs.{LinkColumns.{link_width}, LinkCounts.{IsGoodLinkPoint}};

use loop_rows::Problem;

/// A band for each link in each direction. As a problem, its points are those of good link timings with block sums and shift ranks in
/// the box.
#[derive(Drop)]
pub struct LinkBands;

impl Problem for LinkBands {
    ghost columns = { λ a. link_width (count a) };

    ghost counts = { IsGoodLinkPoint };
}
