//! The columns of the rows of links.

ghost use Rattle.std.specs.Prelude.{◌≡◌, ◌<◌, ◌≤◌};
ghost use Rattle.progression.specs.Street.{count, HasLink};
ghost use Rattle.link_theory.specs.{LinkColumns.{link_width, half_place}, LinkRows.{signal_at}};

use artery_model::{Artery, Dir};
use link_theory::LinkEnd;

/// How many columns the rows of links have.
pub fn link_column_count(artery: &Artery) -> u32
    ensures { result ≡ link_width (count artery.now) }
{
    prove!(2 <= artery.count());
    7 * artery.count() - 1
}

/// The column of a direction's half on a link.
pub fn half_column(artery: &Artery, dir: Dir, link: u32) -> u32
    requires link { HasLink artery.now link }
    ensures value { result ≡ half_place (count artery.now) dir link }
    ensures inside { result < link_width (count artery.now) }
{
    let count = artery.count();
    prove!(2 <= count);
    match dir {
        Dir::Outbound => 5 * count + link,
        Dir::Inbound => 6 * count - 1 + link,
    }
}

/// The signal at an end of a link.
pub fn signal_at(artery: &Artery, end: LinkEnd, link: u32) -> u32
    requires link { HasLink artery.now link }
    ensures value { result ≡ signal_at end link }
    ensures least { 1 ≤ result }
    ensures most { result ≤ count artery.now }
{
    let last = artery.count();
    prove!(link < last);
    match end {
        LinkEnd::Here => link,
        LinkEnd::Next => link + 1,
    }
}
