//! The street with its limits moved.

ghost use Rattle.std.specs.Prelude.{◌≡◌, ◌≤◌, All, IfOk, map};
ghost use Rattle.progression.specs.Street.{count, HasLink};
ghost use Rattle.artery_model.specs.Valid.{IsLink};
ghost use Rattle.speed_steps.specs.Moved.{link_moved, street_moved, stays, link_changes, limits_changed};

use crate::limits::{changes, limits_moved, moved};
use crate::way::Way;
use artery_model::{Artery, Dir, Link, Units};
use artery_parts::{artery_of, copied_head, copied_signals};
use narrow_fraction::{Memory, push};
use std::alloc::Global;

fn link_moved(way: Way, units: Units, link: &Link) -> Link
    requires { IsLink link.now }
    ensures { result ≡ link_moved way units link.now }
{
    Link {
        distance_out: link.distance_out,
        distance_in: link.distance_in,
        speed_out: moved(way, units, link.distance_out, &link.speed_out),
        speed_in: moved(way, units, link.distance_in, &link.speed_in),
        change_out: link.change_out,
        change_in: link.change_in,
    }
}

fn links_moved(alloc: Global, way: Way, units: Units, links: &[Link]) -> Result<Vec<Link>, Memory>
    requires { All IsLink links.now }
    ensures { IfOk result (λ v. v.items ≡ map (link_moved way units) links.now) }
{
    let mut all = Vec::new(alloc);
    for link in links {
        push(&mut all, link_moved(way, units, link))?;
    }
    Ok(all)
}

/// The street with both limits of each run moved to a multiple of a step where they can be.
pub fn street_moved(alloc: Global, way: Way, artery: &Artery) -> Result<Artery, Memory>
    ensures { IfOk result (λ a. a ≡ street_moved way artery.now) }
{
    artery.known_valid();
    let head = copied_head(alloc, artery.head())?;
    let signals = copied_signals(alloc, artery.signals())?;
    let links = links_moved(alloc, way, artery.head().units, artery.links())?;
    artery_of(alloc, head, signals, links)
}

/// Whether none of a direction's limits can be moved.
pub fn stays(way: Way, artery: &Artery, dir: Dir, link: u32) -> bool
    requires link { HasLink artery.now link }
    ensures { result ≡ stays way artery.now dir link }
{
    artery.known_valid();
    let units = artery.head().units;
    let found = &artery.links()[link as usize - 1];
    let speed = match dir {
        Dir::Outbound => &found.speed_out,
        Dir::Inbound => &found.speed_in,
    };
    limits_moved(way, units, artery.distance(dir, link), speed).is_none()
}

fn link_changes(way: Way, units: Units, link: &Link) -> u32
    requires { IsLink link.now }
    ensures value { result ≡ link_changes way units link.now }
    ensures most { result ≤ 4 }
{
    let out = moved(way, units, link.distance_out, &link.speed_out);
    let back = moved(way, units, link.distance_in, &link.speed_in);
    changes(&link.speed_out, &out) + changes(&link.speed_in, &back)
}

/// How many limits of a street the move changes.
pub fn limits_changed(way: Way, artery: &Artery) -> u32
    ensures { result ≡ limits_changed way artery.now }
{
    artery.known_valid();
    let units = artery.head().units;
    let mut count = 0;
    for link in artery.links() {
        count += link_changes(way, units, link);
    }
    count
}
