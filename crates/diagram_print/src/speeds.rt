//! The lines of a timing's links.

ghost use Rattle.std.specs.Prelude.{◌≡◌, ◌++◌, OnOk};
ghost use Rattle.progression.specs.{Street.{count, HasLink}, Good.{IsBase}};
ghost use Rattle.diagram_print.specs.Speeds.{link_name, speed_line, speed_lines, link_lines};

use crate::measures::{dir_name, push_measure_line};
use artery_model::{Artery, Dir};
use narrow_fraction::Memory;
use quantity_text::{push_number, push_text};
use time_space::Base;
use timing_measures::link_speed;

/// Writes what stands before a measure of a direction on a link, with these words between the link's number and the direction.
pub fn push_link_name(out: &mut Vec<u8>, link: u32, between: &str, dir: Dir) -> Result<(), Memory>
    ensures { OnOk result (out.new.items ≡ out.old.items ++ link_name between.now dir link) }
{
    push_text(out, "link ")?;
    push_number(out, link as u128)?;
    push_text(out, between)?;
    push_text(out, dir_name(dir))
}

/// Writes the line of a direction's speed on a link, in the description's units.
fn push_speed_line(
    out: &mut Vec<u8>,
    artery: &Artery,
    base: &Base,
    dir: Dir,
    link: u32,
) -> Result<(), Memory>
    requires base { IsBase artery.now base.now }
    requires link { HasLink artery.now link }
    ensures { OnOk result (out.new.items ≡ out.old.items ++ speed_line artery.now base.now dir link) }
{
    push_link_name(out, link, " ", dir)?;
    push_measure_line(out, link_speed(artery, base, dir, link), 3)
}

/// Writes the lines of both speeds on a link.
fn push_speed_lines(
    out: &mut Vec<u8>,
    artery: &Artery,
    base: &Base,
    link: u32,
) -> Result<(), Memory>
    requires base { IsBase artery.now base.now }
    requires link { HasLink artery.now link }
    ensures { OnOk result (out.new.items ≡ out.old.items ++ speed_lines artery.now base.now link) }
{
    push_speed_line(out, artery, base, Dir::Outbound, link)?;
    push_speed_line(out, artery, base, Dir::Inbound, link)
}

/// Writes the lines of the links, as `link_lines` has them.
pub fn push_link_lines(out: &mut Vec<u8>, artery: &Artery, base: &Base) -> Result<(), Memory>
    requires { IsBase artery.now base.now }
    ensures { OnOk result (out.new.items ≡ out.old.items ++ link_lines artery.now base.now) }
{
    for link in 1..artery.count() {
        push_speed_lines(out, artery, base, link)?;
    }
    Ok(())
}
