//! The commands `narrow` and `widen`.

ghost use Rattle.std.specs.Prelude.{◌≡◌, ◌++◌, IfOk, OnOk, refl};
ghost use Rattle.progression.specs.Street.{count, HasLink};
ghost use Rattle.run_inputs.specs.{Puts.{With, bytes_of}, Status.{IsOwnAnswer}};
ghost use Rattle.run_commands.specs.Narrow.{moved_word, stays_line, link_lines, stays_lines, moved_lines, IsMove};
ghost use Rattle.run_commands.specs.Ends.{IsDone};
ghost use Rattle.run_commands.specs.declared.table.Usage.TheVariants as usage;

use crate::command::Command;
use crate::lines::push_number_line;
use crate::settings::Settings;
use artery_model::{Artery, Dir};
use description_reader::print_artery;
use diagram_print::dir_name;
use narrow_fraction::Memory;
use quantity_text::push_text;
use run_inputs::{Cause, Found, push_numbered};
use speed_steps::{Way, limits_changed, stays, street_moved};
use std::alloc::Global;

fn moved_word(way: Way) -> &'static str
    ensures { result.now ≡ moved_word way }
{
    match way {
        Way::Inwards => "narrowed ",
        Way::Outwards => "widened ",
    }
}

/// Writes the line of a direction of which no limit can be moved.
fn push_stays(
    out: &mut Vec<u8>,
    way: Way,
    artery: &Artery,
    dir: Dir,
    link: u32,
) -> Result<(), Memory>
    requires link { HasLink artery.now link }
    ensures { OnOk result (out.new.items ≡ out.old.items ++ stays_line way artery.now dir link) }
{
    if !stays(way, artery, dir, link) {
        return Ok(());
    }
    push_numbered(out, "link ", link as u128)?;
    push_text(out, " ")?;
    push_text(out, dir_name(dir))?;
    push_text(out, " stays\n")
}

/// Writes the lines of both directions of a link.
fn push_link(out: &mut Vec<u8>, way: Way, artery: &Artery, link: u32) -> Result<(), Memory>
    requires link { HasLink artery.now link }
    ensures { OnOk result (out.new.items ≡ out.old.items ++ link_lines way artery.now link) }
{
    push_stays(out, way, artery, Dir::Outbound, link)?;
    push_stays(out, way, artery, Dir::Inbound, link)
}

/// Writes the lines of the links, from the first on.
#[tactic(auto, using(crate::proofs::Pushed::pushed_next))]
fn push_links(out: &mut Vec<u8>, way: Way, artery: &Artery) -> Result<(), Memory>
    ensures { OnOk result (out.new.items ≡ out.old.items ++ stays_lines way artery.now) }
{
    for link in 1..artery.count() {
        push_link(out, way, artery, link)?;
    }
    Ok(())
}

/// Writes how many limits the move changes, and which directions stay.
fn push_moved(out: &mut Vec<u8>, way: Way, artery: &Artery) -> Result<(), Memory>
    ensures { OnOk result (out.new.items ≡ out.old.items ++ moved_lines way artery.now) }
{
    let changed = limits_changed(way, artery);
    push_number_line(out, moved_word(way), changed as u128)?;
    push_links(out, way, artery)
}

fn moved_lines(alloc: Global, way: Way, artery: &Artery) -> Result<Vec<u8>, Memory>
    ensures { IfOk result (λ lines. lines.items ≡ moved_lines way artery.now) }
{
    let mut lines = Vec::new(alloc);
    push_moved(&mut lines, way, artery)?;
    Ok(lines)
}

/// The canonical description of the street with its limits of speed moved is put.
fn move_limits(alloc: Global, way: Way, artery: &Artery) -> Result<Found, Memory>
    ensures finds { IfOk result (λ a. With (IsMove way artery.now a.cause a.lines.items) (bytes_of a)) }
    ensures ends { IfOk result (λ a. IsDone a.cause) }
    ensures answer { IfOk result (λ a. IsOwnAnswer a.cause (bytes_of a)) }
{
    artery.known_valid();
    let moved = street_moved(alloc, way, artery)?;
    let bytes = print_artery(alloc, &moved)?;
    let lines = moved_lines(alloc, way, artery)?;
    Ok(Found {
        cause: Cause::Done,
        lines,
        bytes: Some(bytes),
    })
}

/// The command `narrow`.
pub struct Narrow;

impl Command for Narrow {
    type Reads = (Artery, ());

    ghost usage = { usage.Narrow };

    fn find(alloc: Global, read: &(Artery, ()), _settings: &Settings<'_>) -> Result<Found, Memory> {
        let (artery, ()) = read;
        move_limits(alloc, Way::Inwards, artery)
    }

    ghost same = { refl };
}

/// The command `widen`.
pub struct Widen;

impl Command for Widen {
    type Reads = (Artery, ());

    ghost usage = { usage.Widen };

    fn find(alloc: Global, read: &(Artery, ()), _settings: &Settings<'_>) -> Result<Found, Memory> {
        let (artery, ()) = read;
        move_limits(alloc, Way::Outwards, artery)
    }

    ghost same = { refl };
}
