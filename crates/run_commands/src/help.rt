//! The commands `--help` and `--version`.

ghost use Rattle.std.specs.Prelude.{◌≡◌, ◌++◌, IfOk, OnOk, flat_map, refl};
ghost use Rattle.run_inputs.specs.{Puts.{bytes_of}, Status.{IsOwnAnswer}};
ghost use Rattle.run_commands.specs.{Help.{version_text, help_text, help_lines, HelpFinds, VersionFinds}, Table.{line_of, lines_of}};
ghost use Rattle.run_commands.specs.declared.table.TheConstants.{USAGES};
ghost use Rattle.run_commands.specs.Ends.{IsDone};
ghost use Rattle.run_commands.specs.declared.table.Usage.TheVariants as usage;

use crate::command::Command;
use crate::lines::text_lines;
use crate::page::{push_line, push_page};
use crate::settings::Settings;
use crate::table::{USAGES, Usage};
use narrow_fraction::Memory;
use quantity_text::push_text;
use run_inputs::{Cause, Found, told};
use std::alloc::Global;

/// The version of the program.
const PROGRAM_VERSION: &str = "1.3.0";

/// The versions of the program, of descriptions and of plans, and the formats of timings and certificates.
#[tactic(auto, unfolding(crate::specs::Help::version_text))]
fn version_text(alloc: Global) -> Result<Vec<u8>, Memory>
    ensures { IfOk result (λ text. text.items ≡ version_text) }
{
    let mut text = text_lines(alloc, "maxband ")?;
    push_text(&mut text, PROGRAM_VERSION)?;
    push_text(
        &mut text,
        "\ndescriptions 1 2\nplans 1\ntimings 1\ncertificates 1 2\ncertificates of links 1\n",
    )?;
    Ok(text)
}

/// Writes the lines of these commands, one after the other.
fn push_usages(out: &mut Vec<u8>, usages: &[Usage]) -> Result<(), Memory>
    ensures { OnOk result (out.new.items ≡ out.old.items ++ flat_map line_of usages.now) }
{
    for usage in usages {
        push_line(out, *usage)?;
    }
    Ok(())
}

/// The line of each command, and where the statuses are told.
#[tactic(auto, unfolding(crate::specs::Help::statuses_line))]
fn help_text(alloc: Global) -> Result<Vec<u8>, Memory>
    ensures { IfOk result (λ text. text.items ≡ help_text line_of USAGES) }
{
    let mut text = Vec::new(alloc);
    push_usages(&mut text, &USAGES)?;
    push_text(
        &mut text,
        "statuses and formats: man maxband, docs/FORMATS.md\n",
    )?;
    Ok(text)
}

/// What the help has of a command alone.
fn lines_of(alloc: Global, usage: Usage) -> Result<Vec<u8>, Memory>
    ensures { IfOk result (λ text. text.items ≡ lines_of usage) }
{
    let mut text = Vec::new(alloc);
    push_page(&mut text, usage)?;
    Ok(text)
}

/// The line of each command, or more of the one that is asked about.
fn help_lines(alloc: Global, about: Option<Usage>) -> Result<Vec<u8>, Memory>
    ensures { IfOk result (λ text. text.items ≡ help_lines line_of lines_of USAGES about) }
{
    match about {
        None => help_text(alloc),
        Some(usage) => lines_of(alloc, usage),
    }
}

/// Tells each command, and where the statuses are told, or more of one.
fn tell_usages(alloc: Global, about: Option<Usage>) -> Result<Found, Memory>
    ensures finds { IfOk result (λ a. HelpFinds line_of lines_of USAGES about a.cause a.lines.items) }
    ensures ends { IfOk result (λ a. IsDone a.cause) }
    ensures answer { IfOk result (λ a. IsOwnAnswer a.cause (bytes_of a)) }
{
    let lines = help_lines(alloc, about)?;
    Ok(told(Cause::Done, lines))
}

/// Tells the program's version, and the versions and formats that it reads.
fn tell_version(alloc: Global) -> Result<Found, Memory>
    ensures finds { IfOk result (λ a. VersionFinds a.cause a.lines.items) }
    ensures ends { IfOk result (λ a. IsDone a.cause) }
    ensures answer { IfOk result (λ a. IsOwnAnswer a.cause (bytes_of a)) }
{
    let lines = version_text(alloc)?;
    Ok(told(Cause::Done, lines))
}

/// The command `--help`.
pub struct Help;

impl Command for Help {
    type Reads = ();

    ghost usage = { usage.Help };

    fn find(alloc: Global, read: &(), settings: &Settings<'_>) -> Result<Found, Memory> {
        let () = read;
        tell_usages(alloc, settings.about)
    }

    ghost same = { refl };
}

/// The command `--version`.
pub struct Version;

impl Command for Version {
    type Reads = ();

    ghost usage = { usage.Version };

    fn find(alloc: Global, read: &(), _settings: &Settings<'_>) -> Result<Found, Memory> {
        let () = read;
        tell_version(alloc)
    }

    ghost same = { refl };
}
