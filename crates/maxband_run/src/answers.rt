//! The answers of the commands: their files are read one after the other, and what is found of these is told.

ghost use Rattle.std.specs.Prelude.{◌≡◌, ◌<◌, None, IfOk, IfSome, length, option_map};
ghost use Rattle.run_inputs.specs.{Lines.{words_line}, Reading.{LeavesFiles, LeavesAlone}};
ghost use Rattle.run_commands.specs.{Settings.{settings_view, InLimits}, Table.{readers}, Words.{view}, Requested.{IsFit}};
ghost use Rattle.maxband_run.specs.Run.{ask, question, ended, IsAnswered};

use narrow_fraction::Memory;
use outer_edge::Files;
use run_commands::bands::Bands;
use run_commands::check::Check;
use run_commands::check_links::CheckLinks;
use run_commands::draw::Draw;
use run_commands::explain::Explain;
use run_commands::half::Half;
use run_commands::help::{Help, Version};
use run_commands::hold::Hold;
use run_commands::links::Links;
use run_commands::make::Make;
use run_commands::narrow::{Narrow, Widen};
use run_commands::renew::Renew;
use run_commands::round::{Round, RoundFrom};
use run_commands::sensitivity::Sensitivity;
use run_commands::sheet::Sheet;
use run_commands::show::Show;
use run_commands::solve::Solve;
use run_commands::sweep::Sweep;
use run_commands::trial::Trial;
use run_commands::typed::TimingOf;
use run_commands::whole::Whole;
use run_commands::{Command, Request, Usage};
use run_inputs::{Cause, Found, Inputs, Unread, told, words_line};
use std::alloc::Global;

/// The place of the first file that a command reads.
const FIRST: u8 = 1;

/// What is told of words that are none of the usages.
fn words_answer(alloc: Global) -> Result<Found, Memory>
    ensures cause { IfOk result (λ a. a.cause ≡ Cause.Words) }
    ensures lines { IfOk result (λ a. a.lines.items ≡ words_line) }
    ensures no_put { IfOk result (λ a. a.bytes ≡ None) }
{
    let lines = words_line(alloc)?.into_bytes();
    Ok(told(Cause::Words, lines))
}

/// What a command finds with the names and the settings of the request, or why a file that it reads isn't read.
#[tactic(auto, using(crate::proofs::Told::unread_by, crate::proofs::Told::wanting))]
fn answer_of<C: Command, F: Files>(
    alloc: Global,
    request: Request<'_>,
    files: &mut F,
) -> Result<Found, Unread>
    requires names { length request.reads.now ≡ length (readers C.usage) }
    requires few { length (readers C.usage) < 255 }
    requires limits { InLimits (settings_view request.settings) }
    ensures answered { IsAnswered F.Files files.old files.new (ask C.usage (view request.entry)) (ended result) }
    ensures kept { LeavesFiles F.Files files.old files.new }
    ensures alone { LeavesAlone (readers C.usage) (option_map (λ name. name.now) request.entry.output) files.old files.new }
{
    let read = C::Reads::read(alloc, files, request.reads, FIRST)?;
    let found = C::find(alloc, &read, &request.settings)?;
    Ok(found)
}

/// What the command of this usage finds so.
fn answer_by<F: Files>(
    alloc: Global,
    usage: Usage,
    request: Request<'_>,
    files: &mut F,
) -> Result<Found, Unread>
    requires names { length request.reads.now ≡ length (readers usage) }
    requires limits { InLimits (settings_view request.settings) }
    ensures answered { IsAnswered F.Files files.old files.new (ask usage (view request.entry)) (ended result) }
    ensures kept { LeavesFiles F.Files files.old files.new }
    ensures alone { LeavesAlone (readers usage) (option_map (λ name. name.now) request.entry.output) files.old files.new }
{
    match usage {
        Usage::Solve => answer_of::<Solve, F>(alloc, request, files),
        Usage::Check => answer_of::<Check, F>(alloc, request, files),
        Usage::Bands => answer_of::<Bands, F>(alloc, request, files),
        Usage::Round => answer_of::<Round, F>(alloc, request, files),
        Usage::RoundFrom => answer_of::<RoundFrom, F>(alloc, request, files),
        Usage::Whole => answer_of::<Whole, F>(alloc, request, files),
        Usage::Half => answer_of::<Half, F>(alloc, request, files),
        Usage::TimingOf => answer_of::<TimingOf, F>(alloc, request, files),
        Usage::Draw => answer_of::<Draw, F>(alloc, request, files),
        Usage::Sheet => answer_of::<Sheet, F>(alloc, request, files),
        Usage::Renew => answer_of::<Renew, F>(alloc, request, files),
        Usage::Links => answer_of::<Links, F>(alloc, request, files),
        Usage::CheckLinks => answer_of::<CheckLinks, F>(alloc, request, files),
        Usage::Hold => answer_of::<Hold, F>(alloc, request, files),
        Usage::Show => answer_of::<Show, F>(alloc, request, files),
        Usage::Explain => answer_of::<Explain, F>(alloc, request, files),
        Usage::Narrow => answer_of::<Narrow, F>(alloc, request, files),
        Usage::Widen => answer_of::<Widen, F>(alloc, request, files),
        Usage::Make => answer_of::<Make, F>(alloc, request, files),
        Usage::Trial => answer_of::<Trial, F>(alloc, request, files),
        Usage::Sweep => answer_of::<Sweep, F>(alloc, request, files),
        Usage::Sensitivity => answer_of::<Sensitivity, F>(alloc, request, files),
        Usage::Help => answer_of::<Help, F>(alloc, request, files),
        Usage::Version => answer_of::<Version, F>(alloc, request, files),
    }
}

/// What is found of what the words ask for, or why a file isn't read.
fn found<F: Files>(
    alloc: Global,
    request: Option<Request<'_>>,
    files: &mut F,
) -> Result<Found, Unread>
    requires { IfSome (option_map view request) IsFit }
    ensures answered { IsAnswered F.Files files.old files.new (question (option_map view request.entry)) (ended result) }
    ensures kept { LeavesFiles F.Files files.old files.new }
    ensures alone { LeavesAlone (question (option_map view request.entry)).readers (question (option_map view request.entry)).output files.old files.new }
{
    match request {
        Some(request) => answer_by(alloc, request.usage, request, files),
        None => Ok(words_answer(alloc)?),
    }
}

/// The answer to what the words ask for, or to a file that isn't read.
pub fn answer_to<F: Files>(
    alloc: Global,
    request: Option<Request<'_>>,
    files: &mut F,
) -> Result<Found, Memory>
    requires { IfSome (option_map view request) IsFit }
    ensures answered { IsAnswered F.Files files.old files.new (question (option_map view request.entry)) result }
    ensures kept { LeavesFiles F.Files files.old files.new }
    ensures alone { LeavesAlone (question (option_map view request.entry)).readers (question (option_map view request.entry)).output files.old files.new }
{
    match found(alloc, request, files) {
        Ok(answer) => Ok(answer),
        Err(Unread::Told(answer)) => Ok(answer),
        Err(Unread::Memory) => Err(Memory),
    }
}
