//! The command `draw`.

ghost use Rattle.std.specs.Prelude.{◌≡◌, None, IfOk, option_map, refl};
ghost use Rattle.progression.specs.Street.{count};
ghost use Rattle.run_inputs.specs.{Puts.{bytes_of}, Status.{IsOwnAnswer}};
ghost use Rattle.run_commands.specs.{Lines.{untimed_line}, Draw.{drawn_lines, TimingFinds, DrawFinds}};
ghost use Rattle.run_commands.specs.Ends.{IsDrawingEnd};
ghost use Rattle.run_commands.specs.declared.table.Usage.TheVariants as usage;
ghost use Rattle.time_space.specs.Timing.{IsFor};
ghost use Rattle.progression.specs.TimingRecord.{base};

use crate::command::Command;
use crate::hold::{broken, fails};
use crate::lines::{UNTIMED, push_failing_line, text_lines};
use crate::settings::Settings;
use artery_model::Artery;
use diagram_draw::draw;
use narrow_fraction::Memory;
use quantity_text::push_text;
use run_inputs::{Cause, Found, Timed, told};
use std::alloc::Global;
use time_space::{Failing, Timing};

/// The lines of a picture of a timing that breaks this rule first, or none.
fn drawn_lines(alloc: Global, broken: Option<Failing>) -> Result<Vec<u8>, Memory>
    ensures { IfOk result (λ lines. lines.items ≡ drawn_lines broken) }
{
    let mut lines = Vec::new(alloc);
    push_text(&mut lines, "drawn\n")?;
    if let Some(failing) = broken {
        push_failing_line(&mut lines, "fails ", failing)?;
    }
    Ok(lines)
}

/// Draws a timing with as many signals as the artery has.
fn draw_shaped(
    alloc: Global,
    artery: &Artery,
    timing: &Timing,
    title: Option<&str>,
) -> Result<Found, Memory>
    requires { IsFor artery.now (base timing.now) }
    ensures finds { IfOk result (λ a. TimingFinds artery.now timing.now (option_map (λ word. word.now) title.entry) a.cause a.lines.items (bytes_of a)) }
    ensures ends { IfOk result (λ a. IsDrawingEnd a.cause) }
    ensures answer { IfOk result (λ a. IsOwnAnswer a.cause (bytes_of a)) }
{
    let lines = drawn_lines(alloc, broken(artery, timing))?;
    let bytes = draw(alloc, artery, timing, title)?;
    Ok(Found {
        cause: Cause::Done,
        lines,
        bytes: Some(bytes),
    })
}

/// Draws a timing, where it has as many signals as the artery.
#[tactic(auto, using(crate::proofs::Shaped::unshaped_found))]
fn draw_any(
    alloc: Global,
    artery: &Artery,
    timing: &Timing,
    title: Option<&str>,
) -> Result<Found, Memory>
    ensures finds { IfOk result (λ a. TimingFinds artery.now timing.now (option_map (λ word. word.now) title.entry) a.cause a.lines.items (bytes_of a)) }
    ensures ends { IfOk result (λ a. IsDrawingEnd a.cause) }
    ensures answer { IfOk result (λ a. IsOwnAnswer a.cause (bytes_of a)) }
{
    if timing.count() != artery.count() {
        return fails(alloc, Failing::Shape);
    }
    draw_shaped(alloc, artery, timing, title)
}

/// The answer where a certificate has no timing: nothing is put.
pub fn untimed(alloc: Global) -> Result<Found, Memory>
    ensures cause { IfOk result (λ a. a.cause ≡ Cause.Untimed) }
    ensures lines { IfOk result (λ a. a.lines.items ≡ untimed_line) }
    ensures no_put { IfOk result (λ a. a.bytes ≡ None) }
{
    let lines = text_lines(alloc, UNTIMED)?;
    Ok(told(Cause::Untimed, lines))
}

/// Draws the timing that the file has, good or not, with a title where there is one; the answer tells the first rule that it breaks. The
/// picture is put; nothing is where the timing has another number of signals, or where there is none. Of what a certificate claims
/// nothing is checked.
fn draw_timing(
    alloc: Global,
    artery: &Artery,
    timed: &Timed,
    title: Option<&str>,
) -> Result<Found, Memory>
    ensures finds { IfOk result (λ a. DrawFinds artery.now timed.now.timing (option_map (λ word. word.now) title.entry) a.cause a.lines.items (bytes_of a)) }
    ensures ends { IfOk result (λ a. IsDrawingEnd a.cause) }
    ensures answer { IfOk result (λ a. IsOwnAnswer a.cause (bytes_of a)) }
{
    match &timed.timing {
        Some(timing) => draw_any(alloc, artery, timing, title),
        None => untimed(alloc),
    }
}

/// The command `draw`.
pub struct Draw;

impl Command for Draw {
    type Reads = (Artery, (Timed, ()));

    ghost usage = { usage.Draw };

    fn find(
        alloc: Global,
        read: &(Artery, (Timed, ())),
        settings: &Settings<'_>,
    ) -> Result<Found, Memory> {
        let (artery, (timed, ())) = read;
        draw_timing(alloc, artery, timed, settings.title)
    }

    ghost same = { refl };
}
