//! The sentences of the warnings.

ghost use Rattle.std.specs.{Prelude.{◌≡◌, ◌<◌, ◌++◌, OnOk}, Fmt.{decimal}};
ghost use Rattle.progression.specs.{Street.{count, red_parts, speed, HasLink, HasSignal}, Speeds.{run_low}};
ghost use Rattle.street_words.specs.Numbers.{cut_tenths};
ghost use Rattle.street_words.specs.Laws.{IsOf};
ghost use Rattle.street_words.specs.Streets.{length_word, speed_word};
ghost use Rattle.street_words.specs.Warnings.{fastest, slowest, way_words, signal_words, length_question, speed_question};
ghost use Rattle.street_words.specs.Warnings.{limit_words, travel_line, fast_line, slow_line, red_line, pair_words, alike_line, fractions_line, warning_line};

use crate::fractions::MOST_TICKS;
use crate::numbers::push_cut_tenths;
use crate::rules::{LEAST_TRAVEL, MOST_TRAVEL, fastest, slowest, speeds};
use crate::warning::Warning;
use crate::words::{length_word, next_signal, push_name, speed_word};
use artery_model::{Artery, Dir};
use narrow_fraction::Memory;
use quantity_text::{push_number, push_text};
use timing_words::dir_word;

#[tactic(auto, unfolding(crate::specs::Warnings::way_words))]
fn push_way(out: &mut Vec<u8>, link: u32, dir: Dir) -> Result<(), Memory>
    ensures { OnOk result (out.new.items ≡ out.old.items ++ way_words link dir) }
{
    push_text(out, "warning: link ")?;
    push_number(out, u128::from(link))?;
    push_text(out, " ")?;
    push_text(out, dir_word(dir))
}

#[tactic(auto, unfolding(crate::specs::Warnings::signal_words))]
fn push_signal(out: &mut Vec<u8>, signal: u32, dir: Dir) -> Result<(), Memory>
    ensures { OnOk result (out.new.items ≡ out.old.items ++ signal_words signal dir) }
{
    push_text(out, "warning: signal ")?;
    push_number(out, u128::from(signal))?;
    push_text(out, " ")?;
    push_text(out, dir_word(dir))
}

/// Writes the unit of lengths.
fn push_length_word(out: &mut Vec<u8>, artery: &Artery) -> Result<(), Memory>
    ensures { OnOk result (out.new.items ≡ out.old.items ++ length_word artery.now.head.units) }
{
    push_text(out, length_word(artery.head().units))
}

/// Writes the unit of speeds.
fn push_speed_word(out: &mut Vec<u8>, artery: &Artery) -> Result<(), Memory>
    ensures { OnOk result (out.new.items ≡ out.old.items ++ speed_word artery.now.head.units) }
{
    push_text(out, speed_word(artery.head().units))
}

/// Writes a question whether a length is in its unit.
#[tactic(auto, unfolding(crate::specs::Warnings::length_question))]
fn push_length_question(out: &mut Vec<u8>, artery: &Artery) -> Result<(), Memory>
    ensures { OnOk result (out.new.items ≡ out.old.items ++ length_question artery.now.head.units) }
{
    push_text(out, ": is its length in ")?;
    push_length_word(out, artery)?;
    push_text(out, "?\n")
}

/// Writes a question whether a speed is in its unit.
#[tactic(auto, unfolding(crate::specs::Warnings::speed_question))]
fn push_speed_question(out: &mut Vec<u8>, artery: &Artery) -> Result<(), Memory>
    ensures { OnOk result (out.new.items ≡ out.old.items ++ speed_question artery.now.head.units) }
{
    push_text(out, ": is it in ")?;
    push_speed_word(out, artery)?;
    push_text(out, "?\n")
}

/// Writes the time of travel at the greatest speed.
fn push_run(out: &mut Vec<u8>, artery: &Artery, dir: Dir, link: u32) -> Result<(), Memory>
    requires link { HasLink artery.now link }
    ensures { OnOk result (out.new.items ≡ out.old.items ++ cut_tenths (run_low artery.now dir link)) }
{
    push_cut_tenths(out, artery.run_low(dir, link))
}

/// Writes on which side of which limit a time is.
#[tactic(auto, unfolding(crate::specs::Warnings::limit_words))]
fn push_limit(out: &mut Vec<u8>, side: &str, limit: u32) -> Result<(), Memory>
    ensures { OnOk result (out.new.items ≡ out.old.items ++ limit_words side.now limit) }
{
    push_text(out, side)?;
    push_number(out, u128::from(limit))?;
    push_text(out, " s")
}

#[tactic(auto, unfolding(crate::specs::Warnings::travel_line))]
fn push_travel(
    out: &mut Vec<u8>,
    artery: &Artery,
    dir: Dir,
    link: u32,
    side: &str,
    limit: u32,
) -> Result<(), Memory>
    requires link { HasLink artery.now link }
    ensures { OnOk result (out.new.items ≡ out.old.items ++ travel_line artery.now dir link side.now limit) }
{
    push_way(out, link, dir)?;
    push_text(out, " takes ")?;
    push_run(out, artery, dir, link)?;
    push_text(out, " s at its greatest speed, ")?;
    push_limit(out, side, limit)?;
    push_length_question(out, artery)
}

/// Writes the greatest speed.
fn push_greatest(out: &mut Vec<u8>, artery: &Artery, dir: Dir, link: u32) -> Result<(), Memory>
    requires link { HasLink artery.now link }
    ensures { OnOk result (out.new.items ≡ out.old.items ++ cut_tenths (speed artery.now dir link).most) }
{
    let limits = speeds(artery, dir, link);
    push_cut_tenths(out, limits.most)
}

/// Writes the least speed.
fn push_least(out: &mut Vec<u8>, artery: &Artery, dir: Dir, link: u32) -> Result<(), Memory>
    requires link { HasLink artery.now link }
    ensures { OnOk result (out.new.items ≡ out.old.items ++ cut_tenths (speed artery.now dir link).least) }
{
    let limits = speeds(artery, dir, link);
    push_cut_tenths(out, limits.least)
}

fn push_fastest(out: &mut Vec<u8>, artery: &Artery) -> Result<(), Memory>
    ensures { OnOk result (out.new.items ≡ out.old.items ++ decimal (fastest artery.now.head.units)) }
{
    push_number(out, u128::from(fastest(artery.head().units)))
}

fn push_slowest(out: &mut Vec<u8>, artery: &Artery) -> Result<(), Memory>
    ensures { OnOk result (out.new.items ≡ out.old.items ++ decimal (slowest artery.now.head.units)) }
{
    push_number(out, u128::from(slowest(artery.head().units)))
}

#[tactic(auto, unfolding(crate::specs::Warnings::fast_line))]
fn push_fast(out: &mut Vec<u8>, artery: &Artery, dir: Dir, link: u32) -> Result<(), Memory>
    requires link { HasLink artery.now link }
    ensures { OnOk result (out.new.items ≡ out.old.items ++ fast_line artery.now dir link) }
{
    push_way(out, link, dir)?;
    push_text(out, " has the greatest speed ")?;
    push_greatest(out, artery, dir, link)?;
    push_text(out, ", above ")?;
    push_fastest(out, artery)?;
    push_speed_question(out, artery)
}

#[tactic(auto, unfolding(crate::specs::Warnings::slow_line))]
fn push_slow(out: &mut Vec<u8>, artery: &Artery, dir: Dir, link: u32) -> Result<(), Memory>
    requires link { HasLink artery.now link }
    ensures { OnOk result (out.new.items ≡ out.old.items ++ slow_line artery.now dir link) }
{
    push_way(out, link, dir)?;
    push_text(out, " has the least speed ")?;
    push_least(out, artery, dir, link)?;
    push_text(out, ", below ")?;
    push_slowest(out, artery)?;
    push_speed_question(out, artery)
}

/// Writes how many parts a direction is red.
fn push_red_parts(out: &mut Vec<u8>, artery: &Artery, dir: Dir, signal: u32) -> Result<(), Memory>
    requires signal { HasSignal artery.now signal }
    ensures { OnOk result (out.new.items ≡ out.old.items ++ decimal (red_parts artery.now dir signal)) }
{
    push_number(out, u128::from(artery.red(dir, signal)))
}

fn push_all_parts(out: &mut Vec<u8>, artery: &Artery) -> Result<(), Memory>
    ensures { OnOk result (out.new.items ≡ out.old.items ++ decimal artery.now.head.parts) }
{
    push_number(out, u128::from(artery.parts()))
}

#[tactic(auto, unfolding(crate::specs::Warnings::red_line))]
fn push_red(out: &mut Vec<u8>, artery: &Artery, dir: Dir, signal: u32) -> Result<(), Memory>
    requires signal { HasSignal artery.now signal }
    ensures { OnOk result (out.new.items ≡ out.old.items ++ red_line artery.now dir signal) }
{
    push_signal(out, signal, dir)?;
    push_text(out, " is red for ")?;
    push_red_parts(out, artery, dir, signal)?;
    push_text(out, " of ")?;
    push_all_parts(out, artery)?;
    push_text(out, " parts, more than three quarters of the cycle\n")
}

#[tactic(auto, unfolding(crate::specs::Warnings::pair_words))]
fn push_pair(out: &mut Vec<u8>, artery: &Artery, signal: u32) -> Result<(), Memory>
    requires { signal < count artery.now }
    ensures { OnOk result (out.new.items ≡ out.old.items ++ pair_words signal) }
{
    let next = next_signal(artery, signal);
    push_text(out, "warning: signals ")?;
    push_number(out, u128::from(signal))?;
    push_text(out, " and ")?;
    push_number(out, u128::from(next))
}

#[tactic(auto, unfolding(crate::specs::Warnings::alike_line))]
fn push_alike(out: &mut Vec<u8>, artery: &Artery, signal: u32) -> Result<(), Memory>
    requires signal { HasLink artery.now signal }
    ensures { OnOk result (out.new.items ≡ out.old.items ++ alike_line artery.now signal) }
{
    push_pair(out, artery, signal)?;
    push_text(out, " have names that differ in blanks and case alone: ")?;
    push_name(out, artery, signal)?;
    push_text(out, "\n")
}

#[tactic(auto, unfolding(crate::specs::Warnings::fractions_line))]
fn push_fractions(out: &mut Vec<u8>) -> Result<(), Memory>
    ensures { OnOk result (out.new.items ≡ out.old.items ++ fractions_line) }
{
    push_text(
        out,
        "warning: the times of travel at the limits of speed have no grid of up to ",
    )?;
    push_number(out, MOST_TICKS)?;
    push_text(out, " ticks a second; where solve stops wide, try narrow\n")
}

/// Writes the line of a warning.
pub fn push_warning(out: &mut Vec<u8>, artery: &Artery, warning: Warning) -> Result<(), Memory>
    requires { IsOf artery.now warning }
    ensures { OnOk result (out.new.items ≡ out.old.items ++ warning_line artery.now warning) }
{
    match warning {
        Warning::TakesLittle { dir, link } => {
            push_travel(out, artery, dir, link, "less than ", LEAST_TRAVEL)
        }
        Warning::TakesLong { dir, link } => {
            push_travel(out, artery, dir, link, "more than ", MOST_TRAVEL)
        }
        Warning::TooFast { dir, link } => push_fast(out, artery, dir, link),
        Warning::TooSlow { dir, link } => push_slow(out, artery, dir, link),
        Warning::MostlyRed { dir, signal } => push_red(out, artery, dir, signal),
        Warning::AlikeNames { signal } => push_alike(out, artery, signal),
        Warning::MayStarve => push_text(
            out,
            "warning: with ratio 1 the best bands may starve a direction; ratio = \"99/100\", least bands or equal bands keep it from that\n",
        ),
        Warning::LongFractions => push_fractions(out),
    }
}
