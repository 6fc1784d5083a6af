//! The words of a drawing.

ghost use Rattle.std.specs.{Prelude.{◌≡◌, ◌&&◌, ◌+◌, ◌*◌, ◌/◌, ◌%◌, ◌<◌, ◌≤◌, ◌^◌, ◌++◌, codes, OnOk, option_map, pos, ◌≤ℤ◌, length}, Fmt.{decimal}};
ghost use Rattle.progression.specs.{Street.{count, HasLink, HasSignal}, Best.{weighted_band}, TimingRecord.{base}};
ghost use Rattle.progression.specs.declared.parts.Dir.TheVariants.{Outbound, Inbound};
ghost use Rattle.timing_measures.specs.Rounding.{nearest};
ghost use Rattle.timing_words.specs.{Numbers.{seconds_text}, Ways.{dir_word, has_band}};
ghost use Rattle.diagram_draw.specs.Escapes.{escaped};
ghost use Rattle.diagram_draw.specs.{declared.paint.Letter.TheVariants.{Facts, HeadEnd, Number}, Frames.{IsFrame}};
ghost use Rattle.diagram_draw.specs.Shapes.{words_opening, words_text, sized_opening, sized_words_text, sized_text, caption_text, captions_text, sizeds_text};
ghost use Rattle.diagram_draw.specs.Captions.{thousandths_text, hundredths, width_text};
ghost use Rattle.diagram_draw.specs.Captions.{offset_text, name_of, after_name, title_text, width_facts, band_facts, cycle_facts, weighted_facts};
ghost use Rattle.diagram_draw.specs.Captions.{facts_text, head_room, bold_room, name_head, title_head, title_heads, heads, facts_level, unit_of_length, unit_of_speed};
ghost use Rattle.diagram_draw.specs.Captions.{head_level, signal_heads, lengths_head, link_heads, cycles_text};
ghost use Rattle.diagram_draw.specs.Captions.{cycle_number, cycle_numbers, second_number, second_numbers, row_level, turn_word, turn_text, pattern_text, name_caption, names};
ghost use Rattle.diagram_draw.specs.Captions.{signal_row, signal_rows, link_level, unlike_lengths, lengths_differ, lengths_text, link_speed_text, link_row, link_rows};
ghost use Rattle.diagram_draw.specs.Captions.{mark, marks_at, signal_marks, marks, red_words, band_words, axis_words, bar_words, clearances, note_words, queue_notes};
ghost use Rattle.diagram_draw.specs.Captions.{notes, above, beside, below, captions};
ghost use Rattle.time_space.specs.Timing.{IsFor};

use crate::axes::{cycle_x, second_at, second_x, steps_shown};
use crate::escape::push_escaped;
use crate::frame::{
    COLUMNS_LEFT, Frame, NAME_LEFT, PLOT_TOP, level, page_width, plot_bottom, plot_right,
    plot_width,
};
use crate::paint::Letter;
use crate::shape::{push_sized_opening, push_words_end, push_words_opening};
use crate::steps::{has_step, mark_level, step_begin, step_ticks};
use crate::width::{FACTS_SIZE, NAME_SIZE, SUBTITLE_SIZE, TITLE_SIZE, fitting, text_width};
use artery_model::{Artery, Dir, Units};
use narrow_fraction::{Frac, Memory};
use progression::Text;
use quantity_text::{push_number, push_text};
use time_space::{Base, Timing, is_early, value};
use timing_measures::{cycle_seconds, offset, round_to, seconds, signal_name, some_speed};
use timing_words::{dir_word, has_band, push_moment, push_percent, push_seconds, push_tenths};

/// Writes two digits.
fn push_two_digits(out: &mut Vec<u8>, digits: u32) -> Result<(), Memory>
    ensures { OnOk result (out.new.items ≡ out.old.items ++ (decimal (digits / 10) ++ decimal (digits % 10))) }
{
    push_number(out, (digits / 10) as u128)?;
    push_number(out, (digits % 10) as u128)
}

/// Writes a number, to the nearest hundredth.
fn push_hundredths(out: &mut Vec<u8>, value: Frac) -> Result<(), Memory>
    requires least { pos 0 ≤ℤ value.num }
    requires denominator { value.den ≤ 2 ^ 120 }
    ensures { OnOk result (out.new.items ≡ out.old.items ++ hundredths value) }
{
    let number = round_to(value, 2);
    push_number(out, number.whole)?;
    push_text(out, ".")?;
    push_two_digits(out, number.rest)
}

/// Writes a number, to the nearest thousandth.
fn push_thousandths(out: &mut Vec<u8>, value: Frac) -> Result<(), Memory>
    requires least { pos 0 ≤ℤ value.num }
    requires denominator { value.den ≤ 2 ^ 120 }
    ensures { OnOk result (out.new.items ≡ out.old.items ++ thousandths_text (nearest value 3)) }
{
    let number = round_to(value, 3);
    push_number(out, number.whole)?;
    push_text(out, ".")?;
    push_number(out, (number.rest / 100) as u128)?;
    push_two_digits(out, number.rest % 100)
}

/// Writes a width in seconds: what is less than a second, to hundredths.
fn push_width(out: &mut Vec<u8>, base: &Base, ticks: u128) -> Result<(), Memory>
    requires { ticks < 2 ^ 126 }
    ensures { OnOk result (out.new.items ≡ out.old.items ++ width_text base.now ticks) }
{
    if base.grid() <= ticks {
        push_seconds(out, base, ticks)
    } else {
        push_hundredths(out, seconds(base, ticks))
    }
}

/// Writes the offset of a signal.
pub fn push_offset(
    out: &mut Vec<u8>,
    artery: &Artery,
    base: &Base,
    signal: u32,
) -> Result<(), Memory>
    requires first { 1 ≤ signal }
    requires last { signal ≤ length base.now.patterns }
    ensures { OnOk result (out.new.items ≡ out.old.items ++ offset_text artery.now base.now signal) }
{
    push_moment(out, artery, base, offset(artery, base, signal))
}

/// The name of the street, or what the drawing is.
fn name_of(name: &Option<Text>) -> &str
    ensures { result.now ≡ name_of name.now }
{
    match name {
        Some(name) => name.as_str(),
        None => "Time-space diagram",
    }
}

/// The same of an artery.
fn street_name(artery: &Artery) -> &str
    ensures { result.now ≡ name_of artery.now.head.name }
{
    name_of(&artery.head().name)
}

/// Writes the title of the plan after the name of the street, where it has one.
fn push_after_name(out: &mut Vec<u8>, title: Option<&str>) -> Result<(), Memory>
    ensures { OnOk result (out.new.items ≡ out.old.items ++ after_name (option_map (λ t. t.now) title.entry)) }
{
    match title {
        Some(title) => {
            push_text(out, ": ")?;
            push_escaped(out, title.as_bytes())
        }
        None => Ok(()),
    }
}

/// Writes the name of the street and the title of the plan.
pub fn push_title(out: &mut Vec<u8>, artery: &Artery, title: Option<&str>) -> Result<(), Memory>
    ensures { OnOk result (out.new.items ≡ out.old.items ++ title_text artery.now (option_map (λ t. t.now) title.entry)) }
{
    push_escaped(out, street_name(artery).as_bytes())?;
    push_after_name(out, title)
}

/// Writes a band in seconds and as a part of the cycle.
#[tactic(auto, unfolding(crate::specs::Captions::width_facts))]
fn push_width_facts(
    out: &mut Vec<u8>,
    artery: &Artery,
    timing: &Timing,
    dir: Dir,
) -> Result<(), Memory>
    ensures { OnOk result (out.new.items ≡ out.old.items ++ width_facts artery.now timing.now dir) }
{
    push_text(out, " band ")?;
    push_width(out, timing.base(), timing.band(dir))?;
    push_text(out, " s = ")?;
    push_percent(out, artery, timing, dir)?;
    push_text(out, " % of the cycle")
}

/// Writes the band of a direction that has one.
fn push_some_band(
    out: &mut Vec<u8>,
    artery: &Artery,
    timing: &Timing,
    dir: Dir,
) -> Result<(), Memory>
    ensures { OnOk result (out.new.items ≡ out.old.items ++ (codes " &#183; " ++ (dir_word dir ++ width_facts artery.now timing.now dir))) }
{
    push_text(out, " &#183; ")?;
    push_text(out, dir_word(dir))?;
    push_width_facts(out, artery, timing, dir)
}

/// Writes that there is no band.
fn push_no_band(out: &mut Vec<u8>, dir: Dir) -> Result<(), Memory>
    ensures { OnOk result (out.new.items ≡ out.old.items ++ (codes " &#183; no " ++ (dir_word dir ++ codes " band"))) }
{
    push_text(out, " &#183; no ")?;
    push_text(out, dir_word(dir))?;
    push_text(out, " band")
}

/// Writes a direction's band, or that it has none.
#[tactic(auto, unfolding(crate::specs::Captions::band_facts))]
fn push_band_facts(
    out: &mut Vec<u8>,
    artery: &Artery,
    timing: &Timing,
    dir: Dir,
) -> Result<(), Memory>
    requires { IsFor artery.now (base timing.now) }
    ensures { OnOk result (out.new.items ≡ out.old.items ++ band_facts artery.now timing.now dir) }
{
    if has_band(artery, timing, dir) {
        push_some_band(out, artery, timing, dir)
    } else {
        push_no_band(out, dir)
    }
}

/// Writes the cycle.
#[tactic(auto, unfolding(crate::specs::Captions::cycle_facts))]
fn push_cycle_facts(out: &mut Vec<u8>, artery: &Artery, base: &Base) -> Result<(), Memory>
    ensures { OnOk result (out.new.items ≡ out.old.items ++ cycle_facts artery.now base.now) }
{
    push_text(out, "cycle ")?;
    push_tenths(out, cycle_seconds(artery, base))?;
    push_text(out, " s")
}

/// Whether both directions have a band.
fn have_bands(artery: &Artery, timing: &Timing) -> bool
    requires { IsFor artery.now (base timing.now) }
    ensures { result ≡ (has_band artery.now timing.now Dir.Outbound && has_band artery.now timing.now Dir.Inbound) }
{
    has_band(artery, timing, Dir::Outbound) && has_band(artery, timing, Dir::Inbound)
}

/// Writes the weighted band of two bands.
fn push_weighted(out: &mut Vec<u8>, artery: &Artery, timing: &Timing) -> Result<(), Memory>
    ensures { OnOk result (out.new.items ≡ out.old.items ++ (codes " &#183; weighted band " ++ thousandths_text (nearest (weighted_band artery.now timing.now) 3))) }
{
    push_text(out, " &#183; weighted band ")?;
    push_thousandths(out, value(artery, timing))
}

/// Writes the weighted band, where both directions have a band.
#[tactic(auto, unfolding(crate::specs::Captions::weighted_facts))]
fn push_weighted_facts(out: &mut Vec<u8>, artery: &Artery, timing: &Timing) -> Result<(), Memory>
    requires { IsFor artery.now (base timing.now) }
    ensures { OnOk result (out.new.items ≡ out.old.items ++ weighted_facts artery.now timing.now) }
{
    if have_bands(artery, timing) {
        push_weighted(out, artery, timing)
    } else {
        Ok(())
    }
}

/// Writes the cycle and the bands.
#[tactic(auto, unfolding(crate::specs::Captions::facts_text))]
pub fn push_facts(out: &mut Vec<u8>, artery: &Artery, timing: &Timing) -> Result<(), Memory>
    requires { IsFor artery.now (base timing.now) }
    ensures { OnOk result (out.new.items ≡ out.old.items ++ facts_text artery.now timing.now) }
{
    push_cycle_facts(out, artery, timing.base())?;
    push_band_facts(out, artery, timing, Dir::Outbound)?;
    push_band_facts(out, artery, timing, Dir::Inbound)?;
    push_weighted_facts(out, artery, timing)
}

fn unit_of_length(units: Units) -> &'static str
    ensures { result.now ≡ unit_of_length units }
{
    match units {
        Units::Metric => "m",
        Units::English => "ft",
    }
}

fn unit_of_speed(units: Units) -> &'static str
    ensures { result.now ≡ unit_of_speed units }
{
    match units {
        Units::Metric => "km/h",
        Units::English => "mph",
    }
}

/// Writes the beginning of words at a point.
fn push_opening(out: &mut Vec<u8>, letter: Letter, x: u32, y: u32) -> Result<(), Memory>
    ensures { OnOk result (out.new.items ≡ out.old.items ++ words_opening letter (pos x) (pos y)) }
{
    push_words_opening(out, letter, i128::from(x), i128::from(y))
}

/// Writes words at a point.
#[tactic(auto, unfolding(crate::specs::Shapes::words_text))]
fn push_words(out: &mut Vec<u8>, letter: Letter, x: u32, y: u32, words: &str) -> Result<(), Memory>
    ensures { OnOk result (out.new.items ≡ out.old.items ++ words_text letter (pos x) (pos y) words.now) }
{
    push_opening(out, letter, x, y)?;
    push_text(out, words)?;
    push_words_end(out)
}

const HEAD_LEVEL: u32 = PLOT_TOP - 90;

/// Writes the beginning of words at a point, in letters of a size.
fn push_size_opening(
    out: &mut Vec<u8>,
    letter: Letter,
    size: u32,
    x: u32,
    y: u32,
) -> Result<(), Memory>
    ensures { OnOk result (out.new.items ≡ out.old.items ++ sized_opening letter size (pos x) (pos y)) }
{
    push_sized_opening(out, letter, size, i128::from(x), i128::from(y))
}

/// Writes a text at a point, in letters of a size.
#[tactic(auto, unfolding(crate::specs::Shapes::sized_words_text))]
fn push_sized(
    out: &mut Vec<u8>,
    letter: Letter,
    size: u32,
    x: u32,
    y: u32,
    text: &str,
) -> Result<(), Memory>
    ensures { OnOk result (out.new.items ≡ out.old.items ++ sized_words_text letter size (pos x) (pos y) (escaped text.now)) }
{
    push_size_opening(out, letter, size, x, y)?;
    push_escaped(out, text.as_bytes())?;
    push_words_end(out)
}

/// How wide the head may be.
fn head_room(frame: Frame) -> u32
    requires { IsFrame frame }
    ensures value { result ≡ head_room frame }
    ensures most { result ≤ 31440 }
{
    page_width(frame) - 440
}

/// The same for bold letters, which are wider by up to a fifth.
fn bold_room(frame: Frame) -> u32
    requires { IsFrame frame }
    ensures { result ≡ bold_room frame }
{
    head_room(frame) * 5 / 6
}

/// Writes the name of the street, where it stands.
fn push_name_head(out: &mut Vec<u8>, frame: Frame, artery: &Artery) -> Result<(), Memory>
    requires { IsFrame frame }
    ensures { OnOk result (out.new.items ≡ out.old.items ++ sized_text (name_head frame artery.now)) }
{
    let name = street_name(artery);
    let size = fitting(TITLE_SIZE, bold_room(frame), text_width(name.as_bytes()));
    push_sized(out, Letter::Title, size, 220, 480, name)
}

/// Writes the title of the plan, where it stands.
fn push_title_head(out: &mut Vec<u8>, frame: Frame, title: &str) -> Result<(), Memory>
    requires { IsFrame frame }
    ensures { OnOk result (out.new.items ≡ out.old.items ++ sized_text (title_head frame title.now)) }
{
    let size = fitting(
        SUBTITLE_SIZE,
        head_room(frame),
        text_width(title.as_bytes()),
    );
    push_sized(out, Letter::Subtitle, size, 220, 800, title)
}

/// The same where there is one.
fn push_title_heads(out: &mut Vec<u8>, frame: Frame, title: Option<&str>) -> Result<(), Memory>
    requires { IsFrame frame }
    ensures { OnOk result (out.new.items ≡ out.old.items ++ sizeds_text (title_heads frame (option_map (λ t. t.now) title.entry))) }
{
    match title {
        Some(title) => push_title_head(out, frame, title),
        None => Ok(()),
    }
}

/// Where the line stands that has what is measured.
fn facts_level(title: Option<&str>) -> u32
    ensures { result ≡ facts_level (option_map (λ t. t.now) title.entry) }
{
    match title {
        Some(_) => 1120,
        None => 830,
    }
}

/// Writes what is measured, where it stands.
#[tactic(auto, unfolding(crate::specs::Shapes::sized_words_text))]
fn push_facts_head(
    out: &mut Vec<u8>,
    artery: &Artery,
    timing: &Timing,
    level: u32,
) -> Result<(), Memory>
    requires { IsFor artery.now (base timing.now) }
    ensures { OnOk result (out.new.items ≡ out.old.items ++ sized_words_text Facts 165 (pos 220) (pos level) (facts_text artery.now timing.now)) }
{
    push_size_opening(out, Letter::Facts, FACTS_SIZE, 220, level)?;
    push_facts(out, artery, timing)?;
    push_words_end(out)
}

/// Writes the name of the street, what is measured and the title of the plan.
#[tactic(auto, unfolding(crate::specs::Captions::heads))]
pub fn push_heads(
    out: &mut Vec<u8>,
    frame: Frame,
    artery: &Artery,
    timing: &Timing,
    title: Option<&str>,
) -> Result<(), Memory>
    requires frame { IsFrame frame }
    requires shape { IsFor artery.now (base timing.now) }
    ensures { OnOk result (out.new.items ≡ out.old.items ++ sizeds_text (heads frame artery.now timing.now (option_map (λ t. t.now) title.entry))) }
{
    push_name_head(out, frame, artery)?;
    push_facts_head(out, artery, timing, facts_level(title))?;
    push_title_heads(out, frame, title)
}

/// Writes what stands above the columns of the signals.
#[tactic(auto, unfolding(crate::specs::Captions::signal_heads))]
fn push_signal_heads(out: &mut Vec<u8>, frame: Frame) -> Result<(), Memory>
    requires { IsFrame frame }
    ensures { OnOk result (out.new.items ≡ out.old.items ++ captions_text (signal_heads frame)) }
{
    push_words(out, Letter::Head, NAME_LEFT, HEAD_LEVEL, "signal")?;
    push_words(
        out,
        Letter::HeadEnd,
        frame.left - 760,
        HEAD_LEVEL,
        "lefts out/in",
    )?;
    push_words(
        out,
        Letter::HeadEnd,
        frame.left - 170,
        HEAD_LEVEL,
        "offset, s",
    )
}

/// Writes what stands above a column of speeds.
#[tactic(auto, unfolding(crate::specs::Shapes::words_text))]
fn push_speed_head(out: &mut Vec<u8>, x: u32, name: &str, units: Units) -> Result<(), Memory>
    ensures { OnOk result (out.new.items ≡ out.old.items ++ words_text HeadEnd (pos x) head_level (name.now ++ unit_of_speed units)) }
{
    push_opening(out, Letter::HeadEnd, x, HEAD_LEVEL)?;
    push_text(out, name)?;
    push_text(out, unit_of_speed(units))?;
    push_words_end(out)
}

/// How many of the first links have two lengths.
#[tactic(auto, using(crate::proofs::Measures::unlike_up))]
fn unlike_lengths(artery: &Artery, links: u32) -> u32
    requires last { links < count artery.now }
    requires many { links ≤ 24 }
    ensures value { result ≡ unlike_lengths artery.now links }
    ensures most { result ≤ links }
{
    let mut unlike = 0;
    for link in 1..links + 1 {
        if artery.distance(Dir::Outbound, link) != artery.distance(Dir::Inbound, link) {
            unlike += 1;
        }
    }
    unlike
}

/// Whether some link has two lengths.
fn lengths_differ(artery: &Artery) -> bool
    ensures { result ≡ lengths_differ artery.now }
{
    1 <= unlike_lengths(artery, artery.count() - 1)
}

/// Writes the unit of lengths, and which are shown.
fn push_lengths_head(out: &mut Vec<u8>, artery: &Artery) -> Result<(), Memory>
    ensures { OnOk result (out.new.items ≡ out.old.items ++ lengths_head artery.now) }
{
    push_text(out, unit_of_length(artery.head().units))?;
    if lengths_differ(artery) {
        push_text(out, " out/in")
    } else {
        Ok(())
    }
}

/// Writes what stands above the column of lengths.
#[tactic(auto, unfolding(crate::specs::Shapes::words_text))]
fn push_length_head(out: &mut Vec<u8>, x: u32, artery: &Artery) -> Result<(), Memory>
    ensures { OnOk result (out.new.items ≡ out.old.items ++ words_text HeadEnd (pos x) head_level (lengths_head artery.now)) }
{
    push_opening(out, Letter::HeadEnd, x, HEAD_LEVEL)?;
    push_lengths_head(out, artery)?;
    push_words_end(out)
}

/// Writes what stands above the columns of the links.
#[tactic(auto, unfolding(crate::specs::Captions::link_heads))]
fn push_link_heads(out: &mut Vec<u8>, frame: Frame, artery: &Artery) -> Result<(), Memory>
    requires { IsFrame frame }
    ensures { OnOk result (out.new.items ≡ out.old.items ++ captions_text (link_heads frame artery.now)) }
{
    let right = plot_right(frame);
    let units = artery.head().units;
    push_length_head(out, right + 880, artery)?;
    push_speed_head(out, right + 1480, "out ", units)?;
    push_speed_head(out, right + 2060, "in ", units)
}

/// Writes how many cycles there are.
fn push_cycles(out: &mut Vec<u8>, cycles: u32) -> Result<(), Memory>
    ensures { OnOk result (out.new.items ≡ out.old.items ++ cycles_text cycles) }
{
    push_number(out, cycles as u128)?;
    if cycles == 1 {
        push_text(out, " cycle")
    } else {
        push_text(out, " cycles")
    }
}

/// Writes the number of cycles where so many end.
#[tactic(auto, unfolding(crate::specs::Shapes::words_text))]
fn push_cycle_number(out: &mut Vec<u8>, frame: Frame, cycles: u32) -> Result<(), Memory>
    requires frame { IsFrame frame }
    requires cycles { cycles ≤ 12 }
    ensures { OnOk result (out.new.items ≡ out.old.items ++ caption_text (cycle_number frame cycles)) }
{
    let x = cycle_x(frame, cycles);
    push_words_opening(out, Letter::HeadMiddle, x, i128::from(HEAD_LEVEL))?;
    push_cycles(out, cycles)?;
    push_words_end(out)
}

/// Writes the numbers of cycles above the field.
fn push_cycle_numbers(out: &mut Vec<u8>, frame: Frame) -> Result<(), Memory>
    requires { IsFrame frame }
    ensures { OnOk result (out.new.items ≡ out.old.items ++ captions_text (cycle_numbers frame)) }
{
    for cycles in 1..frame.cycles + 1 {
        push_cycle_number(out, frame, cycles)?;
    }
    Ok(())
}

/// Writes the second of a line below it.
#[tactic(auto, unfolding(crate::specs::Shapes::words_text))]
fn push_second_number(out: &mut Vec<u8>, frame: Frame, base: &Base, line: u32) -> Result<(), Memory>
    requires frame { IsFrame frame }
    requires line { line ≤ 19 }
    ensures { OnOk result (out.new.items ≡ out.old.items ++ caption_text (second_number frame base.now line)) }
{
    let x = second_x(frame, base, line);
    let y = i128::from(plot_bottom(frame) + 210);
    push_words_opening(out, Letter::Axis, x, y)?;
    push_number(out, second_at(frame, base, line) as u128)?;
    push_words_end(out)
}

/// Writes the numbers of seconds below the field.
fn push_second_numbers(out: &mut Vec<u8>, frame: Frame, base: &Base) -> Result<(), Memory>
    requires { IsFrame frame }
    ensures { OnOk result (out.new.items ≡ out.old.items ++ captions_text (second_numbers frame base.now)) }
{
    for line in 0..steps_shown(frame, base) {
        push_second_number(out, frame, base, line)?;
    }
    Ok(())
}

/// Where the words of a signal stand.
fn row_level(frame: Frame, artery: &Artery, signal: u32) -> u32
    requires frame { IsFrame frame }
    requires signal { HasSignal artery.now signal }
    ensures { pos result ≡ row_level frame artery.now signal }
{
    level(frame, artery, signal) + 50
}

/// Writes the name of a signal.
fn push_name(out: &mut Vec<u8>, frame: Frame, artery: &Artery, signal: u32) -> Result<(), Memory>
    requires frame { IsFrame frame }
    requires signal { HasSignal artery.now signal }
    ensures { OnOk result (out.new.items ≡ out.old.items ++ sized_text (name_caption frame artery.now signal)) }
{
    let name = signal_name(artery, signal);
    let room = frame.left - COLUMNS_LEFT;
    let size = fitting(NAME_SIZE, room, text_width(name.as_bytes()));
    let y = row_level(frame, artery, signal);
    push_sized(out, Letter::Name, size, NAME_LEFT, y, name)
}

/// Writes the names of the signals.
pub fn push_names(out: &mut Vec<u8>, frame: Frame, artery: &Artery) -> Result<(), Memory>
    requires { IsFrame frame }
    ensures { OnOk result (out.new.items ≡ out.old.items ++ sizeds_text (names frame artery.now)) }
{
    for signal in 1..artery.count() + 1 {
        push_name(out, frame, artery, signal)?;
    }
    Ok(())
}

/// Writes a number at a point.
#[tactic(auto, unfolding(crate::specs::Shapes::words_text))]
fn push_number_words(out: &mut Vec<u8>, x: u32, y: u32, number: u32) -> Result<(), Memory>
    ensures { OnOk result (out.new.items ≡ out.old.items ++ words_text Number (pos x) (pos y) (decimal number)) }
{
    push_opening(out, Letter::Number, x, y)?;
    push_number(out, number as u128)?;
    push_words_end(out)
}

/// How a left turn goes.
fn turn_word(turn: u32, early: bool) -> &'static str
    ensures { result.now ≡ turn_word turn early }
{
    if turn == 0 {
        "-"
    } else if early {
        "lag"
    } else {
        "lead"
    }
}

/// How the left turn goes that is against a direction.
fn turn_text(artery: &Artery, base: &Base, dir: Dir, signal: u32) -> &'static str
    requires shape { IsFor artery.now base.now }
    requires signal { HasSignal artery.now signal }
    ensures { result.now ≡ turn_text artery.now base.now dir signal }
{
    turn_word(
        artery.left_against(dir, signal),
        is_early(dir, base.pattern(signal)),
    )
}

/// Writes how both left turns of a signal go.
fn push_turns(out: &mut Vec<u8>, artery: &Artery, base: &Base, signal: u32) -> Result<(), Memory>
    requires shape { IsFor artery.now base.now }
    requires signal { HasSignal artery.now signal }
    ensures { OnOk result (out.new.items ≡ out.old.items ++ (turn_text artery.now base.now Inbound signal ++ (codes "/" ++ turn_text artery.now base.now Outbound signal))) }
{
    push_text(out, turn_text(artery, base, Dir::Inbound, signal))?;
    push_text(out, "/")?;
    push_text(out, turn_text(artery, base, Dir::Outbound, signal))
}

/// Writes the pattern of a signal in words.
fn push_pattern(out: &mut Vec<u8>, artery: &Artery, base: &Base, signal: u32) -> Result<(), Memory>
    requires shape { IsFor artery.now base.now }
    requires signal { HasSignal artery.now signal }
    ensures { OnOk result (out.new.items ≡ out.old.items ++ pattern_text artery.now base.now signal) }
{
    let inbound = artery.left_against(Dir::Outbound, signal);
    let outbound = artery.left_against(Dir::Inbound, signal);
    if inbound == 0 && outbound == 0 {
        return push_text(out, "-");
    }
    push_turns(out, artery, base, signal)
}

/// Writes the pattern of a signal at a point.
#[tactic(auto, unfolding(crate::specs::Shapes::words_text))]
fn push_pattern_words(
    out: &mut Vec<u8>,
    x: u32,
    y: u32,
    artery: &Artery,
    base: &Base,
    signal: u32,
) -> Result<(), Memory>
    requires shape { IsFor artery.now base.now }
    requires signal { HasSignal artery.now signal }
    ensures { OnOk result (out.new.items ≡ out.old.items ++ words_text Number (pos x) (pos y) (pattern_text artery.now base.now signal)) }
{
    push_opening(out, Letter::Number, x, y)?;
    push_pattern(out, artery, base, signal)?;
    push_words_end(out)
}

/// Writes the offset of a signal at a point.
#[tactic(auto, unfolding(crate::specs::Shapes::words_text))]
fn push_offset_words(
    out: &mut Vec<u8>,
    x: u32,
    y: u32,
    artery: &Artery,
    base: &Base,
    signal: u32,
) -> Result<(), Memory>
    requires first { 1 ≤ signal }
    requires last { signal ≤ length base.now.patterns }
    ensures { OnOk result (out.new.items ≡ out.old.items ++ words_text Number (pos x) (pos y) (offset_text artery.now base.now signal)) }
{
    push_opening(out, Letter::Number, x, y)?;
    push_offset(out, artery, base, signal)?;
    push_words_end(out)
}

/// Writes the numbers of a signal: its own, its pattern and its offset.
#[tactic(auto, unfolding(crate::specs::Captions::signal_row))]
fn push_signal_row(
    out: &mut Vec<u8>,
    frame: Frame,
    artery: &Artery,
    base: &Base,
    signal: u32,
) -> Result<(), Memory>
    requires frame { IsFrame frame }
    requires shape { IsFor artery.now base.now }
    requires signal { HasSignal artery.now signal }
    ensures { OnOk result (out.new.items ≡ out.old.items ++ captions_text (signal_row frame artery.now base.now signal)) }
{
    let y = row_level(frame, artery, signal);
    push_number_words(out, 330, y, signal)?;
    push_pattern_words(out, frame.left - 760, y, artery, base, signal)?;
    push_offset_words(out, frame.left - 170, y, artery, base, signal)
}

/// Writes the numbers of the signals.
fn push_signal_rows(
    out: &mut Vec<u8>,
    frame: Frame,
    artery: &Artery,
    base: &Base,
) -> Result<(), Memory>
    requires frame { IsFrame frame }
    requires shape { IsFor artery.now base.now }
    ensures { OnOk result (out.new.items ≡ out.old.items ++ captions_text (signal_rows frame artery.now base.now)) }
{
    for signal in 1..artery.count() + 1 {
        push_signal_row(out, frame, artery, base, signal)?;
    }
    Ok(())
}

/// Where the words of a link stand.
fn link_level(frame: Frame, artery: &Artery, link: u32) -> u32
    requires frame { IsFrame frame }
    requires link { HasLink artery.now link }
    ensures { pos result ≡ link_level frame artery.now link }
{
    // there are few signals
    let _ = artery.count();
    (level(frame, artery, link) + level(frame, artery, link + 1)) / 2 + 50
}

/// Writes the length of a link, or both.
fn push_lengths(out: &mut Vec<u8>, both: bool, outbound: u32, inbound: u32) -> Result<(), Memory>
    ensures { OnOk result (out.new.items ≡ out.old.items ++ lengths_text both outbound inbound) }
{
    push_number(out, outbound as u128)?;
    if !both {
        return Ok(());
    }
    push_text(out, "/")?;
    push_number(out, inbound as u128)
}

/// Writes the length of a link at a point, or both.
#[tactic(auto, unfolding(crate::specs::Shapes::words_text))]
fn push_lengths_words(
    out: &mut Vec<u8>,
    x: u32,
    y: u32,
    both: bool,
    outbound: u32,
    inbound: u32,
) -> Result<(), Memory>
    ensures { OnOk result (out.new.items ≡ out.old.items ++ words_text Number (pos x) (pos y) (lengths_text both outbound inbound)) }
{
    push_opening(out, Letter::Number, x, y)?;
    push_lengths(out, both, outbound, inbound)?;
    push_words_end(out)
}

/// Writes the speed in a direction on a link, where its run takes some time.
fn push_link_speed(
    out: &mut Vec<u8>,
    artery: &Artery,
    base: &Base,
    dir: Dir,
    link: u32,
) -> Result<(), Memory>
    requires shape { IsFor artery.now base.now }
    requires link { HasLink artery.now link }
    ensures { OnOk result (out.new.items ≡ out.old.items ++ link_speed_text artery.now base.now dir link) }
{
    match some_speed(artery, base, dir, link) {
        Some(speed) => push_tenths(out, speed),
        None => push_text(out, "-"),
    }
}

/// Writes the speed in a direction on a link at a point.
#[tactic(auto, unfolding(crate::specs::Shapes::words_text))]
fn push_speed_words(
    out: &mut Vec<u8>,
    x: u32,
    y: u32,
    artery: &Artery,
    base: &Base,
    dir: Dir,
    link: u32,
) -> Result<(), Memory>
    requires shape { IsFor artery.now base.now }
    requires link { HasLink artery.now link }
    ensures { OnOk result (out.new.items ≡ out.old.items ++ words_text Number (pos x) (pos y) (link_speed_text artery.now base.now dir link)) }
{
    push_opening(out, Letter::Number, x, y)?;
    push_link_speed(out, artery, base, dir, link)?;
    push_words_end(out)
}

/// Writes the numbers of a link: its length, and the speed in each direction.
#[tactic(auto, unfolding(crate::specs::Captions::link_row))]
fn push_link_row(
    out: &mut Vec<u8>,
    frame: Frame,
    artery: &Artery,
    base: &Base,
    link: u32,
) -> Result<(), Memory>
    requires frame { IsFrame frame }
    requires shape { IsFor artery.now base.now }
    requires link { HasLink artery.now link }
    ensures { OnOk result (out.new.items ≡ out.old.items ++ captions_text (link_row frame artery.now base.now link)) }
{
    let y = link_level(frame, artery, link);
    let right = plot_right(frame);
    let both = lengths_differ(artery);
    let outbound = artery.distance(Dir::Outbound, link);
    let inbound = artery.distance(Dir::Inbound, link);
    push_lengths_words(out, right + 880, y, both, outbound, inbound)?;
    push_speed_words(out, right + 1480, y, artery, base, Dir::Outbound, link)?;
    push_speed_words(out, right + 2060, y, artery, base, Dir::Inbound, link)
}

/// Writes the numbers of the links.
fn push_link_rows(
    out: &mut Vec<u8>,
    frame: Frame,
    artery: &Artery,
    base: &Base,
) -> Result<(), Memory>
    requires frame { IsFrame frame }
    requires shape { IsFor artery.now base.now }
    ensures { OnOk result (out.new.items ≡ out.old.items ++ captions_text (link_rows frame artery.now base.now)) }
{
    for link in 1..artery.count() {
        push_link_row(out, frame, artery, base, link)?;
    }
    Ok(())
}

/// Writes what explains the reds.
#[tactic(auto, unfolding(crate::specs::Captions::red_words))]
fn push_red_words(out: &mut Vec<u8>, frame: Frame) -> Result<(), Memory>
    requires { IsFrame frame }
    ensures { OnOk result (out.new.items ≡ out.old.items ++ captions_text (red_words frame)) }
{
    let left = frame.left;
    let level = plot_bottom(frame) + 785;
    push_words(out, Letter::Key, left + 480, level, "common red")?;
    push_words(
        out,
        Letter::Key,
        left + 1980,
        level,
        "red for the opposing left turn",
    )
}

/// Writes what explains the bands.
#[tactic(auto, unfolding(crate::specs::Captions::band_words))]
fn push_band_words(out: &mut Vec<u8>, frame: Frame) -> Result<(), Memory>
    requires { IsFrame frame }
    ensures { OnOk result (out.new.items ≡ out.old.items ++ captions_text (band_words frame)) }
{
    let left = frame.left;
    let level = plot_bottom(frame) + 785;
    push_words(
        out,
        Letter::Key,
        left + 4600,
        level,
        "outbound band, lower bars",
    )?;
    push_words(
        out,
        Letter::Key,
        left + 7000,
        level,
        "inbound band, upper bars",
    )
}

fn axis_words() -> &'static str
    ensures { result.now ≡ axis_words }
{
    "seconds after the start of the common red of signal 1"
}

fn bar_words() -> &'static str
    ensures { result.now ≡ bar_words }
{
    "on a bar: full colour is the band, white is green beside it"
}

fn note_words() -> &'static str
    ensures { result.now ≡ note_words }
{
    "Where queues are given time to clear, vehicles trail the band by the sum of the clearances so far; a mark has the seconds at its signal."
}

/// The clearances at the ends of the first links, in both directions.
#[tactic(auto, using(crate::proofs::Measures::clearances_up))]
fn clearances(artery: &Artery, links: u32) -> u32
    requires last { links < count artery.now }
    requires many { links ≤ 24 }
    ensures value { result ≡ clearances artery.now links }
    ensures most { result ≤ links * 2000000 }
{
    let mut parts = 0;
    for link in 1..links + 1 {
        parts += artery.clearance(Dir::Outbound, link + 1) + artery.clearance(Dir::Inbound, link);
    }
    parts
}

/// Writes what is said of queues, where some clearance is given.
fn push_queue_notes(out: &mut Vec<u8>, frame: Frame, artery: &Artery) -> Result<(), Memory>
    requires { IsFrame frame }
    ensures { OnOk result (out.new.items ≡ out.old.items ++ captions_text (queue_notes frame artery.now)) }
{
    if clearances(artery, artery.count() - 1) == 0 {
        return Ok(());
    }
    let y = plot_bottom(frame) + 1260;
    push_words(out, Letter::Note, frame.left, y, note_words())
}

/// Writes what explains the axis and the bars.
#[tactic(auto, unfolding(crate::specs::Captions::notes))]
fn push_notes(out: &mut Vec<u8>, frame: Frame) -> Result<(), Memory>
    requires { IsFrame frame }
    ensures { OnOk result (out.new.items ≡ out.old.items ++ captions_text (notes frame)) }
{
    let bottom = plot_bottom(frame);
    let middle = frame.left + plot_width(frame) / 2;
    push_words(out, Letter::Axis, middle, bottom + 420, axis_words())?;
    push_words(
        out,
        Letter::Key,
        frame.left + 480,
        bottom + 1035,
        bar_words(),
    )
}

/// Writes ticks as seconds, with their unit.
fn push_some_seconds(out: &mut Vec<u8>, base: &Base, ticks: u128) -> Result<(), Memory>
    requires { ticks < 2 ^ 126 }
    ensures { OnOk result (out.new.items ≡ out.old.items ++ (seconds_text base.now ticks ++ codes " s")) }
{
    push_seconds(out, base, ticks)?;
    push_text(out, " s")
}

/// Writes the seconds beside a mark.
#[tactic(auto, unfolding(crate::specs::Shapes::words_text))]
fn push_mark(
    out: &mut Vec<u8>,
    frame: Frame,
    artery: &Artery,
    timing: &Timing,
    dir: Dir,
    signal: u32,
) -> Result<(), Memory>
    requires frame { IsFrame frame }
    requires shape { IsFor artery.now (base timing.now) }
    requires signal { HasSignal artery.now signal }
    ensures { OnOk result (out.new.items ≡ out.old.items ++ caption_text (mark frame artery.now timing.now dir signal)) }
{
    let base = timing.base();
    let x = step_begin(frame, artery, timing, dir, signal);
    let y = mark_level(frame, artery, dir, signal);
    push_words_opening(out, Letter::Mark, x, y)?;
    push_some_seconds(out, base, step_ticks(artery, base, dir, signal))?;
    push_words_end(out)
}

/// The same where there is a step.
fn push_marks_at(
    out: &mut Vec<u8>,
    frame: Frame,
    artery: &Artery,
    timing: &Timing,
    dir: Dir,
    signal: u32,
) -> Result<(), Memory>
    requires frame { IsFrame frame }
    requires shape { IsFor artery.now (base timing.now) }
    requires signal { HasSignal artery.now signal }
    ensures { OnOk result (out.new.items ≡ out.old.items ++ captions_text (marks_at frame artery.now timing.now dir signal)) }
{
    if !has_step(artery, timing, dir, signal) {
        return Ok(());
    }
    push_mark(out, frame, artery, timing, dir, signal)
}

/// Writes the seconds beside the marks of a signal.
#[tactic(auto, unfolding(crate::specs::Captions::signal_marks))]
fn push_signal_marks(
    out: &mut Vec<u8>,
    frame: Frame,
    artery: &Artery,
    timing: &Timing,
    signal: u32,
) -> Result<(), Memory>
    requires frame { IsFrame frame }
    requires shape { IsFor artery.now (base timing.now) }
    requires signal { HasSignal artery.now signal }
    ensures { OnOk result (out.new.items ≡ out.old.items ++ captions_text (signal_marks frame artery.now timing.now signal)) }
{
    push_marks_at(out, frame, artery, timing, Dir::Outbound, signal)?;
    push_marks_at(out, frame, artery, timing, Dir::Inbound, signal)
}

/// The same of all signals.
fn push_marks(
    out: &mut Vec<u8>,
    frame: Frame,
    artery: &Artery,
    timing: &Timing,
) -> Result<(), Memory>
    requires frame { IsFrame frame }
    requires shape { IsFor artery.now (base timing.now) }
    ensures { OnOk result (out.new.items ≡ out.old.items ++ captions_text (marks frame artery.now timing.now)) }
{
    for signal in 1..artery.count() + 1 {
        push_signal_marks(out, frame, artery, timing, signal)?;
    }
    Ok(())
}

/// Writes the words above the field.
#[tactic(auto, unfolding(crate::specs::Captions::above))]
fn push_above(out: &mut Vec<u8>, frame: Frame, artery: &Artery) -> Result<(), Memory>
    requires frame { IsFrame frame }
    ensures { OnOk result (out.new.items ≡ out.old.items ++ captions_text (above frame artery.now)) }
{
    push_signal_heads(out, frame)?;
    push_link_heads(out, frame, artery)?;
    push_cycle_numbers(out, frame)
}

/// Writes the words beside the field.
fn push_beside(out: &mut Vec<u8>, frame: Frame, artery: &Artery, base: &Base) -> Result<(), Memory>
    requires frame { IsFrame frame }
    requires shape { IsFor artery.now base.now }
    ensures { OnOk result (out.new.items ≡ out.old.items ++ captions_text (beside frame artery.now base.now)) }
{
    push_signal_rows(out, frame, artery, base)?;
    push_link_rows(out, frame, artery, base)
}

/// Writes the words below the field.
fn push_below(out: &mut Vec<u8>, frame: Frame, artery: &Artery, base: &Base) -> Result<(), Memory>
    requires { IsFrame frame }
    ensures { OnOk result (out.new.items ≡ out.old.items ++ captions_text (below frame artery.now base.now)) }
{
    push_second_numbers(out, frame, base)?;
    push_red_words(out, frame)?;
    push_band_words(out, frame)?;
    push_notes(out, frame)?;
    push_queue_notes(out, frame, artery)
}

/// Writes all words but those in letters of a size of their own.
pub fn push_captions(
    out: &mut Vec<u8>,
    frame: Frame,
    artery: &Artery,
    timing: &Timing,
) -> Result<(), Memory>
    requires frame { IsFrame frame }
    requires shape { IsFor artery.now (base timing.now) }
    ensures { OnOk result (out.new.items ≡ out.old.items ++ captions_text (captions frame artery.now timing.now)) }
{
    let base = timing.base();
    push_above(out, frame, artery)?;
    push_beside(out, frame, artery, base)?;
    push_marks(out, frame, artery, timing)?;
    push_below(out, frame, artery, base)
}
