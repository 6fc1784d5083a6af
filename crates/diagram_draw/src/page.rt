//! The whole drawing, and its text.

ghost use Rattle.std.specs.{Prelude.{◌≡◌, ◌+◌, ◌/◌, ◌%◌, ◌≤◌, ◌++◌, codes, IfOk, OnOk, option_map, pos}, Fmt.{decimal}};
ghost use Rattle.progression.specs.Street.{count, HasSignal};
ghost use Rattle.diagram_draw.specs.{declared.shape.Shape.TheVariants.{Rect}, Shapes.{shapes_text}, Frames.{IsFrame}, Axes.{back}, Steps.{steps}};
ghost use Rattle.timing_words.specs.Numbers.{tenths_text};
ghost use Rattle.diagram_draw.specs.{Captions.{title_text}, Pages.{head_text, body_text, tail_text, svg_text}};
ghost use Rattle.diagram_draw.specs.Pages.{key_bar, key_piece, key_shapes, signal_about, signals_about, about_text, field_shapes, drawn, drawing};
ghost use Rattle.diagram_draw.specs.Pages.{plot_clip, paper_text, size_text, box_text, svg_opening, title_part, about_part, opening_text, definitions_text, field_part};
ghost use Rattle.time_space.specs.Timing.{IsFor};
ghost use Rattle.progression.specs.TimingRecord.{base};

use crate::axes::back;
use crate::bands::all_pieces;
use crate::bars::all_bars;
use crate::captions::{push_captions, push_facts, push_heads, push_names, push_offset, push_title};
use crate::escape::push_escaped;
use crate::frame::{
    BAR_HEIGHT, Frame, frame_of, page_height, page_width, plot_bottom, plot_width, shown_height,
    shown_width,
};
use crate::paint::Paint;
use crate::shape::{Shape, Side, push_shapes};
use crate::steps::steps;
use crate::style::{push_style, tile_text};
use artery_model::Artery;
use narrow_fraction::Memory;
use quantity_text::{push_number, push_text};
use std::alloc::Global;
use time_space::{Base, Timing};
use timing_measures::signal_name;

/// A part of a sample of a bar.
fn key_block(paint: Paint, left: u32, right: u32, top: u32) -> Shape
    requires { top ≤ 30000 }
    ensures { result ≡ Rect paint (pos left) (pos top) (pos right) (pos (top + 90)) }
{
    Shape::Rect {
        paint,
        left: i128::from(left),
        top: i128::from(top),
        right: i128::from(right),
        bottom: i128::from(top + BAR_HEIGHT),
    }
}

/// A sample of a bar.
fn key_bar(
    alloc: Global,
    frame: Frame,
    x: u32,
    top: u32,
    paint: Paint,
) -> Result<Vec<Shape>, Memory>
    requires frame { IsFrame frame }
    requires x { x ≤ 9000 }
    requires top { top ≤ 30000 }
    ensures { IfOk result (λ shapes. shapes.items ≡ key_bar frame x top paint) }
{
    let left = frame.left + x;
    let mut shapes = Vec::new(alloc);
    shapes.push(key_block(Paint::Ground, left, left + 400, top))?;
    shapes.push(key_block(paint, left + 60, left + 340, top))?;
    Ok(shapes)
}

/// A sample of a band.
fn key_piece(frame: Frame, x: u32, paint: Paint, from: u32, to: u32) -> Shape
    requires frame { IsFrame frame }
    requires x { x ≤ 9000 }
    ensures { result ≡ key_piece frame x paint from to }
{
    let left = i128::from(frame.left + x);
    Shape::Slant {
        paint,
        from: Side {
            left,
            right: left + 220,
            level: i128::from(from),
        },
        to: Side {
            left: left + 200,
            right: left + 420,
            level: i128::from(to),
        },
    }
}

/// What explains the shapes.
#[tactic(auto, unfolding(crate::specs::Pages::key_shapes))]
fn key_shapes(alloc: Global, frame: Frame) -> Result<Vec<Shape>, Memory>
    requires { IsFrame frame }
    ensures { IfOk result (λ shapes. shapes.items ≡ key_shapes frame) }
{
    let bottom = plot_bottom(frame);
    let top = bottom + 700;
    let mut shapes = key_bar(alloc, frame, 0, top, Paint::CommonRed)?;
    let turn = key_bar(alloc, frame, 1500, top, Paint::TurnRed)?;
    let green = key_bar(alloc, frame, 0, bottom + 950, Paint::OutWindow)?;
    shapes.extend_from_slice(turn.as_slice())?;
    shapes.extend_from_slice(green.as_slice())?;
    shapes.push(key_piece(frame, 4100, Paint::OutBand, top + 170, top - 80))?;
    shapes.push(key_piece(frame, 6500, Paint::InBand, top - 80, top + 170))?;
    Ok(shapes)
}

/// Writes what stands before the name of a signal.
fn push_signal_opening(out: &mut Vec<u8>, signal: u32) -> Result<(), Memory>
    ensures { OnOk result (out.new.items ≡ out.old.items ++ (codes "; signal " ++ (decimal signal ++ codes ", "))) }
{
    push_text(out, "; signal ")?;
    push_number(out, signal as u128)?;
    push_text(out, ", ")
}

/// Writes what is read aloud of a signal.
#[tactic(auto, unfolding(crate::specs::Pages::signal_about))]
fn push_signal_about(
    out: &mut Vec<u8>,
    artery: &Artery,
    base: &Base,
    signal: u32,
) -> Result<(), Memory>
    requires shape { IsFor artery.now base.now }
    requires signal { HasSignal artery.now signal }
    ensures { OnOk result (out.new.items ≡ out.old.items ++ signal_about artery.now base.now signal) }
{
    push_signal_opening(out, signal)?;
    push_escaped(out, signal_name(artery, signal).as_bytes())?;
    push_text(out, ", offset ")?;
    push_offset(out, artery, base, signal)?;
    push_text(out, " s")
}

/// Writes the same of all signals.
fn push_signals_about(out: &mut Vec<u8>, artery: &Artery, base: &Base) -> Result<(), Memory>
    requires { IsFor artery.now base.now }
    ensures { OnOk result (out.new.items ≡ out.old.items ++ signals_about artery.now base.now) }
{
    for signal in 1..artery.count() + 1 {
        push_signal_about(out, artery, base, signal)?;
    }
    Ok(())
}

/// Writes what is read aloud of the drawing.
#[tactic(auto, unfolding(crate::specs::Pages::about_text))]
fn push_about(out: &mut Vec<u8>, artery: &Artery, timing: &Timing) -> Result<(), Memory>
    requires { IsFor artery.now (base timing.now) }
    ensures { OnOk result (out.new.items ≡ out.old.items ++ about_text artery.now timing.now) }
{
    push_facts(out, artery, timing)?;
    push_signals_about(out, artery, timing.base())
}

/// What is seen through the field of the diagram.
fn field_shapes(
    alloc: Global,
    frame: Frame,
    artery: &Artery,
    timing: &Timing,
) -> Result<Vec<Shape>, Memory>
    requires frame { IsFrame frame }
    requires shape { IsFor artery.now (base timing.now) }
    ensures { IfOk result (λ shapes. shapes.items ≡ field_shapes frame artery.now timing.now) }
{
    let mut shapes = all_pieces(alloc, frame, artery, timing)?;
    let bars = all_bars(alloc, frame, artery, timing)?;
    shapes.extend_from_slice(bars.as_slice())?;
    Ok(shapes)
}

/// Writes through which the field is seen.
#[tactic(auto, unfolding(crate::specs::Pages::plot_clip))]
fn push_plot_clip(out: &mut Vec<u8>, frame: Frame) -> Result<(), Memory>
    requires { IsFrame frame }
    ensures { OnOk result (out.new.items ≡ out.old.items ++ plot_clip frame) }
{
    let width = plot_width(frame);
    let height = frame.span + 520;
    push_text(out, "<clipPath id=\"plot\"><rect x=\"")?;
    push_number(out, frame.left as u128)?;
    push_text(out, "\" y=\"1500\" width=\"")?;
    push_number(out, width as u128)?;
    push_text(out, "\" height=\"")?;
    push_number(out, height as u128)?;
    push_text(out, "\"/></clipPath>\n")
}

/// Writes so many tenths.
fn push_tenths(out: &mut Vec<u8>, tenths: u32) -> Result<(), Memory>
    ensures { OnOk result (out.new.items ≡ out.old.items ++ tenths_text tenths) }
{
    push_number(out, (tenths / 10) as u128)?;
    push_text(out, ".")?;
    push_number(out, (tenths % 10) as u128)
}

/// Writes tenths of a millimetre.
fn push_paper(out: &mut Vec<u8>, tenths: u32) -> Result<(), Memory>
    ensures { OnOk result (out.new.items ≡ out.old.items ++ paper_text tenths) }
{
    push_tenths(out, tenths)?;
    push_text(out, "mm\"")
}

/// Writes the size of the page on paper.
#[tactic(auto, unfolding(crate::specs::Pages::size_text))]
fn push_size(out: &mut Vec<u8>, frame: Frame) -> Result<(), Memory>
    requires { IsFrame frame }
    ensures { OnOk result (out.new.items ≡ out.old.items ++ size_text frame) }
{
    push_text(out, " width=\"")?;
    push_paper(out, shown_width(frame))?;
    push_text(out, " height=\"")?;
    push_paper(out, shown_height(frame))
}

/// Writes the sides of the page in tenths of a pixel.
#[tactic(auto, unfolding(crate::specs::Pages::box_text))]
fn push_box(out: &mut Vec<u8>, frame: Frame) -> Result<(), Memory>
    requires { IsFrame frame }
    ensures { OnOk result (out.new.items ≡ out.old.items ++ box_text frame) }
{
    push_text(out, " viewBox=\"0 0 ")?;
    push_number(out, page_width(frame) as u128)?;
    push_text(out, " ")?;
    push_number(out, page_height(frame) as u128)?;
    push_text(out, "\"")
}

/// Writes the beginning of the document.
#[tactic(auto, unfolding(crate::specs::Pages::svg_opening))]
fn push_svg_opening(out: &mut Vec<u8>, frame: Frame) -> Result<(), Memory>
    requires { IsFrame frame }
    ensures { OnOk result (out.new.items ≡ out.old.items ++ svg_opening frame) }
{
    push_text(out, "<svg xmlns=\"http://www.w3.org/2000/svg\"")?;
    push_size(out, frame)?;
    push_box(out, frame)?;
    push_text(out, " role=\"img\" aria-labelledby=\"title desc\">\n")
}

/// Writes the title of the document.
#[tactic(auto, unfolding(crate::specs::Pages::title_part))]
fn push_title_part(out: &mut Vec<u8>, artery: &Artery, title: Option<&str>) -> Result<(), Memory>
    ensures { OnOk result (out.new.items ≡ out.old.items ++ title_part (title_text artery.now (option_map (λ t. t.now) title.entry))) }
{
    push_text(out, "<title id=\"title\">")?;
    push_title(out, artery, title)?;
    push_text(out, "</title>\n")
}

/// Writes what is read aloud, as a part of the document.
#[tactic(auto, unfolding(crate::specs::Pages::about_part))]
fn push_about_part(out: &mut Vec<u8>, artery: &Artery, timing: &Timing) -> Result<(), Memory>
    requires { IsFor artery.now (base timing.now) }
    ensures { OnOk result (out.new.items ≡ out.old.items ++ about_part (about_text artery.now timing.now)) }
{
    push_text(out, "<desc id=\"desc\">")?;
    push_about(out, artery, timing)?;
    push_text(out, "</desc>\n")
}

/// Writes the beginning of the document, with its title and what is read aloud.
fn push_opening(
    out: &mut Vec<u8>,
    frame: Frame,
    artery: &Artery,
    timing: &Timing,
    title: Option<&str>,
) -> Result<(), Memory>
    requires frame { IsFrame frame }
    requires shape { IsFor artery.now (base timing.now) }
    ensures { OnOk result (out.new.items ≡ out.old.items ++ opening_text (drawn frame artery.now timing.now (option_map (λ t. t.now) title.entry))) }
{
    push_svg_opening(out, frame)?;
    push_title_part(out, artery, title)?;
    push_about_part(out, artery, timing)
}

/// Writes what the shapes refer to.
#[tactic(auto, unfolding(crate::specs::Pages::definitions_text))]
fn push_definitions(out: &mut Vec<u8>, frame: Frame) -> Result<(), Memory>
    requires { IsFrame frame }
    ensures { OnOk result (out.new.items ≡ out.old.items ++ definitions_text frame) }
{
    push_text(out, "<defs>\n")?;
    push_text(out, tile_text())?;
    push_plot_clip(out, frame)?;
    push_text(out, "</defs>\n")
}

/// Writes what comes before the shapes.
#[tactic(auto, unfolding(crate::specs::Pages::head_text))]
fn push_head(
    out: &mut Vec<u8>,
    frame: Frame,
    artery: &Artery,
    timing: &Timing,
    title: Option<&str>,
) -> Result<(), Memory>
    requires frame { IsFrame frame }
    requires shape { IsFor artery.now (base timing.now) }
    ensures { OnOk result (out.new.items ≡ out.old.items ++ head_text (drawn frame artery.now timing.now (option_map (λ t. t.now) title.entry))) }
{
    push_opening(out, frame, artery, timing, title)?;
    push_style(out)?;
    push_definitions(out, frame)
}

/// Writes what stands behind.
fn push_back(out: &mut Vec<u8>, frame: Frame, artery: &Artery, base: &Base) -> Result<(), Memory>
    requires { IsFrame frame }
    ensures { OnOk result (out.new.items ≡ out.old.items ++ shapes_text (back frame artery.now base.now)) }
{
    let alloc = *out.allocator();
    let shapes = back(alloc, frame, artery, base)?;
    push_shapes(out, shapes.as_slice())
}

/// Writes the part of the document with what is seen through the field.
#[tactic(auto, unfolding(crate::specs::Pages::field_part))]
fn push_field_part(out: &mut Vec<u8>, shapes: &[Shape]) -> Result<(), Memory>
    ensures { OnOk result (out.new.items ≡ out.old.items ++ field_part shapes.now) }
{
    push_text(out, "<g clip-path=\"url(#plot)\">\n")?;
    push_shapes(out, shapes)?;
    push_text(out, "</g>\n")
}

/// Writes what is seen through the field.
fn push_field(
    out: &mut Vec<u8>,
    frame: Frame,
    artery: &Artery,
    timing: &Timing,
) -> Result<(), Memory>
    requires frame { IsFrame frame }
    requires shape { IsFor artery.now (base timing.now) }
    ensures { OnOk result (out.new.items ≡ out.old.items ++ field_part (field_shapes frame artery.now timing.now)) }
{
    let alloc = *out.allocator();
    let shapes = field_shapes(alloc, frame, artery, timing)?;
    push_field_part(out, shapes.as_slice())
}

/// Writes where lines step, seen through the field.
fn push_steps(
    out: &mut Vec<u8>,
    frame: Frame,
    artery: &Artery,
    timing: &Timing,
) -> Result<(), Memory>
    requires frame { IsFrame frame }
    requires shape { IsFor artery.now (base timing.now) }
    ensures { OnOk result (out.new.items ≡ out.old.items ++ field_part (steps frame artery.now timing.now)) }
{
    let alloc = *out.allocator();
    let shapes = steps(alloc, frame, artery, timing)?;
    push_field_part(out, shapes.as_slice())
}

/// Writes what is behind the words.
#[tactic(auto, unfolding(crate::specs::Pages::body_text))]
fn push_body(
    out: &mut Vec<u8>,
    frame: Frame,
    artery: &Artery,
    timing: &Timing,
) -> Result<(), Memory>
    requires frame { IsFrame frame }
    requires shape { IsFor artery.now (base timing.now) }
    ensures { OnOk result (out.new.items ≡ out.old.items ++ body_text (back frame artery.now (base timing.now)) (field_shapes frame artery.now timing.now) (steps frame artery.now timing.now)) }
{
    push_back(out, frame, artery, timing.base())?;
    push_field(out, frame, artery, timing)?;
    push_steps(out, frame, artery, timing)
}

/// Writes the shapes that explain the others.
fn push_keys(out: &mut Vec<u8>, frame: Frame) -> Result<(), Memory>
    requires { IsFrame frame }
    ensures { OnOk result (out.new.items ≡ out.old.items ++ shapes_text (key_shapes frame)) }
{
    let alloc = *out.allocator();
    let shapes = key_shapes(alloc, frame)?;
    push_shapes(out, shapes.as_slice())
}

/// Writes the words, and what explains the shapes.
#[tactic(auto, unfolding(crate::specs::Pages::tail_text))]
fn push_tail(
    out: &mut Vec<u8>,
    frame: Frame,
    artery: &Artery,
    timing: &Timing,
    title: Option<&str>,
) -> Result<(), Memory>
    requires frame { IsFrame frame }
    requires shape { IsFor artery.now (base timing.now) }
    ensures { OnOk result (out.new.items ≡ out.old.items ++ tail_text (drawn frame artery.now timing.now (option_map (λ t. t.now) title.entry))) }
{
    push_keys(out, frame)?;
    push_heads(out, frame, artery, timing, title)?;
    push_names(out, frame, artery)?;
    push_captions(out, frame, artery, timing)?;
    push_text(out, "</svg>\n")
}

/// Writes the drawing on a frame.
fn push_drawn(
    out: &mut Vec<u8>,
    frame: Frame,
    artery: &Artery,
    timing: &Timing,
    title: Option<&str>,
) -> Result<(), Memory>
    requires frame { IsFrame frame }
    requires shape { IsFor artery.now (base timing.now) }
    ensures { OnOk result (out.new.items ≡ out.old.items ++ svg_text (drawn frame artery.now timing.now (option_map (λ t. t.now) title.entry))) }
{
    push_head(out, frame, artery, timing, title)?;
    push_body(out, frame, artery, timing)?;
    push_tail(out, frame, artery, timing, title)
}

/// The time-space diagram of a timing as an SVG document, with a title of the plan below the name of the street where one is given: time to
/// the right, in two to twelve cycles, and distance upwards, to scale; at each signal the outbound bar and over it the inbound one, with
/// their reds, and between the signals the band of each direction that has one. The error is want of memory.
pub fn draw(
    alloc: Global,
    artery: &Artery,
    timing: &Timing,
    title: Option<&str>,
) -> Result<Vec<u8>, Memory>
    requires { IsFor artery.now (base timing.now) }
    ensures { IfOk result (λ text. text.items ≡ svg_text (drawing artery.now timing.now (option_map (λ t. t.now) title.entry))) }
{
    let frame = frame_of(artery, timing);
    let mut text = Vec::new(alloc);
    push_drawn(&mut text, frame, artery, timing, title)?;
    Ok(text)
}
