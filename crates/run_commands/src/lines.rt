//! The lines of rules that are broken, and of a name and a number.

ghost use Rattle.std.specs.{Prelude.{◌≡◌, ◌++◌, IfOk, OnOk, codes}, Fmt.{decimal, signed_decimal}};
ghost use Rattle.quantity_text.specs.Exact.{exact_spelling};
ghost use Rattle.run_commands.specs.Lines.{least_text, link_text, failing_text};

use artery_model::Dir;
use diagram_print::dir_name;
use narrow_fraction::{Frac, Memory};
use quantity_text::{push_exact, push_text, push_whole};
use run_inputs::push_numbered;
use std::alloc::Global;
use time_space::Failing;

/// The line of a certificate without a timing.
pub const UNTIMED: &str = "no plan timing\n";

/// The lines of a text.
pub fn text_lines(alloc: Global, text: &str) -> Result<Vec<u8>, Memory>
    ensures { IfOk result (λ lines. lines.items ≡ text.now) }
{
    let mut lines = Vec::new(alloc);
    push_text(&mut lines, text)?;
    Ok(lines)
}

/// Writes a line of a name and a number.
pub fn push_number_line(out: &mut Vec<u8>, name: &str, number: u128) -> Result<(), Memory>
    ensures { OnOk result (out.new.items ≡ out.old.items ++ (name.now ++ (decimal number ++ codes "\n"))) }
{
    push_numbered(out, name, number)?;
    push_text(out, "\n")
}

/// Writes a name and the exact spelling of a fraction.
fn push_named_exact(out: &mut Vec<u8>, name: &str, value: Frac) -> Result<(), Memory>
    ensures { OnOk result (out.new.items ≡ out.old.items ++ (name.now ++ exact_spelling value)) }
{
    push_text(out, name)?;
    push_exact(out, value)
}

/// Writes a line of a name and the exact spelling of a fraction.
pub fn push_exact_line(out: &mut Vec<u8>, name: &str, value: Frac) -> Result<(), Memory>
    ensures { OnOk result (out.new.items ≡ out.old.items ++ (name.now ++ (exact_spelling value ++ codes "\n"))) }
{
    push_named_exact(out, name, value)?;
    push_text(out, "\n")
}

/// Writes a line of two fractions, each after a name.
pub fn push_pair_line(
    out: &mut Vec<u8>,
    name: &str,
    value: Frac,
    other_name: &str,
    other: Frac,
) -> Result<(), Memory>
    ensures { OnOk result (out.new.items ≡ out.old.items ++ (name.now ++ (exact_spelling value ++ (other_name.now ++ (exact_spelling other ++ codes "\n"))))) }
{
    push_named_exact(out, name, value)?;
    push_exact_line(out, other_name, other)
}

/// Writes the number of a signal and a tick there.
pub fn push_crossing(out: &mut Vec<u8>, signal: u32, tick: i128) -> Result<(), Memory>
    ensures { OnOk result (out.new.items ≡ out.old.items ++ (codes " signal " ++ (decimal signal ++ (codes " tick " ++ signed_decimal tick)))) }
{
    push_numbered(out, " signal ", signal as u128)?;
    push_text(out, " tick ")?;
    push_whole(out, tick)
}

/// Writes the rule of the least band of a direction.
fn push_least(out: &mut Vec<u8>, dir: Dir) -> Result<(), Memory>
    ensures { OnOk result (out.new.items ≡ out.old.items ++ least_text dir) }
{
    push_text(out, "least ")?;
    push_text(out, dir_name(dir))
}

/// Writes a rule of one link in one direction.
fn push_link(out: &mut Vec<u8>, rule: &str, dir: Dir, link: u32) -> Result<(), Memory>
    ensures { OnOk result (out.new.items ≡ out.old.items ++ link_text rule.now dir link) }
{
    push_text(out, rule)?;
    push_text(out, " ")?;
    push_text(out, dir_name(dir))?;
    push_numbered(out, " link ", link as u128)
}

/// Writes the text that names a broken rule.
pub fn push_failing(out: &mut Vec<u8>, failing: Failing) -> Result<(), Memory>
    ensures { OnOk result (out.new.items ≡ out.old.items ++ failing_text failing) }
{
    match failing {
        Failing::Shape => push_text(out, "shape"),
        Failing::Pattern { signal } => push_numbered(out, "pattern signal ", signal as u128),
        Failing::CycleShort => push_text(out, "cycle short"),
        Failing::CycleLong => push_text(out, "cycle long"),
        Failing::Fast { dir, link } => push_link(out, "fast", dir, link),
        Failing::Slow { dir, link } => push_link(out, "slow", dir, link),
        Failing::Rise { dir, link } => push_link(out, "rise", dir, link),
        Failing::Drop { dir, link } => push_link(out, "drop", dir, link),
        Failing::Ratio => push_text(out, "ratio"),
        Failing::Least { dir } => push_least(out, dir),
        Failing::Equal => push_text(out, "equal"),
        Failing::Outbound { signal, tick } => {
            push_text(out, "outbound")?;
            push_crossing(out, signal, tick)
        }
        Failing::Inbound { signal, tick } => {
            push_text(out, "inbound")?;
            push_crossing(out, signal, tick)
        }
    }
}

/// Writes a line that begins so and names a broken rule.
pub fn push_failing_line(out: &mut Vec<u8>, begin: &str, failing: Failing) -> Result<(), Memory>
    ensures { OnOk result (out.new.items ≡ out.old.items ++ (begin.now ++ (failing_text failing ++ codes "\n"))) }
{
    push_text(out, begin)?;
    push_failing(out, failing)?;
    push_text(out, "\n")
}
