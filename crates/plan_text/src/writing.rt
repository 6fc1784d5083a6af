//! The text of a timing, written.

ghost use Rattle.std.specs.{Prelude.{◌≡◌, ◌++◌, ◌∷◌, [], ◌<◌, ◌^◌, pos, Ok, IfOk, OnOk}, Fmt.{decimal}};
ghost use Rattle.progression.specs.TimingRecord.{first};
ghost use Rattle.plan_text.specs.{Spelling.{spelled, ended, base_lines, firsts_line, number_lines, timing_text, IsHeldBase, IsHeld}, Reading.{timing_of}};

use narrow_fraction::Memory;
use progression::Dir;
use quantity_text::{push_bytes, push_number, push_text};
use std::alloc::{AllocError, Global};
use time_space::{Base, Timing};

/// Writes a number after a space.
pub(crate) fn push_spaced(out: &mut Vec<u8>, number: u128) -> Result<(), Memory>
    ensures { OnOk result (out.new.items ≡ out.old.items ++ 32 ∷ decimal number) }
{
    push_text(out, " ")?;
    push_number(out, number)
}

/// Writes a line of a key and numbers.
fn push_spelled(out: &mut Vec<u8>, key: &[u8], numbers: &[u128]) -> Result<(), Memory>
    ensures { OnOk result (out.new.items ≡ out.old.items ++ (spelled key.now numbers.now ++ 10 ∷ [])) }
{
    push_bytes(out, key)?;
    for number in numbers {
        push_spaced(out, *number)?;
    }
    push_text(out, "\n")
}

/// Writes a line of a key and numbers at the end.
pub fn push_numbers(out: &mut Vec<u8>, key: &[u8], numbers: &[u128]) -> Result<(), AllocError>
    ensures { OnOk result (out.new.items ≡ out.old.items ++ (spelled key.now numbers.now ++ 10 ∷ [])) }
{
    match push_spelled(out, key, numbers) {
        Ok(()) => Ok(()),
        Err(_) => Err(AllocError),
    }
}

fn widened(alloc: Global, patterns: &[u32]) -> Result<Vec<u128>, AllocError>
    ensures { IfOk result (λ v. v.items ≡ patterns.now) }
{
    let mut wide = Vec::new(alloc);
    for pattern in patterns {
        wide.push(u128::from(*pattern))?;
    }
    Ok(wide)
}

/// Writes the six lines of a base at the end.
pub fn push_base(out: &mut Vec<u8>, base: &Base) -> Result<(), Memory>
    ensures text { OnOk result (out.new.items ≡ out.old.items ++ ended (base_lines base.now)) }
    ensures held { OnOk result (IsHeldBase base.now) }
{
    let alloc = *out.allocator();
    let patterns = widened(alloc, base.patterns())?;
    push_numbers(out, b"grid", &[base.grid()])?;
    push_numbers(out, b"unit", &[base.unit()])?;
    push_numbers(out, b"pattern", patterns.as_slice())?;
    push_numbers(out, b"red", base.reds())?;
    push_numbers(out, b"run_out", base.run_out())?;
    push_numbers(out, b"run_in", base.run_in())?;
    Ok(())
}

/// Writes the line that says where the first lines cross at the end.
pub fn push_firsts(out: &mut Vec<u8>, first_out: u128, first_in: u128) -> Result<(), Memory>
    ensures { OnOk result (out.new.items ≡ out.old.items ++ ended (firsts_line (pos first_out) (pos first_in) ∷ [])) }
{
    push_numbers(out, b"first", &[first_out, first_in])?;
    Ok(())
}

/// Where the first line of a direction crosses, in ticks.
fn first_of(timing: &Timing, dir: Dir) -> u128
    ensures value { first timing.now dir ≡ pos result }
    ensures most { result < 2 ^ 80 }
{
    timing.first(dir).unsigned_abs()
}

/// Writes the eight lines of a timing's numbers at the end.
pub(crate) fn push_timing(out: &mut Vec<u8>, timing: &Timing) -> Result<(), Memory>
    ensures text { OnOk result (out.new.items ≡ out.old.items ++ ended (number_lines timing.now)) }
    ensures held { OnOk result (IsHeld timing.now) }
{
    push_base(out, timing.base())?;
    let first_out = first_of(timing, Dir::Outbound);
    let first_in = first_of(timing, Dir::Inbound);
    push_firsts(out, first_out, first_in)?;
    push_numbers(
        out,
        b"band",
        &[timing.band(Dir::Outbound), timing.band(Dir::Inbound)],
    )?;
    Ok(())
}

/// The one text of a timing, which is read again as that very timing.
pub fn write_timing(alloc: Global, timing: &Timing) -> Result<Vec<u8>, Memory>
    ensures text { IfOk result (λ v. v.items ≡ timing_text timing.now) }
    ensures read_back { IfOk result (λ v. timing_of v.items ≡ Ok timing.now) }
{
    let mut out = Vec::new(alloc);
    push_numbers(&mut out, b"maxband-timing 1", &[])?;
    push_timing(&mut out, timing)?;
    push_numbers(&mut out, b"end", &[])?;
    Ok(out)
}
