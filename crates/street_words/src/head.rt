//! What holds of the whole street.

ghost use Rattle.std.specs.Prelude.{◌≡◌, ◌++◌, OnOk};
ghost use Rattle.progression.specs.Street.{least_band};
ghost use Rattle.quantity_text.specs.Exact.{exact_spelling};
ghost use Rattle.street_words.specs.Streets.{street_name, units_words, name_line, cycle_line};
ghost use Rattle.street_words.specs.Streets.{ratio_line, equal_words, bands_line, bands_lines, head_lines};

use crate::numbers::{push_parts, push_span};
use crate::words::{length_word, speed_word};
use artery_model::bounds::SECOND_VERSION;
use artery_model::{Artery, Dir, Text, Units};
use narrow_fraction::Memory;
use quantity_text::{push_exact, push_number, push_text};

/// Writes what the street is called.
fn push_street_name(out: &mut Vec<u8>, name: &Option<Text>) -> Result<(), Memory>
    ensures { OnOk result (out.new.items ≡ out.old.items ++ street_name name.now) }
{
    match name {
        Some(name) => {
            push_text(out, "street ")?;
            push_text(out, name.as_str())
        }
        None => push_text(out, "street without a name"),
    }
}

#[tactic(auto, unfolding(crate::specs::Streets::units_words))]
fn push_units(out: &mut Vec<u8>, units: Units) -> Result<(), Memory>
    ensures { OnOk result (out.new.items ≡ out.old.items ++ units_words units) }
{
    push_text(out, " signals, lengths in ")?;
    push_text(out, length_word(units))?;
    push_text(out, ", speeds in ")?;
    push_text(out, speed_word(units))?;
    push_text(out, "\n")
}

#[tactic(auto, unfolding(crate::specs::Streets::name_line))]
fn push_name_line(out: &mut Vec<u8>, artery: &Artery) -> Result<(), Memory>
    ensures { OnOk result (out.new.items ≡ out.old.items ++ name_line artery.now) }
{
    push_street_name(out, &artery.head().name)?;
    push_text(out, ": ")?;
    push_number(out, u128::from(artery.count()))?;
    push_units(out, artery.head().units)
}

#[tactic(auto, unfolding(crate::specs::Streets::cycle_line))]
fn push_cycle_line(out: &mut Vec<u8>, artery: &Artery) -> Result<(), Memory>
    ensures { OnOk result (out.new.items ≡ out.old.items ++ cycle_line artery.now) }
{
    let cycle = artery.cycle();
    push_text(out, "cycle ")?;
    push_span(out, cycle.least, cycle.most)?;
    push_text(out, " s, ")?;
    push_number(out, u128::from(artery.parts()))?;
    push_text(out, " parts of ")?;
    push_parts(out, artery, 1)?;
    push_text(out, " s each\n")
}

/// Writes the ratio.
fn push_ratio(out: &mut Vec<u8>, artery: &Artery) -> Result<(), Memory>
    ensures { OnOk result (out.new.items ≡ out.old.items ++ exact_spelling artery.now.head.ratio) }
{
    push_exact(out, artery.ratio())
}

#[tactic(auto, unfolding(crate::specs::Streets::ratio_line))]
fn push_ratio_line(out: &mut Vec<u8>, artery: &Artery) -> Result<(), Memory>
    ensures { OnOk result (out.new.items ≡ out.old.items ++ ratio_line artery.now) }
{
    push_text(out, "ratio ")?;
    push_ratio(out, artery)?;
    push_text(out, ": a second of the inbound band counts as ")?;
    push_ratio(out, artery)?;
    push_text(out, " s of the outbound one\n")
}

fn equal_words(equal: bool) -> &'static str
    ensures { result.now ≡ equal_words equal }
{
    if equal {
        " of the cycle, and the bands have to be equal\n"
    } else {
        " of the cycle, and the bands need not be equal\n"
    }
}

/// Writes whether the bands have to be equal.
fn push_equal(out: &mut Vec<u8>, artery: &Artery) -> Result<(), Memory>
    ensures { OnOk result (out.new.items ≡ out.old.items ++ equal_words artery.now.head.equal) }
{
    push_text(out, equal_words(artery.equal()))
}

/// Writes a direction's least band.
fn push_least(out: &mut Vec<u8>, artery: &Artery, dir: Dir) -> Result<(), Memory>
    ensures { OnOk result (out.new.items ≡ out.old.items ++ exact_spelling (least_band artery.now dir)) }
{
    push_exact(out, artery.least_band(dir))
}

#[tactic(auto, unfolding(crate::specs::Streets::bands_line))]
fn push_bands_line(out: &mut Vec<u8>, artery: &Artery) -> Result<(), Memory>
    ensures { OnOk result (out.new.items ≡ out.old.items ++ bands_line artery.now) }
{
    push_text(out, "least band outbound ")?;
    push_least(out, artery, Dir::Outbound)?;
    push_text(out, ", inbound ")?;
    push_least(out, artery, Dir::Inbound)?;
    push_equal(out, artery)
}

/// Writes that line where the version has least bands.
fn push_bands_lines(out: &mut Vec<u8>, artery: &Artery) -> Result<(), Memory>
    ensures { OnOk result (out.new.items ≡ out.old.items ++ bands_lines artery.now) }
{
    if artery.version() == SECOND_VERSION {
        push_bands_line(out, artery)
    } else {
        Ok(())
    }
}

/// Writes the lines of the whole street.
#[tactic(auto, unfolding(crate::specs::Streets::head_lines))]
pub fn push_head(out: &mut Vec<u8>, artery: &Artery) -> Result<(), Memory>
    ensures { OnOk result (out.new.items ≡ out.old.items ++ head_lines artery.now) }
{
    push_name_line(out, artery)?;
    push_cycle_line(out, artery)?;
    push_ratio_line(out, artery)?;
    push_bands_lines(out, artery)
}
