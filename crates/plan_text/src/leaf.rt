//! A leaf, from the line after its first one on.

ghost use Rattle.std.specs.Prelude.{◌≡◌, ◌+◌, ◌<◌, ◌^◌, None};
ghost use Rattle.plan_text.specs.{Lines.{Gives}, Namings.{naming_of, IsSmall, IsFormed, is_form}};
ghost use Rattle.plan_text.specs.CertificateReading.{last_row, row_of_weight, formed, with_last, leaf_at};

use crate::fault::{TextEnd, TextFault};
use crate::form::{LeafForm, form_of};
use crate::lines::{bad, words_at};
use crate::naming::Naming;
use crate::row::{is_after, weight_of, weights_at};
use named_row::{RowId, Weight};
use std::alloc::Global;

/// Whether a leaf with these rows has to be written so.
fn is_form(names: Naming, form: LeafForm, weights: &[Weight]) -> bool
    ensures { result ≡ is_form (naming_of names.entry) form weights.now }
{
    match names {
        Naming::Named(_) => true,
        Naming::Listed(_) => form_of(weights) == form,
    }
}

/// These rows of a leaf, where it has to be written so; else a number of its last line, this one, is bad.
fn formed(
    names: Naming,
    form: LeafForm,
    line: u64,
    weights: Vec<Weight>,
) -> Result<Vec<Weight>, TextEnd>
    ensures { Gives (λ ws. ws.items) result (formed (naming_of names.entry) form line weights.items) }
{
    if !is_form(names, form, weights.as_slice()) {
        return Err(bad(line, TextFault::Number));
    }
    Ok(weights)
}

/// The row of the last of these.
fn last_row(weights: &[Weight]) -> Option<RowId>
    ensures { result ≡ last_row row_of_weight None weights.now }
{
    match weights {
        [] => None,
        [.., last] => Some(last.row),
    }
}

/// These rows of a leaf and that of its last line, this one. The form of the leaf is a number of that line, and so is looked at before
/// its order.
#[tactic(auto, unfolding(crate::specs::CertificateReading::with_last))]
fn with_last(
    names: Naming,
    form: LeafForm,
    line: u64,
    mut weights: Vec<Weight>,
    last: Weight,
) -> Result<Vec<Weight>, TextEnd>
    ensures { Gives (λ ws. ws.items) result (with_last (naming_of names.entry) form line weights.items last) }
{
    let ascends = is_after(last_row(weights.as_slice()), last.row);
    weights.push(last)?;
    let weights = formed(names, form, line, weights)?;
    if !ascends {
        return Err(bad(line, TextFault::Order));
    }
    Ok(weights)
}

/// So many rows of a leaf whose first line has this number, and what follows them.
#[tactic(auto, unfolding(crate::specs::CertificateReading::leaf_at))]
pub fn leaf_at<'a>(
    alloc: Global,
    names: Naming,
    form: LeafForm,
    count: u32,
    line: u64,
    bytes: &'a [u8],
) -> Result<(Vec<Weight>, &'a [u8]), TextEnd>
    requires names { IsSmall names }
    requires form { IsFormed form }
    requires lines { line + 2 ^ 33 < 2 ^ 64 }
    ensures { Gives (λ x. (x.0.items, x.1.now)) result (leaf_at (naming_of names.entry) form count line bytes.now) }
{
    if count == 0 {
        let weights = formed(names, form, line, Vec::new(alloc))?;
        return Ok((weights, bytes));
    }
    let (weights, rest) = weights_at(alloc, names, form, count - 1, line + 1, bytes)?;
    let end = line + count as u64;
    let (words, rest) = words_at(alloc, end, rest)?;
    let last = weight_of(names, form, end, words.as_slice())?;
    let weights = with_last(names, form, end, weights, last)?;
    Ok((weights, rest))
}
