//! The tree of a certificate, written: its leaves name their rows by their names or by their places in a list.

ghost use Rattle.std.specs.{Prelude.{◌≡◌, ◌++◌, ◌∷◌, [], All, map, flat_map, OnOk}, Fmt.{decimal}};
ghost use Rattle.certificate_model.specs.{Words.{line_of}, Warrants.{node_of, LeafOf}};
ghost use Rattle.plan_text.specs.{Spelling.{ended}, CertificateText.{IsHeldWeight, IsHeldNode}, Leaves.{multiplier_word, IsWritable}};
ghost use Rattle.plan_text.specs.Namings.{naming_of, name_words, weight_line, first_words, leaf_lines, form_by, node_lines, tree_lines, HasWords, IsWritableNode, AreWritable};

use crate::cert_writing::{push_line, push_name, push_split};
use crate::form::{LeafForm, form_of, whole_over};
use crate::listed::place_of_row;
use crate::naming::{Naming, fractions_key};
use crate::writing::push_spaced;
use certificate_model::CertNode;
use named_row::{RowId, Weight};
use narrow_fraction::Memory;
use quantity_text::{push_bytes, push_exact, push_number, push_text, push_whole};

/// Writes the name of a row, or its place.
fn push_words(out: &mut Vec<u8>, names: Naming, row: RowId) -> Result<(), Memory>
    requires { HasWords (naming_of names) row }
    ensures { OnOk result (out.new.items ≡ out.old.items ++ line_of (name_words (naming_of names.entry) row)) }
{
    match names {
        Naming::Named(families) => push_name(out, families, row),
        Naming::Listed(rows) => push_number(out, place_of_row(rows, row) as u128),
    }
}

/// Writes a multiplier.
fn push_multiplier(out: &mut Vec<u8>, form: LeafForm, weight: &Weight) -> Result<(), Memory>
    requires { IsWritable form weight.now }
    ensures { OnOk result (out.new.items ≡ out.old.items ++ multiplier_word form weight.now) }
{
    match form {
        LeafForm::Over(denominator) => push_whole(out, whole_over(denominator, weight.by)),
        LeafForm::Plain => push_exact(out, weight.by),
    }
}

/// Writes the line of a row and its multiplier.
fn push_weight(
    out: &mut Vec<u8>,
    names: Naming,
    form: LeafForm,
    weight: &Weight,
) -> Result<(), Memory>
    requires words { HasWords (naming_of names) weight.now.row }
    requires writable { IsWritable form weight.now }
    ensures text { OnOk result (out.new.items ≡ out.old.items ++ ended (weight_line (naming_of names.entry) form weight.now ∷ [])) }
    ensures held { IsHeldWeight weight.now }
{
    // Its multiplier fits, and its index is one of 32 bits.
    let _fitting = weight.by.fitting();
    let _index = weight.row.index;
    push_words(out, names, weight.row)?;
    push_text(out, " ")?;
    push_multiplier(out, form, weight)?;
    push_text(out, "\n")
}

fn push_weights(
    out: &mut Vec<u8>,
    names: Naming,
    form: LeafForm,
    weights: &[Weight],
) -> Result<(), Memory>
    requires words { All (λ w. HasWords (naming_of names) w.row) weights.now }
    requires writable { All (IsWritable form) weights.now }
    ensures text { OnOk result (out.new.items ≡ out.old.items ++ ended (map (weight_line (naming_of names.entry) form) weights.now)) }
    ensures held { OnOk result (All IsHeldWeight weights.now) }
{
    for weight in weights {
        push_weight(out, names, form, weight)?;
    }
    Ok(())
}

/// Writes how many rows there are after a space, and the end of its line.
pub(crate) fn push_count(out: &mut Vec<u8>, count: usize) -> Result<(), Memory>
    ensures { OnOk result (out.new.items ≡ out.old.items ++ 32 ∷ (decimal count ++ 10 ∷ [])) }
{
    push_spaced(out, count as u128)?;
    push_text(out, "\n")
}

/// Writes the first line of a leaf with so many rows.
fn push_head(out: &mut Vec<u8>, names: Naming, form: LeafForm, count: usize) -> Result<(), Memory>
    ensures { OnOk result (out.new.items ≡ out.old.items ++ ended (line_of (first_words (naming_of names.entry) form count) ∷ [])) }
{
    match form {
        LeafForm::Over(denominator) => {
            push_text(out, "leaf")?;
            push_spaced(out, denominator)?;
            push_count(out, count)
        }
        LeafForm::Plain => {
            push_bytes(out, fractions_key(names))?;
            push_count(out, count)
        }
    }
}

/// How the multipliers of a leaf with these rows are written.
fn form_by(names: Naming, weights: &[Weight]) -> LeafForm
    ensures { result ≡ form_by (naming_of names.entry) weights.now }
{
    match names {
        Naming::Named(_) => LeafForm::Plain,
        Naming::Listed(_) => form_of(weights),
    }
}

/// Writes the lines of a leaf.
fn push_leaf(out: &mut Vec<u8>, names: Naming, weights: &[Weight]) -> Result<(), Memory>
    requires { IsWritableNode (naming_of names) (LeafOf weights.now) }
    ensures text { OnOk result (out.new.items ≡ out.old.items ++ ended (leaf_lines (naming_of names.entry) (form_by (naming_of names.entry) weights.now) weights.now)) }
    ensures held { OnOk result (All IsHeldWeight weights.now) }
{
    let form = form_by(names, weights);
    push_head(out, names, form, weights.len())?;
    push_weights(out, names, form, weights)
}

/// Writes the lines of a node.
#[tactic(auto, unfolding(crate::specs::Namings::node_lines))]
fn push_node(out: &mut Vec<u8>, names: Naming, node: &CertNode) -> Result<(), Memory>
    requires { IsWritableNode (naming_of names) (node_of node.now) }
    ensures text { OnOk result (out.new.items ≡ out.old.items ++ ended (node_lines (naming_of names.entry) (node_of node.now))) }
    ensures held { OnOk result (IsHeldNode (node_of node.now)) }
{
    match node {
        CertNode::Split(place) => push_split(out, *place),
        CertNode::Leaf(leaf) => push_leaf(out, names, leaf.multipliers.as_slice()),
    }
}

fn push_nodes(out: &mut Vec<u8>, names: Naming, nodes: &[CertNode]) -> Result<(), Memory>
    requires { AreWritable (naming_of names) (map node_of nodes.now) }
    ensures text { OnOk result (out.new.items ≡ out.old.items ++ ended (flat_map (node_lines (naming_of names.entry)) (map node_of nodes.now))) }
    ensures held { OnOk result (All IsHeldNode (map node_of nodes.now)) }
{
    for node in nodes {
        push_node(out, names, node)?;
    }
    Ok(())
}

/// Writes the lines of a tree, from `tree` to `end`.
pub fn push_tree(out: &mut Vec<u8>, names: Naming, nodes: &[CertNode]) -> Result<(), Memory>
    requires { AreWritable (naming_of names) (map node_of nodes.now) }
    ensures text { OnOk result (out.new.items ≡ out.old.items ++ ended (tree_lines (naming_of names.entry) (map node_of nodes.now))) }
    ensures held { OnOk result (All IsHeldNode (map node_of nodes.now)) }
{
    push_line(out, b"tree")?;
    push_nodes(out, names, nodes)?;
    push_line(out, b"end")
}
