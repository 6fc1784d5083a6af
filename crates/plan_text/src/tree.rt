//! The tree of a certificate, node by node.

ghost use Rattle.std.specs.Prelude.{◌≡◌, ◌+◌, ◌-◌, ◌≤◌, ◌<◌, ◌^◌, map, length, IfOk, IfErr, None};
ghost use Rattle.plan_text.specs.{Lines.{Gives}, Numbers.{number}, Fractions.{integer}};
ghost use Rattle.plan_text.specs.Namings.{naming_of, IsSmall, is_list};
ghost use Rattle.certificate_model.specs.Warrants.{node_of};
ghost use Rattle.plan_text.specs.CertificateReading.{or_number, split_of, over_head, head_of, IsHead, rest_of, node_at, owed_after, nodes_at, ends_after, tree_at};

use crate::fault::{TextEnd, TextFault};
use crate::form::LeafForm;
use crate::fraction::{denominator, integer};
use crate::leaf::leaf_at;
use crate::lines::{bad, fixed_at, nothing_at, words_at};
use crate::listed::rows_of;
use crate::naming::{Naming, fractions_key};
use crate::row::{index_of, small};
use certificate_model::CertNode;
use named_row::Leaf;
use search_box::At;
use std::alloc::Global;

/// The most rows of a leaf.
const MOST_ROWS: u32 = 10_000;

/// What the first line of a node says: a split, or a leaf with so many rows, whose multipliers have this form.
#[derive(Clone, Copy)]
enum NodeHead {
    Split(At),
    Leaf(u32, LeafForm),
}

/// A number of 64 bits in this line.
fn signed(line: u64, word: &[u8]) -> Result<i64, TextEnd>
    ensures { Gives (λ n. n) result (or_number line (integer word.now)) }
{
    match integer(word) {
        Some(number) => Ok(number),
        None => Err(bad(line, TextFault::Number)),
    }
}

/// The place of a split.
#[tactic(auto, unfolding(crate::specs::CertificateReading::split_of))]
fn split_of(line: u64, kind: &[u8], index: &[u8], place: &[u8]) -> Result<At, TextEnd>
    ensures { Gives (λ x. x) result (split_of line kind.now index.now place.now) }
{
    if kind == b"loop".as_slice() {
        let link = index_of(line, index)?;
        let at = signed(line, place)?;
        Ok(At::Loop { link, at })
    } else if kind == b"turn".as_slice() {
        let signal = index_of(line, index)?;
        let rank = small(line, 0, u32::MAX, place)?;
        Ok(At::Turn { signal, rank })
    } else {
        Err(bad(line, TextFault::Shape))
    }
}

/// A leaf with so many rows, whose multipliers are whole numbers over a denominator.
#[tactic(auto, unfolding(crate::specs::CertificateReading::over_head))]
fn over_head(
    names: Naming,
    line: u64,
    key: &[u8],
    bottom: &[u8],
    count: &[u8],
) -> Result<NodeHead, TextEnd>
    ensures exact { Gives (λ x. x) result (over_head (naming_of names.entry) line key.now bottom.now count.now) }
    ensures formed { IfOk result IsHead }
{
    match names {
        Naming::Listed(_) if key == b"leaf".as_slice() => {
            let bottom = denominator(line, bottom)?;
            let count = small(line, 0, MOST_ROWS, count)?;
            Ok(NodeHead::Leaf(count, LeafForm::Over(bottom)))
        }
        _ => Err(bad(line, TextFault::Shape)),
    }
}

/// What the words of a node's first line say.
#[tactic(auto, unfolding(crate::specs::CertificateReading::head_of))]
fn head_of(names: Naming, line: u64, words: &[&[u8]]) -> Result<NodeHead, TextEnd>
    ensures exact { Gives (λ x. x) result (head_of (naming_of names.entry) line (map (λ w. w.now) words.now)) }
    ensures formed { IfOk result IsHead }
{
    match words {
        [key, count] if *key == fractions_key(names) => {
            let count = small(line, 0, MOST_ROWS, count)?;
            Ok(NodeHead::Leaf(count, LeafForm::Plain))
        }
        [key, bottom, count] => over_head(names, line, key, bottom, count),
        [key, kind, index, place] if *key == b"split".as_slice() => {
            let at = split_of(line, kind, index, place)?;
            Ok(NodeHead::Split(at))
        }
        _ => Err(bad(line, TextFault::Shape)),
    }
}

/// The node that begins so at this line, the number of the line after it, and what follows.
#[tactic(auto, unfolding(crate::specs::CertificateReading::rest_of))]
fn rest_of<'a>(
    alloc: Global,
    names: Naming,
    head: NodeHead,
    line: u64,
    bytes: &'a [u8],
) -> Result<(CertNode, u64, &'a [u8]), TextEnd>
    requires names { IsSmall names }
    requires head { IsHead head }
    requires lines { line + 2 ^ 33 < 2 ^ 64 }
    ensures { Gives (λ x. (node_of x.0, x.1, x.2.now)) result (rest_of (naming_of names.entry) head line bytes.now) }
{
    match head {
        NodeHead::Split(at) => Ok((CertNode::Split(at), line + 1, bytes)),
        NodeHead::Leaf(count, form) => {
            let (multipliers, rest) = leaf_at(alloc, names, form, count, line, bytes)?;
            let node = CertNode::Leaf(Leaf { multipliers });
            Ok((node, line + 1 + count as u64, rest))
        }
    }
}

#[tactic(auto, unfolding(crate::specs::CertificateReading::node_at))]
fn node_from<'a>(
    alloc: Global,
    names: Naming,
    line: u64,
    bytes: &'a [u8],
) -> Result<(CertNode, u64, &'a [u8]), TextEnd>
    requires names { IsSmall names }
    requires lines { line + 2 ^ 33 < 2 ^ 64 }
    ensures { Gives (λ x. (node_of x.0, x.1, x.2.now)) result (node_at (naming_of names.entry) line bytes.now) }
{
    let (words, rest) = words_at(alloc, line, bytes)?;
    let head = head_of(names, line, words.as_slice())?;
    rest_of(alloc, names, head, line, rest)
}

/// The next node, the number of the line after it, and what follows.
fn node_at<'a>(
    alloc: Global,
    names: Naming,
    line: u64,
    bytes: &'a [u8],
) -> Result<(CertNode, u64, &'a [u8]), TextEnd>
    requires names { IsSmall names }
    requires lines { line + 2 ^ 33 < 2 ^ 64 }
    ensures exact { Gives (λ x. (node_of x.0, x.1, x.2.now)) result (node_at (naming_of names.entry) line bytes.now) }
    ensures shorter { IfOk result (λ x. length x.2.now < length bytes.now) }
    ensures lines { IfOk result (λ x. x.1 + length x.2.now ≤ line + length bytes.now) }
{
    node_from(alloc, names, line, bytes)
}

/// How many trees are owed after the first node of one, when so many others were.
fn owed_after(node: &CertNode, others: usize) -> usize
    requires { others + 2 < 2 ^ 64 }
    ensures { result ≡ owed_after (node_of node.now) others }
{
    match node {
        CertNode::Split(_) => others + 2,
        CertNode::Leaf(_) => others,
    }
}

/// The nodes of one tree, the number of the line after them, and what follows.
fn nodes_at<'a>(
    alloc: Global,
    names: Naming,
    line: u64,
    bytes: &'a [u8],
) -> Result<(Vec<CertNode>, u64, &'a [u8]), TextEnd>
    requires names { IsSmall names }
    requires lines { line + 2 ^ 34 < 2 ^ 64 - length bytes.now }
    ensures exact { Gives (λ x. (map node_of x.0.items, x.1, x.2.now)) result (nodes_at (naming_of names.entry) (length bytes.now) 1 line bytes.now) }
    ensures lines { IfOk result (λ x. x.1 + length x.2.now ≤ line + length bytes.now) }
{
    let mut nodes = Vec::new(alloc);
    let mut owed = 1;
    let mut line = line;
    let mut rest = bytes;
    'trees: while owed > 0 {
        let (node, next, after) = node_at(alloc, names, line, rest)?;
        owed = owed_after(&node, owed - 1);
        nodes.push(node)?;
        line = next;
        rest = after;
    }
    Ok((nodes, line, rest))
}

/// Whether the list of rows is that of these nodes.
fn is_list(alloc: Global, names: Naming, nodes: &[CertNode]) -> Result<bool, TextEnd>
    ensures is { IfOk result (λ b. b ≡ is_list (naming_of names.entry) (map node_of nodes.now)) }
    ensures memory { IfErr result (λ e. e ≡ TextEnd.Memory) }
{
    match names {
        Naming::Named(_) => Ok(true),
        Naming::Listed(rows) => match rows_of(alloc, nodes) {
            Ok(used) => Ok(used.as_slice() == rows),
            Err(_) => Err(TextEnd::Memory),
        },
    }
}

/// That the list of rows is that of the nodes, and that nothing stands after the line `end`, which has this number.
fn ends_after(
    alloc: Global,
    names: Naming,
    nodes: Vec<CertNode>,
    line: u64,
    bytes: &[u8],
) -> Result<Vec<CertNode>, TextEnd>
    requires { line + 1 < 2 ^ 64 }
    ensures { Gives (λ x. map node_of x.items) result (ends_after (naming_of names.entry) (map node_of nodes.items) line bytes.now) }
{
    if !is_list(alloc, names, nodes.as_slice())? {
        return Err(bad(line, TextFault::Shape));
    }
    nothing_at(line + 1, bytes)?;
    Ok(nodes)
}

/// The tree with which the text of a certificate ends, from the line `tree` on, which has this number.
#[tactic(auto, unfolding(crate::specs::CertificateReading::tree_at))]
pub fn tree_at(
    alloc: Global,
    names: Naming,
    line: u64,
    bytes: &[u8],
) -> Result<Vec<CertNode>, TextEnd>
    requires names { IsSmall names }
    requires lines { line + 2 ^ 35 < 2 ^ 64 - length bytes.now }
    ensures { Gives (λ x. map node_of x.items) result (tree_at (naming_of names.entry) line bytes.now) }
{
    let rest = fixed_at(line, b"tree", bytes)?;
    let (nodes, line, rest) = nodes_at(alloc, names, line + 1, rest)?;
    let rest = fixed_at(line, b"end", rest)?;
    ends_after(alloc, names, nodes, line, rest)
}
