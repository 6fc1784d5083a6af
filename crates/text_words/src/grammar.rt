//! What the grammar of a text wants at a line.

ghost use Rattle.std.specs.{Prelude.{◌≡◌, ◌≤◌}, List.{position}};
ghost use Rattle.text_words.specs.Grammar.{open_of, opening_of, head_wants, first_owed, node_line, weight_line, name_line, next_want, trees_want, owed_want};
ghost use Rattle.text_words.specs.{Owed.{trees_of}, Grammar.{rest_wants, wanted_in, wanted_at, is_pattern, patterns_in, signals_in}};

use crate::lines::{blanks, first_word, from_line, is_text, line_of_text};
use crate::walk::{OwedLines, owed_after};
use crate::wants::{ClaimLine, NumberKey, TreeLine, Wanted};
use file_kind::{TextFormat, text_format};

/// How a certificate begins, by its verdict and by whether an open one has a timing.
#[derive(Clone, Copy, Debug, PartialEq, Eq)]
pub enum Opening {
    Best,
    Nothing,
    OpenValue,
    OpenNone,
    /// Its verdict is none of the three.
    Unknown,
}

static TIMING: [Wanted; 9] = [
    Wanted::Claim(ClaimLine::FirstLine),
    Wanted::Numbers(NumberKey::Grid),
    Wanted::Numbers(NumberKey::Unit),
    Wanted::Pattern,
    Wanted::Numbers(NumberKey::Red),
    Wanted::Numbers(NumberKey::RunOut),
    Wanted::Numbers(NumberKey::RunIn),
    Wanted::Numbers(NumberKey::First),
    Wanted::Numbers(NumberKey::Band),
];

/// Up to the verdict.
static VERDICT: [Wanted; 2] = [
    Wanted::Claim(ClaimLine::FirstLine),
    Wanted::Claim(ClaimLine::Verdict),
];

static BEST: [Wanted; 11] = [
    Wanted::Claim(ClaimLine::FirstLine),
    Wanted::Claim(ClaimLine::Verdict),
    Wanted::Claim(ClaimLine::Value),
    Wanted::Numbers(NumberKey::Grid),
    Wanted::Numbers(NumberKey::Unit),
    Wanted::Pattern,
    Wanted::Numbers(NumberKey::Red),
    Wanted::Numbers(NumberKey::RunOut),
    Wanted::Numbers(NumberKey::RunIn),
    Wanted::Numbers(NumberKey::First),
    Wanted::Numbers(NumberKey::Band),
];

static LINK_BEST: [Wanted; 12] = [
    Wanted::Claim(ClaimLine::FirstLine),
    Wanted::Claim(ClaimLine::Verdict),
    Wanted::Claim(ClaimLine::Value),
    Wanted::Numbers(NumberKey::Grid),
    Wanted::Numbers(NumberKey::Unit),
    Wanted::Pattern,
    Wanted::Numbers(NumberKey::Red),
    Wanted::Numbers(NumberKey::RunOut),
    Wanted::Numbers(NumberKey::RunIn),
    Wanted::Numbers(NumberKey::First),
    Wanted::Numbers(NumberKey::HalfOut),
    Wanted::Numbers(NumberKey::HalfIn),
];

static OPEN: [Wanted; 12] = [
    Wanted::Claim(ClaimLine::FirstLine),
    Wanted::Claim(ClaimLine::Verdict),
    Wanted::Claim(ClaimLine::Bound),
    Wanted::Claim(ClaimLine::ValueOrNone),
    Wanted::Numbers(NumberKey::Grid),
    Wanted::Numbers(NumberKey::Unit),
    Wanted::Pattern,
    Wanted::Numbers(NumberKey::Red),
    Wanted::Numbers(NumberKey::RunOut),
    Wanted::Numbers(NumberKey::RunIn),
    Wanted::Numbers(NumberKey::First),
    Wanted::Numbers(NumberKey::Band),
];

static LINK_OPEN: [Wanted; 13] = [
    Wanted::Claim(ClaimLine::FirstLine),
    Wanted::Claim(ClaimLine::Verdict),
    Wanted::Claim(ClaimLine::Bound),
    Wanted::Claim(ClaimLine::ValueOrNone),
    Wanted::Numbers(NumberKey::Grid),
    Wanted::Numbers(NumberKey::Unit),
    Wanted::Pattern,
    Wanted::Numbers(NumberKey::Red),
    Wanted::Numbers(NumberKey::RunOut),
    Wanted::Numbers(NumberKey::RunIn),
    Wanted::Numbers(NumberKey::First),
    Wanted::Numbers(NumberKey::HalfOut),
    Wanted::Numbers(NumberKey::HalfIn),
];

/// Of an open one without a timing.
static OPEN_NONE: [Wanted; 4] = [
    Wanted::Claim(ClaimLine::FirstLine),
    Wanted::Claim(ClaimLine::Verdict),
    Wanted::Claim(ClaimLine::Bound),
    Wanted::Claim(ClaimLine::ValueOrNone),
];

fn open_of(fourth: &[u8]) -> Opening
    ensures { result ≡ open_of fourth.now }
{
    if is_text(first_word(fourth), b"value") {
        Opening::OpenValue
    } else {
        Opening::OpenNone
    }
}

fn opening_of(bytes: &[u8]) -> Opening
    ensures { result ≡ opening_of bytes.now }
{
    let verdict = line_of_text(bytes, 2);
    if is_text(verdict, b"verdict best") {
        Opening::Best
    } else if is_text(verdict, b"verdict none") {
        Opening::Nothing
    } else if is_text(verdict, b"verdict open") {
        open_of(line_of_text(bytes, 4))
    } else {
        Opening::Unknown
    }
}

/// The lines of a certificate up to its tree, where it has one band a direction.
fn certificate_wants(opening: Opening) -> &'static [Wanted]
    ensures first { result.now ≡ head_wants TextFormat.FirstCertificate opening }
    ensures second { result.now ≡ head_wants TextFormat.SecondCertificate opening }
{
    match opening {
        Opening::Best => &BEST,
        Opening::OpenValue => &OPEN,
        Opening::OpenNone => &OPEN_NONE,
        Opening::Nothing => &VERDICT,
        Opening::Unknown => &VERDICT,
    }
}

/// The same of a certificate of links.
fn link_wants(opening: Opening) -> &'static [Wanted]
    ensures { result.now ≡ head_wants TextFormat.Links opening }
{
    match opening {
        Opening::Best => &LINK_BEST,
        Opening::OpenValue => &LINK_OPEN,
        Opening::OpenNone => &OPEN_NONE,
        Opening::Nothing => &VERDICT,
        Opening::Unknown => &VERDICT,
    }
}

fn head_wants(format: TextFormat, opening: Opening) -> &'static [Wanted]
    ensures { result.now ≡ head_wants format opening }
{
    match format {
        TextFormat::Timing => &TIMING,
        TextFormat::FirstCertificate => certificate_wants(opening),
        TextFormat::SecondCertificate => certificate_wants(opening),
        TextFormat::Links => link_wants(opening),
    }
}

/// What is owed after these lines.
fn first_owed(format: TextFormat) -> OwedLines
    ensures owed { result ≡ first_owed format }
    ensures few { trees_of result ≤ 1 }
{
    match format {
        TextFormat::Timing => OwedLines::Trees { lines: 0, trees: 0 },
        TextFormat::FirstCertificate => OwedLines::Names(0),
        TextFormat::SecondCertificate => OwedLines::Rows,
        TextFormat::Links => OwedLines::Names(0),
    }
}

fn node_line(format: TextFormat) -> TreeLine
    ensures { result ≡ node_line format }
{
    match format {
        TextFormat::SecondCertificate => TreeLine::ListedNode,
        _ => TreeLine::Node,
    }
}

fn listed_line(lines: u128) -> TreeLine
    ensures { result ≡ weight_line TextFormat.SecondCertificate lines }
{
    if lines == 1 {
        TreeLine::ListedLast
    } else {
        TreeLine::ListedWeight
    }
}

/// A line of a leaf of which so many are owed.
fn weight_line(format: TextFormat, lines: u128) -> TreeLine
    ensures { result ≡ weight_line format lines }
{
    match format {
        TextFormat::SecondCertificate => listed_line(lines),
        _ => TreeLine::Weight,
    }
}

fn name_line(names: u128) -> TreeLine
    ensures { result ≡ name_line names }
{
    if names == 0 {
        TreeLine::Root
    } else {
        TreeLine::Name
    }
}

/// What is wanted where no leaf owes a line.
fn next_want(format: TextFormat, trees: u128) -> Wanted
    ensures { result ≡ next_want format trees }
{
    if trees == 0 {
        Wanted::End
    } else {
        Wanted::Tree(node_line(format))
    }
}

fn trees_want(format: TextFormat, lines: u128, trees: u128) -> Wanted
    ensures { result ≡ trees_want format lines trees }
{
    if lines == 0 {
        next_want(format, trees)
    } else {
        Wanted::Tree(weight_line(format, lines))
    }
}

/// What of all that is owed comes first.
fn owed_want(format: TextFormat, owed: OwedLines) -> Wanted
    ensures { result ≡ owed_want format owed }
{
    match owed {
        OwedLines::Rows => Wanted::Tree(TreeLine::Rows),
        OwedLines::Names(names) => Wanted::Tree(name_line(names)),
        OwedLines::Trees { lines, trees } => trees_want(format, lines, trees),
        OwedLines::Nothing => Wanted::Nothing,
    }
}

/// What is wanted so many lines after those that want one thing each.
fn rest_wants(format: TextFormat, rest: &[u8], number: u64) -> Wanted
    ensures { result ≡ rest_wants format rest.now number }
{
    owed_want(format, owed_after(rest, first_owed(format), number))
}

/// The same of a text of this format whose first lines want these.
fn wanted_in(bytes: &[u8], format: TextFormat, head: &[Wanted], number: u64) -> Wanted
    ensures { result ≡ wanted_in bytes.now format head.now number }
{
    let length = head.len() as u64;
    if number < length {
        head[number as usize]
    } else {
        rest_wants(format, from_line(bytes, length), number - length)
    }
}

/// What is wanted at a line, counted from 1.
pub(crate) fn wanted_at(bytes: &[u8], line: u64) -> Wanted
    ensures { result ≡ wanted_at bytes.now line }
{
    match text_format(bytes) {
        Some(format) => {
            let head = head_wants(format, opening_of(bytes));
            wanted_in(bytes, format, head, line.saturating_sub(1))
        }
        None => Wanted::Claim(ClaimLine::FirstLine),
    }
}

fn is_pattern(wanted: Wanted) -> bool
    ensures { result ≡ is_pattern wanted }
{
    matches!(wanted, Wanted::Pattern)
}

/// The place of the patterns among the first lines.
fn pattern_place(head: &[Wanted]) -> Option<usize>
    ensures { result ≡ position is_pattern head.now }
{
    head.iter().position(|wanted| is_pattern(*wanted))
}

/// How many signals there are, where the first lines want these: as many as patterns.
fn patterns_in(bytes: &[u8], head: &[Wanted]) -> usize
    ensures { result ≡ patterns_in bytes.now (position is_pattern head.now) }
{
    match pattern_place(head) {
        Some(place) => blanks(line_of_text(bytes, place as u64 + 1)),
        None => 0,
    }
}

/// How many signals there are, and none where no line has their patterns.
pub(crate) fn signals_in(bytes: &[u8]) -> usize
    ensures { result ≡ signals_in bytes.now }
{
    match text_format(bytes) {
        Some(format) => patterns_in(bytes, head_wants(format, opening_of(bytes))),
        None => 0,
    }
}
