//! The sentences about a bad line.

ghost use Rattle.std.specs.{Prelude.{◌≡◌, ◌++◌, OnOk}, Fmt.{decimal}};
ghost use Rattle.text_words.specs.Faults.{shape_line, number_line, kind_line, fault_line, claim_line, key_text, count_of, least_of, several_text, count_text, numbers_line, tree_line, wanted_line};

use crate::wants::{ClaimLine, NumberKey, TreeLine, Wanted};
use narrow_fraction::Memory;
use plan_text::TextFault;
use quantity_text::{push_number, push_text};

fn shape_line(wanted: Wanted) -> &'static str
    ensures { result.now ≡ shape_line wanted }
{
    match wanted {
        Wanted::Tree(TreeLine::OwnRows) =>
            "the rows that are listed before the tree are not just those that its leaves name\n",
        _ =>
            "its words, or how many they are, are not those of this place; one space stands between two words\n",
    }
}

fn number_line(wanted: Wanted) -> &'static str
    ensures { result.now ≡ number_line wanted }
{
    match wanted {
        Wanted::Tree(TreeLine::ListedLast) =>
            "a number is outside its range or not in its one spelling, or the W and the whole numbers of this leaf have a common divisor, or it is `plain` without need\n",
        _ =>
            "a number is outside its range or not in its one spelling: no sign +, no zero in front, fractions in lowest terms\n",
    }
}

fn kind_line(fault: TextFault, wanted: Wanted) -> &'static str
    ensures { result.now ≡ kind_line fault wanted }
{
    match fault {
        TextFault::Ended =>
            "the text ends before this line does: each line ends with a line feed, and the last one is `end`\n",
        TextFault::Shape => shape_line(wanted),
        TextFault::Number => number_line(wanted),
        TextFault::Order => "its row has to come after the row of the line before\n",
    }
}

/// What is wrong with a line where this is wanted.
pub(crate) fn fault_line(fault: TextFault, wanted: Wanted) -> &'static str
    ensures { result.now ≡ fault_line fault wanted }
{
    match wanted {
        Wanted::Nothing => "the text goes on behind its line `end`\n",
        _ => kind_line(fault, wanted),
    }
}

fn claim_line(line: ClaimLine) -> &'static str
    ensures { result.now ≡ claim_line line }
{
    match line {
        ClaimLine::FirstLine =>
            "wanted: `maxband-timing 1`, `maxband-certificate 1`, `maxband-certificate 2` or `maxband-links 1`\n",
        ClaimLine::Verdict => "wanted: `verdict best`, `verdict none` or `verdict open`\n",
        ClaimLine::Value =>
            "wanted: `value X`, what the timing is worth: a whole number or a fraction, as `1/2`, that fits 128 bits\n",
        ClaimLine::Bound =>
            "wanted: `bound X`, above which no timing is: a whole number or a fraction, as `1/2`, that fits 128 bits\n",
        ClaimLine::ValueOrNone =>
            "wanted: `no timing`, or `value X`, what the timing is worth: a whole number or a fraction that fits 128 bits\n",
    }
}

fn key_text(key: NumberKey) -> &'static str
    ensures { result.now ≡ key_text key }
{
    match key {
        NumberKey::Grid => "wanted: `grid N`, the ticks of a second",
        NumberKey::Unit => "wanted: `unit N`, the ticks of a part of the cycle",
        NumberKey::Red =>
            "wanted: `red N ..`, the tick at which the common red of each signal starts",
        NumberKey::RunOut => "wanted: `run_out N ..`, the ticks of travel outbound on each link",
        NumberKey::RunIn => "wanted: `run_in N ..`, the ticks of travel inbound on each link",
        NumberKey::First =>
            "wanted: `first N N`, the ticks at which the outbound line crosses signal 1 and the inbound line the last signal",
        NumberKey::Band =>
            "wanted: `band N N`, the ticks of the outbound band and of the inbound one",
        NumberKey::HalfOut =>
            "wanted: `half_out N ..`, the ticks of half the outbound band of each link",
        NumberKey::HalfIn =>
            "wanted: `half_in N ..`, the ticks of half the inbound band of each link",
    }
}

/// How many numbers a line has, on a street of so many signals.
fn count_of(key: NumberKey, signals: usize) -> usize
    ensures { result ≡ count_of key signals }
{
    match key {
        NumberKey::Grid | NumberKey::Unit => 1,
        NumberKey::Red => signals,
        NumberKey::First | NumberKey::Band => 2,
        _ => signals.saturating_sub(1),
    }
}

/// The least of them that there may be.
fn least_of(key: NumberKey) -> u128
    ensures { result ≡ least_of key }
{
    match key {
        NumberKey::Grid => 1,
        NumberKey::Unit => 2,
        _ => 0,
    }
}

#[tactic(auto, unfolding(crate::specs::Faults::several_text))]
fn push_several(out: &mut Vec<u8>, count: usize) -> Result<(), Memory>
    ensures { OnOk result (out.new.items ≡ out.old.items ++ several_text count) }
{
    push_text(out, ": ")?;
    push_number(out, count as u128)?;
    push_text(out, " whole numbers of at least ")
}

fn push_count(out: &mut Vec<u8>, count: usize) -> Result<(), Memory>
    ensures { OnOk result (out.new.items ≡ out.old.items ++ count_text count) }
{
    if count == 1 {
        push_text(out, ": a whole number of at least ")
    } else {
        push_several(out, count)
    }
}

fn push_key(out: &mut Vec<u8>, key: NumberKey) -> Result<(), Memory>
    ensures { OnOk result (out.new.items ≡ out.old.items ++ key_text key) }
{
    push_text(out, key_text(key))
}

fn push_how_many(out: &mut Vec<u8>, key: NumberKey, signals: usize) -> Result<(), Memory>
    ensures { OnOk result (out.new.items ≡ out.old.items ++ count_text (count_of key signals)) }
{
    push_count(out, count_of(key, signals))
}

fn push_least(out: &mut Vec<u8>, key: NumberKey) -> Result<(), Memory>
    ensures { OnOk result (out.new.items ≡ out.old.items ++ decimal (least_of key)) }
{
    push_number(out, least_of(key))
}

/// Writes what is wanted at a line of numbers, on a street of so many signals.
#[tactic(auto, unfolding(crate::specs::Faults::numbers_line))]
fn push_numbers(out: &mut Vec<u8>, key: NumberKey, signals: usize) -> Result<(), Memory>
    ensures { OnOk result (out.new.items ≡ out.old.items ++ numbers_line key signals) }
{
    push_key(out, key)?;
    push_how_many(out, key, signals)?;
    push_least(out, key)?;
    push_text(out, " and below 2^80 (2 to the 80th)\n")
}

fn tree_line(line: TreeLine) -> &'static str
    ensures { result.now ≡ tree_line line }
{
    match line {
        TreeLine::Rows =>
            "wanted: `rows N`, how many names of rows follow: a whole number of at least 0 and below 2^64 (2 to the 64th)\n",
        TreeLine::Name =>
            "wanted: the name of a row, as `wout 1` or `cycle_low`, in their order: a signal or link has a number of at least 1 and below 2^32\n",
        TreeLine::OwnRows =>
            "wanted: before the tree `rows N`, and the N rows that its leaves name, each once and in their order\n",
        TreeLine::Root => "wanted: `tree`\n",
        TreeLine::Node =>
            "wanted: `split loop I S` or `split turn I N` (I at least 1, I and N below 2^32, S of 64 bits), or `leaf N` (N lines as `cycle_low 1/2`, at most 10000)\n",
        TreeLine::ListedNode =>
            "wanted: `split loop I S` or `split turn I N` (I at least 1, I and N below 2^32, S of 64 bits), or `leaf W N` or `plain N` (N lines as `2 50`, at most 10000; W at least 1, without lines 1)\n",
        TreeLine::Weight =>
            "wanted: a line of the leaf, as `cycle_low 1/2`: the name of a row, and its multiplier, which fits 128 bits: a whole number or a fraction\n",
        TreeLine::ListedWeight | TreeLine::ListedLast =>
            "wanted: a line of the leaf, as `2 50`: the place of a row in the list, counted from 1, and its multiplier, which fits 128 bits: a whole number, in a plain leaf also a fraction\n",
    }
}

/// Writes what is wanted at a line, on a street of so many signals.
pub(crate) fn push_wanted(out: &mut Vec<u8>, signals: usize, wanted: Wanted) -> Result<(), Memory>
    ensures { OnOk result (out.new.items ≡ out.old.items ++ wanted_line signals wanted) }
{
    match wanted {
        Wanted::Claim(line) => push_text(out, claim_line(line)),
        Wanted::Pattern => push_text(
            out,
            "wanted: `pattern P ..`, the left turn pattern of each of 2 to 24 signals: 1, 2, 3 or 4\n",
        ),
        Wanted::Numbers(key) => push_numbers(out, key, signals),
        Wanted::Tree(line) => push_text(out, tree_line(line)),
        Wanted::End => push_text(out, "wanted: `end`\n"),
        Wanted::Nothing => push_text(
            out,
            "wanted: nothing, since the line `end` is the last one\n",
        ),
    }
}
