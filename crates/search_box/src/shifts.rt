//! The distinct shifts of a signal's allowed patterns.

ghost use Rattle.std.specs.{Prelude.{◌≡◌, ◌<◌, ◌≤◌, ◌+◌, IsTrue, length, slice_index}, List.{list_any}};
ghost use Rattle.progression.specs.Street.{allows, HasSignal};
ghost use Rattle.linear_theory.specs.Shifts.{put_shift, with_pattern, shifts_of, shift_at, shift_count};
ghost use Rattle.search_box.specs.Rising.{list_of};

use artery_model::Artery;

/// Up to four numbers in rising order.
#[derive(Clone, Copy)]
enum Rising {
    None,
    One(u32),
    Two(u32, u32),
    Three(u32, u32, u32),
    Four(u32, u32, u32, u32),
}

/// One more number in its place, unless it stands there.
fn put_shift(shifts: Rising, n: u32) -> Rising
    requires { length (list_of shifts) < 4 }
    ensures value { list_of result ≡ put_shift n (list_of shifts) }
    ensures more { length (list_of result) ≤ length (list_of shifts) + 1 }
{
    match shifts {
        Rising::None => Rising::One(n),
        Rising::One(a) => {
            if n < a {
                Rising::Two(n, a)
            } else if n == a {
                Rising::One(a)
            } else {
                Rising::Two(a, n)
            }
        }
        Rising::Two(a, b) => {
            if n < a {
                Rising::Three(n, a, b)
            } else if n == a {
                Rising::Two(a, b)
            } else if n < b {
                Rising::Three(a, n, b)
            } else if n == b {
                Rising::Two(a, b)
            } else {
                Rising::Three(a, b, n)
            }
        }
        Rising::Three(a, b, c) => {
            if n < a {
                Rising::Four(n, a, b, c)
            } else if n == a {
                Rising::Three(a, b, c)
            } else if n < b {
                Rising::Four(a, n, b, c)
            } else if n == b {
                Rising::Three(a, b, c)
            } else if n < c {
                Rising::Four(a, b, n, c)
            } else if n == c {
                Rising::Three(a, b, c)
            } else {
                Rising::Four(a, b, c, n)
            }
        }
        Rising::Four(a, b, c, d) => Rising::Four(a, b, c, d),
    }
}

/// With the shift of a pattern, where the signal allows it.
fn with_pattern(artery: &Artery, signal: u32, pattern: u32, shifts: Rising) -> Rising
    requires signal { HasSignal artery.now signal }
    requires least { 1 ≤ pattern }
    requires most { pattern ≤ 4 }
    requires room { length (list_of shifts) < 4 }
    ensures value { list_of result ≡ with_pattern artery.now signal pattern (list_of shifts) }
    ensures more { length (list_of result) ≤ length (list_of shifts) + 1 }
{
    if artery.allows(signal, pattern) {
        put_shift(shifts, artery.shift(signal, pattern))
    } else {
        shifts
    }
}

/// Whether one of the patterns is allowed.
fn allows_one(patterns: &[bool; 4]) -> bool
    ensures one { result ≡ list_any (λ b. b) patterns.now }
    ensures four { length patterns.now ≡ 4 }
{
    patterns.iter().any(|allowed| *allowed)
}

/// Whether a signal allows a pattern, as each does.
#[tactic(auto, using(crate::proofs::Allowed::some_shift))]
fn has_pattern(artery: &Artery, signal: u32) -> bool
    requires signal { HasSignal artery.now signal }
    ensures some { IsTrue result }
    ensures least { 1 ≤ shift_count artery.now signal }
{
    // its contract says that the artery is valid
    artery.known_valid();
    allows_one(&artery.signals()[signal as usize - 1].patterns)
}

/// The distinct shifts of a signal's allowed patterns, in parts.
fn shifts_of(artery: &Artery, signal: u32) -> Rising
    requires signal { HasSignal artery.now signal }
    ensures { list_of result ≡ shifts_of artery.now signal }
{
    let one = with_pattern(artery, signal, 1, Rising::None);
    let two = with_pattern(artery, signal, 2, one);
    let three = with_pattern(artery, signal, 3, two);
    with_pattern(artery, signal, 4, three)
}

/// The number at a rank.
fn at_rank(shifts: Rising, rank: u32) -> u32
    requires { rank < length (list_of shifts) }
    ensures { result ≡ slice_index (list_of shifts) rank }
{
    match shifts {
        Rising::None => unreachable!(),
        Rising::One(a) => a,
        Rising::Two(a, b) => match rank {
            0 => a,
            _ => b,
        },
        Rising::Three(a, b, c) => match rank {
            0 => a,
            1 => b,
            _ => c,
        },
        Rising::Four(a, b, c, d) => match rank {
            0 => a,
            1 => b,
            2 => c,
            _ => d,
        },
    }
}

/// The shift of a rank, in parts: less than 7200.
#[tactic(auto, using(linear_theory::proofs::ShiftSizes::shift_at_most))]
pub fn shift_at(artery: &Artery, signal: u32, rank: u32) -> u32
    requires signal { HasSignal artery.now signal }
    requires rank { rank < shift_count artery.now signal }
    ensures value { result ≡ shift_at artery.now signal rank }
    ensures small { result < 7200 }
{
    prove!(artery.shift(signal, 2) < 7200);
    at_rank(shifts_of(artery, signal), rank)
}

/// The number of a signal's distinct shifts, from 1 to 4.
pub fn shift_count(artery: &Artery, signal: u32) -> u32
    requires signal { HasSignal artery.now signal }
    ensures value { result ≡ shift_count artery.now signal }
    ensures least { 1 ≤ result }
    ensures most { result ≤ 4 }
{
    prove!(has_pattern(artery, signal));
    match shifts_of(artery, signal) {
        Rising::None => 0,
        Rising::One(..) => 1,
        Rising::Two(..) => 2,
        Rising::Three(..) => 3,
        Rising::Four(..) => 4,
    }
}
