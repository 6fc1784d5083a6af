//! Times the operations of fractions, for `scripts/bench`. With the word `time` each line has the
//! nanoseconds of an operation on operands of one size and mix; with no word it has how many of the results
//! fit, which is the same at each run.
#![tactic(auto)]

ghost use Rattle.std.specs.Prelude.{◌<◌, ◌≤◌};

use narrow_fraction::{Frac, Wide};
use std::time::Instant;
use std::{env, io};

/// How many pairs of operands there are, one fraction and the one before it.
const PAIRS: usize = 128;

/// How often all pairs are taken where they are timed.
const ROUNDS: u32 = 20_000;

/// A tenth of the operations that are timed at once: so many nanoseconds are a tenth of one for each.
const TENTH: u128 = ROUNDS as u128 * PAIRS as u128 / 10;

#[derive(Clone, Copy)]
enum Operation {
    Plus,
    Minus,
    Times,
    Over,
}

impl Operation {
    fn name(self) -> &'static str {
        match self {
            Operation::Plus => "plus",
            Operation::Minus => "minus",
            Operation::Times => "times",
            Operation::Over => "over",
        }
    }

    /// The result; a quotient by 0 counts as its dividend.
    #[tactic(auto, using(rational_theory::proofs::Compare::eq_false))]
    fn apply(self, left: Frac, right: Frac) -> Result<Frac, Wide> {
        match self {
            Operation::Plus => left.plus(right),
            Operation::Minus => left.minus(right),
            Operation::Times => left.times(right),
            Operation::Over => if right == Frac::whole(0) {
                Ok(left)
            } else {
                left.over(right)
            },
        }
    }
}

/// Which operands there are.
#[derive(Clone, Copy)]
enum Mix {
    Fractions,
    Whole,
    /// Each fraction stands between whole numbers.
    WithWhole,
    /// Each fraction stands between zeros.
    WithZero,
}

impl Mix {
    /// What is said of them behind their size.
    fn words(self) -> &'static str {
        match self {
            Mix::Fractions => "",
            Mix::Whole => " whole",
            Mix::WithWhole => " with whole",
            Mix::WithZero => " with 0",
        }
    }

    /// The numerator and denominator of the operand at this place, from two numbers that were drawn.
    fn parts(self, place: usize, num: i128, den: i128) -> (i128, i128) {
        match (self, place % 2) {
            (Mix::Whole, _) | (Mix::WithWhole, 0) => (num, 1),
            (Mix::WithZero, 0) => (0, 1),
            _ => (num, den),
        }
    }
}

/// The size and the mix of operands.
#[derive(Clone, Copy)]
struct Set {
    bits: u32,
    mix: Mix,
}

/// The generator's constants (Knuth's).
const FACTOR: u64 = 6364136223846793005;

const STEP: u64 = 1442695040888963407;

/// The next state of a generator of numbers.
fn next(state: u64) -> u64 {
    state.wrapping_mul(FACTOR).wrapping_add(STEP)
}

/// An odd number of at most so many bits.
fn number(state: u64, bits: u32) -> i128
    requires { (0 < bits) × (bits ≤ 128) }
{
    let high = u128::from(next(state)).wrapping_mul(1 << 64);
    i128::try_from(((high | u128::from(state)) >> (128 - bits)) | 1).unwrap_or(1)
}

/// The operands, about half of them negative.
fn operands<R: AllocGlobal>(rt: &R, set: Set) -> io::Result<Vec<Frac>>
    requires { (0 < set.bits) × (set.bits ≤ 128) }
{
    let mut all = Vec::new(rt.alloc());
    let mut state: u64 = 42;
    for place in 0..PAIRS {
        let size = number(state, set.bits);
        state = next(next(state));
        let den = number(state, set.bits);
        state = next(next(state));
        let num = if state > u64::MAX / 2 {
            size.checked_neg().unwrap_or(1)
        } else {
            size
        };
        let (top, bottom) = set.mix.parts(place, num, den);
        all.push(Frac::new(top, bottom).unwrap_or(Frac::whole(1)))?;
    }
    Ok(all)
}

/// How many results fit, of each fraction and the one before it.
fn fitting(all: &[Frac], operation: Operation) -> u64 {
    let mut fit: u64 = 0;
    let mut before = Frac::whole(1);
    for operand in all {
        if operation.apply(before, *operand).is_ok() {
            fit = fit.wrapping_add(1);
        }
        before = *operand;
    }
    fit
}

/// Takes all pairs, round by round.
fn take_rounds(all: &[Frac], operation: Operation) {
    let mut fit: u64 = 0;
    for _ in 0..ROUNDS {
        fit = fit.wrapping_add(fitting(all, operation));
    }
}

/// How many tenths of a nanosecond an operation takes, on an average.
fn tenths_of<R: std::rt::Clock>(rt: &R, all: &[Frac], operation: Operation) -> io::Result<u128> {
    let start = Instant::now(rt)?;
    take_rounds(all, operation);
    Ok(start.elapsed(rt)?.as_nanos() / TENTH)
}

/// The line of an operation: its time, or how many of its results fit.
fn print_line<R: AllocGlobal + Print + std::rt::Clock>(
    rt: &R,
    timed: bool,
    set: Set,
    all: &[Frac],
    operation: Operation,
) -> io::Result<()> {
    let name = operation.name();
    let bits = set.bits;
    let words = set.mix.words();
    if timed {
        let tenths = tenths_of(rt, all, operation)?;
        let (nanos, rest) = (tenths / 10, tenths % 10);
        println!(rt; "{name} {bits} bits{words} {nanos}.{rest} ns")
    } else {
        let fit = fitting(all, operation);
        println!(rt; "{name} {bits} bits{words} {fit} fit")
    }
}

fn print_lines<R: AllocGlobal + Print + std::rt::Clock>(
    rt: &R,
    timed: bool,
    bits: u32,
    mix: Mix,
) -> io::Result<()>
    requires { (0 < bits) × (bits ≤ 128) }
{
    let set = Set { bits, mix };
    let all = operands(rt, set)?;
    for operation in [
        Operation::Plus,
        Operation::Minus,
        Operation::Times,
        Operation::Over,
    ] {
        print_line(rt, timed, set, all.as_slice(), operation)?;
    }
    Ok(())
}

fn main(rt: HostRuntime) -> io::Result<()> {
    let timed = env::args(&rt)?.skip(1).any(|word| word.as_str() == "time");
    print_lines(&rt, timed, 5, Mix::Fractions)?;
    print_lines(&rt, timed, 30, Mix::Fractions)?;
    print_lines(&rt, timed, 50, Mix::Fractions)?;
    print_lines(&rt, timed, 64, Mix::Fractions)?;
    print_lines(&rt, timed, 100, Mix::Fractions)?;
    print_lines(&rt, timed, 30, Mix::Whole)?;
    print_lines(&rt, timed, 30, Mix::WithWhole)?;
    print_lines(&rt, timed, 30, Mix::WithZero)?;
    print_lines(&rt, timed, 100, Mix::Whole)?;
    print_lines(&rt, timed, 100, Mix::WithWhole)?;
    print_lines(&rt, timed, 100, Mix::WithZero)
}
