//! The greatest common divisor, and divisions of 128 bits that are short where they can be.

ghost use Rattle.std.specs.{Prelude.{◌≡◌, ◌<◌, ◌*◌, ◌/◌, ◌%◌, ◌^◌}, Int.{trailing_zeros, w64}};
ghost use Rattle.rational_theory.specs.Gcd.{gcd};

/// The greatest word, which is a number of 64 bits.
pub const WORD: u128 = u64::MAX as u128;

/// The greatest common divisor, by Euclid's steps, on words as soon as they serve.
pub fn common_divisor(a: u128, b: u128) -> u128
    ensures value { result ≡ gcd a b }
    ensures positive { 0 < b → 0 < result }
{
    if a == 1 || b == 1 {
        return 1;
    }
    let mut x = a;
    let mut y = b;
    'steps: while y > WORD {
        let rest = x % y;
        x = y;
        y = rest;
    }
    if y == 0 {
        return x;
    }
    word_divisor(y as u64, remainder(x, y) as u64) as u128
}

/// A number without its factors of 2.
fn odd_part(n: u64) -> u64
    requires { 0 < n }
    ensures odd { result % 2 ≡ 1 }
    ensures power { n ≡ result * 2 ^ trailing_zeros w64 n }
    ensures few { trailing_zeros w64 n < 64 }
{
    n >> n.trailing_zeros()
}

/// The greatest common divisor of two odd numbers, by halves and differences (Stein, 1967).
fn odd_divisor(a: u64, b: u64) -> u64
    requires a { a % 2 ≡ 1 }
    requires b { b % 2 ≡ 1 }
    ensures { result ≡ gcd a b }
{
    let mut x = a;
    let mut y = b;
    'differences: while x != y {
        let difference = x.abs_diff(y);
        y = x.min(y);
        x = odd_part(difference);
    }
    x
}

/// The greatest common divisor of two words: after one step of Euclid's by halves and differences.
pub fn word_divisor(a: u64, b: u64) -> u64
    ensures value { result ≡ gcd a b }
    ensures positive { 0 < b → 0 < result }
{
    if a == 1 || b == 1 {
        return 1;
    }
    if b == 0 {
        return a;
    }
    let rest = a % b;
    if rest == 0 {
        return b;
    }
    if rest == 1 {
        return 1;
    }
    let twos = b.trailing_zeros().min(rest.trailing_zeros());
    odd_divisor(odd_part(b), odd_part(rest)) << twos
}

/// `n / by`, with no division by 1.
pub fn word_quotient(n: u64, by: u64) -> u64
    requires { 0 < by }
    ensures { result ≡ n / by }
{
    if by == 1 { n } else { n / by }
}

/// `n / by`, with no division of 128 bits where a shorter one serves.
pub fn divided(n: u128, by: u128) -> u128
    requires { 0 < by }
    ensures { result ≡ n / by }
{
    if by == 1 {
        return n;
    }
    match (u64::try_from(n), u64::try_from(by)) {
        (Ok(small), Ok(divisor)) => (small / divisor) as u128,
        _ => n / by,
    }
}

/// `n % by`, with no division by 1, and none of 128 bits where a shorter one serves.
pub fn remainder(n: u128, by: u128) -> u128
    requires { 0 < by }
    ensures { result ≡ n % by }
{
    if by == 1 {
        return 0;
    }
    match (u64::try_from(n), u64::try_from(by)) {
        (Ok(small), Ok(divisor)) => (small % divisor) as u128,
        _ => n % by,
    }
}
