//! Exact fractions of two numbers of 128 bits with a sign.
//!
//! A `Frac` is seen as the rational number that it is (`rational_theory`'s `ℚ`), always in lowest terms, with its denominator
//! from 1 to `2^127 - 1` and its numerator at most `2^127 - 1` in size. Begin with `Frac::whole`, with
//! `Frac::reduced` for two numbers that fit, or with `Frac::new` for any two.
//!
//! A `Quotient` is seen as the same rational number, and may be held over a denominator that isn't its least: so many numbers
//! can stand over one denominator, with a common divisor sought for none. Operations are those of its `fraction`.
//!
//! `Frac::new` answers the reduced fraction, `ZeroDen` exactly for a denominator of 0, and `Width` exactly where a number of the
//! reduced pair is past 2^127 - 1 in size. `Frac::reduced`, for two numbers that fit, is never refused, so that no caller has an
//! arm that it knows to be unreachable; `fitting` gives the same number with the fact that its two numbers fit, which the type
//! keeps to itself. `plus`, `minus`, `times` and `over` are exact, and refuse exactly where the operation is past 128 bits, with
//! the operation and its operands as they were passed: a difference where the sum with the negated operand is, and a sum also where
//! only its least common denominator is too wide, though it could be reduced further. The order is exact, and multiplies only where
//! all its numbers are words. No operation takes memory.
//!
//! Sums and differences have short ways for 0, whole numbers, equal denominators and numbers below 2^63, products and quotients for
//! 0, for a factor 1 or -1 and for numbers below 2^63. Below 2^63 common divisors and all but one of the divisions are made on
//! words of 64 bits; the common divisor of two words is found by one remainder and then by halves and differences (Stein 1967).
//!
//! Of quotients `of_words` is that of two words as they are, `numerator_over` answers the number's numerator over a given
//! denominator exactly where one of 64 bits is, and `fraction` is the same number as a `Frac`. What asks for a sign, for 0 or for
//! the order of two seeks no common divisor. That the two numbers of a `Quotient` may have one is told by the sign of the
//! denominator that it holds, which nothing outside `quotient.rt` sees. Both numbers stand in two words each, so that a cell of a row
//! takes 40 bytes. Two calls are short where all is small, and answer None elsewhere: `less_times`, a number less a product of two by
//! one common divisor, and `ratio_order`, which of two ratios is less by two products.
//!
//! `Memory` is want of memory, as the crates above tell it, and besides the numbers stand the two calls by which they all copy a list and put
//! an item behind one: `copied` and `push`.
//!
//! A crate that compares two `Frac`s writes at the head of its `lib.rt`
//!
//! `#![tactic(auto, using(rational_theory::proofs::Compare::ne_false, rational_theory::proofs::Compare::eq_true, rational_theory::proofs::Compare::lt_true, rational_theory::proofs::Compare::lt_false, rational_theory::proofs::Compare::le_true, rational_theory::proofs::Compare::le_false))]`
//!
//! and then `a < b`, `a <= b` and `a == b` are `<ℚ`, `≤ℚ` and `≡` to the goals after the test.
#![tactic(auto)]

mod compare;
mod differences;
mod divisor;
mod frac;
mod lists;
mod memory;
mod multiple;
mod operations;
mod order;
mod products;
mod quotient;
mod sums;
mod two_words;
mod unfit;
mod wide;

pub use differences::less_product;
pub use divisor::{word_divisor, word_quotient};
pub use frac::Frac;
pub use lists::{copied, push};
pub use memory::Memory;
pub use multiple::common_multiple;
pub use quotient::Quotient;
pub use unfit::Unfit;
pub use wide::{Op, Wide};
