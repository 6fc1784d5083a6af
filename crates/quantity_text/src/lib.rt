//! Fractions as text: the quantities of descriptions, the exact spelling of certificates and reports, and decimals.
//!
//! A text is seen as the list of its bytes and a `Frac` as the rational number that it is. `specs/` has the grammars:
//! `quantity_of` gives what a quantity means, `exact_spelling` is the one text of a fraction, and `decimal_spelling`
//! cuts it at a place. Begin with `parse_quantity` for what users write, and with `push_exact` for what is printed.
//!
//! `exact_text` writes the one spelling of a fraction and `parse_exact` reads just that, so that `2/4`, `3/1`, `-0` and `01` are
//! none; `parse_quantity` reads the spellings that a description may use. Each answers exactly by its grammar. What `exact_string`
//! writes of numbers below 10^18 is a quantity and is read as the same one (`proofs/ReadBack.antt`).
#![tactic(auto)]

mod decimal;
mod digits;
mod exact;
mod exact_read;
mod numeral;
mod quantity;
mod writing;

pub use decimal::{decimal_text, push_decimal};
pub use exact::{exact_string, exact_text};
pub use exact_read::{law_one_spelling, parse_exact};
pub use quantity::{BadNumber, parse_quantity};
pub use writing::{push_bytes, push_exact, push_number, push_text, push_whole};
