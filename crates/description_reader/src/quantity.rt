//! Numbers in a description: TOML integers, and texts of the grammar of quantities.

ghost use Rattle.std.specs.Prelude.{◌≡◌, ◌||◌, ◌&&◌, is_some};
ghost use Rattle.toml.specs.{Data.{as_integer, as_str}, View.{view}};
ghost use Rattle.rational_theory.specs.Rational.{whole};
ghost use Rattle.artery_model.specs.Limits.{at_most};
ghost use Rattle.description_reader.specs.Quantity.{quantity_in, number_in, integer_in};

use narrow_fraction::Frac;
use quantity_text::parse_quantity;
use toml::Value;

/// Whether a value may stand for a quantity.
pub fn is_quantity(value: &Value) -> bool
    ensures { result ≡ (is_some (as_integer (view value.now)) || is_some (as_str (view value.now))) }
{
    value.is_integer() || value.is_str()
}

/// The number that a quantity writes, none where the value is a text outside the grammar or of
/// another type.
pub fn quantity_in(value: &Value) -> Option<Frac>
    ensures { result ≡ quantity_in (view value.now) }
{
    if let Some(number) = value.as_integer() {
        return Some(Frac::whole(number));
    }
    match value.as_str() {
        Some(text) => parse_quantity(text).ok(),
        None => None,
    }
}

/// The number that a quantity writes, 0 of any other value.
pub fn number_in(value: &Value) -> Frac
    ensures { result ≡ number_in (view value.now) }
{
    quantity_in(value).unwrap_or(Frac::whole(0))
}

/// Whether a number lies between two whole numbers, both among them.
pub fn is_between(low: i64, high: i64, number: Frac) -> bool
    ensures { result ≡ (at_most (whole low) number && at_most number (whole high)) }
{
    Frac::whole(low) <= number && number <= Frac::whole(high)
}

/// The number of an integer, 0 of any other value.
pub fn integer_in(value: &Value) -> i64
    ensures { result ≡ integer_in (view value.now) }
{
    match value.as_integer() {
        Some(number) => number,
        None => 0,
    }
}
