//! What a value of a description must be.

ghost use Rattle.std.specs.Prelude.{◌≡◌};
ghost use Rattle.toml.specs.View.{view};
ghost use Rattle.description_reader.specs.Checks.{meets};

use crate::measure::Reference;
use crate::quantity::{integer_in, is_between, is_quantity, number_in, quantity_in};
use crate::values::{items_in, text_in};
use artery_model::{is_name, is_within};
use toml::Value;

/// What a value of a description must be.
#[derive(Clone, Copy)]
pub enum Demand {
    Anything,
    Table,
    Array,
    /// An array of so many items, from the first to the second.
    Length(usize, usize),
    Integer,
    Boolean,
    Text,
    /// An integer or a text.
    Quantity,
    /// A number, and no text outside the grammar of quantities.
    Number,
    /// `metric` or `english`.
    Units,
    /// A word for the moment from which offsets count.
    Reference,
    /// A text that is neither empty nor long, without control characters.
    Name,
    /// An integer from the first to the second.
    Between(i64, i64),
    /// An integer from this one on, and below the parts of the cycle.
    BelowParts(i64),
    /// A quantity from the first to the second, of a bounded numerator and denominator.
    Within(i64, i64),
    /// A quantity from the first to the second, as fine as it can be written.
    Written(i64, i64),
}

/// Whether the value is what it must be, where the cycle has this many parts.
pub fn meets(parts: i64, demand: Demand, value: &Value) -> bool
    ensures { result ≡ meets parts demand (view value.now) }
{
    match demand {
        Demand::Anything => true,
        Demand::Table => value.is_table(),
        Demand::Array => value.is_array(),
        Demand::Length(least, most) => {
            let count = items_in(value).len();
            least <= count && count <= most
        }
        Demand::Integer => value.is_integer(),
        Demand::Boolean => value.is_bool(),
        Demand::Text => value.is_str(),
        Demand::Quantity => is_quantity(value),
        Demand::Number => quantity_in(value).is_some(),
        Demand::Units => text_in(value) == "metric" || text_in(value) == "english",
        Demand::Reference => Reference::named(text_in(value)).is_some(),
        Demand::Name => is_name(text_in(value)),
        Demand::Between(least, most) => least <= integer_in(value) && integer_in(value) <= most,
        Demand::BelowParts(least) => least <= integer_in(value) && integer_in(value) < parts,
        Demand::Within(least, most) => is_within(least, most, number_in(value)),
        Demand::Written(least, most) => is_between(least, most, number_in(value)),
    }
}
