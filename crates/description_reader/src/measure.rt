//! How a plan's numbers are to be taken.

ghost use Rattle.std.specs.Prelude.{◌≡◌};
ghost use Rattle.description_reader.specs.References.{reference_named};

/// The moment of a signal's cycle from which its offset counts.
#[derive(Clone, Copy, Debug, PartialEq, Eq)]
pub enum Reference {
    /// The start of the common red.
    Red,
    /// The start of the outbound green, and of the inbound one.
    GreenOut,
    GreenIn,
    /// The start of the green that starts first after the common red.
    FirstGreen,
    /// The end of the outbound green, and of the inbound one.
    EndOut,
    EndIn,
}

impl Reference {
    /// The moment of this word: `red`, `green_out`, `green_in`, `first_green`, `end_out` or `end_in`; None where it is no such word.
    pub fn named(word: &str) -> Option<Reference>
        ensures { result ≡ reference_named word.now }
    {
        match word {
            "red" => Some(Reference::Red),
            "green_out" => Some(Reference::GreenOut),
            "green_in" => Some(Reference::GreenIn),
            "first_green" => Some(Reference::FirstGreen),
            "end_out" => Some(Reference::EndOut),
            "end_in" => Some(Reference::EndIn),
            _ => None,
        }
    }
}

/// What a plan's number of a link is.
#[derive(Clone, Copy, Debug, PartialEq, Eq)]
pub enum Measure {
    /// A speed, in kilometres or miles an hour.
    Speed,
    /// A time of travel, in seconds.
    Travel,
}
