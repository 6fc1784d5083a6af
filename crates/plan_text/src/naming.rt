//! How the leaves of a tree name their rows.

ghost use Rattle.std.specs.Prelude.{◌≡◌};
ghost use Rattle.plan_text.specs.Namings.{naming_of, fractions_key};

use certificate_model::FamilyName;
use named_row::RowId;

/// How the leaves of a tree name their rows.
#[derive(Clone, Copy)]
pub enum Naming<'a> {
    /// By their names over a table of at most 255 families.
    Named(&'a [FamilyName]),
    /// By their places in a list of rows, counted from 1.
    Listed(&'a [RowId]),
}

/// The first word of a leaf of fractions.
pub(crate) fn fractions_key(names: Naming) -> &'static [u8]
    ensures { result.now ≡ fractions_key (naming_of names.entry) }
{
    match names {
        Naming::Named(_) => b"leaf",
        Naming::Listed(_) => b"plain",
    }
}
