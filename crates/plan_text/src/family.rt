//! The number of a family by its name.

ghost use Rattle.std.specs.Prelude.{◌≡◌, ◌<◌, ◌^◌, length};
ghost use Rattle.certificate_model.specs.Families.{table_of, family_in};

use certificate_model::FamilyName;

/// The number of the family with this name, counted from 1.
pub fn family_in(names: &[FamilyName], word: &[u8]) -> Option<u8>
    requires { length names.now < 2 ^ 8 }
    ensures { result ≡ family_in (table_of names.now) word.now }
{
    for (place, name) in names.iter().enumerate() {
        if name.text.as_bytes() == word {
            return Some(place as u8 + 1);
        }
    }
    None
}
