//! A sentence for each kind of fault, and for each reason why a key is one of some files alone.

ghost use Rattle.std.specs.Prelude.{◌≡◌, ◌++◌, OnOk};
ghost use Rattle.fault_words.specs.Sentences.{kind_line, absent_line, other_line};

use artery_model::Kind;
use description_reader::When;
use narrow_fraction::Memory;
use quantity_text::push_text;

const EITHER_OUT: &str =
    "a direction has either speeds or times of travel: leave out speed_out or travel_out\n";

const EITHER_IN: &str =
    "a direction has either speeds or times of travel: leave out speed_in or travel_in\n";

/// What a kind of fault means.
fn kind_line(kind: Kind) -> &'static str
    ensures { result.now ≡ kind_line kind }
{
    match kind {
        Kind::NotUtf8 => "the bytes of the file are no UTF-8: save it as UTF-8\n",
        Kind::NotToml => {
            "the text is no TOML: look for a missing quote or bracket, or a key that stands twice\n"
        }
        Kind::UnknownKey => "this key isn't known here\n",
        Kind::Missing => "this key is needed, and it isn't there\n",
        Kind::WrongType => "the value has another type than the key wants\n",
        Kind::BadNumber => {
            "the text is no number of this form: 1 to 18 digits, or a decimal as \"49.5\" or a fraction as \"99/2\" with 1 to 18 digits on each side and no zero below\n"
        }
        Kind::OutOfRange => "the value is outside its limits\n",
        Kind::CountMismatch => "there has to be one link fewer than there are signals\n",
        Kind::RepeatedName => {
            "an earlier signal has this name: each signal needs a name of its own\n"
        }
        Kind::NoPattern => {
            "the signal allows no pattern: name at least one, or leave the key out for all four\n"
        }
        Kind::NoGreen => "the common red and this left turn leave no green\n",
        Kind::LimitsCrossed => "the first of the two limits is above the second: exchange them\n",
    }
}

/// Writes what a kind of fault means.
pub fn push_kind(out: &mut Vec<u8>, kind: Kind) -> Result<(), Memory>
    ensures { OnOk result (out.new.items ≡ out.old.items ++ kind_line kind) }
{
    push_text(out, kind_line(kind))
}

/// Why a key that stands in some files isn't known in this one.
pub fn absent_line(when: When) -> &'static str
    ensures { result.now ≡ absent_line when }
{
    match when {
        When::Always => "the last link has no such key, since no link comes after it\n",
        When::First => "this key is one of a file without version = 2\n",
        When::Second => "this key wants version = 2 as the first line of the file\n",
        When::SpeedOut | When::TravelOut => EITHER_OUT,
        When::SpeedIn | When::TravelIn => EITHER_IN,
    }
}

/// What another file would have in place of a key.
pub fn other_line(when: When) -> &'static str
    ensures { result.now ≡ other_line when }
{
    match when {
        When::Always | When::Second => "",
        When::First => {
            "with version = 2 as the first line of the file there may be 24 of them\n"
        }
        When::SpeedOut => "or times of travel in its place, in seconds: travel_out\n",
        When::TravelOut => "or speeds in its place: speed_out\n",
        When::SpeedIn => "or times of travel in its place, in seconds: travel_in\n",
        When::TravelIn => "or speeds in its place: speed_in\n",
    }
}
