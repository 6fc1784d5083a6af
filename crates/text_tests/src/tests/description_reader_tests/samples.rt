//! Descriptions that tests change line by line, and what is answered for them.

use artery_model::Flaw;
use description_reader::{Artery, read_artery};
use std::alloc::Global;
use std::test::Fail;
use test_bed::{TextReader, flaw_text, with_changes};

/// Three signals, and every key that there is.
pub static EVERY_KEY: &str = "version = 1

[artery]
name = \"Main Street\"
units = \"english\"
parts = 100
cycle = [60, \"90.5\"]
ratio = \"3/4\"

[[signal]]
name = \"Oak\"
red = 40
left_out = 10
left_in = 12
patterns = [4, 2, 4]
clear_out = 5
clear_in = 7

[[signal]]
name = \"Elm\"
red = 45

[[signal]]
name = \"Pine\"
red = 30
left_out = 69
left_in = 0
patterns = [1]
clear_out = 0
clear_in = 99

[[link]]
distance_out = 1400
distance_in = 1500
speed_out = [30, 40]
speed_in = [\"27.5\", 35]
change_out = [\"-10\", 20]
change_in = [-1000, \"1/3\"]

[[link]]
distance_out = 900
distance_in = 800
speed_out = [25, 25]
speed_in = [20, 45]
";

/// The artery of a description.
pub fn read(alloc: Global, description: &[u8]) -> Result<Artery, Flaw> {
    read_artery(alloc, description)
}

/// The artery of a description with some of its lines changed.
pub fn read_changed(alloc: Global, base: &str, changes: &str) -> Result<Artery, Fail> {
    let description = with_changes(alloc, base, changes)?;
    Ok(read(alloc, description.as_bytes())?)
}

/// The reader of descriptions: it answers with the kind and the place of a refusal.
#[derive(Clone, Copy, Drop)]
pub struct Descriptions;

impl TextReader for Descriptions {
    fn answer(&self, alloc: Global, text: &[u8]) -> Result<String, Fail> {
        match read(alloc, text) {
            Ok(_) => Ok(String::from_str(alloc, "described")?),
            Err(flaw) => Ok(flaw_text(alloc, flaw)?),
        }
    }
}

/// Whether this is what the reader answers for a text.
pub fn is_answered(alloc: Global, text: &[u8], want: &str) -> Result<bool, Fail> {
    let got = Descriptions.answer(alloc, text)?;
    Ok(got.as_str() == want)
}
