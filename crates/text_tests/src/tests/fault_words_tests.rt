//! Lines that were written by hand from the rules. More of them stand in `crates/run_cases/data/mistakes.cases`.

use artery_model::{Kind, Refusal, Text};
use description_reader::read_root;
use fault_words::{Document, push_document_words, push_fault_words};
use narrow_fraction::Memory;
use std::alloc::Global;
use std::rt::HostRuntime;

const FLOAT: &str =
    "[artery]\nunits = \"metric\"\nparts = 100\ncycle = [80, 100]\nratio = 0.8\n\n[[signal]]\n[[link]]\n";

const FLOAT_WORDS: &str = "at [artery]: ratio
the value has another type than the key wants
there stands a number with a point, without quotes
wanted is a number, between quotes unless it is whole, from 0 to 100, in lowest terms at most 100000 over 1000
for example: ratio = \"0.8\"
counted: signal 1, link 1
";

const PLAN: &str = "[plan]\ncycle = 90\nofset = [0]\n";

const PLAN_WORDS: &str = "at [plan]: ofset
this key isn't known here
there stands a list of 1 value, 0
the nearest key here is offset
the keys here are cycle offset reference patterns speed_out speed_in
counted: offset 0, patterns 0, speed_out 0, speed_in 0
";

const NO_TEXT: &[u8] = b"[artery]\nname = \"\xff\"\n";

const NO_TEXT_WORDS: &str = "the bytes of the file are no UTF-8: save it as UTF-8
at line 2, column 9
this line: name = \"?\"
";

const STRANGE: &str = "[artery]\n\"\u{e9}gal\" = true\n";

const STRANGE_WORDS: &str = "at [artery]: \"\u{e9}gal\"
this key isn't known here
there stands true
the keys here are name units parts cycle ratio
counted: signal 0, link 0
";

fn refusal(alloc: Global, kind: Kind, place: &str) -> Result<Refusal, Memory> {
    Ok(Refusal {
        kind,
        place: Text::new(alloc, place)?,
    })
}

fn told(alloc: Global, bytes: &[u8], kind: Kind, place: &str) -> Result<Vec<u8>, Memory> {
    let mut out = Vec::new(alloc);
    let refusal = refusal(alloc, kind, place)?;
    push_fault_words(&mut out, Document::Street, bytes, &refusal)?;
    Ok(out)
}

fn told_of_plan(alloc: Global, bytes: &[u8], kind: Kind, place: &str) -> Result<Vec<u8>, Memory> {
    let mut out = Vec::new(alloc);
    let refusal = refusal(alloc, kind, place)?;
    if let Ok(root) = read_root(alloc, bytes) {
        push_document_words(&mut out, Document::Plan, &root, &refusal)?;
    }
    Ok(out)
}

#[test]
fn a_value_of_another_type(rt: HostRuntime) {
    let out = told(
        rt.alloc(),
        FLOAT.as_bytes(),
        Kind::WrongType,
        "artery.ratio",
    )
    .unwrap_or(Vec::new(rt.alloc()));
    assert_eq!(rt; out.as_slice(), FLOAT_WORDS.as_bytes());
}

#[test]
fn a_key_that_is_near(rt: HostRuntime) {
    let out = told_of_plan(rt.alloc(), PLAN.as_bytes(), Kind::UnknownKey, "plan.ofset").unwrap_or(
        Vec::new(rt.alloc()),
    );
    assert_eq!(rt; out.as_slice(), PLAN_WORDS.as_bytes());
}

#[test]
fn bytes_that_are_no_text(rt: HostRuntime) {
    let out = told(rt.alloc(), NO_TEXT, Kind::NotUtf8, "file").unwrap_or(Vec::new(rt.alloc()));
    assert_eq!(rt; out.as_slice(), NO_TEXT_WORDS.as_bytes());
}

#[test]
fn a_key_that_its_path_cannot_show(rt: HostRuntime) {
    let out = told(rt.alloc(), STRANGE.as_bytes(), Kind::UnknownKey, "artery.?").unwrap_or(Vec::new(
        rt.alloc(),
    ));
    assert_eq!(rt; out.as_slice(), STRANGE_WORDS.as_bytes());
}
