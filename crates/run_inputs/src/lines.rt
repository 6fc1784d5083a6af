//! The lines of words that aren't understood and of files that aren't read.

ghost use Rattle.std.specs.{Prelude.{◌≡◌, ◌++◌, IfOk, OnOk, length, string_bytes}, Fmt.{decimal}};
ghost use Rattle.run_inputs.specs.Lines.{kind_name, fault_name};
ghost use Rattle.run_inputs.specs.Lines.{refused_line, bad_text_line, words_line, cannot_read_line, too_long_line};

use artery_model::{Kind, Refusal};
use narrow_fraction::Memory;
use plan_text::{BadText, TextFault};
use quantity_text::{push_number, push_text};
use std::alloc::{AllocError, Global};

/// The printed name of a kind of refusal.
fn kind_name(kind: Kind) -> &'static str
    ensures { result.now ≡ kind_name kind }
{
    match kind {
        Kind::NotUtf8 => "NotUtf8",
        Kind::NotToml => "NotToml",
        Kind::UnknownKey => "UnknownKey",
        Kind::Missing => "Missing",
        Kind::WrongType => "WrongType",
        Kind::BadNumber => "BadNumber",
        Kind::OutOfRange => "OutOfRange",
        Kind::CountMismatch => "CountMismatch",
        Kind::RepeatedName => "RepeatedName",
        Kind::NoPattern => "NoPattern",
        Kind::NoGreen => "NoGreen",
        Kind::LimitsCrossed => "LimitsCrossed",
    }
}

/// The printed name of a fault of a text.
fn fault_name(fault: TextFault) -> &'static str
    ensures { result.now ≡ fault_name fault }
{
    match fault {
        TextFault::Ended => "Ended",
        TextFault::Shape => "Shape",
        TextFault::Number => "Number",
        TextFault::Order => "Order",
    }
}

/// Writes a name and a number.
pub fn push_numbered(out: &mut Vec<u8>, name: &str, number: u128) -> Result<(), Memory>
    ensures { OnOk result (out.new.items ≡ out.old.items ++ (name.now ++ decimal number)) }
{
    push_text(out, name)?;
    push_number(out, number)
}

/// Writes the line of a description that is refused.
fn push_refused(out: &mut Vec<u8>, refusal: &Refusal) -> Result<(), Memory>
    ensures { OnOk result (out.new.items ≡ out.old.items ++ refused_line refusal.now) }
{
    push_text(out, "refused ")?;
    push_text(out, kind_name(refusal.kind))?;
    push_text(out, " ")?;
    push_text(out, refusal.place.as_str())?;
    push_text(out, "\n")
}

/// The line of a description that is refused.
pub fn refused_line(alloc: Global, refusal: &Refusal) -> Result<Vec<u8>, Memory>
    ensures { IfOk result (λ line. line.items ≡ refused_line refusal.now) }
{
    let mut line = Vec::new(alloc);
    push_refused(&mut line, refusal)?;
    Ok(line)
}

/// Writes the line of a text with a bad line.
fn push_bad_text(out: &mut Vec<u8>, bad: BadText) -> Result<(), Memory>
    ensures { OnOk result (out.new.items ≡ out.old.items ++ bad_text_line bad) }
{
    push_numbered(out, "refused BadText line ", bad.line as u128)?;
    push_text(out, " ")?;
    push_text(out, fault_name(bad.kind))?;
    push_text(out, "\n")
}

/// The line of a text with a bad line.
pub fn bad_text_line(alloc: Global, bad: BadText) -> Result<Vec<u8>, Memory>
    ensures { IfOk result (λ line. line.items ≡ bad_text_line bad) }
{
    let mut line = Vec::new(alloc);
    push_bad_text(&mut line, bad)?;
    Ok(line)
}

/// The line of words that are none of the usages.
pub fn words_line(alloc: Global) -> Result<String, AllocError>
    ensures { IfOk result (λ text. string_bytes text ≡ words_line) }
{
    String::from_str(alloc, "words not understood\n")
}

/// What the line of a file that couldn't be read begins with.
const CANNOT_READ: &str = "cannot read ";

/// Writes the line of a file that couldn't be read.
fn push_cannot_read(out: &mut Vec<u8>, name: &str) -> Result<(), Memory>
    ensures { OnOk result (out.new.items ≡ out.old.items ++ cannot_read_line name.now) }
{
    push_text(out, CANNOT_READ)?;
    push_text(out, name)?;
    push_text(out, "\n")
}

/// The line of a file that couldn't be read.
pub fn cannot_read_line(alloc: Global, name: &str) -> Result<Vec<u8>, Memory>
    ensures { IfOk result (λ line. line.items ≡ cannot_read_line name.now) }
{
    let mut line = Vec::new(alloc);
    push_cannot_read(&mut line, name)?;
    Ok(line)
}

/// How many bytes that line has.
pub fn cannot_read_bytes(name: &str) -> u64
    ensures { result ≡ length (cannot_read_line name.now) }
{
    (CANNOT_READ.len() + name.len() + "\n".len()) as u64
}

/// Writes the line of a file with too many bytes.
fn push_too_long(out: &mut Vec<u8>, name: &str) -> Result<(), Memory>
    ensures { OnOk result (out.new.items ≡ out.old.items ++ too_long_line name.now) }
{
    push_text(out, "too long ")?;
    push_text(out, name)?;
    push_text(out, "\n")
}

/// The line of a file with too many bytes.
pub fn too_long_line(alloc: Global, name: &str) -> Result<Vec<u8>, Memory>
    ensures { IfOk result (λ line. line.items ≡ too_long_line name.now) }
{
    let mut line = Vec::new(alloc);
    push_too_long(&mut line, name)?;
    Ok(line)
}
