//! From bytes to an artery.

ghost use Rattle.std.specs.Prelude.{◌≡◌, IfOk, IfErr};
ghost use Rattle.toml.specs.View.{view};
ghost use Rattle.artery_model.specs.{Faults.{Judges}, Limits.{artery_fault}};
ghost use Rattle.description_reader.specs.{Streets.{street_in, description_fault}, Described.{ReadsAs, IsNoDocument, Described, Refuses}};

use crate::build::{head_in, links_in, signals_in};
use crate::check::refused_file;
use crate::judge::{Form, check_values};
use crate::values::items_at;
use artery_model::{Artery, Flaw, Kind};
use std::alloc::Global;
use toml::Value;

/// The root of the document that the bytes are, or why they are none.
#[tactic(auto, using(crate::proofs::Views::view_of_table))]
pub fn read_root(alloc: Global, bytes: &[u8]) -> Result<Value, Flaw>
    ensures read { IfOk result (λ v. ReadsAs bytes.now (view v)) }
    ensures refused { IfErr result (λ e. IsNoDocument bytes.now e) }
{
    let text = match std::str::from_utf8(bytes) {
        Ok(text) => text,
        Err(_) => return Err(refused_file(alloc, Kind::NotUtf8)),
    };
    match toml::table_from_str(alloc, text) {
        Ok(table) => Ok(Value::Table(table)),
        Err(error) => {
            if error.is_memory() {
                return Err(Flaw::Memory);
            }
            Err(refused_file(alloc, Kind::NotToml))
        }
    }
}

/// The artery that the values make, or the first rule of an artery that they break.
fn build(alloc: Global, root: &Value) -> Result<Artery, Flaw>
    ensures made { IfOk result (λ a. a ≡ street_in (view root.now)) }
    ensures judged { Judges result (artery_fault (street_in (view root.now))) }
{
    let head = head_in(alloc, root)?;
    let signals = signals_in(alloc, items_at(root, "signal"))?;
    let links = links_in(alloc, items_at(root, "link"))?;
    Artery::new(alloc, head, signals, links)
}

/// The artery of a document, or its first fault.
fn judge(alloc: Global, root: &Value) -> Result<Artery, Flaw>
    ensures made { IfOk result (λ a. a ≡ street_in (view root.now)) }
    ensures judged { Judges result (description_fault (view root.now)) }
{
    check_values(alloc, Form::Description, root)?;
    build(alloc, root)
}

/// Reads the description of an artery. `Refused` comes exactly where the bytes describe none, and
/// names the kind and the place of their first fault, in the order of `Kind` and of one kind in the
/// order of the places; `Memory` may come in place of any answer.
pub fn read_artery(alloc: Global, bytes: &[u8]) -> Result<Artery, Flaw>
    ensures described { IfOk result (λ a. Described bytes.now a) }
    ensures refused { IfErr result (λ e. Refuses bytes.now e) }
{
    match read_root(alloc, bytes) {
        Ok(root) => judge(alloc, &root),
        Err(flaw) => Err(flaw),
    }
}
