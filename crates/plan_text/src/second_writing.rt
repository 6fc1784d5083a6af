//! The text of a certificate in format 2, written.

ghost use Rattle.std.specs.Prelude.{◌≡◌, ◌++◌, ◌∷◌, [], All, Ok, map, IfOk, OnOk};
ghost use Rattle.plan_text.specs.{Spelling.{ended}, SecondText.{row_line, row_lines, second_text}, CertificateReading.{certificate_of}};
ghost use Rattle.certificate_model.specs.Families.{IsNamed};

use crate::cert_writing::{push_claim, push_line, push_name};
use crate::listed::rows_of;
use crate::naming::Naming;
use crate::tree_writing::{push_count, push_tree};
use certificate_model::{Certificate, FAMILIES};
use named_row::RowId;
use narrow_fraction::Memory;
use quantity_text::push_text;
use std::alloc::Global;

/// Writes the line of a row's name.
#[tactic(auto, unfolding(certificate_model::specs::Families::ordinary))]
fn push_row(out: &mut Vec<u8>, row: RowId) -> Result<(), Memory>
    requires { IsNamed row }
    ensures { OnOk result (out.new.items ≡ out.old.items ++ ended (row_line row ∷ [])) }
{
    push_name(out, &FAMILIES, row)?;
    push_text(out, "\n")
}

fn push_names(out: &mut Vec<u8>, rows: &[RowId]) -> Result<(), Memory>
    requires { All IsNamed rows.now }
    ensures { OnOk result (out.new.items ≡ out.old.items ++ ended (map row_line rows.now)) }
{
    for row in rows {
        push_row(out, *row)?;
    }
    Ok(())
}

/// Writes how many rows there are, and their names.
fn push_rows(out: &mut Vec<u8>, rows: &[RowId]) -> Result<(), Memory>
    requires { All IsNamed rows.now }
    ensures { OnOk result (out.new.items ≡ out.old.items ++ ended (row_lines rows.now)) }
{
    push_text(out, "rows")?;
    push_count(out, rows.len())?;
    push_names(out, rows)
}

/// The one text of a certificate in format 2, which is read again as that very certificate: the rows that its leaves name are listed
/// once, and a leaf has whole numbers over their least common denominator, or fractions where these don't all fit.
pub fn write_second(alloc: Global, certificate: &Certificate) -> Result<Vec<u8>, Memory>
    ensures text { IfOk result (λ v. v.items ≡ second_text certificate.now) }
    ensures read_back { IfOk result (λ v. certificate_of v.items ≡ Ok certificate.now) }
{
    let rows = rows_of(alloc, certificate.nodes.as_slice())?;
    let mut out = Vec::new(alloc);
    push_line(&mut out, b"maxband-certificate 2")?;
    push_claim::<Certificate>(&mut out, &certificate.claim, &certificate.timing)?;
    push_rows(&mut out, rows.as_slice())?;
    push_tree(
        &mut out,
        Naming::Listed(rows.as_slice()),
        certificate.nodes.as_slice(),
    )?;
    Ok(out)
}
