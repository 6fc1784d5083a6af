//! The lists of a new tableau.

ghost use Rattle.std.specs.{Prelude.{◌≡◌, ◌+◌, ◌<◌, ◌^◌, pos, replicate, IfOk}, List.{range_with_len}};
ghost use Rattle.rational_theory.specs.Rational.{whole};
ghost use Rattle.fraction_tableau.specs.NamedTableaus.{unnamed};

use crate::sparse_row::SparseRow;
use named_row::RowId;
use std::alloc::{AllocError, Global};

/// So many names of family 0 with index 0.
pub fn blank_names(alloc: Global, count: usize) -> Result<Vec<RowId>, AllocError>
    ensures { IfOk result (λ names. names.items ≡ replicate count unnamed) }
{
    let name = RowId {
        family: 0,
        index: 0,
    };
    let mut names = Vec::new(alloc);
    names.resize(count, name)?;
    Ok(names)
}

/// The numbers from `first` on.
pub fn numbers(alloc: Global, first: u32, count: u32) -> Result<Vec<u32>, AllocError>
    requires { first + count < 2 ^ 32 }
    ensures { IfOk result (λ list. list.items ≡ range_with_len first count) }
{
    let mut list = Vec::new(alloc);
    for offset in 0..count {
        list.push(first + offset)?;
    }
    Ok(list)
}

/// So many rows of zeros.
pub fn zero_rows(alloc: Global, count: u32, width: usize) -> Result<Vec<SparseRow>, AllocError>
    ensures { IfOk result (λ sparse_rows. sparse_rows.items ≡ replicate count (replicate (width + 1) (whole (pos 0)))) }
{
    let mut sparse_rows = Vec::new(alloc);
    for _ in 0..count {
        sparse_rows.push(SparseRow::zero(alloc, width)?)?;
    }
    Ok(sparse_rows)
}
