//! What `distinct`, `offset` and `limit` leave.

ghost use Rattle.std.specs.Prelude.{◌≡◌, IfOk};
ghost use Rattle.sql_semantics.specs.Rows as spec;

use crate::seen::keep_first;
use base_core::{ListOf, RowList, RowValues};
use expr_types::Select;
use std::alloc::{AllocError, Global};
use std::collections::BTreeSet;

/// The first of equal rows where the select says so, and of these what its offset and its limit leave.
pub fn distinct_and_cut(
    alloc: Global,
    select: &Select,
    rows: Vec<RowValues>,
) -> Result<RowList, AllocError>
    ensures { IfOk result (λ left. left
        ≡ spec.page_of select.now (spec.distinct select.now.distinct rows.items)) }
{
    let rows = distinct(alloc, select.distinct, rows)?;
    Ok(ListOf::from_vec(cut(rows, select.offset, select.limit)))
}

/// The first of equal rows is kept.
fn distinct(
    alloc: Global,
    distinct: bool,
    rows: Vec<RowValues>,
) -> Result<Vec<RowValues>, AllocError>
    ensures { IfOk result (λ kept. kept.items ≡ spec.distinct distinct rows.items) }
{
    if !distinct {
        return Ok(rows);
    }
    let mut seen = BTreeSet::new(alloc);
    let mut kept = Vec::new(alloc);
    for row in rows {
        keep_first(&mut seen, &mut kept, row)?;
    }
    Ok(kept)
}

/// The rows behind so many, and no more than so many of them.
fn cut(rows: Vec<RowValues>, offset: Option<u64>, limit: Option<u64>) -> Vec<RowValues>
    ensures { result.items ≡ spec.within_limit limit (spec.cut_off offset rows.items) }
{
    let mut rows = rows;
    if let Some(n) = offset {
        rows.drain(..(n as usize).min(rows.len()));
    }
    if let Some(n) = limit {
        rows.truncate(n as usize);
    }
    rows
}
