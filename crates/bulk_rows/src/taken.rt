//! The rows that a bulk statement takes.

ghost use Rattle.std.specs.Prelude.{◌≡◌, [], ◌∷◌, ◌++◌, if◌then◌else◌, OnOk};
ghost use Rattle.table_rows.specs.Lent.{seen};
ghost use Rattle.table_rows.specs.Walks.{entries_left};
ghost use Rattle.sql_semantics.specs.Checked.{Gives};
ghost use Rattle.sql_semantics.specs.Taken as spec;

use crate::cells::{rewritten, scope_at};
use base_core::{ColumnNo, Copied, Key, ListOf, Refusal, RowValues, Value};
use expr_eval::{passes, value_in};
use expr_types::Expr;
use std::alloc::{AllocError, Global};
use table_rows::{EntryWalk, LentTables};

/// Whether the statement takes the row.
fn takes(
    alloc: Global,
    tables: LentTables<'_>,
    filter: &Option<Expr>,
    row: &[Value],
) -> Result<bool, Refusal>
    ensures { Gives (λ x. x) result (spec.takes (seen tables.entry) filter.now row.now) }
{
    match filter {
        Some(e) => {
            let value = value_in(alloc, e, &scope_at(&[0], tables, row))?;
            Ok(passes(&value))
        }
        None => Ok(true),
    }
}

/// The rows with one more, where it is taken.
fn add_row(
    alloc: Global,
    tables: LentTables<'_>,
    written: &[(ColumnNo, Option<Expr>)],
    done: Vec<(Key, RowValues)>,
    key: &Key,
    row: &RowValues,
    taken: bool,
) -> Result<Vec<(Key, RowValues)>, Refusal>
    ensures { Gives (λ v. v.items) result
        (spec.one_more (seen tables.entry) written.now done.items (key.now, row.now) taken) }
{
    let mut done = done;
    if taken {
        let row = rewritten(alloc, tables, row, written)?;
        done.push((key.copied()?, row))?;
    }
    Ok(done)
}

fn updated_rows(
    alloc: Global,
    tables: LentTables<'_>,
    written: &[(ColumnNo, Option<Expr>)],
    filter: &Option<Expr>,
    rows: EntryWalk<'_>,
) -> Result<Vec<(Key, RowValues)>, Refusal>
    ensures { Gives (λ v. v.items) result
        (spec.updated_from (seen tables.entry) written.now filter.now []
        (entries_left rows.entry)) }
{
    let mut left = rows;
    let mut done = Vec::new(alloc);
    while let Some((key, row)) = left.next_entry() {
        let taken = takes(alloc, tables, filter, row.as_slice())?;
        done = add_row(alloc, tables, written, done, key, row, taken)?;
    }
    Ok(done)
}

/// The rows of the table that an UPDATE takes, each under its key with its cells written. No row is copied but those.
///
/// # Errors
/// `DataError` with the first result outside 64 bits: row by row in the order given, of each its condition and then its
/// expressions in order; out of memory.
pub fn updated(
    alloc: Global,
    tables: LentTables<'_>,
    written: &ListOf<(ColumnNo, Option<Expr>)>,
    filter: &Option<Expr>,
    rows: EntryWalk<'_>,
) -> Result<ListOf<(Key, RowValues)>, Refusal>
    ensures { Gives (λ x. x) result
        (spec.updated_from (seen tables.entry) written.now filter.now []
        (entries_left rows.entry)) }
{
    Ok(ListOf::from_vec(updated_rows(alloc, tables, written.as_slice(), filter, rows)?))
}

/// The key goes to the end where its row is taken.
fn add_key(done: &mut Vec<Key>, key: &Key, taken: bool) -> Result<(), AllocError>
    ensures { OnOk result (done.new.items
        ≡ (if taken then done.old.items ++ key.now ∷ [] else done.old.items)) }
{
    if taken {
        done.push(key.copied()?)?;
    }
    Ok(())
}

fn deleted_keys(
    alloc: Global,
    tables: LentTables<'_>,
    filter: &Option<Expr>,
    rows: EntryWalk<'_>,
) -> Result<Vec<Key>, Refusal>
    ensures { Gives (λ v. v.items) result
        (spec.deleted_from (seen tables.entry) filter.now [] (entries_left rows.entry)) }
{
    let mut left = rows;
    let mut done = Vec::new(alloc);
    while let Some((key, row)) = left.next_entry() {
        let taken = takes(alloc, tables, filter, row.as_slice())?;
        add_key(&mut done, key, taken)?;
    }
    Ok(done)
}

/// The keys of the rows of the table that a DELETE takes.
///
/// # Errors
/// `DataError` with the first result outside 64 bits, row by row in the order given; out of memory.
pub fn deleted(
    alloc: Global,
    tables: LentTables<'_>,
    filter: &Option<Expr>,
    rows: EntryWalk<'_>,
) -> Result<ListOf<Key>, Refusal>
    ensures { Gives (λ x. x) result
        (spec.deleted_from (seen tables.entry) filter.now [] (entries_left rows.entry)) }
{
    Ok(ListOf::from_vec(deleted_keys(alloc, tables, filter, rows)?))
}
