//! What changes replaced, and the way back.

ghost use Rattle.std.specs.Prelude.{◌≡◌, ◌+◌, ◌<◌, ◌≤◌, [], length, vec_len, vec_capacity, OnOk};
ghost use Rattle.table_log.specs.Undone.{ArePlaced, Follows, before_change};
ghost use Rattle.table_rows.specs.Rows.{IsPlaced, KeepsAllPlaces, tables_present};

use base_core::{Key, RowValues, TableId};
use std::alloc::AllocError;
use table_rows::TableMap;

/// What stood under a key of a table before a change: a row, or none.
#[derive(Drop)]
pub struct LogEntry {
    pub table: TableId,
    pub key: Key,
    pub before: Option<RowValues>,
}

/// Room for one entry more, and for all of them once they are undone.
pub(crate) fn make_room(
    log: &mut Vec<LogEntry>,
    entries_undone: &mut Vec<LogEntry>,
) -> Result<(), AllocError>
    requires { vec_len entries_undone.old + vec_len log.old ≤ vec_capacity entries_undone.old }
    ensures log { log.new.items ≡ log.old.items }
    ensures room { vec_len entries_undone.new + vec_len log.new ≤ vec_capacity entries_undone.new }
    ensures more { OnOk result
        ((vec_len log.new < vec_capacity log.new)
        × (vec_len entries_undone.new + vec_len log.new + 1 ≤ vec_capacity entries_undone.new)) }
{
    log.reserve(1)?;
    entries_undone.reserve(log.len() + 1)?;
    Ok(())
}

/// Brings back what stood under the key of an entry, and leaves its key, with what stood there until now.
fn undo(tables: &mut TableMap, entry: LogEntry) -> LogEntry
    requires { IsPlaced tables.old entry.table entry.key }
    ensures rows { tables_present tables.new ≡ before_change (tables_present tables.old) entry }
    ensures places { KeepsAllPlaces tables.old tables.new }
{
    let LogEntry { table, key, before } = entry;
    let replaced = tables.restore(table, &key, before);
    LogEntry {
        table,
        key,
        before: replaced,
    }
}

#[tactic(auto, using(crate::proofs::WayBack::undoing))]
/// Undoes the changes behind a place in the log, the last one first, and cuts the log there. The entries are kept beside it,
/// for the sake of their places.
pub(crate) fn undo_from(
    tables: &mut TableMap,
    log: &mut Vec<LogEntry>,
    entries_undone: &mut Vec<LogEntry>,
    place: usize,
)
    requires placed { ArePlaced tables.old log.old.items }
    requires within { place ≤ length log.old.items }
    requires room { vec_len entries_undone.old + vec_len log.old ≤ vec_capacity entries_undone.old }
    ensures back { Follows (tables_present tables.new) log.new.items (tables_present tables.old) log.old.items }
    ensures place { length log.new.items ≡ place }
    ensures placed { ArePlaced tables.new log.new.items }
    ensures room { vec_len entries_undone.new + vec_len log.new ≤ vec_capacity entries_undone.new }
{
    'back: while place < log.len() {
        let last = log.take_last();
        let entry = undo(tables, last);
        entries_undone.push_reserved(entry);
    }
}

/// Gives up the places of the keys of entries where no row stands, and what the entries' rows had entered in indexes.
fn sweep(tables: &mut TableMap, entries: &[LogEntry])
    ensures { tables_present tables.new ≡ tables_present tables.old }
{
    for entry in entries {
        tables.sweep(entry.table, &entry.key, entry.before.as_ref());
    }
}

/// Empties a log that no scope needs.
pub(crate) fn forget(
    tables: &mut TableMap,
    log: &mut Vec<LogEntry>,
    entries_undone: &mut Vec<LogEntry>,
)
    ensures tables { tables_present tables.new ≡ tables_present tables.old }
    ensures log { log.new.items ≡ [] }
    ensures room { vec_len entries_undone.new + vec_len log.new ≤ vec_capacity entries_undone.new }
{
    sweep(tables, log.as_slice());
    sweep(tables, entries_undone.as_slice());
    log.clear();
    entries_undone.clear();
}
