//! What is asked of a bulk statement before it is sent.

ghost use Rattle.std.specs.Prelude.{◌≡◌, ◌<◌, IfErr, IfSome, OnOk, None, false, length, not};
ghost use Rattle.std.specs.List.{list_all, list_any};
ghost use Rattle.class_layouts.specs.Faults.{is_named};
ghost use Rattle.keeper_core.specs.Alone.{IsOwn};
ghost use Rattle.schema_core.specs.Catalog.{spec_of};
ghost use Rattle.sql_semantics.specs.Plain.{is_free_column};
ghost use Rattle.session_scopes.specs.SessionState.{AreAlikeButNotes, IsInStep};
ghost use Rattle.session_calls.specs.Calling.{IsSessionCall};
ghost use Rattle.session_calls.specs.Refusals.{IsRefused, entered};
ghost use Rattle.session_calls.specs.Steps.{pending_fault};
ghost use Rattle.session_statements.specs.Steps as steps;

use base_core::{ClassId, ColumnNo, Name, Refusal, RequestKind, TableId};
use class_mapping::Mapping;
use class_types::ClassSpec;
use expr_types::{Bulk, Expr};
use keeper_core::Keeper;
use schema_core::{ColumnSpec, Schema};
use session_calls::enter;
use session_scopes::Session;

/// A transaction begins where none is in progress, and the statement writes no key and no discriminator.
///
/// # Errors
/// `PendingRollbackError` while a failed flush waits for its rollback; then, in the transaction, `InvalidRequestError(KeyChange)`
/// for an UPDATE that writes a column of its table's primary key, and `InvalidRequestError(Discriminator)` for one that writes a
/// column by which a hierarchy tells its classes apart. The first leaves the session as it was, the others in the transaction.
pub fn enter_bulk<K: Keeper>(
    session: &mut Session,
    keeper: &mut K,
    statement: &Bulk,
) -> Result<(), Refusal>
    requires in_step { IsInStep session.old (K.moment keeper.old) }
    ensures call { IsSessionCall K.moment (λ u. u) (steps.enter_bulk statement.now)
        (session.old, keeper.old) result (session.new, keeper.new) }
    ensures inside { OnOk result (0 < length session.new.frames.scopes) }
    ensures well { OnOk result (session.new.failed ≡ false) }
    ensures spares { OnOk result
        (steps.writes_key session.new.mapping.schema statement.now ≡ false) }
    ensures entered { OnOk result (AreAlikeButNotes (entered session.old) session.new) }
    ensures refused { IfErr result (λ e. IsRefused (pending_fault session.old)
        (steps.update_fault statement.now session.old) session.old e session.new) }
{
    enter(session, keeper)?;
    match update_fault(session.mapping(), statement) {
        Some(fault) => Err(fault),
        None => Ok(()),
    }
}

/// Why an UPDATE is not sent: it writes a column of its table's key, or one by which a hierarchy tells its classes apart.
fn update_fault(mapping: &Mapping, statement: &Bulk) -> Option<Refusal>
    ensures fault { result ≡ steps.update_fault_in mapping.now statement.now }
    ensures spares { result ≡ None → steps.writes_key mapping.now.schema statement.now ≡ false }
    ensures own { IfSome result IsOwn }
{
    if writes_key(mapping.schema(), statement) {
        return Some(Refusal::InvalidRequestError(RequestKind::KeyChange));
    }
    if writes_discriminator(mapping, statement) {
        return Some(Refusal::InvalidRequestError(RequestKind::Discriminator));
    }
    None
}

/// Whether an UPDATE writes a column by which a hierarchy tells its classes apart.
fn writes_discriminator(mapping: &Mapping, statement: &Bulk) -> bool
    ensures { result ≡ steps.writes_discriminator mapping.now statement.now }
{
    match statement {
        Bulk::Update { table, cells, .. } => has_discriminator(mapping, *table, cells.as_slice()),
        Bulk::Insert { .. } | Bulk::Delete { .. } => false,
    }
}

/// Whether one of the columns that are written tells the classes of a hierarchy apart.
fn has_discriminator(mapping: &Mapping, table: TableId, cells: &[(ColumnNo, Option<Expr>)]) -> bool
    ensures { result ≡ list_any
        (λ cell. steps.is_discriminator mapping.now table cell.0) cells.now }
{
    cells
        .iter()
        .any(|cell| is_discriminator(mapping, table, cell.0))
}

/// Whether a column of a table tells the classes of a hierarchy apart.
fn is_discriminator(mapping: &Mapping, table: TableId, column: ColumnNo) -> bool
    ensures { result ≡ steps.is_discriminator mapping.now table column }
{
    let schema = mapping.schema();
    if table.0 >= schema.count() {
        return false;
    }
    let spec = schema.spec(table);
    match spec.columns.as_slice().get(column.0 as usize) {
        Some(found) => tells_apart(mapping, &spec.name, &found.name),
        None => false,
    }
}

/// Whether the column of a name tells the classes of a hierarchy apart in the table of a name.
fn tells_apart(mapping: &Mapping, table: &Name, column: &Name) -> bool
    ensures { result
        ≡ list_any (steps.is_told_by table.now column.now) mapping.now.classes.specs }
{
    for number in 0..mapping.count() {
        if is_told_by(mapping.spec_of(ClassId(number)), table, column) {
            return true;
        }
    }
    false
}

/// Whether a class heads a hierarchy that the column of a name tells apart in the table of a name.
fn is_told_by(class: &ClassSpec, table: &Name, column: &Name) -> bool
    ensures { result ≡ steps.is_told_by table.now column.now class.now }
{
    is_named(&class.table, table) && is_named(&class.discriminator, column)
}

fn is_named(own: &Option<Name>, name: &Name) -> bool
    ensures { result ≡ is_named own.now name.now }
{
    match own {
        Some(own) => *own == *name,
        None => false,
    }
}

/// Whether an UPDATE writes a column of its table's key.
fn writes_key(schema: &Schema, statement: &Bulk) -> bool
    ensures { result ≡ steps.writes_key schema.now statement.now }
{
    match statement {
        Bulk::Update { table, cells, .. } => !are_free(schema, *table, cells.as_slice()),
        Bulk::Insert { .. } | Bulk::Delete { .. } => false,
    }
}

/// Whether no column that is written is of the table's key.
fn are_free(schema: &Schema, table: TableId, cells: &[(ColumnNo, Option<Expr>)]) -> bool
    ensures { result ≡ list_all (λ cell. is_free_column schema.now table cell.0) cells.now }
{
    cells.iter().all(|cell| is_free(schema, table, cell.0))
}

/// Whether a column of a table is there and no part of its key.
fn is_free(schema: &Schema, table: TableId, column: ColumnNo) -> bool
    ensures { result ≡ is_free_column schema.now table column }
{
    match columns_of(schema, table).get(column.0 as usize) {
        Some(spec) => !spec.key,
        None => false,
    }
}

/// The columns of a table, none of one that is not declared.
fn columns_of(schema: &Schema, table: TableId) -> &[ColumnSpec]
    ensures { result.now ≡ (spec_of schema.now table).columns }
{
    if table.0 < schema.count() {
        schema.spec(table).columns.as_slice()
    } else {
        &[]
    }
}
