//! Statements on rows.

ghost use Rattle.std.specs.Prelude.{◌≡◌, ◌∷◌, [], IfErr, IfOk, IsTrue};
ghost use Rattle.schema_core.specs.Catalog.{IsTable, spec_of};
ghost use Rattle.schema_core.specs.Tables.{is_null, key_cells};
ghost use Rattle.schema_core.specs.WellFormed.{AreKeysFor, AreKeysOf, IsDrawnFor, IsWellFormed, MayViolate};
ghost use Rattle.std.specs.List.{list_all};
ghost use Rattle.sqlite_statements.specs.Endings.{IfRefused, IsKeyFor};

use crate::sending::run_statement;
use base_core::{ColumnNo, Copied, Key, KeyList, ListOf, RowList, RowValues, TableId, Value};
use expr_types::Statement;
use row_judging::{key_of, lacks_given, with_key};
use schema_core::{
    ColumnSpec, RowStmt, Schema, TableSpec, Violation, has_generated_key, is_required,
};
use sqlite_database::{Database, Ending};
use sqlite_items::Boxed;
use sqlite_tables::lookups::{greatest_key, is_taken};
use sqlite_tables::tables::has_table;
use std::alloc::{AllocError, Global};

/// A list of one key.
fn one_key(alloc: Global, key: &Key) -> Result<KeyList, AllocError>
    ensures { IfOk result (λ keys. keys ≡ key.now ∷ []) }
{
    let mut keys = Vec::new(alloc);
    keys.push(key.copied()?)?;
    Ok(ListOf::from_vec(keys))
}

// ---- keys

/// Whether each value is NULL.
fn are_all_null(values: &[Value]) -> bool
    ensures { result ≡ list_all is_null values.now }
{
    for value in values {
        if !is_null(value) {
            return false;
        }
    }
    true
}

fn is_null(value: &Value) -> bool
    ensures { result ≡ is_null value.now }
{
    match value {
        Value::Null => true,
        _ => false,
    }
}

/// The row, with this number for its key where it leaves that open.
#[tactic(auto, using(crate::proofs::Keys::drawn))]
fn row_with_key(
    alloc: Global,
    columns: &[ColumnSpec],
    row: &RowValues,
    number: i64,
) -> Result<RowValues, AllocError>
    ensures { IfOk result (λ filled. IsDrawnFor
        (key_cells columns.now row.now) (key_cells columns.now filled)) }
{
    let given = key_of(alloc, columns, row.as_slice())?;
    if are_all_null(given.as_slice()) {
        return with_key(alloc, columns, number, row.as_slice());
    }
    row.copied()
}

/// The row with its key, which is this number where the row leaves it open.
#[tactic(auto, using(crate::proofs::Keys::key_is_for))]
fn new_row(
    alloc: Global,
    schema: &Schema,
    table: TableId,
    row: &RowValues,
    number: i64,
) -> Result<(RowValues, Key), Ending>
    requires { IsTable schema.now table }
    ensures { IfOk result (λ made. IsKeyFor (spec_of schema.now table) row.now made.1) }
{
    let columns = schema.spec(table).columns.as_slice();
    let filled = row_with_key(alloc, columns, row, number)?;
    if !schema.legal_row(table, &filled) {
        return Err(Ending::Fault);
    }
    let key = key_of(alloc, columns, filled.as_slice())?;
    Ok((filled, key))
}

/// The rows with their keys, which are numbers in a row from the first on where the rows leave them open.
fn rows_with_keys(
    alloc: Global,
    schema: &Schema,
    table: TableId,
    rows: &[RowValues],
    first: i64,
) -> Result<(RowList, KeyList), Ending>
    requires { IsTable schema.now table }
    ensures { IfOk result (λ made. AreKeysOf (spec_of schema.now table) rows.now made.1) }
{
    let mut filled = Vec::with_capacity(alloc, rows.len())?;
    let mut keys = Vec::with_capacity(alloc, rows.len())?;
    let mut next = Some(first);
    for row in rows {
        let Some(number) = next else {
            return Err(Ending::Refused(Violation::KeysSpent));
        };
        let (made, key) = new_row(alloc, schema, table, row, number)?;
        filled.push(made)?;
        keys.push(key)?;
        next = number.checked_add(1);
    }
    Ok((ListOf::from_vec(filled), ListOf::from_vec(keys)))
}

/// Whether a row leaves its key open.
fn is_open(spec: &TableSpec, row: &RowValues) -> bool {
    if !has_generated_key(spec) {
        return false;
    }
    for (column, cell) in spec.columns.as_slice().iter().zip(row.as_slice()) {
        if column.key && is_null(cell) {
            return true;
        }
    }
    false
}

/// The first number for the keys of rows that leave them open: one above the greatest key, 1 in an empty table.
fn first_number<D: Database>(
    database: &mut D,
    alloc: Global,
    spec: &TableSpec,
    rows: &RowList,
) -> Result<i64, Ending> {
    let Some(row) = rows.get(0) else {
        return Ok(0);
    };
    if !is_open(spec, row) {
        return Ok(0);
    }
    let Some(greatest) = greatest_key(database, alloc, spec)? else {
        return Ok(1);
    };
    match greatest.checked_add(1) {
        Some(number) => Ok(number),
        None => Err(Ending::Refused(Violation::KeysSpent)),
    }
}

// ---- an INSERT

/// Whether a key stands before a place.
fn stands_before(keys: &[Key], place: usize, key: &Key) -> bool {
    for other in keys.iter().take(place) {
        if other == key {
            return true;
        }
    }
    false
}

/// Whether a key stands twice, or is of a row of the table.
fn has_taken<D: Database>(
    database: &mut D,
    alloc: Global,
    spec: &TableSpec,
    keys: &[Key],
) -> Result<bool, Ending> {
    for (place, key) in keys.iter().enumerate() {
        if stands_before(keys, place, key) || is_taken(database, alloc, spec, key)? {
            return Ok(true);
        }
    }
    Ok(false)
}

/// Why new rows are refused, where SQLite says that they are: a taken key goes first.
fn why_refused<D: Database>(
    database: &mut D,
    alloc: Global,
    spec: &TableSpec,
    keys: &KeyList,
    ending: Ending,
) -> Ending {
    if !matches!(ending, Ending::Refused(_)) {
        return ending;
    }
    match has_taken(database, alloc, spec, keys.as_slice()) {
        Ok(true) => Ending::Refused(Violation::PrimaryKey),
        Ok(false) => ending,
        Err(other) => other,
    }
}

/// Whether a row has a NULL in a column that takes none; a generated key may be open.
fn has_lack(spec: &TableSpec, rows: &[RowValues]) -> bool {
    let generated = has_generated_key(spec);
    let columns = spec.columns.as_slice();
    for row in rows {
        if lacks_given(columns, row.as_slice(), generated) {
            return true;
        }
    }
    false
}

/// An INSERT of rows that have their keys.
fn insert_of(alloc: Global, table: TableId, rows: RowList) -> Result<Boxed<Statement>, AllocError> {
    Boxed::new(alloc, Statement::Row(RowStmt::Insert { table, rows }))
}

/// The first number for the keys of new rows, where the table is there and no row has a NULL that it takes not.
fn first_key<D: Database>(
    database: &mut D,
    alloc: Global,
    spec: &TableSpec,
    table: TableId,
    rows: &RowList,
) -> Result<i64, Ending> {
    if !has_table(database, alloc, &spec.name)? {
        return Err(Ending::Refused(Violation::NoTable(table)));
    }
    if has_lack(spec, rows.as_slice()) {
        return Err(Ending::Refused(Violation::NotNull));
    }
    first_number(database, alloc, spec, rows)
}

/// Writes new rows, and answers their keys.
pub(crate) fn insert<D: Database>(
    database: &mut D,
    alloc: Global,
    schema: &Schema,
    table: TableId,
    rows: &RowList,
) -> Result<KeyList, Ending>
    requires { IsTable schema.now table }
    ensures { IfOk result (λ keys. AreKeysOf (spec_of schema.now table) rows.now keys) }
{
    let spec = schema.spec(table);
    let first = first_key(database, alloc, spec, table, rows)?;
    let (filled, keys) = rows_with_keys(alloc, schema, table, rows.as_slice(), first)?;
    match run_statement(database, alloc, schema, insert_of(alloc, table, filled)) {
        Ok(_) => Ok(keys),
        Err(ending) => Err(why_refused(database, alloc, spec, &keys, ending)),
    }
}

// ---- an UPDATE and a DELETE

/// Whether a NULL is written into a column that takes none.
fn writes_null(spec: &TableSpec, cells: &[(ColumnNo, Value)]) -> bool {
    for cell in cells {
        if let Some(column) = spec.columns.get(cell.0.0 as usize) {
            if is_null(&cell.1) && is_required(column) {
                return true;
            }
        }
    }
    false
}

/// A copy of a statement on rows.
fn statement_of(alloc: Global, statement: &RowStmt) -> Result<Boxed<Statement>, AllocError> {
    Boxed::new(alloc, Statement::Row(statement.copied()?))
}

/// Does a statement on one row, where the table is there, and answers how many rows it changed.
fn run_on_row<D: Database>(
    database: &mut D,
    alloc: Global,
    schema: &Schema,
    table: TableId,
    statement: &RowStmt,
) -> Result<u64, Ending>
    requires { IsTable schema.now table }
{
    if !has_table(database, alloc, &schema.spec(table).name)? {
        return Err(Ending::Refused(Violation::NoTable(table)));
    }
    run_statement(database, alloc, schema, statement_of(alloc, statement))
}

/// What writing cells of the row of a key comes to. SQLite changes no row where there is none.
fn update_answer(
    spec: &TableSpec,
    cells: &[(ColumnNo, Value)],
    answer: Result<u64, Ending>,
) -> Result<u64, Ending> {
    match answer {
        Ok(0) => Err(Ending::Refused(Violation::Missing)),
        Err(Ending::Refused(violation)) => match violation {
            Violation::NoTable(_) => answer,
            _ if writes_null(spec, cells) => Err(Ending::Refused(Violation::NotNull)),
            _ => answer,
        },
        _ => answer,
    }
}

/// The keys of a statement on one row that was done.
fn keys_of(alloc: Global, key: &Key, answer: Result<u64, Ending>) -> Result<KeyList, Ending>
    ensures { IfOk result (λ keys. keys ≡ key.now ∷ []) }
{
    match answer {
        Ok(_) => Ok(one_key(alloc, key)?),
        Err(ending) => Err(ending),
    }
}

// ---- a statement

/// Does a statement, and answers its keys.
fn apply<D: Database>(
    database: &mut D,
    alloc: Global,
    schema: &Schema,
    statement: &RowStmt,
) -> Result<KeyList, Ending>
    requires { IsWellFormed schema.now statement.now }
    ensures { IfOk result (λ keys. AreKeysFor schema.now statement.now keys) }
{
    match statement {
        RowStmt::Insert { table, rows } => insert(database, alloc, schema, *table, rows),
        RowStmt::Update { table, key, cells } => {
            let answer = run_on_row(database, alloc, schema, *table, statement);
            let answer = update_answer(schema.spec(*table), cells.as_slice(), answer);
            keys_of(alloc, key, answer)
        }
        RowStmt::Delete { table, key } => {
            let answer = run_on_row(database, alloc, schema, *table, statement);
            keys_of(alloc, key, answer)
        }
    }
}

/// Whether a statement may violate a rule.
fn may_violate(statement: &RowStmt, violation: Violation) -> bool
    ensures { IsTrue result → MayViolate statement.now violation }
{
    match violation {
        Violation::NoTable(absent) => absent == statement.table(),
        Violation::Foreign => true,
        Violation::NotNull | Violation::Unique => !matches!(statement, RowStmt::Delete { .. }),
        Violation::Missing => matches!(statement, RowStmt::Update { .. }),
        Violation::KeysSpent | Violation::PrimaryKey => matches!(statement, RowStmt::Insert { .. }),
    }
}

/// Why a statement is not done. A rule that it cannot violate is SQLite's fault.
fn admitted_ending(statement: &RowStmt, ending: Ending) -> Ending
    ensures { IfRefused (MayViolate statement.now) result }
{
    match ending {
        Ending::Refused(violation) if may_violate(statement, violation) => ending,
        Ending::Refused(_) => Ending::Fault,
        _ => ending,
    }
}

/// Does a statement on rows, judged on the tables that it leaves, and answers its keys. A refused one changes nothing.
pub fn write<D: Database>(
    database: &mut D,
    alloc: Global,
    schema: &Schema,
    statement: &RowStmt,
) -> Result<KeyList, Ending>
    requires fits { IsWellFormed schema.now statement.now }
    ensures keys { IfOk result (λ keys. AreKeysFor schema.now statement.now keys) }
    ensures refuses { IfErr result (IfRefused (MayViolate statement.now)) }
{
    match apply(database, alloc, schema, statement) {
        Ok(keys) => Ok(keys),
        Err(ending) => Err(admitted_ending(statement, ending)),
    }
}
