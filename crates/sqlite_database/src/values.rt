//! Values as SQLite keeps them: booleans as 0 and 1.

use crate::ending::Ending;
use base_core::{Blob, Kind, ListOf, RowList, RowValues, Text, Value};
use sqlite::Row;
use sqlite::types::ValueRef;
use std::alloc::{AllocError, Global};

/// A value as a parameter.
fn parameter_of(value: &Value) -> ValueRef<'_> {
    match value {
        Value::Null => ValueRef::Null,
        Value::Bool(true) => ValueRef::Int(1),
        Value::Bool(false) => ValueRef::Int(0),
        Value::Int(n) => ValueRef::Int(*n),
        Value::Text(text) => ValueRef::Text(text.get().as_bytes()),
        Value::Bytes(bytes) => ValueRef::Blob(bytes.get()),
    }
}

/// The parameters of a statement, in the order of its marks.
pub(crate) fn parameters_of(
    alloc: Global,
    values: &[Value],
) -> Result<Vec<ValueRef<'_>>, AllocError> {
    let mut parameters = Vec::with_capacity(alloc, values.len())?;
    for value in values {
        parameters.push(parameter_of(value))?;
    }
    Ok(parameters)
}

/// A text of SQLite, which is to be UTF-8.
fn text_of(alloc: Global, bytes: &[u8]) -> Result<Value, Ending> {
    match std::str::from_utf8(bytes) {
        Ok(text) => Ok(Value::Text(Text::new(String::from_str(alloc, text)?))),
        Err(_) => Err(Ending::Fault),
    }
}

/// A boolean, which is kept as 0 or 1.
fn boolean_of(number: i64) -> Result<Value, Ending> {
    match number {
        0 => Ok(Value::Bool(false)),
        1 => Ok(Value::Bool(true)),
        _ => Err(Ending::Fault),
    }
}

/// A value of a kind, or NULL. A value of another kind is a fault.
fn value_of(alloc: Global, kind: Kind, value: ValueRef<'_>) -> Result<Value, Ending> {
    match (value, kind) {
        (ValueRef::Null, _) => Ok(Value::Null),
        (ValueRef::Int(n), Kind::Integer) => Ok(Value::Int(n)),
        (ValueRef::Int(n), Kind::Boolean) => boolean_of(n),
        (ValueRef::Text(bytes), Kind::Text) => text_of(alloc, bytes),
        (ValueRef::Blob(bytes), Kind::Bytes) => Ok(Value::Bytes(Blob::new(Vec::from_slice(
            alloc, bytes,
        )?))),
        _ => Err(Ending::Fault),
    }
}

/// The value at a place of a row.
fn value_at(alloc: Global, kind: Kind, row: &Row, place: usize) -> Result<Value, Ending> {
    value_of(alloc, kind, row.get_ref(place)?)
}

/// One more item, where it was read.
fn add_read<T: Drop>(items: &mut Vec<T>, item: Result<T, Ending>) -> Result<(), Ending> {
    items.push(item?)?;
    Ok(())
}

/// The values of a row, each of its kind.
fn row_of(alloc: Global, kinds: &[Kind], row: &Row) -> Result<RowValues, Ending> {
    let mut values = Vec::with_capacity(alloc, kinds.len())?;
    for (place, kind) in kinds.iter().enumerate() {
        add_read(&mut values, value_at(alloc, *kind, row, place))?;
    }
    Ok(ListOf::from_vec(values))
}

/// The rows, each value of its column's kind.
pub(crate) fn rows_of(alloc: Global, kinds: &[Kind], rows: &[Row]) -> Result<RowList, Ending> {
    let mut read = Vec::with_capacity(alloc, rows.len())?;
    for row in rows {
        add_read(&mut read, row_of(alloc, kinds, row))?;
    }
    Ok(ListOf::from_vec(read))
}
