ghost use Rattle.std.specs.Prelude.{◌≡◌, IfOk};
ghost use Rattle.base_core.specs.Order.{rank, value_cmp};

use crate::{Blob, Copied, ListOf, Text};
use std::alloc::AllocError;
use std::cmp::Ordering;

/// What a cell holds.
#[derive(Clone, PartialEq, Eq)]
pub enum Value {
    Null,
    Bool(bool),
    Int(i64),
    Text(Text),
    Bytes(Blob),
}

impl Drop for Value {
    fn drop(self) {
        match self {
            Value::Null => {}
            Value::Bool(_) => {}
            Value::Int(_) => {}
            Value::Text(_) => {}
            Value::Bytes(_) => {}
        }
    }
}

impl PartialOrd for Value {
    ghost use Rattle.std.specs.Prelude.{Some};
    ghost use Rattle.base_core.specs.Order.{value_cmp};
    ghost use Rattle.base_core.specs.OrderLaws.{value_cmp_po};

    ghost partial_cmp = { λ a b. Some (value_cmp a b) };

    ghost laws = { value_cmp_po };

    fn partial_cmp(&self, other: &Value) -> Option<Ordering> {
        Some(self.cmp(other))
    }
}

impl Ord for Value {
    ghost use Rattle.std.specs.Prelude.{refl};
    ghost use Rattle.base_core.specs.Order.{value_cmp};
    ghost use Rattle.base_core.specs.OrderLaws.{value_cmp_total, value_cmp_ties};

    ghost cmp = { value_cmp };

    ghost total = { value_cmp_total };

    ghost matches_partial_cmp = { λ _ _. refl };

    ghost matches_eq = { value_cmp_ties };

    fn cmp(&self, other: &Value) -> Ordering {
        match (self, other) {
            (Value::Bool(a), Value::Bool(b)) => a.cmp(b),
            (Value::Int(a), Value::Int(b)) => a.cmp(b),
            (Value::Text(a), Value::Text(b)) => a.cmp(b),
            (Value::Bytes(a), Value::Bytes(b)) => a.cmp(b),
            (a, b) => rank(a).cmp(&rank(b)),
        }
    }
}

/// Where the value's kind stands in the order.
fn rank(value: &Value) -> u8
    ensures { result ≡ rank value.now }
{
    match value {
        Value::Null => 0,
        Value::Bool(_) => 1,
        Value::Int(_) => 2,
        Value::Text(_) => 3,
        Value::Bytes(_) => 4,
    }
}

/// A column's kind.
#[derive(Clone, Copy, PartialEq, Eq)]
pub enum Kind {
    Integer,
    Text,
    Boolean,
    Bytes,
}

/// The order of values: null, false, true, integers, texts by their bytes, bytes.
pub fn compare(a: &Value, b: &Value) -> Ordering
    ensures { result ≡ value_cmp a.now b.now }
{
    a.cmp(b)
}

impl Copied for Value {
    fn copied(&self) -> Result<Value, AllocError> {
        self.clone()
    }
}

/// The values of a primary key, column by column.
pub type Key = ListOf<Value>;

/// Keys.
pub type KeyList = ListOf<Key>;

/// The values of a row, column by column.
pub type RowValues = ListOf<Value>;

/// Rows.
pub type RowList = ListOf<RowValues>;

/// An operator on integers.
#[derive(Clone, Copy, PartialEq, Eq)]
pub enum ArithOp {
    Add,
    Sub,
    Mul,
}
