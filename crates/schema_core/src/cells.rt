//! Whether a row fits its table.

ghost use Rattle.std.specs.Prelude.{◌≡◌};
ghost use Rattle.std.specs.Cmp.Lexicographic.{pointwise};
ghost use Rattle.schema_core.specs.Catalog.{spec_of, is_required, IsTable};
ghost use Rattle.schema_core.specs.Tables.{fits, kind_of_value, is_legal_row};

use crate::declaration::{kind_of, same_kind};
use crate::{ColumnSpec, Schema};
use base_core::{Kind, RowValues, TableId, Value};

/// The kind of a value; NULL has none.
pub fn kind_of_value(value: &Value) -> Option<Kind>
    ensures { result ≡ kind_of_value value.now }
{
    match value {
        Value::Null => None,
        Value::Bool(_) => Some(Kind::Boolean),
        Value::Int(_) => Some(Kind::Integer),
        Value::Text(_) => Some(Kind::Text),
        Value::Bytes(_) => Some(Kind::Bytes),
    }
}

/// Whether a column takes no NULL: it is NOT NULL or of the primary key.
pub fn is_required(column: &ColumnSpec) -> bool
    ensures { result ≡ is_required column.now }
{
    column.not_null || column.key
}

/// Whether a value is of a column's kind, or NULL where the column takes it.
pub(crate) fn fits(column: &ColumnSpec, value: &Value) -> bool
    ensures { result ≡ fits column.now value.now }
{
    match kind_of_value(value) {
        Some(kind) => same_kind(kind_of(column.kind), kind),
        None => !is_required(column),
    }
}

#[tactic(auto, using(crate::proofs::Steps::pair_steps))]
/// Whether there is one value for each column, and each fits.
fn all_fit(columns: &[ColumnSpec], row: &[Value]) -> bool
    ensures { result ≡ pointwise fits columns.now row.now }
{
    for (place, column) in columns.iter().enumerate() {
        if place >= row.len() || !fits(column, &row[place]) {
            return false;
        }
    }
    row.len() == columns.len()
}

impl Schema {
    /// Whether a row has one cell for each column of its table, each of its column's kind or NULL, and not NULL where the
    /// column is NOT NULL or of the primary key. It takes no memory.
    pub fn legal_row(&self, table: TableId, row: &RowValues) -> bool
        requires { IsTable self.now table }
        ensures { result ≡ is_legal_row (spec_of self.now table) row.now }
    {
        all_fit(self.spec(table).columns.as_slice(), row.as_slice())
    }
}
