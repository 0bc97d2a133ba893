//! The rows that SQLite answers, which are tested at run time.

ghost use Rattle.std.specs.Prelude.{◌≡◌, map, IfOk};
ghost use Rattle.std.specs.List.{list_all};
ghost use Rattle.schema_core.specs.Catalog.{IsTable, spec_of};
ghost use Rattle.schema_core.specs.Tables.{is_legal_row};
ghost use Rattle.expr_typing.specs.ItemShapes.{AreAnswers, shapes_of};
ghost use Rattle.keeper_core.specs.Keeping.{AreRowsOf};

use base_core::{Kind, RowList, RowValues, TableId};
use expr_types::Select;
use expr_typing::{ItemShape, all_fit};
use schema_core::Schema;
use sqlite_database::Ending;
use std::alloc::{AllocError, Global};

// ---- rows of a select

/// The rows of a select whose items' values are to be so. A value of another kind than its item's, or NULL where the item never is,
/// is a fault.
pub fn answers(
    schema: &Schema,
    select: &Select,
    shapes: &[ItemShape],
    rows: RowList,
) -> Result<RowList, Ending>
    requires { shapes.now ≡ shapes_of schema.now select.now }
    ensures { IfOk result (AreAnswers schema.now select.now) }
{
    if !all_fit(shapes, rows.as_slice()) {
        return Err(Ending::Fault);
    }
    Ok(rows)
}

/// The kinds of the items.
#[tactic(auto, using(expr_typing::proofs::Items::map_more))]
pub fn kinds_of(alloc: Global, shapes: &[ItemShape]) -> Result<Vec<Kind>, AllocError>
    ensures { IfOk result (λ kinds. kinds.items ≡ map (λ shape. shape.kind) shapes.now) }
{
    let mut kinds = Vec::with_capacity(alloc, shapes.len())?;
    for item in shapes {
        kinds.push(item.kind)?;
    }
    Ok(kinds)
}

// ---- rows of a table

/// Whether each row has one value for each column of its table, of the column's kind or NULL where that may be.
fn all_legal(schema: &Schema, table: TableId, rows: &[RowValues]) -> bool
    requires { IsTable schema.now table }
    ensures { result ≡ list_all (is_legal_row (spec_of schema.now table)) rows.now }
{
    rows.iter().all(|row| schema.legal_row(table, row))
}

/// The rows, where each has one value for each column of its table, of the column's kind or NULL where that may be.
#[tactic(auto, using(crate::proofs::Items::rows_of_table))]
pub fn legal_rows(schema: &Schema, table: TableId, rows: RowList) -> Result<RowList, Ending>
    requires { IsTable schema.now table }
    ensures { IfOk result (AreRowsOf schema.now table) }
{
    if !all_legal(schema, table, rows.as_slice()) {
        return Err(Ending::Fault);
    }
    Ok(rows)
}
