//! What the values of a select's items are to be, which is tested at run time where rows come from outside.

ghost use Rattle.std.specs.Prelude.{◌≡◌, IfOk};
ghost use Rattle.std.specs.Cmp.Lexicographic.{pointwise};
ghost use Rattle.sql_semantics.specs.Shapes as answers;
ghost use Rattle.sql_semantics.specs.Kinds.{column_in};
ghost use Rattle.expr_typing.specs.ItemShapes as spec;

use crate::judge::type_of;
use crate::kind::column_in;
use base_core::{ColumnNo, Kind, RowValues, TableId, Value};
use expr_types::{Expr, Select};
use schema_core::{Schema, is_required, kind_of_value, same_kind};
use std::alloc::{AllocError, Global};

/// What the values of an item are to be.
#[derive(Clone, Copy)]
pub struct ItemShape {
    pub kind: Kind,
    /// Whether they are never NULL.
    pub never_null: bool,
}

impl ItemShape {
    /// Whether a value is of the kind, or NULL where that may be.
    fn fits(&self, value: &Value) -> bool
        ensures { result ≡ spec.fits self.now value.now }
    {
        match kind_of_value(value) {
            Some(kind) => same_kind(kind, self.kind),
            None => !self.never_null,
        }
    }
}

// ---- items

/// Whether a source is the first, or one that is not left-joined.
fn is_inner(select: &Select, place: u32) -> bool
    ensures { result ≡ answers.is_inner select.now place }
{
    if place == 0 {
        return true;
    }
    match select.joins.get(place as usize - 1) {
        Some(join) => !join.left,
        None => false,
    }
}

/// Whether a source's column is there, and takes no NULL.
fn takes_no_null(schema: &Schema, scope: &[TableId], place: u32, column: ColumnNo) -> bool
    ensures { result ≡ answers.takes_no_null (column_in schema.now scope.now place column) }
{
    match column_in(schema, scope, place, column) {
        Some(column) => is_required(column),
        None => false,
    }
}

/// Whether an item is a column that takes no NULL, of a source that is not left-joined.
#[tactic(auto, unfolding(sql_semantics::specs::Shapes::is_never_null))]
fn is_never_null(schema: &Schema, select: &Select, scope: &[TableId], e: &Expr) -> bool
    requires { scope.now ≡ answers.scope_of select.now }
    ensures { result ≡ answers.is_never_null schema.now select.now e.now }
{
    match e {
        Expr::Column(place, column) => {
            is_inner(select, *place) && takes_no_null(schema, scope, *place, *column)
        }
        _ => false,
    }
}

/// The tables of the sources.
#[tactic(auto, using(crate::proofs::Items::scope_more))]
fn scope_of(alloc: Global, select: &Select) -> Result<Vec<TableId>, AllocError>
    ensures { IfOk result (λ scope. scope.items ≡ answers.scope_of select.now) }
{
    let mut scope = Vec::new(alloc);
    scope.push(select.first.table)?;
    for join in select.joins.as_slice() {
        scope.push(join.origin.table)?;
    }
    Ok(scope)
}

/// What the values of an item are to be.
fn shape_of_item(
    alloc: Global,
    schema: &Schema,
    select: &Select,
    scope: &[TableId],
    e: &Expr,
) -> Result<ItemShape, AllocError>
    requires { scope.now ≡ answers.scope_of select.now }
    ensures { IfOk result (λ shape. shape ≡ spec.shape_of_item schema.now select.now e.now) }
{
    match type_of(alloc, schema, scope, e) {
        Ok(kind) => {
            let never_null = is_never_null(schema, select, scope, e);
            Ok(ItemShape { kind, never_null })
        }
        Err(_refusal) => Err(AllocError),
    }
}

/// What the values of each item are to be. An item without a kind, which no plain select has, is refused as for want of memory.
#[tactic(auto, using(crate::proofs::Items::map_more))]
pub fn item_shapes(
    alloc: Global,
    schema: &Schema,
    select: &Select,
) -> Result<Vec<ItemShape>, AllocError>
    ensures { IfOk result (λ all. all.items ≡ spec.shapes_of schema.now select.now) }
{
    let scope = scope_of(alloc, select)?;
    let mut all = Vec::new(alloc);
    for item in select.items.as_slice() {
        all.push(shape_of_item(alloc, schema, select, scope.as_slice(), &item.0)?)?;
    }
    Ok(all)
}

// ---- rows

/// Whether there is one value for each item, and each is as it is to be.
#[tactic(auto, using(schema_core::proofs::Steps::pair_steps))]
fn row_fits(shapes: &[ItemShape], row: &[Value]) -> bool
    ensures { result ≡ pointwise spec.fits shapes.now row.now }
{
    for (place, item) in shapes.iter().enumerate() {
        if place >= row.len() || !item.fits(&row[place]) {
            return false;
        }
    }
    row.len() == shapes.len()
}

/// Whether each row has one value for each item, and each is as it is to be: of the item's kind, or NULL where that may be.
pub fn all_fit(shapes: &[ItemShape], rows: &[RowValues]) -> bool
    ensures { result ≡ spec.all_fit shapes.now rows.now }
{
    rows.iter().all(|row| row_fits(shapes, row.as_slice()))
}
