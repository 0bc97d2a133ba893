//! Whether an expression stands under its sources.

ghost use Rattle.std.specs.Prelude.{◌≡◌, ◌++◌, ◌∷◌, [], IfOk, OnOk};
ghost use Rattle.sql_semantics.specs.Kinds.{expression_kind};
ghost use Rattle.sql_semantics.specs.Plain as plain;
ghost use Rattle.plain_statements.specs.Tested as spec;

use base_core::{Kind, Name, Refusal, TableId};
use expr_normal::normal;
use expr_scopes::{fits, has_full_lists, name_of, names_apart, same};
use expr_types::{CopiedIn, Expr, Origin};
use expr_typing::{has_aggregate, type_of};
use schema_core::{Schema, same_kind};
use std::alloc::{AllocError, Global};
use std::mem::drop;

/// The sources around an expression: their tables and their names, the innermost last.
pub(crate) struct Sources {
    pub tables: Vec<TableId>,
    pub names: Vec<Name>,
}

impl Drop for Sources {
    fn drop(self) {
        let Sources {
            tables: _,
            names: _,
        } = self;
    }
}

impl Sources {
    /// No sources.
    pub(crate) fn new(alloc: Global) -> Sources
        ensures tables { result.tables.items ≡ [] }
        ensures names { result.names.items ≡ [] }
    {
        Sources {
            tables: Vec::new(alloc),
            names: Vec::new(alloc),
        }
    }

    /// One more source, the innermost.
    pub(crate) fn enter(
        &mut self,
        alloc: Global,
        schema: &Schema,
        origin: &Origin,
    ) -> Result<(), AllocError>
        ensures tables { OnOk result (self.new.tables.items
            ≡ self.old.tables.items ++ origin.now.table ∷ []) }
        ensures names { OnOk result (self.new.names.items
            ≡ self.old.names.items ++ plain.name_of schema.now origin.now ∷ []) }
    {
        self.names.push(name_of(alloc, schema, origin)?)?;
        self.tables.push(origin.table)?;
        Ok(())
    }
}

/// Whether the expression is in normal form.
fn is_normal(alloc: Global, e: &Expr) -> Result<bool, AllocError>
    ensures { IfOk result (λ normal. normal ≡ spec.is_normal e.now) }
{
    let copy = e.copied_in(alloc)?;
    let form = normal(alloc, copy)?;
    let is = same(&form, e);
    drop(form);
    Ok(is)
}

/// The kind of the expression, none where it has a mismatch.
fn kind_in(
    alloc: Global,
    schema: &Schema,
    scope: &[TableId],
    e: &Expr,
) -> Result<Option<Kind>, AllocError>
    ensures { IfOk result (λ kind. kind ≡ spec.kind_told (expression_kind schema.now e.now scope.now)) }
{
    match type_of(alloc, schema, scope, e) {
        Ok(kind) => Ok(Some(kind)),
        Err(Refusal::Memory) => Err(AllocError),
        Err(_) => Ok(None),
    }
}

/// Whether the expression stands under the sources, whatever its kind.
fn is_placed(alloc: Global, schema: &Schema, around: &Sources, e: &Expr) -> Result<bool, AllocError>
    ensures { IfOk result (λ placed. placed
        ≡ spec.is_placed schema.now around.now.tables.items around.now.names.items e.now) }
{
    if !fits(alloc, schema, around.tables.as_slice(), e)?
        || !names_apart(alloc, schema, around.names.as_slice(), e)?
        || !has_full_lists(e)
    {
        return Ok(false);
    }
    is_normal(alloc, e)
}

/// Whether the expression stands under the sources and is well typed.
pub(crate) fn stands(
    alloc: Global,
    schema: &Schema,
    around: &Sources,
    e: &Expr,
) -> Result<bool, AllocError>
    ensures { IfOk result (λ stands. stands
        ≡ spec.stands schema.now around.now.tables.items around.now.names.items e.now) }
{
    if !is_placed(alloc, schema, around, e)? {
        return Ok(false);
    }
    let kind = kind_in(alloc, schema, around.tables.as_slice(), e)?;
    Ok(kind.is_some())
}

/// Whether the expression stands under the sources and is of this kind.
pub(crate) fn stands_as(
    alloc: Global,
    schema: &Schema,
    around: &Sources,
    wanted: Kind,
    e: &Expr,
) -> Result<bool, AllocError>
    ensures { IfOk result (λ stands. stands
        ≡ spec.stands_as schema.now around.now.tables.items around.now.names.items wanted e.now) }
{
    if !is_placed(alloc, schema, around, e)? {
        return Ok(false);
    }
    match kind_in(alloc, schema, around.tables.as_slice(), e)? {
        Some(found) => Ok(same_kind(found, wanted)),
        None => Ok(false),
    }
}

/// Whether the expression is a condition on rows: true or false, and without an aggregate.
pub(crate) fn is_filter(
    alloc: Global,
    schema: &Schema,
    around: &Sources,
    e: &Expr,
) -> Result<bool, AllocError>
    ensures { IfOk result (λ filter. filter
        ≡ spec.is_filter schema.now around.now.tables.items around.now.names.items e.now) }
{
    if !stands_as(alloc, schema, around, Kind::Boolean, e)? {
        return Ok(false);
    }
    Ok(!has_aggregate(e))
}
