//! The sources in scope.

ghost use Rattle.std.specs.Prelude.{◌≡◌, ◌++◌, ◌∷◌, [], length, IfOk, OnOk};
ghost use Rattle.std.specs.List.{position};
ghost use Rattle.std.specs.Option.{option_copied};
ghost use Rattle.base_core.specs.declared.refusal.Refusal.TheVariants.{InvalidRequestError};
ghost use Rattle.base_core.specs.declared.refusal.RequestKind.TheVariants.{Unknown};
ghost use Rattle.schema_core.specs.Catalog.{IsTable, same_name};
ghost use Rattle.script_names.specs.Faults.{TellsFirst};
ghost use Rattle.script_names.specs.Naming as naming;
ghost use Rattle.script_names.specs.Scopes as spec;

use base_core::{ColumnNo, Copied, Name, Refusal, RequestKind, TableId};
use expr_types::Expr;
use schema_core::{ColumnSpec, Schema, TableSpec};
use script_types::SynSource;
use std::alloc::{AllocError, Global};

/// Sources, each behind its place, in the order in which a name is looked for.
pub type Scope = Vec<(u32, SynSource)>;

/// One more source, behind the others. A place past 32 bits is none.
pub fn enter(scope: &mut Scope, source: &SynSource) -> Result<(), AllocError>
    ensures { OnOk result (scope.new.items
        ≡ scope.old.items ++ (length scope.old.items, source.now) ∷ []) }
{
    let Ok(place) = u32::try_from(scope.len()) else {
        return Err(AllocError);
    };
    scope.push((place, source.copied()?))?;
    Ok(())
}

/// The scope inside an `exists` over this source.
pub(crate) fn inner_scope(
    alloc: Global,
    scope: &[(u32, SynSource)],
    source: &SynSource,
) -> Result<Scope, AllocError>
    ensures { IfOk result (λ inner. inner.items ≡ spec.inner_scope scope.now source.now) }
{
    let Ok(place) = u32::try_from(scope.len()) else {
        return Err(AllocError);
    };
    let mut inner = Vec::new(alloc);
    inner.push((place, source.copied()?))?;
    for placed in scope {
        inner.push(placed.copied()?)?;
    }
    Ok(inner)
}

/// The name of a source.
fn shown_name(source: &SynSource) -> &Name
    ensures { result.now ≡ spec.shown_name source.now }
{
    match &source.alias {
        Some(alias) => alias,
        None => &source.table,
    }
}

/// The source that a name means.
fn source_meant<'x>(scope: &'x [(u32, SynSource)], name: &Name) -> Option<&'x (u32, SynSource)>
    ensures { option_copied result ≡ spec.source_meant scope.now name.now }
{
    scope.iter().find(|placed| *shown_name(&placed.1) == *name)
}

/// Where the column of a name stands.
fn place_of(columns: &[ColumnSpec], name: &Name) -> Option<usize>
    ensures { result ≡ position (λ column. same_name column.name name.now) columns.now }
{
    columns.iter().position(|column| column.name == *name)
}

/// The column of a name. A place past 32 bits is none.
pub fn find_column(table: &TableSpec, name: &Name) -> Result<Option<ColumnNo>, AllocError>
    ensures { IfOk result (λ found. found ≡ spec.find_column table.now name.now) }
{
    let Some(place) = place_of(table.columns.as_slice(), name) else {
        return Ok(None);
    };
    match u32::try_from(place) {
        Ok(number) => Ok(Some(ColumnNo(number))),
        Err(_) => Err(AllocError),
    }
}

/// `Unknown` of a name. It fails where memory runs out.
pub fn unknown(name: &Name) -> Result<Refusal, AllocError>
    ensures { IfOk result (λ e. e ≡ InvalidRequestError (Unknown name.now)) }
{
    Ok(Refusal::InvalidRequestError(RequestKind::Unknown(name.copied()?)))
}

/// The table of a name, which is to be declared.
///
/// # Errors
/// `Unknown` of a name that no table has, or `Memory`.
#[tactic(auto, using(crate::proofs::Places::found_is_table))]
pub fn table_named(schema: &Schema, name: &Name) -> Result<TableId, Refusal>
    ensures value { IfOk result (λ said. said ≡ naming.table_number schema.now name.now) }
    ensures told { TellsFirst (naming.table_faults schema.now name.now) result }
    ensures declared { IfOk result (IsTable schema.now) }
{
    match schema.find(name) {
        Some(table) => Ok(table),
        None => Err(unknown(name)?),
    }
}

/// The column that a path means, as an expression.
#[tactic(auto, using(crate::proofs::Places::found_is_table))]
pub(crate) fn column_named(
    schema: &Schema,
    scope: &[(u32, SynSource)],
    source: &Name,
    column: &Name,
) -> Result<Expr, Refusal>
    ensures value { IfOk result (λ said. said ≡ naming.column_or_null (spec.path_in schema.now
        scope.now source.now column.now)) }
    ensures told { TellsFirst (naming.path_faults (spec.path_in schema.now scope.now source.now
        column.now)) result }
{
    let Some(placed) = source_meant(scope, source) else {
        return Err(unknown(source)?);
    };
    let Some(table) = schema.find(&placed.1.table) else {
        let name = if placed.1.alias.is_none() {
            source
        } else {
            column
        };
        return Err(unknown(name)?);
    };
    match find_column(schema.spec(table), column)? {
        Some(number) => Ok(Expr::Column(placed.0, number)),
        None => Err(unknown(column)?),
    }
}
