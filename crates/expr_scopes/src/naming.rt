//! The names of the sources around an expression.

ghost use Rattle.std.specs.Prelude.{◌≡◌, ◌++◌, ◌∷◌, [], map, None, IfOk};
ghost use Rattle.std.specs.List.{list_all};
ghost use Rattle.schema_core.specs.Catalog.{has_name, same_name};
ghost use Rattle.schema_core.specs.Declaration.{some_two};
ghost use Rattle.sql_semantics.specs.Plain as spec;

use base_core::{Name, TableId};
use expr_types::{Expr, Origin};
use schema_core::Schema;
use sqlite_items::Boxed;
use std::alloc::{AllocError, Global};

/// The name of a source: its own, or else its table's. The only error is that memory ran out.
pub fn name_of(alloc: Global, schema: &Schema, origin: &Origin) -> Result<Name, AllocError>
    ensures { IfOk result (λ name. name ≡ spec.name_of schema.now origin.now) }
{
    match &origin.alias {
        Some(alias) => alias.clone(),
        None => table_name(alloc, schema, origin.table),
    }
}

/// The name of a table; one that is not declared has none. The only error is that memory ran out.
pub fn table_name(alloc: Global, schema: &Schema, table: TableId) -> Result<Name, AllocError>
    ensures { IfOk result (λ name. name
        ≡ spec.name_of schema.now (record { table = table; alias = None })) }
{
    if table.0 < schema.count() {
        schema.spec(table).name.clone()
    } else {
        Ok(Name::new(String::new(alloc)))
    }
}

/// Whether a name is in the list.
fn has_name(names: &[Name], name: &Name) -> bool
    ensures { result ≡ has_name names.now name.now }
{
    names.iter().any(|other| *other == *name)
}

/// Whether a name stands twice.
#[tactic(auto, using(schema_core::proofs::SomeTwo::some_two_steps))]
fn repeats(names: &[Name]) -> bool
    ensures { result ≡ some_two same_name names.now }
{
    for (place, name) in names.iter().enumerate() {
        if has_name(&names[place + 1..], name) {
            return true;
        }
    }
    false
}

/// Whether each name stands once.
#[tactic(auto, using(crate::proofs::Levels::distinct_names))]
pub fn are_distinct(names: &[Name]) -> bool
    ensures { result ≡ spec.are_distinct names.now }
{
    !repeats(names)
}

/// The names with one more, the innermost.
fn entered(alloc: Global, names: &[Name], name: Name) -> Result<Vec<Name>, AllocError>
    ensures { IfOk result (λ inner. inner.items ≡ names.now ++ name ∷ []) }
{
    let mut inner = Vec::new(alloc);
    for outer in names {
        inner.push(outer.clone()?)?;
    }
    inner.push(name)?;
    Ok(inner)
}

/// Whether no source of an `exists` has the name of a source around it. The only error is that memory ran out.
#[tactic(auto, unfolding(sql_semantics::specs::Plain::names_apart), using(crate::proofs::Levels::apart_lists))]
#[cycle(apart)]
pub fn names_apart(
    alloc: Global,
    schema: &Schema,
    names: &[Name],
    e: &Expr,
) -> Result<bool, AllocError>
    ensures { IfOk result (λ apart. apart ≡ spec.names_apart schema.now e.now names.now) }
{
    match e {
        Expr::Column(_, _) | Expr::Lit(_) | Expr::CountAll => Ok(true),
        Expr::IsNull(_, a) | Expr::Not(a) | Expr::Neg(a) | Expr::InList(_, a, _) => {
            names_apart(alloc, schema, names, a.get())
        }
        Expr::Compare(_, a, b) | Expr::Distinct(_, a, b) => both_apart(alloc, schema, names, a, b),
        Expr::Arith(_, a, b) => both_apart(alloc, schema, names, a, b),
        Expr::Concat(a, b) => both_apart(alloc, schema, names, a, b),
        Expr::Like(_, a, b) | Expr::Ilike(_, a, b) => both_apart(alloc, schema, names, a, b),
        Expr::Between(_, a, low, high) => {
            if !names_apart(alloc, schema, names, a.get())? {
                return Ok(false);
            }
            both_apart(alloc, schema, names, low, high)
        }
        Expr::And(parts) | Expr::Or(parts) => all_apart(alloc, schema, names, parts.as_slice()),
        Expr::Call(_, operands) => all_apart(alloc, schema, names, operands.as_slice()),
        Expr::Exists(_, origin, condition) => {
            let name = name_of(alloc, schema, origin)?;
            if has_name(names, &name) {
                return Ok(false);
            }
            let inner = entered(alloc, names, name)?;
            names_apart(alloc, schema, inner.as_slice(), condition.get())
        }
    }
}

#[cycle(apart)]
fn both_apart(
    alloc: Global,
    schema: &Schema,
    names: &[Name],
    a: &Boxed<Expr>,
    b: &Boxed<Expr>,
) -> Result<bool, AllocError>
    ensures { IfOk result (λ apart. apart ≡ list_all (λ holds. holds names.now)
        (spec.names_apart schema.now a.now ∷ spec.names_apart schema.now b.now ∷ [])) }
{
    if !names_apart(alloc, schema, names, a.get())? {
        return Ok(false);
    }
    names_apart(alloc, schema, names, b.get())
}

#[cycle(apart)]
fn all_apart(
    alloc: Global,
    schema: &Schema,
    names: &[Name],
    es: &[Expr],
) -> Result<bool, AllocError>
    ensures { IfOk result (λ apart. apart
        ≡ list_all (λ holds. holds names.now) (map (spec.names_apart schema.now) es.now)) }
{
    for e in es {
        if !names_apart(alloc, schema, names, e)? {
            return Ok(false);
        }
    }
    Ok(true)
}
