//! The names that sources have, and an alias that none of them has. The only refusal is `Memory`.

ghost use Rattle.std.specs.Prelude.{◌≡◌, ◌++◌, ◌∷◌, [], length, map, IfOk, OnOk};
ghost use Rattle.std.specs.List.{flat_map};
ghost use Rattle.schema_core.specs.Catalog.{spec_of};
ghost use Rattle.sql_semantics.specs.Plain.{name_of, sources_of};
ghost use Rattle.alias_names.specs.Names as spec;

use base_core::{Copied, ListOf, Name, TableId};
use class_mapping::Mapping;
use class_sides::has_name;
use expr_types::{Expr, Origin, Select};
use schema_core::Schema;
use std::alloc::{AllocError, Global};

/// The name of a table; one that is not declared has none.
fn name_in(alloc: Global, schema: &Schema, table: TableId) -> Result<Name, AllocError>
    ensures { IfOk result (λ name. name ≡ (spec_of schema.now table).name) }
{
    if schema.count() <= table.0 {
        return Ok(Name::new(String::new(alloc)));
    }
    schema.spec(table).name.copied()
}

/// The name of a table of a mapping.
pub fn table_name(alloc: Global, mapping: &Mapping, table: TableId) -> Result<Name, AllocError>
    ensures { IfOk result (λ name. name ≡ (spec_of mapping.now.schema table).name) }
{
    name_in(alloc, mapping.schema(), table)
}

/// The name of a source, its own or else its table's, goes behind others.
fn push_name(
    out: &mut ListOf<Name>,
    alloc: Global,
    mapping: &Mapping,
    origin: &Origin,
) -> Result<(), AllocError>
    ensures { OnOk result
        (out.new ≡ out.old ++ name_of mapping.now.schema origin.now ∷ []) }
{
    match &origin.alias {
        Some(alias) => out.push(alias.copied()?),
        None => out.push(table_name(alloc, mapping, origin.table)?),
    }
}

/// The names of the sources of each `exists` of an expression go behind others.
#[tactic(auto, unfolding(crate::specs::Names::exists_names), using(crate::proofs::Lists::name_lists))]
#[cycle(names)]
fn push_exists_names(
    out: &mut ListOf<Name>,
    alloc: Global,
    mapping: &Mapping,
    e: &Expr,
) -> Result<(), AllocError>
    ensures { OnOk result
        (out.new ≡ out.old ++ spec.exists_names mapping.now.schema e.now) }
{
    match e {
        Expr::Column(_, _) | Expr::Lit(_) | Expr::CountAll => Ok(()),
        Expr::IsNull(_, a) | Expr::Not(a) | Expr::Neg(a) | Expr::InList(_, a, _) => {
            push_exists_names(out, alloc, mapping, a.get())
        }
        Expr::Compare(_, a, b) | Expr::Distinct(_, a, b) => {
            push_exists_names(out, alloc, mapping, a.get())?;
            push_exists_names(out, alloc, mapping, b.get())
        }
        Expr::Arith(_, a, b) => {
            push_exists_names(out, alloc, mapping, a.get())?;
            push_exists_names(out, alloc, mapping, b.get())
        }
        Expr::Concat(a, b) | Expr::Like(_, a, b) | Expr::Ilike(_, a, b) => {
            push_exists_names(out, alloc, mapping, a.get())?;
            push_exists_names(out, alloc, mapping, b.get())
        }
        Expr::Between(_, a, low, high) => {
            push_exists_names(out, alloc, mapping, a.get())?;
            push_exists_names(out, alloc, mapping, low.get())?;
            push_exists_names(out, alloc, mapping, high.get())
        }
        Expr::And(parts) | Expr::Or(parts) => {
            push_all_names(out, alloc, mapping, parts.as_slice())
        }
        Expr::Call(_, operands) => push_all_names(out, alloc, mapping, operands.as_slice()),
        Expr::Exists(_, origin, condition) => {
            push_name(out, alloc, mapping, origin)?;
            push_exists_names(out, alloc, mapping, condition.get())
        }
    }
}

#[tactic(auto, using(class_layouts::proofs::Steps::steps))]
#[cycle(names)]
fn push_all_names(
    out: &mut ListOf<Name>,
    alloc: Global,
    mapping: &Mapping,
    es: &[Expr],
) -> Result<(), AllocError>
    ensures { OnOk result
        (out.new ≡ out.old ++ flat_map (spec.exists_names mapping.now.schema) es.now) }
{
    for e in es {
        push_exists_names(out, alloc, mapping, e)?;
    }
    Ok(())
}

/// How many tables are declared.
fn table_count(mapping: &Mapping) -> u32
    ensures { result ≡ length mapping.now.schema.tables }
{
    mapping.schema().count()
}

/// The names of the tables go behind others.
fn push_table_names(
    out: &mut ListOf<Name>,
    alloc: Global,
    mapping: &Mapping,
) -> Result<(), AllocError>
    ensures { OnOk result
        (out.new ≡ out.old ++ map (λ table. table.name) mapping.now.schema.tables) }
{
    for number in 0..table_count(mapping) {
        out.push(table_name(alloc, mapping, TableId(number))?)?;
    }
    Ok(())
}

/// The names of a select's sources go behind others.
fn push_source_names(
    out: &mut ListOf<Name>,
    alloc: Global,
    mapping: &Mapping,
    select: &Select,
) -> Result<(), AllocError>
    ensures { OnOk result
        (out.new ≡ out.old ++ map (name_of mapping.now.schema) (sources_of select.now)) }
{
    push_name(out, alloc, mapping, &select.first)?;
    for join in select.joins.as_slice() {
        push_name(out, alloc, mapping, &join.origin)?;
    }
    Ok(())
}

/// The names of the sources of each `exists` of a condition go behind others.
fn push_filter_names(
    out: &mut ListOf<Name>,
    alloc: Global,
    mapping: &Mapping,
    filter: &Option<Expr>,
) -> Result<(), AllocError>
    ensures { OnOk result
        (out.new ≡ out.old ++ spec.filter_names mapping.now.schema filter.now) }
{
    match filter {
        Some(e) => push_exists_names(out, alloc, mapping, e),
        None => Ok(()),
    }
}

/// The names of the sources of each `exists` of what a select is ordered by go behind others.
#[tactic(auto, using(class_layouts::proofs::Steps::steps))]
fn push_order_names(
    out: &mut ListOf<Name>,
    alloc: Global,
    mapping: &Mapping,
    order: &[(Expr, bool)],
) -> Result<(), AllocError>
    ensures { OnOk result (out.new ≡ out.old
        ++ flat_map (λ key. spec.exists_names mapping.now.schema key.0) order.now) }
{
    for key in order {
        push_exists_names(out, alloc, mapping, &key.0)?;
    }
    Ok(())
}

/// The names that an alias of a further source of a select can not be.
pub fn taken_names(
    alloc: Global,
    mapping: &Mapping,
    select: &Select,
) -> Result<ListOf<Name>, AllocError>
    ensures { IfOk result
        (λ names. names ≡ spec.taken_names mapping.now.schema select.now) }
{
    let mut names = ListOf::new(alloc);
    push_table_names(&mut names, alloc, mapping)?;
    push_source_names(&mut names, alloc, mapping, select)?;
    push_filter_names(&mut names, alloc, mapping, &select.filter)?;
    push_order_names(&mut names, alloc, mapping, select.order.as_slice())?;
    Ok(names)
}

/// A name, an underscore and a number.
fn alias_of(alloc: Global, name: &str, number: u64) -> Result<Name, AllocError>
    ensures { IfOk result (λ alias. alias ≡ spec.alias_of name.now number) }
{
    Ok(Name::new(format!(in alloc; "{name}_{number}")?))
}

/// The alias of a table's name with the least number from 1 on that is not taken.
#[tactic(auto, using(crate::proofs::Lists::range_steps))]
pub fn free_alias(alloc: Global, taken: &[Name], name: &Name) -> Result<Name, AllocError>
    ensures { IfOk result (λ alias. alias ≡ spec.free_alias taken.now name.now) }
{
    for below in 0..taken.len() {
        let alias = alias_of(alloc, name.get(), below as u64 + 1)?;
        if !has_name(taken, &alias) {
            return Ok(alias);
        }
    }
    Ok(alias_of(alloc, name.get(), taken.len() as u64 + 1)?)
}
