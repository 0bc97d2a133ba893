//! The selects of a class's rows, and of those under keys. The only refusal is `Memory`.

ghost use Rattle.std.specs.Prelude.{◌≡◌, ◌++◌, map, IfOk, OnOk};
ghost use Rattle.class_mapping.specs.Mapped.{IsClass};
ghost use Rattle.load_selects.specs.Selects as spec;

use crate::branches::is_of_branch;
use crate::sources::{Further, other_tables};
use base_core::{ClassId, Key, ListOf, Name, TableId};
use class_mapping::Mapping;
use expr_types::{CopiedIn, Expr, ExprList, Joined, Origin, Select};
use load_columns::{
    SourceColumn, all_of, attribute_columns, conjoined, from_root, has_one_of, has_values, root_key,
};
use sqlite_items::Items;
use std::alloc::{AllocError, Global};

/// A select's items, each with the name that it is given.
pub type ItemList = ListOf<(Expr, Option<Name>)>;

fn origin_of(table: TableId) -> Origin
    ensures { result ≡ spec.origin_of table }
{
    Origin { table, alias: None }
}

/// A source that is joined.
fn inner_joined(alloc: Global, further: &Further) -> Result<Joined, AllocError>
    ensures { IfOk result (λ join. join ≡ spec.inner_joined further.now) }
{
    let on = further.on.copied_in(alloc)?;
    Ok(Joined {
        left: false,
        origin: origin_of(further.table),
        on: conjoined(alloc, on),
    })
}

/// Sources that are joined.
fn inner_joins(alloc: Global, further: &[Further]) -> Result<ListOf<Joined>, AllocError>
    ensures { IfOk result (λ joins. joins ≡ map spec.inner_joined further.now) }
{
    let mut joins = ListOf::new(alloc);
    for source in further {
        joins.push(inner_joined(alloc, source)?)?;
    }
    Ok(joins)
}

/// Columns go behind other items.
pub fn push_items(out: &mut ItemList, columns: &[SourceColumn]) -> Result<(), AllocError>
    ensures { OnOk result (out.new ≡ out.old ++ map spec.item_of columns.now) }
{
    for column in columns {
        out.push((Expr::Column(column.source, column.column), None))?;
    }
    Ok(())
}

/// Columns as items.
fn items_of(alloc: Global, columns: &[SourceColumn]) -> Result<ItemList, AllocError>
    ensures { IfOk result (λ items. items ≡ map spec.item_of columns.now) }
{
    let mut items = ListOf::new(alloc);
    push_items(&mut items, columns)?;
    Ok(items)
}

/// Columns of joined tables, where all conditions hold.
pub fn select_of(
    alloc: Global,
    first: TableId,
    further: &[Further],
    columns: &[SourceColumn],
    conditions: ExprList,
) -> Result<Select, AllocError>
    ensures { IfOk result
        (λ s. s ≡ spec.select_of first further.now columns.now conditions) }
{
    let items = items_of(alloc, columns)?;
    let joins = inner_joins(alloc, further)?;
    Ok(Select {
        distinct: false,
        items,
        first: origin_of(first),
        joins,
        filter: all_of(conditions),
        groups: Items::new(alloc),
        having: None,
        order: ListOf::new(alloc),
        limit: None,
        offset: None,
    })
}

/// Columns of the tables of a class, where all conditions hold.
pub fn class_select(
    alloc: Global,
    mapping: &Mapping,
    class: ClassId,
    columns: &[SourceColumn],
    conditions: ExprList,
) -> Result<Select, AllocError>
    requires class { IsClass mapping.now class }
    ensures { IfOk result
        (λ s. s ≡ spec.class_select mapping.now class columns.now conditions) }
{
    let further = other_tables(alloc, mapping, class, from_root(0))?;
    select_of(
        alloc,
        mapping.root_table(class),
        further.as_slice(),
        columns,
        conditions,
    )
}

/// The rows of a class for which the conditions hold.
pub fn class_rows(
    alloc: Global,
    mapping: &Mapping,
    class: ClassId,
    conditions: ExprList,
) -> Result<Select, AllocError>
    requires class { IsClass mapping.now class }
    ensures { IfOk result (λ s. s ≡ spec.class_rows mapping.now class conditions) }
{
    let columns = attribute_columns(alloc, mapping, class, from_root(0))?;
    let mut conditions = conditions;
    conditions.append(is_of_branch(alloc, mapping, class, from_root(0))?)?;
    class_select(alloc, mapping, class, columns.as_slice(), conditions)
}

/// The row of a class under a key.
#[tactic(auto, unfolding(crate::specs::Selects::key_select))]
pub fn key_select(
    alloc: Global,
    mapping: &Mapping,
    class: ClassId,
    key: &Key,
) -> Result<Select, AllocError>
    requires class { IsClass mapping.now class }
    ensures { IfOk result (λ s. s ≡ spec.key_select mapping.now class key.now) }
{
    let columns = root_key(alloc, mapping, class, from_root(0))?;
    let conditions = has_values(alloc, columns.as_slice(), key.as_slice())?;
    class_rows(alloc, mapping, class, conditions)
}

/// The rows of a class under these keys.
#[tactic(auto, unfolding(crate::specs::Selects::targets_select))]
pub fn targets_select(
    alloc: Global,
    mapping: &Mapping,
    class: ClassId,
    keys: &[Key],
) -> Result<Select, AllocError>
    requires class { IsClass mapping.now class }
    ensures { IfOk result (λ s. s ≡ spec.targets_select mapping.now class keys.now) }
{
    let columns = root_key(alloc, mapping, class, from_root(0))?;
    let conditions = has_one_of(alloc, columns.as_slice(), keys)?;
    class_rows(alloc, mapping, class, conditions)
}
