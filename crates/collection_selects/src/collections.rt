//! The selects of the members of collections. The only refusal is `Memory`.

ghost use Rattle.std.specs.Prelude.{◌≡◌, length, IfOk};
ghost use Rattle.class_mapping.specs.Mapped.{IsClass, tables_of};
ghost use Rattle.collection_selects.specs.Collections as spec;

use base_core::{Key, ListOf};
use class_layouts::number_of;
use class_mapping::{Mapping, Relation};
use class_sides::TableKey;
use expr_types::{ExprList, Select};
use load_columns::{
    SourceColumn, attribute_columns, columns_at, foreign_numbers, from_root, has_one_of,
    has_values, place_of_table, push_columns,
};
use load_selects::{
    Further, class_rows, is_of_branch, leading_table, led_from, other_tables, push_other_tables,
    referred_place, refers, select_of,
};
use std::alloc::{AllocError, Global};

/// The columns by which the rows of the target of a one-to-many relationship refer to their owners.
fn owner_columns(
    alloc: Global,
    mapping: &Mapping,
    relation: &Relation,
) -> Result<ListOf<SourceColumn>, AllocError>
    requires target { IsClass mapping.now relation.now.target }
    ensures { IfOk result
        (λ columns. columns ≡ spec.owner_columns mapping.now relation.now) }
{
    let table = relation.foreign.0;
    let place = place_of_table(mapping, relation.target, from_root(0), table)?;
    let numbers = foreign_numbers(alloc, mapping, relation.foreign)?;
    columns_at(alloc, place, numbers.as_slice())
}

/// The same columns of a secondary table.
fn pair_columns(
    alloc: Global,
    mapping: &Mapping,
    relation: &Relation,
    place: u32,
) -> Result<ListOf<SourceColumn>, AllocError>
    ensures { IfOk result
        (λ columns. columns ≡ spec.pair_columns mapping.now relation.now place) }
{
    let numbers = foreign_numbers(alloc, mapping, relation.foreign)?;
    columns_at(alloc, place, numbers.as_slice())
}

/// How many tables the target has.
fn target_count(mapping: &Mapping, relation: &Relation) -> Result<u32, AllocError>
    requires target { IsClass mapping.now relation.now.target }
    ensures { IfOk result
        (λ count. count ≡ length (tables_of mapping.now relation.now.target)) }
{
    number_of(mapping.tables_of(relation.target).len())
}

/// The secondary table behind the tables of the target.
fn secondary_behind(
    alloc: Global,
    mapping: &Mapping,
    relation: &Relation,
    far: TableKey,
    place: u32,
) -> Result<Further, AllocError>
    requires target { IsClass mapping.now relation.now.target }
    ensures { IfOk result (λ further. further
        ≡ spec.secondary_behind mapping.now relation.now far place) }
{
    let referred = referred_place(mapping, relation.target, from_root(0), far)?;
    Ok(Further {
        table: relation.foreign.0,
        on: refers(alloc, mapping, far, referred, place)?,
    })
}

/// The members of a many-to-many collection whose pairs meet the conditions.
fn pair_members(
    alloc: Global,
    mapping: &Mapping,
    relation: &Relation,
    far: TableKey,
    conditions: ExprList,
) -> Result<Select, AllocError>
    requires target { IsClass mapping.now relation.now.target }
    ensures { IfOk result
        (λ s. s ≡ spec.pair_members mapping.now relation.now far conditions) }
{
    let target = relation.target;
    let place = target_count(mapping, relation)?;
    let mut further = other_tables(alloc, mapping, target, from_root(0))?;
    further.push(secondary_behind(alloc, mapping, relation, far, place)?)?;
    let columns = attribute_columns(alloc, mapping, target, from_root(0))?;
    let mut conditions = conditions;
    conditions.append(is_of_branch(alloc, mapping, target, from_root(0))?)?;
    let first = mapping.root_table(target);
    select_of(
        alloc,
        first,
        further.as_slice(),
        columns.as_slice(),
        conditions,
    )
}

/// The members of the one-to-many collection of the owner with a key.
fn referring_members(
    alloc: Global,
    mapping: &Mapping,
    relation: &Relation,
    key: &Key,
) -> Result<Select, AllocError>
    requires target { IsClass mapping.now relation.now.target }
    ensures { IfOk result
        (λ s. s ≡ spec.referring_members mapping.now relation.now key.now) }
{
    let columns = owner_columns(alloc, mapping, relation)?;
    let conditions = has_values(alloc, columns.as_slice(), key.as_slice())?;
    class_rows(alloc, mapping, relation.target, conditions)
}

/// The members of the many-to-many collection of the owner with a key.
fn paired_members(
    alloc: Global,
    mapping: &Mapping,
    relation: &Relation,
    far: TableKey,
    key: &Key,
) -> Result<Select, AllocError>
    requires target { IsClass mapping.now relation.now.target }
    ensures { IfOk result
        (λ s. s ≡ spec.paired_members mapping.now relation.now far key.now) }
{
    let place = target_count(mapping, relation)?;
    let columns = pair_columns(alloc, mapping, relation, place)?;
    let conditions = has_values(alloc, columns.as_slice(), key.as_slice())?;
    pair_members(alloc, mapping, relation, far, conditions)
}

/// The members of the collection of the owner with a key.
#[tactic(auto, unfolding(crate::specs::Collections::members_select))]
pub fn members_select(
    alloc: Global,
    mapping: &Mapping,
    relation: &Relation,
    key: &Key,
) -> Result<Select, AllocError>
    requires target { IsClass mapping.now relation.now.target }
    ensures { IfOk result
        (λ s. s ≡ spec.members_select mapping.now relation.now key.now) }
{
    match relation.far {
        Some(far) => paired_members(alloc, mapping, relation, far, key),
        None => referring_members(alloc, mapping, relation, key),
    }
}

/// The tables of the target of a many-to-many relationship behind the secondary one.
fn member_sources(
    alloc: Global,
    mapping: &Mapping,
    relation: &Relation,
    far: TableKey,
) -> Result<ListOf<Further>, AllocError>
    requires target { IsClass mapping.now relation.now.target }
    ensures { IfOk result
        (λ further. further ≡ spec.member_sources mapping.now relation.now far) }
{
    let placement = led_from(mapping, relation, 1)?;
    let mut further = ListOf::new(alloc);
    further.push(Further {
        table: leading_table(mapping, relation),
        on: refers(alloc, mapping, far, 1, 0)?,
    })?;
    push_other_tables(&mut further, alloc, mapping, relation.target, placement)?;
    Ok(further)
}

/// Pairs that meet the conditions with their members, the owner's key before each.
fn pairs_select(
    alloc: Global,
    mapping: &Mapping,
    relation: &Relation,
    far: TableKey,
    conditions: ExprList,
) -> Result<Select, AllocError>
    requires target { IsClass mapping.now relation.now.target }
    ensures { IfOk result
        (λ s. s ≡ spec.pairs_select mapping.now relation.now far conditions) }
{
    let target = relation.target;
    let placement = led_from(mapping, relation, 1)?;
    let further = member_sources(alloc, mapping, relation, far)?;
    let mut columns = pair_columns(alloc, mapping, relation, 0)?;
    let own = attribute_columns(alloc, mapping, target, placement)?;
    push_columns(&mut columns, own.as_slice())?;
    let mut conditions = conditions;
    conditions.append(is_of_branch(alloc, mapping, target, placement)?)?;
    let first = relation.foreign.0;
    select_of(
        alloc,
        first,
        further.as_slice(),
        columns.as_slice(),
        conditions,
    )
}

/// The members of the one-to-many collections of the owners with these keys.
fn referring_batch(
    alloc: Global,
    mapping: &Mapping,
    relation: &Relation,
    keys: &[Key],
) -> Result<Select, AllocError>
    requires target { IsClass mapping.now relation.now.target }
    ensures { IfOk result
        (λ s. s ≡ spec.referring_batch mapping.now relation.now keys.now) }
{
    let columns = owner_columns(alloc, mapping, relation)?;
    let conditions = has_one_of(alloc, columns.as_slice(), keys)?;
    class_rows(alloc, mapping, relation.target, conditions)
}

/// The members of the many-to-many collections of the owners with these keys.
fn paired_batch(
    alloc: Global,
    mapping: &Mapping,
    relation: &Relation,
    far: TableKey,
    keys: &[Key],
) -> Result<Select, AllocError>
    requires target { IsClass mapping.now relation.now.target }
    ensures { IfOk result
        (λ s. s ≡ spec.paired_batch mapping.now relation.now far keys.now) }
{
    let columns = pair_columns(alloc, mapping, relation, 0)?;
    let conditions = has_one_of(alloc, columns.as_slice(), keys)?;
    pairs_select(alloc, mapping, relation, far, conditions)
}

/// The members of the collections of the owners with these keys; of a many-to-many relationship the owner's key stands before
/// each.
#[tactic(auto, unfolding(crate::specs::Collections::batch_select))]
pub fn batch_select(
    alloc: Global,
    mapping: &Mapping,
    relation: &Relation,
    keys: &[Key],
) -> Result<Select, AllocError>
    requires target { IsClass mapping.now relation.now.target }
    ensures { IfOk result
        (λ s. s ≡ spec.batch_select mapping.now relation.now keys.now) }
{
    match relation.far {
        Some(far) => paired_batch(alloc, mapping, relation, far, keys),
        None => referring_batch(alloc, mapping, relation, keys),
    }
}
