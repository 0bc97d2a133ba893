//! What a joined option adds to a select: its sources, and what it reads of them. The only refusal is `Memory`.

ghost use Rattle.std.specs.Prelude.{◌≡◌, ◌==◌, ◌++◌, true, length, suc, map, fold, IfOk, OnOk, if◌then◌else◌};
ghost use Rattle.schema_core.specs.Catalog.{spec_of};
ghost use Rattle.class_mapping.specs.Mapped.{IsClass, root_table};
ghost use Rattle.alias_names.specs.Names.{free_alias, taken_names};
ghost use Rattle.load_selects.specs.Branches.{is_of_branch};
ghost use Rattle.load_selects.specs.Sources.{target_placement};
ghost use Rattle.main_selects.specs.MainSelect as spec;

use alias_names::{free_alias, table_name, taken_names};
use base_core::{ClassId, ListOf, Name, TableId};
use class_layouts::number_of;
use class_mapping::{Mapping, Relation};
use expr_types::{CopiedIn, ExprList, Joined, Origin, Select};
use load_columns::{
    Placement, SourceColumn, attribute_columns, conjoined, from_root, key_at_rank, push_columns,
};
use load_selects::{
    Further, is_of_branch, push_items as push_columns_as_items, related_sources, target_placement,
};
use std::alloc::{AllocError, Global};

/// An alias for a table that no table and no source of a select has.
fn alias_for(
    alloc: Global,
    mapping: &Mapping,
    select: &Select,
    table: TableId,
) -> Result<Name, AllocError>
    ensures { IfOk result (λ alias. alias
        ≡ free_alias (taken_names mapping.now.schema select.now)
        (spec_of mapping.now.schema table).name) }
{
    let taken = taken_names(alloc, mapping, select)?;
    let name = table_name(alloc, mapping, table)?;
    free_alias(alloc, taken.as_slice(), &name)
}

/// A source that is left-joined to a select under an alias of its own.
fn left_joined(
    alloc: Global,
    mapping: &Mapping,
    select: &Select,
    further: Further,
) -> Result<Joined, AllocError>
    ensures { IfOk result
        (λ join. join ≡ spec.left_joined mapping.now.schema select.now further) }
{
    let table = further.table;
    let alias = alias_for(alloc, mapping, select, table)?;
    Ok(Joined {
        left: true,
        origin: Origin {
            table,
            alias: Some(alias),
        },
        on: conjoined(alloc, further.on),
    })
}

/// That the rows are of a class's branch goes behind the conditions under which its root's table is joined.
fn push_branch(
    on: &mut ExprList,
    alloc: Global,
    mapping: &Mapping,
    class: ClassId,
    placement: Placement,
    table: TableId,
) -> Result<(), AllocError>
    requires class { IsClass mapping.now class }
    ensures { OnOk result (on.new
        ≡ (if table.0 == (root_table mapping.now class).0
        then on.old ++ is_of_branch mapping.now class placement else on.old)) }
{
    if table.0 != mapping.root_table(class).0 {
        return Ok(());
    }
    let branch = is_of_branch(alloc, mapping, class, placement)?;
    Ok(on.append(branch)?)
}

/// The table of the target's root is joined by the rows of its branch alone.
fn within_branch(
    alloc: Global,
    mapping: &Mapping,
    class: ClassId,
    placement: Placement,
    further: &Further,
) -> Result<Further, AllocError>
    requires class { IsClass mapping.now class }
    ensures { IfOk result
        (λ new. new ≡ spec.within_branch mapping.now class placement further.now) }
{
    let table = further.table;
    let mut on = further.on.copied_in(alloc)?;
    push_branch(&mut on, alloc, mapping, class, placement, table)?;
    Ok(Further { table, on })
}

/// A source is left-joined to a select.
fn push_left_join(
    select: &mut Select,
    alloc: Global,
    mapping: &Mapping,
    further: Further,
) -> Result<(), AllocError>
    ensures { OnOk result
        (select.new ≡ spec.with_left_join mapping.now.schema select.old further) }
{
    let join = left_joined(alloc, mapping, &*select, further)?;
    select.joins.push(join)
}

/// Sources of an option are left-joined to a select.
#[tactic(auto, using(class_layouts::proofs::Steps::steps))]
fn push_left_joins(
    select: &mut Select,
    alloc: Global,
    mapping: &Mapping,
    class: ClassId,
    placement: Placement,
    further: &[Further],
) -> Result<(), AllocError>
    requires class { IsClass mapping.now class }
    ensures { OnOk result (select.new
        ≡ fold (spec.with_left_join mapping.now.schema) select.old
        (map (spec.within_branch mapping.now class placement) further.now)) }
{
    for source in further {
        let source = within_branch(alloc, mapping, class, placement, source)?;
        push_left_join(select, alloc, mapping, source)?;
    }
    Ok(())
}

/// How many tables a class has behind its root's.
fn further_count(mapping: &Mapping, class: ClassId) -> Result<u32, AllocError>
    requires class { IsClass mapping.now class }
    ensures { IfOk result (λ count. count ≡ spec.further_count mapping.now class) }
{
    number_of(mapping.tables_of(class).len().saturating_sub(1))
}

/// The keys of the tables of a class behind its root's go behind other columns.
#[tactic(auto, using(alias_names::proofs::Lists::range_steps))]
fn push_further_keys(
    out: &mut ListOf<SourceColumn>,
    alloc: Global,
    mapping: &Mapping,
    class: ClassId,
    placement: Placement,
) -> Result<(), AllocError>
    requires class { IsClass mapping.now class }
    ensures { OnOk result
        (out.new ≡ out.old ++ spec.further_keys mapping.now class placement) }
{
    let count = further_count(mapping, class)?;
    for below in 0..count {
        let rank = number_of(below as usize + 1)?;
        let keys = key_at_rank(alloc, mapping, class, placement, rank)?;
        push_columns(out, keys.as_slice())?;
    }
    Ok(())
}

/// What a joined option reads of its target: the attributes, and behind them the keys of the tables behind the root's.
pub fn option_columns(
    alloc: Global,
    mapping: &Mapping,
    class: ClassId,
    placement: Placement,
) -> Result<ListOf<SourceColumn>, AllocError>
    requires class { IsClass mapping.now class }
    ensures { IfOk result
        (λ columns. columns ≡ spec.option_columns mapping.now class placement) }
{
    let mut columns = attribute_columns(alloc, mapping, class, placement)?;
    push_further_keys(&mut columns, alloc, mapping, class, placement)?;
    Ok(columns)
}

/// Columns become items of a select, behind its others.
fn push_items(select: &mut Select, columns: &[SourceColumn]) -> Result<(), AllocError>
    ensures { OnOk result (select.new ≡ spec.with_items select.old columns.now) }
{
    push_columns_as_items(&mut select.items, columns)
}

/// How many sources a select has.
fn source_count(select: &Select) -> Result<u32, AllocError>
    ensures { IfOk result (λ count. count ≡ suc (length select.now.joins)) }
{
    let further = number_of(select.joins.len())?;
    number_of(further as usize + 1)
}

/// The sources of one joined option more, whose target has this placement.
fn push_sources(
    select: &mut Select,
    alloc: Global,
    mapping: &Mapping,
    class: ClassId,
    relation: &Relation,
    sources: u32,
    placement: Placement,
) -> Result<(), AllocError>
    requires class { IsClass mapping.now class }
    requires target { IsClass mapping.now relation.now.target }
    requires placement { placement ≡ target_placement mapping.now relation.now sources }
    ensures { OnOk result (select.new
        ≡ fold (spec.with_left_join mapping.now.schema) select.old
        (spec.option_sources mapping.now class relation.now sources)) }
{
    let root = from_root(0);
    let further = related_sources(alloc, mapping, class, root, relation, sources)?;
    let target = relation.target;
    push_left_joins(
        select,
        alloc,
        mapping,
        target,
        placement,
        further.as_slice(),
    )
}

/// The sources and columns of one joined option more.
pub(crate) fn push_option(
    select: &mut Select,
    alloc: Global,
    mapping: &Mapping,
    class: ClassId,
    relation: &Relation,
) -> Result<(), AllocError>
    requires class { IsClass mapping.now class }
    requires target { IsClass mapping.now relation.now.target }
    ensures { OnOk result
        (select.new ≡ spec.with_option mapping.now class select.old relation.now) }
{
    let target = relation.target;
    let sources = source_count(&*select)?;
    let placement = target_placement(mapping, relation, sources)?;
    let columns = option_columns(alloc, mapping, target, placement)?;
    push_sources(select, alloc, mapping, class, relation, sources, placement)?;
    push_items(select, columns.as_slice())
}
