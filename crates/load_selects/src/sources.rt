//! Further sources of a select, with the conditions by which they are joined. The only refusal is `Memory`.

ghost use Rattle.std.specs.Prelude.{◌≡◌, ◌++◌, IfOk, OnOk};
ghost use Rattle.class_mapping.specs.Mapped.{IsClass};
ghost use Rattle.load_selects.specs.Sources as spec;

use base_core::{ClassId, ListOf, TableId};
use class_layouts::number_of;
use class_mapping::{Mapping, Relation};
use class_sides::TableKey;
use expr_types::ExprList;
use load_columns::{
    Placement, columns_at, equal_columns, foreign_numbers, key_at_rank, key_numbers,
    place_of_table, rank_of, referred_table,
};
use std::alloc::{AllocError, Global};

/// A source behind others, with the conditions by which it is joined.
#[derive(Drop)]
pub struct Further {
    pub table: TableId,
    pub on: ExprList,
}

/// Which rank's key the key of a table equals: the root's that of the table that leads, another one its own.
fn rank_tied(placement: Placement, rank: u32) -> u32
    ensures { result ≡ spec.rank_tied placement rank }
{
    if rank == 0 { placement.leading } else { rank }
}

/// The table of a rank, which has the key of the table before it.
#[tactic(auto, unfolding(crate::specs::Sources::keyed_source))]
fn keyed_source(
    alloc: Global,
    mapping: &Mapping,
    class: ClassId,
    placement: Placement,
    rank: u32,
    table: TableId,
) -> Result<Further, AllocError>
    requires class { IsClass mapping.now class }
    ensures { IfOk result (λ further. further
        ≡ spec.keyed_source mapping.now class placement (rank, table)) }
{
    let before = key_at_rank(alloc, mapping, class, placement, rank.saturating_sub(1))?;
    let own = key_at_rank(alloc, mapping, class, placement, rank_tied(placement, rank))?;
    Ok(Further {
        table,
        on: equal_columns(alloc, before.as_slice(), own.as_slice())?,
    })
}

/// The table of a rank goes behind other sources, unless it leads.
#[tactic(auto, unfolding(crate::specs::Sources::ranked_source))]
fn push_ranked(
    out: &mut ListOf<Further>,
    alloc: Global,
    mapping: &Mapping,
    class: ClassId,
    placement: Placement,
    rank: u32,
    table: TableId,
) -> Result<(), AllocError>
    requires class { IsClass mapping.now class }
    ensures { OnOk result
        (out.new ≡ out.old ++ spec.ranked_source mapping.now class placement (rank, table)) }
{
    if rank == placement.leading {
        return Ok(());
    }
    out.push(keyed_source(alloc, mapping, class, placement, rank, table)?)
}

/// The tables of a class but the one that leads, from the root's on and each joined by key, go behind other sources.
#[tactic(auto, using(class_layouts::proofs::Steps::steps))]
pub fn push_other_tables(
    out: &mut ListOf<Further>,
    alloc: Global,
    mapping: &Mapping,
    class: ClassId,
    placement: Placement,
) -> Result<(), AllocError>
    requires class { IsClass mapping.now class }
    ensures { OnOk result
        (out.new ≡ out.old ++ spec.other_tables mapping.now class placement) }
{
    let tables = mapping.tables_of(class);
    for (place, table) in tables.iter().enumerate() {
        let rank = number_of(place)?;
        push_ranked(out, alloc, mapping, class, placement, rank, *table)?;
    }
    Ok(())
}

/// The tables of a class but the one that leads, from the root's on, each joined by key.
pub fn other_tables(
    alloc: Global,
    mapping: &Mapping,
    class: ClassId,
    placement: Placement,
) -> Result<ListOf<Further>, AllocError>
    requires class { IsClass mapping.now class }
    ensures { IfOk result
        (λ further. further ≡ spec.other_tables mapping.now class placement) }
{
    let mut out = ListOf::new(alloc);
    push_other_tables(&mut out, alloc, mapping, class, placement)?;
    Ok(out)
}

/// The source at the one place refers by a foreign key to that at the other.
pub fn refers(
    alloc: Global,
    mapping: &Mapping,
    key: TableKey,
    referred: u32,
    referring: u32,
) -> Result<ExprList, AllocError>
    ensures { IfOk result (λ es. es ≡ spec.refers mapping.now key referred referring) }
{
    let numbers = key_numbers(alloc, mapping, referred_table(mapping, key))?;
    let columns = columns_at(alloc, referred, numbers.as_slice())?;
    let numbers = foreign_numbers(alloc, mapping, key)?;
    let others = columns_at(alloc, referring, numbers.as_slice())?;
    equal_columns(alloc, columns.as_slice(), others.as_slice())
}

/// The table of the target that a relationship ties.
pub fn leading_table(mapping: &Mapping, relation: &Relation) -> TableId
    ensures { result ≡ spec.leading_table mapping.now relation.now }
{
    match relation.far {
        Some(far) => referred_table(mapping, far),
        None => {
            if relation.many {
                relation.foreign.0
            } else {
                referred_table(mapping, relation.foreign)
            }
        }
    }
}

/// The table of the target that is tied stands at a place, and the others behind it.
pub fn led_from(mapping: &Mapping, relation: &Relation, first: u32) -> Result<Placement, AllocError>
    requires target { IsClass mapping.now relation.now.target }
    ensures { IfOk result
        (λ placement. placement ≡ spec.led_from mapping.now relation.now first) }
{
    Ok(Placement {
        leading: rank_of(mapping, relation.target, leading_table(mapping, relation))?,
        first,
    })
}

/// A secondary table goes before those of the target.
fn first_behind(sources: u32, far: Option<TableKey>) -> Result<u32, AllocError>
    ensures { IfOk result (λ first. first ≡ spec.first_behind sources far) }
{
    match far {
        Some(_) => number_of(sources as usize + 1),
        None => Ok(sources),
    }
}

/// Where the tables of a relationship's target stand behind so many sources.
pub fn target_placement(
    mapping: &Mapping,
    relation: &Relation,
    sources: u32,
) -> Result<Placement, AllocError>
    requires target { IsClass mapping.now relation.now.target }
    ensures { IfOk result
        (λ placement. placement ≡ spec.target_placement mapping.now relation.now sources) }
{
    let first = first_behind(sources, relation.far)?;
    led_from(mapping, relation, first)
}

/// The place of the table of a class to which a foreign key refers.
#[tactic(auto, unfolding(crate::specs::Sources::referred_place))]
pub fn referred_place(
    mapping: &Mapping,
    class: ClassId,
    placement: Placement,
    key: TableKey,
) -> Result<u32, AllocError>
    requires class { IsClass mapping.now class }
    ensures { IfOk result
        (λ place. place ≡ spec.referred_place mapping.now class placement key) }
{
    let table = referred_table(mapping, key);
    place_of_table(mapping, class, placement, table)
}

/// The table of a foreign key that refers to a table of the class.
fn referring_source(
    alloc: Global,
    mapping: &Mapping,
    class: ClassId,
    placement: Placement,
    key: TableKey,
    place: u32,
) -> Result<Further, AllocError>
    requires class { IsClass mapping.now class }
    ensures { IfOk result (λ further. further
        ≡ spec.referring_source mapping.now class placement key place) }
{
    let referred = referred_place(mapping, class, placement, key)?;
    Ok(Further {
        table: key.0,
        on: refers(alloc, mapping, key, referred, place)?,
    })
}

/// The table to which the source at a place refers by a foreign key.
fn referred_source(
    alloc: Global,
    mapping: &Mapping,
    key: TableKey,
    referring: u32,
    place: u32,
) -> Result<Further, AllocError>
    ensures { IfOk result
        (λ further. further ≡ spec.referred_source mapping.now key referring place) }
{
    Ok(Further {
        table: referred_table(mapping, key),
        on: refers(alloc, mapping, key, place, referring)?,
    })
}

/// The table of the target that a relationship without a secondary table ties.
fn tied_source(
    alloc: Global,
    mapping: &Mapping,
    class: ClassId,
    placement: Placement,
    relation: &Relation,
    sources: u32,
) -> Result<Further, AllocError>
    requires class { IsClass mapping.now class }
    ensures { IfOk result (λ further. further
        ≡ spec.tied_source mapping.now class placement relation.now sources) }
{
    if relation.many {
        return referring_source(alloc, mapping, class, placement, relation.foreign, sources);
    }
    let referring = place_of_table(mapping, class, placement, relation.foreign.0)?;
    referred_source(alloc, mapping, relation.foreign, referring, sources)
}

/// What ties the target of a relationship to its owner: a secondary table where there is one, and the target's table.
fn tied_sources(
    alloc: Global,
    mapping: &Mapping,
    class: ClassId,
    placement: Placement,
    relation: &Relation,
    sources: u32,
) -> Result<ListOf<Further>, AllocError>
    requires class { IsClass mapping.now class }
    ensures { IfOk result (λ further. further
        ≡ spec.tied_by mapping.now class placement relation.now sources relation.now.far) }
{
    let mut out = ListOf::new(alloc);
    match relation.far {
        None => out.push(tied_source(alloc, mapping, class, placement, relation, sources)?)?,
        Some(far) => {
            let key = relation.foreign;
            out.push(referring_source(alloc, mapping, class, placement, key, sources)?)?;
            let behind = number_of(sources as usize + 1)?;
            out.push(referred_source(alloc, mapping, far, sources, behind)?)?;
        }
    }
    Ok(out)
}

/// What a relationship of a class, whose tables stand so, adds behind so many sources: a secondary table where there is one, the
/// target's table that is tied, and the target's others.
#[tactic(auto, unfolding(crate::specs::Sources::related_sources))]
pub fn related_sources(
    alloc: Global,
    mapping: &Mapping,
    class: ClassId,
    placement: Placement,
    relation: &Relation,
    sources: u32,
) -> Result<ListOf<Further>, AllocError>
    requires class { IsClass mapping.now class }
    requires target { IsClass mapping.now relation.now.target }
    ensures { IfOk result (λ further. further
        ≡ spec.related_sources mapping.now class placement relation.now sources) }
{
    let mut out = tied_sources(alloc, mapping, class, placement, relation, sources)?;
    let behind = target_placement(mapping, relation, sources)?;
    push_other_tables(&mut out, alloc, mapping, relation.target, behind)?;
    Ok(out)
}
