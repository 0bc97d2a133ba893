//! For each row those for which it waits, found by the keys that it names.

ghost use Rattle.std.specs.Prelude.{◌≡◌, ◌<◌, ◌≤◌, ◌++◌, length, IfOk, OnOk};
ghost use Rattle.row_order.specs.Lists.{AreListsOf, AreTold};
ghost use Rattle.flush_order.specs.Index.{IsIndexOf, gone_place, gone_targets, new_blockers, new_place, rows_taken};
ghost use Rattle.flush_order.specs.Orders.{gone_at, gone_rows};
ghost use Rattle.flush_order.specs.Ready.{AreReady, AreReadyGone};
ghost use Rattle.flush_order.specs.Refers.{gone_refers, new_refers};

use crate::index::{Index, enter, push_referred};
use crate::refers::{GoneRows, NewRows};
use base_core::ListOf;
use row_order::waiting_of;
use schema_core::RowCell;
use std::alloc::{AllocError, Global};
use std::collections::BTreeMap;

/// Puts the rows behind others whose keys the cells take, of so many.
fn push_taken(list: &mut Vec<u32>, size: usize, cells: &[RowCell]) -> Result<(), AllocError>
    ensures { OnOk result (list.new.items ≡ list.old.items ++ rows_taken size cells.now) }
{
    let Some((cell, cells)) = cells.split_first() else {
        return Ok(());
    };
    if let RowCell::KeyOf(place, _part) = cell {
        if (*place as usize) < size {
            list.push(*place)?;
        }
    }
    push_taken(list, size, cells)
}

/// The new rows for which a new row waits.
fn new_blockers(
    alloc: Global,
    new: &NewRows,
    index: &Index,
    place: u32,
) -> Result<ListOf<u32>, AllocError>
    requires ready { AreReady new.now.schema.now new.now.changes.now new.now.rows.now }
    requires within { place < length new.now.rows.now }
    ensures { IfOk result (λ list. list
        ≡ new_blockers new.now.schema.now new.now.changes.now index.now place) }
{
    let row = new.at(place);
    let mut list = Vec::new(alloc);
    push_taken(&mut list, new.rows.len(), row.first.as_slice())?;
    let foreigns = new.schema.spec(row.table).foreigns.as_slice();
    push_referred(
        &mut list,
        alloc,
        new.schema,
        index,
        row.known.as_slice(),
        row.table,
        foreigns,
    )?;
    Ok(ListOf::from_vec(list))
}

#[tactic(auto, using(crate::proofs::IndexSteps::index_first))]
/// The new rows by table and key, as far as it is known.
fn new_index(alloc: Global, new: &NewRows) -> Result<Index, AllocError>
    requires ready { AreReady new.now.schema.now new.now.changes.now new.now.rows.now }
    ensures { IfOk result (λ index. IsIndexOf
        (new_place new.now.schema.now new.now.changes.now) (length new.now.rows.now) index) }
{
    let mut index = BTreeMap::new(alloc);
    for place in 0..new.rows.len() as u32 {
        let row = new.at(place);
        enter(&mut index, alloc, row.table, &row.key, place)?;
    }
    Ok(index)
}

#[tactic(auto, using(row_order::proofs::Pushing::push_steps))]
/// For each new row those for which it waits, by the index of all.
fn new_told(alloc: Global, new: &NewRows, index: &Index) -> Result<Vec<ListOf<u32>>, AllocError>
    requires ready { AreReady new.now.schema.now new.now.changes.now new.now.rows.now }
    ensures { IfOk result (λ lists. AreTold
        (new_blockers new.now.schema.now new.now.changes.now index.now)
        (length new.now.rows.now) lists.items) }
{
    let mut lists = Vec::new(alloc);
    for place in 0..new.rows.len() as u32 {
        lists.push(new_blockers(alloc, new, index, place)?)?;
    }
    Ok(lists)
}

#[tactic(auto, using(crate::proofs::Listing::new_are_listed))]
/// For each new row those for which it waits.
pub(crate) fn new_lists(alloc: Global, new: &NewRows) -> Result<Vec<ListOf<u32>>, AllocError>
    requires ready { AreReady new.now.schema.now new.now.changes.now new.now.rows.now }
    ensures lists { IfOk result
        (λ lists. AreListsOf (new_refers new.now.schema.now new.now.changes.now)
        (length new.now.changes.now.fresh) lists.items) }
    ensures fewer { IfOk result (λ lists. length lists.items ≤ 4294967295) }
{
    let index = new_index(alloc, new)?;
    Ok(new_told(alloc, new, &index)?)
}

/// The deleted rows to which a deleted row refers.
fn gone_targets(
    alloc: Global,
    gone: &GoneRows,
    index: &Index,
    place: u32,
) -> Result<ListOf<u32>, AllocError>
    requires ready { AreReadyGone gone.now.schema.now gone.now.changes.now gone.now.rows.now }
    requires within { place < length gone.now.rows.now }
    ensures { IfOk result (λ list. list
        ≡ gone_targets gone.now.schema.now gone.now.changes.now index.now place) }
{
    let row = gone.at(place);
    let table = row.name.table;
    let mut list = Vec::new(alloc);
    let foreigns = gone.schema.spec(table).foreigns.as_slice();
    push_referred(
        &mut list,
        alloc,
        gone.schema,
        index,
        row.last.as_slice(),
        table,
        foreigns,
    )?;
    Ok(ListOf::from_vec(list))
}

#[tactic(auto, using(crate::proofs::IndexSteps::index_first))]
/// The deleted rows by table and key.
fn gone_index(alloc: Global, gone: &GoneRows) -> Result<Index, AllocError>
    requires ready { AreReadyGone gone.now.schema.now gone.now.changes.now gone.now.rows.now }
    ensures { IfOk result (λ index. IsIndexOf
        (gone_place gone.now.schema.now gone.now.changes.now) (length gone.now.rows.now) index) }
{
    let mut index = BTreeMap::new(alloc);
    for place in 0..gone.rows.len() as u32 {
        let row = gone.at(place);
        enter(&mut index, alloc, row.name.table, &row.key, place)?;
    }
    Ok(index)
}

#[tactic(auto, using(row_order::proofs::Pushing::push_steps))]
/// For each deleted row those to which it refers, by the index of all.
fn gone_told(alloc: Global, gone: &GoneRows, index: &Index) -> Result<Vec<ListOf<u32>>, AllocError>
    requires ready { AreReadyGone gone.now.schema.now gone.now.changes.now gone.now.rows.now }
    ensures { IfOk result (λ lists. AreTold
        (gone_targets gone.now.schema.now gone.now.changes.now index.now)
        (length gone.now.rows.now) lists.items) }
{
    let mut lists = Vec::new(alloc);
    for place in 0..gone.rows.len() as u32 {
        lists.push(gone_targets(alloc, gone, index, place)?)?;
    }
    Ok(lists)
}

/// For each deleted row those for which it waits: those that refer to it.
pub(crate) fn gone_lists(alloc: Global, gone: &GoneRows) -> Result<Vec<ListOf<u32>>, AllocError>
    requires ready { AreReadyGone gone.now.schema.now gone.now.changes.now gone.now.rows.now }
    ensures lists { IfOk result (λ lists. AreListsOf
        (λ row other. gone_refers gone.now.schema.now gone.now.changes.now
        (gone_at (gone_rows gone.now.schema.now gone.now.changes.now) row)
        (gone_at (gone_rows gone.now.schema.now gone.now.changes.now) other))
        (length (gone_rows gone.now.schema.now gone.now.changes.now)) lists.items) }
    ensures fewer { IfOk result (λ lists. length lists.items ≤ 4294967295) }
{
    let index = gone_index(alloc, gone)?;
    let targets = gone_told(alloc, gone, &index)?;
    waiting_of(alloc, targets.as_slice())
}
