//! Which new rows are switched with which deleted ones.

ghost use Rattle.std.specs.Prelude.{◌≡◌, ◌&&◌, cond, not, Some, None, IfOk, OnOk, if◌then◌else◌};
ghost use Rattle.std.specs.BTreeMap.{get};
ghost use Rattle.std.specs.List.{All, position};
ghost use Rattle.schema_core.specs.Catalog.{IsTable};
ghost use Rattle.schema_core.specs.Tables.{has_null};
ghost use Rattle.flush_order.specs.Orders.{place_of_gone};
ghost use Rattle.flush_order.specs.Ready.{AreReady};
ghost use Rattle.flush_order.specs.Sorted.{Place, place_cmp, same_place};
ghost use Rattle.row_partners.specs.Partners as spec;

use base_core::{Copied, Key, ListOf, TableId, Value};
use flush_order::{NewRows, ReadyRow, push_key};
use schema_core::{GoneRow, Schema};
use std::alloc::{AllocError, Global};
use std::collections::BTreeMap;

/// The numbers of deleted rows by table and key.
type Numbers = BTreeMap<(TableId, Key), usize>;

/// A deleted row's table and key.
fn place_of_gone(
    alloc: Global,
    schema: &Schema,
    row: &GoneRow,
) -> Result<(TableId, Key), AllocError>
    requires { IsTable schema.now row.now.name.table }
    ensures { IfOk result (λ place. place ≡ place_of_gone schema.now row.now) }
{
    let table = row.name.table;
    let mut key = Vec::new(alloc);
    push_key(
        &mut key,
        schema.spec(table).columns.as_slice(),
        row.base.as_slice(),
    )?;
    Ok((table, ListOf::from_vec(key)))
}

#[tactic(auto, using(crate::proofs::PartnerSteps::place_steps))]
/// A deleted row's number goes under its table and key.
fn enter(numbers: &mut Numbers, place: (TableId, Key), number: usize) -> Result<(), AllocError>
    ensures { OnOk result ((wanted : Place) → get place_cmp numbers.new wanted
        ≡ cond (same_place place wanted) (Some number) (get place_cmp numbers.old wanted)) }
{
    numbers.insert(place, number)?;
    Ok(())
}

#[tactic(auto, using(object_rows::proofs::PlaceSteps::place_steps))]
/// The numbers of deleted rows: each is entered after those behind it, so that the first of several stays.
fn numbers_of(alloc: Global, schema: &Schema, rows: &[GoneRow]) -> Result<Numbers, AllocError>
    requires { All (λ row. IsTable schema.now row.name.table) rows.now }
    ensures { IfOk result (λ numbers. (wanted : Place) → get place_cmp numbers wanted
        ≡ position (λ row. same_place (place_of_gone schema.now row) wanted) rows.now) }
{
    let mut numbers = BTreeMap::new(alloc);
    for behind in 0..rows.len() {
        let number = rows.len() - 1 - behind;
        let place = place_of_gone(alloc, schema, &rows[number])?;
        enter(&mut numbers, place, number)?;
    }
    Ok(numbers)
}

fn has_null(key: &[Value]) -> bool
    ensures { result ≡ has_null key.now }
{
    let Some((value, key)) = key.split_first() else {
        return false;
    };
    matches!(value, Value::Null) || has_null(key)
}

#[tactic(auto, using(crate::proofs::PartnerSteps::place_steps))]
/// The deleted row with which a new row is switched is taken out, so that no row after it is switched with it.
fn take(numbers: &mut Numbers, row: &ReadyRow) -> Result<Option<usize>, AllocError>
    ensures partner { IfOk result (λ partner. partner ≡ (if has_null row.now.key then None
        else get place_cmp numbers.old (row.now.table, row.now.key))) }
    ensures others { OnOk result ((wanted : Place) → get place_cmp numbers.new wanted
        ≡ cond (not (has_null row.now.key) && same_place (row.now.table, row.now.key) wanted)
        None (get place_cmp numbers.old wanted)) }
{
    if has_null(row.key.as_slice()) {
        return Ok(None);
    }
    let place = (row.table, row.key.copied()?);
    Ok(numbers.remove(&place))
}

#[tactic(auto, using(crate::proofs::PartnerSteps::partner_steps))]
/// For each new row the number of the deleted one with which it is switched: they have one table and key, all of the new row's key is
/// known before any key is drawn, and no new row before it has this key.
pub fn partners(alloc: Global, new: &NewRows) -> Result<Vec<Option<usize>>, AllocError>
    requires ready { AreReady new.now.schema.now new.now.changes.now new.now.rows.now }
    requires gone { All (λ row. IsTable new.now.schema.now row.name.table)
        new.now.changes.now.gone }
    ensures { IfOk result
        (λ all. all.items ≡ spec.partners new.now.schema.now new.now.changes.now) }
{
    let mut numbers = numbers_of(alloc, new.schema, new.changes.gone.as_slice())?;
    let mut partners = Vec::new(alloc);
    for place in 0..new.rows.len() {
        partners.push(take(&mut numbers, new.at(place as u32))?)?;
    }
    Ok(partners)
}
