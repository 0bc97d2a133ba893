//! Names of rows, found by table and object.

ghost use Rattle.std.specs.Prelude.{◌≡◌, [], cond, Some, IfOk, OnOk};
ghost use Rattle.std.specs.BTreeMap.{get};
ghost use Rattle.std.specs.List.{position};
ghost use Rattle.base_core.specs.declared.ids.ObjId.{ObjId};
ghost use Rattle.base_core.specs.declared.ids.TableId.{TableId};
ghost use Rattle.object_rows.specs.Places.{ArePlaces, is_row_of, name_cmp};

use base_core::{ObjId, RowName, TableId};
use std::alloc::{AllocError, Global};
use std::collections::BTreeMap;
use std::marker::Model;

/// The place of the first row of each table and object.
type Places = BTreeMap<(TableId, ObjId), usize>;

/// Names of rows in their order, each found by its table and object. Contracts see the list of names.
#[derive(Drop)]
pub struct RowNames {
    names: Vec<RowName>,
    places: Places,
}

impl Model for RowNames {
    ghost use Rattle.std.specs.Prelude.{List};
    ghost use Rattle.base_core.specs.declared.refusal.RowName.{RowName};
    ghost use Rattle.object_rows.specs.Places.{ArePlaces};

    ghost Value = { List RowName };

    ghost view = { λ n. n.names.items };

    ghost invariant = { λ n. ArePlaces n.names.items n.places };
}

/// A row's place goes under its table and object.
fn enter(places: &mut Places, row: RowName, place: usize) -> Result<(), AllocError>
    ensures { OnOk result ((table : TableId) (object : ObjId)
        → get name_cmp places.new (table, object)
        ≡ cond (is_row_of table object row) (Some place) (get name_cmp places.old (table, object))) }
{
    places.insert((row.table, row.object), place)?;
    Ok(())
}

#[tactic(auto, using(crate::proofs::PlaceSteps::place_steps))]
/// The places of rows: each is entered after those behind it, so that the first of several stays.
fn places_of(alloc: Global, names: &[RowName]) -> Result<Places, AllocError>
    ensures { IfOk result (λ places. ArePlaces names.now places) }
{
    let mut places = BTreeMap::new(alloc);
    for behind in 0..names.len() {
        let place = names.len() - 1 - behind;
        enter(&mut places, names[place], place)?;
    }
    Ok(places)
}

impl RowNames {
    /// No names.
    pub fn none(alloc: Global) -> RowNames
        ensures { result ≡ [] }
    {
        RowNames {
            names: Vec::new(alloc),
            places: BTreeMap::new(alloc),
        }
    }

    /// These names.
    pub fn new(alloc: Global, names: Vec<RowName>) -> Result<RowNames, AllocError>
        ensures { IfOk result (λ all. all ≡ names.items) }
    {
        let places = places_of(alloc, names.as_slice())?;
        Ok(RowNames { names, places })
    }

    /// The names in their order.
    pub fn as_slice(&self) -> &[RowName]
        ensures { result.now ≡ self.now }
    {
        self.names.as_slice()
    }

    /// The place of an object's row in a table, of several the first one's.
    pub fn place_of(&self, table: TableId, object: ObjId) -> Option<usize>
        ensures { result ≡ position (is_row_of table object) self.now }
    {
        self.places.get(&(table, object)).copied()
    }
}
