//! All changes of a flush with their switched rows.

ghost use Rattle.std.specs.Prelude.{◌≡◌, ◌++◌, is_some, IfOk};
ghost use Rattle.std.specs.List.{list_any};
ghost use Rattle.flush_order.specs.Ready.{AreInRange, AreReady};
ghost use Rattle.object_arena.specs.Fit.{IsFit};
ghost use Rattle.row_switches.specs.Ready.{IsSwitch};
ghost use Rattle.row_switches.specs.Switch.{changes_by, rows_kept, rows_switched, switched_changes};

use crate::cells::{Switch, numbers_among};
use crate::staying::rows_left;
use base_core::{Copied, ListOf, both};
use class_mapping::Mapping;
use flush_order::NewRows;
use object_arena::Arena;
use row_partners::partners;
use schema_core::{ChangedRow, RowChanges};
use std::alloc::{AllocError, Global};

impl<'a> Switch<'a> {
    /// The changed rows, and behind them those in place of switched ones.
    fn rows_changed(&self, alloc: Global) -> Result<ListOf<ChangedRow>, AllocError>
        requires { IsSwitch self.now }
        ensures { IfOk result (λ rows. rows
            ≡ rows_kept self.now.mapping.now self.now.arena.now self.now.new.now.changes.now
            self.now.partners.now ++ rows_switched self.now.mapping.now self.now.arena.now
            self.now.new.now.changes.now self.now.partners.now) }
    {
        let mut rows = self.rows_kept(alloc)?;
        self.push_rows_switched(&mut rows, alloc)?;
        Ok(rows)
    }

    /// All changes with their switched rows.
    fn changes(&self, alloc: Global) -> Result<RowChanges, AllocError>
        requires { IsSwitch self.now }
        ensures { IfOk result (λ changes. changes ≡ changes_by self.now.mapping.now
            self.now.arena.now self.now.new.now.changes.now self.now.partners.now) }
    {
        let plain = self.new.changes;
        let (post, warnings) = both(plain.post.copied(), plain.warnings.copied())?;
        let ((fresh, changed), gone) = both(
            both(self.rows_staying(alloc), self.rows_changed(alloc)),
            rows_left(alloc, plain, self.partners),
        )?;
        Ok(RowChanges {
            fresh,
            changed,
            gone,
            post,
            warnings,
        })
    }
}

/// Whether some new row is switched.
fn is_some_switched(partners: &[Option<usize>]) -> bool
    ensures { result ≡ list_any is_some partners.now }
{
    for partner in partners {
        if partner.is_some() {
            return true;
        }
    }
    false
}

/// Changes with their switched rows; none where no row is switched.
///
/// A new row whose key is known before any key is drawn, and is that of a deleted row of its table, leaves the new rows, and the
/// deleted row leaves the deleted ones; of several new rows with this key the first in order does. A changed row stands for both,
/// behind the other changed rows. In all lists a cell that named the key of such a row is that key's value, and a changed row
/// keeps only the cells that it does not hold already.
pub fn switched_changes(
    alloc: Global,
    arena: &Arena,
    mapping: &Mapping,
    new: &NewRows,
) -> Result<Option<RowChanges>, AllocError>
    requires fit { IsFit mapping.now arena.now }
    requires schema { new.now.schema.now ≡ mapping.now.schema }
    requires range { AreInRange new.now.schema.now new.now.changes.now }
    requires ready { AreReady new.now.schema.now new.now.changes.now new.now.rows.now }
    ensures { IfOk result
        (λ found. found ≡ switched_changes mapping.now arena.now new.now.changes.now) }
{
    let partners = partners(alloc, new)?;
    if !is_some_switched(partners.as_slice()) {
        return Ok(None);
    }
    let numbers = numbers_among(alloc, partners.as_slice())?;
    let switch = Switch {
        mapping,
        arena,
        new,
        partners: partners.as_slice(),
        numbers: numbers.as_slice(),
    };
    Ok(Some(switch.changes(alloc)?))
}
