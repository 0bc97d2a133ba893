//! The names of rows, as a refusal tells them.

ghost use Rattle.std.specs.Prelude.{◌≡◌, ◌<◌, ◌++◌, [], ◌∷◌, length, map, IfOk, OnOk};
ghost use Rattle.std.specs.List.{All};
ghost use Rattle.flush_order.specs.Cells.{new_at};
ghost use Rattle.flush_order.specs.Orders.{gone_at, gone_rows};
ghost use Rattle.flush_order.specs.Ready.{AreReady, AreReadyGone};

use base_core::{Copied, ListOf, RowName};
use flush_order::{GoneRows, NewRows};
use std::alloc::{AllocError, Global};

/// Puts the object and table of a row behind others.
fn push_name(out: &mut ListOf<RowName>, name: &RowName) -> Result<(), AllocError>
    ensures { OnOk result (out.new ≡ out.old ++ name.now ∷ []) }
{
    out.push(name.copied()?)?;
    Ok(())
}

/// The objects and tables of new rows.
pub fn new_names(new: &NewRows, alloc: Global, rows: &[u32]) -> Result<ListOf<RowName>, AllocError>
    requires ready { AreReady new.now.schema.now new.now.changes.now new.now.rows.now }
    requires within { All (λ row. row < length new.now.changes.now.fresh) rows.now }
    ensures { IfOk result
        (λ names. names ≡ map (λ row. (new_at new.now.changes.now row).name) rows.now) }
{
    let mut names = ListOf::new(alloc);
    for row in rows {
        let fresh = new.changes.fresh.at(*row as usize);
        push_name(&mut names, &fresh.name)?;
    }
    Ok(names)
}

/// The objects and tables of deleted rows.
pub fn gone_names(
    gone: &GoneRows,
    alloc: Global,
    rows: &[u32],
) -> Result<ListOf<RowName>, AllocError>
    requires ready { AreReadyGone gone.now.schema.now gone.now.changes.now gone.now.rows.now }
    requires within { All (λ row. row < length gone.now.rows.now) rows.now }
    ensures { IfOk result (λ names. names ≡ map
        (λ row. (gone_at (gone_rows gone.now.schema.now gone.now.changes.now) row).name)
        rows.now) }
{
    let mut names = ListOf::new(alloc);
    for row in rows {
        names.push(gone.at(*row).name.copied()?)?;
    }
    Ok(names)
}
