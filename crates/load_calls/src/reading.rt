//! Selects that loads send, noted.

ghost use Rattle.std.specs.Prelude.{◌≡◌, ◌++◌, ◌∷◌, [], IfErr, IfOk, OnErr, OnOk};
ghost use Rattle.base_core.specs.declared.refusal.Refusal.TheVariants.{Memory};
ghost use Rattle.class_mapping.specs.Configured.{IsConfigured};
ghost use Rattle.object_arena.specs.Graph.{Graph};
ghost use Rattle.keeper_core.specs.declared.notes.Note.TheVariants as note;
ghost use Rattle.keeper_core.specs.Keeping.{RefusesSelect};
ghost use Rattle.keeper_core.specs.declared.sent.Sent.TheVariants as sent;
ghost use Rattle.keeper_core.specs.Beside.{moment_beside};
ghost use Rattle.keeper_core.specs.Moment.{Runs};
ghost use Rattle.sql_semantics.specs.Plain.{IsPlainSelect};
ghost use Rattle.sql_semantics.specs.Shapes.{AreGiven, AreOfItems};
ghost use Rattle.expr_typing.specs.ItemShapes as shapes;
ghost use Rattle.load_rows.specs.Loading.{loading};
ghost use Rattle.load_calls.specs.Reading.{IsReady, StaysReady};
ghost use Rattle.load_calls.specs.Reading as spec;

use base_core::{Refusal, RowList, RowValues};
use class_mapping::Mapping;
use expr_types::{CopiedIn, Select};
use expr_typing::{all_fit, item_shapes};
use keeper_core::{Keeper, Note, Notes, Sent, calls};
use schema_core::Schema;
use std::alloc::{AllocError, Global};

/// Notes a select.
fn note_select(alloc: Global, select: &Select, notes: &mut Notes) -> Result<(), AllocError>
    ensures { OnOk result
        (notes.new ≡ notes.old ++ note.Sent (sent.Query select.now) ∷ []) }
{
    let copy = select.copied_in(alloc)?;
    notes.push(Note::Sent(Sent::Query(copy)))
}

/// Whether rows have one value for each item of a select, of the item's kind, or NULL where that may be.
fn are_answers(
    alloc: Global,
    schema: &Schema,
    select: &Select,
    rows: &[RowValues],
) -> Result<bool, AllocError>
    ensures { IfOk result
        (λ fit. fit ≡ shapes.all_fit (shapes.shapes_of schema.now select.now) rows.now) }
{
    let shapes = item_shapes(alloc, schema, select)?;
    Ok(all_fit(shapes.as_slice(), rows))
}

/// The rows of a select over the tables now, which is noted, a refused one too. What stands beside the keeper stays, but for the
/// note. The select is plain over a mapping of which all was checked, as each is. Whatever the keeper, the rows have one value for each item, of the item's kind, and NULL only where that may be.
///
/// # Errors
/// What the keeper refuses of a select. Rows of another shape are refused as for want of memory; a keeper whose tables are legal
/// answers none.
pub fn read<K: Keeper>(
    alloc: Global,
    mapping: &Mapping,
    keeper: &mut K,
    select: &Select,
    notes: &mut Notes,
) -> Result<RowList, Refusal>
    requires ready { IsReady (K.moment keeper.old) }
    requires plain { IsConfigured mapping.now → IsPlainSelect mapping.now.schema select.now }
    ensures step { (graph : Graph) → Runs (moment_beside K.moment) (λ rows. rows)
        (spec.read mapping.now.schema select.now)
        (loading graph notes.old, keeper.old) result (loading graph notes.new, keeper.new) }
    ensures stays { StaysReady (K.moment keeper.old) result (K.moment keeper.new) }
    ensures kinds { IfOk result (λ rows. AreOfItems mapping.now.schema select.now rows) }
    ensures given { IfOk result (λ rows. AreGiven mapping.now.schema select.now rows) }
    ensures refuses { IfErr result (RefusesSelect mapping.now.schema select.now) }
    ensures noted { OnOk result
        (notes.new ≡ notes.old ++ note.Sent (sent.Query select.now) ∷ []) }
    ensures configured { IsConfigured mapping.now }
{
    let schema = mapping.schema();
    note_select(alloc, select, notes)?;
    let rows = calls::query(alloc, keeper, schema, select)?;
    let fit = are_answers(alloc, schema, select, rows.as_slice())?;
    if !fit {
        return Err(Refusal::Memory);
    }
    Ok(rows)
}
