//! The reading of an object's whole row.

ghost use Rattle.std.specs.Prelude.{◌≡◌, IfErr, IfOk};
ghost use Rattle.base_core.specs.declared.refusal.Refusal.TheVariants.{Memory};
ghost use Rattle.class_mapping.specs.Mapped.{IsClass};
ghost use Rattle.object_arena.specs.declared.object.State.TheVariants.{Persistent};
ghost use Rattle.object_arena.specs.Every.{classes_of};
ghost use Rattle.object_arena.specs.Fit.{IsFit};
ghost use Rattle.object_arena.specs.Graph.{IsObject, object_at};
ghost use Rattle.keeper_core.specs.Alone.{IsQuiet};
ghost use Rattle.keeper_core.specs.Beside.{moment_beside};
ghost use Rattle.keeper_core.specs.Moment.{Runs};
ghost use Rattle.load_rows.specs.Loading.{loading};
ghost use Rattle.load_calls.specs.Reading.{IsReady, StaysReady};
ghost use Rattle.load_calls.specs.Refreshing.{CanRefuse, take_cells};
ghost use Rattle.session_loads.specs.Rows as spec;

use base_core::{AttrNo, ClassId, ListOf, ObjId, Refusal, RowList};
use class_layouts::number_of;
use class_mapping::Mapping;
use keeper_core::{Keeper, Notes};
use load_calls::{read_cells, take_cells};
use object_arena::Arena;
use session_scopes::ObjectLoad;
use std::alloc::{AllocError, Global};

/// All attributes of a class.
#[tactic(auto, using(load_selects::proofs::Steps::number_steps))]
fn all_attrs(alloc: Global, mapping: &Mapping, class: ClassId) -> Result<ListOf<AttrNo>, AllocError>
    requires { IsClass mapping.now class }
    ensures { IfOk result (λ attrs. attrs ≡ spec.all_attrs mapping.now class) }
{
    let mut attrs = ListOf::new(alloc);
    let count = mapping.attributes(class).len();
    for place in 0..count {
        attrs.push(AttrNo(number_of(place)?))?;
    }
    Ok(attrs)
}

/// The row of a persistent object, with all its cells; none of them changes.
fn read_row<K: Keeper>(
    alloc: Global,
    arena: &Arena,
    mapping: &Mapping,
    keeper: &mut K,
    object: ObjId,
    notes: &mut Notes,
) -> Result<RowList, Refusal>
    requires fit { IsFit mapping.now arena.now }
    requires object { IsObject arena.now object }
    requires persistent { (object_at arena.now object).state ≡ Persistent }
    requires ready { IsReady (K.moment keeper.old) }
    ensures step { Runs (moment_beside K.moment) (λ rows. rows)
        (spec.read_row mapping.now object)
        (loading arena.now notes.old, keeper.old) result
        (loading arena.now notes.new, keeper.new) }
    ensures stays { StaysReady (K.moment keeper.old) result (K.moment keeper.new) }
    ensures found { IfOk result (spec.AreRowsOf mapping.now arena.now object) }
    ensures refuses { IfErr result (CanRefuse mapping.now object) }
    ensures shown { IfErr result (spec.IsShownGone mapping.now object
        (loading arena.now notes.old, K.moment keeper.old)
        (loading arena.now notes.new, K.moment keeper.new)) }
{
    let attrs = all_attrs(alloc, mapping, arena.class_of(object))?;
    let attrs = attrs.as_slice();
    let rows = read_cells(alloc, arena, mapping, keeper, object, attrs, notes)?;
    if rows.is_empty() {
        return Err(Refusal::ObjectDeletedError(object));
    }
    Ok(rows)
}

/// The expired cells of an object hold what was read of all its cells. The only refusal is out of memory.
fn fill_row(
    alloc: Global,
    arena: &mut Arena,
    mapping: &Mapping,
    object: ObjId,
    rows: &RowList,
    notes: &mut Notes,
) -> Result<(), Refusal>
    requires fit { IsFit mapping.now arena.old }
    requires object { IsObject arena.old object }
    requires rows { spec.AreRowsOf mapping.now arena.old object rows.now }
    ensures step { IsQuiet (λ u. u) (take_cells object (spec.attrs_of mapping.now arena.old object)
        rows.now (loading arena.old notes.old)) result (loading arena.new notes.new) }
    ensures fits { IsFit mapping.now arena.new }
    ensures classes { classes_of arena.new ≡ classes_of arena.old }
    ensures cause { IfErr result (λ e. e ≡ Memory) }
{
    let attrs = all_attrs(alloc, mapping, arena.class_of(object))?;
    take_cells(alloc, arena, object, attrs.as_slice(), rows, notes)
}

/// The reading of an object's row, with all its cells; none of them changes.
#[derive(Drop)]
pub(crate) struct ReadRow {
    pub(crate) object: ObjId,
}

impl ObjectLoad for ReadRow {
    ghost use Rattle.std.specs.Prelude.{◌≡◌};
    ghost use Rattle.object_arena.specs.declared.object.State.TheVariants.{Persistent};
    ghost use Rattle.object_arena.specs.Graph.{IsObject, object_at};
    ghost use Rattle.load_calls.specs.Refreshing.{CanRefuse};
    ghost use Rattle.session_loads.specs.Rows.{AreRowsOf, IsShownGone, read_row};

    type Answer = RowList;

    ghost is_ready = { λ load mapped graph. IsObject graph load.object × ((object_at graph load.object).state ≡ Persistent) };

    ghost program = { λ load mapped. read_row mapped load.object };

    ghost is_found = { λ load mapped graph rows. AreRowsOf mapped graph load.object rows };

    ghost can_refuse = { λ load mapped graph refusal. CanRefuse mapped load.object refusal };

    ghost is_shown = { λ load mapped old new refusal. IsShownGone mapped load.object old new refusal };

    fn take<K: Keeper>(
        self,
        alloc: Global,
        mapping: &Mapping,
        arena: &mut Arena,
        keeper: &mut K,
        notes: &mut Notes,
    ) -> Result<RowList, Refusal> {
        read_row(alloc, &*arena, mapping, keeper, self.object, notes)
    }
}

/// The filling of an object's expired cells by what was read of all its cells. It sends nothing.
#[derive(Drop)]
pub(crate) struct FillRow<'a> {
    pub(crate) object: ObjId,
    pub(crate) rows: &'a RowList,
}

impl<'a> ObjectLoad for FillRow<'a> {
    ghost use Rattle.object_arena.specs.Graph.{IsObject};
    ghost use Rattle.std.specs.Prelude.{◌≡◌};
    ghost use Rattle.base_core.specs.declared.refusal.Refusal.TheVariants.{Memory};
    ghost use Rattle.session_loads.specs.Rows.{AreRowsOf, fill_row};

    type Answer = ();

    ghost is_ready = { λ load mapped graph. IsObject graph load.object × AreRowsOf mapped graph load.object load.rows.now };

    ghost program = { λ load mapped. fill_row mapped load.object load.rows.now };

    ghost is_found = { λ load mapped graph answer. Unit {0} };

    ghost can_refuse = { λ load mapped graph refusal. refusal ≡ Memory };

    ghost is_shown = { λ load mapped old new refusal. Unit {0} };

    fn take<K: Keeper>(
        self,
        alloc: Global,
        mapping: &Mapping,
        arena: &mut Arena,
        _keeper: &mut K,
        notes: &mut Notes,
    ) -> Result<(), Refusal> {
        fill_row(alloc, arena, mapping, self.object, self.rows, notes)
    }
}
