//! The loads that a session makes, and the making of any load.

ghost use Rattle.std.specs.Prelude.{◌≡◌, ◌<◌, length, IfErr, IfOk};
ghost use Rattle.keeper_core.specs.Beside.{by_own};
ghost use Rattle.session_scopes.specs.Loads.{on_load};
ghost use Rattle.session_scopes.specs.SessionState.{IsInStep};
ghost use Rattle.session_calls.specs.Calling.{IsSessionCall};
ghost use Rattle.session_loads.specs.Refusals.{IsLoadedFrom, IsRefusedLoad};

use base_core::{ClassId, Key, ObjId, Refusal, RelNo};
use class_mapping::Mapping;
use keeper_core::{Keeper, Notes};
use object_arena::Arena;
use session_scopes::{ObjectLoad, Session};
use std::alloc::Global;

/// Makes a load, by the mapping and over the objects that the session has.
pub(crate) fn load<L: ObjectLoad, K: Keeper>(
    session: &mut Session,
    keeper: &mut K,
    load: L,
) -> Result<L::Answer, Refusal>
    requires in_step { IsInStep session.old (K.moment keeper.old) }
    requires inside { 0 < length session.old.frames.scopes }
    requires ready { L.is_ready load session.old.mapping session.old.graph }
    ensures call { IsSessionCall K.moment (λ answer. answer)
        (by_own (λ state. on_load (L.program load state.mapping)))
        (session.old, keeper.old) result (session.new, keeper.new) }
    ensures left { IsLoadedFrom session.old session.new }
    ensures found { IfOk result (L.is_found load session.new.mapping session.new.graph) }
    ensures refused { IfErr result (λ e. IsRefusedLoad (L.can_refuse load) (L.is_shown load)
        session.old (K.moment keeper.old) e session.new (K.moment keeper.new)) }
{
    session.load(keeper, load)
}

/// The reading of an object's expired cells.
#[derive(Drop)]
pub(crate) struct RefreshCells {
    pub(crate) object: ObjId,
}

impl ObjectLoad for RefreshCells {
    ghost use Rattle.std.specs.Prelude.{◌≡◌};
    ghost use Rattle.object_arena.specs.declared.object.State.TheVariants.{Persistent};
    ghost use Rattle.object_arena.specs.Graph.{IsObject, object_at};
    ghost use Rattle.load_calls.specs.Refreshing.{CanRefuse, IsShownDeleted, refresh};

    type Answer = ();

    ghost is_ready = { λ load mapped graph. IsObject graph load.object × ((object_at graph load.object).state ≡ Persistent) };

    ghost program = { λ load mapped. refresh mapped load.object };

    ghost is_found = { λ load mapped graph answer. Unit {0} };

    ghost can_refuse = { λ load mapped graph refusal. CanRefuse mapped load.object refusal };

    ghost is_shown = { λ load mapped old new refusal. IsShownDeleted mapped load.object old new refusal };

    fn take<K: Keeper>(
        self,
        alloc: Global,
        mapping: &Mapping,
        arena: &mut Arena,
        keeper: &mut K,
        notes: &mut Notes,
    ) -> Result<(), Refusal> {
        load_calls::refresh(alloc, arena, mapping, keeper, self.object, notes)
    }
}

/// The reading of an object's link.
#[derive(Drop)]
pub(crate) struct LoadLink {
    pub(crate) object: ObjId,
    pub(crate) place: RelNo,
}

impl ObjectLoad for LoadLink {
    ghost use Rattle.std.specs.Prelude.{◌≡◌, ◌<◌, length};
    ghost use Rattle.class_mapping.specs.Mapped.{relations_of};
    ghost use Rattle.object_arena.specs.declared.object.State.TheVariants.{Persistent};
    ghost use Rattle.object_arena.specs.Graph.{IsObject, object_at};
    ghost use Rattle.load_calls.specs.Refreshing.{IsShownDeleted};
    ghost use Rattle.load_calls.specs.Refusals.{CanRefuseLoad};
    ghost use Rattle.load_targets.specs.Targets.{load_lazy};

    type Answer = ();

    ghost is_ready = { λ load mapped graph. IsObject graph load.object × ((object_at graph load.object).state ≡ Persistent) × (load.place.0 < length (relations_of mapped (object_at graph load.object).class)) };

    ghost program = { λ load mapped. load_lazy mapped load.object load.place };

    ghost is_found = { λ load mapped graph answer. Unit {0} };

    ghost can_refuse = { λ load mapped graph refusal. CanRefuseLoad mapped graph load.object refusal };

    ghost is_shown = { λ load mapped old new refusal. IsShownDeleted mapped load.object old new refusal };

    fn take<K: Keeper>(
        self,
        alloc: Global,
        mapping: &Mapping,
        arena: &mut Arena,
        keeper: &mut K,
        notes: &mut Notes,
    ) -> Result<(), Refusal> {
        load_targets::load_lazy(
            alloc,
            arena,
            mapping,
            keeper,
            self.object,
            self.place,
            notes,
        )
    }
}

/// The reading of the object of a class under a key.
#[derive(Drop)]
pub(crate) struct LoadKey<'a> {
    pub(crate) class: ClassId,
    pub(crate) key: &'a Key,
}

impl<'a> ObjectLoad for LoadKey<'a> {
    ghost use Rattle.std.specs.Prelude.{◌≡◌, true};
    ghost use Rattle.class_mapping.specs.Mapped.{IsClass};
    ghost use Rattle.object_arena.specs.Fit.{key_fits};
    ghost use Rattle.relations.specs.Keys.{IsEnd};
    ghost use Rattle.load_calls.specs.Refusals.{CanRefuseRows};
    ghost use Rattle.load_targets.specs.Targets.{load_key};

    type Answer = Option<ObjId>;

    ghost is_ready = { λ load mapped graph. IsClass mapped load.class × (key_fits mapped load.class load.key.now ≡ true) };

    ghost program = { λ load mapped. load_key mapped load.class load.key.now };

    ghost is_found = { λ load mapped graph answer. IsEnd graph answer };

    ghost can_refuse = { λ load mapped graph refusal. CanRefuseRows mapped graph refusal };

    ghost is_shown = { λ load mapped old new refusal. Unit {0} };

    fn take<K: Keeper>(
        self,
        alloc: Global,
        mapping: &Mapping,
        arena: &mut Arena,
        keeper: &mut K,
        notes: &mut Notes,
    ) -> Result<Option<ObjId>, Refusal> {
        load_targets::load_key(alloc, arena, mapping, keeper, self.class, self.key, notes)
    }
}
