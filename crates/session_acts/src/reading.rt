//! What a flush reads before it writes.

ghost use Rattle.std.specs.Prelude.{◌≡◌, ◌<◌, ◌⊎◌, true, length, is_some, IfErr, IfOk, OnOk};
ghost use Rattle.base_core.specs.declared.refusal.Refusal.TheVariants.{Memory};
ghost use Rattle.session_scopes.specs.Loads.{IsLoadedFrom, IsRefusedLoad};
ghost use Rattle.session_scopes.specs.SessionState.{IsInStep};
ghost use Rattle.session_calls.specs.Calling.{IsSessionCall};
ghost use Rattle.load_preparing.specs.Refusals.{CanRefuseReading};
ghost use Rattle.prepared_objects.specs.Known as known;
ghost use Rattle.session_acts.specs.Flush as spec;
ghost use Rattle.session_acts.specs.Outcome.{IsShownAsRead};

use base_core::Refusal;
use class_mapping::Mapping;
use keeper_core::{Keeper, Notes};
use object_arena::Arena;
use prepared_objects::next_unread;
use session_scopes::{ObjectLoad, Session};
use std::alloc::{AllocError, Global};

/// The reading of all that is to be known of the objects that are to be deleted.
#[derive(Drop)]
struct ReadGoing {}

impl ObjectLoad for ReadGoing {
    ghost use Rattle.std.specs.Prelude.{◌≡◌, ◌⊎◌};
    ghost use Rattle.base_core.specs.declared.refusal.Refusal.TheVariants.{Memory};
    ghost use Rattle.load_preparing.specs.Preparing.{read_going};
    ghost use Rattle.load_preparing.specs.Refusals.{CanRefuseReading};
    ghost use Rattle.session_acts.specs.Outcome.{IsShownAsRead};

    type Answer = ();

    ghost is_ready = { λ load mapped graph. Unit {0} };

    ghost program = { λ load mapped. read_going mapped };

    ghost is_found = { λ load mapped graph answer. Unit {0} };

    ghost can_refuse = { λ load mapped graph refusal. (refusal ≡ Memory) ⊎ CanRefuseReading mapped graph refusal };

    ghost is_shown = { λ load mapped old new refusal. IsShownAsRead mapped old new refusal };

    fn take<K: Keeper>(
        self,
        alloc: Global,
        mapping: &Mapping,
        arena: &mut Arena,
        keeper: &mut K,
        notes: &mut Notes,
    ) -> Result<(), Refusal> {
        load_preparing::read_going(alloc, arena, mapping, keeper, notes)
    }
}

/// Whether something is to be read before what is to be deleted can be. The only refusal is out of memory.
pub(crate) fn is_unread(session: &Session) -> Result<bool, AllocError>
    ensures { IfOk result (λ unread. unread
        ≡ is_some (known.next_unread session.now.mapping session.now.graph)) }
{
    Ok(next_unread(session.alloc(), session.arena(), session.mapping())?.is_some())
}

/// Reads what is to be known of the objects that are to be deleted, in the transaction and without a flush.
///
/// # Errors
/// As `read_going` of `load_preparing`. What was read until then stays.
pub(crate) fn prepare<K: Keeper>(session: &mut Session, keeper: &mut K) -> Result<(), Refusal>
    requires in_step { IsInStep session.old (K.moment keeper.old) }
    requires inside { 0 < length session.old.frames.scopes }
    ensures call { IsSessionCall K.moment (λ u. u) spec.prepare
        (session.old, keeper.old) result (session.new, keeper.new) }
    ensures left { IsLoadedFrom session.old session.new }
    ensures refused { IfErr result (λ e. IsRefusedLoad CanRefuseReading IsShownAsRead
        session.old (K.moment keeper.old) e session.new (K.moment keeper.new)) }
{
    session.load(keeper, ReadGoing {})
}
