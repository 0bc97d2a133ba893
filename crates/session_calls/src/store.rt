//! The calls of the store that begin and end scopes, noted by the session.

ghost use Rattle.std.specs.Prelude.{◌≡◌, ◌<◌, ◌≤◌, ◌-◌, [], length, true};
ghost use Rattle.keeper_core.specs.Calls as call;
ghost use Rattle.keeper_core.specs.Keeping as keeping;
ghost use Rattle.session_scopes.specs.SessionState.{IsInStep};
ghost use Rattle.session_calls.specs.Calling.{IsNotedCall};
ghost use Rattle.session_calls.specs.Parts.{roll_back_scope};

use base_core::Refusal;
use keeper_core::{Keeper, Sent, calls};
use session_scopes::Session;

/// Begins the transaction of the store.
pub(crate) fn begin_store<K: Keeper>(session: &mut Session, keeper: &mut K) -> Result<(), Refusal>
    requires in_step { IsInStep session.old (K.moment keeper.old) }
    requires outside { session.old.frames.scopes ≡ [] }
    ensures { IsNotedCall K.moment call.begin 1
        (session.old, keeper.old) result (session.new, keeper.new) }
{
    match session.note(Sent::Begin) {
        Ok(()) => calls::begin(session.alloc(), keeper),
        Err(_full) => Err(Refusal::Memory),
    }
}

/// Rolls the scope at a depth back in the store: the transaction at depth 1, and a savepoint inside it.
pub fn roll_back<K: Keeper>(
    session: &mut Session,
    keeper: &mut K,
    depth: u32,
) -> Result<(), Refusal>
    requires in_step { IsInStep session.old (K.moment keeper.old) }
    requires depth { (1 ≤ depth) × (depth ≤ length session.old.frames.scopes) }
    ensures { IsNotedCall K.moment (roll_back_scope depth) (depth - 1)
        (session.old, keeper.old) result (session.new, keeper.new) }
{
    if depth == 1 {
        return roll_back_transaction(session, keeper);
    }
    roll_back_to(session, keeper, depth - 1)
}

/// Rolls the transaction back in the store.
pub(crate) fn roll_back_transaction<K: Keeper>(
    session: &mut Session,
    keeper: &mut K,
) -> Result<(), Refusal>
    requires in_step { IsInStep session.old (K.moment keeper.old) }
    requires inside { 1 ≤ length session.old.frames.scopes }
    ensures { IsNotedCall K.moment call.rollback 0
        (session.old, keeper.old) result (session.new, keeper.new) }
{
    match session.note(Sent::Rollback) {
        Ok(()) => calls::rollback(keeper),
        Err(_full) => Err(Refusal::Memory),
    }
}

/// Rolls the savepoint of a number back in the store; the transaction's first has the number 1.
fn roll_back_to<K: Keeper>(
    session: &mut Session,
    keeper: &mut K,
    number: u32,
) -> Result<(), Refusal>
    requires in_step { IsInStep session.old (K.moment keeper.old) }
    requires number { (1 ≤ number) × (number < length session.old.frames.scopes) }
    ensures { IsNotedCall K.moment (call.rollback_to number) number
        (session.old, keeper.old) result (session.new, keeper.new) }
{
    match session.note(Sent::RollbackTo(number)) {
        Ok(()) => rollback_to(keeper, number),
        Err(_full) => Err(Refusal::Memory),
    }
}

/// Gives back the tables at the start of the savepoint of a number, and ends it and all inside it.
fn rollback_to<K: Keeper>(keeper: &mut K, number: u32) -> Result<(), Refusal>
    requires attached { (K.moment keeper.old).attached ≡ true }
    requires numbered { 1 ≤ number }
    requires inside { number < (K.moment keeper.old).depth }
    ensures { keeping.IsRollbackTo K.moment number keeper.old result keeper.new }
{
    Ok(keeper.rollback_to(number)?)
}
