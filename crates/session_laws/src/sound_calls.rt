//! Calls that keep a session sound.

ghost use Rattle.std.specs.Prelude.{◌<◌, ℕ, List, length};
ghost use Rattle.base_core.specs.declared.ids.AttrNo.{AttrNo};
ghost use Rattle.base_core.specs.declared.ids.ClassId.{ClassId};
ghost use Rattle.base_core.specs.declared.value.Value.{Value};
ghost use Rattle.expr_types.specs.declared.select.Bulk.{Bulk};
ghost use Rattle.expr_types.specs.declared.select.Select.{Select};
ghost use Rattle.keeper_core.specs.Beside.{on_own};
ghost use Rattle.session_scopes.specs.Making.{object_made};
ghost use Rattle.session_acts.specs.Savepoints as savepoints;
ghost use Rattle.session_laws.specs.Sound.{IsCommittable, IsSendable, IsWell, IsWritten, KeepsSound, KeepsSoundWhere};
ghost use Rattle.session_laws.specs.Calls.{ComingInKeepsSound};
ghost use Rattle.session_statements.specs.Steps as statements;

/// The making of an object with values keeps a session sound, and so does its refusal; the object was touched in no scope, and stands
/// as one that was not there yet.
pub fn making_keeps_sound()
    ensures { (class : ClassId) (given : List (AttrNo × Value))
        → KeepsSound (on_own (object_made class given)) }
{}

/// The coming in of an object, with those that hang on it, keeps a session sound, and so does its refusal.
pub fn coming_in_keeps_sound()
    ensures { ComingInKeepsSound }
{}

/// What is asked before the flush of a savepoint keeps a session sound. Behind it, where nothing is to be written, the beginning of a
/// savepoint does. The innermost savepoints end and leave it sound, as long as the transaction goes on.
pub fn savepoints_keep_sound()
    ensures enter { KeepsSound savepoints.enter_nested }
    ensures check { (handle : ℕ) → KeepsSound (savepoints.check_handle handle) }
    ensures begin { KeepsSoundWhere IsWritten savepoints.begin_savepoint }
    ensures release { (count : ℕ) → KeepsSoundWhere
        (λ world. count < length world.own.frames.scopes) (savepoints.release_many count) }
    ensures handle { (handle : ℕ) → KeepsSoundWhere IsWell (savepoints.release_handle handle) }
{}

/// Behind a flush, where nothing is to be written, the commit of the transaction leaves a session sound, and so does the whole commit,
/// which ends the savepoints first.
pub fn committing_keeps_sound()
    ensures transaction { KeepsSoundWhere IsWritten savepoints.commit_transaction }
    ensures whole { KeepsSoundWhere IsCommittable savepoints.commit_whole }
{}

/// A bulk statement, accepted or refused, keeps a session of plain classes sound: each object with rows in the table that it writes
/// is to be read again, and every other table has the rows that it had. A query changes nothing.
pub fn statements_keep_sound()
    ensures enter { (statement : Bulk) → KeepsSound (statements.enter_bulk statement) }
    ensures bulk { (statement : Bulk)
        → KeepsSoundWhere (IsSendable statement) (statements.bulk statement) }
    ensures rows { (select : Select) → KeepsSound (statements.rows select) }
{}
