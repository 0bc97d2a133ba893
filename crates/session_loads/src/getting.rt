//! One object by its key.

ghost use Rattle.std.specs.Prelude.{◌≡◌, ◌<◌, false, true, length, IfErr, IfOk};
ghost use Rattle.class_mapping.specs.Mapped.{IsClass, root_of};
ghost use Rattle.object_arena.specs.declared.object.State.TheVariants.{Persistent};
ghost use Rattle.object_arena.specs.Fit.{key_fits};
ghost use Rattle.object_arena.specs.Graph.{IsObject, object_at};
ghost use Rattle.relations.specs.Keys.{IsEnd};
ghost use Rattle.relations.specs.Mirror.{is_of};
ghost use Rattle.session_scopes.specs.SessionState.{IsInStep};
ghost use Rattle.session_calls.specs.Calling.{IsSessionCall};
ghost use Rattle.session_loads.specs.Reads as steps;
ghost use Rattle.session_loads.specs.Refusals.{IsRefusedCells, IsRefusedFinding, IsRefusedGetting, IsRefusedRows, IsRefusedWriting, no_fault};

use crate::asking::is_key_expired;
use crate::loads::{LoadKey, RefreshCells, load};
use base_core::{ClassId, Key, ObjId, Refusal};
use class_layouts::has_class;
use keeper_core::Keeper;
use session_acts::flush;
use session_calls::enter;
use session_scopes::Session;

/// The object of a class under a key, if there is one. Where the identity map has an object for the key that is of no class at or under
/// this one, there is none; any other that it has is answered with no statement, but that its expired cells are read where one of
/// its key is among them. For a key that the map lacks all that is to be written is written, and then its row is read, which gives
/// the object.
///
/// # Errors
/// `PendingRollbackError` while a failed flush waits for its rollback. Then, of an object that the map has, what the keeper refuses
/// of the select of its expired cells, and `ObjectDeletedError` where it answered no row; of a key that the map lacks, what a flush is
/// refused for, what the keeper refuses of the select, `InvalidRequestError(NoSuchIdentity)` for a row that names no class at or
/// under this one, and `LimitReached(Objects)`.
pub fn get<K: Keeper>(
    session: &mut Session,
    keeper: &mut K,
    class: ClassId,
    key: &Key,
) -> Result<Option<ObjId>, Refusal>
    requires in_step { IsInStep session.old (K.moment keeper.old) }
    requires class { IsClass session.old.mapping class }
    requires key { key_fits session.old.mapping class key.now ≡ true }
    ensures call { IsSessionCall K.moment (λ found. found) (steps.get class key.now)
        (session.old, keeper.old) result (session.new, keeper.new) }
    ensures made { IfOk result (IsEnd session.new.graph) }
    ensures refused { IfErr result (λ e. IsRefusedGetting class key.now
        session.old (K.moment keeper.old) e session.new (K.moment keeper.new)) }
{
    enter(session, keeper)?;
    find_by_key(session, keeper, class, key)
}

/// What is done in the transaction.
#[tactic(auto, unfolding(crate::specs::Reads::find_by_key))]
fn find_by_key<K: Keeper>(
    session: &mut Session,
    keeper: &mut K,
    class: ClassId,
    key: &Key,
) -> Result<Option<ObjId>, Refusal>
    requires in_step { IsInStep session.old (K.moment keeper.old) }
    requires inside { 0 < length session.old.frames.scopes }
    requires well { session.old.failed ≡ false }
    requires class { IsClass session.old.mapping class }
    requires key { key_fits session.old.mapping class key.now ≡ true }
    ensures call { IsSessionCall K.moment (λ found. found) (steps.find_by_key class key.now)
        (session.old, keeper.old) result (session.new, keeper.new) }
    ensures made { IfOk result (IsEnd session.new.graph) }
    ensures refused { IfErr result (λ e. IsRefusedFinding class key.now
        session.old (K.moment keeper.old) e session.new (K.moment keeper.new)) }
{
    let root = session.mapping().root_of(class);
    match session.arena().find_identity(root, key) {
        Some(object) => answer_found(session, keeper, class, object),
        None => read_lacking(session, keeper, class, key),
    }
}

/// Answers the object that the identity map has for a key.
fn answer_found<K: Keeper>(
    session: &mut Session,
    keeper: &mut K,
    class: ClassId,
    object: ObjId,
) -> Result<Option<ObjId>, Refusal>
    requires in_step { IsInStep session.old (K.moment keeper.old) }
    requires inside { 0 < length session.old.frames.scopes }
    requires object { IsObject session.old.graph object }
    requires persistent { (object_at session.old.graph object).state ≡ Persistent }
    ensures call { IsSessionCall K.moment (λ found. found) (steps.found_under class object)
        (session.old, keeper.old) result (session.new, keeper.new) }
    ensures made { IfOk result (IsEnd session.new.graph) }
    ensures refused { IfErr result (λ e. IsRefusedCells object
        session.old (K.moment keeper.old) e session.new (K.moment keeper.new)) }
{
    if !is_under(session, class, object) {
        return Ok(None);
    }
    fill_key(session, keeper, object)?;
    Ok(Some(object))
}

/// Whether an object is of a class or of one under it.
fn is_under(session: &Session, class: ClassId, object: ObjId) -> bool
    requires { IsObject session.now.graph object }
    ensures { result ≡ is_of session.now.graph session.now.mapping class object }
{
    let own = session.arena().class_of(object);
    has_class(session.mapping().line_of(own), class.0 as usize)
}

/// Reads the expired cells of an object where one of its key is among them.
#[tactic(auto, unfolding(crate::specs::Reads::fill_key))]
fn fill_key<K: Keeper>(session: &mut Session, keeper: &mut K, object: ObjId) -> Result<(), Refusal>
    requires in_step { IsInStep session.old (K.moment keeper.old) }
    requires inside { 0 < length session.old.frames.scopes }
    requires object { IsObject session.old.graph object }
    requires persistent { (object_at session.old.graph object).state ≡ Persistent }
    ensures call { IsSessionCall K.moment (λ u. u) (steps.fill_key object)
        (session.old, keeper.old) result (session.new, keeper.new) }
    ensures refused { IfErr result (λ e. IsRefusedCells object
        session.old (K.moment keeper.old) e session.new (K.moment keeper.new)) }
{
    if !is_key_expired(session, object) {
        return Ok(());
    }
    load(session, keeper, RefreshCells { object })
}

/// Writes what is to be written, and reads the row of a key that the identity map lacks.
fn read_lacking<K: Keeper>(
    session: &mut Session,
    keeper: &mut K,
    class: ClassId,
    key: &Key,
) -> Result<Option<ObjId>, Refusal>
    requires in_step { IsInStep session.old (K.moment keeper.old) }
    requires inside { 0 < length session.old.frames.scopes }
    requires well { session.old.failed ≡ false }
    requires class { IsClass session.old.mapping class }
    requires key { key_fits session.old.mapping class key.now ≡ true }
    ensures call { IsSessionCall K.moment (λ found. found) (steps.read_lacking class key.now)
        (session.old, keeper.old) result (session.new, keeper.new) }
    ensures made { IfOk result (IsEnd session.new.graph) }
    ensures refused { IfErr result (λ e. IsRefusedWriting no_fault IsRefusedRows
        session.old (K.moment keeper.old) e session.new (K.moment keeper.new)) }
{
    flush(session, keeper)?;
    load(session, keeper, LoadKey { class, key })
}
