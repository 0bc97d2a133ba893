//! What a flush writes, and what success makes of the objects.

ghost use Rattle.std.specs.Prelude.{◌≡◌, ◌<◌, true, is_some, length, IfErr, OnOk};
ghost use Rattle.class_mapping.specs.Configured.{IsConfigured};
ghost use Rattle.flush_order.specs.Ready.{AreInRange, AreReady};
ghost use Rattle.graph_flushed.specs.Fitting.{AreClearable};
ghost use Rattle.graph_flushed.specs.Flushed.{graph_flushed};
ghost use Rattle.prepared_objects.specs.Known.{next_unread};
ghost use Rattle.prepared_objects.specs.Leaving.{prepared_of};
ghost use Rattle.session_scopes.specs.SessionState.{IsInStep};
ghost use Rattle.session_calls.specs.Calling.{IsSessionCall};
ghost use Rattle.session_acts.specs.Flush as spec;
ghost use Rattle.session_acts.specs.Outcome.{IsFlushCause, IsFlushed, IsStopped, IsUntouched, IsWriteCause, IsWritten, changes_of};

use crate::preparing::{planned_changes, prepared_changes, prepared_objects};
use crate::reading::prepare;
use base_core::{Key, ListOf, Refusal};
use class_mapping::Mapping;
use flush_order::ReadyRow;
use flush_settling::settle;
use graph_flushed::flushes_fit;
use keeper_core::Keeper;
use object_arena::Arena;
use object_rows::Prepared;
use savepoints::Frames;
use schema_core::RowChanges;
use session_scopes::{ObjectStep, Session};
use session_statements::send_plan;
use std::alloc::{AllocError, Global};

/// What a flush wrote: the objects are to stand as they were written.
#[derive(Drop)]
struct Settling<'a> {
    alloc: Global,
    prepared: &'a Prepared,
    rows: &'a RowChanges,
    keys: &'a ListOf<Key>,
}

impl<'a> ObjectStep for Settling<'a> {
    ghost is_ready = { λ settling mapped graph. IsConfigured mapped
        × AreClearable mapped graph settling.prepared.now };

    ghost after = { λ settling mapped graph. graph_flushed mapped
        settling.prepared.now settling.rows.now settling.keys.now graph };

    fn take(
        self,
        mapping: &Mapping,
        arena: &mut Arena,
        frames: &mut Frames,
    ) -> Result<(), AllocError> {
        let Settling {
            alloc,
            prepared,
            rows,
            keys,
        } = self;
        // What was written fits the mapping.
        flushes_fit();
        settle(alloc, arena, frames, mapping, prepared, rows, keys)
    }
}

/// Plans and sends changes, and then the objects stand as they were written.
///
/// # Errors
/// `CircularDependencyError`, what the store refuses of a statement, `StaleDataError` and `NotBuilt`: the objects stand as they
/// did. `KeeperFault`, and `Memory`, after which some objects may have been touched.
fn write_rows<K: Keeper>(
    session: &mut Session,
    keeper: &mut K,
    prepared: &Prepared,
    rows: &RowChanges,
    ready: &[ReadyRow],
) -> Result<(), Refusal>
    requires in_step { IsInStep session.old (K.moment keeper.old) }
    requires inside { 0 < length session.old.frames.scopes }
    requires range { AreInRange session.old.mapping.schema rows.now }
    requires ready { AreReady session.old.mapping.schema rows.now ready.now }
    requires configured { IsConfigured session.old.mapping }
    requires clearable { AreClearable session.old.mapping session.old.graph prepared.now }
    ensures call { IsSessionCall K.moment (λ u. u)
        (spec.write_rows prepared.now rows.now)
        (session.old, keeper.old) result (session.new, keeper.new) }
    ensures scopes { session.new.frames.scopes ≡ session.old.frames.scopes }
    ensures well { session.new.failed ≡ session.old.failed }
    ensures written { OnOk result (IsWritten prepared.now rows.now session.old session.new) }
    ensures untouched { IfErr result (λ e. IsUntouched e session.old session.new) }
    ensures cause { IfErr result (λ e. IsWriteCause session.old.mapping.schema rows.now
        (K.moment keeper.old) e (K.moment keeper.new)) }
{
    let statements = planned_changes(session, rows, ready)?;
    let keys = send_plan(session, keeper, rows, &statements)?;
    Ok(session.step(Settling {
        alloc: session.alloc(),
        prepared,
        rows,
        keys: &keys,
    })?)
}

/// Notes the warnings of what a prepared graph changes, and writes it.
fn write_warned<K: Keeper>(
    session: &mut Session,
    keeper: &mut K,
    prepared: &Prepared,
    rows: &RowChanges,
    ready: &[ReadyRow],
) -> Result<(), Refusal>
    requires in_step { IsInStep session.old (K.moment keeper.old) }
    requires inside { 0 < length session.old.frames.scopes }
    requires range { AreInRange session.old.mapping.schema rows.now }
    requires ready { AreReady session.old.mapping.schema rows.now ready.now }
    requires configured { IsConfigured session.old.mapping }
    requires clearable { AreClearable session.old.mapping session.old.graph prepared.now }
    ensures call { IsSessionCall K.moment (λ u. u)
        (spec.write_warned prepared.now rows.now)
        (session.old, keeper.old) result (session.new, keeper.new) }
    ensures scopes { session.new.frames.scopes ≡ session.old.frames.scopes }
    ensures well { session.new.failed ≡ session.old.failed }
    ensures written { OnOk result (IsWritten prepared.now rows.now session.old session.new) }
    ensures untouched { IfErr result (λ e. IsUntouched e session.old session.new) }
    ensures cause { IfErr result (λ e. IsWriteCause session.old.mapping.schema rows.now
        (K.moment keeper.old) e (K.moment keeper.new)) }
{
    session.warn_all(rows.warnings.as_slice())?;
    write_rows(session, keeper, prepared, rows, ready)
}

/// Writes what is pending and changed, and what is to be deleted of objects of which all is known.
pub(crate) fn write_loaded<K: Keeper>(session: &mut Session, keeper: &mut K) -> Result<(), Refusal>
    requires in_step { IsInStep session.old (K.moment keeper.old) }
    requires inside { 0 < length session.old.frames.scopes }
    ensures call { IsSessionCall K.moment (λ u. u)
        spec.write_loaded
        (session.old, keeper.old) result (session.new, keeper.new) }
    ensures scopes { session.new.frames.scopes ≡ session.old.frames.scopes }
    ensures well { session.new.failed ≡ session.old.failed }
    ensures written { OnOk result (IsWritten
        (prepared_of session.old.mapping session.old.graph) (changes_of session.old)
        session.old session.new) }
    ensures untouched { IfErr result (λ e. IsUntouched e session.old session.new) }
    ensures cause { IfErr result (λ e. IsWriteCause session.old.mapping.schema
        (changes_of session.old) (K.moment keeper.old) e (K.moment keeper.new)) }
{
    let prepared = prepared_objects(session)?;
    let (rows, ready) = prepared_changes(session, &prepared)?;
    write_warned(session, keeper, &prepared, &rows, ready.as_slice())
}

/// Reads what is to be known of the objects that are to be deleted, and writes.
pub(crate) fn write_objects<K: Keeper>(session: &mut Session, keeper: &mut K) -> Result<(), Refusal>
    requires in_step { IsInStep session.old (K.moment keeper.old) }
    requires inside { 0 < length session.old.frames.scopes }
    requires unread { is_some (next_unread session.old.mapping session.old.graph) ≡ true }
    ensures call { IsSessionCall K.moment (λ u. u)
        spec.write_objects
        (session.old, keeper.old) result (session.new, keeper.new) }
    ensures scopes { session.new.frames.scopes ≡ session.old.frames.scopes }
    ensures well { session.new.failed ≡ session.old.failed }
    ensures flushed { OnOk result (IsFlushed session.old session.new) }
    ensures stopped { IfErr result (λ e. IsStopped e session.old session.new) }
    ensures cause { IfErr result
        (λ e. IsFlushCause session.old (K.moment keeper.old) e (K.moment keeper.new)) }
{
    prepare(session, keeper)?;
    write_loaded(session, keeper)
}
