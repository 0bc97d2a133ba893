//! Objects after success.

ghost use Rattle.std.specs.Prelude.{◌≡◌, None, Some, length, IfOk, IsTrue};
ghost use Rattle.std.specs.Option.{unwrap_or};
ghost use Rattle.object_arena.specs.Graph.{IsObject, object_at};
ghost use Rattle.object_arena.specs.Identity.{is_other};
ghost use Rattle.graph_flushed.specs.Flushed as spec;
ghost use Rattle.object_records.specs.Records.{with_records};
ghost use Rattle.graph_flushed.specs.Ready.{AreNarrowThen, IsNarrow};
ghost use Rattle.flush_settling.specs.Ready.{IsFlushing, written_of};

use crate::flushing::Flushing;
use base_core::{Copied, Key, ListOf, ObjId};
use graph_flushed::{keeps_links, kept_cells, kept_links, prepared_links};
use object_arena::{Cell, Object, State};
use std::alloc::{AllocError, Global};

/// Whether another object was found.
fn is_other(object: ObjId, found: Option<ObjId>) -> bool
    ensures { result ≡ is_other object found }
{
    match found {
        Some(found) => found.0 != object.0,
        None => false,
    }
}

/// Persistent, unless another object has the key.
fn state_unless(is_taken: bool) -> State
    ensures { result ≡ spec.state_unless is_taken }
{
    if is_taken {
        return State::Detached;
    }
    State::Persistent
}

impl<'a> Flushing<'a> {
    /// Persistent, or detached where another new object has the key.
    fn state_under_key(&self, object: ObjId, key: &Key) -> State
        requires flushing { IsFlushing self.now }
        requires object { IsObject self.now.projection.now.arena.now object }
        ensures { result ≡ spec.state_under (written_of self.now) object (Some key.now) }
    {
        let root = self.projection.arena.root_at(object);
        state_unless(is_other(object, self.holders.find(root, key)))
    }

    /// Persistent, or detached where a new object has the key of an identity.
    fn state_under(&self, object: ObjId, identity: &Option<Key>) -> State
        requires flushing { IsFlushing self.now }
        requires object { IsObject self.now.projection.now.arena.now object }
        ensures { result ≡ spec.state_under (written_of self.now) object identity.now }
    {
        match identity {
            Some(key) => self.state_under_key(object, key),
            None => State::Persistent,
        }
    }

    /// An object in a state under an identity, with its links as the preparation leaves them.
    fn prepared_object(
        &self,
        alloc: Global,
        object: ObjId,
        state: State,
        identity: &Option<Key>,
    ) -> Result<Object, AllocError>
        requires object { IsObject self.now.projection.now.arena.now object }
        ensures { IfOk result (λ new. new
            ≡ record (object_at self.now.projection.now.arena.now object) {
              state = state;
              identity = identity.now;
              links = spec.prepared_links self.now.projection.now.prepared.now object
                  (object_at self.now.projection.now.arena.now object).links;
            }) }
    {
        let old = self.projection.arena.object(object);
        let links = prepared_links(
            alloc,
            self.projection.prepared,
            object,
            old.links.as_slice(),
        )?;
        let cells = old.cells.copied()?;
        let identity = Copied::copied(identity)?;
        Ok(Object {
            class: old.class,
            state,
            identity,
            added: old.added,
            marked: old.marked,
            orphan: old.orphan,
            cells,
            links,
        })
    }

    /// An object that is new no more.
    fn transient_object(&self, alloc: Global, object: ObjId) -> Result<Object, AllocError>
        requires object { IsObject self.now.projection.now.arena.now object }
        ensures { IfOk result (λ new. new ≡ spec.new_object (written_of self.now)
            object None (object_at self.now.projection.now.arena.now object)) }
    {
        self.prepared_object(alloc, object, State::Transient, &None)
    }

    /// A new object under its key.
    fn new_object(&self, alloc: Global, object: ObjId, key: &Key) -> Result<Object, AllocError>
        requires flushing { IsFlushing self.now }
        requires object { IsObject self.now.projection.now.arena.now object }
        ensures { IfOk result (λ new. new ≡ spec.new_object (written_of self.now)
            object (Some key.now)
            (object_at self.now.projection.now.arena.now object)) }
    {
        let old = self.projection.arena.object(object);
        let cells = self.new_cells(alloc, object, old.class, key, old.cells.as_slice())?;
        let links = kept_links(
            alloc,
            self.projection.prepared,
            object,
            old.links.as_slice(),
        )?;
        let identity = key.copied()?;
        Ok(Object {
            class: old.class,
            state: self.state_under_key(object, key),
            identity: Some(identity),
            added: old.added,
            marked: old.marked,
            orphan: old.orphan,
            cells,
            links,
        })
    }

    /// An object of the session in a state, with these cells and a mark, and with its links as they are kept.
    fn kept_object(
        &self,
        alloc: Global,
        object: ObjId,
        state: State,
        marked: bool,
        cells: ListOf<Cell>,
    ) -> Result<Object, AllocError>
        requires object { IsObject self.now.projection.now.arena.now object }
        ensures { IfOk result (λ new. new
            ≡ record (object_at self.now.projection.now.arena.now object) {
              state = state;
              marked = marked;
              cells = cells;
              links = spec.kept_links self.now.projection.now.prepared.now object
                  (object_at self.now.projection.now.arena.now object).links;
            }) }
    {
        let old = self.projection.arena.object(object);
        let links = kept_links(
            alloc,
            self.projection.prepared,
            object,
            old.links.as_slice(),
        )?;
        let identity = Copied::copied(&old.identity)?;
        Ok(Object {
            class: old.class,
            state,
            identity,
            added: old.added,
            marked,
            orphan: old.orphan,
            cells,
            links,
        })
    }

    /// An object that keeps its rows.
    fn staying_object(&self, alloc: Global, object: ObjId) -> Result<Object, AllocError>
        requires flushing { IsFlushing self.now }
        requires object { IsObject self.now.projection.now.arena.now object }
        ensures { IfOk result (λ new. new ≡ spec.staying_object (written_of self.now)
            object (object_at self.now.projection.now.arena.now object)) }
    {
        let old = self.projection.arena.object(object);
        let state = self.state_under(object, &old.identity);
        let cells = self.staying_cells(alloc, object, old.class, old.cells.as_slice())?;
        self.kept_object(alloc, object, state, old.marked, cells)
    }

    /// An object whose rows are deleted.
    fn deleted_object(&self, alloc: Global, object: ObjId) -> Result<Object, AllocError>
        requires object { IsObject self.now.projection.now.arena.now object }
        ensures { IfOk result (λ new. new ≡ spec.deleted_object (written_of self.now)
            object (object_at self.now.projection.now.arena.now object)) }
    {
        let old = self.projection.arena.object(object);
        let cells = kept_cells(alloc, old.cells.as_slice())?;
        self.kept_object(alloc, object, State::Deleted, false, cells)
    }

    /// An object outside the session.
    fn other_object(&self, alloc: Global, object: ObjId) -> Result<Object, AllocError>
        requires object { IsObject self.now.projection.now.arena.now object }
        ensures { IfOk result (λ new. new ≡ spec.other_object (written_of self.now)
            object (object_at self.now.projection.now.arena.now object)) }
    {
        let old = self.projection.arena.object(object);
        self.prepared_object(alloc, object, old.state, &old.identity)
    }

    /// An object that was pending.
    fn pending_object(&self, alloc: Global, object: ObjId) -> Result<Object, AllocError>
        requires flushing { IsFlushing self.now }
        requires object { IsObject self.now.projection.now.arena.now object }
        ensures { IfOk result (λ new. new ≡ spec.new_object (written_of self.now)
            object (spec.key_of (written_of self.now) object)
            (object_at self.now.projection.now.arena.now object)) }
    {
        match &self.keys[object.0 as usize - 1] {
            Some(key) => self.new_object(alloc, object, key),
            None => self.transient_object(alloc, object),
        }
    }

    /// An object that was persistent.
    fn persistent_object(&self, alloc: Global, object: ObjId) -> Result<Object, AllocError>
        requires flushing { IsFlushing self.now }
        requires object { IsObject self.now.projection.now.arena.now object }
        ensures { IfOk result (λ new. new ≡ spec.object_in State.Persistent
            (written_of self.now) object
            (object_at self.now.projection.now.arena.now object)) }
    {
        if self.projection.prepared.deleted.has(object) {
            return self.deleted_object(alloc, object);
        }
        self.staying_object(alloc, object)
    }

    /// An object after success.
    fn object_flushed(&self, alloc: Global, object: ObjId) -> Result<Object, AllocError>
        requires flushing { IsFlushing self.now }
        requires object { IsObject self.now.projection.now.arena.now object }
        ensures { IfOk result (λ new. new ≡ spec.object_flushed (written_of self.now)
            object (object_at self.now.projection.now.arena.now object)) }
    {
        match self.projection.arena.state_of(object) {
            State::Pending => self.pending_object(alloc, object),
            State::Persistent => self.persistent_object(alloc, object),
            State::Transient | State::Deleted | State::Detached => self.other_object(alloc, object),
        }
    }

    /// Whether the state of a persistent object stays, by its identity.
    fn keeps_state(&self, object: ObjId, identity: &Option<Key>) -> bool
        requires flushing { IsFlushing self.now }
        requires object { IsObject self.now.projection.now.arena.now object }
        ensures { IsTrue result → spec.state_under (written_of self.now) object identity.now
            ≡ State.Persistent }
    {
        matches!(self.state_under(object, identity), State::Persistent)
    }

    /// Whether an object that keeps its rows stays as it is.
    #[tactic(auto, using(crate::proofs::SettledSteps::stays))]
    fn keeps_object(&self, object: ObjId) -> Result<bool, AllocError>
        requires flushing { IsFlushing self.now }
        requires object { IsObject self.now.projection.now.arena.now object }
        requires persistent { (object_at self.now.projection.now.arena.now object).state
            ≡ State.Persistent }
        ensures { IfOk result (λ kept. IsTrue kept
            → spec.staying_object (written_of self.now) object
            (object_at self.now.projection.now.arena.now object)
            ≡ object_at self.now.projection.now.arena.now object) }
    {
        let old = self.projection.arena.object(object);
        if !self.keeps_state(object, &old.identity)
            || !keeps_links(self.projection.prepared, object, old.links.as_slice())?
        {
            return Ok(false);
        }
        self.keeps_cells(object, old.class, old.cells.as_slice())
    }

    /// Whether success leaves an object as it is, as far as that is told without memory.
    #[tactic(auto, using(crate::proofs::SettledSteps::stays))]
    fn is_settled(&self, object: ObjId) -> Result<bool, AllocError>
        requires flushing { IsFlushing self.now }
        requires object { IsObject self.now.projection.now.arena.now object }
        ensures { IfOk result (λ settled. IsTrue settled
            → spec.object_flushed (written_of self.now) object
            (object_at self.now.projection.now.arena.now object)
            ≡ object_at self.now.projection.now.arena.now object) }
    {
        match self.projection.arena.state_of(object) {
            State::Persistent => {
                if self.projection.prepared.deleted.has(object) {
                    return Ok(false);
                }
                self.keeps_object(object)
            }
            State::Transient | State::Pending | State::Deleted | State::Detached => Ok(false),
        }
    }

    /// The record that an object gets, unless it stays as it is.
    fn record_flushed(&self, alloc: Global, object: ObjId) -> Result<Option<Object>, AllocError>
        requires flushing { IsFlushing self.now }
        requires object { IsObject self.now.projection.now.arena.now object }
        ensures { IfOk result (λ given.
            unwrap_or given (object_at self.now.projection.now.arena.now object)
            ≡ spec.object_flushed (written_of self.now) object
            (object_at self.now.projection.now.arena.now object)) }
    {
        if self.is_settled(object)? {
            return Ok(None);
        }
        let new = self.object_flushed(alloc, object)?;
        Ok(Some(new))
    }

    /// The record that an object gets, whose cells and links have numbers.
    fn narrow_record(&self, alloc: Global, object: ObjId) -> Result<Option<Object>, AllocError>
        requires flushing { IsFlushing self.now }
        requires object { IsObject self.now.projection.now.arena.now object }
        ensures object { IfOk result (λ given.
            unwrap_or given (object_at self.now.projection.now.arena.now object)
            ≡ spec.object_flushed (written_of self.now) object
            (object_at self.now.projection.now.arena.now object)) }
        ensures narrow { IfOk result (λ given. IsNarrow
            (unwrap_or given (object_at self.now.projection.now.arena.now object))) }
    {
        let given = self.record_flushed(alloc, object)?;
        if !is_narrow_then(self.projection.arena.object(object), &given) {
            return Err(AllocError);
        }
        Ok(given)
    }

    /// The records that objects get; one that stays as it is gets none.
    pub(crate) fn records(&self, alloc: Global) -> Result<ListOf<Option<Object>>, AllocError>
        requires flushing { IsFlushing self.now }
        ensures records { IfOk result (λ records.
            with_records self.now.projection.now.arena.now records
            ≡ spec.graph_written (written_of self.now)) }
        ensures long { IfOk result (λ records. length records
            ≡ length self.now.projection.now.arena.now.objects) }
        ensures narrow { IfOk result (λ records. AreNarrowThen
            self.now.projection.now.arena.now records
            (length self.now.projection.now.arena.now.objects)) }
    {
        let mut records = ListOf::new(alloc);
        for number in 0..self.projection.arena.count() {
            records.push(self.narrow_record(alloc, ObjId(number + 1))?)?;
        }
        Ok(records)
    }
}

/// Whether an object's cells and links have numbers.
fn is_narrow(object: &Object) -> bool
    ensures { IsTrue result → IsNarrow object.now }
{
    object.cells.len() <= u32::MAX as usize && object.links.len() <= u32::MAX as usize
}

/// Whether the cells and links have numbers of the record that an object gets, or of the one that it has.
fn is_narrow_then(object: &Object, given: &Option<Object>) -> bool
    ensures { IsTrue result → IsNarrow (unwrap_or given.now object.now) }
{
    match given {
        Some(new) => is_narrow(new),
        None => is_narrow(object),
    }
}
