//! The session, and what becomes of it as scopes begin and end and single objects change.

ghost use Rattle.std.specs.Prelude.{◌≡◌, ◌<◌, ◌≤◌, ◌+◌, ◌-◌, ◌++◌, ◌⊎◌, [], None, true, false, length, map, IfErr, IfOk, IfSome, OnErr, OnOk};
ghost use Rattle.base_core.specs.Counts.{one_more};
ghost use Rattle.base_core.specs.declared.refusal.Refusal.TheVariants.{Memory};
ghost use Rattle.keeper_core.specs.Beside.{moment_beside};
ghost use Rattle.keeper_core.specs.Moment.{Runs};
ghost use Rattle.keeper_core.specs.declared.notes.Note.TheVariants as note;
ghost use Rattle.class_mapping.specs.Mapped.{IsAttribute, IsClass, attributes_of};
ghost use Rattle.object_arena.specs.Fit.{IsFit};
ghost use Rattle.object_arena.specs.Graph.{IsCell, IsObject, is_persistent, object_at, value_fault};
ghost use Rattle.std.specs.List.{All};
ghost use Rattle.keeper_core.specs.Alone.{IsQuiet};
ghost use Rattle.load_rows.specs.Loading.{loading};
ghost use Rattle.object_records.specs.Kept.{held_in};
ghost use Rattle.savepoints.specs.Scopes.{scope_limit};
ghost use Rattle.session_scopes.specs.Changes as changes;
ghost use Rattle.session_scopes.specs.Handles.{place_of_handle};
ghost use Rattle.session_scopes.specs.Keeping as keeping;
ghost use Rattle.session_scopes.specs.Loads.{IsShownIn, on_load, with_loaded};
ghost use Rattle.session_scopes.specs.Making as making;
ghost use Rattle.session_scopes.specs.Scoping as scoping;
ghost use Rattle.session_scopes.specs.SessionState.{AreAlikeButNotes, AreThereStill, IsInStep, IsKept, IsMadeOf, SameObjects, depth_of, in_transaction, new_session, with_graph, with_note, with_warnings};

use crate::load::{append_notes, touch_filled};
use crate::making::{copy_of, first_fault, put_given};
use crate::{Handles, ObjectLoad, ObjectStep};
use base_core::{AttrNo, ClassId, ObjId, Refusal, RequestKind, Value, Warning};
use class_mapping::Mapping;
use keeper_core::{Keeper, Note, Notes, Sent, calls};
use object_arena::{Arena, Object, State};
use object_parts::is_of_kept_key;
use object_records::{KeptObjects, give_back, kept_objects, touch_for_mark, touch_for_value};
use savepoints::Frames;
use session_parts::{commit_all, let_go_all};
use std::alloc::{AllocError, Global};
use std::marker::Model;

/// A session over a mapping: its objects, the scopes in progress with the handles of the savepoints,
/// whether a flush failed that was not rolled back yet, and what the command did so far.
pub struct Session {
    alloc: Global,
    mapping: Mapping,
    arena: Arena,
    frames: Frames,
    failed: bool,
    handles: Handles,
    /// How many add numbers were given.
    added: u64,
    notes: Notes,
}

impl Drop for Session {
    fn drop(self) {
        let Session {
            alloc: _,
            mapping: _,
            arena: _,
            frames: _,
            failed: _,
            handles: _,
            added: _,
            notes: _,
        } = self;
    }
}

impl Model for Session {
    ghost use Rattle.std.specs.Coded.{codes};
    ghost use Rattle.expr_types.specs.contracts.expr.Expr as e;
    ghost use Rattle.session_scopes.specs.SessionState.{IsSession, SessionState};

    ghost Value = { SessionState };

    ghost coded = { Prim.hlevel (codes, e.the_row.coded) };

    ghost view = { λ s. record { mapping = s.mapping; graph = s.arena; frames = s.frames; failed = s.failed; drawn = s.handles; added = s.added; notes = s.notes } };

    ghost invariant = { λ s. IsSession s.mapping s.arena s.frames.scopes s.failed s.handles };
}

impl Session {
    /// No objects and no transaction.
    pub fn new(alloc: Global, mapping: Mapping) -> Session
        ensures { result ≡ new_session mapping }
    {
        Session {
            notes: Notes::new(alloc),
            handles: Handles::new(alloc),
            frames: Frames::new(alloc),
            arena: Arena::new(alloc),
            added: 0,
            failed: false,
            mapping,
            alloc,
        }
    }

    /// The allocator with which the session was made. Nothing is claimed of it: every allocator serves alike.
    pub fn alloc(&self) -> Global {
        self.alloc
    }

    /// The mapping.
    pub fn mapping(&self) -> &Mapping
        ensures { result.now ≡ self.now.mapping }
    {
        &self.mapping
    }

    /// The objects.
    pub fn arena(&self) -> &Arena
        ensures objects { result.now ≡ self.now.graph }
        ensures fit { IsFit self.now.mapping self.now.graph }
    {
        &self.arena
    }

    /// How many objects there are; they are numbered from 1.
    pub fn count(&self) -> u32
        ensures { result ≡ length self.now.graph.objects }
    {
        self.arena.count()
    }

    /// An object's record. It has one cell for each attribute of its class.
    pub fn object(&self, object: ObjId) -> &Object
        requires { IsObject self.now.graph object }
        ensures is { result.now ≡ object_at self.now.graph object }
        ensures class { IsClass self.now.mapping (object_at self.now.graph object).class }
        ensures cells { length (object_at self.now.graph object).cells
            ≡ length (attributes_of self.now.mapping (object_at self.now.graph object).class) }
    {
        self.arena.object(object)
    }

    /// Whether a flush failed that was not rolled back yet.
    pub fn is_failed(&self) -> bool
        ensures { result ≡ self.now.failed }
    {
        self.failed
    }

    /// How many scopes are in progress, a failed one left out: the transaction is 1.
    pub fn open_scopes(&self) -> u32
        ensures scopes { result ≡ length self.now.frames.scopes }
        ensures few { length self.now.frames.scopes ≤ scope_limit }
    {
        self.frames.depth()
    }

    /// Whether a transaction is in progress.
    #[tactic(auto, using(session_parts::proofs::ScopeLemmas::open_scopes))]
    pub fn is_in_transaction(&self) -> bool
        ensures { result ≡ in_transaction self.now }
    {
        self.frames.depth() > 0
    }

    /// How many scopes are in progress, a failed one included.
    pub fn depth(&self) -> u32
        ensures { result ≡ depth_of self.now }
    {
        let open = self.frames.depth();
        if self.failed { open + 1 } else { open }
    }

    /// How many savepoints are in progress, a failed one included.
    pub fn savepoints(&self) -> usize
        ensures count { result ≡ length self.now.drawn.handles }
        ensures depth { length self.now.drawn.handles ≡ depth_of self.now - 1 }
        ensures few { length self.now.drawn.handles ≤ scope_limit }
    {
        let _open = self.frames.depth();
        self.handles.len()
    }

    /// The place of a handle among those of the savepoints in progress, the innermost at 0.
    pub fn place_of_handle(&self, handle: u32) -> Option<usize>
        ensures place { result ≡ place_of_handle self.now.drawn handle }
        ensures inside { IfSome result (λ place. place < length self.now.drawn.handles) }
        ensures depth { length self.now.drawn.handles ≡ depth_of self.now - 1 }
    {
        self.handles.place_of(handle)
    }

    /// What the command did so far, in the order of its happening.
    pub fn notes(&self) -> &Notes
        ensures { result.now ≡ self.now.notes }
    {
        &self.notes
    }

    /// The next command begins.
    pub fn clear_notes(&mut self)
        ensures { self.new ≡ record self.old { notes = [] } }
    {
        self.notes.clear();
    }

    /// Notes a statement that was sent.
    pub fn note(&mut self, sent: Sent) -> Result<(), AllocError>
        ensures ok { OnOk result (self.new ≡ with_note sent self.old) }
        ensures err { OnErr result (self.new ≡ self.old) }
    {
        self.notes.push(Note::Sent(sent))
    }

    /// Notes warnings, in order. Where memory runs out, some may have been noted then.
    pub fn warn_all(&mut self, warnings: &[Warning]) -> Result<(), AllocError>
        ensures ok { OnOk result (self.new ≡ with_warnings warnings.now self.old) }
        ensures alike { AreAlikeButNotes self.old self.new }
    {
        note_warnings(&mut self.notes, warnings)
    }

    /// The transaction's scope starts, with the objects as they stand now. Where memory runs out it changes nothing.
    pub fn begin(&mut self) -> Result<(), AllocError>
        requires outside { self.old.frames.scopes ≡ [] }
        requires well { self.old.failed ≡ false }
        ensures ok { OnOk result (self.new ≡ scoping.session_begun self.old) }
        ensures err { OnErr result (self.new ≡ self.old) }
        ensures same { SameObjects self.old self.new }
    {
        self.frames.start(&self.arena)
    }

    /// A savepoint's scope starts, with the objects as they stand now, under the next handle, which is answered. Where memory
    /// runs out it changes nothing, but the handle may be lost.
    pub fn nest(&mut self) -> Result<u32, AllocError>
        requires inside { 0 < length self.old.frames.scopes }
        requires room { length self.old.frames.scopes < scope_limit }
        requires well { self.old.failed ≡ false }
        ensures ok { OnOk result (self.new ≡ scoping.session_nested self.old) }
        ensures handle { IfOk result (λ handle. handle ≡ self.old.drawn.drawn + 1) }
        ensures err { OnErr result (self.new ≡ record self.old {
          drawn = record self.old.drawn { drawn = self.new.drawn.drawn };
        }) }
        ensures same { SameObjects self.old self.new }
    {
        let handle = self.handles.draw()?;
        if let Err(full) = self.frames.start(&self.arena) {
            self.handles.end(1);
            return Err(full);
        }
        Ok(handle)
    }

    /// The innermost savepoint ends, and what was done inside stays. Takes no memory.
    pub fn release(&mut self)
        requires inside { 1 < length self.old.frames.scopes }
        requires well { self.old.failed ≡ false }
        ensures ok { self.new ≡ scoping.session_released self.old }
        ensures scopes { length self.new.frames.scopes ≡ length self.old.frames.scopes - 1 }
        ensures same { SameObjects self.old self.new }
    {
        self.frames.release();
        self.handles.end(1);
    }

    /// Each object stands where it stood at the start of the scope at a depth; the transaction is at depth 1. The scope ends with
    /// those inside it, and with them so many savepoints. No rollback is awaited then. Takes no memory.
    pub fn go_back(&mut self, depth: u32, count: usize)
        requires depth { (1 ≤ depth) × (depth ≤ length self.old.frames.scopes) }
        requires count { count ≤ length self.old.drawn.handles }
        requires left { length self.old.drawn.handles - count ≡ depth - 2 }
        ensures ok { self.new
            ≡ scoping.session_rolled_back count (scoping.session_restored depth self.old) }
        ensures scopes { length self.new.frames.scopes ≡ depth - 1 }
        ensures same { SameObjects self.old self.new }
    {
        self.frames.restore(&mut self.arena, depth);
        self.handles.end(count);
        self.failed = false;
    }

    /// The innermost scope ends for a flush that failed, and each object stands where it stood at its start. A rollback is awaited
    /// then; a savepoint keeps its handle until that. Takes no memory.
    pub fn fail_flush(&mut self)
        requires inside { 1 ≤ length self.old.frames.scopes }
        requires well { self.old.failed ≡ false }
        ensures ok { self.new ≡ scoping.session_failed self.old }
        ensures scopes { length self.new.frames.scopes ≡ length self.old.frames.scopes - 1 }
        ensures same { SameObjects self.old self.new }
    {
        let depth = self.frames.depth();
        self.frames.restore(&mut self.arena, depth);
        self.failed = true;
    }

    /// The scope of a failed flush, which has ended, was rolled back, and with it so many savepoints have ended. Takes no
    /// memory.
    pub fn recover(&mut self, count: usize)
        requires count { count ≤ length self.old.drawn.handles }
        requires left { length self.old.drawn.handles - count
            ≡ length self.old.frames.scopes - 1 }
        ensures ok { self.new ≡ scoping.session_rolled_back count self.old }
        ensures same { SameObjects self.old self.new }
    {
        self.handles.end(count);
        self.failed = false;
    }

    /// The transaction was committed: no scope is in progress, and every persistent object is expired.
    pub fn end_transaction(&mut self)
        requires inside { length self.old.frames.scopes ≡ 1 }
        requires well { self.old.failed ≡ false }
        ensures ended { self.new ≡ scoping.session_committed self.old }
        ensures same { SameObjects self.old self.new }
    {
        self.frames.clear();
        commit_all(&mut self.arena);
    }

    /// No transaction is in progress, and every object leaves the session.
    pub fn let_go(&mut self)
        ensures closed { self.new ≡ scoping.session_closed self.old }
        ensures same { SameObjects self.old self.new }
    {
        self.frames.clear();
        self.handles.end(self.handles.len());
        self.failed = false;
        let_go_all(&mut self.arena);
    }

    /// Makes a change of the objects, by which each is touched in the innermost scope where its record comes to differ. Where
    /// memory runs out the scopes in progress stay then, and all but the objects and what is kept of them.
    pub fn step<S: ObjectStep>(&mut self, step: S) -> Result<(), AllocError>
        requires { S.is_ready step self.old.mapping self.old.graph }
        ensures ok { OnOk result (self.new
            ≡ with_graph (S.after step self.old.mapping self.old.graph) self.old) }
        ensures rest { self.new
            ≡ record self.old { graph = self.new.graph; frames = self.new.frames } }
        ensures same { SameObjects self.old self.new }
        ensures scopes { self.new.frames.scopes ≡ self.old.frames.scopes }
    {
        step.take(&self.mapping, &mut self.arena, &mut self.frames)
    }

    /// Makes a load over any keeper. Each object that it makes or fills is touched in the innermost scope directly after it, and what
    /// it noted goes behind the session's notes; so it is where the load is refused too, for what it loaded before that.
    ///
    /// # Errors
    /// What the load refuses, and `Memory`.
    pub fn load<L: ObjectLoad, K: Keeper>(
        &mut self,
        keeper: &mut K,
        load: L,
    ) -> Result<L::Answer, Refusal>
        requires in_step { IsInStep self.old (K.moment keeper.old) }
        requires inside { 0 < length self.old.frames.scopes }
        requires ready { L.is_ready load self.old.mapping self.old.graph }
        ensures step { Runs (moment_beside K.moment) (λ a. a)
            (on_load (L.program load self.old.mapping))
            (self.old, keeper.old) result (self.new, keeper.new) }
        ensures kept { IsKept result self.old self.new (K.moment keeper.new) }
        ensures rest { self.new
            ≡ record self.old {
              graph = self.new.graph;
              frames = self.new.frames;
              notes = self.new.notes;
            } }
        ensures scopes { self.new.frames.scopes ≡ self.old.frames.scopes }
        ensures found { IfOk result (L.is_found load self.new.mapping self.new.graph) }
        ensures refuses { IfErr result
            (λ e. (e ≡ Memory) ⊎ L.can_refuse load self.old.mapping self.new.graph e) }
        ensures shown { IfErr result (λ e. (e ≡ Memory) ⊎ IsShownIn
            (L.is_shown load self.old.mapping)
            self.old (K.moment keeper.old) self.new (K.moment keeper.new) e) }
    {
        let mut notes = Notes::new(self.alloc);
        let done = load.take(
            self.alloc,
            &self.mapping,
            &mut self.arena,
            keeper,
            &mut notes,
        );
        let noted = self.take_in(notes);
        match done {
            Ok(answer) => match noted {
                Ok(()) => Ok(answer),
                Err(_full) => Err(Refusal::Memory),
            },
            Err(refusal) => {
                if calls::ends_early(&refusal) {
                    return Err(refusal);
                }
                match noted {
                    Ok(()) => Err(refusal),
                    Err(_full) => Err(Refusal::Memory),
                }
            }
        }
    }

    /// What a load did is touched, and noted. Where memory runs out some may have been touched.
    fn take_in(&mut self, notes: Notes) -> Result<(), AllocError>
        ensures ok { OnOk result (self.new ≡ with_loaded (loading self.old.graph notes) self.old) }
        ensures rest { self.new
            ≡ record self.old { frames = self.new.frames; notes = self.new.notes } }
        ensures scopes { self.new.frames.scopes ≡ self.old.frames.scopes }
    {
        touch_filled(&mut self.frames, &self.arena, notes.as_slice())?;
        append_notes(self.alloc, &mut self.notes, notes)
    }

    /// The cells and links of all objects, to be given back. The only refusal is out of memory.
    pub fn keep(&self) -> Result<KeptObjects, AllocError>
        ensures held { IfOk result (λ kept. kept ≡ held_in self.now.graph) }
        ensures kept { IfOk result
            (λ kept. keeping.IsKeptOf self.now.mapping kept self.now.graph) }
    {
        kept_objects(self.alloc, &self.arena)
    }

    /// Gives objects the cells and links that were kept; those that were made since stay as they are. Nothing is touched, and it takes
    /// no memory.
    pub fn give_back(&mut self, kept: KeptObjects)
        requires { keeping.IsKeptOf self.old.mapping kept self.old.graph }
        ensures given { self.new ≡ keeping.session_given_back kept self.old }
        ensures same { SameObjects self.old self.new }
    {
        give_back(&mut self.arena, kept);
    }

    /// The next add number, which is given now.
    pub fn next_added(&mut self) -> u64
        ensures number { result ≡ one_more self.old.added }
        ensures given { self.new ≡ record self.old { added = one_more self.old.added } }
    {
        self.added = self.added.saturating_add(1);
        self.added
    }

    /// Makes a transient object of a class with these values; its other cells are NULL. It is touched in no scope.
    ///
    /// # Errors
    /// `TypeMismatch` for the first value that is not NULL and of another kind than its attribute, then `LimitReached(Objects)`
    /// where there are 1,000,000 objects, and `Memory`. A refusal changes nothing.
    #[tactic(auto, unfolding(crate::specs::Making::object_made, object_arena::specs::Graph::make))]
    pub fn make(&mut self, class: ClassId, given: &[(AttrNo, Value)]) -> Result<ObjId, Refusal>
        requires class { IsClass self.old.mapping class }
        requires attributes { All
            (λ one. IsAttribute self.old.mapping class one.0) given.now }
        ensures step { IsQuiet
            (λ object. object) (making.object_made class given.now self.old) result self.new }
        ensures err { OnErr result (self.new ≡ self.old) }
        ensures rest { self.new ≡ record self.old { graph = self.new.graph } }
        ensures made { IfOk result (λ object. IsMadeOf self.new.graph object class) }
        ensures stay { AreThereStill self.old.graph self.new.graph }
    {
        if let Some(fault) = first_fault(&self.mapping, class, given) {
            return Err(fault);
        }
        let copy = copy_of(self.alloc, given)?;
        let object = self.arena.make(&self.mapping, class)?;
        put_given(&mut self.arena, &self.mapping, object, copy);
        Ok(object)
    }

    /// Gives a cell a value of its attribute's kind, or NULL, and touches the object in the innermost scope where its record
    /// comes to differ.
    ///
    /// # Errors
    /// `InvalidRequestError(KeyChange)` for a cell of the key of an object with an identity, and it changes nothing. `Memory`, after
    /// which the object may have been touched.
    #[tactic(auto, unfolding(crate::specs::Changes::value_put))]
    pub fn put_value(&mut self, object: ObjId, attr: AttrNo, value: Value) -> Result<(), Refusal>
        requires object { IsObject self.old.graph object }
        requires attr { IsAttribute self.old.mapping (object_at self.old.graph object).class attr }
        requires fits { value_fault self.old.mapping (object_at self.old.graph object) attr value
            ≡ None }
        ensures step { IsQuiet
            (λ u. u) (changes.value_put object attr value self.old) result self.new }
        ensures same { SameObjects self.old self.new }
        ensures scopes { self.new.frames.scopes ≡ self.old.frames.scopes }
    {
        if self.is_kept(object, attr) {
            return Err(Refusal::InvalidRequestError(RequestKind::KeyChange));
        }
        touch_for_value(&mut self.frames, &self.arena, object, attr, &value)?;
        match self.arena.set_cell(&self.mapping, object, attr, value) {
            Ok(()) => Ok(()),
            Err(_full) => Err(Refusal::Memory),
        }
    }

    /// Whether a cell is of the key of an object with an identity.
    fn is_kept(&self, object: ObjId, attr: AttrNo) -> bool
        requires object { IsObject self.now.graph object }
        requires attr { IsAttribute self.now.mapping (object_at self.now.graph object).class attr }
        ensures kept { result
            ≡ changes.is_kept_cell self.now.mapping (object_at self.now.graph object) attr }
        ensures cell { IsCell self.now.graph object attr }
    {
        is_of_kept_key(&self.mapping, self.object(object), attr)
    }

    /// The next flush deletes a persistent object. It is touched in the innermost scope where its record comes to differ.
    ///
    /// # Errors
    /// `InvalidRequestError(NotPersistent)`, which changes nothing. `Memory`, after which the object may have been touched.
    #[tactic(auto, unfolding(crate::specs::Changes::deletion_marked))]
    pub fn mark_deletion(&mut self, object: ObjId) -> Result<(), Refusal>
        requires object { IsObject self.old.graph object }
        ensures step { IsQuiet
            (λ u. u) (changes.deletion_marked object self.old) result self.new }
        ensures same { SameObjects self.old self.new }
        ensures scopes { self.new.frames.scopes ≡ self.old.frames.scopes }
    {
        let record = self.arena.object(object);
        let (added, orphan) = (record.added, record.orphan);
        if let Some(fault) = delete_fault(record) {
            return Err(fault);
        }
        touch_for_mark(&mut self.frames, &self.arena, object)?;
        self.arena.put_marks(object, added, true, orphan);
        Ok(())
    }
}

/// Warnings are noted, in order.
fn note_warnings(notes: &mut Notes, warnings: &[Warning]) -> Result<(), AllocError>
    ensures { OnOk result (notes.new ≡ notes.old ++ map note.Warn warnings.now) }
{
    for warning in warnings {
        notes.push(Note::Warn(*warning))?;
    }
    Ok(())
}

fn is_persistent(state: State) -> bool
    ensures { result ≡ is_persistent state }
{
    matches!(state, State::Persistent)
}

/// Why an object is not deleted.
fn delete_fault(object: &Object) -> Option<Refusal>
    ensures { result ≡ changes.delete_fault object.now }
{
    if !is_persistent(object.state) {
        return Some(Refusal::InvalidRequestError(RequestKind::NotPersistent));
    }
    None
}
