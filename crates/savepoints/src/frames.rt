//! The scopes of a session.

ghost use Rattle.std.specs.Prelude.{◌≡◌, ◌==◌, ◌&&◌, ◌<◌, ◌≤◌, ◌∷◌, ◌-◌, drop, nat_le, length, Err, IfErr, OnOk, OnErr};
ghost use Rattle.std.specs.List.{All};
ghost use Rattle.base_core.specs.Answers.{Takes};
ghost use Rattle.base_core.specs.declared.refusal.Refusal.TheVariants.{Memory};
ghost use Rattle.class_mapping.specs.Mapped.{Mapped};
ghost use Rattle.object_arena.specs.Graph.{IsObject, is_persistent};
ghost use Rattle.object_arena.specs.Fit.{IsFit, KeepsWith};
ghost use Rattle.savepoints.specs.Scopes as spec;

use crate::restoring::{expire_touched, put_back_all};
use crate::scope::{Scope, begun_at};
use crate::traces::{Trace, pad, pass_outward, trace_of};
use base_core::{LimitKind, ObjId, Refusal};
use object_arena::{Arena, Object, State};
use std::alloc::{AllocError, Global};
use std::marker::Model;

/// How many scopes there are at most: the transaction and 64 savepoints.
const SCOPE_LIMIT: usize = 65;

/// The scopes in progress, each with a snapshot of where every object stood at its start, and which objects were touched or
/// loaded inside. Contracts see the list of scopes, the innermost first, and the trace of each object.
pub struct Frames {
    alloc: Global,
    scopes: Vec<Scope>,
    traces: Vec<Trace>,
}

impl Drop for Frames {
    fn drop(self) {
        let Frames {
            alloc: _,
            scopes: _,
            traces: _,
        } = self;
    }
}

impl Model for Frames {
    ghost use Rattle.savepoints.specs.Scopes.{Framed, IsFrames};

    ghost Value = { Framed };

    ghost view = { λ f. record { scopes = f.scopes.items; traces = f.traces.items } };

    ghost invariant = { λ f. IsFrames f.scopes.items };
}

impl Frames {
    /// No scope.
    pub fn new(alloc: Global) -> Frames
        ensures { result ≡ spec.no_frames }
    {
        Frames {
            alloc,
            scopes: Vec::new(alloc),
            traces: Vec::new(alloc),
        }
    }

    /// How many scopes are in progress.
    pub fn depth(&self) -> u32
        ensures depth { result ≡ length self.now.scopes }
        ensures few { length self.now.scopes ≤ spec.scope_limit }
    {
        self.scopes.len() as u32
    }

    /// One more scope starts, with the objects as they stand now.
    ///
    /// # Errors
    /// `LimitReached(Savepoints)` where 64 savepoints are open; `Memory` where there are fewer. A refusal changes nothing.
    #[tactic(auto, unfolding(crate::specs::Scopes::push))]
    pub fn push(&mut self, arena: &Arena) -> Result<(), Refusal>
        ensures step { Takes (λ _. tt) (spec.push arena.now self.old) self.old result self.new }
        ensures pushed { OnOk result
            (self.new ≡ record self.old { scopes = spec.begun_at arena.now ∷ self.old.scopes }) }
        ensures cause { length self.old.scopes < spec.scope_limit → IfErr result (λ e. e ≡ Memory) }
        ensures room { result ≡ Err Memory → length self.old.scopes < spec.scope_limit }
        ensures keys { (mapped : Mapped) → IsFit mapped arena.now
            → All (spec.HasKeys mapped arena.now) self.old.scopes
            → All (spec.HasKeys mapped arena.now) self.new.scopes }
    {
        if self.scopes.len() >= SCOPE_LIMIT {
            return Err(Refusal::LimitReached(LimitKind::Savepoints));
        }
        Ok(self.start(arena)?)
    }

    /// One more scope starts where there is room for it, with the objects as they stand now. Where memory runs out nothing changes.
    pub fn start(&mut self, arena: &Arena) -> Result<(), AllocError>
        requires room { length self.old.scopes < spec.scope_limit }
        ensures ok { OnOk result
            (self.new ≡ record self.old { scopes = spec.begun_at arena.now ∷ self.old.scopes }) }
        ensures err { OnErr result (self.new ≡ self.old) }
        ensures keys { (mapped : Mapped) → IsFit mapped arena.now
            → All (spec.HasKeys mapped arena.now) self.old.scopes
            → All (spec.HasKeys mapped arena.now) self.new.scopes }
    {
        let scope = begun_at(self.alloc, arena)?;
        self.scopes.insert(0, scope)?;
        Ok(())
    }

    /// An object is touched in the innermost scope. Where it was made since the transaction began, was not touched since, and
    /// is persistent, a load made it. Where no scope is in progress nothing happens. The only refusal is out of memory, and
    /// it changes nothing.
    #[tactic(auto, using(crate::proofs::TraceLemmas::touch_is), unfolding(crate::specs::Scopes::touch))]
    pub fn touch(&mut self, arena: &Arena, object: ObjId) -> Result<(), AllocError>
        requires { IsObject arena.now object }
        ensures ok { OnOk result (self.new ≡ spec.touch arena.now object self.old) }
        ensures err { OnErr result (self.new ≡ self.old) }
    {
        if self.scopes.is_empty() {
            return Ok(());
        }
        let place = object.0 as usize - 1;
        let trace = self.touched_trace(place, arena.object(object));
        pad(&mut self.traces, object.0 - 1)?;
        self.traces[place] = trace;
        Ok(())
    }

    /// The trace of an object that is touched now.
    fn touched_trace(&self, place: usize, object: &Object) -> Trace
        requires { 0 < length self.now.scopes }
        ensures { result ≡ spec.touched_trace self.now place object.now }
    {
        let old = trace_of(self.traces.as_slice(), place);
        Trace {
            depth: self.depth(),
            loaded: old.loaded
                || (is_persistent(object.state) && (old.depth == 0 && self.is_new(place))),
        }
    }

    /// Whether the object at a place was made since the transaction began.
    fn is_new(&self, place: usize) -> bool
        requires { 0 < length self.now.scopes }
        ensures { result ≡ nat_le (length (spec.scope_at 1 self.now.scopes).standings) place }
    {
        self.scopes[self.scopes.len() - 1].standings.len() <= place
    }

    /// The innermost scope ends, and what was done inside stays.
    #[tactic(auto, unfolding(crate::specs::Scopes::scope_released))]
    pub fn release(&mut self)
        requires { 0 < length self.old.scopes }
        ensures released { self.new ≡ spec.scope_released self.old }
        ensures scopes { self.new.scopes ≡ drop 1 self.old.scopes }
    {
        self.scopes.remove(0);
        let depth = self.depth();
        pass_outward(&mut self.traces, depth);
    }

    /// All scopes end, and what was done inside stays.
    pub fn clear(&mut self)
        ensures { self.new ≡ spec.no_frames }
    {
        self.scopes.clear();
        self.traces.clear();
    }

    /// Every object stands again where it stood at the start of the scope at a depth, without a delete mark; the
    /// transaction is at depth 1. One that a load made since is persistent, any other one made since is transient. Of
    /// several that would be persistent under one identity the least number is. The persistent objects that were touched
    /// inside are expired, and after the transaction's rollback all of them. The scope and those inside it end. Takes no
    /// memory.
    #[tactic(auto, unfolding(crate::specs::Scopes::restored_graph, crate::specs::Scopes::around))]
    pub fn restore(&mut self, arena: &mut Arena, depth: u32)
        requires depth { (1 ≤ depth) × (depth ≤ length self.old.scopes) }
        ensures restored { arena.new ≡ spec.restored_graph depth self.old arena.old }
        ensures scopes { self.new ≡ spec.around depth self.old }
        ensures keeps { KeepsWith
            (λ mapped. spec.HasKeys mapped arena.old (spec.scope_at depth self.old.scopes))
            arena.old arena.new }
    {
        let scope = self.end(depth);
        put_back_all(arena, scope, self.traces.as_slice());
        expire_touched(arena, depth, self.traces.as_slice());
        pass_outward(&mut self.traces, depth - 1);
    }

    /// The scope at a depth ends with those inside it, and is answered.
    #[tactic(auto, using(crate::proofs::ScopeLemmas::ended))]
    fn end(&mut self, depth: u32) -> Scope
        requires depth { (1 ≤ depth) × (depth ≤ length self.old.scopes) }
        ensures scope { result ≡ spec.scope_at depth self.old.scopes }
        ensures sound { All spec.IsStanding result.standings }
        ensures scopes { self.new
            ≡ record self.old {
              scopes = drop
                  (length self.old.scopes - (depth - 1)) self.old.scopes;
            } }
    {
        let inside = self.scopes.len() - depth as usize;
        for _ended in 0..inside {
            self.scopes.remove(0);
        }
        self.scopes.remove(0)
    }
}

/// Whether the savepoint at a place, the innermost one at 0, has gone already: it was rolled back for a flush that failed.
pub fn has_gone(failed: bool, place: usize) -> bool
    ensures { result ≡ (failed && (place == 0)) }
{
    failed && place == 0
}

/// Whether a state is that of a persistent object.
fn is_persistent(state: State) -> bool
    ensures { result ≡ is_persistent state }
{
    match state {
        State::Persistent => true,
        State::Transient | State::Pending | State::Deleted | State::Detached => false,
    }
}
