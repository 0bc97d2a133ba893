//! The handles of the savepoints in progress.

ghost use Rattle.std.specs.Prelude.{◌≡◌, ◌<◌, ◌≤◌, ◌+◌, drop, length, IfOk, IfSome, OnErr, OnOk};
ghost use Rattle.session_scopes.specs.Handles as spec;

use std::alloc::{AllocError, Global};
use std::marker::Model;

/// The handles of the savepoints in progress. Contracts see them with the innermost first, and how many were drawn.
#[derive(Drop)]
pub struct Handles {
    /// The innermost first.
    handles: Vec<u32>,
    drawn: u32,
}

impl Model for Handles {
    ghost use Rattle.session_scopes.specs.Handles.{Drawn, IsFalling};

    ghost Value = { Drawn };

    ghost view = { λ h. record { handles = h.handles.items; drawn = h.drawn } };

    ghost invariant = { λ h. IsFalling h.drawn h.handles.items };
}

impl Handles {
    /// No handle was drawn.
    pub fn new(alloc: Global) -> Handles
        ensures { result ≡ spec.no_handles }
    {
        Handles {
            handles: Vec::new(alloc),
            drawn: 0,
        }
    }

    /// How many savepoints are in progress.
    pub fn len(&self) -> usize
        ensures { result ≡ length self.now.handles }
    {
        self.handles.len()
    }

    /// How many handles were drawn. Those of the savepoints in progress are among them.
    pub fn drawn(&self) -> u32
        ensures drawn { result ≡ self.now.drawn }
        ensures falling { spec.IsFalling self.now.drawn self.now.handles }
    {
        self.drawn
    }

    /// Draws the next handle, of a savepoint inside those in progress. Numbers past 32 bits are refused as for want of memory;
    /// a refusal changes nothing.
    #[tactic(auto, using(crate::proofs::Falling::falling))]
    pub fn draw(&mut self) -> Result<u32, AllocError>
        ensures ok { OnOk result (self.new ≡ spec.with_next_handle self.old) }
        ensures handle { IfOk result (λ handle. handle ≡ self.old.drawn + 1) }
        ensures err { OnErr result (self.new ≡ self.old) }
    {
        let Some(next) = self.drawn.checked_add(1) else {
            return Err(AllocError);
        };
        self.handles.insert(0, next)?;
        self.drawn = next;
        Ok(next)
    }

    /// The place of a handle among those in progress, the innermost at 0.
    pub fn place_of(&self, handle: u32) -> Option<usize>
        ensures place { result ≡ spec.place_of_handle self.now handle }
        ensures inside { IfSome result (λ place. place < length self.now.handles) }
    {
        self.handles.iter().position(|other| *other == handle)
    }

    /// So many of the innermost savepoints end. Takes no memory.
    #[tactic(auto, using(crate::proofs::Falling::falling))]
    pub fn end(&mut self, count: usize)
        requires { count ≤ length self.old.handles }
        ensures { self.new ≡ spec.without_innermost count self.old }
    {
        leave_out(&mut self.handles, count);
    }
}

/// The list without so many at its front.
fn leave_out(handles: &mut Vec<u32>, count: usize)
    requires { count ≤ length handles.old.items }
    ensures { handles.new.items ≡ drop count handles.old.items }
{
    for _ in 0..count {
        let _ended = handles.remove(0);
    }
}
