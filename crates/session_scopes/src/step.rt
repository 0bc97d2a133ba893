//! Changes of a session's objects that crates above make.

ghost use Rattle.std.specs.Prelude.{◌≡◌, OnOk};
ghost use Rattle.class_mapping.specs.Mapped.{Mapped};
ghost use Rattle.object_arena.specs.Graph.{Graph};
ghost use Rattle.object_arena.specs.Every.{classes_of};
ghost use Rattle.object_arena.specs.Fit.{IsFit};
ghost use Rattle.object_records.specs.Touched.{frames_touched_between};

use class_mapping::Mapping;
use object_arena::Arena;
use savepoints::Frames;
use std::alloc::AllocError;

/// A change of a session's objects, which touches in the innermost scope each object whose record comes to differ. A session
/// makes it by `Session::step`.
pub trait ObjectStep {
    /// Of which objects it may be made.
    ghost is_ready: { Self → Mapped → Graph → Type 0 };

    /// The objects after it.
    ghost after: { Self → Mapped → Graph → Graph };

    /// Changes the objects, each in its class, and touches those that come to differ, as they were.
    fn take(
        self,
        mapping: &Mapping,
        arena: &mut Arena,
        frames: &mut Frames,
    ) -> Result<(), AllocError>
        requires fit { IsFit mapping.now arena.old }
        requires ready { is_ready self mapping.now arena.old }
        ensures objects { OnOk result (arena.new ≡ after self mapping.now arena.old) }
        ensures touched { OnOk result (frames.new
            ≡ frames_touched_between arena.old arena.new frames.old) }
        ensures fits { IsFit mapping.now arena.new }
        ensures classes { classes_of arena.new ≡ classes_of arena.old }
        ensures scopes { frames.new.scopes ≡ frames.old.scopes };
}
