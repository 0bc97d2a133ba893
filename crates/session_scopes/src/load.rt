//! Loads of a session's objects.

ghost use Rattle.std.specs.Prelude.{◌≡◌, ◌≤◌, ◌++◌, [], true, IfErr, IfOk, OnOk};
ghost use Rattle.base_core.specs.declared.refusal.Refusal.{Refusal};
ghost use Rattle.class_mapping.specs.Mapped.{Mapped};
ghost use Rattle.keeper_core.specs.Beside.{Beside, moment_beside};
ghost use Rattle.keeper_core.specs.Moment.{Moment, Runs};
ghost use Rattle.keeper_core.specs.Programs.{Run};
ghost use Rattle.keeper_core.specs.Store.{Store};
ghost use Rattle.load_filling.specs.Growing.{Grows};
ghost use Rattle.load_rows.specs.Loading.{Loading, loading};
ghost use Rattle.object_arena.specs.Fit.{IsFit};
ghost use Rattle.object_arena.specs.Graph.{Graph};
ghost use Rattle.object_records.specs.Touched.{frames_with_touched};
ghost use Rattle.session_parts.specs.Depths.{StaysAt};
ghost use Rattle.session_scopes.specs.Loads.{filled_in, frames_filled};

use base_core::Refusal;
use class_mapping::Mapping;
use keeper_core::{Keeper, Note, Notes};
use object_arena::Arena;
use savepoints::Frames;
use std::alloc::{AllocError, Global};
use std::mem;

/// A load of a session's objects, over any keeper. A session makes it by `Session::load`.
pub trait ObjectLoad {
    /// What it answers.
    type Answer: Drop;

    /// Of which objects it may be made.
    ghost is_ready: { Self → Mapped → Graph → Type 0 };

    /// What it does to the objects and the store.
    ghost program: { Self → Mapped → Beside Loading → Run (Beside Loading) Self.Answer };

    /// What is so of its answer.
    ghost is_found: { Self → Mapped → Graph → Self.Answer → Type 0 };

    /// What it may refuse, by the objects then.
    ghost can_refuse: { Self → Mapped → Graph → Refusal → Type 0 };

    /// What is so of a refusal: the objects, the notes and the keeper before, and then.
    ghost is_shown: { Self → Mapped → Loading × Moment Store → Loading × Moment Store → Refusal → Type 0 };

    /// Loads. What it sends is noted, and each object that it makes or fills, also where it is refused then.
    fn take<K: Keeper>(
        self,
        alloc: Global,
        mapping: &Mapping,
        arena: &mut Arena,
        keeper: &mut K,
        notes: &mut Notes,
    ) -> Result<Self::Answer, Refusal>
        requires fit { IsFit mapping.now arena.old }
        requires ready { is_ready self mapping.now arena.old }
        requires attached { (K.moment keeper.old).attached ≡ true }
        requires inside { 1 ≤ (K.moment keeper.old).depth }
        requires new { notes.old ≡ [] }
        ensures step { Runs (moment_beside K.moment) (λ a. a) (program self mapping.now)
            (loading arena.old notes.old, keeper.old) result
            (loading arena.new notes.new, keeper.new) }
        ensures depth { StaysAt result (K.moment keeper.old).depth (K.moment keeper.new) }
        ensures grows { Grows arena.old arena.new }
        ensures fits { IsFit mapping.now arena.new }
        ensures found { IfOk result (is_found self mapping.now arena.new) }
        ensures refuses { IfErr result (can_refuse self mapping.now arena.new) }
        ensures shown { IfErr result (is_shown self mapping.now
            (loading arena.old notes.old, K.moment keeper.old)
            (loading arena.new notes.new, K.moment keeper.new)) };
}

/// Touches each object that was made or filled, as it stands now. Where memory runs out, or a note names no object, some may have
/// been touched.
pub(crate) fn touch_filled(
    frames: &mut Frames,
    arena: &Arena,
    notes: &[Note],
) -> Result<(), AllocError>
    ensures ok { OnOk result (frames.new ≡ frames_filled arena.now notes.now frames.old) }
    ensures scopes { frames.new.scopes ≡ frames.old.scopes }
{
    for note in notes {
        touch_noted(frames, arena, note)?;
    }
    Ok(())
}

/// Touches the object that a note tells to be filled.
#[tactic(auto, using(object_records::proofs::Scopes::kept_scopes))]
fn touch_noted(frames: &mut Frames, arena: &Arena, note: &Note) -> Result<(), AllocError>
    ensures ok { OnOk result
        (frames.new ≡ frames_with_touched arena.now (filled_in note.now) frames.old) }
    ensures scopes { frames.new.scopes ≡ frames.old.scopes }
{
    match note {
        Note::Sent(_) | Note::Warn(_) => Ok(()),
        Note::Filled(object) => {
            if object.0 == 0 || object.0 > arena.count() {
                return Err(AllocError);
            }
            frames.touch(arena, *object)
        }
    }
}

/// Notes go behind others.
pub(crate) fn append_notes(alloc: Global, notes: &mut Notes, more: Notes) -> Result<(), AllocError>
    ensures { OnOk result (notes.new ≡ notes.old ++ more) }
{
    let mut items = mem::replace(notes, Notes::new(alloc)).into_vec();
    let mut more = more.into_vec();
    let moved = items.append(&mut more);
    *notes = Notes::from_vec(items);
    moved
}
