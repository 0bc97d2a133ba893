//! Links and orphan marks that are put in one by one.

ghost use Rattle.std.specs.Prelude.{◌≡◌, Some, OnOk};
ghost use Rattle.class_mapping.specs.Mapped.{Mapped};
ghost use Rattle.object_arena.specs.Every.{classes_of};
ghost use Rattle.object_arena.specs.Fit.{IsFit};
ghost use Rattle.object_arena.specs.Graph.{IsObject};
ghost use Rattle.relations.specs.Fits.{ChangeFits, PutFits};
ghost use Rattle.relations.specs.Mirror.{with_orphan, with_put};
ghost use Rattle.relations.specs.Places.{IsPlaced, IsPutIn};
ghost use Rattle.session_scopes.specs.SessionState.{SameObjects};
ghost use Rattle.object_records.specs.Touched.{frames_touched_between};
ghost use Rattle.session_links.specs.Linking as spec;
ghost use Rattle.session_links.specs.Relinked.{IsRelinked};

use base_core::ObjId;
use class_mapping::Mapping;
use object_arena::Arena;
use object_records::{touch_for_link, touch_for_orphan};
use relations::{Change, LinkPut};
use savepoints::Frames;
use session_scopes::{ObjectStep, Session};
use std::alloc::AllocError;

/// A link is put in the place of another.
#[derive(Drop)]
struct PutLink {
    put: LinkPut,
}

impl ObjectStep for PutLink {
    ghost use Rattle.std.specs.Prelude.{Some};
    ghost use Rattle.object_arena.specs.Graph.{with_link};
    ghost use Rattle.relations.specs.Fits.{PutFits};
    ghost use Rattle.relations.specs.Places.{IsPutIn};

    ghost is_ready = { λ step mapped graph. IsPutIn graph (Some step.put) × PutFits mapped graph (Some step.put) };

    ghost after = { λ step mapped graph. with_link graph step.put.object step.put.relation step.put.link };

    fn take(
        self,
        mapping: &Mapping,
        arena: &mut Arena,
        frames: &mut Frames,
    ) -> Result<(), AllocError> {
        put_in(arena, frames, self.put)
    }
}

/// An object is an orphan then or is none.
#[derive(Drop)]
struct PutOrphan {
    object: ObjId,
    orphan: bool,
}

impl ObjectStep for PutOrphan {
    ghost use Rattle.std.specs.Prelude.{Some};
    ghost use Rattle.object_arena.specs.Graph.{IsObject};
    ghost use Rattle.relations.specs.Mirror.{with_orphan};

    ghost is_ready = { λ step mapped graph. IsObject graph step.object };

    ghost after = { λ step mapped graph. with_orphan graph step.object (Some step.orphan) };

    fn take(
        self,
        mapping: &Mapping,
        arena: &mut Arena,
        frames: &mut Frames,
    ) -> Result<(), AllocError> {
        let PutOrphan { object, orphan } = self;
        mark_orphan(arena, frames, object, orphan)
    }
}

/// A link is put in the place of another; its object is touched where it comes to differ.
fn put_in(arena: &mut Arena, frames: &mut Frames, put: LinkPut) -> Result<(), AllocError>
    requires { IsPutIn arena.old (Some put) }
    ensures ok { OnOk result (arena.new ≡ with_put arena.old (Some put)) }
    ensures touched { OnOk result (frames.new
        ≡ frames_touched_between arena.old arena.new frames.old) }
    ensures keeps { (mapped : Mapped) → PutFits mapped arena.old (Some put)
        → IsFit mapped arena.old → IsFit mapped arena.new }
    ensures classes { classes_of arena.new ≡ classes_of arena.old }
    ensures scopes { frames.new.scopes ≡ frames.old.scopes }
{
    touch_for_link(frames, arena, put.object, put.relation, &put.link)?;
    relations::put_link(arena, put);
    Ok(())
}

/// An object is an orphan then or is none; it is touched where that changes.
fn mark_orphan(
    arena: &mut Arena,
    frames: &mut Frames,
    object: ObjId,
    orphan: bool,
) -> Result<(), AllocError>
    requires { IsObject arena.old object }
    ensures ok { OnOk result (arena.new ≡ with_orphan arena.old object (Some orphan)) }
    ensures touched { OnOk result (frames.new
        ≡ frames_touched_between arena.old arena.new frames.old) }
    ensures keeps { (mapped : Mapped) → IsFit mapped arena.old → IsFit mapped arena.new }
    ensures classes { classes_of arena.new ≡ classes_of arena.old }
    ensures scopes { frames.new.scopes ≡ frames.old.scopes }
{
    touch_for_orphan(frames, arena, object, orphan)?;
    relations::put_orphan(arena, object, orphan);
    Ok(())
}

/// Links change one after another, and a child is an orphan then or is none.
pub(crate) fn put_change(
    session: &mut Session,
    child: ObjId,
    change: Change,
) -> Result<(), AllocError>
    requires child { IsObject session.old.graph child }
    requires placed { IsPlaced session.old.graph change }
    requires fits { ChangeFits session.old.mapping session.old.graph change }
    ensures ok { OnOk result (session.new ≡ spec.session_linked child change session.old) }
    ensures relinked { OnOk result (IsRelinked session.old.graph session.new.graph) }
    ensures same { SameObjects session.old session.new }
    ensures scopes { session.new.frames.scopes ≡ session.old.frames.scopes }
{
    let Change {
        left,
        joined,
        own,
        orphan,
    } = change;
    put_orphan(session, child, orphan)?;
    put_link(session, left)?;
    put_link(session, joined)?;
    put_link(session, own)
}

/// A link is put in, if there is one.
fn put_link(session: &mut Session, put: Option<LinkPut>) -> Result<(), AllocError>
    requires placed { IsPutIn session.old.graph put }
    requires fits { PutFits session.old.mapping session.old.graph put }
    ensures ok { OnOk result (session.new ≡ spec.session_put put session.old) }
    ensures relinked { OnOk result (IsRelinked session.old.graph session.new.graph) }
    ensures same { SameObjects session.old session.new }
    ensures scopes { session.new.frames.scopes ≡ session.old.frames.scopes }
{
    match put {
        None => Ok(()),
        Some(put) => session.step(PutLink { put }),
    }
}

/// An object is an orphan then or is none, where that changes.
fn put_orphan(session: &mut Session, object: ObjId, orphan: Option<bool>) -> Result<(), AllocError>
    requires { IsObject session.old.graph object }
    ensures ok { OnOk result (session.new ≡ spec.session_orphaned object orphan session.old) }
    ensures relinked { OnOk result (IsRelinked session.old.graph session.new.graph) }
    ensures same { SameObjects session.old session.new }
    ensures scopes { session.new.frames.scopes ≡ session.old.frames.scopes }
{
    match orphan {
        None => Ok(()),
        Some(orphan) => session.step(PutOrphan { object, orphan }),
    }
}
