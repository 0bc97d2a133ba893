//! Owners whose links are to be read.

ghost use Rattle.std.specs.Prelude.{◌≡◌, ◌++◌, IfOk, OnOk};
ghost use Rattle.std.specs.List.{All};
ghost use Rattle.object_arena.specs.Graph.{IsObject};
ghost use Rattle.load_ends.specs.Ends as spec;

use base_core::{ListOf, ObjId, ObjList, RelNo};
use load_batches::is_unloaded;
use object_arena::Arena;
use std::alloc::{AllocError, Global};

/// An owner goes behind others, where its link at a place is unloaded.
fn push_unloaded(
    out: &mut ObjList,
    arena: &Arena,
    place: RelNo,
    owner: ObjId,
) -> Result<(), AllocError>
    requires { IsObject arena.now owner }
    ensures { OnOk result (out.new ≡ out.old ++ spec.if_unloaded arena.now place owner) }
{
    if !is_unloaded(arena.object(owner), place) {
        return Ok(());
    }
    out.push(owner)
}

/// The owners whose link at a place is unloaded.
#[tactic(auto, using(class_layouts::proofs::Steps::steps), unfolding(crate::specs::Ends::unloaded))]
pub(crate) fn unloaded(
    alloc: Global,
    arena: &Arena,
    place: RelNo,
    owners: &[ObjId],
) -> Result<ObjList, AllocError>
    requires { All (IsObject arena.now) owners.now }
    ensures { IfOk result (λ found. found ≡ spec.unloaded arena.now place owners.now) }
{
    let mut found = ListOf::new(alloc);
    for owner in owners {
        push_unloaded(&mut found, arena, place, *owner)?;
    }
    Ok(found)
}
