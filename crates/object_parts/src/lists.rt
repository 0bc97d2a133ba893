//! What is asked for in batches, and objects each once. The only refusal is `Memory`.

ghost use Rattle.std.specs.Prelude.{◌≡◌, ◌==◌, ◌||◌, IfOk, OnOk};
ghost use Rattle.std.specs.BTreeSet.{contains};
ghost use Rattle.std.specs.Ordering.{nat_cmp};
ghost use Rattle.base_core.specs.declared.ids.ObjId.{ObjId};
ghost use Rattle.object_parts.specs.Lists as spec;

use base_core::{ListOf, ObjId, ObjList};
use class_layouts::number_of;
use std::alloc::{AllocError, Global};
use std::collections::BTreeSet;

/// How many keys one select has at most.
const BATCH: usize = 500;

/// Where the batches of so many begin.
#[tactic(auto, using(crate::proofs::Batches::batch_steps))]
pub fn batch_starts(alloc: Global, count: usize) -> Result<Vec<usize>, AllocError>
    ensures { IfOk result (λ starts. starts.items ≡ spec.batch_starts count) }
{
    let mut starts = Vec::new(alloc);
    let batches = number_of((number_of(count)? as usize + 499) / BATCH)?;
    for number in 0..batches {
        starts.push(BATCH * number as usize)?;
    }
    Ok(starts)
}

/// The number of an object is in a set.
fn enter(seen: &mut BTreeSet<u32>, object: ObjId) -> Result<(), AllocError>
    ensures { OnOk result ((other : ObjId) → contains nat_cmp seen.new other.0
        ≡ (object.0 == other.0 || contains nat_cmp seen.old other.0)) }
{
    seen.insert(object.0)?;
    Ok(())
}

/// An object goes behind others, unless it is among them. A set has their numbers.
fn keep_first(seen: &mut BTreeSet<u32>, kept: &mut ObjList, object: ObjId) -> Result<(), AllocError>
    requires { spec.HasSeen seen.old kept.old }
    ensures kept { OnOk result (kept.new ≡ spec.with_first kept.old object) }
    ensures seen { OnOk result (spec.HasSeen seen.new kept.new) }
{
    if seen.contains(&object.0) {
        return Ok(());
    }
    enter(seen, object)?;
    kept.push(object)
}

/// Objects where each comes first. An ordered set has their numbers, so that the time grows little faster than how many they
/// are.
#[tactic(auto, using(class_layouts::proofs::Steps::steps), unfolding(crate::specs::Lists::firsts))]
pub fn firsts(alloc: Global, objects: &[ObjId]) -> Result<ObjList, AllocError>
    ensures { IfOk result (λ kept. kept ≡ spec.firsts objects.now) }
{
    let mut seen = BTreeSet::new(alloc);
    let mut kept = ListOf::new(alloc);
    for object in objects {
        keep_first(&mut seen, &mut kept, *object)?;
    }
    Ok(kept)
}
