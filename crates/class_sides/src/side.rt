//! The declared relationships: where each leads, and which keys can serve it.

ghost use Rattle.std.specs.Prelude.{◌≡◌, ◌++◌, [], ◌∷◌, IfOk, OnOk};
ghost use Rattle.class_sides.specs.Sides.{side_of, sides_at, sides_of, target_of};

use crate::candidates::candidates_of;
use crate::ends::ends_of;
use base_core::{ClassId, Copied, ListOf};
use class_blocks::Side;
use class_layouts::{Classes, Layout, number_of, place_of};
use class_types::{ClassSpec, RelationSpec};
use schema_core::Schema;
use std::alloc::{AllocError, Global};

/// The class to which a relationship leads, if it is declared.
fn target_of(specs: &[ClassSpec], relation: &RelationSpec) -> Result<Option<ClassId>, AllocError>
    ensures { IfOk result (λ target. target ≡ target_of specs.now relation.now) }
{
    match place_of(specs, &relation.target) {
        Some(place) => Ok(Some(ClassId(number_of(place)?))),
        None => Ok(None),
    }
}

/// A relationship of the block of the class of a number goes behind others.
fn push_side(
    all: &mut ListOf<Side>,
    alloc: Global,
    schema: &Schema,
    classes: &Classes,
    layouts: &[Layout],
    class: usize,
    relation: &RelationSpec,
) -> Result<(), AllocError>
    ensures { OnOk result (all.new ≡ all.old
        ++ side_of schema.now.tables classes.now layouts.now class relation.now ∷ []) }
{
    let specs = classes.specs.as_slice();
    let class = ClassId(number_of(class)?);
    let target = target_of(specs, relation)?;
    let candidates = candidates_of(alloc, schema, layouts, relation, Some(class), target)?;
    let spec = relation.copied()?;
    all.push(Side {
        class,
        spec,
        target,
        candidates,
        ends: ends_of(
            schema,
            specs,
            layouts,
            &relation.secondary,
            Some(class),
            target,
        ),
    })
}

#[tactic(auto, using(class_layouts::proofs::Steps::steps))]
/// The relationships of the block of a class go behind others.
fn push_sides(
    all: &mut ListOf<Side>,
    alloc: Global,
    schema: &Schema,
    classes: &Classes,
    layouts: &[Layout],
    class: usize,
    spec: &ClassSpec,
) -> Result<(), AllocError>
    ensures { OnOk result (all.new
        ≡ all.old ++ sides_at schema.now.tables classes.now layouts.now (class, spec.now)) }
{
    for relation in spec.relations.as_slice() {
        push_side(all, alloc, schema, classes, layouts, class, relation)?;
    }
    Ok(())
}

#[tactic(auto, using(class_layouts::proofs::Steps::steps))]
/// All declared relationships, in order of declaration.
pub fn sides_of(
    alloc: Global,
    schema: &Schema,
    classes: &Classes,
    layouts: &[Layout],
) -> Result<ListOf<Side>, AllocError>
    ensures { IfOk result (λ all. all ≡ sides_of schema.now.tables classes.now layouts.now) }
{
    let specs = classes.specs.as_slice();
    let mut all = ListOf::new(alloc);
    for (class, spec) in specs.iter().enumerate() {
        push_sides(&mut all, alloc, schema, classes, layouts, class, spec)?;
    }
    Ok(all)
}
