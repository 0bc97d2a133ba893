//! The relationships of a session's objects.

ghost use Rattle.std.specs.Prelude.{◌≡◌, ◌<◌, length};
ghost use Rattle.class_mapping.specs.Mapped.{relations_of};
ghost use Rattle.object_arena.specs.Fit.{relation_of};
ghost use Rattle.object_arena.specs.Graph.{IsObject, object_at};

use base_core::{ObjId, RelNo};
use class_mapping::Relation;
use session_scopes::Session;

/// The relationship at a place of an object's class.
pub(crate) fn relation_at(session: &Session, object: ObjId, relation: RelNo) -> &Relation
    requires object { IsObject session.now.graph object }
    requires relation { relation.0
        < length (relations_of session.now.mapping (object_at session.now.graph object).class) }
    ensures { result.now
        ≡ relation_of session.now.mapping (object_at session.now.graph object).class relation }
{
    let class = session.object(object).class;
    &session.mapping().relations(class)[relation.0 as usize]
}
