//! The selects of the members of collections. Each of these functions does nothing when it runs.

ghost use Rattle.std.specs.Prelude.{◌≡◌, ◌<◌, List, None, true, length};
ghost use Rattle.std.specs.List.{All};
ghost use Rattle.base_core.specs.declared.value.Value.{Value};
ghost use Rattle.schema_core.specs.WellFormed.{is_key};
ghost use Rattle.sql_semantics.specs.Plain.{IsPlainSelect};
ghost use Rattle.class_types.specs.declared.mapped.Relation.{Relation};
ghost use Rattle.class_mapping.specs.Mapped.{Mapped, root_spec};
ghost use Rattle.class_mapping.specs.Related.{IsRelated};
ghost use Rattle.mapping_laws.specs.Hierarchies.{HasHierarchies};
ghost use Rattle.collection_selects.specs.Collections.{batch_select, members_select};

/// A keeper may be sent the select of the members of a collection, of an owner of a key of its root's table: it is plain.
pub fn members_selects_are_plain()
    ensures { (mapped : Mapped) (relation : Relation) (key : List Value) → HasHierarchies mapped
        → IsRelated mapped relation → relation.many ≡ true
        → is_key (root_spec mapped relation.class) key ≡ true
        → IsPlainSelect mapped.schema (members_select mapped relation key) }
{}

/// It may be sent the select of the members of the one-to-many collections of several such owners.
pub fn batch_selects_are_plain()
    ensures { (mapped : Mapped) (relation : Relation) (keys : List (List Value))
        → HasHierarchies mapped → IsRelated mapped relation → relation.many ≡ true
        → relation.far ≡ None → 0 < length keys
        → All (λ key. is_key (root_spec mapped relation.class) key ≡ true) keys
        → IsPlainSelect mapped.schema (batch_select mapped relation keys) }
{}
