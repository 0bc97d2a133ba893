//! The members of several collections. Each of these functions does nothing when it runs.

ghost use Rattle.std.specs.Prelude.{◌≡◌, ◌<◌, List, true, length};
ghost use Rattle.std.specs.List.{All, AllByRecursion};
ghost use Rattle.base_core.specs.declared.value.Value.{Value};
ghost use Rattle.schema_core.specs.WellFormed.{is_key};
ghost use Rattle.sql_semantics.specs.Plain.{IsPlainSelect};
ghost use Rattle.sql_semantics.specs.Shapes.{AreGiven, AreOfItems};
ghost use Rattle.class_types.specs.declared.mapped.Relation.{Relation};
ghost use Rattle.class_mapping.specs.Mapped.{Mapped, root_spec};
ghost use Rattle.class_mapping.specs.Related.{IsRelated};
ghost use Rattle.mapping_laws.specs.Hierarchies.{HasHierarchies};
ghost use Rattle.collection_selects.specs.Collections.{batch_select};
ghost use Rattle.collection_selects.specs.Pairs.{IsMemberRow};

/// A keeper may be sent the select of the members of the collections of several owners, each of a key of its root's table: it is
/// plain.
pub fn all_batches_are_plain()
    ensures { (mapped : Mapped) (relation : Relation) (keys : List (List Value))
        → HasHierarchies mapped → IsRelated mapped relation → relation.many ≡ true
        → 0 < length keys
        → All (λ key. is_key (root_spec mapped relation.class) key ≡ true) keys
        → IsPlainSelect mapped.schema (batch_select mapped relation keys) }
{}

/// What a keeper answers to such a select, over legal tables, are rows of the target: behind the key of the owner where there is a
/// secondary table, from the first value on where there is none.
pub fn rows_are_of_members()
    ensures { (mapped : Mapped) (relation : Relation) (keys : List (List Value))
        (rows : List (List Value)) → HasHierarchies mapped → IsRelated mapped relation
        → AreOfItems mapped.schema (batch_select mapped relation keys) rows
        → AreGiven mapped.schema (batch_select mapped relation keys) rows
        → AllByRecursion (IsMemberRow mapped relation) rows }
{}
