//! The selects of the rows of a class, of whatever form. Each of these functions does nothing when it runs.

ghost use Rattle.std.specs.Prelude.{◌≡◌, ◌<◌, List, true, length};
ghost use Rattle.std.specs.List.{All};
ghost use Rattle.base_core.specs.declared.ids.AttrNo.{AttrNo};
ghost use Rattle.base_core.specs.declared.ids.ClassId.{ClassId};
ghost use Rattle.base_core.specs.declared.value.Value.{Value};
ghost use Rattle.schema_core.specs.WellFormed.{is_key};
ghost use Rattle.sql_semantics.specs.Plain.{IsPlainSelect};
ghost use Rattle.class_mapping.specs.Mapped.{IsAttribute, IsClass, Mapped, root_spec};
ghost use Rattle.mapping_laws.specs.Hierarchies.{HasHierarchies};
ghost use Rattle.load_selects.specs.Selects.{cells_select, key_select, targets_select};

/// A keeper may be sent the select of the row of a class under a key of its root's table: it is plain.
pub fn key_selects_are_plain()
    ensures { (mapped : Mapped) (class : ClassId) (key : List Value) → HasHierarchies mapped
        → IsClass mapped class → is_key (root_spec mapped class) key ≡ true
        → IsPlainSelect mapped.schema (key_select mapped class key) }
{}

/// It may be sent the select of some attributes of a class under such a key.
pub fn cells_selects_are_plain()
    ensures { (mapped : Mapped) (class : ClassId) (attrs : List AttrNo) (key : List Value)
        → HasHierarchies mapped → IsClass mapped class → All (IsAttribute mapped class) attrs
        → is_key (root_spec mapped class) key ≡ true
        → IsPlainSelect mapped.schema (cells_select mapped class attrs key) }
{}

/// It may be sent the select of the rows of a class under several such keys.
pub fn targets_selects_are_plain()
    ensures { (mapped : Mapped) (class : ClassId) (keys : List (List Value))
        → HasHierarchies mapped → IsClass mapped class → 0 < length keys
        → All (λ key. is_key (root_spec mapped class) key ≡ true) keys
        → IsPlainSelect mapped.schema (targets_select mapped class keys) }
{}
