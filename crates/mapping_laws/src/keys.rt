//! Keys of classes.

ghost use Rattle.std.specs.Prelude.{◌≡◌, List};
ghost use Rattle.base_core.specs.declared.ids.ClassId.{ClassId};
ghost use Rattle.base_core.specs.declared.value.Value.{Value};
ghost use Rattle.schema_core.specs.WellFormed.{is_key};
ghost use Rattle.class_mapping.specs.Mapped.{IsClass, Mapped, root_spec};
ghost use Rattle.object_arena.specs.Fit.{key_fits};
ghost use Rattle.mapping_laws.specs.Hierarchies.{HasHierarchies};

/// The keys of a class, of whatever form, are those of its root's table. It does nothing when it runs.
pub fn keys_are_of_roots()
    ensures { (mapped : Mapped) (class : ClassId) (key : List Value) → HasHierarchies mapped
        → IsClass mapped class
        → key_fits mapped class key ≡ is_key (root_spec mapped class) key }
{}
