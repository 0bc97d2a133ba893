//! What the classes of a mapping have.

ghost use Rattle.std.specs.Prelude.{◌≡◌, ℕ, List, false, is_some};
ghost use Rattle.base_core.specs.declared.ids.ClassId.{ClassId};
ghost use Rattle.class_mapping.specs.Mapped.{IsClass, Mapped, class_spec};
ghost use Rattle.mapping_laws.specs.Hierarchies.{HasHierarchies, HasTables, TellsApart};

/// The tables of a class begin with its root's, all are declared, no two have one name, and the keys of each and of the one behind
/// it have the same kinds. It does nothing when it runs.
pub fn classes_have_tables()
    ensures { (mapped : Mapped) (class : ClassId) → HasHierarchies mapped → IsClass mapped class
        → HasTables mapped class }
{}

/// The hierarchy of a class without a table of its own has a discriminator, which takes the identity of the class and of each
/// class under it. It does nothing when it runs.
pub fn discriminators_tell_apart()
    ensures { (mapped : Mapped) (class : ClassId) → HasHierarchies mapped → IsClass mapped class
        → is_some (class_spec mapped class).table ≡ false
        → (name : List ℕ) × TellsApart mapped class name }
{}
