//! What a keeper may be sent. This function does nothing when it runs.

ghost use Rattle.std.specs.Prelude.{◌≡◌, ◌<◌, ◌^◌, false, length};
ghost use Rattle.std.specs.List.{All};
ghost use Rattle.expr_types.specs.declared.select.ObjectQuery.{ObjectQuery};
ghost use Rattle.sql_semantics.specs.Plain.{IsPlainSelect, is_grouped};
ghost use Rattle.class_mapping.specs.Mapped.{IsClass, Mapped, relations_of};
ghost use Rattle.class_mapping.specs.Related.{AreRelated};
ghost use Rattle.mapping_laws.specs.Hierarchies.{HasHierarchies};
ghost use Rattle.alias_names.specs.Names.{taken_names};
ghost use Rattle.main_selects.specs.MainSelect.{main_select};
ghost use Rattle.load_queries.specs.Queries.{ReadsObjects};

/// A keeper may be sent the main select of a query with joined options of whatever kind, between classes of whatever form, where it
/// may be sent the query's own select: the main select is plain. The query's own select reads the objects of its class, has no
/// groups and no aggregates, and the names that aliases are kept apart from are fewer than 2 ^ 64.
pub fn main_selects_are_plain()
    ensures { (mapped : Mapped) (query : ObjectQuery) → HasHierarchies mapped → AreRelated mapped
        → IsClass mapped query.class
        → All (λ place. place.0 < length (relations_of mapped query.class)) query.joined
        → ReadsObjects mapped query.class query.select
        → IsPlainSelect mapped.schema query.select → is_grouped query.select ≡ false
        → length (taken_names mapped.schema (main_select mapped query)) < 2 ^ 64
        → IsPlainSelect mapped.schema (main_select mapped query) }
{}
