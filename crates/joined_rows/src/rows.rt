//! The rows of a query's main select. This function does nothing when it runs.

ghost use Rattle.std.specs.Prelude.{◌≡◌, ◌<◌, ◌++◌, List, length, map};
ghost use Rattle.std.specs.List.{All, AllByRecursion};
ghost use Rattle.base_core.specs.declared.value.Value.{Value};
ghost use Rattle.expr_types.specs.declared.expr.Origin.{Origin};
ghost use Rattle.expr_types.specs.declared.select.ObjectQuery.{ObjectQuery};
ghost use Rattle.sql_semantics.specs.Plain.{sources_of};
ghost use Rattle.sql_semantics.specs.Shapes.{AreGiven, AreOfItems};
ghost use Rattle.class_mapping.specs.Mapped.{IsClass, Mapped, relations_of, tables_of};
ghost use Rattle.class_mapping.specs.Related.{AreRelated};
ghost use Rattle.mapping_laws.specs.Hierarchies.{HasHierarchies};
ghost use Rattle.load_columns.specs.Placing.{attribute_columns, from_root};
ghost use Rattle.load_selects.specs.Selects.{item_of, origin_of};
ghost use Rattle.main_selects.specs.MainSelect.{main_select};
ghost use Rattle.joined_rows.specs.Parts.{parts_of};
ghost use Rattle.joined_rows.specs.Taking.{IsJoinedRow};

/// What a keeper answers to a query's main select, over legal tables, are rows of the query's class, with a value that is NULL or
/// of its kind for each attribute of each joined option's target, and with a row of the target where no key of it is NULL. The query's own select has the attributes of the class as items,
/// and its first sources are the tables of the class from the root's on.
pub fn rows_have_parts()
    ensures { (mapped : Mapped) (query : ObjectQuery) (more : List Origin)
        (rows : List (List Value)) → HasHierarchies mapped → AreRelated mapped
        → IsClass mapped query.class
        → All (λ place. place.0 < length (relations_of mapped query.class)) query.joined
        → query.select.items ≡ map item_of (attribute_columns mapped query.class (from_root 0))
        → sources_of query.select ≡ map origin_of (tables_of mapped query.class) ++ more
        → AreOfItems mapped.schema (main_select mapped query) rows
        → AreGiven mapped.schema (main_select mapped query) rows
        → AllByRecursion
        (IsJoinedRow mapped query.class (parts_of mapped query.class query.joined)) rows }
{}
