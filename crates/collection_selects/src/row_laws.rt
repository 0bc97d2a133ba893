//! Rows that loads read. Each of these functions does nothing when it runs.

ghost use Rattle.std.specs.Prelude.{List};
ghost use Rattle.std.specs.List.{All, AllByRecursion};
ghost use Rattle.base_core.specs.declared.ids.AttrNo.{AttrNo};
ghost use Rattle.base_core.specs.declared.ids.ClassId.{ClassId};
ghost use Rattle.base_core.specs.declared.value.Value.{Value};
ghost use Rattle.expr_types.specs.declared.expr.Expr.{Expr};
ghost use Rattle.sql_semantics.specs.Shapes.{AreGiven, AreOfItems};
ghost use Rattle.class_mapping.specs.Mapped.{IsAttribute, IsClass, Mapped};
ghost use Rattle.mapping_laws.specs.Hierarchies.{HasHierarchies};
ghost use Rattle.load_selects.specs.Selects.{cells_select, class_rows};
ghost use Rattle.load_rows.specs.Reading.{IsRowOf};
ghost use Rattle.collection_selects.specs.Rows.{AreCellsOf};

/// What a keeper answers to a select of a class's rows, over legal tables, are rows of the class: each value is NULL or of its
/// attribute's kind, and the key in each row is one of the class that the row names.
pub fn rows_are_of_classes()
    ensures { (mapped : Mapped) (class : ClassId) (conditions : List Expr)
        (rows : List (List Value)) → HasHierarchies mapped → IsClass mapped class
        → AreOfItems mapped.schema (class_rows mapped class conditions) rows
        → AreGiven mapped.schema (class_rows mapped class conditions) rows
        → AllByRecursion (IsRowOf mapped class) rows }
{}

/// What it answers to a select of an object's cells are values of the attributes' kinds, or NULL.
pub fn cells_are_of_kinds()
    ensures { (mapped : Mapped) (class : ClassId) (attrs : List AttrNo) (key : List Value)
        (rows : List (List Value)) → HasHierarchies mapped → IsClass mapped class
        → All (IsAttribute mapped class) attrs
        → AreOfItems mapped.schema (cells_select mapped class attrs key) rows
        → AllByRecursion (AreCellsOf mapped class attrs) rows }
{}
