//! Who gives the names of what refusals and warnings have by number.

ghost use Rattle.std.specs.Prelude.{◌≡◌};
ghost use Rattle.printing.specs.Texts.{Names};

use base_core::{AttrNo, ClassId, ColumnNo, ObjId, RelNo, TableId};

/// Gives names for numbers. A number that nothing has may get any name.
pub trait Naming {
    ghost names: { Self → Names };

    /// The name of a table.
    fn table_name(&self, table: TableId) -> &str
        ensures { result.now ≡ (names self.now).table table };

    /// The name of a table's column.
    fn column_name(&self, table: TableId, column: ColumnNo) -> &str
        ensures { result.now ≡ (names self.now).column table column };

    /// The name of a class.
    fn class_name(&self, class: ClassId) -> &str
        ensures { result.now ≡ (names self.now).class class };

    /// The name of a class's attribute.
    fn attribute_name(&self, class: ClassId, attribute: AttrNo) -> &str
        ensures { result.now ≡ (names self.now).attribute class attribute };

    /// The name of a class's relationship.
    fn relation_name(&self, class: ClassId, relation: RelNo) -> &str
        ensures { result.now ≡ (names self.now).relation class relation };

    /// The name of an object's class.
    fn class_of(&self, object: ObjId) -> &str
        ensures { result.now ≡ (names self.now).class_of object };
}
