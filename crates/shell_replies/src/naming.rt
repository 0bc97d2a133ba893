//! The names of what refusals have by number.

ghost use Rattle.std.specs.Prelude.{◌≡◌};
ghost use Rattle.schema_core.specs.Catalog.{spec_of};
ghost use Rattle.sql_text.specs.Columns.{column_name};
ghost use Rattle.shell_replies.specs.Naming as naming;

use base_core::{AttrNo, ClassId, ColumnNo, ObjId, RelNo, TableId};
use class_mapping::Mapping;
use object_arena::Arena;
use printing::Naming;
use schema_core::Schema;

/// The names of declared tables, before there is a session. Every other number gets the empty name.
#[derive(Clone, Copy)]
pub struct TableNames<'a> {
    pub schema: &'a Schema,
}

impl<'a> Naming for TableNames<'a> {
    ghost names = { λ n. naming.table_names n.schema.now };

    fn table_name(&self, table: TableId) -> &str {
        name_of_table(self.schema, table)
    }

    fn column_name(&self, _table: TableId, _column: ColumnNo) -> &str {
        ""
    }

    fn class_name(&self, _class: ClassId) -> &str {
        ""
    }

    fn attribute_name(&self, _class: ClassId, _attribute: AttrNo) -> &str {
        ""
    }

    fn relation_name(&self, _class: ClassId, _relation: RelNo) -> &str {
        ""
    }

    fn class_of(&self, _object: ObjId) -> &str {
        ""
    }
}

/// The names of tables and classes in a session, of their columns, attributes and relationships, and of the classes of its objects.
/// Every other number gets the empty name.
#[derive(Clone, Copy)]
pub struct SessionNames<'a> {
    pub mapping: &'a Mapping,
    pub arena: &'a Arena,
}

impl<'a> Naming for SessionNames<'a> {
    ghost names = { λ n. naming.session_names n.mapping.now n.arena.now };

    fn table_name(&self, table: TableId) -> &str {
        name_of_table(self.mapping.schema(), table)
    }

    fn column_name(&self, table: TableId, column: ColumnNo) -> &str {
        name_of_column(self.mapping, table, column)
    }

    fn class_name(&self, class: ClassId) -> &str {
        name_of_class(self.mapping, class)
    }

    fn attribute_name(&self, class: ClassId, attribute: AttrNo) -> &str {
        name_of_attribute(self.mapping, class, attribute)
    }

    fn relation_name(&self, class: ClassId, relation: RelNo) -> &str {
        name_of_relation(self.mapping, class, relation)
    }

    fn class_of(&self, object: ObjId) -> &str {
        if object.0 == 0 || object.0 - 1 >= self.arena.count() {
            return "";
        }
        name_of_class(self.mapping, self.arena.class_of(object))
    }
}

/// The name of a table; one that is not declared has the empty name.
fn name_of_table(schema: &Schema, table: TableId) -> &str
    ensures { result.now ≡ (spec_of schema.now table).name }
{
    if table.0 < schema.count() {
        schema.spec(table).name.get()
    } else {
        ""
    }
}

/// The name of a class; one that is not declared has the empty name.
pub(crate) fn name_of_class(mapping: &Mapping, class: ClassId) -> &str
    ensures { result.now ≡ naming.class_name mapping.now class }
{
    if class.0 < mapping.count() {
        mapping.spec_of(class).name.get()
    } else {
        ""
    }
}

/// The name of a column; what is no column of a table has the empty name.
fn name_of_column(mapping: &Mapping, table: TableId, column: ColumnNo) -> &str
    ensures { result.now ≡ column_name mapping.now.schema table column }
{
    let schema = mapping.schema();
    if table.0 >= schema.count() {
        return "";
    }
    match schema.spec(table).columns.get(column.0 as usize) {
        Some(column) => column.name.get(),
        None => "",
    }
}

/// Whether a class of this number is declared.
fn has_class(mapping: &Mapping, class: ClassId) -> bool
    ensures { result ≡ naming.has_class mapping.now class }
{
    class.0 < mapping.count()
}

/// The name of an attribute of a class; what is none of a class has the empty name.
fn name_of_attribute(mapping: &Mapping, class: ClassId, attribute: AttrNo) -> &str
    ensures { result.now ≡ naming.attribute_name mapping.now class attribute }
{
    if !has_class(mapping, class) {
        return "";
    }
    match mapping.attributes(class).get(attribute.0 as usize) {
        Some(attribute) => attribute.name.get(),
        None => "",
    }
}

/// The name of a relationship of a class; what is none of a class has the empty name.
fn name_of_relation(mapping: &Mapping, class: ClassId, relation: RelNo) -> &str
    ensures { result.now ≡ naming.relation_name mapping.now class relation }
{
    if !has_class(mapping, class) {
        return "";
    }
    match mapping.relations(class).get(relation.0 as usize) {
        Some(relation) => relation.name.get(),
        None => "",
    }
}
