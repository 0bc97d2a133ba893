//! A mapping: tables and the classes over them, of which all was checked.

ghost use Rattle.std.specs.Prelude.{◌≡◌, length, true, None, IfSome};
ghost use Rattle.std.specs.Option.{option_copied};
ghost use Rattle.std.specs.List.{All};
ghost use Rattle.schema_core.specs.Catalog.{IsTable};
ghost use Rattle.class_mapping.specs.Configured.{IsConfigured, IsLaid};
ghost use Rattle.class_mapping.specs.Mapped.{IsAttribute, IsClass, attributes_of, class_spec, find_class, key_attributes, layout_of, line_of, parent_of, partner_of, relations_of, root_of, root_table, tables_of, validators_of};
ghost use Rattle.class_mapping.specs.PlainClass.{ArePlain, IsPlainClass};
ghost use Rattle.base_core.specs.declared.ids.ClassId.{ClassId};
ghost use Rattle.class_mapping.specs.Paired.{HasPairs, is_at_or_under};
ghost use Rattle.class_mapping.specs.Related.{AreRelated};

use crate::lookup::{before_last, class_or, table_or_none};
use base_core::{AttrNo, ClassId, ListOf, Name, TableId};
use class_layouts::{Classes, Layout, line_of, own_table, place_of, root_in};
use class_types::{Attribute, ClassSpec, Relation};
use schema_core::Schema;
use std::marker::Model;

/// Tables, and the classes over them, of which all was checked: there is no fault, each foreign key has its target, and each
/// relationship of each class has its partner, of the opposite form, and its keys. It says of each class which tables, attributes
/// and relationships it has.
pub struct Mapping {
    schema: Schema,
    classes: Classes,
    layouts: ListOf<Layout>,
    relations: ListOf<ListOf<Relation>>,
    /// Of each class its validators and those of the classes that it extends.
    validators: ListOf<ListOf<(Name, Name)>>,
}

impl Drop for Mapping {
    fn drop(self) {
        let Mapping {
            schema: _,
            classes: _,
            layouts: _,
            relations: _,
            validators: _,
        } = self;
    }
}

impl Model for Mapping {
    ghost use Rattle.class_mapping.specs.Configured.{IsLaid};
    ghost use Rattle.class_mapping.specs.Mapped.{Mapped};

    ghost Value = { Mapped };

    ghost view = { λ m. record { schema = m.schema; classes = m.classes } };

    ghost invariant = { λ m. IsLaid m.schema m.classes m.layouts m.relations m.validators };
}

impl Mapping {
    /// Declarations of which all was checked, with what each class has.
    pub(crate) fn over(
        schema: Schema,
        classes: Classes,
        layouts: ListOf<Layout>,
        relations: ListOf<ListOf<Relation>>,
        validators: ListOf<ListOf<(Name, Name)>>,
    ) -> Mapping
        requires { IsLaid schema classes layouts relations validators }
        ensures { result ≡ record { schema = schema; classes = classes } }
    {
        Mapping {
            schema,
            classes,
            layouts,
            relations,
            validators,
        }
    }

    /// The tables. All was checked: each class has its line from a root with a table, no two classes map one table, and the
    /// discriminator of a hierarchy takes the identity of each of its classes; there is no fault, each foreign key has its
    /// target, each relationship of each class has its partner, of the opposite form, and its keys, and a class under another
    /// has the other's relationships at their places.
    pub fn schema(&self) -> &Schema
        ensures schema { result.now ≡ self.now.schema }
        ensures configured { IsConfigured self.now }
        ensures resolved { self.now.schema.resolved ≡ true }
    {
        &self.schema
    }

    /// How many classes are declared.
    pub fn count(&self) -> u32
        ensures { result ≡ length self.now.classes.specs }
    {
        self.classes.specs.len() as u32
    }

    /// The class of a name.
    pub fn find_class(&self, name: &Name) -> Option<ClassId>
        ensures class { result ≡ find_class self.now name.now }
        ensures declared { IfSome result (IsClass self.now) }
    {
        match place_of(self.classes.specs.as_slice(), name) {
            Some(place) => Some(ClassId(place as u32)),
            None => None,
        }
    }

    /// The declaration of a class.
    pub fn spec_of(&self, class: ClassId) -> &ClassSpec
        requires { IsClass self.now class }
        ensures { result.now ≡ class_spec self.now class }
    {
        self.classes.specs.at(class.0 as usize)
    }

    /// The class without a base at the head of a class's hierarchy, which is that of each class under it too.
    pub fn root_of(&self, class: ClassId) -> ClassId
        requires { IsClass self.now class }
        ensures class { result ≡ root_of self.now class }
        ensures declared { IsClass self.now result }
        ensures alone { (class_spec self.now result).base ≡ None }
        ensures rooted { (other : ClassId) → is_at_or_under self.now other class ≡ true
            → root_of self.now other ≡ result }
    {
        class_or(root_in(line_of(&self.classes, class.0 as usize)), class)
    }

    /// The table of a class's root, which is declared. Where each class is a plain root, the class is its own root and has the
    /// columns of this table.
    pub fn root_table(&self, class: ClassId) -> TableId
        requires { IsClass self.now class }
        ensures table { result ≡ root_table self.now class }
        ensures exists { IsTable self.now.schema result }
        ensures plain { ArePlain self.now → IsPlainClass self.now class }
    {
        let root = self.root_of(class);
        table_or_none(own_table(&self.schema, &self.classes, root.0 as usize))
    }

    /// The class that a class extends.
    pub fn parent_of(&self, class: ClassId) -> Option<ClassId>
        requires { IsClass self.now class }
        ensures { result ≡ parent_of self.now class }
    {
        before_last(line_of(&self.classes, class.0 as usize))
    }

    /// The root of a class, and so on down to the class itself.
    pub fn line_of(&self, class: ClassId) -> &[ClassId]
        ensures { result.now ≡ line_of self.now class }
    {
        line_of(&self.classes, class.0 as usize)
    }

    /// What is kept of a class.
    fn layout(&self, class: ClassId) -> &Layout
        requires { IsClass self.now class }
        ensures { result.now ≡ layout_of self.now class }
    {
        self.layouts.at(class.0 as usize)
    }

    /// The tables of a class, its root's first.
    pub fn tables_of(&self, class: ClassId) -> &[TableId]
        requires { IsClass self.now class }
        ensures { result.now ≡ tables_of self.now class }
    {
        self.layout(class).tables.as_slice()
    }

    /// The attributes of a class: the columns of its tables in order, with their names and kinds.
    pub fn attributes(&self, class: ClassId) -> &[Attribute]
        requires { IsClass self.now class }
        ensures { result.now ≡ attributes_of self.now class }
    {
        self.layout(class).attributes.as_slice()
    }

    /// Which attributes of a class are the columns of its root table's primary key, in order.
    pub fn key_attributes(&self, class: ClassId) -> &[AttrNo]
        requires { IsClass self.now class }
        ensures keys { result.now ≡ key_attributes self.now class }
        ensures inside { All (IsAttribute self.now class) result.now }
    {
        self.layout(class).keys.as_slice()
    }

    /// The relationships of a class: inherited ones first, then those of its block, then its backrefs in order of
    /// declaration. Each has a partner that leads back, and its keys.
    pub fn relations(&self, class: ClassId) -> &[Relation]
        requires { IsClass self.now class }
        ensures relations { result.now ≡ relations_of self.now class }
        ensures paired { HasPairs self.now }
        ensures related { AreRelated self.now }
    {
        self.linked(class)
    }

    /// The relationships of a class, if it is declared.
    fn linked(&self, class: ClassId) -> &[Relation]
        ensures relations { result.now ≡ relations_of self.now class }
        ensures paired { HasPairs self.now }
        ensures related { AreRelated self.now }
    {
        match self.relations.get(class.0 as usize) {
            Some(list) => list.as_slice(),
            None => &[],
        }
    }

    /// The partner of a relationship: the one of its target that leads back.
    pub fn partner_of(&self, relation: &Relation) -> Option<&Relation>
        ensures { option_copied result ≡ partner_of self.now relation.now }
    {
        self.linked(relation.target)
            .get(relation.partner.0 as usize)
    }

    /// The validators of a class and of those that it extends, from its root's on and in order of declaration: attributes,
    /// each with the name of its validator.
    pub fn validators(&self, class: ClassId) -> &[(Name, Name)]
        requires { IsClass self.now class }
        ensures { result.now ≡ validators_of self.now class }
    {
        match self.validators.get(class.0 as usize) {
            Some(list) => list.as_slice(),
            None => &[],
        }
    }
}
