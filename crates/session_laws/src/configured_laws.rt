//! Laws of mappings: they are as the laws of what a flush writes ask of them.

ghost use Rattle.std.specs.Prelude.{◌≡◌};
ghost use Rattle.class_mapping.specs.PlainClass.{ArePlain};
ghost use Rattle.session_laws.specs.Graphs.{IsWellMapped};
ghost use Rattle.session_laws.specs.Configured.{ClassesArePlain, HasLateLinks};

use base_core::ClassId;
use class_mapping::Mapping;
use schema_core::Schema;

/// The tables of a mapping. Every mapping is as the laws of what a flush writes ask, where no collection says that its foreign key
/// is written late; lines of classes can not say it. Where each class is a plain root there is no collection.
pub fn well_mapped_tables(mapping: &Mapping) -> &Schema
    ensures tables { result.now ≡ mapping.now.schema }
    ensures well { HasLateLinks mapping.now → IsWellMapped mapping.now }
    ensures plain { ArePlain mapping.now → IsWellMapped mapping.now }
{
    mapping.schema()
}

/// How many classes a mapping has. Where each is a plain root, each has what such a class has.
pub fn plain_classes(mapping: &Mapping) -> u32
    ensures { ClassesArePlain mapping.now }
{
    let count = mapping.count();
    for number in 0..count {
        let _table = mapping.root_table(ClassId(number));
    }
    count
}
