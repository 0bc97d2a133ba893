//! The select by which the expired cells of an object are read. The only refusal is `Memory`.

ghost use Rattle.std.specs.Prelude.{◌≡◌, map, IfOk};
ghost use Rattle.std.specs.List.{All};
ghost use Rattle.class_mapping.specs.Mapped.{IsAttribute, IsClass, attribute_of};
ghost use Rattle.load_selects.specs.Selects as spec;

use base_core::{AttrNo, ClassId, Key, ListOf};
use class_mapping::{Attribute, Mapping};
use expr_types::Select;
use load_columns::{SourceColumn, attribute_column, from_root, has_values, root_key};
use load_selects::class_select;
use std::alloc::{AllocError, Global};

/// An attribute of a class.
fn attribute_at(mapping: &Mapping, class: ClassId, attr: AttrNo) -> &Attribute
    requires class { IsClass mapping.now class }
    requires attr { IsAttribute mapping.now class attr }
    ensures { result.now ≡ attribute_of mapping.now class attr }
{
    &mapping.attributes(class)[attr.0 as usize]
}

/// The column of an attribute of a class.
#[tactic(auto, unfolding(load_selects::specs::Selects::cell_column))]
fn cell_column(mapping: &Mapping, class: ClassId, attr: AttrNo) -> Result<SourceColumn, AllocError>
    requires class { IsClass mapping.now class }
    requires attr { IsAttribute mapping.now class attr }
    ensures { IfOk result (λ column. column ≡ spec.cell_column mapping.now class attr) }
{
    attribute_column(
        mapping,
        class,
        from_root(0),
        attribute_at(mapping, class, attr),
    )
}

/// The columns of some attributes of a class.
fn cell_columns(
    alloc: Global,
    mapping: &Mapping,
    class: ClassId,
    attrs: &[AttrNo],
) -> Result<ListOf<SourceColumn>, AllocError>
    requires class { IsClass mapping.now class }
    requires attrs { All (IsAttribute mapping.now class) attrs.now }
    ensures { IfOk result
        (λ columns. columns ≡ map (spec.cell_column mapping.now class) attrs.now) }
{
    let mut columns = ListOf::new(alloc);
    for attr in attrs {
        columns.push(cell_column(mapping, class, *attr)?)?;
    }
    Ok(columns)
}

/// Some attributes of the object of a class under a key, whatever class its row names.
#[tactic(auto, unfolding(load_selects::specs::Selects::cells_select))]
pub fn cells_select(
    alloc: Global,
    mapping: &Mapping,
    class: ClassId,
    attrs: &[AttrNo],
    key: &Key,
) -> Result<Select, AllocError>
    requires class { IsClass mapping.now class }
    requires attrs { All (IsAttribute mapping.now class) attrs.now }
    ensures { IfOk result
        (λ s. s ≡ spec.cells_select mapping.now class attrs.now key.now) }
{
    let columns = cell_columns(alloc, mapping, class, attrs)?;
    let keys = root_key(alloc, mapping, class, from_root(0))?;
    let conditions = has_values(alloc, keys.as_slice(), key.as_slice())?;
    class_select(alloc, mapping, class, columns.as_slice(), conditions)
}
