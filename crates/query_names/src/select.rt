//! The select of a query whose names are known. The only refusal is `Memory`.

ghost use Rattle.std.specs.Prelude.{◌≡◌, ◌++◌, IfOk, OnOk};
ghost use Rattle.std.specs.List.{flat_map};
ghost use Rattle.std.specs.Option.{option_to_list};
ghost use Rattle.class_mapping.specs.Mapped.{IsClass};
ghost use Rattle.load_selects.specs.Branches.{is_of_branch};
ghost use Rattle.query_names.specs.Queries as spec;
ghost use Rattle.query_names.specs.Scopes.{AreDeclared};

use crate::scope::PlacedClass;
use crate::sources::QuerySources;
use base_core::{ClassId, ListOf};
use class_mapping::Mapping;
use expr_types::{Expr, ExprList, Select};
use load_columns::{attribute_columns, from_root};
use load_selects::{is_of_branch, select_of};
use script_types::SynQuery;
use sqlite_items::Items;
use std::alloc::{AllocError, Global};

/// A condition, if there is one.
fn given(alloc: Global, filter: Option<Expr>) -> Result<ExprList, AllocError>
    ensures { IfOk result (λ es. es ≡ option_to_list filter) }
{
    let mut out = Items::new(alloc);
    if let Some(e) = filter {
        out.push(e)?;
    }
    Ok(out)
}

/// That the rows of each class are of its branch goes behind other conditions.
#[tactic(auto, using(class_layouts::proofs::Steps::steps))]
fn push_branches(
    out: &mut ExprList,
    alloc: Global,
    mapping: &Mapping,
    classes: &[PlacedClass],
) -> Result<(), AllocError>
    requires declared { AreDeclared mapping.now classes.now }
    ensures { OnOk result (out.new ≡ out.old
        ++ flat_map (λ placed. is_of_branch mapping.now placed.class placed.placement)
        classes.now) }
{
    for placed in classes {
        out.append(is_of_branch(alloc, mapping, placed.class, placed.placement)?)?;
    }
    Ok(())
}

/// The condition, and that the rows of each class are of its branch.
fn conditions(
    alloc: Global,
    mapping: &Mapping,
    filter: Option<Expr>,
    classes: &[PlacedClass],
) -> Result<ExprList, AllocError>
    requires declared { AreDeclared mapping.now classes.now }
    ensures { IfOk result (λ es. es ≡ spec.conditions mapping.now filter classes.now) }
{
    let mut out = given(alloc, filter)?;
    push_branches(&mut out, alloc, mapping, classes)?;
    Ok(out)
}

/// The attributes of a class, from the tables of all classes of a query, where a condition holds.
pub(crate) fn joined_select(
    alloc: Global,
    mapping: &Mapping,
    class: ClassId,
    sources: &QuerySources,
    filter: Option<Expr>,
) -> Result<Select, AllocError>
    requires class { IsClass mapping.now class }
    requires declared { AreDeclared mapping.now sources.now.classes }
    ensures { IfOk result
        (λ select. select ≡ spec.joined_select mapping.now class sources.now filter) }
{
    let conditions = conditions(alloc, mapping, filter, sources.classes.as_slice())?;
    let columns = attribute_columns(alloc, mapping, class, from_root(0))?;
    select_of(
        alloc,
        mapping.root_table(class),
        sources.further.as_slice(),
        columns.as_slice(),
        conditions,
    )
}

/// A value gives way to another one.
pub(crate) fn put<T: Drop>(place: &mut T, value: T)
    ensures { place.new ≡ value }
{
    *place = value;
}

/// A select takes its order, and how many rows it skips and gives.
pub(crate) fn take_order(select: &mut Select, order: ListOf<(Expr, bool)>, written: &SynQuery)
    ensures { select.new ≡ record select.old {
      order = order;
      limit = written.now.limit;
      offset = written.now.offset;
    } }
{
    put(&mut select.order, order);
    select.limit = written.limit;
    select.offset = written.offset;
}
