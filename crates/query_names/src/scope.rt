//! The classes and sources in scope, and what paths mean there.

ghost use Rattle.std.specs.Prelude.{◌≡◌, ◌∷◌, IfErr, IfOk, IfSome};
ghost use Rattle.std.specs.Option.{option_copied};
ghost use Rattle.base_core.specs.Answers.{Gives};
ghost use Rattle.schema_core.specs.Catalog.{IsTable};
ghost use Rattle.class_mapping.specs.Mapped.{IsAttribute, IsClass, attribute_of};
ghost use Rattle.command_names.specs.Attributes.{attribute_named as attribute_of_name};
ghost use Rattle.sql_semantics.specs.Plain.{name_or};
ghost use Rattle.script_resolve.specs.Refusals.{CanRefuse};
ghost use Rattle.query_names.specs.Scopes.{AreDeclared, IsScope};
ghost use Rattle.query_names.specs.Scopes as spec;

use base_core::{AttrNo, ClassId, Copied, ListOf, Name, Refusal, TableId};
use class_layouts::number_of;
use class_mapping::{Attribute, Mapping};
use command_names::{Member, member_named, wrong_kind};
use expr_types::Expr;
use load_columns::{Placement, attribute_column};
use schema_core::Schema;
use script_names::{find_column, unknown};
use script_types::SynSource;
use std::alloc::{AllocError, Global};

/// A class of a query, with the place of its tables among the sources.
#[derive(Clone, Copy)]
pub struct PlacedClass {
    pub class: ClassId,
    pub placement: Placement,
}

impl Copied for PlacedClass {
    fn copied(&self) -> Result<PlacedClass, AllocError> {
        Ok(*self)
    }
}

/// The source of an `exists`, with its place among the sources.
#[derive(Clone, Drop)]
pub struct InnerSource {
    pub name: Name,
    pub table: TableId,
    pub place: u32,
}

impl Copied for InnerSource {
    fn copied(&self) -> Result<InnerSource, AllocError> {
        self.clone()
    }
}

/// What is in scope at a place of a query: the classes of the query, in order, and the sources of the `exists` around the place,
/// the innermost first; and how many sources there are.
#[derive(Drop)]
pub struct QueryScope {
    pub classes: ListOf<PlacedClass>,
    pub inner: ListOf<InnerSource>,
    pub sources: u32,
}

/// The class of a query that a name means.
pub(crate) fn class_meant(
    mapping: &Mapping,
    classes: &[PlacedClass],
    name: &Name,
) -> Option<PlacedClass>
    requires classes { AreDeclared mapping.now classes.now }
    ensures class { result ≡ spec.class_meant mapping.now classes.now name.now }
    ensures declared { IfSome result (λ placed. IsClass mapping.now placed.class) }
{
    for placed in classes {
        if mapping.spec_of(placed.class).name == *name {
            return Some(*placed);
        }
    }
    None
}

/// The source of an `exists` that a name means.
fn source_meant<'x>(sources: &'x [InnerSource], name: &Name) -> Option<&'x InnerSource>
    ensures { option_copied result ≡ spec.source_meant sources.now name.now }
{
    sources.iter().find(|source| source.name == *name)
}

/// The name under which a source stands: its own, or else its table's.
pub(crate) fn shown_name(source: &SynSource) -> &Name
    ensures { result.now ≡ name_or source.now.table source.now.alias }
{
    match &source.alias {
        Some(alias) => alias,
        None => &source.table,
    }
}

/// A source, before others.
fn with_first(
    alloc: Global,
    source: InnerSource,
    others: &[InnerSource],
) -> Result<ListOf<InnerSource>, AllocError>
    ensures { IfOk result (λ all. all ≡ source ∷ others.now) }
{
    let mut all = ListOf::new(alloc);
    all.push(source)?;
    for other in others {
        all.push(other.copied()?)?;
    }
    Ok(all)
}

/// The scope inside an `exists` over a table that has a name there.
pub(crate) fn scope_within(
    alloc: Global,
    scope: &QueryScope,
    name: &Name,
    table: TableId,
) -> Result<QueryScope, AllocError>
    ensures { IfOk result (λ inner. inner ≡ spec.scope_within scope.now name.now table) }
{
    let source = InnerSource {
        name: name.copied()?,
        table,
        place: scope.sources,
    };
    Ok(QueryScope {
        classes: scope.classes.copied()?,
        inner: with_first(alloc, source, scope.inner.as_slice())?,
        sources: number_of(scope.sources as usize + 1)?,
    })
}

/// The attribute of a class that a name stands for.
///
/// # Errors
/// `WrongKind` for the name of a relationship, and `Unknown` for every other. `Memory`.
fn attribute_named(mapping: &Mapping, class: ClassId, name: &Name) -> Result<AttrNo, Refusal>
    requires class { IsClass mapping.now class }
    ensures attribute { Gives (λ attr. attr) result
        (attribute_of_name mapping.now class name.now) }
    ensures cause { IfErr result CanRefuse }
    ensures exists { IfOk result (IsAttribute mapping.now class) }
{
    match member_named(mapping, class, name)? {
        Member::Attribute(attr) => Ok(attr),
        Member::One(_) => Err(wrong_kind()),
        Member::Many(_) => Err(wrong_kind()),
    }
}

/// The attribute at a place of a class.
fn attribute_at(mapping: &Mapping, class: ClassId, attr: AttrNo) -> &Attribute
    requires class { IsClass mapping.now class }
    requires attr { IsAttribute mapping.now class attr }
    ensures { result.now ≡ attribute_of mapping.now class attr }
{
    &mapping.attributes(class)[attr.0 as usize]
}

/// An attribute of a class of the query.
fn in_class(mapping: &Mapping, placed: PlacedClass, name: &Name) -> Result<Expr, Refusal>
    requires class { IsClass mapping.now placed.class }
    ensures said { Gives (λ e. e) result (spec.in_class mapping.now name.now placed) }
    ensures cause { IfErr result CanRefuse }
{
    let attr = attribute_named(mapping, placed.class, name)?;
    let attribute = attribute_at(mapping, placed.class, attr);
    let column = attribute_column(mapping, placed.class, placed.placement, attribute)?;
    Ok(Expr::Column(column.source, column.column))
}

/// A column of the source of an `exists`.
fn in_source(schema: &Schema, source: &InnerSource, name: &Name) -> Result<Expr, Refusal>
    requires table { IsTable schema.now source.now.table }
    ensures said { Gives (λ e. e) result (spec.in_source schema.now name.now source.now) }
    ensures cause { IfErr result CanRefuse }
{
    match find_column(schema.spec(source.table), name)? {
        Some(column) => Ok(Expr::Column(source.place, column)),
        None => Err(unknown(name)?),
    }
}

/// What the path `owner.name` means.
///
/// # Errors
/// `Unknown` of an owner that is neither a source of an `exists` around the place nor a class of the query, and of a name that is
/// no column of the source, or no member of the class; `WrongKind` for the name of a relationship. `Memory`.
#[tactic(auto, using(crate::proofs::Standing::standing))]
pub(crate) fn path_named(
    mapping: &Mapping,
    scope: &QueryScope,
    owner: &Name,
    name: &Name,
) -> Result<Expr, Refusal>
    requires scope { IsScope mapping.now scope.now }
    ensures said { Gives (λ e. e) result
        (spec.path_said mapping.now scope.now owner.now name.now) }
    ensures cause { IfErr result CanRefuse }
{
    if let Some(source) = source_meant(scope.inner.as_slice(), owner) {
        return in_source(mapping.schema(), source, name);
    }
    let Some(placed) = class_meant(mapping, scope.classes.as_slice(), owner) else {
        return Err(unknown(owner)?);
    };
    in_class(mapping, placed, name)
}
