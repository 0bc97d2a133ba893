//! Changes of one object.

ghost use Rattle.std.specs.Prelude.{◌≡◌, ◌<◌, [], IfOk, length, map, true, Some};
ghost use Rattle.class_mapping.specs.Mapped.{IsClass};
ghost use Rattle.object_arena.specs.declared.object.Link.TheVariants.{Unset, Unloaded};
ghost use Rattle.object_arena.specs.Graph.{cell_in, cell_put, expired_object, expired_cell, fresh_object, kept_identity, null_cell, put_back_object, settled_object, settled_adds, settled_cell, settled_link};

use crate::{Cell, Link, Object, State};
use base_core::{AttrNo, ClassId, Key, ListOf, ObjList, Value};
use class_mapping::{Attribute, Mapping, Relation};
use std::alloc::{AllocError, Global};

/// One null cell for each attribute.
fn null_cells(alloc: Global, attributes: &[Attribute]) -> Result<ListOf<Cell>, AllocError>
    ensures { IfOk result (λ cells. cells ≡ map (λ attribute. null_cell) attributes.now) }
{
    let mut cells = ListOf::new(alloc);
    for _attribute in attributes {
        cells.push(Cell {
            value: Some(Value::Null),
            base: None,
        })?;
    }
    Ok(cells)
}

/// One unset link for each relationship.
fn unset_links(alloc: Global, relations: &[Relation]) -> Result<ListOf<Link>, AllocError>
    ensures { IfOk result (λ links. links ≡ map (λ relation. Unset) relations.now) }
{
    let mut links = ListOf::new(alloc);
    for _relation in relations {
        links.push(Link::Unset)?;
    }
    Ok(links)
}

/// A transient object of a class: null cells, unset links.
pub fn fresh_object(alloc: Global, mapping: &Mapping, class: ClassId) -> Result<Object, AllocError>
    requires declared { IsClass mapping.now class }
    ensures { IfOk result (λ object. object ≡ fresh_object mapping.now class) }
{
    let cells = null_cells(alloc, mapping.attributes(class))?;
    let links = unset_links(alloc, mapping.relations(class))?;
    Ok(Object {
        class,
        state: State::Transient,
        identity: None,
        added: 0,
        marked: false,
        orphan: false,
        cells,
        links,
    })
}

/// All cells lose value and base.
fn expire_cells(cells: &mut ListOf<Cell>)
    ensures { cells.new ≡ map (λ cell. expired_cell) cells.old }
{
    for place in 0..cells.len() {
        let _old = cells.replace(
            place,
            Cell {
                value: None,
                base: None,
            },
        );
    }
}

/// All links are to be read again.
fn unload_links(alloc: Global, links: &mut ListOf<Link>)
    ensures { links.new ≡ map (λ link. Unloaded [] []) links.old }
{
    for place in 0..links.len() {
        let _old = links.replace(
            place,
            Link::Unloaded {
                added: ListOf::new(alloc),
                removed: ListOf::new(alloc),
            },
        );
    }
}

/// The object loses its cells' values and bases and its links, and is no orphan.
pub fn expire(alloc: Global, object: &mut Object)
    ensures { object.new ≡ expired_object object.old }
{
    expire_cells(&mut object.cells);
    unload_links(alloc, &mut object.links);
    object.orphan = false;
}

/// An expired cell becomes NULL.
fn settle_cell(cell: Cell) -> Cell
    ensures { result ≡ settled_cell cell }
{
    let Cell { value, base } = cell;
    match value {
        None => Cell {
            value: Some(Value::Null),
            base: None,
        },
        Some(value) => Cell {
            value: Some(value),
            base,
        },
    }
}

/// What an unloaded link with these kept adds becomes.
fn settle_adds(alloc: Global, added: ObjList) -> Link
    ensures { result ≡ settled_adds added }
{
    if added.is_empty() {
        Link::Unset
    } else {
        Link::Many {
            members: added,
            base: ListOf::new(alloc),
        }
    }
}

/// An unloaded link becomes unset or has its kept adds, a link to an object is changed, and a collection has no base.
fn settle_link(alloc: Global, link: Link) -> Link
    ensures { result ≡ settled_link link }
{
    match link {
        Link::Unset => Link::Unset,
        Link::Unloaded { added, .. } => settle_adds(alloc, added),
        Link::One { end: None, changed } => Link::One { end: None, changed },
        Link::One { end: Some(end), .. } => Link::One {
            end: Some(end),
            changed: true,
        },
        Link::Many { members, .. } => Link::Many {
            members,
            base: ListOf::new(alloc),
        },
    }
}

/// Expired cells become NULL.
fn settle_cells(cells: &mut ListOf<Cell>)
    ensures { cells.new ≡ map settled_cell cells.old }
{
    for place in 0..cells.len() {
        let old = cells.replace(
            place,
            Cell {
                value: None,
                base: None,
            },
        );
        let _none = cells.replace(place, settle_cell(old));
    }
}

/// Links become those of a transient object.
fn settle_links(alloc: Global, links: &mut ListOf<Link>)
    ensures { links.new ≡ map settled_link links.old }
{
    for place in 0..links.len() {
        let old = links.replace(place, Link::Unset);
        let _none = links.replace(place, settle_link(alloc, old));
    }
}

/// The object goes back to a state and an identity that it had, without a delete mark.
pub fn put_back(alloc: Global, object: &mut Object, state: State, identity: Option<Key>)
    ensures { object.new ≡ put_back_object object.old state identity }
{
    object.identity = identity;
    stand(alloc, object, state);
}

/// The object goes back to a state under its identity, without a delete mark.
pub fn stand(alloc: Global, object: &mut Object, state: State)
    ensures { object.new ≡ put_back_object object.old state object.old.identity }
{
    object.state = state;
    object.marked = false;
    match state {
        State::Transient => {
            settle_cells(&mut object.cells);
            settle_links(alloc, &mut object.links);
        }
        State::Pending | State::Persistent | State::Deleted | State::Detached => {}
    }
}

/// The object goes to a state; a transient or pending object has no identity.
pub fn put_state(object: &mut Object, state: State)
    ensures { object.new ≡ record object.old {
      state = state;
      identity = kept_identity state object.old.identity;
    } }
{
    object.state = state;
    match state {
        State::Transient | State::Pending => object.identity = None,
        State::Persistent | State::Deleted | State::Detached => {}
    }
}

/// The cell holds the value; its base stays.
pub fn put_value(object: &mut Object, attr: AttrNo, value: Value)
    requires { attr.0 < length object.old.cells }
    ensures { object.new ≡ cell_put object.old attr
        (record (cell_in object.old attr) { value = Some value }) }
{
    let place = attr.0 as usize;
    let old = object.cells.replace(
        place,
        Cell {
            value: None,
            base: None,
        },
    );
    let _none = object.cells.replace(
        place,
        Cell {
            value: Some(value),
            base: old.base,
        },
    );
}
