//! What a flush of small graphs changes.

ghost use Rattle.object_arena.specs.Fit.{IsFit};

use crate::acts::{Said, act, are_made};
use crate::changes::put_changes;
use crate::mapping::declare_all;
use base_core::ListOf;
use class_mapping::Mapping;
use class_types::Hooks;
use notations::{Page, parted};
use object_arena::Arena;
use object_rows::{LinkIndex, ObjIndex, Prepared};
use row_project::project;
use std::alloc::{AllocError, Global};

/// Makes the graph that the words of a line tell, and notes what they say of the preparation.
fn make(page: &mut Page, mapping: &Mapping, arena: &mut Arena, said: &mut Said, line: &str)
    requires fit { IsFit mapping.now arena.old }
    ensures { IsFit mapping.now arena.new }
{
    for word in line.split(' ') {
        act(page, mapping, arena, said, word);
    }
}

/// Tells what a flush of a graph changes.
fn tell_changes(mapping: &Mapping, arena: &Arena, prepared: &Prepared, page: &mut Page)
    requires fit { IsFit mapping.now arena.now }
{
    if !are_made(arena, prepared.deleted.as_slice()) {
        return page.lack();
    }
    match project(page.alloc(), arena, mapping, prepared) {
        Ok(changes) => put_changes(page, mapping.schema(), &changes),
        Err(lack) => page.note_done(Err(lack.into())),
    }
}

/// Nothing is to be deleted, to be transient or to be cleared.
fn nothing_said(alloc: Global) -> Said {
    Said {
        deleted: ListOf::new(alloc),
        transient: ListOf::new(alloc),
        cleared: ListOf::new(alloc),
    }
}

/// The preparation that was said.
fn prepared_of(alloc: Global, said: Said) -> Result<Prepared, AllocError> {
    let Said {
        deleted,
        transient,
        cleared,
    } = said;
    Ok(Prepared {
        deleted: ObjIndex::of(alloc, deleted)?,
        transient: ObjIndex::of(alloc, transient)?,
        cleared: LinkIndex::of(alloc, cleared)?,
    })
}

/// Makes a graph from nothing, and tells what a flush of it changes.
fn tell_graph(mapping: &Mapping, line: &str, page: &mut Page) {
    let mut arena = Arena::new(page.alloc());
    let mut said = nothing_said(page.alloc());
    make(page, mapping, &mut arena, &mut said, line);
    match prepared_of(page.alloc(), said) {
        Ok(prepared) => tell_changes(mapping, &arena, &prepared, page),
        Err(_) => page.lack(),
    }
}

/// The answers to the lines of a group.
fn tell_graphs(mapping: &Mapping, lines: &str, page: &mut Page) {
    for line in lines.lines() {
        if line.starts_with('#') {
            page.put(line);
        } else {
            tell_graph(mapping, line, page);
        }
        page.push('\n');
    }
}

/// The answers to a group, of which the first line has the declarations.
pub(crate) fn tell_group(hooks: &Hooks, group: &str, page: &mut Page) {
    let (declarations, lines) = parted(group, '\n');
    if let Some(mapping) = declare_all(page, hooks, declarations) {
        tell_graphs(&mapping, lines, page);
    }
}
