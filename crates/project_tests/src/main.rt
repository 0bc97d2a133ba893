//! Makes small graphs as lines of the standard input say, and writes what a flush of each changes. What is expected was made by
//! another program of the same rules.
//!
//! The input has groups with an empty line between them. The first line of a group has tables with `;` between them, and behind
//! `|` classes, as `mapping` reads them. Of the lines behind it `#` begins one that is written as it stands. Every other one makes
//! a graph, word by word, and its parts stand between colons. `n:CLASS` makes an object; `k:OBJECT:KEY` makes it persistent under
//! a key, `p:OBJECT:ADDED` pending with an add number, and `g:OBJECT` deleted and `d:OBJECT` detached where it was persistent.
//! `c:OBJECT:ATTRIBUTE:VALUE:BASE` is a cell, `x` for what is not known. `e:OBJECT:RELATION:END:CHANGED` is a many-to-one link (0
//! for none, 1 for a changed one), `m:OBJECT:RELATION:MEMBERS:BASE` a loaded collection and `l:OBJECT:RELATION:ADDED:REMOVED` an
//! unloaded link. `D:OBJECT` is to be deleted, `T:OBJECT` to be transient, and the link `X:OBJECT:RELATION` to become none.
//!
//! The answer is a line: new rows with their cells, `^PLACE.PART` for a part of the key of the new row of that place; changed
//! rows with their key and each cell behind its column's number; deleted rows as they were; foreign keys that are written
//! late; and warnings, each with the object, the class and the relationship. Where anything is refused the program says so alone.
#![tactic(auto)]

mod acts;
mod changes;
mod mapping;
mod player;

use class_types::Hooks;
use notations::Page;
use player::tell_group;
use std::alloc::{AllocError, Global};
use std::io;

/// The answers to all groups.
fn answers(alloc: Global, text: &str) -> Result<String, AllocError> {
    let mut page = Page::new(alloc);
    let hooks = Hooks::new(alloc);
    for group in text.split("\n\n") {
        tell_group(&hooks, group, &mut page);
    }
    page.into_text()
}

fn main(rt: HostRuntime) -> io::Result<()> {
    let alloc = rt.alloc();
    let text = io::read_to_string(alloc, rt.reader())?;
    match answers(alloc, &text) {
        Ok(said) => rt.print(said),
        Err(_) => rt.println("refused"),
    }
}
