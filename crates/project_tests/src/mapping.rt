//! The classes of the graphs, from a line.

use crate::acts::known;
use base_core::{ListOf, Name};
use class_mapping::{ClassSpec, Declarations, Mapping, RelationSpec};
use class_types::Hooks;
use notations::{Page, parted};

/// A relationship: its target stands behind `>` and its partner behind a dot. A collection has `*` before it, and behind `/` its
/// secondary table, if there is one; `!` stands behind the partner of a link that is written late.
fn relation(page: &mut Page, word: &str) -> RelationSpec {
    let (shown, rest) = parted(word, '>');
    let (target, rest) = parted(rest, '.');
    let (partner, secondary) = parted(rest, '/');
    RelationSpec {
        many: shown.starts_with('*'),
        name: page.name(shown.trim_start_matches('*')),
        target: page.name(target),
        secondary: page.named(secondary),
        partner: page.name(partner.trim_end_matches('!')),
        backref: false,
        using: ListOf::new(page.alloc()),
        cascade: None,
        post_update: partner.ends_with('!'),
    }
}

fn relations(page: &mut Page, words: &str) -> ListOf<RelationSpec> {
    let mut relations = ListOf::new(page.alloc());
    for word in words.split(' ') {
        if !word.is_empty() {
            let relation = relation(page, word);
            page.add(&mut relations, relation);
        }
    }
    relations
}

/// The column that belongs to a class and its descendants alone, if there is one.
fn owned(page: &mut Page, word: &str) -> ListOf<Name> {
    let mut owned = ListOf::new(page.alloc());
    if !word.is_empty() {
        let name = page.name(word);
        page.add(&mut owned, name);
    }
    owned
}

/// A class: its name, its table, the class that it extends, its discriminator, its identity and the column that it owns, with
/// commas between them and nothing for none; then its relationships, each behind a blank.
fn class(page: &mut Page, line: &str) -> ClassSpec {
    let (head, words) = parted(line, ' ');
    let (name, rest) = parted(head, ',');
    let (table, rest) = parted(rest, ',');
    let (base, rest) = parted(rest, ',');
    let (discriminator, rest) = parted(rest, ',');
    let (identity, column) = parted(rest, ',');
    ClassSpec {
        name: page.name(name),
        base: page.named(base),
        table: page.named(table),
        discriminator: page.named(discriminator),
        identity: known(page, identity),
        owned: owned(page, column),
        relations: relations(page, words),
        validators: ListOf::new(page.alloc()),
    }
}

/// Declares the table of a line, where a number is left for it.
fn declare_table(page: &mut Page, declarations: &mut Declarations, line: &str) {
    let spec = page.table(line);
    if declarations.schema().count() < u32::MAX {
        match declarations.declare_table(spec) {
            Ok(_) => {}
            Err(refusal) => page.note_done(Err(refusal)),
        }
    }
}

/// Declares the class of a line, where a number is left for it.
fn declare_class(page: &mut Page, declarations: &mut Declarations, hooks: &Hooks, line: &str) {
    let spec = class(page, line);
    if declarations.count() < u32::MAX {
        match declarations.declare_class(spec, hooks) {
            Ok(_) => {}
            Err(refusal) => page.note_done(Err(refusal)),
        }
    }
}

/// The mapping of the tables and classes of a line. The page notes what is refused.
pub(crate) fn declare_all(page: &mut Page, hooks: &Hooks, line: &str) -> Option<Mapping> {
    let mut declarations = Declarations::new(page.alloc());
    let (tables, classes) = parted(line, '|');
    for table in tables.split(';') {
        declare_table(page, &mut declarations, table);
    }
    for class in classes.split(';') {
        declare_class(page, &mut declarations, hooks, class);
    }
    match declarations.configure() {
        Ok(mapping) => Some(mapping),
        Err(refused) => {
            page.note_done(Err(refused.refusal));
            None
        }
    }
}
