//! The classes of the graphs, from lines.

use base_core::{ListOf, Refusal, Value};
use class_mapping::{Cascade, ClassSpec, Declarations, Mapping, RelationSpec};
use class_types::Hooks;
use notations::{Page, parted};

/// The tables.
const TABLES: [&str; 8] = [
    "users id:ik kind:i",
    "addresses id:ik user_id:i user_id>users",
    "parts user_id:ik no:ik user_id>users",
    "tags id:ik",
    "enrol u:ik t:ik u>users t>tags",
    "nodes id:ik next_id:i next_id>nodes",
    "admins id:ik id>users",
    "logs id:ik admin_id:i admin_id>admins",
];

/// The classes: a name, a table, the class that it extends and its discriminator, `-` for none; then the relationships, each
/// with its target behind `>` and its partner behind a dot. A collection has `*` before it, `!` behind it where it has orphans,
/// and behind `/` its secondary table, if there is one.
const CLASSES: [&str; 7] = [
    "User users - kind *addresses>Address.user! *parts>Part.owner! *tags>Tag.users/enrol",
    "Admin admins User - *logs>Log.admin",
    "Address addresses - - user>User.addresses",
    "Part parts - - owner>User.parts",
    "Tag tags - - *users>User.tags/enrol",
    "Node nodes - - next>Node.prevs *prevs>Node.next",
    "Log logs - - admin>Admin.logs",
];

/// The flags of a collection with orphans.
fn cascade(orphans: bool) -> Option<Cascade> {
    if orphans {
        Some(Cascade {
            save_update: true,
            merge: true,
            refresh_expire: false,
            expunge: false,
            delete: true,
            delete_orphan: true,
        })
    } else {
        None
    }
}

fn relation(page: &mut Page, word: &str) -> RelationSpec {
    let (shown, rest) = parted(word, '>');
    let (target, rest) = parted(rest, '.');
    let (rest, secondary) = parted(rest, '/');
    RelationSpec {
        many: shown.starts_with('*'),
        name: page.name(shown.trim_start_matches('*')),
        target: page.name(target),
        secondary: page.named(secondary),
        partner: page.name(rest.trim_end_matches('!')),
        backref: false,
        using: ListOf::new(page.alloc()),
        cascade: cascade(rest.ends_with('!')),
        post_update: false,
    }
}

fn relations(page: &mut Page, words: &str) -> ListOf<RelationSpec> {
    let mut relations = ListOf::new(page.alloc());
    for word in words.split(' ') {
        let relation = relation(page, word);
        page.add(&mut relations, relation);
    }
    relations
}

/// A class; with a base or a discriminator it has an identity. A dash is no name.
fn class(page: &mut Page, line: &str, number: u32) -> ClassSpec {
    let (shown, rest) = parted(line, ' ');
    let (table, rest) = parted(rest, ' ');
    let (base, rest) = parted(rest, ' ');
    let (discriminator, rest) = parted(rest, ' ');
    let identity = if base == "-" && discriminator == "-" {
        None
    } else {
        Some(Value::Int(i64::from(number)))
    };
    ClassSpec {
        name: page.name(shown),
        base: page.named(base.trim_start_matches('-')),
        table: page.named(table.trim_start_matches('-')),
        discriminator: page.named(discriminator.trim_start_matches('-')),
        identity,
        owned: ListOf::new(page.alloc()),
        relations: relations(page, rest),
        validators: ListOf::new(page.alloc()),
    }
}

/// Declares the table of a line, where a number is left for it.
fn declare_table(
    page: &mut Page,
    declarations: &mut Declarations,
    line: &str,
) -> Result<(), Refusal> {
    let spec = page.table(line);
    if declarations.schema().count() < u32::MAX {
        declarations.declare_table(spec)?;
    }
    Ok(())
}

/// Declares the class of a line, where a number is left for it.
fn declare_class(
    page: &mut Page,
    declarations: &mut Declarations,
    hooks: &Hooks,
    line: &str,
) -> Result<(), Refusal> {
    let spec = class(page, line, declarations.count());
    if declarations.count() < u32::MAX {
        declarations.declare_class(spec, hooks)?;
    }
    Ok(())
}

/// The mapping: users with addresses, parts and tags, administrators with logs, and nodes with a next one.
pub(crate) fn declare_all(page: &mut Page) -> Result<Mapping, Refusal> {
    let mut declarations = Declarations::new(page.alloc());
    let hooks = Hooks::new(page.alloc());
    for line in TABLES.as_slice() {
        declare_table(page, &mut declarations, line)?;
    }
    for line in CLASSES.as_slice() {
        declare_class(page, &mut declarations, &hooks, line)?;
    }
    match declarations.configure() {
        Ok(mapping) => Ok(mapping),
        Err(refused) => Err(refused.refusal),
    }
}
