//! What is told of what a line did.

ghost use Rattle.std.specs.Prelude.{◌≡◌, ◌++◌, true, OnOk};
ghost use Rattle.std.specs.List.{flat_map};
ghost use Rattle.shell_replies.specs.Notes as told;

use crate::naming::SessionNames;
use crate::reply::Reply;
use base_core::Dialect;
use keeper_core::{Note, Sent};
use schema_core::Schema;
use std::alloc::{AllocError, Global};

/// How the texts of statements are printed: in which dialect, and whether those that each line sends are.
#[derive(Clone, Copy, PartialEq, Eq)]
pub struct PrintOptions {
    pub dialect: Dialect,
    pub echo: bool,
}

/// What is told of what the line of a number did goes behind a reply: its warnings, and under an echo its statements, in the
/// order of their happening, and behind them the foreign keys that are added once all tables are made.
pub fn put_notes(
    reply: &mut Reply,
    alloc: Global,
    options: PrintOptions,
    line: u32,
    names: &SessionNames<'_>,
    notes: &[Note],
) -> Result<(), AllocError>
    ensures { OnOk result (reply.new ≡ reply.old
        ++ told.notes_text options line names.now.mapping.now names.now.arena.now notes.now) }
{
    put_each(reply, alloc, options, line, names, notes)?;
    put_later(reply, alloc, options, names.mapping.schema(), notes)
}

/// What is told of each note goes behind a reply.
fn put_each(
    reply: &mut Reply,
    alloc: Global,
    options: PrintOptions,
    line: u32,
    names: &SessionNames<'_>,
    notes: &[Note],
) -> Result<(), AllocError>
    ensures { OnOk result (reply.new ≡ reply.old ++ flat_map
        (told.note_lines options line names.now.mapping.now names.now.arena.now) notes.now) }
{
    for note in notes {
        put_note(reply, alloc, options, line, names, note)?;
    }
    Ok(())
}

/// What is told of a note goes behind a reply.
fn put_note(
    reply: &mut Reply,
    alloc: Global,
    options: PrintOptions,
    line: u32,
    names: &SessionNames<'_>,
    note: &Note,
) -> Result<(), AllocError>
    ensures { OnOk result (reply.new ≡ reply.old
        ++ told.note_lines options line names.now.mapping.now names.now.arena.now note.now) }
{
    match note {
        Note::Sent(sent) => put_statement(reply, alloc, options, names.mapping.schema(), sent),
        Note::Warn(warning) => reply.put_warning(line, *warning, names),
        Note::Filled(_) => Ok(()),
    }
}

/// Under an echo the lines of a statement go behind a reply.
fn put_statement(
    reply: &mut Reply,
    alloc: Global,
    options: PrintOptions,
    schema: &Schema,
    sent: &Sent,
) -> Result<(), AllocError>
    requires { schema.now.resolved ≡ true }
    ensures { OnOk result
        (reply.new ≡ reply.old ++ told.statement_lines options schema.now sent.now) }
{
    if options.echo {
        return reply.put_sent(alloc, options.dialect, schema, sent);
    }
    Ok(())
}

/// Under an echo the foreign keys that are added once all tables are made go behind a reply.
fn put_later(
    reply: &mut Reply,
    alloc: Global,
    options: PrintOptions,
    schema: &Schema,
    notes: &[Note],
) -> Result<(), AllocError>
    requires { schema.now.resolved ≡ true }
    ensures { OnOk result
        (reply.new ≡ reply.old ++ told.later_lines options schema.now notes.now) }
{
    if options.echo {
        return reply.put_later_foreigns(alloc, options.dialect, schema, notes);
    }
    Ok(())
}
