//! What is told of a line's answer.

ghost use Rattle.std.specs.Prelude.{◌≡◌, ◌++◌, IfOk, OnOk, codes};
ghost use Rattle.std.specs.List.{All};
ghost use Rattle.printing.specs.Texts.{bool_text, with_leading_separators, with_separators};
ghost use Rattle.schema_core.specs.Catalog.{IsTable};
ghost use Rattle.shell_replies.specs.Answers as told;
ghost use Rattle.shell_replies.specs.Answers.{CanBeTold};

use crate::naming::name_of_class;
use crate::reply::Reply;
use base_core::{ClassId, ObjId, RowList, TableId};
use class_mapping::Mapping;
use command_resolve::Answer;
use object_arena::State;
use schema_core::Schema;
use shell_parts::Bound;
use std::alloc::{AllocError, Global};

/// The reply that tells of an answer.
pub fn reply_of(alloc: Global, mapping: &Mapping, answer: &Answer) -> Result<Reply, AllocError>
    requires declared { CanBeTold mapping.now answer.now }
    ensures { IfOk result (λ reply. reply ≡ told.answer_text mapping.now answer.now) }
{
    let mut reply = Reply::new(alloc);
    put_answer(&mut reply, mapping, answer)?;
    Ok(reply)
}

/// What is told of an answer goes behind a reply.
fn put_answer(reply: &mut Reply, mapping: &Mapping, answer: &Answer) -> Result<(), AllocError>
    requires declared { CanBeTold mapping.now answer.now }
    ensures { OnOk result
        (reply.new ≡ reply.old ++ told.answer_text mapping.now answer.now) }
{
    match answer {
        Answer::Nothing | Answer::Bind(_, _) => Ok(()),
        Answer::Value(value) => reply.put_value(value),
        Answer::Thing(thing) => put_thing_line(reply, mapping, thing),
        Answer::State(state) => reply.put_line(state_word(*state)),
        Answer::Same(same) => reply.put_line(truth_word(*same)),
        Answer::Rows(rows) => reply.put_answers(rows),
        Answer::Count(count) => reply.put_count(*count),
        Answer::Tables(tables) => put_tables(reply, mapping.schema(), tables.as_slice()),
    }
}

/// A line with what is shown of a thing goes behind a reply.
fn put_thing_line(reply: &mut Reply, mapping: &Mapping, thing: &Bound) -> Result<(), AllocError>
    ensures { OnOk result
        (reply.new ≡ reply.old ++ told.line_of (told.thing_text mapping.now thing.now)) }
{
    put_thing(reply, mapping, thing)?;
    reply.put("\n")
}

/// What is shown of a thing goes behind a reply.
fn put_thing(reply: &mut Reply, mapping: &Mapping, thing: &Bound) -> Result<(), AllocError>
    ensures { OnOk result
        (reply.new ≡ reply.old ++ told.thing_text mapping.now thing.now) }
{
    match thing {
        Bound::Nothing => reply.put("null"),
        Bound::Object(object, class) => put_member(reply, mapping, &(*object, *class)),
        Bound::Objects(members) => put_list(reply, mapping, members.as_slice()),
        Bound::Saved(_) => Ok(()),
    }
}

/// An object with its class goes behind a reply.
fn put_member(
    reply: &mut Reply,
    mapping: &Mapping,
    member: &(ObjId, ClassId),
) -> Result<(), AllocError>
    ensures { OnOk result
        (reply.new ≡ reply.old ++ told.member_text mapping.now member.now) }
{
    reply.put_object(name_of_class(mapping, member.1), member.0)
}

/// A list of objects in brackets goes behind a reply.
fn put_list(
    reply: &mut Reply,
    mapping: &Mapping,
    members: &[(ObjId, ClassId)],
) -> Result<(), AllocError>
    ensures { OnOk result (reply.new ≡ reply.old ++ (codes "["
        ++ with_separators (codes ", ") (told.member_text mapping.now) members.now ++ codes "]")) }
{
    reply.put("[")?;
    put_members(reply, mapping, members)?;
    reply.put("]")
}

/// Objects with commas between them go behind a reply.
fn put_members(
    reply: &mut Reply,
    mapping: &Mapping,
    members: &[(ObjId, ClassId)],
) -> Result<(), AllocError>
    ensures { OnOk result (reply.new ≡ reply.old
        ++ with_separators (codes ", ") (told.member_text mapping.now) members.now) }
{
    match members.split_first() {
        Some((first, rest)) => {
            put_member(reply, mapping, first)?;
            put_led(reply, mapping, rest)
        }
        None => Ok(()),
    }
}

/// Objects, each behind a comma, go behind a reply.
fn put_led(
    reply: &mut Reply,
    mapping: &Mapping,
    members: &[(ObjId, ClassId)],
) -> Result<(), AllocError>
    ensures { OnOk result (reply.new ≡ reply.old
        ++ with_leading_separators (codes ", ") (told.member_text mapping.now) members.now) }
{
    for member in members {
        put_one_led(reply, mapping, member)?;
    }
    Ok(())
}

/// An object goes behind a comma, and that behind a reply.
fn put_one_led(
    reply: &mut Reply,
    mapping: &Mapping,
    member: &(ObjId, ClassId),
) -> Result<(), AllocError>
    ensures { OnOk result
        (reply.new ≡ reply.old ++ (codes ", " ++ told.member_text mapping.now member.now)) }
{
    reply.put(", ")?;
    put_member(reply, mapping, member)
}

/// Tables with their rows go behind a reply.
fn put_tables(
    reply: &mut Reply,
    schema: &Schema,
    tables: &[(TableId, RowList)],
) -> Result<(), AllocError>
    requires declared { All (λ table. IsTable schema.now table.0) tables.now }
    ensures { OnOk result (reply.new ≡ reply.old ++ told.tables_text schema.now tables.now) }
{
    for table in tables {
        reply.put_table(schema.spec(table.0), &table.1)?;
    }
    Ok(())
}

/// The word of a state.
fn state_word(state: State) -> &'static str
    ensures { result.now ≡ told.state_text state }
{
    match state {
        State::Transient => "transient",
        State::Pending => "pending",
        State::Persistent => "persistent",
        State::Deleted => "deleted",
        State::Detached => "detached",
    }
}

/// The word of a truth value.
fn truth_word(holds: bool) -> &'static str
    ensures { result.now ≡ bool_text holds }
{
    if holds { "true" } else { "false" }
}
