//! What each case of a resolved line does.

ghost use Rattle.std.specs.Prelude.{IfErr};
ghost use Rattle.class_types.specs.Shown.{rules_of};
ghost use Rattle.session_scopes.specs.SessionState.{IsInStep};
ghost use Rattle.session_perform.specs.Performing.{IsPerformed, IsReady, program_of_resolved};
ghost use Rattle.session_perform.specs.Refused.{IsRefusedLine};

use crate::acting::{begin_nested, bulk, commit, nothing_told, roll_back, rows, tables};
use crate::changing::change_link;
use crate::links::{bind_related, read_link};
use crate::objects::{make, read_cell, same, state};
use crate::reading::{get, select_objects};
use base_core::Refusal;
use class_types::Hooks;
use command_resolve::{Answer, Resolved};
use keeper_core::Keeper;
use session_acts::flush_now;
use session_calls::{close, delete};
use session_loads::{expire, refresh};
use session_objects::{add, expunge, set_valid};
use session_scopes::Session;
use session_tables::{create_all, drop_all};

/// Does what a resolved line asks for, and answers what its reply tells. All that the line names is to be there. Values of new objects
/// and of cells are asked of these validators.
///
/// # Errors
/// What needs no statement is told first; then a transaction begins, where the line begins one, and what is to be written is written,
/// where the line asks for that; then comes what the store refuses. `refused` says for each case when it is refused and with what, and
/// what that leaves; each call that a case makes says it in words.
pub fn perform<K: Keeper>(
    session: &mut Session,
    keeper: &mut K,
    hooks: &Hooks,
    resolved: Resolved,
) -> Result<Answer, Refusal>
    requires in_step { IsInStep session.old (K.moment keeper.old) }
    requires ready { IsReady session.old resolved }
    ensures performed { IsPerformed K.moment (program_of_resolved (rules_of hooks.now) resolved)
        (session.old, keeper.old) result (session.new, keeper.new) }
    ensures refused { IfErr result (λ e. IsRefusedLine (rules_of hooks.now) resolved
        session.old (K.moment keeper.old) e session.new (K.moment keeper.new)) }
{
    match resolved {
        Resolved::CreateAll => nothing_told(create_all(session, keeper)),
        Resolved::DropAll => nothing_told(drop_all(session, keeper)),
        Resolved::Dump => tables(session, keeper),
        Resolved::New { name, class, cells } => {
            make(session, keeper, hooks, name, class, cells.as_slice())
        }
        Resolved::Get { name, class, key } => get(session, keeper, name, class, &key),
        Resolved::Objects { name, query } => select_objects(session, keeper, name, query.get()),
        Resolved::Related {
            name,
            object,
            relation,
        } => bind_related(session, keeper, name, object, relation),
        Resolved::BeginNested(name) => begin_nested(session, keeper, name),
        Resolved::SetCell(object, attr, value) => {
            nothing_told(set_valid(session, keeper, hooks, object, attr, value))
        }
        Resolved::ChangeLink(owner, relation, call) => {
            nothing_told(change_link(session, keeper, owner, relation, call))
        }
        Resolved::Add(object) => nothing_told(add(session, keeper, object)),
        Resolved::Delete(object) => nothing_told(delete(session, keeper, object)),
        Resolved::Expunge(object) => nothing_told(expunge(session, keeper, object)),
        Resolved::Expire(object) => nothing_told(expire(session, keeper, object)),
        Resolved::Refresh(object) => nothing_told(refresh(session, keeper, object)),
        Resolved::Show(thing) => Ok(Answer::Thing(thing)),
        Resolved::ShowCell(object, attr) => read_cell(session, keeper, object, attr),
        Resolved::ShowLink(object, relation) => read_link(session, keeper, object, relation),
        Resolved::State(object) => Ok(state(session, object)),
        Resolved::Same(object, other) => Ok(same(object, other)),
        Resolved::Flush => nothing_told(flush_now(session, keeper)),
        Resolved::Commit(handle) => nothing_told(commit(session, keeper, handle)),
        Resolved::Rollback(handle) => nothing_told(roll_back(session, keeper, handle)),
        Resolved::Close => nothing_told(close(session, keeper)),
        Resolved::Rows(select) => rows(session, keeper, select.get()),
        Resolved::Bulk(statement) => bulk(session, keeper, statement.get()),
    }
}
