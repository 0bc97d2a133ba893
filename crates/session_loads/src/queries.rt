//! The objects of queries.

ghost use Rattle.std.specs.Prelude.{None, IfErr, IfOk};
ghost use Rattle.std.specs.List.{All};
ghost use Rattle.object_arena.specs.Graph.{IsObject};
ghost use Rattle.session_scopes.specs.SessionState.{IsInStep};
ghost use Rattle.session_calls.specs.Calling.{IsSessionCall};
ghost use Rattle.session_calls.specs.Steps.{pending_fault};
ghost use Rattle.session_loads.specs.Queries as steps;
ghost use Rattle.load_queries.specs.Selectin.{IsSelectable};
ghost use Rattle.session_loads.specs.Refusals.{IsRefusedLoading, IsRefusedQuery, no_fault};

use crate::loads::load;
use base_core::{ObjList, Refusal};
use class_mapping::Mapping;
use expr_types::ObjectQuery;
use keeper_core::{Keeper, Notes};
use load_queries::load_query;
use object_arena::Arena;
use session_acts::flush_now;
use session_scopes::{ObjectLoad, Session};
use std::alloc::Global;

/// The reading of the objects of a query.
#[derive(Drop)]
struct LoadQuery<'a> {
    query: &'a ObjectQuery,
}

impl<'a> ObjectLoad for LoadQuery<'a> {
    ghost use Rattle.std.specs.List.{All};
    ghost use Rattle.object_arena.specs.Graph.{IsObject};
    ghost use Rattle.load_calls.specs.Refusals.{CanRefuseQuery};
    ghost use Rattle.main_selects.specs.MainSelect.{main_select};
    ghost use Rattle.load_queries.specs.Selectin.{load_query};
    ghost use Rattle.session_loads.specs.Queries as steps;
    ghost use Rattle.load_queries.specs.Selectin.{IsSelectable};

    type Answer = ObjList;

    ghost is_ready = { λ load mapped graph. IsSelectable mapped load.query.now };

    ghost program = { λ load mapped. load_query mapped load.query.now };

    ghost is_found = { λ load mapped graph answer. All (IsObject graph) answer };

    ghost can_refuse = { λ load mapped graph refusal. CanRefuseQuery mapped graph (main_select mapped load.query.now) refusal };

    ghost is_shown = { λ load mapped old new refusal. Unit {0} };

    fn take<K: Keeper>(
        self,
        alloc: Global,
        mapping: &Mapping,
        arena: &mut Arena,
        keeper: &mut K,
        notes: &mut Notes,
    ) -> Result<ObjList, Refusal> {
        load_query(alloc, arena, mapping, keeper, self.query, notes)
    }
}

/// The objects of a query, in the order of the rows of its main select, one for each key, where it comes first. All that is to be
/// written is written before. With the objects the links of the query's joined options are filled, and then, by further selects, those
/// of its other options, one option after the other.
///
/// # Errors
/// `PendingRollbackError` while a failed flush waits for its rollback; then, in the transaction, what a flush is refused for; then what
/// the keeper refuses of a select, `DataError` only where that calculates, `InvalidRequestError(NoSuchIdentity)` for a row that names
/// no class, and `LimitReached(Objects)`. What was loaded by then stays.
pub fn select_objects<K: Keeper>(
    session: &mut Session,
    keeper: &mut K,
    query: &ObjectQuery,
) -> Result<ObjList, Refusal>
    requires in_step { IsInStep session.old (K.moment keeper.old) }
    requires query { IsSelectable session.old.mapping query.now }
    ensures call { IsSessionCall K.moment (λ objects. objects) (steps.select_objects query.now)
        (session.old, keeper.old) result (session.new, keeper.new) }
    ensures made { IfOk result (All (IsObject session.new.graph)) }
    ensures refused { IfErr result (λ e. IsRefusedLoading (pending_fault session.old) None
        no_fault (IsRefusedQuery query.now)
        session.old (K.moment keeper.old) e session.new (K.moment keeper.new)) }
{
    flush_now(session, keeper)?;
    load(session, keeper, LoadQuery { query })
}
