//! Selects and bulk statements of lines.

ghost use Rattle.std.specs.Prelude.{ℕ, IfErr, IfOk, IsTrue};
ghost use Rattle.base_core.specs.Answers.{Gives};
ghost use Rattle.object_arena.specs.Graph.{Graph};
ghost use Rattle.script_resolve.specs.Refusals.{CanRefuse};
ghost use Rattle.script_resolve.specs.Sayable.{is_sayable_bulk, is_sayable_select};
ghost use Rattle.command_resolve.specs.Resolving as spec;
ghost use Rattle.command_resolve.specs.Standing.{IsResolved};

use crate::resolved::Resolved;
use base_core::Refusal;
use class_mapping::Mapping;
use script_resolve::{resolve_bulk, resolve_select};
use script_types::{SynBulk, SynSelect};
use sqlite_items::Boxed;
use std::alloc::Global;

/// The select of a line.
pub(crate) fn resolved_rows(
    alloc: Global,
    mapping: &Mapping,
    written: &SynSelect,
) -> Result<Resolved, Refusal>
    requires sayable { IsTrue (is_sayable_select written.now) }
    ensures line { Gives (λ line. line) result (spec.resolved_rows mapping.now written.now) }
    ensures cause { IfErr result CanRefuse }
    ensures stands { (graph : Graph) → (drawn : ℕ)
        → IfOk result (IsResolved mapping.now graph drawn) }
{
    let select = resolve_select(alloc, mapping.schema(), written)?;
    Ok(Resolved::Rows(Boxed::new(alloc, select)?))
}

/// The bulk statement of a line.
pub(crate) fn resolved_statement(
    alloc: Global,
    mapping: &Mapping,
    written: &SynBulk,
) -> Result<Resolved, Refusal>
    requires sayable { IsTrue (is_sayable_bulk written.now) }
    ensures line { Gives (λ line. line) result
        (spec.resolved_statement mapping.now written.now) }
    ensures cause { IfErr result CanRefuse }
    ensures stands { (graph : Graph) → (drawn : ℕ)
        → IfOk result (IsResolved mapping.now graph drawn) }
{
    let statement = resolve_bulk(alloc, mapping.schema(), written)?;
    Ok(Resolved::Bulk(Boxed::new(alloc, statement)?))
}
