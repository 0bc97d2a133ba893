//! What is read before a flush, over a keeper in memory.

ghost use Rattle.std.specs.Prelude.{◌≡◌, None, true};
ghost use Rattle.object_arena.specs.Fit.{IsFit};

use base_core::{ListOf, Refusal, TableId};
use class_mapping::Mapping;
use keeper_core::{Keeper, KeeperStop, Target};
use keeper_mem::MemKeeper;
use load_preparing::read_going;
use object_arena::Arena;
use schema_core::Schema;
use std::alloc::Global;

/// The table of nodes.
const NODES: TableId = TableId(5);

/// Makes the table of nodes, where there is such a table and no scope is open.
#[tactic(auto, using(keeper_calls::proofs::Attached::called_attached))]
fn create_nodes<K: Keeper>(
    alloc: Global,
    schema: &Schema,
    keeper: &mut K,
) -> Result<bool, KeeperStop>
    requires attached { (K.moment keeper.old).attached ≡ true }
    ensures { (K.moment keeper.new).attached ≡ true }
{
    if schema.count() <= NODES.0 || keeper.depth() != 0 {
        return Ok(false);
    }
    keeper.create(alloc, schema, NODES)
}

/// Starts the transaction, where none is in progress.
#[tactic(auto, using(keeper_calls::proofs::Attached::called_attached))]
fn begin<K: Keeper>(alloc: Global, keeper: &mut K) -> Result<(), KeeperStop>
    requires attached { (K.moment keeper.old).attached ≡ true }
    ensures { (K.moment keeper.new).attached ≡ true }
{
    if keeper.depth() != 0 {
        return Ok(());
    }
    keeper.begin(alloc)
}

/// Reads what a flush is to know of the objects that go, where the table of nodes was made alone and has no row.
fn read_from<K: Keeper>(
    alloc: Global,
    arena: &mut Arena,
    mapping: &Mapping,
    keeper: &mut K,
) -> Result<(), Refusal>
    requires fit { IsFit mapping.now arena.old }
    requires unused { (K.moment keeper.old).target ≡ None }
{
    keeper.attach(alloc, Target::Memory)?;
    let _made = create_nodes(alloc, mapping.schema(), keeper)?;
    begin(alloc, keeper)?;
    if keeper.depth() == 0 {
        return Err(Refusal::NotBuilt);
    }
    let mut notes = ListOf::new(alloc);
    read_going(alloc, arena, mapping, keeper, &mut notes)
}

/// The same over a new keeper in memory.
pub(crate) fn read_before(
    alloc: Global,
    arena: &mut Arena,
    mapping: &Mapping,
) -> Result<(), Refusal>
    requires fit { IsFit mapping.now arena.old }
{
    let mut keeper = MemKeeper::new(alloc, &[])?;
    read_from(alloc, arena, mapping, &mut keeper)
}
