//! What is done over a keeper that may take a file by those that do not own it.

ghost use Rattle.std.specs.Prelude.{◌≡◌, OnErr, IfOk};

use crate::shelf::Shelf;
use keeper_mem::OverKeepers;
use sqlite_database::Database;
use std::alloc::AllocError;

/// Does it over a new keeper, in memory until it is given a file. Who does it does not own the keeper, so the drops of what it holds
/// are proved here alone.
///
/// Where memory runs out nothing is done.
pub fn over_shelf<D: Database + Drop, P: OverKeepers>(
    rt: HostRuntime,
    program: &mut P,
) -> Result<(), AllocError>
    ensures done { IfOk result (λ _. P.is_done program.new) }
    ensures refused { OnErr result (program.new ≡ program.old) }
{
    let alloc = rt.alloc();
    let mut shelf = Box::new(alloc, Shelf::<D>::new(rt, alloc)?)?;
    program.run(&mut *shelf);
    Ok(())
}
