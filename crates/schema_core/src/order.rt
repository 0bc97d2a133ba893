//! The order in which tables are created.

ghost use Rattle.std.specs.Prelude.{◌≡◌, ◌<◌, ◌==◌, ◌++◌, length, true, IfOk, OnOk};
ghost use Rattle.std.specs.List.{list_any, list_all};
ghost use Rattle.std.specs.Option.{option_to_list};
ghost use Rattle.schema_core.specs.Catalog.{target_of, IsTable};
ghost use Rattle.schema_core.specs.DependencyOrder.{is_among, is_settled, is_ready, least_left, next_table, and_next, dependency_order};

use crate::{ForeignSpec, Schema};
use base_core::TableId;
use std::alloc::{AllocError, Global};

/// Whether the table is one of these.
fn is_among(placed: &[TableId], table: TableId) -> bool
    ensures { result ≡ is_among placed.now table }
{
    placed.iter().any(|other| other.0 == table.0)
}

impl Schema {
    /// Whether the target of a foreign key is the table itself or placed.
    fn is_settled(&self, placed: &[TableId], table: TableId, foreign: &ForeignSpec) -> bool
        ensures { result ≡ is_settled placed.now table (target_of self.now foreign.now) }
    {
        match self.find(&foreign.target) {
            Some(target) => target.0 == table.0 || is_among(placed, target),
            None => false,
        }
    }

    /// Whether all targets of a table are placed, or the table itself.
    fn is_ready(&self, placed: &[TableId], table: TableId) -> bool
        requires { IsTable self.now table }
        ensures { result ≡ is_ready self.now placed.now table }
    {
        self.spec(table)
            .foreigns
            .as_slice()
            .iter()
            .all(|foreign| self.is_settled(placed, table, foreign))
    }

    #[tactic(auto, using(crate::proofs::Placing::find_steps))]
    /// The least table that is not placed, and ready.
    fn least_ready(&self, placed: &[TableId]) -> Option<TableId>
        ensures { result ≡ least_left self.now placed.now (is_ready self.now placed.now) }
    {
        for number in 0..self.count() {
            let table = TableId(number);
            if !is_among(placed, table) && self.is_ready(placed, table) {
                return Some(table);
            }
        }
        None
    }

    #[tactic(auto, using(crate::proofs::Placing::find_steps))]
    /// The least table that is not placed.
    fn least_left(&self, placed: &[TableId]) -> Option<TableId>
        ensures { result ≡ least_left self.now placed.now (λ table. true) }
    {
        for number in 0..self.count() {
            let table = TableId(number);
            if !is_among(placed, table) {
                return Some(table);
            }
        }
        None
    }

    #[tactic(auto, unfolding(crate::specs::DependencyOrder::next_table))]
    /// The table that comes after these in the order of creation.
    fn next_table(&self, placed: &[TableId]) -> Option<TableId>
        ensures { result ≡ next_table self.now placed.now }
    {
        match self.least_ready(placed) {
            Some(table) => Some(table),
            None => self.least_left(placed),
        }
    }

    /// The table that comes after these goes to their end, if there is one.
    fn place_next(&self, placed: &mut Vec<TableId>) -> Result<(), AllocError>
        ensures placed { OnOk result (placed.new.items ≡ and_next self.now placed.old.items) }
    {
        match self.next_table(placed.as_slice()) {
            Some(table) => {
                placed.push(table)?;
                Ok(())
            }
            None => Ok(()),
        }
    }

    #[tactic(auto, using(crate::proofs::Placing::order_steps), unfolding(crate::specs::DependencyOrder::dependency_order))]
    /// All tables in the order of creation: each time the least declared table whose other targets are placed, and where none
    /// is ready the least one left.
    pub fn tables_in_order(&self, alloc: Global) -> Result<Vec<TableId>, AllocError>
        requires { self.now.resolved ≡ true }
        ensures order { IfOk result (λ order. order.items ≡ dependency_order self.now) }
    {
        let mut placed = Vec::new(alloc);
        for _number in 0..self.count() {
            self.place_next(&mut placed)?;
        }
        Ok(placed)
    }
}
