//! Where aggregates and the columns of a grouped query stand.

ghost use Rattle.std.specs.Prelude.{◌≡◌};
ghost use Rattle.std.specs.List.{filter_map, list_all};
ghost use Rattle.std.specs.Option.{option_to_list};
ghost use Rattle.sql_semantics.specs.Plain as plain;
ghost use Rattle.script_resolve.specs.JudgedBulks as bulks;
ghost use Rattle.script_resolve.specs.Judging as spec;

use base_core::ColumnNo;
use expr_types::{Bulk, Expr, Joined, Select};
use expr_typing::has_aggregate;
use plain_statements::is_settled_select;

fn lacks_if_given(e: &Option<Expr>) -> bool
    ensures { result ≡ list_all plain.lacks_aggregate (option_to_list e.now) }
{
    match e {
        Some(e) => !has_aggregate(e),
        None => true,
    }
}

fn joins_lack(joins: &[Joined]) -> bool
    ensures { result ≡ list_all (λ join. plain.lacks_aggregate join.on) joins.now }
{
    for join in joins {
        if has_aggregate(&join.on) {
            return false;
        }
    }
    true
}

fn groups_lack(groups: &[Expr]) -> bool
    ensures { result ≡ list_all plain.lacks_aggregate groups.now }
{
    for group in groups {
        if has_aggregate(group) {
            return false;
        }
    }
    true
}

/// Whether no aggregate stands where there are no groups yet.
#[tactic(auto, using(crate::proofs::Placing::before_groups_lack))]
fn is_plain_before_groups(s: &Select) -> bool
    ensures { result ≡ list_all plain.lacks_aggregate (spec.before_groups s.now) }
{
    joins_lack(s.joins.as_slice()) && lacks_if_given(&s.filter) && groups_lack(s.groups.as_slice())
}

/// Whether columns and aggregates of a select stand where groups let them.
pub(crate) fn has_parts_in_place(s: &Select) -> bool
    ensures { result ≡ spec.has_parts_in_place s.now }
{
    is_plain_before_groups(s) && is_settled_select(s)
}

fn cells_lack(cells: &[(ColumnNo, Option<Expr>)]) -> bool
    ensures { result ≡ list_all plain.lacks_aggregate (filter_map (λ cell. cell.1) cells.now) }
{
    for cell in cells {
        if !lacks_if_given(&cell.1) {
            return false;
        }
    }
    true
}

/// Whether no aggregate stands in a bulk statement.
#[tactic(auto, using(crate::proofs::Placing::bulk_parts))]
pub(crate) fn bulk_lacks(b: &Bulk) -> bool
    ensures { result ≡ list_all plain.lacks_aggregate (bulks.expressions_in b.now) }
{
    match b {
        Bulk::Insert { .. } => true,
        Bulk::Update { cells, filter, .. } => {
            cells_lack(cells.as_slice()) && lacks_if_given(filter)
        }
        Bulk::Delete { filter, .. } => lacks_if_given(filter),
    }
}
