//! The normal form of statements. The only error is that memory ran out.

ghost use Rattle.std.specs.Prelude.{◌≡◌, map, IfOk};
ghost use Rattle.expr_types.specs.Normal.{normal};
ghost use Rattle.expr_types.specs.NormalSelect as spec;
ghost use Rattle.statement_kinds.specs.NormalBulk as bulks;

use base_core::{ColumnNo, Copied, ListOf, both};
use expr_normal::normal;
use expr_types::{Bulk, CopiedIn, Expr, Joined, Select};
use sqlite_items::{Boxed, Items};
use std::alloc::{AllocError, Global};

fn form(alloc: Global, e: &Expr) -> Result<Expr, AllocError>
    ensures { IfOk result (λ n. n ≡ normal e.now) }
{
    let copy = e.copied_in(alloc)?;
    normal(alloc, copy)
}

fn form_if_given(alloc: Global, e: &Option<Expr>) -> Result<Option<Expr>, AllocError>
    ensures { IfOk result (λ n. n ≡ spec.normal_where e.now) }
{
    match e {
        Some(e) => Ok(Some(form(alloc, e)?)),
        None => Ok(None),
    }
}

fn forms(alloc: Global, es: &Items<Expr>) -> Result<Items<Expr>, AllocError>
    ensures { IfOk result (λ ns. ns ≡ map normal es.now) }
{
    let mut out = Items::new(alloc);
    for e in es.as_slice() {
        out.push(form(alloc, e)?)?;
    }
    Ok(out)
}

fn paired_forms<B: Copied + Drop>(
    alloc: Global,
    pairs: &ListOf<(Expr, B)>,
) -> Result<ListOf<(Expr, B)>, AllocError>
    ensures { IfOk result (λ ns. ns ≡ map (λ pair. (normal pair.0, pair.1)) pairs.now) }
{
    let mut out = Vec::new(alloc);
    for pair in pairs.as_slice() {
        out.push(both(form(alloc, &pair.0), pair.1.copied())?)?;
    }
    Ok(ListOf::from_vec(out))
}

fn join_form(alloc: Global, join: &Joined) -> Result<Joined, AllocError>
    ensures { IfOk result (λ n. n ≡ spec.normal_join join.now) }
{
    let (origin, on) = both(join.origin.copied(), form(alloc, &join.on))?;
    Ok(Joined {
        left: join.left,
        origin,
        on,
    })
}

fn join_forms(alloc: Global, joins: &ListOf<Joined>) -> Result<ListOf<Joined>, AllocError>
    ensures { IfOk result (λ ns. ns ≡ map spec.normal_join joins.now) }
{
    let mut out = Vec::new(alloc);
    for join in joins.as_slice() {
        out.push(join_form(alloc, join)?)?;
    }
    Ok(ListOf::from_vec(out))
}

fn select_form(alloc: Global, s: &Select) -> Result<Select, AllocError>
    ensures { IfOk result (λ n. n ≡ spec.normal_select s.now) }
{
    let ((items, first), ((joins, filter), ((groups, having), order))) = both(
        both(paired_forms(alloc, &s.items), s.first.copied()),
        both(
            both(join_forms(alloc, &s.joins), form_if_given(alloc, &s.filter)),
            both(
                both(forms(alloc, &s.groups), form_if_given(alloc, &s.having)),
                paired_forms(alloc, &s.order),
            ),
        ),
    )?;
    Ok(Select {
        items,
        first,
        joins,
        filter,
        groups,
        having,
        order,
        distinct: s.distinct,
        limit: s.limit,
        offset: s.offset,
    })
}

/// The normal form of a select: that of each of its expressions.
pub fn normal_select(alloc: Global, s: &Select) -> Result<Boxed<Select>, AllocError>
    ensures { IfOk result (λ n. n ≡ spec.normal_select s.now) }
{
    Boxed::new(alloc, select_form(alloc, s)?)
}

fn cell_forms(
    alloc: Global,
    cells: &ListOf<(ColumnNo, Option<Expr>)>,
) -> Result<ListOf<(ColumnNo, Option<Expr>)>, AllocError>
    ensures { IfOk result (λ ns. ns ≡ map (λ cell. (cell.0, spec.normal_where cell.1)) cells.now) }
{
    let mut out = Vec::new(alloc);
    for cell in cells.as_slice() {
        out.push((cell.0, form_if_given(alloc, &cell.1)?))?;
    }
    Ok(ListOf::from_vec(out))
}

fn bulk_form(alloc: Global, b: &Bulk) -> Result<Bulk, AllocError>
    ensures { IfOk result (λ n. n ≡ bulks.normal_bulk b.now) }
{
    match b {
        Bulk::Insert { .. } => b.copied_in(alloc),
        Bulk::Update {
            table,
            cells,
            filter,
        } => {
            let (cells, filter) = both(cell_forms(alloc, cells), form_if_given(alloc, filter))?;
            Ok(Bulk::Update {
                table: *table,
                cells,
                filter,
            })
        }
        Bulk::Delete { table, filter } => Ok(Bulk::Delete {
            table: *table,
            filter: form_if_given(alloc, filter)?,
        }),
    }
}

/// The same of a bulk statement.
pub fn normal_bulk(alloc: Global, b: &Bulk) -> Result<Boxed<Bulk>, AllocError>
    ensures { IfOk result (λ n. n ≡ bulks.normal_bulk b.now) }
{
    Boxed::new(alloc, bulk_form(alloc, b)?)
}
