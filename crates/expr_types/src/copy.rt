//! Copies of expressions and statements, which equal what they copy. A tree keeps no allocator, so its copy is given one.

ghost use Rattle.std.specs.Prelude.{◌≡◌, IfOk};

use crate::{Bulk, Expr, Joined, ObjectQuery, Select, Statement};
use base_core::{ColumnNo, Copied, ListOf, Name, RelNo, both};
use sqlite_items::{Boxed, Items};
use std::alloc::{AllocError, Global};

/// A type whose copies, made in memory that is given, equal the original.
pub trait CopiedIn: Sized {
    /// A value equal to this one. The only error is that memory ran out.
    fn copied_in(&self, alloc: Global) -> Result<Self, AllocError>
        ensures { IfOk result (λ copy. copy ≡ self.now) };
}

#[cycle(copies)]
fn boxed(alloc: Global, e: &Boxed<Expr>) -> Result<Boxed<Expr>, AllocError>
    ensures { IfOk result (λ copy. copy ≡ e.now) }
{
    Boxed::new(alloc, expression(alloc, e.get())?)
}

#[cycle(copies)]
fn parts(alloc: Global, es: &Items<Expr>) -> Result<Items<Expr>, AllocError>
    ensures { IfOk result (λ copy. copy ≡ es.now) }
{
    let mut out = Items::new(alloc);
    for e in es.as_slice() {
        out.push(expression(alloc, e)?)?;
    }
    Ok(out)
}

#[cycle(copies)]
fn expression(alloc: Global, e: &Expr) -> Result<Expr, AllocError>
    ensures { IfOk result (λ copy. copy ≡ e.now) }
{
    match e {
        Expr::Column(source, column) => Ok(Expr::Column(*source, *column)),
        Expr::Lit(value) => Ok(Expr::Lit(value.copied()?)),
        Expr::Compare(op, a, b) => {
            let (a, b) = both(boxed(alloc, a), boxed(alloc, b))?;
            Ok(Expr::Compare(*op, a, b))
        }
        Expr::IsNull(negated, a) => Ok(Expr::IsNull(*negated, boxed(alloc, a)?)),
        Expr::And(es) => Ok(Expr::And(parts(alloc, es)?)),
        Expr::Or(es) => Ok(Expr::Or(parts(alloc, es)?)),
        Expr::Not(a) => Ok(Expr::Not(boxed(alloc, a)?)),
        Expr::Arith(op, a, b) => {
            let (a, b) = both(boxed(alloc, a), boxed(alloc, b))?;
            Ok(Expr::Arith(*op, a, b))
        }
        Expr::Neg(a) => Ok(Expr::Neg(boxed(alloc, a)?)),
        Expr::Concat(a, b) => {
            let (a, b) = both(boxed(alloc, a), boxed(alloc, b))?;
            Ok(Expr::Concat(a, b))
        }
        Expr::Like(negated, a, b) => {
            let (a, b) = both(boxed(alloc, a), boxed(alloc, b))?;
            Ok(Expr::Like(*negated, a, b))
        }
        Expr::Ilike(negated, a, b) => {
            let (a, b) = both(boxed(alloc, a), boxed(alloc, b))?;
            Ok(Expr::Ilike(*negated, a, b))
        }
        Expr::InList(negated, a, values) => {
            let (a, values) = both(boxed(alloc, a), values.copied())?;
            Ok(Expr::InList(*negated, a, values))
        }
        Expr::Between(negated, a, low, high) => {
            let (a, (low, high)) = both(
                boxed(alloc, a),
                both(boxed(alloc, low), boxed(alloc, high)),
            )?;
            Ok(Expr::Between(*negated, a, low, high))
        }
        Expr::Distinct(negated, a, b) => {
            let (a, b) = both(boxed(alloc, a), boxed(alloc, b))?;
            Ok(Expr::Distinct(*negated, a, b))
        }
        Expr::Call(function, es) => Ok(Expr::Call(*function, parts(alloc, es)?)),
        Expr::CountAll => Ok(Expr::CountAll),
        Expr::Exists(negated, origin, a) => {
            let (origin, a) = both(origin.copied(), boxed(alloc, a))?;
            Ok(Expr::Exists(*negated, origin, a))
        }
    }
}

impl CopiedIn for Expr {
    fn copied_in(&self, alloc: Global) -> Result<Expr, AllocError> {
        expression(alloc, self)
    }
}

impl CopiedIn for Items<Expr> {
    fn copied_in(&self, alloc: Global) -> Result<Items<Expr>, AllocError> {
        parts(alloc, self)
    }
}

impl CopiedIn for Option<Expr> {
    fn copied_in(&self, alloc: Global) -> Result<Option<Expr>, AllocError> {
        match self {
            Some(e) => Ok(Some(e.copied_in(alloc)?)),
            None => Ok(None),
        }
    }
}

impl CopiedIn for (Expr, Option<Name>) {
    fn copied_in(&self, alloc: Global) -> Result<(Expr, Option<Name>), AllocError> {
        both(self.0.copied_in(alloc), Copied::copied(&self.1))
    }
}

impl CopiedIn for (Expr, bool) {
    fn copied_in(&self, alloc: Global) -> Result<(Expr, bool), AllocError> {
        Ok((self.0.copied_in(alloc)?, self.1))
    }
}

impl CopiedIn for (ColumnNo, Option<Expr>) {
    fn copied_in(&self, alloc: Global) -> Result<(ColumnNo, Option<Expr>), AllocError> {
        Ok((self.0, self.1.copied_in(alloc)?))
    }
}

impl CopiedIn for RelNo {
    fn copied_in(&self, _alloc: Global) -> Result<RelNo, AllocError> {
        Ok(*self)
    }
}

impl<T: CopiedIn + Drop> CopiedIn for ListOf<T> {
    fn copied_in(&self, alloc: Global) -> Result<ListOf<T>, AllocError> {
        let mut items = Vec::new(alloc);
        for item in self.as_slice() {
            items.push(item.copied_in(alloc)?)?;
        }
        Ok(ListOf::from_vec(items))
    }
}

impl CopiedIn for Joined {
    fn copied_in(&self, alloc: Global) -> Result<Joined, AllocError> {
        Ok(Joined {
            left: self.left,
            origin: self.origin.copied()?,
            on: self.on.copied_in(alloc)?,
        })
    }
}

impl CopiedIn for Select {
    fn copied_in(&self, alloc: Global) -> Result<Select, AllocError> {
        let ((items, first), ((joins, filter), ((groups, having), order))) = both(
            both(self.items.copied_in(alloc), self.first.copied()),
            both(
                both(self.joins.copied_in(alloc), self.filter.copied_in(alloc)),
                both(
                    both(self.groups.copied_in(alloc), self.having.copied_in(alloc)),
                    self.order.copied_in(alloc),
                ),
            ),
        )?;
        Ok(Select {
            distinct: self.distinct,
            items,
            first,
            joins,
            filter,
            groups,
            having,
            order,
            limit: self.limit,
            offset: self.offset,
        })
    }
}

impl CopiedIn for Bulk {
    fn copied_in(&self, alloc: Global) -> Result<Bulk, AllocError> {
        match self {
            Bulk::Insert {
                table,
                columns,
                values,
            } => {
                let (columns, values) = both(columns.copied(), values.copied())?;
                Ok(Bulk::Insert {
                    table: *table,
                    columns,
                    values,
                })
            }
            Bulk::Update {
                table,
                cells,
                filter,
            } => {
                let (cells, filter) = both(cells.copied_in(alloc), filter.copied_in(alloc))?;
                Ok(Bulk::Update {
                    table: *table,
                    cells,
                    filter,
                })
            }
            Bulk::Delete { table, filter } => Ok(Bulk::Delete {
                table: *table,
                filter: filter.copied_in(alloc)?,
            }),
        }
    }
}

impl CopiedIn for Statement {
    fn copied_in(&self, alloc: Global) -> Result<Statement, AllocError> {
        match self {
            Statement::Select(select) => Ok(Statement::Select(select.copied_in(alloc)?)),
            Statement::Bulk(bulk) => Ok(Statement::Bulk(bulk.copied_in(alloc)?)),
            Statement::Row(row) => Ok(Statement::Row(row.copied()?)),
        }
    }
}

impl CopiedIn for ObjectQuery {
    fn copied_in(&self, alloc: Global) -> Result<ObjectQuery, AllocError> {
        let (select, (joined, selectin)) = both(
            self.select.copied_in(alloc),
            both(self.joined.copied_in(alloc), self.selectin.copied_in(alloc)),
        )?;
        Ok(ObjectQuery {
            class: self.class,
            select,
            joined,
            selectin,
        })
    }
}
