//! Statements from the words of calls.

use base_core::{ArithOp, ColumnNo, ListOf, RowList, TableId, Value, both};
use expr_types::{Bulk, CompareOp, Expr, Origin, Select};
use notations::{Page, number, parted};
use schema_core::RowStmt;
use sqlite_items::{Boxed, Items};
use std::alloc::Global;

// ---- statements on rows

/// So many rows, numbered from 0, and from 0 again after so many different numbers, with their keys left open.
fn open_rows(page: &mut Page, count: u32, different: u32) -> RowList {
    let mut rows = ListOf::new(page.alloc());
    if different == 0 {
        return rows;
    }
    for place in 0..count {
        let mut row = ListOf::new(page.alloc());
        page.add(&mut row, Value::Null);
        page.add(&mut row, Value::Int(i64::from(place % different)));
        page.add(&mut rows, row);
    }
    rows
}

/// The second column with the value that a word is.
fn second_column(page: &mut Page, word: &str) -> ListOf<(ColumnNo, Value)> {
    let mut cells = ListOf::new(page.alloc());
    let value = page.value(word);
    page.add(&mut cells, (ColumnNo(1), value));
    cells
}

/// The statement on rows of a call: `insert`, `fill`, `update`, `delete`.
pub(crate) fn row_statement(page: &mut Page, word: &str, table: TableId, words: &str) -> RowStmt {
    let (first, second) = parted(words, ' ');
    match word {
        "insert" => RowStmt::Insert {
            table,
            rows: page.rows(words, ';'),
        },
        "fill" => RowStmt::Insert {
            table,
            rows: open_rows(page, number(first), number(second)),
        },
        "update" => RowStmt::Update {
            table,
            key: page.row(first),
            cells: second_column(page, second),
        },
        _ => RowStmt::Delete {
            table,
            key: page.row(first),
        },
    }
}

// ---- expressions

fn column(source: u32, place: u32) -> Expr {
    Expr::Column(source, ColumnNo(place))
}

/// Two expressions with a sign between them, none where there is no memory.
fn joined(page: &mut Page, a: Expr, sign: &str, b: Expr) -> Option<Expr> {
    let Ok((a, b)) = both(Boxed::new(page.alloc(), a), Boxed::new(page.alloc(), b)) else {
        page.lack();
        return None;
    };
    match sign {
        "+" => Some(Expr::Arith(ArithOp::Add, a, b)),
        ">" => Some(Expr::Compare(CompareOp::Greater, a, b)),
        _ => Some(Expr::Compare(CompareOp::Equal, a, b)),
    }
}

/// The rows whose second column is above a bound, all where there is none.
fn above(page: &mut Page, bound: &str) -> Option<Expr> {
    match bound.parse::<i64>() {
        Ok(n) => joined(page, column(0, 1), ">", Expr::Lit(Value::Int(n))),
        Err(_) => None,
    }
}

/// The rows that another table names.
fn named_by(page: &mut Page, other: u32) -> Option<Expr> {
    let condition = joined(page, column(1, 1), "=", column(0, 0))?;
    let Ok(condition) = Boxed::new(page.alloc(), condition) else {
        page.lack();
        return None;
    };
    let origin = Origin {
        table: TableId(other),
        alias: None,
    };
    Some(Expr::Exists(false, origin, condition))
}

/// NULL where a word is no integer, and else that, or so much more than the second column has.
fn changed_to(page: &mut Page, is_more: bool, word: &str) -> Option<Expr> {
    match word.parse::<i64>() {
        Ok(n) if is_more => joined(page, column(0, 1), "+", Expr::Lit(Value::Int(n))),
        Ok(n) => Some(Expr::Lit(Value::Int(n))),
        Err(_) => None,
    }
}

// ---- bulk statements

/// Both columns, and their values.
fn put(page: &mut Page, table: TableId, words: &str) -> Bulk {
    let mut columns = ListOf::new(page.alloc());
    page.add(&mut columns, ColumnNo(0));
    page.add(&mut columns, ColumnNo(1));
    Bulk::Insert {
        table,
        columns,
        values: page.row(words),
    }
}

/// The second column is changed in the rows above a bound.
fn change(page: &mut Page, table: TableId, is_more: bool, words: &str) -> Bulk {
    let (word, bound) = parted(words, ' ');
    let mut cells = ListOf::new(page.alloc());
    let e = changed_to(page, is_more, word);
    page.add(&mut cells, (ColumnNo(1), e));
    Bulk::Update {
        table,
        cells,
        filter: above(page, bound),
    }
}

/// The bulk statement of a call: `put`, `raise`, `assign`, `clear`, `named`.
pub(crate) fn bulk_statement(page: &mut Page, word: &str, table: TableId, words: &str) -> Bulk {
    match word {
        "put" => put(page, table, words),
        "raise" | "assign" => change(page, table, word == "raise", words),
        "clear" => Bulk::Delete {
            table,
            filter: above(page, words),
        },
        _ => Bulk::Delete {
            table,
            filter: named_by(page, number(words)),
        },
    }
}

/// All rows of a table, without a column.
pub(crate) fn all_rows(alloc: Global, table: TableId) -> Select {
    Select {
        distinct: false,
        items: ListOf::new(alloc),
        first: Origin { table, alias: None },
        joins: ListOf::new(alloc),
        filter: None,
        groups: Items::new(alloc),
        having: None,
        order: ListOf::new(alloc),
        limit: None,
        offset: None,
    }
}
