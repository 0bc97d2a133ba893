//! The texts of bulk statements.

ghost use Rattle.std.specs.Prelude.{◌≡◌, ◌∷◌, [], IfOk, codes};
ghost use Rattle.sql_semantics.specs.Plain.{alone};
ghost use Rattle.sql_rows.specs.Rows.{column_piece};
ghost use Rattle.sql_statements.specs.Bulks as spec;
ghost use Rattle.sql_text.specs.Pages.{WroteOn};
ghost use Rattle.sql_text.specs.Written.{with_leading_separators, with_separators};

use crate::selects::clause;
use base_core::{ColumnNo, TableId, Value};
use expr_types::{Bulk, Expr, Origin};
use schema_core::Schema;
use sql_expressions::expression;
use sql_rows::default_word;
use sql_text::{Page, column_name, table_name};
use std::alloc::{AllocError, Global};

/// The declared table alone is in scope.
fn alone(alloc: Global, table: TableId) -> Result<Vec<Origin>, AllocError>
    ensures { IfOk result (λ scope. scope.items ≡ alone table) }
{
    let mut scope = Vec::new(alloc);
    scope.push(Origin { table, alias: None })?;
    Ok(scope)
}

#[tactic(auto, unfolding(sql_text::specs::Pages::put_on, sql_text::specs::Written::put_all), using(sql_text::proofs::Pages::page_steps))]
fn more_columns(page: &mut Page, schema: &Schema, table: TableId, columns: &[ColumnNo])
    ensures { WroteOn (with_leading_separators (codes ", ") (λ column. column_piece schema.now table
        column ∷ []) columns.now) page.old page.new }
{
    for column in columns {
        page.put_words(", ");
        page.put_shown(column_name(schema, table, *column));
    }
}

#[tactic(auto, using(sql_text::proofs::Pages::page_steps))]
fn columns_of(page: &mut Page, schema: &Schema, table: TableId, columns: &[ColumnNo])
    ensures { WroteOn (spec.columns_pieces schema.now table columns.now) page.old page.new }
{
    let Some((first, others)) = columns.split_first() else {
        return;
    };
    page.put_shown(column_name(schema, table, *first));
    more_columns(page, schema, table, others);
}

/// Values for columns, each under its column's name.
#[tactic(auto, unfolding(sql_text::specs::Pages::put_on, sql_text::specs::Written::put_all), using(sql_text::proofs::Pages::page_steps))]
fn cells(page: &mut Page, schema: &Schema, table: TableId, columns: &[ColumnNo], values: &[Value])
    ensures { WroteOn (spec.cells_pieces schema.now table (codes "(") columns.now values.now)
        page.old page.new }
{
    let mut word = "(";
    let mut rest = columns;
    for value in values {
        let Some((column, more)) = rest.split_first() else {
            return;
        };
        page.put_words(word);
        page.put_mark(column_name(schema, table, *column), value);
        word = ", ";
        rest = more;
    }
}

/// The columns and their values.
fn lists(page: &mut Page, schema: &Schema, table: TableId, columns: &[ColumnNo], values: &[Value])
    ensures { WroteOn (spec.lists_pieces schema.now table columns.now values.now)
        page.old page.new }
{
    page.put_words(" (");
    columns_of(page, schema, table, columns);
    page.put_words(") VALUES ");
    cells(page, schema, table, columns, values);
    page.put_words(")");
}

/// The values of a row, or rather that there are no columns.
#[tactic(auto, using(sql_text::proofs::Pages::page_steps))]
fn values_of(
    page: &mut Page,
    schema: &Schema,
    table: TableId,
    columns: &[ColumnNo],
    values: &[Value],
)
    ensures { WroteOn (spec.values_pieces page.old.written.dialect schema.now table columns.now
        values.now) page.old page.new }
{
    match columns {
        [] => page.put_words(default_word(page.dialect())),
        [_, ..] => lists(page, schema, table, columns, values),
    }
}

/// What is set in a column.
#[tactic(auto, using(sql_text::proofs::Pages::page_steps))]
fn set(page: &mut Page, schema: &Schema, table: TableId, set: &(ColumnNo, Option<Expr>))
    ensures { WroteOn (spec.set_pieces page.old.written.dialect schema.now table set.now)
        page.old page.new }
{
    let name = column_name(schema, table, set.0);
    page.put_shown(name);
    page.put_words("=");
    match &set.1 {
        Some(e) => {
            let Ok(scope) = alone(page.alloc(), table) else {
                page.give_up();
                return;
            };
            expression(page, schema, scope.as_slice(), name, e);
        }
        None => page.put_mark(name, &Value::Null),
    }
}

#[tactic(auto, unfolding(sql_text::specs::Pages::put_on, sql_text::specs::Written::put_all), using(sql_text::proofs::Pages::page_steps))]
fn more_sets(page: &mut Page, schema: &Schema, table: TableId, sets: &[(ColumnNo, Option<Expr>)])
    ensures { WroteOn (with_leading_separators (codes ", ")
        (spec.set_pieces page.old.written.dialect schema.now table) sets.now) page.old page.new }
{
    for next in sets {
        page.put_words(", ");
        set(page, schema, table, next);
    }
}

#[tactic(auto, using(sql_text::proofs::Pages::page_steps))]
fn sets_of(page: &mut Page, schema: &Schema, table: TableId, sets: &[(ColumnNo, Option<Expr>)])
    ensures { WroteOn (with_separators (codes ", ")
        (spec.set_pieces page.old.written.dialect schema.now table) sets.now) page.old page.new }
{
    let Some((first, others)) = sets.split_first() else {
        return;
    };
    set(page, schema, table, first);
    more_sets(page, schema, table, others);
}

/// The condition on the rows of a table, where there is one.
#[tactic(auto, using(sql_text::proofs::Pages::page_steps))]
fn filter(page: &mut Page, schema: &Schema, table: TableId, condition: &Option<Expr>)
    ensures { WroteOn (spec.filter_pieces page.old.written.dialect schema.now table condition.now)
        page.old page.new }
{
    let Ok(scope) = alone(page.alloc(), table) else {
        page.give_up();
        return;
    };
    clause(page, schema, scope.as_slice(), " WHERE ", condition);
}

#[tactic(auto, using(sql_text::proofs::Pages::page_steps))]
fn update(
    page: &mut Page,
    schema: &Schema,
    table: TableId,
    sets: &[(ColumnNo, Option<Expr>)],
    condition: &Option<Expr>,
)
    ensures { WroteOn (spec.update_pieces page.old.written.dialect schema.now table sets.now
        condition.now) page.old page.new }
{
    page.put_words("UPDATE ");
    page.put_shown(table_name(schema, table));
    page.put_words(" SET ");
    sets_of(page, schema, table, sets);
    filter(page, schema, table, condition);
}

#[tactic(auto, using(sql_text::proofs::Pages::page_steps))]
fn insert(page: &mut Page, schema: &Schema, table: TableId, columns: &[ColumnNo], values: &[Value])
    ensures { WroteOn (spec.insert_pieces page.old.written.dialect schema.now table columns.now
        values.now) page.old page.new }
{
    page.put_words("INSERT INTO ");
    page.put_shown(table_name(schema, table));
    values_of(page, schema, table, columns, values);
}

#[tactic(auto, using(sql_text::proofs::Pages::page_steps))]
fn delete(page: &mut Page, schema: &Schema, table: TableId, condition: &Option<Expr>)
    ensures { WroteOn (spec.delete_pieces page.old.written.dialect schema.now table condition.now)
        page.old page.new }
{
    page.put_words("DELETE FROM ");
    page.put_shown(table_name(schema, table));
    filter(page, schema, table, condition);
}

/// A bulk statement.
#[tactic(auto, unfolding(crate::specs::Bulks::bulk_pieces))]
pub(crate) fn bulk(page: &mut Page, schema: &Schema, statement: &Bulk)
    ensures { WroteOn (spec.bulk_pieces page.old.written.dialect schema.now statement.now)
        page.old page.new }
{
    match statement {
        Bulk::Insert {
            table,
            columns,
            values,
        } => insert(page, schema, *table, columns.as_slice(), values.as_slice()),
        Bulk::Update {
            table,
            cells,
            filter,
        } => update(page, schema, *table, cells.as_slice(), filter),
        Bulk::Delete { table, filter } => delete(page, schema, *table, filter),
    }
}
