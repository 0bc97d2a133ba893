//! The texts of statements on rows.

ghost use Rattle.std.specs.Prelude.{◌≡◌, ◌∷◌, [], ◌&&◌, codes};
ghost use Rattle.std.specs.List.{list_all};
ghost use Rattle.schema_core.specs.Catalog.{spec_of};
ghost use Rattle.schema_core.specs.Tables.{has_null, is_null, key_cells};
ghost use Rattle.sql_rows.specs.Rows as spec;
ghost use Rattle.sql_text.specs.Pages.{WroteOn};
ghost use Rattle.sql_text.specs.Written.{with_leading_separators, with_separators};

use base_core::{ColumnNo, Dialect, RowValues, TableId, Value};
use schema_core::{ColumnSpec, RowStmt, Schema};
use sql_text::{Page, column_name, columns_of, table_name, tells_key};

/// Stands for the values of a row without columns.
pub fn default_word(dialect: Dialect) -> &'static str
    ensures { result.now ≡ spec.default_word dialect }
{
    match dialect {
        Dialect::Sqlite | Dialect::Postgresql => " DEFAULT VALUES",
        Dialect::Mysql => " () VALUES ()",
    }
}

fn is_null(value: &Value) -> bool
    ensures { result ≡ is_null value.now }
{
    match value {
        Value::Null => true,
        _ => false,
    }
}

/// Whether a cell of the key is NULL.
fn has_open_key(columns: &[ColumnSpec], row: &[Value]) -> bool
    ensures { result ≡ has_null (key_cells columns.now row.now) }
{
    let mut rest = row;
    for column in columns {
        let Some((cell, more)) = rest.split_first() else {
            return false;
        };
        if column.key && is_null(cell) {
            return true;
        }
        rest = more;
    }
    false
}

/// Whether the key is generated, as the first row says for all.
fn leaves_key(schema: &Schema, table: TableId, rows: &[RowValues]) -> bool
    ensures { result ≡ spec.leaves_key (spec_of schema.now table) rows.now }
{
    let Some(first) = rows.first() else {
        return false;
    };
    if table.0 < schema.count() {
        return schema.generated(table) && has_open_key(columns_of(schema, table), first.as_slice());
    }
    false
}

#[tactic(auto, unfolding(crate::specs::Rows::is_left_out))]
fn is_left_out(drawn: bool, column: &ColumnSpec) -> bool
    ensures { result ≡ spec.is_left_out drawn column.now }
{
    drawn && column.key
}

fn all_left_out(drawn: bool, columns: &[ColumnSpec]) -> bool
    ensures { result ≡ list_all (spec.is_left_out drawn) columns.now }
{
    columns.iter().all(|column| is_left_out(drawn, column))
}

/// The names of the columns with a value.
#[tactic(auto, unfolding(sql_text::specs::Pages::put_on, sql_text::specs::Written::put_all), using(sql_text::proofs::Pages::page_steps))]
fn names(page: &mut Page, drawn: bool, columns: &[ColumnSpec])
    ensures { WroteOn (spec.names_pieces drawn (codes " (") columns.now) page.old page.new }
{
    let mut word = " (";
    for column in columns {
        if is_left_out(drawn, column) {
            continue;
        }
        page.put_words(word);
        page.put_name(&column.name);
        word = ", ";
    }
}

/// The values of a row.
#[tactic(auto, unfolding(sql_text::specs::Pages::put_on, sql_text::specs::Written::put_all), using(sql_text::proofs::Pages::page_steps))]
fn cells(page: &mut Page, drawn: bool, columns: &[ColumnSpec], row: &[Value])
    ensures { WroteOn (spec.row_cells drawn (codes "(") columns.now row.now) page.old page.new }
{
    let mut word = "(";
    let mut rest = row;
    for column in columns {
        let Some((value, more)) = rest.split_first() else {
            return;
        };
        rest = more;
        if is_left_out(drawn, column) {
            continue;
        }
        page.put_words(word);
        page.put_value(&column.name, value);
        word = ", ";
    }
}

#[tactic(auto, using(sql_text::proofs::Pages::page_steps))]
fn row_list(page: &mut Page, drawn: bool, columns: &[ColumnSpec], row: &[Value])
    ensures { WroteOn (spec.row_list drawn columns.now row.now) page.old page.new }
{
    cells(page, drawn, columns, row);
    page.put_words(")");
}

#[tactic(auto, unfolding(sql_text::specs::Pages::put_on, sql_text::specs::Written::put_all), using(sql_text::proofs::Pages::page_steps))]
fn more_rows(page: &mut Page, drawn: bool, columns: &[ColumnSpec], rows: &[RowValues])
    ensures { WroteOn (with_leading_separators (codes ", ") (spec.row_list drawn columns.now)
        rows.now) page.old page.new }
{
    for row in rows {
        page.put_words(", ");
        row_list(page, drawn, columns, row.as_slice());
    }
}

#[tactic(auto, using(sql_text::proofs::Pages::page_steps))]
fn rows_of(page: &mut Page, drawn: bool, columns: &[ColumnSpec], rows: &[RowValues])
    ensures { WroteOn (with_separators (codes ", ") (spec.row_list drawn columns.now) rows.now)
        page.old page.new }
{
    let Some((first, others)) = rows.split_first() else {
        return;
    };
    row_list(page, drawn, columns, first.as_slice());
    more_rows(page, drawn, columns, others);
}

/// The columns and the rows.
fn row_lists(page: &mut Page, drawn: bool, columns: &[ColumnSpec], rows: &[RowValues])
    ensures { WroteOn (spec.lists_pieces drawn columns.now rows.now) page.old page.new }
{
    names(page, drawn, columns);
    page.put_words(") VALUES ");
    rows_of(page, drawn, columns, rows);
}

/// The columns and the rows, or rather that there are no columns.
#[tactic(auto, using(sql_text::proofs::Pages::page_steps))]
fn all_rows(page: &mut Page, drawn: bool, columns: &[ColumnSpec], rows: &[RowValues])
    ensures { WroteOn (spec.rows_pieces page.old.written.dialect drawn columns.now rows.now)
        page.old page.new }
{
    if all_left_out(drawn, columns) {
        page.put_words(default_word(page.dialect()));
    } else {
        row_lists(page, drawn, columns, rows);
    }
}

/// The key's columns behind RETURNING.
#[tactic(auto, unfolding(sql_text::specs::Pages::put_on, sql_text::specs::Written::put_all), using(sql_text::proofs::Pages::page_steps))]
fn key_names(page: &mut Page, schema: &Schema, table: TableId)
    ensures { WroteOn (spec.key_names (spec_of schema.now table).name (spec_of schema.now
        table).columns) page.old page.new }
{
    let name = table_name(schema, table);
    let columns = columns_of(schema, table);
    for column in columns {
        if !column.key {
            continue;
        }
        page.put_words(" RETURNING ");
        page.put_shown(name);
        page.put_words(".");
        page.put_name(&column.name);
    }
}

/// PostgreSQL tells the generated key.
#[tactic(auto, using(sql_text::proofs::Pages::page_steps))]
fn returning(page: &mut Page, schema: &Schema, table: TableId, drawn: bool)
    ensures { WroteOn (spec.returning_pieces page.old.written.dialect drawn (spec_of schema.now
        table)) page.old page.new }
{
    match page.dialect() {
        Dialect::Postgresql => {
            if tells_key(Dialect::Postgresql, drawn) {
                key_names(page, schema, table);
            }
        }
        Dialect::Sqlite | Dialect::Mysql => {}
    }
}

#[tactic(auto, using(sql_text::proofs::Pages::page_steps))]
fn insert(page: &mut Page, schema: &Schema, table: TableId, rows: &[RowValues])
    ensures { WroteOn (spec.insert_rows page.old.written.dialect (spec_of schema.now table)
        (spec.leaves_key (spec_of schema.now table) rows.now) rows.now) page.old page.new }
{
    let drawn = leaves_key(schema, table, rows);
    page.put_words("INSERT INTO ");
    page.put_shown(table_name(schema, table));
    all_rows(page, drawn, columns_of(schema, table), rows);
    returning(page, schema, table, drawn);
}

/// A column of the key and its value.
#[tactic(auto, using(sql_text::proofs::Pages::page_steps))]
fn key_cell(page: &mut Page, table: &str, column: &ColumnSpec, value: &Value)
    ensures { WroteOn (spec.key_cell table.now column.now value.now) page.old page.new }
{
    page.put_shown(table);
    page.put_words(".");
    page.put_name(&column.name);
    page.put_words(" = ");
    page.put_value(&column.name, value);
}

/// The condition on the key.
#[tactic(auto, unfolding(sql_text::specs::Pages::put_on, sql_text::specs::Written::put_all), using(sql_text::proofs::Pages::page_steps))]
fn by_key(page: &mut Page, schema: &Schema, table: TableId, key: &[Value])
    ensures { WroteOn (spec.by_key (spec_of schema.now table) key.now) page.old page.new }
{
    let name = table_name(schema, table);
    let columns = columns_of(schema, table);
    let mut word = " WHERE ";
    let mut rest = key;
    for column in columns {
        let Some((value, more)) = rest.split_first() else {
            return;
        };
        if !column.key {
            continue;
        }
        page.put_words(word);
        key_cell(page, name, column, value);
        word = " AND ";
        rest = more;
    }
}

#[tactic(auto, using(sql_text::proofs::Pages::page_steps))]
fn cell(page: &mut Page, schema: &Schema, table: TableId, cell: &(ColumnNo, Value))
    ensures { WroteOn (spec.cell_pieces schema.now table cell.now) page.old page.new }
{
    let name = column_name(schema, table, cell.0);
    page.put_shown(name);
    page.put_words("=");
    page.put_mark(name, &cell.1);
}

#[tactic(auto, unfolding(sql_text::specs::Pages::put_on, sql_text::specs::Written::put_all), using(sql_text::proofs::Pages::page_steps))]
fn more_cells(page: &mut Page, schema: &Schema, table: TableId, cells: &[(ColumnNo, Value)])
    ensures { WroteOn (with_leading_separators (codes ", ") (spec.cell_pieces schema.now table)
        cells.now) page.old page.new }
{
    for next in cells {
        page.put_words(", ");
        cell(page, schema, table, next);
    }
}

#[tactic(auto, using(sql_text::proofs::Pages::page_steps))]
fn cells_of(page: &mut Page, schema: &Schema, table: TableId, cells: &[(ColumnNo, Value)])
    ensures { WroteOn (with_separators (codes ", ") (spec.cell_pieces schema.now table) cells.now)
        page.old page.new }
{
    let Some((first, others)) = cells.split_first() else {
        return;
    };
    cell(page, schema, table, first);
    more_cells(page, schema, table, others);
}

/// A statement on rows.
#[tactic(auto, unfolding(crate::specs::Rows::row_pieces), using(sql_text::proofs::Pages::page_steps))]
pub fn row(page: &mut Page, schema: &Schema, statement: &RowStmt)
    ensures { WroteOn (spec.row_pieces page.old.written.dialect schema.now statement.now)
        page.old page.new }
{
    match statement {
        RowStmt::Insert { table, rows } => insert(page, schema, *table, rows.as_slice()),
        RowStmt::Update { table, key, cells } => {
            page.put_words("UPDATE ");
            page.put_shown(table_name(schema, *table));
            page.put_words(" SET ");
            cells_of(page, schema, *table, cells.as_slice());
            by_key(page, schema, *table, key.as_slice());
        }
        RowStmt::Delete { table, key } => {
            page.put_words("DELETE FROM ");
            page.put_shown(table_name(schema, *table));
            by_key(page, schema, *table, key.as_slice());
        }
    }
}
