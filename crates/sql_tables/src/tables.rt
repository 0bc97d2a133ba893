//! The texts that make tables and drop them.

ghost use Rattle.std.specs.Prelude.{◌≡◌, ◌<◌, ◌∷◌, [], Ok, IfOk, codes, length, string_bytes};
ghost use Rattle.base_core.specs.Answers.{Gives};
ghost use Rattle.schema_core.specs.Catalog.{IsTable, spec_of};
ghost use Rattle.sql_tables.specs.Ddl as spec;
ghost use Rattle.sql_text.specs.Pages.{WroteOn};
ghost use Rattle.sql_text.specs.Written.{with_leading_separators, with_separators, words, name};

use base_core::{ColumnNo, Dialect, ListOf, Name, Refusal, TableId, Text};
use schema_core::{
    ColumnKind, ColumnSpec, ForeignSpec, Schema, TableSpec, has_generated_key, is_required,
};
use sql_text::{Page, Writer, columns_of, comes_later, table_name};
use std::alloc::{AllocError, Global};

fn varchar_word(alloc: Global, most: Option<u32>) -> Result<String, AllocError>
    ensures { IfOk result (λ word. string_bytes word ≡ spec.varchar_word most) }
{
    match most {
        Some(most) => format!(in alloc; "VARCHAR({most})"),
        None => String::from_str(alloc, "VARCHAR"),
    }
}

fn boolean_word(dialect: Dialect) -> &'static str
    ensures { result.now ≡ spec.boolean_word dialect }
{
    match dialect {
        Dialect::Sqlite | Dialect::Postgresql => "BOOLEAN",
        Dialect::Mysql => "BOOL",
    }
}

fn bytes_word(dialect: Dialect) -> &'static str
    ensures { result.now ≡ spec.bytes_word dialect }
{
    match dialect {
        Dialect::Sqlite | Dialect::Mysql => "BLOB",
        Dialect::Postgresql => "BYTEA",
    }
}

fn generated_word(dialect: Dialect) -> &'static str
    ensures { result.now ≡ spec.generated_word dialect }
{
    match dialect {
        Dialect::Sqlite => "INTEGER NOT NULL",
        Dialect::Postgresql => "SERIAL NOT NULL",
        Dialect::Mysql => "INTEGER NOT NULL AUTO_INCREMENT",
    }
}

fn type_of(page: &mut Page, kind: ColumnKind)
    ensures { WroteOn (words (spec.type_word page.old.written.dialect kind) ∷ [])
        page.old page.new }
{
    match kind {
        ColumnKind::Integer => page.put_words("INTEGER"),
        ColumnKind::Varchar(most) => match varchar_word(page.alloc(), most) {
            Ok(word) => page.put_words(word.as_str()),
            Err(_) => page.give_up(),
        },
        ColumnKind::Text => page.put_words("TEXT"),
        ColumnKind::Boolean => page.put_words(boolean_word(page.dialect())),
        ColumnKind::Bytes => page.put_words(bytes_word(page.dialect())),
    }
}

#[tactic(auto, using(sql_text::proofs::Pages::page_steps))]
fn column(page: &mut Page, generated: bool, column: &ColumnSpec)
    ensures { WroteOn (spec.column_pieces page.old.written.dialect generated column.now)
        page.old page.new }
{
    page.put_name(&column.name);
    page.put_words(" ");
    if generated && column.key {
        page.put_words(generated_word(page.dialect()));
        return;
    }
    type_of(page, column.kind);
    if is_required(column) {
        page.put_words(" NOT NULL");
    }
}

#[tactic(auto, unfolding(sql_text::specs::Pages::put_on, sql_text::specs::Written::put_all), using(sql_text::proofs::Pages::page_steps))]
fn more_columns(page: &mut Page, generated: bool, columns: &[ColumnSpec])
    ensures { WroteOn (with_leading_separators (codes ", ") (spec.column_pieces
        page.old.written.dialect generated) columns.now) page.old page.new }
{
    for next in columns {
        page.put_words(", ");
        column(page, generated, next);
    }
}

#[tactic(auto, using(sql_text::proofs::Pages::page_steps))]
fn columns(page: &mut Page, generated: bool, columns: &[ColumnSpec])
    ensures { WroteOn (with_separators (codes ", ")
        (spec.column_pieces page.old.written.dialect generated) columns.now) page.old page.new }
{
    let Some((first, others)) = columns.split_first() else {
        return;
    };
    column(page, generated, first);
    more_columns(page, generated, others);
}

#[tactic(auto, unfolding(sql_text::specs::Pages::put_on, sql_text::specs::Written::put_all), using(sql_text::proofs::Pages::page_steps))]
fn more_names(page: &mut Page, names: &[Name])
    ensures { WroteOn (with_leading_separators (codes ", ") (λ shown. name shown ∷ []) names.now)
        page.old page.new }
{
    for name in names {
        page.put_words(", ");
        page.put_name(name);
    }
}

#[tactic(auto, using(sql_text::proofs::Pages::page_steps))]
fn names(page: &mut Page, names: &[Name])
    ensures { WroteOn (spec.names_pieces names.now) page.old page.new }
{
    let Some((first, others)) = names.split_first() else {
        return;
    };
    page.put_name(first);
    more_names(page, others);
}

/// The names of the key's columns.
#[tactic(auto, unfolding(sql_text::specs::Pages::put_on, sql_text::specs::Written::put_all), using(sql_text::proofs::Pages::page_steps))]
fn key_names(page: &mut Page, opening: &str, columns: &[ColumnSpec])
    ensures { WroteOn (spec.key_names opening.now columns.now) page.old page.new }
{
    let mut word = opening;
    for column in columns {
        if !column.key {
            continue;
        }
        page.put_words(word);
        page.put_name(&column.name);
        word = ", ";
    }
}

#[tactic(auto, using(sql_text::proofs::Pages::page_steps))]
fn unique(page: &mut Page, columns: &[Name])
    ensures { WroteOn (spec.unique_pieces columns.now) page.old page.new }
{
    page.put_words(", UNIQUE (");
    names(page, columns);
    page.put_words(")");
}

#[tactic(auto, unfolding(sql_text::specs::Pages::put_on, sql_text::specs::Written::put_all), using(sql_text::proofs::Pages::page_steps))]
fn uniques(page: &mut Page, uniques: &[ListOf<Name>])
    ensures { WroteOn (spec.uniques_pieces uniques.now) page.old page.new }
{
    for columns in uniques {
        unique(page, columns.as_slice());
    }
}

/// The table that a foreign key refers to, and the columns of its key.
#[tactic(auto, using(sql_text::proofs::Pages::page_steps))]
fn target(page: &mut Page, schema: &Schema, target: Option<TableId>)
    ensures { WroteOn (spec.target_pieces schema.now target) page.old page.new }
{
    match target {
        Some(table) => {
            page.put_shown(table_name(schema, table));
            key_names(page, " (", columns_of(schema, table));
        }
        None => {
            page.put_shown("");
            page.put_words(" (");
        }
    }
}

#[tactic(auto, using(sql_text::proofs::Pages::page_steps))]
fn reference(page: &mut Page, schema: &Schema, it: Option<TableId>)
    ensures { WroteOn (spec.reference_pieces schema.now it) page.old page.new }
{
    page.put_words(") REFERENCES ");
    target(page, schema, it);
    page.put_words(")");
}

#[tactic(auto, using(sql_text::proofs::Pages::page_steps))]
fn foreign_to(page: &mut Page, schema: &Schema, columns: &[Name], target: Option<TableId>)
    ensures { WroteOn (spec.foreign_to schema.now columns.now target) page.old page.new }
{
    page.put_words("FOREIGN KEY(");
    names(page, columns);
    reference(page, schema, target);
}

fn foreign(page: &mut Page, schema: &Schema, foreign: &ForeignSpec)
    ensures { WroteOn (spec.foreign_pieces schema.now foreign.now) page.old page.new }
{
    let target = schema.find(&foreign.target);
    foreign_to(page, schema, foreign.columns.as_slice(), target);
}

/// The foreign keys but for those that come later.
#[tactic(auto, unfolding(sql_text::specs::Pages::put_on, sql_text::specs::Written::put_all), using(sql_text::proofs::Pages::page_steps))]
fn foreigns(page: &mut Page, schema: &Schema, later: &[u32], foreigns: &[ForeignSpec])
    ensures { WroteOn (spec.foreigns_pieces schema.now later.now 0 foreigns.now) page.old page.new }
{
    for (number, next) in foreigns.iter().enumerate() {
        if comes_later(later, number) {
            continue;
        }
        page.put_words(", ");
        foreign(page, schema, next);
    }
}

/// The key, the uniques, and the foreign keys but for those that come later.
#[tactic(auto, using(sql_text::proofs::Pages::page_steps))]
fn constraints(page: &mut Page, schema: &Schema, declared: &TableSpec, later: &[u32])
    ensures { WroteOn (spec.constraint_pieces schema.now declared.now later.now) page.old page.new }
{
    key_names(page, ", PRIMARY KEY (", declared.columns.as_slice());
    page.put_words(")");
    uniques(page, declared.uniques.as_slice());
    foreigns(page, schema, later, declared.foreigns.as_slice());
}

#[tactic(auto, using(sql_text::proofs::Pages::page_steps))]
fn create(page: &mut Page, schema: &Schema, declared: &TableSpec, later: &[u32])
    ensures { WroteOn (spec.create_pieces page.old.written.dialect schema.now declared.now
        later.now) page.old page.new }
{
    let generated = has_generated_key(declared);
    page.put_words("CREATE TABLE ");
    page.put_name(&declared.name);
    page.put_words(" (");
    columns(page, generated, declared.columns.as_slice());
    constraints(page, schema, declared, later);
    page.put_words(")");
}

fn is_unsized(kind: ColumnKind) -> bool
    ensures { result ≡ spec.is_unsized kind }
{
    match kind {
        ColumnKind::Varchar(None) => true,
        _ => false,
    }
}

/// The first varchar without a length. A place past 32 bits, which no memory holds, is answered as memory that ran out.
fn first_unsized(columns: &[ColumnSpec]) -> Result<Option<ColumnNo>, AllocError>
    ensures { IfOk result (λ found. found ≡ spec.first_unsized 0 columns.now) }
{
    let mut place: u32 = 0;
    for column in columns {
        if is_unsized(column.kind) {
            return Ok(Some(ColumnNo(place)));
        }
        place = match place.checked_add(1) {
            Some(next) => next,
            None => return Err(AllocError),
        };
    }
    Ok(None)
}

/// The first column that has no type in the dialect.
fn unsized_in(dialect: Dialect, columns: &[ColumnSpec]) -> Result<Option<ColumnNo>, AllocError>
    ensures { IfOk result (λ found. found ≡ spec.unsized_in dialect columns.now) }
{
    match dialect {
        Dialect::Sqlite | Dialect::Postgresql => Ok(None),
        Dialect::Mysql => first_unsized(columns),
    }
}

/// What was written, where it has no marks.
fn text_of(writer: Writer) -> Text
    ensures { result ≡ writer.text }
{
    writer.finish().into_text()
}

/// CREATE TABLE where each column has a type.
fn created(
    alloc: Global,
    dialect: Dialect,
    schema: &Schema,
    declared: &TableSpec,
    later: &[u32],
) -> Result<Text, AllocError>
    ensures { IfOk result
        (λ text. text ≡ spec.create_text dialect schema.now declared.now later.now) }
{
    let mut page = Page::new(alloc, dialect);
    create(&mut page, schema, declared, later);
    let writer = page.written()?;
    Ok(text_of(writer))
}

/// CREATE TABLE in a dialect, without the foreign keys numbered in `later`.
///
/// # Errors
/// `CompileError` with the first varchar that has no length, in MySQL.
#[tactic(auto, unfolding(crate::specs::Ddl::ddl))]
pub fn ddl(
    alloc: Global,
    dialect: Dialect,
    schema: &Schema,
    table: TableId,
    later: &[u32],
) -> Result<Text, Refusal>
    requires { IsTable schema.now table }
    ensures { Gives (λ text. text) result (spec.ddl dialect schema.now table later.now) }
{
    let declared = schema.spec(table);
    match unsized_in(dialect, declared.columns.as_slice())? {
        Some(column) => Err(Refusal::CompileError(table, column)),
        None => {
            let made = created(alloc, dialect, schema, declared, later)?;
            Ok(made)
        }
    }
}

#[tactic(auto, using(sql_text::proofs::Pages::page_steps))]
fn add(page: &mut Page, schema: &Schema, declared: &TableSpec, added: &ForeignSpec)
    ensures { WroteOn (spec.alter_pieces schema.now declared.now added.now) page.old page.new }
{
    page.put_words("ALTER TABLE ");
    page.put_name(&declared.name);
    page.put_words(" ADD ");
    foreign(page, schema, added);
}

/// ALTER TABLE that adds a foreign key.
pub fn alter(
    alloc: Global,
    dialect: Dialect,
    schema: &Schema,
    table: TableId,
    number: u32,
) -> Result<Text, AllocError>
    requires declared { IsTable schema.now table }
    requires numbered { number < length (spec_of schema.now table).foreigns }
    ensures { IfOk result (λ text. text ≡ spec.alter dialect schema.now table number) }
{
    let declared = schema.spec(table);
    let added = declared.foreigns.at(number as usize);
    let mut page = Page::new(alloc, dialect);
    add(&mut page, schema, declared, added);
    let writer = page.written()?;
    Ok(text_of(writer))
}

#[tactic(auto, using(sql_text::proofs::Pages::page_steps))]
fn drop_table(page: &mut Page, schema: &Schema, table: TableId)
    ensures { WroteOn (spec.drop_pieces schema.now table) page.old page.new }
{
    page.put_words("DROP TABLE ");
    page.put_shown(table_name(schema, table));
}

/// DROP TABLE.
pub fn drop_text(
    alloc: Global,
    dialect: Dialect,
    schema: &Schema,
    table: TableId,
) -> Result<Text, AllocError>
    ensures { IfOk result (λ text. text ≡ spec.drop_text dialect schema.now table) }
{
    let mut page = Page::new(alloc, dialect);
    drop_table(&mut page, schema, table);
    let writer = page.written()?;
    Ok(text_of(writer))
}
