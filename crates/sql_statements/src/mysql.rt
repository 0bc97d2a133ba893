//! The texts of MySQL.

ghost use Rattle.std.specs.Prelude.{◌≡◌, ◌<◌, length, IfOk};
ghost use Rattle.base_core.specs.Answers.{Gives};
ghost use Rattle.schema_core.specs.Catalog.{IsTable, spec_of};
ghost use Rattle.base_core.specs.declared.dialect.Dialect.TheVariants.{Mysql};
ghost use Rattle.sql_tables.specs.Ddl as spec;
ghost use Rattle.sql_statements.specs.Texts.{HasCuts, text_of};

use base_core::{Dialect, Refusal, TableId, Text};
use expr_types::Statement;
use schema_core::Schema;
use sql_text::Compiled;
use std::alloc::{AllocError, Global};

/// A statement's text, with the names of its marks and their values.
pub fn compile(
    alloc: Global,
    schema: &Schema,
    statement: &Statement,
) -> Result<Compiled, AllocError>
    requires { HasCuts statement.now }
    ensures { IfOk result (λ it. it ≡ text_of Mysql schema.now statement.now) }
{
    crate::texts::compiled(alloc, Dialect::Mysql, schema, statement)
}

/// CREATE TABLE without the foreign keys numbered in `later`.
///
/// # Errors
/// `CompileError` with the first varchar that has no length.
pub fn ddl(alloc: Global, schema: &Schema, table: TableId, later: &[u32]) -> Result<Text, Refusal>
    requires { IsTable schema.now table }
    ensures { Gives (λ text. text) result (spec.ddl Mysql schema.now table later.now) }
{
    sql_tables::ddl(alloc, Dialect::Mysql, schema, table, later)
}

/// ALTER TABLE that adds a foreign key.
pub fn alter(
    alloc: Global,
    schema: &Schema,
    table: TableId,
    foreign: u32,
) -> Result<Text, AllocError>
    requires declared { IsTable schema.now table }
    requires numbered { foreign < length (spec_of schema.now table).foreigns }
    ensures { IfOk result (λ text. text ≡ spec.alter Mysql schema.now table foreign) }
{
    sql_tables::alter(alloc, Dialect::Mysql, schema, table, foreign)
}

/// DROP TABLE.
pub fn drop_text(alloc: Global, schema: &Schema, table: TableId) -> Result<Text, AllocError>
    ensures { IfOk result (λ text. text ≡ spec.drop_text Mysql schema.now table) }
{
    sql_tables::drop_text(alloc, Dialect::Mysql, schema, table)
}
