//! The texts that make tables.

ghost use Rattle.std.specs.Prelude.{◌≡◌, ◌++◌, [], true, IfErr, IfOk, codes, string_bytes};
ghost use Rattle.base_core.specs.Answers.{Gives};
ghost use Rattle.schema_core.specs.Catalog.{IsTable};
ghost use Rattle.sql_tables.specs.Ddl.{ddl as ddl_of};
ghost use Rattle.statement_lines.specs.CompiledLines as spec;
ghost use Rattle.statement_lines.specs.CompiledLines.{IsOfCompiling};

use base_core::{Copied, Dialect, Name, Refusal, RequestKind, TableId, Text};
use schema_core::Schema;
use sql_tables::ddl;
use std::alloc::{AllocError, Global};

/// The line of a text.
fn line_of(alloc: Global, text: &Text) -> Result<String, AllocError>
    ensures { IfOk result (λ line. string_bytes line ≡ text.now ++ codes "\n") }
{
    let shown = text.get();
    Ok(format!(in alloc; "{shown}\n")?)
}

/// The text that makes a table, with all its foreign keys.
#[tactic(auto, using(crate::proofs::Declared::refused))]
fn text_of_table(
    alloc: Global,
    dialect: Dialect,
    schema: &Schema,
    table: TableId,
) -> Result<Text, Refusal>
    requires { IsTable schema.now table }
    ensures text { Gives (λ text. text) result (ddl_of dialect schema.now table []) }
    ensures cause { IfErr result IsOfCompiling }
{
    ddl(alloc, dialect, schema, table, &[])
}

/// The line that makes a table, with all its foreign keys.
#[tactic(auto, using(crate::proofs::Compiling::ending))]
fn line_of_table(
    alloc: Global,
    dialect: Dialect,
    schema: &Schema,
    table: TableId,
) -> Result<String, Refusal>
    requires { IsTable schema.now table }
    ensures line { Gives string_bytes result (spec.line_of_table dialect schema.now table) }
    ensures cause { IfErr result IsOfCompiling }
{
    let text = text_of_table(alloc, dialect, schema, table)?;
    Ok(line_of(alloc, &text)?)
}

/// What is answered to `compile DIALECT table NAME`: the text that makes the table, all its foreign keys in it.
///
/// # Errors
/// `Unknown` of a name that no table has; in MySQL `CompileError` with the first varchar that has no length.
#[tactic(auto, using(crate::proofs::Declared::found))]
pub(crate) fn compile_table(
    alloc: Global,
    dialect: Dialect,
    schema: &Schema,
    name: &Name,
) -> Result<String, Refusal>
    ensures text { Gives string_bytes result
        (spec.compiled_table dialect schema.now name.now) }
    ensures cause { IfErr result IsOfCompiling }
{
    match schema.find(name) {
        Some(table) => line_of_table(alloc, dialect, schema, table),
        None => {
            let unknown = RequestKind::Unknown(name.copied()?);
            Err(Refusal::InvalidRequestError(unknown))
        }
    }
}

/// Whether a table has a text.
#[tactic(auto, using(crate::proofs::Declared::undeclared))]
fn compile_one(
    alloc: Global,
    dialect: Dialect,
    schema: &Schema,
    table: TableId,
) -> Result<(), Refusal>
    ensures told { Gives (λ u. u) result (spec.table_compiled dialect schema.now table) }
    ensures cause { IfErr result IsOfCompiling }
{
    if table.0 < schema.count() {
        let _text = text_of_table(alloc, dialect, schema, table)?;
    }
    Ok(())
}

/// Whether each table has a text.
fn compile_each(
    alloc: Global,
    dialect: Dialect,
    schema: &Schema,
    tables: &[TableId],
) -> Result<(), Refusal>
    ensures told { Gives (λ u. u) result (spec.each_compiled dialect schema.now tables.now) }
    ensures cause { IfErr result IsOfCompiling }
{
    for table in tables {
        compile_one(alloc, dialect, schema, *table)?;
    }
    Ok(())
}

/// Whether all tables have texts in a dialect, as is asked before the first is made.
///
/// # Errors
/// In MySQL `CompileError` with the first varchar that has no length, of the tables in the order in which they are made.
pub fn compile_tables(alloc: Global, dialect: Dialect, schema: &Schema) -> Result<(), Refusal>
    requires { schema.now.resolved ≡ true }
    ensures told { Gives (λ u. u) result (spec.tables_compiled dialect schema.now) }
    ensures cause { IfErr result IsOfCompiling }
{
    let order = schema.tables_in_order(alloc)?;
    compile_each(alloc, dialect, schema, order.as_slice())
}
