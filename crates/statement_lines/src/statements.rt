//! The texts of statements as lines say them.

ghost use Rattle.std.specs.Prelude.{◌≡◌, ◌++◌, IfErr, IfOk, IsTrue, codes, string_bytes};
ghost use Rattle.base_core.specs.Answers.{Gives};
ghost use Rattle.script_resolve.specs.Sayable.{is_sayable_select};
ghost use Rattle.sql_statements.specs.Texts.{HasCuts};
ghost use Rattle.statement_lines.specs.StatementLines.{statement_text};
ghost use Rattle.statement_lines.specs.CompiledLines as spec;
ghost use Rattle.statement_lines.specs.CompiledLines.{IsOfCompiling};

use crate::text::StatementText;
use base_core::{Dialect, Refusal};
use expr_types::Statement;
use schema_core::Schema;
use script_resolve::{resolve_bulk, resolve_select};
use script_types::{SynBulk, SynSelect};
use sql_statements::compiled;
use sql_text::Compiled;
use sqlite_items::Boxed;
use std::alloc::{AllocError, Global};

/// The statement of a select as a line says it.
#[tactic(auto, using(crate::proofs::Compiling::selecting))]
fn select_of(
    alloc: Global,
    schema: &Schema,
    select: &SynSelect,
) -> Result<Boxed<Statement>, Refusal>
    requires { IsTrue (is_sayable_select select.now) }
    ensures told { Gives (λ it. it) result (spec.select_said schema.now select.now) }
    ensures cuts { IfOk result HasCuts }
    ensures cause { IfErr result IsOfCompiling }
{
    let select = resolve_select(alloc, schema, select)?;
    Ok(Boxed::new(alloc, Statement::Select(select))?)
}

/// The bulk statement as a line says it.
#[tactic(auto, using(crate::proofs::Compiling::selecting))]
fn bulk_of(alloc: Global, schema: &Schema, bulk: &SynBulk) -> Result<Boxed<Statement>, Refusal>
    ensures told { Gives (λ it. it) result (spec.bulk_said schema.now bulk.now) }
    ensures cuts { IfOk result HasCuts }
    ensures cause { IfErr result IsOfCompiling }
{
    let bulk = resolve_bulk(alloc, schema, bulk)?;
    Ok(Boxed::new(alloc, Statement::Bulk(bulk))?)
}

/// The lines of a text and of its values.
fn lines_of(alloc: Global, dialect: Dialect, compiled: &Compiled) -> Result<String, AllocError>
    ensures { IfOk result
        (λ lines. string_bytes lines ≡ statement_text dialect compiled.now ++ codes "\n") }
{
    let shown = StatementText { dialect, compiled };
    Ok(format!(in alloc; "{shown}\n")?)
}

/// The lines of a statement: its text, and behind it, where it has values, a line of these.
pub fn lines_of_statement(
    alloc: Global,
    dialect: Dialect,
    schema: &Schema,
    statement: &Statement,
) -> Result<String, AllocError>
    requires { HasCuts statement.now }
    ensures { IfOk result
        (λ lines. string_bytes lines ≡ spec.lines_of dialect schema.now statement.now) }
{
    let compiled = compiled(alloc, dialect, schema, statement)?;
    lines_of(alloc, dialect, &compiled)
}

/// What is answered to `compile DIALECT rows SELECT`: the text of the select, and its values in a line of their own.
///
/// # Errors
/// Those of `resolve_select`.
#[tactic(auto, using(crate::proofs::Compiling::ending))]
pub(crate) fn compile_rows(
    alloc: Global,
    dialect: Dialect,
    schema: &Schema,
    select: &SynSelect,
) -> Result<String, Refusal>
    requires { IsTrue (is_sayable_select select.now) }
    ensures text { Gives string_bytes result
        (spec.compiled_rows dialect schema.now select.now) }
    ensures cause { IfErr result IsOfCompiling }
{
    let statement = select_of(alloc, schema, select)?;
    Ok(lines_of_statement(alloc, dialect, schema, statement.get())?)
}

/// What is answered to `compile DIALECT bulk BULK`: the text of the statement, and its values in a line of their own. That it sets
/// a column of a key is no fault of its text.
///
/// # Errors
/// Those of `resolve_bulk`.
#[tactic(auto, using(crate::proofs::Compiling::ending))]
pub(crate) fn compile_bulk(
    alloc: Global,
    dialect: Dialect,
    schema: &Schema,
    bulk: &SynBulk,
) -> Result<String, Refusal>
    ensures text { Gives string_bytes result
        (spec.compiled_bulk dialect schema.now bulk.now) }
    ensures cause { IfErr result IsOfCompiling }
{
    let statement = bulk_of(alloc, schema, bulk)?;
    Ok(lines_of_statement(alloc, dialect, schema, statement.get())?)
}
