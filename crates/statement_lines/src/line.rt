//! The lines that compile.

ghost use Rattle.std.specs.Prelude.{IfErr, string_bytes};
ghost use Rattle.base_core.specs.Answers.{Gives};
ghost use Rattle.sayable_lines.specs.Sayable.{IsSayable};
ghost use Rattle.statement_lines.specs.CompiledLines as spec;
ghost use Rattle.statement_lines.specs.CompiledLines.{IsOfCompiling};

use crate::statements::{compile_bulk, compile_rows};
use crate::tables::compile_table;
use base_core::Refusal;
use schema_core::Schema;
use script_types::Command;
use std::alloc::Global;

/// What is answered to a line that compiles by the tables alone: `compile DIALECT rows SELECT`, `compile DIALECT bulk BULK` and
/// `compile DIALECT table NAME`, each with its text, and behind it, where it has values, a line of these.
///
/// # Errors
/// The first of the line's names and kinds, as `resolve_select` and `resolve_bulk` answer them, and `Unknown` of a name that no
/// table has; in MySQL `CompileError` with a table's first varchar that has no length. `NotBuilt` for every other line. `Memory`.
pub fn compile_line(alloc: Global, schema: &Schema, command: &Command) -> Result<String, Refusal>
    requires { IsSayable command.now }
    ensures text { Gives string_bytes result (spec.compiled_line schema.now command.now) }
    ensures cause { IfErr result IsOfCompiling }
{
    match command {
        Command::CompileRows(dialect, select) => compile_rows(alloc, *dialect, schema, select),
        Command::CompileBulk(dialect, bulk) => compile_bulk(alloc, *dialect, schema, bulk),
        Command::CompileTable(dialect, name) => compile_table(alloc, *dialect, schema, name),
        _ => Err(Refusal::NotBuilt),
    }
}
