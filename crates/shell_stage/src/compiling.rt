//! Lines that compile.

ghost use Rattle.std.specs.Prelude.{IfErr, string_bytes};
ghost use Rattle.base_core.specs.Answers.{Gives};
ghost use Rattle.sayable_lines.specs.Sayable.{IsSayable};
ghost use Rattle.shell_stage.specs.Asking as spec;
ghost use Rattle.shell_stage.specs.Asking.{IsOfAsking};

use base_core::{Dialect, Refusal};
use class_mapping::Mapping;
use expr_types::Statement;
use main_selects::main_select;
use query_names::resolve_query;
use script_types::{Command, SynQuery};
use shell_replies::Reply;
use sqlite_items::Boxed;
use statement_lines::{compile_line, lines_of_statement};
use std::alloc::Global;

/// What is answered to `compile DIALECT objects OSELECT`: the text of the select by which the objects would be read, with the columns
/// of its joined options, and behind it, where it has values, a line of these.
///
/// # Errors
/// Those of `resolve_query`.
#[tactic(auto, using(crate::proofs::Asking::compiling))]
fn compile_objects(
    alloc: Global,
    dialect: Dialect,
    mapping: &Mapping,
    written: &SynQuery,
) -> Result<String, Refusal>
    ensures text { Gives string_bytes result
        (spec.compiled_objects mapping.now dialect written.now) }
    ensures cause { IfErr result IsOfAsking }
{
    let query = resolve_query(alloc, mapping, written)?;
    let select = main_select(alloc, mapping, query.get())?;
    let statement = Boxed::new(alloc, Statement::Select(select))?;
    Ok(lines_of_statement(alloc, dialect, mapping.schema(), statement.get())?)
}

/// The text that is answered to a line that compiles.
#[tactic(auto, using(crate::proofs::Asking::compiling))]
fn compiled_text(alloc: Global, mapping: &Mapping, command: &Command) -> Result<String, Refusal>
    requires { IsSayable command.now }
    ensures text { Gives string_bytes result (spec.compiled_over mapping.now command.now) }
    ensures cause { IfErr result IsOfAsking }
{
    match command {
        Command::CompileObjects(dialect, written) => {
            compile_objects(alloc, *dialect, mapping, written)
        }
        _ => compile_line(alloc, mapping.schema(), command),
    }
}

/// What is answered to a line that compiles, over a mapping. Nothing is sent.
///
/// # Errors
/// Those of `resolve_query` where it compiles objects, and else those of `compile_line`.
pub(crate) fn compiled(
    alloc: Global,
    mapping: &Mapping,
    command: &Command,
) -> Result<Reply, Refusal>
    requires { IsSayable command.now }
    ensures told { Gives (λ reply. reply) result (spec.compiled_over mapping.now command.now) }
    ensures cause { IfErr result IsOfAsking }
{
    Ok(Reply::of_text(compiled_text(alloc, mapping, command)?))
}
