//! The texts of statements.

ghost use Rattle.std.specs.Prelude.{◌≡◌, Ok, IsTrue, ◌↔◌, IfOk};
ghost use Rattle.sql_statements.specs.Texts as spec;
ghost use Rattle.sql_text.specs.Pages.{WroteOn};

use crate::bulks::bulk;
use crate::selects::{self, select};
use base_core::Dialect;
use expr_types::Statement;
use schema_core::Schema;
use sql_rows::row;
use sql_text::{Compiled, Page};
use std::alloc::{AllocError, Global};

#[tactic(auto, using(sql_text::proofs::Pages::page_steps))]
fn write(page: &mut Page, schema: &Schema, statement: &Statement)
    requires { spec.HasCuts statement.now }
    ensures { WroteOn (spec.statement_pieces page.old.written.dialect schema.now statement.now)
        page.old page.new }
{
    match statement {
        Statement::Select(it) => select(page, schema, it),
        Statement::Bulk(it) => bulk(page, schema, it),
        Statement::Row(it) => row(page, schema, it),
    }
}

/// Whether the numbers of a select's cut are below 2 ^ 63, as those of every plain select are.
pub fn has_cuts(statement: &Statement) -> bool
    ensures { IsTrue result ↔ spec.HasCuts statement.now }
{
    match statement {
        Statement::Select(it) => selects::has_cuts(it),
        Statement::Bulk(_) | Statement::Row(_) => true,
    }
}

/// A statement's text in a dialect, with the names of its marks and their values.
#[tactic(auto, unfolding(crate::specs::Texts::text_of), using(sql_text::proofs::Pages::written_on))]
pub fn compiled(
    alloc: Global,
    dialect: Dialect,
    schema: &Schema,
    statement: &Statement,
) -> Result<Compiled, AllocError>
    requires { spec.HasCuts statement.now }
    ensures { IfOk result (λ it. it ≡ spec.text_of dialect schema.now statement.now) }
{
    let mut page = Page::new(alloc, dialect);
    write(&mut page, schema, statement);
    Ok(page.written()?.finish())
}
