//! The texts of selects.

ghost use Rattle.std.specs.Prelude.{◌≡◌, ◌∷◌, [], ◌++◌, IfOk, OnOk, IsTrue, ◌↔◌, codes};
ghost use Rattle.sql_semantics.specs.Plain.{sources_of};
ghost use Rattle.sql_rows.specs.Cuts.{IsCut};
ghost use Rattle.sql_statements.specs.Selects as spec;
ghost use Rattle.sql_text.specs.Words.{select_word, join_word};
ghost use Rattle.sql_text.specs.Pages.{WroteOn};
ghost use Rattle.sql_text.specs.Written.{with_leading_separators, with_separators};

use base_core::{Copied, Name};
use expr_types::{Expr, Joined, Origin, Select};
use schema_core::Schema;
use sql_expressions::{expression, param, parts, source};
use sql_rows::{cut, is_cut};
use sql_text::Page;
use std::alloc::{AllocError, Global};

/// An item with its name.
#[tactic(auto, using(sql_text::proofs::Pages::page_steps))]
fn item(page: &mut Page, schema: &Schema, scope: &[Origin], item: &(Expr, Option<Name>))
    ensures { WroteOn (spec.item_pieces page.old.written.dialect schema.now scope.now item.now)
        page.old page.new }
{
    expression(page, schema, scope, param(), &item.0);
    match &item.1 {
        Some(name) => {
            page.put_words(" AS ");
            page.put_name(name);
        }
        None => {}
    }
}

#[tactic(auto, unfolding(sql_text::specs::Pages::put_on, sql_text::specs::Written::put_all), using(sql_text::proofs::Pages::page_steps))]
fn more_items(page: &mut Page, schema: &Schema, scope: &[Origin], items: &[(Expr, Option<Name>)])
    ensures { WroteOn (with_leading_separators (codes ", ") (spec.item_pieces
        page.old.written.dialect schema.now scope.now) items.now) page.old page.new }
{
    for next in items {
        page.put_words(", ");
        item(page, schema, scope, next);
    }
}

#[tactic(auto, using(sql_text::proofs::Pages::page_steps))]
fn items_of(page: &mut Page, schema: &Schema, scope: &[Origin], items: &[(Expr, Option<Name>)])
    ensures { WroteOn (with_separators (codes ", ") (spec.item_pieces page.old.written.dialect
        schema.now scope.now) items.now) page.old page.new }
{
    let Some((first, others)) = items.split_first() else {
        return;
    };
    item(page, schema, scope, first);
    more_items(page, schema, scope, others);
}

fn select_word(distinct: bool) -> &'static str
    ensures { result.now ≡ select_word distinct }
{
    if distinct {
        "SELECT DISTINCT "
    } else {
        "SELECT "
    }
}

/// What stands before FROM.
fn head(page: &mut Page, schema: &Schema, scope: &[Origin], select: &Select)
    requires { scope.now ≡ sources_of select.now }
    ensures { WroteOn (spec.head_pieces page.old.written.dialect schema.now select.now)
        page.old page.new }
{
    page.put_words(select_word(select.distinct));
    items_of(page, schema, scope, select.items.as_slice());
}

fn join_word(left: bool) -> &'static str
    ensures { result.now ≡ join_word left }
{
    if left { " LEFT OUTER JOIN " } else { " JOIN " }
}

/// One further source with its condition.
fn join(page: &mut Page, schema: &Schema, scope: &[Origin], join: &Joined)
    ensures { WroteOn (spec.join_pieces page.old.written.dialect schema.now scope.now join.now)
        page.old page.new }
{
    page.put_words(join_word(join.left));
    source(page, schema, &join.origin);
    page.put_words(" ON ");
    expression(page, schema, scope, param(), &join.on);
}

/// The first source alone.
fn begun(alloc: Global, first: &Origin) -> Result<Vec<Origin>, AllocError>
    ensures { IfOk result (λ scope. scope.items ≡ first.now ∷ []) }
{
    let mut scope = Vec::new(alloc);
    scope.push(first.copied()?)?;
    Ok(scope)
}

/// One more source, the innermost.
fn extend(scope: &mut Vec<Origin>, origin: &Origin) -> Result<(), AllocError>
    ensures { OnOk result (scope.new.items ≡ scope.old.items ++ origin.now ∷ []) }
{
    scope.push(origin.copied()?)?;
    Ok(())
}

/// The sources of a select.
fn sources_of(alloc: Global, select: &Select) -> Result<Vec<Origin>, AllocError>
    ensures { IfOk result (λ scope. scope.items ≡ sources_of select.now) }
{
    let mut scope = begun(alloc, &select.first)?;
    for join in select.joins.as_slice() {
        scope.push(join.origin.copied()?)?;
    }
    Ok(scope)
}

/// Each further source with its condition under the sources up to it.
#[tactic(auto, unfolding(sql_text::specs::Pages::put_on, sql_text::specs::Written::put_all), using(sql_text::proofs::Pages::page_steps))]
fn joins(page: &mut Page, schema: &Schema, first: &Origin, joins: &[Joined])
    ensures { WroteOn (spec.joins_pieces page.old.written.dialect schema.now (first.now ∷ [])
        joins.now) page.old page.new }
{
    let Ok(mut scope) = begun(page.alloc(), first) else {
        page.give_up();
        return;
    };
    for next in joins {
        let Ok(()) = extend(&mut scope, &next.origin) else {
            page.give_up();
            return;
        };
        join(page, schema, scope.as_slice(), next);
    }
}

/// The sources.
#[tactic(auto, using(sql_text::proofs::Pages::page_steps))]
fn from(page: &mut Page, schema: &Schema, select: &Select)
    ensures { WroteOn (spec.from_pieces page.old.written.dialect schema.now select.now)
        page.old page.new }
{
    page.put_words(" FROM ");
    source(page, schema, &select.first);
    joins(page, schema, &select.first, select.joins.as_slice());
}

/// A word with the condition behind it, where there is one.
#[tactic(auto, using(sql_text::proofs::Pages::page_steps))]
pub(crate) fn clause(
    page: &mut Page,
    schema: &Schema,
    scope: &[Origin],
    word: &str,
    condition: &Option<Expr>,
)
    ensures { WroteOn (spec.clause_pieces page.old.written.dialect schema.now scope.now word.now
        condition.now) page.old page.new }
{
    match condition {
        Some(e) => {
            page.put_words(word);
            expression(page, schema, scope, param(), e);
        }
        None => {}
    }
}

fn group_by(page: &mut Page, schema: &Schema, scope: &[Origin], groups: &[Expr])
    ensures { WroteOn (spec.group_by_pieces page.old.written.dialect schema.now scope.now
        groups.now) page.old page.new }
{
    page.put_words(" GROUP BY ");
    parts(page, schema, scope, 1, ", ", groups);
}

#[tactic(auto, using(sql_text::proofs::Pages::page_steps))]
fn groups(page: &mut Page, schema: &Schema, scope: &[Origin], groups: &[Expr])
    ensures { WroteOn (spec.groups_pieces page.old.written.dialect schema.now scope.now groups.now)
        page.old page.new }
{
    match groups {
        [] => {}
        [_, ..] => group_by(page, schema, scope, groups),
    }
}

/// An expression by which rows are ordered.
#[tactic(auto, using(sql_text::proofs::Pages::page_steps))]
fn key(page: &mut Page, schema: &Schema, scope: &[Origin], key: &(Expr, bool))
    ensures { WroteOn (spec.key_pieces page.old.written.dialect schema.now scope.now key.now)
        page.old page.new }
{
    expression(page, schema, scope, param(), &key.0);
    if key.1 {
        page.put_words(" DESC");
    }
}

#[tactic(auto, unfolding(sql_text::specs::Pages::put_on, sql_text::specs::Written::put_all), using(sql_text::proofs::Pages::page_steps))]
fn more_keys(page: &mut Page, schema: &Schema, scope: &[Origin], keys: &[(Expr, bool)])
    ensures { WroteOn (with_leading_separators (codes ", ") (spec.key_pieces
        page.old.written.dialect schema.now scope.now) keys.now) page.old page.new }
{
    for next in keys {
        page.put_words(", ");
        key(page, schema, scope, next);
    }
}

#[tactic(auto, using(sql_text::proofs::Pages::page_steps))]
fn keys_of(page: &mut Page, schema: &Schema, scope: &[Origin], keys: &[(Expr, bool)])
    ensures { WroteOn (with_separators (codes ", ") (spec.key_pieces page.old.written.dialect
        schema.now scope.now) keys.now) page.old page.new }
{
    let Some((first, others)) = keys.split_first() else {
        return;
    };
    key(page, schema, scope, first);
    more_keys(page, schema, scope, others);
}

fn order_by(page: &mut Page, schema: &Schema, scope: &[Origin], keys: &[(Expr, bool)])
    ensures { WroteOn (spec.order_by_pieces page.old.written.dialect schema.now scope.now keys.now)
        page.old page.new }
{
    page.put_words(" ORDER BY ");
    keys_of(page, schema, scope, keys);
}

#[tactic(auto, using(sql_text::proofs::Pages::page_steps))]
fn order(page: &mut Page, schema: &Schema, scope: &[Origin], keys: &[(Expr, bool)])
    ensures { WroteOn (spec.order_pieces page.old.written.dialect schema.now scope.now keys.now)
        page.old page.new }
{
    match keys {
        [] => {}
        [_, ..] => order_by(page, schema, scope, keys),
    }
}

/// Whether the numbers of the cut are below 2 ^ 63.
pub(crate) fn has_cuts(select: &Select) -> bool
    ensures { IsTrue result ↔ (IsCut select.now.limit × IsCut select.now.offset) }
{
    is_cut(select.limit) && is_cut(select.offset)
}

/// The clauses behind the sources.
#[tactic(auto, using(sql_text::proofs::Pages::page_steps))]
fn tail(page: &mut Page, schema: &Schema, scope: &[Origin], select: &Select)
    requires limit { IsCut select.now.limit }
    requires offset { IsCut select.now.offset }
    ensures { WroteOn (spec.tail_pieces page.old.written.dialect schema.now scope.now select.now)
        page.old page.new }
{
    clause(page, schema, scope, " WHERE ", &select.filter);
    groups(page, schema, scope, select.groups.as_slice());
    clause(page, schema, scope, " HAVING ", &select.having);
    order(page, schema, scope, select.order.as_slice());
    cut(page, select.limit, select.offset);
}

/// A select.
#[tactic(auto, unfolding(crate::specs::Selects::select_pieces), using(sql_text::proofs::Pages::page_steps))]
pub(crate) fn select(page: &mut Page, schema: &Schema, select: &Select)
    requires limit { IsCut select.now.limit }
    requires offset { IsCut select.now.offset }
    ensures { WroteOn (spec.select_pieces page.old.written.dialect schema.now select.now)
        page.old page.new }
{
    let Ok(scope) = sources_of(page.alloc(), select) else {
        page.give_up();
        return;
    };
    head(page, schema, scope.as_slice(), select);
    from(page, schema, select);
    tail(page, schema, scope.as_slice(), select);
}
