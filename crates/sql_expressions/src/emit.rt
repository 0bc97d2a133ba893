//! The text of an expression.

ghost use Rattle.std.specs.Prelude.{◌≡◌, ◌∷◌, [], ◌++◌, IfOk, OnErr, map, slice_get, codes};
ghost use Rattle.sql_expressions.specs.Laid as spec;
ghost use Rattle.sql_expressions.specs.Laid.{laid};
ghost use Rattle.sql_text.specs.Pages.{WroteOn};
ghost use Rattle.sql_text.specs.Written.{Wrote, with_separators, with_leading_separators};

use crate::sources::{column_shown, source_shown};
use crate::words::{
    between_word, compare_word, distinct_word, exists_word, function_word, ilike_word, in_word,
    level_of, like_word, lower_like_word, no_in_word, null_word, sqlite_distinct_word,
};
use base_core::{ArithOp, ColumnNo, Copied, Dialect, Value};
use expr_types::{Expr, Func, Origin};
use schema_core::Schema;
use sql_text::{Page, Writer, arith_least, concat_least, prefix_least, table_name};
use std::alloc::{AllocError, Global};

/// The base name of a value that is not beside a column.
pub fn param() -> &'static str
    ensures { result.now ≡ spec.param }
{
    "param"
}

/// The base name of a value beside this operand: the column's where it is a plain column.
#[tactic(auto, unfolding(crate::specs::Laid::laid))]
fn beside<'x>(page: &Page, schema: &'x Schema, scope: &[Origin], e: &Expr) -> &'x str
    ensures { result.now ≡ spec.beside scope.now (laid page.now.written.dialect schema.now e.now) }
{
    match e {
        Expr::Column(source, column) => column_shown(schema, scope, *source, *column),
        _ => param(),
    }
}

/// The base name of a value beside two operands.
#[tactic(auto, unfolding(crate::specs::Laid::laid))]
fn beside_two<'x>(page: &Page, schema: &'x Schema, scope: &[Origin], a: &Expr, b: &Expr) -> &'x str
    ensures { result.now ≡ spec.beside_two scope.now (laid page.now.written.dialect schema.now
        a.now) (laid page.now.written.dialect schema.now b.now) }
{
    match a {
        Expr::Column(source, column) => column_shown(schema, scope, *source, *column),
        _ => beside(page, schema, scope, b),
    }
}

/// A column of a source in scope.
#[tactic(auto, using(sql_text::proofs::Pages::page_steps))]
fn column(page: &mut Page, schema: &Schema, scope: &[Origin], source: u32, column: ColumnNo)
    ensures { WroteOn (spec.column_pieces schema.now (slice_get scope.now source) column)
        page.old page.new }
{
    page.put_shown(source_shown(schema, scope, source));
    page.put_words(".");
    page.put_shown(column_shown(schema, scope, source, column));
}

/// A source as it stands behind FROM and JOIN.
#[tactic(auto, using(sql_text::proofs::Pages::page_steps))]
pub fn source(page: &mut Page, schema: &Schema, origin: &Origin)
    ensures { WroteOn (spec.source_pieces schema.now origin.now) page.old page.new }
{
    page.put_shown(table_name(schema, origin.table));
    match &origin.alias {
        Some(alias) => {
            page.put_words(" AS ");
            page.put_name(alias);
        }
        None => {}
    }
}

/// The values of a list.
#[tactic(auto, unfolding(crate::specs::Laid::value_pieces, sql_text::specs::Pages::put_on, sql_text::specs::Written::put_all), using(sql_text::proofs::Pages::page_steps))]
fn more_values(page: &mut Page, base: &str, values: &[Value])
    ensures { WroteOn (with_leading_separators (codes ", ") (spec.value_pieces base.now) values.now)
        page.old page.new }
{
    for value in values {
        page.put_words(", ");
        page.put_mark(base, value);
    }
}

#[tactic(auto, unfolding(crate::specs::Laid::value_pieces), using(sql_text::proofs::Pages::page_steps))]
fn values_of(page: &mut Page, base: &str, values: &[Value])
    ensures { WroteOn (with_separators (codes ", ") (spec.value_pieces base.now) values.now)
        page.old page.new }
{
    let Some((first, others)) = values.split_first() else {
        return;
    };
    page.put_mark(base, first);
    more_values(page, base, others);
}

/// The scope with one more source, the innermost.
fn entered(alloc: Global, scope: &[Origin], origin: &Origin) -> Result<Vec<Origin>, AllocError>
    ensures { IfOk result (λ inner. inner.items ≡ scope.now ++ origin.now ∷ []) }
{
    let mut inner = Vec::with_capacity(alloc, scope.len())?;
    for outer in scope {
        inner.push(outer.copied()?)?;
    }
    inner.push(origin.copied()?)?;
    Ok(inner)
}

/// An operand, in parentheses where its level is below the least one.
#[tactic(auto, using(sql_text::proofs::Pages::page_steps))]
#[cycle(emits)]
fn under(page: &mut Page, schema: &Schema, scope: &[Origin], base: &str, least: u8, e: &Expr)
    ensures { WroteOn (spec.under least (laid page.old.written.dialect schema.now e.now) scope.now
        base.now) page.old page.new }
{
    if level_of(page.dialect(), e) < least {
        page.put_words("(");
        expression(page, schema, scope, base, e);
        page.put_words(")");
    } else {
        expression(page, schema, scope, base, e);
    }
}

/// Two operands side by side, each named by the other.
#[tactic(auto, using(sql_text::proofs::Pages::page_steps))]
#[cycle(emits)]
fn two(
    page: &mut Page,
    schema: &Schema,
    scope: &[Origin],
    least: (u8, u8),
    word: &str,
    a: &Expr,
    b: &Expr,
)
    ensures { WroteOn (spec.two least.0 least.1 word.now (laid page.old.written.dialect schema.now
        a.now) (laid page.old.written.dialect schema.now b.now) scope.now) page.old page.new }
{
    let left = beside(page, schema, scope, b);
    let right = beside(page, schema, scope, a);
    under(page, schema, scope, left, least.0, a);
    page.put_words(word);
    under(page, schema, scope, right, least.1, b);
}

/// Two operands between words.
#[tactic(auto, using(sql_text::proofs::Pages::page_steps))]
#[cycle(emits)]
fn enclosed(
    page: &mut Page,
    schema: &Schema,
    scope: &[Origin],
    least: (u8, u8),
    opening: &str,
    word: &str,
    a: &Expr,
    b: &Expr,
)
    ensures { WroteOn (spec.with_closing_parenthesis opening.now (spec.two least.0 least.1 word.now
        (laid page.old.written.dialect schema.now a.now) (laid page.old.written.dialect schema.now
        b.now) scope.now)) page.old page.new }
{
    page.put_words(opening);
    two(page, schema, scope, least, word, a, b);
    page.put_words(")");
}

/// One operand of a list.
#[tactic(auto, unfolding(crate::specs::Laid::part))]
#[cycle(emits)]
fn part(page: &mut Page, schema: &Schema, scope: &[Origin], least: u8, e: &Expr)
    ensures { WroteOn (spec.part least scope.now (laid page.old.written.dialect schema.now e.now))
        page.old page.new }
{
    under(page, schema, scope, param(), least, e);
}

/// More operands of a list, each with the word before it.
#[tactic(auto, unfolding(sql_text::specs::Pages::put_on, sql_text::specs::Written::put_all), using(sql_text::proofs::Pages::page_steps))]
#[cycle(emits)]
fn more_parts(
    page: &mut Page,
    schema: &Schema,
    scope: &[Origin],
    least: u8,
    word: &str,
    operands: &[Expr],
)
    ensures { WroteOn (with_leading_separators word.now (spec.part least scope.now) (map
        (laid page.old.written.dialect schema.now) operands.now)) page.old page.new }
{
    for operand in operands {
        page.put_words(word);
        part(page, schema, scope, least, operand);
    }
}

/// Operands that do not name each other, with the word between each two.
#[tactic(auto, unfolding(crate::specs::Laid::part), using(sql_text::proofs::Pages::page_steps))]
#[cycle(emits)]
pub fn parts(
    page: &mut Page,
    schema: &Schema,
    scope: &[Origin],
    least: u8,
    word: &str,
    operands: &[Expr],
)
    ensures { WroteOn (spec.parts least word.now (map
        (laid page.old.written.dialect schema.now) operands.now) scope.now) page.old page.new }
{
    let Some((first, others)) = operands.split_first() else {
        return;
    };
    under(page, schema, scope, param(), least, first);
    more_parts(page, schema, scope, least, word, others);
}

#[tactic(auto, using(sql_text::proofs::Pages::page_steps))]
#[cycle(emits)]
fn arith(page: &mut Page, schema: &Schema, scope: &[Origin], op: ArithOp, a: &Expr, b: &Expr)
    ensures { WroteOn (spec.arith_pieces op (laid page.old.written.dialect schema.now a.now)
        (laid page.old.written.dialect schema.now b.now) scope.now) page.old page.new }
{
    match op {
        ArithOp::Add => two(page, schema, scope, arith_least(ArithOp::Add), " + ", a, b),
        ArithOp::Sub => two(page, schema, scope, arith_least(ArithOp::Sub), " - ", a, b),
        ArithOp::Mul => two(page, schema, scope, arith_least(ArithOp::Mul), " * ", a, b),
    }
}

#[tactic(auto, using(sql_text::proofs::Pages::page_steps))]
#[cycle(emits)]
fn concat(page: &mut Page, schema: &Schema, scope: &[Origin], a: &Expr, b: &Expr)
    ensures { WroteOn (spec.concat_pieces page.old.written.dialect (laid page.old.written.dialect
        schema.now a.now) (laid page.old.written.dialect schema.now b.now) scope.now)
        page.old page.new }
{
    match page.dialect() {
        Dialect::Sqlite | Dialect::Postgresql => {
            two(page, schema, scope, concat_least(), " || ", a, b);
        }
        Dialect::Mysql => { enclosed(page, schema, scope, concat_least(), "concat(", ", ", a, b) }
    }
}

#[tactic(auto, using(sql_text::proofs::Pages::page_steps))]
#[cycle(emits)]
fn ilike(page: &mut Page, schema: &Schema, scope: &[Origin], negated: bool, a: &Expr, b: &Expr)
    ensures { WroteOn (spec.ilike_pieces page.old.written.dialect negated (laid
        page.old.written.dialect schema.now a.now) (laid page.old.written.dialect schema.now b.now)
        scope.now) page.old page.new }
{
    match page.dialect() {
        Dialect::Postgresql => two(page, schema, scope, (5, 5), ilike_word(negated), a, b),
        Dialect::Sqlite | Dialect::Mysql => {
            let word = lower_like_word(negated);
            enclosed(page, schema, scope, (5, 5), "lower(", word, a, b);
        }
    }
}

/// An empty list: `a` is in it never, and not in it always.
#[tactic(auto, using(sql_text::proofs::Pages::page_steps))]
#[cycle(emits)]
fn no_list(page: &mut Page, schema: &Schema, scope: &[Origin], negated: bool, a: &Expr)
    ensures { WroteOn (spec.no_list negated (laid page.old.written.dialect schema.now a.now)
        scope.now) page.old page.new }
{
    page.put_words("(");
    under(page, schema, scope, param(), 5, a);
    page.put_words(no_in_word(negated));
}

#[tactic(auto, using(sql_text::proofs::Pages::page_steps))]
#[cycle(emits)]
fn full_list(
    page: &mut Page,
    schema: &Schema,
    scope: &[Origin],
    negated: bool,
    a: &Expr,
    values: &[Value],
)
    ensures { WroteOn (spec.full_list negated (laid page.old.written.dialect schema.now a.now)
        values.now scope.now) page.old page.new }
{
    let base = beside(page, schema, scope, a);
    under(page, schema, scope, param(), 5, a);
    page.put_words(in_word(negated));
    values_of(page, base, values);
    page.put_words(")");
}

#[tactic(auto, using(sql_text::proofs::Pages::page_steps))]
#[cycle(emits)]
fn in_list(
    page: &mut Page,
    schema: &Schema,
    scope: &[Origin],
    negated: bool,
    a: &Expr,
    values: &[Value],
)
    ensures { WroteOn (spec.in_pieces negated (laid page.old.written.dialect schema.now a.now)
        values.now scope.now) page.old page.new }
{
    match values {
        [] => no_list(page, schema, scope, negated, a),
        [_, ..] => full_list(page, schema, scope, negated, a, values),
    }
}

/// An operand behind a word.
#[tactic(auto, using(sql_text::proofs::Pages::page_steps))]
#[cycle(emits)]
fn behind(page: &mut Page, schema: &Schema, scope: &[Origin], word: &str, a: &Expr)
    ensures { WroteOn (spec.behind word.now (laid page.old.written.dialect schema.now a.now)
        scope.now) page.old page.new }
{
    page.put_words(word);
    under(page, schema, scope, param(), prefix_least(), a);
}

/// An operand before a word.
#[tactic(auto, using(sql_text::proofs::Pages::page_steps))]
#[cycle(emits)]
fn before(page: &mut Page, schema: &Schema, scope: &[Origin], word: &str, a: &Expr)
    ensures { WroteOn (spec.before (laid page.old.written.dialect schema.now a.now) word.now
        scope.now) page.old page.new }
{
    under(page, schema, scope, param(), 5, a);
    page.put_words(word);
}

#[tactic(auto, using(sql_text::proofs::Pages::page_steps))]
#[cycle(emits)]
fn between(
    page: &mut Page,
    schema: &Schema,
    scope: &[Origin],
    negated: bool,
    a: &Expr,
    low: &Expr,
    high: &Expr,
)
    ensures { WroteOn (spec.between_pieces negated (laid page.old.written.dialect schema.now a.now)
        (laid page.old.written.dialect schema.now low.now) (laid page.old.written.dialect schema.now
        high.now) scope.now) page.old page.new }
{
    let first = beside_two(page, schema, scope, low, high);
    let base = beside(page, schema, scope, a);
    under(page, schema, scope, first, 5, a);
    page.put_words(between_word(negated));
    under(page, schema, scope, base, 5, low);
    page.put_words(" AND ");
    under(page, schema, scope, base, 5, high);
}

#[tactic(auto, using(sql_text::proofs::Pages::page_steps))]
#[cycle(emits)]
fn distinct(page: &mut Page, schema: &Schema, scope: &[Origin], negated: bool, a: &Expr, b: &Expr)
    ensures { WroteOn (spec.distinct_pieces page.old.written.dialect negated (laid
        page.old.written.dialect schema.now a.now) (laid page.old.written.dialect schema.now b.now)
        scope.now) page.old page.new }
{
    match page.dialect() {
        Dialect::Sqlite => {
            let word = sqlite_distinct_word(negated);
            two(page, schema, scope, (5, 5), word, a, b);
        }
        Dialect::Postgresql => two(page, schema, scope, (5, 5), distinct_word(negated), a, b),
        Dialect::Mysql => {
            if negated {
                two(page, schema, scope, (5, 5), " <=> ", a, b);
            } else {
                enclosed(page, schema, scope, (5, 5), "NOT (", " <=> ", a, b);
            }
        }
    }
}

#[tactic(auto, using(sql_text::proofs::Pages::page_steps))]
#[cycle(emits)]
fn call(page: &mut Page, schema: &Schema, scope: &[Origin], function: Func, operands: &[Expr])
    ensures { WroteOn (spec.call_pieces function (map
        (laid page.old.written.dialect schema.now) operands.now) scope.now) page.old page.new }
{
    page.put_words(function_word(function));
    parts(page, schema, scope, 1, ", ", operands);
    page.put_words(")");
}

#[tactic(auto, using(sql_text::proofs::Pages::page_steps))]
#[cycle(emits)]
fn exists(
    page: &mut Page,
    schema: &Schema,
    scope: &[Origin],
    negated: bool,
    origin: &Origin,
    condition: &Expr,
)
    ensures { WroteOn (spec.exists_pieces schema.now negated origin.now
        (laid page.old.written.dialect schema.now condition.now) scope.now) page.old page.new }
{
    let Ok(inner) = entered(page.alloc(), scope, origin) else {
        page.give_up();
        return;
    };
    page.put_words(exists_word(negated));
    source(page, schema, origin);
    page.put_words(" WHERE ");
    expression(page, schema, inner.as_slice(), param(), condition);
    page.put_words(")");
}

#[tactic(auto, unfolding(crate::specs::Laid::laid), using(sql_text::proofs::Pages::page_steps, crate::proofs::Lists::laid_lists))]
#[cycle(emits)]
/// The text of an expression is appended, with its parameters; a value beside no column stands under this base name. Where
/// memory ran out, which the page notes, what was appended is not told: [`emit_expr`] keeps its writer then.
pub fn expression(page: &mut Page, schema: &Schema, scope: &[Origin], base: &str, e: &Expr)
    ensures { WroteOn ((laid page.old.written.dialect schema.now e.now).pieces scope.now base.now)
        page.old page.new }
{
    match e {
        Expr::Column(source, at) => column(page, schema, scope, *source, *at),
        Expr::Lit(value) => page.put_mark(base, value),
        Expr::Compare(op, a, b) => {
            let word = compare_word(*op);
            two(page, schema, scope, (5, 5), word, a.get(), b.get());
        }
        Expr::IsNull(negated, a) => { before(page, schema, scope, null_word(*negated), a.get()) }
        Expr::And(operands) => parts(page, schema, scope, 3, " AND ", operands.as_slice()),
        Expr::Or(operands) => parts(page, schema, scope, 2, " OR ", operands.as_slice()),
        Expr::Not(a) => behind(page, schema, scope, "NOT ", a.get()),
        Expr::Arith(op, a, b) => arith(page, schema, scope, *op, a.get(), b.get()),
        Expr::Neg(a) => behind(page, schema, scope, "-", a.get()),
        Expr::Concat(a, b) => concat(page, schema, scope, a.get(), b.get()),
        Expr::Like(negated, a, b) => {
            let word = like_word(*negated);
            two(page, schema, scope, (5, 5), word, a.get(), b.get());
        }
        Expr::Ilike(negated, a, b) => ilike(page, schema, scope, *negated, a.get(), b.get()),
        Expr::InList(negated, a, values) => {
            let values = values.as_slice();
            in_list(page, schema, scope, *negated, a.get(), values);
        }
        Expr::Between(negated, a, low, high) => {
            let (low, high) = (low.get(), high.get());
            between(page, schema, scope, *negated, a.get(), low, high);
        }
        Expr::Distinct(negated, a, b) => {
            let (a, b) = (a.get(), b.get());
            distinct(page, schema, scope, *negated, a, b);
        }
        Expr::Call(function, operands) => {
            call(page, schema, scope, *function, operands.as_slice());
        }
        Expr::CountAll => page.put_words("count(*)"),
        Expr::Exists(negated, origin, a) => {
            let condition = a.get();
            exists(page, schema, scope, *negated, origin, condition);
        }
    }
}

/// The text of an expression is appended, with its parameters. Where it is refused, all is
/// as it was.
#[tactic(auto, unfolding(sql_text::specs::Pages::put_on))]
pub fn emit_expr(
    writer: &mut Writer,
    schema: &Schema,
    scope: &[Origin],
    e: &Expr,
) -> Result<(), AllocError>
    ensures wrote { Wrote ((laid writer.old.dialect schema.now e.now).pieces scope.now spec.param)
        result writer.old writer.new }
    ensures kept { OnErr result (writer.new ≡ writer.old) }
{
    let mut page = Page::of(writer.copied()?);
    expression(&mut page, schema, scope, param(), e);
    *writer = page.written()?;
    Ok(())
}
