//! The words between operands, and the levels of forms.

ghost use Rattle.std.specs.Prelude.{◌≡◌};
ghost use Rattle.schema_core.specs.Catalog.{Catalog};
ghost use Rattle.sql_text.specs.Words.{null_word, like_word, ilike_word, in_word, between_word, distinct_word, sqlite_distinct_word};
ghost use Rattle.sql_expressions.specs.Laid as spec;
ghost use Rattle.sql_expressions.specs.Laid.{laid};

use base_core::{ArithOp, Dialect};
use expr_types::{CompareOp, Expr, Func};
use sql_text::exists_level;

pub(crate) fn compare_word(op: CompareOp) -> &'static str
    ensures { result.now ≡ spec.compare_word op }
{
    match op {
        CompareOp::Equal => " = ",
        CompareOp::NotEqual => " != ",
        CompareOp::Less => " < ",
        CompareOp::LessEqual => " <= ",
        CompareOp::Greater => " > ",
        CompareOp::GreaterEqual => " >= ",
    }
}

pub(crate) fn null_word(negated: bool) -> &'static str
    ensures { result.now ≡ null_word negated }
{
    if negated { " IS NOT NULL" } else { " IS NULL" }
}

pub(crate) fn like_word(negated: bool) -> &'static str
    ensures { result.now ≡ like_word negated }
{
    if negated { " NOT LIKE " } else { " LIKE " }
}

pub(crate) fn ilike_word(negated: bool) -> &'static str
    ensures { result.now ≡ ilike_word negated }
{
    if negated { " NOT ILIKE " } else { " ILIKE " }
}

pub(crate) fn lower_like_word(negated: bool) -> &'static str
    ensures { result.now ≡ spec.lower_like_word negated }
{
    if negated {
        ") NOT LIKE lower("
    } else {
        ") LIKE lower("
    }
}

pub(crate) fn in_word(negated: bool) -> &'static str
    ensures { result.now ≡ in_word negated }
{
    if negated { " NOT IN (" } else { " IN (" }
}

pub(crate) fn no_in_word(negated: bool) -> &'static str
    ensures { result.now ≡ spec.no_in_word negated }
{
    if negated {
        " NOT IN (NULL) OR 1 = 1)"
    } else {
        " IN (NULL) AND 1 != 1)"
    }
}

pub(crate) fn between_word(negated: bool) -> &'static str
    ensures { result.now ≡ between_word negated }
{
    if negated {
        " NOT BETWEEN "
    } else {
        " BETWEEN "
    }
}

pub(crate) fn sqlite_distinct_word(negated: bool) -> &'static str
    ensures { result.now ≡ sqlite_distinct_word negated }
{
    if negated { " IS " } else { " IS NOT " }
}

pub(crate) fn distinct_word(negated: bool) -> &'static str
    ensures { result.now ≡ distinct_word negated }
{
    if negated {
        " IS NOT DISTINCT FROM "
    } else {
        " IS DISTINCT FROM "
    }
}

pub(crate) fn exists_word(negated: bool) -> &'static str
    ensures { result.now ≡ spec.exists_word negated }
{
    if negated {
        "NOT EXISTS (SELECT 1 FROM "
    } else {
        "EXISTS (SELECT 1 FROM "
    }
}

pub(crate) fn function_word(function: Func) -> &'static str
    ensures { result.now ≡ spec.function_word function }
{
    match function {
        Func::Count => "count(",
        Func::Sum => "sum(",
        Func::Min => "min(",
        Func::Max => "max(",
        Func::Lower => "lower(",
        Func::Upper => "upper(",
        Func::Length => "length(",
        Func::Coalesce => "coalesce(",
    }
}

fn arith_level(op: ArithOp) -> u8
    ensures { result ≡ spec.arith_level op }
{
    match op {
        ArithOp::Add | ArithOp::Sub => 5,
        ArithOp::Mul => 6,
    }
}

fn concat_level(dialect: Dialect) -> u8
    ensures { result ≡ spec.concat_level dialect }
{
    match dialect {
        Dialect::Sqlite | Dialect::Postgresql => 5,
        Dialect::Mysql => 8,
    }
}

fn distinct_level(dialect: Dialect, negated: bool) -> u8
    ensures { result ≡ spec.distinct_level dialect negated }
{
    match (dialect, negated) {
        (Dialect::Mysql, false) => 3,
        _ => 4,
    }
}

/// The level of an expression's text, from 1 for `OR` to 8 for what needs no parentheses anywhere.
#[tactic(auto, unfolding(crate::specs::Laid::laid))]
pub(crate) fn level_of(dialect: Dialect, e: &Expr) -> u8
    ensures { (schema : Catalog) → result ≡ (laid dialect schema e.now).level }
{
    match e {
        Expr::Or(_) => 1,
        Expr::And(_) => 2,
        Expr::Not(_) => 3,
        Expr::Exists(negated, _, _) => exists_level(*negated),
        Expr::Compare(_, _, _) | Expr::IsNull(_, _) => 4,
        Expr::Like(_, _, _) | Expr::Ilike(_, _, _) | Expr::Between(_, _, _, _) => 4,
        Expr::InList(_, _, values) => { if values.is_empty() { 8 } else { 4 } }
        Expr::Distinct(negated, _, _) => distinct_level(dialect, *negated),
        Expr::Arith(op, _, _) => arith_level(*op),
        Expr::Concat(_, _) => concat_level(dialect),
        Expr::Neg(_) => 7,
        Expr::Column(_, _) | Expr::Lit(_) | Expr::Call(_, _) | Expr::CountAll => 8,
    }
}
