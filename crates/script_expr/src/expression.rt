//! What the forms of expressions are made of.

ghost use Rattle.std.specs.Prelude.{[], ◌∷◌, ◌≡◌, IfOk, IfErr};
ghost use Rattle.script_tokens.specs.Input.{Reads};
ghost use Rattle.script_tokens.specs.declared.fault.Fault.TheVariants.{Memory};
ghost use Rattle.script_expr.specs.Expr as spec;

use base_core::{ArithOp, Name, RowValues};
use expr_types::{CompareOp, Func};
use script_lex::Kind;
use script_tokens::literals::literals;
use script_tokens::names::name;
use script_tokens::{Fault, Tokens};
use script_types::{Syn, SynSource};
use sqlite_items::{Boxed, Items};
use std::alloc::{AllocError, Global};

/// What joins two operands.
#[derive(Clone, Copy)]
pub enum Joint {
    Arith(ArithOp),
    Concat,
}

/// What may follow the first operand of a comparison.
#[derive(Clone, Copy)]
pub enum Test {
    Compare(CompareOp),
    /// `is distinct from` or `is not distinct from`.
    Distinct,
    /// A test after `not`.
    Negated,
    /// A test with no `not`.
    Plain,
    /// No test.
    Absent,
}

/// The function that a word names.
pub fn function(kind: Kind) -> Option<Func>
    ensures { result ≡ spec.function kind }
{
    match kind {
        Kind::Count => Some(Func::Count),
        Kind::Sum => Some(Func::Sum),
        Kind::Min => Some(Func::Min),
        Kind::Max => Some(Func::Max),
        Kind::Lower => Some(Func::Lower),
        Kind::Upper => Some(Func::Upper),
        Kind::Length => Some(Func::Length),
        Kind::Coalesce => Some(Func::Coalesce),
        _ => None,
    }
}

/// The test that a token of this kind begins.
pub fn test_kind(kind: Kind) -> Test
    ensures { result ≡ spec.test_kind kind }
{
    match kind {
        Kind::Equal => Test::Compare(CompareOp::Equal),
        Kind::NotEqual => Test::Compare(CompareOp::NotEqual),
        Kind::Less => Test::Compare(CompareOp::Less),
        Kind::LessEqual => Test::Compare(CompareOp::LessEqual),
        Kind::Greater => Test::Compare(CompareOp::Greater),
        Kind::GreaterEqual => Test::Compare(CompareOp::GreaterEqual),
        Kind::Is => Test::Distinct,
        Kind::Not => Test::Negated,
        Kind::Like | Kind::Ilike | Kind::Between | Kind::In => Test::Plain,
        _ => Test::Absent,
    }
}

/// How a token of this kind joins two summands.
pub fn sum_joint(kind: Kind) -> Option<Joint>
    ensures { result ≡ spec.sum_joint kind }
{
    match kind {
        Kind::Plus => Some(Joint::Arith(ArithOp::Add)),
        Kind::Minus | Kind::Signed => Some(Joint::Arith(ArithOp::Sub)),
        Kind::Concat => Some(Joint::Concat),
        _ => None,
    }
}

/// How a token of this kind joins two factors.
pub fn product_joint(kind: Kind) -> Option<Joint>
    ensures { result ≡ spec.product_joint kind }
{
    match kind {
        Kind::Star => Some(Joint::Arith(ArithOp::Mul)),
        _ => None,
    }
}

/// A tree in a box. The only fault is that memory ran out.
pub fn boxed(alloc: Global, tree: Syn) -> Result<Boxed<Syn>, Fault>
    ensures tree { IfOk result (λ it. it ≡ tree) }
    ensures memory { IfErr result (λ e. e ≡ Memory) }
{
    Ok(Boxed::new(alloc, tree)?)
}

/// Two operands, joined. The only fault is that memory ran out.
pub fn joined(
    alloc: Global,
    joint: Joint,
    left: Boxed<Syn>,
    right: Boxed<Syn>,
) -> Result<Boxed<Syn>, Fault>
    ensures tree { IfOk result (λ it. it ≡ spec.join_operands joint left right) }
    ensures memory { IfErr result (λ e. e ≡ Memory) }
{
    match joint {
        Joint::Arith(op) => boxed(alloc, Syn::Arith(op, left, right)),
        Joint::Concat => boxed(alloc, Syn::Concat(left, right)),
    }
}

/// A table, and the name that it is given.
#[tactic(auto, unfolding(crate::specs::Expr::source))]
pub fn source(tokens: &mut Tokens<'_>) -> Result<SynSource, Fault>
    ensures { Reads (spec.source tokens.old) result tokens.new }
{
    let table = name(tokens)?;
    let alias = if tokens.eat(Kind::As) {
        Some(name(tokens)?)
    } else {
        None
    };
    Ok(SynSource { table, alias })
}

/// Whether `null` comes next behind `==` or `!=`, which is gone past then.
#[tactic(auto, unfolding(crate::specs::Expr::null_after))]
pub fn null_after(tokens: &mut Tokens<'_>, op: CompareOp) -> bool
    ensures { spec.null_after op tokens.old ≡ Ok (result, tokens.new) }
{
    match op {
        CompareOp::Equal | CompareOp::NotEqual => tokens.eat(Kind::Null),
        _ => false,
    }
}

/// Whether the operator is `!=`.
pub fn is_unlike(op: CompareOp) -> bool
    ensures { result ≡ spec.is_unlike op }
{
    matches!(op, CompareOp::NotEqual)
}

/// Whether `*` comes next behind `count(`, which is gone past then.
#[tactic(auto, unfolding(crate::specs::Expr::takes_all))]
pub fn takes_all(tokens: &mut Tokens<'_>, f: Func) -> bool
    ensures { spec.takes_all f tokens.old ≡ Ok (result, tokens.new) }
{
    match f {
        Func::Count => tokens.eat(Kind::Star),
        _ => false,
    }
}

/// A list of one item.
pub fn only(alloc: Global, item: Boxed<Syn>) -> Result<Items<Syn>, AllocError>
    ensures { IfOk result (λ all. all ≡ item ∷ []) }
{
    let mut all = Items::new(alloc);
    all.push(item.into_inner())?;
    Ok(all)
}

/// A source or class and its column or attribute, after the first name.
pub fn path(alloc: Global, tokens: &mut Tokens<'_>, first: Name) -> Result<Boxed<Syn>, Fault>
    ensures { Reads (spec.path first tokens.old) result tokens.new }
{
    tokens.expect(Kind::Dot)?;
    let second = name(tokens)?;
    boxed(alloc, Syn::Path(first, second))
}

/// The literals of a list behind its opening parenthesis, of which there may be none, to its closing one.
pub fn listed(alloc: Global, tokens: &mut Tokens<'_>) -> Result<RowValues, Fault>
    ensures { Reads (spec.listed tokens.old) result tokens.new }
{
    if tokens.eat(Kind::RParen) {
        return Ok(RowValues::new(alloc));
    }
    let found = literals(alloc, tokens)?;
    tokens.expect(Kind::RParen).and(Ok(found))
}
