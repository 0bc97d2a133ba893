//! The forms inside which expressions nest take the reader of those as a parameter, so that each is proved by itself.

ghost use Rattle.script_tokens.specs.Input.{Reads};
ghost use Rattle.script_expr.specs.Expr as spec;
ghost use Rattle.script_grammar.specs.Nests.{Nests};

use script_expr::Level;
use script_tokens::{Fault, Tokens};
use script_types::Syn;
use sqlite_items::Boxed;
use std::alloc::Global;

/// How many of parentheses, `not` and unary minus may nest, and one.
const NESTING: usize = 101;

/// The forms of an expression.
#[derive(Drop)]
pub struct Grammar<F> {
    pub alloc: Global,
    /// How many more of parentheses, `not` and unary minus may nest.
    pub depth: usize,
    pub expr: F,
}

impl<F: Fn(Global, &mut Tokens<'_>, usize, Level) -> Result<Boxed<Syn>, Fault>> Grammar<F> {
    /// An expression inside one.
    pub fn inner(&self, tokens: &mut Tokens<'_>, level: Level) -> Result<Boxed<Syn>, Fault>
        requires { Nests self.now.depth (F.pre self.now.expr) (F.post self.now.expr) }
        ensures { Reads (spec.expr self.now.depth level tokens.old) result tokens.new }
    {
        (self.expr)(self.alloc, tokens, self.depth, level)
    }
}

/// An expression with less than this number of parentheses, `not` and unary minus nested.
fn expr(
    alloc: Global,
    tokens: &mut Tokens<'_>,
    depth: usize,
    level: Level,
) -> Result<Boxed<Syn>, Fault>
    ensures { Reads (spec.expr depth level tokens.old) result tokens.new }
{
    if depth == 0 {
        return Err(tokens.refuse());
    }
    Grammar {
        alloc,
        depth: depth - 1,
        expr,
    }
    .at_level(tokens, level)
}

/// A whole expression, with at most 100 of parentheses, `not` and unary minus nested and 1000 of `+ - || *`.
#[tactic(auto, unfolding(script_expr::specs::Expr::whole))]
pub fn whole(alloc: Global, tokens: &mut Tokens<'_>) -> Result<Boxed<Syn>, Fault>
    ensures { Reads (spec.whole tokens.old) result tokens.new }
{
    tokens.begin_expression();
    expr(alloc, tokens, NESTING, Level::Whole)
}
