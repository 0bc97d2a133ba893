//! The forms of expressions.

ghost use Rattle.script_tokens.specs.Input.{Reads};
ghost use Rattle.script_expr.specs.Expr as spec;
ghost use Rattle.script_grammar.specs.Nests.{Nests};

use crate::grammar::Grammar;
use base_core::{Name, RowValues};
use expr_types::{CompareOp, Func};
use script_expr::{
    Level, Test, boxed, function, is_unlike, joined, listed, null_after, only, operand_level, path,
    product_joint, source, sum_joint, takes_all, test_kind,
};
use script_lex::Kind;
use script_tokens::literals::{begins_literal, literal};
use script_tokens::names::name;
use script_tokens::{Fault, Tokens};
use script_types::Syn;
use sqlite_items::{Boxed, Items};
use std::alloc::Global;

// Trees are boxed as soon as they are made: a fault then drops a box, by a call of its `drop`, where the drop of a `Syn` would
// stand in the function itself, form by form, each form a step to prove.
impl<F: Fn(Global, &mut Tokens<'_>, usize, Level) -> Result<Boxed<Syn>, Fault>> Grammar<F> {
    #[tactic(auto, unfolding(script_expr::specs::Expr::deeper))]
    fn deeper(&self, tokens: &mut Tokens<'_>, kind: Kind) -> Result<(), Fault>
        requires { Nests self.now.depth (F.pre self.now.expr) (F.post self.now.expr) }
        ensures { Reads (spec.deeper self.now.depth
            (spec.expr self.now.depth) kind tokens.old) result tokens.new }
    {
        if self.depth == 0 {
            return Err(tokens.refuse());
        }
        tokens.expect(kind)
    }

    #[tactic(auto, unfolding(script_expr::specs::Expr::parenthesized))]
    fn parenthesized(&self, tokens: &mut Tokens<'_>) -> Result<Boxed<Syn>, Fault>
        requires { Nests self.now.depth (F.pre self.now.expr) (F.post self.now.expr) }
        ensures { Reads (spec.parenthesized self.now.depth
            (spec.expr self.now.depth) tokens.old) result tokens.new }
    {
        self.deeper(tokens, Kind::LParen)?;
        let inner = self.inner(tokens, Level::Whole)?;
        tokens.expect(Kind::RParen)?;
        Ok(inner)
    }

    #[tactic(auto, unfolding(script_expr::specs::Expr::exists))]
    fn exists(&self, tokens: &mut Tokens<'_>) -> Result<Boxed<Syn>, Fault>
        requires { Nests self.now.depth (F.pre self.now.expr) (F.post self.now.expr) }
        ensures { Reads (spec.exists self.now.depth
            (spec.expr self.now.depth) tokens.old) result tokens.new }
    {
        self.deeper(tokens, Kind::LParen)?;
        let from = source(tokens)?;
        tokens.expect(Kind::Where)?;
        let inner = self.inner(tokens, Level::Whole)?;
        tokens.expect(Kind::RParen)?;
        boxed(self.alloc, Syn::Exists(from, inner))
    }

    fn arguments(&self, tokens: &mut Tokens<'_>) -> Result<Items<Syn>, Fault>
        requires { Nests self.now.depth (F.pre self.now.expr) (F.post self.now.expr) }
        ensures { Reads (spec.arguments self.now.depth
            (spec.expr self.now.depth) tokens.old) result tokens.new }
    {
        let mut found = Items::new(self.alloc);
        for _turn in 0..tokens.left() {
            let item = self.inner(tokens, Level::Whole)?;
            found.push(item.into_inner())?;
            if !tokens.eat(Kind::Comma) {
                return Ok(found);
            }
        }
        Err(tokens.refuse())
    }

    #[tactic(auto, unfolding(script_expr::specs::Expr::call))]
    fn call(&self, tokens: &mut Tokens<'_>, f: Func) -> Result<Boxed<Syn>, Fault>
        requires { Nests self.now.depth (F.pre self.now.expr) (F.post self.now.expr) }
        ensures { Reads (spec.call self.now.depth
            (spec.expr self.now.depth) f tokens.old) result tokens.new }
    {
        self.deeper(tokens, Kind::LParen)?;
        if takes_all(tokens, f) {
            tokens.expect(Kind::RParen)?;
            return boxed(self.alloc, Syn::CountAll);
        }
        let found = self.arguments(tokens)?;
        tokens.expect(Kind::RParen)?;
        boxed(self.alloc, Syn::Call(f, found))
    }

    #[tactic(auto, unfolding(script_expr::specs::Expr::called))]
    fn called(&self, tokens: &mut Tokens<'_>, f: Func, first: Name) -> Result<Boxed<Syn>, Fault>
        requires { Nests self.now.depth (F.pre self.now.expr) (F.post self.now.expr) }
        ensures { Reads (spec.called self.now.depth
            (spec.expr self.now.depth) f first tokens.old) result tokens.new }
    {
        if tokens.sees(Kind::LParen) {
            self.call(tokens, f)
        } else {
            path(self.alloc, tokens, first)
        }
    }

    #[tactic(auto, unfolding(script_expr::specs::Expr::named))]
    fn named(&self, tokens: &mut Tokens<'_>) -> Result<Boxed<Syn>, Fault>
        requires { Nests self.now.depth (F.pre self.now.expr) (F.post self.now.expr) }
        ensures { Reads (spec.named self.now.depth
            (spec.expr self.now.depth) tokens.old) result tokens.new }
    {
        let kind = tokens.kind();
        let first = name(tokens)?;
        match function(kind) {
            Some(f) => self.called(tokens, f, first),
            None => path(self.alloc, tokens, first),
        }
    }

    #[tactic(auto, unfolding(script_expr::specs::Expr::atom))]
    fn atom(&self, tokens: &mut Tokens<'_>) -> Result<Boxed<Syn>, Fault>
        requires { Nests self.now.depth (F.pre self.now.expr) (F.post self.now.expr) }
        ensures { Reads (spec.atom self.now.depth
            (spec.expr self.now.depth) tokens.old) result tokens.new }
    {
        match tokens.kind() {
            Kind::LParen => self.parenthesized(tokens),
            Kind::Exists => {
                tokens.take();
                self.exists(tokens)
            }
            kind if begins_literal(kind) => {
                let value = literal(tokens)?;
                boxed(self.alloc, Syn::Lit(value))
            }
            _ => self.named(tokens),
        }
    }

    #[tactic(auto, unfolding(script_expr::specs::Expr::unary))]
    fn unary(&self, tokens: &mut Tokens<'_>) -> Result<Boxed<Syn>, Fault>
        requires { Nests self.now.depth (F.pre self.now.expr) (F.post self.now.expr) }
        ensures { Reads (spec.unary self.now.depth
            (spec.expr self.now.depth) tokens.old) result tokens.new }
    {
        match tokens.kind() {
            Kind::Minus => {
                self.deeper(tokens, Kind::Minus)?;
                let operand = self.inner(tokens, operand_level(Kind::Minus))?;
                boxed(self.alloc, Syn::Neg(operand))
            }
            _ => self.atom(tokens),
        }
    }

    fn factors(&self, tokens: &mut Tokens<'_>, mut left: Boxed<Syn>) -> Result<Boxed<Syn>, Fault>
        requires { Nests self.now.depth (F.pre self.now.expr) (F.post self.now.expr) }
        ensures { Reads (spec.factors self.now.depth
            (spec.expr self.now.depth) left tokens.old) result tokens.new }
    {
        for _turn in 0..tokens.left() {
            let Some(joint) = product_joint(tokens.kind()) else {
                return Ok(left);
            };
            tokens.operator()?;
            let right = self.unary(tokens)?;
            left = joined(self.alloc, joint, left, right)?;
        }
        Ok(left)
    }

    #[tactic(auto, unfolding(script_expr::specs::Expr::product))]
    fn product(&self, tokens: &mut Tokens<'_>) -> Result<Boxed<Syn>, Fault>
        requires { Nests self.now.depth (F.pre self.now.expr) (F.post self.now.expr) }
        ensures { Reads (spec.product self.now.depth
            (spec.expr self.now.depth) tokens.old) result tokens.new }
    {
        let first = self.unary(tokens)?;
        self.factors(tokens, first)
    }

    fn summands(&self, tokens: &mut Tokens<'_>, mut left: Boxed<Syn>) -> Result<Boxed<Syn>, Fault>
        requires { Nests self.now.depth (F.pre self.now.expr) (F.post self.now.expr) }
        ensures { Reads (spec.summands self.now.depth
            (spec.expr self.now.depth) left tokens.old) result tokens.new }
    {
        for _turn in 0..tokens.left() {
            let Some(joint) = sum_joint(tokens.kind()) else {
                return Ok(left);
            };
            tokens.operator()?;
            let right = self.product(tokens)?;
            left = joined(self.alloc, joint, left, right)?;
        }
        Ok(left)
    }

    #[tactic(auto, unfolding(script_expr::specs::Expr::sum))]
    fn sum(&self, tokens: &mut Tokens<'_>) -> Result<Boxed<Syn>, Fault>
        requires { Nests self.now.depth (F.pre self.now.expr) (F.post self.now.expr) }
        ensures { Reads (spec.sum self.now.depth
            (spec.expr self.now.depth) tokens.old) result tokens.new }
    {
        let first = self.product(tokens)?;
        self.summands(tokens, first)
    }

    #[tactic(auto, unfolding(script_expr::specs::Expr::compared))]
    fn compared(
        &self,
        tokens: &mut Tokens<'_>,
        op: CompareOp,
        left: Boxed<Syn>,
    ) -> Result<Boxed<Syn>, Fault>
        requires { Nests self.now.depth (F.pre self.now.expr) (F.post self.now.expr) }
        ensures { Reads (spec.compared self.now.depth
            (spec.expr self.now.depth) op left tokens.old) result tokens.new }
    {
        if null_after(tokens, op) {
            return boxed(self.alloc, Syn::IsNull(is_unlike(op), left));
        }
        let right = self.sum(tokens)?;
        boxed(self.alloc, Syn::Compare(op, left, right))
    }

    #[tactic(auto, unfolding(script_expr::specs::Expr::distinct))]
    fn distinct(&self, tokens: &mut Tokens<'_>, left: Boxed<Syn>) -> Result<Boxed<Syn>, Fault>
        requires { Nests self.now.depth (F.pre self.now.expr) (F.post self.now.expr) }
        ensures { Reads (spec.distinct self.now.depth
            (spec.expr self.now.depth) left tokens.old) result tokens.new }
    {
        let negated = tokens.eat(Kind::Not);
        tokens.expect(Kind::Distinct)?;
        tokens.expect(Kind::From)?;
        let right = self.sum(tokens)?;
        boxed(self.alloc, Syn::Distinct(negated, left, right))
    }

    #[tactic(auto, unfolding(script_expr::specs::Expr::members))]
    fn members(&self, tokens: &mut Tokens<'_>) -> Result<RowValues, Fault>
        requires { Nests self.now.depth (F.pre self.now.expr) (F.post self.now.expr) }
        ensures { Reads (spec.members self.now.depth
            (spec.expr self.now.depth) tokens.old) result tokens.new }
    {
        self.deeper(tokens, Kind::LParen)?;
        listed(self.alloc, tokens)
    }

    #[tactic(auto, unfolding(script_expr::specs::Expr::between))]
    fn between(
        &self,
        tokens: &mut Tokens<'_>,
        negated: bool,
        left: Boxed<Syn>,
    ) -> Result<Boxed<Syn>, Fault>
        requires { Nests self.now.depth (F.pre self.now.expr) (F.post self.now.expr) }
        ensures { Reads (spec.between self.now.depth
            (spec.expr self.now.depth) negated left tokens.old) result tokens.new }
    {
        let low = self.sum(tokens)?;
        tokens.expect(Kind::And)?;
        let high = self.sum(tokens)?;
        boxed(self.alloc, Syn::Between(negated, left, low, high))
    }

    #[tactic(auto, unfolding(script_expr::specs::Expr::liked))]
    fn liked(
        &self,
        tokens: &mut Tokens<'_>,
        negated: bool,
        left: Boxed<Syn>,
    ) -> Result<Boxed<Syn>, Fault>
        requires { Nests self.now.depth (F.pre self.now.expr) (F.post self.now.expr) }
        ensures { Reads (spec.liked self.now.depth
            (spec.expr self.now.depth) negated left tokens.old) result tokens.new }
    {
        let pattern = self.sum(tokens)?;
        boxed(self.alloc, Syn::Like(negated, left, pattern))
    }

    #[tactic(auto, unfolding(script_expr::specs::Expr::iliked))]
    fn iliked(
        &self,
        tokens: &mut Tokens<'_>,
        negated: bool,
        left: Boxed<Syn>,
    ) -> Result<Boxed<Syn>, Fault>
        requires { Nests self.now.depth (F.pre self.now.expr) (F.post self.now.expr) }
        ensures { Reads (spec.iliked self.now.depth
            (spec.expr self.now.depth) negated left tokens.old) result tokens.new }
    {
        let pattern = self.sum(tokens)?;
        boxed(self.alloc, Syn::Ilike(negated, left, pattern))
    }

    #[tactic(auto, unfolding(script_expr::specs::Expr::among))]
    fn among(
        &self,
        tokens: &mut Tokens<'_>,
        negated: bool,
        left: Boxed<Syn>,
    ) -> Result<Boxed<Syn>, Fault>
        requires { Nests self.now.depth (F.pre self.now.expr) (F.post self.now.expr) }
        ensures { Reads (spec.among self.now.depth
            (spec.expr self.now.depth) negated left tokens.old) result tokens.new }
    {
        let members = self.members(tokens)?;
        boxed(self.alloc, Syn::InList(negated, left, members))
    }

    #[tactic(auto, unfolding(script_expr::specs::Expr::tested))]
    fn tested(
        &self,
        tokens: &mut Tokens<'_>,
        negated: bool,
        left: Boxed<Syn>,
    ) -> Result<Boxed<Syn>, Fault>
        requires { Nests self.now.depth (F.pre self.now.expr) (F.post self.now.expr) }
        ensures { Reads (spec.tested self.now.depth
            (spec.expr self.now.depth) negated left tokens.old) result tokens.new }
    {
        match tokens.kind() {
            Kind::Like => {
                tokens.take();
                self.liked(tokens, negated, left)
            }
            Kind::Ilike => {
                tokens.take();
                self.iliked(tokens, negated, left)
            }
            Kind::Between => {
                tokens.take();
                self.between(tokens, negated, left)
            }
            Kind::In => {
                tokens.take();
                self.among(tokens, negated, left)
            }
            _ => Err(tokens.refuse()),
        }
    }

    /// What follows the first sum of a comparison, where this test begins.
    fn follow(
        &self,
        tokens: &mut Tokens<'_>,
        test: Test,
        left: Boxed<Syn>,
    ) -> Result<Boxed<Syn>, Fault>
        requires { Nests self.now.depth (F.pre self.now.expr) (F.post self.now.expr) }
        ensures { Reads (spec.follow_by self.now.depth
            (spec.expr self.now.depth) left test tokens.old) result tokens.new }
    {
        match test {
            Test::Compare(op) => {
                tokens.take();
                self.compared(tokens, op, left)
            }
            Test::Distinct => {
                tokens.take();
                self.distinct(tokens, left)
            }
            Test::Negated => {
                tokens.take();
                self.tested(tokens, true, left)
            }
            Test::Plain => self.tested(tokens, false, left),
            Test::Absent => Ok(left),
        }
    }

    #[tactic(auto, unfolding(script_expr::specs::Expr::comparison, script_expr::specs::Expr::follow))]
    fn comparison(&self, tokens: &mut Tokens<'_>) -> Result<Boxed<Syn>, Fault>
        requires { Nests self.now.depth (F.pre self.now.expr) (F.post self.now.expr) }
        ensures { Reads (spec.comparison self.now.depth
            (spec.expr self.now.depth) tokens.old) result tokens.new }
    {
        let left = self.sum(tokens)?;
        self.follow(tokens, test_kind(tokens.kind()), left)
    }

    #[tactic(auto, unfolding(script_expr::specs::Expr::negation))]
    fn negation(&self, tokens: &mut Tokens<'_>) -> Result<Boxed<Syn>, Fault>
        requires { Nests self.now.depth (F.pre self.now.expr) (F.post self.now.expr) }
        ensures { Reads (spec.negation self.now.depth
            (spec.expr self.now.depth) tokens.old) result tokens.new }
    {
        match tokens.kind() {
            Kind::Not => {
                self.deeper(tokens, Kind::Not)?;
                let operand = self.inner(tokens, operand_level(Kind::Not))?;
                boxed(self.alloc, Syn::Not(operand))
            }
            _ => self.comparison(tokens),
        }
    }

    fn conjuncts(&self, tokens: &mut Tokens<'_>, first: Boxed<Syn>) -> Result<Items<Syn>, Fault>
        requires { Nests self.now.depth (F.pre self.now.expr) (F.post self.now.expr) }
        ensures { Reads (spec.conjuncts self.now.depth
            (spec.expr self.now.depth) first tokens.old) result tokens.new }
    {
        let mut found = only(self.alloc, first)?;
        for _turn in 0..tokens.left() {
            let item = self.negation(tokens)?;
            found.push(item.into_inner())?;
            if !tokens.eat(Kind::And) {
                return Ok(found);
            }
        }
        Err(tokens.refuse())
    }

    #[tactic(auto, unfolding(script_expr::specs::Expr::conjunction))]
    fn conjunction(&self, tokens: &mut Tokens<'_>) -> Result<Boxed<Syn>, Fault>
        requires { Nests self.now.depth (F.pre self.now.expr) (F.post self.now.expr) }
        ensures { Reads (spec.conjunction self.now.depth
            (spec.expr self.now.depth) tokens.old) result tokens.new }
    {
        let first = self.negation(tokens)?;
        if tokens.eat(Kind::And) {
            let parts = self.conjuncts(tokens, first)?;
            boxed(self.alloc, Syn::And(parts))
        } else {
            Ok(first)
        }
    }

    fn disjuncts(&self, tokens: &mut Tokens<'_>, first: Boxed<Syn>) -> Result<Items<Syn>, Fault>
        requires { Nests self.now.depth (F.pre self.now.expr) (F.post self.now.expr) }
        ensures { Reads (spec.disjuncts self.now.depth
            (spec.expr self.now.depth) first tokens.old) result tokens.new }
    {
        let mut found = only(self.alloc, first)?;
        for _turn in 0..tokens.left() {
            let item = self.conjunction(tokens)?;
            found.push(item.into_inner())?;
            if !tokens.eat(Kind::Or) {
                return Ok(found);
            }
        }
        Err(tokens.refuse())
    }

    #[tactic(auto, unfolding(script_expr::specs::Expr::disjunction))]
    fn disjunction(&self, tokens: &mut Tokens<'_>) -> Result<Boxed<Syn>, Fault>
        requires { Nests self.now.depth (F.pre self.now.expr) (F.post self.now.expr) }
        ensures { Reads (spec.disjunction self.now.depth
            (spec.expr self.now.depth) tokens.old) result tokens.new }
    {
        let first = self.conjunction(tokens)?;
        if tokens.eat(Kind::Or) {
            let parts = self.disjuncts(tokens, first)?;
            boxed(self.alloc, Syn::Or(parts))
        } else {
            Ok(first)
        }
    }

    pub fn at_level(&self, tokens: &mut Tokens<'_>, level: Level) -> Result<Boxed<Syn>, Fault>
        requires { Nests self.now.depth (F.pre self.now.expr) (F.post self.now.expr) }
        ensures { Reads (spec.at_level self.now.depth
            (spec.expr self.now.depth) level tokens.old) result tokens.new }
    {
        match level {
            Level::Whole => self.disjunction(tokens),
            Level::Negation => self.negation(tokens),
            Level::Unary => self.unary(tokens),
        }
    }
}
