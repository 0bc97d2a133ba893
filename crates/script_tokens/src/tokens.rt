//! A cursor over the tokens of a line.

ghost use Rattle.std.specs.Prelude.{◌≡◌, length};
ghost use Rattle.std.specs.Option.{option_copied};
ghost use Rattle.script_tokens.specs.Input as spec;
ghost use Rattle.script_tokens.specs.Input.{Reads};

use crate::Fault;
use script_lex::{Content, Kind, Token, same_kind};
use std::marker::Model;

/// How many of `+ - || *` one expression may have.
const MOST_OPERATORS: usize = 1000;

/// The tokens of a line that are not read yet.
#[derive(Drop)]
pub struct Tokens<'a> {
    ahead: &'a [Token],
    /// How many more of `+ - || *` the expression may have.
    operators: usize,
}

impl<'a> Model for Tokens<'a> {
    ghost use Rattle.script_tokens.specs.Input.{Input};

    ghost Value = { Input };

    ghost view = { λ t. record { ahead = t.ahead.now; operators = t.operators } };
}

impl<'a> Tokens<'a> {
    /// The tokens of a whole line.
    pub fn new(tokens: &'a [Token]) -> Tokens<'a>
        ensures { result ≡ spec.start_of tokens.now }
    {
        Tokens {
            ahead: tokens,
            operators: 0,
        }
    }

    /// The kind of the next token.
    #[tactic(auto, unfolding(crate::specs::Input::head))]
    pub fn kind(&self) -> Kind
        ensures { result ≡ spec.kind self.now }
    {
        match self.ahead {
            [token, ..] => token.kind,
            [] => Kind::LineEnd,
        }
    }

    /// The kind of the token after the next.
    #[tactic(auto, unfolding(crate::specs::Input::second_kind))]
    pub fn second_kind(&self) -> Kind
        ensures { result ≡ spec.second_kind self.now }
    {
        match self.ahead {
            [_, token, ..] => token.kind,
            _ => Kind::LineEnd,
        }
    }

    /// What the next token holds.
    #[tactic(auto, unfolding(crate::specs::Input::head))]
    pub fn content(&self) -> Option<&'a Content>
        ensures { spec.or_nothing (option_copied result) ≡ (spec.head self.now).content }
    {
        match self.ahead {
            [token, ..] => Some(&token.content),
            [] => None,
        }
    }

    /// How many tokens are left.
    pub fn left(&self) -> usize
        ensures { result ≡ spec.turns self.now }
    {
        self.ahead.len()
    }

    /// That no form goes on with the next token.
    #[tactic(auto, unfolding(crate::specs::Input::head))]
    pub fn refuse(&self) -> Fault
        ensures { result ≡ spec.refusal self.now }
    {
        match self.ahead {
            [token, ..] => Fault::At(token.at),
            [] => Fault::At(0),
        }
    }

    /// Goes past the next token.
    #[tactic(auto, unfolding(crate::specs::Input::next))]
    pub fn take(&mut self)
        ensures { self.new ≡ spec.next self.old }
    {
        if let [_, rest @ ..] = self.ahead {
            self.ahead = rest;
        }
    }

    #[tactic(auto, unfolding(crate::specs::Input::sees))]
    pub fn sees(&self, kind: Kind) -> bool
        ensures { result ≡ spec.sees kind self.now }
    {
        same_kind(self.kind(), kind)
    }

    /// Goes past a token of this kind, if it comes next.
    #[tactic(auto, unfolding(crate::specs::Input::after))]
    pub fn eat(&mut self, kind: Kind) -> bool
        ensures found { result ≡ spec.sees kind self.old }
        ensures after { self.new ≡ spec.after kind self.old }
    {
        let found = self.sees(kind);
        if found {
            self.take();
        }
        found
    }

    /// Goes past a token of this kind, which must come next.
    #[tactic(auto, unfolding(crate::specs::Input::expect))]
    pub fn expect(&mut self, kind: Kind) -> Result<(), Fault>
        ensures { Reads (spec.expect kind self.old) result self.new }
    {
        if self.sees(kind) {
            self.take();
            Ok(())
        } else {
            Err(self.refuse())
        }
    }

    /// Begins a whole expression, which counts its operators.
    pub fn begin_expression(&mut self)
        ensures { spec.fresh self.old ≡ Ok (tt, self.new) }
    {
        self.operators = MOST_OPERATORS;
    }

    /// Goes past an operator, where the expression may have one more.
    #[tactic(auto, unfolding(crate::specs::Input::operator))]
    pub fn operator(&mut self) -> Result<(), Fault>
        ensures { Reads (spec.operator self.old) result self.new }
    {
        if self.operators == 0 {
            return Err(self.refuse());
        }
        self.operators -= 1;
        if let [_, rest @ ..] = self.ahead {
            self.ahead = rest;
        }
        Ok(())
    }
}
