// A place in a list of tokens.
ghost use Rattle.std.specs.Prelude.{◌≡◌, length};
ghost use Rattle.std.specs.Option.{option_copied};
ghost use Rattle.first_fault.specs.code.Reading.{next, tail, expect, sees, after_seen};
ghost use Rattle.tptp_grammar.specs.code.ReadTerms as spec;
ghost use Rattle.tptp_grammar.specs.code.Outcomes.{Reads};
ghost use Rattle.tptp_grammar.specs.code.Adding.{IsClosed};

use crate::stop::Stop;
use std::marker::Model;
use tptp_lexer::{Mark, Token};

/// The tokens of an item that are left.
#[derive(Drop)]
pub struct Cursor<'a> {
    tokens: &'a [Token<'a>],
}

impl<'a> Model for Cursor<'a> {
    ghost use Rattle.std.specs.Prelude.{List};
    ghost use Rattle.tptp_lexer.specs.declared.token.Token.{Token};

    ghost Value = { List Token };

    ghost view = { λ cursor. cursor.tokens.now };
}

impl<'a> Cursor<'a> {
    /// A cursor at the first token.
    pub fn new(tokens: &'a [Token<'a>]) -> Cursor<'a>
        ensures { result ≡ tokens.now }
    {
        Cursor { tokens }
    }

    /// The next token.
    pub fn peek(&self) -> Option<&Token<'a>>
        ensures { option_copied result ≡ next self.now }
    {
        match self.tokens {
            [token, ..] => Some(token),
            [] => None,
        }
    }

    /// How many tokens are left.
    pub fn left(&self) -> usize
        ensures { result ≡ length self.now }
    {
        self.tokens.len()
    }

    /// Goes behind the next token.
    pub fn skip(&mut self)
        ensures { self.new ≡ tail self.old }
    {
        if let [_, rest @ ..] = self.tokens {
            self.tokens = rest;
        }
    }

    /// Whether the next token is this mark.
    pub fn sees(&self, mark: Mark) -> bool
        ensures { result ≡ sees (spec.is_mark mark) self.now }
    {
        match self.peek() {
            Some(Token::Mark(other)) => same_mark(*other, mark),
            _ => false,
        }
    }

    /// Goes behind the next token where it is this mark.
    pub fn eat(&mut self, mark: Mark) -> bool
        ensures found { result ≡ sees (spec.is_mark mark) self.old }
        ensures new { self.new ≡ after_seen (spec.is_mark mark) self.old }
    {
        let found = self.sees(mark);
        if found {
            self.skip();
        }
        found
    }

    /// Goes behind this mark.
    pub fn expect(&mut self, mark: Mark) -> Result<(), Stop>
        ensures { Reads (expect (spec.is_mark mark) self.old) result self.new }
    {
        if self.eat(mark) {
            Ok(())
        } else {
            Err(Stop::Unexpected)
        }
    }

    /// What was read, if it was and this mark follows. The cursor then stands behind the mark.
    pub fn closed<T: Drop>(&mut self, read: Result<T, Stop>, mark: Mark) -> Result<T, Stop>
        ensures { IsClosed mark read self.old result self.new }
    {
        let read = read?;
        self.expect(mark)?;
        Ok(read)
    }
}

#[tactic(auto, unfolding(crate::specs::code::ReadTerms::same_mark))]
fn same_mark(a: Mark, b: Mark) -> bool
    ensures { result ≡ spec.same_mark a b }
{
    a == b
}
