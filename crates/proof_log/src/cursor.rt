// A place in the text of a log.
ghost use Rattle.std.specs.Prelude.{◌≡◌, length, drop};
ghost use Rattle.first_fault.specs.code.Reading.{next, tail, expect};
ghost use Rattle.proof_log.specs.code.ReadWords as spec;
ghost use Rattle.proof_log.specs.code.Outcomes.{Reads};

use crate::stop::Stop;
use std::marker::Model;

/// The text that is left.
#[derive(Drop)]
pub struct Cursor<'a> {
    rest: &'a [u8],
}

impl<'a> Model for Cursor<'a> {
    ghost use Rattle.std.specs.Prelude.{ℕ, List};

    ghost Value = { List ℕ };

    ghost view = { λ cursor. cursor.rest.now };
}

impl<'a> Cursor<'a> {
    /// A cursor at the beginning.
    pub fn new(text: &'a [u8]) -> Cursor<'a>
        ensures { result ≡ text.now }
    {
        Cursor { rest: text }
    }

    /// The text that is left.
    pub fn text(&self) -> &'a [u8]
        ensures { result.now ≡ self.now }
    {
        self.rest
    }

    /// The next byte.
    pub fn peek(&self) -> Option<u8>
        ensures { result ≡ next self.now }
    {
        match self.rest {
            [byte, ..] => Some(*byte),
            [] => None,
        }
    }

    /// Goes behind the next byte.
    pub fn skip(&mut self)
        ensures { self.new ≡ tail self.old }
    {
        if let [_, rest @ ..] = self.rest {
            self.rest = rest;
        }
    }

    /// Goes behind so many bytes.
    pub fn advance(&mut self, count: usize)
        ensures { self.new ≡ drop count self.old }
    {
        if count < self.rest.len() {
            self.rest = &self.rest[count..];
        } else {
            self.rest = &[];
        }
    }

    /// Goes behind this byte.
    pub fn expect(&mut self, byte: u8) -> Result<(), Stop>
        ensures { Reads (expect (spec.is_byte byte) self.old) result self.new }
    {
        match self.peek() {
            Some(next) => {
                if next == byte {
                    self.skip();
                    Ok(())
                } else {
                    Err(Stop::Unexpected)
                }
            }
            None => Err(Stop::Unexpected),
        }
    }
}
