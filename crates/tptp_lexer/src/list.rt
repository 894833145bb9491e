//! The tokens of a part of a text in turn. They are found in the text one by one, as they are asked for, and none is
//! kept.
ghost use Rattle.std.specs.Prelude.{◌≡◌, ◌↔◌, ◌≤◌, ◌∷◌, ◌++◌, [], false, length, IsTrue, MatchOption, OnOk};
ghost use Rattle.tptp_base.specs.declared.place.Place.{Place};
ghost use Rattle.tptp_lexer.specs.Dots.{through_dot, behind_dot};
ghost use Rattle.tptp_lexer.specs.Words.{as_words};
ghost use Rattle.tptp_lexer.specs.Lexemes as spec;

use crate::advance::place_behind;
use crate::ahead::ahead_of;
use crate::lexeme::Lexeme;
use crate::make::token_at;
use crate::through::take_item;
use crate::{Style, Token};
use std::alloc::AllocError;
use std::marker::Model;
use tptp_base::Place;

/// Tokens in turn, each with the place where it begins.
#[derive(Drop)]
pub struct TokenList<'a> {
    text: &'a [u8],
    start: Place,
    end: u64,
    style: Style,
    words: bool,
}

impl<'a> Model for TokenList<'a> {
    ghost use Rattle.std.specs.Prelude.{◌≤◌, List, length};
    ghost use Rattle.tptp_base.specs.declared.place.Place.{Place};
    ghost use Rattle.tptp_lexer.specs.declared.token.Token.{Token};

    ghost Value = { List (Token × Place) };

    ghost use Rattle.tptp_lexer.specs.Lexemes.{IsPlaced, items_of, lexemes};

    ghost view = { λ it. items_of it.words it.start.file it.text.now (lexemes it.style it.text.now it.end it.start.offset) };

    ghost invariant = { λ it. (it.end ≤ length it.text.now)
        × IsPlaced it.text.now it.start (lexemes it.style it.text.now it.end it.start.offset) };
}

impl<'a> TokenList<'a> {
    // The tokens from a place of the text on, up to an offset.
    pub(crate) fn new(text: &'a [u8], start: Place, end: u64, style: Style) -> TokenList<'a>
        requires within { end ≤ length text.now }
        requires placed { spec.IsPlaced text.now start (spec.lexemes style text.now end start.offset) }
        ensures { result
            ≡ spec.items_of false start.file text.now (spec.lexemes style text.now end start.offset) }
    {
        TokenList {
            text,
            start,
            end,
            style,
            words: false,
        }
    }

    /// The tokens from the first one on.
    pub fn rest(&self) -> Rest<'_>
        ensures { result ≡ self.now }
    {
        let ahead = ahead_of(self.style, self.text, self.start.offset, self.end);
        Rest {
            text: self.text,
            known: self.start,
            next: ahead.next,
            at: ahead.at,
            end: self.end,
            style: self.style,
            words: self.words,
        }
    }

    /// The tokens with words in place of distinct objects. It takes no time.
    pub fn objects_as_words(self) -> TokenList<'a>
        ensures { result ≡ as_words self.entry }
    {
        TokenList {
            text: self.text,
            start: self.start,
            end: self.end,
            style: self.style,
            words: true,
        }
    }
}

/// The tokens of a list that are left, each with its place.
#[derive(Drop)]
pub struct Rest<'a> {
    text: &'a [u8],
    known: Place,
    next: Option<Lexeme>,
    at: u64,
    end: u64,
    style: Style,
    words: bool,
}

impl<'a> Model for Rest<'a> {
    ghost use Rattle.std.specs.Prelude.{◌≤◌, List, length};
    ghost use Rattle.tptp_base.specs.declared.place.Place.{Place};
    ghost use Rattle.tptp_lexer.specs.declared.token.Token.{Token};

    ghost Value = { List (Token × Place) };

    ghost use Rattle.tptp_lexer.specs.Lexemes.{IsPlaced, ahead, items_of, lexemes};

    ghost view = { λ it.
        items_of it.words it.known.file it.text.now (ahead it.next (lexemes it.style it.text.now it.end it.at)) };

    ghost invariant = { λ it. (it.end ≤ length it.text.now)
        × IsPlaced it.text.now it.known (ahead it.next (lexemes it.style it.text.now it.end it.at)) };
}

impl<'a> Rest<'a> {
    /// The same tokens once more.
    pub fn again(&self) -> Rest<'a>
        ensures { result ≡ self.now }
    {
        Rest {
            text: self.text,
            known: self.known,
            next: self.next,
            at: self.at,
            end: self.end,
            style: self.style,
            words: self.words,
        }
    }

    /// Whether no token is left.
    pub fn is_empty(&self) -> bool
        ensures { IsTrue result ↔ (self.now ≡ []) }
    {
        self.next.is_none()
    }

    /// The next token, which is passed.
    pub fn next(&mut self) -> Option<Token<'a>>
        ensures { MatchOption result ((self.old ≡ []) × (self.new ≡ []))
            (λ token. (place : Place) × (self.old ≡ (token, place) ∷ self.new)) }
    {
        match self.next {
            Some(lexeme) => {
                let token = token_at(self.text, lexeme, self.words);
                let ahead = ahead_of(self.style, self.text, self.at, self.end);
                self.next = ahead.next;
                self.at = ahead.at;
                Some(token)
            }
            None => None,
        }
    }

    /// Takes the tokens through the next dot, comments left out, behind those of the list. Without a dot all are taken.
    pub fn take_through_dot(&mut self, tokens: &mut Vec<Token<'a>>) -> Result<(), AllocError>
        ensures ok { OnOk result (tokens.new.items ≡ tokens.old.items ++ through_dot self.old) }
        ensures rest { OnOk result (self.new ≡ behind_dot self.old) }
    {
        match self.next {
            Some(first) => {
                let at = take_item(
                    first, self.style, self.text, self.at, self.end, self.words, tokens,
                )?;
                let ahead = ahead_of(self.style, self.text, at, self.end);
                self.next = ahead.next;
                self.at = ahead.at;
                Ok(())
            }
            None => Ok(()),
        }
    }

    /// The next token with its place, which is passed. It takes the time of the bytes between it and the last one that
    /// was given with its place.
    pub fn next_placed(&mut self) -> Option<(Token<'a>, Place)>
        ensures { MatchOption result ((self.old ≡ []) × (self.new ≡ [])) (λ item. self.old ≡ item ∷ self.new) }
    {
        match self.next {
            Some(lexeme) => {
                let token = token_at(self.text, lexeme, self.words);
                let place = place_behind(self.text, self.known, lexeme.at);
                let ahead = ahead_of(self.style, self.text, self.at, self.end);
                self.known = place;
                self.next = ahead.next;
                self.at = ahead.at;
                Some((token, place))
            }
            None => None,
        }
    }
}
