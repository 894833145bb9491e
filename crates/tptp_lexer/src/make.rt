//! Tokens from their spellings.
ghost use Rattle.std.specs.Prelude.{◌≡◌, ◌+◌, ◌≤◌, length};
ghost use Rattle.tptp_lexer.specs.Lexemes as spec;

use crate::lexeme::Lexeme;
use crate::scan::Kind;
use crate::{Chars, Token, Word};

/// The token of a kind that is spelled so. A distinct object is given as a word where `words` says so.
#[inline(always)]
pub fn token_of<'a>(kind: Kind, spelling: &'a [u8], words: bool) -> Token<'a>
    ensures { result ≡ spec.taken words (spec.token_of kind spelling.now) }
{
    match kind {
        Kind::Lower => Token::Lower(Word::new(spelling)),
        Kind::Quoted => Token::Quoted(Chars::new(inside(spelling))),
        Kind::Upper => Token::Upper(Word::new(spelling)),
        Kind::Dollar => Token::Dollar(Word::new(spelling)),
        Kind::System => Token::System(Word::new(spelling)),
        Kind::Number => Token::Number(Word::new(spelling)),
        Kind::Distinct => distinct(inside(spelling), words),
        Kind::Comment => Token::Comment(Word::new(spelling)),
        Kind::Mark(mark) => Token::Mark(mark),
    }
}

/// The token that is found there, with a word in place of a distinct object where `words` says so.
pub fn token_at<'a>(text: &'a [u8], lexeme: Lexeme, words: bool) -> Token<'a>
    requires { lexeme.at + lexeme.len ≤ length text.now }
    ensures { result ≡ spec.taken words (spec.token_of lexeme.kind (spec.spelling text.now lexeme)) }
{
    let from = lexeme.at as usize;
    token_of(lexeme.kind, &text[from..from + lexeme.len], words)
}

/// The distinct object that is written so between its quotes, or the word for it.
pub fn distinct<'a>(written: &'a [u8], words: bool) -> Token<'a>
    ensures { result ≡ spec.taken words (Token.Distinct (spec.unescaped written.now)) }
{
    if words {
        Token::Quoted(Chars::behind_mark(written))
    } else {
        Token::Distinct(Chars::new(written))
    }
}

/// What stands between the first and the last byte.
pub fn inside(spelling: &[u8]) -> &[u8]
    ensures { result.now ≡ spec.inside spelling.now }
{
    if spelling.len() < 2 {
        return &spelling[..0];
    }
    &spelling[1..spelling.len() - 1]
}
