//! The tokens of a part of a text through a dot, taken at once.
ghost use Rattle.std.specs.Prelude.{◌≡◌, ◌+◌, ◌<◌, ◌≤◌, [], ◌∷◌, length, IfOk, OnOk};
ghost use Rattle.std.specs.Vec.{vec_len, vec_capacity};
ghost use Rattle.tptp_lexer.specs.Dots as dots;
ghost use Rattle.tptp_lexer.specs.Lexemes as spec;
ghost use Rattle.tptp_lexer.specs.code.Gathered.{Gathered, kept};

use crate::lexeme::Lexeme;
use crate::make::{distinct, inside};
use crate::scan::{Front, Kind, front_of};
use crate::{Chars, Mark, Style, Token, Word};
use std::alloc::AllocError;

// Whether it is the kind of a dot.
fn is_dot(kind: Kind) -> bool
    ensures { result ≡ dots.is_dot (spec.token_of kind []) }
{
    matches!(kind, Kind::Mark(Mark::Dot))
}

// Keeps the token of a kind that is spelled so, where it is no comment.
fn keep<'a>(
    kind: Kind,
    spelling: &'a [u8],
    words: bool,
    tokens: &mut Vec<Token<'a>>,
) -> Result<(), AllocError>
    ensures { OnOk result (tokens.new.items
        ≡ kept (spec.taken words (spec.token_of kind spelling.now)) tokens.old.items) }
{
    tokens.reserve(1)?;
    put(kind, spelling, words, tokens);
    Ok(())
}

// The same where the list has room. Each token is made where it is to lie.
#[inline(always)]
fn put<'a>(kind: Kind, spelling: &'a [u8], words: bool, tokens: &mut Vec<Token<'a>>)
    requires { vec_len tokens.old < vec_capacity tokens.old }
    ensures { tokens.new.items ≡ kept (spec.taken words (spec.token_of kind spelling.now)) tokens.old.items }
{
    match kind {
        Kind::Lower => tokens.push_reserved(Token::Lower(Word::new(spelling))),
        Kind::Quoted => tokens.push_reserved(Token::Quoted(Chars::new(inside(spelling)))),
        Kind::Upper => tokens.push_reserved(Token::Upper(Word::new(spelling))),
        Kind::Dollar => tokens.push_reserved(Token::Dollar(Word::new(spelling))),
        Kind::System => tokens.push_reserved(Token::System(Word::new(spelling))),
        Kind::Number => tokens.push_reserved(Token::Number(Word::new(spelling))),
        Kind::Distinct => tokens.push_reserved(distinct(inside(spelling), words)),
        Kind::Comment => {}
        Kind::Mark(mark) => tokens.push_reserved(Token::Mark(mark)),
    }
}

/// Takes the token and those that are found from an offset on, up to another, through the first dot. The offset
/// behind the dot is given.
pub fn take_item<'a>(
    first: Lexeme,
    style: Style,
    text: &'a [u8],
    from: u64,
    end: u64,
    words: bool,
    tokens: &mut Vec<Token<'a>>,
) -> Result<u64, AllocError>
    requires first { first.at + first.len ≤ length text.now }
    requires within { end ≤ length text.now }
    ensures { IfOk result (λ to. Gathered words text.now
        (first ∷ spec.lexemes style text.now end from) (spec.lexemes style text.now end to)
        tokens.old.items tokens.new.items) }
{
    let begin = first.at as usize;
    let last = is_dot(first.kind);
    keep(first.kind, &text[begin..begin + first.len], words, tokens)?;
    if last {
        return Ok(from);
    }
    take_others(style, text, from, end, words, tokens)
}

// Takes the tokens that are found from an offset on through the first dot.
fn take_others<'a>(
    style: Style,
    text: &'a [u8],
    from: u64,
    end: u64,
    words: bool,
    tokens: &mut Vec<Token<'a>>,
) -> Result<u64, AllocError>
    requires { end ≤ length text.now }
    ensures { IfOk result (λ to. Gathered words text.now
        (spec.lexemes style text.now end from) (spec.lexemes style text.now end to)
        tokens.old.items tokens.new.items) }
{
    let mut at = from;
    'tokens: while at < end {
        match front_of(style, &text[at as usize..end as usize]) {
            Front::Blanks(len) => at += len as u64,
            Front::Token(kind, len) => {
                let begin = at as usize;
                let last = is_dot(kind);
                keep(kind, &text[begin..begin + len], words, tokens)?;
                at += len as u64;
                if last {
                    return Ok(at);
                }
            }
            Front::Open => return Ok(at),
            Front::Nothing => return Ok(at),
        }
    }
    Ok(at)
}
