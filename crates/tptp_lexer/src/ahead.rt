//! The next token of a part of a text.
ghost use Rattle.std.specs.Prelude.{◌≡◌, ◌+◌, ◌≤◌, length, IfSome};
ghost use Rattle.tptp_lexer.specs.Lexemes as spec;

use crate::Style;
use crate::lexeme::Lexeme;
use crate::scan::{Front, front_of};

/// The next token, if there is one, and the offset behind it.
#[derive(Clone, Copy)]
pub struct Ahead {
    pub next: Option<Lexeme>,
    pub at: u64,
}

/// The next token that is found from an offset on, up to another.
pub fn ahead_of(style: Style, text: &[u8], from: u64, end: u64) -> Ahead
    requires { end ≤ length text.now }
    ensures { spec.lexemes style text.now end from
        ≡ spec.ahead result.next (spec.lexemes style text.now end result.at) }
{
    let mut at = from;
    'blanks: while at < end {
        match front_of(style, &text[at as usize..end as usize]) {
            Front::Blanks(len) => at += len as u64,
            Front::Token(kind, len) => {
                return Ahead {
                    next: Some(Lexeme { kind, len, at }),
                    at: at + len as u64,
                };
            }
            Front::Open => return Ahead { next: None, at },
            Front::Nothing => return Ahead { next: None, at },
        }
    }
    Ahead { next: None, at }
}
