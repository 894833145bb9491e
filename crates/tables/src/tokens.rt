// Tokens, as tables write them.
use crate::shown::push_bytes;
use std::alloc::{AllocError, Global};
use tptp_base::Place;
use tptp_lexer::{LexFault, Mark, Token, Tokens};

/// The kind and the text of each token, or the name of its mark; or the fault, and its line and column.
pub fn listed(alloc: Global, outcome: Result<Tokens<'_>, LexFault>) -> Result<String, AllocError> {
    match outcome {
        Ok(tokens) => list(alloc, &tokens),
        Err(LexFault::Byte(at)) => format!(in alloc; "byte {}:{}", at.line, at.column),
        Err(LexFault::Unfinished(at)) => format!(in alloc; "unfinished {}:{}", at.line, at.column),
        Err(fault) => format!(in alloc; "{fault}"),
    }
}

/// The place of each token and of the end.
pub fn placed(alloc: Global, tokens: &Tokens<'_>) -> Result<String, AllocError> {
    let mut out = String::new(alloc);
    let mut rest = tokens.items.rest();
    'tokens: while let Some((_, place)) = rest.next_placed() {
        push_place(&mut out, place)?;
        out.push(' ')?;
    }
    push_place(&mut out, tokens.end)?;
    Ok(out)
}

/// Appends the number of a place's file, its offset, its line and its column.
pub fn push_place(out: &mut String, place: Place) -> Result<(), AllocError> {
    let Place {
        file,
        offset,
        line,
        column,
    } = place;
    write!(out, "{file}:{offset}:{line}:{column}")
}

fn list(alloc: Global, tokens: &Tokens<'_>) -> Result<String, AllocError> {
    let mut out = String::new(alloc);
    let mut rest = tokens.items.rest();
    'tokens: while let Some(token) = rest.next() {
        push_token(alloc, &mut out, &token)?;
    }
    out.pop();
    Ok(out)
}

// Appends the token, with a blank behind it.
fn push_token(alloc: Global, out: &mut String, token: &Token<'_>) -> Result<(), AllocError> {
    match token {
        Token::Lower(text) => push_text(out, "lower", text.as_slice()),
        Token::Quoted(text) => push_text(out, "quoted", text.to_text(alloc)?.as_slice()),
        Token::Upper(text) => push_text(out, "upper", text.as_slice()),
        Token::Dollar(text) => push_text(out, "dollar", text.as_slice()),
        Token::System(text) => push_text(out, "system", text.as_slice()),
        Token::Number(text) => push_text(out, "number", text.as_slice()),
        Token::Distinct(text) => push_text(out, "distinct", text.to_text(alloc)?.as_slice()),
        Token::Comment(text) => push_text(out, "comment", text.as_slice()),
        Token::Mark(mark) => write!(out, "{} ", name(*mark)),
    }
}

fn push_text(out: &mut String, kind: &str, text: &[u8]) -> Result<(), AllocError> {
    write!(out, "{kind}[")?;
    push_bytes(out, text)?;
    out.push_str("] ")
}

fn name(mark: Mark) -> &'static str {
    match mark {
        Mark::Open => "Open",
        Mark::Close => "Close",
        Mark::OpenList => "OpenList",
        Mark::CloseList => "CloseList",
        Mark::Comma => "Comma",
        Mark::Dot => "Dot",
        Mark::Colon => "Colon",
        Mark::Bang => "Bang",
        Mark::Question => "Question",
        Mark::Tilde => "Tilde",
        Mark::Ampersand => "Ampersand",
        Mark::Equal => "Equal",
        Mark::NotEqual => "NotEqual",
        Mark::Star => "Star",
        Mark::Greater => "Greater",
        Mark::Imp => "Imp",
        Mark::RevImp => "RevImp",
        Mark::Iff => "Iff",
        Mark::Xor => "Xor",
        Mark::Nand => "Nand",
        Mark::Bar => "Bar",
        Mark::Nor => "Nor",
    }
}
