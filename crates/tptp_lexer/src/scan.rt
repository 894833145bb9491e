//! What a text begins with: the longest token at its front, found from the bytes there alone.
ghost use Rattle.std.specs.Prelude.{◌≡◌, ◌<◌, ◌≤◌, ◌+◌, ◌^◌, length, IfSome, false};
ghost use Rattle.tptp_lexer.specs.Comments as comments;
ghost use Rattle.tptp_lexer.specs.Scan as spec;

use crate::bytes::{blanks_len, byte, is_blank, line_len, word_len};
use crate::marks::{mark_at, single};
use crate::numbers::{is_sign, number_len};
use crate::quotes::{Quote, quote_end};
use crate::{Mark, Style};
use memchr::memmem;

/// The kinds of tokens.
#[derive(Clone, Copy)]
pub enum Kind {
    Lower,
    Quoted,
    Upper,
    Dollar,
    System,
    Number,
    Distinct,
    Comment,
    Mark(Mark),
}

/// What a text begins with.
#[derive(Clone, Copy)]
pub enum Front {
    /// So many blanks.
    Blanks(usize),
    /// A token of this kind and of so many bytes.
    Token(Kind, usize),
    /// A quote or block comment that is open where the text ends.
    Open,
    /// No token, blank or comment.
    Nothing,
}

/// What a text begins with.
#[inline(always)]
#[tactic(auto, unfolding(crate::specs::Scan::front_of))]
pub fn front_of(style: Style, text: &[u8]) -> Front
    requires { 0 < length text.now }
    ensures { result ≡ spec.front_of style text.now }
{
    let first = text[0];
    if first.is_ascii_lowercase() {
        Front::Token(Kind::Lower, word_len(text))
    } else if first.is_ascii_uppercase() {
        Front::Token(Kind::Upper, word_len(text))
    } else if is_blank(first) {
        Front::Blanks(blanks_len(text))
    } else {
        match single(first) {
            Some(mark) => Front::Token(Kind::Mark(mark), 1),
            None => behind_blanks(style, text),
        }
    }
}

// What a text begins with that begins with no letter or blank.
#[inline(never)]
fn behind_blanks(style: Style, text: &[u8]) -> Front
    requires { 0 < length text.now }
    ensures { result ≡ spec.behind_blanks style text.now }
{
    let first = text[0];
    if first.is_ascii_digit() || is_sign(first) {
        counted(Kind::Number, 0, number_len(text))
    } else {
        behind_words(style, text)
    }
}

// What a text begins with that begins with no letter, blank, digit or sign.
#[tactic(auto, unfolding(crate::specs::Scan::behind_words))]
fn behind_words(style: Style, text: &[u8]) -> Front
    requires { 0 < length text.now }
    ensures { result ≡ spec.behind_words style text.now }
{
    let first = text[0];
    if first == b'$' {
        dollar(&text[1..])
    } else if first == b'\'' {
        quoted(Kind::Quoted, 1, b'\'', &text[1..])
    } else if first == b'"' {
        quoted(Kind::Distinct, 0, b'"', &text[1..])
    } else if begins_comment(style, first) {
        Front::Token(Kind::Comment, line_len(text))
    } else if first == b'/' {
        block(&text[1..])
    } else {
        marked(mark_at(first, byte(text, 1), byte(text, 2)))
    }
}

fn begins_comment(style: Style, first: u8) -> bool
    ensures { result ≡ comments.begins_comment style first }
{
    match style {
        Style::Problem => first == b'%',
        Style::Derivation => first == b'%' || first == b'#',
    }
}

// A token of some bytes and of others behind them, of which there is at least one.
fn counted(kind: Kind, before: usize, len: usize) -> Front
    requires { before + len < 2 ^ 64 }
    ensures { result ≡ spec.counted kind before len }
{
    if len == 0 {
        Front::Nothing
    } else {
        Front::Token(kind, before + len)
    }
}

fn marked(found: Option<(Mark, usize)>) -> Front
    ensures { result ≡ spec.marked found }
{
    match found {
        None => Front::Nothing,
        Some((mark, len)) => Front::Token(Kind::Mark(mark), len),
    }
}

// The word behind `$`.
fn dollar(text: &[u8]) -> Front
    ensures { result ≡ spec.dollar text.now }
{
    if byte(text, 0) == b'$' {
        counted(Kind::System, 2, word_len(&text[1..]))
    } else {
        counted(Kind::Dollar, 1, word_len(text))
    }
}

// A quoted token that has at least so many bytes between its quotes, from the text behind the first one on.
fn quoted(kind: Kind, least: usize, quote: u8, text: &[u8]) -> Front
    ensures { result ≡ spec.quoted kind least (spec.quote_end quote false 0 text.now) }
{
    match quote_end(quote, text) {
        Quote::Closed(len) if least <= len => Front::Token(kind, len + 2),
        Quote::Unclosed => Front::Open,
        _ => Front::Nothing,
    }
}

// The block comment behind `/`.
fn block(text: &[u8]) -> Front
    ensures { result ≡ spec.block text.now }
{
    if byte(text, 0) != b'*' {
        return Front::Nothing;
    }
    match comment_end(&text[1..]) {
        None => Front::Open,
        Some(len) => Front::Token(Kind::Comment, len + 4),
    }
}

// How many bytes stand before the first `*/`.
fn comment_end(text: &[u8]) -> Option<usize>
    ensures value { result ≡ spec.comment_end text.now }
    ensures within { IfSome result (λ len. len < length text.now) }
{
    memmem::find(text, b"*/")
}
