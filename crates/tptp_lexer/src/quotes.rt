//! Where a quote ends, and what it holds.
ghost use Rattle.std.specs.Prelude.{◌≡◌, ◌≤◌, ◌<◌, ◌++◌, length, IfOk, OnOk, false};
ghost use Rattle.tptp_lexer.specs.Quotes as written;
ghost use Rattle.tptp_lexer.specs.Lexemes as lexemes;
ghost use Rattle.tptp_lexer.specs.Scan as spec;
ghost use Rattle.tptp_lexer.specs.code.Scan.{EndsIn};

use memchr::memchr;
use std::alloc::{AllocError, Global};
use tptp_base::Text;

/// How a quote ends.
#[derive(Clone, Copy)]
pub enum Quote {
    /// At a closing quote, with so many bytes before it.
    Closed(usize),
    /// At the end of the text.
    Unclosed,
    /// At a byte that it cannot hold.
    Broken,
}

/// What a byte does within a quote.
#[derive(Clone, Copy)]
pub enum Turn {
    /// It belongs to it. The next byte has a `\` before it or not.
    Goes(bool),
    Closes,
    Breaks,
}

fn is_plain(quote: u8, byte: u8) -> bool
    ensures { result ≡ written.is_plain quote byte }
{
    (32 <= byte && byte <= 126) && (!(byte == quote) && !(byte == b'\\'))
}

fn is_escaped(quote: u8, byte: u8) -> bool
    ensures { result ≡ written.is_escaped quote byte }
{
    byte == quote || byte == b'\\'
}

fn turn_of(quote: u8, escaped: bool, byte: u8) -> Turn
    ensures { result ≡ spec.turn_of quote escaped byte }
{
    if escaped {
        return if is_escaped(quote, byte) {
            Turn::Goes(false)
        } else {
            Turn::Breaks
        };
    }
    if byte == quote {
        Turn::Closes
    } else if byte == b'\\' {
        Turn::Goes(true)
    } else if is_plain(quote, byte) {
        Turn::Goes(false)
    } else {
        Turn::Breaks
    }
}

/// How a quote ends, from the text behind the opening quote on.
pub fn quote_end(quote: u8, text: &[u8]) -> Quote
    ensures value { result ≡ spec.quote_end quote false 0 text.now }
    ensures within { EndsIn (length text.now) result }
{
    let mut escaped = false;
    for (at, byte) in text.iter().enumerate() {
        match turn_of(quote, escaped, *byte) {
            Turn::Goes(next) => escaped = next,
            Turn::Closes => return Quote::Closed(at),
            Turn::Breaks => return Quote::Broken,
        }
    }
    Quote::Unclosed
}

/// The characters that are written so between quotes.
pub fn unescaped(alloc: Global, text: &[u8]) -> Result<Text, AllocError>
    ensures { IfOk result (λ chars. chars ≡ lexemes.unescaped text.now) }
{
    let mut chars = Vec::with_capacity(alloc, text.len())?;
    put_unescaped(text, &mut chars)?;
    Ok(Text::from_vec(chars))
}

/// Puts the characters that are written so between quotes behind others.
pub fn put_unescaped(text: &[u8], chars: &mut Vec<u8>) -> Result<(), AllocError>
    ensures { OnOk result (chars.new.items ≡ chars.old.items ++ lexemes.unescaped text.now) }
{
    match memchr(b'\\', text) {
        None => {
            chars.extend_from_slice(text)?;
            Ok(())
        }
        Some(_) => put_without_escapes(text, chars),
    }
}

fn put_without_escapes(text: &[u8], chars: &mut Vec<u8>) -> Result<(), AllocError>
    ensures { OnOk result (chars.new.items ≡ chars.old.items ++ lexemes.unescaped text.now) }
{
    let mut escaped = false;
    for byte in text {
        escaped = !escaped && *byte == b'\\';
        if !escaped {
            chars.push(*byte)?;
        }
    }
    Ok(())
}
