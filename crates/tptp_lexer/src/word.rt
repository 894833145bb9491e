//! Words that a text lends.
ghost use Rattle.std.specs.Prelude.{◌≡◌, ◌∷◌, IfOk};
ghost use Rattle.tptp_lexer.specs.Lexemes as spec;

use crate::quotes::{put_unescaped, unescaped};
use std::alloc::{AllocError, Global};
use std::marker::Model;
use tptp_base::Text;

// The byte in front of the text of a distinct object that is taken as a word.
const MARK: u8 = 0;

/// Bytes that a text lends.
#[derive(Drop)]
pub struct Word<'a> {
    bytes: &'a [u8],
}

impl<'a> Model for Word<'a> {
    ghost use Rattle.std.specs.Prelude.{ℕ, List};

    ghost Value = { List ℕ };

    ghost view = { λ word. word.bytes.now };
}

impl<'a> Word<'a> {
    /// The word of these bytes.
    pub fn new(bytes: &'a [u8]) -> Word<'a>
        ensures { result ≡ bytes.now }
    {
        Word { bytes }
    }

    /// Its bytes.
    pub fn as_slice(&self) -> &'a [u8]
        ensures { result.now ≡ self.now }
    {
        self.bytes
    }

    /// Its bytes, in a text of their own.
    pub fn to_text(&self, alloc: Global) -> Result<Text, AllocError>
        ensures { IfOk result (λ text. text ≡ self.now) }
    {
        Text::from_slice(alloc, self.bytes)
    }
}

/// The characters between two quotes, as a text writes them, with escapes. Contracts see them without.
#[derive(Drop)]
pub struct Chars<'a> {
    written: &'a [u8],
    marked: bool,
}

impl<'a> Model for Chars<'a> {
    ghost use Rattle.std.specs.Prelude.{ℕ, List};

    ghost Value = { List ℕ };

    ghost use Rattle.tptp_lexer.specs.Lexemes.{chars_of};

    ghost view = { λ chars. chars_of chars.marked chars.written.now };
}

impl<'a> Chars<'a> {
    // The characters that are written so between quotes.
    pub(crate) fn new(written: &'a [u8]) -> Chars<'a>
        ensures { result ≡ spec.unescaped written.now }
    {
        Chars {
            written,
            marked: false,
        }
    }

    // What is written so between quotes, with the byte 0 in front.
    pub(crate) fn behind_mark(written: &'a [u8]) -> Chars<'a>
        ensures { result ≡ 0 ∷ spec.unescaped written.now }
    {
        Chars {
            written,
            marked: true,
        }
    }

    /// The characters, in a text of their own.
    pub fn to_text(&self, alloc: Global) -> Result<Text, AllocError>
        ensures { IfOk result (λ text. text ≡ self.now) }
    {
        if self.marked {
            marked(alloc, self.written)
        } else {
            unescaped(alloc, self.written)
        }
    }
}

// The characters that are written so between quotes, with the byte in front.
fn marked(alloc: Global, written: &[u8]) -> Result<Text, AllocError>
    ensures { IfOk result (λ word. word ≡ 0 ∷ spec.unescaped written.now) }
{
    let mut word = Vec::with_capacity(alloc, written.len().saturating_add(1))?;
    word.push(MARK)?;
    put_unescaped(written, &mut word)?;
    Ok(Text::from_vec(word))
}
