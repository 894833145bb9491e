// Quoted names are read.
ghost use Rattle.std.specs.Prelude.{◌≡◌, true, false};
ghost use Rattle.tptp_base.specs.Quotable as names;
ghost use Rattle.proof_log.specs.Entries as entries;
ghost use Rattle.proof_log.specs.code.ReadEntries as spec;
ghost use Rattle.proof_log.specs.code.Characters.{ReadsCharacter, ReadsEscaped};
ghost use Rattle.proof_log.specs.code.Outcomes.{Reads};

use crate::cursor::Cursor;
use crate::stop::Stop;
use std::alloc::Global;
use tptp_base::{List, Text};

fn is_special(byte: u8) -> bool
    ensures { result ≡ entries.is_special byte }
{
    byte == b'\'' || byte == b'\\'
}

fn is_printable(byte: u8) -> bool
    ensures { result ≡ names.is_printable byte }
{
    32 <= byte && byte <= 126
}

// The character behind a backslash.
fn escaped(text: &mut Cursor<'_>) -> Result<u8, Stop>
    ensures { ReadsEscaped text.old result text.new }
{
    match text.peek() {
        Some(byte) => {
            if is_special(byte) {
                text.skip();
                Ok(byte)
            } else {
                Err(Stop::Unexpected)
            }
        }
        None => Err(Stop::Unexpected),
    }
}

// The next character, or none at the closing quote.
fn character(text: &mut Cursor<'_>) -> Result<Option<u8>, Stop>
    ensures { ReadsCharacter text.old result text.new }
{
    match text.peek() {
        Some(byte) => {
            if byte == b'\'' {
                text.skip();
                Ok(None)
            } else if byte == b'\\' {
                text.skip();
                Ok(Some(escaped(text)?))
            } else if is_printable(byte) {
                text.skip();
                Ok(Some(byte))
            } else {
                Err(Stop::Unexpected)
            }
        }
        None => Err(Stop::Unexpected),
    }
}

// The characters up to the closing quote.
fn characters(alloc: Global, text: &mut Cursor<'_>) -> Result<Text, Stop>
    ensures { Reads (spec.characters false text.old) result text.new }
{
    let mut name = List::new(alloc);
    'characters: while let Some(byte) = character(text)? {
        name.push(byte)?;
    }
    Ok(name)
}

// One or more characters up to the closing quote.
fn some_characters(alloc: Global, text: &mut Cursor<'_>) -> Result<Text, Stop>
    ensures { Reads (spec.some_characters text.old) result text.new }
{
    if text.peek() == Some(b'\'') {
        Err(Stop::Unexpected)
    } else {
        characters(alloc, text)
    }
}

/// A quoted name with a blank before it.
#[tactic(auto, unfolding(crate::specs::code::ReadEntries::quoted))]
pub fn quoted(alloc: Global, text: &mut Cursor<'_>) -> Result<Text, Stop>
    ensures { Reads (spec.quoted text.old) result text.new }
{
    text.expect(b' ')?;
    text.expect(b'\'')?;
    some_characters(alloc, text)
}
