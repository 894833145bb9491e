// Words with numbers, and words that have a spelling.
ghost use Rattle.std.specs.Prelude.{◌≡◌, IfOk};
ghost use Rattle.derivation_items.specs.Words.{numbered_word, printable_byte as printable_code, printable_text};

use itoa::Buffer;
use std::alloc::Global;
use tptp_base::{Memory, Text};

/// The word with the number behind it.
pub fn numbered(alloc: Global, word: &[u8], number: u64) -> Result<Text, Memory>
    ensures { IfOk result (λ name. name ≡ numbered_word word.now number) }
{
    let mut buffer = Buffer::new();
    let mut name = Text::from_slice(alloc, word)?;
    name.append(Text::from_slice(alloc, buffer.format(number).as_bytes())?)?;
    Ok(name)
}

/// The text with a question mark in place of each byte that no quoted word can hold.
pub(crate) fn printable(alloc: Global, text: &[u8]) -> Result<Text, Memory>
    ensures { IfOk result (λ word. word ≡ printable_text text.now) }
{
    let mut word = Text::new(alloc);
    for byte in text {
        word.push(printable_byte(*byte))?;
    }
    Ok(word)
}

// The byte, or a question mark.
fn printable_byte(byte: u8) -> u8
    ensures { result ≡ printable_code byte }
{
    if 32 <= byte && byte <= 126 {
        byte
    } else {
        b'?'
    }
}
