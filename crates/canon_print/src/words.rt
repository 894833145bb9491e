// The text of words and names.
ghost use Rattle.std.specs.Prelude.{◌≡◌, ◌++◌, OnOk};
ghost use Rattle.std.specs.List.{list_all};
ghost use Rattle.tptp_lexer.specs.Bytes as bytes;
ghost use Rattle.canon_print.specs.Words as spec;

use std::alloc::AllocError;
use tptp_base::Name;

// Whether the byte is a letter, a digit or `_`.
fn is_alpha_numeric(byte: u8) -> bool
    ensures { result ≡ bytes.is_alpha_numeric byte }
{
    (byte.is_ascii_lowercase() || byte.is_ascii_uppercase())
        || (byte.is_ascii_digit() || byte == b'_')
}

fn are_alpha_numeric(text: &[u8]) -> bool
    ensures { result ≡ list_all bytes.is_alpha_numeric text.now }
{
    text.iter().all(|byte| is_alpha_numeric(*byte))
}

/// Whether the text is a word that may stand without quotes.
pub fn is_lower_word(text: &[u8]) -> bool
    ensures { result ≡ spec.is_lower_word text.now }
{
    match text {
        [first, word @ ..] => first.is_ascii_lowercase() && are_alpha_numeric(word),
        [] => false,
    }
}

// Appends a character of a quoted text.
fn put_escaped(text: &mut Vec<u8>, quote: u8, char: u8) -> Result<(), AllocError>
    ensures { OnOk result (text.new.items ≡ text.old.items ++ spec.escaped quote char) }
{
    if char == quote || char == b'\\' {
        text.push(b'\\')?;
    }
    text.push(char)?;
    Ok(())
}

/// Appends a text between quotes.
pub fn put_quoted(text: &mut Vec<u8>, quote: u8, chars: &[u8]) -> Result<(), AllocError>
    ensures { OnOk result (text.new.items ≡ text.old.items ++ spec.quoted quote chars.now) }
{
    text.push(quote)?;
    for char in chars {
        put_escaped(text, quote, *char)?;
    }
    text.push(quote)?;
    Ok(())
}

/// Appends a word, between quotes where it needs them.
pub fn put_word(text: &mut Vec<u8>, word: &[u8]) -> Result<(), AllocError>
    ensures { OnOk result (text.new.items ≡ text.old.items ++ spec.word_text word.now) }
{
    if is_lower_word(word) {
        text.extend_from_slice(word)
    } else {
        put_quoted(text, b'\'', word)
    }
}

/// Appends the name of a formula.
pub fn put_name(text: &mut Vec<u8>, name: &Name) -> Result<(), AllocError>
    ensures { OnOk result (text.new.items ≡ text.old.items ++ spec.name_text name.now) }
{
    match name {
        Name::Word(word) => put_word(text, word.as_slice()),
        Name::Integer(number) => text.extend_from_slice(number.as_slice()),
    }
}
