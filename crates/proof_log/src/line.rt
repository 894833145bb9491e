// The text of a line.
ghost use Rattle.std.specs.Prelude.{◌≡◌, ◌≤◌, ◌∷◌, ◌++◌, OnOk, decimal};
ghost use Rattle.proof_log.specs.Entries;
ghost use Rattle.proof_log.specs.Entries.{escaped, AreSmall, IsSmall};
ghost use Rattle.proof_log.specs.LogText;
ghost use Rattle.proof_log.specs.LogText.{numbers_text};
ghost use Rattle.std.specs.List.{flat_map};

use itoa::Buffer;
use std::alloc::AllocError;

// Appends a word, with a blank before it.
pub fn put_word(text: &mut Vec<u8>, word: &[u8]) -> Result<(), AllocError>
    ensures { OnOk result (text.new.items ≡ text.old.items ++ 32 ∷ word.now) }
{
    text.push(b' ')?;
    text.extend_from_slice(word)
}

// Appends a number in decimal, with a blank before it.
pub fn put_number(text: &mut Vec<u8>, number: u64) -> Result<(), AllocError>
    ensures text { OnOk result (text.new.items ≡ text.old.items ++ LogText.number number) }
    ensures large { number ≤ 18446744073709551615 }
{
    let mut buffer = Buffer::new();
    put_word(text, buffer.format(number).as_bytes())
}

// Appends a number of 32 bits in decimal, with a blank before it.
pub fn put_small(text: &mut Vec<u8>, number: u32) -> Result<(), AllocError>
    ensures text { OnOk result (text.new.items ≡ text.old.items ++ LogText.number number) }
    ensures small { IsSmall number }
{
    put_number(text, u64::from(number))
}

// Appends how many numbers there are, and then the numbers.
pub fn put_numbers(text: &mut Vec<u8>, numbers: &[u32]) -> Result<(), AllocError>
    ensures text { OnOk result (text.new.items ≡ text.old.items ++ numbers_text numbers.now) }
    ensures in_range { OnOk result (AreSmall numbers.now) }
{
    put_number(text, numbers.len() as u64)?;
    for number in numbers {
        put_small(text, *number)?;
    }
    Ok(())
}

// Appends a name as a single-quoted word, with a blank before it.
pub fn put_quoted(text: &mut Vec<u8>, name: &[u8]) -> Result<(), AllocError>
    ensures { OnOk result (text.new.items ≡ text.old.items ++ 32 ∷ Entries.quoted name.now) }
{
    put_word(text, b"'")?;
    for byte in name {
        put_escaped(text, *byte)?;
    }
    text.push(b'\'')?;
    Ok(())
}

// Appends a character of a quoted word.
fn put_escaped(text: &mut Vec<u8>, byte: u8) -> Result<(), AllocError>
    ensures { OnOk result (text.new.items ≡ text.old.items ++ escaped byte) }
{
    if byte == b'\'' || byte == b'\\' {
        text.push(b'\\')?;
    }
    text.push(byte)?;
    Ok(())
}
