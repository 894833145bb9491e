// The lines of text of a file of rows.
use crate::fault::LineFault;
use itoa::Buffer;

/// Appends the bytes that a line of text says, by the sign that it begins with.
pub fn append_line(into: &mut Vec<u8>, line: &str) -> Result<(), LineFault> {
    if let Some(text) = line.strip_prefix('|') {
        into.extend_from_slice(text.as_bytes())?;
        into.push(b'\n')?;
        return Ok(());
    }
    if let Some(text) = line.strip_prefix('.') {
        into.extend_from_slice(text.as_bytes())?;
        return Ok(());
    }
    if let Some(text) = line.strip_prefix('*') {
        return append_repeated(into, Repeated::read(text)?);
    }
    if let Some(text) = line.strip_prefix('+') {
        return append_numbered(into, Repeated::read(text)?);
    }
    match line.strip_prefix('%') {
        Some(digits) => append_bytes(into, digits),
        None => Err(LineFault::StrayText),
    }
}

// A text, so many times.
#[derive(Clone, Copy)]
struct Repeated<'a> {
    times: u64,
    text: &'a str,
    // Whether a line feed follows each.
    has_feed: bool,
}

impl<'a> Repeated<'a> {
    // The number stands before the first blank, and behind it `/` where a line feed follows each.
    fn read(text: &'a str) -> Result<Repeated<'a>, LineFault> {
        let Some((times, text)) = text.split_once(' ') else {
            return Err(LineFault::Number);
        };
        match times.strip_suffix('/') {
            Some(times) => Repeated::of(times, text, true),
            None => Repeated::of(times, text, false),
        }
    }

    fn of(times: &str, text: &'a str, has_feed: bool) -> Result<Repeated<'a>, LineFault> {
        match times.parse::<u64>() {
            Ok(times) => Ok(Repeated {
                times,
                text,
                has_feed,
            }),
            Err(_) => Err(LineFault::Number),
        }
    }
}

fn append_repeated(into: &mut Vec<u8>, repeated: Repeated<'_>) -> Result<(), LineFault> {
    for _ in 0..repeated.times {
        into.extend_from_slice(repeated.text.as_bytes())?;
        if repeated.has_feed {
            into.push(b'\n')?;
        }
    }
    Ok(())
}

fn append_numbered(into: &mut Vec<u8>, repeated: Repeated<'_>) -> Result<(), LineFault> {
    for number in 0..repeated.times {
        append_with(into, repeated.text, Buffer::new().format(number))?;
        if repeated.has_feed {
            into.push(b'\n')?;
        }
    }
    Ok(())
}

// The text, with a number in place of each `@`.
fn append_with(into: &mut Vec<u8>, text: &str, number: &str) -> Result<(), LineFault> {
    let mut is_first = true;
    for piece in text.split('@') {
        if !is_first {
            into.extend_from_slice(number.as_bytes())?;
        }
        into.extend_from_slice(piece.as_bytes())?;
        is_first = false;
    }
    Ok(())
}

// Bytes by two hexadecimal digits each, with single blanks between them.
fn append_bytes(into: &mut Vec<u8>, digits: &str) -> Result<(), LineFault> {
    for byte in digits.split(' ') {
        if byte.len() != 2 {
            return Err(LineFault::Byte);
        }
        match u8::from_str_radix(byte, 16) {
            Ok(byte) => into.push(byte)?,
            Err(_) => return Err(LineFault::Byte),
        }
    }
    Ok(())
}
