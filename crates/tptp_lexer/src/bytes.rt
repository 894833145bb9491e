//! The classes of bytes, and the runs of them that a text begins with.
ghost use Rattle.std.specs.Prelude.{◌≡◌, ◌≢◌, ◌<◌, ◌≤◌, length, slice_index};
ghost use Rattle.std.specs.List.{prefix_len};
ghost use Rattle.tptp_base.specs.Place.{is_no_line_feed};
ghost use Rattle.tptp_lexer.specs.Bytes as spec;

use memchr::memchr;

// Each byte of a word stands at its own place, and a comma at every other place.
static WORD_BYTES: [u8; 256] = *b"\
    ,,,,,,,,,,,,,,,,,,,,,,,,,,,,,,,,\
    ,,,,,,,,,,,,,,,,0123456789,,,,,,\
    ,ABCDEFGHIJKLMNOPQRSTUVWXYZ,,,,_\
    ,abcdefghijklmnopqrstuvwxyz,,,,,\
    ,,,,,,,,,,,,,,,,,,,,,,,,,,,,,,,,\
    ,,,,,,,,,,,,,,,,,,,,,,,,,,,,,,,,\
    ,,,,,,,,,,,,,,,,,,,,,,,,,,,,,,,,\
    ,,,,,,,,,,,,,,,,,,,,,,,,,,,,,,,,";

/// The byte at an index, or 0 at and behind the end.
pub fn byte(text: &[u8], at: usize) -> u8
    ensures value { result ≡ slice_index text.now at }
    ensures within { result ≢ 0 → at < length text.now }
{
    if at < text.len() { text[at] } else { 0 }
}

/// Whether the byte is a blank.
pub fn is_blank(byte: u8) -> bool
    ensures { result ≡ spec.is_blank byte }
{
    byte == b' ' || (9 <= byte && byte <= 13)
}

// Whether the byte is a letter, a digit or `_`.
fn is_alpha_numeric(byte: u8) -> bool
    ensures { result ≡ spec.is_alpha_numeric byte }
{
    WORD_BYTES[byte as usize] != b','
}

/// How many blanks the text begins with.
pub fn blanks_len(text: &[u8]) -> usize
    ensures value { result ≡ prefix_len spec.is_blank text.now }
    ensures within { result ≤ length text.now }
{
    text.iter().take_while(|byte| is_blank(**byte)).count()
}

/// How many letters, digits and `_` the text begins with.
pub fn word_len(text: &[u8]) -> usize
    ensures value { result ≡ prefix_len spec.is_alpha_numeric text.now }
    ensures within { result ≤ length text.now }
{
    text.iter()
        .take_while(|byte| is_alpha_numeric(**byte))
        .count()
}

/// How many digits the text begins with.
pub fn digits_len(text: &[u8]) -> usize
    ensures value { result ≡ prefix_len spec.is_numeric text.now }
    ensures within { result ≤ length text.now }
{
    text.iter().take_while(|byte| byte.is_ascii_digit()).count()
}

/// How many bytes stand before the line's end.
pub fn line_len(text: &[u8]) -> usize
    ensures value { result ≡ prefix_len is_no_line_feed text.now }
    ensures within { result ≤ length text.now }
{
    match memchr(b'\n', text) {
        Some(end) => end,
        None => text.len(),
    }
}
