//! The longest number at the front of a text.
ghost use Rattle.std.specs.Prelude.{◌≡◌, ◌<◌, ◌≤◌, ◌+◌, length, slice_index};
ghost use Rattle.tptp_lexer.specs.Numbers.{is_sign, is_exponent};
ghost use Rattle.tptp_lexer.specs.Scan as spec;

use crate::bytes::{byte, digits_len};

/// Whether the byte is a sign.
pub fn is_sign(byte: u8) -> bool
    ensures { result ≡ is_sign byte }
{
    byte == b'+' || byte == b'-'
}

fn is_exponent(byte: u8) -> bool
    ensures { result ≡ is_exponent byte }
{
    byte == b'e' || byte == b'E'
}

/// The length of the longest number that the text begins with, or 0 where it begins with none.
pub fn number_len(text: &[u8]) -> usize
    ensures value { result ≡ spec.number_len text.now }
    ensures within { result ≤ length text.now }
{
    let sign = sign_len(text);
    let digits = digits_len(&text[sign..]);
    if digits == 0 {
        return 0;
    }
    let whole = sign + digits;
    whole + tail_len(&text[whole..])
}

// 1 for a sign at the front, or 0.
fn sign_len(text: &[u8]) -> usize
    ensures value { result ≡ spec.sign_len text.now }
    ensures within { result ≤ length text.now }
{
    if is_sign(byte(text, 0)) { 1 } else { 0 }
}

// What may follow the digits of a whole number: `/` and digits, or a fraction and an exponent.
fn tail_len(text: &[u8]) -> usize
    ensures value { result ≡ spec.tail_len text.now }
    ensures within { result ≤ length text.now }
{
    if byte(text, 0) == b'/' {
        digits_behind(text)
    } else {
        let fraction = fraction_len(text);
        fraction + exponent_len(&text[fraction..])
    }
}

fn fraction_len(text: &[u8]) -> usize
    ensures value { result ≡ spec.fraction_len text.now }
    ensures within { result ≤ length text.now }
{
    if byte(text, 0) == b'.' {
        digits_behind(text)
    } else {
        0
    }
}

// The first byte and the digits behind it, or 0 where there are none.
fn digits_behind(text: &[u8]) -> usize
    requires { 0 < length text.now }
    ensures value { result ≡ spec.digits_behind text.now }
    ensures within { result ≤ length text.now }
{
    let digits = digits_len(&text[1..]);
    if digits == 0 { 0 } else { 1 + digits }
}

fn exponent_len(text: &[u8]) -> usize
    ensures value { result ≡ spec.exponent_len text.now }
    ensures within { result ≤ length text.now }
{
    if !is_exponent(byte(text, 0)) {
        return 0;
    }
    let before = 1 + sign_len(&text[1..]);
    let digits = digits_len(&text[before..]);
    if digits == 0 { 0 } else { before + digits }
}
