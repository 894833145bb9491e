// What stands at the front of a text that may go on.
ghost use Rattle.std.specs.Prelude.{◌≡◌, ◌<◌, ◌≤◌, length, [], ◌∷◌};
ghost use Rattle.tptp_lexer.specs.Numbers as numbers;
ghost use Rattle.lexer_pieces.specs.code.Settling as spec;
ghost use Rattle.lexer_pieces.specs.code.Settling.{Settles};

use tptp_lexer::{Front, Kind, Style, front_of};

/// What is known of the front of a text before it goes on.
#[derive(Clone, Copy)]
pub enum Settled {
    /// So many bytes are blanks or a token, whatever follows.
    On(usize),
    /// More of the text is needed.
    Waits,
    /// No token, blank or comment begins, whatever follows.
    Stops,
}

/// What is known of the front of a text before it goes on.
pub fn settle(style: Style, text: &[u8]) -> Settled
    requires { 0 < length text.now }
    ensures { Settles style text.now result }
{
    match front_of(style, text) {
        Front::Blanks(len) => Settled::On(len),
        Front::Token(kind, len) => {
            if is_settled(kind, &text[len..]) {
                Settled::On(len)
            } else {
                Settled::Waits
            }
        }
        Front::Open => Settled::Waits,
        Front::Nothing => {
            if may_grow(text) {
                Settled::Waits
            } else {
                Settled::Stops
            }
        }
    }
}

// Whether a token stays what it is with this text behind it, whatever follows.
fn is_settled(kind: Kind, behind: &[u8]) -> bool
    ensures { result ≡ spec.is_settled kind behind.now }
{
    match behind {
        [] => false,
        _ => match kind {
            Kind::Number => !begins_tail(behind),
            _ => true,
        },
    }
}

// Whether the text may stand behind a number as a part of a longer one.
fn begins_tail(text: &[u8]) -> bool
    ensures { result ≡ spec.begins_tail text.now }
{
    match text {
        [] => true,
        [first] => (*first == b'.' || *first == b'/') || (is_exponent(*first) || is_sign(*first)),
        [first, second] => is_exponent(*first) && is_sign(*second),
        _ => false,
    }
}

// Whether the text is no token, and begins tokens.
fn may_grow(text: &[u8]) -> bool
    ensures { result ≡ spec.may_grow text.now }
{
    match text {
        [first] => is_sign(*first) || (*first == b'$' || (*first == b'/' || *first == b'<')),
        [first, second] => {
            (*first == b'$' && *second == b'$') || (*first == b'<' && *second == b'~')
        }
        _ => false,
    }
}

// Whether the byte is a sign.
fn is_sign(byte: u8) -> bool
    ensures { result ≡ numbers.is_sign byte }
{
    byte == b'+' || byte == b'-'
}

// Whether the byte begins an exponent.
fn is_exponent(byte: u8) -> bool
    ensures { result ≡ numbers.is_exponent byte }
{
    byte == b'e' || byte == b'E'
}
