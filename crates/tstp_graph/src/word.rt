// The words of sources.
ghost use Rattle.std.specs.Prelude.{◌≡◌};
ghost use Rattle.std.specs.Char.{is_ascii_digit};
ghost use Rattle.std.specs.List.{list_all};
ghost use Rattle.tptp_base.specs.Numerals.{are_digits, is_integer};
ghost use Rattle.tstp_graph.specs.Words;

/// What a word with arguments is as a source.
#[derive(Clone, Copy, PartialEq, Eq)]
pub enum RecordKind {
    Inference,
    Introduced,
    File,
    Theory,
    Other,
}

/// What the word is as a source.
#[tactic(auto, unfolding(crate::specs::Words::record_kind))]
pub fn record_kind(word: &[u8]) -> RecordKind
    ensures { result ≡ Words.record_kind word.now }
{
    if word == b"inference".as_slice() {
        RecordKind::Inference
    } else if word == b"introduced".as_slice() {
        RecordKind::Introduced
    } else if word == b"file".as_slice() {
        RecordKind::File
    } else if word == b"theory".as_slice() {
        RecordKind::Theory
    } else {
        RecordKind::Other
    }
}

/// Whether it is `unknown`.
pub fn is_unknown(word: &[u8]) -> bool
    ensures { result ≡ Words.is_unknown word.now }
{
    word == b"unknown".as_slice()
}

/// Whether a number is an integer: digits, perhaps behind a sign.
pub fn is_integer(number: &[u8]) -> bool
    ensures { result ≡ is_integer number.now }
{
    match number {
        [b'+' | b'-', rest @ ..] => are_digits(rest),
        _ => are_digits(number),
    }
}

// Whether there are digits, and nothing else.
fn are_digits(text: &[u8]) -> bool
    ensures { result ≡ are_digits text.now }
{
    !text.is_empty() && all_digits(text)
}

// Whether all are digits.
fn all_digits(text: &[u8]) -> bool
    ensures { result ≡ list_all is_ascii_digit text.now }
{
    text.iter().all(|byte| byte.is_ascii_digit())
}
