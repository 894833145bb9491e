// Places in a text.
ghost use Rattle.std.specs.Prelude.{◌≡◌, ◌≤◌, length, count_by};
ghost use Rattle.std.specs.List.{suffix_len};
ghost use Rattle.tptp_base.specs.Place.{place_of, is_line_feed, is_no_line_feed};

use memchr::memrchr;

/// A place in a text.
#[derive(Clone, Copy, Debug, PartialEq, Eq)]
pub struct Place {
    /// The number of the file in the order of opening, from 0.
    pub file: u32,
    /// The bytes before the place.
    pub offset: u64,
    /// The line, from 1. A line ends after its line feed.
    pub line: u64,
    /// The column in bytes, from 1.
    pub column: u64,
}

/// A part of a text: the bytes from `start`, and before `end`.
#[derive(Clone, Copy, PartialEq, Eq)]
pub struct Region {
    /// The bytes before the part.
    pub start: u64,
    /// The bytes through the part's last.
    pub end: u64,
}

/// The line and column of an offset, which is at most the text's length. It takes no memory.
pub fn place_at(file: u32, text: &[u8], offset: u64) -> Place
    requires { offset ≤ length text.now }
    ensures { result ≡ place_of file text.now offset }
{
    let before = &text[..offset as usize];
    Place {
        file,
        offset,
        line: line_feeds(before) as u64 + 1,
        column: behind_line_feed(before) as u64 + 1,
    }
}

// How many line feeds there are.
fn line_feeds(text: &[u8]) -> usize
    ensures value { result ≡ count_by is_line_feed text.now }
    ensures bound { result ≤ length text.now }
{
    text.iter().filter(|byte| **byte == b'\n').count()
}

// How many bytes stand behind the last line feed.
fn behind_line_feed(text: &[u8]) -> usize
    ensures value { result ≡ suffix_len is_no_line_feed text.now }
    ensures bound { result ≤ length text.now }
{
    match memrchr(b'\n', text) {
        Some(at) => text.len() - at - 1,
        None => text.len(),
    }
}
