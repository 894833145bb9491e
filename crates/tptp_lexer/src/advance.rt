//! Places further on in a text.
ghost use Rattle.std.specs.Prelude.{◌≡◌, ◌≤◌, length, count_by};
ghost use Rattle.tptp_base.specs.Place.{place_of, is_line_feed};

use memchr::{memchr, memrchr};
use tptp_base::Place;

/// The place of a later offset. Only the bytes between the two places are looked at.
pub fn place_behind(text: &[u8], place: Place, to: u64) -> Place
    requires placed { place ≡ place_of place.file text.now place.offset }
    requires ordered { place.offset ≤ to }
    requires within { to ≤ length text.now }
    ensures { result ≡ place_of place.file text.now to }
{
    let piece = &text[place.offset as usize..to as usize];
    match memrchr(b'\n', piece) {
        None => Place {
            file: place.file,
            offset: to,
            line: place.line,
            column: place.column + piece.len() as u64,
        },
        Some(at) => Place {
            file: place.file,
            offset: to,
            line: place.line + line_feeds(piece) as u64,
            column: (piece.len() - at) as u64,
        },
    }
}

// How many line feeds there are.
fn line_feeds(text: &[u8]) -> usize
    ensures value { result ≡ count_by is_line_feed text.now }
    ensures bound { result ≤ length text.now }
{
    let mut count = 0;
    let mut behind = 0;
    'lines: while let Some(at) = memchr(b'\n', &text[behind..]) {
        count += 1;
        behind += at + 1;
    }
    count
}
