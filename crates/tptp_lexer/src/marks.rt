//! The longest mark at the front of a text, by its first three bytes.
ghost use Rattle.std.specs.Prelude.{◌≡◌};
ghost use Rattle.tptp_lexer.specs.Scan as spec;

use crate::Mark;

/// The longest mark that begins with these bytes, and its length. A byte behind the text's end counts as 0.
pub fn mark_at(first: u8, next: u8, third: u8) -> Option<(Mark, usize)>
    ensures { result ≡ spec.mark_at first next third }
{
    match first {
        b'!' => Some(if next == b'=' {
            (Mark::NotEqual, 2)
        } else {
            (Mark::Bang, 1)
        }),
        b'=' => Some(if next == b'>' {
            (Mark::Imp, 2)
        } else {
            (Mark::Equal, 1)
        }),
        b'~' => Some(behind_tilde(next)),
        b'<' => behind_less(next, third),
        _ => short(single(first)),
    }
}

fn behind_tilde(next: u8) -> (Mark, usize)
    ensures { result ≡ spec.behind_tilde next }
{
    match next {
        b'&' => (Mark::Nand, 2),
        b'|' => (Mark::Nor, 2),
        _ => (Mark::Tilde, 1),
    }
}

fn behind_less(next: u8, third: u8) -> Option<(Mark, usize)>
    ensures { result ≡ spec.behind_less next third }
{
    if next == b'=' {
        return Some(if third == b'>' {
            (Mark::Iff, 3)
        } else {
            (Mark::RevImp, 2)
        });
    }
    if next == b'~' && third == b'>' {
        Some((Mark::Xor, 3))
    } else {
        None
    }
}

fn short(mark: Option<Mark>) -> Option<(Mark, usize)>
    ensures { result ≡ spec.short mark }
{
    match mark {
        None => None,
        Some(mark) => Some((mark, 1)),
    }
}

/// The mark of one byte that no longer mark begins with.
#[inline(always)]
pub fn single(first: u8) -> Option<Mark>
    ensures { result ≡ spec.single first }
{
    match first {
        b'(' => Some(Mark::Open),
        b')' => Some(Mark::Close),
        b',' => Some(Mark::Comma),
        b'[' => Some(Mark::OpenList),
        b']' => Some(Mark::CloseList),
        b'.' => Some(Mark::Dot),
        b':' => Some(Mark::Colon),
        b'?' => Some(Mark::Question),
        b'&' => Some(Mark::Ampersand),
        b'*' => Some(Mark::Star),
        b'>' => Some(Mark::Greater),
        b'|' => Some(Mark::Bar),
        _ => None,
    }
}
