// The derivation's part of a prover's output, and the claimed status.
ghost use Rattle.std.specs.Prelude.{◌≡◌, ◌≤◌, IfSome, length};
ghost use Rattle.szs_report.specs.Region.{region_of, claim_of};

use crate::line::{LineKind, behind_mark, bytes_before, letters, line_len};
use tptp_base::Region;

/// The part of a prover's output that holds the derivation. It begins behind the first line that begins with
/// `% SZS output start` or `# SZS output start`, and ends before the next line that begins with `% SZS output end` or
/// `# SZS output end`, or at the end of the text. Without a line that begins so it is the whole text.
pub fn region(text: &[u8]) -> Region
    ensures value { result ≡ region_of text.now }
    ensures ordered { result.start ≤ result.end }
    ensures within { result.end ≤ length text.now }
{
    let before = bytes_before(text, LineKind::Start);
    if before == text.len() {
        return Region {
            start: 0,
            end: text.len() as u64,
        };
    }
    let start = before + line_len(&text[before..]);
    let end = start + bytes_before(&text[start..], LineKind::End);
    Region {
        start: start as u64,
        end: end as u64,
    }
}

/// Where the word of the first status line stands. Such a line begins with `% SZS status ` or `# SZS status `, then
/// has letters, and then a blank or its end. None exactly where there is no such line.
pub fn claim(text: &[u8]) -> Option<Region>
    ensures value { result ≡ claim_of text.now }
    ensures ordered { IfSome result (λ word. word.start ≤ word.end) }
    ensures within { IfSome result (λ word. word.end ≤ length text.now) }
{
    let before = bytes_before(text, LineKind::Status);
    if before == text.len() {
        return None;
    }
    let rest = &text[before..];
    let line = &rest[..line_len(rest)];
    let word = behind_mark(line);
    let start = before + (line.len() - word.len());
    Some(Region {
        start: start as u64,
        end: (start + letters(word)) as u64,
    })
}
