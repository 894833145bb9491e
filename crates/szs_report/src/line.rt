// Lines of a prover's output.
ghost use Rattle.std.specs.Prelude.{◌≡◌, ◌<◌, ◌≤◌, ◌∷◌, length, take, drop};
ghost use Rattle.std.specs.List.{prefix_len};
ghost use Rattle.szs_report.specs.Lines.{lines_of, bytes_in, lines_before, lines_from_first};
ghost use Rattle.szs_report.specs.Marks;
ghost use Rattle.szs_report.specs.Marks.{is_letter};

use memchr::memchr;

/// The lines that a derivation and its status are found by.
#[derive(Clone, Copy, PartialEq, Eq)]
pub enum LineKind {
    /// `SZS output start`.
    Start,
    /// `SZS output end`.
    End,
    /// `SZS status`, and then a word.
    Status,
}

impl LineKind {
    // Whether a line is one of these.
    #[tactic(auto, unfolding(crate::specs::Marks::fits))]
    fn fits(self, line: &[u8]) -> bool
        ensures { result ≡ Marks.fits self line.now }
    {
        match self {
            LineKind::Start => is_marked(line, b" SZS output start"),
            LineKind::End => is_marked(line, b" SZS output end"),
            LineKind::Status => is_marked(line, b" SZS status ") && is_status(behind_mark(line)),
        }
    }
}

// Whether a line begins with `%` or `#`, and then so.
fn is_marked(line: &[u8], mark: &[u8]) -> bool
    ensures { result ≡ Marks.begins_with_mark mark.now line.now }
{
    match line {
        [b'%' | b'#', rest @ ..] => rest.starts_with(mark),
        _ => false,
    }
}

/// What stands in a status line behind its mark.
pub fn behind_mark(line: &[u8]) -> &[u8]
    ensures { result.now ≡ drop 13 line.now }
{
    match line.get(13..) {
        Some(rest) => rest,
        None => &[],
    }
}

// Whether letters come first, and then a blank or nothing.
fn is_status(rest: &[u8]) -> bool
    ensures { result ≡ Marks.is_status rest.now }
{
    let run = letters(rest);
    run > 0 && is_end(&rest[run..])
}

// Whether a word ends before this.
fn is_end(rest: &[u8]) -> bool
    ensures { result ≡ Marks.is_end rest.now }
{
    match rest {
        [] => true,
        [byte, ..] => matches!(byte, 9..=13 | 32),
    }
}

/// How many letters come first.
pub fn letters(text: &[u8]) -> usize
    ensures value { result ≡ prefix_len is_letter text.now }
    ensures within { result ≤ length text.now }
{
    text.iter().take_while(|b| b.is_ascii_alphabetic()).count()
}

/// How many bytes the first line has, with the line feed that ends it.
pub fn line_len(text: &[u8]) -> usize
    ensures cut { 0 < length text.now → lines_of text.now ≡ take result text.now ∷ lines_of (drop result text.now) }
    ensures some { 0 < length text.now → 0 < result }
    ensures within { result ≤ length text.now }
{
    match memchr(b'\n', text) {
        Some(at) => at + 1,
        None => text.len(),
    }
}

/// How many bytes the lines have before the first one of a kind: all, where there is none.
pub fn bytes_before(text: &[u8], kind: LineKind) -> usize
    ensures value { result ≡ bytes_in (lines_before (Marks.fits kind) (lines_of text.now)) }
    ensures rest { lines_of (drop result text.now) ≡ lines_from_first (Marks.fits kind) (lines_of text.now) }
    ensures within { result ≤ length text.now }
{
    let mut before = 0;
    'lines: while before < text.len() {
        let rest = &text[before..];
        let len = line_len(rest);
        if kind.fits(&rest[..len]) {
            return before;
        }
        before += len;
    }
    before
}
