// Lines of tables.
use std::alloc::{AllocError, Global};

/// A line of a table: `CALL # PART # .. # WANTED`.
#[derive(Clone, Copy)]
pub struct Line<'a> {
    /// The text that stands before its formulas.
    pub given: &'a str,
    pub call: &'a str,
    /// What the call is given.
    pub parts: &'a [&'a str],
    /// The first of these.
    pub first: &'a str,
    /// The answer that is wanted.
    pub wanted: &'a str,
}

impl<'a> Line<'a> {
    /// The line of these words. None where there is no call, no part, or no answer is wanted.
    pub fn of(given: &'a str, words: &'a [&'a str]) -> Option<Line<'a>> {
        let (call, rest) = words.split_first()?;
        let (wanted, parts) = rest.split_last()?;
        let first = parts.first()?;
        Some(Line {
            given,
            call: *call,
            parts,
            first: *first,
            wanted: *wanted,
        })
    }
}

/// The text in which a line feed stands for each `\n`, and a tab for each `\t`.
pub fn unescaped(alloc: Global, text: &str) -> Result<String, AllocError> {
    let text = text.replace(alloc, "\\n", "\n")?;
    text.as_str().replace(alloc, "\\t", "\t")
}
