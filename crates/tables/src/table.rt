// Tables, and what differs in them.
use crate::calls::{Answer, call};
use crate::line::{Line, unescaped};
use std::alloc::{AllocError, Global};

/// What the lines of a table have come to.
#[derive(Drop)]
pub struct Table<'a> {
    pub name: &'a str,
    /// The text that stands before the formulas of all lines behind it.
    given: String,
    /// What differs, line by line.
    pub said: String,
    /// How many lines there are.
    pub lines: u64,
    /// How many of them differ.
    pub differ: u64,
}

impl<'a> Table<'a> {
    /// The table of a text, with each of its lines tried.
    ///
    /// # Errors
    ///
    /// Want of memory.
    pub fn tried(alloc: Global, name: &'a str, text: &str) -> Result<Table<'a>, AllocError> {
        let mut table = Table {
            name,
            given: String::new(alloc),
            said: String::new(alloc),
            lines: 0,
            differ: 0,
        };
        try_lines(alloc, &mut table, text)?;
        Ok(table)
    }

    /// Whether there are lines, and none differs.
    pub fn is_right(&self) -> bool {
        self.lines > 0 && self.differ == 0
    }
}

fn try_lines(alloc: Global, table: &mut Table<'_>, text: &str) -> Result<(), AllocError> {
    for (number, line) in text.lines().enumerate() {
        try_line(alloc, table, (number, line))?;
    }
    Ok(())
}

// A line is a comment, or a text that is given to all lines behind it, or a call.
fn try_line(
    alloc: Global,
    table: &mut Table<'_>,
    (number, line): (usize, &str),
) -> Result<(), AllocError> {
    if line.is_empty() || line.starts_with('#') {
        return Ok(());
    }
    match line.strip_prefix("given # ") {
        Some(more) => table.given.push_str(more),
        None => try_call(alloc, table, (number, line)),
    }
}

fn try_call(
    alloc: Global,
    table: &mut Table<'_>,
    (number, line): (usize, &str),
) -> Result<(), AllocError> {
    table.lines = table.lines.saturating_add(1);
    let answer = answer_of(alloc, table.given.as_str(), line);
    if is_wanted(answer.as_ref()) {
        return Ok(());
    }
    say(table, (number, line), answer.as_ref())
}

fn is_wanted(answer: Option<&Answer>) -> bool {
    match answer {
        Some(answer) => answer.wanted.as_str() == answer.found.as_str(),
        None => false,
    }
}

// Appends what is wanted of a line and what is found, or that it has no answer.
fn say(
    table: &mut Table<'_>,
    (number, line): (usize, &str),
    answer: Option<&Answer>,
) -> Result<(), AllocError> {
    table.differ = table.differ.saturating_add(1);
    let name = table.name;
    let out = &mut table.said;
    write!(out, "{name}:{}: {line}\n", number.saturating_add(1))?;
    match answer {
        Some(Answer { wanted, found }) => write!(
            out,
            "    wanted: {wanted}\n    found:  {found}\n"
        ),
        None => out.push_str("    no answer\n"),
    }
}

fn answer_of(alloc: Global, given: &str, text: &str) -> Option<Answer> {
    let text = unescaped(alloc, text).ok()?;
    let words: Vec<&str> = text.as_str().split(" # ").collect(alloc).ok()?;
    call(alloc, &Line::of(given, words.as_slice())?)
}
