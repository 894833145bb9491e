// A row, set line by line.
use crate::bytes::append_line;
use crate::fault::{LineFault, RowFault};
use crate::line::{FileSetting, Setting};
use crate::reading::{Draft, SettingLine};
use crate::row::{Calls, Given, Row, Source, WantedLog};
use std::alloc::Global;

// What the lines of text that follow belong to.
#[derive(Clone, Copy)]
enum Part {
    Nothing,
    LastFile,
    Out,
    Log,
}

/// The row that the lines of a draft make.
pub fn row_of(alloc: Global, draft: &Draft<'_>) -> Result<Row, RowFault> {
    let mut row = Row::new(alloc);
    set_all(alloc, &mut row, &draft.lines)?;
    Ok(row)
}

fn set_all(alloc: Global, row: &mut Row, lines: &[SettingLine<'_>]) -> Result<(), RowFault> {
    let mut part = Part::Nothing;
    for line in lines {
        match set(alloc, row, part, line.setting) {
            Ok(next) => part = next,
            Err(fault) => {
                let line = line.number;
                return Err(RowFault { line, fault });
            }
        }
    }
    Ok(())
}

// Sets what a line says in a row, and tells what the lines of text behind it belong to.
fn set(alloc: Global, row: &mut Row, part: Part, setting: Setting<'_>) -> Result<Part, LineFault> {
    match setting {
        Setting::Name(name) => no_text(set_name(alloc, row, name)),
        Setting::Words(words) => no_text(add_words(alloc, row, words)),
        Setting::Word(word) => no_text(add_word(alloc, row, word)),
        Setting::File(file) => set_file(alloc, row, file),
        Setting::StoreFails(calls) => no_text(add_calls(&mut row.failing_reads, calls)),
        Setting::OutFails(calls) => no_text(add_calls(&mut row.failing_writes, calls)),
        Setting::LogFails(calls) => no_text(add_calls(&mut row.failing_entries, calls)),
        Setting::EachFails(counts) => no_text(set_each(alloc, row, counts)),
        Setting::Status(status) => no_text(set_status(row, status)),
        Setting::Plain => {
            row.is_plain = true;
            Ok(Part::Nothing)
        }
        Setting::StoreLacks => {
            row.lacking.store = true;
            Ok(Part::Nothing)
        }
        Setting::OutLacks => {
            row.lacking.out = true;
            Ok(Part::Nothing)
        }
        Setting::LogLacks => {
            row.lacking.log = true;
            Ok(Part::Nothing)
        }
        Setting::Out => {
            row.out.clear();
            Ok(Part::Out)
        }
        Setting::Log => Ok(set_log(row, WantedLog::Text(Vec::new(alloc)), Part::Log)),
        Setting::AnyLog => Ok(set_log(row, WantedLog::Any, Part::Nothing)),
        Setting::Text(line) => add_text(row, part, line),
    }
}

// No line of text may follow what was set.
fn no_text(done: Result<(), LineFault>) -> Result<Part, LineFault> {
    done?;
    Ok(Part::Nothing)
}

fn set_name(alloc: Global, row: &mut Row, name: &str) -> Result<(), LineFault> {
    row.name = name.to_string(alloc)?;
    Ok(())
}

fn add_words(alloc: Global, row: &mut Row, words: &str) -> Result<(), LineFault> {
    for word in words.split(' ') {
        add_word(alloc, row, word)?;
    }
    Ok(())
}

fn add_word(alloc: Global, row: &mut Row, word: &str) -> Result<(), LineFault> {
    let word = word.to_string(alloc)?;
    Ok(row.words.push(word)?)
}

fn set_each(alloc: Global, row: &mut Row, counts: &str) -> Result<(), LineFault> {
    row.each = Some(counts_of(alloc, counts)?);
    Ok(())
}

fn set_status(row: &mut Row, status: &str) -> Result<(), LineFault> {
    match status.parse() {
        Ok(status) => {
            row.status = status;
            Ok(())
        }
        Err(_) => Err(LineFault::Number),
    }
}

// Sets what the log must have taken, and hands on what the lines of text behind it belong to.
fn set_log(row: &mut Row, log: WantedLog, part: Part) -> Part {
    row.log = log;
    part
}

fn add_text(row: &mut Row, part: Part, line: &str) -> Result<Part, LineFault> {
    match text_of(row, part) {
        Some(text) => append_line(text, line)?,
        None => return Err(LineFault::StrayText),
    }
    Ok(part)
}

// Sets what a line says of a file.
fn set_file(alloc: Global, row: &mut Row, file: FileSetting<'_>) -> Result<Part, LineFault> {
    match file {
        FileSetting::Text(name) => give(alloc, row, (1, name), Kind::Text),
        FileSetting::LastLog(name) => give(alloc, row, (1, name), Kind::LastLog),
        FileSetting::FromCall(rest) => give(alloc, row, from_call(rest)?, Kind::Text),
        FileSetting::GoneAt(rest) => give(alloc, row, from_call(rest)?, Kind::Gone),
        FileSetting::Endless(name) => give(alloc, row, (1, name), Kind::Endless),
    }
}

// A source that has no text yet.
#[derive(Clone, Copy)]
enum Kind {
    Text,
    LastLog,
    Endless,
    Gone,
}

fn source_of(alloc: Global, kind: Kind) -> Source {
    match kind {
        Kind::Text => Source::Text(Vec::new(alloc)),
        Kind::LastLog => Source::LastLog,
        Kind::Endless => Source::Endless(Vec::new(alloc)),
        Kind::Gone => Source::Gone,
    }
}

// Puts a file behind the others, and tells that the lines of text that follow are its own.
fn give(
    alloc: Global,
    row: &mut Row,
    (from, name): (u64, &str),
    kind: Kind,
) -> Result<Part, LineFault> {
    let name = name.to_string(alloc)?;
    let source = source_of(alloc, kind);
    row.files.push(Given { name, from, source })?;
    Ok(Part::LastFile)
}

// The call from which on a file is so, which stands before the first blank, and the name of the file.
fn from_call(rest: &str) -> Result<(u64, &str), LineFault> {
    match rest.split_once(' ') {
        Some((call, name)) => match call.parse() {
            Ok(from) => Ok((from, name)),
            Err(_) => Err(LineFault::Number),
        },
        None => Err(LineFault::Number),
    }
}

// The numbers of calls, with single blanks between them.
fn add_calls(into: &mut Vec<u64>, calls: &str) -> Result<(), LineFault> {
    for call in calls.split(' ') {
        match call.parse() {
            Ok(call) => into.push(call)?,
            Err(_) => return Err(LineFault::Number),
        }
    }
    Ok(())
}

// Three numbers: how many calls there are of the store, the output and the log.
fn counts_of(alloc: Global, counts: &str) -> Result<Calls, LineFault> {
    let mut numbers = Vec::new(alloc);
    add_calls(&mut numbers, counts)?;
    match numbers.as_slice() {
        [reads, writes, entries] => Ok(Calls {
            reads: *reads,
            writes: *writes,
            entries: *entries,
        }),
        _ => Err(LineFault::Number),
    }
}

// What the lines of text of a part go to.
fn text_of(row: &mut Row, part: Part) -> Option<&mut Vec<u8>> {
    match part {
        Part::Nothing => None,
        Part::Out => Some(&mut row.out),
        Part::Log => match &mut row.log {
            WantedLog::Text(text) => Some(text),
            WantedLog::Any => None,
        },
        Part::LastFile => match row.files.last_mut() {
            Some(
                Given {
                    source: Source::Text(text) | Source::Endless(text),
                    ..
                },
            ) => Some(text),
            _ => None,
        },
    }
}
