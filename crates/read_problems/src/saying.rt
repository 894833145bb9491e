// What is said of a file or of a place in one.
ghost use Rattle.std.specs.Prelude.{◌≡◌, ◌++◌, IfOk, string_bytes};
ghost use Rattle.read_problems.specs.Answer.{ending_of};
ghost use Rattle.read_problems.specs.Ending as spec;
ghost use Rattle.szs_report.specs.Report.{text_line as line};
ghost use Rattle.read_problems.specs.Spelled.{said_at, place_text as text_of};

use crate::stop::{Answer, ended};
use std::alloc::{AllocError, Global};
use tptp_base::{LimitName, Place};

/// The line and the column of a place, as they are said behind the name of its file.
pub fn place_text(alloc: Global, place: Place) -> Result<String, AllocError>
    ensures { IfOk result (λ text. string_bytes text ≡ text_of place) }
{
    let line = place.line;
    let column = place.column;
    format!(in alloc; ":{line}:{column}: ")
}

/// An answer that says something of a place in a file.
pub fn say_at(
    alloc: Global,
    status: u8,
    name: &[u8],
    place: Place,
    what: &[u8],
) -> Result<Answer, AllocError>
    ensures { IfOk result (λ answer. ending_of answer ≡ spec.says status (said_at name.now place what.now)) }
{
    let mut text = Vec::new(alloc);
    text.extend_from_slice(name)?;
    text.extend_from_slice(place_text(alloc, place)?.as_bytes())?;
    text.extend_from_slice(what)?;
    text.push(b'\n')?;
    Ok(ended(status, text))
}

/// An answer that says something of a file.
pub fn say_of_file(alloc: Global, status: u8, name: &[u8], what: &str) -> Result<Answer, AllocError>
    ensures { IfOk result (λ answer. ending_of answer ≡ spec.says status (line (name.now ++ what.now))) }
{
    let mut text = Vec::new(alloc);
    text.extend_from_slice(name)?;
    text.extend_from_slice(what.as_bytes())?;
    text.push(b'\n')?;
    Ok(ended(status, text))
}

/// What is said of a file that is missing.
pub fn no_such_file(alloc: Global, name: &[u8]) -> Result<Answer, AllocError>
    ensures { IfOk result (λ answer. ending_of answer ≡ spec.no_such_file name.now) }
{
    say_of_file(alloc, 3, name, ": no such file")
}

/// What is said of a file that is over a limit.
pub fn over_limit(alloc: Global, name: &[u8], limit: LimitName) -> Result<Answer, AllocError>
    ensures { IfOk result (λ answer. ending_of answer ≡ spec.over_limit name.now limit) }
{
    let mut text = Vec::new(alloc);
    text.extend_from_slice(name)?;
    text.extend_from_slice(b": limit ")?;
    text.extend_from_slice(limit_text(limit).as_bytes())?;
    text.push(b'\n')?;
    Ok(ended(7, text))
}

/// The name of a limit, as it is printed.
pub fn limit_text(limit: LimitName) -> &'static str
    ensures { result.now ≡ spec.limit_text limit }
{
    match limit {
        LimitName::FileSize => "file size",
        LimitName::TotalSize => "total size",
        LimitName::IncludeDepth => "include depth",
        LimitName::Nesting => "nesting",
        LimitName::Variables => "variables",
        LimitName::Lines => "lines",
        LimitName::Symbols => "symbols",
        LimitName::Sorts => "sorts",
    }
}
