// The files of rows that a program is called with.
use crate::difference::differences;
use crate::ending::Ending;
use crate::reading::{Draft, read_drafts};
use crate::setting::row_of;
use crate::stops::wrong_stops;
use crate::toolchain::Toolchain;
use crate::trial::{Failing, Trial, run_plainly, run_slowly};
use anyhow::{Context, Result, bail};
use std::alloc::Global;
use std::process::ExitCode;
use std::rt::{Env, Files};
use std::{env, fs};
use tptp_base::{Boxed, Memory};

/// Tries the rows of each file that the words of the command line name, and prints what differs and how many rows there
/// are. The exit status is 1 where a row differs, where a file cannot be read or has no row, and where no file is
/// named.
pub fn run_rows<R: Env + Files + Print + AllocGlobal, T: Toolchain>(
    rt: &R,
    toolchain: &T,
) -> Result<ExitCode> {
    let mut files = 0u64;
    let mut differing = 0u64;
    for name in env::args(rt)?.skip(1) {
        files = files.saturating_add(1);
        match run_file(rt, toolchain, name.as_str()) {
            Ok(count) => differing = differing.saturating_add(count),
            Err(fault) => {
                differing = differing.saturating_add(1);
                println!(rt; "{fault:#}")?;
            }
        }
    }
    if files == 0 {
        bail!("no file of rows is named");
    }
    Ok(ExitCode::from(u8::from(differing != 0)))
}

// Tries the rows of a file, and tells how many differ.
fn run_file<R: Files + Print + AllocGlobal, T: Toolchain>(
    rt: &R,
    toolchain: &T,
    name: &str,
) -> Result<u64> {
    let text = fs::read_to_string(rt, name).context(name)?;
    let drafts = read_drafts(rt.alloc(), text.as_str()).context(name)?;
    let differing = try_drafts(rt, toolchain, name, &drafts)?;
    let count = drafts.len();
    println!(rt; "{name}: {count} rows, {differing} differ")?;
    Ok(differing)
}

fn try_drafts<R: Print + AllocGlobal, T: Toolchain>(
    rt: &R,
    toolchain: &T,
    name: &str,
    drafts: &[Draft<'_>],
) -> Result<u64> {
    if drafts.is_empty() {
        bail!("{name}: there is no row");
    }
    let mut differing = 0u64;
    let mut last_log = Vec::new(rt.alloc());
    for draft in drafts {
        let tried = try_draft(rt.alloc(), toolchain, name, draft, &last_log)?;
        differing = differing.saturating_add(print_said(rt, (name, draft.name), &tried)?);
        last_log = tried.log;
    }
    Ok(differing)
}

// Prints what differs in a row, and tells whether it does: 1 or 0.
fn print_said<R: Print>(rt: &R, (name, row): (&str, &str), tried: &Tried) -> Result<u64> {
    if tried.said.is_empty() {
        return Ok(0);
    }
    let said = tried.said.as_str();
    print!(rt; "{name}: {row}\n{said}")?;
    Ok(1)
}

// Tries the row that a draft makes. The row is boxed, since a box is dropped by a call, and a row part by part.
fn try_draft<T: Toolchain>(
    alloc: Global,
    toolchain: &T,
    name: &str,
    draft: &Draft<'_>,
    last_log: &[u8],
) -> Result<Tried> {
    let row = Boxed::new(alloc, row_of(alloc, draft).context(name)?)?;
    let row = row.get();
    let trial = Trial {
        alloc,
        row,
        last_log,
    };
    Ok(try_row(toolchain, trial)?)
}

// What has come of a row.
#[derive(Drop)]
struct Tried {
    // What differs from what the row wants.
    said: String,
    log: Vec<u8>,
}

// Runs a row. Where nothing differs it is run once more a byte at a time, and once for each call that is to fail.
fn try_row<T: Toolchain>(toolchain: &T, trial: Trial<'_>) -> Result<Tried, Memory> {
    let plain = run_plainly(toolchain, trial, Failing::of(trial.row))?;
    let said = said_of(toolchain, trial, &plain)?;
    let log = plain.log;
    Ok(Tried { said, log })
}

fn said_of<T: Toolchain>(
    toolchain: &T,
    trial: Trial<'_>,
    plain: &Ending,
) -> Result<String, Memory> {
    let said = differences(trial.alloc, trial.row, plain)?;
    if said.is_empty() {
        return said_further(toolchain, trial, plain);
    }
    Ok(said)
}

// What is said of a row that comes to what it wants over the plain store and sinks.
fn said_further<T: Toolchain>(
    toolchain: &T,
    trial: Trial<'_>,
    plain: &Ending,
) -> Result<String, Memory> {
    let said = try_slowly(toolchain, trial)?;
    match trial.row.each {
        Some(calls) if said.is_empty() => wrong_stops(toolchain, trial, plain, calls),
        _ => Ok(said),
    }
}

// Runs a row over a store that gives a byte at a time, and sinks that take one, where no call is to fail, no file
// changes, and the row does not want the plain store alone. It says what differs.
fn try_slowly<T: Toolchain>(toolchain: &T, trial: Trial<'_>) -> Result<String, Memory> {
    let Trial { alloc, row, .. } = trial;
    if row.is_plain || row.has_failing_calls() || row.has_changing_files() {
        return Ok(String::new(alloc));
    }
    let differs = differs_slowly(toolchain, trial)?;
    if differs.is_empty() {
        return Ok(differs);
    }
    let said = format!(in alloc;
        "  over a store and sinks that take a byte at a time:\n{differs}"
    )?;
    Ok(said)
}

fn differs_slowly<T: Toolchain>(toolchain: &T, trial: Trial<'_>) -> Result<String, Memory> {
    let slow = run_slowly(toolchain, trial)?;
    Ok(differences(trial.alloc, trial.row, &slow)?)
}
