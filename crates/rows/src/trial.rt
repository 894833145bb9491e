// A row, tried.
use crate::changing::ChangingStore;
use crate::ending::Ending;
use crate::row::{Row, Source};
use crate::row_sink::RowSink;
use crate::slow_sink::SlowSink;
use crate::toolchain::Toolchain;
use std::alloc::Global;
use tptp_base::{List, Memory, MemoryStore, SteadyStore, Text};

/// A row, and the log that the row before has written.
#[derive(Clone, Copy)]
pub struct Trial<'a> {
    pub alloc: Global,
    pub row: &'a Row,
    pub last_log: &'a [u8],
}

/// The calls that fail in a run.
#[derive(Clone, Copy)]
pub struct Failing<'a> {
    pub reads: &'a [u64],
    pub writes: &'a [u64],
    pub entries: &'a [u64],
}

impl<'a> Failing<'a> {
    /// The calls that are to fail in a row.
    pub fn of(row: &'a Row) -> Failing<'a> {
        Failing {
            reads: &row.failing_reads,
            writes: &row.failing_writes,
            entries: &row.failing_entries,
        }
    }
}

/// Runs a row over a store and sinks in memory, of which these calls fail, and those lack memory that the row says. The
/// store is one that changes where the row has files that change.
pub fn run_plainly<T: Toolchain>(
    toolchain: &T,
    trial: Trial<'_>,
    failing: Failing<'_>,
) -> Result<Ending, Memory> {
    let lacking = trial.row.lacking;
    let mut out = RowSink::new(trial.alloc, failing.writes, lacking.out);
    let mut log = RowSink::new(trial.alloc, failing.entries, lacking.log);
    let status = run_over(toolchain, trial, failing.reads, &mut out, &mut log)?;
    ending_of(trial.alloc, status, out.bytes(), log.bytes())
}

// Runs a row over a store of which these calls fail.
fn run_over<T: Toolchain>(
    toolchain: &T,
    trial: Trial<'_>,
    calls: &[u64],
    out: &mut RowSink<'_>,
    log: &mut RowSink<'_>,
) -> Result<u8, Memory> {
    let row = trial.row;
    if row.has_changing_files() || row.lacking.store {
        let mut store = ChangingStore::new(&row.files, trial.last_log, calls, row.lacking.store);
        return Ok(toolchain.run(trial.alloc, &row.words, &mut store, out, log));
    }
    let mut store = store_of(trial, calls)?;
    Ok(toolchain.run(trial.alloc, &row.words, &mut store, out, log))
}

fn store_of(trial: Trial<'_>, calls: &[u64]) -> Result<MemoryStore, Memory> {
    let calls = List::from_slice(trial.alloc, calls)?;
    MemoryStore::new(trial.alloc, files(trial)?, calls)
}

// What a run has come to, where the sinks have taken these bytes.
fn ending_of(alloc: Global, status: u8, out: &[u8], log: &[u8]) -> Result<Ending, Memory> {
    let out = out.to_vec(alloc)?;
    let log = log.to_vec(alloc)?;
    Ok(Ending { status, out, log })
}

/// Runs a row over a store that gives, and sinks that take, a byte at a time.
pub fn run_slowly<T: Toolchain>(toolchain: &T, trial: Trial<'_>) -> Result<Ending, Memory> {
    let alloc = trial.alloc;
    let mut store = SteadyStore::slow(alloc, files(trial)?)?;
    let mut out = SlowSink::new(alloc);
    let mut log = SlowSink::new(alloc);
    let status = toolchain.run(alloc, &trial.row.words, &mut store, &mut out, &mut log);
    ending_of(alloc, status, out.bytes(), log.bytes())
}

// The files of a row that do not change, the last one first, since a store gives the first one of a name.
fn files(trial: Trial<'_>) -> Result<List<(Text, Text)>, Memory> {
    let Trial {
        alloc,
        row,
        last_log,
    } = trial;
    let mut files = List::new(alloc);
    for file in row.files.iter().rev() {
        let bytes = match &file.source {
            Source::Text(text) => text.as_slice(),
            Source::LastLog => last_log,
            Source::Endless(_) | Source::Gone => continue,
        };
        let file = file_of(alloc, file.name.as_bytes(), bytes)?;
        files.push(file)?;
    }
    Ok(files)
}

fn file_of(alloc: Global, name: &[u8], bytes: &[u8]) -> Result<(Text, Text), Memory> {
    let name = Text::from_slice(alloc, name)?;
    let text = Text::from_slice(alloc, bytes)?;
    Ok((name, text))
}
