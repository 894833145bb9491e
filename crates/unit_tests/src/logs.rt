// Logs, read and written.
use crate::said::{failing_sink, is, shown, taken};
use kernel::{Entry, Proof};
use proof_log::{LogFault, read_log, write_entry, write_header};
use std::alloc::{AllocError, Global};
use tptp_base::{Boxed, MemorySink, Sink, SinkFault, SteadySink};

const LOG: &str = "tptp-log 1
D s 'it\\'s \\\\'
D f 'g' 2 0 1 1
D p 'it\\'s' 2 0 0
L raa | 0 note hyp 0 line 18446744073709551615
N 4294967295 <> ~ a 0 1 f 7 1 v 0 & 0
C 7 | 0
";

#[test]
fn a_log_is_read_and_written_again(rt: HostRuntime) {
    is(&rt, written_again(rt.alloc()), LOG);
}

fn written_again(alloc: Global) -> Option<String> {
    let entries = read_log(alloc, LOG.as_bytes()).ok()?;
    written(alloc, entries.as_slice())
}

fn written(alloc: Global, entries: &[Entry]) -> Option<String> {
    let mut log = SteadySink::new(alloc);
    write_log(alloc, entries, &mut log).ok()?;
    shown(alloc, log.bytes()).ok()
}

fn write_log<K: Sink>(alloc: Global, entries: &[Entry], log: &mut K) -> Result<(), SinkFault> {
    write_header(log)?;
    for entry in entries {
        write_entry(alloc, entry, log)?;
    }
    Ok(())
}

#[test]
fn a_log_goes_on_behind_a_fault(rt: HostRuntime) {
    let wanted = "failed: tptp-log 1\nL line 12\n";
    is(&rt, written_on(rt.alloc()), wanted);
}

fn written_on(alloc: Global) -> Option<String> {
    let mut log = failing_sink(alloc, 2).ok()?;
    write_header(&mut log).ok()?;
    entry_twice(alloc, &mut log)
}

fn entry_twice(alloc: Global, log: &mut MemorySink) -> Option<String> {
    let entry = line(alloc).ok()?;
    let failed = write_entry(alloc, entry.get(), log);
    write_entry(alloc, entry.get(), log).ok()?;
    taken(alloc, failed, log).ok()
}

fn line(alloc: Global) -> Result<Boxed<Entry>, AllocError> {
    Boxed::new(alloc, Entry::Lemma(Proof::Line(12)))
}

// The 4,001st tree would begin where the text of 4,000 ends.
#[test]
fn a_log_that_nests_too_deep_is_told_from_one_that_is_cut(rt: HostRuntime) {
    is(
        &rt,
        both_faults(rt.alloc()).ok(),
        "deep at 20013; text at 20013; ",
    );
}

fn both_faults(alloc: Global) -> Result<String, AllocError> {
    let mut out = String::new(alloc);
    push_fault(alloc, &mut out, 4001)?;
    push_fault(alloc, &mut out, 4000)?;
    Ok(out)
}

fn push_fault(alloc: Global, out: &mut String, times: u16) -> Result<(), AllocError> {
    let log = contradictions(alloc, times)?;
    say_fault(out, fault_of(alloc, log.as_str()))
}

// A log whose one entry begins with so many contradictions, and ends behind them.
fn contradictions(alloc: Global, times: u16) -> Result<String, AllocError> {
    let mut log = String::from_str(alloc, "tptp-log 1\nL ")?;
    for _ in 0..times {
        log.push_str("note ")?;
    }
    Ok(log)
}

// What is said of a log, and where.
fn fault_of(alloc: Global, log: &str) -> (&'static str, u64) {
    match read_log(alloc, log.as_bytes()) {
        Err(LogFault::Deep(offset)) => ("deep", offset),
        Err(LogFault::Text(offset)) => ("text", offset),
        _ => ("no fault of the text", 0),
    }
}

fn say_fault(out: &mut String, (name, offset): (&'static str, u64)) -> Result<(), AllocError> {
    write!(out, "{name} at {offset}; ")
}
