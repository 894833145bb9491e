//! Tries rows over a toolchain that only repeats what it is given. It shows that each line of a row does what it says,
//! and that a row which wants something else is said to differ.
#![tactic(auto)]

use anyhow::Result;
use rows::{Toolchain, run_rows};
use std::alloc::Global;
use std::process::ExitCode;
use tptp_base::{Sink, SinkFault, Store, StoreFault, put_all};

// Writes each word to the output, and to the log what one read gives of the file that the last word names.
struct Echo;

impl Toolchain for Echo {
    fn run<S: Store, O: Sink, L: Sink>(
        &self,
        _alloc: Global,
        words: &[String],
        store: &mut S,
        out: &mut O,
        log: &mut L,
    ) -> u8 {
        let Some(name) = words.last() else {
            return 2;
        };
        match repeat_words(words, out) {
            Ok(()) => repeat_file(name.as_str(), store, log),
            Err(_) => 5,
        }
    }
}

// Writes each word, and a line feed behind each.
fn repeat_words<O: Sink>(words: &[String], out: &mut O) -> Result<(), SinkFault> {
    for word in words {
        put_all(out, word.as_bytes())?;
        put_all(out, b"\n")?;
    }
    Ok(())
}

// Writes what one read gives of a file, and tells the status.
fn repeat_file<S: Store, L: Sink>(name: &str, store: &mut S, log: &mut L) -> u8 {
    let mut piece = [0u8; 64];
    match store.read_at(name, 0, &mut piece) {
        Ok(count) => match put_all(log, piece.get(..count).unwrap_or_default()) {
            Ok(()) => 0,
            Err(_) => 5,
        },
        Err(StoreFault::Absent) => 3,
        Err(_) => 4,
    }
}

fn main(rt: HostRuntime) -> Result<ExitCode> {
    run_rows(&rt, &Echo)
}
