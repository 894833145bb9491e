//! Tries the rows of the toolchain: words and files in, a status and texts out.
#![tactic(auto)]

use anyhow::Result;
use rows::{Toolchain, run_rows};
use std::alloc::Global;
use std::process::ExitCode;
use tptp_base::{Sink, Store};
use tptp_run::run_tptp;

struct Tptp;

impl Toolchain for Tptp {
    fn run<S: Store, O: Sink, L: Sink>(
        &self,
        alloc: Global,
        words: &[String],
        store: &mut S,
        out: &mut O,
        log: &mut L,
    ) -> u8 {
        run_tptp(alloc, words, store, out, log)
    }
}

fn main(rt: HostRuntime) -> Result<ExitCode> {
    run_rows(&rt, &Tptp)
}
