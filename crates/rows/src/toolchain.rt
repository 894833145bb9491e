// What the rows are runs of.
use std::alloc::Global;
use tptp_base::{Sink, Store};

/// What the rows are runs of.
pub trait Toolchain {
    /// Runs the command that the words ask for: files and sinks in, a status out.
    fn run<S: Store, O: Sink, L: Sink>(
        &self,
        alloc: Global,
        words: &[String],
        store: &mut S,
        out: &mut O,
        log: &mut L,
    ) -> u8;
}
