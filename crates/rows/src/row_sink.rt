// A sink in memory of which calls fail or lack memory.
ghost use Rattle.std.specs.Prelude.{None};

use std::alloc::Global;
use tptp_base::{Sink, SinkFault};

/// Keeps the bytes in memory.
#[derive(Drop)]
pub struct RowSink<'a> {
    bytes: Vec<u8>,
    failing: &'a [u64],
    lacks: bool,
    calls: u64,
    faults: u64,
}

impl<'a> RowSink<'a> {
    /// It has taken no bytes yet. The calls of these numbers fail; the first is call 1. Each call may lack memory.
    pub fn new(alloc: Global, failing: &'a [u64], lacks: bool) -> RowSink<'a> {
        RowSink {
            bytes: Vec::new(alloc),
            failing,
            lacks,
            calls: 0,
            faults: 0,
        }
    }

    /// The bytes taken so far.
    pub fn bytes(&self) -> &[u8] {
        &self.bytes
    }
}

impl Sink for RowSink<'_> {
    ghost taken = { λ _. None };

    ghost faults = { λ s. s.faults };

    fn write(&mut self, piece: &[u8]) -> Result<usize, SinkFault> {
        self.calls = self.calls.saturating_add(1);
        if self.failing.contains(&self.calls) {
            self.faults = self.faults.saturating_add(1);
            return Err(SinkFault::Failed);
        }
        if self.lacks {
            return Err(SinkFault::Memory);
        }
        match self.bytes.extend_from_slice(piece) {
            Ok(()) => Ok(piece.len()),
            Err(_) => Err(SinkFault::Memory),
        }
    }
}
