// A sink that takes a byte at a time.
ghost use Rattle.std.specs.Prelude.{None};

use std::alloc::Global;
use tptp_base::{Sink, SinkFault};

/// Keeps the bytes in memory. Each write takes the first byte of its piece.
#[derive(Drop)]
pub struct SlowSink {
    bytes: Vec<u8>,
}

impl SlowSink {
    /// It has taken no bytes yet.
    pub fn new(alloc: Global) -> SlowSink {
        SlowSink {
            bytes: Vec::new(alloc),
        }
    }

    /// The bytes taken so far.
    pub fn bytes(&self) -> &[u8] {
        &self.bytes
    }
}

impl Sink for SlowSink {
    ghost taken = { λ _. None };

    ghost faults = { λ _. 0 };

    fn write(&mut self, piece: &[u8]) -> Result<usize, SinkFault> {
        match piece.first() {
            Some(byte) => match self.bytes.push(*byte) {
                Ok(()) => Ok(1),
                Err(_) => Err(SinkFault::Memory),
            },
            None => Ok(0),
        }
    }
}
