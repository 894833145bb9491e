// A sink in memory that fails at chosen calls.
ghost use Rattle.std.specs.Prelude.{◌≡◌, ◌↔◌, ◌<◌, ◌≤◌, [], Some, length, take, IfOk, OnErr, IsErrOf};
ghost use Rattle.tptp_base.specs.Calls.{writes_made, failing_writes, IsListed};
ghost use Rattle.tptp_base.specs.Count.{Rose, count_after};
ghost use Rattle.tptp_base.specs.Sink.{Takes};

use crate::{List, Sink, SinkFault};
use std::alloc::Global;

/// Keeps the bytes in memory. The calls whose numbers were given fail; the first call is number 1.
#[derive(Drop)]
pub struct MemorySink {
    bytes: Vec<u8>,
    fail: List<u64>,
    calls: u64,
    faults: u64,
}

impl MemorySink {
    /// It has taken no bytes yet.
    pub fn new(alloc: Global, fail: List<u64>) -> MemorySink
        ensures taken { ⟦<MemorySink as Sink>⟧.taken result ≡ Some [] }
        ensures failing { failing_writes result ≡ fail }
        ensures first { writes_made result ≡ 0 }
    {
        MemorySink {
            bytes: Vec::new(alloc),
            fail,
            calls: 0,
            faults: 0,
        }
    }

    /// The bytes taken so far.
    pub fn bytes(&self) -> &[u8]
        ensures { ⟦<MemorySink as Sink>⟧.taken self.now ≡ Some result.now }
    {
        &self.bytes
    }
}

impl Sink for MemorySink {
    ghost taken = { λ s. Some s.bytes.items };

    ghost faults = { λ s. s.faults };

    fn write(&mut self, piece: &[u8]) -> Result<usize, SinkFault>
        ensures fails { IsErrOf result SinkFault.Failed ↔ IsListed (failing_writes self.old) (writes_made self.new) }
        ensures counts { writes_made self.new ≡ count_after 1 (writes_made self.old) }
        ensures same_failing { failing_writes self.new ≡ failing_writes self.old }

        ensures bound { IfOk result (λ count. count ≤ length piece.now) }
        ensures progress { IfOk result (λ count. 0 < length piece.now → 0 < count) }
        ensures ok { IfOk result (λ count.
            Takes (⟦<MemorySink as Sink>⟧.taken self.old) (⟦<MemorySink as Sink>⟧.taken self.new)
            (take count piece.now)) }
        ensures err { OnErr result (⟦<MemorySink as Sink>⟧.taken self.new ≡ ⟦<MemorySink as Sink>⟧.taken self.old) }
        ensures failed { IsErrOf result SinkFault.Failed →
            Rose (⟦<MemorySink as Sink>⟧.faults self.old) (⟦<MemorySink as Sink>⟧.faults self.new) }
        ensures more_faults { ⟦<MemorySink as Sink>⟧.faults self.old ≤ ⟦<MemorySink as Sink>⟧.faults self.new }
    {
        self.calls = self.calls.saturating_add(1);
        if self.fail.as_slice().contains(&self.calls) {
            self.faults = self.faults.saturating_add(1);
            return Err(SinkFault::Failed);
        }
        match self.bytes.extend_from_slice(piece) {
            Ok(()) => Ok(piece.len()),
            Err(_) => Err(SinkFault::Memory),
        }
    }
}
