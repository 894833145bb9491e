// A store in memory that fails at chosen calls.
ghost use Rattle.std.specs.Prelude.{◌≡◌, ◌↔◌, ◌<◌, ◌≤◌, Some, length, IfOk, OnErr, IsErrOf};
ghost use Rattle.tptp_base.specs.Calls.{reads_made, failing_reads, IsListed};
ghost use Rattle.tptp_base.specs.Count.{Rose, count_after};
ghost use Rattle.tptp_base.specs.Store.{HasFile, GivesAt, IsMissing};

use crate::lookup::{copy_from, find_file};
use crate::{List, Memory, Store, StoreFault, Text};
use std::alloc::Global;

/// Files in memory. The calls whose numbers were given fail; the first call is number 1.
#[derive(Drop)]
pub struct MemoryStore {
    files: List<(Text, Text)>,
    fail: List<u64>,
    calls: u64,
    absents: u64,
    faults: u64,
    given: u64,
}

impl MemoryStore {
    /// The first entry of a name counts.
    pub fn new(
        _alloc: Global,
        files: List<(Text, Text)>,
        fail: List<u64>,
    ) -> Result<MemoryStore, Memory>
        ensures files { IfOk result (λ store. ⟦<MemoryStore as Store>⟧.files store ≡ Some files) }
        ensures failing { IfOk result (λ store. failing_reads store ≡ fail) }
        ensures first { IfOk result (λ store. reads_made store ≡ 0) }
    {
        Ok(MemoryStore {
            files,
            fail,
            calls: 0,
            absents: 0,
            faults: 0,
            given: 0,
        })
    }
}

impl Store for MemoryStore {
    ghost files = { λ s. Some s.files };

    ghost absents = { λ s. s.absents };

    ghost faults = { λ s. s.faults };

    ghost given = { λ s. s.given };

    fn read_at(&mut self, name: &str, offset: u64, into: &mut [u8]) -> Result<usize, StoreFault>
        requires { 0 < length into.old }
        ensures fails { IsErrOf result StoreFault.Failed ↔ IsListed (failing_reads self.old) (reads_made self.new) }
        ensures counts { reads_made self.new ≡ count_after 1 (reads_made self.old) }
        ensures same_failing { failing_reads self.new ≡ failing_reads self.old }

        ensures bound { IfOk result (λ count. count ≤ length into.new) }
        ensures bytes { IfOk result (λ count. HasFile (⟦<MemoryStore as Store>⟧.files self.old) name.now
            (λ file. GivesAt file offset count into.new)) }
        ensures given { IfOk result (λ count.
            ⟦<MemoryStore as Store>⟧.given self.new ≡ count_after count (⟦<MemoryStore as Store>⟧.given self.old)) }
        ensures none_given { OnErr result
            (⟦<MemoryStore as Store>⟧.given self.new ≡ ⟦<MemoryStore as Store>⟧.given self.old) }
        ensures missing { IsErrOf result StoreFault.Absent →
            IsMissing (⟦<MemoryStore as Store>⟧.files self.old) name.now }
        ensures absent { IsErrOf result StoreFault.Absent →
            Rose (⟦<MemoryStore as Store>⟧.absents self.old) (⟦<MemoryStore as Store>⟧.absents self.new) }
        ensures failed { IsErrOf result StoreFault.Failed →
            Rose (⟦<MemoryStore as Store>⟧.faults self.old) (⟦<MemoryStore as Store>⟧.faults self.new) }
        ensures same_files { ⟦<MemoryStore as Store>⟧.files self.new ≡ ⟦<MemoryStore as Store>⟧.files self.old }
        ensures more_absents { ⟦<MemoryStore as Store>⟧.absents self.old ≤ ⟦<MemoryStore as Store>⟧.absents self.new }
        ensures more_faults { ⟦<MemoryStore as Store>⟧.faults self.old ≤ ⟦<MemoryStore as Store>⟧.faults self.new }
    {
        self.calls = self.calls.saturating_add(1);
        if self.fail.as_slice().contains(&self.calls) {
            self.faults = self.faults.saturating_add(1);
            return Err(StoreFault::Failed);
        }
        match find_file(self.files.as_slice(), name.as_bytes()) {
            Some(file) => {
                let count = copy_from(file, offset, usize::MAX, into);
                self.given = self.given.saturating_add(count as u64);
                Ok(count)
            }
            None => {
                self.absents = self.absents.saturating_add(1);
                Err(StoreFault::Absent)
            }
        }
    }
}
