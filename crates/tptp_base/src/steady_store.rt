// A store in memory that never fails.
ghost use Rattle.std.specs.Prelude.{◌<◌};

use crate::lookup::{copy_from, find_file};
use crate::{List, Memory, Store, StoreFault, Text};
use std::alloc::Global;

/// Files in memory. No read fails.
#[derive(Drop)]
pub struct SteadyStore {
    files: List<(Text, Text)>,
    absents: u64,
    given: u64,
    most: usize,
    ghost some: { 0 < most },
}

impl SteadyStore {
    ghost use Rattle.std.specs.Prelude.{◌≡◌, ◌-◌, ◌^◌, Some, IfOk};
    ghost use Rattle.tptp_base.specs.Steady.{most_given};

    /// Each read gives all that there is, up to the end of the buffer. The first entry of a name counts.
    pub fn new(_alloc: Global, files: List<(Text, Text)>) -> Result<SteadyStore, Memory>
        ensures files { IfOk result (λ store. ⟦<SteadyStore as Store>⟧.files store ≡ Some files) }
        ensures most { IfOk result (λ store. most_given store ≡ 2 ^ 64 - 1) }
    {
        Ok(SteadyStore {
            files,
            absents: 0,
            given: 0,
            most: usize::MAX,
        })
    }

    /// As `new`, but each read gives at most one byte.
    pub fn slow(_alloc: Global, files: List<(Text, Text)>) -> Result<SteadyStore, Memory>
        ensures files { IfOk result (λ store. ⟦<SteadyStore as Store>⟧.files store ≡ Some files) }
        ensures most { IfOk result (λ store. most_given store ≡ 1) }
    {
        Ok(SteadyStore {
            files,
            absents: 0,
            given: 0,
            most: 1,
        })
    }
}

impl Store for SteadyStore {
    ghost use Rattle.std.specs.Prelude.{◌≡◌, ◌<◌, ◌≤◌, Some, length, IfOk, OnErr, IsErrOf};
    ghost use Rattle.tptp_base.specs.Count.{Rose, count_after};
    ghost use Rattle.tptp_base.specs.Steady.{most_given};
    ghost use Rattle.tptp_base.specs.Store.{HasFile, GivesAt, IsMissing, fill_count};

    ghost files = { λ s. Some s.files };

    ghost absents = { λ s. s.absents };

    ghost faults = { λ _. 0 };

    ghost given = { λ s. s.given };

    fn read_at(&mut self, name: &str, offset: u64, into: &mut [u8]) -> Result<usize, StoreFault>
        requires { 0 < length into.old }
        ensures count { IfOk result (λ count. HasFile (⟦<SteadyStore as Store>⟧.files self.old) name.now
            (λ file. count ≡ fill_count file offset (length into.new) (most_given self.old))) }
        ensures same_most { most_given self.new ≡ most_given self.old }

        ensures bound { IfOk result (λ count. count ≤ length into.new) }
        ensures bytes { IfOk result (λ count. HasFile (⟦<SteadyStore as Store>⟧.files self.old) name.now
            (λ file. GivesAt file offset count into.new)) }
        ensures given { IfOk result (λ count.
            ⟦<SteadyStore as Store>⟧.given self.new ≡ count_after count (⟦<SteadyStore as Store>⟧.given self.old)) }
        ensures none_given { OnErr result
            (⟦<SteadyStore as Store>⟧.given self.new ≡ ⟦<SteadyStore as Store>⟧.given self.old) }
        ensures missing { IsErrOf result StoreFault.Absent →
            IsMissing (⟦<SteadyStore as Store>⟧.files self.old) name.now }
        ensures absent { IsErrOf result StoreFault.Absent →
            Rose (⟦<SteadyStore as Store>⟧.absents self.old) (⟦<SteadyStore as Store>⟧.absents self.new) }
        ensures failed { IsErrOf result StoreFault.Failed →
            Rose (⟦<SteadyStore as Store>⟧.faults self.old) (⟦<SteadyStore as Store>⟧.faults self.new) }
        ensures same_files { ⟦<SteadyStore as Store>⟧.files self.new ≡ ⟦<SteadyStore as Store>⟧.files self.old }
        ensures more_absents { ⟦<SteadyStore as Store>⟧.absents self.old ≤ ⟦<SteadyStore as Store>⟧.absents self.new }
        ensures more_faults { ⟦<SteadyStore as Store>⟧.faults self.old ≤ ⟦<SteadyStore as Store>⟧.faults self.new }
    {
        match find_file(self.files.as_slice(), name.as_bytes()) {
            Some(file) => {
                let count = copy_from(file, offset, self.most, into);
                self.given = self.given.saturating_add(count as u64);
                Ok(count)
            }
            None => {
                self.absents = self.absents.saturating_add(1);
                Err(StoreFault::Absent)
            }
        }
    }
}
