// Where files are read.
ghost use Rattle.std.specs.Prelude.{◌≡◌, ◌<◌, ◌≤◌, ℕ, length, IfOk, OnErr, IsErrOf};
ghost use Rattle.std.specs.declared.option.Option.{Option};
ghost use Rattle.tptp_base.specs.Count.{Rose, count_after};
ghost use Rattle.tptp_base.specs.Store.{Files, HasFile, GivesAt, IsMissing};

use thiserror::Error;

/// Why a store gave no bytes.
#[derive(Clone, Copy, Debug, PartialEq, Eq, Error)]
pub enum StoreFault {
    /// No file has this name.
    #[error("no such file")]
    Absent,
    /// The read failed.
    #[error("the read failed")]
    Failed,
    #[error("out of memory")]
    Memory,
}

/// Files that are read by name, a piece at a time.
pub trait Store {
    /// The files, where the store tells them.
    ghost files: { Self → Option Files };

    /// How often a file was not there.
    ghost absents: { Self → ℕ };

    /// How often a read has failed.
    ghost faults: { Self → ℕ };

    /// How many bytes the reads have given.
    ghost given: { Self → ℕ };

    /// Reads bytes of a file from an offset on. At the file's end, and past it, there are none.
    fn read_at(&mut self, name: &str, offset: u64, into: &mut [u8]) -> Result<usize, StoreFault>
        requires { 0 < length into.old }
        ensures bound { IfOk result (λ count. count ≤ length into.new) }
        ensures bytes { IfOk result (λ count. HasFile (files self.old) name.now
            (λ file. GivesAt file offset count into.new)) }
        ensures given { IfOk result (λ count. given self.new ≡ count_after count (given self.old)) }
        ensures none_given { OnErr result (given self.new ≡ given self.old) }
        ensures missing { IsErrOf result StoreFault.Absent → IsMissing (files self.old) name.now }
        ensures absent { IsErrOf result StoreFault.Absent → Rose (absents self.old) (absents self.new) }
        ensures failed { IsErrOf result StoreFault.Failed → Rose (faults self.old) (faults self.new) }
        ensures same_files { files self.new ≡ files self.old }
        ensures more_absents { absents self.old ≤ absents self.new }
        ensures more_faults { faults self.old ≤ faults self.new };
}
