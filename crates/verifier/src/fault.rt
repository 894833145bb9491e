// Why a run did not come to its end.
ghost use Rattle.std.specs.Prelude.{◌≡◌};
ghost use Rattle.verifier.specs.declared.fault.RunFault.TheVariants.{Memory as Wanting};
ghost use Rattle.verifier.specs.Faults.{fault_of};

use std::alloc::AllocError;
use thiserror::Error;
use tptp_base::{Memory, SinkFault};

/// Why a run did not come to its end.
#[derive(Clone, Copy, Debug, PartialEq, Eq, Error)]
pub enum RunFault {
    /// The log did not take an entry.
    #[error("the log failed")]
    Sink,
    #[error("out of memory")]
    Memory,
    /// There is no room for the symbols that a search for the line at this place may bring in.
    #[error("no room for the symbols of a search")]
    Room(usize),
}

impl From<AllocError> for RunFault {
    ghost from_gives = { λ _ fault. fault ≡ Wanting };

    fn from(_: AllocError) -> Self {
        RunFault::Memory
    }
}

impl From<Memory> for RunFault {
    ghost from_gives = { λ _ fault. fault ≡ Wanting };

    fn from(_: Memory) -> Self {
        RunFault::Memory
    }
}

impl From<SinkFault> for RunFault {
    ghost from_gives = { λ sink fault. fault ≡ fault_of sink };

    fn from(fault: SinkFault) -> Self {
        match fault {
            SinkFault::Failed => RunFault::Sink,
            SinkFault::Memory => RunFault::Memory,
        }
    }
}
