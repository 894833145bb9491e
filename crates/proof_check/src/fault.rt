use fof_terms::SigFault;
use std::alloc::AllocError;
use thiserror::Error;
use tptp_base::Memory;

/// Why a theory didn't take an entry.
#[derive(Clone, Copy, Debug, PartialEq, Eq, Error)]
pub enum AdmitFault {
    /// The entry isn't legal.
    #[error("illegal entry")]
    Illegal,
    #[error("out of memory")]
    Memory,
}

impl From<Memory> for AdmitFault {
    ghost use Rattle.std.specs.Prelude.{◌≡◌};
    ghost use Rattle.proof_check.specs.declared.fault.AdmitFault.TheVariants.{Memory as wanting};

    ghost from_gives = { λ _ e. e ≡ wanting };

    fn from(_: Memory) -> AdmitFault {
        AdmitFault::Memory
    }
}

impl From<AllocError> for AdmitFault {
    ghost use Rattle.std.specs.Prelude.{◌≡◌};
    ghost use Rattle.proof_check.specs.declared.fault.AdmitFault.TheVariants.{Memory as wanting};

    ghost from_gives = { λ _ e. e ≡ wanting };

    fn from(_: AllocError) -> AdmitFault {
        AdmitFault::Memory
    }
}

impl From<SigFault> for AdmitFault {
    ghost use Rattle.std.specs.Prelude.{◌≡◌};
    ghost use Rattle.proof_check.specs.Faults.{admit_fault};

    ghost from_gives = { λ fault e. e ≡ admit_fault fault };

    fn from(fault: SigFault) -> AdmitFault {
        match fault {
            SigFault::Limit(_limit) => AdmitFault::Illegal,
            SigFault::Memory => AdmitFault::Memory,
        }
    }
}
