use std::alloc::AllocError;
use thiserror::Error;
use tptp_base::Memory;

/// Why a formula got no normal form.
#[derive(Clone, Copy, Debug, PartialEq, Eq, Error)]
pub enum FormFault {
    /// The normal form could have more nodes than are allowed.
    #[error("too wide")]
    Wide,
    #[error("out of memory")]
    Memory,
}

impl From<Memory> for FormFault {
    ghost use Rattle.std.specs.Prelude.{◌≡◌};
    ghost use Rattle.clause_form.specs.declared.fault.FormFault.TheVariants.{Memory as wanting};

    ghost from_gives = { λ _ e. e ≡ wanting };

    fn from(_: Memory) -> FormFault {
        FormFault::Memory
    }
}

impl From<AllocError> for FormFault {
    ghost use Rattle.std.specs.Prelude.{◌≡◌};
    ghost use Rattle.clause_form.specs.declared.fault.FormFault.TheVariants.{Memory as wanting};

    ghost from_gives = { λ _ e. e ≡ wanting };

    fn from(_: AllocError) -> FormFault {
        FormFault::Memory
    }
}
