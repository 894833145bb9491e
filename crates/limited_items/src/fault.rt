use std::alloc::AllocError;
use thiserror::Error;
use tptp_base::{LimitName, Memory};

/// Why there is no derivation to print.
#[derive(Clone, Copy, Debug, PartialEq, Eq, Error)]
pub enum ProveFault {
    /// The limit of this name is passed.
    #[error("limit {0}")]
    Limit(LimitName),
    #[error("out of memory")]
    Memory,
}

impl From<Memory> for ProveFault {
    ghost use Rattle.std.specs.Prelude.{◌≡◌};
    ghost use Rattle.limited_items.specs.declared.fault.ProveFault.TheVariants.{Memory as wanting};

    ghost from_gives = { λ _ e. e ≡ wanting };

    fn from(_: Memory) -> ProveFault {
        ProveFault::Memory
    }
}

impl From<AllocError> for ProveFault {
    ghost use Rattle.std.specs.Prelude.{◌≡◌};
    ghost use Rattle.limited_items.specs.declared.fault.ProveFault.TheVariants.{Memory as wanting};

    ghost from_gives = { λ _ e. e ≡ wanting };

    fn from(_: AllocError) -> ProveFault {
        ProveFault::Memory
    }
}
