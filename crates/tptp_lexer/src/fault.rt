ghost use Rattle.std.specs.Prelude.{◌≡◌};
ghost use Rattle.tptp_lexer.specs.declared.fault.LexFault.TheVariants.{Memory};

use std::alloc::{AllocError, AllocFailed};
use thiserror::Error;
use tptp_base::{LimitName, Memory, Place};

/// Why a text has no tokens.
#[derive(Clone, Copy, Debug, PartialEq, Eq, Error)]
pub enum LexFault {
    /// At this first place no token, blank or comment begins.
    #[error("no token begins here")]
    Byte(Place),
    /// The quote or block comment that begins at this first place is open where the text ends.
    #[error("unfinished quote or comment")]
    Unfinished(Place),
    /// The text is over the limit of this name.
    #[error("limit {0}")]
    Limit(LimitName),
    #[error("out of memory")]
    Memory,
}

impl From<Memory> for LexFault {
    ghost from_gives = { λ _ e. e ≡ Memory };

    fn from(_: Memory) -> Self {
        LexFault::Memory
    }
}

impl From<AllocError> for LexFault {
    ghost from_gives = { λ _ e. e ≡ Memory };

    fn from(_: AllocError) -> Self {
        LexFault::Memory
    }
}

impl<T: Drop> From<AllocFailed<T>> for LexFault {
    ghost from_gives = { λ _ e. e ≡ Memory };

    fn from(_: AllocFailed<T>) -> Self {
        LexFault::Memory
    }
}
