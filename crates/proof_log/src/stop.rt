// Why a function that reads stops.
ghost use Rattle.std.specs.Prelude.{◌≡◌};
ghost use Rattle.proof_log.specs.declared.stop.Stop.TheVariants.{Memory};

use std::alloc::AllocError;

/// Why a function that reads stops. The cursor then stands before the byte that can't be read.
#[derive(Clone, Copy, PartialEq, Eq)]
pub enum Stop {
    Memory,
    /// No log goes on with the next byte, or there is none and no log ends here.
    Unexpected,
    /// A tree begins that is nested too deep.
    TooDeep,
}

impl From<AllocError> for Stop {
    ghost from_gives = { λ _ e. e ≡ Memory };

    fn from(_: AllocError) -> Stop {
        Stop::Memory
    }
}
