// Why a function that reads stops.
ghost use Rattle.std.specs.Prelude.{◌≡◌};
ghost use Rattle.tptp_grammar.specs.declared.stop.Stop.TheVariants.{Memory};

use std::alloc::AllocError;

/// Why a function that reads stops. The cursor then stands before the token that can't be read.
#[derive(Clone, Copy, PartialEq, Eq)]
pub enum Stop {
    Memory,
    /// No text goes on with the next token, or there is none and no text ends here.
    Unexpected,
    /// The next token is nested too deep.
    TooDeep,
}

impl From<AllocError> for Stop {
    ghost from_gives = { λ _ e. e ≡ Memory };

    fn from(_: AllocError) -> Stop {
        Stop::Memory
    }
}
