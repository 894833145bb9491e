ghost use Rattle.std.specs.Prelude.{◌≡◌};
ghost use Rattle.tptp_grammar.specs.declared.fault.GrammarFault.TheVariants.{Memory};

use thiserror::Error;
use tptp_base::{Memory, Place};

/// Why tokens spell no items.
#[derive(Clone, Copy, Debug, PartialEq, Eq, Error)]
pub enum GrammarFault {
    /// No text begins with the tokens through this first one.
    #[error("unexpected token")]
    Token(Place),
    /// The same, of a token of a part of TPTP that is left out: a number, a distinct object, a system word, a word with
    /// `$` that is none of `$true`, `$false`, `$i`, `$o` and `$tType`, or the words `thf`, `tcf` and `tpi`.
    #[error("not in this profile")]
    Profile(Place),
    /// Some text begins with all tokens, and they spell none themselves. The place is that of the end.
    #[error("unexpected end")]
    End(Place),
    /// The first token that is nested deeper than 250, where no token through it is impossible.
    #[error("limit nesting")]
    Deep(Place),
    #[error("out of memory")]
    Memory,
}

impl From<Memory> for GrammarFault {
    ghost from_gives = { λ _ e. e ≡ Memory };

    fn from(_: Memory) -> GrammarFault {
        GrammarFault::Memory
    }
}
