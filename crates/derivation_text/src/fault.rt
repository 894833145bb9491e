// Why a text is no derivation.
ghost use Rattle.std.specs.Prelude.{◌≡◌};
ghost use Rattle.derivation_text.specs.declared.fault.DerivationFault.TheVariants.{Memory as wanting};

use sort_check::SortFault;
use thiserror::Error;
use tptp_base::Memory;
use tptp_grammar::GrammarFault;
use tptp_lexer::LexFault;
use tstp_graph::GraphFault;

/// The first fault of a text that is no derivation, in the order in which it is read.
#[derive(Debug, Drop, Error)]
pub enum DerivationFault {
    /// Its part of the output has no tokens.
    #[error("{0}")]
    Lex(LexFault),
    /// The tokens spell no items.
    #[error("{0}")]
    Grammar(GrammarFault),
    /// The items have no graph.
    #[error("{0}")]
    Graph(GraphFault),
    /// Some line denotes nothing.
    #[error("{0}")]
    Sort(SortFault),
    #[error("out of memory")]
    Memory,
}

impl From<Memory> for DerivationFault {
    ghost from_gives = { λ _ e. e ≡ wanting };

    fn from(_: Memory) -> Self {
        DerivationFault::Memory
    }
}
