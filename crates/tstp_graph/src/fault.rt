// Why items are no derivation.
ghost use Rattle.std.specs.Prelude.{◌≡◌};
ghost use Rattle.tstp_graph.specs.declared.fault.GraphFault.TheVariants.{Memory as wanting};

use std::alloc::{AllocError, AllocFailed};
use thiserror::Error;
use tptp_base::{LimitName, Memory, Name, Place};

/// Why items have no graph. The place and the first name are those of the item.
#[derive(Debug, Drop, Error)]
pub enum GraphFault {
    /// A parent is named that is no line and no given formula: the second name.
    #[error("unknown parent")]
    UnknownParent(Place, Name, Name),
    /// An earlier line has the same name.
    #[error("second line of this name")]
    DuplicateLine(Place, Name),
    /// The line is from itself, over others or at once.
    #[error("in a cycle")]
    Cycle(Place, Name),
    /// There are more formulas than the limit of this name allows.
    #[error("limit {0}")]
    Limit(LimitName),
    /// A source has a record that is malformed.
    #[error("malformed source")]
    BadSource(Place, Name),
    /// A derivation includes nothing.
    #[error("include in a derivation")]
    Include(Place),
    #[error("out of memory")]
    Memory,
}

impl From<AllocError> for GraphFault {
    ghost from_gives = { λ _ e. e ≡ wanting };

    fn from(_: AllocError) -> Self {
        GraphFault::Memory
    }
}

impl From<Memory> for GraphFault {
    ghost from_gives = { λ _ e. e ≡ wanting };

    fn from(_: Memory) -> Self {
        GraphFault::Memory
    }
}

impl<T: Drop> From<AllocFailed<T>> for GraphFault {
    ghost from_gives = { λ _ e. e ≡ wanting };

    fn from(_: AllocFailed<T>) -> Self {
        GraphFault::Memory
    }
}
