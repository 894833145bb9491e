// Why formulas denote nothing.
ghost use Rattle.std.specs.Prelude.{◌≡◌};
ghost use Rattle.sort_check.specs.declared.fault.SortFault.TheVariants.{Memory as out_of_memory};
ghost use Rattle.sort_check.specs.declared.fault.Stop.TheVariants.{Memory as wanting};

use std::alloc::AllocError;
use thiserror::Error;
use tptp_base::{LimitName, Memory, Name, Place};

/// What is wrong with a line.
#[derive(Clone, Copy, Debug, PartialEq, Eq, Error)]
pub enum SortRule {
    /// A variable of a FOF or TFF formula that no quantifier binds.
    #[error("free variable")]
    FreeVariable,
    /// A name that a type line of the same text declares, used with another kind or number of arguments.
    #[error("wrong arity or kind")]
    Arity,
    /// The sorts of an argument and of its place, or of the two sides of an equation, differ.
    #[error("wrong sort")]
    WrongSort,
    /// A type line declares a symbol whose name the signature has with another kind, arity or type.
    #[error("declared again")]
    Redeclared,
    /// A sort that the signature doesn't hold at that moment.
    #[error("unknown sort")]
    UnknownSort,
    /// A line of role type in CNF or FOF.
    #[error("type outside tff")]
    NotTyped,
    /// The second conjecture line of a problem.
    #[error("second conjecture")]
    TwoConjectures,
    /// The 251st bound variable of a formula, or the 251st distinct variable of a CNF formula.
    #[error("limit variables")]
    Variables,
    /// The signature has no room for a further symbol or sort.
    #[error("limit {0}")]
    Limit(LimitName),
}

/// Why a text's formulas denote nothing.
#[derive(Debug, Drop, Error)]
pub enum SortFault {
    /// The first line with something wrong: what, the place of its first token, and its name.
    #[error("{0}")]
    Line(SortRule, Place, Name),
    #[error("out of memory")]
    Memory,
}

impl From<AllocError> for SortFault {
    ghost from_gives = { λ _ e. e ≡ out_of_memory };

    fn from(_: AllocError) -> SortFault {
        SortFault::Memory
    }
}

impl From<Memory> for SortFault {
    ghost from_gives = { λ _ e. e ≡ out_of_memory };

    fn from(_: Memory) -> SortFault {
        SortFault::Memory
    }
}

/// Why a part of a line denotes nothing.
#[derive(Clone, Copy, PartialEq, Eq)]
pub enum Stop {
    Rule(SortRule),
    Memory,
}

impl From<AllocError> for Stop {
    ghost from_gives = { λ _ e. e ≡ wanting };

    fn from(_: AllocError) -> Stop {
        Stop::Memory
    }
}

impl From<Memory> for Stop {
    ghost from_gives = { λ _ e. e ≡ wanting };

    fn from(_: Memory) -> Stop {
        Stop::Memory
    }
}
