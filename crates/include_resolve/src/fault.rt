// Why a problem is not resolved.
ghost use Rattle.std.specs.Prelude.{◌≡◌};
ghost use Rattle.include_resolve.specs.declared.fault.IncludeFault.TheVariants.{Memory as NoMemory};

use std::alloc::{AllocError, AllocFailed};
use thiserror::Error;
use tptp_base::{LimitName, Memory, Name, Text as Bytes};
use tptp_grammar::GrammarFault;
use tptp_lexer::LexFault;

/// What is wrong with the text of a file.
#[derive(Clone, Copy, Debug, PartialEq, Eq, Error)]
pub enum TextFault {
    /// The text has no tokens.
    #[error("{0}")]
    Lex(LexFault),
    /// Its tokens spell no items.
    #[error("{0}")]
    Grammar(GrammarFault),
}

/// The first fault on the walk through the files. A file is named as it was opened.
#[derive(Debug, Drop, Error)]
pub enum IncludeFault {
    /// No file has this name, which is given as it was written, or another name that was tried for it.
    #[error("no such file")]
    Missing(Bytes),
    /// The file is open already.
    #[error("include cycle")]
    Cycle(Bytes),
    /// The file would stand 17 deep, the first file being 0 deep.
    #[error("limit include depth")]
    DeepInclude(Bytes),
    /// The file has no formula of the name, which is selected from it.
    #[error("no such formula to select")]
    UnknownSelection(Bytes, Name),
    /// The text of the file has this fault, which is neither a limit of size nor want of memory.
    #[error("{1}")]
    Text(Bytes, TextFault),
    /// The file has more bytes than the limit of this name allows.
    #[error("limit {1}")]
    Limit(Bytes, LimitName),
    /// A read failed.
    #[error("a read failed")]
    Store,
    #[error("out of memory")]
    Memory,
}

impl From<Memory> for IncludeFault {
    ghost from_gives = { λ _ e. e ≡ NoMemory };

    fn from(_: Memory) -> Self {
        IncludeFault::Memory
    }
}

impl From<AllocError> for IncludeFault {
    ghost from_gives = { λ _ e. e ≡ NoMemory };

    fn from(_: AllocError) -> Self {
        IncludeFault::Memory
    }
}

impl<T: Drop> From<AllocFailed<T>> for IncludeFault {
    ghost from_gives = { λ _ e. e ≡ NoMemory };

    fn from(_: AllocFailed<T>) -> Self {
        IncludeFault::Memory
    }
}
