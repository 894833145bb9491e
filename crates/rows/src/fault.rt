// Why a text is no file of rows.
use std::alloc::{AllocError, AllocFailed};
use thiserror::Error;

/// Why a line says nothing.
#[derive(Debug, Drop, Error)]
pub enum LineFault {
    #[error("no line begins so")]
    Unknown,
    #[error("it stands before the first row")]
    NoRow,
    #[error("nothing takes this text")]
    StrayText,
    #[error("another row has this name")]
    SameName,
    #[error("this is no number that may stand here")]
    Number,
    #[error("a byte has two hexadecimal digits")]
    Byte,
    #[error("out of memory")]
    Memory,
}

impl From<AllocError> for LineFault {
    fn from(_error: AllocError) -> LineFault {
        LineFault::Memory
    }
}

impl<T: Drop> From<AllocFailed<T>> for LineFault {
    fn from(_error: AllocFailed<T>) -> LineFault {
        LineFault::Memory
    }
}

/// A line that says nothing, and why.
#[derive(Debug, Drop, Error)]
#[error("line {line}: {fault}")]
pub struct RowFault {
    /// The number of the line. The first is line 1.
    pub line: usize,
    pub fault: LineFault,
}
