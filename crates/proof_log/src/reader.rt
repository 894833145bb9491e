// A whole log is read.
ghost use Rattle.std.specs.Prelude.{◌≡◌, ◌<◌, ◌≤◌, ◌↔◌, ℕ, List, length, IsErrOf};
ghost use Rattle.first_fault.specs.Nesting.{Within};
ghost use Rattle.kernel.specs.declared.entry.Entry.{Entry as Logged};
ghost use Rattle.tptp_base.specs.declared.read.TheConstants.{FILE_SIZE as max_size};
ghost use Rattle.proof_log.specs.declared.reader.LogFault.TheVariants.{Memory};
ghost use Rattle.proof_log.specs.Entries.{AreLogged, log_text, nested_log};
ghost use Rattle.proof_log.specs.Logs.{IsFirstFault, IsFirstDeep};
ghost use Rattle.proof_log.specs.Answers as answers;

use crate::log_entries::LogEntries;
use kernel::Entry;
use std::alloc::{AllocError, Global};
use thiserror::Error;
use tptp_base::List;

/// How deep trees may nest in a log.
pub const MAX_NESTING: usize = 4_000;

/// Why a text is not read as a log.
#[derive(Clone, Copy, Debug, PartialEq, Eq, Error)]
pub enum LogFault {
    /// The text is no log. The offset is that of the first byte such that no log begins with the bytes through it, or
    /// the length of the text where only the end is missing.
    #[error("log fault at offset {0}")]
    Text(u64),
    /// The offset of the first byte of the first tree that is nested deeper than `MAX_NESTING`.
    #[error("log fault at offset {0}")]
    Deep(u64),
    /// The text is longer than a file may be.
    #[error("limit file size")]
    Limit,
    #[error("out of memory")]
    Memory,
}

impl From<AllocError> for LogFault {
    ghost from_gives = { λ _ e. e ≡ Memory };

    fn from(_: AllocError) -> LogFault {
        LogFault::Memory
    }
}

/// The entries whose text this is.
///
/// # Errors
///
/// The first fault, as `LogFault` tells them. `Limit` is tested first.
#[tactic(auto, using(crate::proofs::OneAnswer::read_alone, crate::proofs::OneAnswer::text_alone, crate::proofs::OneAnswer::deep_alone))]
pub fn read_log(alloc: Global, bytes: &[u8]) -> Result<List<Entry>, LogFault>
    // What is read has this text. Each fault is the first one.
    ensures answers { answers.Answers MAX_NESTING bytes.now result }
    ensures limit { IsErrOf result LogFault.Limit ↔ max_size < length bytes.now }
    // The text of a log is read, unless memory runs out.
    ensures only { (entries : List Logged) → AreLogged entries → log_text entries ≡ bytes.now
        → Within MAX_NESTING (nested_log entries) → length bytes.now ≤ max_size → answers.IsReadAs entries result }
    // Each fault is told, unless memory runs out.
    ensures text { (offset : ℕ) → IsFirstFault MAX_NESTING bytes.now offset → length bytes.now ≤ max_size
        → answers.IsRefusedFor (LogFault.Text offset) result }
    ensures deep { (offset : ℕ) → IsFirstDeep MAX_NESTING bytes.now offset → length bytes.now ≤ max_size
        → answers.IsRefusedFor (LogFault.Deep offset) result }
{
    read_all(alloc, bytes)
}

// The same, by what each answer tells alone.
#[tactic(auto, using(crate::proofs::Steps::shorter))]
fn read_all(alloc: Global, bytes: &[u8]) -> Result<List<Entry>, LogFault>
    ensures answers { answers.Answers MAX_NESTING bytes.now result }
    ensures limit { IsErrOf result LogFault.Limit ↔ max_size < length bytes.now }
{
    let mut log = LogEntries::new(bytes)?;
    let mut found = List::new(alloc);
    'entries: while let Some(entry) = log.next(alloc)? {
        found.push(entry.into_inner())?;
    }
    Ok(found)
}
