// The text of a log is checked, an entry at a time.
ghost use Rattle.std.specs.Prelude.{◌≡◌, ◌<◌, ◌≤◌, ◌↔◌, ℕ, List, length, IsErrOf};
ghost use Rattle.kernel.specs.declared.entry.Entry.{Entry as Logged};
ghost use Rattle.tptp_base.specs.declared.read.TheConstants.{FILE_SIZE as max_size};
ghost use Rattle.proof_log.specs.Answers.{IsLogOf};
ghost use Rattle.proof_log.specs.Logs.{IsFirstFault, IsFirstDeep};
ghost use Rattle.proof_log.specs.Reading.{HasRead};
ghost use Rattle.proof_log.specs.LogChecks as checks;
ghost use Rattle.proof_log.specs.code.LogRest.{EndsAs};
ghost use Rattle.proof_log.specs.Rejected.{rejected};

use crate::log_entries::LogEntries;
use crate::reader::{LogFault, MAX_NESTING};
use proof_check::{AdmitFault, Theory};
use std::alloc::Global;
use thiserror::Error;

/// Why a text is not that of a log that refutes a theory.
#[derive(Clone, Copy, Debug, PartialEq, Eq, Error)]
pub enum LogCheckFault {
    /// The text is no log, as `LogFault::Text` says.
    #[error("log fault at offset {0}")]
    Text(u64),
    /// A tree is nested too deep, as `LogFault::Deep` says.
    #[error("log fault at offset {0}")]
    Deep(u64),
    /// The text is longer than a file may be.
    #[error("limit file size")]
    Limit,
    /// The text is a log, and this is the number of the first entry that is not legal after those before it, counted
    /// from 0.
    #[error("illegal entry")]
    Illegal(usize),
    /// The text is a log, all entries are legal in turn, and the last formula is not falsehood then.
    #[error("not refuted")]
    NotRefuted,
    #[error("out of memory")]
    Memory,
}

impl From<LogFault> for LogCheckFault {
    ghost from_gives = { λ fault e. e ≡ rejected fault };

    fn from(fault: LogFault) -> LogCheckFault {
        match fault {
            LogFault::Text(offset) => LogCheckFault::Text(offset),
            LogFault::Deep(offset) => LogCheckFault::Deep(offset),
            LogFault::Limit => LogCheckFault::Limit,
            LogFault::Memory => LogCheckFault::Memory,
        }
    }
}

/// Reads a log and admits its entries, one after another, and tells how many entries refute the theory: what
/// `check_entries` answers of the entries that `read_log` reads, while one entry at most is held. An entry that is not
/// legal is told only where the rest of the text goes on as a log.
///
/// # Errors
///
/// As `LogCheckFault` tells them. The theory has then the entries before the first illegal one, or all; after a fault
/// of the text or want of memory some of the first.
#[tactic(auto, using(crate::proofs::OneCheck::checked_alone, crate::proofs::OneCheck::text_alone, crate::proofs::OneCheck::deep_alone))]
pub fn check_log(alloc: Global, theory: &mut Theory, text: &[u8]) -> Result<usize, LogCheckFault>
    ensures answers { checks.IsCheckOf MAX_NESTING theory.old text.now result }
    ensures leaves { checks.LeavesOf MAX_NESTING theory.old text.now result theory.new }
    ensures limit { IsErrOf result LogCheckFault.Limit ↔ max_size < length text.now }
    // The entries of a log are checked, unless memory runs out.
    ensures only { (entries : List Logged) → IsLogOf MAX_NESTING text.now entries → length text.now ≤ max_size
        → checks.IsCheckedAs theory.old entries result }
    // Each fault of the text is told, unless memory runs out.
    ensures text { (offset : ℕ) → IsFirstFault MAX_NESTING text.now offset → length text.now ≤ max_size
        → checks.IsRejectedFor (LogCheckFault.Text offset) result }
    ensures deep { (offset : ℕ) → IsFirstDeep MAX_NESTING text.now offset → length text.now ≤ max_size
        → checks.IsRejectedFor (LogCheckFault.Deep offset) result }
{
    check_all(alloc, theory, text)
}

// The same, by what each answer tells alone.
#[tactic(auto, using(crate::proofs::Steps::shorter))]
fn check_all(alloc: Global, theory: &mut Theory, text: &[u8]) -> Result<usize, LogCheckFault>
    ensures answers { checks.IsCheckOf MAX_NESTING theory.old text.now result }
    ensures leaves { checks.LeavesOf MAX_NESTING theory.old text.now result theory.new }
    ensures limit { IsErrOf result LogCheckFault.Limit ↔ max_size < length text.now }
{
    let mut log = LogEntries::new(text)?;
    let mut count = 0;
    'entries: while let Some(entry) = log.next(alloc)? {
        match theory.admit(entry.get()) {
            Ok(()) => count += 1,
            Err(AdmitFault::Illegal) => {
                read_rest(alloc, &mut log)?;
                return Err(LogCheckFault::Illegal(count));
            }
            Err(AdmitFault::Memory) => return Err(LogCheckFault::Memory),
        }
    }
    if theory.refuted() {
        Ok(count)
    } else {
        Err(LogCheckFault::NotRefuted)
    }
}

// Reads to the end of the text.
#[tactic(auto, using(crate::proofs::Steps::shorter))]
fn read_rest(alloc: Global, log: &mut LogEntries<'_>) -> Result<(), LogFault>
    ensures { (entries : List Logged) → HasRead MAX_NESTING entries log.old
        → EndsAs MAX_NESTING entries log.old.text result }
{
    'rest: while let Some(_) = log.next(alloc)? {}
    Ok(())
}
