// The entries of a log are checked.
ghost use Rattle.std.specs.Prelude.{◌≡◌, ℕ, IfErr, OnOk};
ghost use Rattle.kernel.specs.Entries.{Refutes};
ghost use Rattle.proof_log.specs.Checks.{IsCheckFault, IsFaultedFor, IsFirstIllegal, IsNotRefuted, Leaves};

use kernel::Entry;
use proof_check::{AdmitFault, Theory};
use thiserror::Error;

/// Why entries do not refute a theory.
#[derive(Clone, Copy, Debug, PartialEq, Eq, Error)]
pub enum CheckFault {
    /// The number of the first entry that is not legal after those before it, counted from 0.
    #[error("illegal entry")]
    Illegal(usize),
    /// All entries are legal in turn, and the last formula is not falsehood then.
    #[error("not refuted")]
    NotRefuted,
    #[error("out of memory")]
    Memory,
}

/// Admits the entries in turn, and tells whether they refute the theory.
///
/// # Errors
///
/// As `CheckFault` tells them. The theory has then the entries before the first illegal one, or all; after want of
/// memory some of the first.
#[tactic(auto, using(crate::proofs::OneTheory::illegal_alone, crate::proofs::OneTheory::unrefuted_alone))]
pub fn check_entries(theory: &mut Theory, entries: &[Entry]) -> Result<(), CheckFault>
    ensures ok { OnOk result (Refutes theory.old entries.now) }
    ensures fault { IfErr result (λ fault. IsCheckFault theory.old entries.now fault) }
    ensures admitted { Leaves theory.old entries.now result theory.new }
    // Each of these answers comes wherever it is true, unless memory runs out.
    ensures refuted { Refutes theory.old entries.now → IfErr result (λ fault. fault ≡ CheckFault.Memory) }
    ensures illegal { (number : ℕ) → IsFirstIllegal theory.old entries.now number
        → IsFaultedFor (CheckFault.Illegal number) result }
    ensures unrefuted { IsNotRefuted theory.old entries.now → IsFaultedFor CheckFault.NotRefuted result }
{
    admit_all(theory, entries)
}

// The same, by what each answer tells alone.
fn admit_all(theory: &mut Theory, entries: &[Entry]) -> Result<(), CheckFault>
    ensures ok { OnOk result (Refutes theory.old entries.now) }
    ensures fault { IfErr result (λ fault. IsCheckFault theory.old entries.now fault) }
    ensures admitted { Leaves theory.old entries.now result theory.new }
{
    for (number, entry) in entries.iter().enumerate() {
        match theory.admit(entry) {
            Ok(()) => {}
            Err(AdmitFault::Illegal) => return Err(CheckFault::Illegal(number)),
            Err(AdmitFault::Memory) => return Err(CheckFault::Memory),
        }
    }
    if theory.refuted() {
        Ok(())
    } else {
        Err(CheckFault::NotRefuted)
    }
}
