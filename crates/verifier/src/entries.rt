// Entries are added to a theory, and logged.
ghost use Rattle.std.specs.Prelude.{◌≡◌, ◌≤◌, IfErr, OnOk, OnErr};
ghost use Rattle.tptp_base.specs.Count.{Rose};
ghost use Rattle.tptp_base.specs.Sink.{Takes, TakesPrefix};
ghost use Rattle.kernel.specs.Entries.{Legal, After, Admits};
ghost use Rattle.proof_log.specs.Entries.{AreNumbersInRange, HaveNumbersInRange, entry_text};
ghost use Rattle.verifier.specs.Faults.{HasCause};
ghost use Rattle.verifier.specs.Logged.{CanAdmit, LeadTo, LogsSome, entries_text};

use crate::fault::RunFault;
use kernel::Entry;
use proof_check::{AdmitFault, Theory};
use proof_log::write_entry;
use std::alloc::Global;
use tptp_base::Sink;

/// Adds legal entries to a theory in turn, and logs each of them.
pub fn add_entries<K: Sink>(
    alloc: Global,
    entries: &[Entry],
    theory: &mut Theory,
    log: &mut K,
) -> Result<(), RunFault>
    requires { CanAdmit theory.old entries.now }
    ensures admits { OnOk result (Admits theory.old entries.now theory.new) }
    ensures logged { OnOk result (Takes (K.taken log.old) (K.taken log.new) (entries_text entries.now)) }
    ensures in_range { OnOk result (HaveNumbersInRange entries.now) }
    ensures leads { LeadTo theory.old theory.new }
    ensures cut { OnErr result (LogsSome theory.old (K.taken log.old) (K.taken log.new)) }
    ensures cause { IfErr result (λ fault. HasCause fault (Rose (K.faults log.old) (K.faults log.new))) }
    ensures more_faults { K.faults log.old ≤ K.faults log.new }
{
    for entry in entries {
        add_entry(alloc, entry, theory, log)?;
    }
    Ok(())
}

// Adds a legal entry to a theory, and logs it.
#[tactic(auto, using(crate::proofs::Leading::led_none, crate::proofs::Leading::led_one))]
fn add_entry<K: Sink>(
    alloc: Global,
    entry: &Entry,
    theory: &mut Theory,
    log: &mut K,
) -> Result<(), RunFault>
    requires { Legal theory.old entry.now }
    ensures after { OnOk result (After theory.old entry.now theory.new) }
    ensures logged { OnOk result (Takes (K.taken log.old) (K.taken log.new) (entry_text entry.now)) }
    ensures in_range { OnOk result (AreNumbersInRange entry.now) }
    ensures leads { LeadTo theory.old theory.new }
    ensures cut { OnErr result (TakesPrefix (K.taken log.old) (K.taken log.new) (entry_text entry.now)) }
    ensures cause { IfErr result (λ fault. HasCause fault (Rose (K.faults log.old) (K.faults log.new))) }
    ensures more_faults { K.faults log.old ≤ K.faults log.new }
{
    match theory.admit(entry) {
        Ok(()) => {
            write_entry(alloc, entry, log)?;
            Ok(())
        }
        Err(AdmitFault::Illegal) => unreachable!(),
        Err(AdmitFault::Memory) => Err(RunFault::Memory),
    }
}
