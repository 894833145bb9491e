// Logs.
ghost use Rattle.first_fault.specs.Nesting.{Within};
ghost use Rattle.kernel.specs.Entries.{Refutes};
ghost use Rattle.kernel.specs.declared.entry.Entry.{Entry as Logged};
ghost use Rattle.proof_log.specs.Answers as answers;
ghost use Rattle.proof_log.specs.Checks.{IsCheckFault, IsFaultedFor, IsFirstIllegal, IsNotRefuted, Leaves};
ghost use Rattle.proof_log.specs.Entries.{AreLogged, AreNumbersInRange, entry_text, log_text, nested_log};
ghost use Rattle.proof_log.specs.Logs.{IsFirstDeep, IsFirstFault};
ghost use Rattle.std.specs.Prelude.{IfErr, IsErrOf, List, OnErr, OnOk, length, ℕ, ◌-◌, ◌<◌, ◌↔◌, ◌≡◌, ◌≤◌};
ghost use Rattle.tptp_base.specs.Count.{Rose};
ghost use Rattle.tptp_base.specs.Sink.{Takes, TakesPrefix};
ghost use Rattle.tptp_base.specs.declared.read.TheConstants.{FILE_SIZE as max_size};

use crate::{Control, Probe};
use kernel::Entry;
use proof_check::Theory;
use proof_log::{
    CheckFault, HEADER, LogFault, MAX_NESTING, check_entries, read_log, write_entry, write_header,
};
use std::alloc::Global;
use tptp_base::{List, Sink, SinkFault};

/// Writes, reads and checks logs.
pub trait Logging {
    /// Appends the first line of a log; on a refusal a prefix of it.
    fn write_header<K: Sink>(sink: &mut K) -> Result<(), SinkFault>
        ensures ok { OnOk result (Takes (K.taken sink.old) (K.taken sink.new) HEADER.now) }
        ensures err { OnErr result (TakesPrefix (K.taken sink.old) (K.taken sink.new) HEADER.now) }
        ensures failed { IsErrOf result SinkFault.Failed → Rose (K.faults sink.old) (K.faults sink.new) }
        ensures more_faults { K.faults sink.old ≤ K.faults sink.new };

    /// Appends the line of an entry; on a refusal a prefix of it.
    fn write_entry<K: Sink>(alloc: Global, entry: &Entry, sink: &mut K) -> Result<(), SinkFault>
        ensures ok { OnOk result (Takes (K.taken sink.old) (K.taken sink.new) (entry_text entry.now)) }
        ensures in_range { OnOk result (AreNumbersInRange entry.now) }
        ensures err { OnErr result (TakesPrefix (K.taken sink.old) (K.taken sink.new) (entry_text entry.now)) }
        ensures failed { IsErrOf result SinkFault.Failed → Rose (K.faults sink.old) (K.faults sink.new) }
        ensures more_faults { K.faults sink.old ≤ K.faults sink.new };

    /// The entries whose text this is.
    fn read_log(alloc: Global, bytes: &[u8]) -> Result<List<Entry>, LogFault>
        // What is read has this text. Each fault is the first one.
        ensures answers { answers.Answers MAX_NESTING bytes.now result }
        ensures limit { IsErrOf result LogFault.Limit ↔ max_size < length bytes.now }
        // The text of a log is read, unless memory runs out.
        ensures only { (entries : List Logged) → AreLogged entries → log_text entries ≡ bytes.now →
            Within MAX_NESTING (nested_log entries) → length bytes.now ≤ max_size → answers.IsReadAs entries result }
        // Each fault is told, unless memory runs out.
        ensures text { (offset : ℕ) → IsFirstFault MAX_NESTING bytes.now offset → length bytes.now ≤ max_size →
            answers.IsRefusedFor (LogFault.Text offset) result }
        ensures deep { (offset : ℕ) → IsFirstDeep MAX_NESTING bytes.now offset → length bytes.now ≤ max_size →
            answers.IsRefusedFor (LogFault.Deep offset) result };

    /// Admits the entries in turn, and tells whether they refute the theory.
    fn check_entries(theory: &mut Theory, entries: &[Entry]) -> Result<(), CheckFault>
        ensures ok { OnOk result (Refutes theory.old entries.now) }
        ensures fault { IfErr result (λ fault. IsCheckFault theory.old entries.now fault) }
        ensures admitted { Leaves theory.old entries.now result theory.new }
        // Each of these answers comes wherever it is true, unless memory runs out.
        ensures refuted { Refutes theory.old entries.now → IfErr result (λ fault. fault ≡ CheckFault.Memory) }
        ensures illegal { (number : ℕ) → IsFirstIllegal theory.old entries.now number →
            IsFaultedFor (CheckFault.Illegal number) result }
        ensures unrefuted { IsNotRefuted theory.old entries.now → IsFaultedFor CheckFault.NotRefuted result };
}

impl Logging for Probe {
    fn write_header<K: Sink>(sink: &mut K) -> Result<(), SinkFault> {
        write_header(sink)
    }

    fn write_entry<K: Sink>(alloc: Global, entry: &Entry, sink: &mut K) -> Result<(), SinkFault> {
        write_entry(alloc, entry, sink)
    }

    fn read_log(alloc: Global, bytes: &[u8]) -> Result<List<Entry>, LogFault> {
        read_log(alloc, bytes)
    }

    fn check_entries(theory: &mut Theory, entries: &[Entry]) -> Result<(), CheckFault> {
        check_entries(theory, entries)
    }
}

impl Logging for Control {
    fn write_header<K: Sink>(sink: &mut K) -> Result<(), SinkFault> {
        match write_header(sink) {
            Ok(()) => Ok(()),
            Err(fault) => Err(fault),
        }
    }

    fn write_entry<K: Sink>(alloc: Global, entry: &Entry, sink: &mut K) -> Result<(), SinkFault> {
        match write_entry(alloc, entry, sink) {
            Ok(()) => Ok(()),
            Err(fault) => Err(fault),
        }
    }

    fn read_log(alloc: Global, bytes: &[u8]) -> Result<List<Entry>, LogFault> {
        let all = bytes.len();
        let answer = read_log(alloc, &bytes[..all]);
        answer
    }

    fn check_entries(theory: &mut Theory, entries: &[Entry]) -> Result<(), CheckFault> {
        let all = entries.len();
        let answer = check_entries(theory, &entries[..all]);
        answer
    }
}
