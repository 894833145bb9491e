// The lines of a report.
ghost use Rattle.std.specs.Prelude.{◌≡◌, ◌≤◌, IsErrOf, OnErr, OnOk};
ghost use Rattle.tptp_base.specs.Count.{Rose};
ghost use Rattle.tptp_base.specs.Sink.{Takes, TakesPrefix};
ghost use Rattle.derivation_check.specs.Report.{line_text, verdict_text};

use crate::{Control, Probe};
use derivation_check::{write_end, write_line};
use std::alloc::Global;
use tptp_base::{Name, Sink, SinkFault};
use verifier::{LineAnswer, Verdict};

/// Writes what is said of derivations.
pub trait Reporting {
    /// Writes what is said of a line, `NAME ok RULE`, `NAME unverified REASON` or `NAME skipped`; on a refusal
    /// a prefix of it.
    fn write_line<K: Sink>(name: &Name, answer: &LineAnswer, sink: &mut K) -> Result<(), SinkFault>
        ensures ok { OnOk result (Takes (K.taken sink.old) (K.taken sink.new) (line_text name.now answer.now)) }
        ensures err { OnErr result (TakesPrefix (K.taken sink.old) (K.taken sink.new) (line_text name.now answer.now)) }
        ensures failed { IsErrOf result SinkFault.Failed → Rose (K.faults sink.old) (K.faults sink.new) }
        ensures more_faults { K.faults sink.old ≤ K.faults sink.new };

    /// Writes the closing lines of a report; on a refusal a prefix of them.
    fn write_end<K: Sink>(alloc: Global, end: &Verdict, sink: &mut K) -> Result<(), SinkFault>
        ensures ok { OnOk result (Takes (K.taken sink.old) (K.taken sink.new) (verdict_text end.now)) }
        ensures err { OnErr result (TakesPrefix (K.taken sink.old) (K.taken sink.new) (verdict_text end.now)) }
        ensures failed { IsErrOf result SinkFault.Failed → Rose (K.faults sink.old) (K.faults sink.new) }
        ensures more_faults { K.faults sink.old ≤ K.faults sink.new };
}

impl Reporting for Probe {
    fn write_line<K: Sink>(
        name: &Name,
        answer: &LineAnswer,
        sink: &mut K,
    ) -> Result<(), SinkFault> {
        write_line(name, answer, sink)
    }

    fn write_end<K: Sink>(alloc: Global, end: &Verdict, sink: &mut K) -> Result<(), SinkFault> {
        write_end(alloc, end, sink)
    }
}

impl Reporting for Control {
    fn write_line<K: Sink>(
        name: &Name,
        answer: &LineAnswer,
        sink: &mut K,
    ) -> Result<(), SinkFault> {
        match write_line(name, answer, sink) {
            Ok(()) => Ok(()),
            Err(fault) => Err(fault),
        }
    }

    fn write_end<K: Sink>(alloc: Global, end: &Verdict, sink: &mut K) -> Result<(), SinkFault> {
        match write_end(alloc, end, sink) {
            Ok(()) => Ok(()),
            Err(fault) => Err(fault),
        }
    }
}
