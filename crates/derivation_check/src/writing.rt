// The lines of a report are written.
ghost use Rattle.std.specs.Prelude.{◌≡◌, ◌≤◌, ◌++◌, OnOk, OnErr, IsErrOf};
ghost use Rattle.tptp_base.specs.Count.{Rose};
ghost use Rattle.tptp_base.specs.Sink.{Takes, TakesPrefix};
ghost use Rattle.derivation_check.specs.Report.{answer_text, line_text, verdict_text};

use crate::ending_text::end_of;
use crate::names::{reason_name, rule_name};
use canon_print::write_name;
use std::alloc::Global;
use tptp_base::{Name, Sink, SinkFault, put_all};
use verifier::{LineAnswer, Verdict};

/// Writes what is said of a line, `NAME ok RULE`, `NAME unverified REASON` or `NAME skipped`; on a refusal a prefix
/// of it.
pub fn write_line<K: Sink>(name: &Name, answer: &LineAnswer, sink: &mut K) -> Result<(), SinkFault>
    ensures ok { OnOk result (Takes (K.taken sink.old) (K.taken sink.new) (line_text name.now answer.now)) }
    ensures err { OnErr result (TakesPrefix (K.taken sink.old) (K.taken sink.new) (line_text name.now answer.now)) }
    ensures failed { IsErrOf result SinkFault.Failed → Rose (K.faults sink.old) (K.faults sink.new) }
    ensures more_faults { K.faults sink.old ≤ K.faults sink.new }
{
    write_name(name, sink)?;
    put_all(sink, b" ")?;
    write_answer(answer, sink)?;
    put_all(sink, b"\n")
}

/// Writes the closing lines of a report; on a refusal a prefix of them. The text is made first, and written in one
/// piece.
pub fn write_end<K: Sink>(alloc: Global, end: &Verdict, sink: &mut K) -> Result<(), SinkFault>
    ensures ok { OnOk result (Takes (K.taken sink.old) (K.taken sink.new) (verdict_text end.now)) }
    ensures err { OnErr result (TakesPrefix (K.taken sink.old) (K.taken sink.new) (verdict_text end.now)) }
    ensures failed { IsErrOf result SinkFault.Failed → Rose (K.faults sink.old) (K.faults sink.new) }
    ensures more_faults { K.faults sink.old ≤ K.faults sink.new }
{
    match end_of(alloc, end) {
        Ok(lines) => put_all(sink, &lines),
        Err(_) => Err(SinkFault::Memory),
    }
}

// Writes an answer; on a refusal a prefix of it.
fn write_answer<K: Sink>(answer: &LineAnswer, sink: &mut K) -> Result<(), SinkFault>
    ensures ok { OnOk result (Takes (K.taken sink.old) (K.taken sink.new) (answer_text answer.now)) }
    ensures err { OnErr result (TakesPrefix (K.taken sink.old) (K.taken sink.new) (answer_text answer.now)) }
    ensures failed { IsErrOf result SinkFault.Failed → Rose (K.faults sink.old) (K.faults sink.new) }
    ensures more_faults { K.faults sink.old ≤ K.faults sink.new }
{
    match answer {
        LineAnswer::Accepted { rule, .. } => write_both(b"ok ", rule_name(*rule), sink),
        LineAnswer::Unverified(reason) => write_both(b"unverified ", reason_name(*reason), sink),
        LineAnswer::Skipped => put_all(sink, b"skipped"),
    }
}

// Writes two texts, one behind the other; on a refusal a prefix of them.
fn write_both<K: Sink>(first: &[u8], second: &[u8], sink: &mut K) -> Result<(), SinkFault>
    ensures ok { OnOk result (Takes (K.taken sink.old) (K.taken sink.new) (first.now ++ second.now)) }
    ensures err { OnErr result (TakesPrefix (K.taken sink.old) (K.taken sink.new) (first.now ++ second.now)) }
    ensures failed { IsErrOf result SinkFault.Failed → Rose (K.faults sink.old) (K.faults sink.new) }
    ensures more_faults { K.faults sink.old ≤ K.faults sink.new }
{
    put_all(sink, first)?;
    put_all(sink, second)
}
