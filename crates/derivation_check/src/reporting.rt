// The report on a derivation whose lines are run.
ghost use Rattle.std.specs.Prelude.{◌≡◌, ◌≤◌, length, IfOk, OnOk, IsErrOf};
ghost use Rattle.tptp_base.specs.Count.{Rose};
ghost use Rattle.tptp_base.specs.Sink.{Takes};
ghost use Rattle.derivation_check.specs.Checks as spec;
ghost use Rattle.derivation_check.specs.Report.{lines_text, report_text};

use crate::writing::{write_end, write_line};
use std::alloc::Global;
use tptp_base::{Memory, Name, Sink, SinkFault, SteadySink, Text};
use verifier::{LineAnswer, Verdict};

/// Whether all is verified.
pub fn is_verified(verdict: &Verdict) -> bool
    ensures { result ≡ spec.is_verified verdict.now }
{
    match verdict {
        Verdict::Verified(_, _, _) => true,
        Verdict::Failed(_, _, _) => false,
        Verdict::NoFalse => false,
        Verdict::BadClaim(_) => false,
    }
}

/// The whole report: what is said of the lines of these names, and the closing lines.
#[tactic(auto, using(crate::proofs::Lines::copied))]
pub fn report_of(
    alloc: Global,
    names: &[Name],
    answers: &[LineAnswer],
    verdict: &Verdict,
) -> Result<Text, Memory>
    requires { length names.now ≡ length answers.now }
    ensures { IfOk result (λ report. report ≡ report_text names.now answers.now verdict.now) }
{
    let mut report = SteadySink::new(alloc);
    match write_report(alloc, names, answers, verdict, &mut report) {
        Ok(()) => Ok(Text::from_slice(alloc, report.bytes())?),
        Err(SinkFault::Failed) => unreachable!(),
        Err(SinkFault::Memory) => Err(Memory),
    }
}

// Writes the whole report.
fn write_report<K: Sink>(
    alloc: Global,
    names: &[Name],
    answers: &[LineAnswer],
    verdict: &Verdict,
    sink: &mut K,
) -> Result<(), SinkFault>
    requires { length names.now ≡ length answers.now }
    ensures ok { OnOk result
        (Takes (K.taken sink.old) (K.taken sink.new) (report_text names.now answers.now verdict.now)) }
    ensures failed { IsErrOf result SinkFault.Failed → Rose (K.faults sink.old) (K.faults sink.new) }
    ensures more_faults { K.faults sink.old ≤ K.faults sink.new }
{
    write_lines(names, answers, sink)?;
    write_end(alloc, verdict, sink)
}

// Writes what is said of the lines.
fn write_lines<K: Sink>(
    names: &[Name],
    answers: &[LineAnswer],
    sink: &mut K,
) -> Result<(), SinkFault>
    requires { length names.now ≡ length answers.now }
    ensures ok { OnOk result (Takes (K.taken sink.old) (K.taken sink.new) (lines_text names.now answers.now)) }
    ensures failed { IsErrOf result SinkFault.Failed → Rose (K.faults sink.old) (K.faults sink.new) }
    ensures more_faults { K.faults sink.old ≤ K.faults sink.new }
{
    for (place, name) in names.iter().enumerate() {
        write_line(name, &answers[place], sink)?;
    }
    Ok(())
}
