// The report on a text that the program has made itself.
ghost use Rattle.std.specs.Prelude.{◌≡◌, ◌≤◌, ◌<◌, ◌^◌, IfOk, IfErr, length, true};
ghost use Rattle.std.specs.List.{All};
ghost use Rattle.tptp_base.specs.Count.{Rose};
ghost use Rattle.tptp_base.specs.declared.read.TheConstants.{FILE_SIZE as file_size};
ghost use Rattle.sort_check.specs.Sorting.{AreDeclared, IsSentence};
ghost use Rattle.derivation_check.specs.Logs.{TakesSomeOfLog};
ghost use Rattle.tptp_run.specs.Proving.{IsVerified};
ghost use Rattle.tptp_run.specs.code.Making.{IsReportOn};
ghost use Rattle.tptp_run.specs.code.Printing.{HasNoReport};
ghost use Rattle.read_problems.specs.Stop.{HasCause};

use derivation_check::{Asked, Report, check_derivation};
use read_problems::{Halt, Source, Stop};
use std::alloc::Global;
use tptp_base::Sink;
use tptp_commands::read_derived;
use verifier::RunFault;

/// Why there is no report.
#[derive(Clone, Copy)]
pub(crate) enum NoReport {
    /// The text is no derivation from what the problem gives.
    Text,
    /// There is no room for a line of the derivation.
    Room,
    /// The log failed.
    Sink,
    Memory,
}

/// The report of a check of a derivation from what the problem gives, which is made as `verify` makes it. Where the
/// text is no derivation, or has a line for which there is no room, it gives up as it does without memory.
pub(crate) fn report_on<L: Sink>(
    alloc: Global,
    log: &mut L,
    source: &mut Source,
    problem: &str,
    text: &[u8],
    limit: u32,
) -> Result<Report, Stop>
    requires bytes { length text.now ≤ file_size }
    requires few { length source.old.names < 2 ^ 32 }
    requires same { source.old.theory.vocabulary ≡ source.old.signature }
    requires sentences { All (IsSentence source.old.signature) source.old.theory.formulas }
    requires declared { AreDeclared source.old.signature }
    ensures report { IfOk result (λ report. IsReportOn problem.now text.now limit source.old.theory source.old.names
        source.old.signature source.old.marks source.old.has_conjecture report (L.taken log.old) (L.taken log.new)) }
    ensures log { TakesSomeOfLog source.old.theory (L.taken log.old) (L.taken log.new) }
    ensures cause { IfErr result (λ stop. HasCause stop ⊥ (Rose (L.faults log.old) (L.faults log.new))) }
{
    match check_text(alloc, log, source, problem, text, limit) {
        Ok(report) => Ok(report),
        Err(NoReport::Sink) => Err(Stop::Sink),
        Err(NoReport::Text) | Err(NoReport::Room) | Err(NoReport::Memory) => Err(Stop::Memory),
    }
}

/// The same report, or why there is none.
pub(crate) fn check_text<L: Sink>(
    alloc: Global,
    log: &mut L,
    source: &mut Source,
    problem: &str,
    text: &[u8],
    limit: u32,
) -> Result<Report, NoReport>
    requires bytes { length text.now ≤ file_size }
    requires few { length source.old.names < 2 ^ 32 }
    requires same { source.old.theory.vocabulary ≡ source.old.signature }
    requires sentences { All (IsSentence source.old.signature) source.old.theory.formulas }
    requires declared { AreDeclared source.old.signature }
    ensures report { IfOk result (λ report. IsReportOn problem.now text.now limit source.old.theory source.old.names
        source.old.signature source.old.marks source.old.has_conjecture report (L.taken log.old) (L.taken log.new)) }
    ensures verified { IfOk result (λ report. report.verified ≡ true → IsVerified problem.now limit source.old.theory
        source.old.names source.old.marks source.old.has_conjecture text.now) }
    ensures log { TakesSomeOfLog source.old.theory (L.taken log.old) (L.taken log.new) }
    ensures none { IfErr result (HasNoReport problem.now text.now limit source.old.theory source.old.names
        source.old.signature source.old.marks source.old.has_conjecture (Rose (L.faults log.old) (L.faults log.new))) }
{
    // A signature has sorts, as the count tells.
    let _sorts = source.signature.sort_count();
    let names = source.names.as_slice();
    match read_derived(alloc, problem, text, names, &mut source.signature) {
        Ok(derivation) => {
            let asked = Asked {
                problem: problem.as_bytes(),
                output: text,
                marks: source.marks.as_slice(),
                has_conjecture: source.has_conjecture,
                limit,
            };
            let signature = &source.signature;
            let theory = &mut source.theory;
            match check_derivation(alloc, &asked, &derivation, signature, theory, log) {
                Ok(report) => Ok(report),
                Err(RunFault::Room(_)) => Err(NoReport::Room),
                Err(RunFault::Sink) => Err(NoReport::Sink),
                Err(RunFault::Memory) => Err(NoReport::Memory),
            }
        }
        Err(Halt::Refused(_)) => Err(NoReport::Text),
        Err(Halt::Stopped(_)) => Err(NoReport::Memory),
    }
}
