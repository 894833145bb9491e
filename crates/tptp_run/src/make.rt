// The command `make`.
ghost use Rattle.std.specs.Prelude.{◌≡◌, ◌<◌, ◌^◌, IsTrue, IfOk, Some, None, length};
ghost use Rattle.std.specs.List.{All};
ghost use Rattle.tptp_base.specs.Count.{Rose};
ghost use Rattle.sort_check.specs.Sorting.{AreDeclared, IsSentence};
ghost use Rattle.derivation_check.specs.Logs.{TakesSomeOfLog};
ghost use Rattle.tptp_run.specs.code.Answer.{IsAnswerWithLog};
ghost use Rattle.tptp_run.specs.code.Making.{IsWhole};
ghost use Rattle.read_problems.specs.Sources.{IsSource};
ghost use Rattle.read_problems.specs.Stop.{HasCause, IfAnswer, IfStopped};
ghost use Rattle.tptp_commands.specs.Made as spec;
ghost use Rattle.tptp_run.specs.Making.{EndsMake};
ghost use Rattle.tptp_run.specs.Outcome.{TakesSomeOfProblemLog};
ghost use Rattle.tptp_commands.specs.Words.{IsLimit};

use crate::report::report_on;
use derivation_check::Report;
use read_problems::{Answer, Halt, Source, Stop, read_source};
use std::alloc::Global;
use tptp_base::{FILE_SIZE, List, Memory, Sink, SteadyStore, Text};
use tptp_commands::{derivation_text, problem_text, say_made};

/// Makes a problem of so many implications and its refutation, verifies it as `verify` does, writes the log, and says
/// how many lines it has. Where all is not verified as it should be, the run gives up as it does without memory.
pub fn make<L: Sink>(alloc: Global, log: &mut L, count: u32, limit: u32) -> Result<Answer, Halt>
    requires { IsLimit count }
    ensures ends { IfAnswer result (λ answer.
        IsAnswerWithLog (EndsMake count limit) answer (L.taken log.old) (L.taken log.new)) }
    ensures status { IfAnswer result (λ answer. answer.status ≡ 0) }
    ensures cause { IfStopped result (λ stop. HasCause stop ⊥ (Rose (L.faults log.old) (L.faults log.new))) }
    ensures log { TakesSomeOfProblemLog (spec.files count) None spec.problem_name (L.taken log.old) (L.taken log.new) }
{
    match made_source(alloc, count) {
        Ok(source) => {
            let mut source = source;
            make_from(alloc, log, &mut source, count, limit)
        }
        Err(Memory) => Err(Halt::Stopped(Stop::Memory)),
    }
}

// What the made problem gives.
fn made_source(alloc: Global, count: u32) -> Result<Source, Memory>
    requires { IsLimit count }
    ensures is { IfOk result (λ source. IsSource (Some (spec.files count)) None spec.problem_name source) }
    ensures few { IfOk result (λ source. length source.names < 2 ^ 32) }
    ensures sentences { IfOk result (λ source. All (IsSentence source.signature) source.theory.formulas) }
    ensures declared { IfOk result (λ source. AreDeclared source.signature) }
{
    let files = made_files(alloc, count)?;
    let mut store = SteadyStore::new(alloc, files)?;
    match read_source(alloc, &mut store, None, "make.p") {
        Ok(source) => Ok(source),
        Err(_) => Err(Memory),
    }
}

// The file of the made problem.
fn made_files(alloc: Global, count: u32) -> Result<List<(Text, Text)>, Memory>
    requires { IsLimit count }
    ensures { IfOk result (λ files. files ≡ spec.files count) }
{
    let name = Text::from_slice(alloc, b"make.p")?;
    let text = Text::from_vec(problem_text(alloc, count)?);
    let mut files = List::new(alloc);
    files.push((name, text))?;
    Ok(files)
}

// What is said of the made derivation from what the made problem gives.
fn make_from<L: Sink>(
    alloc: Global,
    log: &mut L,
    source: &mut Source,
    count: u32,
    limit: u32,
) -> Result<Answer, Halt>
    requires count { IsLimit count }
    requires is { IsSource (Some (spec.files count)) None spec.problem_name source.old }
    requires few { length source.old.names < 2 ^ 32 }
    requires same { source.old.theory.vocabulary ≡ source.old.signature }
    requires sentences { All (IsSentence source.old.signature) source.old.theory.formulas }
    requires declared { AreDeclared source.old.signature }
    ensures ends { IfAnswer result (λ answer.
        IsAnswerWithLog (EndsMake count limit) answer (L.taken log.old) (L.taken log.new)) }
    ensures status { IfAnswer result (λ answer. answer.status ≡ 0) }
    ensures cause { IfStopped result (λ stop. HasCause stop ⊥ (Rose (L.faults log.old) (L.faults log.new))) }
    ensures log { TakesSomeOfLog source.old.theory (L.taken log.old) (L.taken log.new) }
{
    let text = derivation_text(alloc, count)?;
    if text.len() as u64 > FILE_SIZE {
        return Err(Halt::Stopped(Stop::Memory));
    }
    let report = report_on(alloc, log, source, "make.p", &text, limit)?;
    if !is_whole(&report, count) {
        return Err(Halt::Stopped(Stop::Memory));
    }
    Ok(say_made(alloc, count)?)
}

// Whether the report says that all lines are verified, and how.
fn is_whole(report: &Report, count: u32) -> bool
    requires { IsLimit count }
    ensures { IsTrue result → IsWhole report.now count }
{
    let count = count as usize;
    report.verified
        && report.lines == 2 * count + 3
        && report.norms == count + 2
        && report.resolutions == count + 1
}
