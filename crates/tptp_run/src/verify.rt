// The command `verify`.
ghost use Rattle.std.specs.Prelude.{◌≡◌, ◌⊎◌, ◌≤◌, ◌<◌, ◌-◌, ◌^◌, IfOk, IfErr, IfSome, length};
ghost use Rattle.std.specs.List.{All};
ghost use Rattle.std.specs.Option.{option_copied};
ghost use Rattle.tptp_base.specs.Count.{Rose};
ghost use Rattle.sort_check.specs.Sorting.{AreDeclared, Extends, IsSentence};
ghost use Rattle.tstp_graph.specs.Graphs.{IsOrdered};
ghost use Rattle.derivation_check.specs.Cases.{asked_of};
ghost use Rattle.derivation_check.specs.Logs.{TakesSomeOfLog};
ghost use Rattle.read_problems.specs.Answer.{ending_of};
ghost use Rattle.tptp_run.specs.code.Answer.{IsAnswerWithLog};
ghost use Rattle.tptp_commands.specs.Derived.{IsDerivationRefusal};
ghost use Rattle.read_problems.specs.Ending.{AfterFile, IsAnswer};
ghost use Rattle.tptp_commands.specs.OtherFaults.{SaysDerivedFault, SaysLinesFault};
ghost use Rattle.read_problems.specs.OtherFaults.{SaysProblemFault};
ghost use Rattle.tptp_run.specs.Outcome.{TakesSomeOfProblemLog};
ghost use Rattle.tptp_run.specs.code.Rooms.{SaysLacking};
ghost use Rattle.read_problems.specs.Stop.{HasCause, IfAnswer, IfStopped};
ghost use Rattle.tptp_run.specs.Verifying.{EndsRun, EndsVerify, SaysDerivation, status_of};

use derivation_check::{Asked, Report, check_derivation};
use derivation_text::Derivation;
use fof_terms::Signature;
use proof_check::Theory;
use read_problems::{Answer, Halt, Source, Stop, TOTAL_SIZE, read_source, read_text, say_of_line};
use sort_check::SortRule;
use std::alloc::Global;
use tptp_base::{FILE_SIZE, LimitName, Sink, Store};
use tptp_commands::read_derived;
use verifier::RunFault;

/// Checks a derivation against a problem, with all that it includes, both read from the store, and writes the log. A
/// search for a line keeps so many clauses at most.
pub fn verify<S: Store, L: Sink>(
    alloc: Global,
    store: &mut S,
    log: &mut L,
    root: Option<&str>,
    problem: &str,
    derivation: &str,
    limit: u32,
) -> Result<Answer, Halt>
    ensures ends { IfAnswer result (λ answer.
        IfSome (S.files store.old) (λ files.
        IsAnswerWithLog (EndsVerify files (option_copied root.entry) limit problem.now derivation.now) answer
        (L.taken log.old) (L.taken log.new))) }
    ensures absence { IfAnswer result (λ answer. answer.status ≡ 3
        → Rose (S.absents store.old) (S.absents store.new)
        ⊎ (SaysProblemFault (S.files store.old) (option_copied root.entry) problem.now (ending_of answer)
        ⊎ SaysDerivedFault (S.files store.old) (option_copied root.entry) problem.now derivation.now
        (ending_of answer))) }
    ensures status { IfAnswer result (λ answer. IsAnswer answer.status) }
    ensures cause { IfStopped result (λ stop. HasCause stop
        ((L.taken log.new ≡ L.taken log.old) × Rose (S.faults store.old) (S.faults store.new))
        (Rose (L.faults log.old) (L.faults log.new))) }
    ensures log { IfSome (S.files store.old) (λ files.
        TakesSomeOfProblemLog files (option_copied root.entry) problem.now (L.taken log.old) (L.taken log.new)) }
{
    match read_source(alloc, store, root, problem) {
        Ok(source) => {
            let mut source = source;
            verify_file(alloc, store, log, &mut source, problem, derivation, limit)
        }
        Err(halt) => Err(halt),
    }
}

// Checks the derivation in a file.
fn verify_file<S: Store, L: Sink>(
    alloc: Global,
    store: &mut S,
    log: &mut L,
    source: &mut Source,
    problem: &str,
    file: &str,
    limit: u32,
) -> Result<Answer, Halt>
    requires budget { source.old.read ≤ TOTAL_SIZE }
    requires few { length source.old.names < 2 ^ 32 }
    requires same { source.old.theory.vocabulary ≡ source.old.signature }
    requires sentences { All (IsSentence source.old.signature) source.old.theory.formulas }
    requires declared { AreDeclared source.old.signature }
    ensures ends { IfAnswer result (λ answer. IfSome (S.files store.old) (λ files. IsAnswerWithLog
        (AfterFile files file.now (TOTAL_SIZE - source.old.read)
        (SaysDerivation problem.now file.now limit source.old.theory source.old.names source.old.marks
        source.old.has_conjecture))
        answer (L.taken log.old) (L.taken log.new))) }
    ensures status { IfAnswer result (λ answer. IsAnswer answer.status) }
    ensures absence { IfAnswer result (λ answer. answer.status ≡ 3
        → Rose (S.absents store.old) (S.absents store.new)
        ⊎ SaysLinesFault (S.files store.old) file.now source.old.names source.old.signature (ending_of answer)) }
    ensures cause { IfStopped result (λ stop. HasCause stop
        ((L.taken log.new ≡ L.taken log.old) × Rose (S.faults store.old) (S.faults store.new))
        (Rose (L.faults log.old) (L.faults log.new))) }
    ensures log { TakesSomeOfLog source.old.theory (L.taken log.old) (L.taken log.new) }
{
    match read_text(alloc, store, file, TOTAL_SIZE - source.read) {
        Ok(text) => verify_text(alloc, log, source, problem, file, text.as_slice(), limit),
        Err(halt) => Err(halt),
    }
}

// Checks the derivation that a text is.
#[tactic(auto, using(crate::proofs::Absences::report_said))]
fn verify_text<L: Sink>(
    alloc: Global,
    log: &mut L,
    source: &mut Source,
    problem: &str,
    file: &str,
    text: &[u8],
    limit: u32,
) -> Result<Answer, Halt>
    requires bytes { length text.now ≤ FILE_SIZE }
    requires few { length source.old.names < 2 ^ 32 }
    requires same { source.old.theory.vocabulary ≡ source.old.signature }
    requires sentences { All (IsSentence source.old.signature) source.old.theory.formulas }
    requires declared { AreDeclared source.old.signature }
    ensures ends { IfAnswer result (λ answer. IsAnswerWithLog
        (SaysDerivation problem.now file.now limit source.old.theory source.old.names source.old.marks
        source.old.has_conjecture text.now)
        answer (L.taken log.old) (L.taken log.new)) }
    ensures status { IfAnswer result (λ answer. IsAnswer answer.status) }
    ensures refused { IfAnswer result (λ answer. answer.status ≡ 3
        → IsDerivationRefusal file.now text.now source.old.names source.old.signature (ending_of answer)) }
    ensures cause { IfStopped result (λ stop. HasCause stop ⊥ (Rose (L.faults log.old) (L.faults log.new))) }
    ensures log { TakesSomeOfLog source.old.theory (L.taken log.old) (L.taken log.new) }
{
    // A signature has sorts, as the count tells.
    let _sorts = source.signature.sort_count();
    match read_derived(
        alloc,
        file,
        text,
        source.names.as_slice(),
        &mut source.signature,
    ) {
        Ok(derivation) => {
            let asked = Asked {
                problem: problem.as_bytes(),
                output: text,
                marks: source.marks.as_slice(),
                has_conjecture: source.has_conjecture,
                limit,
            };
            let signature = &source.signature;
            let theory = &mut source.theory;
            let answer = answer_on(alloc, log, file, &asked, &derivation, signature, theory)?;
            Ok(answer)
        }
        Err(halt) => Err(halt),
    }
}

// What is answered of the derivation in a file. The signature is that of the theory, with what the derivation brings.
fn answer_on<L: Sink>(
    alloc: Global,
    log: &mut L,
    file: &str,
    asked: &Asked<'_>,
    derivation: &Derivation,
    signature: &Signature,
    theory: &mut Theory,
) -> Result<Answer, Stop>
    requires extends { Extends theory.old.vocabulary signature.now }
    requires declared { AreDeclared signature.now }
    requires each_form { length derivation.now.forms ≡ length derivation.now.graph.nodes }
    requires each_name { length derivation.now.names ≡ length derivation.now.graph.nodes }
    requires each_place { length derivation.now.places ≡ length derivation.now.graph.nodes }
    requires ordered { IsOrdered derivation.now.graph.nodes derivation.now.graph }
    requires given { All (IsSentence theory.old.vocabulary) theory.old.formulas }
    requires lines { All (IsSentence signature.now) derivation.now.forms }
    ensures ends { IfOk result (λ answer. IsAnswerWithLog
        (EndsRun (asked_of asked.now) file.now theory.old derivation.now signature.now)
        answer (L.taken log.old) (L.taken log.new)) }
    ensures status { IfOk result (λ answer. (answer.status ≤ 1) ⊎ (answer.status ≡ 7)) }
    ensures log { TakesSomeOfLog theory.old (L.taken log.old) (L.taken log.new) }
    ensures cause { IfErr result (λ stop. HasCause stop ⊥ (Rose (L.faults log.old) (L.faults log.new))) }
{
    match check_derivation(alloc, asked, derivation, signature, theory, log) {
        Ok(report) => Ok(answer_of(report)),
        Err(RunFault::Room(place)) => say_room(alloc, file, derivation, place),
        Err(RunFault::Sink) => Err(Stop::Sink),
        Err(RunFault::Memory) => Err(Stop::Memory),
    }
}

// What is said of the line at this place of the derivation, for which there is no room.
fn say_room(
    alloc: Global,
    file: &str,
    derivation: &Derivation,
    place: usize,
) -> Result<Answer, Stop>
    requires each_name { length derivation.now.names ≡ length derivation.now.graph.nodes }
    requires each_place { length derivation.now.places ≡ length derivation.now.graph.nodes }
    requires within { place < length derivation.now.graph.nodes }
    ensures said { IfOk result (λ answer.
        SaysLacking file.now derivation.now.names derivation.now.places place (ending_of answer)) }
    ensures status { IfOk result (λ answer. answer.status ≡ 7) }
    ensures cause { IfErr result (λ stop. HasCause stop ⊥ ⊥) }
{
    let rule = SortRule::Limit(LimitName::Symbols);
    let names = derivation.names.as_slice();
    let places = derivation.places.as_slice();
    say_of_line(alloc, file.as_bytes(), rule, places[place], &names[place])
}

// The status and the text that go with a report.
fn answer_of(report: Report) -> Answer
    ensures status { result.status ≡ status_of report.verified }
    ensures text { result.text ≡ report.text }
{
    Answer {
        status: if report.verified { 0 } else { 1 },
        text: report.text,
    }
}
