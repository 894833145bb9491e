// The whole of a run: words, files and sinks in, a status out.
ghost use Rattle.std.specs.Prelude.{◌≡◌, ◌⊎◌, ◌≤◌, ℕ, List, None, IfOk, IfErr, IfSome};
ghost use Rattle.std.specs.declared.option.Option.{Option};
ghost use Rattle.tptp_base.specs.Count.{Rose};
ghost use Rattle.read_problems.specs.Answer.{ending_of};
ghost use Rattle.tptp_run.specs.code.Answer.{IsAnswerWithLog};
ghost use Rattle.tptp_run.specs.Complete.{MeetsNoFault};
ghost use Rattle.read_problems.specs.Ending;
ghost use Rattle.tptp_run.specs.Ends.{Ends};
ghost use Rattle.tptp_run.specs.GoodRuns.{AreGood};
ghost use Rattle.tptp_commands.specs.Made.{files, problem_name};
ghost use Rattle.tptp_run.specs.OtherFaults.{SaysOtherFault, TakesOtherFault};
ghost use Rattle.read_problems.specs.Ending.{IsAnswer};
ghost use Rattle.tptp_run.specs.Outcome.{IsOutcome, IsRefutation, SaysMissing, TakesSomeOfRunLog};
ghost use Rattle.read_problems.specs.Stop.{HasCause, IfAnswer, IfStopped};
ghost use Rattle.tptp_commands.specs.Words.{texts, Verify, Make, Request, IsForm};

use crate::make::make;
use crate::prove::prove;
use crate::verify::verify;
use read_problems::{Answer, Halt, Stop};
use std::alloc::Global;
use tptp_base::{Sink, SinkFault, Store, Text, put_all};
use tptp_commands::{Job, check, format, model, parse, read_words};

/// What is printed where the words have no form of a command.
pub const USAGE: &str = "usage: tptp [--root D] [--limit N] COMMAND\n  \
    parse FILE\n  \
    format FILE\n  \
    verify PROBLEM DERIVATION [LOG]\n  \
    check PROBLEM LOG\n  \
    make N\n  \
    prove PROBLEM\n  \
    model PROBLEM MODEL\n";

/// Runs the command that the words ask for, and answers its status: 0 where it succeeded, 1 where the derivation is not
/// verified or no proof is found, 2 where the words ask for nothing, 3 where a file is missing or a text is faulty, 4
/// where the store failed, 5 where a sink failed, 6 where memory is wanting, 7 where a limit is passed, or at a line
/// for which the symbols leave no room. All that it reads comes from the store, and all that it writes goes to the two
/// sinks.
pub fn run_tptp<S: Store, O: Sink, L: Sink>(
    alloc: Global,
    words: &[String],
    store: &mut S,
    out: &mut O,
    log: &mut L,
) -> u8
    // What the status says and the sinks have taken, where the store tells its files.
    ensures outcome { IfSome (S.files store.old) (λ files. IsOutcome files (texts words.now) result
        (O.taken out.old) (O.taken out.new) (L.taken log.old) (L.taken log.new)) }

    // The log of a success is a list of legal entries that leads from what the problem gives to falsehood.
    ensures sound { result ≡ 0
        → IfSome (S.files store.old) (λ files. (request : Request) → IsForm (texts words.now) request
        → (problem derivation : List ℕ) (named : Option (List ℕ)) → request.task ≡ Verify problem derivation named
        → IsRefutation files request.root problem (L.taken log.old) (L.taken log.new)) }

    // So is the log of a success of `make`, from what the made problem gives.
    ensures made { result ≡ 0
        → IfSome (S.files store.old) (λ _. (request : Request) → IsForm (texts words.now) request
        → (count : ℕ) → request.task ≡ Make count
        → IsRefutation (files count) None problem_name (L.taken log.old) (L.taken log.new)) }

    // An answer to a good derivation is that it is verified.
    ensures good { IsAnswer result
        → IfSome (S.files store.old) (λ files. (request : Request) → IsForm (texts words.now) request
        → (problem derivation : List ℕ) (named : Option (List ℕ)) → request.task ≡ Verify problem derivation named
        → AreGood files request.root request.limit problem derivation → result ≡ 0) }

    // An answer to a task that meets no fault in the files is that it succeeded.
    ensures complete { IsAnswer result
        → IfSome (S.files store.old) (λ files. (request : Request) → IsForm (texts words.now) request
        → MeetsNoFault files request.root request.limit request.task → result ≡ 0) }

    // A file is said to be missing only where the store answered that it is.
    ensures missing { result ≡ 3
        → IfSome (S.files store.old) (λ files. (request : Request) → IsForm (texts words.now) request
        → SaysMissing files request.root request.task → Rose (S.absents store.old) (S.absents store.new)) }

    // Over any store: an answer, or a fault of the outside in this call, or want of memory.
    ensures status { IsAnswer result ⊎ ((4 ≤ result) × (result ≤ 6)) }
    ensures absence { result ≡ 3
        → Rose (S.absents store.old) (S.absents store.new)
        ⊎ TakesOtherFault (S.files store.old) (texts words.now) (O.taken out.old) (O.taken out.new) }
    ensures store_fault { result ≡ 4 → Rose (S.faults store.old) (S.faults store.new) }
    ensures sink_fault { result ≡ 5
        → Rose (O.faults out.old) (O.faults out.new) ⊎ Rose (L.faults log.old) (L.faults log.new) }
{
    match answer_words(alloc, words, store, log) {
        Ok(answer) => match put_all(out, answer.text.as_slice()) {
            Ok(()) => answer.status,
            Err(SinkFault::Failed) => 5,
            Err(SinkFault::Memory) => 6,
        },
        Err(Stop::Store) => 4,
        Err(Stop::Sink) => 5,
        Err(Stop::Memory) => 6,
    }
}

// The answer to the words, before it is written to out. A refusal is an answer too.
fn answer_words<S: Store, L: Sink>(
    alloc: Global,
    words: &[String],
    store: &mut S,
    log: &mut L,
) -> Result<Answer, Stop>
    ensures ends { IfOk result (λ answer. IfSome (S.files store.old) (λ files.
        IsAnswerWithLog (Ends files (texts words.now)) answer (L.taken log.old) (L.taken log.new))) }
    ensures status { IfOk result (λ answer. IsAnswer answer.status) }
    ensures absence { IfOk result (λ answer. answer.status ≡ 3
        → Rose (S.absents store.old) (S.absents store.new)
        ⊎ SaysOtherFault (S.files store.old) (texts words.now) (ending_of answer)) }
    ensures cause { IfErr result (λ stop. HasCause stop
        ((L.taken log.new ≡ L.taken log.old) × Rose (S.faults store.old) (S.faults store.new))
        (Rose (L.faults log.old) (L.faults log.new))) }
    ensures log { IfSome (S.files store.old) (λ files.
        TakesSomeOfRunLog files (texts words.now) (L.taken log.old) (L.taken log.new)) }
{
    match run_words(alloc, words, store, log) {
        Ok(answer) => Ok(answer),
        Err(Halt::Refused(answer)) => Ok(answer),
        Err(Halt::Stopped(stop)) => Err(stop),
    }
}

// Does what the words ask for.
#[tactic(auto, using(crate::proofs::Absences::usage_said))]
fn run_words<S: Store, L: Sink>(
    alloc: Global,
    words: &[String],
    store: &mut S,
    log: &mut L,
) -> Result<Answer, Halt>
    ensures ends { IfAnswer result (λ answer. IfSome (S.files store.old) (λ files.
        IsAnswerWithLog (Ends files (texts words.now)) answer (L.taken log.old) (L.taken log.new))) }
    ensures status { IfAnswer result (λ answer. IsAnswer answer.status) }
    ensures absence { IfAnswer result (λ answer. answer.status ≡ 3
        → Rose (S.absents store.old) (S.absents store.new)
        ⊎ SaysOtherFault (S.files store.old) (texts words.now) (ending_of answer)) }
    ensures cause { IfStopped result (λ stop. HasCause stop
        ((L.taken log.new ≡ L.taken log.old) × Rose (S.faults store.old) (S.faults store.new))
        (Rose (L.faults log.old) (L.faults log.new))) }
    ensures log { IfSome (S.files store.old) (λ files.
        TakesSomeOfRunLog files (texts words.now) (L.taken log.old) (L.taken log.new)) }
{
    let Some(command) = read_words(words) else {
        return usage(alloc);
    };
    match command.job {
        Job::Verify(problem, derivation, _) => {
            let limit = command.limit;
            verify(alloc, store, log, command.root, problem, derivation, limit)
        }
        Job::Format(file) => format(alloc, store, file),
        Job::Parse(file) => parse(alloc, store, command.root, file),
        Job::Check(problem, log) => check(alloc, store, command.root, problem, log),
        Job::Make(count) => make(alloc, log, count, command.limit),
        Job::Prove(problem) => prove(alloc, store, command.root, problem, command.limit),
        Job::Model(problem, file) => model(alloc, store, command.root, problem, file),
    }
}

// The usage text.
fn usage(alloc: Global) -> Result<Answer, Halt>
    ensures answer { IfAnswer result (λ answer. ending_of answer ≡ Ending.says 2 USAGE.now) }
    ensures cause { IfStopped result (λ stop. HasCause stop ⊥ ⊥) }
{
    Ok(Answer {
        status: 2,
        text: Text::from_slice(alloc, USAGE.as_bytes())?,
    })
}
