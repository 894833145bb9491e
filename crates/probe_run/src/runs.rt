// A whole run.
ghost use Rattle.std.specs.Prelude.{◌≡◌, ◌⊎◌, ◌≤◌, ℕ, List, None, IfSome};
ghost use Rattle.std.specs.declared.option.Option.{Option};
ghost use Rattle.tptp_base.specs.Count.{Rose};
ghost use Rattle.read_problems.specs.Ending.{IsAnswer};
ghost use Rattle.tptp_commands.specs.Made.{files, problem_name};
ghost use Rattle.tptp_commands.specs.Words.{texts, Verify, Make, Request, IsForm};
ghost use Rattle.tptp_run.specs.Complete.{MeetsNoFault};
ghost use Rattle.tptp_run.specs.GoodRuns.{AreGood};
ghost use Rattle.tptp_run.specs.OtherFaults.{TakesOtherFault};
ghost use Rattle.tptp_run.specs.Outcome.{IsOutcome, IsRefutation, SaysMissing};

use crate::{Control, Probe};
use std::alloc::Global;
use tptp_base::{Sink, Store};
use tptp_run::run_tptp;

/// Runs commands.
pub trait Commanding {
    /// Runs the command that the words ask for, and answers its status.
    fn run_tptp<S: Store, O: Sink, L: Sink>(
        alloc: Global,
        words: &[String],
        store: &mut S,
        out: &mut O,
        log: &mut L,
    ) -> u8
        // What the status says and the sinks have taken, where the store tells its files.
        ensures outcome { IfSome (S.files store.old) (λ files. IsOutcome files (texts words.now) result
            (O.taken out.old) (O.taken out.new) (L.taken log.old) (L.taken log.new)) }

        // The log of a success is a list of legal entries that leads from what the problem gives to falsehood.
        ensures sound { result ≡ 0
            → IfSome (S.files store.old) (λ files. (request : Request) → IsForm (texts words.now) request
            → (problem derivation : List ℕ) (named : Option (List ℕ)) → request.task ≡ Verify problem derivation named
            → IsRefutation files request.root problem (L.taken log.old) (L.taken log.new)) }

        // So is the log of a success of `make`, from what the made problem gives.
        ensures made { result ≡ 0
            → IfSome (S.files store.old) (λ _. (request : Request) → IsForm (texts words.now) request
            → (count : ℕ) → request.task ≡ Make count
            → IsRefutation (files count) None problem_name (L.taken log.old) (L.taken log.new)) }

        // An answer to a good derivation is that it is verified.
        ensures good { IsAnswer result
            → IfSome (S.files store.old) (λ files. (request : Request) → IsForm (texts words.now) request
            → (problem derivation : List ℕ) (named : Option (List ℕ)) → request.task ≡ Verify problem derivation named
            → AreGood files request.root request.limit problem derivation → result ≡ 0) }

        // An answer to a task that meets no fault in the files is that it succeeded.
        ensures complete { IsAnswer result
            → IfSome (S.files store.old) (λ files. (request : Request) → IsForm (texts words.now) request
            → MeetsNoFault files request.root request.limit request.task → result ≡ 0) }

        // A file is said to be missing only where the store answered that it is.
        ensures missing { result ≡ 3
            → IfSome (S.files store.old) (λ files. (request : Request) → IsForm (texts words.now) request
            → SaysMissing files request.root request.task → Rose (S.absents store.old) (S.absents store.new)) }

        // Over any store: an answer, or a fault of the outside in this call, or want of memory.
        ensures status { IsAnswer result ⊎ ((4 ≤ result) × (result ≤ 6)) }
        ensures absence { result ≡ 3
            → Rose (S.absents store.old) (S.absents store.new)
            ⊎ TakesOtherFault (S.files store.old) (texts words.now) (O.taken out.old) (O.taken out.new) }
        ensures store_fault { result ≡ 4 → Rose (S.faults store.old) (S.faults store.new) }
        ensures sink_fault { result ≡ 5
            → Rose (O.faults out.old) (O.faults out.new) ⊎ Rose (L.faults log.old) (L.faults log.new) };
}

impl Commanding for Probe {
    fn run_tptp<S: Store, O: Sink, L: Sink>(
        alloc: Global,
        words: &[String],
        store: &mut S,
        out: &mut O,
        log: &mut L,
    ) -> u8 {
        run_tptp(alloc, words, store, out, log)
    }
}

impl Commanding for Control {
    fn run_tptp<S: Store, O: Sink, L: Sink>(
        alloc: Global,
        words: &[String],
        store: &mut S,
        out: &mut O,
        log: &mut L,
    ) -> u8 {
        match run_tptp(alloc, words, store, out, log) {
            6 => 6,
            status => status,
        }
    }
}
