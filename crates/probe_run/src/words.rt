// What the words of the command line ask for.
ghost use Rattle.std.specs.Prelude.{◌≡◌, IfSome, IfNone, None};
ghost use Rattle.std.specs.Option.{option_copied};
ghost use Rattle.tptp_commands.specs.LogName as spec;
ghost use Rattle.tptp_commands.specs.Words.{texts, request_of, Request, IsForm, HaveNoForm};

use crate::{Control, Probe};
use tptp_commands::{Command, Job, log_name, read_words};

/// Reads words.
pub trait Asking {
    /// What the words behind the program's name ask for.
    fn read_words(words: &[String]) -> Option<Command<'_>>
        ensures some { IfSome result (λ command. IsForm (texts words.now) (request_of command)) }
        ensures none { IfNone result (HaveNoForm (texts words.now)) };

    /// The name of the log, if the words ask for one.
    fn log_name(words: &[String]) -> Option<&str>
        ensures asked { (request : Request) → IsForm (texts words.now) request
            → option_copied result ≡ spec.log_of request.task }
        ensures nothing { HaveNoForm (texts words.now) → result ≡ None };
}

impl Asking for Probe {
    fn read_words(words: &[String]) -> Option<Command<'_>> {
        read_words(words)
    }

    fn log_name(words: &[String]) -> Option<&str> {
        log_name(words)
    }
}

impl Asking for Control {
    fn read_words(words: &[String]) -> Option<Command<'_>> {
        let Command { root, limit, job } = read_words(words)?;
        let job = match job {
            Job::Verify(problem, derivation, log) => Job::Verify(problem, derivation, log),
            Job::Format(file) => Job::Format(file),
            Job::Parse(file) => Job::Parse(file),
            Job::Check(problem, log) => Job::Check(problem, log),
            Job::Make(count) => Job::Make(count),
            Job::Prove(problem) => Job::Prove(problem),
            Job::Model(problem, model) => Job::Model(problem, model),
        };
        Some(Command { root, limit, job })
    }

    #[tactic(auto, using(tptp_commands::proofs::Requests::one_task))]
    fn log_name(words: &[String]) -> Option<&str> {
        match read_words(words) {
            Some(
                Command {
                    job: Job::Verify(_, _, log),
                    ..
                },
            ) => log,
            Some(_) | None => log_name(words),
        }
    }
}
