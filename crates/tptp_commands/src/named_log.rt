// The name of the log that a run is to write.
ghost use Rattle.std.specs.Prelude.{◌≡◌, None};
ghost use Rattle.std.specs.Option.{option_copied};
ghost use Rattle.tptp_commands.specs.LogName as spec;
ghost use Rattle.tptp_commands.specs.Words.{texts, task_of, Request, IsForm, HaveNoForm};

use crate::words::{Job, read_words};

/// The name of the log, if the words ask for one.
#[tactic(auto, using(crate::proofs::Requests::one_task))]
pub fn log_name(words: &[String]) -> Option<&str>
    ensures asked { (request : Request) → IsForm (texts words.now) request
        → option_copied result ≡ spec.log_of request.task }
    ensures nothing { HaveNoForm (texts words.now) → result ≡ None }
{
    match read_words(words) {
        Some(command) => log_of(command.job),
        None => None,
    }
}

// The name of the log that is to be written, if the job names one.
fn log_of(job: Job<'_>) -> Option<&str>
    ensures { option_copied result ≡ spec.log_of (task_of job.entry) }
{
    match job {
        Job::Verify(_, _, log) => log,
        Job::Format(_) | Job::Parse(_) | Job::Prove(_) => None,
        Job::Check(_, _) | Job::Make(_) | Job::Model(_, _) => None,
    }
}
