// The command `check`.
ghost use Rattle.std.specs.Prelude.{◌≡◌, ◌⊎◌, ◌≤◌, ◌-◌, IfOk, IfErr, IfSome, length};
ghost use Rattle.std.specs.Option.{option_copied};
ghost use Rattle.tptp_base.specs.Count.{Rose};
ghost use Rattle.read_problems.specs.Answer.{ending_of};
ghost use Rattle.tptp_commands.specs.CheckedLog as spec;
ghost use Rattle.tptp_commands.specs.CheckedLog.{EndsCheck, SaysLog};
ghost use Rattle.read_problems.specs.Ending.{AfterFile, IsAnswer};
ghost use Rattle.read_problems.specs.OtherFaults.{SaysProblemFault};
ghost use Rattle.read_problems.specs.Stop.{HasCause, IfAnswer, IfStopped};

use proof_check::Theory;
use proof_log::{LogCheckFault, check_log};
use read_problems::{Answer, Given, Halt, Stop, TOTAL_SIZE, read_given, read_text};
use std::alloc::{AllocError, Global};
use std::mem::forget;
use tptp_base::{FILE_SIZE, Store};

/// Reads a problem with all that it includes, and a log, and says whether the log leads from the problem to falsehood.
#[tactic(auto, using(crate::proofs::Checks::ends_refused))]
pub fn check<S: Store>(
    alloc: Global,
    store: &mut S,
    root: Option<&str>,
    problem: &str,
    log: &str,
) -> Result<Answer, Halt>
    ensures ends { IfAnswer result (λ answer.
        IfSome (S.files store.old) (λ files.
        EndsCheck files (option_copied root.entry) problem.now log.now (ending_of answer))) }
    ensures status { IfAnswer result (λ answer. IsAnswer answer.status) }
    ensures absence { IfAnswer result (λ answer. answer.status ≡ 3
        → Rose (S.absents store.old) (S.absents store.new)
        ⊎ SaysProblemFault (S.files store.old) (option_copied root.entry) problem.now (ending_of answer)) }
    ensures cause { IfStopped result (λ stop. HasCause stop (Rose (S.faults store.old) (S.faults store.new)) ⊥) }
{
    let mut given = read_given(alloc, store, root, problem)?;
    let said = check_file(alloc, store, &mut given, log);
    // The program ends with this answer, and its memory with it: the theory is not taken apart formula by formula.
    forget(given);
    said
}

// What is said of the file of a log.
#[tactic(auto, using(crate::proofs::Checks::log_unread, crate::proofs::Checks::log_said, crate::proofs::Absences::read_said))]
fn check_file<S: Store>(
    alloc: Global,
    store: &mut S,
    given: &mut Given,
    log: &str,
) -> Result<Answer, Halt>
    requires { given.old.read ≤ TOTAL_SIZE }
    ensures ends { IfAnswer result (λ answer.
        IfSome (S.files store.old) (λ files.
        AfterFile files log.now (TOTAL_SIZE - given.old.read) (SaysLog given.old.theory) (ending_of answer))) }
    ensures status { IfAnswer result (λ answer. IsAnswer answer.status) }
    ensures absence { IfAnswer result (λ answer. answer.status ≡ 3 → Rose (S.absents store.old) (S.absents store.new)) }
    ensures cause { IfStopped result (λ stop. HasCause stop (Rose (S.faults store.old) (S.faults store.new)) ⊥) }
{
    let text = read_text(alloc, store, log, TOTAL_SIZE - given.read)?;
    Ok(check_text(alloc, &mut given.theory, text.as_slice())?)
}

// What is said of the text of a log.
#[tactic(auto, using(crate::proofs::Checks::refuted_said, crate::proofs::Checks::fault_said, crate::proofs::Checks::deep_said, crate::proofs::Checks::illegal_said, crate::proofs::Checks::unrefuted_said, crate::proofs::Checks::number_fits))]
fn check_text(alloc: Global, theory: &mut Theory, text: &[u8]) -> Result<Answer, Stop>
    requires { length text.now ≤ FILE_SIZE }
    ensures said { IfOk result (λ answer. SaysLog theory.old text.now (ending_of answer)) }
    ensures status { IfOk result (λ answer. (answer.status ≡ 0) ⊎ (answer.status ≡ 1)) }
    ensures cause { IfErr result (λ stop. HasCause stop ⊥ ⊥) }
{
    match check_log(alloc, theory, text) {
        Ok(count) => Ok(say_refuted(alloc, count)?),
        Err(LogCheckFault::Text(offset)) => Ok(say_log_fault(alloc, offset)?),
        Err(LogCheckFault::Deep(offset)) => Ok(say_log_fault(alloc, offset)?),
        Err(LogCheckFault::Limit) => unreachable!(),
        Err(LogCheckFault::Illegal(number)) => Ok(say_illegal(alloc, number + 1)?),
        Err(LogCheckFault::NotRefuted) => Ok(say_not_refuted(alloc)?),
        Err(LogCheckFault::Memory) => Err(Stop::Memory),
    }
}

// What is said of a text that is no log.
fn say_log_fault(alloc: Global, offset: u64) -> Result<Answer, AllocError>
    ensures { IfOk result (λ answer. ending_of answer ≡ spec.log_fault offset) }
{
    let text = format!(in alloc; "log fault at offset {offset}\n")?;
    Ok(Answer::new(1, text))
}

// What is said of the first entry that is not legal, with its number from 1.
fn say_illegal(alloc: Global, number: usize) -> Result<Answer, AllocError>
    ensures { IfOk result (λ answer. ending_of answer ≡ spec.illegal_entry number) }
{
    let text = format!(in alloc; "entry {number} is illegal\n")?;
    Ok(Answer::new(1, text))
}

// What is said of entries behind which the last formula is not falsehood.
fn say_not_refuted(alloc: Global) -> Result<Answer, AllocError>
    ensures { IfOk result (λ answer. ending_of answer ≡ spec.not_refuted) }
{
    let text = String::from_str(alloc, "not refuted\n")?;
    Ok(Answer::new(1, text))
}

// What is said of entries behind which it is.
fn say_refuted(alloc: Global, count: usize) -> Result<Answer, AllocError>
    ensures { IfOk result (λ answer. ending_of answer ≡ spec.refuted count) }
{
    let text = format!(in alloc; "refuted: {count} entries\n")?;
    Ok(Answer::new(0, text))
}
