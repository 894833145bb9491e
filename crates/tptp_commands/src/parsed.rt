// The command `parse`.
ghost use Rattle.std.specs.Prelude.{◌≡◌, ◌⊎◌, IfOk, IfSome};
ghost use Rattle.std.specs.Option.{option_copied};
ghost use Rattle.tptp_base.specs.Count.{Rose};
ghost use Rattle.read_problems.specs.Answer.{ending_of};
ghost use Rattle.read_problems.specs.OtherFaults.{SaysProblemFault};
ghost use Rattle.read_problems.specs.Ending.{IsAnswer};
ghost use Rattle.tptp_commands.specs.Parsed as spec;
ghost use Rattle.tptp_commands.specs.Parsed.{EndsParse};
ghost use Rattle.read_problems.specs.Stop.{HasCause, IfAnswer, IfStopped};

use read_problems::{Answer, Halt, read_denotation};
use std::alloc::{AllocError, Global};
use tptp_base::Store;

/// Reads the problem in a file with all that it includes, checks its sorts, and says how many formulas it has. The
/// lines of the formulas are let go on the way.
#[tactic(auto, using(crate::proofs::Parses::ends_refused, crate::proofs::Parses::ends_denoted, crate::proofs::Absences::counted_said))]
pub fn parse<S: Store>(
    alloc: Global,
    store: &mut S,
    root: Option<&str>,
    file: &str,
) -> Result<Answer, Halt>
    ensures ends { IfAnswer result (λ answer.
        IfSome (S.files store.old) (λ files. EndsParse files (option_copied root.entry) file.now (ending_of answer))) }
    ensures status { IfAnswer result (λ answer. IsAnswer answer.status) }
    ensures absence { IfAnswer result (λ answer. answer.status ≡ 3
        → Rose (S.absents store.old) (S.absents store.new)
        ⊎ SaysProblemFault (S.files store.old) (option_copied root.entry) file.now (ending_of answer)) }
    ensures cause { IfStopped result (λ stop. HasCause stop (Rose (S.faults store.old) (S.faults store.new)) ⊥) }
{
    let denotation = read_denotation(alloc, store, root, file, false)?;
    Ok(say_count(alloc, denotation.formulas)?)
}

// What is said of a problem with so many formulas.
fn say_count(alloc: Global, count: usize) -> Result<Answer, AllocError>
    ensures { IfOk result (λ answer. ending_of answer ≡ spec.counted count) }
{
    let text = format!(in alloc; "ok {count} formulas\n")?;
    Ok(Answer::new(0, text))
}
