// The command `format`.
ghost use Rattle.std.specs.Prelude.{◌≡◌, ◌⊎◌, IfSome};
ghost use Rattle.tptp_base.specs.Count.{Rose};
ghost use Rattle.read_problems.specs.Answer.{ending_of};
ghost use Rattle.tptp_commands.specs.Formatted.{EndsFormat, SaysText};
ghost use Rattle.tptp_commands.specs.OtherFaults.{SaysFileFault};
ghost use Rattle.read_problems.specs.Ending.{IsAnswer};
ghost use Rattle.read_problems.specs.Spelled.{IsTextRefusal};
ghost use Rattle.read_problems.specs.Stop.{HasCause, IfAnswer, IfStopped};

use read_problems::{Answer, Halt, TOTAL_SIZE, print_text, read_text};
use std::alloc::Global;
use tptp_base::Store;

/// Gives the canonical text of what a file spells. Includes are not followed.
pub fn format<S: Store>(alloc: Global, store: &mut S, file: &str) -> Result<Answer, Halt>
    ensures ends { IfAnswer result (λ answer.
        IfSome (S.files store.old) (λ files. EndsFormat files file.now (ending_of answer))) }
    ensures status { IfAnswer result (λ answer. IsAnswer answer.status) }
    ensures absence { IfAnswer result (λ answer. answer.status ≡ 3
        → Rose (S.absents store.old) (S.absents store.new)
        ⊎ SaysFileFault (S.files store.old) file.now (ending_of answer)) }
    ensures cause { IfStopped result (λ stop. HasCause stop (Rose (S.faults store.old) (S.faults store.new)) ⊥) }
{
    let text = read_text(alloc, store, file, TOTAL_SIZE)?;
    format_text(alloc, file, text.as_slice())
}

// The canonical text of what the text of a file spells, or what is said of its first fault.
#[tactic(auto, using(crate::proofs::Formats::refusal_said, crate::proofs::Formats::refusal_is))]
fn format_text(alloc: Global, file: &str, text: &[u8]) -> Result<Answer, Halt>
    ensures said { IfAnswer result (λ answer. SaysText file.now text.now (ending_of answer)) }
    ensures refused { IfAnswer result (λ answer. answer.status ≡ 3
        → IsTextRefusal file.now text.now (ending_of answer)) }
    ensures status { IfAnswer result (λ answer. IsAnswer answer.status) }
    ensures cause { IfStopped result (λ stop. HasCause stop ⊥ ⊥) }
{
    match print_text(alloc, file, text) {
        Ok(printed) => Ok(Answer {
            status: 0,
            text: printed,
        }),
        Err(halt) => Err(halt),
    }
}
