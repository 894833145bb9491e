// What a problem poses: its signature, and the formulas that it gives.
ghost use Rattle.std.specs.Prelude.{◌≡◌, ◌⊎◌, ◌≤◌, ◌<◌, ◌^◌, IfOk, length};
ghost use Rattle.std.specs.Option.{option_copied};
ghost use Rattle.tptp_base.specs.Count.{Rose};
ghost use Rattle.sort_check.specs.Sorting.{AreDeclared, AreGivenSorted};
ghost use Rattle.read_problems.specs.Answer.{ending_of};
ghost use Rattle.read_problems.specs.Posed.{IsPosed};
ghost use Rattle.read_problems.specs.Denoted.{IsProblemRefusal};
ghost use Rattle.read_problems.specs.OtherFaults.{SaysProblemFault};
ghost use Rattle.read_problems.specs.Stop.{HasCause, IfRefused, IfStopped};
ghost use Rattle.read_problems.specs.declared.refusals.TheConstants.{TOTAL_SIZE};

use crate::denotations::{Denotation, read_denotation};
use crate::stop::Halt;
use fof_terms::Signature;
use sort_check::{GivenEntry, give_all};
use std::alloc::Global;
use tptp_base::{List, Store};

/// The signature of a problem, the formulas that it gives, and how many bytes its files have.
#[derive(Drop)]
pub struct Posed {
    pub signature: Signature,
    pub given: List<GivenEntry>,
    pub read: u64,
}

/// What the problem in the file poses, with all that it includes. The first fault is refused.
#[tactic(auto, using(crate::proofs::Givens::denoted_posed))]
pub fn read_posed<S: Store>(
    alloc: Global,
    store: &mut S,
    root: Option<&str>,
    file: &str,
) -> Result<Posed, Halt>
    ensures is { IfOk result (λ posed. IsPosed (S.files store.old) (option_copied root.entry) file.now posed) }
    ensures few { IfOk result (λ posed. length posed.given < 2 ^ 32) }
    ensures sorted { IfOk result (λ posed. AreGivenSorted posed.signature posed.given) }
    ensures declared { IfOk result (λ posed. AreDeclared posed.signature) }
    ensures in_budget { IfOk result (λ posed. posed.read ≤ TOTAL_SIZE) }
    ensures refused { IfRefused result (λ answer.
        IsProblemRefusal (S.files store.old) (option_copied root.entry) file.now (ending_of answer)) }
    ensures status { IfRefused result (λ answer. (answer.status ≡ 3) ⊎ (answer.status ≡ 7)) }
    ensures absence { IfRefused result (λ answer. Rose (S.absents store.old) (S.absents store.new)
        ⊎ SaysProblemFault (S.files store.old) (option_copied root.entry) file.now (ending_of answer)) }
    ensures cause { IfStopped result (λ stop. HasCause stop (Rose (S.faults store.old) (S.faults store.new)) ⊥) }
    ensures same_files { S.files store.new ≡ S.files store.old }
    ensures more_absents { S.absents store.old ≤ S.absents store.new }
    ensures more_faults { S.faults store.old ≤ S.faults store.new }
{
    let Denotation {
        lines,
        signature,
        read,
        ..
    } = read_denotation(alloc, store, root, file, true)?;
    let given = give_all(alloc, lines)?;
    Ok(Posed {
        signature,
        given,
        read,
    })
}
