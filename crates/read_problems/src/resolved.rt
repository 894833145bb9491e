// A problem with all that it includes, and what is said of the first fault on the walk through its files.
ghost use Rattle.std.specs.Prelude.{◌≡◌, ◌⊎◌, ◌≤◌, ◌<◌, ◌^◌, Ok, Err, IfOk, IfErr, length};
ghost use Rattle.std.specs.Option.{option_copied};
ghost use Rattle.tptp_base.specs.Count.{Rose};
ghost use Rattle.include_resolve.specs.Resolved.{Resolves};
ghost use Rattle.include_resolve.specs.declared.fault.IncludeFault.{IncludeFault as include_fault};
ghost use Rattle.read_problems.specs.Answer.{ending_of};
ghost use Rattle.read_problems.specs.Denoted as spec;
ghost use Rattle.read_problems.specs.Denoted.{SaysIncludeFault, SaysTextFault};
ghost use Rattle.read_problems.specs.OtherFaults.{SaysWalkFault};
ghost use Rattle.read_problems.specs.Stop.{HasCause, IfRefused, IfStopped};
ghost use Rattle.read_problems.specs.declared.refusals.TheConstants.{TOTAL_SIZE};

use crate::saying::{no_such_file, over_limit, say_of_file};
use crate::spelled::{say_grammar_fault, say_lex_fault};
use crate::stop::{Answer, Halt, Stop, ended};
use canon_print::print_name;
use include_resolve::{IncludeFault, Problem, TextFault, resolve};
use std::alloc::{AllocError, Global};
use tptp_base::{LimitName, Name, Store};

/// The problem in the file, with all that it includes. Its first fault is refused.
#[tactic(auto, using(crate::proofs::FirstFaults::said_resolves, crate::proofs::FirstFaults::few_items))]
pub fn read_files<S: Store>(
    alloc: Global,
    store: &mut S,
    root: Option<&str>,
    file: &str,
) -> Result<Problem, Halt>
    ensures resolved { IfOk result (λ problem.
        Resolves (S.files store.old) (option_copied root.entry) file.now (Ok problem)) }
    ensures few { IfOk result (λ problem. length problem.items < 2 ^ 32) }
    ensures refused { IfRefused result (λ answer. (fault : include_fault)
        × Resolves (S.files store.old) (option_copied root.entry) file.now (Err fault)
        × SaysIncludeFault fault (ending_of answer)) }
    ensures status { IfRefused result (λ answer. (answer.status ≡ 3) ⊎ (answer.status ≡ 7)) }
    ensures absence { IfRefused result (λ answer. Rose (S.absents store.old) (S.absents store.new)
        ⊎ SaysWalkFault (S.files store.old) (option_copied root.entry) file.now (ending_of answer)) }
    ensures in_budget { IfOk result (λ problem. problem.read ≤ TOTAL_SIZE) }
    ensures cause { IfStopped result (λ stop. HasCause stop (Rose (S.faults store.old) (S.faults store.new)) ⊥) }
    ensures same_files { S.files store.new ≡ S.files store.old }
    ensures more_absents { S.absents store.old ≤ S.absents store.new }
    ensures more_faults { S.faults store.old ≤ S.faults store.new }
{
    match resolve(alloc, store, file, root) {
        Ok(problem) => Ok(problem),
        Err(fault) => Err(Halt::Refused(say_include_fault(alloc, fault)?)),
    }
}

// What is said of a fault on the walk through the files, if the store did not fail and memory is not wanting.
fn say_include_fault(alloc: Global, fault: IncludeFault) -> Result<Answer, Stop>
    ensures said { IfOk result (λ answer. SaysIncludeFault fault (ending_of answer)) }
    ensures status { IfOk result (λ answer. (answer.status ≡ 3) ⊎ (answer.status ≡ 7)) }
    ensures cause { IfErr result (λ stop. HasCause stop (fault ≡ IncludeFault.Store) ⊥) }
{
    match fault {
        IncludeFault::Missing(written) => Ok(no_such_file(alloc, written.as_slice())?),
        IncludeFault::Cycle(file) => Ok(include_cycle(alloc, file.as_slice())?),
        IncludeFault::DeepInclude(file) => Ok(over_limit(
            alloc,
            file.as_slice(),
            LimitName::IncludeDepth,
        )?),
        IncludeFault::UnknownSelection(file, name) => no_formula(alloc, file.as_slice(), &name),
        IncludeFault::Text(file, fault) => say_text_fault(alloc, file.as_slice(), fault),
        IncludeFault::Limit(file, limit) => Ok(over_limit(alloc, file.as_slice(), limit)?),
        IncludeFault::Store => Err(Stop::Store),
        IncludeFault::Memory => Err(Stop::Memory),
    }
}

// What is said of a fault in the text of a file, if memory is not wanting.
fn say_text_fault(alloc: Global, file: &[u8], fault: TextFault) -> Result<Answer, Stop>
    ensures said { IfOk result (λ answer. SaysTextFault file.now fault (ending_of answer)) }
    ensures status { IfOk result (λ answer. (answer.status ≡ 3) ⊎ (answer.status ≡ 7)) }
    ensures cause { IfErr result (λ stop. HasCause stop ⊥ ⊥) }
{
    match fault {
        TextFault::Lex(fault) => say_lex_fault(alloc, file, fault),
        TextFault::Grammar(fault) => say_grammar_fault(alloc, file, fault),
    }
}

// What is said of a file that includes itself.
fn include_cycle(alloc: Global, file: &[u8]) -> Result<Answer, AllocError>
    ensures { IfOk result (λ answer. ending_of answer ≡ spec.include_cycle file.now) }
{
    say_of_file(alloc, 3, file, ": include cycle")
}

// What is said of a name that is selected and that no formula has.
fn no_formula(alloc: Global, file: &[u8], name: &Name) -> Result<Answer, Stop>
    ensures said { IfOk result (λ answer. ending_of answer ≡ spec.no_formula file.now name.now) }
    ensures cause { IfErr result (λ stop. HasCause stop ⊥ ⊥) }
{
    let name = print_name(alloc, name)?;
    let mut text = Vec::new(alloc);
    text.extend_from_slice(file)?;
    text.extend_from_slice(b": no formula ")?;
    text.extend_from_slice(name.as_slice())?;
    text.extend_from_slice(b" to select")?;
    text.extend_from_slice(b"\n")?;
    Ok(ended(3, text))
}
