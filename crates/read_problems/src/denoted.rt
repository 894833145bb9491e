// What a problem denotes, and what is said of its first fault against the rules of sorts.
ghost use Rattle.std.specs.Prelude.{◌≡◌, ◌⊎◌, ◌++◌, ◌<◌, ◌^◌, Ok, Err, IfOk, IfErr, OnOk, codes, length};
ghost use Rattle.canon_print.specs.Words.{name_text};
ghost use Rattle.sort_check.specs.Sorting.{AreDeclared, AreSorted};
ghost use Rattle.sort_check.specs.Texts.{denoted};
ghost use Rattle.sort_check.specs.declared.fault.SortFault.{SortFault as sort_fault};
ghost use Rattle.sort_check.specs.declared.line.TextKind.TheVariants as kind;
ghost use Rattle.read_problems.specs.Answer.{ending_of};
ghost use Rattle.read_problems.specs.Denoted as spec;
ghost use Rattle.read_problems.specs.Denoted.{first_vocabulary, SaysSortFault};
ghost use Rattle.read_problems.specs.Stop.{HasCause, IfRefused, IfStopped};

use crate::saying::{limit_text, place_text};
use crate::stop::{Answer, Halt, Stop, ended};
use canon_print::print_name;
use fof_terms::Signature;
use include_resolve::Problem;
use sort_check::{Line, SortFault, SortRule, TextKind, denote};
use std::alloc::Global;
use tptp_base::{List, Memory, Name, Place, Text};

/// What the formulas of a problem denote, and their signature.
#[derive(Drop)]
pub struct Meaning {
    pub lines: List<Line>,
    pub signature: Signature,
}

/// What the problem denotes. Its first fault is refused.
#[tactic(auto, using(crate::proofs::FirstFaults::said_denotes))]
pub fn read_meaning(alloc: Global, problem: &Problem) -> Result<Meaning, Halt>
    requires few { length problem.now.items < 2 ^ 32 }
    ensures denoted { IfOk result (λ meaning. denoted problem.now.items first_vocabulary kind.Problem
        ≡ Ok (meaning.lines, meaning.signature)) }
    ensures declared { IfOk result (λ meaning. AreDeclared meaning.signature) }
    ensures sorted { IfOk result (λ meaning. AreSorted meaning.signature meaning.lines) }
    ensures refused { IfRefused result (λ answer. (fault : sort_fault)
        × (denoted problem.now.items first_vocabulary kind.Problem ≡ Err fault)
        × SaysSortFault problem.now.files fault (ending_of answer)) }
    ensures status { IfRefused result (λ answer. (answer.status ≡ 3) ⊎ (answer.status ≡ 7)) }
    ensures cause { IfStopped result (λ stop. HasCause stop ⊥ ⊥) }
{
    let mut signature = Signature::new(alloc)?;
    match denote(
        alloc,
        problem.items.as_slice(),
        &mut signature,
        TextKind::Problem,
    ) {
        Ok(lines) => Ok(Meaning { lines, signature }),
        Err(fault) => Err(Halt::Refused(say_sort_fault(alloc, problem.files.as_slice(), fault)?)),
    }
}

/// What is said of a fault against the rules of sorts, if memory is not wanting.
pub fn say_sort_fault(alloc: Global, files: &[Text], fault: SortFault) -> Result<Answer, Stop>
    ensures said { IfOk result (λ answer. SaysSortFault files.now fault (ending_of answer)) }
    ensures status { IfOk result (λ answer. (answer.status ≡ 3) ⊎ (answer.status ≡ 7)) }
    ensures cause { IfErr result (λ stop. HasCause stop ⊥ ⊥) }
{
    match fault {
        SortFault::Line(rule, place, name) => {
            say_of_line(alloc, file_of(files, place), rule, place, &name)
        }
        SortFault::Memory => Err(Stop::Memory),
    }
}

/// What is said of a line in the file that is against the rule.
pub fn say_of_line(
    alloc: Global,
    file: &[u8],
    rule: SortRule,
    place: Place,
    name: &Name,
) -> Result<Answer, Stop>
    ensures said { IfOk result (λ answer. ending_of answer ≡ spec.against_rule file.now rule place name.now) }
    ensures status { IfOk result (λ answer. answer.status ≡ spec.rule_status rule) }
    ensures cause { IfErr result (λ stop. HasCause stop ⊥ ⊥) }
{
    let mut text = Vec::new(alloc);
    text.extend_from_slice(file)?;
    text.extend_from_slice(place_text(alloc, place)?.as_bytes())?;
    put_reason(alloc, &mut text, rule, name)?;
    text.extend_from_slice(b"\n")?;
    Ok(ended(rule_status(rule), text))
}

// Appends the name of a line and the rule that it is against.
fn put_reason(alloc: Global, text: &mut Vec<u8>, rule: SortRule, name: &Name) -> Result<(), Memory>
    ensures { OnOk result (text.new.items ≡ text.old.items
        ++ (codes "in " ++ (name_text name.now ++ (codes ": " ++ spec.rule_text rule)))) }
{
    let name = print_name(alloc, name)?;
    let (limit, reason) = rule_text(rule);
    text.extend_from_slice(b"in ")?;
    text.extend_from_slice(name.as_slice())?;
    text.extend_from_slice(b": ")?;
    text.extend_from_slice(limit.as_bytes())?;
    text.extend_from_slice(reason.as_bytes())?;
    Ok(())
}

// The name of the file of a place, as it was opened.
fn file_of<'a>(files: &'a [Text], place: Place) -> &'a [u8]
    ensures { result.now ≡ spec.file_of files.now place }
{
    match files.get(place.file as usize) {
        Some(name) => name.as_slice(),
        None => b"",
    }
}

// What is said of a rule that a line is against, in two parts.
fn rule_text(rule: SortRule) -> (&'static str, &'static str)
    ensures { result.0.now ++ result.1.now ≡ spec.rule_text rule }
{
    match rule {
        SortRule::FreeVariable => ("", "free variable"),
        SortRule::Arity => ("", "wrong arity or kind"),
        SortRule::WrongSort => ("", "wrong sort"),
        SortRule::Redeclared => ("", "declared again"),
        SortRule::UnknownSort => ("", "unknown sort"),
        SortRule::NotTyped => ("", "type outside tff"),
        SortRule::TwoConjectures => ("", "second conjecture"),
        SortRule::Variables => ("limit ", "variables"),
        SortRule::Limit(limit) => ("limit ", limit_text(limit)),
    }
}

// The status that goes with a rule that a line is against.
fn rule_status(rule: SortRule) -> u8
    ensures { result ≡ spec.rule_status rule }
{
    match rule {
        SortRule::Variables | SortRule::Limit(_) => 7,
        SortRule::FreeVariable
        | SortRule::Arity
        | SortRule::WrongSort
        | SortRule::Redeclared
        | SortRule::UnknownSort
        | SortRule::NotTyped
        | SortRule::TwoConjectures => 3,
    }
}
