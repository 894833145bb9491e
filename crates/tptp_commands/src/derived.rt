// A derivation is read, and what is said of its first fault.
ghost use Rattle.std.specs.Prelude.{◌≡◌, ◌⊎◌, ◌≤◌, ◌<◌, ◌^◌, ◌++◌, IfOk, IfErr, OnOk, codes, length};
ghost use Rattle.std.specs.List.{All};
ghost use Rattle.canon_print.specs.Words.{name_text};
ghost use Rattle.tptp_base.specs.declared.read.TheConstants.{FILE_SIZE as file_size};
ghost use Rattle.sort_check.specs.Sorting.{Extends, IsSentence};
ghost use Rattle.derivation_text.specs.Derivations.{IsDerivation};
ghost use Rattle.read_problems.specs.Answer.{ending_of};
ghost use Rattle.read_problems.specs.Denoted.{in_line};
ghost use Rattle.tptp_commands.specs.Derived as spec;
ghost use Rattle.tptp_commands.specs.Derived.{IsDerivationRefusal, SaysDerivationFault, SaysGraphFault, SaysLineFault};
ghost use Rattle.read_problems.specs.Stop.{HasCause, IfRefused, IfStopped};

use canon_print::print_name;
use derivation_text::{Derivation, DerivationFault, read_derivation};
use fof_terms::Signature;
use read_problems::{
    Answer, Halt, Stop, over_limit, say_at, say_grammar_fault, say_lex_fault, say_of_line,
};
use sort_check::SortFault;
use std::alloc::Global;
use tptp_base::{Memory, Name, Place};
use tstp_graph::GraphFault;

/// The derivation that the text of a file is, from given formulas of these names. Its first fault is refused.
#[tactic(auto, using(crate::proofs::Derivations::said_first))]
pub fn read_derived(
    alloc: Global,
    file: &str,
    text: &[u8],
    given: &[Name],
    signature: &mut Signature,
) -> Result<Derivation, Halt>
    requires few_bytes { length text.now ≤ file_size }
    requires few_given { length given.now < 2 ^ 32 }
    ensures is { IfOk result (λ d. IsDerivation text.now given.now signature.old d signature.new) }
    ensures refused { IfRefused result (λ answer.
        IsDerivationRefusal file.now text.now given.now signature.old (ending_of answer)) }
    ensures status { IfRefused result (λ answer. (answer.status ≡ 3) ⊎ (answer.status ≡ 7)) }
    ensures cause { IfStopped result (λ stop. HasCause stop ⊥ ⊥) }
    ensures extends { OnOk result (Extends signature.old signature.new) }
    ensures sentences { IfOk result (λ d. All (IsSentence signature.new) d.forms) }
    ensures each_form { IfOk result (λ d. length d.forms ≡ length d.graph.nodes) }
    ensures each_name { IfOk result (λ d. length d.names ≡ length d.graph.nodes) }
    ensures each_place { IfOk result (λ d. length d.places ≡ length d.graph.nodes) }
{
    match read_derivation(alloc, text, given, signature) {
        Ok(derivation) => Ok(derivation),
        Err(fault) => Err(Halt::Refused(say_derivation_fault(alloc, file.as_bytes(), fault)?)),
    }
}

// What is said of the first fault of a derivation, if memory is not wanting.
fn say_derivation_fault(alloc: Global, file: &[u8], fault: DerivationFault) -> Result<Answer, Stop>
    ensures said { IfOk result (λ answer. SaysDerivationFault file.now fault (ending_of answer)) }
    ensures status { IfOk result (λ answer. (answer.status ≡ 3) ⊎ (answer.status ≡ 7)) }
    ensures cause { IfErr result (λ stop. HasCause stop ⊥ ⊥) }
{
    match fault {
        DerivationFault::Lex(fault) => say_lex_fault(alloc, file, fault),
        DerivationFault::Grammar(fault) => say_grammar_fault(alloc, file, fault),
        DerivationFault::Graph(fault) => say_graph_fault(alloc, file, fault),
        DerivationFault::Sort(fault) => say_line_fault(alloc, file, fault),
        DerivationFault::Memory => Err(Stop::Memory),
    }
}

// What is said of a fault against the rules of sorts, if memory is not wanting.
fn say_line_fault(alloc: Global, file: &[u8], fault: SortFault) -> Result<Answer, Stop>
    ensures said { IfOk result (λ answer. SaysLineFault file.now fault (ending_of answer)) }
    ensures status { IfOk result (λ answer. (answer.status ≡ 3) ⊎ (answer.status ≡ 7)) }
    ensures cause { IfErr result (λ stop. HasCause stop ⊥ ⊥) }
{
    match fault {
        SortFault::Line(rule, place, name) => say_of_line(alloc, file, rule, place, &name),
        SortFault::Memory => Err(Stop::Memory),
    }
}

// What is said of the first fault of a graph, if memory is not wanting.
fn say_graph_fault(alloc: Global, file: &[u8], fault: GraphFault) -> Result<Answer, Stop>
    ensures said { IfOk result (λ answer. SaysGraphFault file.now fault (ending_of answer)) }
    ensures status { IfOk result (λ answer. (answer.status ≡ 3) ⊎ (answer.status ≡ 7)) }
    ensures cause { IfErr result (λ stop. HasCause stop ⊥ ⊥) }
{
    match fault {
        GraphFault::UnknownParent(place, name, parent) => {
            say_unknown(alloc, file, place, &name, &parent)
        }
        GraphFault::DuplicateLine(place, name) => {
            Ok(say_in(alloc, file, place, &name, b"second line of this name")?)
        }
        GraphFault::Cycle(place, name) => Ok(say_in(alloc, file, place, &name, b"in a cycle")?),
        GraphFault::BadSource(place, name) => {
            Ok(say_in(alloc, file, place, &name, b"malformed source")?)
        }
        GraphFault::Include(place) => Ok(say_at(
            alloc,
            3,
            file,
            place,
            b"include in a derivation",
        )?),
        GraphFault::Limit(limit) => Ok(over_limit(alloc, file, limit)?),
        GraphFault::Memory => Err(Stop::Memory),
    }
}

// What is said of a line with a parent that means nothing.
fn say_unknown(
    alloc: Global,
    file: &[u8],
    place: Place,
    name: &Name,
    parent: &Name,
) -> Result<Answer, Stop>
    ensures said { IfOk result (λ answer. ending_of answer
        ≡ spec.says_in file.now place name.now (codes "unknown parent " ++ name_text parent.now)) }
    ensures cause { IfErr result (λ stop. HasCause stop ⊥ ⊥) }
{
    let parent = print_name(alloc, parent)?;
    let mut what = Vec::new(alloc);
    what.extend_from_slice(b"unknown parent ")?;
    what.extend_from_slice(parent.as_slice())?;
    Ok(say_in(alloc, file, place, name, &what)?)
}

// An answer that says something of the line of this name at the place.
fn say_in(
    alloc: Global,
    file: &[u8],
    place: Place,
    name: &Name,
    what: &[u8],
) -> Result<Answer, Memory>
    ensures { IfOk result (λ answer. ending_of answer ≡ spec.says_in file.now place name.now what.now) }
{
    let text = in_line_text(alloc, name, what)?;
    Ok(say_at(alloc, 3, file, place, &text)?)
}

/// What is said in a line of this name.
pub fn in_line_text(alloc: Global, name: &Name, what: &[u8]) -> Result<Vec<u8>, Memory>
    ensures { IfOk result (λ text. text.items ≡ in_line name.now what.now) }
{
    let name = print_name(alloc, name)?;
    let mut text = Vec::new(alloc);
    text.extend_from_slice(b"in ")?;
    text.extend_from_slice(name.as_slice())?;
    text.extend_from_slice(b": ")?;
    text.extend_from_slice(what)?;
    Ok(text)
}
