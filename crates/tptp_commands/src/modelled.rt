// The command `model`.
ghost use Rattle.std.specs.Prelude.{◌≡◌, ◌⊎◌, ◌≤◌, ◌-◌, IfOk, IfErr, IfSome, length};
ghost use Rattle.std.specs.Option.{option_copied};
ghost use Rattle.tptp_base.specs.Count.{Rose};
ghost use Rattle.tptp_base.specs.declared.read.TheConstants.{FILE_SIZE as file_size};
ghost use Rattle.fi_model.specs.Tables.{interpretation};
ghost use Rattle.read_problems.specs.Answer.{ending_of};
ghost use Rattle.read_problems.specs.Ending.{AfterFile, IsAnswer};
ghost use Rattle.tptp_commands.specs.Modelled as spec;
ghost use Rattle.tptp_commands.specs.Modelled.{EndsModel, SaysFormulas, SaysItems, SaysModel, SaysModelFault};
ghost use Rattle.tptp_commands.specs.OtherFaults.{SaysModelFileFault, SaysModelledFault};
ghost use Rattle.read_problems.specs.OtherFaults.{SaysProblemFault};
ghost use Rattle.read_problems.specs.Stop.{HasCause, IfAnswer, IfStopped};

use crate::derived::in_line_text;
use crate::model_text::read_model_items;
use canon_print::print_name;
use fi_model::{FiniteModel, ModelFault, holds, read_model};
use itoa::Buffer;
use read_problems::{
    Answer, Halt, Posed, Stop, TOTAL_SIZE, read_posed, read_text, say_at, say_of_file,
};
use sort_check::GivenEntry;
use std::alloc::{AllocError, Global};
use std::mem::forget;
use tptp_base::{Item, Memory, Name, Place, Store};

/// Reads a problem with all that it includes, and a finite model, and says whether each formula that the problem gives
/// is true in the model. The conjecture is denied.
pub fn model<S: Store>(
    alloc: Global,
    store: &mut S,
    root: Option<&str>,
    problem: &str,
    file: &str,
) -> Result<Answer, Halt>
    ensures ends { IfAnswer result (λ answer.
        IfSome (S.files store.old) (λ files.
        EndsModel files (option_copied root.entry) problem.now file.now (ending_of answer))) }
    ensures status { IfAnswer result (λ answer. IsAnswer answer.status) }
    ensures absence { IfAnswer result (λ answer. answer.status ≡ 3
        → Rose (S.absents store.old) (S.absents store.new)
        ⊎ (SaysProblemFault (S.files store.old) (option_copied root.entry) problem.now (ending_of answer)
        ⊎ SaysModelledFault (S.files store.old) (option_copied root.entry) problem.now file.now (ending_of answer))) }
    ensures cause { IfStopped result (λ stop. HasCause stop (Rose (S.faults store.old) (S.faults store.new)) ⊥) }
{
    let posed = read_posed(alloc, store, root, problem)?;
    model_file(alloc, store, &posed, file)
}

// What is said of the file of a model.
fn model_file<S: Store>(
    alloc: Global,
    store: &mut S,
    posed: &Posed,
    file: &str,
) -> Result<Answer, Halt>
    requires { posed.now.read ≤ TOTAL_SIZE }
    ensures ends { IfAnswer result (λ answer.
        IfSome (S.files store.old) (λ files. AfterFile files file.now (TOTAL_SIZE - posed.now.read)
        (SaysModel file.now posed.now.signature posed.now.given) (ending_of answer))) }
    ensures status { IfAnswer result (λ answer. IsAnswer answer.status) }
    ensures absence { IfAnswer result (λ answer. answer.status ≡ 3
        → Rose (S.absents store.old) (S.absents store.new)
        ⊎ SaysModelFileFault (S.files store.old) file.now (ending_of answer)) }
    ensures cause { IfStopped result (λ stop. HasCause stop (Rose (S.faults store.old) (S.faults store.new)) ⊥) }
{
    let text = read_text(alloc, store, file, TOTAL_SIZE - posed.read)?;
    model_text(alloc, posed, file, text.as_slice())
}

// What is said of the text of a model.
fn model_text(alloc: Global, posed: &Posed, file: &str, text: &[u8]) -> Result<Answer, Halt>
    requires { length text.now ≤ file_size }
    ensures said { IfAnswer result (λ answer.
        SaysModel file.now posed.now.signature posed.now.given text.now (ending_of answer)) }
    ensures status { IfAnswer result (λ answer. IsAnswer answer.status) }
    ensures refusal { IfAnswer result (λ answer. answer.status ≡ 3
        → spec.IsModelRefusal file.now text.now (ending_of answer)) }
    ensures cause { IfStopped result (λ stop. HasCause stop ⊥ ⊥) }
{
    let items = read_model_items(alloc, file, text)?;
    let said = model_items(alloc, posed, file, items.as_slice())?;
    // The program ends with this answer, and its memory with it: the items are not taken apart one by one.
    forget(items);
    Ok(said)
}

// What is said of the items of a model.
fn model_items(alloc: Global, posed: &Posed, file: &str, items: &[Item]) -> Result<Answer, Stop>
    ensures said { IfOk result (λ answer.
        SaysItems file.now posed.now.signature posed.now.given items.now (ending_of answer)) }
    ensures status { IfOk result (λ answer. (answer.status ≡ 0) ⊎ (answer.status ≡ 1)) }
    ensures cause { IfErr result (λ stop. HasCause stop ⊥ ⊥) }
{
    match read_model(alloc, items, &posed.signature) {
        Ok(model) => Ok(say_formulas(alloc, &model, posed.given.as_slice())?),
        Err(fault) => Ok(say_model_fault(alloc, file, fault)?),
    }
}

// What is said of the given formulas: the first that is false, or how many are true.
fn say_formulas(alloc: Global, model: &FiniteModel, given: &[GivenEntry]) -> Result<Answer, Stop>
    ensures said { IfOk result (λ answer. SaysFormulas (interpretation model.now) given.now (ending_of answer)) }
    ensures status { IfOk result (λ answer. (answer.status ≡ 0) ⊎ (answer.status ≡ 1)) }
    ensures cause { IfErr result (λ stop. HasCause stop ⊥ ⊥) }
{
    match first_false(model, given) {
        Some(entry) => say_false(alloc, &entry.name),
        None => Ok(say_true(alloc, given.len())?),
    }
}

// The first of the given formulas that is false in the model.
fn first_false<'a>(model: &FiniteModel, given: &'a [GivenEntry]) -> Option<&'a GivenEntry>
    ensures { option_copied result ≡ spec.first_false (interpretation model.now) given.now }
{
    for entry in given {
        if !holds(model, &entry.form) {
            return Some(entry);
        }
    }
    None
}

// What is said of a formula that is false.
fn say_false(alloc: Global, name: &Name) -> Result<Answer, Stop>
    ensures said { IfOk result (λ answer. ending_of answer ≡ spec.is_false name.now) }
    ensures cause { IfErr result (λ stop. HasCause stop ⊥ ⊥) }
{
    let name = print_name(alloc, name)?;
    let mut text = Vec::new(alloc);
    text.extend_from_slice(b"formula ")?;
    text.extend_from_slice(name.as_slice())?;
    Ok(say_of_file(alloc, 1, &text, " is false")?)
}

// What is said where all formulas are true.
fn say_true(alloc: Global, count: usize) -> Result<Answer, AllocError>
    ensures { IfOk result (λ answer. ending_of answer ≡ spec.are_true count) }
{
    let mut text = Vec::new(alloc);
    text.extend_from_slice(b"model: ")?;
    text.extend_from_slice(Buffer::new().format(count).as_bytes())?;
    say_of_file(alloc, 0, &text, " formulas true")
}

// Why the items are no model, if memory is not wanting.
fn say_model_fault(alloc: Global, file: &str, fault: ModelFault) -> Result<Answer, Stop>
    ensures said { IfOk result (λ answer. SaysModelFault file.now fault (ending_of answer)) }
    ensures status { IfOk result (λ answer. answer.status ≡ 1) }
    ensures cause { IfErr result (λ stop. HasCause stop ⊥ ⊥) }
{
    let file = file.as_bytes();
    match fault {
        ModelFault::Shape(place) => Ok(say_at(alloc, 1, file, place, b"not a model formula")?),
        ModelFault::Domain(sort) => {
            Ok(say_of_file(alloc, 1, sort.as_slice(), ": wrong domain")?)
        }
        ModelFault::Element(place, name) => {
            Ok(say_sentence(alloc, file, place, &name, b"wrong element")?)
        }
        ModelFault::Double(place, name) => {
            Ok(say_sentence(alloc, file, place, &name, b"second value")?)
        }
        ModelFault::Missing(symbol) => Ok(say_of_file(
            alloc,
            1,
            symbol.as_slice(),
            ": no value for some arguments",
        )?),
        ModelFault::Memory => Err(Stop::Memory),
    }
}

// What is said of a sentence of the model.
fn say_sentence(
    alloc: Global,
    file: &[u8],
    place: Place,
    name: &Name,
    what: &[u8],
) -> Result<Answer, Memory>
    ensures { IfOk result (λ answer. ending_of answer ≡ spec.of_sentence file.now place name.now what.now) }
{
    let text = in_line_text(alloc, name, what)?;
    Ok(say_at(alloc, 1, file, place, &text)?)
}
