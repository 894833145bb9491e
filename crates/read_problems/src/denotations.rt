// What a problem denotes that is read from a file, with all that it includes.
ghost use Rattle.std.specs.Prelude.{◌≡◌, ◌⊎◌, ◌≤◌, ℕ, List as list, IfOk, IfSome, count_by};
ghost use Rattle.std.specs.Option.{option_copied};
ghost use Rattle.std.specs.declared.option.Option.{Option as option};
ghost use Rattle.tptp_base.specs.Count.{Rose};
ghost use Rattle.tstp_graph.specs.Lines.{is_formula};
ghost use Rattle.sort_check.specs.Turns.{kept};
ghost use Rattle.read_problems.specs.Answer.{ending_of};
ghost use Rattle.read_problems.specs.Denotations.{IsDenotation};
ghost use Rattle.read_problems.specs.Denoted.{IsProblemRefusal};
ghost use Rattle.read_problems.specs.OtherFaults.{SaysProblemFault};
ghost use Rattle.read_problems.specs.Stop.{HasCause, IfRefused, IfStopped};
ghost use Rattle.read_problems.specs.declared.refusals.TheConstants.{TOTAL_SIZE as total_size};

use crate::denoted::{Meaning, read_meaning};
use crate::refusals::{TOTAL_SIZE, read_text};
use crate::resolved::read_files;
use crate::stop::Halt;
use crate::text_items::denote_text;
use fof_terms::Signature;
use include_resolve::Problem;
use sort_check::Line;
use std::alloc::Global;
use tptp_base::{Item, List, Store};

/// What the formulas of a problem denote.
#[derive(Drop)]
pub struct Denotation {
    /// The lines, where they are kept.
    pub lines: List<Line>,
    pub signature: Signature,
    /// How many formulas the problem has, type lines included.
    pub formulas: usize,
    /// How many bytes its files have.
    pub read: u64,
}

/// What the problem in the file denotes, with all that it includes. The first fault is refused.
///
/// A text without includes is taken item by item. Another one is read whole.
pub fn read_denotation<S: Store>(
    alloc: Global,
    store: &mut S,
    root: Option<&str>,
    file: &str,
    keeps: bool,
) -> Result<Denotation, Halt>
    ensures is { IfOk result (λ d. IsDenotation (S.files store.old) (option_copied root.entry) file.now keeps d) }
    ensures in_budget { IfOk result (λ d. d.read ≤ total_size) }
    ensures refused { IfRefused result (λ answer.
        IsProblemRefusal (S.files store.old) (option_copied root.entry) file.now (ending_of answer)) }
    ensures status { IfRefused result (λ answer. (answer.status ≡ 3) ⊎ (answer.status ≡ 7)) }
    ensures absence { IfRefused result (λ answer. Rose (S.absents store.old) (S.absents store.new)
        ⊎ SaysProblemFault (S.files store.old) (option_copied root.entry) file.now (ending_of answer)) }
    ensures cause { IfStopped result (λ stop. HasCause stop (Rose (S.faults store.old) (S.faults store.new)) ⊥) }
    ensures same_files { S.files store.new ≡ S.files store.old }
    ensures more_absents { S.absents store.old ≤ S.absents store.new }
    ensures more_faults { S.faults store.old ≤ S.faults store.new }
{
    match read_in_turn(alloc, store, file, keeps) {
        Ok(Some(found)) => Ok(found),
        Ok(None) => read_whole(alloc, store, root, file, keeps),
        Err(halt) => Err(halt),
    }
}

// What the problem in the file denotes, with all that it includes, which is read whole.
fn read_whole<S: Store>(
    alloc: Global,
    store: &mut S,
    root: Option<&str>,
    file: &str,
    keeps: bool,
) -> Result<Denotation, Halt>
    ensures is { IfOk result (λ d. IsDenotation (S.files store.old) (option_copied root.entry) file.now keeps d) }
    ensures in_budget { IfOk result (λ d. d.read ≤ total_size) }
    ensures refused { IfRefused result (λ answer.
        IsProblemRefusal (S.files store.old) (option_copied root.entry) file.now (ending_of answer)) }
    ensures status { IfRefused result (λ answer. (answer.status ≡ 3) ⊎ (answer.status ≡ 7)) }
    ensures absence { IfRefused result (λ answer. Rose (S.absents store.old) (S.absents store.new)
        ⊎ SaysProblemFault (S.files store.old) (option_copied root.entry) file.now (ending_of answer)) }
    ensures cause { IfStopped result (λ stop. HasCause stop (Rose (S.faults store.old) (S.faults store.new)) ⊥) }
    ensures same_files { S.files store.new ≡ S.files store.old }
    ensures more_absents { S.absents store.old ≤ S.absents store.new }
    ensures more_faults { S.faults store.old ≤ S.faults store.new }
{
    let files = read_files(alloc, store, root, file)?;
    let meaning = read_meaning(alloc, &files)?;
    Ok(with_counts(alloc, meaning, &files, keeps))
}

// The meaning of a problem, with what is counted of it.
fn with_counts(alloc: Global, meaning: Meaning, problem: &Problem, keeps: bool) -> Denotation
    ensures lines { result.lines ≡ kept keeps meaning.lines }
    ensures signature { result.signature ≡ meaning.signature }
    ensures formulas { result.formulas ≡ count_by is_formula problem.now.items }
    ensures read { result.read ≡ problem.now.read }
{
    let Meaning { lines, signature } = meaning;
    Denotation {
        lines: if keeps { lines } else { List::new(alloc) },
        signature,
        formulas: formula_count(problem.items.as_slice()),
        read: problem.read,
    }
}

// How many of the items are formulas.
fn formula_count(items: &[Item]) -> usize
    ensures { result ≡ count_by is_formula items.now }
{
    let mut count = 0;
    for item in items {
        if is_formula(item) {
            count += 1;
        }
    }
    count
}

// Whether the item is a formula.
fn is_formula(item: &Item) -> bool
    ensures { result ≡ is_formula item.now }
{
    matches!(item, Item::Formula(_))
}

// What the problem in the file denotes, taken item by item. Nothing where an include has to be replaced.
fn read_in_turn<S: Store>(
    alloc: Global,
    store: &mut S,
    file: &str,
    keeps: bool,
) -> Result<Option<Denotation>, Halt>
    ensures is { IfOk result (λ found. IfSome found (λ d. (root : option (list ℕ)) →
        IsDenotation (S.files store.old) root file.now keeps d)) }
    ensures in_budget { IfOk result (λ found. IfSome found (λ d. d.read ≤ total_size)) }
    ensures refused { IfRefused result (λ answer. (root : option (list ℕ)) →
        IsProblemRefusal (S.files store.old) root file.now (ending_of answer)) }
    ensures status { IfRefused result (λ answer. (answer.status ≡ 3) ⊎ (answer.status ≡ 7)) }
    ensures absence { IfRefused result (λ answer. (root : option (list ℕ)) →
        Rose (S.absents store.old) (S.absents store.new)
        ⊎ SaysProblemFault (S.files store.old) root file.now (ending_of answer)) }
    ensures cause { IfStopped result (λ stop. HasCause stop (Rose (S.faults store.old) (S.faults store.new)) ⊥) }
    ensures same_files { S.files store.new ≡ S.files store.old }
    ensures more_absents { S.absents store.old ≤ S.absents store.new }
    ensures more_faults { S.faults store.old ≤ S.faults store.new }
{
    match read_text(alloc, store, file, TOTAL_SIZE) {
        Ok(text) => denote_text(alloc, file, text.as_slice(), keeps),
        Err(halt) => Err(halt),
    }
}
