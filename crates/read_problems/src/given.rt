// The theory of what a problem gives.
ghost use Rattle.std.specs.Prelude.{◌≡◌, ◌⊎◌, ◌≤◌, ◌∷◌, [], ◌++◌, IfOk, OnOk, map, reverse};
ghost use Rattle.std.specs.Option.{option_copied};
ghost use Rattle.tptp_base.specs.Count.{Rose};
ghost use Rattle.sort_check.specs.Given.{given_entries};
ghost use Rattle.sort_check.specs.Sorting.{AreSorted};
ghost use Rattle.read_problems.specs.Answer.{ending_of};
ghost use Rattle.read_problems.specs.Given.{given_theory, IsGiven};
ghost use Rattle.read_problems.specs.Denoted.{IsProblemRefusal};
ghost use Rattle.read_problems.specs.OtherFaults.{SaysProblemFault};
ghost use Rattle.read_problems.specs.Stop.{HasCause, IfRefused, IfStopped};
ghost use Rattle.read_problems.specs.declared.refusals.TheConstants.{TOTAL_SIZE};

use crate::denotations::{Denotation, read_denotation};
use crate::stop::Halt;
use fof_terms::{Form, Signature};
use proof_check::Theory;
use sort_check::{GivenEntry, Line, give_all};
use std::alloc::Global;
use tptp_base::{List, Memory, Role, Store};

/// The theory of what a problem gives, and how many bytes its files have.
#[derive(Drop)]
pub struct Given {
    pub theory: Theory,
    pub read: u64,
}

/// What the problem in the file gives, with all that it includes. The first fault is refused. No formula is copied.
#[tactic(auto, using(crate::proofs::Givens::denoted_given, crate::proofs::Givens::kept_sorted))]
pub fn read_given<S: Store>(
    alloc: Global,
    store: &mut S,
    root: Option<&str>,
    file: &str,
) -> Result<Given, Halt>
    ensures is { IfOk result (λ given.
        IsGiven (S.files store.old) (option_copied root.entry) file.now given.theory given.read) }
    ensures in_budget { IfOk result (λ given. given.read ≤ TOTAL_SIZE) }
    ensures refused { IfRefused result (λ answer.
        IsProblemRefusal (S.files store.old) (option_copied root.entry) file.now (ending_of answer)) }
    ensures status { IfRefused result (λ answer. (answer.status ≡ 3) ⊎ (answer.status ≡ 7)) }
    ensures absence { IfRefused result (λ answer. Rose (S.absents store.old) (S.absents store.new)
        ⊎ SaysProblemFault (S.files store.old) (option_copied root.entry) file.now (ending_of answer)) }
    ensures cause { IfStopped result (λ stop. HasCause stop (Rose (S.faults store.old) (S.faults store.new)) ⊥) }
    ensures same_files { S.files store.new ≡ S.files store.old }
    ensures more_absents { S.absents store.old ≤ S.absents store.new }
    ensures more_faults { S.faults store.old ≤ S.faults store.new }
{
    let Denotation {
        lines,
        signature,
        read,
        ..
    } = read_denotation(alloc, store, root, file, true)?;
    let theory = theory_of(alloc, signature, lines)?;
    Ok(Given { theory, read })
}

// The theory of what the lines of a problem give.
fn theory_of(alloc: Global, signature: Signature, lines: List<Line>) -> Result<Theory, Memory>
    requires sorted { AreSorted signature lines }
    ensures { IfOk result (λ theory. theory ≡ given_theory lines signature) }
{
    let forms = forms_of(alloc, lines)?;
    Theory::start(alloc, signature, forms)
}

// The formulas that the lines give, which are let go on the way.
fn forms_of(alloc: Global, lines: List<Line>) -> Result<List<Form>, Memory>
    ensures { IfOk result (λ forms. forms ≡ map (λ entry. entry.form) (given_entries lines)) }
{
    let mut left = forms_reversed(alloc, lines)?;
    let mut forms = List::new(alloc);
    while let Some(form) = left.pop() {
        forms.push(form)?;
    }
    Ok(forms)
}

// The same, the last one first.
#[tactic(auto, using(crate::proofs::GivenForms::given_before))]
fn forms_reversed(alloc: Global, lines: List<Line>) -> Result<List<Form>, Memory>
    ensures { IfOk result (λ forms. reverse forms ≡ map (λ entry. entry.form) (given_entries lines)) }
{
    let mut forms = List::new(alloc);
    let mut left = lines;
    while let Some(line) = left.pop() {
        give(alloc, line, &mut forms)?;
    }
    Ok(forms)
}

// Adds the formula that the line gives, if it gives one. An axiom, as most lines are, gives its own.
#[tactic(auto, using(crate::proofs::GivenForms::axiom_gives))]
fn give(alloc: Global, line: Line, forms: &mut List<Form>) -> Result<(), Memory>
    ensures { OnOk result (forms.new ≡ forms.old ++ map (λ entry. entry.form) (given_entries (line ∷ []))) }
{
    if line.role == Role::Axiom {
        forms.push(line.form)?;
        Ok(())
    } else {
        give_one(alloc, line, forms)
    }
}

// The same for a line of any role.
#[tactic(auto, using(crate::proofs::GivenForms::one_given, crate::proofs::GivenForms::none_given))]
fn give_one(alloc: Global, line: Line, forms: &mut List<Form>) -> Result<(), Memory>
    ensures { OnOk result (forms.new ≡ forms.old ++ map (λ entry. entry.form) (given_entries (line ∷ []))) }
{
    let mut lines = List::new(alloc);
    lines.push(line)?;
    let mut given = give_all(alloc, lines)?;
    match given.pop() {
        Some(entry) => {
            forms.push(entry.form)?;
            Ok(())
        }
        None => Ok(()),
    }
}

/// The entries, the last one first.
pub fn reversed(alloc: Global, entries: List<GivenEntry>) -> Result<List<GivenEntry>, Memory>
    ensures { IfOk result (λ list. list ≡ reverse entries) }
{
    let mut list = List::new(alloc);
    let mut left = entries;
    while let Some(last) = left.pop() {
        list.push(last)?;
    }
    Ok(list)
}
