// What a problem gives to its derivation.
ghost use Rattle.std.specs.Prelude.{◌≡◌, ◌++◌, [], reverse, OnOk, IfOk};
ghost use Rattle.fof_terms.specs.Vocabulary.{Vocabulary};
ghost use Rattle.sort_check.specs.Given.{given_entries, given_form, with_entry};
ghost use Rattle.sort_check.specs.Sorting.{AreSorted, AreGivenSorted};

use crate::formulas::negation;
use crate::line::{GivenEntry, Line};
use fof_terms::Form;
use std::alloc::Global;
use tptp_base::{List, Memory, Role};

/// The formulas that a problem gives, in order: those of roles axiom, hypothesis, definition, assumption, lemma,
/// theorem, corollary and negated_conjecture as they are, and the conjecture negated. Other roles give nothing.
///
/// Where the formulas of the lines are closed and well-sorted, those that are given are so too.
#[tactic(auto, using(crate::proofs::GivenSorts::given_sorted))]
pub fn given(alloc: Global, lines: &[Line]) -> Result<List<GivenEntry>, Memory>
    ensures entries { IfOk result (λ entries. entries ≡ given_entries lines.now) }
    ensures sorted { IfOk result (λ entries. (v : Vocabulary) → AreSorted v lines.now → AreGivenSorted v entries) }
{
    entries_of(alloc, lines)
}

/// What `given` gives, of lines that are let go on the way. No formula is copied.
pub fn give_all(alloc: Global, lines: List<Line>) -> Result<List<GivenEntry>, Memory>
    ensures entries { IfOk result (λ entries. entries ≡ given_entries lines) }
    ensures sorted { IfOk result (λ entries. (v : Vocabulary) → AreSorted v lines → AreGivenSorted v entries) }
{
    entries_from(alloc, reversed(alloc, lines)?)
}

// The lines, the last one first.
fn reversed(alloc: Global, lines: List<Line>) -> Result<List<Line>, Memory>
    ensures { IfOk result (λ list. list ≡ reverse lines) }
{
    let mut list = List::new(alloc);
    let mut left = lines;
    while let Some(last) = left.pop() {
        list.push(last)?;
    }
    Ok(list)
}

// The formulas that lines give whose last one comes first.
fn entries_from(alloc: Global, lines: List<Line>) -> Result<List<GivenEntry>, Memory>
    ensures { IfOk result (λ entries. entries ≡ given_entries (reverse lines)) }
{
    let mut entries = List::new(alloc);
    let mut left = lines;
    while let Some(line) = left.pop() {
        give(alloc, line, &mut entries)?;
    }
    Ok(entries)
}

// What a line gives, behind the entries that are there.
fn give(alloc: Global, line: Line, entries: &mut List<GivenEntry>) -> Result<(), Memory>
    ensures { OnOk result (entries.new ≡ entries.old ++ with_entry line (given_form line.role line.form) []) }
{
    let Line {
        name,
        role,
        form,
        ..
    } = line;
    match formula_given(alloc, role, form)? {
        Some(form) => {
            entries.push(GivenEntry { name, role, form })?;
            Ok(())
        }
        None => Ok(()),
    }
}

// The formula that one of this role gives.
fn formula_given(alloc: Global, role: Role, form: Form) -> Result<Option<Form>, Memory>
    ensures { IfOk result (λ found. found ≡ given_form role form) }
{
    match role {
        Role::Axiom
        | Role::Hypothesis
        | Role::Definition
        | Role::Assumption
        | Role::Lemma
        | Role::Theorem
        | Role::Corollary
        | Role::NegatedConjecture => Ok(Some(form)),
        Role::Conjecture => Ok(Some(negation(alloc, form)?)),
        Role::Plain
        | Role::Typing
        | Role::FiDomain
        | Role::FiFunctors
        | Role::FiPredicates
        | Role::Unknown => Ok(None),
    }
}

// The formulas that lines give, in order.
fn entries_of(alloc: Global, lines: &[Line]) -> Result<List<GivenEntry>, Memory>
    ensures { IfOk result (λ entries. entries ≡ given_entries lines.now) }
{
    let mut entries = List::new(alloc);
    for line in lines {
        add_entry(alloc, line, &mut entries)?;
    }
    Ok(entries)
}

// What a line gives, behind the entries that are there.
fn add_entry(alloc: Global, line: &Line, entries: &mut List<GivenEntry>) -> Result<(), Memory>
    ensures { OnOk result (entries.new ≡ entries.old
        ++ with_entry line.now (given_form line.now.role line.now.form) []) }
{
    match given_formula(alloc, line.role, &line.form)? {
        Some(form) => {
            let name = line.name.copy(alloc)?;
            entries.push(GivenEntry {
                name,
                role: line.role,
                form,
            })?;
            Ok(())
        }
        None => Ok(()),
    }
}

// The formula that one of this role gives.
fn given_formula(alloc: Global, role: Role, form: &Form) -> Result<Option<Form>, Memory>
    ensures { IfOk result (λ found. found ≡ given_form role form.now) }
{
    match role {
        Role::Axiom
        | Role::Hypothesis
        | Role::Definition
        | Role::Assumption
        | Role::Lemma
        | Role::Theorem
        | Role::Corollary
        | Role::NegatedConjecture => Ok(Some(form.copy(alloc)?)),
        Role::Conjecture => Ok(Some(negation(alloc, form.copy(alloc)?)?)),
        Role::Plain
        | Role::Typing
        | Role::FiDomain
        | Role::FiFunctors
        | Role::FiPredicates
        | Role::Unknown => Ok(None),
    }
}
