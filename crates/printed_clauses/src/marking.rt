// Which variables of a clause occur.
ghost use Rattle.std.specs.Prelude.{◌==◌, length, IfOk};
ghost use Rattle.std.specs.List.{list_any};
ghost use Rattle.fof_terms.specs.Variables.{has_in_term};
ghost use Rattle.printed_clauses.specs.Trimmed.{has_in_atom, occurs_in};
ghost use Rattle.printed_clauses.specs.Marks.{AreUnmarked, Marks};
ghost use Rattle.printed_clauses.specs.code.Marked.{AreMarks};

use clause_form::{AtomOf, Clause, Lit};
use fof_terms::Term;
use std::alloc::Global;
use tptp_base::{List, Memory};

/// A mark for each variable of the clause: whether it occurs.
pub(crate) fn marks_of(alloc: Global, clause: &Clause) -> Result<List<bool>, Memory>
    ensures { IfOk result (AreMarks (occurs_in clause.now.lits) (length clause.now.sorts)) }
{
    let mut marks = unmarked(alloc, clause.sorts.len())?;
    mark_lits(clause.lits.as_slice(), &mut marks);
    Ok(marks)
}

/// So many places, none of which is marked.
pub fn unmarked(alloc: Global, count: usize) -> Result<List<bool>, Memory>
    ensures { IfOk result (AreUnmarked count) }
{
    let mut marks = List::new(alloc);
    for _ in 0..count {
        marks.push(false)?;
    }
    Ok(marks)
}

// Marks the variables of literals.
fn mark_lits(lits: &[Lit], marks: &mut List<bool>)
    ensures { Marks (occurs_in lits.now) marks.old marks.new }
{
    for lit in lits {
        mark_atom(&lit.atom, marks);
    }
}

// Marks the variables of an atom.
fn mark_atom(atom: &AtomOf, marks: &mut List<bool>)
    ensures { Marks (λ k. has_in_atom k atom.now) marks.old marks.new }
{
    match atom {
        AtomOf::Pred(_, args) => mark_terms(args.as_slice(), marks),
        AtomOf::Eq(left, right) => {
            mark_term(left, marks);
            mark_term(right, marks);
        }
        AtomOf::True | AtomOf::False => {}
    }
}

// Marks the variables of a term.
#[cycle(mark_term)]
fn mark_term(term: &Term, marks: &mut List<bool>)
    ensures { Marks (λ k. has_in_term k term.now) marks.old marks.new }
{
    match term {
        Term::Var(variable) => mark(*variable as usize, marks),
        Term::App(_, args) => mark_terms(args.as_slice(), marks),
    }
}

// Marks the variables of terms.
#[cycle(mark_term)]
fn mark_terms(terms: &[Term], marks: &mut List<bool>)
    ensures { Marks (λ k. list_any (has_in_term k) terms.now) marks.old marks.new }
{
    for term in terms {
        mark_term(term, marks);
    }
}

/// Marks one place, where it is there.
#[tactic(auto, using(crate::proofs::MarkingFacts::marks_of_one))]
pub fn mark(place: usize, marks: &mut List<bool>)
    ensures { Marks (λ k. place == k) marks.old marks.new }
{
    if place < marks.len() {
        marks.set(place, true);
    }
}
