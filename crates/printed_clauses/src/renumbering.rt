// Clauses over functions that have other numbers.
ghost use Rattle.std.specs.Prelude.{◌≡◌, IfOk, map};
ghost use Rattle.clause_form.specs.Covers.{at_terms, in_lit};
ghost use Rattle.printed_clauses.specs.Renumbered.{new_number as number_of, renumbered, renumbered_clause};

use clause_form::{AtomOf, Clause, Lit};
use fof_terms::{SymId, Term};
use std::alloc::Global;
use tptp_base::{List, Memory};

/// The clause with new numbers for the functions from `first` on.
pub fn renumber(
    alloc: Global,
    clause: &Clause,
    first: SymId,
    numbers: &[SymId],
) -> Result<Clause, Memory>
    ensures { IfOk result (λ made. made ≡ renumbered_clause (number_of first numbers.now) clause.now) }
{
    let mut lits = List::new(alloc);
    for lit in clause.lits.as_slice() {
        lits.push(renumber_lit(alloc, lit, first, numbers)?)?;
    }
    Ok(Clause {
        sorts: List::from_slice(alloc, clause.sorts.as_slice())?,
        lits,
    })
}

fn renumber_lit(alloc: Global, lit: &Lit, first: SymId, numbers: &[SymId]) -> Result<Lit, Memory>
    ensures { IfOk result (λ made. made ≡ in_lit (renumbered (number_of first numbers.now)) lit.now) }
{
    Ok(Lit {
        positive: lit.positive,
        atom: renumber_atom(alloc, &lit.atom, first, numbers)?,
    })
}

fn renumber_atom(
    alloc: Global,
    atom: &AtomOf,
    first: SymId,
    numbers: &[SymId],
) -> Result<AtomOf, Memory>
    ensures { IfOk result (λ made. made ≡ at_terms (renumbered (number_of first numbers.now)) atom.now) }
{
    match atom {
        AtomOf::Pred(symbol, args) => {
            Ok(AtomOf::Pred(
                *symbol,
                renumber_terms(alloc, args.as_slice(), first, numbers)?,
            ))
        }
        AtomOf::Eq(left, right) => {
            let left = renumber_term(alloc, left, first, numbers)?;
            let right = renumber_term(alloc, right, first, numbers)?;
            Ok(AtomOf::Eq(left, right))
        }
        AtomOf::True => Ok(AtomOf::True),
        AtomOf::False => Ok(AtomOf::False),
    }
}

#[cycle(renumber_term)]
#[tactic(auto, using(crate::proofs::RenumberedFacts::renumbered_equations))]
fn renumber_term(
    alloc: Global,
    term: &Term,
    first: SymId,
    numbers: &[SymId],
) -> Result<Term, Memory>
    ensures { IfOk result (λ made. made ≡ renumbered (number_of first numbers.now) term.now) }
{
    match term {
        Term::Var(variable) => Ok(Term::Var(*variable)),
        Term::App(function, args) => {
            let function = new_number(*function, first, numbers);
            Ok(Term::App(
                function,
                renumber_terms(alloc, args.as_slice(), first, numbers)?,
            ))
        }
    }
}

#[cycle(renumber_term)]
#[tactic(auto, using(crate::proofs::RenumberedFacts::renumbered_equations))]
fn renumber_terms(
    alloc: Global,
    terms: &[Term],
    first: SymId,
    numbers: &[SymId],
) -> Result<List<Term>, Memory>
    ensures { IfOk result (λ made. made ≡ map (renumbered (number_of first numbers.now)) terms.now) }
{
    let mut made = List::new(alloc);
    for term in terms {
        made.push(renumber_term(alloc, term, first, numbers)?)?;
    }
    Ok(made)
}

// The new number of a function.
fn new_number(function: SymId, first: SymId, numbers: &[SymId]) -> SymId
    ensures { result ≡ number_of first numbers.now function }
{
    if function < first {
        return function;
    }
    match numbers.get((function - first) as usize) {
        Some(number) => *number,
        None => function,
    }
}
