// What stands in one formula for the variables of another of the same build.
ghost use Rattle.std.specs.Prelude.{◌≡◌, ℕ, IfOk, map};
ghost use Rattle.clause_form.specs.ClauseView.{all_there};
ghost use Rattle.skolem_fresh.specs.code.Reading.{found_term, found_in, variable_of as variable_in};
ghost use Rattle.skolem_fresh.specs.code.Reading.{use_of as use_in, read as read_in, read_from as read_from_in};

use crate::just::Use;
use crate::leaves::Leaf;
use fof_terms::{SortId, Term};
use std::alloc::Global;
use tptp_base::{List, Memory};

// The term that stands in the second where the variable stands first in the first.
#[cycle(term_at)]
#[tactic(auto, using(crate::proofs::ReadingFacts::reading_equations))]
fn term_at(alloc: Global, number: u32, term: &Term, other: &Term) -> Result<Option<Term>, Memory>
    ensures { IfOk result (λ found. found ≡ found_term number term.now other.now) }
{
    match term {
        Term::Var(distance) if *distance == number => Ok(Some(other.copy(alloc)?)),
        Term::Var(_) => Ok(None),
        Term::App(_, args) => match other {
            Term::Var(_) => Ok(None),
            Term::App(_, others) => term_in(alloc, number, args.as_slice(), others.as_slice()),
        },
    }
}

// The same of the first pair of terms, at one place, in which it finds one.
#[cycle(term_at)]
#[tactic(auto, using(crate::proofs::ReadingFacts::reading_equations))]
fn term_in(
    alloc: Global,
    number: u32,
    terms: &[Term],
    others: &[Term],
) -> Result<Option<Term>, Memory>
    ensures { IfOk result (λ found. found ≡ found_in (map (found_term number) terms.now) others.now) }
{
    for i in 0..terms.len() {
        if i >= others.len() {
            return Ok(None);
        }
        let found = term_at(alloc, number, &terms[i], &others[i])?;
        if let Some(term) = found {
            return Ok(Some(term));
        }
    }
    Ok(None)
}

// The variable that the term is, so many quantifiers further out.
#[tactic(auto, using(crate::proofs::ReadingFacts::reading_equations))]
fn variable_of(term: &Term, depth: u32) -> Option<u32>
    ensures { result ≡ variable_in depth term.now }
{
    match term {
        Term::Var(distance) if *distance < depth => None,
        Term::Var(distance) => Some(*distance - depth),
        Term::App(_, _) => None,
    }
}

// The variables that the terms are, where each is one.
fn variables_of(alloc: Global, terms: &[Term], depth: u32) -> Result<Option<List<u32>>, Memory>
    ensures { IfOk result (λ found. found ≡ all_there (map (variable_in depth) terms.now)) }
{
    let mut variables = List::new(alloc);
    for term in terms {
        match variable_of(term, depth) {
            Some(variable) => variables.push(variable)?,
            None => return Ok(None),
        }
    }
    Ok(Some(variables))
}

// The function and the variables of which the term is the value, so many quantifiers further out.
#[tactic(auto, using(crate::proofs::ReadingFacts::reading_equations))]
fn use_of(alloc: Global, term: &Term, depth: u32, sort: SortId) -> Result<Option<Use>, Memory>
    ensures { IfOk result (λ found. found ≡ use_in depth sort term.now) }
{
    match term {
        Term::Var(_) => Ok(None),
        Term::App(function, args) => match variables_of(alloc, args.as_slice(), depth)? {
            Some(variables) => Ok(Some(Use {
                function: *function,
                variables,
                sort,
            })),
            None => Ok(None),
        },
    }
}

// The value that stands in the second list of terms where the nearest variable outside of the first stands first.
pub(crate) fn read(
    alloc: Global,
    sort: SortId,
    leaves: &[Leaf],
    others: &[Leaf],
) -> Result<Option<Use>, Memory>
    ensures { IfOk result (λ found. found ≡ read_in sort leaves.now others.now) }
{
    read_from(alloc, 0, sort, leaves, others)
}

// The same where the second stands under so many quantifiers, which are outside of it.
pub(crate) fn read_from(
    alloc: Global,
    outer: u32,
    sort: SortId,
    leaves: &[Leaf],
    others: &[Leaf],
) -> Result<Option<Use>, Memory>
    ensures { IfOk result (λ found. found ≡ read_from_in outer sort leaves.now others.now) }
{
    for i in 0..leaves.len() {
        if i >= others.len() {
            return Ok(None);
        }
        let found = term_at(alloc, leaves[i].depth, &leaves[i].term, &others[i].term)?;
        if let Some(term) = found {
            let depth = others[i].depth.saturating_sub(outer);
            return use_of(alloc, &term, depth, sort);
        }
    }
    Ok(None)
}
