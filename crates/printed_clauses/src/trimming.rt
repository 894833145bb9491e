// Clauses without the sorts of variables that do not occur.
ghost use Rattle.std.specs.Prelude.{◌≡◌, ◌+◌, ◌++◌, ◌∷◌, [], if◌then◌else◌, length, IfOk, OnOk, map};
ghost use Rattle.clause_form.specs.Covers.{at_terms, in_lit};
ghost use Rattle.unify_terms.specs.Substitution.{instance};
ghost use Rattle.printed_clauses.specs.Trimmed.{kept_sorts, new_variables, trimmed};
ghost use Rattle.printed_clauses.specs.Marks.{is_marked};

use crate::marking::marks_of;
use clause_form::{AtomOf, Clause, Lit};
use fof_terms::{SortId, Term};
use std::alloc::Global;
use tptp_base::{List, Memory};
use unify_terms::{Subst, apply};

/// The clause without the sorts whose variables occur in none of its literals. The other variables keep their order.
pub fn trim(alloc: Global, clause: &Clause) -> Result<Clause, Memory>
    ensures { IfOk result (λ made. made ≡ trimmed clause.now) }
{
    let marks = marks_of(alloc, clause)?;
    let subst = new_numbers(alloc, marks.as_slice())?;
    let sorts = sorts_left(alloc, clause.sorts.as_slice(), marks.as_slice())?;
    Ok(Clause {
        sorts,
        lits: instances(alloc, clause.lits.as_slice(), &subst)?,
    })
}

// For each variable the one of its new number.
fn new_numbers(alloc: Global, marks: &[bool]) -> Result<Subst, Memory>
    ensures { IfOk result (λ subst. subst ≡ new_variables (is_marked marks.now) (length marks.now)) }
{
    let mut images = List::new(alloc);
    let mut number = 0;
    for is_kept in marks {
        images.push(Term::Var(number))?;
        number = number_behind(number, *is_kept)?;
    }
    Ok(Subst { images })
}

// The number behind that of a variable, which is its own where the variable is not kept.
fn number_behind(number: u32, is_kept: bool) -> Result<u32, Memory>
    ensures { IfOk result (λ next. next ≡ number + (if is_kept then 1 else 0)) }
{
    if !is_kept {
        return Ok(number);
    }
    match number.checked_add(1) {
        Some(next) => Ok(next),
        // No memory holds so many variables.
        None => Err(Memory),
    }
}

// The sorts of marked variables.
fn sorts_left(alloc: Global, sorts: &[SortId], marks: &[bool]) -> Result<List<SortId>, Memory>
    requires { length marks.now ≡ length sorts.now }
    ensures { IfOk result (λ kept. kept ≡ kept_sorts (is_marked marks.now) sorts.now) }
{
    let mut kept = List::new(alloc);
    for at in 0..sorts.len() {
        push_if(marks[sorts.len() - 1 - at], sorts[at], &mut kept)?;
    }
    Ok(kept)
}

// Adds the sort, if its variable is kept.
fn push_if(is_kept: bool, sort: SortId, kept: &mut List<SortId>) -> Result<(), Memory>
    ensures { OnOk result (kept.new ≡ kept.old ++ (if is_kept then sort ∷ [] else [])) }
{
    if !is_kept {
        return Ok(());
    }
    kept.push(sort)?;
    Ok(())
}

// The instances of literals.
fn instances(alloc: Global, lits: &[Lit], subst: &Subst) -> Result<List<Lit>, Memory>
    ensures { IfOk result (λ made. made ≡ map (in_lit (instance subst.now)) lits.now) }
{
    let mut made = List::new(alloc);
    for lit in lits {
        made.push(instance_of_lit(alloc, lit, subst)?)?;
    }
    Ok(made)
}

fn instance_of_lit(alloc: Global, lit: &Lit, subst: &Subst) -> Result<Lit, Memory>
    ensures { IfOk result (λ made. made ≡ in_lit (instance subst.now) lit.now) }
{
    Ok(Lit {
        positive: lit.positive,
        atom: instance_of_atom(alloc, &lit.atom, subst)?,
    })
}

fn instance_of_atom(alloc: Global, atom: &AtomOf, subst: &Subst) -> Result<AtomOf, Memory>
    ensures { IfOk result (λ made. made ≡ at_terms (instance subst.now) atom.now) }
{
    match atom {
        AtomOf::Pred(symbol, args) => {
            Ok(AtomOf::Pred(*symbol, instances_of(alloc, args.as_slice(), subst)?))
        }
        AtomOf::Eq(left, right) => {
            let left = apply(alloc, subst, left)?;
            let right = apply(alloc, subst, right)?;
            Ok(AtomOf::Eq(left, right))
        }
        AtomOf::True => Ok(AtomOf::True),
        AtomOf::False => Ok(AtomOf::False),
    }
}

fn instances_of(alloc: Global, terms: &[Term], subst: &Subst) -> Result<List<Term>, Memory>
    ensures { IfOk result (λ made. made ≡ map (instance subst.now) terms.now) }
{
    let mut made = List::new(alloc);
    for term in terms {
        made.push(apply(alloc, subst, term)?)?;
    }
    Ok(made)
}
