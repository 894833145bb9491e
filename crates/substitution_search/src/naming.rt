//! Literals whose variables get other names.
ghost use Rattle.std.specs.Prelude.{◌≡◌, map, IfOk};
ghost use Rattle.fof_terms.specs.declared.term.Term.{Var};
ghost use Rattle.clause_form.specs.Covers.{at_terms};
ghost use Rattle.clause_form.specs.Images.{image};
ghost use Rattle.substitution_search.specs.CoverSearch.{named, near, over};

use clause_form::{AtomOf, Lit};
use fof_terms::Term;
use std::alloc::Global;
use tptp_base::{List, Memory};

/// The literal with these names for its variables, that of the nearest one last. Variables that are farther than all of
/// these are numbered from 0.
pub fn lit_named(alloc: Global, lit: &Lit, names: &[u32]) -> Result<Lit, Memory>
    ensures { IfOk result (λ made. made ≡ named (near names.now) lit.now) }
{
    let atom = atom_named(alloc, &lit.atom, names)?;
    Ok(Lit {
        positive: lit.positive,
        atom,
    })
}

/// The literals with these names for their variables.
pub fn lits_named(alloc: Global, lits: &[Lit], names: &[u32]) -> Result<List<Lit>, Memory>
    ensures { IfOk result (λ made. made ≡ map (named (near names.now)) lits.now) }
{
    let mut made = List::new(alloc);
    for lit in lits {
        made.push(lit_named(alloc, lit, names)?)?;
    }
    Ok(made)
}

// The atom with these names.
fn atom_named(alloc: Global, atom: &AtomOf, names: &[u32]) -> Result<AtomOf, Memory>
    ensures { IfOk result (λ made. made ≡ at_terms (image (over (near names.now) Var)) atom.now) }
{
    match atom {
        AtomOf::Pred(symbol, args) => Ok(AtomOf::Pred(
            *symbol,
            terms_named(args.as_slice(), alloc, names)?,
        )),
        AtomOf::Eq(left, right) => Ok(AtomOf::Eq(
            term_named(left, alloc, names)?,
            term_named(right, alloc, names)?,
        )),
        AtomOf::True => Ok(AtomOf::True),
        AtomOf::False => Ok(AtomOf::False),
    }
}

// The term with these names.
#[tactic(auto, using(crate::proofs::Names::image_equations))]
#[cycle(term_named)]
fn term_named(term: &Term, alloc: Global, names: &[u32]) -> Result<Term, Memory>
    ensures { IfOk result (λ made. made ≡ image (over (near names.now) Var) term.now) }
{
    match term {
        Term::Var(variable) => Ok(Term::Var(name_of(*variable, names))),
        Term::App(function, args) => Ok(Term::App(
            *function,
            terms_named(args.as_slice(), alloc, names)?,
        )),
    }
}

#[cycle(term_named)]
fn terms_named(terms: &[Term], alloc: Global, names: &[u32]) -> Result<List<Term>, Memory>
    ensures { IfOk result (λ made. made ≡ map (image (over (near names.now) Var)) terms.now) }
{
    let mut made = List::new(alloc);
    for term in terms {
        made.push(term_named(term, alloc, names)?)?;
    }
    Ok(made)
}

// The name of a variable.
fn name_of(variable: u32, names: &[u32]) -> u32
    ensures { Var result ≡ over (near names.now) Var variable }
{
    let at = variable as usize;
    if at < names.len() {
        names[names.len() - 1 - at]
    } else {
        (at - names.len()) as u32
    }
}
