//! Terms of a second premise, whose variables are kept apart from those of the first.
ghost use Rattle.std.specs.Prelude.{◌≡◌, map, IfOk};
ghost use Rattle.fof_terms.specs.Lift.{lifted_term};
ghost use Rattle.clause_form.specs.Covers.{at_terms, lit_apart};

use clause_form::{AtomOf, Lit};
use fof_terms::Term;
use std::alloc::Global;
use tptp_base::{List, Memory};

/// The literal with its variables moved past so many others. A number over 32 bits is answered by want of memory.
pub fn lit_moved(alloc: Global, lit: &Lit, by: u32) -> Result<Lit, Memory>
    ensures { IfOk result (λ made. made ≡ lit_apart by lit.now) }
{
    let atom = atom_moved(alloc, &lit.atom, by)?;
    Ok(Lit {
        positive: lit.positive,
        atom,
    })
}

// The atom with its variables moved.
fn atom_moved(alloc: Global, atom: &AtomOf, by: u32) -> Result<AtomOf, Memory>
    ensures { IfOk result (λ made. made ≡ at_terms (lifted_term by 0) atom.now) }
{
    match atom {
        AtomOf::Pred(symbol, args) => Ok(AtomOf::Pred(
            *symbol,
            all_moved(args.as_slice(), alloc, by)?,
        )),
        AtomOf::Eq(left, right) => {
            let left = moved(left, alloc, by)?;
            Ok(AtomOf::Eq(left, moved(right, alloc, by)?))
        }
        AtomOf::True => Ok(AtomOf::True),
        AtomOf::False => Ok(AtomOf::False),
    }
}

/// The term with its variables moved.
#[tactic(auto, using(fof_terms::proofs::LiftFacts::lift_equations))]
#[cycle(moved)]
pub fn moved(term: &Term, alloc: Global, by: u32) -> Result<Term, Memory>
    ensures { IfOk result (λ made. made ≡ lifted_term by 0 term.now) }
{
    match term {
        Term::Var(variable) => match variable.checked_add(by) {
            Some(number) => Ok(Term::Var(number)),
            None => Err(Memory),
        },
        Term::App(symbol, args) => Ok(Term::App(*symbol, all_moved(args.as_slice(), alloc, by)?)),
    }
}

#[cycle(moved)]
fn all_moved(terms: &[Term], alloc: Global, by: u32) -> Result<List<Term>, Memory>
    ensures { IfOk result (λ made. made ≡ map (lifted_term by 0) terms.now) }
{
    let mut made = Vec::with_capacity(alloc, terms.len())?;
    for term in terms {
        made.push(moved(term, alloc, by)?)?;
    }
    Ok(List::from_vec(made))
}
