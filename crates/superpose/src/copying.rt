//! Terms again, in no more memory than they need.
ghost use Rattle.std.specs.Prelude.{◌≡◌, IfOk};

use fof_terms::Term;
use std::alloc::Global;
use tptp_base::{List, Memory};

/// The same term. A list of arguments has no more room than it needs, since a search keeps many.
#[cycle(copied)]
pub fn copied(term: &Term, alloc: Global) -> Result<Term, Memory>
    ensures { IfOk result (λ copy. copy ≡ term.now) }
{
    match term {
        Term::Var(variable) => Ok(Term::Var(*variable)),
        Term::App(symbol, args) => Ok(Term::App(*symbol, all_copied(args.as_slice(), alloc)?)),
    }
}

#[cycle(copied)]
fn all_copied(terms: &[Term], alloc: Global) -> Result<List<Term>, Memory>
    ensures { IfOk result (λ copies. copies ≡ terms.now) }
{
    let mut copies = Vec::with_capacity(alloc, terms.len())?;
    for term in terms {
        copies.push(copied(term, alloc)?)?;
    }
    Ok(List::from_vec(copies))
}
