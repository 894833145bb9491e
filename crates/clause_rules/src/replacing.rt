//! Every occurrence of a term in literals gives way to another term.
ghost use Rattle.std.specs.Prelude.{IfOk};
ghost use Rattle.clause_rules.specs.RewriteRule.{AreLitsRewritten, AreRewritten, IsAtomRewritten, IsRewritten};

use clause_form::{AtomOf, Lit};
use fof_terms::{Term, equal_term};
use std::alloc::Global;
use tptp_base::{List, Memory};

/// The literals with the new term in place of each occurrence of the target.
pub fn replace_in_lits(
    alloc: Global,
    lits: &[Lit],
    target: &Term,
    new: &Term,
) -> Result<List<Lit>, Memory>
    ensures { IfOk result (λ made. AreLitsRewritten target.now new.now lits.now made) }
{
    let mut made = List::new(alloc);
    for lit in lits {
        let atom = replace_in_atom(alloc, &lit.atom, target, new)?;
        made.push(Lit {
            positive: lit.positive,
            atom,
        })?;
    }
    Ok(made)
}

// The atom with the new term in place of each occurrence of the target.
fn replace_in_atom(
    alloc: Global,
    atom: &AtomOf,
    target: &Term,
    new: &Term,
) -> Result<AtomOf, Memory>
    ensures { IfOk result (λ made. IsAtomRewritten target.now new.now atom.now made) }
{
    match atom {
        AtomOf::Pred(symbol, args) => Ok(AtomOf::Pred(
            *symbol,
            replace_in_terms(args.as_slice(), alloc, target, new)?,
        )),
        AtomOf::Eq(left, right) => Ok(AtomOf::Eq(
            replace_in_term(left, alloc, target, new)?,
            replace_in_term(right, alloc, target, new)?,
        )),
        AtomOf::True => Ok(AtomOf::True),
        AtomOf::False => Ok(AtomOf::False),
    }
}

// The term with the new one in place of each occurrence of the target.
#[cycle(replace_in_term)]
fn replace_in_term(term: &Term, alloc: Global, target: &Term, new: &Term) -> Result<Term, Memory>
    ensures { IfOk result (λ made. IsRewritten target.now new.now term.now made) }
{
    if equal_term(term, target) {
        return Ok(new.copy(alloc)?);
    }
    match term {
        Term::Var(variable) => Ok(Term::Var(*variable)),
        Term::App(function, args) => Ok(Term::App(
            *function,
            replace_in_terms(args.as_slice(), alloc, target, new)?,
        )),
    }
}

#[cycle(replace_in_term)]
fn replace_in_terms(
    terms: &[Term],
    alloc: Global,
    target: &Term,
    new: &Term,
) -> Result<List<Term>, Memory>
    ensures { IfOk result (λ made. AreRewritten target.now new.now terms.now made) }
{
    let mut made = List::new(alloc);
    for term in terms {
        made.push(replace_in_term(term, alloc, target, new)?)?;
    }
    Ok(made)
}
