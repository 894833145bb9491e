ghost use Rattle.std.specs.Prelude.{◌≡◌, IfOk, map};
ghost use Rattle.clause_form.specs.ClauseView.{closed, closed_by as closed_over, form_of_atom as atom_form};
ghost use Rattle.clause_form.specs.ClauseView.{form_of_lit as lit_form, form_of_lits as lits_form};

use crate::clause::{AtomOf, Clause, Lit};
use fof_terms::{Form, SortId, copy_terms};
use std::alloc::Global;
use tptp_base::{Boxed, List, Memory};

/// All of the clause's sorts, the first outermost, over the literal where there is exactly one, else over the Or of the
/// literals.
pub fn close(alloc: Global, clause: &Clause) -> Result<Form, Memory>
    ensures { IfOk result (λ form. form ≡ closed clause.now) }
{
    let body = form_of_lits(alloc, clause.lits.as_slice())?;
    closed_by(alloc, clause.sorts.as_slice(), body)
}

// All of these sorts over the formula, the first outermost.
fn closed_by(alloc: Global, sorts: &[SortId], body: Boxed<Form>) -> Result<Form, Memory>
    ensures { IfOk result (λ whole. whole ≡ closed_over sorts.now body) }
{
    let mut whole = body;
    for i in 0..sorts.len() {
        let sort = sorts[sorts.len() - 1 - i];
        whole = Boxed::new(alloc, Form::All(sort, whole))?;
    }
    Ok(whole.into_inner())
}

// The literal alone, or the Or of the literals.
fn form_of_lits(alloc: Global, lits: &[Lit]) -> Result<Boxed<Form>, Memory>
    ensures { IfOk result (λ form. form ≡ lits_form lits.now) }
{
    if lits.len() == 1 {
        return Ok(Boxed::new(alloc, form_of_lit(alloc, &lits[0])?)?);
    }
    let members = forms_of_lits(alloc, lits)?;
    Ok(Boxed::new(alloc, Form::Or(members))?)
}

/// The formulas that the literals stand for.
pub fn forms_of_lits(alloc: Global, lits: &[Lit]) -> Result<List<Form>, Memory>
    ensures { IfOk result (λ forms. forms ≡ map lit_form lits.now) }
{
    let mut forms = List::new(alloc);
    for lit in lits {
        forms.push(form_of_lit(alloc, lit)?)?;
    }
    Ok(forms)
}

/// The formula that the literal stands for.
pub fn form_of_lit(alloc: Global, lit: &Lit) -> Result<Form, Memory>
    ensures { IfOk result (λ form. form ≡ lit_form lit.now) }
{
    if lit.positive {
        return form_of_atom(alloc, &lit.atom);
    }
    Ok(Form::Not(Boxed::new(alloc, form_of_atom(alloc, &lit.atom)?)?))
}

/// The formula that the atom stands for.
pub fn form_of_atom(alloc: Global, atom: &AtomOf) -> Result<Form, Memory>
    ensures { IfOk result (λ form. form ≡ atom_form atom.now) }
{
    match atom {
        AtomOf::Pred(symbol, args) => Ok(Form::Atom(*symbol, copy_terms(alloc, args.as_slice())?)),
        AtomOf::Eq(left, right) => Ok(Form::Eq(left.copy(alloc)?, right.copy(alloc)?)),
        AtomOf::True => Ok(Form::And(List::new(alloc))),
        AtomOf::False => Ok(Form::Or(List::new(alloc))),
    }
}
