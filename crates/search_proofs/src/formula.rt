//! The closed formula of a clause.
ghost use Rattle.std.specs.Prelude.{◌≡◌, IfOk};
ghost use Rattle.clause_form.specs.ClauseView.{closed_by as closed_over};
ghost use Rattle.clause_form.specs.Paths.{is_plain as plain_atom};
ghost use Rattle.input_proofs.specs.Formulas.{formula_of as formula_for, has_or as keeps_or};

use clause_form::{AtomOf, Clause, Lit};
use clause_proofs::form_of_body;
use fof_terms::{Form, SortId};
use std::alloc::Global;
use tptp_base::{Boxed, Memory};

/// All of the clause's sorts, the first outermost, over the disjunction of its literals, or over the one literal where
/// that is neither truth nor falsehood.
pub fn formula_of(alloc: Global, clause: &Clause) -> Result<Form, Memory>
    ensures { IfOk result (λ form. form ≡ formula_for clause.now) }
{
    let lits = clause.lits.as_slice();
    let body = form_of_body(alloc, has_or(lits), lits)?;
    closed_by(alloc, clause.sorts.as_slice(), body)
}

/// Whether the literals stand in a disjunction.
pub(crate) fn has_or(lits: &[Lit]) -> bool
    ensures { result ≡ keeps_or lits.now }
{
    if lits.len() == 1 {
        return !is_plain(&lits[0].atom);
    }
    true
}

// Whether it is an atom or an equation.
fn is_plain(atom: &AtomOf) -> bool
    ensures { result ≡ plain_atom atom.now }
{
    match atom {
        AtomOf::Pred(_, _) => true,
        AtomOf::Eq(_, _) => true,
        AtomOf::True => false,
        AtomOf::False => false,
    }
}

// All of these sorts over the formula, the first outermost.
fn closed_by(alloc: Global, sorts: &[SortId], body: Form) -> Result<Form, Memory>
    ensures { IfOk result (λ whole. whole ≡ closed_over sorts.now body) }
{
    let mut whole = body;
    for i in 0..sorts.len() {
        let sort = sorts[sorts.len() - 1 - i];
        whole = Form::All(sort, Boxed::new(alloc, whole)?);
    }
    Ok(whole)
}
