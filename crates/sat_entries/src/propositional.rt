//! Which steps are propositional.
ghost use Rattle.std.specs.Prelude.{◌≡◌, ◌<◌, ◌^◌, ◌↔◌, true, IfOk, IsTrue};
ghost use Rattle.std.specs.List.{All as Each, list_all};
ghost use Rattle.clause_form.specs.Norm.{norm_of};
ghost use Rattle.clause_form.specs.Paths.{forms_of};
ghost use Rattle.fof_terms.specs.Sorts.{binder_depth};
ghost use Rattle.sat_step.specs.Propositional.{IsPropositionalStep, is_propositional as has_truth};

use clause_form::{Parent, norm_signed};
use fof_terms::Form;
use std::alloc::Global;
use tptp_base::Memory;

/// Whether the normal forms of the parents and of the negation of the line have no quantifier and no equation. A normal
/// form is made of each, so none of them is to be large.
pub fn is_propositional_step(alloc: Global, parents: &[Parent], line: &Form) -> Result<bool, Memory>
    requires parents { Each (λ p. binder_depth p.form < 2 ^ 32) parents.now }
    requires line { binder_depth line.now < 2 ^ 32 }
    ensures { IfOk result (λ answer. IsTrue answer ↔ IsPropositionalStep (forms_of parents.now) line.now) }
{
    for parent in parents {
        let own = has_propositional_norm(alloc, &parent.form, true)?;
        if !own {
            return Ok(false);
        }
    }
    has_propositional_norm(alloc, line, false)
}

// Whether the normal form of the formula, or under minus of its negation, has no quantifier and no equation.
fn has_propositional_norm(alloc: Global, form: &Form, positive: bool) -> Result<bool, Memory>
    requires { binder_depth form.now < 2 ^ 32 }
    ensures { IfOk result (λ answer. answer ≡ has_truth (norm_of positive form.now)) }
{
    let norm = norm_signed(alloc, form, positive)?;
    Ok(is_propositional(&norm))
}

// Whether the formula has no quantifier and no equation.
#[tactic(auto, using(crate::proofs::PropositionalFacts::propositional_equations))]
#[cycle(is_propositional)]
fn is_propositional(form: &Form) -> bool
    ensures { result ≡ has_truth form.now }
{
    match form {
        Form::Atom(_, _) => true,
        Form::Eq(_, _) | Form::All(_, _) | Form::Ex(_, _) => false,
        Form::Not(body) => is_propositional(body.get()),
        Form::And(members) | Form::Or(members) => are_propositional(members.as_slice()),
        Form::Imp(left, right) | Form::Iff(left, right) => {
            is_propositional(left.get()) && is_propositional(right.get())
        }
    }
}

// Whether none of the formulas has a quantifier or an equation.
#[tactic(auto, using(crate::proofs::PropositionalFacts::propositional_equations))]
#[cycle(is_propositional)]
fn are_propositional(forms: &[Form]) -> bool
    ensures { result ≡ list_all has_truth forms.now }
{
    for form in forms {
        if !is_propositional(form) {
            return false;
        }
    }
    true
}
