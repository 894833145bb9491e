// Chains of instances: what holds for all, the terms for its outer variables still apart from it.
ghost use Rattle.std.specs.Prelude.{◌≡◌, ◌≤◌, List, length, reverse, Some, IfOk, IfSome};
ghost use Rattle.std.specs.List.{All as Each};
ghost use Rattle.std.specs.Option.{option_map};
ghost use Rattle.fof_terms.specs.Sorts.{binder_depth};
ghost use Rattle.fof_terms.specs.Scope.{scope_sorts};
ghost use Rattle.fof_terms.specs.declared.form.Form.{Form as Formula};
ghost use Rattle.kernel.specs.declared.proof.Proof.{Proof as Deduction, AllE};
ghost use Rattle.proof_check.specs.Concludes.{Concludes};
ghost use Rattle.proof_check.specs.code.Chains.{joined_form, IsJoinable};
ghost use Rattle.proof_check.specs.code.JointInstance.{joint_instance_at, IsMovable};

use crate::finding::{Finding, Shown};
use crate::joint::joint_instance;
use crate::quantifiers::has_sort;
use crate::theory::Theory;
use fof_terms::{Form, Scope, Term};
use std::alloc::Global;
use tptp_base::{Boxed, List, Memory};

/// A formula, and the terms that are to be put in place of its nearest outer variables, the last for number 0.
#[derive(Drop)]
pub struct Apart<'f> {
    body: Finding<'f>,
    terms: List<Term>,
}

/// What was shown, and no terms.
#[inline(never)]
pub fn without_terms<'f>(alloc: Global, shown: Shown<'f>) -> Option<Apart<'f>>
    requires { (a : Formula) → shown ≡ Some a → binder_depth a ≤ 2147483647 }
    ensures shown { option_map joined_form result ≡ shown.entry }
    ensures joinable { IfSome result IsJoinable }
{
    match shown {
        Some(body) => Some(Apart {
            body,
            terms: List::new(alloc),
        }),
        None => None,
    }
}

/// What holds for all, without the quantifier, and with the term for its variable.
#[inline(never)]
pub fn with_term<'f>(
    alloc: Global,
    theory: &Theory,
    scope: &Scope<'_>,
    term: &Term,
    found: Option<Apart<'f>>,
) -> Result<Option<Apart<'f>>, Memory>
    requires few { length (scope_sorts scope.now) ≤ 2147483647 }
    requires joinable { IfSome found IsJoinable }
    ensures shown { IfOk result (λ answer. (h : List Formula) (p : Deduction) →
        Concludes theory.now (scope_sorts scope.now) h p (option_map joined_form found.entry)
        → Concludes theory.now (scope_sorts scope.now) h (AllE term.now p) (option_map joined_form answer)) }
    ensures joinable { IfOk result (λ answer. IfSome answer IsJoinable) }
{
    let Some(found) = found else {
        return Ok(None);
    };
    let Some((sort, body)) = found.body.into_body() else {
        return Ok(None);
    };
    if !has_sort(theory, scope, term, sort) {
        return Ok(None);
    }
    let mut terms = found.terms;
    terms.push(term.copy(alloc)?)?;
    Ok(Some(Apart { body, terms }))
}

/// The formula with the terms in place, in one copy.
#[inline(never)]
pub fn joined<'f>(alloc: Global, found: Option<Apart<'f>>) -> Result<Shown<'f>, Memory>
    requires { IfSome found IsJoinable }
    ensures { IfOk result (λ answer. answer ≡ option_map joined_form found.entry) }
{
    match found {
        Some(Apart { body, terms }) => {
            let instance = put_in_place(alloc, body, terms.as_slice())?;
            Ok(Some(Finding::made(instance)))
        }
        None => Ok(None),
    }
}

// The formula with the terms in place, the last for variable 0.
fn put_in_place(alloc: Global, body: Finding<'_>, terms: &[Term]) -> Result<Boxed<Form>, Memory>
    requires movable { Each IsMovable terms.now }
    requires few { binder_depth body ≤ 2147483647 }
    ensures { IfOk result (λ instance. instance ≡ joint_instance_at (reverse terms.now) 0 body.entry) }
{
    if let Some(form) = body.standing() {
        return joint_instance(alloc, form, terms, 0);
    }
    let form = body.into_boxed(alloc)?;
    joint_instance(alloc, form.get(), terms, 0)
}
