// The rules of quantifiers and equations: what a node concludes, from what its parts conclude.
ghost use Rattle.std.specs.Prelude.{ℕ, ◌≡◌, ◌↔◌, ◌+◌, ◌<◌, List, ◌∷◌, Some, IsTrue, IfOk, length};
ghost use Rattle.fof_terms.specs.Sorts.{IsScope, Sorted, sort_of_term};
ghost use Rattle.fof_terms.specs.Scope.{scope_sorts};
ghost use Rattle.fof_terms.specs.declared.form.Form.{Form as Formula};
ghost use Rattle.kernel.specs.declared.proof.Proof.{Proof as Deduction, AllI, AllE, ExI, Refl, Subst};
ghost use Rattle.kernel.specs.Statements.{Statements};
ghost use Rattle.kernel.specs.Proves.{over, all_over};
ghost use Rattle.proof_check.specs.Concludes.{Concludes};

use crate::finding::{Finding, Shown};
use crate::theory::Theory;
use crate::views::{equation, is_shown, universal};
use fof_terms::{
    Form, MAX_BINDERS, Scope, SortId, Term, instantiate, is_within, lift, sort_of, well_sorted_in,
};
use std::alloc::Global;
use tptp_base::{Boxed, Memory};

/// That what was shown over a variable of the sort holds for all.
#[inline(never)]
pub fn generalized<'f>(alloc: Global, sort: SortId, shown: Shown<'f>) -> Result<Shown<'f>, Memory>
    ensures { IfOk result (λ answer. (t : Statements) (v : List ℕ) (h : List Formula) (p : Deduction) →
        Concludes t (sort ∷ v) (all_over h) p shown.entry → Concludes t v h (AllI sort p) answer) }
{
    match shown {
        Some(body) => {
            let body = body.into_boxed(alloc)?;
            if is_within(body.get(), MAX_BINDERS - 1) {
                let whole = Boxed::new(alloc, Form::All(sort, body))?;
                Ok(Some(Finding::made(whole)))
            } else {
                Ok(None)
            }
        }
        None => Ok(None),
    }
}

/// What was shown for all, for the term.
#[inline(never)]
pub fn specialized<'f>(
    alloc: Global,
    theory: &Theory,
    scope: &Scope<'_>,
    term: &Term,
    shown: &Shown<'_>,
) -> Result<Shown<'f>, Memory>
    requires { (a : Formula) → shown.now ≡ Some a → Sorted theory.now.vocabulary (scope_sorts scope.now) a }
    ensures { IfOk result (λ answer. (h : List Formula) (p : Deduction) →
        Concludes theory.now (scope_sorts scope.now) h p shown.now
        → Concludes theory.now (scope_sorts scope.now) h (AllE term.now p) answer) }
{
    match universal(shown) {
        Some((sort, body)) => {
            if has_sort(theory, scope, term, sort) {
                let instance = Boxed::new(alloc, instantiate(alloc, body, term)?)?;
                Ok(Some(Finding::made(instance)))
            } else {
                Ok(None)
            }
        }
        None => Ok(None),
    }
}

/// That there is one for which the body holds, if it was shown for the term.
#[inline(never)]
pub fn witnessed<'f>(
    alloc: Global,
    theory: &Theory,
    scope: &Scope<'_>,
    room: u32,
    sort: SortId,
    body: &Form,
    term: &Term,
    shown: &Shown<'_>,
) -> Result<Shown<'f>, Memory>
    requires scope { IsScope theory.now.vocabulary (scope_sorts scope.now) }
    requires room { length (scope_sorts scope.now) + room ≡ 2147483647 }
    ensures { IfOk result (λ answer. (h : List Formula) (p : Deduction) →
        Concludes theory.now (scope_sorts scope.now) h p shown.now
        → Concludes theory.now (scope_sorts scope.now) h (ExI sort body.now term.now p) answer) }
{
    if !has_sort(theory, scope, term, sort) {
        return Ok(None);
    }
    if !body_fits(theory, scope, room, sort, body) {
        return Ok(None);
    }
    if !is_within(body, MAX_BINDERS - 1) {
        return Ok(None);
    }
    let instance = Boxed::new(alloc, instantiate(alloc, body, term)?)?;
    if !is_shown(shown, instance.get()) {
        return Ok(None);
    }
    let body = Boxed::new(alloc, body.copy(alloc)?)?;
    Ok(Some(Finding::made(Boxed::new(alloc, Form::Ex(sort, body))?)))
}

/// That the term is itself, if it is well-sorted.
#[inline(never)]
pub fn reflexive<'f>(
    alloc: Global,
    theory: &Theory,
    scope: &Scope<'_>,
    term: &Term,
) -> Result<Shown<'f>, Memory>
    requires { IsScope theory.now.vocabulary (scope_sorts scope.now) }
    ensures { IfOk result (λ answer. (h : List Formula)
        → Concludes theory.now (scope_sorts scope.now) h (Refl term.now) answer) }
{
    match sort_of(term, theory.signature(), scope) {
        Some(_sort) => {
            let whole = Form::Eq(term.copy(alloc)?, term.copy(alloc)?);
            Ok(Some(Finding::made(Boxed::new(alloc, whole)?)))
        }
        None => Ok(None),
    }
}

/// The body for the right side of the equation that was shown, if it was shown for the left side.
#[inline(never)]
pub fn substituted<'f>(
    alloc: Global,
    theory: &Theory,
    scope: &Scope<'_>,
    room: u32,
    sort: SortId,
    body: &Form,
    sides: &Shown<'_>,
    shown: &Shown<'_>,
) -> Result<Shown<'f>, Memory>
    requires scope { IsScope theory.now.vocabulary (scope_sorts scope.now) }
    requires room { length (scope_sorts scope.now) + room ≡ 2147483647 }
    requires sorted { (a : Formula) → sides.now ≡ Some a → Sorted theory.now.vocabulary (scope_sorts scope.now) a }
    ensures { IfOk result (λ answer. (h : List Formula) (p q : Deduction) →
        Concludes theory.now (scope_sorts scope.now) h p sides.now
        → Concludes theory.now (scope_sorts scope.now) h q shown.now
        → Concludes theory.now (scope_sorts scope.now) h (Subst sort body.now p q) answer) }
{
    match equation(sides) {
        Some((left, right)) => {
            if !has_sort(theory, scope, left, sort) {
                return Ok(None);
            }
            if !body_fits(theory, scope, room, sort, body) {
                return Ok(None);
            }
            let instance = Boxed::new(alloc, instantiate(alloc, body, left)?)?;
            if !is_shown(shown, instance.get()) {
                return Ok(None);
            }
            let whole = Boxed::new(alloc, instantiate(alloc, body, right)?)?;
            Ok(Some(Finding::made(whole)))
        }
        None => Ok(None),
    }
}

/// The goal, if it is well-sorted and was shown over one variable more.
#[inline(never)]
pub fn same_over<'f>(
    alloc: Global,
    theory: &Theory,
    scope: &Scope<'_>,
    goal: &'f Form,
    shown: &Shown<'_>,
) -> Result<Shown<'f>, Memory>
    requires { IsScope theory.now.vocabulary (scope_sorts scope.now) }
    ensures { IfOk result (λ answer. (a : Formula)
        → (answer ≡ Some a)
        ↔ ((a ≡ goal.now) × Sorted theory.now.vocabulary (scope_sorts scope.now) goal.now
        × (shown.now ≡ Some (over goal.now)))) }
{
    if !well_sorted_in(goal, theory.signature(), scope) {
        return Ok(None);
    }
    let lifted = Boxed::new(alloc, lift(alloc, goal, 1, 0)?)?;
    if is_shown(shown, lifted.get()) {
        Ok(Some(Finding::given(goal)))
    } else {
        Ok(None)
    }
}

/// Whether the term is well-sorted and of the sort.
pub fn has_sort(theory: &Theory, scope: &Scope<'_>, term: &Term, sort: SortId) -> bool
    ensures { IsTrue result ↔ (sort_of_term theory.now.vocabulary (scope_sorts scope.now) term.now ≡ Some sort) }
{
    match sort_of(term, theory.signature(), scope) {
        Some(found) => found == sort,
        None => false,
    }
}

/// Whether there is room for one variable more, of this sort.
pub fn has_room(theory: &Theory, room: u32, sort: SortId) -> bool
    ensures { IsTrue result ↔ ((0 < room) × (sort < length theory.now.vocabulary.sorts)) }
{
    if room == 0 {
        return false;
    }
    sort < theory.signature().sort_count()
}

/// Whether the formula is well-sorted over one variable more, of this sort.
pub fn body_fits(theory: &Theory, scope: &Scope<'_>, room: u32, sort: SortId, body: &Form) -> bool
    requires scope { IsScope theory.now.vocabulary (scope_sorts scope.now) }
    requires room { length (scope_sorts scope.now) + room ≡ 2147483647 }
    ensures { IsTrue result ↔ Sorted theory.now.vocabulary (sort ∷ scope_sorts scope.now) body.now }
{
    if !has_room(theory, room, sort) {
        return false;
    }
    well_sorted_in(body, theory.signature(), &Scope::Under(sort, &*scope))
}
