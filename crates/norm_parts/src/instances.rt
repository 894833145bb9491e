//! A formula by another one on a way through universal quantifiers and to members of conjunctions, whose literals are
//! all its own. Each step is tried as it is taken, so a way that does not lead there is told by None.
ghost use Rattle.std.specs.Prelude.{◌≡◌, ◌↔◌, IfOk, IfSome, IsTrue, Some, slice_get};
ghost use Rattle.fof_terms.specs.declared.form.Form.{Or};
ghost use Rattle.fof_terms.specs.Scope.{scope_sorts};
ghost use Rattle.fof_terms.specs.Sorts.{Sorted, sort_of_term};
ghost use Rattle.norm_parts.specs.code.Instances.{AreArms, IsArm, IsNext, Reaches};

use clause_form::Path;
use clause_proofs::number;
use derive_kit::{Part, all_e, and_e, cases, cut_under, hyp, or_i};
use fof_terms::{Form, Scope, Signature, SortId, Term, copy_all, equal, instantiate, sort_of};
use kernel::Proof;
use std::alloc::Global;
use tptp_base::{Boxed, List, Memory};

/// A formula, and a part that shows it.
#[derive(Drop)]
pub struct Shown {
    pub form: Boxed<Form>,
    pub part: Part,
}

/// What the formula says on the way that the path goes, at these terms for the variables of its quantifiers, the last
/// one for the first of them.
#[cycle(along)]
pub fn along(
    path: &Path,
    alloc: Global,
    signature: &Signature,
    scope: &Scope<'_>,
    shown: Shown,
    terms: &[Term],
) -> Result<Option<Shown>, Memory>
    requires { Sorted signature.now (scope_sorts scope.now) shown.form }
    ensures { IfOk result (λ found. IfSome found (IsNext signature.now (scope_sorts scope.now) shown)) }
{
    match path {
        Path::Under(rest) => {
            let Some(last) = terms.len().checked_sub(1) else {
                return Ok(None);
            };
            match instance(alloc, signature, scope, shown, &terms[last])? {
                Some(next) => along(rest.get(), alloc, signature, scope, next, &terms[..last]),
                None => Ok(None),
            }
        }
        Path::Pick(number, rest) => match member(alloc, signature, scope, shown, *number)? {
            Some(next) => along(rest.get(), alloc, signature, scope, next, terms),
            None => Ok(None),
        },
        Path::Leaf | Path::Each(_) => Ok(Some(shown)),
    }
}

/// What the formula says at these terms for the variables of its outermost quantifiers, the first one for the first.
pub fn instances(
    alloc: Global,
    signature: &Signature,
    scope: &Scope<'_>,
    shown: Shown,
    terms: &[Term],
) -> Result<Option<Shown>, Memory>
    requires { Sorted signature.now (scope_sorts scope.now) shown.form }
    ensures { IfOk result (λ found. IfSome found (IsNext signature.now (scope_sorts scope.now) shown)) }
{
    let mut made = shown;
    for term in terms {
        match instance(alloc, signature, scope, made, term)? {
            Some(next) => made = next,
            None => return Ok(None),
        }
    }
    Ok(Some(made))
}

// What a universal quantifier says at the term, or at a variable in reach, where the term has not its sort.
fn instance(
    alloc: Global,
    signature: &Signature,
    scope: &Scope<'_>,
    shown: Shown,
    term: &Term,
) -> Result<Option<Shown>, Memory>
    requires { Sorted signature.now (scope_sorts scope.now) shown.form }
    ensures { IfOk result (λ found. IfSome found (IsNext signature.now (scope_sorts scope.now) shown)) }
{
    let Shown { form, part } = shown;
    match form.get() {
        Form::All(sort, body) => match fitting(alloc, signature, scope, term, *sort)? {
            Some(term) => {
                let own = Boxed::new(alloc, instantiate(alloc, body.get(), &term)?)?;
                let part = all_e(alloc, term, part)?;
                Ok(Some(Shown { form: own, part }))
            }
            None => Ok(None),
        },
        _ => Ok(None),
    }
}

// The term, if it has the sort, or else a variable in reach that has it.
fn fitting(
    alloc: Global,
    signature: &Signature,
    scope: &Scope<'_>,
    term: &Term,
    sort: SortId,
) -> Result<Option<Term>, Memory>
    ensures { IfOk result (λ found. IfSome found (λ made.
        sort_of_term signature.now (scope_sorts scope.now) made ≡ Some sort)) }
{
    if has_sort(signature, scope, term, sort) {
        return Ok(Some(term.copy(alloc)?));
    }
    Ok(variable_of(signature, scope, sort))
}

// Whether the term is well-sorted and of the sort.
fn has_sort(signature: &Signature, scope: &Scope<'_>, term: &Term, sort: SortId) -> bool
    ensures { IsTrue result ↔ (sort_of_term signature.now (scope_sorts scope.now) term.now ≡ Some sort) }
{
    match sort_of(term, signature, scope) {
        Some(found) => found == sort,
        None => false,
    }
}

// The nearest variable in reach that has the sort, among the first ones.
fn variable_of(signature: &Signature, scope: &Scope<'_>, sort: SortId) -> Option<Term>
    ensures { IfSome result (λ made. sort_of_term signature.now (scope_sorts scope.now) made ≡ Some sort) }
{
    for distance in 0..1000u32 {
        let variable = Term::Var(distance);
        if has_sort(signature, scope, &variable, sort) {
            return Some(variable);
        }
    }
    None
}

// The member of that number, if the formula is a conjunction that has it.
fn member(
    alloc: Global,
    signature: &Signature,
    scope: &Scope<'_>,
    shown: Shown,
    number: u32,
) -> Result<Option<Shown>, Memory>
    requires { Sorted signature.now (scope_sorts scope.now) shown.form }
    ensures { IfOk result (λ found. IfSome found (IsNext signature.now (scope_sorts scope.now) shown)) }
{
    let Shown { form, part } = shown;
    match form.get() {
        Form::And(members) => {
            let members = members.as_slice();
            let place = number as usize;
            if place >= members.len() {
                return Ok(None);
            }
            let own = Boxed::new(alloc, members[place].copy(alloc)?)?;
            let part = and_e(alloc, number, part)?;
            Ok(Some(Shown { form: own, part }))
        }
        _ => Ok(None),
    }
}

/// The goal by the formula, each of whose literals is one of the goal's; None where one is not.
pub fn by_literals(alloc: Global, shown: Shown, goal: &Form) -> Result<Option<Part>, Memory>
    ensures { IfOk result (λ found. IfSome found (Reaches shown goal.now)) }
{
    let Shown { form, part } = shown;
    if equal(form.get(), goal) {
        return Ok(Some(part));
    }
    match form.get() {
        Form::Or(literals) => match arms_of(alloc, literals.as_slice(), goal)? {
            Some(arms) => Ok(Some(cases(alloc, part, arms, goal.copy(alloc)?)?)),
            None => Ok(None),
        },
        _ => match arm_of(alloc, form.get(), goal)? {
            Some(arm) => Ok(Some(cut_under(alloc, part, form.into_inner(), arm)?)),
            None => Ok(None),
        },
    }
}

// The goal by each of the literals, as hypothesis 0.
fn arms_of(alloc: Global, literals: &[Form], goal: &Form) -> Result<Option<List<Proof>>, Memory>
    ensures { IfOk result (λ found. IfSome found (AreArms goal.now literals.now)) }
{
    let mut arms = List::new(alloc);
    for at in 0..literals.len() {
        match arm_of(alloc, &literals[at], goal)? {
            Some(arm) => arms.push(arm.into_inner())?,
            None => return Ok(None),
        }
    }
    Ok(Some(arms))
}

// The goal by its literal, as hypothesis 0.
fn arm_of(alloc: Global, literal: &Form, goal: &Form) -> Result<Option<Part>, Memory>
    ensures { IfOk result (λ found. IfSome found (IsArm goal.now literal.now)) }
{
    let own = hyp(alloc, 0)?;
    if equal(literal, goal) {
        return Ok(Some(own));
    }
    match goal {
        Form::Or(members) => {
            let members = members.as_slice();
            match place_of(members, literal) {
                Some(place) => {
                    let all = copy_all(alloc, members)?;
                    Ok(Some(or_i(alloc, all, number(place)?, own)?))
                }
                None => Ok(None),
            }
        }
        _ => Ok(None),
    }
}

// A place at which the formula stands.
fn place_of(forms: &[Form], form: &Form) -> Option<usize>
    ensures { IfSome result (λ place. slice_get forms.now place ≡ Some form.now) }
{
    for at in 0..forms.len() {
        if equal(&forms[at], form) {
            return Some(at);
        }
    }
    None
}
