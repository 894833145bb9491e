// The rules of the connectives: what a node concludes, from what its parts conclude.
ghost use Rattle.std.specs.Prelude.{ℕ, ◌≡◌, ◌↔◌, List, [], ◌∷◌, ◌++◌, Ok, Option, Some, None, IsTrue, IfOk, slice_get};
ghost use Rattle.std.specs.Option.{option_copied};
ghost use Rattle.fof_terms.specs.Sorts.{IsScope, Sorted};
ghost use Rattle.fof_terms.specs.Scope.{scope_sorts};
ghost use Rattle.fof_terms.specs.declared.form.Form.{Form as Formula, Not, And, Imp, Iff};
ghost use Rattle.kernel.specs.declared.proof.Proof.{Proof as Deduction, Line, AndE, OrI, ImpI, ImpE, NotI, NotE, IffI};
ghost use Rattle.kernel.specs.declared.proof.Proof.{IffL, IffR};
ghost use Rattle.kernel.specs.Statements.{Statements};
ghost use Rattle.proof_check.specs.Concludes.{Concludes};
ghost use Rattle.proof_check.specs.code.Concludes.{ConcludesUnder, Kept};

use crate::context::given;
use crate::finding::{Finding, Shown};
use crate::theory::Theory;
use crate::views::{
    conjunction, equivalence, implication, is_falsehood, is_shown, negation, standing,
};
use fof_terms::{Form, Scope, copy_all, well_sorted_in};
use sqlite_items::at;
use std::alloc::Global;
use tptp_base::{Boxed, List, Memory};

/// The formula of the theory.
#[inline(never)]
pub fn line<'f>(theory: &'f Theory, number: u64) -> Result<Shown<'f>, Memory>
    ensures { IfOk result (λ answer. (v : List ℕ) (h : List Formula) → IsScope theory.now.vocabulary v
        → Concludes theory.now v h (Line number) answer) }
{
    match theory.formula(number) {
        Some(form) => Ok(Some(Finding::given(form))),
        None => Ok(None),
    }
}

/// Puts what was shown at the end, if something was.
#[inline(never)]
pub fn add(
    alloc: Global,
    forms: &mut List<Form>,
    answer: Result<Shown<'_>, Memory>,
) -> Result<bool, Memory>
    ensures { IfOk result (λ is_added. (shown : Option Formula) × (answer.entry ≡ Ok shown)
        × (IsTrue is_added → (a : Formula) × (shown ≡ Some a) × (forms.new ≡ forms.old ++ a ∷ []))
        × ((IsTrue is_added → ⊥) → shown ≡ None)) }
{
    match answer? {
        Some(finding) => {
            forms.push(finding.into_boxed(alloc)?.into_inner())?;
            Ok(true)
        }
        None => Ok(false),
    }
}

/// The conjunction of the formulas.
#[inline(never)]
pub fn conjoined<'f>(alloc: Global, forms: List<Form>) -> Result<Shown<'f>, Memory>
    ensures { IfOk result (λ answer. answer ≡ Some (And forms)) }
{
    let whole = Boxed::new(alloc, Form::And(forms))?;
    Ok(Some(Finding::made(whole)))
}

/// The negation of the formula, in memory of its own.
#[inline(never)]
pub fn denial(alloc: Global, form: &Form) -> Result<Boxed<Form>, Memory>
    ensures { IfOk result (λ whole. whole ≡ Not form.now) }
{
    let body = Boxed::new(alloc, form.copy(alloc)?)?;
    Ok(Boxed::new(alloc, Form::Not(body))?)
}

/// The member of the conjunction that was shown.
#[inline(never)]
pub fn conjunct<'f>(alloc: Global, shown: &Shown<'f>, member: u32) -> Result<Shown<'f>, Memory>
    ensures { IfOk result (λ answer. (t : Statements) (v : List ℕ) (h : List Formula) (p : Deduction) →
        Concludes t v h p shown.now → Concludes t v h (AndE member p) answer) }
{
    match standing(shown) {
        Some(Form::And(members)) => Ok(given(at(members.as_slice(), member as usize))),
        _ => match conjunction(shown) {
            Some(members) => copied(alloc, at(members, member as usize)),
            None => Ok(None),
        },
    }
}

/// The disjunction, if its chosen member was shown.
#[inline(never)]
pub fn or_introduced<'f>(
    alloc: Global,
    theory: &Theory,
    scope: &Scope<'_>,
    members: &[Form],
    chosen: u32,
    shown: &Shown<'_>,
) -> Result<Shown<'f>, Memory>
    requires { IsScope theory.now.vocabulary (scope_sorts scope.now) }
    ensures { IfOk result (λ answer. (h : List Formula) (p : Deduction) →
        Concludes theory.now (scope_sorts scope.now) h p shown.now
        → Concludes theory.now (scope_sorts scope.now) h (OrI members.now chosen p) answer) }
{
    if !is_chosen(members, chosen, shown) {
        return Ok(None);
    }
    let whole = Boxed::new(alloc, Form::Or(copy_all(alloc, members)?))?;
    if well_sorted_in(whole.get(), theory.signature(), scope) {
        Ok(Some(Finding::made(whole)))
    } else {
        Ok(None)
    }
}

/// The implication, if its right side was shown under its left side.
#[inline(never)]
pub fn implied<'f>(alloc: Global, left: &'f Form, shown: Shown<'f>) -> Result<Shown<'f>, Memory>
    ensures { IfOk result (λ answer. (t : Statements) (v : List ℕ) (h : List Formula) (p : Deduction) →
        ConcludesUnder t v h left.now p shown.entry → Concludes t v h (ImpI left.now p) answer) }
{
    match shown {
        Some(right) => Ok(Some(Finding::implication(alloc, left, right)?)),
        None => Ok(None),
    }
}

/// The right side of the implication that was shown, if its left side was shown too.
#[inline(never)]
pub fn consequent<'f>(whole: Shown<'f>, shown: &Shown<'_>) -> Shown<'f>
    ensures { (t : Statements) (v : List ℕ) (h : List Formula) (p q : Deduction) →
        Concludes t v h p whole.entry → Concludes t v h q shown.now → Concludes t v h (ImpE p q) result }
{
    if is_antecedent(&whole, shown) {
        right_of(whole)
    } else {
        None
    }
}

/// The negation, if falsehood was shown under what it negates.
#[inline(never)]
pub fn negated<'f>(body: &'f Form, shown: &Shown<'_>) -> Shown<'f>
    ensures { (t : Statements) (v : List ℕ) (h : List Formula) (p : Deduction) →
        ConcludesUnder t v h body.now p shown.now → Concludes t v h (NotI body.now p) result }
{
    if is_falsehood(shown) {
        Some(Finding::negation(body))
    } else {
        None
    }
}

/// Falsehood, if the negation of what was shown was shown too.
#[inline(never)]
pub fn opposed<'f>(
    alloc: Global,
    denied: &Shown<'_>,
    shown: &Shown<'_>,
) -> Result<Shown<'f>, Memory>
    ensures { IfOk result (λ answer. (t : Statements) (v : List ℕ) (h : List Formula) (p q : Deduction) →
        Concludes t v h p denied.now → Concludes t v h q shown.now → Concludes t v h (NotE p q) answer) }
{
    match negation(denied) {
        Some(body) => {
            if is_shown(shown, body) {
                let whole = Boxed::new(alloc, Form::Or(List::new(alloc)))?;
                Ok(Some(Finding::made(whole)))
            } else {
                Ok(None)
            }
        }
        None => Ok(None),
    }
}

/// The equivalence, if each side was shown under the other.
#[inline(never)]
pub fn equivalent<'f>(
    left: &'f Form,
    right: &'f Form,
    forth: &Shown<'_>,
    back: &Shown<'_>,
) -> Shown<'f>
    ensures { (t : Statements) (v : List ℕ) (h : List Formula) (p q : Deduction) →
        ConcludesUnder t v h left.now p forth.now → ConcludesUnder t v h right.now q back.now
        → Concludes t v h (IffI left.now right.now p q) result }
{
    if !is_shown(forth, right) {
        return None;
    }
    if !is_shown(back, left) {
        return None;
    }
    Some(Finding::equivalence(left, right))
}

/// The right side of the equivalence that was shown, if its left side was shown too.
#[inline(never)]
pub fn right_side<'f>(whole: Shown<'f>, shown: &Shown<'_>) -> Shown<'f>
    ensures { (t : Statements) (v : List ℕ) (h : List Formula) (p q : Deduction) →
        Concludes t v h p whole.entry → Concludes t v h q shown.now → Concludes t v h (IffL p q) result }
{
    if is_left(&whole, shown) {
        right_of(whole)
    } else {
        None
    }
}

/// The left side of the equivalence that was shown, if its right side was shown too.
#[inline(never)]
pub fn left_side<'f>(whole: Shown<'f>, shown: &Shown<'_>) -> Shown<'f>
    ensures { (t : Statements) (v : List ℕ) (h : List Formula) (p q : Deduction) →
        Concludes t v h p whole.entry → Concludes t v h q shown.now → Concludes t v h (IffR p q) result }
{
    if is_right(&whole, shown) {
        left_of(whole)
    } else {
        None
    }
}

/// The goal, if it is well-sorted and the rest of its rule holds.
#[inline(never)]
pub fn kept<'f>(
    theory: &Theory,
    scope: &Scope<'_>,
    goal: &'f Form,
    holds: bool,
) -> Result<Shown<'f>, Memory>
    requires { IsScope theory.now.vocabulary (scope_sorts scope.now) }
    ensures { IfOk result (λ answer. Kept theory.now (scope_sorts scope.now) goal.now holds answer) }
{
    if holds && well_sorted_in(goal, theory.signature(), scope) {
        Ok(Some(Finding::given(goal)))
    } else {
        Ok(None)
    }
}

// Whether the chosen member was shown.
fn is_chosen(members: &[Form], chosen: u32, shown: &Shown<'_>) -> bool
    ensures { IsTrue result ↔ ((b : Formula) × (slice_get members.now chosen ≡ Some b) × (shown.now ≡ Some b)) }
{
    match members.get(chosen as usize) {
        Some(member) => is_shown(shown, member),
        None => false,
    }
}

// The formula, in memory of its own.
fn copied<'f>(alloc: Global, form: Option<&Form>) -> Result<Shown<'f>, Memory>
    ensures { IfOk result (λ copy. copy ≡ option_copied form.entry) }
{
    match form {
        Some(form) => Ok(Some(Finding::made(Boxed::new(alloc, form.copy(alloc)?)?))),
        None => Ok(None),
    }
}

// Whether an implication and its left side were shown.
fn is_antecedent(whole: &Shown<'_>, shown: &Shown<'_>) -> bool
    ensures { IsTrue result ↔ ((left right : Formula) × (whole.now ≡ Some (Imp left right)) × (shown.now ≡ Some left)) }
{
    match implication(whole) {
        Some((left, _right)) => is_shown(shown, left),
        None => false,
    }
}

// Whether an equivalence and its left side were shown.
fn is_left(whole: &Shown<'_>, shown: &Shown<'_>) -> bool
    ensures { IsTrue result ↔ ((left right : Formula) × (whole.now ≡ Some (Iff left right)) × (shown.now ≡ Some left)) }
{
    match equivalence(whole) {
        Some((left, _right)) => is_shown(shown, left),
        None => false,
    }
}

// Whether an equivalence and its right side were shown.
fn is_right(whole: &Shown<'_>, shown: &Shown<'_>) -> bool
    ensures { IsTrue result ↔ ((left right : Formula) × (whole.now ≡ Some (Iff left right)) × (shown.now ≡ Some right)) }
{
    match equivalence(whole) {
        Some((_left, right)) => is_shown(shown, right),
        None => false,
    }
}

// The right side of the implication or the equivalence that was shown.
fn right_of<'f>(whole: Shown<'f>) -> Shown<'f>
    ensures imp { (left right : Formula) → whole.entry ≡ Some (Imp left right) → result ≡ Some right }
    ensures iff { (left right : Formula) → whole.entry ≡ Some (Iff left right) → result ≡ Some right }
{
    match whole {
        Some(finding) => finding.into_right(),
        None => None,
    }
}

// The left side of the equivalence that was shown.
fn left_of<'f>(whole: Shown<'f>) -> Shown<'f>
    ensures { (left right : Formula) → whole.entry ≡ Some (Iff left right) → result ≡ Some left }
{
    match whole {
        Some(finding) => finding.into_left(),
        None => None,
    }
}
