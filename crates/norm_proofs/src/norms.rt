ghost use Rattle.std.specs.Prelude.{◌≡◌, ◌≤◌, ◌<◌, ◌^◌, ℕ, List, IfOk, false, true, not, length};
ghost use Rattle.clause_form.specs.Norm.{node as node_of, quantifier as quantifier_of, norm_of};
ghost use Rattle.clause_form.specs.Sizes.{norm_size_of};
ghost use Rattle.fof_terms.specs.declared.form.Form.{Form as Formula, Imp, Not};
ghost use Rattle.fof_terms.specs.Sorts.{Sorted};
ghost use Rattle.kernel.specs.Proves.{Proves};
ghost use Rattle.kernel.specs.Statements.{Statements};
ghost use Rattle.norm_proofs.specs.code.Placed.{IsPlaced};
ghost use Rattle.norm_proofs.specs.Placed.{SortedSomewhere};
ghost use Rattle.norm_proofs.specs.code.Recursion.{IsStep};

use crate::arms::arms_of;
use crate::bounds::quantified_step;
use crate::connecting::{
    back_step, denied_step, iff_step, imp_step, literal, node_step, not_step, sides_step,
};
use crate::effort::is_shorter_denied;
use crate::links::Way;
use crate::normal::is_normal;
use crate::steps::{Normed, copy, unchanged};
use clause_form::norm_signed;
use derive_kit::Part;
use fof_terms::{Form, SortId, equal};
use std::alloc::Global;
use tptp_base::{Boxed, List, Memory};

/// Imp from the formula to its normal form.
pub fn norm_forth(alloc: Global, form: &Form) -> Result<Part, Memory>
    requires size { norm_size_of form.now ≤ 100000 }
    requires sorted { SortedSomewhere form.now }
    ensures { IfOk result (λ proof. (t : Statements) (v : List ℕ) (h : List Formula) → length v ≤ 1000000000
        → Sorted t.vocabulary v form.now
        → Proves t v h proof (Imp form.now (norm_of true form.now))) }
{
    whole_step(alloc, form, true)
}

/// Imp from the formula's normal form to the formula.
pub fn norm_back(alloc: Global, form: &Form) -> Result<Part, Memory>
    requires size { norm_size_of form.now ≤ 100000 }
    requires sorted { SortedSomewhere form.now }
    ensures { IfOk result (λ proof. (t : Statements) (v : List ℕ) (h : List Formula) → length v ≤ 1000000000
        → Sorted t.vocabulary v form.now
        → Proves t v h proof (Imp (norm_of true form.now) form.now)) }
{
    whole_step(alloc, form, false)
}

// Between the formula and its normal form. The members of disjunctions inside each other are joined level by level, and
// each joining names the whole disjunction for each of its members; a conjunction is not named. So where the formula
// has many disjunctions inside each other, and its negation few, the way is by the negation's normal form.
fn whole_step(alloc: Global, form: &Form, forth: bool) -> Result<Part, Memory>
    requires size { norm_size_of form.now ≤ 100000 }
    requires placed { IsPlaced form.now }
    ensures { IfOk result (λ made. IsStep true forth form.now made) }
{
    if is_shorter_denied(form) {
        let denied = Boxed::new(alloc, norm_signed(alloc, form, false)?)?;
        if denies(alloc, denied.get(), form)? {
            return by_negation(alloc, forth, form, denied.get());
        }
    }
    Ok(between(alloc, form, true, forth)?.part)
}

// Whether the normal form of the first formula's negation is that of the second formula.
fn denies(alloc: Global, denied: &Form, form: &Form) -> Result<bool, Memory>
    requires first { norm_size_of denied.now ≤ 100000 }
    requires second { norm_size_of form.now ≤ 100000 }
    ensures { IfOk result (λ found. found ≡ true → norm_of false denied.now ≡ norm_of true form.now) }
{
    let one = Boxed::new(alloc, norm_signed(alloc, denied, false)?)?;
    let other = Boxed::new(alloc, norm_signed(alloc, form, true)?)?;
    Ok(equal(one.get(), other.get()))
}

// Between the formula and its normal form, by that of its negation.
fn by_negation(alloc: Global, forth: bool, form: &Form, denied: &Form) -> Result<Part, Memory>
    requires size { norm_size_of form.now ≤ 100000 }
    requires placed { IsPlaced form.now }
    requires denied { denied.now ≡ norm_of false form.now }
    requires same { norm_of false denied.now ≡ norm_of true form.now }
    ensures { IfOk result (λ made. IsStep true forth form.now made) }
{
    let part = between(alloc, form, false, !forth)?.part;
    let last = between(alloc, denied, false, forth)?.part;
    denied_step(alloc, forth, form, denied, part, last)
}

// The normal form of the formula, or under minus of its negation, with the proof between them.
#[cycle(between)]
fn between(alloc: Global, form: &Form, positive: bool, forth: bool) -> Result<Normed, Memory>
    requires size { norm_size_of form.now ≤ 100000 }
    requires placed { IsPlaced form.now }
    ensures norm { IfOk result (λ made. made.norm ≡ norm_of positive form.now) }
    ensures part { IfOk result (λ made. IsStep positive forth form.now made.part) }
{
    if positive {
        if is_normal(form) {
            return unchanged(alloc, copy(alloc, form)?);
        }
    }
    match form {
        Form::Atom(_, _) => literal(alloc, form, positive),
        Form::Eq(_, _) => literal(alloc, form, positive),
        Form::Not(body) => of_negation(alloc, positive, forth, body.get()),
        Form::And(members) => of_members(alloc, true, positive, forth, members.as_slice()),
        Form::Or(members) => of_members(alloc, false, positive, forth, members.as_slice()),
        Form::Imp(left, right) => {
            let left = left.get();
            let right = right.get();
            let first = between(alloc, left, !positive, forth)?;
            let second = between(alloc, right, positive, forth)?;
            imp_step(alloc, positive, forth, left, right, first, second)
        }
        Form::Iff(left, right) => {
            let left = left.get();
            let right = right.get();
            let first = between(alloc, left, !positive, forth)?;
            let second = between(alloc, right, positive, forth)?;
            let one = sides_step(alloc, positive, forth, left, right, first, second)?;
            let third = between(alloc, left, positive, forth)?;
            let fourth = between(alloc, right, !positive, forth)?;
            let other = back_step(alloc, positive, forth, left, right, third, fourth)?;
            iff_step(alloc, positive, forth, left, right, one, other)
        }
        Form::All(sort, body) => of_quantifier(alloc, true, positive, forth, *sort, body.get()),
        Form::Ex(sort, body) => of_quantifier(alloc, false, positive, forth, *sort, body.get()),
    }
}

// The same of the negation of a formula.
#[cycle(between)]
fn of_negation(alloc: Global, positive: bool, forth: bool, body: &Form) -> Result<Normed, Memory>
    requires size { norm_size_of body.now ≤ 100000 }
    requires placed { IsPlaced body.now }
    ensures norm { IfOk result (λ made. made.norm ≡ norm_of positive (Not body.now)) }
    ensures part { IfOk result (λ made. IsStep positive forth (Not body.now) made.part) }
{
    let Normed { norm, part } = between(alloc, body, !positive, forth)?;
    let part = not_step(alloc, positive, forth, body, norm.get(), part)?;
    Ok(Normed { norm, part })
}

// The same of a conjunction, or else of a disjunction.
#[cycle(between)]
fn of_members(
    alloc: Global,
    conjunction: bool,
    positive: bool,
    forth: bool,
    forms: &[Form],
) -> Result<Normed, Memory>
    requires size { norm_size_of (node_of conjunction forms.now) ≤ 100000 }
    requires placed { IsPlaced (node_of conjunction forms.now) }
    ensures norm { IfOk result (λ made. made.norm ≡ norm_of positive (node_of conjunction forms.now)) }
    ensures part { IfOk result (λ made. IsStep positive forth (node_of conjunction forms.now) made.part) }
{
    let way = Way {
        conjunction,
        positive,
        forth,
    };
    let mut norms = List::new(alloc);
    let mut parts = List::new(alloc);
    for number in 0..forms.len() {
        let Normed { norm, part } = between(alloc, &forms[number], positive, forth)?;
        norms.push(norm.into_inner())?;
        parts.push(part.into_inner())?;
    }
    let arms = arms_of(alloc, way, forms, norms.as_slice(), parts)?;
    node_step(alloc, way, forms, norms.as_slice(), arms)
}

// The same of a universal quantifier, or else of an existential one.
#[cycle(between)]
fn of_quantifier(
    alloc: Global,
    conjunction: bool,
    positive: bool,
    forth: bool,
    sort: SortId,
    body: &Form,
) -> Result<Normed, Memory>
    requires size { norm_size_of body.now ≤ 100000 }
    requires placed { IsPlaced (quantifier_of conjunction sort body.now) }
    ensures norm { IfOk result (λ made. made.norm ≡ norm_of positive (quantifier_of conjunction sort body.now)) }
    ensures part { IfOk result (λ made. IsStep positive forth (quantifier_of conjunction sort body.now) made.part) }
{
    let way = Way {
        conjunction,
        positive,
        forth,
    };
    let Normed { norm, part } = between(alloc, body, positive, forth)?;
    quantified_step(alloc, way, sort, body, norm, part)
}
