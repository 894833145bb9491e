//! Literals that the line covers, refuted under the negation of the line's body.
ghost use Rattle.std.specs.Prelude.{◌≡◌, ◌<◌, ◌↔◌, ℕ, length, map, IsTrue, IfOk, IfSome, IfNone, Some, slice_get};
ghost use Rattle.fof_terms.specs.declared.form.Form.{Form as Formula, Or};
ghost use Rattle.fof_terms.specs.Scope.{scope_sorts};
ghost use Rattle.fof_terms.specs.Sorts.{Sorted};
ghost use Rattle.clause_form.specs.declared.clause.Lit.{Lit as Literal};
ghost use Rattle.clause_form.specs.ClauseView.{form_of_lit as lit_form};
ghost use Rattle.clause_form.specs.Covers.{IsAbsurd, IsCovered, IsSame};
ghost use Rattle.clause_proofs.specs.Bodies.{body_of};
ghost use Rattle.clause_proofs.specs.code.Refuting.{IsAbsurdity};
ghost use Rattle.clause_proofs.specs.Refuting.{IsGoal, Refutes, body, injected_tree};

use crate::nodes::{number, refl, truth};
use crate::opening::Opened;
use crate::turning::lit_by;
use clause_form::{AtomOf, Lit, form_of_lit, same_atoms};
use derive_kit::{Part, hyp, not_e, or_i};
use fof_terms::{Form, Scope, Signature};
use std::alloc::Global;
use tptp_base::{List, Memory};

// Whether the literals are the same up to the sides of an equation.
fn is_same(lit: &Lit, other: &Lit) -> bool
    ensures { IsTrue result ↔ IsSame lit.now other.now }
{
    lit.positive == other.positive && same_atoms(&lit.atom, &other.atom)
}

// A place at which the literal stands, up to the sides of an equation; None exactly where it doesn't.
fn place_of(lits: &[Lit], lit: &Lit) -> Option<usize>
    ensures some { IfSome result (λ i. (l : Literal) × (slice_get lits.now i ≡ Some l) × IsSame lit.now l) }
    ensures none { IfNone result ((i : ℕ) (l : Literal) → slice_get lits.now i ≡ Some l → IsSame lit.now l → ⊥) }
{
    for i in 0..lits.len() {
        if is_same(lit, &lits[i]) {
            return Some(i);
        }
    }
    None
}

/// The formulas that the literals stand for.
pub fn forms_of_lits(alloc: Global, lits: &[Lit]) -> Result<List<Form>, Memory>
    ensures { IfOk result (λ forms. forms ≡ map lit_form lits.now) }
{
    let mut forms = List::new(alloc);
    for lit in lits {
        forms.push(form_of_lit(alloc, lit)?)?;
    }
    Ok(forms)
}

/// The formula that stands under the quantifiers.
pub fn body_form(alloc: Global, line: &Opened) -> Result<Form, Memory>
    ensures { IfOk result (λ form. form ≡ body line.now) }
{
    form_of_body(alloc, line.is_or, line.clause.lits.as_slice())
}

/// The Or of the literals, or the first of them alone.
pub fn form_of_body(alloc: Global, is_or: bool, lits: &[Lit]) -> Result<Form, Memory>
    ensures { IfOk result (λ form. form ≡ body_of is_or lits.now) }
{
    if is_or {
        return Ok(Form::Or(forms_of_lits(alloc, lits)?));
    }
    match lits.first() {
        Some(lit) => form_of_lit(alloc, lit),
        None => Ok(Form::Or(List::new(alloc))),
    }
}

/// The line's body, by its literal at that place.
pub fn injected(alloc: Global, line: &Opened, place: usize, own: Part) -> Result<Part, Memory>
    ensures { IfOk result (λ part. part ≡ injected_tree line.now.is_or line.now.clause.lits place own) }
{
    if line.is_or {
        let members = forms_of_lits(alloc, line.clause.lits.as_slice())?;
        return or_i(alloc, members, number(place)?, own);
    }
    Ok(own)
}

// Falsehood, by the literal, which stands in the line at that place.
fn against_place(
    alloc: Global,
    signature: &Signature,
    scope: &Scope<'_>,
    line: &Opened,
    lit: &Lit,
    place: usize,
    denial: u32,
) -> Result<Part, Memory>
    requires there { (l : Literal) × (slice_get line.now.clause.lits place ≡ Some l) × IsSame lit.now l }
    requires goal { IsGoal signature.now (scope_sorts scope.now) line.now }
    requires sorted { Sorted signature.now (scope_sorts scope.now) (lit_form lit.now) }
    ensures { IfOk result (Refutes signature.now (scope_sorts scope.now) denial (body line.now) (lit_form lit.now)) }
{
    let lits = line.clause.lits.as_slice();
    let own = lit_by(alloc, signature, scope, lit, &lits[place], 0)?;
    let whole = injected(alloc, line, place, own)?;
    not_e(alloc, hyp(alloc, denial)?, whole)
}

// Falsehood, by the literal, which is false by its form.
fn absurd(alloc: Global, lit: &Lit) -> Result<Part, Memory>
    requires { IsAbsurd lit.now }
    ensures { IfOk result (IsAbsurdity lit.now) }
{
    let own = hyp(alloc, 0)?;
    match &lit.atom {
        AtomOf::True => {
            let all = truth(alloc)?;
            not_e(alloc, own, all)
        }
        AtomOf::Eq(left, _) => {
            let same = refl(alloc, left.copy(alloc)?)?;
            not_e(alloc, own, same)
        }
        AtomOf::Pred(_, _) | AtomOf::False => Ok(own),
    }
}

/// Falsehood, by the literal, which the line covers, as hypothesis 0, and by the negation of the line's body as that of
/// the number `denial`.
pub fn contrary(
    alloc: Global,
    signature: &Signature,
    scope: &Scope<'_>,
    line: &Opened,
    lit: &Lit,
    denial: u32,
) -> Result<Part, Memory>
    requires covered { IsCovered line.now.clause.lits lit.now }
    requires goal { IsGoal signature.now (scope_sorts scope.now) line.now }
    requires sorted { Sorted signature.now (scope_sorts scope.now) (lit_form lit.now) }
    ensures { IfOk result (Refutes signature.now (scope_sorts scope.now) denial (body line.now) (lit_form lit.now)) }
{
    match place_of(line.clause.lits.as_slice(), lit) {
        Some(place) => against_place(alloc, signature, scope, line, lit, place, denial),
        None => absurd(alloc, lit),
    }
}
