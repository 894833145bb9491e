// What was shown, seen as a formula of one kind.
ghost use Rattle.std.specs.Prelude.{◌≡◌, ◌↔◌, [], Some, IsTrue, IfSome, IfNone};
ghost use Rattle.fof_terms.specs.declared.form.Form.{Eq, Not, And, Or, Imp, Iff, All, Ex};

use crate::finding::Shown;
use fof_terms::{Form, SortId, Term};

/// The formula, if it stands somewhere.
pub fn standing<'f>(shown: &Shown<'f>) -> Option<&'f Form>
    ensures { IfSome result (λ form. shown.now ≡ Some form.now) }
{
    match shown {
        Some(finding) => finding.standing(),
        None => None,
    }
}

/// The members of a conjunction.
pub fn conjunction<'s>(shown: &'s Shown<'_>) -> Option<&'s [Form]>
    ensures some { IfSome result (λ members. shown.now ≡ Some (And members.now)) }
    ensures none { IfNone result ((members : _) → shown.now ≡ Some (And members) → ⊥) }
{
    match shown {
        Some(finding) => match finding.whole() {
            Some(Form::And(members)) => Some(members.as_slice()),
            _ => None,
        },
        None => None,
    }
}

/// The members of a disjunction.
#[inline(never)]
pub fn disjunction<'s>(shown: &'s Shown<'_>) -> Option<&'s [Form]>
    ensures some { IfSome result (λ members. shown.now ≡ Some (Or members.now)) }
    ensures none { IfNone result ((members : _) → shown.now ≡ Some (Or members) → ⊥) }
{
    match shown {
        Some(finding) => match finding.whole() {
            Some(Form::Or(members)) => Some(members.as_slice()),
            _ => None,
        },
        None => None,
    }
}

/// What a negation negates.
pub fn negation<'s>(shown: &'s Shown<'_>) -> Option<&'s Form>
    ensures some { IfSome result (λ body. shown.now ≡ Some (Not body.now)) }
    ensures none { IfNone result ((body : _) → shown.now ≡ Some (Not body) → ⊥) }
{
    match shown {
        Some(finding) => finding.negated(),
        None => None,
    }
}

/// The sides of an implication.
pub fn implication<'s>(shown: &'s Shown<'_>) -> Option<(&'s Form, &'s Form)>
    ensures some { IfSome result (λ sides. shown.now ≡ Some (Imp sides.0.now sides.1.now)) }
    ensures none { IfNone result ((left right : _) → shown.now ≡ Some (Imp left right) → ⊥) }
{
    match shown {
        Some(finding) => finding.implied(),
        None => None,
    }
}

/// The sides of an equivalence.
pub fn equivalence<'s>(shown: &'s Shown<'_>) -> Option<(&'s Form, &'s Form)>
    ensures some { IfSome result (λ sides. shown.now ≡ Some (Iff sides.0.now sides.1.now)) }
    ensures none { IfNone result ((left right : _) → shown.now ≡ Some (Iff left right) → ⊥) }
{
    match shown {
        Some(finding) => finding.equated(),
        None => None,
    }
}

/// The sort and the body of what holds for all.
pub fn universal<'s>(shown: &'s Shown<'_>) -> Option<(SortId, &'s Form)>
    ensures some { IfSome result (λ parts. shown.now ≡ Some (All parts.0 parts.1.now)) }
    ensures none { IfNone result ((sort body : _) → shown.now ≡ Some (All sort body) → ⊥) }
{
    match shown {
        Some(finding) => match finding.whole() {
            Some(Form::All(sort, body)) => Some((*sort, body.get())),
            _ => None,
        },
        None => None,
    }
}

/// The sort and the body of what there is one for.
#[inline(never)]
pub fn existential<'s>(shown: &'s Shown<'_>) -> Option<(SortId, &'s Form)>
    ensures some { IfSome result (λ parts. shown.now ≡ Some (Ex parts.0 parts.1.now)) }
    ensures none { IfNone result ((sort body : _) → shown.now ≡ Some (Ex sort body) → ⊥) }
{
    match shown {
        Some(finding) => match finding.whole() {
            Some(Form::Ex(sort, body)) => Some((*sort, body.get())),
            _ => None,
        },
        None => None,
    }
}

/// The sides of an equation.
pub fn equation<'s>(shown: &'s Shown<'_>) -> Option<(&'s Term, &'s Term)>
    ensures some { IfSome result (λ sides. shown.now ≡ Some (Eq sides.0.now sides.1.now)) }
    ensures none { IfNone result ((left right : _) → shown.now ≡ Some (Eq left right) → ⊥) }
{
    match shown {
        Some(finding) => match finding.whole() {
            Some(Form::Eq(left, right)) => Some((left, right)),
            _ => None,
        },
        None => None,
    }
}

/// Whether the goal is what was shown.
#[inline(never)]
pub fn is_shown(shown: &Shown<'_>, goal: &Form) -> bool
    ensures { IsTrue result ↔ (shown.now ≡ Some goal.now) }
{
    match shown {
        Some(finding) => finding.is_form(goal),
        None => false,
    }
}

/// Whether falsehood was shown.
#[inline(never)]
pub fn is_falsehood(shown: &Shown<'_>) -> bool
    ensures { IsTrue result ↔ (shown.now ≡ Some (Or [])) }
{
    match shown {
        Some(finding) => match finding.whole() {
            Some(Form::Or(members)) => members.is_empty(),
            _ => false,
        },
        None => false,
    }
}
