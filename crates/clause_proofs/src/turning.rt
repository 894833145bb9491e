//! Literals that are the same up to the sides of an equation.
ghost use Rattle.std.specs.Prelude.{◌≡◌, ◌<◌, ◌↔◌, ℕ, length, true, false, IsTrue, IfOk, Some};
ghost use Rattle.fof_terms.specs.declared.form.Form.{Eq as Equation, Not as Denied};
ghost use Rattle.fof_terms.specs.declared.term.Term.{Term as Inner};
ghost use Rattle.fof_terms.specs.Scope.{scope_sorts};
ghost use Rattle.fof_terms.specs.Sorts.{IsScope, Sorted, sort_of_term};
ghost use Rattle.clause_form.specs.declared.clause.AtomOf.TheVariants.{Eq as Equal};
ghost use Rattle.clause_form.specs.ClauseView.{form_of_atom as atom_form, form_of_lit as lit_form};
ghost use Rattle.clause_form.specs.Covers.{IsSame, IsSameAtom, turned_atom};
ghost use Rattle.clause_proofs.specs.Turning.{IsTurned};
ghost use Rattle.clause_proofs.specs.code.Refuting.{ShowsFrom};

use crate::nodes::refl;
use clause_form::{AtomOf, Lit, form_of_atom};
use derive_kit::{Part, hyp, not_e, not_i, subst};
use fof_terms::{Form, Scope, Signature, SortId, Term, equal_term, lift_term, sort_of};
use std::alloc::Global;
use tptp_base::Memory;

/// The sort of the term, which has one.
pub fn known_sort(term: &Term, signature: &Signature, scope: &Scope<'_>) -> SortId
    requires { IsScope signature.now (scope_sorts scope.now) × (s : ℕ)
        × (sort_of_term signature.now (scope_sorts scope.now) term.now ≡ Some s) }
    ensures sort { sort_of_term signature.now (scope_sorts scope.now) term.now ≡ Some result }
    ensures there { result < length signature.now.sorts }
{
    signature.is_vocabulary();
    match sort_of(term, signature, scope) {
        Some(sort) => sort,
        None => unreachable!(),
    }
}

/// The equation with its sides exchanged, by a part that shows it.
pub fn turned(
    alloc: Global,
    signature: &Signature,
    scope: &Scope<'_>,
    left: &Term,
    right: &Term,
    part: Part,
) -> Result<Part, Memory>
    requires { Sorted signature.now (scope_sorts scope.now) (Equation left.now right.now) }
    ensures { IfOk result (IsTurned signature.now (scope_sorts scope.now) left.now part) }
{
    let sort = known_sort(left, signature, scope);
    let hole = Form::Eq(Term::Var(0), lift_term(alloc, left, 1, 0)?);
    let own = refl(alloc, left.copy(alloc)?)?;
    subst(alloc, sort, hole, part, own)
}

// Whether the atom is an equation whose left side is the term.
fn begins_with(atom: &AtomOf, left: &Term) -> bool
    ensures { IsTrue result ↔ ((r : Inner) × (atom.now ≡ Equal left.now r)) }
{
    match atom {
        AtomOf::Eq(first, _) => equal_term(first, left),
        AtomOf::Pred(_, _) | AtomOf::True | AtomOf::False => false,
    }
}

/// The atom `to`, by the hypothesis of that number, which is `from`.
pub fn atom_by(
    alloc: Global,
    signature: &Signature,
    scope: &Scope<'_>,
    from: &AtomOf,
    to: &AtomOf,
    number: u32,
) -> Result<Part, Memory>
    requires same { IsSameAtom from.now to.now }
    requires sorted { Sorted signature.now (scope_sorts scope.now) (atom_form from.now) }
    requires room { length (scope_sorts scope.now) < 2147483647 }
    ensures { IfOk result
        (ShowsFrom signature.now (scope_sorts scope.now) number (atom_form from.now) (atom_form to.now)) }
{
    let own = hyp(alloc, number)?;
    match from {
        AtomOf::Eq(left, right) => {
            if begins_with(to, left) {
                Ok(own)
            } else {
                turned(alloc, signature, scope, left, right, own)
            }
        }
        AtomOf::Pred(_, _) | AtomOf::True | AtomOf::False => Ok(own),
    }
}

// The denial of the atom `to`, by the hypothesis of that number, which denies `from`.
fn denial_by(
    alloc: Global,
    signature: &Signature,
    scope: &Scope<'_>,
    from: &AtomOf,
    to: &AtomOf,
    number: u32,
) -> Result<Part, Memory>
    requires same { IsSameAtom to.now from.now }
    requires sorted { Sorted signature.now (scope_sorts scope.now) (atom_form to.now) }
    requires from { Sorted signature.now (scope_sorts scope.now) (atom_form from.now) }
    requires room { length (scope_sorts scope.now) < 2147483647 }
    requires small { number < 1000 }
    ensures { IfOk result
        (ShowsFrom signature.now (scope_sorts scope.now) number (Denied (atom_form from.now))
        (Denied (atom_form to.now))) }
{
    let own = atom_by(alloc, signature, scope, to, from, 0)?;
    let none = not_e(alloc, hyp(alloc, number + 1)?, own)?;
    not_i(alloc, form_of_atom(alloc, to)?, none)
}

/// The literal `to`, by the hypothesis of that number, which is `from`.
pub fn lit_by(
    alloc: Global,
    signature: &Signature,
    scope: &Scope<'_>,
    from: &Lit,
    to: &Lit,
    number: u32,
) -> Result<Part, Memory>
    requires same { IsSame from.now to.now }
    requires sorted { Sorted signature.now (scope_sorts scope.now) (lit_form from.now) }
    requires to { Sorted signature.now (scope_sorts scope.now) (lit_form to.now) }
    requires room { length (scope_sorts scope.now) < 2147483647 }
    requires small { number < 1000 }
    ensures { IfOk result
        (ShowsFrom signature.now (scope_sorts scope.now) number (lit_form from.now) (lit_form to.now)) }
{
    if from.positive {
        return atom_by(alloc, signature, scope, &from.atom, &to.atom, number);
    }
    match &from.atom {
        AtomOf::Eq(left, _) => {
            if begins_with(&to.atom, left) {
                hyp(alloc, number)
            } else {
                denial_by(alloc, signature, scope, &from.atom, &to.atom, number)
            }
        }
        AtomOf::Pred(_, _) | AtomOf::True | AtomOf::False => hyp(alloc, number),
    }
}
