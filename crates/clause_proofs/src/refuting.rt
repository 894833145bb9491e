//! Falsehood, by an instance of a clause each of whose literals the line covers or another literal contradicts.
ghost use Rattle.std.specs.Prelude.{◌≡◌, ◌<◌, [], ◌∷◌, length, IfOk, List as ListOf};
ghost use Rattle.fof_terms.specs.declared.form.Form.{Form as Formula, Not as Denied, Or};
ghost use Rattle.fof_terms.specs.Scope.{scope_sorts};
ghost use Rattle.fof_terms.specs.Sorts.{Sorted};
ghost use Rattle.clause_form.specs.ClauseView.{form_of_lit as lit_form};
ghost use Rattle.clause_form.specs.Covers.{AreComplementary, AreSorted, negated as opposite_of};
ghost use Rattle.clause_form.specs.ClauseView.{stated};
ghost use Rattle.clause_form.specs.declared.clause.AtomOf.TheVariants.{True};
ghost use Rattle.clause_rules.specs.Steps.{AreCovered};
ghost use Rattle.clause_proofs.specs.Bodies.{body_of};
ghost use Rattle.clause_proofs.specs.code.Refuting.{AllRefute, RefutesUnder};
ghost use Rattle.clause_proofs.specs.Refuting.{AllSettled, IsDenial, IsGoal, IsSettled, RefutesBody, RefutesIn};
ghost use Rattle.clause_proofs.specs.Refuting.{ShowsBody, ShowsUnder, body};

use crate::covering::contrary;
use crate::nodes::truth;
use crate::opening::Opened;
use crate::premises::Premise;
use crate::turning::atom_by;
use clause_form::{AtomOf, Lit, are_complementary, form_of_atom, form_of_lit};
use derive_kit::{Part, cases, cut_under, hyp, not_e, not_i, raa};
use fof_terms::{Form, Scope, Signature};
use kernel::Proof;
use std::alloc::Global;
use tptp_base::{List, Memory};

/// The literal of the same atom and the other sign.
pub fn negated(alloc: Global, lit: &Lit) -> Result<Lit, Memory>
    ensures { IfOk result (λ made. made ≡ opposite_of lit.now) }
{
    Ok(Lit {
        positive: !lit.positive,
        atom: lit.atom.copy(alloc)?,
    })
}

/// The opposite of the literal, by a part that shows falsehood under the literal.
pub fn denial(alloc: Global, lit: &Lit, part: Part) -> Result<Part, Memory>
    ensures { IfOk result (IsDenial lit.now part) }
{
    let atom = form_of_atom(alloc, &lit.atom)?;
    if lit.positive {
        not_i(alloc, atom, part)
    } else {
        raa(alloc, atom, part)
    }
}

// Falsehood, by a literal as hypothesis 0 and a complementary one as hypothesis 1.
fn clash(
    alloc: Global,
    signature: &Signature,
    scope: &Scope<'_>,
    line: &Opened,
    lit: &Lit,
    other: &Lit,
) -> Result<Part, Memory>
    requires complementary { AreComplementary lit.now other.now }
    requires goal { IsGoal signature.now (scope_sorts scope.now) line.now }
    requires sorted { Sorted signature.now (scope_sorts scope.now) (lit_form lit.now) }
    requires other { Sorted signature.now (scope_sorts scope.now) (lit_form other.now) }
    ensures { IfOk result
        (RefutesUnder signature.now (scope_sorts scope.now) (body line.now) (lit_form other.now) (lit_form lit.now)) }
{
    if lit.positive {
        let own = atom_by(alloc, signature, scope, &lit.atom, &other.atom, 0)?;
        return not_e(alloc, hyp(alloc, 1)?, own);
    }
    let own = atom_by(alloc, signature, scope, &other.atom, &lit.atom, 1)?;
    not_e(alloc, hyp(alloc, 0)?, own)
}

// Falsehood, by a literal, which the line covers or which is complementary to the other one.
fn settled(
    alloc: Global,
    signature: &Signature,
    scope: &Scope<'_>,
    line: &Opened,
    lit: &Lit,
    other: &Lit,
) -> Result<Part, Memory>
    requires settled { IsSettled line.now.clause.lits other.now lit.now }
    requires goal { IsGoal signature.now (scope_sorts scope.now) line.now }
    requires sorted { Sorted signature.now (scope_sorts scope.now) (lit_form lit.now) }
    requires other { Sorted signature.now (scope_sorts scope.now) (lit_form other.now) }
    ensures { IfOk result
        (RefutesUnder signature.now (scope_sorts scope.now) (body line.now) (lit_form other.now) (lit_form lit.now)) }
{
    if are_complementary(lit, other) {
        clash(alloc, signature, scope, line, lit, other)
    } else {
        contrary(alloc, signature, scope, line, lit, 2)
    }
}

// The same for each of the literals.
fn all_settled(
    alloc: Global,
    signature: &Signature,
    scope: &Scope<'_>,
    line: &Opened,
    lits: &[Lit],
    other: &Lit,
) -> Result<List<Proof>, Memory>
    requires settled { AllSettled line.now.clause.lits other.now lits.now }
    requires goal { IsGoal signature.now (scope_sorts scope.now) line.now }
    requires sorted { AreSorted signature.now (scope_sorts scope.now) lits.now }
    requires other { Sorted signature.now (scope_sorts scope.now) (lit_form other.now) }
    ensures { IfOk result
        (AllRefute signature.now (scope_sorts scope.now) (body line.now) (lit_form other.now) lits.now) }
{
    let mut arms = List::new(alloc);
    for lit in lits {
        let arm = settled(alloc, signature, scope, line, lit, other)?;
        arms.push(arm.into_inner())?;
    }
    Ok(arms)
}

// Falsehood, by the premise, each of whose literals the line covers or is complementary to the other literal. That
/// literal is hypothesis 0, and the negation of the line's body hypothesis 1.
pub fn refuted(
    alloc: Global,
    signature: &Signature,
    scope: &Scope<'_>,
    line: &Opened,
    premise: Premise,
    other: &Lit,
) -> Result<Part, Memory>
    requires settled { AllSettled line.now.clause.lits other.now premise.lits }
    requires goal { IsGoal signature.now (scope_sorts scope.now) line.now }
    requires sorted { AreSorted signature.now (scope_sorts scope.now) premise.lits }
    requires other { Sorted signature.now (scope_sorts scope.now) (lit_form other.now) }
    ensures { IfOk result (λ part. (formulas h : ListOf Formula)
        → ShowsUnder signature.now (scope_sorts scope.now) formulas (lit_form other.now ∷ Denied (body line.now)
        ∷ h) (body_of premise.is_or premise.lits) premise.part
        → ShowsUnder signature.now (scope_sorts scope.now) formulas (lit_form other.now ∷ Denied (body line.now)
        ∷ h) (Or []) part) }
{
    let Premise { is_or, lits, part } = premise;
    if is_or {
        let arms = all_settled(alloc, signature, scope, line, lits.as_slice(), other)?;
        return cases(alloc, part, arms, Form::Or(List::new(alloc)));
    }
    match lits.as_slice().first() {
        Some(lit) => {
            let arm = settled(alloc, signature, scope, line, lit, other)?;
            cut_under(alloc, part, form_of_lit(alloc, lit)?, arm)
        }
        None => Ok(part),
    }
}

/// Falsehood under the negation of the line's body, by the premise and a part that shows falsehood under the pivot.
/// Each literal of the premise is the pivot, up to the sides of an equation, or the line covers it.
pub fn by_pivot(
    alloc: Global,
    signature: &Signature,
    scope: &Scope<'_>,
    line: &Opened,
    premise: Premise,
    pivot: &Lit,
    under: Part,
) -> Result<Part, Memory>
    requires settled { AllSettled line.now.clause.lits (opposite_of pivot.now) premise.lits }
    requires goal { IsGoal signature.now (scope_sorts scope.now) line.now }
    requires sorted { AreSorted signature.now (scope_sorts scope.now) premise.lits }
    requires pivot { Sorted signature.now (scope_sorts scope.now) (lit_form pivot.now) }
    ensures { IfOk result (λ part. (formulas : ListOf Formula)
        → ShowsBody signature.now (scope_sorts scope.now) formulas premise.is_or premise.lits premise.part
        → RefutesIn signature.now (scope_sorts scope.now) formulas (body line.now) (lit_form pivot.now) under
        → RefutesBody signature.now (scope_sorts scope.now) formulas (body line.now) part) }
{
    let fact = denial(alloc, pivot, under)?;
    let other = negated(alloc, pivot)?;
    let rest = refuted(alloc, signature, scope, line, premise, &other)?;
    cut_under(alloc, fact, form_of_lit(alloc, &other)?, rest)
}

// The literal truth.
fn true_lit() -> Lit
    ensures { result ≡ stated True }
{
    Lit {
        positive: true,
        atom: AtomOf::True,
    }
}

/// Falsehood under the negation of the line's body, by an instance each of whose literals the line covers.
pub fn refute_covered(
    alloc: Global,
    signature: &Signature,
    scope: &Scope<'_>,
    line: &Opened,
    premise: Premise,
) -> Result<Part, Memory>
    requires covered { AreCovered line.now.clause.lits premise.lits }
    requires goal { IsGoal signature.now (scope_sorts scope.now) line.now }
    requires sorted { AreSorted signature.now (scope_sorts scope.now) premise.lits }
    ensures { IfOk result (λ part. (formulas : ListOf Formula)
        → ShowsBody signature.now (scope_sorts scope.now) formulas premise.is_or premise.lits premise.part
        → RefutesBody signature.now (scope_sorts scope.now) formulas (body line.now) part) }
{
    let other = true_lit();
    let rest = refuted(alloc, signature, scope, line, premise, &other)?;
    let fact = truth(alloc)?;
    cut_under(alloc, fact, form_of_lit(alloc, &other)?, rest)
}
