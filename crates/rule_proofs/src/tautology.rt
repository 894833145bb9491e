//! Lines that are true by their form.
ghost use Rattle.std.specs.Prelude.{◌≡◌, ℕ, Some, slice_get, length, List as ListOf, IfOk, IfSome, IfNone, IsTrue, ◌↔◌};
ghost use Rattle.std.specs.Prelude.{◌⊎◌};
ghost use Rattle.fof_terms.specs.declared.form.Form.{Form as Formula};
ghost use Rattle.fof_terms.specs.Scope.{scope_sorts};
ghost use Rattle.fof_terms.specs.Sorts.{Sorted};
ghost use Rattle.clause_form.specs.declared.clause.Lit.{Lit as Literal};
ghost use Rattle.clause_form.specs.ClauseView.{form_of_lit as lit_form};
ghost use Rattle.clause_form.specs.Covers.{AreComplementary, HasOne, IsCovered, IsTrivial, negated as opposite_of};
ghost use Rattle.clause_rules.specs.Steps.{IsReady};
ghost use Rattle.clause_rules.specs.TautologyRule.{IsTautologyStep};
ghost use Rattle.rule_proofs.specs.ByRule.{ShowsAlone};
ghost use Rattle.clause_proofs.specs.Refuting.{IsGoal, RefutesBody, body};

use clause_form::{Lit, are_complementary, denies, form_of_lit};
use clause_proofs::{Opened, closed, contrary, denial, few_variables_of, known_clause, negated};
use derive_kit::{Part, cut_under};
use fof_terms::{Form, Scope, Signature};
use std::alloc::Global;
use tptp_base::Memory;

/// A proof of the line, which is true by its form, whatever formulas there are.
pub fn trivial(alloc: Global, signature: &Signature, line: &Form) -> Result<Part, Memory>
    requires ready { IsReady signature.now line.now }
    requires trivial { IsTautologyStep line.now }
    ensures { IfOk result (ShowsAlone signature.now line.now) }
{
    let opened = known_clause(alloc, line)?;
    let reach = few_variables_of(alloc, opened.clause.sorts.as_slice(), &[], &[])?;
    let scope = Scope::Outside(reach.sorts.as_slice());
    let part = true_by_form(alloc, signature, &scope, &opened)?;
    closed(alloc, line, &opened, reach.more.as_slice(), part)
}

// Falsehood under the negation of the clause's body, which is true by its form.
fn true_by_form(
    alloc: Global,
    signature: &Signature,
    scope: &Scope<'_>,
    line: &Opened,
) -> Result<Part, Memory>
    requires trivial { IsTrivial line.now.clause.lits }
    requires goal { IsGoal signature.now (scope_sorts scope.now) line.now }
    ensures { IfOk result (λ part. (formulas : ListOf Formula)
        → RefutesBody signature.now (scope_sorts scope.now) formulas (body line.now) part) }
{
    let lits = line.clause.lits.as_slice();
    match twofold(lits) {
        Some(at) => both_covered(alloc, signature, scope, line, &lits[at]),
        None => unreachable!(),
    }
}

// Whether one of the literals is complementary to this one.
fn has_opposite(lits: &[Lit], lit: &Lit) -> bool
    ensures { IsTrue result ↔ HasOne (AreComplementary lit.now) lits.now }
{
    for other in lits {
        if are_complementary(lit, other) {
            return true;
        }
    }
    false
}

// Whether the opposite of the literal is covered by the literals.
fn is_opposed(lits: &[Lit], lit: &Lit) -> bool
    ensures { IsTrue result ↔ IsCovered lits.now (opposite_of lit.now) }
{
    has_opposite(lits, lit) || denies(&lit.atom, !lit.positive)
}

// The place of a literal whose opposite is covered too; None exactly where the literals are not true by their form.
fn twofold(lits: &[Lit]) -> Option<usize>
    ensures some { IfSome result (λ i. (l : Literal) × (slice_get lits.now i ≡ Some l)
        × IsCovered lits.now (opposite_of l)) }
    ensures none { IfNone result (IsTrivial lits.now → ⊥) }
{
    for i in 0..lits.len() {
        if is_opposed(lits, &lits[i]) {
            return Some(i);
        }
    }
    None
}

// Falsehood, by the literal and its opposite, which the line covers.
fn both_covered(
    alloc: Global,
    signature: &Signature,
    scope: &Scope<'_>,
    line: &Opened,
    lit: &Lit,
) -> Result<Part, Memory>
    requires own { IsCovered line.now.clause.lits lit.now }
    requires other { IsCovered line.now.clause.lits (opposite_of lit.now) }
    requires goal { IsGoal signature.now (scope_sorts scope.now) line.now }
    requires sorted { Sorted signature.now (scope_sorts scope.now) (lit_form lit.now) }
    ensures { IfOk result (λ part. (formulas : ListOf Formula)
        → RefutesBody signature.now (scope_sorts scope.now) formulas (body line.now) part) }
{
    let under = contrary(alloc, signature, scope, line, lit, 1)?;
    let fact = denial(alloc, lit, under)?;
    let other = negated(alloc, lit)?;
    let rest = contrary(alloc, signature, scope, line, &other, 1)?;
    cut_under(alloc, fact, form_of_lit(alloc, &other)?, rest)
}
