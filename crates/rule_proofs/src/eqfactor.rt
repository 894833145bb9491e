//! Lines that factor two equations of a parent.
ghost use Rattle.std.specs.Prelude.{◌≡◌, ◌<◌, [], ℕ, length, slice_get, Some, List as ListOf, IfOk};
ghost use Rattle.fof_terms.specs.declared.form.Form.{Form as Formula, Eq as Equation};
ghost use Rattle.fof_terms.specs.declared.term.Term.{Term as Inner};
ghost use Rattle.fof_terms.specs.Scope.{scope_sorts};
ghost use Rattle.fof_terms.specs.Sorts.{Sorted};
ghost use Rattle.clause_form.specs.ClauseView.{form_of_lit as lit_form};
ghost use Rattle.clause_form.specs.Covers.{AreSorted, IsCovered, scope_of};
ghost use Rattle.clause_rules.specs.EqFactorRule.{Factors, IsFactored};
ghost use Rattle.clause_rules.specs.Justified.{Shows};
ghost use Rattle.clause_rules.specs.Steps.{AreReady, IsJoint, IsReady, equation, images_of_parents, unequal};
ghost use Rattle.clause_rules.specs.declared.just.Just.TheVariants.{EqFactor as ByEqFactor};
ghost use Rattle.kernel.specs.Proves.{Proves};
ghost use Rattle.clause_proofs.specs.code.Bodies.{IsReadyClause};
ghost use Rattle.rule_proofs.specs.code.Factoring.{IsChained, IsFactoring, IsWritten, pick};
ghost use Rattle.clause_proofs.specs.Shown.{ShowsLine};
ghost use Rattle.clause_proofs.specs.Refuting.{IsGoal, RefutesBody, RefutesIn, ShowsBody, body, theory_of};
ghost use Rattle.clause_proofs.specs.code.Refuting.{ShowsFrom};

use crate::rewriting::{picked, read};
use clause_form::{AtomOf, Lit, Parent, form_of_lit};
use clause_proofs::{
    Opened, Premise, by_pivot, closed, contrary, denial, few_variables_of, instance_by,
    known_clause, known_sort, some_images, turned,
};
use derive_kit::{Part, cut_under, hyp, subst};
use fof_terms::{Form, Scope, Signature, Term, lift_term};
use std::alloc::Global;
use tptp_base::Memory;
use unify_terms::Subst;

/// Which equations of a clause are factored, and which of them are read from right to left.
#[derive(Clone, Copy)]
pub struct Factor {
    pub first: usize,
    pub first_flipped: bool,
    pub second: usize,
    pub second_flipped: bool,
}

/// A proof of the line by the parent of that number in the list, whose instance under the substitution it factors.
pub fn factored(
    alloc: Global,
    signature: &Signature,
    parents: &[Parent],
    line: &Form,
    parent: usize,
    factor: Factor,
    subst: &Subst,
) -> Result<Part, Memory>
    requires ready { AreReady signature.now parents.now }
    requires line { IsReady signature.now line.now }
    requires shown { Shows signature.now parents.now line.now
        (ByEqFactor parent factor.first factor.first_flipped factor.second factor.second_flipped subst.now) }
    ensures { IfOk result (ShowsLine signature.now parents.now line.now) }
{
    let parent = &parents[parent];
    let opened = known_clause(alloc, line)?;
    let clause = known_clause(alloc, &parent.form)?;
    factor_opened(
        alloc, signature, line, &opened, parent, &clause, factor, subst,
    )
}

// A proof of the line by a parent, whose clause is opened.
fn factor_opened(
    alloc: Global,
    signature: &Signature,
    line: &Form,
    opened: &Opened,
    parent: &Parent,
    clause: &Opened,
    factor: Factor,
    subst: &Subst,
) -> Result<Part, Memory>
    requires line { IsReadyClause signature.now line.now opened.now }
    requires parent { IsReadyClause signature.now parent.now.form clause.now }
    requires joint { IsJoint signature.now opened.now.clause (scope_of clause.now.clause) subst.now }
    requires factors { Factors signature.now clause.now.clause opened.now.clause factor.first factor.first_flipped
        factor.second factor.second_flipped (scope_of clause.now.clause)
        (images_of_parents opened.now.clause subst.now) }
    ensures { IfOk result (λ proof. (formulas : ListOf Formula)
        → slice_get formulas parent.now.number ≡ Some parent.now.form
        → Proves (theory_of signature.now formulas) [] [] proof line.now) }
{
    let own = opened.clause.sorts.as_slice();
    let sorts = clause.clause.sorts.as_slice();
    let reach = few_variables_of(alloc, own, sorts, &[])?;
    let images = some_images(alloc, subst, own.len(), sorts.len())?;
    let premise = instance_by(alloc, parent.number, clause, images)?;
    let scope = Scope::Outside(reach.sorts.as_slice());
    let part = refute_factor(alloc, signature, &scope, opened, premise, factor)?;
    closed(alloc, line, opened, reach.more.as_slice(), part)
}

// Falsehood under the negation of the line's body, by an instance that it factors.
fn refute_factor(
    alloc: Global,
    signature: &Signature,
    scope: &Scope<'_>,
    line: &Opened,
    premise: Premise,
    factor: Factor,
) -> Result<Part, Memory>
    requires factored { IsFactored line.now.clause.lits premise.lits factor.first factor.first_flipped factor.second
        factor.second_flipped }
    requires goal { IsGoal signature.now (scope_sorts scope.now) line.now }
    requires sorted { AreSorted signature.now (scope_sorts scope.now) premise.lits }
    ensures { IfOk result (λ part. (formulas : ListOf Formula)
        → ShowsBody signature.now (scope_sorts scope.now) formulas premise.is_or premise.lits premise.part
        → RefutesBody signature.now (scope_sorts scope.now) formulas (body line.now) part) }
{
    let pivot = premise.lits.as_slice()[factor.first].copy(alloc)?;
    let other = premise.lits.as_slice()[factor.second].copy(alloc)?;
    let under = two_equations(alloc, signature, scope, line, &pivot, &other, factor)?;
    by_pivot(alloc, signature, scope, line, premise, &pivot, under)
}

// Falsehood under the first equation and the negation of the line's body, which covers the second one.
fn two_equations(
    alloc: Global,
    signature: &Signature,
    scope: &Scope<'_>,
    line: &Opened,
    pivot: &Lit,
    other: &Lit,
    factor: Factor,
) -> Result<Part, Memory>
    requires factoring { (side first second : Inner)
        × IsFactoring line.now.clause.lits pivot.now other.now factor.first_flipped factor.second_flipped side first second }
    requires goal { IsGoal signature.now (scope_sorts scope.now) line.now }
    requires pivot { Sorted signature.now (scope_sorts scope.now) (lit_form pivot.now) }
    requires other { Sorted signature.now (scope_sorts scope.now) (lit_form other.now) }
    ensures { IfOk result (λ part. (formulas : ListOf Formula)
        → RefutesIn signature.now (scope_sorts scope.now) formulas (body line.now) (lit_form pivot.now) part) }
{
    let AtomOf::Eq(left, right) = &pivot.atom else {
        unreachable!()
    };
    let AtomOf::Eq(third, fourth) = &other.atom else {
        unreachable!()
    };
    let side = picked(left, right, factor.first_flipped);
    let first = picked(right, left, factor.first_flipped);
    let second = picked(fourth, third, factor.second_flipped);
    linked(
        alloc, signature, scope, line, other, side, first, second, factor,
    )
}

// Falsehood by the equation of `side` and `first` and the negation of the line's body, which covers that of `side` and
// `second` and the denial of that of the other two.
fn linked(
    alloc: Global,
    signature: &Signature,
    scope: &Scope<'_>,
    line: &Opened,
    other: &Lit,
    side: &Term,
    first: &Term,
    second: &Term,
    factor: Factor,
) -> Result<Part, Memory>
    requires unequal { IsCovered line.now.clause.lits (unequal first.now second.now) }
    requires other { IsCovered line.now.clause.lits other.now }
    requires other_is { other.now ≡ equation factor.second_flipped side.now second.now }
    requires goal { IsGoal signature.now (scope_sorts scope.now) line.now }
    requires first { Sorted signature.now (scope_sorts scope.now) (Equation side.now first.now) }
    requires second { Sorted signature.now (scope_sorts scope.now) (Equation side.now second.now) }
    ensures { IfOk result (λ part. (formulas : ListOf Formula)
        → RefutesIn signature.now (scope_sorts scope.now) formulas (body line.now)
        (lit_form (equation factor.first_flipped side.now first.now)) part) }
{
    let denied = unequal_lit(alloc, first, second)?;
    let none = contrary(alloc, signature, scope, line, &denied, 2)?;
    let same = denial(alloc, &denied, none)?;
    let own = read(alloc, signature, scope, side, first, factor.first_flipped)?;
    let link = chained(alloc, signature, scope, side, first, same, own)?;
    let whole = written(
        alloc,
        signature,
        scope,
        side,
        second,
        factor.second_flipped,
        link,
    )?;
    let rest = contrary(alloc, signature, scope, line, other, 2)?;
    let form = form_of_lit(alloc, other)?;
    cut_under(alloc, whole, form, rest)
}

// The denied equation.
fn unequal_lit(alloc: Global, left: &Term, right: &Term) -> Result<Lit, Memory>
    ensures { IfOk result (λ lit. lit ≡ unequal left.now right.now) }
{
    let atom = AtomOf::Eq(left.copy(alloc)?, right.copy(alloc)?);
    Ok(Lit {
        positive: false,
        atom,
    })
}

// The equation of the terms, written from right to left where flipped, by a part that shows it from left to right.
fn written(
    alloc: Global,
    signature: &Signature,
    scope: &Scope<'_>,
    left: &Term,
    right: &Term,
    flipped: bool,
    part: Part,
) -> Result<Part, Memory>
    requires sorted { Sorted signature.now (scope_sorts scope.now) (Equation left.now right.now) }
    requires room { length (scope_sorts scope.now) < 2147483647 }
    ensures { IfOk result (IsWritten signature.now (scope_sorts scope.now) left.now right.now flipped part) }
{
    if flipped {
        turned(alloc, signature, scope, left, right, part)
    } else {
        Ok(part)
    }
}

// From `side = first` and the equation of `first` and another term to that of `side` and the other.
fn chained(
    alloc: Global,
    signature: &Signature,
    scope: &Scope<'_>,
    side: &Term,
    first: &Term,
    same: Part,
    own: Part,
) -> Result<Part, Memory>
    requires { Sorted signature.now (scope_sorts scope.now) (Equation side.now first.now) }
    ensures { IfOk result (IsChained signature.now (scope_sorts scope.now) side.now first.now same own) }
{
    let sort = known_sort(first, signature, scope);
    let hole = Form::Eq(lift_term(alloc, side, 1, 0)?, Term::Var(0));
    subst(alloc, sort, hole, same, own)
}
