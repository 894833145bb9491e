//! Lines that resolve two parents.
ghost use Rattle.std.specs.Prelude.{◌≡◌, ℕ, [], slice_get, Some, List as ListOf, IfOk};
ghost use Rattle.fof_terms.specs.declared.form.Form.{Form as Formula};
ghost use Rattle.fof_terms.specs.Scope.{scope_sorts};
ghost use Rattle.clause_form.specs.Covers.{AreSorted};
ghost use Rattle.clause_rules.specs.Justified.{Shows};
ghost use Rattle.clause_rules.specs.ResolutionRule.{IsResolvent, ResolvesTo};
ghost use Rattle.clause_rules.specs.Steps.{AreReady, IsJoint, IsReady, images_of_parents, scope_of_both};
ghost use Rattle.clause_rules.specs.declared.just.Just.TheVariants.{Resolution as ByResolution};
ghost use Rattle.clause_proofs.specs.Shown.{ShowsLine};
ghost use Rattle.clause_proofs.specs.code.Bodies.{IsReadyClause};
ghost use Rattle.clause_proofs.specs.Refuting.{IsGoal, RefutesBody, ShowsBody, body, theory_of};
ghost use Rattle.kernel.specs.Proves.{Proves};

use clause_form::Parent;
use clause_proofs::{
    Opened, Premise, by_pivot, closed, instance_by, known_clause, refuted, some_images,
    variables_of,
};
use derive_kit::Part;
use fof_terms::{Form, Scope, Signature};
use std::alloc::Global;
use tptp_base::Memory;
use unify_terms::Subst;

/// A proof of the line by these parents, of whose instances under the substitution it is a resolvent.
pub fn resolved(
    alloc: Global,
    signature: &Signature,
    parents: &[Parent],
    line: &Form,
    left: usize,
    right: usize,
    left_lit: usize,
    subst: &Subst,
) -> Result<Part, Memory>
    requires ready { AreReady signature.now parents.now }
    requires line { IsReady signature.now line.now }
    requires shown { (j : ℕ) × Shows signature.now parents.now line.now (ByResolution left right left_lit j subst.now) }
    ensures { IfOk result (ShowsLine signature.now parents.now line.now) }
{
    let left = &parents[left];
    let right = &parents[right];
    let opened = known_clause(alloc, line)?;
    let left_opened = known_clause(alloc, &left.form)?;
    let right_opened = known_clause(alloc, &right.form)?;
    resolve_opened(
        alloc,
        signature,
        line,
        &opened,
        left,
        &left_opened,
        right,
        &right_opened,
        left_lit,
        subst,
    )
}

// A proof of the line by two parents, whose clauses are opened.
fn resolve_opened(
    alloc: Global,
    signature: &Signature,
    line: &Form,
    opened: &Opened,
    left: &Parent,
    left_opened: &Opened,
    right: &Parent,
    right_opened: &Opened,
    left_lit: usize,
    subst: &Subst,
) -> Result<Part, Memory>
    requires line { IsReadyClause signature.now line.now opened.now }
    requires left { IsReadyClause signature.now left.now.form left_opened.now }
    requires right { IsReadyClause signature.now right.now.form right_opened.now }
    requires joint { IsJoint signature.now opened.now.clause
        (scope_of_both left_opened.now.clause right_opened.now.clause) subst.now }
    requires resolves { (j : ℕ)
        × ResolvesTo signature.now left_opened.now.clause right_opened.now.clause opened.now.clause left_lit j
        (scope_of_both left_opened.now.clause right_opened.now.clause) (images_of_parents opened.now.clause subst.now) }
    ensures { IfOk result (λ proof. (formulas : ListOf Formula)
        → slice_get formulas left.now.number ≡ Some left.now.form
        → slice_get formulas right.now.number ≡ Some right.now.form
        → Proves (theory_of signature.now formulas) [] [] proof line.now) }
{
    let own = opened.clause.sorts.as_slice();
    let left_sorts = left_opened.clause.sorts.as_slice();
    let right_sorts = right_opened.clause.sorts.as_slice();
    let reach = variables_of(alloc, own, left_sorts, right_sorts)?;
    let left_images = some_images(alloc, subst, own.len(), left_sorts.len())?;
    let left_premise = instance_by(alloc, left.number, left_opened, left_images)?;
    let from = own.len() + left_sorts.len();
    let right_images = some_images(alloc, subst, from, right_sorts.len())?;
    let right_premise = instance_by(alloc, right.number, right_opened, right_images)?;
    let scope = Scope::Outside(reach.sorts.as_slice());
    let part = resolvent(
        alloc,
        signature,
        &scope,
        opened,
        left_premise,
        right_premise,
        left_lit,
    )?;
    closed(alloc, line, opened, reach.more.as_slice(), part)
}

// Falsehood under the negation of the line's body, which is a resolvent of the two instances.
fn resolvent(
    alloc: Global,
    signature: &Signature,
    scope: &Scope<'_>,
    line: &Opened,
    left: Premise,
    right: Premise,
    left_lit: usize,
) -> Result<Part, Memory>
    requires resolvent { (j : ℕ) × IsResolvent line.now.clause.lits left.lits right.lits left_lit j }
    requires goal { IsGoal signature.now (scope_sorts scope.now) line.now }
    requires left { AreSorted signature.now (scope_sorts scope.now) left.lits }
    requires right { AreSorted signature.now (scope_sorts scope.now) right.lits }
    ensures { IfOk result (λ part. (formulas : ListOf Formula)
        → ShowsBody signature.now (scope_sorts scope.now) formulas left.is_or left.lits left.part
        → ShowsBody signature.now (scope_sorts scope.now) formulas right.is_or right.lits right.part
        → RefutesBody signature.now (scope_sorts scope.now) formulas (body line.now) part) }
{
    let pivot = left.lits.as_slice()[left_lit].copy(alloc)?;
    let under = refuted(alloc, signature, scope, line, right, &pivot)?;
    by_pivot(alloc, signature, scope, line, left, &pivot, under)
}
