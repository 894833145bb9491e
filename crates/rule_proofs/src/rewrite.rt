//! Lines that cover a parent in which a parent that is one equation has rewritten all occurrences of a term.
ghost use Rattle.std.specs.Prelude.{◌≡◌, ◌≤◌, ◌+◌, [], ◌∷◌, length, slice_get, Some, List as ListOf, IfOk};
ghost use Rattle.fof_terms.specs.declared.form.Form.{Form as Formula};
ghost use Rattle.fof_terms.specs.declared.term.Term.{Var};
ghost use Rattle.fof_terms.specs.Scope.{scope_sorts};
ghost use Rattle.clause_form.specs.declared.clause.Lit.{Lit as Literal};
ghost use Rattle.clause_form.specs.Covers.{AreSorted, scope_of};
ghost use Rattle.clause_rules.specs.Justified.{IsMatch, Shows};
ghost use Rattle.clause_rules.specs.RewriteRule.{AreLitsRewritten, Rewrites};
ghost use Rattle.clause_rules.specs.Steps.{AreReady, IsJoint, IsReady, images_of_parents, scope_of_both};
ghost use Rattle.clause_rules.specs.declared.just.Just.TheVariants.{Rewrite as ByRewrite};
ghost use Rattle.kernel.specs.Proves.{Proves};
ghost use Rattle.clause_proofs.specs.code.Bodies.{IsReadyClause};
ghost use Rattle.clause_proofs.specs.Shown.{ShowsLine};
ghost use Rattle.clause_proofs.specs.Refuting.{IsGoal, RefutesBody, ShowsBody, body, theory_of};
ghost use Rattle.rule_proofs.specs.code.Rewriting.{IsRewriting, chained_images};

use crate::rewriting::by_equation;
use clause_form::{Lit, Parent};
use clause_proofs::{
    Opened, Premise, closed, images_of, instance_by, known_clause, some_images, variables_of,
};
use clause_rules::replace_in_lits;
use derive_kit::Part;
use fof_terms::{Form, Scope, Signature, Term};
use std::alloc::Global;
use tptp_base::Memory;
use unify_terms::Subst;

/// Which term an equation rewrites, read from right to left where flipped, and the images of the equation's variables,
/// behind those of the clause's own, which stand for themselves.
#[derive(Drop)]
pub struct Change {
    pub target: Term,
    pub flipped: bool,
    pub matching: Subst,
}

/// A proof of the line by these parents, the second of which is the equation.
pub fn rewritten(
    alloc: Global,
    signature: &Signature,
    parents: &[Parent],
    line: &Form,
    into: usize,
    by: usize,
    change: &Change,
    subst: &Subst,
) -> Result<Part, Memory>
    requires ready { AreReady signature.now parents.now }
    requires line { IsReady signature.now line.now }
    requires shown { Shows signature.now parents.now line.now
        (ByRewrite into by change.now.target change.now.flipped change.now.matching subst.now) }
    ensures { IfOk result (ShowsLine signature.now parents.now line.now) }
{
    let into = &parents[into];
    let by = &parents[by];
    let opened = known_clause(alloc, line)?;
    let into_opened = known_clause(alloc, &into.form)?;
    let by_opened = known_clause(alloc, &by.form)?;
    rewrite_opened(
        alloc,
        signature,
        line,
        &opened,
        into,
        &into_opened,
        by,
        &by_opened,
        change,
        subst,
    )
}

// A proof of the line by two parents, whose clauses are opened.
fn rewrite_opened(
    alloc: Global,
    signature: &Signature,
    line: &Form,
    opened: &Opened,
    left: &Parent,
    left_opened: &Opened,
    right: &Parent,
    right_opened: &Opened,
    change: &Change,
    subst: &Subst,
) -> Result<Part, Memory>
    requires line { IsReadyClause signature.now line.now opened.now }
    requires left { IsReadyClause signature.now left.now.form left_opened.now }
    requires right { IsReadyClause signature.now right.now.form right_opened.now }
    requires matched { IsMatch signature.now left_opened.now.clause right_opened.now.clause change.now.matching }
    requires joint { IsJoint signature.now opened.now.clause
        (scope_of_both left_opened.now.clause right_opened.now.clause) subst.now }
    requires rewrites { Rewrites signature.now left_opened.now.clause right_opened.now.clause opened.now.clause
        change.now.target change.now.flipped (scope_of right_opened.now.clause)
        (images_of_parents left_opened.now.clause change.now.matching)
        (scope_of_both left_opened.now.clause right_opened.now.clause) (images_of_parents opened.now.clause subst.now) }
    ensures { IfOk result (λ proof. (formulas : ListOf Formula)
        → slice_get formulas left.now.number ≡ Some left.now.form
        → slice_get formulas right.now.number ≡ Some right.now.form
        → Proves (theory_of signature.now formulas) [] [] proof line.now) }
{
    let own = opened.clause.sorts.as_slice();
    let left_sorts = left_opened.clause.sorts.as_slice();
    let right_sorts = right_opened.clause.sorts.as_slice();
    let reach = variables_of(alloc, own, left_sorts, right_sorts)?;
    let images = some_images(alloc, subst, own.len(), left_sorts.len())?;
    let left_images = some_images(alloc, subst, own.len(), left_sorts.len())?;
    let left_premise = instance_by(alloc, left.number, left_opened, left_images)?;
    let right_images = chained(alloc, opened, left_opened, right_opened, change, subst)?;
    let right_premise = instance_by(alloc, right.number, right_opened, right_images)?;
    let scope = Scope::Outside(reach.sorts.as_slice());
    let lits = left_opened.clause.lits.as_slice();
    let part = rewriting(
        alloc,
        signature,
        &scope,
        opened,
        lits,
        &images,
        left_premise,
        right_premise,
        change,
    )?;
    closed(alloc, line, opened, reach.more.as_slice(), part)
}

// The images of the equation's variables over those of the line and of both parents: it's matched first.
fn chained(
    alloc: Global,
    opened: &Opened,
    left: &Opened,
    right: &Opened,
    change: &Change,
    subst: &Subst,
) -> Result<Subst, Memory>
    requires matching { length change.now.matching ≡ length left.now.clause.sorts + length right.now.clause.sorts }
    requires subst { length subst.now
        ≡ length opened.now.clause.sorts + (length left.now.clause.sorts + length right.now.clause.sorts) }
    ensures { IfOk result (λ images. images
        ≡ chained_images opened.now.clause left.now.clause right.now.clause change.now.matching subst.now) }
{
    let own = opened.clause.sorts.as_slice().len();
    let first = left.clause.sorts.as_slice().len();
    let second = right.clause.sorts.as_slice().len();
    let matched = some_images(alloc, &change.matching, first, second)?;
    let both = some_images(alloc, subst, own, first + second)?;
    let images = images_of(alloc, &both, matched.images.as_slice())?;
    Ok(Subst { images })
}

// Falsehood under the negation of the line's body, by the instance `into` of the literals and the equation `from`.
fn rewriting(
    alloc: Global,
    signature: &Signature,
    scope: &Scope<'_>,
    line: &Opened,
    lits: &[Lit],
    images: &Subst,
    into: Premise,
    from: Premise,
    change: &Change,
) -> Result<Part, Memory>
    requires few { length images.now ≤ 1000000000 }
    requires rewriting { (e : Literal) × (from.lits ≡ e ∷ [])
        × ((marked : ListOf Literal) → AreLitsRewritten change.now.target (Var (length images.now)) lits.now marked
        → IsRewriting signature.now
        (scope_sorts scope.now) line.now.clause.lits images.now marked into.lits e change.now.flipped) }
    requires goal { IsGoal signature.now (scope_sorts scope.now) line.now }
    requires from { AreSorted signature.now (scope_sorts scope.now) from.lits }
    ensures { IfOk result (λ part. (formulas : ListOf Formula)
        → ShowsBody signature.now (scope_sorts scope.now) formulas into.is_or into.lits into.part
        → ShowsBody signature.now (scope_sorts scope.now) formulas from.is_or from.lits from.part
        → RefutesBody signature.now (scope_sorts scope.now) formulas (body line.now) part) }
{
    let equation = from.lits.as_slice()[0].copy(alloc)?;
    let mark = Term::Var(images.images.len() as u32);
    let marked = replace_in_lits(alloc, lits, &change.target, &mark)?;
    by_equation(
        alloc,
        signature,
        scope,
        line,
        marked.as_slice(),
        images,
        &equation,
        change.flipped,
        into,
        from,
    )
}
