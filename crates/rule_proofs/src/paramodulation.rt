//! Lines that cover a parent in which an equation of a parent has rewritten one place.
ghost use Rattle.std.specs.Prelude.{◌≡◌, ◌≤◌, ℕ, [], length, slice_get, slice_set, Some, List as ListOf, IfOk};
ghost use Rattle.fof_terms.specs.declared.form.Form.{Form as Formula};
ghost use Rattle.fof_terms.specs.declared.term.Term.{Var};
ghost use Rattle.fof_terms.specs.Scope.{scope_sorts};
ghost use Rattle.clause_form.specs.declared.clause.Lit.{Lit as Literal};
ghost use Rattle.clause_form.specs.Covers.{AreSorted};
ghost use Rattle.clause_rules.specs.Justified.{Shows};
ghost use Rattle.clause_rules.specs.ParamodulationRule.{HasPlace, IsParamodulant, Paramodulates};
ghost use Rattle.clause_rules.specs.Places.{lit_put_at};
ghost use Rattle.clause_rules.specs.Steps.{AreReady, IsJoint, IsReady, images_of_parents, scope_of_both};
ghost use Rattle.clause_rules.specs.declared.just.Just.TheVariants.{Paramodulation as ByParamodulation};
ghost use Rattle.kernel.specs.Proves.{Proves};
ghost use Rattle.clause_proofs.specs.code.Bodies.{IsReadyClause};
ghost use Rattle.clause_proofs.specs.Shown.{ShowsLine};
ghost use Rattle.clause_proofs.specs.Refuting.{IsGoal, RefutesBody, ShowsBody, body, theory_of};
ghost use Rattle.rule_proofs.specs.code.Rewriting.{AreInstances};

use crate::rewriting::by_equation;
use clause_form::{Lit, Parent, copy_lits};
use clause_proofs::{
    Opened, Premise, closed, instance_by, known_clause, some_images, variables_of,
};
use clause_rules::{Position, put_in};
use derive_kit::Part;
use fof_terms::{Form, Scope, Signature, Term};
use std::alloc::Global;
use tptp_base::{List, Memory};
use unify_terms::Subst;

/// Which equation rewrites which place: the place stands in the literal `into_lit`, and the equation is the literal
/// `from_lit`, read from right to left where flipped.
#[derive(Drop)]
pub struct Change {
    pub into_lit: usize,
    pub at: Position,
    pub from_lit: usize,
    pub flipped: bool,
}

/// A proof of the line by these parents, of whose instances under the substitution it is a paramodulant.
pub fn paramodulated(
    alloc: Global,
    signature: &Signature,
    parents: &[Parent],
    line: &Form,
    into: usize,
    from: usize,
    change: &Change,
    subst: &Subst,
) -> Result<Part, Memory>
    requires ready { AreReady signature.now parents.now }
    requires line { IsReady signature.now line.now }
    requires shown { Shows signature.now parents.now line.now
        (ByParamodulation into from change.now.into_lit change.now.at change.now.from_lit change.now.flipped
        subst.now) }
    ensures { IfOk result (ShowsLine signature.now parents.now line.now) }
{
    let into = &parents[into];
    let from = &parents[from];
    let opened = known_clause(alloc, line)?;
    let into_opened = known_clause(alloc, &into.form)?;
    let from_opened = known_clause(alloc, &from.form)?;
    paramodulate_opened(
        alloc,
        signature,
        line,
        &opened,
        into,
        &into_opened,
        from,
        &from_opened,
        change,
        subst,
    )
}

// A proof of the line by two parents, whose clauses are opened.
fn paramodulate_opened(
    alloc: Global,
    signature: &Signature,
    line: &Form,
    opened: &Opened,
    left: &Parent,
    left_opened: &Opened,
    right: &Parent,
    right_opened: &Opened,
    change: &Change,
    subst: &Subst,
) -> Result<Part, Memory>
    requires line { IsReadyClause signature.now line.now opened.now }
    requires left { IsReadyClause signature.now left.now.form left_opened.now }
    requires right { IsReadyClause signature.now right.now.form right_opened.now }
    requires joint { IsJoint signature.now opened.now.clause
        (scope_of_both left_opened.now.clause right_opened.now.clause) subst.now }
    requires paramodulates { Paramodulates signature.now left_opened.now.clause right_opened.now.clause
        opened.now.clause change.now.into_lit change.now.at change.now.from_lit change.now.flipped
        (scope_of_both left_opened.now.clause right_opened.now.clause) (images_of_parents opened.now.clause subst.now) }
    ensures { IfOk result (λ proof. (formulas : ListOf Formula)
        → slice_get formulas left.now.number ≡ Some left.now.form
        → slice_get formulas right.now.number ≡ Some right.now.form
        → Proves (theory_of signature.now formulas) [] [] proof line.now) }
{
    let own = opened.clause.sorts.as_slice();
    let left_sorts = left_opened.clause.sorts.as_slice();
    let right_sorts = right_opened.clause.sorts.as_slice();
    let reach = variables_of(alloc, own, left_sorts, right_sorts)?;
    let images = some_images(alloc, subst, own.len(), left_sorts.len())?;
    let left_images = some_images(alloc, subst, own.len(), left_sorts.len())?;
    let left_premise = instance_by(alloc, left.number, left_opened, left_images)?;
    let from = own.len() + left_sorts.len();
    let right_images = some_images(alloc, subst, from, right_sorts.len())?;
    let right_premise = instance_by(alloc, right.number, right_opened, right_images)?;
    let scope = Scope::Outside(reach.sorts.as_slice());
    let lits = left_opened.clause.lits.as_slice();
    let part = paramodulant(
        alloc,
        signature,
        &scope,
        opened,
        lits,
        &images,
        left_premise,
        right_premise,
        change,
    )?;
    closed(alloc, line, opened, reach.more.as_slice(), part)
}

// Falsehood under the negation of the line's body, which is a paramodulant of the two instances, the first of which is
// that of these literals under these images.
fn paramodulant(
    alloc: Global,
    signature: &Signature,
    scope: &Scope<'_>,
    line: &Opened,
    lits: &[Lit],
    images: &Subst,
    into: Premise,
    from: Premise,
    change: &Change,
) -> Result<Part, Memory>
    requires paramodulant { IsParamodulant line.now.clause.lits into.lits from.lits change.now.into_lit change.now.at
        change.now.from_lit change.now.flipped }
    requires few { length images.now ≤ 1000000000 }
    requires place { HasPlace lits.now change.now.into_lit change.now.at }
    requires instances { AreInstances signature.now (scope_sorts scope.now) images.now lits.now into.lits }
    requires goal { IsGoal signature.now (scope_sorts scope.now) line.now }
    requires into { AreSorted signature.now (scope_sorts scope.now) into.lits }
    requires from { AreSorted signature.now (scope_sorts scope.now) from.lits }
    ensures { IfOk result (λ part. (formulas : ListOf Formula)
        → ShowsBody signature.now (scope_sorts scope.now) formulas into.is_or into.lits into.part
        → ShowsBody signature.now (scope_sorts scope.now) formulas from.is_or from.lits from.part
        → RefutesBody signature.now (scope_sorts scope.now) formulas (body line.now) part) }
{
    let equation = from.lits.as_slice()[change.from_lit].copy(alloc)?;
    let mark = images.images.len() as u32;
    let marked = marked_at(alloc, lits, change, mark)?;
    by_equation(
        alloc,
        signature,
        scope,
        line,
        marked.as_slice(),
        images,
        &equation,
        change.flipped,
        into,
        from,
    )
}

// The literals with the variable of that number at the place.
fn marked_at(alloc: Global, lits: &[Lit], change: &Change, mark: u32) -> Result<List<Lit>, Memory>
    requires { HasPlace lits.now change.now.into_lit change.now.at }
    ensures { IfOk result (λ made. (k : Literal) → slice_get lits.now change.now.into_lit ≡ Some k
        → made ≡ slice_set lits.now change.now.into_lit (lit_put_at change.now.at (Var mark) k)) }
{
    let at = change.into_lit;
    let changed = put_in(alloc, &lits[at], change.at.as_slice(), &Term::Var(mark))?;
    let mut made = copy_lits(alloc, lits)?;
    made.set(at, changed);
    Ok(made)
}
