//! Lines that cover the clause of a parent.
ghost use Rattle.std.specs.Prelude.{◌≡◌, ◌<◌, ℕ, length, Some, IfOk};
ghost use Rattle.fof_terms.specs.Scope.{scope_sorts};
ghost use Rattle.clause_form.specs.ClauseView.{clause_of};
ghost use Rattle.clause_form.specs.Covers.{scope_of};
ghost use Rattle.clause_form.specs.declared.clause.Clause.{Clause as Disjunction};
ghost use Rattle.clause_proofs.specs.code.Bodies.{IsReadyClause};
ghost use Rattle.clause_rules.specs.Steps.{AreCovered, AreReady, IsJoint, IsReady, images_of_parents, instances};
ghost use Rattle.inference_proofs.specs.code.Covering.{IsByCovering, IsByParent, ShowsFrom};

use clause_form::Parent;
use clause_proofs::{
    Opened, closed, few_variables_of, instance_by, known_clause, open_clause, refute_covered,
    some_images,
};
use derive_kit::Part;
use fof_terms::{Form, Scope, Signature};
use rule_steps::cover_clause;
use std::alloc::Global;
use tptp_base::Memory;
use unify_terms::Subst;

/// A proof of the line by a parent whose clause it covers; None exactly where it covers the clause of none.
pub fn by_covering(
    alloc: Global,
    signature: &Signature,
    parents: &[Parent],
    line: &Form,
) -> Result<Option<Part>, Memory>
    requires ready { AreReady signature.now parents.now }
    requires line { IsReady signature.now line.now }
    requires clause { (e : Disjunction) × (clause_of line.now ≡ Some e) }
    ensures { IfOk result (IsByCovering signature.now parents.now line.now) }
{
    let opened = known_clause(alloc, line)?;
    for at in 0..parents.len() {
        if let Some(proof) = by_parent(alloc, signature, &parents[at], line, &opened)? {
            return Ok(Some(proof));
        }
    }
    Ok(None)
}

// A proof of the line, whose clause is opened, by the parent; None exactly where the line covers no clause that the
// parent is.
fn by_parent(
    alloc: Global,
    signature: &Signature,
    parent: &Parent,
    line: &Form,
    opened: &Opened,
) -> Result<Option<Part>, Memory>
    requires parent { IsReady signature.now parent.now.form }
    requires line { IsReadyClause signature.now line.now opened.now }
    ensures { IfOk result (IsByParent signature.now parent.now line.now opened.now.clause) }
{
    match open_clause(alloc, &parent.form)? {
        Some(clause) => match cover_clause(alloc, signature, &clause.clause, &opened.clause)? {
            Some(subst) => {
                let proof = cover_opened(alloc, signature, line, opened, parent, &clause, &subst)?;
                Ok(Some(proof))
            }
            None => Ok(None),
        },
        None => Ok(None),
    }
}

// A proof of the line by a parent, whose clause is opened, and covered under the substitution.
fn cover_opened(
    alloc: Global,
    signature: &Signature,
    line: &Form,
    opened: &Opened,
    parent: &Parent,
    clause: &Opened,
    subst: &Subst,
) -> Result<Part, Memory>
    requires line { IsReadyClause signature.now line.now opened.now }
    requires parent { IsReadyClause signature.now parent.now.form clause.now }
    requires joint { IsJoint signature.now opened.now.clause (scope_of clause.now.clause) subst.now }
    requires covers { AreCovered opened.now.clause.lits
        (instances (images_of_parents opened.now.clause subst.now) clause.now.clause.lits) }
    ensures { IfOk result (ShowsFrom signature.now parent.now line.now) }
{
    let own = opened.clause.sorts.as_slice();
    let sorts = clause.clause.sorts.as_slice();
    let reach = few_variables_of(alloc, own, sorts, &[])?;
    let images = some_images(alloc, subst, own.len(), sorts.len())?;
    let premise = instance_by(alloc, parent.number, clause, images)?;
    let scope = Scope::Outside(reach.sorts.as_slice());
    let part = refute_covered(alloc, signature, &scope, opened, premise)?;
    closed(alloc, line, opened, reach.more.as_slice(), part)
}
