//! Lines that cover a clause of a parent.
ghost use Rattle.std.specs.Prelude.{◌≡◌, ◌≤◌, true, ℕ, [], length, Some, List as ListOf, IfOk};
ghost use Rattle.fof_terms.specs.declared.form.Form.{Form as Formula};
ghost use Rattle.fof_terms.specs.Sorts.{Sorted};
ghost use Rattle.clause_form.specs.ClauseView.{closed as closed_form};
ghost use Rattle.clause_form.specs.Covers.{scope_of};
ghost use Rattle.clause_form.specs.Found.{IsRoomy};
ghost use Rattle.clause_form.specs.Norm.{norm_of};
ghost use Rattle.clause_form.specs.Paths.{reached};
ghost use Rattle.clause_form.specs.Sizes.{norm_size_of};
ghost use Rattle.clause_form.specs.declared.clause.Clause.{Clause as Disjunction};
ghost use Rattle.clause_rules.specs.Justified.{Shows};
ghost use Rattle.clause_rules.specs.Steps.{AreCovered, AreReady, IsJoint, IsReady, images_of_parents, instances};
ghost use Rattle.clause_rules.specs.declared.just.Just.TheVariants.{Cover as ByCover};
ghost use Rattle.kernel.specs.Proves.{Proves};
ghost use Rattle.clause_proofs.specs.Bodies.{HasClause};
ghost use Rattle.clause_proofs.specs.code.Bodies.{IsReadyClause};
ghost use Rattle.cover_proofs.specs.code.Facts.{CoversIn, IsClosed, IsFact, IsFactUpTo, ShowsAnywhere, ShowsByParent};
ghost use Rattle.clause_proofs.specs.Shown.{ShowsLine};
ghost use Rattle.clause_proofs.specs.Refuting.{theory_of};

use crate::members::by_member;
use clause_form::{Clause, FormFault, Parent, Path, clause_of_path, norm};
use clause_proofs::{
    Opened, closed, few_variables_of, instance_of_part, known_clause, line as formula,
    refute_covered, some_images,
};
use derive_kit::Part;
use fof_terms::{Form, Scope, Signature};
use norm_proofs::{apply, norm_forth, path_proof};
use std::alloc::Global;
use tptp_base::Memory;
use unify_terms::Subst;

/// A clause that a path reaches in a parent's normal form, and a part that shows the clause's closed formula.
#[derive(Drop)]
struct Reached {
    clause: Opened,
    fact: Part,
}

/// A proof of the line by the parent of that number in the list: the line covers what the path reaches in its normal
/// form.
pub fn covered(
    alloc: Global,
    signature: &Signature,
    parents: &[Parent],
    line: &Form,
    parent: usize,
    path: &Path,
    subst: &Subst,
) -> Result<Part, Memory>
    requires ready { AreReady signature.now parents.now }
    requires line { IsReady signature.now line.now }
    requires shown { Shows signature.now parents.now line.now (ByCover parent path.now subst.now) }
    ensures { IfOk result (ShowsLine signature.now parents.now line.now) }
{
    let parent = &parents[parent];
    if let Some(proof) = by_member(alloc, signature, parent, line, path)? {
        return Ok(proof);
    }
    let own = formula(alloc, parent.number)?;
    covered_in(
        alloc,
        signature,
        parent,
        &parent.form,
        own,
        line,
        path,
        subst,
    )
}

/// A proof of the line by a formula and a part that shows it, wherever the parent stands: the line covers what the path
/// reaches in the formula's normal form.
pub(crate) fn covered_in(
    alloc: Global,
    signature: &Signature,
    parent: &Parent,
    form: &Form,
    own: Part,
    line: &Form,
    path: &Path,
    subst: &Subst,
) -> Result<Part, Memory>
    requires line { IsReady signature.now line.now }
    requires fact { IsFact signature.now parent.now form.now own }
    requires covers { CoversIn signature.now form.now line.now path.now subst.now }
    ensures { IfOk result (ShowsByParent signature.now parent.now line.now) }
{
    let opened = known_clause(alloc, line)?;
    let Reached { clause, fact } = reached_by(alloc, signature, parent, form, own, path)?;
    cover_opened(alloc, signature, line, &opened, &clause, fact, subst)
}

// What the path reaches in the normal form of the formula, which the part shows wherever the parent stands.
fn reached_by(
    alloc: Global,
    signature: &Signature,
    parent: &Parent,
    form: &Form,
    own: Part,
    path: &Path,
) -> Result<Reached, Memory>
    requires own { IsFact signature.now parent.now form.now own }
    requires small { norm_size_of form.now ≤ 100000 }
    requires fits { (c : Disjunction) × (reached path.now (norm_of true form.now) ≡ Some c) }
    ensures reached { IfOk result (λ made. reached path.now (norm_of true form.now) ≡ Some made.clause.clause) }
    ensures clause { IfOk result (λ made. IsClosed signature.now made.clause) }
    ensures few { IfOk result (λ made. length made.clause.clause.sorts ≤ 100000) }
    ensures fact { IfOk result (λ made. IsFact signature.now parent.now (closed_form made.clause.clause) made.fact) }
{
    let own = norm_fact(alloc, signature, parent, form, own)?;
    let norm = small_norm(alloc, form)?;
    let clause = reached_clause(alloc, &norm, path)?;
    let along = path_proof(alloc, &norm, path)?;
    let fact = apply(alloc, along, own)?;
    Ok(Reached { clause, fact })
}

/// A part that shows the normal form of the formula that the other part shows.
pub(crate) fn norm_fact(
    alloc: Global,
    signature: &Signature,
    parent: &Parent,
    form: &Form,
    own: Part,
) -> Result<Part, Memory>
    requires sorted { Sorted signature.now [] form.now }
    requires small { norm_size_of form.now ≤ 100000 }
    ensures { IfOk result (λ made. (n : ℕ) → n ≤ 1000000000
        → IsFactUpTo n signature.now parent.now form.now own
        → IsFactUpTo n signature.now parent.now (norm_of true form.now) made) }
{
    let forth = norm_forth(alloc, form)?;
    apply(alloc, forth, own)
}

/// The normal form of the formula, whose norm size is within the limit.
pub(crate) fn small_norm(alloc: Global, form: &Form) -> Result<Form, Memory>
    requires { norm_size_of form.now ≤ 100000 }
    ensures { IfOk result (λ made. made ≡ norm_of true form.now) }
{
    match norm(alloc, form) {
        Ok(made) => Ok(made),
        Err(FormFault::Memory) => Err(Memory),
        Err(FormFault::Wide) => unreachable!(),
    }
}

// The clause that the path reaches in the normal form, as its closed formula has it.
fn reached_clause(alloc: Global, norm: &Form, path: &Path) -> Result<Opened, Memory>
    requires roomy { IsRoomy norm.now }
    requires small { norm_size_of norm.now ≤ 100000 }
    requires fits { (c : Disjunction) × (reached path.now norm.now ≡ Some c) }
    ensures reached { IfOk result (λ opened. reached path.now norm.now ≡ Some opened.clause) }
    ensures has { IfOk result (λ opened. HasClause (closed_form opened.clause) opened.clause opened.is_or) }
    ensures few { IfOk result (λ opened. length opened.clause.sorts ≤ 100000) }
{
    match clause_of_path(alloc, norm, path)? {
        Some(clause) => Ok(as_closed(clause)),
        None => unreachable!(),
    }
}

// The clause, as its closed formula has it: one literal stands alone.
fn as_closed(clause: Clause) -> Opened
    ensures clause { result.clause ≡ clause }
    ensures has { HasClause (closed_form clause) clause result.is_or }
{
    if clause.lits.len() == 1 {
        let is_or = false;
        return Opened { clause, is_or };
    }
    let is_or = true;
    Opened { clause, is_or }
}

// A proof of the line by a clause that it covers, with a part that shows the clause. More variables than a normal
// form's proof can have, of which no memory has the formulas, are answered by want of memory.
fn cover_opened(
    alloc: Global,
    signature: &Signature,
    line: &Form,
    opened: &Opened,
    clause: &Opened,
    fact: Part,
    subst: &Subst,
) -> Result<Part, Memory>
    requires line { IsReadyClause signature.now line.now opened.now }
    requires clause { IsClosed signature.now clause.now }
    requires few { length clause.now.clause.sorts ≤ 100000 }
    requires joint { IsJoint signature.now opened.now.clause (scope_of clause.now.clause) subst.now }
    requires covers { AreCovered opened.now.clause.lits
        (instances (images_of_parents opened.now.clause subst.now) clause.now.clause.lits) }
    ensures { IfOk result (λ proof. (formulas : ListOf Formula)
        → ShowsAnywhere signature.now formulas (closed_form clause.now.clause) fact
        → Proves (theory_of signature.now formulas) [] [] proof line.now) }
{
    let own = opened.clause.sorts.as_slice();
    let sorts = clause.clause.sorts.as_slice();
    let reach = few_variables_of(alloc, own, sorts, &[])?;
    if reach.sorts.len() > 900_000_000 {
        return Err(Memory);
    }
    let images = some_images(alloc, subst, own.len(), sorts.len())?;
    let premise = instance_of_part(alloc, fact, clause, images)?;
    let scope = Scope::Outside(reach.sorts.as_slice());
    let part = refute_covered(alloc, signature, &scope, opened, premise)?;
    closed(alloc, line, opened, reach.more.as_slice(), part)
}
