// The rule `skolem`.
ghost use Rattle.std.specs.Prelude.{◌≡◌, ◌↔◌, ◌<◌, ◌≤◌, [], IfOk, IsTrue, MatchOption};
ghost use Rattle.std.specs.List.{All as Each, AllByRecursion};
ghost use Rattle.fof_terms.specs.Sorts.{SortedTo};
ghost use Rattle.clause_form.specs.Sizes.{norm_size_of};
ghost use Rattle.clause_form.specs.declared.path.Parent.{Parent as Stated};
ghost use Rattle.kernel.specs.Entries.{IsFresh};
ghost use Rattle.skolem_fresh.specs.declared.just.Use.{Use as Used};
ghost use Rattle.skolem_fresh.specs.Justified.{ShowsSkolem};
ghost use Rattle.skolem_fresh.specs.code.Leaves.{leaves_of};
ghost use Rattle.clause_form.specs.Norm.{HasNorm};
ghost use Rattle.clause_form.specs.Paths.{forms_of};
ghost use Rattle.skolem_fresh.specs.SkolemRule.{IsSkolemStep};
ghost use Rattle.skolem_fresh.specs.code.Skolemizing.{IsGiven};
ghost use Rattle.skolem_fresh.specs.Uses.{AreNew};

use crate::choosing::{are_distinct, functions_of};
use crate::just::{SkolemJust, Use};
use crate::leaves::{Leaf, push_leaves};
use crate::skolemizing::skolemize_whole;
use clause_form::{FormFault, Parent, norm, norm_signed};
use fof_terms::{Form, equal};
use proof_check::Theory;
use std::alloc::Global;
use tptp_base::{Boxed, List, Memory};

/// A justification by the rule `skolem`: by its normal form the line is a parent with new functions in place of its
/// existential variables. None exactly where it is so of no parent; a formula whose norm size is over 100,000 has no
/// normal form here.
pub fn skolem_step(
    alloc: Global,
    theory: &Theory,
    parents: &[Parent],
    line: &Form,
) -> Result<Option<SkolemJust>, Memory>
    requires parents { Each (λ (p : Stated). SortedTo 1000000000 theory.now.vocabulary [] p.form) parents.now }
    requires line { SortedTo 1000000000 theory.now.vocabulary [] line.now }
    ensures { IfOk result (λ answer. MatchOption answer (IsSkolemStep theory.now (forms_of parents.now) line.now
        → ⊥) (ShowsSkolem theory.now (forms_of parents.now) line.now)) }
{
    let Some(made) = norm_within(alloc, line)? else {
        return Ok(None);
    };
    let mut leaves = List::new(alloc);
    push_leaves(alloc, made.get(), 0, &mut leaves)?;
    for i in 0..parents.len() {
        let parent = &parents[i].form;
        let found = given_by(alloc, theory, parent, made.get(), leaves.as_slice())?;
        if let Some(uses) = found {
            return Ok(Some(SkolemJust::Skolem { parent: i, uses }));
        }
    }
    Ok(None)
}

// The normal form of the formula, if its norm size is not over the limit.
fn norm_within(alloc: Global, form: &Form) -> Result<Option<Boxed<Form>>, Memory>
    ensures { IfOk result (λ found. MatchOption found (100000 < norm_size_of form.now) (HasNorm form.now)) }
{
    match norm(alloc, form) {
        Ok(made) => Ok(Some(Boxed::new(alloc, made)?)),
        Err(FormFault::Wide) => Ok(None),
        Err(FormFault::Memory) => Err(Memory),
    }
}

// The functions with which the parent has that normal form, whose terms these are, when they take the place of its
// existential variables.
fn given_by(
    alloc: Global,
    theory: &Theory,
    parent: &Form,
    made: &Form,
    leaves: &[Leaf],
) -> Result<Option<List<Use>>, Memory>
    requires parent { SortedTo 1000000000 theory.now.vocabulary [] parent.now }
    requires leaves { leaves.now ≡ leaves_of 0 made.now }
    ensures { IfOk result (λ found. IsGiven theory.now parent.now made.now found) }
{
    let Some(own) = norm_within(alloc, parent)? else {
        return Ok(None);
    };
    let mut uses = List::new(alloc);
    let sig = theory.signature();
    let Some(whole) = skolemize_whole(alloc, sig, own.get(), leaves, &mut uses)? else {
        return Ok(None);
    };
    if uses.is_empty() {
        return Ok(None);
    }
    if !are_new(alloc, theory, uses.as_slice())? {
        return Ok(None);
    }
    let normed = norm_signed(alloc, &whole, true)?;
    if !equal(&normed, made) {
        return Ok(None);
    }
    Ok(Some(uses))
}

// Whether the functions are distinct and new to the theory.
fn are_new(alloc: Global, theory: &Theory, uses: &[Use]) -> Result<bool, Memory>
    ensures { IfOk result (λ answer. IsTrue answer ↔ AreNew theory.now uses.now) }
{
    let functions = functions_of(alloc, uses)?;
    if !are_distinct(functions.as_slice()) {
        return Ok(false);
    }
    Ok(are_fresh(theory, uses))
}

// Whether none of the functions stands in a formula of the theory.
fn are_fresh(theory: &Theory, uses: &[Use]) -> bool
    ensures { IsTrue result ↔ AllByRecursion (λ (u : Used). IsFresh u.function theory.now) uses.now }
{
    for function in uses {
        if theory.uses(function.function) {
            return false;
        }
    }
    true
}
