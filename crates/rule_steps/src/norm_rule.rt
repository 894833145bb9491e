ghost use Rattle.std.specs.Prelude.{IfOk, MatchOption, IsTrue, ◌↔◌, ◌<◌, ℕ};
ghost use Rattle.clause_form.specs.Sizes.{norm_size_of};
ghost use Rattle.clause_rules.specs.Answers.{IsAnswer, norm as by_norm};
ghost use Rattle.clause_rules.specs.NormRule.{FlatsAlike, IsFirstNorm, IsNormStep};
ghost use Rattle.clause_rules.specs.Steps.{AreReady, IsReady};
ghost use Rattle.flat_form.specs.Flat.{HasFlat};
ghost use Rattle.rule_steps.specs.code.NormRule.{IsFirstAlike};

use crate::outline::may_be_alike;
use clause_form::{FormFault, Parent};
use clause_rules::Just;
use flat_form::flat;
use fof_terms::{Form, Signature, equal};
use std::alloc::Global;
use tptp_base::{Boxed, Memory};

/// A justification by the rule `norm`: a parent has the line's flat form. None exactly where no parent has it; a
/// formula whose norm size is over 100,000 has none.
pub fn norm_step(
    alloc: Global,
    sig: &Signature,
    parents: &[Parent],
    line: &Form,
) -> Result<Option<Just>, Memory>
    requires parents { AreReady sig.now parents.now }
    requires line { IsReady sig.now line.now }
    ensures { IfOk result (λ answer. IsAnswer sig.now parents.now line.now by_norm answer) }
{
    match first_norm(alloc, sig, parents, line)? {
        Some(parent) => Ok(Some(Just::Norm { parent })),
        None => Ok(None),
    }
}

/// The number in the list, counted from 0, of the first parent with the line's flat form. None exactly where no parent
/// has it.
pub fn first_norm(
    alloc: Global,
    sig: &Signature,
    parents: &[Parent],
    line: &Form,
) -> Result<Option<usize>, Memory>
    requires parents { AreReady sig.now parents.now }
    requires line { IsReady sig.now line.now }
    ensures { IfOk result (λ found. MatchOption found (IsNormStep parents.now line.now
        → ⊥) (IsFirstNorm parents.now line.now)) }
{
    let is_open = may_be_alike(alloc, parents, line)?;
    if !is_open {
        return Ok(None);
    }
    match small_flat(alloc, sig, line)? {
        Some(made) => first_alike(alloc, sig, parents, line, made.get()),
        None => Ok(None),
    }
}

// The flat form of the formula, if its norm size is not over the limit.
fn small_flat(alloc: Global, sig: &Signature, form: &Form) -> Result<Option<Boxed<Form>>, Memory>
    requires form { IsReady sig.now form.now }
    ensures { IfOk result (λ found. MatchOption found (100000 < norm_size_of form.now) (HasFlat form.now)) }
{
    match flat(alloc, form) {
        Ok(made) => Ok(Some(Boxed::new(alloc, made)?)),
        Err(FormFault::Wide) => Ok(None),
        Err(FormFault::Memory) => Err(Memory),
    }
}

// The number of the first parent with the flat form that the line has.
fn first_alike(
    alloc: Global,
    sig: &Signature,
    parents: &[Parent],
    line: &Form,
    made: &Form,
) -> Result<Option<usize>, Memory>
    requires parents { AreReady sig.now parents.now }
    requires line { HasFlat line.now made.now }
    ensures { IfOk result (λ found. MatchOption found ((a : ℕ) → FlatsAlike parents.now made.now a
        → ⊥) (IsFirstAlike parents.now made.now)) }
{
    for at in 0..parents.len() {
        let is_alike = is_flat_of(alloc, sig, line, made, &parents[at].form)?;
        if is_alike {
            return Ok(Some(at));
        }
    }
    Ok(None)
}

// Whether the flat form that the line has is that of the formula. It is where the formula is the line.
fn is_flat_of(
    alloc: Global,
    sig: &Signature,
    line: &Form,
    made: &Form,
    form: &Form,
) -> Result<bool, Memory>
    requires line { HasFlat line.now made.now }
    requires form { IsReady sig.now form.now }
    ensures { IfOk result (λ answer. IsTrue answer ↔ HasFlat form.now made.now) }
{
    if equal(form, line) {
        return Ok(true);
    }
    match small_flat(alloc, sig, form)? {
        Some(other) => Ok(equal(other.get(), made)),
        None => Ok(false),
    }
}
