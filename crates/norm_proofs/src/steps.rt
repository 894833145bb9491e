ghost use Rattle.std.specs.Prelude.{◌≡◌, IfOk};
ghost use Rattle.fof_terms.specs.declared.form.Form.{Not};
ghost use Rattle.kernel.specs.declared.proof.Proof.{Hyp, ImpI};
ghost use Rattle.clause_form.specs.Norm.{node as node_of, signed as signed_of};
ghost use Rattle.norm_proofs.specs.code.Steps.{then_tree, denied_tree, twice_denied_tree};

use crate::applying::{applied, is_itself};
use derive_kit::{Part, hyp, imp_e, imp_i, not_e, not_i, raa};
use fof_terms::{Form, copy_all};
use std::alloc::Global;
use tptp_base::{Boxed, Memory};

/// A formula in memory of its own.
pub type Whole = Boxed<Form>;

/// The normal form of a formula, or under minus of its negation, and a proof between them.
#[derive(Drop)]
pub(crate) struct Normed {
    pub(crate) norm: Whole,
    pub(crate) part: Part,
}

// And of the members, or under minus Or.
pub(crate) fn node(alloc: Global, kind: bool, members: &[Form]) -> Result<Whole, Memory>
    ensures { IfOk result (λ made. made ≡ node_of kind members.now) }
{
    let members = copy_all(alloc, members)?;
    Ok(Boxed::new(alloc, clause_form::node(kind, members))?)
}

// The negation.
pub(crate) fn denied(alloc: Global, form: Whole) -> Result<Whole, Memory>
    ensures { IfOk result (λ made. made ≡ Not form) }
{
    Ok(Boxed::new(alloc, Form::Not(form))?)
}

// The formula, or under minus its negation.
pub(crate) fn signed(alloc: Global, positive: bool, form: Whole) -> Result<Whole, Memory>
    ensures { IfOk result (λ made. made ≡ signed_of positive form) }
{
    if positive {
        Ok(form)
    } else {
        denied(alloc, form)
    }
}

// The same formula, in memory of its own.
pub(crate) fn copy(alloc: Global, form: &Form) -> Result<Whole, Memory>
    ensures { IfOk result (λ made. made ≡ form.now) }
{
    Ok(Boxed::new(alloc, form.copy(alloc)?)?)
}

// The implication from the formula to what the part shows under it.
pub(crate) fn under(alloc: Global, left: Whole, part: Part) -> Result<Part, Memory>
    ensures { IfOk result (λ node. node ≡ ImpI left part) }
{
    imp_i(alloc, left.into_inner(), part)
}

// From the formula to itself.
pub(crate) fn same(alloc: Global, form: Whole) -> Result<Part, Memory>
    ensures { IfOk result (λ node. node ≡ ImpI form (Hyp 0)) }
{
    under(alloc, form, hyp(alloc, 0)?)
}

// The formula as its own normal form.
pub(crate) fn unchanged(alloc: Global, form: Whole) -> Result<Normed, Memory>
    ensures norm { IfOk result (λ made. made.norm ≡ form) }
    ensures part { IfOk result (λ made. made.part ≡ ImpI form (Hyp 0)) }
{
    let part = same(alloc, copy(alloc, form.get())?)?;
    Ok(Normed { norm: form, part })
}

// From the first formula by a middle one to the last, or back. Where one of the parts goes from a formula to itself, the
// other one does it alone.
pub(crate) fn then(
    alloc: Global,
    forth: bool,
    first: Whole,
    last: Whole,
    before: Part,
    after: Part,
) -> Result<Part, Memory>
    ensures { IfOk result (λ node. node ≡ then_tree forth first last before after) }
{
    if is_itself(before.get()) {
        return Ok(after);
    }
    if is_itself(after.get()) {
        return Ok(before);
    }
    let own = hyp(alloc, 0)?;
    if forth {
        let middle = imp_e(alloc, before, own)?;
        return under(alloc, first, imp_e(alloc, after, middle)?);
    }
    let middle = imp_e(alloc, after, own)?;
    under(alloc, last, imp_e(alloc, before, middle)?)
}

// Between the negations, by a part between the formulas the other way.
pub(crate) fn between_denied(
    alloc: Global,
    forth: bool,
    first: Whole,
    last: Whole,
    part: Part,
) -> Result<Part, Memory>
    ensures { IfOk result (λ node. node ≡ denied_tree forth first last part) }
{
    let own = applied(alloc, part, hyp(alloc, 0)?)?;
    let contrary = not_e(alloc, hyp(alloc, 1)?, own)?;
    if forth {
        let none = not_i(alloc, last.into_inner(), contrary)?;
        return under(alloc, denied(alloc, first)?, none);
    }
    let none = not_i(alloc, first.into_inner(), contrary)?;
    under(alloc, denied(alloc, last)?, none)
}

// From the formula's negation, denied, to the formula, or back.
pub(crate) fn twice_denied(alloc: Global, forth: bool, form: &Form) -> Result<Part, Memory>
    ensures { IfOk result (λ node. node ≡ twice_denied_tree forth form.now) }
{
    if forth {
        let contrary = not_e(alloc, hyp(alloc, 1)?, hyp(alloc, 0)?)?;
        let own = raa(alloc, form.copy(alloc)?, contrary)?;
        let twice = denied(alloc, denied(alloc, copy(alloc, form)?)?)?;
        return under(alloc, twice, own);
    }
    let contrary = not_e(alloc, hyp(alloc, 0)?, hyp(alloc, 1)?)?;
    let none = denied(alloc, copy(alloc, form)?)?;
    let own = not_i(alloc, none.into_inner(), contrary)?;
    under(alloc, copy(alloc, form)?, own)
}
