ghost use Rattle.std.specs.Prelude.{◌≡◌, [], IfOk, true, false};
ghost use Rattle.fof_terms.specs.declared.form.Form.{Not, Or};
ghost use Rattle.kernel.specs.declared.proof.Proof.{ImpI, OrE, Hyp};
ghost use Rattle.norm_proofs.specs.code.Links.{kind_of, arm_tree, link_tree};

use crate::applying::applied;
use crate::steps::{denied, node, under};
use derive_kit::{Part, and_e, and_i, hyp, not_e, not_i, or_e, or_i, raa};
use fof_terms::{Form, copy_all};
use kernel::Proof;
use std::alloc::Global;
use tptp_base::{List, Memory};

/// Which proof is built: for a conjunction or universal quantifier, or else for a disjunction or existential one; for
/// it or else for its negation; to its normal form, or else back.
#[derive(Clone, Copy)]
pub(crate) struct Way {
    pub(crate) conjunction: bool,
    pub(crate) positive: bool,
    pub(crate) forth: bool,
}

impl Way {
    // Whether the normal form is a conjunction or universal.
    pub(crate) fn kind(self) -> bool
        ensures { result ≡ kind_of self.conjunction self.positive }
    {
        toward(self.conjunction, self.positive)
    }
}

// The second, or under minus its opposite.
pub(crate) fn toward(first: bool, second: bool) -> bool
    ensures { result ≡ kind_of first second }
{
    if first { second } else { !second }
}

// The proof for the member of that number, by one between it and its normal form.
pub(crate) fn arm(
    alloc: Global,
    way: Way,
    forms: &[Form],
    norms: &[Form],
    number: u32,
    form: &Form,
    part: Part,
) -> Result<Part, Memory>
    ensures { IfOk result (λ made. made
        ≡ arm_tree way.conjunction way.positive way.forth forms.now norms.now number form.now part) }
{
    if way.positive {
        if way.conjunction {
            let own = and_e(alloc, number, hyp(alloc, 0)?)?;
            return applied(alloc, part, own);
        }
        let own = applied(alloc, part, hyp(alloc, 0)?)?;
        if way.forth {
            return or_i(alloc, copy_all(alloc, norms)?, number, own);
        }
        return or_i(alloc, copy_all(alloc, forms)?, number, own);
    }
    if way.forth {
        return denied_arm(alloc, way.conjunction, forms, norms, number, form, part);
    }
    if way.conjunction {
        let none = applied(alloc, part, hyp(alloc, 0)?)?;
        return not_e(alloc, none, and_e(alloc, number, hyp(alloc, 1)?)?);
    }
    let own = and_e(alloc, number, hyp(alloc, 2)?)?;
    not_e(alloc, applied(alloc, part, own)?, hyp(alloc, 0)?)
}

// The same from the negation to the normal form.
fn denied_arm(
    alloc: Global,
    conjunction: bool,
    forms: &[Form],
    norms: &[Form],
    number: u32,
    form: &Form,
    part: Part,
) -> Result<Part, Memory>
    ensures { IfOk result (λ made. made ≡ arm_tree conjunction false true forms.now norms.now number form.now part) }
{
    if conjunction {
        let own = applied(alloc, part, hyp(alloc, 0)?)?;
        let one = or_i(alloc, copy_all(alloc, norms)?, number, own)?;
        let clash = not_e(alloc, hyp(alloc, 1)?, one)?;
        return raa(alloc, form.copy(alloc)?, clash);
    }
    let one = or_i(alloc, copy_all(alloc, forms)?, number, hyp(alloc, 0)?)?;
    let clash = not_e(alloc, hyp(alloc, 1)?, one)?;
    let none = not_i(alloc, form.copy(alloc)?, clash)?;
    applied(alloc, part, none)
}

// The proof for all members, by those for each.
pub(crate) fn link(
    alloc: Global,
    way: Way,
    forms: &[Form],
    norms: &[Form],
    parts: List<Proof>,
) -> Result<Part, Memory>
    ensures { IfOk result (λ made. made ≡ link_tree way.conjunction way.positive way.forth forms.now norms.now parts) }
{
    if way.positive {
        return plain_link(alloc, way.conjunction, way.forth, forms, norms, parts);
    }
    if way.forth {
        return denied_link(alloc, way.conjunction, forms, norms, parts);
    }
    if way.conjunction {
        let clash = absurd_cases(alloc, 1, parts)?;
        let none = not_i(alloc, node(alloc, true, forms)?.into_inner(), clash)?;
        return under(alloc, node(alloc, false, norms)?, none);
    }
    let clash = absurd_cases(alloc, 0, parts)?;
    let none = not_i(alloc, node(alloc, false, forms)?.into_inner(), clash)?;
    under(alloc, node(alloc, true, norms)?, none)
}

// The same of the node itself.
pub(crate) fn plain_link(
    alloc: Global,
    conjunction: bool,
    forth: bool,
    forms: &[Form],
    norms: &[Form],
    parts: List<Proof>,
) -> Result<Part, Memory>
    ensures { IfOk result (λ made. made ≡ link_tree conjunction true forth forms.now norms.now parts) }
{
    if conjunction {
        let whole = and_i(alloc, parts)?;
        if forth {
            return under(alloc, node(alloc, true, forms)?, whole);
        }
        return under(alloc, node(alloc, true, norms)?, whole);
    }
    if forth {
        return by_cases(alloc, forms, norms, parts);
    }
    by_cases(alloc, norms, forms, parts)
}

// From a disjunction to another, by its cases.
fn by_cases(alloc: Global, from: &[Form], to: &[Form], arms: List<Proof>) -> Result<Part, Memory>
    ensures { IfOk result (λ made. made ≡ ImpI (Or from.now) (OrE (Or to.now) (Hyp 0) arms)) }
{
    let own = hyp(alloc, 0)?;
    let goal = node(alloc, false, to)?;
    let whole = or_e(alloc, goal.into_inner(), own, arms)?;
    under(alloc, node(alloc, false, from)?, whole)
}

// From the negation to the normal form.
fn denied_link(
    alloc: Global,
    conjunction: bool,
    forms: &[Form],
    norms: &[Form],
    parts: List<Proof>,
) -> Result<Part, Memory>
    ensures { IfOk result (λ made. made ≡ link_tree conjunction false true forms.now norms.now parts) }
{
    let whole = and_i(alloc, parts)?;
    if conjunction {
        let clash = not_e(alloc, hyp(alloc, 1)?, whole)?;
        let last = raa(alloc, node(alloc, false, norms)?.into_inner(), clash)?;
        return under(alloc, denied(alloc, node(alloc, true, forms)?)?, last);
    }
    under(alloc, denied(alloc, node(alloc, false, forms)?)?, whole)
}

// Falsehood, by the cases of the hypothesis of that number.
fn absurd_cases(alloc: Global, number: u32, arms: List<Proof>) -> Result<Part, Memory>
    ensures { IfOk result (λ made. made ≡ OrE (Or []) (Hyp number) arms) }
{
    let own = hyp(alloc, number)?;
    or_e(alloc, Form::Or(List::new(alloc)), own, arms)
}
