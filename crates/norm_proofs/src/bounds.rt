ghost use Rattle.std.specs.Prelude.{◌≡◌, ◌<◌, ◌≤◌, ◌+◌, ◌^◌, ℕ, IfOk, true, false, not, [], ◌-◌};
ghost use Rattle.clause_form.specs.Norm.{quantifier as quantifier_of, quantified, signed as signed_of};
ghost use Rattle.fof_terms.specs.declared.form.Form.{Or};
ghost use Rattle.fof_terms.specs.Lift.{lift_reach};
ghost use Rattle.fof_terms.specs.Sorts.{binder_depth};
ghost use Rattle.kernel.specs.declared.proof.Proof.{ImpI, NotI, ExE, Hyp};
ghost use Rattle.norm_proofs.specs.code.Steps.{Between};
ghost use Rattle.norm_proofs.specs.code.Links.{kind_of};
ghost use Rattle.norm_proofs.specs.code.Bound.{at_variable, by_variable, bound_tree, dropped_tree};

use crate::applying::applied;
use crate::links::Way;
use crate::steps::{Normed, Whole, copy, denied, signed, then, under};
use derive_kit::{Part, all_e, all_i, ex_e, ex_i, hyp, inhabit, not_e, not_i, raa};
use fof_terms::{Form, SortId, Term, has_variable, instantiate, lift};
use std::alloc::Global;
use tptp_base::{Boxed, List, Memory};

// All of that sort over the body, or under minus Ex.
fn quantifier(alloc: Global, kind: bool, sort: SortId, body: &Form) -> Result<Whole, Memory>
    ensures { IfOk result (λ made. made ≡ quantifier_of kind sort body.now) }
{
    let body = copy(alloc, body)?;
    if kind {
        Ok(Boxed::new(alloc, Form::All(sort, body))?)
    } else {
        Ok(Boxed::new(alloc, Form::Ex(sort, body))?)
    }
}

// What a universal quantifier says of the nearest variable.
fn here(alloc: Global, part: Part) -> Result<Part, Memory>
    ensures { IfOk result (λ made. made ≡ at_variable part) }
{
    all_e(alloc, Term::Var(0), part)
}

// That there is one, by the nearest variable.
fn one(alloc: Global, sort: SortId, body: &Form, part: Part) -> Result<Part, Memory>
    requires { lift_reach 1 1 body.now < 2 ^ 32 }
    ensures { IfOk result (λ made. made ≡ by_variable sort body.now part) }
{
    ex_i(alloc, sort, lift(alloc, body, 1, 1)?, Term::Var(0), part)
}

// Between a quantified formula and the quantifier over its body's normal form, by the part, which is between the body
// and that.
fn bound(
    alloc: Global,
    way: Way,
    sort: SortId,
    body: &Form,
    norm: &Form,
    part: Part,
) -> Result<Part, Memory>
    requires body { lift_reach 1 1 body.now < 2 ^ 32 }
    requires norm { lift_reach 1 1 norm.now < 2 ^ 32 }
    ensures { IfOk result (λ made. made
        ≡ bound_tree way.conjunction way.positive way.forth sort body.now norm.now part) }
{
    if way.positive {
        return plain_bound(alloc, way, sort, body, norm, part);
    }
    if way.forth {
        return denied_bound(alloc, way.conjunction, sort, body, norm, part);
    }
    if way.conjunction {
        let none = applied(alloc, part, hyp(alloc, 0)?)?;
        let clash = not_e(alloc, none, here(alloc, hyp(alloc, 1)?)?)?;
        return no_one(alloc, true, sort, body, norm, 1, clash);
    }
    let none = applied(alloc, part, here(alloc, hyp(alloc, 2)?)?)?;
    let clash = not_e(alloc, none, hyp(alloc, 0)?)?;
    no_one(alloc, false, sort, body, norm, 0, clash)
}

// From the normal form to the negation, by falsehood for each one that the hypothesis of that number says there is.
fn no_one(
    alloc: Global,
    kind: bool,
    sort: SortId,
    body: &Form,
    norm: &Form,
    number: u32,
    clash: Part,
) -> Result<Part, Memory>
    ensures { IfOk result (λ made. made
        ≡ ImpI (quantifier_of (not kind) sort norm.now)
        (NotI (quantifier_of kind sort body.now) (ExE (Or []) (Hyp number) clash))) }
{
    let chosen = hyp(alloc, number)?;
    let absurd = ex_e(alloc, Form::Or(List::new(alloc)), chosen, clash)?;
    let whole = quantifier(alloc, kind, sort, body)?;
    let none = not_i(alloc, whole.into_inner(), absurd)?;
    under(alloc, quantifier(alloc, !kind, sort, norm)?, none)
}

// The same of the formula itself.
fn plain_bound(
    alloc: Global,
    way: Way,
    sort: SortId,
    body: &Form,
    norm: &Form,
    part: Part,
) -> Result<Part, Memory>
    requires body { lift_reach 1 1 body.now < 2 ^ 32 }
    requires norm { lift_reach 1 1 norm.now < 2 ^ 32 }
    ensures { IfOk result (λ made. made ≡ bound_tree way.conjunction true way.forth sort body.now norm.now part) }
{
    if way.conjunction {
        let own = applied(alloc, part, here(alloc, hyp(alloc, 0)?)?)?;
        let whole = all_i(alloc, sort, own)?;
        if way.forth {
            return under(alloc, quantifier(alloc, true, sort, body)?, whole);
        }
        return under(alloc, quantifier(alloc, true, sort, norm)?, whole);
    }
    let own = applied(alloc, part, hyp(alloc, 0)?)?;
    if way.forth {
        return other_one(alloc, sort, body, norm, own);
    }
    other_one(alloc, sort, norm, body, own)
}

// From that there is one to that there is another, which the part shows of it.
fn other_one(
    alloc: Global,
    sort: SortId,
    from: &Form,
    to: &Form,
    part: Part,
) -> Result<Part, Memory>
    requires { lift_reach 1 1 to.now < 2 ^ 32 }
    ensures { IfOk result (λ made. made
        ≡ ImpI (quantifier_of false sort from.now)
        (ExE (quantifier_of false sort to.now) (Hyp 0) (by_variable sort to.now part))) }
{
    let found = one(alloc, sort, to, part)?;
    let chosen = hyp(alloc, 0)?;
    let goal = quantifier(alloc, false, sort, to)?;
    let whole = ex_e(alloc, goal.into_inner(), chosen, found)?;
    under(alloc, quantifier(alloc, false, sort, from)?, whole)
}

// From the negation to the normal form.
fn denied_bound(
    alloc: Global,
    conjunction: bool,
    sort: SortId,
    body: &Form,
    norm: &Form,
    part: Part,
) -> Result<Part, Memory>
    requires body { lift_reach 1 1 body.now < 2 ^ 32 }
    requires norm { lift_reach 1 1 norm.now < 2 ^ 32 }
    ensures { IfOk result (λ made. made ≡ bound_tree conjunction false true sort body.now norm.now part) }
{
    if conjunction {
        let found = one(alloc, sort, norm, applied(alloc, part, hyp(alloc, 0)?)?)?;
        let clash = not_e(alloc, hyp(alloc, 1)?, found)?;
        let own = raa(alloc, body.copy(alloc)?, clash)?;
        let clash = not_e(alloc, hyp(alloc, 1)?, all_i(alloc, sort, own)?)?;
        let goal = quantifier(alloc, false, sort, norm)?;
        let whole = raa(alloc, goal.into_inner(), clash)?;
        return under(
            alloc,
            denied(alloc, quantifier(alloc, true, sort, body)?)?,
            whole,
        );
    }
    let found = one(alloc, sort, body, hyp(alloc, 0)?)?;
    let clash = not_e(alloc, hyp(alloc, 1)?, found)?;
    let none = not_i(alloc, body.copy(alloc)?, clash)?;
    let whole = all_i(alloc, sort, applied(alloc, part, none)?)?;
    under(
        alloc,
        denied(alloc, quantifier(alloc, false, sort, body)?)?,
        whole,
    )
}

// Between a quantifier over a body in which its variable doesn't stand and the body without the variable.
fn dropped(
    alloc: Global,
    kind: bool,
    forth: bool,
    sort: SortId,
    body: &Form,
    freed: &Form,
) -> Result<Part, Memory>
    requires { lift_reach 1 1 body.now < 2 ^ 32 }
    ensures { IfOk result (λ made. made ≡ dropped_tree kind forth sort body.now freed.now) }
{
    let own = hyp(alloc, 0)?;
    if forth {
        let whole = if kind {
            let any = here(alloc, own)?;
            inhabit(alloc, sort, freed.copy(alloc)?, any)?
        } else {
            let chosen = hyp(alloc, 0)?;
            ex_e(alloc, freed.copy(alloc)?, chosen, own)?
        };
        return under(alloc, quantifier(alloc, kind, sort, body)?, whole);
    }
    if kind {
        let whole = all_i(alloc, sort, own)?;
        return under(alloc, copy(alloc, freed)?, whole);
    }
    let found = one(alloc, sort, body, own)?;
    let goal = quantifier(alloc, false, sort, body)?;
    let whole = inhabit(alloc, sort, goal.into_inner(), found)?;
    under(alloc, copy(alloc, freed)?, whole)
}

// The normal form of a quantified formula, or under minus of its negation, with the proof between them, by that of the
// body, which is given with its normal form.
pub(crate) fn quantified_step(
    alloc: Global,
    way: Way,
    sort: SortId,
    body: &Form,
    norm: Whole,
    part: Part,
) -> Result<Normed, Memory>
    requires body { lift_reach 1 1 body.now < 2 ^ 32 }
    requires norm { lift_reach 1 1 norm < 2 ^ 32 }
    requires depth { binder_depth norm < 2 ^ 32 - 1 }
    ensures norm { IfOk result (λ made. made.norm ≡ quantified (kind_of way.conjunction way.positive) sort norm) }
    ensures part { IfOk result (λ made. (n : ℕ) → binder_depth norm ≤ binder_depth body.now
        → Between way.forth n part (signed_of way.positive body.now) norm
        → Between way.forth (n + 1) made.part (signed_of way.positive (quantifier_of way.conjunction sort body.now))
        (quantified (kind_of way.conjunction way.positive) sort norm)) }
{
    let linked = bound(alloc, way, sort, body, norm.get(), part)?;
    if has_variable(norm.get(), 0) {
        let norm = quantifier(alloc, way.kind(), sort, norm.get())?;
        return Ok(Normed { norm, part: linked });
    }
    let freed = Boxed::new(alloc, instantiate(alloc, norm.get(), &Term::Var(0))?)?;
    let last = dropped(alloc, way.kind(), way.forth, sort, norm.get(), freed.get())?;
    let first = signed(
        alloc,
        way.positive,
        quantifier(alloc, way.conjunction, sort, body)?,
    )?;
    let part = then(
        alloc,
        way.forth,
        first,
        copy(alloc, freed.get())?,
        linked,
        last,
    )?;
    Ok(Normed { norm: freed, part })
}
