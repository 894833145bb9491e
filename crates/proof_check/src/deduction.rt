// What a proof concludes.
ghost use Rattle.std.specs.Prelude.{ℕ, ◌≡◌, ◌↔◌, Ok, Option, Some, IsTrue, IfOk, reverse};
ghost use Rattle.fof_terms.specs.declared.form.Form.{Form as Formula};
ghost use Rattle.proof_check.specs.Concludes.{Concludes, IsContext};
ghost use Rattle.proof_check.specs.code.Reaching.{Reaches, Shows, ShowsUnder, ShowsOver, ShowsOverUnder, ShowsEach};

use crate::context::{Context, Hypotheses, Reach, hypothesis};
use crate::finding::Shown;
use crate::nodes::{
    and_e, and_i, iff_i, iff_l, iff_r, imp_e, imp_i, not_e, not_i, or_e, or_i, raa,
};
use crate::quantifier_nodes::{all_e, all_i, ex_e, ex_i, inhabit, subst};
use crate::quantifiers::{has_room, reflexive};
use crate::rules::line;
use crate::theory::Theory;
use crate::views::is_shown;
use fof_terms::{Form, MAX_VARIABLES, Scope, SortId, well_sorted_in};
use kernel::Proof;
use std::alloc::Global;
use tptp_base::Memory;

/// The formula that the rules give; None exactly where they give none. The context is well-sorted.
pub fn conclude(
    alloc: Global,
    theory: &Theory,
    context: &Context,
    proof: &Proof,
) -> Result<Option<Form>, Memory>
    requires { IsContext theory.now.vocabulary (reverse context.now.sorts) (reverse context.now.hyps) }
    ensures { IfOk result (λ answer.
        Concludes theory.now (reverse context.now.sorts) (reverse context.now.hyps) proof.now answer) }
{
    let sorts = context.sorts.as_slice();
    let room = (MAX_VARIABLES - sorts.len()) as u32;
    let scope = Scope::Outside(sorts);
    let hyps = Hypotheses::Outside(context.hyps.as_slice());
    let reach = Reach {
        theory,
        scope: &scope,
        hyps: &hyps,
        room,
    };
    match conclude_in(alloc, &reach, proof)? {
        Some(finding) => Ok(Some(finding.into_boxed(alloc)?.into_inner())),
        None => Ok(None),
    }
}

// The same within a proof.
#[inline(never)]
#[cycle(conclude_in)]
pub fn conclude_in<'f>(
    alloc: Global,
    reach: &Reach<'f, '_>,
    proof: &'f Proof,
) -> Result<Shown<'f>, Memory>
    requires { Reaches reach.now }
    ensures { IfOk result (λ answer. Shows reach.now proof.now answer) }
{
    match proof {
        Proof::Line(number) => line(reach.theory, *number),
        Proof::Hyp(number) => hypothesis(alloc, reach.hyps, *number),
        Proof::AndI(parts) => and_i(alloc, reach, parts.as_slice()),
        Proof::AndE(member, part) => and_e(alloc, reach, *member, part.get()),
        Proof::OrI(members, chosen, part) => {
            or_i(alloc, reach, part.get(), members.as_slice(), *chosen)
        }
        Proof::OrE(_, _, _) => or_e(alloc, reach, proof),
        Proof::ImpI(left, part) => imp_i(alloc, reach, part.get(), left.get()),
        Proof::ImpE(_, _) => imp_e(alloc, reach, proof),
        Proof::NotI(body, part) => not_i(alloc, reach, part.get(), body.get()),
        Proof::NotE(_, _) => not_e(alloc, reach, proof),
        Proof::Raa(goal, part) => raa(alloc, reach, part.get(), goal.get()),
        Proof::IffI(_, _, _, _) => iff_i(alloc, reach, proof),
        Proof::IffL(_, _) => iff_l(alloc, reach, proof),
        Proof::IffR(_, _) => iff_r(alloc, reach, proof),
        Proof::AllI(sort, part) => all_i(alloc, reach, *sort, part.get()),
        Proof::AllE(term, part) => all_e(alloc, reach, part.get(), term.get()),
        Proof::ExI(sort, body, term, part) => {
            ex_i(alloc, reach, part.get(), *sort, body.get(), term.get())
        }
        Proof::ExE(_, _, _) => ex_e(alloc, reach, proof),
        Proof::Refl(term) => reflexive(alloc, reach.theory, reach.scope, term.get()),
        Proof::Subst(_, _, _, _) => subst(alloc, reach, proof),
        Proof::Inhabit(sort, goal, part) => inhabit(alloc, reach, part.get(), *sort, goal.get()),
    }
}

// What the part concludes under the hypothesis, if that is well-sorted.
#[inline(always)]
#[cycle(conclude_in)]
pub fn under<'f>(
    alloc: Global,
    reach: &Reach<'f, '_>,
    part: &'f Proof,
    assumed: &'f Form,
) -> Result<Shown<'f>, Memory>
    requires { Reaches reach.now }
    ensures { IfOk result (λ answer. ShowsUnder reach.now assumed.now part.now answer) }
{
    if !well_sorted_in(assumed, reach.theory.signature(), reach.scope) {
        return Ok(None);
    }
    let hyps = Hypotheses::Under(assumed, &*reach.hyps);
    let inner = Reach {
        theory: reach.theory,
        scope: &*reach.scope,
        hyps: &hyps,
        room: reach.room,
    };
    conclude_in(alloc, &inner, part)
}

// What the part concludes over one variable more.
#[inline(always)]
#[cycle(conclude_in)]
pub fn over<'f>(
    alloc: Global,
    reach: &Reach<'f, '_>,
    part: &'f Proof,
    sort: SortId,
) -> Result<Shown<'f>, Memory>
    requires { Reaches reach.now }
    ensures { IfOk result (λ answer. ShowsOver reach.now sort part.now answer) }
{
    if !has_room(reach.theory, reach.room, sort) {
        return Ok(None);
    }
    let scope = Scope::Under(sort, &*reach.scope);
    let hyps = Hypotheses::Over(&*reach.hyps);
    let inner = Reach {
        theory: reach.theory,
        scope: &scope,
        hyps: &hyps,
        room: reach.room - 1,
    };
    conclude_in(alloc, &inner, part)
}

// What the part concludes over one variable more, under the hypothesis, if that is well-sorted.
#[inline(always)]
#[cycle(conclude_in)]
pub fn over_under<'f>(
    alloc: Global,
    reach: &Reach<'f, '_>,
    part: &'f Proof,
    sort: SortId,
    assumed: &'f Form,
) -> Result<Shown<'f>, Memory>
    requires { Reaches reach.now }
    ensures { IfOk result (λ answer. ShowsOverUnder reach.now sort assumed.now part.now answer) }
{
    if !has_room(reach.theory, reach.room, sort) {
        return Ok(None);
    }
    let scope = Scope::Under(sort, &*reach.scope);
    let hyps = Hypotheses::Over(&*reach.hyps);
    let inner = Reach {
        theory: reach.theory,
        scope: &scope,
        hyps: &hyps,
        room: reach.room - 1,
    };
    under(alloc, &inner, part, assumed)
}

// Whether each proof concludes the goal under the member at its place.
#[cycle(conclude_in)]
pub fn all_conclude<'f>(
    alloc: Global,
    reach: &Reach<'f, '_>,
    cases: &'f [Proof],
    members: &'f [Form],
    goal: &Form,
) -> Result<bool, Memory>
    requires { Reaches reach.now }
    ensures { IfOk result (λ all. ShowsEach reach.now goal.now cases.now members.now all) }
{
    if cases.len() != members.len() {
        return Ok(false);
    }
    for i in 0..cases.len() {
        if !is_concluded(under(alloc, reach, &cases[i], &members[i]), goal)? {
            return Ok(false);
        }
    }
    Ok(true)
}

// Whether the answer is the goal.
#[inline(never)]
fn is_concluded(answer: Result<Shown<'_>, Memory>, goal: &Form) -> Result<bool, Memory>
    ensures { IfOk result (λ is. (shown : Option Formula) × (answer.entry ≡ Ok shown)
        × (IsTrue is ↔ (shown ≡ Some goal.now))) }
{
    Ok(is_shown(&answer?, goal))
}
