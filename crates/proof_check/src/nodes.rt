// The nodes of the connectives. Each has a function of its own, so that a level of a proof takes little stack.
ghost use Rattle.std.specs.Prelude.{◌≡◌, List, IfOk};
ghost use Rattle.fof_terms.specs.declared.form.Form.{Form as Formula};
ghost use Rattle.kernel.specs.declared.proof.Proof.{Proof as Deduction, AndI, AndE, OrI, OrE, ImpI, ImpE, NotI, NotE};
ghost use Rattle.kernel.specs.declared.proof.Proof.{Raa, IffI, IffL, IffR};
ghost use Rattle.proof_check.specs.code.Reaching.{Reaches, Shows};

use crate::context::Reach;
use crate::deduction::{all_conclude, conclude_in, under};
use crate::finding::Shown;
use crate::rules::{
    add, conjoined, conjunct, consequent, denial, equivalent, implied, kept, left_side, negated,
    opposed, or_introduced, right_side,
};
use crate::views::{disjunction, is_falsehood};
use fof_terms::Form;
use kernel::Proof;
use std::alloc::Global;
use tptp_base::{List, Memory};

/// The conjunction of what the parts conclude.
#[inline(never)]
#[cycle(conclude_in)]
pub fn and_i<'f>(
    alloc: Global,
    reach: &Reach<'f, '_>,
    parts: &'f [Proof],
) -> Result<Shown<'f>, Memory>
    requires { Reaches reach.now }
    ensures { IfOk result (λ answer. Shows reach.now (AndI parts.now) answer) }
{
    let mut forms = List::new(alloc);
    for part in parts {
        if !add(alloc, &mut forms, conclude_in(alloc, reach, part))? {
            return Ok(None);
        }
    }
    conjoined(alloc, forms)
}

/// A member of the conjunction.
#[inline(never)]
#[cycle(conclude_in)]
pub fn and_e<'f>(
    alloc: Global,
    reach: &Reach<'f, '_>,
    member: u32,
    part: &'f Proof,
) -> Result<Shown<'f>, Memory>
    requires { Reaches reach.now }
    ensures { IfOk result (λ answer. Shows reach.now (AndE member part.now) answer) }
{
    let shown = conclude_in(alloc, reach, part)?;
    conjunct(alloc, &shown, member)
}

/// The disjunction, by its chosen member.
#[inline(never)]
#[cycle(conclude_in)]
pub fn or_i<'f>(
    alloc: Global,
    reach: &Reach<'f, '_>,
    part: &'f Proof,
    members: &[Form],
    chosen: u32,
) -> Result<Shown<'f>, Memory>
    requires { Reaches reach.now }
    ensures { IfOk result (λ answer. Shows reach.now (OrI members.now chosen part.now) answer) }
{
    let shown = conclude_in(alloc, reach, part)?;
    or_introduced(alloc, reach.theory, reach.scope, members, chosen, &shown)
}

/// The goal, if each case concludes it under its member of the disjunction.
#[inline(never)]
#[cycle(conclude_in)]
pub fn or_e<'f>(alloc: Global, reach: &Reach<'f, '_>, proof: &'f Proof) -> Result<Shown<'f>, Memory>
    requires { Reaches reach.now × ((a : Formula) × (p : Deduction) × (ps : List Deduction) × (proof.now ≡ OrE a p ps)) }
    ensures { IfOk result (λ answer. Shows reach.now (proof.now) answer) }
{
    let Proof::OrE(goal, part, cases) = proof else {
        unreachable!()
    };
    let shown = conclude_in(alloc, reach, part.get())?;
    match disjunction(&shown) {
        None => Ok(None),
        Some(members) => {
            let all = all_conclude(alloc, &*reach, cases.as_slice(), members, goal.get())?;
            kept(reach.theory, reach.scope, goal.get(), all)
        }
    }
}

/// The implication.
#[inline(never)]
#[cycle(conclude_in)]
pub fn imp_i<'f>(
    alloc: Global,
    reach: &Reach<'f, '_>,
    part: &'f Proof,
    left: &'f Form,
) -> Result<Shown<'f>, Memory>
    requires { Reaches reach.now }
    ensures { IfOk result (λ answer. Shows reach.now (ImpI left.now part.now) answer) }
{
    let shown = under(alloc, reach, part, left)?;
    implied(alloc, left, shown)
}

/// The right side of the implication.
#[inline(never)]
#[cycle(conclude_in)]
pub fn imp_e<'f>(
    alloc: Global,
    reach: &Reach<'f, '_>,
    proof: &'f Proof,
) -> Result<Shown<'f>, Memory>
    requires { Reaches reach.now × ((p q : Deduction) × (proof.now ≡ ImpE p q)) }
    ensures { IfOk result (λ answer. Shows reach.now (proof.now) answer) }
{
    let Proof::ImpE(whole, part) = proof else {
        unreachable!()
    };
    let whole = conclude_in(alloc, reach, whole.get())?;
    let shown = conclude_in(alloc, reach, part.get())?;
    Ok(consequent(whole, &shown))
}

/// The negation.
#[inline(never)]
#[cycle(conclude_in)]
pub fn not_i<'f>(
    alloc: Global,
    reach: &Reach<'f, '_>,
    part: &'f Proof,
    body: &'f Form,
) -> Result<Shown<'f>, Memory>
    requires { Reaches reach.now }
    ensures { IfOk result (λ answer. Shows reach.now (NotI body.now part.now) answer) }
{
    let shown = under(alloc, reach, part, body)?;
    Ok(negated(body, &shown))
}

/// Falsehood.
#[inline(never)]
#[cycle(conclude_in)]
pub fn not_e<'f>(
    alloc: Global,
    reach: &Reach<'f, '_>,
    proof: &'f Proof,
) -> Result<Shown<'f>, Memory>
    requires { Reaches reach.now × ((p q : Deduction) × (proof.now ≡ NotE p q)) }
    ensures { IfOk result (λ answer. Shows reach.now (proof.now) answer) }
{
    let Proof::NotE(denial, part) = proof else {
        unreachable!()
    };
    let denied = conclude_in(alloc, reach, denial.get())?;
    let shown = conclude_in(alloc, reach, part.get())?;
    opposed(alloc, &denied, &shown)
}

/// The goal, if the part concludes falsehood under its negation.
#[inline(never)]
#[cycle(conclude_in)]
pub fn raa<'f>(
    alloc: Global,
    reach: &Reach<'f, '_>,
    part: &'f Proof,
    goal: &'f Form,
) -> Result<Shown<'f>, Memory>
    requires { Reaches reach.now }
    ensures { IfOk result (λ answer. Shows reach.now (Raa goal.now part.now) answer) }
{
    let denied = denial(alloc, goal)?;
    let shown = under(alloc, &*reach, &*part, denied.get())?;
    kept(reach.theory, reach.scope, goal, is_falsehood(&shown))
}

/// The equivalence.
#[inline(never)]
#[cycle(conclude_in)]
pub fn iff_i<'f>(
    alloc: Global,
    reach: &Reach<'f, '_>,
    proof: &'f Proof,
) -> Result<Shown<'f>, Memory>
    requires { Reaches reach.now × ((a b : Formula) × (p q : Deduction) × (proof.now ≡ IffI a b p q)) }
    ensures { IfOk result (λ answer. Shows reach.now (proof.now) answer) }
{
    let Proof::IffI(left, right, there, back) = proof else {
        unreachable!()
    };
    let forth = under(alloc, reach, there.get(), left.get())?;
    let back = under(alloc, reach, back.get(), right.get())?;
    Ok(equivalent(left.get(), right.get(), &forth, &back))
}

/// The right side of the equivalence.
#[inline(never)]
#[cycle(conclude_in)]
pub fn iff_l<'f>(
    alloc: Global,
    reach: &Reach<'f, '_>,
    proof: &'f Proof,
) -> Result<Shown<'f>, Memory>
    requires { Reaches reach.now × ((p q : Deduction) × (proof.now ≡ IffL p q)) }
    ensures { IfOk result (λ answer. Shows reach.now (proof.now) answer) }
{
    let Proof::IffL(whole, part) = proof else {
        unreachable!()
    };
    let whole = conclude_in(alloc, reach, whole.get())?;
    let shown = conclude_in(alloc, reach, part.get())?;
    Ok(right_side(whole, &shown))
}

/// The left side of the equivalence.
#[inline(never)]
#[cycle(conclude_in)]
pub fn iff_r<'f>(
    alloc: Global,
    reach: &Reach<'f, '_>,
    proof: &'f Proof,
) -> Result<Shown<'f>, Memory>
    requires { Reaches reach.now × ((p q : Deduction) × (proof.now ≡ IffR p q)) }
    ensures { IfOk result (λ answer. Shows reach.now (proof.now) answer) }
{
    let Proof::IffR(whole, part) = proof else {
        unreachable!()
    };
    let whole = conclude_in(alloc, reach, whole.get())?;
    let shown = conclude_in(alloc, reach, part.get())?;
    Ok(left_side(whole, &shown))
}
