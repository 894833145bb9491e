// The nodes of the quantifiers, of equations and of sorts that have a member. Each has a function of its own, so that a
// level of a proof takes little stack.
ghost use Rattle.std.specs.Prelude.{ℕ, ◌≡◌, IfOk, IfSome};
ghost use Rattle.std.specs.Option.{option_map};
ghost use Rattle.fof_terms.specs.declared.form.Form.{Form as Formula};
ghost use Rattle.kernel.specs.declared.proof.Proof.{Proof as Deduction, AllI, AllE, ExI, ExE, Subst, Inhabit};
ghost use Rattle.proof_check.specs.code.Chains.{joined_form, IsJoinable};
ghost use Rattle.proof_check.specs.code.Reaching.{Reaches, Shows};

use crate::chain::{Apart, joined, with_term, without_terms};
use crate::context::Reach;
use crate::deduction::{conclude_in, over, over_under};
use crate::finding::Shown;
use crate::quantifiers::{generalized, same_over, specialized, substituted, witnessed};
use crate::views::existential;
use fof_terms::{Form, SortId, Term};
use kernel::Proof;
use std::alloc::Global;
use tptp_base::Memory;

/// What holds for all.
#[inline(never)]
#[cycle(conclude_in)]
pub fn all_i<'f>(
    alloc: Global,
    reach: &Reach<'f, '_>,
    sort: SortId,
    part: &'f Proof,
) -> Result<Shown<'f>, Memory>
    requires { Reaches reach.now }
    ensures { IfOk result (λ answer. Shows reach.now (AllI sort part.now) answer) }
{
    let shown = over(alloc, reach, part, sort)?;
    generalized(alloc, sort, shown)
}

/// The instance of what holds for all. A chain of instances is put into one copy.
#[inline(never)]
#[cycle(conclude_in)]
pub fn all_e<'f>(
    alloc: Global,
    reach: &Reach<'f, '_>,
    part: &'f Proof,
    term: &Term,
) -> Result<Shown<'f>, Memory>
    requires { Reaches reach.now }
    ensures { IfOk result (λ answer. Shows reach.now (AllE term.now part.now) answer) }
{
    match part {
        Proof::AllE(_, _) => chained(alloc, reach, part, term),
        _ => {
            let shown = conclude_in(alloc, reach, part)?;
            specialized(alloc, reach.theory, reach.scope, term, &shown)
        }
    }
}

// The same where the part is such an instance too.
#[inline(never)]
#[cycle(conclude_in)]
fn chained<'f>(
    alloc: Global,
    reach: &Reach<'f, '_>,
    part: &'f Proof,
    term: &Term,
) -> Result<Shown<'f>, Memory>
    requires { Reaches reach.now }
    ensures { IfOk result (λ answer. Shows reach.now (AllE term.now part.now) answer) }
{
    let found = chain_of(alloc, reach, part)?;
    joined(
        alloc,
        with_term(alloc, reach.theory, reach.scope, term, found)?,
    )
}

// What a chain of instances concludes, the terms still apart.
#[inline(never)]
#[cycle(conclude_in)]
fn chain_of<'f>(
    alloc: Global,
    reach: &Reach<'f, '_>,
    proof: &'f Proof,
) -> Result<Option<Apart<'f>>, Memory>
    requires { Reaches reach.now }
    ensures shown { IfOk result (λ answer. Shows reach.now proof.now (option_map joined_form answer)) }
    ensures joinable { IfOk result (λ answer. IfSome answer IsJoinable) }
{
    match proof {
        Proof::AllE(term, part) => {
            let found = chain_of(alloc, reach, part.get())?;
            with_term(alloc, reach.theory, reach.scope, term.get(), found)
        }
        _ => {
            let shown = conclude_in(alloc, reach, proof)?;
            Ok(without_terms(alloc, shown))
        }
    }
}

/// That there is one.
#[inline(never)]
#[cycle(conclude_in)]
pub fn ex_i<'f>(
    alloc: Global,
    reach: &Reach<'f, '_>,
    part: &'f Proof,
    sort: SortId,
    body: &Form,
    term: &Term,
) -> Result<Shown<'f>, Memory>
    requires { Reaches reach.now }
    ensures { IfOk result (λ answer. Shows reach.now (ExI sort body.now term.now part.now) answer) }
{
    let shown = conclude_in(alloc, reach, part)?;
    witnessed(
        alloc,
        reach.theory,
        reach.scope,
        reach.room,
        sort,
        body,
        term,
        &shown,
    )
}

/// The goal, if the rest concludes it for any one for which what was shown holds.
#[inline(never)]
#[cycle(conclude_in)]
pub fn ex_e<'f>(alloc: Global, reach: &Reach<'f, '_>, proof: &'f Proof) -> Result<Shown<'f>, Memory>
    requires { Reaches reach.now × ((a : Formula) × (p q : Deduction) × (proof.now ≡ ExE a p q)) }
    ensures { IfOk result (λ answer. Shows reach.now (proof.now) answer) }
{
    let Proof::ExE(goal, part, rest) = proof else {
        unreachable!()
    };
    let shown = conclude_in(alloc, reach, part.get())?;
    match existential(&shown) {
        None => Ok(None),
        Some((sort, body)) => {
            let found = over_under(alloc, &*reach, rest.get(), sort, body)?;
            same_over(alloc, reach.theory, reach.scope, goal.get(), &found)
        }
    }
}

/// The formula with the right side of the equation filled in.
#[inline(never)]
#[cycle(conclude_in)]
pub fn subst<'f>(
    alloc: Global,
    reach: &Reach<'f, '_>,
    proof: &'f Proof,
) -> Result<Shown<'f>, Memory>
    requires { Reaches reach.now × ((s : ℕ) × (a : Formula) × (p q : Deduction) × (proof.now ≡ Subst s a p q)) }
    ensures { IfOk result (λ answer. Shows reach.now (proof.now) answer) }
{
    let Proof::Subst(sort, body, equality, part) = proof else {
        unreachable!()
    };
    let sides = conclude_in(alloc, reach, equality.get())?;
    let shown = conclude_in(alloc, reach, part.get())?;
    substituted(
        alloc,
        reach.theory,
        reach.scope,
        reach.room,
        *sort,
        body.get(),
        &sides,
        &shown,
    )
}

/// The goal, if it was shown over a variable that it doesn't speak of.
#[inline(never)]
#[cycle(conclude_in)]
pub fn inhabit<'f>(
    alloc: Global,
    reach: &Reach<'f, '_>,
    part: &'f Proof,
    sort: SortId,
    goal: &'f Form,
) -> Result<Shown<'f>, Memory>
    requires { Reaches reach.now }
    ensures { IfOk result (λ answer. Shows reach.now (Inhabit sort goal.now part.now) answer) }
{
    let shown = over(alloc, reach, part, sort)?;
    same_over(alloc, reach.theory, reach.scope, goal, &shown)
}
