// The nodes of proofs. Each has a function of its own, so that a level of a proof takes little stack.
ghost use Rattle.std.specs.Prelude.{ℕ, List as Listed, ◌≡◌, ◌+◌, IfOk};
ghost use Rattle.fof_terms.specs.declared.form.Form.{Form as Formula};
ghost use Rattle.kernel.specs.declared.proof.Proof.{Proof as Deduction, Line, Hyp, AndI, AndE, OrI, OrE, ImpI, ImpE};
ghost use Rattle.kernel.specs.declared.proof.Proof.{NotI, NotE, Raa, IffI, IffL, IffR, AllI, AllE, ExI, ExE, Refl};
ghost use Rattle.kernel.specs.declared.proof.Proof.{Subst, Inhabit};
ghost use Rattle.negated_lemmas.specs.code.Carried.{Carries};

use crate::carrying::{carried, carried_each, carried_under, deeper};
use derive_kit::{Part, hyp};
use fof_terms::{Form, SortId, Term, copy_all};
use kernel::Proof;
use std::alloc::Global;
use tptp_base::{Boxed, Memory};

// The formula in memory of its own.
#[inline(never)]
fn form(alloc: Global, form: &Form) -> Result<Boxed<Form>, Memory>
    ensures { IfOk result (λ copy. copy ≡ form.now) }
{
    Ok(Boxed::new(alloc, form.copy(alloc)?)?)
}

// The term in memory of its own.
#[inline(never)]
fn term(alloc: Global, term: &Term) -> Result<Boxed<Term>, Memory>
    ensures { IfOk result (λ copy. copy ≡ term.now) }
{
    Ok(Boxed::new(alloc, term.copy(alloc)?)?)
}

// A formula of the theory.
fn formula(alloc: Global, number: u64) -> Result<Part, Memory>
    ensures { IfOk result (λ made. made ≡ Line number) }
{
    Ok(Boxed::new(alloc, Proof::Line(number))?)
}

/// A formula of the theory, by the hypothesis if that stands before it.
#[inline(never)]
pub fn line(alloc: Global, number: u64, first: u64, depth: u32) -> Result<Part, Memory>
    ensures { IfOk result (λ made. Carries first depth (Line number) made) }
{
    let whole = formula(alloc, number)?;
    if number < first {
        Ok(whole)
    } else {
        let own = hyp(alloc, depth)?;
        derive_kit::imp_e(alloc, whole, own)
    }
}

/// A hypothesis, which keeps its number.
#[inline(never)]
pub fn hypothesis(alloc: Global, number: u32) -> Result<Part, Memory>
    ensures { IfOk result (λ made. (first depth : ℕ) → Carries first depth (Hyp number) made) }
{
    hyp(alloc, number)
}

/// That the term is itself.
#[inline(never)]
pub fn reflexive(alloc: Global, side: &Term) -> Result<Part, Memory>
    ensures { IfOk result (λ made. (first depth : ℕ) → Carries first depth (Refl side.now) made) }
{
    let side = term(alloc, side)?;
    Ok(Boxed::new(alloc, Proof::Refl(side))?)
}

/// The conjunction.
#[inline(never)]
#[cycle(carried)]
pub fn and_i(alloc: Global, parts: &[Proof], first: u64, depth: u32) -> Result<Part, Memory>
    ensures { IfOk result (λ made. Carries first depth (AndI parts.now) made) }
{
    let parts = carried_each(alloc, parts, first, depth)?;
    Ok(Boxed::new(alloc, Proof::AndI(parts))?)
}

/// A member of a conjunction.
#[inline(never)]
#[cycle(carried)]
pub fn and_e(
    alloc: Global,
    part: &Proof,
    member: u32,
    first: u64,
    depth: u32,
) -> Result<Part, Memory>
    ensures { IfOk result (λ made. Carries first depth (AndE member part.now) made) }
{
    let part = carried(alloc, part, first, depth)?;
    Ok(Boxed::new(alloc, Proof::AndE(member, part))?)
}

/// The disjunction.
#[inline(never)]
#[cycle(carried)]
pub fn or_i(
    alloc: Global,
    part: &Proof,
    members: &[Form],
    chosen: u32,
    first: u64,
    depth: u32,
) -> Result<Part, Memory>
    ensures { IfOk result (λ made. Carries first depth (OrI members.now chosen part.now) made) }
{
    let part = carried(alloc, part, first, depth)?;
    let members = copy_all(alloc, members)?;
    Ok(Boxed::new(alloc, Proof::OrI(members, chosen, part))?)
}

/// The goal, by a disjunction.
#[inline(never)]
#[cycle(carried)]
pub fn or_e(alloc: Global, proof: &Proof, first: u64, depth: u32) -> Result<Part, Memory>
    requires { (a : Formula) × (p : Deduction) × (ps : Listed Deduction) × (proof.now ≡ OrE a p ps) }
    ensures { IfOk result (λ made. Carries first depth proof.now made) }
{
    let Proof::OrE(goal, part, arms) = proof else {
        unreachable!()
    };
    let part = carried(alloc, part.get(), first, depth)?;
    let inner = deeper(depth)?;
    let arms = carried_each(alloc, arms.as_slice(), first, inner)?;
    let goal = form(alloc, goal.get())?;
    Ok(Boxed::new(alloc, Proof::OrE(goal, part, arms))?)
}

/// The implication.
#[inline(never)]
#[cycle(carried)]
pub fn imp_i(
    alloc: Global,
    part: &Proof,
    left: &Form,
    first: u64,
    depth: u32,
) -> Result<Part, Memory>
    ensures { IfOk result (λ made. Carries first depth (ImpI left.now part.now) made) }
{
    let part = carried_under(alloc, part, first, depth)?;
    let left = form(alloc, left)?;
    Ok(Boxed::new(alloc, Proof::ImpI(left, part))?)
}

/// The right side of an implication.
#[inline(never)]
#[cycle(carried)]
pub fn imp_e(alloc: Global, proof: &Proof, first: u64, depth: u32) -> Result<Part, Memory>
    requires { (p q : Deduction) × (proof.now ≡ ImpE p q) }
    ensures { IfOk result (λ made. Carries first depth proof.now made) }
{
    let Proof::ImpE(whole, part) = proof else {
        unreachable!()
    };
    let whole = carried(alloc, whole.get(), first, depth)?;
    let part = carried(alloc, part.get(), first, depth)?;
    Ok(Boxed::new(alloc, Proof::ImpE(whole, part))?)
}

/// The negation.
#[inline(never)]
#[cycle(carried)]
pub fn not_i(
    alloc: Global,
    part: &Proof,
    body: &Form,
    first: u64,
    depth: u32,
) -> Result<Part, Memory>
    ensures { IfOk result (λ made. Carries first depth (NotI body.now part.now) made) }
{
    let part = carried_under(alloc, part, first, depth)?;
    let body = form(alloc, body)?;
    Ok(Boxed::new(alloc, Proof::NotI(body, part))?)
}

/// Falsehood.
#[inline(never)]
#[cycle(carried)]
pub fn not_e(alloc: Global, proof: &Proof, first: u64, depth: u32) -> Result<Part, Memory>
    requires { (p q : Deduction) × (proof.now ≡ NotE p q) }
    ensures { IfOk result (λ made. Carries first depth proof.now made) }
{
    let Proof::NotE(denial, part) = proof else {
        unreachable!()
    };
    let denial = carried(alloc, denial.get(), first, depth)?;
    let part = carried(alloc, part.get(), first, depth)?;
    Ok(Boxed::new(alloc, Proof::NotE(denial, part))?)
}

/// The goal, by falsehood under its negation.
#[inline(never)]
#[cycle(carried)]
pub fn raa(alloc: Global, part: &Proof, goal: &Form, first: u64, depth: u32) -> Result<Part, Memory>
    ensures { IfOk result (λ made. Carries first depth (Raa goal.now part.now) made) }
{
    let part = carried_under(alloc, part, first, depth)?;
    let goal = form(alloc, goal)?;
    Ok(Boxed::new(alloc, Proof::Raa(goal, part))?)
}

/// The equivalence.
#[inline(never)]
#[cycle(carried)]
pub fn iff_i(alloc: Global, proof: &Proof, first: u64, depth: u32) -> Result<Part, Memory>
    requires { (a b : Formula) × (p q : Deduction) × (proof.now ≡ IffI a b p q) }
    ensures { IfOk result (λ made. Carries first depth proof.now made) }
{
    let Proof::IffI(left, right, forth, back) = proof else {
        unreachable!()
    };
    let forth = carried_under(alloc, forth.get(), first, depth)?;
    let back = carried_under(alloc, back.get(), first, depth)?;
    let left = form(alloc, left.get())?;
    let right = form(alloc, right.get())?;
    Ok(Boxed::new(alloc, Proof::IffI(left, right, forth, back))?)
}

/// The right side of an equivalence.
#[inline(never)]
#[cycle(carried)]
pub fn iff_l(alloc: Global, proof: &Proof, first: u64, depth: u32) -> Result<Part, Memory>
    requires { (p q : Deduction) × (proof.now ≡ IffL p q) }
    ensures { IfOk result (λ made. Carries first depth proof.now made) }
{
    let Proof::IffL(whole, part) = proof else {
        unreachable!()
    };
    let whole = carried(alloc, whole.get(), first, depth)?;
    let part = carried(alloc, part.get(), first, depth)?;
    Ok(Boxed::new(alloc, Proof::IffL(whole, part))?)
}

/// The left side of an equivalence.
#[inline(never)]
#[cycle(carried)]
pub fn iff_r(alloc: Global, proof: &Proof, first: u64, depth: u32) -> Result<Part, Memory>
    requires { (p q : Deduction) × (proof.now ≡ IffR p q) }
    ensures { IfOk result (λ made. Carries first depth proof.now made) }
{
    let Proof::IffR(whole, part) = proof else {
        unreachable!()
    };
    let whole = carried(alloc, whole.get(), first, depth)?;
    let part = carried(alloc, part.get(), first, depth)?;
    Ok(Boxed::new(alloc, Proof::IffR(whole, part))?)
}

/// What holds for all.
#[inline(never)]
#[cycle(carried)]
pub fn all_i(
    alloc: Global,
    part: &Proof,
    sort: SortId,
    first: u64,
    depth: u32,
) -> Result<Part, Memory>
    ensures { IfOk result (λ made. Carries first depth (AllI sort part.now) made) }
{
    let part = carried(alloc, part, first, depth)?;
    Ok(Boxed::new(alloc, Proof::AllI(sort, part))?)
}

/// The instance of what holds for all.
#[inline(never)]
#[cycle(carried)]
pub fn all_e(
    alloc: Global,
    part: &Proof,
    value: &Term,
    first: u64,
    depth: u32,
) -> Result<Part, Memory>
    ensures { IfOk result (λ made. Carries first depth (AllE value.now part.now) made) }
{
    let part = carried(alloc, part, first, depth)?;
    let value = term(alloc, value)?;
    Ok(Boxed::new(alloc, Proof::AllE(value, part))?)
}

/// That there is one.
#[inline(never)]
#[cycle(carried)]
pub fn ex_i(
    alloc: Global,
    part: &Proof,
    sort: SortId,
    body: &Form,
    value: &Term,
    first: u64,
    depth: u32,
) -> Result<Part, Memory>
    ensures { IfOk result (λ made. Carries first depth (ExI sort body.now value.now part.now) made) }
{
    let part = carried(alloc, part, first, depth)?;
    let body = form(alloc, body)?;
    let value = term(alloc, value)?;
    Ok(Boxed::new(alloc, Proof::ExI(sort, body, value, part))?)
}

/// The goal, by one that there is.
#[inline(never)]
#[cycle(carried)]
pub fn ex_e(alloc: Global, proof: &Proof, first: u64, depth: u32) -> Result<Part, Memory>
    requires { (a : Formula) × (p q : Deduction) × (proof.now ≡ ExE a p q) }
    ensures { IfOk result (λ made. Carries first depth proof.now made) }
{
    let Proof::ExE(goal, part, rest) = proof else {
        unreachable!()
    };
    let part = carried(alloc, part.get(), first, depth)?;
    let rest = carried_under(alloc, rest.get(), first, depth)?;
    let goal = form(alloc, goal.get())?;
    Ok(Boxed::new(alloc, Proof::ExE(goal, part, rest))?)
}

/// The formula with the right side of an equation filled in.
#[inline(never)]
#[cycle(carried)]
pub fn subst(alloc: Global, proof: &Proof, first: u64, depth: u32) -> Result<Part, Memory>
    requires { (a : Formula) × (s : ℕ) × (p q : Deduction) × (proof.now ≡ Subst s a p q) }
    ensures { IfOk result (λ made. Carries first depth proof.now made) }
{
    let Proof::Subst(sort, body, equation, part) = proof else {
        unreachable!()
    };
    let equation = carried(alloc, equation.get(), first, depth)?;
    let part = carried(alloc, part.get(), first, depth)?;
    let body = form(alloc, body.get())?;
    Ok(Boxed::new(alloc, Proof::Subst(*sort, body, equation, part))?)
}

/// The goal, shown over a variable that it doesn't speak of.
#[inline(never)]
#[cycle(carried)]
pub fn inhabit(
    alloc: Global,
    part: &Proof,
    sort: SortId,
    goal: &Form,
    first: u64,
    depth: u32,
) -> Result<Part, Memory>
    ensures { IfOk result (λ made. Carries first depth (Inhabit sort goal.now part.now) made) }
{
    let part = carried(alloc, part, first, depth)?;
    let goal = form(alloc, goal)?;
    Ok(Boxed::new(alloc, Proof::Inhabit(sort, goal, part))?)
}
