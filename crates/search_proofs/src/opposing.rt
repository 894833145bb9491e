//! Falsehood by a clause whose literals have no variables, and their opposites.
ghost use Rattle.std.specs.Prelude.{◌≡◌, ◌<◌, Some, length, slice_get, get_or, IfOk};
ghost use Rattle.std.specs.List.{All as Each, AllZip};
ghost use Rattle.saturation.specs.declared.member.Member.{Member as Listed};
ghost use Rattle.search_proofs.specs.code.Clashes.{AreArms, IsArm, clash_tree};
ghost use Rattle.search_proofs.specs.code.Contradictions.{Contradicts, IsByContradiction, IsOpposite};

use crate::bodies::{body_by, without_variables};
use crate::contradicting::Contradiction;
use clause_form::{Clause, Lit};
use derive_kit::{Part, cases, hyp, not_e};
use fof_terms::Form;
use kernel::Proof;
use saturation::Member;
use std::alloc::Global;
use tptp_base::{List, Memory};

/// Falsehood, by the members that the contradiction names, each at its number: one of the clause's literals is true,
/// and contradicts its opposite.
pub(crate) fn by_contradiction(
    alloc: Global,
    members: &[Member],
    numbers: &[u64],
    found: &Contradiction,
) -> Result<Part, Memory>
    requires contradicts { Contradicts members.now found.now }
    requires size { length numbers.now ≡ length members.now }
    ensures { IfOk result (IsByContradiction members.now numbers.now found.now) }
{
    let clause = clause_at(members, found.clause);
    let lits = clause.lits.as_slice();
    let places = found.opposites.as_slice();
    let arms = clashes(alloc, members, numbers, lits, places)?;
    let choice = body_by(alloc, number_at(numbers, found.clause), clause)?;
    let falsehood = cases(alloc, choice, arms, Form::Or(List::new(alloc)))?;
    without_variables(alloc, clause.sorts.as_slice(), falsehood)
}

// The clause of the member.
fn clause_at(members: &[Member], at: usize) -> &Clause
    requires { at < length members.now }
    ensures { (m : Listed) → slice_get members.now at ≡ Some m → result.now ≡ m.clause }
{
    &members[at].clause
}

// The number of the member.
fn number_at(numbers: &[u64], at: usize) -> u64
    requires { at < length numbers.now }
    ensures { result ≡ get_or numbers.now at 0 }
{
    numbers[at]
}

// Falsehood for each of the literals as hypothesis 0, by its opposite, which is the member at the literal's place.
fn clashes(
    alloc: Global,
    members: &[Member],
    numbers: &[u64],
    lits: &[Lit],
    places: &[usize],
) -> Result<List<Proof>, Memory>
    requires opposed { AllZip (IsOpposite members.now) lits.now places.now }
    requires many { length places.now ≡ length lits.now }
    requires within { Each (λ i. i < length numbers.now) places.now }
    requires size { length numbers.now ≡ length members.now }
    ensures { IfOk result (AreArms members.now numbers.now places.now lits.now) }
{
    let mut arms = List::new(alloc);
    for k in 0..lits.len() {
        let place = places[k];
        let opposite = clause_at(members, place);
        let arm = clash(alloc, &lits[k], number_at(numbers, place), opposite)?;
        arms.push(arm.into_inner())?;
    }
    Ok(arms)
}

// Falsehood, by the literal as hypothesis 0 and its opposite, which the clause of this number is alone.
fn clash(alloc: Global, lit: &Lit, number: u64, opposite: &Clause) -> Result<Part, Memory>
    ensures { IfOk result (IsArm number opposite.now lit.now) }
{
    let body = body_by(alloc, number, opposite)?;
    let falsehood = denied(alloc, lit.positive, body)?;
    without_variables(alloc, opposite.sorts.as_slice(), falsehood)
}

// Falsehood, by the literal of this sign as hypothesis 0 and a part that shows its opposite.
fn denied(alloc: Global, positive: bool, opposite: Part) -> Result<Part, Memory>
    ensures { IfOk result (λ part. part ≡ clash_tree positive opposite) }
{
    let own = hyp(alloc, 0)?;
    if positive {
        return not_e(alloc, opposite, own);
    }
    not_e(alloc, own, opposite)
}
