//! Falsehood from each literal of what is supposed false.
ghost use Rattle.std.specs.Prelude.{◌≡◌, ◌<◌, ◌≤◌, ◌^◌, ◌++◌, List as ListOf, length, IfOk, OnOk};
ghost use Rattle.fof_terms.specs.Scope.{scope_sorts};
ghost use Rattle.clause_proofs.specs.Refuting.{IsGoal, body};
ghost use Rattle.clause_rules.specs.Settled.{IsFit};
ghost use Rattle.kernel.specs.declared.proof.Proof.{Proof as Deduction};
ghost use Rattle.split_defs.specs.code.SplitProof.{AllArms, AreGoals, EachRefutes, goal_of as moved_goal, variables_in};

use crate::stages::Stage;
use clause_form::Clause;
use clause_proofs::{Opened, contrary};
use clause_rules::kept_apart;
use fof_terms::{Scope, Signature};
use kernel::Proof;
use std::alloc::Global;
use tptp_base::{List, Memory};

/// Falsehood from each literal of all stages, where the negations of their bodies are hypotheses.
pub fn all_arms(
    alloc: Global,
    sig: &Signature,
    scope: &Scope<'_>,
    stages: &[Stage],
    count: u32,
) -> Result<List<Proof>, Memory>
    requires goals { AreGoals sig.now (scope_sorts scope.now) stages.now }
    requires all { count ≡ variables_in stages.now }
    requires few { count ≤ 1000000000 }
    requires short { length stages.now < 2 ^ 32 }
    ensures { IfOk result (AllArms sig.now (scope_sorts scope.now) stages.now) }
{
    let mut arms = List::new(alloc);
    let mut left = count;
    for i in 0..stages.len() {
        let opened = &stages[i].opened;
        left -= opened.clause.sorts.len() as u32;
        let denial = (stages.len() - i) as u32;
        let goal = goal_of(alloc, sig, opened, left)?;
        push_arms(alloc, sig, scope, &goal, denial, &mut arms)?;
    }
    Ok(arms)
}

// The clause among nearer variables, so many.
fn goal_of(alloc: Global, sig: &Signature, opened: &Opened, by: u32) -> Result<Opened, Memory>
    requires fit { IsFit sig.now opened.now.clause }
    requires few { by ≤ 2000000000 }
    ensures { IfOk result (λ goal. goal ≡ moved_goal opened.now by) }
{
    let lits = kept_apart(alloc, sig, &opened.clause, by)?;
    let sorts = List::new(alloc);
    Ok(Opened {
        clause: Clause { sorts, lits },
        is_or: opened.is_or,
    })
}

// Adds falsehood from each literal of the goal, whose negation is that hypothesis.
fn push_arms(
    alloc: Global,
    sig: &Signature,
    scope: &Scope<'_>,
    goal: &Opened,
    denial: u32,
    arms: &mut List<Proof>,
) -> Result<(), Memory>
    requires { IsGoal sig.now (scope_sorts scope.now) goal.now }
    ensures { OnOk result ((made : ListOf Deduction) × (arms.new ≡ arms.old ++ made)
        × EachRefutes sig.now (scope_sorts scope.now) denial (body goal.now) goal.now.clause.lits made) }
{
    let lits = goal.clause.lits.as_slice();
    for lit in lits {
        let arm = contrary(alloc, sig, scope, goal, lit, denial)?;
        arms.push(arm.into_inner())?;
    }
    Ok(())
}
