ghost use Rattle.std.specs.Prelude.{◌≡◌, ◌↔◌, IsTrue, IfOk};
ghost use Rattle.std.specs.List.{list_all};
ghost use Rattle.fof_terms.specs.Scope.{scope_sorts};
ghost use Rattle.unify_terms.specs.Unifiers.{AreSorted};
ghost use Rattle.unify_terms.specs.Goals.{pair_sorted, goal_sorted};

use crate::goal::Goal;
use crate::pair::Pair;
use crate::reversal::reversed;
use crate::scope::Scope;
use fof_terms::{Scope as Reach, Signature, sort_of};
use std::alloc::Global;
use tptp_base::{List, Memory};

/// Whether both sides of each pair are well-sorted, as `unify` asks.
pub fn are_sorted(
    alloc: Global,
    signature: &Signature,
    scope: &Scope,
    pairs: &[Pair],
) -> Result<bool, Memory>
    ensures { IfOk result (λ answer. IsTrue answer ↔ AreSorted signature.now scope.now.sorts pairs.now) }
{
    let sorts = reversed(alloc, List::from_slice(alloc, scope.sorts.as_slice())?)?;
    Ok(all_fit(signature, &Reach::Outside(sorts.as_slice()), pairs))
}

/// Whether all terms of the goal are well-sorted, as `solve` asks.
pub fn is_sorted_goal(
    alloc: Global,
    signature: &Signature,
    scope: &Scope,
    goal: &Goal,
) -> Result<bool, Memory>
    ensures { IfOk result (λ answer. answer ≡ goal_sorted signature.now scope.now.sorts goal.now) }
{
    let sorts = reversed(alloc, List::from_slice(alloc, scope.sorts.as_slice())?)?;
    Ok(goal_fits(goal, signature, &Reach::Outside(sorts.as_slice())))
}

// Whether both sides of each pair have a sort.
fn all_fit(signature: &Signature, reach: &Reach<'_>, pairs: &[Pair]) -> bool
    ensures { result ≡ list_all (pair_sorted signature.now (scope_sorts reach.now)) pairs.now }
{
    for pair in pairs {
        let left = sort_of(&pair.left, signature, reach);
        let right = sort_of(&pair.right, signature, reach);
        if left.is_none() || right.is_none() {
            return false;
        }
    }
    true
}

// Whether all terms of the goal have a sort.
#[tactic(auto, using(crate::proofs::GoalsFacts::goal_sorted_equations))]
#[cycle(goal_fits)]
fn goal_fits(goal: &Goal, signature: &Signature, reach: &Reach<'_>) -> bool
    ensures { result ≡ goal_sorted signature.now (scope_sorts reach.now) goal.now }
{
    match goal {
        Goal::All(goals) => goals_fit(goals.as_slice(), signature, reach),
        Goal::Any(goals) => goals_fit(goals.as_slice(), signature, reach),
        Goal::Same(pairs) => all_fit(signature, reach, pairs.as_slice()),
    }
}

#[tactic(auto, using(crate::proofs::GoalsFacts::goal_sorted_equations))]
#[cycle(goal_fits)]
fn goals_fit(goals: &[Goal], signature: &Signature, reach: &Reach<'_>) -> bool
    ensures { result ≡ list_all (goal_sorted signature.now (scope_sorts reach.now)) goals.now }
{
    for goal in goals {
        if !goal_fits(goal, signature, reach) {
            return false;
        }
    }
    true
}
