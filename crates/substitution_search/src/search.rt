//! The search for one substitution, and the clauses that parents are.
ghost use Rattle.std.specs.Prelude.{◌≡◌, ◌≤◌, ◌^◌, ◌∷◌, [], length, map, true, IfOk};
ghost use Rattle.unify_terms.specs.Goals.{SolvesGoal, goal_sorted};
ghost use Rattle.unify_terms.specs.declared.goal.Goal.{All};
ghost use Rattle.substitution_search.specs.Settled.{IsGuessed, IsSolution};
ghost use Rattle.clause_rules.specs.Steps.{clauses_of};
ghost use Rattle.clause_rules.specs.Ways.{cover_needs, goal_of_need, goal_of_needs, pair_of};

use crate::chances::may_be_met;
use crate::narrow::all_narrowed;
use crate::screening::may_all_become;
use crate::ways::{all_covered, alone, one_pair};
use clause_form::{Clause, Lit, Parent, as_clause};
use fof_terms::{Signature, Term};
use std::alloc::Global;
use tptp_base::{List, Memory};
use unify_terms::{Goal, Scope, Solution, Subst, solve};

/// A substitution that meets the goal; None exactly where there is none.
pub fn settle(
    alloc: Global,
    sig: &Signature,
    scope: &Scope,
    goal: &Goal,
) -> Result<Option<Subst>, Memory>
    requires few { length scope.now.sorts ≤ 2 ^ 32 }
    requires sorted { goal_sorted sig.now scope.now.sorts goal.now ≡ true }
    ensures { IfOk result (λ found. IsSolution sig.now scope.now goal.now found) }
{
    match solution_of(alloc, sig, scope, goal)? {
        Some(solution) => {
            let Solution { subst, choices: _ } = solution;
            Ok(Some(subst))
        }
        None => Ok(None),
    }
}

/// A substitution that covers the literals by the targets; None exactly where there is none. The goals of a guess come
/// first, and then a cheap test.
pub fn settle_covers(
    alloc: Global,
    sig: &Signature,
    scope: &Scope,
    lits: &[Lit],
    targets: &[Lit],
) -> Result<Option<Subst>, Memory>
    requires few { length scope.now.sorts ≤ 2 ^ 32 }
    requires sorted { goal_sorted sig.now scope.now.sorts (goal_of_needs (cover_needs targets.now lits.now)) ≡ true }
    ensures { IfOk result (λ found.
        IsSolution sig.now scope.now (goal_of_needs (cover_needs targets.now lits.now)) found) }
{
    let guessed = settle_narrowed(alloc, sig, scope, lits, targets)?;
    if let Some(subst) = guessed {
        return Ok(Some(subst));
    }
    if !may_all_become(targets, lits) {
        return Ok(None);
    }
    let goal = Goal::All(all_covered(alloc, lits, targets)?);
    settle(alloc, sig, scope, &goal)
}

/// A substitution that covers the literals by the targets of a guess, if there is one.
pub fn settle_narrowed(
    alloc: Global,
    sig: &Signature,
    scope: &Scope,
    lits: &[Lit],
    targets: &[Lit],
) -> Result<Option<Subst>, Memory>
    requires few { length scope.now.sorts ≤ 2 ^ 32 }
    requires sorted { goal_sorted sig.now scope.now.sorts (goal_of_needs (cover_needs targets.now lits.now)) ≡ true }
    ensures { IfOk result (λ found.
        IsGuessed sig.now scope.now (goal_of_needs (cover_needs targets.now lits.now)) found) }
{
    match all_narrowed(alloc, scope, lits, targets)? {
        Some(goals) => settle(alloc, sig, scope, &Goal::All(goals)),
        None => Ok(None),
    }
}

/// The same with two terms that become equal.
pub fn settle_beside(
    alloc: Global,
    sig: &Signature,
    scope: &Scope,
    left: &Term,
    right: &Term,
    lits: &[Lit],
    targets: &[Lit],
) -> Result<Option<Subst>, Memory>
    requires few { length scope.now.sorts ≤ 2 ^ 32 }
    requires sorted { goal_sorted sig.now scope.now.sorts (goal_of_needs (((pair_of left.now right.now ∷ []) ∷ [])
        ∷ cover_needs targets.now lits.now)) ≡ true }
    ensures { IfOk result (λ found. IsSolution sig.now scope.now (goal_of_needs (((pair_of left.now right.now ∷ [])
        ∷ []) ∷ cover_needs targets.now lits.now)) found) }
{
    let guessed = narrowed_beside(alloc, sig, scope, left, right, lits, targets)?;
    if let Some(subst) = guessed {
        return Ok(Some(subst));
    }
    if !may_all_become(targets, lits) {
        return Ok(None);
    }
    let goals = all_covered(alloc, lits, targets)?;
    let goal = equal_and(alloc, left, right, goals)?;
    settle(alloc, sig, scope, &goal)
}

// The same with the targets of a guess.
fn narrowed_beside(
    alloc: Global,
    sig: &Signature,
    scope: &Scope,
    left: &Term,
    right: &Term,
    lits: &[Lit],
    targets: &[Lit],
) -> Result<Option<Subst>, Memory>
    requires few { length scope.now.sorts ≤ 2 ^ 32 }
    requires sorted { goal_sorted sig.now scope.now.sorts (goal_of_needs (((pair_of left.now right.now ∷ []) ∷ [])
        ∷ cover_needs targets.now lits.now)) ≡ true }
    ensures { IfOk result (λ found. IsGuessed sig.now scope.now (goal_of_needs (((pair_of left.now right.now ∷ []) ∷ [])
        ∷ cover_needs targets.now lits.now)) found) }
{
    match all_narrowed(alloc, scope, lits, targets)? {
        Some(goals) => {
            let goal = equal_and(alloc, left, right, goals)?;
            settle(alloc, sig, scope, &goal)
        }
        None => Ok(None),
    }
}

// The goal that the two terms are equal, and all of the goals.
fn equal_and(alloc: Global, left: &Term, right: &Term, goals: List<Goal>) -> Result<Goal, Memory>
    ensures { IfOk result (λ goal. goal ≡ All (goal_of_need ((pair_of left.now right.now ∷ []) ∷ []) ∷ goals)) }
{
    let same = alone(alloc, one_pair(alloc, left, right)?)?;
    let mut all = alone(alloc, Goal::Any(same))?;
    all.append(goals)?;
    Ok(Goal::All(all))
}

/// A solution of the goal, as `solve` finds it. A cheap test comes first.
pub fn solution_of(
    alloc: Global,
    sig: &Signature,
    scope: &Scope,
    goal: &Goal,
) -> Result<Option<Solution>, Memory>
    requires few { length scope.now.sorts ≤ 2 ^ 32 }
    requires sorted { goal_sorted sig.now scope.now.sorts goal.now ≡ true }
    ensures { IfOk result (λ answer. SolvesGoal sig.now scope.now goal.now answer) }
{
    if !may_be_met(goal, scope.rigid) {
        return Ok(None);
    }
    solve(alloc, sig, scope, goal)
}

/// The clause that each parent is, if it is one.
pub fn clauses_of_parents(alloc: Global, parents: &[Parent]) -> Result<List<Option<Clause>>, Memory>
    ensures { IfOk result (λ clauses. clauses ≡ clauses_of parents.now) }
{
    let mut clauses = List::new(alloc);
    for parent in parents {
        clauses.push(as_clause(alloc, &parent.form)?)?;
    }
    Ok(clauses)
}
