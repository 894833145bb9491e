ghost use Rattle.std.specs.Prelude.{◌≡◌, ◌≤◌, ◌^◌, ◌++◌, [], ◌∷◌, length, map, IfOk, IsTrue, None, true};
ghost use Rattle.std.specs.List.{list_all};
ghost use Rattle.unify_terms.specs.declared.pending.Pending.{Done};
ghost use Rattle.unify_terms.specs.Unifiers.{AreSorted, Unified};
ghost use Rattle.unify_terms.specs.code.Chosen.{chosen_pairs};
ghost use Rattle.unify_terms.specs.Goals.{asked, before, goal_sorted, SolvesGoal};
ghost use Rattle.unify_terms.specs.code.Pending.{asked_pending, one_before, pending_sorted};
ghost use Rattle.unify_terms.specs.code.Searched.{Searched};

use crate::chosen::Chosen;
use crate::goal::Goal;
use crate::pending::Pending;
use crate::reversal::reversed;
use crate::scope::Scope;
use crate::substitution::Subst;
use crate::unification::{is_hopeless, unify_chosen};
use fof_terms::Signature;
use std::alloc::Global;
use tptp_base::{List, Memory};

/// A substitution that meets a goal, and the chosen member of each Any met on a walk from the left, the first one
/// being 0.
#[derive(Drop)]
pub struct Solution {
    pub subst: Subst,
    pub choices: List<usize>,
}

/// A substitution that meets the goal, with the choices that it meets it under; None exactly where there is none. The
/// members of an Any are tried in their order, and the first that leads to a substitution is taken.
pub fn solve(
    alloc: Global,
    signature: &Signature,
    scope: &Scope,
    goal: &Goal,
) -> Result<Option<Solution>, Memory>
    requires few { length scope.now.sorts ≤ 2 ^ 32 }
    requires sorted { goal_sorted signature.now scope.now.sorts goal.now ≡ true }
    ensures { IfOk result (λ answer. SolvesGoal signature.now scope.now goal.now answer) }
{
    match meet(
        goal,
        false,
        &Pending::Done,
        alloc,
        signature,
        scope,
        &Chosen::Nothing,
    )? {
        Some(found) => {
            let Solution { subst, choices } = found;
            let choices = reversed(alloc, choices)?;
            Ok(Some(Solution { subst, choices }))
        }
        None => Ok(None),
    }
}

// A substitution that meets what is pending and the pairs chosen; the choices are answered last one first.
#[cycle(search)]
fn search(
    pending: &Pending<'_>,
    alloc: Global,
    signature: &Signature,
    scope: &Scope,
    chosen: &Chosen<'_>,
) -> Result<Option<Solution>, Memory>
    requires few { length scope.now.sorts ≤ 2 ^ 32 }
    requires sorted { AreSorted signature.now scope.now.sorts (chosen_pairs chosen.now) }
    requires pending { pending_sorted signature.now scope.now.sorts pending.now ≡ true }
    ensures { IfOk result (λ answer.
        Searched signature.now scope.now (chosen_pairs chosen.now) (asked_pending pending.now) answer) }
{
    match pending {
        Pending::Done => ended(alloc, signature, scope, chosen),
        Pending::One(goal, rest) => meet(goal, false, &*rest, alloc, signature, scope, chosen),
        Pending::Each(goals, at, rest) => match goals.get(*at) {
            Some(goal) => meet(
                goal,
                false,
                &Pending::Each(goals, *at + 1, &*rest),
                alloc,
                signature,
                scope,
                chosen,
            ),
            None => search(&*rest, alloc, signature, scope, chosen),
        },
    }
}

// The substitution, where nothing is left.
fn ended(
    alloc: Global,
    signature: &Signature,
    scope: &Scope,
    chosen: &Chosen<'_>,
) -> Result<Option<Solution>, Memory>
    requires few { length scope.now.sorts ≤ 2 ^ 32 }
    requires sorted { AreSorted signature.now scope.now.sorts (chosen_pairs chosen.now) }
    ensures { IfOk result (λ answer.
        Searched signature.now scope.now (chosen_pairs chosen.now) (asked_pending Done) answer) }
{
    match unify_chosen(alloc, signature, scope, chosen)? {
        Some(subst) => Ok(Some(Solution {
            subst,
            choices: List::new(alloc),
        })),
        None => Ok(None),
    }
}

// The same with the goal before what is pending. Where the goal was chosen and another one may be met in its place, a
// failure is found before the rest is met; where there is no choice it shows at the next one, or in the end.
#[cycle(search)]
fn meet(
    goal: &Goal,
    is_choice: bool,
    rest: &Pending<'_>,
    alloc: Global,
    signature: &Signature,
    scope: &Scope,
    chosen: &Chosen<'_>,
) -> Result<Option<Solution>, Memory>
    requires few { length scope.now.sorts ≤ 2 ^ 32 }
    requires sorted { AreSorted signature.now scope.now.sorts (chosen_pairs chosen.now) }
    requires goal { goal_sorted signature.now scope.now.sorts goal.now ≡ true }
    requires rest { pending_sorted signature.now scope.now.sorts rest.now ≡ true }
    ensures { IfOk result (λ answer.
        Searched signature.now scope.now (chosen_pairs chosen.now)
        (before (asked goal.now) (asked_pending rest.now)) answer) }
{
    match goal {
        Goal::All(goals) => {
            let pending = Pending::Each(goals.as_slice(), 0, &*rest);
            search(&pending, alloc, signature, scope, chosen)
        }
        Goal::Any(goals) => first_of(goals.as_slice(), &*rest, alloc, signature, scope, chosen),
        Goal::Same(pairs) => {
            let more = Chosen::Then(&*chosen, pairs.as_slice());
            let hopeless = fails_early(is_choice, alloc, signature, scope, &more)?;
            if hopeless {
                return Ok(None);
            }
            search(&*rest, alloc, signature, scope, &more)
        }
    }
}

// Whether the pairs that were chosen have no unifier. This is looked for only where the last ones were a choice.
fn fails_early(
    is_choice: bool,
    alloc: Global,
    signature: &Signature,
    scope: &Scope,
    chosen: &Chosen<'_>,
) -> Result<bool, Memory>
    requires sorted { AreSorted signature.now scope.now.sorts (chosen_pairs chosen.now) }
    ensures { IfOk result (λ answer. IsTrue answer
        → Unified signature.now scope.now.sorts scope.now.rigid (chosen_pairs chosen.now) None) }
{
    if !is_choice {
        return Ok(false);
    }
    is_hopeless(alloc, signature, scope, chosen)
}

// The same with one of the goals before what is pending.
#[cycle(search)]
fn first_of(
    goals: &[Goal],
    rest: &Pending<'_>,
    alloc: Global,
    signature: &Signature,
    scope: &Scope,
    chosen: &Chosen<'_>,
) -> Result<Option<Solution>, Memory>
    requires few { length scope.now.sorts ≤ 2 ^ 32 }
    requires sorted { AreSorted signature.now scope.now.sorts (chosen_pairs chosen.now) }
    requires goals { list_all (goal_sorted signature.now scope.now.sorts) goals.now ≡ true }
    requires rest { pending_sorted signature.now scope.now.sorts rest.now ≡ true }
    ensures { IfOk result (λ answer.
        Searched signature.now scope.now (chosen_pairs chosen.now)
        (one_before (map asked goals.now) (asked_pending rest.now)) answer) }
{
    let is_choice = goals.len() > 1;
    for at in 0..goals.len() {
        let found = meet(
            &goals[at], is_choice, &*rest, alloc, signature, scope, chosen,
        )?;
        match found {
            Some(found) => return Ok(Some(with_choice(found, at)?)),
            None => {}
        }
    }
    Ok(None)
}

// The solution with one choice more, which was made first.
fn with_choice(found: Solution, at: usize) -> Result<Solution, Memory>
    ensures { IfOk result (λ solution. (solution.subst ≡ found.subst) × (solution.choices ≡ found.choices ++ at ∷ [])) }
{
    let Solution { subst, choices } = found;
    let mut choices = choices;
    choices.push(at)?;
    Ok(Solution { subst, choices })
}
