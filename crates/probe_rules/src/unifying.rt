// Unifiers.
ghost use Rattle.std.specs.Prelude.{IfOk, length, true, ◌^◌, ◌≡◌, ◌≤◌};
ghost use Rattle.unify_terms.specs.Goals.{SolvesGoal, goal_sorted};
ghost use Rattle.unify_terms.specs.Substitution.{instance};
ghost use Rattle.unify_terms.specs.Unifiers.{AreSorted, Unified};

use crate::{Control, Probe};
use fof_terms::{Signature, Term};
use std::alloc::Global;
use tptp_base::{List, Memory};
use unify_terms::{Goal, Pair, Scope, Solution, Subst, apply, solve, unify};

/// Finds unifiers.
pub trait Unifying {
    /// A most general well-sorted unifier of the pairs, which fixes the rigid variables; None exactly where
    /// there is none.
    fn unify(
        alloc: Global,
        signature: &Signature,
        scope: &Scope,
        pairs: &[Pair],
    ) -> Result<Option<Subst>, Memory>
        requires few { length scope.now.sorts ≤ 2 ^ 32 }
        requires sorted { AreSorted signature.now scope.now.sorts pairs.now }
        ensures { IfOk result (λ answer. Unified signature.now scope.now.sorts scope.now.rigid pairs.now answer) };

    /// A substitution that meets the goal, with the choices that it meets it under; None exactly where there is
    /// none.
    fn solve(
        alloc: Global,
        signature: &Signature,
        scope: &Scope,
        goal: &Goal,
    ) -> Result<Option<Solution>, Memory>
        requires few { length scope.now.sorts ≤ 2 ^ 32 }
        requires sorted { goal_sorted signature.now scope.now.sorts goal.now ≡ true }
        ensures { IfOk result (λ answer. SolvesGoal signature.now scope.now goal.now answer) };

    /// The instance of the term.
    fn apply(alloc: Global, subst: &Subst, term: &Term) -> Result<Term, Memory>
        ensures { IfOk result (λ made. made ≡ instance subst.now term.now) };
}

impl Unifying for Probe {
    fn unify(
        alloc: Global,
        signature: &Signature,
        scope: &Scope,
        pairs: &[Pair],
    ) -> Result<Option<Subst>, Memory> {
        unify(alloc, signature, scope, pairs)
    }

    fn solve(
        alloc: Global,
        signature: &Signature,
        scope: &Scope,
        goal: &Goal,
    ) -> Result<Option<Solution>, Memory> {
        solve(alloc, signature, scope, goal)
    }

    fn apply(alloc: Global, subst: &Subst, term: &Term) -> Result<Term, Memory> {
        apply(alloc, subst, term)
    }
}

impl Unifying for Control {
    fn unify(
        alloc: Global,
        signature: &Signature,
        scope: &Scope,
        pairs: &[Pair],
    ) -> Result<Option<Subst>, Memory> {
        let same = Scope {
            sorts: List::from_slice(alloc, scope.sorts.as_slice())?,
            rigid: scope.rigid,
        };
        unify(alloc, signature, &same, pairs)
    }

    fn solve(
        alloc: Global,
        signature: &Signature,
        scope: &Scope,
        goal: &Goal,
    ) -> Result<Option<Solution>, Memory> {
        match solve(alloc, signature, scope, goal)? {
            Some(solution) => Ok(Some(Solution {
                subst: solution.subst,
                choices: solution.choices,
            })),
            None => Ok(None),
        }
    }

    fn apply(alloc: Global, subst: &Subst, term: &Term) -> Result<Term, Memory> {
        let copy = term.copy(alloc)?;
        apply(alloc, subst, &copy)
    }
}
