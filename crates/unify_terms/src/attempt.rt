ghost use Rattle.std.specs.Prelude.{◌≤◌, ◌^◌, length, IfOk};
ghost use Rattle.unify_terms.specs.Unifiers.{AreSorted};
ghost use Rattle.unify_terms.specs.code.Attempts.{IsAttempt, IsFound};

use crate::binding::{Equating, none_bound};
use crate::equating::equate_pairs;
use crate::pair::Pair;
use crate::scope::Scope;
use crate::showing::images_shown;
use crate::substitution::Subst;
use fof_terms::{Signature, Term};
use std::alloc::Global;
use tptp_base::Memory;

/// How many steps are taken to make pairs equal, and as many to make the images.
const STEPS: u32 = 4_000;

/// What a few steps tell of pairs.
#[derive(Drop)]
pub enum Attempt {
    /// This is a most general unifier.
    Found(Subst),
    /// There is none.
    Clash,
    /// They don't tell.
    Unknown,
}

/// Looks for a most general unifier of the pairs by a few steps, which do for nearly all pairs: they
/// bind variables to terms where these stand.
pub fn try_pairs(
    alloc: Global,
    signature: &Signature,
    scope: &Scope,
    pairs: &[Pair],
) -> Result<Attempt, Memory>
    requires few { length scope.now.sorts ≤ 2 ^ 32 }
    requires sorted { AreSorted signature.now scope.now.sorts pairs.now }
    ensures { IfOk result (λ attempt.
        IsAttempt signature.now scope.now.sorts scope.now.rigid pairs.now attempt) }
{
    let mut bound = none_bound(alloc, scope.sorts.len())?;
    let mut steps = STEPS;
    match equate_pairs(pairs, signature, scope, &mut bound, &mut steps) {
        Equating::Equal => found(alloc, bound.as_slice()),
        Equating::Clash => Ok(Attempt::Clash),
        Equating::Unknown => Ok(Attempt::Unknown),
    }
}

// What variables that are bound stand for.
fn found(alloc: Global, bound: &[Option<&Term>]) -> Result<Attempt, Memory>
    requires { length bound.now ≤ 2 ^ 32 }
    ensures { IfOk result (IsFound bound.now) }
{
    let mut steps = STEPS;
    match images_shown(alloc, bound, &mut steps)? {
        Some(images) => Ok(Attempt::Found(Subst { images })),
        None => Ok(Attempt::Unknown),
    }
}
