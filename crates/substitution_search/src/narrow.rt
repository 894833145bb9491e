//! Goals with one target for each literal, as a guess has them. They are met sooner than those with all targets, and
//! what meets them meets those.
ghost use Rattle.std.specs.Prelude.{IfOk, IfSome};
ghost use Rattle.substitution_search.specs.code.Narrow.{AreNarrow, IsNarrow};
ghost use Rattle.clause_rules.specs.Ways.{cover_needs, cover_ways};

use crate::guess::{Guess, first_target, no_guess};
use crate::ways::ways_to;
use clause_form::Lit;
use std::alloc::Global;
use tptp_base::{List, Memory};
use unify_terms::{Goal, Scope};

/// The goals that each literal becomes the target that a guess has for it, if it has one for each.
pub fn all_narrowed(
    alloc: Global,
    scope: &Scope,
    lits: &[Lit],
    targets: &[Lit],
) -> Result<Option<List<Goal>>, Memory>
    ensures { IfOk result (λ found. IfSome found (AreNarrow (cover_needs targets.now lits.now))) }
{
    let mut guess = no_guess(alloc, scope.sorts.len(), scope.rigid)?;
    let mut goals = List::new(alloc);
    for lit in lits {
        match narrowed(alloc, &mut guess, lit, targets)? {
            Some(goal) => goals.push(goal)?,
            None => return Ok(None),
        }
    }
    Ok(Some(goals))
}

// The goal that the literal becomes the target that the guess has for it.
fn narrowed<'a>(
    alloc: Global,
    guess: &mut Guess<'a>,
    lit: &'a Lit,
    targets: &'a [Lit],
) -> Result<Option<Goal>, Memory>
    ensures { IfOk result (λ found. IfSome found (IsNarrow (cover_ways targets.now lit.now))) }
{
    match first_target(guess, lit, targets)? {
        Some(at) => {
            if at >= targets.len() {
                return Ok(None);
            }
            let ways = ways_to(alloc, lit.positive, &lit.atom, &targets[at])?;
            Ok(Some(Goal::Any(ways)))
        }
        None => Ok(None),
    }
}
