//! Whether all literals of a clause but one can be covered by the line.
ghost use Rattle.std.specs.Prelude.{◌≡◌, ◌<◌, false, length, remove, IfOk};
ghost use Rattle.rule_steps.specs.code.Beside.{NeverBeside};
ghost use Rattle.clause_rules.specs.Settled.{IsFit};

use crate::cover_rule::cover_clause;
use clause_form::{Clause, Lit, copy_lits};
use fof_terms::Signature;
use std::alloc::Global;
use substitution_search::{first_target, may_others_be_covered, no_guess};
use tptp_base::{List, Memory};

/// Whether one substitution may cover by the line all literals of the clause but literal i. A cheap test and a guess
/// come first.
pub fn may_rest_be_covered(
    alloc: Global,
    sig: &Signature,
    clause: &Clause,
    line: &Clause,
    i: usize,
) -> Result<bool, Memory>
    requires clause { IsFit sig.now clause.now }
    requires line { IsFit sig.now line.now }
    requires lit { i < length clause.now.lits }
    ensures { IfOk result (λ answer. answer ≡ false → NeverBeside sig.now line.now clause.now i) }
{
    if !may_others_be_covered(line.lits.as_slice(), clause.lits.as_slice(), i) {
        return Ok(false);
    }
    let is_guessed = have_targets(alloc, clause, line.lits.as_slice(), i)?;
    if is_guessed {
        return Ok(true);
    }
    let rest = without(alloc, clause, i)?;
    match cover_clause(alloc, sig, &rest, line)? {
        Some(_) => Ok(true),
        None => Ok(false),
    }
}

// Whether a guess has one of the targets for each literal of the clause but literal i.
fn have_targets(alloc: Global, clause: &Clause, targets: &[Lit], i: usize) -> Result<bool, Memory> {
    let lits = clause.lits.as_slice();
    let mut guess = no_guess(alloc, clause.sorts.len(), 0)?;
    for at in 0..lits.len() {
        if at != i {
            let found = first_target(&mut guess, &lits[at], targets)?;
            if found.is_none() {
                return Ok(false);
            }
        }
    }
    Ok(true)
}

// The clause without literal i.
fn without(alloc: Global, clause: &Clause, i: usize) -> Result<Clause, Memory>
    requires { i < length clause.now.lits }
    ensures sorts { IfOk result (λ rest. rest.sorts ≡ clause.now.sorts) }
    ensures lits { IfOk result (λ rest. rest.lits ≡ remove clause.now.lits i) }
{
    let mut lits = copy_lits(alloc, clause.lits.as_slice())?;
    lits.remove(i);
    let sorts = List::from_slice(alloc, clause.sorts.as_slice())?;
    Ok(Clause { sorts, lits })
}
