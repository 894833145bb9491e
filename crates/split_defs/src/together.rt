//! Clauses as one, the variables of each kept apart.
ghost use Rattle.std.specs.Prelude.{◌≡◌, ◌≤◌, length, IfOk};
ghost use Rattle.std.specs.List.{AllByRecursion};
ghost use Rattle.clause_rules.specs.Settled.{IsFit};
ghost use Rattle.split_defs.specs.SplitRule.{together as clauses_together};

use clause_form::{Clause, Lit};
use clause_rules::kept_apart;
use fof_terms::{Signature, SortId};
use std::alloc::Global;
use tptp_base::{List, Memory};

/// The clauses as one, those of the last numbered first. They have no more variables than `few_variables` takes.
pub fn together(alloc: Global, sig: &Signature, clauses: &[Clause]) -> Result<Clause, Memory>
    requires { AllByRecursion (IsFit sig.now) clauses.now }
    ensures is { IfOk result (λ whole. whole ≡ clauses_together clauses.now) }
    ensures few { IfOk result (λ whole. length whole.sorts ≤ 1000000000) }
{
    let sorts = all_sorts(alloc, clauses)?;
    let count = few_variables(sorts.len())?;
    let lits = all_lits(alloc, sig, clauses, count)?;
    Ok(Clause { sorts, lits })
}

/// So many variables as a number. More than 1,000,000,000, of which no memory has the formulas, are answered by want of
/// memory.
pub fn few_variables(count: usize) -> Result<u32, Memory>
    ensures is { IfOk result (λ found. found ≡ count) }
    ensures few { IfOk result (λ found. found ≤ 1000000000) }
{
    if count > 1_000_000_000 {
        return Err(Memory);
    }
    Ok(count as u32)
}

// The sorts of all clauses, those of the first outermost.
fn all_sorts(alloc: Global, clauses: &[Clause]) -> Result<List<SortId>, Memory>
    ensures { IfOk result (λ sorts. sorts ≡ (clauses_together clauses.now).sorts) }
{
    let mut sorts = List::new(alloc);
    for clause in clauses {
        sorts.append(List::from_slice(alloc, clause.sorts.as_slice())?)?;
    }
    Ok(sorts)
}

// The literals of all clauses, over so many variables.
fn all_lits(
    alloc: Global,
    sig: &Signature,
    clauses: &[Clause],
    count: u32,
) -> Result<List<Lit>, Memory>
    requires fit { AllByRecursion (IsFit sig.now) clauses.now }
    requires all { count ≡ length (clauses_together clauses.now).sorts }
    requires few { count ≤ 1000000000 }
    ensures { IfOk result (λ lits. lits ≡ (clauses_together clauses.now).lits) }
{
    let mut lits = List::new(alloc);
    let mut left = count;
    for clause in clauses {
        left -= clause.sorts.len() as u32;
        lits.append(kept_apart(alloc, sig, clause, left)?)?;
    }
    Ok(lits)
}
